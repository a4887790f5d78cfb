// Laws of the grammar. Each is the contract of a function that does nothing: it says what holds of the
// definitions in specs/, for every tree and every list of symbols.

ghost use Rattle.php_grammar.specs.declaration.Laws.{MemberNestingAgrees, ScriptNestingAgrees};
ghost use Rattle.php_grammar.specs.declaration.Laws.{SignatureNestingAgrees};
ghost use Rattle.php_grammar.specs.declaration.Laws.{OneScript, OneScriptTree, OneSignature};
ghost use Rattle.php_grammar.specs.declaration.Laws.{OneSignatureTree, ReadsMembersBack};
ghost use Rattle.php_grammar.specs.declaration.Laws.{ReadsScriptsBack, ReadsSignaturesBack};
ghost use Rattle.php_grammar.specs.declaration.Laws.{ScriptSizesAgree, SignatureSizesAgree};
ghost use Rattle.php_grammar.specs.expression.Laws.{ReadingBegins, ReadsBack, OneForm, OneTree};
ghost use Rattle.php_grammar.specs.expression.Laws.{NestingAgrees, SizesAgree, StopsExactly, Unfinished};
ghost use Rattle.php_grammar.specs.expression.Rules.{RulesAgree};
ghost use Rattle.php_grammar.specs.statement.Laws.{OneStatement, ReadsStatementsBack};
ghost use Rattle.php_grammar.specs.statement.Laws.{OneStatementTree, StatementNestingAgrees};
ghost use Rattle.php_grammar.specs.statement.Laws.{StatementSizesAgree};
ghost use Rattle.php_grammar.specs.TooDeep.{WalksAgree};

/// What a reading has read begins the spelling of a proper tree.
pub fn reading_begins()
    ensures { ReadingBegins }
{}

/// The spelling of a proper tree is read back to that tree.
pub fn reads_back()
    ensures { ReadsBack }
{}

/// A list of symbols spells at most one expression.
pub fn one_form()
    ensures { OneForm }
{}

/// Tokens spell at most one tree, with its notes.
pub fn one_tree()
    ensures { OneTree }
{}

/// The rules of powers, said of lists of operators, are what the numbers of `Proper` say.
pub fn rules_agree()
    ensures { RulesAgree }
{}

/// The nesting that a reading counts is that of the tree.
pub fn nesting_agrees()
    ensures { NestingAgrees }
{}

/// A tree has as many tokens as the places of its notes say.
pub fn sizes_agree()
    ensures { SizesAgree }
{}

/// Where a reading halts and something is missing, what was read spells no expression that ends there.
pub fn unfinished()
    ensures { Unfinished }
{}

/// Where a reading stops, the symbols begin no expression with one more.
pub fn stops_exactly()
    ensures { StopsExactly }
{}

/// The walk to the first token that is too deep counts the nesting of an expression as its reading does.
pub fn walks_agree()
    ensures { WalksAgree }
{}

/// The spelling of a proper statement is read back to that statement.
pub fn reads_statements_back()
    ensures { ReadsStatementsBack }
{}

/// A list of symbols spells at most one statement.
pub fn one_statement()
    ensures { OneStatement }
{}

/// The spelling of a proper signature is read back to that signature.
pub fn reads_signatures_back()
    ensures { ReadsSignaturesBack }
{}

/// The spelling of a proper member is read back to that member.
pub fn reads_members_back()
    ensures { ReadsMembersBack }
{}

/// The spelling of a proper script is read back to that script.
pub fn reads_scripts_back()
    ensures { ReadsScriptsBack }
{}

/// A list of symbols spells at most one script.
pub fn one_script()
    ensures { OneScript }
{}

/// A statement has as many tokens as the places of its notes say.
pub fn statement_sizes_agree()
    ensures { StatementSizesAgree }
{}

/// A signature has as many tokens as the places of its notes say.
pub fn signature_sizes_agree()
    ensures { SignatureSizesAgree }
{}

/// A script has as many tokens as the places of its notes say.
pub fn script_sizes_agree()
    ensures { ScriptSizesAgree }
{}

/// Tokens spell at most one statement, with its notes.
pub fn one_statement_tree()
    ensures { OneStatementTree }
{}

/// A list of symbols spells at most one signature.
pub fn one_signature()
    ensures { OneSignature }
{}

/// Tokens spell at most one signature, with its notes.
pub fn one_signature_tree()
    ensures { OneSignatureTree }
{}

/// Tokens spell at most one script, with its notes.
pub fn one_script_tree()
    ensures { OneScriptTree }
{}

/// The nesting that the reading of a statement counts is that of the tree.
pub fn statement_nesting_agrees()
    ensures { StatementNestingAgrees }
{}

/// The nesting that the reading of a signature counts is that of the tree.
pub fn signature_nesting_agrees()
    ensures { SignatureNestingAgrees }
{}

/// The nesting that the reading of a member counts is that of the tree.
pub fn member_nesting_agrees()
    ensures { MemberNestingAgrees }
{}

/// The nesting that the reading of a script counts is that of the tree.
pub fn script_nesting_agrees()
    ensures { ScriptNestingAgrees }
{}
