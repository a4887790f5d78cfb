// Laws of statements and declarations. Each is the contract of a function that does nothing: it says what holds of the
// definitions in specs/, for every tree and every list of symbols.

ghost use Rattle.php_grammar_laws.specs.Ends.{FunctionWalkEnds, MemberWalkEnds};
ghost use Rattle.php_grammar_laws.specs.Ends.{MethodWalkEnds, ScriptWalkEnds};
ghost use Rattle.php_grammar_laws.specs.Ends.{SignatureWalkEnds, StatementWalkEnds};
ghost use Rattle.php_grammar_laws.specs.Functions.{FunctionReadingBegins, FunctionStopsExactly};
ghost use Rattle.php_grammar_laws.specs.Functions.{MethodReadingBegins, MethodStopsExactly};
ghost use Rattle.php_grammar_laws.specs.Functions.{OneFunction, OneMethod};
ghost use Rattle.php_grammar_laws.specs.Functions.{ReadsFunctionsBack, ReadsMethodsBack};
ghost use Rattle.php_grammar_laws.specs.Functions.{UnfinishedFunction, UnfinishedMethod};
ghost use Rattle.php_grammar_laws.specs.Members.{MemberReadingBegins, MemberStopsExactly};
ghost use Rattle.php_grammar_laws.specs.Members.{OneMember, UnfinishedMember};
ghost use Rattle.php_grammar_laws.specs.Scripts.{ScriptReadingBegins, ScriptStopsExactly};
ghost use Rattle.php_grammar_laws.specs.Scripts.{UnfinishedScript};
ghost use Rattle.php_grammar_laws.specs.Signatures.{SignatureReadingBegins};
ghost use Rattle.php_grammar_laws.specs.Signatures.{SignatureStopsExactly, UnfinishedSignature};
ghost use Rattle.php_grammar_laws.specs.Statements.{StatementReadingBegins};
ghost use Rattle.php_grammar_laws.specs.Statements.{StatementStopsExactly, UnfinishedStatement};
ghost use Rattle.php_grammar_laws.specs.Walks.{FunctionSignatures, FunctionStatements};
ghost use Rattle.php_grammar_laws.specs.Walks.{MembersLendConstants, MembersLendFunctions};
ghost use Rattle.php_grammar_laws.specs.Walks.{MembersLendProperties};
ghost use Rattle.php_grammar_laws.specs.Walks.{MethodSignatures, MethodStatements};
ghost use Rattle.php_grammar_laws.specs.Walks.{ScriptsLendFunctions, ScriptsLendMembers};
ghost use Rattle.php_grammar_laws.specs.Walks.{ScriptsLendStatements, SignaturesLend};
ghost use Rattle.php_grammar_laws.specs.Walks.{StatementsLend};

/// What a reading of a statement has read begins the spelling of a proper statement.
pub fn statement_reading_begins()
    ensures { StatementReadingBegins }
{}

/// Where a reading of a statement halts and something is missing, what was read spells no statement that ends there.
pub fn unfinished_statement()
    ensures { UnfinishedStatement }
{}

/// Where a reading of a statement stops, the symbols begin no statement with one more.
pub fn statement_stops_exactly()
    ensures { StatementStopsExactly }
{}

/// What a reading of a signature has read begins the spelling of a proper signature.
pub fn signature_reading_begins()
    ensures { SignatureReadingBegins }
{}

/// Where a reading of a signature halts and something is missing, what was read spells no signature that ends there.
pub fn unfinished_signature()
    ensures { UnfinishedSignature }
{}

/// Where a reading of a signature stops, the symbols begin no signature with one more.
pub fn signature_stops_exactly()
    ensures { SignatureStopsExactly }
{}

/// What a reading of a function has read behind the word `function` begins the spelling of a proper function.
pub fn function_reading_begins()
    ensures { FunctionReadingBegins }
{}

/// The spelling of a proper function is read back to that function, in front of anything.
pub fn reads_functions_back()
    ensures { ReadsFunctionsBack }
{}

/// A list of symbols spells at most one function.
pub fn one_function()
    ensures { OneFunction }
{}

/// Where a reading of a function halts and something is missing, what was read spells no function.
pub fn unfinished_function()
    ensures { UnfinishedFunction }
{}

/// Where a reading of a function stops, the symbols begin no function with one more.
pub fn function_stops_exactly()
    ensures { FunctionStopsExactly }
{}

/// What a reading of a method has read behind the word `function` begins the spelling of a proper method.
pub fn method_reading_begins()
    ensures { MethodReadingBegins }
{}

/// The spelling of a proper method is read back to that method, in front of anything.
pub fn reads_methods_back()
    ensures { ReadsMethodsBack }
{}

/// A list of symbols spells at most one method.
pub fn one_method()
    ensures { OneMethod }
{}

/// Where a reading of a method halts and something is missing, what was read spells no method.
pub fn unfinished_method()
    ensures { UnfinishedMethod }
{}

/// Where a reading of a method stops, the symbols begin no method with one more.
pub fn method_stops_exactly()
    ensures { MethodStopsExactly }
{}

/// What a reading of a member has read begins the spelling of a proper member.
pub fn member_reading_begins()
    ensures { MemberReadingBegins }
{}

/// A list of symbols spells at most one member.
pub fn one_member()
    ensures { OneMember }
{}

/// Where a reading of a member halts and something is missing, what was read spells no member.
pub fn unfinished_member()
    ensures { UnfinishedMember }
{}

/// Where a reading of a member stops, the symbols begin no member with one more.
pub fn member_stops_exactly()
    ensures { MemberStopsExactly }
{}

/// What a reading of a script has read begins the spelling of a proper script.
pub fn script_reading_begins()
    ensures { ScriptReadingBegins }
{}

/// Where a reading of a script lacks something at the end of all symbols, these spell no script.
pub fn unfinished_script()
    ensures { UnfinishedScript }
{}

/// Where a reading of a script stops, the symbols begin no script with one more.
pub fn script_stops_exactly()
    ensures { ScriptStopsExactly }
{}

/// The walk of an expression in a statement is the walk of the expression, and then what the statement does with it.
pub fn statements_lend()
    ensures { StatementsLend }
{}

/// The walk of the value of a parameter is the walk of the expression, and then what the signature does with it.
pub fn signatures_lend()
    ensures { SignaturesLend }
{}

/// The walk of a signature in a function is the walk of the signature, and then what the function does with it.
pub fn functions_lend_signatures()
    ensures { FunctionSignatures }
{}

/// The walk of a statement in the block of a function is the walk of the statement, and then what the function does with it.
pub fn functions_lend_statements()
    ensures { FunctionStatements }
{}

/// The walk of a signature in a method is the walk of the signature, and then what the method does with it.
pub fn methods_lend_signatures()
    ensures { MethodSignatures }
{}

/// The walk of a statement in the block of a method is the walk of the statement, and then what the method does with it.
pub fn methods_lend_statements()
    ensures { MethodStatements }
{}

/// The walk of a method in a member is the walk of the method.
pub fn members_lend_functions()
    ensures { MembersLendFunctions }
{}

/// The walk of the value of a class constant is the walk of the expression, and then what the member does with it.
pub fn members_lend_constants()
    ensures { MembersLendConstants }
{}

/// The walk of the value of a property is the walk of the expression, and then what the member does with it.
pub fn members_lend_properties()
    ensures { MembersLendProperties }
{}

/// The walk of a statement in a script is the walk of the statement, and then what the script does with it.
pub fn scripts_lend_statements()
    ensures { ScriptsLendStatements }
{}

/// The walk of a function in a script is the walk of the function, and then what the script does with it.
pub fn scripts_lend_functions()
    ensures { ScriptsLendFunctions }
{}

/// The walk of a member in a script is the walk of the member, and then what the script does with it.
pub fn scripts_lend_members()
    ensures { ScriptsLendMembers }
{}

/// Where a walk of a statement ends: how far the symbols begin or spell one, and which is the first that is too deep.
pub fn statement_walk_ends()
    ensures { StatementWalkEnds }
{}

/// Where a walk of a signature ends: how far the symbols begin or spell one, and which is the first that is too deep.
pub fn signature_walk_ends()
    ensures { SignatureWalkEnds }
{}

/// Where a walk of a function ends: how far the symbols begin or spell one, and which is the first that is too deep.
pub fn function_walk_ends()
    ensures { FunctionWalkEnds }
{}

/// Where a walk of a method ends: how far the symbols begin or spell one, and which is the first that is too deep.
pub fn method_walk_ends()
    ensures { MethodWalkEnds }
{}

/// Where a walk of a member ends: how far the symbols begin or spell one, and which is the first that is too deep.
pub fn member_walk_ends()
    ensures { MemberWalkEnds }
{}

/// Where a walk of a script ends: how far the symbols begin or spell one, and which is the first that is too deep.
pub fn script_walk_ends()
    ensures { ScriptWalkEnds }
{}
