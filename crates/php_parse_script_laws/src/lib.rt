// Laws of what the parsers answer. Each is the contract of a function that does nothing: it says what holds of the
// definitions, for all trees and all tokens.
//
// So the parsers' contracts leave no choice: but for want of memory, which may come at any time, tokens have one answer, the
// very tree with its places and lines, or the very refusal.
#![tactic(auto)]

ghost use Rattle.std.specs.Prelude.{◌≡◌, ◌≢◌, true, ℕ, List, Result, Err};
ghost use Rattle.php_token.specs.Token.{Token};
ghost use Rattle.php_ast.specs.declared.expression.Expr.{Expr};
ghost use Rattle.php_ast.specs.declared.statement.Stmt.{Stmt};
ghost use Rattle.php_ast.specs.declared.declaration.Signature.{Signature};
ghost use Rattle.php_ast.specs.declared.script.Script.{Script};
ghost use Rattle.php_ast.specs.statement.View.{statement_view};
ghost use Rattle.php_ast.specs.declaration.View.{signature_view, script_view};
ghost use Rattle.php_flat.specs.Statements.{is_flat_statement};
ghost use Rattle.php_flat.specs.Declarations.{is_flat_signature, is_flat_script};
ghost use Rattle.php_reader.specs.declared.fail.ParseFail.{ParseFail};
ghost use Rattle.php_reader.specs.declared.fail.ParseFail.TheVariants.{NoMemory};
ghost use Rattle.php_parse_script_laws.specs.Answers.{IsScriptAnswer, IsStatementAnswer, IsSignatureAnswer, IsExpressionAnswer};

/// Of the tokens of a file, `parse` has one answer but for want of memory: any two that its contract allows are the same.
pub fn one_script_answer()
    ensures { (tokens : List Token) (one other : Result Script ParseFail)
        → IsScriptAnswer tokens one → IsScriptAnswer tokens other → one ≢ Err NoMemory → other ≢ Err NoMemory → one ≡ other }
{}

/// Of the tokens, the place and the depth that `parse_statement` is given, it has one answer but for want of memory: one
/// statement with one end, or one refusal.
pub fn one_statement_answer()
    ensures { (depth at : ℕ) (tokens : List Token) (one other : Result (Stmt × ℕ) ParseFail)
        → IsStatementAnswer depth tokens at one → IsStatementAnswer depth tokens at other
        → one ≢ Err NoMemory → other ≢ Err NoMemory → one ≡ other }
{}

/// The same of `parse_signature`.
pub fn one_signature_answer()
    ensures { (depth at : ℕ) (tokens : List Token) (one other : Result (Signature × ℕ) ParseFail)
        → IsSignatureAnswer depth tokens at one → IsSignatureAnswer depth tokens at other
        → one ≢ Err NoMemory → other ≢ Err NoMemory → one ≡ other }
{}

/// The same of `parse_expr`.
pub fn one_expression_answer()
    ensures { (depth at : ℕ) (tokens : List Token) (one other : Result (Expr × ℕ) ParseFail)
        → IsExpressionAnswer depth tokens at one → IsExpressionAnswer depth tokens at other
        → one ≢ Err NoMemory → other ≢ Err NoMemory → one ≡ other }
{}

/// Two flat statements that stand for one tree of the grammar are the same.
pub fn one_flat_statement()
    ensures { (s t : Stmt) → is_flat_statement s ≡ true → is_flat_statement t ≡ true → statement_view s ≡ statement_view t → s ≡ t }
{}

/// Two flat signatures that stand for one tree of the grammar are the same.
pub fn one_flat_signature()
    ensures { (s t : Signature) → is_flat_signature s ≡ true → is_flat_signature t ≡ true → signature_view s ≡ signature_view t → s ≡ t }
{}

/// Two flat scripts that stand for one tree of the grammar are the same.
pub fn one_flat_script()
    ensures { (s t : Script) → is_flat_script s ≡ true → is_flat_script t ≡ true → script_view s ≡ script_view t → s ≡ t }
{}
