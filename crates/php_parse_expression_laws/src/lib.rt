// Laws of what the parser answers. Each is the contract of a function that does nothing: it says what holds of
// the definitions, for all expressions and all tokens.
#![tactic(auto)]

ghost use Rattle.std.specs.Prelude.{◌≡◌, true, ℕ, List};
ghost use Rattle.php_token.specs.Token.{Token};
ghost use Rattle.php_ast.specs.declared.expression.Expr.{Expr};
ghost use Rattle.php_ast.specs.expression.View.{view};
ghost use Rattle.php_parse_expression.specs.Exact.{IsRead};
ghost use Rattle.php_build.specs.Flat.{is_flat};

/// Two flat expressions that stand for one tree of the grammar are the same. So `parse_expr` answers the only flat
/// expression that its tokens spell: they leave no choice of what its lists of suffixes and of links hold.
pub fn one_flat_expression()
    ensures { (e f : Expr) → is_flat e ≡ true → is_flat f ≡ true → view e ≡ view f → e ≡ f }
{}

/// Of the tokens, the place and the depth that `parse_expr` is given, at most one expression and one end are an answer:
/// any two that its contract allows are the same.
pub fn one_answer()
    ensures { (depth at k j : ℕ) (tokens : List Token) (e f : Expr)
        → IsRead depth tokens at e k → IsRead depth tokens at f j → is_flat e ≡ true → is_flat f ≡ true
        → (e ≡ f) × (k ≡ j) }
{}
