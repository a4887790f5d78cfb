// What the first form that isn't told is among all forms of a script. Each function says it in its contract, and its body is empty.

ghost use Rattle.std.specs.Prelude.{◌≡◌, List, None};
ghost use Rattle.php_token.specs.Token.{Token};
ghost use Rattle.php_ast.specs.declaration.Placed.{IsPlacedScript};
ghost use Rattle.php_ast.specs.declaration.Tree.{Script};
ghost use Rattle.php_ast.specs.expression.View.{Note};
ghost use Rattle.php_runnable.specs.Told.{IsScriptTold};
ghost use Rattle.php_told.specs.First.{first_not_told};
ghost use Rattle.php_told.specs.Least.{starts, IsLeast};

/// A script has no form that isn't told exactly where all of its forms are told.
pub fn none_is_not_told_where_all_are_told()
    ensures told { (script : Script Note) → first_not_told script ≡ None → IsScriptTold script }
    ensures only { (script : Script Note) → IsScriptTold script → first_not_told script ≡ None }
{}

/// In a script whose notes are those of its tokens, the first form that isn't told begins with the least token of all such forms that
/// stand in no other one.
pub fn first_form_has_the_least_token()
    ensures { (tokens : List Token) (script : Script Note) → IsPlacedScript tokens script → IsLeast (first_not_told script) (starts script) }
{}
