// Tokens of small trees.
ghost use Rattle.std.specs.Prelude.{◌≡◌, [], ◌∷◌, length, map, IfOk};
ghost use Rattle.php_token.specs.declared.kind.Punct.TheVariants.{Semicolon};
ghost use Rattle.php_ast.specs.Operators.{binary_symbol};
ghost use Rattle.php_print.specs.Print.{printed_view};
ghost use Rattle.php_ast.specs.expression.Spelling.{spell};
ghost use Rattle.php_ast.specs.Symbol.{inline, punct};
ghost use Rattle.php_ast.specs.expression.Tree.{binary};
ghost use Rattle.php_ast.specs.expression.View.{view};

use php_ast::{Binary, Expr, Script, ScriptItem, Spot, Stmt};
use php_base::NoMemory;
use php_print::{Printed, print_expr};
use php_print_script::{print_script, print_stmt};
use php_value::Text;
use sqlite_items::{Boxed, Items};
use std::alloc::Global;

/// How many tokens an expression is spelled with.
pub fn count_tokens(alloc: Global, e: &Expr) -> Result<usize, NoMemory>
    ensures { IfOk result (λ count. count ≡ length (spell (view e.now) [])) }
{
    let tokens = print_expr(alloc, e)?;
    Ok(tokens.len())
}

fn joined(alloc: Global, op: Binary, left: Expr, right: Expr) -> Result<Expr, NoMemory>
    ensures { IfOk result (λ e. view e ≡ binary op (view left) (view right)) }
{
    Ok(Expr::Binary(op, Boxed::new(alloc, left)?, Boxed::new(alloc, right)?))
}

/// The tokens of two expressions with an operator between them.
pub fn print_binary(
    alloc: Global,
    op: Binary,
    left: Expr,
    right: Expr,
) -> Result<Vec<Printed>, NoMemory>
    ensures { IfOk result (λ tokens. map printed_view tokens.items
        ≡ spell (view left) (binary_symbol op ∷ spell (view right) [])) }
{
    let e = joined(alloc, op, left, right)?;
    print_expr(alloc, &e)
}

/// The tokens of an expression that is a statement.
pub fn print_line(alloc: Global, spot: Spot, e: Expr) -> Result<Vec<Printed>, NoMemory>
    ensures { IfOk result (λ tokens. map printed_view tokens.items
        ≡ spell (view e) (punct Semicolon ∷ [])) }
{
    print_stmt(alloc, &Stmt::Expression(spot, e))
}

/// The tokens of a script that is bytes outside the tags alone.
pub fn print_page(alloc: Global, spot: Spot, page: Text) -> Result<Vec<Printed>, NoMemory>
    ensures { IfOk result (λ tokens. map printed_view tokens.items ≡ inline page ∷ []) }
{
    let item = ScriptItem::Statement(Stmt::Inline(spot, page));
    let script = Script {
        items: Items::from_vec(vec![in alloc; item]?),
    };
    print_script(alloc, &script)
}
