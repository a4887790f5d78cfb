// The token list of an expression, for people who debug.

ghost use Rattle.std.specs.Prelude.{◌≡◌, [], map, IfOk};
ghost use Rattle.php_ast.specs.expression.Spelling.{spell};
ghost use Rattle.php_ast.specs.expression.View.{view};
ghost use Rattle.php_print.specs.Print.{printed_view};

use crate::printed::Printed;
use crate::printer::Printer;
use php_ast::Expr;
use php_base::NoMemory;
use std::alloc::Global;

/// The tokens that an expression is spelled with. It need not be proper: the tokens of a tree that
/// no parser gives may be those of another tree. `NoMemory` comes only for want of memory.
pub fn print_expr(alloc: Global, e: &Expr) -> Result<Vec<Printed>, NoMemory>
    ensures { IfOk result (λ tokens. map printed_view tokens.items ≡ spell (view e.now) []) }
{
    let mut printer = Printer::new(alloc);
    printer.put_expr(e)?;
    Ok(printer.finish())
}
