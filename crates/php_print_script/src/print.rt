// The token lists of statements and scripts, for people who debug.

ghost use Rattle.std.specs.Prelude.{◌≡◌, [], map, IfOk};
ghost use Rattle.php_ast.specs.declaration.Spelling.{spell_script};
ghost use Rattle.php_ast.specs.declaration.View.{script_view};
ghost use Rattle.php_ast.specs.statement.Spelling.{spell_statement};
ghost use Rattle.php_ast.specs.statement.View.{statement_view};
ghost use Rattle.php_print.specs.Print.{printed_view};

use crate::member::put_script_items;
use crate::statement::put_statement;
use php_ast::{Script, Stmt};
use php_base::NoMemory;
use php_print::{Printed, Printer};
use std::alloc::Global;

/// The tokens that a statement is spelled with, as `print_expr` does it for an expression.
pub fn print_stmt(alloc: Global, s: &Stmt) -> Result<Vec<Printed>, NoMemory>
    ensures { IfOk result (λ tokens. map printed_view tokens.items ≡ spell_statement
        (statement_view s.now) []) }
{
    let mut printer = Printer::new(alloc);
    put_statement(&mut printer, s)?;
    Ok(printer.finish())
}

/// The tokens that a script is spelled with, as `print_expr` does it for an expression.
pub fn print_script(alloc: Global, script: &Script) -> Result<Vec<Printed>, NoMemory>
    ensures { IfOk result (λ tokens. map printed_view tokens.items ≡ spell_script
        (script_view script.now)) }
{
    let mut printer = Printer::new(alloc);
    put_script_items(&mut printer, script.items.as_slice())?;
    Ok(printer.finish())
}
