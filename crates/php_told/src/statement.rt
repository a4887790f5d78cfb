// Statements. A call goes on with the statements of a block, so it takes no more stack than blocks are nested.

ghost use Rattle.std.specs.Prelude.{◌≡◌, map};
ghost use Rattle.php_ast.specs.expression.View.{view};
ghost use Rattle.php_ast.specs.statement.View.{statement_view};
ghost use Rattle.php_told.specs.First as spec;
ghost use Rattle.php_told.specs.Noted.{noted};
ghost use Rattle.php_told.specs.Parts as part;

use crate::expression::first_in;
use php_ast::{Expr, Spot, Stmt};

/// Of the values of an `echo`.
fn first_in_values(values: &[Expr]) -> Option<Spot>
    ensures { noted result ≡ part.first_of spec.first_in (map view values.now) }
{
    for value in values {
        if let Some(spot) = first_in(value) {
            return Some(spot);
        }
    }
    None
}

/// The first token of the first form in a statement that isn't told.
#[cycle(statements)]
pub(crate) fn first_in_statement(s: &Stmt) -> Option<Spot>
    ensures { noted result ≡ spec.first_in_statement (statement_view s.now) }
{
    match s {
        Stmt::Block(_, statements) => first_in_statements(statements.as_slice()),
        Stmt::Empty(_) => None,
        Stmt::Inline(_, _) => None,
        Stmt::Expression(_, e) => first_in(e),
        Stmt::Echo(_, values) => first_in_values(values.as_slice()),
        Stmt::Global(spot, _) => Some(*spot),
        Stmt::Static(spot, _) => Some(*spot),
        Stmt::Unset(spot, _) => Some(*spot),
        Stmt::Const(spot, _) => Some(*spot),
        Stmt::Return(spot, _) => Some(*spot),
        Stmt::Throw(spot, _) => Some(*spot),
        Stmt::Break(spot, _) => Some(*spot),
        Stmt::Continue(spot, _) => Some(*spot),
        Stmt::If(spot, _, _, _, _) => Some(*spot),
        Stmt::IfColon(spot, _, _, _, _) => Some(*spot),
        Stmt::While(spot, _, _) => Some(*spot),
        Stmt::DoWhile(spot, _, _) => Some(*spot),
        Stmt::For(spot, _, _) => Some(*spot),
        Stmt::Foreach(spot, _, _) => Some(*spot),
        Stmt::Switch(spot, _, _, _) => Some(*spot),
        Stmt::Try(spot, _, _, _) => Some(*spot),
        Stmt::Declare(spot, _, _) => Some(*spot),
    }
}

#[cycle(statements)]
fn first_in_statements(statements: &[Stmt]) -> Option<Spot>
    ensures { noted result ≡ part.first_of spec.first_in_statement (map statement_view statements.now) }
{
    for statement in statements {
        if let Some(spot) = first_in_statement(statement) {
            return Some(spot);
        }
    }
    None
}
