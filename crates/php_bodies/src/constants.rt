// The values of a statement that must be constant.

ghost use Rattle.std.specs.Prelude.{◌≡◌};
ghost use Rattle.php_ast.specs.expression.View.{view};
ghost use Rattle.php_ast.specs.statement.View.{sequence, optional, statement_view, variable_view, constant_view};
ghost use Rattle.php_legality.specs.Lists.{elements};
ghost use Rattle.php_legality.specs.Statements as meant;
ghost use Rattle.php_places.specs.Over.{over};
ghost use Rattle.php_bodies.specs.Own as spec;

use php_ast::{ConstantItem, Expr, Stmt, VariableItem};
use php_constants::is_constant;
use php_legality::{Fault, Kind};
use php_places::{fault_if, first_spot};

/// The first fault, behind those met, of a value that must be constant.
pub fn check_constant(met: Option<Fault>, e: &Expr) -> Option<Fault>
    ensures { result ≡ spec.met_constant (view e.now) met }
{
    if is_constant(e) {
        met
    } else {
        fault_if(met, true, Kind::NoConstant, first_spot(e))
    }
}

/// Likewise of one that may be absent.
pub fn check_optional(met: Option<Fault>, value: &Option<Expr>) -> Option<Fault>
    ensures { result ≡ spec.met_optional_constant (optional view value.now) met }
{
    match value {
        None => met,
        Some(e) => check_constant(met, e),
    }
}

/// Likewise of those that variables begin with.
pub fn check_variables(met: Option<Fault>, variables: &[VariableItem]) -> Option<Fault>
    ensures { result ≡ over spec.met_first_value (elements (sequence variable_view variables.now)) met }
{
    let mut first = met;
    for variable in variables {
        first = check_optional(first, &variable.value);
    }
    first
}

fn check_constant_items(met: Option<Fault>, items: &[ConstantItem]) -> Option<Fault>
    ensures { result ≡ over spec.met_constant_value (elements (sequence constant_view items.now)) met }
{
    let mut first = met;
    for item in items {
        first = check_constant(first, &item.value);
    }
    first
}

/// Likewise of those of a statement.
pub(crate) fn check_constants(met: Option<Fault>, s: &Stmt) -> Option<Fault>
    ensures { result ≡ over spec.met_constant (meant.own_constants (statement_view s.now)) met }
{
    match s {
        Stmt::Static(_, variables) => check_variables(met, variables.as_slice()),
        Stmt::Const(_, items) => check_constant_items(met, items.as_slice()),
        Stmt::Block(_, _)
        | Stmt::Empty(_)
        | Stmt::Inline(_, _)
        | Stmt::Expression(_, _)
        | Stmt::Echo(_, _)
        | Stmt::Global(_, _)
        | Stmt::Unset(_, _)
        | Stmt::Return(_, _)
        | Stmt::Throw(_, _)
        | Stmt::Break(_, _)
        | Stmt::Continue(_, _)
        | Stmt::If(_, _, _, _, _)
        | Stmt::IfColon(_, _, _, _, _)
        | Stmt::While(_, _, _)
        | Stmt::DoWhile(_, _, _)
        | Stmt::For(_, _, _)
        | Stmt::Foreach(_, _, _)
        | Stmt::Switch(_, _, _, _)
        | Stmt::Try(_, _, _, _)
        | Stmt::Declare(_, _, _) => met,
    }
}
