// Words of a statement that may not stand where they do.

ghost use Rattle.std.specs.Prelude.{◌≡◌, map};
ghost use Rattle.php_ast.specs.statement.Tree.{no_catch};
ghost use Rattle.php_ast.specs.statement.View.{statement_view, name_view, names_view, catches_from};
ghost use Rattle.php_legality.specs.Lists.{elements};
ghost use Rattle.php_places.specs.Over.{over};
ghost use Rattle.php_bodies.specs.Own as spec;
ghost use Rattle.php_ast.specs.statement.Parts as part;

use crate::constants::check_constants;
use crate::own::walk_expressions;
use php_ast::{Catch, Name, Stmt};
use php_legality::{Fault, Kind, Scope};
use php_places::{fault_if, is_inner_name};

/// The first fault, behind those met, of the name of a class.
pub fn check_name(met: Option<Fault>, in_class: bool, name: &Name) -> Option<Fault>
    ensures { result ≡ spec.met_name in_class (name_view name.now) met }
{
    if in_class {
        met
    } else {
        fault_if(met, is_inner_name(&name.text), Kind::BadUse, name.spot)
    }
}

fn check_names(met: Option<Fault>, in_class: bool, names: &[Name]) -> Option<Fault>
    ensures { result ≡ over (spec.met_name in_class) (elements (names_view names.now)) met }
{
    let mut first = met;
    for name in names {
        first = check_name(first, in_class, name);
    }
    first
}

fn check_catches(met: Option<Fault>, in_class: bool, catches: &[Catch<Stmt>]) -> Option<Fault>
    ensures { result ≡ spec.met_catches in_class (catches_from no_catch (map (part.catch_with
        statement_view) catches.now)) met }
{
    let mut first = met;
    for catch in catches {
        first = check_names(first, in_class, catch.classes.as_slice());
    }
    first
}

/// The first fault, behind those met, of the words of a statement.
fn check_words(met: Option<Fault>, scope: Scope, s: &Stmt) -> Option<Fault>
    ensures { result ≡ spec.met_words scope (statement_view s.now) met }
{
    match s {
        Stmt::Return(_, None) => met,
        Stmt::Return(spot, Some(_)) => fault_if(met, scope.is_void, Kind::BadUse, *spot),
        Stmt::Try(_, _, catches, _) => check_catches(met, scope.in_class, catches.as_slice()),
        Stmt::Declare(spot, _, _) => fault_if(met, true, Kind::BadUse, *spot),
        Stmt::Block(_, _)
        | Stmt::Empty(_)
        | Stmt::Inline(_, _)
        | Stmt::Expression(_, _)
        | Stmt::Echo(_, _)
        | Stmt::Global(_, _)
        | Stmt::Static(_, _)
        | Stmt::Unset(_, _)
        | Stmt::Const(_, _)
        | Stmt::Throw(_, _)
        | Stmt::Break(_, _)
        | Stmt::Continue(_, _)
        | Stmt::If(_, _, _, _, _)
        | Stmt::IfColon(_, _, _, _, _)
        | Stmt::While(_, _, _)
        | Stmt::DoWhile(_, _, _)
        | Stmt::For(_, _, _)
        | Stmt::Foreach(_, _, _)
        | Stmt::Switch(_, _, _, _) => met,
    }
}

/// The first fault, behind those met, of a statement, without those inside it.
pub(crate) fn check_statement(met: Option<Fault>, scope: Scope, s: &Stmt) -> Option<Fault>
    ensures { result ≡ spec.met_own scope (statement_view s.now) met }
{
    let met = walk_expressions(met, scope, s);
    let met = check_constants(met, s);
    check_words(met, scope, s)
}
