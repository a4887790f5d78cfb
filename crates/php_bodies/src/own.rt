// The expressions of a statement that stand in no other statement.

ghost use Rattle.std.specs.Prelude.{◌≡◌, [], ◌∷◌, map};
ghost use Rattle.php_ast.specs.expression.View.{view};
ghost use Rattle.php_ast.specs.statement.View.{sequence, optional, statement_view, values_view, variable_view, constant_view, target_view, elseifs_from, elseif_lists_from, cases_from};
ghost use Rattle.php_ast.specs.statement.Tree.{no_elseif, no_elseif_list, no_case};
ghost use Rattle.php_legality.specs.Expressions.{used, valued};
ghost use Rattle.php_legality.specs.Lists.{elements};
ghost use Rattle.php_legality.specs.Statements as meant;
ghost use Rattle.php_places.specs.Over.{over};
ghost use Rattle.php_places.specs.Uses.{use_view};
ghost use Rattle.php_bodies.specs.Own as spec;
ghost use Rattle.php_ast.specs.statement.Parts as part;

use php_ast::{Case, ConstantItem, ElseIf, Expr, ForHead, ForeachHead, Stmt, Target, VariableItem};
use php_legality::{Fault, Scope};
use php_places::{Use, walk_used, walk_values};
use sqlite_items::{Boxed, Items};

pub fn walk_value(met: Option<Fault>, scope: Scope, e: &Expr) -> Option<Fault>
    ensures { result ≡ spec.met_any scope (used valued (view e.now)) met }
{
    walk_used(met, scope, Use::Valued, e)
}

/// A value that may be absent.
pub fn walk_optional(met: Option<Fault>, scope: Scope, value: &Option<Expr>) -> Option<Fault>
    ensures { result ≡ spec.met_optional scope (optional view value.now) met }
{
    match value {
        None => met,
        Some(e) => walk_value(met, scope, e),
    }
}

/// Values, one after the other, with each of which this is done.
fn walk_list_of(met: Option<Fault>, scope: Scope, usage: Use, es: &[Expr]) -> Option<Fault>
    ensures { result ≡ over (spec.met_any scope) (meant.values (use_view usage) (values_view es.now)) met }
{
    walk_values(met, scope, usage, es)
}

/// The values that variables begin with.
pub fn walk_variables(met: Option<Fault>, scope: Scope, variables: &[VariableItem]) -> Option<Fault>
    ensures { result ≡ over (spec.met_variable scope) (elements (sequence variable_view variables.now)) met }
{
    let mut first = met;
    for variable in variables {
        first = walk_optional(first, scope, &variable.value);
    }
    first
}

fn walk_constant_items(met: Option<Fault>, scope: Scope, items: &[ConstantItem]) -> Option<Fault>
    ensures { result ≡ over (spec.met_constant_item scope) (elements (sequence constant_view items.now)) met }
{
    let mut first = met;
    for item in items {
        first = walk_value(first, scope, &item.value);
    }
    first
}

fn walk_target(met: Option<Fault>, scope: Scope, target: &Target) -> Option<Fault>
    ensures { result ≡ spec.met_any scope (meant.target_used (target_view target.now)) met }
{
    if target.is_reference {
        walk_used(met, scope, Use::Changed, &target.place)
    } else {
        walk_used(met, scope, Use::Assigned, &target.place)
    }
}

fn walk_key(met: Option<Fault>, scope: Scope, key: &Option<Target>) -> Option<Fault>
    ensures { result ≡ spec.met_key scope (optional target_view key.now) met }
{
    match key {
        None => met,
        Some(target) => walk_target(met, scope, target),
    }
}

fn walk_for_head(met: Option<Fault>, scope: Scope, head: &ForHead) -> Option<Fault>
    ensures { result ≡ spec.met_for scope (values_view head.now.starts) (values_view head.now.tests)
        (values_view head.now.steps) met }
{
    let met = walk_list_of(met, scope, Use::Valued, head.starts.as_slice());
    let met = walk_list_of(met, scope, Use::Valued, head.tests.as_slice());
    walk_list_of(met, scope, Use::Valued, head.steps.as_slice())
}

fn walk_foreach_head(met: Option<Fault>, scope: Scope, head: &ForeachHead) -> Option<Fault>
    ensures { result ≡ spec.met_foreach scope (view head.now.walked) (optional target_view head.now.key)
        (target_view head.now.value) met }
{
    let met = walk_value(met, scope, &head.walked);
    let met = walk_key(met, scope, &head.key);
    walk_target(met, scope, &head.value)
}

fn walk_elseif_tests(
    met: Option<Fault>,
    scope: Scope,
    parts: &[ElseIf<Boxed<Stmt>>],
) -> Option<Fault>
    ensures { result ≡ over (spec.met_any scope) (meant.elseif_tests (elseifs_from no_elseif (map
        (part.elseif_with statement_view) parts.now))) met }
{
    let mut first = met;
    for part in parts {
        first = walk_value(first, scope, &part.test);
    }
    first
}

fn walk_elseif_list_tests(
    met: Option<Fault>,
    scope: Scope,
    parts: &[ElseIf<Items<Stmt>>],
) -> Option<Fault>
    ensures { result ≡ over (spec.met_any scope) (meant.elseif_list_tests (elseif_lists_from
        no_elseif_list (map (part.elseif_list_with statement_view) parts.now))) met }
{
    let mut first = met;
    for part in parts {
        first = walk_value(first, scope, &part.test);
    }
    first
}

fn walk_labels(met: Option<Fault>, scope: Scope, cases: &[Case<Stmt>]) -> Option<Fault>
    ensures { result ≡ over (spec.met_any scope) (meant.labels (cases_from no_case (map (part.case_with
        statement_view) cases.now))) met }
{
    let mut first = met;
    for case in cases {
        first = walk_optional(first, scope, &case.value);
    }
    first
}

/// The first fault, behind those met, of the expressions of a statement.
pub(crate) fn walk_expressions(met: Option<Fault>, scope: Scope, s: &Stmt) -> Option<Fault>
    ensures { result ≡ over (spec.met_any scope) (meant.own (statement_view s.now)) met }
{
    match s {
        Stmt::Expression(_, e) => walk_value(met, scope, e),
        Stmt::Echo(_, es) => walk_list_of(met, scope, Use::Valued, es.as_slice()),
        Stmt::Static(_, variables) => walk_variables(met, scope, variables.as_slice()),
        Stmt::Unset(_, es) => walk_list_of(met, scope, Use::Removed, es.as_slice()),
        Stmt::Const(_, items) => walk_constant_items(met, scope, items.as_slice()),
        Stmt::Return(_, value) => walk_optional(met, scope, value),
        Stmt::Throw(_, e) => walk_value(met, scope, e),
        Stmt::Break(_, value) => walk_optional(met, scope, value),
        Stmt::Continue(_, value) => walk_optional(met, scope, value),
        Stmt::If(_, test, _, parts, _) => {
            let met = walk_value(met, scope, test);
            walk_elseif_tests(met, scope, parts.as_slice())
        }
        Stmt::IfColon(_, test, _, parts, _) => {
            let met = walk_value(met, scope, test);
            walk_elseif_list_tests(met, scope, parts.as_slice())
        }
        Stmt::While(_, test, _) => walk_value(met, scope, test),
        Stmt::DoWhile(_, _, test) => walk_value(met, scope, test),
        Stmt::For(_, head, _) => walk_for_head(met, scope, head),
        Stmt::Foreach(_, head, _) => walk_foreach_head(met, scope, head),
        Stmt::Switch(_, e, _, cases) => {
            let met = walk_value(met, scope, e);
            walk_labels(met, scope, cases.as_slice())
        }
        Stmt::Block(_, _)
        | Stmt::Empty(_)
        | Stmt::Inline(_, _)
        | Stmt::Global(_, _)
        | Stmt::Try(_, _, _, _)
        | Stmt::Declare(_, _, _) => met,
    }
}
