// The walk over statements. A call goes on with parts of its statement, so it takes no more stack than the statement is nested.

ghost use Rattle.std.specs.Prelude.{◌≡◌, map};
ghost use Rattle.php_ast.specs.statement.Tree.{no_elseif, no_elseif_list, no_case, no_catch};
ghost use Rattle.php_ast.specs.statement.View as shown;
ghost use Rattle.php_ast.specs.statement.View.{statement_view, optional};
ghost use Rattle.php_bodies.specs.Met as spec;
ghost use Rattle.php_ast.specs.statement.Parts as part;

use crate::words::check_statement;
use php_ast::{Body, Case, Catch, ElseIf, Stmt};
use php_legality::{Fault, Scope};
use sqlite_items::{Boxed, Items};

/// The first fault, behind those met, of a statement and of those inside it.
#[cycle(statements)]
pub fn walk_statement(met: Option<Fault>, scope: Scope, s: &Stmt) -> Option<Fault>
    ensures { result ≡ spec.met_statement scope (statement_view s.now) met }
{
    let met = check_statement(met, scope, s);
    walk_parts(met, scope, s)
}

// Of those inside it.
#[cycle(statements)]
fn walk_parts(met: Option<Fault>, scope: Scope, s: &Stmt) -> Option<Fault>
    ensures { result ≡ spec.met_parts scope (statement_view s.now) met }
{
    match s {
        Stmt::Block(_, body) => walk_list(met, scope, body.as_slice()),
        Stmt::If(_, _, body, parts, last) => {
            let met = walk_statement(met, scope, body.get());
            let met = walk_elseifs(met, scope, parts.as_slice());
            walk_else(met, scope, last)
        }
        Stmt::IfColon(_, _, body, parts, last) => {
            let met = walk_list(met, scope, body.as_slice());
            let met = walk_elseif_lists(met, scope, parts.as_slice());
            walk_last(met, scope, last)
        }
        Stmt::While(_, _, body) => walk_body(met, scope, body),
        Stmt::DoWhile(_, body, _) => walk_statement(met, scope, body.get()),
        Stmt::For(_, _, body) => walk_body(met, scope, body),
        Stmt::Foreach(_, _, body) => walk_body(met, scope, body),
        Stmt::Switch(_, _, _, cases) => walk_cases(met, scope, cases.as_slice()),
        Stmt::Try(_, body, catches, last) => {
            let met = walk_list(met, scope, body.as_slice());
            let met = walk_catches(met, scope, catches.as_slice());
            walk_last(met, scope, last)
        }
        Stmt::Empty(_)
        | Stmt::Inline(_, _)
        | Stmt::Expression(_, _)
        | Stmt::Echo(_, _)
        | Stmt::Global(_, _)
        | Stmt::Static(_, _)
        | Stmt::Unset(_, _)
        | Stmt::Const(_, _)
        | Stmt::Return(_, _)
        | Stmt::Throw(_, _)
        | Stmt::Break(_, _)
        | Stmt::Continue(_, _)
        | Stmt::Declare(_, _, _) => met,
    }
}

/// Likewise of statements, one after the other.
#[cycle(statements)]
pub fn walk_list(met: Option<Fault>, scope: Scope, body: &[Stmt]) -> Option<Fault>
    ensures { result ≡ spec.met_list scope (shown.list_view
        (map statement_view body.now)) met }
{
    let mut first = met;
    for s in body {
        first = walk_statement(first, scope, s);
    }
    first
}

#[cycle(statements)]
fn walk_body(met: Option<Fault>, scope: Scope, body: &Body<Stmt>) -> Option<Fault>
    ensures { result ≡ spec.met_body scope (shown.body_view
        (part.body_with statement_view body.now)) met }
{
    match body {
        Body::Single(s) => walk_statement(met, scope, s.get()),
        Body::Colon(list) => walk_list(met, scope, list.as_slice()),
    }
}

#[cycle(statements)]
fn walk_elseifs(met: Option<Fault>, scope: Scope, parts: &[ElseIf<Boxed<Stmt>>]) -> Option<Fault>
    ensures { result ≡ spec.met_elseifs scope (shown.elseifs_from
        no_elseif (map (part.elseif_with statement_view) parts.now)) met }
{
    let mut first = met;
    for part in parts {
        first = walk_statement(first, scope, part.body.get());
    }
    first
}

#[cycle(statements)]
fn walk_else(met: Option<Fault>, scope: Scope, last: &Option<Boxed<Stmt>>) -> Option<Fault>
    ensures { result ≡ spec.met_else scope (optional statement_view
        last.now) met }
{
    match last {
        None => met,
        Some(s) => walk_statement(met, scope, s.get()),
    }
}

#[cycle(statements)]
fn walk_elseif_lists(
    met: Option<Fault>,
    scope: Scope,
    parts: &[ElseIf<Items<Stmt>>],
) -> Option<Fault>
    ensures { result ≡ spec.met_elseif_lists scope (shown.elseif_lists_from no_elseif_list (map
        (part.elseif_list_with statement_view) parts.now)) met }
{
    let mut first = met;
    for part in parts {
        first = walk_list(first, scope, part.body.as_slice());
    }
    first
}

/// Likewise of a list that may be absent.
#[cycle(statements)]
pub fn walk_last(met: Option<Fault>, scope: Scope, last: &Option<Items<Stmt>>) -> Option<Fault>
    ensures { result ≡ spec.met_last scope (optional (λ body.
        shown.list_view (map statement_view body)) last.now) met }
{
    match last {
        None => met,
        Some(body) => walk_list(met, scope, body.as_slice()),
    }
}

#[cycle(statements)]
fn walk_cases(met: Option<Fault>, scope: Scope, cases: &[Case<Stmt>]) -> Option<Fault>
    ensures { result ≡ spec.met_cases scope (shown.cases_from no_case
        (map (part.case_with statement_view) cases.now)) met }
{
    let mut first = met;
    for case in cases {
        first = walk_list(first, scope, case.body.as_slice());
    }
    first
}

#[cycle(statements)]
fn walk_catches(met: Option<Fault>, scope: Scope, catches: &[Catch<Stmt>]) -> Option<Fault>
    ensures { result ≡ spec.met_catches scope (shown.catches_from
        no_catch (map (part.catch_with statement_view) catches.now)) met }
{
    let mut first = met;
    for catch in catches {
        first = walk_list(first, scope, catch.body.as_slice());
    }
    first
}
