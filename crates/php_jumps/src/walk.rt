// The walk over statements. A call goes on with parts of its statement, so it takes no more stack than the statement is nested.

ghost use Rattle.std.specs.Prelude.{map};
ghost use Rattle.php_ast.specs.statement.Tree.{no_elseif, no_elseif_list, no_case, no_catch};
ghost use Rattle.php_ast.specs.statement.View as shown;
ghost use Rattle.php_ast.specs.statement.View.{statement_view, optional};
ghost use Rattle.php_jumps.specs.Gives.{Gives};
ghost use Rattle.php_jumps.specs.Met as spec;
ghost use Rattle.php_ast.specs.statement.Parts as part;

use crate::around::{Around, in_finally, in_loop};
use crate::level::at_jump;
use php_ast::{Body, Case, Catch, ElseIf, Stmt};
use php_legality::Fault;
use sqlite_items::{Boxed, Items};

/// The first fault, behind those met, of a statement and of those inside it.
#[cycle(statements)]
pub(crate) fn walk_statement(met: Option<Fault>, around: Around, s: &Stmt) -> Option<Fault>
    ensures { Gives around met result (λ outside. spec.met_statement outside (statement_view s.now)) }
{
    match s {
        Stmt::Block(_, body) => walk_list(met, around, body.as_slice()),
        Stmt::Break(spot, value) => at_jump(met, around, *spot, value),
        Stmt::Continue(spot, value) => at_jump(met, around, *spot, value),
        Stmt::If(_, _, body, parts, last) => {
            let met = walk_statement(met, around, body.get());
            let met = walk_elseifs(met, around, parts.as_slice());
            walk_else(met, around, last)
        }
        Stmt::IfColon(_, _, body, parts, last) => {
            let met = walk_list(met, around, body.as_slice());
            let met = walk_elseif_lists(met, around, parts.as_slice());
            walk_last(met, around, last)
        }
        Stmt::While(_, _, body) => walk_body(met, in_loop(around), body),
        Stmt::DoWhile(_, body, _) => walk_statement(met, in_loop(around), body.get()),
        Stmt::For(_, _, body) => walk_body(met, in_loop(around), body),
        Stmt::Foreach(_, _, body) => walk_body(met, in_loop(around), body),
        Stmt::Switch(_, _, _, cases) => walk_cases(met, in_loop(around), cases.as_slice()),
        Stmt::Try(_, body, catches, last) => {
            let met = walk_list(met, around, body.as_slice());
            let met = walk_catches(met, around, catches.as_slice());
            walk_last(met, in_finally(around), last)
        }
        Stmt::Empty(_)
        | Stmt::Inline(_, _)
        | Stmt::Expression(_, _)
        | Stmt::Echo(_, _)
        | Stmt::Global(_, _)
        | Stmt::Static(_, _)
        | Stmt::Unset(_, _)
        | Stmt::Const(_, _)
        | Stmt::Return(_, _)
        | Stmt::Throw(_, _)
        | Stmt::Declare(_, _, _) => met,
    }
}

/// Likewise of statements, one after the other.
#[cycle(statements)]
pub(crate) fn walk_list(met: Option<Fault>, around: Around, body: &[Stmt]) -> Option<Fault>
    ensures { Gives around met result (λ outside. spec.met_list outside (shown.list_view
        (map statement_view body.now))) }
{
    let mut first = met;
    for s in body {
        first = walk_statement(first, around, s);
    }
    first
}

#[cycle(statements)]
fn walk_body(met: Option<Fault>, around: Around, body: &Body<Stmt>) -> Option<Fault>
    ensures { Gives around met result (λ outside. spec.met_body outside (shown.body_view
        (part.body_with statement_view body.now))) }
{
    match body {
        Body::Single(s) => walk_statement(met, around, s.get()),
        Body::Colon(list) => walk_list(met, around, list.as_slice()),
    }
}

#[cycle(statements)]
fn walk_elseifs(met: Option<Fault>, around: Around, parts: &[ElseIf<Boxed<Stmt>>]) -> Option<Fault>
    ensures { Gives around met result (λ outside. spec.met_elseifs outside (shown.elseifs_from
        no_elseif (map (part.elseif_with statement_view) parts.now))) }
{
    let mut first = met;
    for part in parts {
        first = walk_statement(first, around, part.body.get());
    }
    first
}

#[cycle(statements)]
fn walk_else(met: Option<Fault>, around: Around, last: &Option<Boxed<Stmt>>) -> Option<Fault>
    ensures { Gives around met result (λ outside. spec.met_else outside (optional statement_view
        last.now)) }
{
    match last {
        None => met,
        Some(s) => walk_statement(met, around, s.get()),
    }
}

#[cycle(statements)]
fn walk_elseif_lists(
    met: Option<Fault>,
    around: Around,
    parts: &[ElseIf<Items<Stmt>>],
) -> Option<Fault>
    ensures { Gives around met result (λ outside. spec.met_elseif_lists outside
        (shown.elseif_lists_from no_elseif_list (map (part.elseif_list_with statement_view) parts.now))) }
{
    let mut first = met;
    for part in parts {
        first = walk_list(first, around, part.body.as_slice());
    }
    first
}

/// Likewise of a list that may be absent.
#[cycle(statements)]
pub(crate) fn walk_last(
    met: Option<Fault>,
    around: Around,
    last: &Option<Items<Stmt>>,
) -> Option<Fault>
    ensures { Gives around met result (λ outside. spec.met_last outside (optional (λ body.
        shown.list_view (map statement_view body)) last.now)) }
{
    match last {
        None => met,
        Some(body) => walk_list(met, around, body.as_slice()),
    }
}

#[cycle(statements)]
fn walk_cases(met: Option<Fault>, around: Around, cases: &[Case<Stmt>]) -> Option<Fault>
    ensures { Gives around met result (λ outside. spec.met_cases outside (shown.cases_from no_case
        (map (part.case_with statement_view) cases.now))) }
{
    let mut first = met;
    for case in cases {
        first = walk_list(first, around, case.body.as_slice());
    }
    first
}

#[cycle(statements)]
fn walk_catches(met: Option<Fault>, around: Around, catches: &[Catch<Stmt>]) -> Option<Fault>
    ensures { Gives around met result (λ outside. spec.met_catches outside (shown.catches_from
        no_catch (map (part.catch_with statement_view) catches.now))) }
{
    let mut first = met;
    for catch in catches {
        first = walk_list(first, around, catch.body.as_slice());
    }
    first
}
