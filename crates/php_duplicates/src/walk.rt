// The second `default` of a `switch`. A call goes on with parts of its statement, so it takes no more stack than the statement is nested.

ghost use Rattle.std.specs.Prelude.{◌≡◌, ◌&&◌, ◌||◌, false, map};
ghost use Rattle.php_ast.specs.statement.Tree.{no_elseif, no_elseif_list, no_case, no_catch};
ghost use Rattle.php_ast.specs.statement.View as shown;
ghost use Rattle.php_ast.specs.statement.View.{statement_view, optional};
ghost use Rattle.php_duplicates.specs.Met as spec;
ghost use Rattle.php_ast.specs.statement.Parts as shaped;

use crate::seen::met_if;
use php_ast::{Body, Case, Catch, ElseIf, Expr, Stmt};
use php_legality::Fault;
use sqlite_items::{Boxed, Items};

fn is_default(value: &Option<Expr>) -> bool
    ensures { result ≡ spec.is_default value.now }
{
    value.is_none()
}

fn both(one: bool, other: bool) -> bool
    ensures { result ≡ one && other }
{
    if one { other } else { false }
}

fn either(one: bool, other: bool) -> bool
    ensures { result ≡ one || other }
{
    if one { true } else { other }
}

// The labels of a `switch`.
fn walk_labels(met: Option<Fault>, cases: &[Case<Stmt>]) -> Option<Fault>
    ensures { result ≡ spec.labels false cases.now met }
{
    let mut has_default = false;
    let mut first = met;
    for case in cases {
        let is_one = is_default(&case.value);
        first = met_if(first, both(has_default, is_one), case.spot);
        has_default = either(has_default, is_one);
    }
    first
}

/// The first duplicate, behind those met, of a statement and of those inside it.
#[cycle(statements)]
pub(crate) fn walk_statement(met: Option<Fault>, s: &Stmt) -> Option<Fault>
    ensures { result ≡ spec.met_statement (statement_view s.now) met }
{
    match s {
        Stmt::Block(_, body) => walk_list(met, body.as_slice()),
        Stmt::If(_, _, body, parts, last) => {
            let met = walk_statement(met, body.get());
            let met = walk_elseifs(met, parts.as_slice());
            walk_else(met, last)
        }
        Stmt::IfColon(_, _, body, parts, last) => {
            let met = walk_list(met, body.as_slice());
            let met = walk_elseif_lists(met, parts.as_slice());
            walk_last(met, last)
        }
        Stmt::While(_, _, body) => walk_body(met, body),
        Stmt::DoWhile(_, body, _) => walk_statement(met, body.get()),
        Stmt::For(_, _, body) => walk_body(met, body),
        Stmt::Foreach(_, _, body) => walk_body(met, body),
        Stmt::Switch(_, _, _, cases) => walk_switch(met, cases.as_slice()),
        Stmt::Try(_, body, catches, last) => {
            let met = walk_list(met, body.as_slice());
            let met = walk_catches(met, catches.as_slice());
            walk_last(met, last)
        }
        Stmt::Empty(_)
        | Stmt::Inline(_, _)
        | Stmt::Expression(_, _)
        | Stmt::Echo(_, _)
        | Stmt::Global(_, _)
        | Stmt::Static(_, _)
        | Stmt::Unset(_, _)
        | Stmt::Const(_, _)
        | Stmt::Return(_, _)
        | Stmt::Throw(_, _)
        | Stmt::Break(_, _)
        | Stmt::Continue(_, _)
        | Stmt::Declare(_, _, _) => met,
    }
}

/// Likewise of statements, one after the other.
#[cycle(statements)]
pub(crate) fn walk_list(met: Option<Fault>, body: &[Stmt]) -> Option<Fault>
    ensures { result ≡ spec.met_list (shown.list_view (map statement_view body.now)) met }
{
    let mut first = met;
    for s in body {
        first = walk_statement(first, s);
    }
    first
}

#[cycle(statements)]
fn walk_body(met: Option<Fault>, body: &Body<Stmt>) -> Option<Fault>
    ensures { result ≡ spec.met_body (shown.body_view (shaped.body_with statement_view body.now)) met }
{
    match body {
        Body::Single(s) => walk_statement(met, s.get()),
        Body::Colon(list) => walk_list(met, list.as_slice()),
    }
}

#[cycle(statements)]
fn walk_elseifs(met: Option<Fault>, parts: &[ElseIf<Boxed<Stmt>>]) -> Option<Fault>
    ensures { result ≡ spec.met_elseifs (shown.elseifs_from no_elseif
        (map (shaped.elseif_with statement_view) parts.now)) met }
{
    let mut first = met;
    for part in parts {
        first = walk_statement(first, part.body.get());
    }
    first
}

#[cycle(statements)]
fn walk_else(met: Option<Fault>, last: &Option<Boxed<Stmt>>) -> Option<Fault>
    ensures { result ≡ spec.met_else (optional statement_view last.now) met }
{
    match last {
        None => met,
        Some(s) => walk_statement(met, s.get()),
    }
}

#[cycle(statements)]
fn walk_elseif_lists(met: Option<Fault>, parts: &[ElseIf<Items<Stmt>>]) -> Option<Fault>
    ensures { result ≡ spec.met_elseif_lists (shown.elseif_lists_from
        no_elseif_list (map (shaped.elseif_list_with statement_view) parts.now)) met }
{
    let mut first = met;
    for part in parts {
        first = walk_list(first, part.body.as_slice());
    }
    first
}

/// Likewise of a list that may be absent.
#[cycle(statements)]
pub(crate) fn walk_last(met: Option<Fault>, last: &Option<Items<Stmt>>) -> Option<Fault>
    ensures { result ≡ spec.met_last (optional (λ body. shown.list_view (map statement_view body)) last.now) met }
{
    match last {
        None => met,
        Some(body) => walk_list(met, body.as_slice()),
    }
}

// The labels, and then the statements behind them.
#[cycle(statements)]
fn walk_switch(met: Option<Fault>, cases: &[Case<Stmt>]) -> Option<Fault>
    ensures { result ≡ spec.met_cases (shown.cases_from no_case (map (shaped.case_with statement_view) cases.now))
        (spec.met_labels (shown.cases_from no_case (map (shaped.case_with statement_view) cases.now)) met) }
{
    let met = walk_labels(met, cases);
    walk_cases(met, cases)
}

#[cycle(statements)]
fn walk_cases(met: Option<Fault>, cases: &[Case<Stmt>]) -> Option<Fault>
    ensures { result ≡ spec.met_cases (shown.cases_from no_case (map (shaped.case_with statement_view) cases.now)) met }
{
    let mut first = met;
    for case in cases {
        first = walk_list(first, case.body.as_slice());
    }
    first
}

#[cycle(statements)]
fn walk_catches(met: Option<Fault>, catches: &[Catch<Stmt>]) -> Option<Fault>
    ensures { result ≡ spec.met_catches (shown.catches_from no_catch
        (map (shaped.catch_with statement_view) catches.now)) met }
{
    let mut first = met;
    for catch in catches {
        first = walk_list(first, catch.body.as_slice());
    }
    first
}
