// The names in statements. A call goes on with parts of its statement, so it takes no more stack than the statement is nested.

ghost use Rattle.std.specs.Prelude.{◌≡◌, map, OnOk};
ghost use Rattle.php_ast.specs.expression.View.{view};
ghost use Rattle.php_ast.specs.statement.Tree.{no_case, no_catch, no_elseif, no_elseif_list};
ghost use Rattle.php_ast.specs.statement.View as shown;
ghost use Rattle.php_ast.specs.statement.View.{list_view, optional, statement_view};
ghost use Rattle.php_many_names.specs.Met as met;
ghost use Rattle.php_ast.specs.statement.Parts as shaped;

use crate::expression::{meet_expr, meet_optional, meet_values};
use crate::names::{Names, meet_dollar, meet_name};
use php_ast::{
    Body, Case, Catch, ConstantItem, ElseIf, Expr, ForHead, ForeachHead, Name, Stmt, Target,
    VariableItem,
};
use php_base::NoMemory;
use sqlite_items::{Boxed, Items};

// ---- elements between commas

/// The names of names, one after the other.
pub(crate) fn meet_names(names: &mut Names, those: &[Name]) -> Result<(), NoMemory>
    ensures { OnOk result (names.new ≡ met.over met.met_name names.old (shown.names_view those.now)) }
{
    for name in those {
        meet_name(names, name)?;
    }
    Ok(())
}

fn meet_dollars(names: &mut Names, those: &[Name]) -> Result<(), NoMemory>
    ensures { OnOk result (names.new ≡ met.over met.met_dollar names.old (shown.names_view those.now)) }
{
    for name in those {
        meet_dollar(names, name)?;
    }
    Ok(())
}

fn meet_variable(names: &mut Names, variable: &VariableItem) -> Result<(), NoMemory>
    ensures { OnOk result (names.new ≡ met.met_variable names.old (shown.variable_view variable.now)) }
{
    meet_dollar(names, &variable.name)?;
    meet_optional(names, &variable.value)
}

/// The names of variables and of the values that they begin with.
pub(crate) fn meet_variables(names: &mut Names, those: &[VariableItem]) -> Result<(), NoMemory>
    ensures { OnOk result (names.new ≡ met.over met.met_variable names.old
        (shown.sequence shown.variable_view those.now)) }
{
    for variable in those {
        meet_variable(names, variable)?;
    }
    Ok(())
}

fn meet_constant(names: &mut Names, constant: &ConstantItem) -> Result<(), NoMemory>
    ensures { OnOk result (names.new ≡ met.met_constant names.old (shown.constant_view constant.now)) }
{
    meet_name(names, &constant.name)?;
    meet_expr(names, &constant.value)
}

fn meet_constants(names: &mut Names, those: &[ConstantItem]) -> Result<(), NoMemory>
    ensures { OnOk result (names.new ≡ met.over met.met_constant names.old
        (shown.sequence shown.constant_view those.now)) }
{
    for constant in those {
        meet_constant(names, constant)?;
    }
    Ok(())
}

// ---- heads

fn meet_for_head(names: &mut Names, head: &ForHead) -> Result<(), NoMemory>
    ensures { OnOk result (names.new ≡ met.met_items (met.met_items (met.met_items names.old
        (shown.values_view head.now.starts)) (shown.values_view head.now.tests))
        (shown.values_view head.now.steps)) }
{
    meet_values(names, head.starts.as_slice())?;
    meet_values(names, head.tests.as_slice())?;
    meet_values(names, head.steps.as_slice())
}

fn meet_target(names: &mut Names, target: &Target) -> Result<(), NoMemory>
    ensures { OnOk result (names.new ≡ met.met_target names.old (shown.target_view target.now)) }
{
    meet_expr(names, &target.place)
}

fn meet_key(names: &mut Names, key: &Option<Target>) -> Result<(), NoMemory>
    ensures { OnOk result (names.new ≡ met.if_some met.met_target names.old
        (optional shown.target_view key.now)) }
{
    match key {
        None => Ok(()),
        Some(target) => meet_target(names, target),
    }
}

fn meet_foreach_head(names: &mut Names, head: &ForeachHead) -> Result<(), NoMemory>
    ensures { OnOk result (names.new ≡ met.met_target (met.if_some met.met_target
        (met.met_tree names.old (view head.now.walked)) (optional shown.target_view head.now.key))
        (shown.target_view head.now.value)) }
{
    meet_expr(names, &head.walked)?;
    meet_key(names, &head.key)?;
    meet_target(names, &head.value)
}

fn meet_catch_head(names: &mut Names, classes: &[Name], variable: &Name) -> Result<(), NoMemory>
    ensures { OnOk result (names.new ≡ met.met_dollar (met.over met.met_name names.old
        (shown.names_view classes.now)) (shown.name_view variable.now)) }
{
    meet_names(names, classes)?;
    meet_dollar(names, variable)
}

// ---- statements

/// The names of a statement.
#[cycle(statements)]
pub(crate) fn meet_statement(names: &mut Names, s: &Stmt) -> Result<(), NoMemory>
    ensures { OnOk result (names.new ≡ met.met_statement names.old (statement_view s.now)) }
{
    match s {
        Stmt::Block(_, body) => meet_list(names, body.as_slice()),
        Stmt::Expression(_, e) => meet_expr(names, e),
        Stmt::Echo(_, values) => meet_values(names, values.as_slice()),
        Stmt::Global(_, those) => meet_dollars(names, those.as_slice()),
        Stmt::Static(_, those) => meet_variables(names, those.as_slice()),
        Stmt::Unset(_, values) => meet_values(names, values.as_slice()),
        Stmt::Const(_, those) => meet_constants(names, those.as_slice()),
        Stmt::Return(_, value) => meet_optional(names, value),
        Stmt::Throw(_, e) => meet_expr(names, e),
        Stmt::Break(_, value) => meet_optional(names, value),
        Stmt::Continue(_, value) => meet_optional(names, value),
        Stmt::If(_, test, body, parts, last) => {
            meet_if(names, test, body.get(), parts.as_slice(), last)
        }
        Stmt::IfColon(_, test, body, parts, last) => {
            meet_if_lists(names, test, body.as_slice(), parts.as_slice(), last)
        }
        Stmt::While(_, test, body) => meet_while(names, test, body),
        Stmt::DoWhile(_, body, test) => meet_do_while(names, body.get(), test),
        Stmt::For(_, head, body) => meet_for(names, head, body),
        Stmt::Foreach(_, head, body) => meet_foreach(names, head, body),
        Stmt::Switch(_, e, _, cases) => meet_switch(names, e, cases.as_slice()),
        Stmt::Try(_, body, catches, last) => {
            meet_try(names, body.as_slice(), catches.as_slice(), last)
        }
        Stmt::Declare(_, name, _) => meet_name(names, name),
        Stmt::Empty(_) | Stmt::Inline(_, _) => Ok(()),
    }
}

/// The names of statements, one after the other.
#[cycle(statements)]
pub(crate) fn meet_list(names: &mut Names, body: &[Stmt]) -> Result<(), NoMemory>
    ensures { OnOk result (names.new ≡ met.met_list names.old (list_view (map statement_view body.now))) }
{
    for s in body {
        meet_statement(names, s)?;
    }
    Ok(())
}

#[cycle(statements)]
fn meet_body(names: &mut Names, body: &Body<Stmt>) -> Result<(), NoMemory>
    ensures { OnOk result (names.new ≡ met.met_body names.old (shown.body_view
        (shaped.body_with statement_view body.now))) }
{
    match body {
        Body::Single(s) => meet_statement(names, s.get()),
        Body::Colon(list) => meet_list(names, list.as_slice()),
    }
}

#[cycle(statements)]
fn meet_if(
    names: &mut Names,
    test: &Expr,
    body: &Stmt,
    parts: &[ElseIf<Boxed<Stmt>>],
    last: &Option<Boxed<Stmt>>,
) -> Result<(), NoMemory>
    ensures { OnOk result (names.new ≡ met.if_some met.met_statement (met.met_elseifs
        (met.met_statement (met.met_tree names.old (view test.now)) (statement_view body.now))
        (shown.elseifs_from no_elseif (map (shaped.elseif_with statement_view) parts.now)))
        (optional statement_view last.now)) }
{
    meet_expr(names, test)?;
    meet_statement(names, body)?;
    meet_elseifs(names, parts)?;
    meet_else(names, last)
}

#[cycle(statements)]
fn meet_elseifs(names: &mut Names, parts: &[ElseIf<Boxed<Stmt>>]) -> Result<(), NoMemory>
    ensures { OnOk result (names.new ≡ met.met_elseifs names.old (shown.elseifs_from no_elseif
        (map (shaped.elseif_with statement_view) parts.now))) }
{
    for part in parts {
        meet_elseif(names, part)?;
    }
    Ok(())
}

#[cycle(statements)]
fn meet_elseif(names: &mut Names, part: &ElseIf<Boxed<Stmt>>) -> Result<(), NoMemory>
    ensures { OnOk result (names.new ≡ met.met_elseif names.old (shaped.elseif_with statement_view part.now)) }
{
    meet_expr(names, &part.test)?;
    meet_statement(names, part.body.get())
}

#[cycle(statements)]
fn meet_else(names: &mut Names, last: &Option<Boxed<Stmt>>) -> Result<(), NoMemory>
    ensures { OnOk result (names.new ≡ met.if_some met.met_statement names.old
        (optional statement_view last.now)) }
{
    match last {
        None => Ok(()),
        Some(s) => meet_statement(names, s.get()),
    }
}

#[cycle(statements)]
fn meet_if_lists(
    names: &mut Names,
    test: &Expr,
    body: &[Stmt],
    parts: &[ElseIf<Items<Stmt>>],
    last: &Option<Items<Stmt>>,
) -> Result<(), NoMemory>
    ensures { OnOk result (names.new ≡ met.if_some met.met_list (met.met_elseif_lists
        (met.met_list (met.met_tree names.old (view test.now)) (list_view (map statement_view body.now)))
        (shown.elseif_lists_from no_elseif_list (map (shaped.elseif_list_with statement_view) parts.now)))
        (optional (λ ss. list_view (map statement_view ss)) last.now)) }
{
    meet_expr(names, test)?;
    meet_list(names, body)?;
    meet_elseif_lists(names, parts)?;
    meet_last(names, last)
}

#[cycle(statements)]
fn meet_elseif_lists(names: &mut Names, parts: &[ElseIf<Items<Stmt>>]) -> Result<(), NoMemory>
    ensures { OnOk result (names.new ≡ met.met_elseif_lists names.old (shown.elseif_lists_from
        no_elseif_list (map (shaped.elseif_list_with statement_view) parts.now))) }
{
    for part in parts {
        meet_elseif_list(names, part)?;
    }
    Ok(())
}

#[cycle(statements)]
fn meet_elseif_list(names: &mut Names, part: &ElseIf<Items<Stmt>>) -> Result<(), NoMemory>
    ensures { OnOk result (names.new ≡ met.met_elseif_list names.old
        (shaped.elseif_list_with statement_view part.now)) }
{
    meet_expr(names, &part.test)?;
    meet_list(names, part.body.as_slice())
}

/// The names of statements that may be absent.
#[cycle(statements)]
pub(crate) fn meet_last(names: &mut Names, last: &Option<Items<Stmt>>) -> Result<(), NoMemory>
    ensures { OnOk result (names.new ≡ met.if_some met.met_list names.old
        (optional (λ ss. list_view (map statement_view ss)) last.now)) }
{
    match last {
        None => Ok(()),
        Some(body) => meet_list(names, body.as_slice()),
    }
}

#[cycle(statements)]
fn meet_while(names: &mut Names, test: &Expr, body: &Body<Stmt>) -> Result<(), NoMemory>
    ensures { OnOk result (names.new ≡ met.met_body (met.met_tree names.old (view test.now))
        (shown.body_view (shaped.body_with statement_view body.now))) }
{
    meet_expr(names, test)?;
    meet_body(names, body)
}

#[cycle(statements)]
fn meet_do_while(names: &mut Names, body: &Stmt, test: &Expr) -> Result<(), NoMemory>
    ensures { OnOk result (names.new ≡ met.met_tree (met.met_statement names.old
        (statement_view body.now)) (view test.now)) }
{
    meet_statement(names, body)?;
    meet_expr(names, test)
}

#[cycle(statements)]
fn meet_for(names: &mut Names, head: &ForHead, body: &Body<Stmt>) -> Result<(), NoMemory>
    ensures { OnOk result (names.new ≡ met.met_body (met.met_items (met.met_items (met.met_items names.old
        (shown.values_view head.now.starts)) (shown.values_view head.now.tests))
        (shown.values_view head.now.steps))
        (shown.body_view (shaped.body_with statement_view body.now))) }
{
    meet_for_head(names, head)?;
    meet_body(names, body)
}

#[cycle(statements)]
fn meet_foreach(names: &mut Names, head: &ForeachHead, body: &Body<Stmt>) -> Result<(), NoMemory>
    ensures { OnOk result (names.new ≡ met.met_body (met.met_target (met.if_some met.met_target
        (met.met_tree names.old (view head.now.walked)) (optional shown.target_view head.now.key))
        (shown.target_view head.now.value))
        (shown.body_view (shaped.body_with statement_view body.now))) }
{
    meet_foreach_head(names, head)?;
    meet_body(names, body)
}

#[cycle(statements)]
fn meet_switch(names: &mut Names, e: &Expr, cases: &[Case<Stmt>]) -> Result<(), NoMemory>
    ensures { OnOk result (names.new ≡ met.met_cases (met.met_tree names.old (view e.now))
        (shown.cases_from no_case (map (shaped.case_with statement_view) cases.now))) }
{
    meet_expr(names, e)?;
    for case in cases {
        meet_case(names, case)?;
    }
    Ok(())
}

#[cycle(statements)]
fn meet_case(names: &mut Names, case: &Case<Stmt>) -> Result<(), NoMemory>
    ensures { OnOk result (names.new ≡ met.met_case names.old (shaped.case_with statement_view case.now)) }
{
    meet_optional(names, &case.value)?;
    meet_list(names, case.body.as_slice())
}

#[cycle(statements)]
fn meet_try(
    names: &mut Names,
    body: &[Stmt],
    catches: &[Catch<Stmt>],
    last: &Option<Items<Stmt>>,
) -> Result<(), NoMemory>
    ensures { OnOk result (names.new ≡ met.if_some met.met_list (met.met_catches
        (met.met_list names.old (list_view (map statement_view body.now)))
        (shown.catches_from no_catch (map (shaped.catch_with statement_view) catches.now)))
        (optional (λ ss. list_view (map statement_view ss)) last.now)) }
{
    meet_list(names, body)?;
    meet_catches(names, catches)?;
    meet_last(names, last)
}

#[cycle(statements)]
fn meet_catches(names: &mut Names, catches: &[Catch<Stmt>]) -> Result<(), NoMemory>
    ensures { OnOk result (names.new ≡ met.met_catches names.old (shown.catches_from no_catch
        (map (shaped.catch_with statement_view) catches.now))) }
{
    for catch in catches {
        meet_catch(names, catch)?;
    }
    Ok(())
}

#[cycle(statements)]
fn meet_catch(names: &mut Names, catch: &Catch<Stmt>) -> Result<(), NoMemory>
    ensures { OnOk result (names.new ≡ met.met_catch names.old (shaped.catch_with statement_view catch.now)) }
{
    meet_catch_head(names, catch.classes.as_slice(), &catch.variable)?;
    meet_list(names, catch.body.as_slice())
}
