// Prints statements. A call of the walk goes on with parts of its statement, so it takes no more stack
// than the statement is nested.

ghost use Rattle.std.specs.Prelude.{◌∷◌, map, OnOk};
ghost use Rattle.php_token.specs.declared.kind.Keyword.TheVariants as word;
ghost use Rattle.php_token.specs.declared.kind.Punct.TheVariants as mark;
ghost use Rattle.php_print.specs.Print.{Prints};
ghost use Rattle.php_print_script.specs.statement.Elements as element;
ghost use Rattle.php_ast.specs.statement.Parts as shaped;
ghost use Rattle.php_ast.specs.statement.Spelling as spelling;
ghost use Rattle.php_ast.specs.statement.View as shown;
ghost use Rattle.php_ast.specs.statement.View.{statement_view, optional};
ghost use Rattle.php_ast.specs.statement.Tree as tree;
ghost use Rattle.php_ast.specs.Symbol as symbol;
ghost use Rattle.php_ast.specs.expression.View.{view};

use crate::simple::{
    put_case_end, put_catch_head, put_constants, put_declare, put_echo, put_expression,
    put_for_head, put_foreach_head, put_globals, put_jump, put_label, put_statics,
    put_switch_closing, put_switch_opening, put_throw, put_unset,
};
use php_ast::{Body, Case, Catch, ElseIf, Expr, Name, Stmt, SwitchForm};
use php_base::NoMemory;
use php_print::fixed::{COLON, ELSE, LEFT, LEFT_BRACE, RIGHT, RIGHT_BRACE, SEMICOLON};
use php_print::{Fixed, Printer};
use php_token::{Keyword, Punct};
use sqlite_items::{Boxed, Items};

/// Puts a statement.
#[cycle(statements)]
pub(crate) fn put_statement(printer: &mut Printer, s: &Stmt) -> Result<(), NoMemory>
    ensures { OnOk result (Prints (spelling.spell_statement (statement_view s.now)) printer.old printer.new) }
{
    match s {
        Stmt::Block(_, body) => put_block(printer, body.as_slice()),
        Stmt::Empty(_) => printer.put_fixed(SEMICOLON),
        Stmt::Inline(_, text) => printer.put_inline(text),
        Stmt::Expression(_, e) => put_expression(printer, e),
        Stmt::Echo(_, values) => put_echo(printer, values.as_slice()),
        Stmt::Global(_, names) => put_globals(printer, names.as_slice()),
        Stmt::Static(_, items) => put_statics(printer, items.as_slice()),
        Stmt::Unset(_, places) => put_unset(printer, places.as_slice()),
        Stmt::Const(_, items) => put_constants(printer, items.as_slice()),
        Stmt::Return(_, value) => put_jump(printer, Keyword::Return, value),
        Stmt::Throw(_, e) => put_throw(printer, e),
        Stmt::Break(_, value) => put_jump(printer, Keyword::Break, value),
        Stmt::Continue(_, value) => put_jump(printer, Keyword::Continue, value),
        Stmt::If(_, test, body, parts, last) => {
            put_if(printer, test, body.get(), parts.as_slice(), last)
        }
        Stmt::IfColon(_, test, body, parts, last) => {
            put_if_lists(printer, test, body.as_slice(), parts.as_slice(), last)
        }
        Stmt::While(_, test, body) => {
            printer.put_head(Keyword::While, test)?;
            put_body(printer, Keyword::EndWhile, body)
        }
        Stmt::DoWhile(_, body, test) => put_do_while(printer, body.get(), test),
        Stmt::For(_, head, body) => {
            put_for_head(printer, head)?;
            put_body(printer, Keyword::EndFor, body)
        }
        Stmt::Foreach(_, head, body) => {
            put_foreach_head(printer, head)?;
            put_body(printer, Keyword::EndForeach, body)
        }
        Stmt::Switch(_, e, form, cases) => put_switch(printer, e, *form, cases.as_slice()),
        Stmt::Try(_, body, catches, last) => {
            put_try(printer, body.as_slice(), catches.as_slice(), last)
        }
        Stmt::Declare(_, name, value) => put_declare(printer, name, value),
    }
}

/// Puts statements, one after the other.
#[cycle(statements)]
fn put_statements(printer: &mut Printer, body: &[Stmt]) -> Result<(), NoMemory>
    ensures { OnOk result (Prints (spelling.spell_statements (shown.list_view
        (map statement_view body.now))) printer.old printer.new) }
{
    for s in body {
        put_statement(printer, s)?;
    }
    Ok(())
}

/// Puts statements in braces.
#[cycle(statements)]
pub(crate) fn put_block(printer: &mut Printer, body: &[Stmt]) -> Result<(), NoMemory>
    ensures { OnOk result (Prints (element.spell_braces (map statement_view body.now))
        printer.old printer.new) }
{
    printer.put_fixed(LEFT_BRACE)?;
    put_statements(printer, body)?;
    printer.put_fixed(RIGHT_BRACE)
}

// The body of a loop; behind a list stands this word.
#[cycle(statements)]
fn put_body(printer: &mut Printer, behind: Keyword, body: &Body<Stmt>) -> Result<(), NoMemory>
    ensures { OnOk result (Prints (spelling.spell_body behind (shown.body_view
        (shaped.body_with statement_view body.now))) printer.old printer.new) }
{
    match body {
        Body::Single(s) => put_statement(printer, s.get()),
        Body::Colon(list) => {
            printer.put_fixed(COLON)?;
            put_statements(printer, list.as_slice())?;
            printer.put_all(&[Fixed::Keyword(behind), SEMICOLON])
        }
    }
}

#[cycle(statements)]
fn put_do_while(printer: &mut Printer, body: &Stmt, test: &Expr) -> Result<(), NoMemory>
    ensures { OnOk result (Prints (element.spell_do body.now test.now) printer.old printer.new) }
{
    printer.put_keyword(Keyword::Do)?;
    put_statement(printer, body)?;
    printer.put_head(Keyword::While, test)?;
    printer.put_fixed(SEMICOLON)
}

// ---- if

#[cycle(statements)]
fn put_if(
    printer: &mut Printer,
    test: &Expr,
    body: &Stmt,
    parts: &[ElseIf<Boxed<Stmt>>],
    last: &Option<Boxed<Stmt>>,
) -> Result<(), NoMemory>
    ensures { OnOk result (Prints (element.spell_if test.now body.now parts.now last.now)
        printer.old printer.new) }
{
    printer.put_head(Keyword::If, test)?;
    put_statement(printer, body)?;
    for part in parts {
        put_elseif(printer, part)?;
    }
    put_else(printer, last)
}

#[cycle(statements)]
fn put_elseif(printer: &mut Printer, part: &ElseIf<Boxed<Stmt>>) -> Result<(), NoMemory>
    ensures { OnOk result (Prints (element.spell_elseif (shaped.elseif_with statement_view part.now))
        printer.old printer.new) }
{
    printer.put_head(Keyword::ElseIf, &part.test)?;
    put_statement(printer, part.body.get())
}

#[cycle(statements)]
fn put_else(printer: &mut Printer, last: &Option<Boxed<Stmt>>) -> Result<(), NoMemory>
    ensures { OnOk result (Prints (element.spell_else (optional statement_view last.now))
        printer.old printer.new) }
{
    match last {
        None => Ok(()),
        Some(s) => {
            printer.put_fixed(ELSE)?;
            put_statement(printer, s.get())
        }
    }
}

#[cycle(statements)]
fn put_if_lists(
    printer: &mut Printer,
    test: &Expr,
    body: &[Stmt],
    parts: &[ElseIf<Items<Stmt>>],
    last: &Option<Items<Stmt>>,
) -> Result<(), NoMemory>
    ensures { OnOk result (Prints (element.spell_if_lists test.now body.now parts.now last.now)
        printer.old printer.new) }
{
    put_list_behind(printer, Keyword::If, test, body)?;
    for part in parts {
        put_elseif_list(printer, part)?;
    }
    put_else_list(printer, last)?;
    printer.put_all(&[Fixed::Keyword(Keyword::EndIf), SEMICOLON])
}

// A word, a test, and a list behind a colon.
#[cycle(statements)]
fn put_list_behind(
    printer: &mut Printer,
    head: Keyword,
    test: &Expr,
    body: &[Stmt],
) -> Result<(), NoMemory>
    ensures { OnOk result (Prints (element.spell_list_behind head test.now body.now)
        printer.old printer.new) }
{
    printer.put_head(head, test)?;
    printer.put_fixed(COLON)?;
    put_statements(printer, body)
}

#[cycle(statements)]
fn put_elseif_list(printer: &mut Printer, part: &ElseIf<Items<Stmt>>) -> Result<(), NoMemory>
    ensures { OnOk result (Prints (element.spell_elseif_list
        (shaped.elseif_list_with statement_view part.now)) printer.old printer.new) }
{
    put_list_behind(printer, Keyword::ElseIf, &part.test, part.body.as_slice())
}

#[cycle(statements)]
fn put_else_list(printer: &mut Printer, last: &Option<Items<Stmt>>) -> Result<(), NoMemory>
    ensures { OnOk result (Prints (element.spell_else_list (optional (map statement_view) last.now))
        printer.old printer.new) }
{
    match last {
        None => Ok(()),
        Some(body) => {
            printer.put_all(&[ELSE, COLON])?;
            put_statements(printer, body.as_slice())
        }
    }
}

// ---- switch

#[cycle(statements)]
fn put_switch(
    printer: &mut Printer,
    e: &Expr,
    form: SwitchForm,
    cases: &[Case<Stmt>],
) -> Result<(), NoMemory>
    ensures { OnOk result (Prints (element.spell_switch e.now form cases.now) printer.old printer.new) }
{
    put_switch_opening(printer, e, form)?;
    for case in cases {
        put_case(printer, case)?;
    }
    put_switch_closing(printer, form)
}

#[cycle(statements)]
fn put_case(printer: &mut Printer, case: &Case<Stmt>) -> Result<(), NoMemory>
    ensures { OnOk result (Prints (element.spell_case (shaped.case_with statement_view case.now))
        printer.old printer.new) }
{
    put_label(printer, &case.value)?;
    put_case_end(printer, case.end)?;
    put_statements(printer, case.body.as_slice())
}

// ---- try

#[cycle(statements)]
fn put_try(
    printer: &mut Printer,
    body: &[Stmt],
    catches: &[Catch<Stmt>],
    last: &Option<Items<Stmt>>,
) -> Result<(), NoMemory>
    ensures { OnOk result (Prints (element.spell_try body.now catches.now last.now) printer.old printer.new) }
{
    printer.put_keyword(Keyword::Try)?;
    put_block(printer, body)?;
    for catch in catches {
        put_catch(printer, catch)?;
    }
    put_finally(printer, last)
}

#[cycle(statements)]
fn put_catch(printer: &mut Printer, catch: &Catch<Stmt>) -> Result<(), NoMemory>
    ensures { OnOk result (Prints (element.spell_catch (shaped.catch_with statement_view catch.now))
        printer.old printer.new) }
{
    put_catch_head(printer, catch.classes.as_slice(), &catch.variable)?;
    put_block(printer, catch.body.as_slice())
}

#[cycle(statements)]
fn put_finally(printer: &mut Printer, last: &Option<Items<Stmt>>) -> Result<(), NoMemory>
    ensures { OnOk result (Prints (element.spell_finally (optional (map statement_view) last.now))
        printer.old printer.new) }
{
    match last {
        None => Ok(()),
        Some(body) => {
            printer.put_keyword(Keyword::Finally)?;
            put_block(printer, body.as_slice())
        }
    }
}
