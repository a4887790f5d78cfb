// What is answered of a text.

ghost use Rattle.std.specs.Prelude.{◌≤◌, length};

use crate::listing::listed;
use php_ast::{Expr, Script, ScriptItem, Spot, Stmt};
use php_code::Program;
use php_compile::compile;
use php_lex::lex;
use php_parse_expression::parse_expr;
use sqlite_items::Items;
use std::alloc::{AllocError, Global};

/// The code of the script that a text stands for.
pub(crate) fn answer_of(alloc: Global, text: &str) -> Result<String, AllocError> {
    match text.strip_prefix("echo ") {
        Some(rest) => answer_as(alloc, rest, true),
        None => answer_as(alloc, text, false),
    }
}

fn answer_as(alloc: Global, text: &str, is_written: bool) -> Result<String, AllocError> {
    let source = format!(in alloc; "<?php {text}")?;
    if source.as_bytes().len() > 1_048_576 {
        return format!(in alloc; "too long");
    }
    code_of(alloc, source.as_bytes(), is_written)
}

fn code_of(alloc: Global, source: &[u8], is_written: bool) -> Result<String, AllocError>
    requires { length source.now ≤ 1048576 }
{
    let tokens = match lex(alloc, source) {
        Ok(tokens) => tokens,
        Err(fault) => return format!(in alloc; "{fault:?}"),
    };
    match parse_expr(alloc, &tokens, 0, 0) {
        Ok((e, _)) => compiled(alloc, e, is_written),
        Err(refusal) => format!(in alloc; "{refusal:?}"),
    }
}

fn compiled(alloc: Global, e: Expr, is_written: bool) -> Result<String, AllocError> {
    let script = script_of(alloc, e, is_written)?;
    match compile(alloc, &script) {
        Ok(program) => shown(alloc, &program),
        Err(_) => format!(in alloc; "no memory"),
    }
}

fn script_of(alloc: Global, e: Expr, is_written: bool) -> Result<Script, AllocError> {
    let mut items = Items::new(alloc);
    items.push(ScriptItem::Statement(statement_of(alloc, e, is_written)?))?;
    Ok(Script { items })
}

fn statement_of(alloc: Global, e: Expr, is_written: bool) -> Result<Stmt, AllocError> {
    let spot = Spot { place: 0, line: 3 };
    if is_written {
        let mut values = Items::new(alloc);
        values.push(e)?;
        Ok(Stmt::Echo(spot, values))
    } else {
        Ok(Stmt::Expression(spot, e))
    }
}

fn shown(alloc: Global, program: &Program) -> Result<String, AllocError> {
    let mut text = String::new(alloc);
    if let Some(script) = program.functions.get(0) {
        text = listed(alloc, script.code.as_slice())?;
    }
    if let Some(fact) = program.facts.functions.get(0) {
        let room = fact.room;
        text = format!(in alloc; "{text} room {room}")?;
    }
    Ok(text)
}
