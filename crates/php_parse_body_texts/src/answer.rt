// What is answered of a text.

ghost use Rattle.std.specs.Prelude.{◌≤◌, length};

use php_case_trees::{expression_before, signature_before, statement_before};
use php_cases::{Around, script_of};
use php_lex::{Tokens, lex};
use php_parse_body::{parse_expr, parse_signature, parse_statement};
use std::alloc::{AllocError, Global};

/// What a text is read as.
#[derive(Clone, Copy)]
pub(crate) enum Kind {
    Expression,
    Signature,
    Statement,
}

/// The answer of a case: of the part of this kind in a script from a place on, the end of the script where that is before the
/// place, inside so many constructs, 128 where there are more.
pub(crate) fn answer_of(
    alloc: Global,
    text: &str,
    kind: Kind,
    around: Around,
) -> Result<String, AllocError> {
    let script = script_of(alloc, text)?;
    if script.as_bytes().len() > 1_048_576 {
        return format!(in alloc; "too long");
    }
    parsed(alloc, script.as_bytes(), kind, around)
}

fn parsed(alloc: Global, script: &[u8], kind: Kind, around: Around) -> Result<String, AllocError>
    requires { length script.now ≤ 1048576 }
{
    let tokens = match lex(alloc, script) {
        Ok(tokens) => tokens,
        Err(fault) => return format!(in alloc; "{fault:?}"),
    };
    let at = around.place.min(tokens.len());
    let depth = around.constructs.min(128);
    match kind {
        Kind::Expression => expression_at(alloc, &tokens, at, depth),
        Kind::Signature => signature_at(alloc, &tokens, at, depth),
        Kind::Statement => statement_at(alloc, &tokens, at, depth),
    }
}

fn expression_at(
    alloc: Global,
    tokens: &Tokens,
    at: usize,
    depth: u32,
) -> Result<String, AllocError>
    requires within { at ≤ length tokens.now }
    requires shallow { depth ≤ 128 }
{
    match parse_expr(alloc, tokens, at, depth) {
        Ok((e, next)) => expression_before(alloc, e, next),
        Err(refusal) => format!(in alloc; "{refusal:?}"),
    }
}

fn signature_at(alloc: Global, tokens: &Tokens, at: usize, depth: u32) -> Result<String, AllocError>
    requires within { at ≤ length tokens.now }
    requires shallow { depth ≤ 128 }
{
    match parse_signature(alloc, tokens, at, depth) {
        Ok((signature, next)) => signature_before(alloc, signature, next),
        Err(refusal) => format!(in alloc; "{refusal:?}"),
    }
}

fn statement_at(alloc: Global, tokens: &Tokens, at: usize, depth: u32) -> Result<String, AllocError>
    requires within { at ≤ length tokens.now }
    requires shallow { depth ≤ 128 }
{
    match parse_statement(alloc, tokens, at, depth) {
        Ok((statement, next)) => statement_before(alloc, statement, next),
        Err(refusal) => format!(in alloc; "{refusal:?}"),
    }
}
