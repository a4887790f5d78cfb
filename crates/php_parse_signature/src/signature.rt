// Whole signatures.

ghost use Rattle.std.specs.Prelude.{◌≤◌, ◌<◌, length};
ghost use Rattle.php_parse_signature.specs.Answer.{AnswersNone, AnswersResult, AnswersSignature};

use crate::look::part_at;
use crate::params::params;
use crate::part::Part;
use crate::read::{ReadSignature, Typed};
use crate::types::{type_at, type_kind_at};
use php_ast::Signature;
use php_lex::Tokens;
use php_reader::look::{sees_colon, sees_paren, sees_right_paren};
use php_reader::{Entry, Reader, Stop};

/// Where no level of nesting is left inside the parentheses, the first token there is nested too deep.
fn sunk(tokens: &Tokens, at: usize) -> Stop
    requires within { at ≤ length tokens.now }
    ensures { AnswersNone tokens.now at result }
{
    if sees_right_paren(tokens, at) {
        return Stop::TooDeep(at);
    }
    match part_at(tokens, at) {
        Part::Other => Stop::Syntax(at),
        _ => Stop::TooDeep(at),
    }
}

/// The type of the result with its `:`, or none.
fn result_type(reader: &Reader, at: usize) -> Result<Typed, Stop>
    requires within { at ≤ length reader.now.tokens.now }
    ensures { AnswersResult reader.entry.now at result }
{
    if !sees_colon(reader.tokens, at) {
        return Ok(Typed {
            declared: None,
            next: at,
        });
    }
    let place = at + 1;
    let Some(kind) = type_kind_at(reader.tokens, place) else {
        return Err(Stop::Syntax(place));
    };
    let Entry { item, next } = type_at(reader, place, kind)?;
    Ok(Typed {
        declared: Some(item),
        next,
    })
}

/// The signature that begins at a place, with the levels of nesting that the reader has: as many tokens are read as begin
/// one.
pub fn read_signature(reader: &Reader, at: usize) -> Result<ReadSignature, Stop>
    requires within { at ≤ length reader.now.tokens.now }
    requires deep { 1 ≤ reader.now.room }
    ensures { AnswersSignature reader.entry.now at result }
{
    if !sees_paren(reader.tokens, at) {
        return Err(Stop::Syntax(at));
    }
    if reader.room == 1 {
        return Err(sunk(reader.tokens, at + 1));
    }
    let read = params(reader, at + 1)?;
    let typed = result_type(reader, read.next)?;
    Ok(ReadSignature {
        next: typed.next,
        signature: Signature {
            params: read.params,
            result: typed.declared,
        },
    })
}
