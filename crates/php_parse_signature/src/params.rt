// Parameters.

ghost use Rattle.std.specs.Prelude.{◌≡◌, ◌≤◌, ◌<◌, length, false};
ghost use Rattle.php_grammar.specs.expression.Role.{is_right_paren};
ghost use Rattle.php_reader.specs.Seen.{rest, test};
ghost use Rattle.php_parse_signature.specs.Answer.{AnswersDefault, AnswersParam, AnswersParams, AnswersValue};

use crate::fronts::front;
use crate::look::sees_assign;
use crate::read::{ReadParam, ReadParams, Valued};
use php_ast::{Expr, Param};
use php_grammar::Closer;
use php_parse_expression::{Read, read_expression};
use php_reader::limit::LEAST_POWER;
use php_reader::look::{ends_with, sees_right_paren};
use php_reader::{Reader, Stop};
use sqlite_items::Items;

/// The value of a parameter, behind its `=`.
fn default(reader: &Reader, at: usize) -> Result<Read, Stop>
    requires within { at ≤ length reader.now.tokens.now }
    requires deep { 2 ≤ reader.now.room }
    ensures { AnswersDefault reader.entry.now at result }
{
    let inside = Reader {
        room: reader.room - 1,
        alloc: reader.alloc,
        tokens: reader.tokens,
    };
    read_expression(&inside, at, LEAST_POWER)
}

/// The value of a parameter with its `=`, or none.
fn value(reader: &Reader, at: usize) -> Result<Valued, Stop>
    requires within { at ≤ length reader.now.tokens.now }
    requires deep { 2 ≤ reader.now.room }
    ensures { AnswersValue reader.entry.now at result }
{
    if !sees_assign(reader.tokens, at) {
        return Ok(Valued {
            default: None,
            next: at,
        });
    }
    let Read { expr, next, .. } = default(reader, at + 1)?;
    Ok(Valued {
        default: Some(expr),
        next,
    })
}

/// A parameter.
fn param(reader: &Reader, at: usize) -> Result<ReadParam, Stop>
    requires within { at ≤ length reader.now.tokens.now }
    requires deep { 2 ≤ reader.now.room }
    ensures { AnswersParam reader.entry.now at result }
{
    let front = front(reader, at)?;
    let value = value(reader, front.next)?;
    Ok(ReadParam {
        next: value.next,
        param: Param {
            declared: front.declared,
            is_reference: front.is_reference,
            is_variadic: front.is_variadic,
            name: front.name,
            default: value.default,
        },
    })
}

/// One parameter or more, and the `)` behind them.
fn some_params(reader: &Reader, at: usize) -> Result<ReadParams, Stop>
    requires within { at ≤ length reader.now.tokens.now }
    requires deep { 2 ≤ reader.now.room }
    requires no_end { test is_right_paren (rest reader.now.tokens.now at) ≡ false }
    ensures { AnswersParams reader.entry.now at result }
{
    let mut params = Items::new(reader.alloc);
    let mut next = at;
    loop {
        let read = param(reader, next)?;
        params.push(read.param)?;
        if ends_with(reader.tokens, read.next, Closer::Paren) {
            return Ok(ReadParams {
                params,
                next: read.next + 1,
            });
        }
        if !ends_with(reader.tokens, read.next, Closer::Comma) {
            return Err(Stop::Syntax(read.next));
        }
        next = read.next + 1;
    }
}

/// The parameters behind a `(`, and the `)` behind them.
pub(crate) fn params(reader: &Reader, at: usize) -> Result<ReadParams, Stop>
    requires within { at ≤ length reader.now.tokens.now }
    requires deep { 2 ≤ reader.now.room }
    ensures { AnswersParams reader.entry.now at result }
{
    if sees_right_paren(reader.tokens, at) {
        return Ok(ReadParams {
            params: Items::new(reader.alloc),
            next: at + 1,
        });
    }
    some_params(reader, at)
}
