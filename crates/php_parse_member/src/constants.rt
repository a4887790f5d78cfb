// Constants of a class.

ghost use Rattle.std.specs.Prelude.{◌≤◌, length};
ghost use Rattle.php_parse_member.specs.Answer.{AnswersConstant, AnswersConstants};

use crate::read::{ReadConstant, ReadConstants};
use php_ast::ClassConstant;
use php_grammar::Closer;
use php_parse_simple::expression::expression;
use php_parse_simple::look::{ends, sees};
use php_parse_simple::role::Fixed;
use php_reader::look::word_at;
use php_reader::{Reader, Stop};
use sqlite_items::Items;

/// A constant and its value.
fn constant(reader: &Reader, at: usize) -> Result<ReadConstant, Stop>
    requires within { at ≤ length reader.now.tokens.now }
    requires deep { 1 ≤ reader.now.room }
    ensures { AnswersConstant reader.entry.now at result }
{
    let Some(name) = word_at(reader.alloc, reader.tokens, at)? else {
        return Err(Stop::Syntax(at));
    };
    let behind = at + 1;
    if !sees(reader.tokens, behind, Fixed::Assign) {
        return Err(Stop::Syntax(behind));
    }
    let read = expression(reader, behind + 1)?;
    Ok(ReadConstant {
        next: read.next,
        constant: ClassConstant {
            name,
            value: read.expr,
        },
    })
}

/// The constants behind the word `const`, and the `;` behind them.
pub(crate) fn class_constants(reader: &Reader, at: usize) -> Result<ReadConstants, Stop>
    requires within { at ≤ length reader.now.tokens.now }
    requires deep { 1 ≤ reader.now.room }
    ensures { AnswersConstants reader.entry.now at result }
{
    let mut constants = Items::new(reader.alloc);
    let mut next = at;
    loop {
        let read = constant(reader, next)?;
        constants.push(read.constant)?;
        if ends(reader.tokens, read.next, Closer::Semicolon) {
            return Ok(ReadConstants {
                constants,
                next: read.next + 1,
            });
        }
        if !ends(reader.tokens, read.next, Closer::Comma) {
            return Err(Stop::Syntax(read.next));
        }
        next = read.next + 1;
    }
}
