// Properties of a class.

ghost use Rattle.std.specs.Prelude.{◌≤◌, length};
ghost use Rattle.php_parse_member.specs.Answer.{AnswersProperties, AnswersProperty};

use crate::read::{ReadProperties, ReadProperty};
use php_ast::VariableItem;
use php_grammar::Closer;
use php_parse_simple::expression::expression;
use php_parse_simple::look::{ends, sees, variable_at};
use php_parse_simple::role::Fixed;
use php_reader::{Reader, Stop};
use sqlite_items::Items;

/// A property, with a value or none.
fn property(reader: &Reader, at: usize) -> Result<ReadProperty, Stop>
    requires within { at ≤ length reader.now.tokens.now }
    requires deep { 1 ≤ reader.now.room }
    ensures { AnswersProperty reader.entry.now at result }
{
    let Some(name) = variable_at(reader.alloc, reader.tokens, at)? else {
        return Err(Stop::Syntax(at));
    };
    let behind = at + 1;
    if !sees(reader.tokens, behind, Fixed::Assign) {
        return Ok(ReadProperty {
            property: VariableItem { name, value: None },
            next: behind,
        });
    }
    let read = expression(reader, behind + 1)?;
    Ok(ReadProperty {
        next: read.next,
        property: VariableItem {
            name,
            value: Some(read.expr),
        },
    })
}

/// The properties behind modifiers, and the `;` behind them.
pub(crate) fn properties(reader: &Reader, at: usize) -> Result<ReadProperties, Stop>
    requires within { at ≤ length reader.now.tokens.now }
    requires deep { 1 ≤ reader.now.room }
    ensures { AnswersProperties reader.entry.now at result }
{
    let mut properties = Items::new(reader.alloc);
    let mut next = at;
    loop {
        let read = property(reader, next)?;
        properties.push(read.property)?;
        if ends(reader.tokens, read.next, Closer::Semicolon) {
            return Ok(ReadProperties {
                properties,
                next: read.next + 1,
            });
        }
        if !ends(reader.tokens, read.next, Closer::Comma) {
            return Err(Stop::Syntax(read.next));
        }
        next = read.next + 1;
    }
}
