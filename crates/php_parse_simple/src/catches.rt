// What stands between a `catch` and its block.

ghost use Rattle.std.specs.Prelude.{◌≤◌, length};
ghost use Rattle.php_parse_simple.specs.CatchAnswer.{AnswersCaught};

use crate::look::{bare_name_at, sees, sees_bar, variable_at};
use crate::read::Caught;
use crate::role::Fixed;
use php_reader::{Reader, Stop};
use sqlite_items::Items;

/// The classes of a `catch`, one or more with a `|` between each two, and its variable, in parentheses. The reader has the
/// levels that are left where the `try` stands.
pub fn caught(reader: &Reader, at: usize) -> Result<Caught, Stop>
    requires within { at ≤ length reader.now.tokens.now }
    requires some { 1 ≤ reader.now.room }
    ensures { AnswersCaught reader.entry.now at result }
{
    if !sees(reader.tokens, at, Fixed::LeftParen) {
        return Err(Stop::Syntax(at));
    }
    let mut classes = Items::new(reader.alloc);
    let mut next = at + 1;
    loop {
        let Some(class) = bare_name_at(reader.alloc, reader.tokens, next)? else {
            return Err(Stop::Syntax(next));
        };
        if reader.room == 1 {
            return Err(Stop::TooDeep(next));
        }
        classes.push(class)?;
        let behind = next + 1;
        if let Some(variable) = variable_at(reader.alloc, reader.tokens, behind)? {
            let end = behind + 1;
            if !sees(reader.tokens, end, Fixed::RightParen) {
                return Err(Stop::Syntax(end));
            }
            return Ok(Caught {
                classes,
                variable,
                next: end + 1,
            });
        }
        if !sees_bar(reader.tokens, behind) {
            return Err(Stop::Syntax(behind));
        }
        next = behind + 1;
    }
}
