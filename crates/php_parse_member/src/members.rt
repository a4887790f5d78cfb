// Lists of members.

ghost use Rattle.std.specs.Prelude.{◌≤◌, length};
ghost use Rattle.php_parse_member.specs.Answer.{AnswersInside, AnswersMembers};

use crate::look::sees_right_brace;
use crate::member::read_member;
use crate::read::ReadMembers;
use php_reader::{Reader, Stop};
use sqlite_items::Items;

/// The members behind a `{`, and the `}` behind them. The reader has the levels of nesting inside the braces.
fn members_inside(reader: &Reader, at: usize) -> Result<ReadMembers, Stop>
    requires within { at ≤ length reader.now.tokens.now }
    requires deep { 1 ≤ reader.now.room }
    ensures { AnswersInside reader.entry.now at result }
{
    let mut members = Items::new(reader.alloc);
    let mut next = at;
    loop {
        if sees_right_brace(reader.tokens, next) {
            return Ok(ReadMembers {
                members,
                next: next + 1,
            });
        }
        let read = read_member(reader, next)?;
        members.push(read.member)?;
        next = read.next;
    }
}

/// The members behind a `{`, and the `}` behind them. The reader has the levels of nesting outside the braces.
pub fn read_members(reader: &Reader, at: usize) -> Result<ReadMembers, Stop>
    requires within { at ≤ length reader.now.tokens.now }
    requires deep { 2 ≤ reader.now.room }
    ensures { AnswersMembers reader.entry.now at result }
{
    let inside = Reader {
        room: reader.room - 1,
        alloc: reader.alloc,
        tokens: reader.tokens,
    };
    members_inside(&inside, at)
}
