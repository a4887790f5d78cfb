// Statements between the braces of a function.

ghost use Rattle.std.specs.Prelude.{◌≡◌, ◌≤◌, length};
ghost use Rattle.php_grammar.specs.statement.Role.{is_right_brace};
ghost use Rattle.php_reader.specs.Seen.{Tests};
ghost use Rattle.php_parse_statement.specs.Rows.{AnswersRow, RowFails};

use crate::read::{ReadBraced, forget};
use crate::statement::read_statement;
use php_lex::Tokens;
use php_parse_simple::look::{begun_at, sees_after};
use php_parse_simple::role::{After, Begun};
use php_reader::look::start_at;
use php_reader::role::Start;
use php_reader::{Reader, Stop};
use sqlite_items::Items;

/// Whether `}` stands at a place.
fn sees_brace(tokens: &Tokens, at: usize) -> bool
    ensures { Tests is_right_brace tokens.now at result }
{
    sees_after(tokens, at, After::Brace)
}

/// Where no level of nesting is left in the braces, the first token there is nested too deep.
fn sunk(tokens: &Tokens, at: usize) -> Stop
    requires { at ≤ length tokens.now }
    ensures { RowFails 1 tokens.now at result }
{
    if sees_brace(tokens, at) {
        return Stop::TooDeep(at);
    }
    match begun_at(tokens, at) {
        Begun::Expression => match start_at(tokens, at) {
            Start::Nothing => Stop::Syntax(at),
            _ => Stop::TooDeep(at),
        },
        _ => Stop::TooDeep(at),
    }
}

/// The statements behind the `{` of a function, and its `}`. The reader has the levels that are left where the `{` stands.
pub fn read_braced(reader: &Reader, at: usize) -> Result<ReadBraced, Stop>
    requires within { at ≤ length reader.now.tokens.now }
    requires deep { 1 ≤ reader.now.room }
    ensures { AnswersRow reader.entry.now at result }
{
    if reader.room == 1 {
        return Err(sunk(reader.tokens, at));
    }
    let inside = Reader {
        room: reader.room - 1,
        alloc: reader.alloc,
        tokens: reader.tokens,
    };
    let mut statements = Items::new(reader.alloc);
    let mut next = at;
    loop {
        if sees_brace(reader.tokens, next) {
            return Ok(ReadBraced {
                statements,
                next: next + 1,
            });
        }
        let read = read_statement(&inside, next)?;
        statements.push(read.statement)?;
        next = read.next;
    }
}
