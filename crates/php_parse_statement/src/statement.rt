// Statements of all forms.

ghost use Rattle.std.specs.Prelude.{◌≡◌, ◌≤◌, length};
ghost use Rattle.php_parse_simple.specs.Answer.{AnswersStatement};
ghost use Rattle.php_parse_statement.specs.Within.{Nests};

use crate::inner::{Calls, Inner, ReadsInner};
use crate::parser::Parser;
use php_parse_simple::look::begun_at;
use php_parse_simple::names::{constants, declare, globals, statics};
use php_parse_simple::read::ReadStatement;
use php_parse_simple::role::Begun;
use php_parse_simple::simple::{blank, echo, inline, jump, line, throw, unset};
use php_reader::{Reader, Stop};

impl<'t, R: ReadsInner> Parser<'t, R> {
    /// The statement that begins at a place.
    fn statement(&self, at: usize) -> Result<ReadStatement, Stop>
        requires { at ≤ length self.now.reader.tokens.now }
        ensures { AnswersStatement self.now.reader at result }
    {
        match begun_at(self.reader.tokens, at) {
            Begun::Block => self.block(at),
            Begun::Blank => Ok(blank(&self.reader, at)),
            Begun::Inline => inline(&self.reader, at),
            Begun::Echo => echo(&self.reader, at),
            Begun::Globals => globals(&self.reader, at),
            Begun::Statics => statics(&self.reader, at),
            Begun::Unset => unset(&self.reader, at),
            Begun::Constants => constants(&self.reader, at),
            Begun::Jump(kind) => jump(&self.reader, at, kind),
            Begun::Throw => throw(&self.reader, at),
            Begun::If => self.condition(at),
            Begun::While => self.while_loop(at),
            Begun::Do => self.do_while(at),
            Begun::For => self.for_loop(at),
            Begun::Foreach => self.foreach(at),
            Begun::Switch => self.switch(at),
            Begun::Try => self.try_block(at),
            Begun::Declare => declare(&self.reader, at),
            Begun::Expression => line(&self.reader, at),
        }
    }
}

/// Where no level of nesting is left, the first token of a statement is nested too deep.
pub(crate) fn sunk(reader: &Reader, at: usize) -> Result<ReadStatement, Stop>
    requires within { at ≤ length reader.now.tokens.now }
    requires none { reader.now.room ≡ 0 }
    ensures { AnswersStatement reader.entry.now at result }
{
    match begun_at(reader.tokens, at) {
        Begun::Expression => line(reader, at),
        _ => Err(Stop::TooDeep(at)),
    }
}

/// The statement that begins at a place; the ones inside are read by `inner`.
pub(crate) fn outer<R: ReadsInner + Drop>(
    reader: &Reader,
    at: usize,
    inner: R,
) -> Result<ReadStatement, Stop>
    requires within { at ≤ length reader.now.tokens.now }
    requires deep { 1 ≤ reader.now.room }
    requires ready { Nests reader.now.room (R.allows inner) (R.gives inner) }
    ensures { AnswersStatement reader.entry.now at result }
{
    let parser = Parser {
        reader: *reader,
        inner: Inner::new(reader.room, inner),
    };
    parser.statement(at)
}

/// The statement that begins at a place, with the levels of nesting that the reader has: what stands there is read among
/// any open forms in which so many levels are left. It hands itself on, to read the statements inside.
pub fn read_statement(reader: &Reader, at: usize) -> Result<ReadStatement, Stop>
    requires { at ≤ length reader.now.tokens.now }
    ensures { AnswersStatement reader.entry.now at result }
{
    if reader.room == 0 {
        return sunk(reader, at);
    }
    outer(reader, at, Calls(read_statement))
}
