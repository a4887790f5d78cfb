// What all productions are methods of.

ghost use Rattle.std.specs.Prelude.{◌≤◌, length};
ghost use Rattle.php_ast.specs.expression.Proper.{free};
ghost use Rattle.php_token.specs.Token.{token_at};
ghost use Rattle.php_reader.specs.RoleView.{start_view};
ghost use Rattle.php_reader.specs.Seen.{Starts};

use crate::inner::{Inner, ReadsInner};
use crate::read::Read;
use php_lex::Tokens;
use php_reader::look::start_at;
use php_reader::role::Start;
use php_reader::{Reader, Stop};

/// Reads parts of expressions. The expressions inside them are read by `inner`.
#[derive(Drop)]
pub struct Parser<'t, R: ReadsInner> {
    pub reader: Reader<'t>,
    pub inner: Inner<R>,
    pub ghost deep: { 1 ≤ reader.room },
    pub ghost below: { reader.room ≤ inner },
}

impl<'t, R: ReadsInner> Parser<'t, R> {
    ghost use Rattle.php_parse_operands.specs.Answer.{AnswersInside};

    /// The expression that begins at a place, one level deeper.
    pub fn deeper(&self, at: usize, least: u8) -> Result<Read, Stop>
        requires within { at ≤ length self.now.reader.tokens.now }
        requires some { 1 ≤ least }
        requires small { least ≤ free }
        ensures { AnswersInside self.now.reader least at result }
    {
        self.deeper_begun(at, start_at(self.reader.tokens, at), least)
    }

    /// The same, where the token at the place was looked at: it begins `start`.
    pub fn deeper_begun(&self, at: usize, start: Start, least: u8) -> Result<Read, Stop>
        requires within { at ≤ length self.now.reader.tokens.now }
        requires some { 1 ≤ least }
        requires small { least ≤ free }
        requires starts { Starts self.now.reader.tokens.now at (start_view start (token_at self.now.reader.tokens.now at).text) }
        ensures { AnswersInside self.now.reader least at result }
    {
        let reader = Reader {
            room: self.reader.room - 1,
            alloc: self.reader.alloc,
            tokens: self.reader.tokens,
        };
        self.inner.read(&reader, at, start, least)
    }
}
