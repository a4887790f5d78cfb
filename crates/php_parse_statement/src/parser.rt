// What the productions are methods of that hold statements.

ghost use Rattle.std.specs.Prelude.{◌≤◌, length};

use crate::inner::{Inner, ReadsInner};
use php_parse_simple::read::ReadStatement;
use php_reader::{Reader, Stop};

/// Reads statements. The statements inside them are read by `inner`.
#[derive(Drop)]
pub(crate) struct Parser<'t, R: ReadsInner> {
    pub(crate) reader: Reader<'t>,
    pub(crate) inner: Inner<R>,
    ghost deep: { 1 ≤ reader.room },
    ghost below: { reader.room ≤ inner },
}

impl<'t, R: ReadsInner> Parser<'t, R> {
    ghost use Rattle.php_parse_statement.specs.Within.{AnswersInside};

    /// The statement that begins at a place, one level deeper.
    pub(crate) fn deeper(&self, at: usize) -> Result<ReadStatement, Stop>
        requires { at ≤ length self.now.reader.tokens.now }
        ensures { AnswersInside self.now.reader at result }
    {
        let reader = Reader {
            room: self.reader.room - 1,
            alloc: self.reader.alloc,
            tokens: self.reader.tokens,
        };
        self.inner.read(&reader, at)
    }
}
