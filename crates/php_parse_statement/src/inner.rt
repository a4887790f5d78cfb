// What reads the statements inside a statement.

ghost use Rattle.std.specs.Prelude.{◌≤◌, ◌<◌, length};

use php_parse_simple::read::ReadStatement;
use php_reader::{Reader, Stop};
use std::marker::Model;

/// What reads the statement that begins at a place, with the levels of nesting that the reader has.
pub(crate) trait ReadsInner {
    ghost use Rattle.std.specs.Prelude.{ℕ, Result};
    ghost use denote.Ref.{Bor};
    ghost use Rattle.php_reader.specs.declared.reader.Reader.{Reader};
    ghost use Rattle.php_reader.specs.declared.fail.Stop.{Stop};
    ghost use Rattle.php_parse_simple.specs.declared.read.ReadStatement.{ReadStatement};

    ghost allows: { Self → Bor Reader → ℕ → Type 0 };

    ghost gives: { Self → Bor Reader → ℕ → Result ReadStatement Stop → Type 0 };

    fn read(&self, reader: &Reader, at: usize) -> Result<ReadStatement, Stop>
        requires { allows self.now reader at }
        ensures { gives self.now reader.entry at result };
}

/// A function that does.
#[derive(Drop)]
pub(crate) struct Calls<F>(pub(crate) F);

impl<F: Fn(&Reader, usize) -> Result<ReadStatement, Stop>> ReadsInner for Calls<F> {
    ghost allows = { λ c reader at. F.pre c.0 reader at };

    ghost gives = { λ c reader at r. F.post c.0 reader at r };

    fn read(&self, reader: &Reader, at: usize) -> Result<ReadStatement, Stop> {
        (self.0)(reader, at)
    }
}

/// What reads statements where fewer levels of nesting are left than the number that stands for it: what ends the
/// recursion.
#[derive(Drop)]
pub(crate) struct Inner<R: ReadsInner> {
    bound: usize,
    read: R,
}

impl<R: ReadsInner> Model for Inner<R> {
    ghost use Rattle.std.specs.Prelude.{ℕ};

    ghost Value = { ℕ };

    ghost use Rattle.php_parse_statement.specs.Within.{Nests};

    ghost view = { λ r. r.bound };

    ghost invariant = { λ r. Nests r.bound (R.allows r.read) (R.gives r.read) };
}

impl<R: ReadsInner> Inner<R> {
    ghost use Rattle.std.specs.Prelude.{◌≡◌};
    ghost use Rattle.php_parse_simple.specs.Answer.{AnswersStatement};
    ghost use Rattle.php_parse_statement.specs.Within.{Nests};

    pub(crate) fn new(bound: usize, read: R) -> Self
        requires { Nests bound (R.allows read) (R.gives read) }
        ensures { result ≡ bound }
    {
        Inner { bound, read }
    }

    /// The statement that begins at a place.
    pub(crate) fn read(&self, reader: &Reader, at: usize) -> Result<ReadStatement, Stop>
        requires within { at ≤ length reader.now.tokens.now }
        requires below { reader.now.room < self.now }
        ensures { AnswersStatement reader.entry.now at result }
    {
        self.read.read(reader, at)
    }
}
