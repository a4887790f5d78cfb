// What reads the expressions inside an expression.

ghost use Rattle.std.specs.Prelude.{◌≤◌, ◌<◌, length};
ghost use Rattle.php_ast.specs.expression.Proper.{free};
ghost use Rattle.php_token.specs.Token.{token_at};
ghost use Rattle.php_reader.specs.RoleView.{start_view};
ghost use Rattle.php_reader.specs.Seen.{Starts};

use crate::read::Read;
use php_reader::role::Start;
use php_reader::{Reader, Stop};
use std::marker::Model;

/// What reads the expression that begins at a place, of operators of a power of at least `least`, with the levels of
/// nesting that the reader has. Whoever calls it has looked at the token at that place: `start` is what it begins.
pub trait ReadsInner {
    ghost use Rattle.std.specs.Prelude.{ℕ, Result};
    ghost use denote.Ref.{Bor};
    ghost use Rattle.php_reader.specs.declared.reader.Reader.{Reader};
    ghost use Rattle.php_reader.specs.declared.role.Start.{Start};
    ghost use Rattle.php_reader.specs.declared.fail.Stop.{Stop};
    ghost use Rattle.php_parse_operands.specs.declared.read.Read.{Read};

    ghost allows: { Self → Bor Reader → ℕ → Start → ℕ → Type 0 };

    ghost gives: { Self → Bor Reader → ℕ → Start → ℕ → Result Read Stop → Type 0 };

    fn read(&self, reader: &Reader, at: usize, start: Start, least: u8) -> Result<Read, Stop>
        requires { allows self.now reader at start least }
        ensures { gives self.now reader.entry at start least result };
}

/// A function that does.
#[derive(Drop)]
pub struct Calls<F>(pub F);

impl<F: Fn(&Reader, usize, Start, u8) -> Result<Read, Stop>> ReadsInner for Calls<F> {
    ghost allows = { λ c reader at start least. F.pre c.0 reader at start least };

    ghost gives = { λ c reader at start least r. F.post c.0 reader at start least r };

    fn read(&self, reader: &Reader, at: usize, start: Start, least: u8) -> Result<Read, Stop> {
        (self.0)(reader, at, start, least)
    }
}

/// What reads expressions where fewer levels of nesting are left than the number that stands for it: what ends the
/// recursion.
#[derive(Drop)]
pub struct Inner<R: ReadsInner> {
    bound: usize,
    read: R,
}

impl<R: ReadsInner> Model for Inner<R> {
    ghost use Rattle.std.specs.Prelude.{ℕ};

    ghost Value = { ℕ };

    ghost use Rattle.php_parse_operands.specs.Answer.{Nests};

    ghost view = { λ r. r.bound };

    ghost invariant = { λ r. Nests r.bound (R.allows r.read) (R.gives r.read) };
}

impl<R: ReadsInner> Inner<R> {
    ghost use Rattle.std.specs.Prelude.{◌≡◌};
    ghost use Rattle.php_parse_operands.specs.Answer.{AnswersHere, Nests};

    pub fn new(bound: usize, read: R) -> Self
        requires { Nests bound (R.allows read) (R.gives read) }
        ensures { result ≡ bound }
    {
        Inner { bound, read }
    }

    /// The expression that begins at a place, with a token that begins `start`.
    pub fn read(&self, reader: &Reader, at: usize, start: Start, least: u8) -> Result<Read, Stop>
        requires within { at ≤ length reader.now.tokens.now }
        requires some { 1 ≤ least }
        requires small { least ≤ free }
        requires below { reader.now.room < self.now }
        requires starts { Starts reader.now.tokens.now at (start_view start (token_at reader.now.tokens.now at).text) }
        ensures { AnswersHere reader.entry.now least least at result }
    {
        self.read.read(reader, at, start, least)
    }
}
