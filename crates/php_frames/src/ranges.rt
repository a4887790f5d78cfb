// Where a completion goes on in a function's code.
ghost use Rattle.std.specs.Prelude.{◌≡◌, ◌<◌, [], ◌∷◌, ◌++◌, length, slice_get, Some, IfSome, OnOk, OnErr};
ghost use Rattle.php_frames.specs.Served.{AreNested, does_serve, serves_at, handler_of, IsNearest};

use crate::completion::Completion;
use php_base::NoMemory;
use std::alloc::Global;
use std::marker::Model;

/// What a construct serves.
#[derive(Clone, Copy, Debug, Eq, PartialEq)]
pub enum Serves {
    /// Breaks and continues of every level.
    Loop,
    /// The same.
    Switch,
    /// Throws.
    Catch,
    /// All that is under way but an exit.
    Finally,
}

/// The places of a construct, from `from` up to but not with `to`, and where what it serves goes on.
#[derive(Clone, Copy, Debug, Eq, PartialEq)]
pub struct HandlerRange {
    pub serves: Serves,
    pub from: usize,
    pub to: usize,
    pub target: usize,
}

/// The ranges of a function's code. An inner range stands before the outer ones, and each target lies
/// outside its own range.
#[derive(Drop)]
pub struct Ranges {
    ranges: Vec<HandlerRange>,
}

impl Model for Ranges {
    ghost use Rattle.std.specs.Prelude.{List};
    ghost use Rattle.php_frames.specs.declared.ranges.HandlerRange.{HandlerRange};
    ghost use Rattle.php_frames.specs.Served.{AreNested};

    ghost Value = { List HandlerRange };

    ghost view = { λ r. r.ranges.items };

    ghost invariant = { λ r. AreNested r.ranges.items };
}

impl Ranges {
    /// No ranges.
    pub fn new(alloc: Global) -> Ranges
        ensures { result ≡ [] }
    {
        Ranges {
            ranges: Vec::new(alloc),
        }
    }

    /// Adds a range behind the others.
    pub fn push(&mut self, range: HandlerRange) -> Result<(), NoMemory>
        requires { AreNested (self.old ++ range ∷ []) }
        ensures ok { OnOk result (self.new ≡ self.old ++ range ∷ []) }
        ensures no_memory { OnErr result (self.new ≡ self.old) }
    {
        self.ranges.push(range)?;
        Ok(())
    }

    /// The number of ranges.
    pub fn len(&self) -> usize
        ensures { result ≡ length self.now }
    {
        self.ranges.len()
    }

    /// The range of this number, the first one at 0.
    pub fn at(&self, n: usize) -> &HandlerRange
        requires { n < length self.now }
        ensures { slice_get self.now n ≡ Some result.now }
    {
        &self.ranges[n]
    }
}

impl Serves {
    /// Whether a construct of this kind serves the completion.
    fn does_serve(self, why: Completion) -> bool
        ensures { result ≡ does_serve self why }
    {
        match (self, why) {
            (Serves::Loop | Serves::Switch, Completion::Break(_) | Completion::Continue(_)) => true,
            (Serves::Catch, Completion::Throw) => true,
            (Serves::Finally, why) => !matches!(why, Completion::Normal | Completion::Exit(_)),
            _ => false,
        }
    }
}

impl HandlerRange {
    // Whether it holds the place and serves the completion.
    fn serves_at(&self, at: usize, why: Completion) -> bool
        ensures { result ≡ serves_at self.now at why }
    {
        if self.from <= at && at < self.to {
            self.serves.does_serve(why)
        } else {
            false
        }
    }
}

// The number of the first range that holds the place and serves the completion.
fn first_serving(ranges: &[HandlerRange], at: usize, why: Completion) -> Option<usize>
    ensures { result ≡ handler_of ranges.now at why }
{
    for (n, range) in ranges.iter().enumerate() {
        if range.serves_at(at, why) {
            return Some(n);
        }
    }
    None
}

/// The number of the first range that holds the place and serves the completion. It is the innermost of
/// all that do.
pub fn handler(ranges: &Ranges, at: usize, why: Completion) -> Option<usize>
    ensures first { result ≡ handler_of ranges.now at why }
    ensures nearest { IfSome result (λ n. IsNearest ranges.now at why n) }
{
    first_serving(&ranges.ranges, at, why)
}
