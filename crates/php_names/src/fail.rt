// Why a script isn't legal.

ghost use Rattle.std.specs.Prelude.{◌≡◌, Some};
ghost use Rattle.php_names.specs.Fails.{fault_of};

use php_legality::{Fault, Kind};
use thiserror::Error;

/// The first fault of a script: the line of its token, from 1, and the place of that token among all, from 0.
#[derive(Clone, Copy, Debug, PartialEq, Eq, Error)]
pub enum NameFail {
    /// What is written to, removed or asked for is no place. At its first token, behind its `&`.
    #[error("not a place on line {0}, token {1}")]
    NotAPlace(u32, usize),
    /// A level that is no integer of at least 1, or that no loop or `switch` has. At the `break` or `continue`.
    #[error("bad level on line {0}, token {1}")]
    BadBreak(u32, usize),
    /// A `break` or `continue` that would leave a `finally` block.
    #[error("jump out of a finally block on line {0}, token {1}")]
    JumpFromFinally(u32, usize),
    /// A name that is taken already, or a second `default`. At the later one.
    #[error("duplicate on line {0}, token {1}")]
    Duplicate(u32, usize),
    /// An expression that should be constant and isn't. At its first token.
    #[error("no constant expression on line {0}, token {1}")]
    BadConstant(u32, usize),
    /// A list or an array that is written wrongly, or a list where none may stand. At its first token.
    #[error("bad list on line {0}, token {1}")]
    BadList(u32, usize),
    /// A word, a parameter or a member where it may not stand.
    #[error("bad use on line {0}, token {1}")]
    BadUse(u32, usize),
    /// More different names and variables than 65,535. At the first token of the one past them.
    #[error("too many names on line {0}, token {1}")]
    TooManyNames(u32, usize),
    /// Memory could not be had. No other cause gives this answer.
    #[error("out of memory")]
    NoMemory,
}

/// The failure that tells a fault.
pub(crate) fn fail_of(fault: Fault) -> NameFail
    ensures { fault_of result ≡ Some fault }
{
    let Fault { kind, spot } = fault;
    match kind {
        Kind::NoPlace => NameFail::NotAPlace(spot.line, spot.place),
        Kind::BadBreak => NameFail::BadBreak(spot.line, spot.place),
        Kind::JumpFromFinally => NameFail::JumpFromFinally(spot.line, spot.place),
        Kind::Duplicate => NameFail::Duplicate(spot.line, spot.place),
        Kind::NoConstant => NameFail::BadConstant(spot.line, spot.place),
        Kind::BadList => NameFail::BadList(spot.line, spot.place),
        Kind::BadUse => NameFail::BadUse(spot.line, spot.place),
        Kind::TooManyNames => NameFail::TooManyNames(spot.line, spot.place),
    }
}
