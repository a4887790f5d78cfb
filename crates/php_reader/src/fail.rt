// Why tokens cannot be read.

use php_base::NoMemory;
use std::alloc::AllocError;
use thiserror::Error;

/// The first token at which tokens cannot be read, by its place among them, from 0, and its line, from 1. Where
/// the tokens end too early, the place is their number and the line is that of the last one, or 1 where there
/// is none.
#[derive(Clone, Copy, Debug, PartialEq, Eq, Error)]
pub enum ParseFail {
    /// A token that cannot go on with what stands before it.
    #[error("unexpected token {0} on line {1}")]
    Syntax(usize, u32),
    /// A token inside more than 128 constructs.
    #[error("token {0} on line {1} is nested too deep")]
    TooDeep(usize, u32),
    /// Memory could not be had.
    #[error("out of memory")]
    NoMemory,
}

/// The same without the line.
#[derive(Drop)]
pub enum Stop {
    /// A token that cannot go on with what stands before it.
    Syntax(usize),
    /// A token inside more constructs than may stand in one another.
    TooDeep(usize),
    /// Memory could not be had.
    NoMemory,
}

impl From<AllocError> for Stop {
    ghost use Rattle.std.specs.Prelude.{◌≡◌};
    ghost use Rattle.php_reader.specs.declared.fail.Stop.TheVariants.{NoMemory};

    ghost from_gives = { λ _ stop. stop ≡ NoMemory };

    fn from(_: AllocError) -> Stop {
        Stop::NoMemory
    }
}

impl From<NoMemory> for Stop {
    ghost use Rattle.std.specs.Prelude.{◌≡◌};
    ghost use Rattle.php_reader.specs.declared.fail.Stop.TheVariants.{NoMemory};

    ghost from_gives = { λ _ stop. stop ≡ NoMemory };

    fn from(_: NoMemory) -> Stop {
        Stop::NoMemory
    }
}
