// Why a text cannot be cut into tokens.

use php_base::NoMemory;
use std::alloc::{AllocError, AllocFailed};
use thiserror::Error;

/// The first fault in a text, with its line, counted from 1.
#[derive(Clone, Copy, Debug, PartialEq, Eq, Error)]
pub enum LexFail {
    /// A comment, a text literal or a part of one without an end. The line is that of its beginning.
    #[error("unclosed on line {0}")]
    Unclosed(u32),
    /// A byte that begins no token, or a digit 8 or 9 in an octal number.
    #[error("unexpected byte on line {0}")]
    BadByte(u32),
    /// A floating-point number.
    #[error("floating-point number on line {0}")]
    FloatLiteral(u32),
    /// An integer literal above 9223372036854775807.
    #[error("integer too large on line {0}")]
    IntTooLarge(u32),
    /// An escape or a part of a template that is not well formed.
    #[error("malformed escape on line {0}")]
    BadEscape(u32),
    /// Memory could not be had. No other cause gives this answer.
    #[error("out of memory")]
    NoMemory,
}

impl From<AllocError> for LexFail {
    ghost use Rattle.std.specs.Prelude.{◌≡◌};
    ghost use Rattle.php_lex.specs.declared.fail.LexFail.TheVariants.{NoMemory};

    ghost from_gives = { λ _ fail. fail ≡ NoMemory };

    fn from(_: AllocError) -> LexFail {
        LexFail::NoMemory
    }
}

impl<T: Drop> From<AllocFailed<T>> for LexFail {
    ghost use Rattle.std.specs.Prelude.{◌≡◌};
    ghost use Rattle.php_lex.specs.declared.fail.LexFail.TheVariants.{NoMemory};

    ghost from_gives = { λ _ fail. fail ≡ NoMemory };

    fn from(_: AllocFailed<T>) -> LexFail {
        LexFail::NoMemory
    }
}

impl From<NoMemory> for LexFail {
    ghost use Rattle.std.specs.Prelude.{◌≡◌};
    ghost use Rattle.php_lex.specs.declared.fail.LexFail.TheVariants.{NoMemory};

    ghost from_gives = { λ _ fail. fail ≡ NoMemory };

    fn from(_: NoMemory) -> LexFail {
        LexFail::NoMemory
    }
}
