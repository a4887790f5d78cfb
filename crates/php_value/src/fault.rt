// What keeps an operation from a result.
use crate::error_kind::ErrorKind;
use php_base::NoMemory;

/// A fatal fault: it ends the run at once.
#[derive(Clone, Copy, Debug, Eq, PartialEq)]
pub enum Fault {
    /// An integer outside of 64 bits.
    Overflow,
    /// A division with a remainder.
    InexactQuotient,
    /// A number that only a float could hold.
    FloatNeeded,
    /// A string of more than 16,777,216 bytes.
    StringLimit,
    /// An array of more than 4,194,304 entries, or with too many births.
    ArrayLimit,
    /// More than 10,000 calls inside one another.
    DepthLimit,
    /// More objects than their numbers can count.
    ObjectLimit,
}

/// Why an operation gave no value.
#[derive(Clone, Copy, Debug, Eq, PartialEq)]
pub enum Stopped {
    /// The run ends.
    Fault(Fault),
    /// An error that a script can catch is thrown.
    Throws(ErrorKind),
    /// Memory could not be had.
    NoMemory,
}

impl From<Fault> for Stopped {
    ghost use Rattle.std.specs.Prelude.{◌≡◌};
    ghost use Rattle.php_value.specs.declared.fault.Stopped.TheVariants.{Fault as Ends};

    ghost from_gives = { λ fault stopped. stopped ≡ Ends fault };

    fn from(fault: Fault) -> Stopped {
        Stopped::Fault(fault)
    }
}

impl From<NoMemory> for Stopped {
    ghost use Rattle.std.specs.Prelude.{◌≡◌};
    ghost use Rattle.php_value.specs.declared.fault.Stopped.TheVariants.{NoMemory as WantOfMemory};

    ghost from_gives = { λ _ stopped. stopped ≡ WantOfMemory };

    fn from(_: NoMemory) -> Stopped {
        Stopped::NoMemory
    }
}
