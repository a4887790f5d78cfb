// What a step did.

use php_value::{ErrorKind, Fault, Text};

/// Why a run is over.
#[derive(Drop)]
pub enum Cause {
    /// The script is at its end, with this status.
    Status(u8),
    /// A fault, on this line.
    Fault(Fault, u32),
    /// An error of this kind, about something of this name, left the script on this line.
    Error(ErrorKind, Text, u32),
    /// No tick was left.
    Allowance,
}

/// What an action, or a step, did.
#[derive(Drop)]
pub enum Did {
    /// The frame goes on.
    Goes,
    /// The run is over.
    Ends(Cause),
    /// The sink failed.
    SinkFault,
    /// Memory was wanted.
    NoMemory,
}
