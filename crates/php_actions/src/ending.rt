// How a run ends.

use php_value::{Fault, Text};

#[derive(Drop)]
pub enum Ending {
    /// With this status.
    Done(u8),
    /// On this line.
    Fatal(Fault, u32),
    /// Something thrown left the script: its class, its message and its line.
    Uncaught(Text, Text, i64),
    /// No tick was left.
    Cut,
}
