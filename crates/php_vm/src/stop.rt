// How a run stops.

use php_vm_actions::Cause;

/// Why a run stopped.
#[derive(Drop)]
pub enum Stop {
    /// The run is over.
    Ends(Cause),
    /// The sink failed.
    SinkFault,
    /// Memory was wanted.
    NoMemory,
}

/// What a run leaves.
pub struct Ended<M> {
    pub stop: Stop,
    /// Ticks that were taken.
    pub ticks: u64,
    pub memory: M,
}
