// Callers of ordered arrays that are proved from the contracts alone: a queue, a count by key and a
// copy with other values.
#![tactic(auto)]

mod copies;
mod queue;
mod tally;

pub use copies::zeroed;
pub use queue::{dequeue, enqueue};
pub use tally::count_key;
