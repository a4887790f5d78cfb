// Callers of a memory, proved from its contract alone: they show that the contract is strong enough to be used. Beside them
// stand memories of the model on which calls may be made, so that the conditions can be met.
#![tactic(auto)]

mod callers;
mod witnesses;

pub use callers::{
    Setting, assign_all, assign_and_read, assign_or_drop, entries_at, object_dropped, push_number,
};
pub use witnesses::{object_calls_can_be_made, other_calls_can_be_made};
