// What the actions of the code do to any memory and any sink.
#![tactic(auto)]

mod comparisons;
mod compute;
mod did;
mod names;
mod operands;
mod operators;
mod output;
mod places;
mod stack;
mod straight;
mod texts;

pub use did::{Cause, Did};
pub use names::do_name;
pub use operands::truth_at;
pub use operators::do_operator;
pub use output::do_output;
pub use places::do_place;
pub use stack::do_stack;
pub use straight::{drops, sink, trim};
