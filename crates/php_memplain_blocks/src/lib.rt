// Changes of the blocks of a memory that copies at once: what is on top, what falls, variables that go.
#![tactic(auto)]

mod blocks;
mod moves;
mod names;
mod turning;

pub use blocks::{new_block, reserve_room, shed_variable};
pub use moves::{fall, pop, push, swap};
pub use names::forget_variable;
pub use turning::turn_top;
