// The check of `break` and `continue`: levels that no loop or `switch` has, and jumps out of `finally` blocks.
#![tactic(auto)]

mod around;
mod level;
mod script;
mod walk;

pub use script::first_jump_fault;
