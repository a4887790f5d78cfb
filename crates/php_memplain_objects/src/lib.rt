// Objects that are made, cloned, or held once more, in a memory that copies at once.
#![tactic(auto)]

mod adding;
mod cloning;
mod element;
mod handles;
mod holding;
mod properties;

pub use adding::make_object;
pub use handles::clone_top;
pub use holding::hold;
