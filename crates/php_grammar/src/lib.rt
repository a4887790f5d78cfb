// The grammar read from left to right: a machine of open forms, and the laws that join it to the spelling of trees.
#![tactic(auto)]

mod closer;
pub mod laws;

pub use closer::Closer;
