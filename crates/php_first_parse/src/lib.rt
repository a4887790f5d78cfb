// Reads the statements of the first language that runs from their tokens.
#![tactic(auto)]

mod statements;
mod sums;

pub use statements::parse;
