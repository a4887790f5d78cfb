// Prints the trees of statements, signatures and scripts, so that cases show which part is whose.
#![tactic(auto)]

mod ends;
mod printer;

pub use ends::{expression_before, signature_before, statement_before};
pub use printer::{print_script, repeated};
