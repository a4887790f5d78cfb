// The tokens of statements, declarations and scripts.
#![tactic(auto)]

mod declaration;
mod member;
mod print;
mod simple;
mod statement;

pub use print::{print_script, print_stmt};
