// Code: what a script is compiled to, and the control of the machine that reads it.
#![tactic(auto)]

mod instr;
pub mod laws;
mod program;

pub use instr::Instr;
pub use program::{Function, Program};
