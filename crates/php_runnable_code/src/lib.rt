// What the machine over a memory asks of a script's code before it runs it.
#![tactic(auto)]

pub mod laws;
