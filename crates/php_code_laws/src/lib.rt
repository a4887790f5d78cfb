// What holds of any code.
#![tactic(auto)]

pub mod laws;
