// No run of a script's code is stuck.
#![tactic(auto)]

pub mod laws;
