// What holds of scripts and their code together.
#![tactic(auto)]

pub mod laws;
