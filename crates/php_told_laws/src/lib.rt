// Runs of scripts whose forms are all told come to an end.
#![tactic(auto)]

pub mod laws;
