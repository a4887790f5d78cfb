// The meaning of scripts: the control of trees, as definitions alone.
#![tactic(auto)]

pub mod laws;
