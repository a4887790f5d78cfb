// Makes flat trees of expressions from their parts.
#![tactic(auto)]

pub mod build;
pub mod parts;
