// What makes a script legal: the kinds of its faults, where each stands, and which one is the first.
#![tactic(auto)]

mod fault;
mod kind;
mod scope;

pub use fault::{Fault, sooner};
pub use kind::Kind;
pub use scope::Scope;
