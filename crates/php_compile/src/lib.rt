// From a script to its code. A first walk numbers the variables, a second one emits; both go on with parts of
// the tree, so that they take no more stack than the tree is nested.
#![tactic(auto)]

mod compiler;
mod emitter;
mod expression;
mod forms;
pub mod laws;
mod naming;
mod slots;
mod statement;

pub use compiler::compile;
