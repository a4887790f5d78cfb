// The check that no name is given twice, and none that is taken already.
#![tactic(auto)]

mod declaration;
mod member;
mod script;
mod seen;
mod taken;
mod walk;

pub use script::first_duplicate;
