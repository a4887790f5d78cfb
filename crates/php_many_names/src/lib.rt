// The check that a script has no more different names than it may have.
#![tactic(auto)]

mod declaration;
mod expression;
mod names;
mod script;
mod statement;

pub use script::first_name_past_limit;
