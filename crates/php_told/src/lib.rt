// Where a script leaves the forms that are told, which are those that the machine runs today.
#![tactic(auto)]

mod expression;
mod form;
pub mod laws;
mod script;
mod statement;

pub use script::first_not_told;
