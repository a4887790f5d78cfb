// Reads the statements of a script that hold no other statement, and what stands in parentheses behind the word of a form.
#![tactic(auto)]

pub mod build;
pub mod catches;
pub mod expression;
pub mod heads;
pub mod labels;
pub mod look;
pub mod names;
pub mod read;
pub mod role;
pub mod simple;
pub mod values;
