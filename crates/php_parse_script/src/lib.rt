// Reads whole scripts from their tokens: statements, functions, classes, interfaces and traits.
#![tactic(auto)]

mod build;
mod headings;
mod items;
mod look;
mod names;
mod read;
mod role;
mod script;
mod whole;

pub use php_reader::ParseFail;
pub use whole::parse;
