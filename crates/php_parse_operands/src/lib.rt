// Reads operands, with the lists, classes and texts in them, from tokens. The expressions inside are read by what it is given.
#![tactic(auto)]

mod classes;
mod inner;
mod lists;
mod operands;
mod parser;
mod read;
mod suffixes;
mod templates;

pub use inner::{Calls, Inner, ReadsInner};
pub use parser::Parser;
pub use read::{Operand, Read};
