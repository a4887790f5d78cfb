// What parsers of tokens share: the tokens and the levels of nesting that are left, what a token is to the grammar, and the ways to stop.
#![tactic(auto)]

pub mod fail;
pub mod found;
pub mod limit;
pub mod line;
pub mod look;
pub mod reader;
pub mod role;

pub use fail::{ParseFail, Stop};
pub use found::{Entry, Listed, Marked};
pub use line::with_line;
pub use reader::Reader;
