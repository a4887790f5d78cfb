// The tokens of the first language that runs, taken from those of the whole one.
#![tactic(auto)]

mod narrowing;
mod token;

pub use narrowing::narrow;
pub use token::{FirstTokens, Lexeme, Token};
