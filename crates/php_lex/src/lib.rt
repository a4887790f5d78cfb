// Cuts a script's bytes into tokens, or names the first fault.
#![tactic(auto)]

mod fail;
mod front;
mod laws;
mod lexer;
mod lines;
mod modes;
mod part_pieces;
mod pieces;
mod script_pieces;
mod tokens;

pub use fail::LexFail;
pub use laws::{at_most_one_cut, cut_decides};
pub use lexer::lex;
pub use php_token::{Cast, Keyword, Punct, TokenKind};
pub use tokens::Tokens;
