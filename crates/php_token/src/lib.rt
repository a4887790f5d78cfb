// What a token is.
#![tactic(auto)]

mod kind;

pub use kind::{Cast, Keyword, Punct, TokenKind};
