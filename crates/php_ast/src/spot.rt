// Where tokens stand, and names with their places.

use php_token::Keyword;
use php_value::Text;

/// Where a token stands: its place among the tokens, from 0, and its line, from 1.
#[derive(Clone, Copy, Debug, PartialEq, Eq)]
pub struct Spot {
    pub place: usize,
    pub line: u32,
}

/// A name, or a variable's name without its `$`, as it is written.
#[derive(Drop)]
pub struct Name {
    pub spot: Spot,
    pub text: Text,
}

/// A name of a member. It may be spelled as a keyword.
#[derive(Drop)]
pub struct Word {
    pub spot: Spot,
    pub text: Text,
    /// The keyword that its token is.
    pub keyword: Option<Keyword>,
}
