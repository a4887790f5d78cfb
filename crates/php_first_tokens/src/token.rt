/// What stands at a token's place.
#[derive(Clone, Copy, Debug, PartialEq, Eq)]
pub enum Lexeme {
    /// A variable, by its number: the place of its name in the names of the script.
    Variable(usize),
    /// An integer, at least 0.
    Int(i64),
    /// A text literal without parts, by the place of its token in the tokens of the script.
    Text(usize),
    /// Text outside the tags, by the place of its token in the tokens of the script.
    Inline(usize),
    Echo,
    Equals,
    Semicolon,
    Comma,
    Plus,
    Minus,
    Star,
    Open,
    Close,
}

/// A token, with the line of its first byte, counted from 1.
#[derive(Clone, Copy, Debug, PartialEq, Eq)]
pub struct Token {
    pub lexeme: Lexeme,
    pub line: u32,
}

/// The tokens of a script of the first language, and the names of its variables in the order in which they
/// first occur.
#[derive(Drop)]
pub struct FirstTokens<'a> {
    pub tokens: Vec<Token>,
    pub names: Vec<&'a [u8]>,
}
