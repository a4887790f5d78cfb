// What ends an expression.

/// What ends an expression that stands between two tokens, or goes on with what is around it.
#[derive(Clone, Copy, Debug, PartialEq, Eq)]
pub enum Closer {
    /// `)`
    Paren,
    /// `]`
    Bracket,
    /// `}`
    Brace,
    /// `,`
    Comma,
    /// `=>`
    DoubleArrow,
    /// `:`
    Colon,
    /// `;`
    Semicolon,
    /// The end of a part in a text.
    EndPart,
}
