// Printed tokens.

use php_token::{Cast, Keyword, Punct};
use php_value::Text;

/// A token of a printed tree.
#[derive(Debug, Drop)]
pub enum Printed {
    /// Bytes outside the tags.
    Inline(Text),
    /// A name that is no keyword.
    Name(Text),
    /// A variable's name without its `$`.
    Variable(Text),
    /// An integer.
    Int(i64),
    /// A text without parts.
    Str(Text),
    /// The start of a text with parts.
    Quote,
    /// Bytes of a text with parts.
    Piece(Text),
    /// The start of a part.
    Part,
    /// The end of a part.
    EndPart,
    /// The end of a text with parts.
    Unquote,
    Keyword(Keyword),
    Punct(Punct),
    Cast(Cast),
}
