// Which comparison is asked for.

/// What a comparison asks of the order of two values. Two that are apart are not equal, neither is less, and under
/// `<=>` the left one counts as greater.
#[derive(Clone, Copy)]
pub enum Relation {
    /// `==`
    Equal,
    /// `!=`
    NotEqual,
    /// `<`
    Less,
    /// `<=`
    LessEqual,
    /// `>`
    Greater,
    /// `>=`
    GreaterEqual,
    /// `<=>`, which gives -1, 0 or 1
    Compared,
}
