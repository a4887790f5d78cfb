// The kinds of faults of a script, in the order in which they go where several stand at one token.

/// A kind of fault of a script that the grammar lets pass.
#[derive(Clone, Copy, Debug, PartialEq, Eq)]
pub enum Kind {
    /// What is written to, removed or asked for is no place.
    NoPlace,
    /// A level of `break` or `continue` that no loop or `switch` has.
    BadBreak,
    /// A `break` or `continue` that would leave a `finally` block.
    JumpFromFinally,
    /// A name that is taken already.
    Duplicate,
    /// An expression that should be constant and isn't.
    NoConstant,
    /// A list or an array that is written wrongly.
    BadList,
    /// A word, a parameter or a member where it may not stand.
    BadUse,
    /// More different names than a script may have.
    TooManyNames,
}
