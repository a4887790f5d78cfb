// How a part of a script is left.

/// How a part of a script is left. While one is under way that isn't `Normal`, the top temporary is its value: what is returned or
/// thrown, and null where there is none.
#[derive(Clone, Copy, Debug, Eq, PartialEq)]
pub enum Completion {
    Normal,
    /// Leaves so many loops and switches.
    Break(u32),
    /// Goes on with the next turn of the loop that is the so many-th from inside, where switches count as loops do; a switch of
    /// that number is left.
    Continue(u32),
    Return,
    Throw,
    /// Ends the script with this status.
    Exit(u8),
}
