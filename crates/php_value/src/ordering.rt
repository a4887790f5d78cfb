// The outcomes of a comparison.

/// The outcome of a comparison.
#[derive(Clone, Copy, Debug, Eq, PartialEq)]
pub enum Order {
    Less,
    Same,
    More,
    /// Neither below, equal nor above.
    Apart,
}
