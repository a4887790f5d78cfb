// Types that a parameter or a result can be declared with.

/// A declared type whose values are scalars.
#[derive(Clone, Copy, Debug, Eq, PartialEq)]
pub enum ScalarType {
    Int,
    Str,
    Bool,
}
