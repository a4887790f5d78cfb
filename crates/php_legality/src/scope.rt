// What a body, a signature or a value belongs to.

/// What a body, a signature or a value belongs to.
#[derive(Clone, Copy, Debug, PartialEq, Eq)]
pub struct Scope {
    /// A class, an interface or a trait.
    pub in_class: bool,
    /// The body of a function or a method.
    pub in_function: bool,
    /// That of a function that returns nothing.
    pub is_void: bool,
}
