// What stores and temporaries hold.
use crate::load::Load;
use php_array::Entries;
use php_chain::Link;
use php_value::Text;

/// What a store holds. An array has a link at hand, by which it joins what is being released.
#[derive(Drop)]
pub enum Content {
    Null,
    Bool(bool),
    Int(i64),
    Str(Text),
    /// The elements, each the number of its store.
    Array(Entries<usize>, Link<Load>),
    /// The number of an object.
    Object(u64),
}

/// A temporary, or something that falls: a content of its own, or the number of a store.
#[derive(Drop)]
pub enum Item {
    Value(Content),
    Link(usize),
}
