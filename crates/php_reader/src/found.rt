// What a production gives of what it has read, and the place behind it.

use sqlite_items::Items;

/// One thing, and the place behind it.
#[derive(Drop)]
pub struct Entry<T> {
    pub item: T,
    pub next: usize,
}

/// What was listed, and the place behind it, with any token that closes the list.
#[derive(Drop)]
pub struct Listed<T> {
    pub items: Items<T>,
    pub next: usize,
}

/// Whether a mark stands at a place, and the place behind it.
#[derive(Clone, Copy)]
pub struct Marked {
    pub stands: bool,
    pub next: usize,
}
