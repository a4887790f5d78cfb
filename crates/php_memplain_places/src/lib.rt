// Where a place is in a memory that copies at once, and what such a memory shows.
#![tactic(auto)]

mod counting;
mod objects;
mod places;
mod spot;
mod views;
mod way;

pub use counting::slots;
pub use objects::{class_of, eldest, object_at, prop_at};
pub use places::find;
pub use spot::{Spot, content_at, entries_in, look_at, temp_at};
pub use views::{entry_after, entry_after_near, is_aliased, is_link, meets, peek};
