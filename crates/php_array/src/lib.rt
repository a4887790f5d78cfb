// Ordered arrays: entries in the order of their making, found by their keys.
#![tactic(auto)]

mod entries;
mod indexing;
mod key_index;
mod key_places;
mod keys;
mod packed;
mod places;
mod refusal;
mod repack;
mod slots;

pub use entries::Entries;
pub use refusal::{NoAppend, NoSet};
