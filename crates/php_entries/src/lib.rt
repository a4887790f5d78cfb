// The definition of an ordered array: the list of its entries, its next key and its next birth
// serial, and what each change makes of it. It is generic in the value of an entry.
#![tactic(auto)]

mod laws;

pub use laws::{changes_keep_sound, changes_map_values};
