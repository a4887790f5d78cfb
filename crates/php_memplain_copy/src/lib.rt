// Copies of contents, with their nested arrays.
#![tactic(auto)]

mod element;
mod frame;
mod laws;
mod log;
mod objects;
mod stores;

pub use element::copy_element;
pub use frame::{Frame, finished, has_rising_serials, next_element};
pub use laws::copies_agree;
pub use log::{Log, hold_object, keep, put_new, undo};
pub use objects::{lower_object, raise_object};
pub use stores::{copy_unless_array, put_store, raise};
