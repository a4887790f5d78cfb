// Changes of what stands where a place is, in a memory that copies at once.
#![tactic(auto)]

mod appending;
mod falling;
mod named;
mod removing;
mod swapping;
mod taking;

pub use appending::append;
pub use removing::{unset, unset_last};
pub use swapping::swap_content;
pub use taking::{pop_at, remove_at};
