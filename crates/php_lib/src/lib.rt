// The library's functions over any memory: so far how values compare.
#![tactic(auto)]

mod identity;
mod ordering;
mod places;

pub use identity::same;
pub use ordering::compare;
