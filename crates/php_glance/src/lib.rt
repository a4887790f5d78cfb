// What a look at two values of a memory tells of how they compare, before any of their parts is looked at. No memory is
// needed for it, and none is taken.
#![tactic(auto)]

mod glance;
mod scalars;

pub use glance::{Glance, Likeness, at_a_glance, identity_at_a_glance, is_missing};
pub use scalars::{is_same, is_same_key};
