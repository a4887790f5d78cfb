// Reads what may stand wherever an operand may, from tokens: an operand alone, counted or assigned, a prefix operator, `yield`.
#![tactic(auto)]

mod edges;
mod prefixes;

pub use edges::{edge_of, right_of};
pub use prefixes::{first, static_alone};
