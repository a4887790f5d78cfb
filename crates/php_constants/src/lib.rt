// Constant expressions.
#![tactic(auto)]

mod constant;

pub use constant::is_constant;
