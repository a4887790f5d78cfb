// Runs the statements of the first language over variables, ticks and a sink.
#![tactic(auto)]

mod evaluate;
mod value;
mod walking;

pub use value::Value;
pub use walking::{Stop, Walked, walk};
