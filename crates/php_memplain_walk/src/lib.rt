// Copies of arrays with all that lies in them, without recursion.
#![tactic(auto)]

mod copying;

pub use copying::{Copying, copy_array};
