// From the bytes of a file to a legal script, or the cause why it is none.
#![tactic(auto)]

mod fail;
mod front;
pub mod laws;

pub use fail::ReadFail;
pub use front::{Read, let_go, read_script};
