// The faults of expressions: what is written to and is no place, lists that are written wrongly, and words that may not stand where they do.
#![tactic(auto)]

mod fault;
mod list;
mod node;
mod shape;
mod usage;
mod walk;
mod word;

pub use fault::fault_if;
pub use node::first_spot;
pub use usage::Use;
pub use walk::{walk_used, walk_values};
pub use word::is_inner_name;
