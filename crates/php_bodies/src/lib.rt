// The faults of the statements of a body: of their expressions, of values that must be constant, and of words that may not stand there.
#![tactic(auto)]

mod constants;
mod own;
mod walk;
mod words;

pub use constants::{check_constant, check_optional, check_variables};
pub use own::{walk_optional, walk_value, walk_variables};
pub use walk::{walk_last, walk_list, walk_statement};
pub use words::check_name;
