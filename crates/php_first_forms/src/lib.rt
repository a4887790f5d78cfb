// Which forms of the whole language run today, and where a script leaves them.
#![tactic(auto)]

mod name;
mod script;
mod sum;

pub use name::is_allowed_name;
pub use script::first_left_out;
