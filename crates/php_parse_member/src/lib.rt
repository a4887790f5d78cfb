// Reads functions, methods and the members of classes, interfaces and traits from the tokens of a script.
#![tactic(auto)]

mod build;
mod constants;
mod functions;
mod lead;
mod look;
mod member;
mod members;
mod methods;
mod names;
mod read;
mod rules;
mod traits;
mod variables;

pub use functions::read_function;
pub use member::read_member;
pub use members::read_members;
pub use read::{ReadFunction, ReadMember, ReadMembers};
