// The machine over any memory and any sink: it runs the code of a script.
#![tactic(auto)]

mod state;
mod step;
mod steps;
mod stop;
mod vm;

pub use php_vm_actions::Cause;
pub use stop::{Ended, Stop};
pub use vm::Vm;
