// A caller of the compiler and of the machine, over any memory and any sink: it shows that what `Vm::run` asks for can be given, and that
// what it answers is what the script means.
#![tactic(auto)]

mod arguments;
mod script;
mod start;

pub use arguments::are_arguments;
pub use script::{run_program, run_script};
pub use start::{begin, can_run};
