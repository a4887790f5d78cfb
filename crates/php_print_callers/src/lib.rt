// Callers of the printer that are proved from its contracts alone.
#![tactic(auto)]

mod callers;

pub use callers::{count_tokens, print_binary, print_line, print_page};
