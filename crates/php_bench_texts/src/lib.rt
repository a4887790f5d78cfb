// What the measurements of parsers share: scripts of several forms and sizes, rounds of reading them, and the lines that are printed.
#![tactic(auto)]

mod report;
mod rounds;
mod texts;

pub use report::{Plan, count_tokens, print_forms};
pub use rounds::Subject;
pub use texts::{Form, LONGEST, RISING, deep, flat};
