// Printed tokens, and the tokens of an expression.
#![tactic(auto)]

mod expression;
pub mod fixed;
mod print;
mod printed;
mod printer;
mod text;
mod words;

pub use fixed::Fixed;
pub use print::print_expr;
pub use printed::Printed;
pub use printer::Printer;
pub use text::lay_out;
