// Reads the expressions of a script from its tokens.
#![tactic(auto)]

mod expression;
mod operators;
mod parse;
mod pending;

pub use expression::{read_begun, read_expression};
pub use parse::parse_expr;
pub use php_parse_operands::Read;
pub use php_reader::ParseFail;
