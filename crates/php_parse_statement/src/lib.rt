// Reads the statements of a script from its tokens.
#![tactic(auto)]

mod blocks;
mod conditions;
mod inner;
mod loops;
mod parse;
mod parser;
mod read;
mod rows;
mod statement;
mod switches;
mod tries;

pub use parse::parse_statement;
pub use php_parse_simple::read::ReadStatement;
pub use php_reader::ParseFail;
pub use read::ReadBraced;
pub use rows::read_braced;
pub use statement::read_statement;
