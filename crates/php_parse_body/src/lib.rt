// The parsers of what stands inside a script, under one name: an expression, a signature and a statement alone.
//
// Whoever reads a part of a script by itself calls them here; `php_parse_script` reads whole scripts and calls the crates below.
#![tactic(auto)]

pub use php_parse_expression::parse_expr;
pub use php_parse_signature::parse_signature;
pub use php_parse_statement::parse_statement;
pub use php_reader::ParseFail;
