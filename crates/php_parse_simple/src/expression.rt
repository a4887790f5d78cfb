// Expressions in statements.

ghost use Rattle.std.specs.Prelude.{◌≤◌, length};
ghost use Rattle.php_parse_simple.specs.Answer.{AnswersExpression, FailsInside};

use php_lex::Tokens;
use php_parse_expression::{Read, read_expression};
use php_reader::limit::LEAST_POWER;
use php_reader::look::start_at;
use php_reader::role::Start;
use php_reader::{Reader, Stop};

/// Where no level of nesting is left, the first token of an expression is nested too deep.
fn sunk(tokens: &Tokens, at: usize) -> Stop
    requires { at ≤ length tokens.now }
    ensures { FailsInside 0 tokens.now at result }
{
    match start_at(tokens, at) {
        Start::Nothing => Stop::Syntax(at),
        _ => Stop::TooDeep(at),
    }
}

/// The expression that begins at a place in a statement, with the levels of nesting that the reader has.
pub fn expression(reader: &Reader, at: usize) -> Result<Read, Stop>
    requires { at ≤ length reader.now.tokens.now }
    ensures { AnswersExpression reader.entry.now at result }
{
    if reader.room == 0 {
        return Err(sunk(reader.tokens, at));
    }
    read_expression(reader, at, LEAST_POWER)
}
