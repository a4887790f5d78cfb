// Lines of tokens.

ghost use Rattle.std.specs.Prelude.{◌≡◌, ◌-◌, length};
ghost use Rattle.php_reader.specs.Line as line;

use crate::fail::{ParseFail, Stop};
use php_lex::Tokens;

/// The line of the token at a place, from 1; behind the last token its line, or 1 where there is no token.
pub fn line_of(tokens: &Tokens, place: usize) -> u32
    ensures { result ≡ line.line_at tokens.now place }
{
    let count = tokens.len();
    if count == 0 {
        return 1;
    }
    if place < count {
        return tokens.line(place);
    }
    tokens.line(count - 1)
}

/// The same failure, with the line of its token.
pub fn with_line(tokens: &Tokens, stop: Stop) -> ParseFail
    ensures { line.IsLined tokens.now stop result }
{
    match stop {
        Stop::Syntax(place) => ParseFail::Syntax(place, line_of(tokens, place)),
        Stop::TooDeep(place) => ParseFail::TooDeep(place, line_of(tokens, place)),
        Stop::NoMemory => ParseFail::NoMemory,
    }
}
