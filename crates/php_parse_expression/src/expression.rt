// Whole expressions: what stands first, and the operators behind it.

ghost use Rattle.std.specs.Prelude.{◌≡◌, ◌≤◌, ◌<◌, ◌+◌, ◌-◌, ℕ, List, length};
ghost use Rattle.php_token.specs.Token.{Token, token_at};
ghost use Rattle.php_ast.specs.expression.Proper.{free};
ghost use Rattle.php_parse_operands.specs.Answer.{AnswersHere, Nests};
ghost use Rattle.php_parse_expression.specs.Behind.{AnswersNone, SeesInfix};
ghost use Rattle.php_reader.specs.RoleView.{next_view, start_view};
ghost use Rattle.php_reader.specs.Seen.{Follows, Starts};

use crate::operators::operator;
use crate::pending::Onward;
use php_lex::Tokens;
use php_parse_operands::{Calls, Inner, Parser, Read, ReadsInner};
use php_parse_prefixes::first;
use php_reader::look::start_at;
use php_reader::role::{Infix, Next, Start, infix_strength};
use php_reader::{Reader, Stop};
use sqlite_items::Items;

/// The operator of a token that does this, where it goes on with an expression which is open to what draws less than
/// `edge`, among operators of a power of at least `least`.
fn operator_of(behind: Next, least: u8, edge: u8) -> Option<Infix>
    requires { 1 ≤ least }
    ensures { (tokens : List Token) (at : ℕ) → Follows tokens at (next_view behind) → SeesInfix tokens at least edge result }
{
    let Next::Infix(op) = behind else {
        return None;
    };
    let draws = infix_strength(op);
    if draws < least || edge <= draws {
        return None;
    }
    Some(op)
}

/// Where no level of nesting is left, the first token of an expression is nested too deep.
fn sunk(tokens: &Tokens, at: usize, start: Start) -> Stop
    requires within { at ≤ length tokens.now }
    requires starts { Starts tokens.now at (start_view start (token_at tokens.now at).text) }
    ensures { (least : ℕ) → least ≤ free → AnswersNone least tokens.now at result }
{
    match start {
        Start::Nothing => Stop::Syntax(at),
        _ => Stop::TooDeep(at),
    }
}

/// The expression that begins at a place, of operators of a power of at least `least`. An operator whose right side
/// is as deep as itself waits in a list while that is read.
fn climb<R: ReadsInner>(
    parser: &Parser<R>,
    at: usize,
    start: Start,
    least: u8,
) -> Result<Read, Stop>
    requires within { at ≤ length parser.now.reader.tokens.now }
    requires some { 1 ≤ least }
    requires small { least ≤ free }
    requires starts { Starts parser.now.reader.tokens.now at (start_view start (token_at parser.now.reader.tokens.now at).text) }
    ensures { AnswersHere parser.now.reader least least at result }
{
    let mut pending = Items::new(parser.reader.alloc);
    let mut inner = least;
    let mut read = first(parser, at, start)?;
    loop {
        match operator_of(read.behind, inner, read.edge) {
            Some(op) => match operator(parser, read, op, inner)? {
                Onward::Behind(longer) => read = longer,
                Onward::Inside(outer, next) => {
                    inner = outer.right();
                    pending.push(outer)?;
                    read = first(parser, next, start_at(parser.reader.tokens, next))?;
                }
            },
            None => match pending.pop() {
                Some(outer) => {
                    inner = outer.least;
                    read = outer.completed(parser.reader.alloc, read)?;
                }
                None => return Ok(read),
            },
        }
    }
}

/// The expression that begins at a place, of operators of a power of at least `least`; the ones inside are read by `inner`.
fn outer<R: ReadsInner + Drop>(
    reader: &Reader,
    at: usize,
    start: Start,
    least: u8,
    inner: R,
) -> Result<Read, Stop>
    requires within { at ≤ length reader.now.tokens.now }
    requires some { 1 ≤ least }
    requires small { least ≤ free }
    requires starts { Starts reader.now.tokens.now at (start_view start (token_at reader.now.tokens.now at).text) }
    requires deep { 1 ≤ reader.now.room }
    requires ready { Nests reader.now.room (R.allows inner) (R.gives inner) }
    ensures { AnswersHere reader.entry.now least least at result }
{
    let parser = Parser {
        reader: *reader,
        inner: Inner::new(reader.room, inner),
    };
    climb(&parser, at, start, least)
}

/// The expression that begins at a place, of operators of a power of at least `least`, with the levels of nesting that
/// the reader has: what stands there is read among any open forms in which so many levels are left, and that go on with
/// every operator of such a power.
pub fn read_expression(reader: &Reader, at: usize, least: u8) -> Result<Read, Stop>
    requires within { at ≤ length reader.now.tokens.now }
    requires some { 1 ≤ least }
    requires small { least ≤ free }
    ensures { AnswersHere reader.entry.now least least at result }
{
    read_begun(reader, at, start_at(reader.tokens, at), least)
}

/// The same, where the token at the place was looked at: it begins `start`. It hands itself on, to read the expressions
/// inside.
pub fn read_begun(reader: &Reader, at: usize, start: Start, least: u8) -> Result<Read, Stop>
    requires within { at ≤ length reader.now.tokens.now }
    requires some { 1 ≤ least }
    requires small { least ≤ free }
    requires starts { Starts reader.now.tokens.now at (start_view start (token_at reader.now.tokens.now at).text) }
    ensures { AnswersHere reader.entry.now least least at result }
{
    if reader.room == 0 {
        return Err(sunk(reader.tokens, at, start));
    }
    outer(reader, at, start, least, Calls(read_begun))
}
