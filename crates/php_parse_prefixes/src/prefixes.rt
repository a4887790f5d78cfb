// What may stand wherever an operand may: an operand alone, counted or assigned, a prefix operator, `yield`.

ghost use Rattle.std.specs.Prelude.{◌≡◌, ◌≢◌, ◌≤◌, ◌<◌, ◌+◌, ◌-◌, ◌^◌, ℕ, List, suc, length, true, false};
ghost use Rattle.php_token.specs.Token.{Token, token_at};
ghost use Rattle.php_ast.specs.expression.Tree.{colons};
ghost use Rattle.php_ast.specs.Power.{assign_row, yield_power};
ghost use Rattle.php_ast.specs.expression.Proper.{edge, free, right};
ghost use Rattle.php_grammar.specs.declared.closer.Closer.TheVariants as ender;
ghost use Rattle.php_grammar.specs.expression.Role as role;
ghost use Rattle.php_grammar.specs.expression.Role.{beginning, closes, continuation, draws, ends_yield, is_ampersand};
ghost use Rattle.php_ast.specs.declared.operator.Assign.TheVariants.{Plain};
ghost use Rattle.php_reader.specs.declared.role.Opening.TheVariants.{Static};
ghost use Rattle.php_parse_operands.specs.Answer.{AnswersHere};
ghost use Rattle.php_parse_prefixes.specs.Prefixes.{AnswersAssigned, AnswersYield, SeesChange, SeesLone, SeesStatic};
ghost use Rattle.php_reader.specs.Seen.{Follows, Marks, Shows, Starts, rest, test};
ghost use Rattle.php_reader.specs.RoleView.{mark_view, next_view, opening_view, start_view};

use crate::edges::{edge_of, right_of};
use php_ast::{Assign, Count, Prefix, power_of_yield, prefix_power_of, row_of_assignment};
use php_build::build::{
    assign_expr, assign_reference_expr, count_expr, prefix_expr, yield_nothing_expr,
    yield_pair_expr, yield_value_expr,
};
use php_grammar::Closer;
use php_lex::Tokens;
use php_parse_operands::{Operand, Parser, Read, ReadsInner};
use php_reader::Stop;
use php_reader::limit::{OPEN_COUNT, OPEN_YIELD};
use php_reader::look::{closed_by, due_at, is_reference, next_at, spot};
use php_reader::role::{Mark, Next, Opening, Start, Tail};
use std::alloc::Global;

/// Whether a token that does this is `::`.
fn names_member(behind: Next) -> bool
    ensures yes { result ≡ true → next_view behind ≡ draws (role.by_select colons) }
    ensures no { result ≡ false → next_view behind ≢ draws (role.by_select colons) }
{
    matches!(behind, Next::Suffix(Tail::Member))
}

/// What the token behind a `static` does that stands alone, with no `::` behind it.
pub fn static_alone(tokens: &Tokens, at: usize, opening: Opening) -> Option<Next>
    requires { at + 1 < 2 ^ 64 }
    ensures { SeesStatic tokens.now at opening result }
{
    if !matches!(opening, Opening::Static) {
        return None;
    }
    let behind = next_at(tokens, at + 1);
    if names_member(behind) {
        return None;
    }
    Some(behind)
}

/// Whether a `yield` stands alone in front of a token that ends what stands before it so.
fn yields_nothing(closer: Closer) -> bool
    ensures { result ≡ ends_yield (closes closer) }
{
    match closer {
        Closer::Paren | Closer::Bracket | Closer::Comma | Closer::Semicolon => true,
        _ => false,
    }
}

/// What a token with this mark does behind a `yield` that stands alone in front of it.
fn lone_yield(mark: Mark) -> Option<Next>
    ensures { (tokens : List Token) (at : ℕ) → Marks tokens at (mark_view mark) → SeesLone tokens at result }
{
    let Mark::Ends(closer) = mark else {
        return None;
    };
    if yields_nothing(closer) {
        return Some(Next::Closes(closer));
    }
    None
}

/// The least power of an operator in what is assigned.
fn value_power() -> u8
    ensures { result ≡ right assign_row }
{
    right_of(row_of_assignment())
}

/// What must be more than the power of an operator behind an assignment.
fn assign_edge() -> u8
    ensures { result ≡ edge assign_row }
{
    edge_of(row_of_assignment())
}

/// The least power of an operator in what is yielded.
fn yielded_power() -> u8
    ensures { result ≡ suc yield_power }
{
    power_of_yield() + 1
}

/// What changes an operand.
#[derive(Clone, Copy)]
pub(crate) enum Change {
    Assign(Assign),
    Count(Count),
}

/// What changes the operand in front of a token that does this.
fn change_of(behind: Next) -> Option<Change>
    ensures { (tokens : List Token) (at : ℕ) → Follows tokens at (next_view behind) → SeesChange tokens at result }
{
    match behind {
        Next::Assign(op) => Some(Change::Assign(op)),
        Next::Count(count) => Some(Change::Count(count)),
        _ => None,
    }
}

/// A prefix operator and its operand.
fn prefix<R: ReadsInner>(parser: &Parser<R>, at: usize, op: Prefix) -> Result<Read, Stop>
    requires here { Shows beginning parser.now.reader.tokens.now at (role.at_prefix op) }
    ensures { AnswersHere parser.now.reader free free at result }
{
    let power = prefix_power_of(op);
    let operand = parser.deeper(at + 1, power + 1)?;
    Ok(Read {
        edge: power.min(operand.edge),
        next: operand.next,
        behind: operand.behind,
        expr: prefix_expr(
            parser.reader.alloc,
            spot(parser.reader.tokens, at),
            op,
            operand.expr,
        )?,
    })
}

/// The value that is assigned to `left`, from the sign on. The token behind that begins `start`.
fn assign_value<R: ReadsInner>(
    parser: &Parser<R>,
    left: Operand,
    op: Assign,
    start: Start,
) -> Result<Read, Stop>
    requires here { Shows continuation parser.now.reader.tokens.now left.next (draws (role.by_assign op)) }
    requires no_reference { op ≡ Plain → test is_ampersand (rest parser.now.reader.tokens.now (left.next + 1)) ≡ false }
    requires starts { Starts parser.now.reader.tokens.now (left.next + 1) (start_view start (token_at parser.now.reader.tokens.now (left.next + 1)).text) }
    ensures { AnswersAssigned left parser.now.reader result }
{
    let value = parser.deeper_begun(left.next + 1, start, value_power())?;
    Ok(Read {
        edge: assign_edge().min(value.edge),
        next: value.next,
        behind: value.behind,
        expr: assign_expr(parser.reader.alloc, op, left.expr, value.expr)?,
    })
}

/// The source that `left` is made an alias of, from the `=` on.
fn assign_reference<R: ReadsInner>(parser: &Parser<R>, left: Operand) -> Result<Read, Stop>
    requires here { Shows continuation parser.now.reader.tokens.now left.next (draws (role.by_assign Plain)) }
    requires reference { Shows is_ampersand parser.now.reader.tokens.now (left.next + 1) true }
    ensures { AnswersAssigned left parser.now.reader result }
{
    let ampersand = left.next + 1;
    let source = parser.deeper(ampersand + 1, value_power())?;
    Ok(Read {
        edge: assign_edge().min(source.edge),
        next: source.next,
        behind: source.behind,
        expr: assign_reference_expr(parser.reader.alloc, left.expr, source.expr)?,
    })
}

/// An assignment to `left`.
fn assign<R: ReadsInner>(parser: &Parser<R>, left: Operand, op: Assign) -> Result<Read, Stop>
    requires here { Shows continuation parser.now.reader.tokens.now left.next (draws (role.by_assign op)) }
    ensures { AnswersAssigned left parser.now.reader result }
{
    let due = due_at(parser.reader.tokens, left.next + 1);
    if let Assign::Plain = op {
        if is_reference(due.mark) {
            return assign_reference(parser, left);
        }
    }
    assign_value(parser, left, op, due.start)
}

/// An operand, alone, counted or assigned.
fn changed_operand<R: ReadsInner>(
    parser: &Parser<R>,
    at: usize,
    opening: Opening,
) -> Result<Read, Stop>
    requires here { Shows beginning parser.now.reader.tokens.now at (opening_view opening (token_at parser.now.reader.tokens.now at).text) }
    ensures { AnswersHere parser.now.reader free free at result }
{
    if let Some(_) = static_alone(parser.reader.tokens, at, opening) {
        return Err(Stop::Syntax(at + 1));
    }
    let left = parser.operand(at, opening)?;
    match change_of(left.behind) {
        Some(Change::Assign(op)) => assign(parser, left, op),
        Some(Change::Count(count)) => Ok(Read {
            edge: OPEN_COUNT,
            next: left.next + 1,
            behind: next_at(parser.reader.tokens, left.next + 1),
            expr: count_expr(parser.reader.alloc, left.expr, count)?,
        }),
        None => Ok(Read {
            expr: left.expr,
            edge: left.edge,
            next: left.next,
            behind: left.behind,
        }),
    }
}

/// `yield key => value`, from the `=>` on.
fn yield_pair<R: ReadsInner>(parser: &Parser<R>, at: usize, key: Read) -> Result<Read, Stop>
    requires arrow { Shows continuation parser.now.reader.tokens.now key.next (closes ender.DoubleArrow) }
    requires start { at < length parser.now.reader.tokens.now }
    requires deep { 2 ≤ parser.now.reader.room }
    ensures { AnswersYield key parser.now.reader at result }
{
    let value = parser.deeper(key.next + 1, yielded_power())?;
    Ok(Read {
        edge: power_of_yield().min(value.edge),
        next: value.next,
        behind: value.behind,
        expr: yield_pair_expr(
            parser.reader.alloc,
            spot(parser.reader.tokens, at),
            key.expr,
            value.expr,
        )?,
    })
}

/// `yield` alone, with a value, or with a key and a value.
fn yielding<R: ReadsInner>(parser: &Parser<R>, at: usize) -> Result<Read, Stop>
    requires here { Shows beginning parser.now.reader.tokens.now at role.at_yield }
    ensures { AnswersHere parser.now.reader free free at result }
{
    let due = due_at(parser.reader.tokens, at + 1);
    if let Some(behind) = lone_yield(due.mark) {
        return Ok(Read {
            expr: yield_nothing_expr(spot(parser.reader.tokens, at)),
            edge: OPEN_YIELD,
            next: at + 1,
            behind,
        });
    }
    let value = parser.deeper_begun(at + 1, due.start, yielded_power())?;
    if closed_by(value.behind, Closer::DoubleArrow) {
        return yield_pair(parser, at, value);
    }
    Ok(Read {
        edge: power_of_yield().min(value.edge),
        next: value.next,
        behind: value.behind,
        expr: yield_value_expr(
            parser.reader.alloc,
            spot(parser.reader.tokens, at),
            value.expr,
        )?,
    })
}

/// What stands at a place before the first operator behind it. The token at that place begins `start`.
pub fn first<R: ReadsInner>(parser: &Parser<R>, at: usize, start: Start) -> Result<Read, Stop>
    requires within { at ≤ length parser.now.reader.tokens.now }
    requires starts { Starts parser.now.reader.tokens.now at (start_view start (token_at parser.now.reader.tokens.now at).text) }
    ensures { AnswersHere parser.now.reader free free at result }
{
    match start {
        Start::Operand(opening) => changed_operand(parser, at, opening),
        Start::Prefix(op) => prefix(parser, at, op),
        Start::Yield => yielding(parser, at),
        Start::Nothing => Err(Stop::Syntax(at)),
    }
}
