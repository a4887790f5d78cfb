// Operators behind their left side.

ghost use Rattle.std.specs.Prelude.{◌≡◌, ◌≤◌, ◌<◌, ◌+◌, ◌-◌, ℕ, length, true, false};
ghost use Rattle.php_token.specs.Token.{token_at};
ghost use Rattle.php_ast.specs.expression.Tree.{colons};
ghost use Rattle.php_ast.specs.expression.Nesting.{right_depth};
ghost use Rattle.php_ast.specs.Power.{binary_row, choice_row, instance_of_row};
ghost use Rattle.php_ast.specs.expression.Proper.{edge};
ghost use Rattle.php_grammar.specs.declared.closer.Closer.TheVariants as ender;
ghost use Rattle.php_grammar.specs.expression.Role as role;
ghost use Rattle.php_grammar.specs.expression.Role.{beginning, closes, continuation, draws, draw_strength, is_colon};
ghost use Rattle.php_parse_expression.specs.Behind.{AnswersBehind};
ghost use Rattle.php_parse_expression.specs.Climb.{AnswersHalf, AnswersOnward};
ghost use Rattle.php_reader.specs.declared.fail.Stop.TheVariants.{Syntax};
ghost use Rattle.php_reader.specs.declared.role.Opening.TheVariants.{Static};
ghost use Rattle.php_reader.specs.Seen.{Shows};
ghost use Rattle.php_reader.specs.RoleView.{infix_view, opening_view};

use crate::pending::{Between, Onward, Pending};
use php_ast::{Binary, Grouping, row_of, row_of_instance_of};
use php_build::build::{binary_expr, instance_of_expr, instance_of_static_expr};
use php_grammar::Closer;
use php_lex::Tokens;
use php_parse_operands::{Parser, Read, ReadsInner};
use php_parse_prefixes::{edge_of, right_of, static_alone};
use php_reader::Stop;
use php_reader::limit::LEAST_POWER;
use php_reader::look::{closed_by, due_at, ended_by, opening_at, spot};
use php_reader::role::{Infix, Opening};
use sqlite_items::Boxed;
use std::alloc::Global;

/// How much deeper the right side of an operator is.
fn depth_of(op: Binary) -> usize
    ensures is { result ≡ right_depth (binary_row op).grouping }
    ensures most { result ≤ 1 }
{
    match row_of(op).grouping {
        Grouping::ToRight => 1,
        Grouping::ToLeft | Grouping::Ungrouped => 0,
    }
}

/// What must be more than the power of an operator behind `instanceof` and its class.
fn instance_of_edge() -> u8
    ensures { result ≡ edge instance_of_row }
{
    edge_of(row_of_instance_of())
}

/// Lets go of what was read before a failure.
fn discard(_read: Read, stop: Stop) -> Stop
    ensures { result ≡ stop }
{
    stop
}

/// What was read is not followed by what must close it.
fn unclosed(read: Read) -> Stop
    ensures { result ≡ Syntax read.next }
{
    Stop::Syntax(read.next)
}

/// Goes on behind `left` and the middle of a `? :`, from the `:` on.
fn half_choice<R: ReadsInner>(
    parser: &Parser<R>,
    left: Read,
    middle: Read,
    least: u8,
) -> Result<Onward, Stop>
    requires colon { Shows continuation parser.now.reader.tokens.now middle.next (closes ender.Colon) }
    requires near { least ≤ choice_row.power }
    ensures { 2 ≤ parser.now.reader.room → AnswersHalf left middle least parser.now.reader result }
{
    let next = middle.next + 1;
    let between = Between::Choice(Boxed::new(parser.reader.alloc, middle.expr)?);
    Ok(Onward::Inside(
        Pending {
            left: left.expr,
            between,
            least,
        },
        next,
    ))
}

/// Goes on behind `left` with an operator that groups to the right.
fn to_right<R: ReadsInner>(parser: &Parser<R>, left: Read, op: Binary) -> Result<Read, Stop>
    requires here { Shows continuation parser.now.reader.tokens.now left.next (draws (role.by_binary op)) }
    requires deeper { right_depth (binary_row op).grouping ≡ 1 }
    requires low { (binary_row op).power < left.edge }
    ensures { (least : ℕ) → least ≤ (binary_row op).power → AnswersBehind left least parser.now.reader result }
{
    let row = row_of(op);
    let right = parser.deeper(left.next + 1, right_of(row))?;
    Ok(Read {
        edge: edge_of(row).min(right.edge),
        next: right.next,
        behind: right.behind,
        expr: binary_expr(parser.reader.alloc, op, left.expr, right.expr)?,
    })
}

/// Goes on behind `left` with an operator between two operands.
fn binary<R: ReadsInner>(
    parser: &Parser<R>,
    left: Read,
    op: Binary,
    least: u8,
) -> Result<Onward, Stop>
    requires here { Shows continuation parser.now.reader.tokens.now left.next (draws (role.by_binary op)) }
    requires near { least ≤ (binary_row op).power }
    requires low { (binary_row op).power < left.edge }
    ensures { AnswersOnward left least parser.now.reader result }
{
    if depth_of(op) == 1 {
        return Ok(Onward::Behind(to_right(parser, left, op)?));
    }
    Ok(Onward::Inside(
        Pending {
            left: left.expr,
            between: Between::Binary(op),
            least,
        },
        left.next + 1,
    ))
}

/// Goes on behind `left` with `? :`, from the `?` on, into its right side.
fn choice<R: ReadsInner>(parser: &Parser<R>, left: Read, least: u8) -> Result<Onward, Stop>
    requires here { Shows continuation parser.now.reader.tokens.now left.next (draws role.by_choice) }
    requires near { least ≤ choice_row.power }
    requires low { choice_row.power < left.edge }
    ensures { AnswersOnward left least parser.now.reader result }
{
    let place = left.next + 1;
    let due = due_at(parser.reader.tokens, place);
    if ended_by(due.mark, Closer::Colon) {
        return Ok(Onward::Inside(
            Pending {
                left: left.expr,
                between: Between::ShortChoice,
                least,
            },
            place + 1,
        ));
    }
    let middle = match parser.deeper_begun(place, due.start, LEAST_POWER) {
        Ok(middle) => middle,
        Err(stop) => return Err(discard(left, stop)),
    };
    if !closed_by(middle.behind, Closer::Colon) {
        return Err(discard(left, unclosed(middle)));
    }
    half_choice(parser, left, middle, least)
}

/// Goes on behind `left` with `instanceof` and a class that is no `static` alone.
fn instance_of_class<R: ReadsInner>(
    parser: &Parser<R>,
    left: Read,
    opening: Opening,
) -> Result<Read, Stop>
    requires here { Shows continuation parser.now.reader.tokens.now left.next (draws role.by_instance_of) }
    requires begins { Shows beginning parser.now.reader.tokens.now (left.next + 1) (opening_view opening (token_at parser.now.reader.tokens.now (left.next + 1)).text) }
    requires colons { opening ≡ Static → Shows continuation parser.now.reader.tokens.now (left.next + 1 + 1) (draws (role.by_select colons)) }
    requires low { instance_of_row.power < left.edge }
    ensures { (least : ℕ) → least ≤ instance_of_row.power → AnswersBehind left least parser.now.reader result }
{
    let class = parser.operand(left.next + 1, opening)?;
    if class.is_call {
        return Err(Stop::Syntax(class.next));
    }
    Ok(Read {
        edge: instance_of_edge(),
        next: class.next,
        behind: class.behind,
        expr: instance_of_expr(parser.reader.alloc, left.expr, class.expr)?,
    })
}

/// Goes on behind `left` with `instanceof`.
fn instance_of<R: ReadsInner>(parser: &Parser<R>, left: Read) -> Result<Read, Stop>
    requires here { Shows continuation parser.now.reader.tokens.now left.next (draws role.by_instance_of) }
    requires low { instance_of_row.power < left.edge }
    ensures { (least : ℕ) → least ≤ instance_of_row.power → AnswersBehind left least parser.now.reader result }
{
    let at = left.next + 1;
    let Some(opening) = opening_at(parser.reader.tokens, at) else {
        return Err(Stop::Syntax(at));
    };
    let Some(behind) = static_alone(parser.reader.tokens, at, opening) else {
        return instance_of_class(parser, left, opening);
    };
    Ok(Read {
        edge: instance_of_edge(),
        next: at + 1,
        behind,
        expr: instance_of_static_expr(
            parser.reader.alloc,
            left.expr,
            spot(parser.reader.tokens, at),
        )?,
    })
}

/// Goes on behind `left` with the operator that stands there.
pub(crate) fn operator<R: ReadsInner>(
    parser: &Parser<R>,
    left: Read,
    op: Infix,
    least: u8,
) -> Result<Onward, Stop>
    requires here { Shows continuation parser.now.reader.tokens.now left.next (draws (infix_view op)) }
    requires near { least ≤ draw_strength (infix_view op) }
    requires low { draw_strength (infix_view op) < left.edge }
    ensures { AnswersOnward left least parser.now.reader result }
{
    match op {
        Infix::Binary(kind) => binary(parser, left, kind, least),
        Infix::Choice => choice(parser, left, least),
        Infix::InstanceOf => Ok(Onward::Behind(instance_of(parser, left)?)),
    }
}
