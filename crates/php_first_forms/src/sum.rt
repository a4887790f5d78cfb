// Sums. A call goes on with parts of its expression, so it takes no more stack than the expression is nested.

ghost use Rattle.std.specs.Prelude.{◌≡◌, map};
ghost use Rattle.php_ast.specs.expression.Parts.{link_with};
ghost use Rattle.php_ast.specs.expression.Tree.{binary};
ghost use Rattle.php_ast.specs.expression.View.{spot_view, view};
ghost use Rattle.php_first_forms.specs.Forms as spec;
ghost use Rattle.php_first_forms.specs.Links.{with_operand};
ghost use Rattle.php_first_forms.specs.Noted.{noted};
ghost use Rattle.php_places.specs.Over.{over};

use crate::name::left_in_name;
use php_ast::{Binary, Expr, Link, Spot};
use php_places::first_spot;

fn is_of_sums(op: Binary) -> bool
    ensures { result ≡ spec.is_of_sums op }
{
    match op {
        Binary::Plus | Binary::Minus | Binary::Times => true,
        Binary::Power
        | Binary::Divided
        | Binary::Remainder
        | Binary::Concatenated
        | Binary::ShiftedLeft
        | Binary::ShiftedRight
        | Binary::Less
        | Binary::LessEqual
        | Binary::Greater
        | Binary::GreaterEqual
        | Binary::Equal
        | Binary::NotEqual
        | Binary::LessGreater
        | Binary::Identical
        | Binary::NotIdentical
        | Binary::Compared
        | Binary::BitAnd
        | Binary::BitXor
        | Binary::BitOr
        | Binary::LogicalAnd
        | Binary::LogicalOr
        | Binary::Coalesced
        | Binary::WordAnd
        | Binary::WordXor
        | Binary::WordOr => false,
    }
}

pub(crate) fn or_else(first: Option<Spot>, second: Option<Spot>) -> Option<Spot>
    ensures { noted result ≡ spec.or_else (noted first) (noted second) }
{
    match first {
        None => second,
        Some(spot) => Some(spot),
    }
}

/// The first token of the first form in a sum that doesn't run.
#[cycle(sums)]
pub(crate) fn left_in_sum(e: &Expr) -> Option<Spot>
    ensures { noted result ≡ spec.left_in_sum (view e.now) }
{
    match e {
        Expr::Variable(name) => left_in_name(name),
        Expr::Int(_, _) => None,
        Expr::Group(_, e) => left_in_sum(e.get()),
        Expr::Chain(inner, suffixes) => {
            if suffixes.as_slice().is_empty() {
                left_in_sum(inner.get())
            } else {
                Some(first_spot(e))
            }
        }
        Expr::Run(first, links) => {
            let met = left_in_sum(first.get());
            left_in_links(first_spot(e), met, links.as_slice())
        }
        Expr::Binary(op, l, r) => left_in_binary(*op, l.get(), r.get()),
        Expr::Str(_, _)
        | Expr::Name(_)
        | Expr::StaticMember(_, _)
        | Expr::Template(_, _)
        | Expr::Array(_, _, _)
        | Expr::IsSet(_, _)
        | Expr::Empty(_, _)
        | Expr::Exit(_)
        | Expr::ExitEmpty(_)
        | Expr::ExitWith(_, _)
        | Expr::Magic(_, _)
        | Expr::New(_, _)
        | Expr::NewWith(_, _, _)
        | Expr::Prefix(_, _, _)
        | Expr::Count(_, _)
        | Expr::InstanceOf(_, _)
        | Expr::InstanceOfStatic(_, _)
        | Expr::Assign(_, _, _)
        | Expr::AssignReference(_, _)
        | Expr::YieldNothing(_)
        | Expr::Yield(_, _)
        | Expr::YieldPair(_, _, _) => Some(first_spot(e)),
    }
}

#[cycle(sums)]
fn left_in_binary(op: Binary, l: &Expr, r: &Expr) -> Option<Spot>
    ensures { noted result ≡ spec.left_in_sum (binary op (view l.now) (view r.now)) }
{
    if is_of_sums(op) {
        or_else(left_in_sum(l), left_in_sum(r))
    } else {
        Some(first_spot(l))
    }
}

/// A run that begins at a spot, with further operands behind those of which one was left out so far, or none.
#[cycle(sums)]
fn left_in_links(spot: Spot, met: Option<Spot>, links: &[Link<Expr>]) -> Option<Spot>
    ensures { noted result ≡ over (with_operand (spot_view spot)) (map (link_with view) links.now) (noted met) }
{
    let mut first = met;
    for link in links {
        first = left_in_link(spot, first, link);
    }
    first
}

#[cycle(sums)]
fn left_in_link(spot: Spot, met: Option<Spot>, link: &Link<Expr>) -> Option<Spot>
    ensures { noted result ≡ with_operand (spot_view spot) (link_with view link.now) (noted met) }
{
    match link {
        Link::Operator(op, e) => {
            if is_of_sums(*op) {
                or_else(met, left_in_sum(e))
            } else {
                Some(spot)
            }
        }
        Link::Choice(_, _) => Some(spot),
        Link::ShortChoice(_) => Some(spot),
    }
}
