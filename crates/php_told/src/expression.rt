// Expressions. A call goes on with parts of its expression, so it takes no more stack than the expression is nested.

ghost use Rattle.std.specs.Prelude.{◌≡◌, map};
ghost use Rattle.std.specs.List.{list_all};
ghost use Rattle.php_ast.specs.expression.Parts.{link_with, piece_with};
ghost use Rattle.php_ast.specs.expression.Tree.{assign, binary, by_value};
ghost use Rattle.php_ast.specs.expression.View.{view, with_links};
ghost use Rattle.php_told.specs.First as spec;
ghost use Rattle.php_told.specs.Noted.{noted};
ghost use Rattle.php_told.specs.Parts as part;

use crate::form::{
    first_in_int, first_in_magic, is_plain_assignment, is_short_text, is_told_operator,
    is_told_prefix, is_variable,
};
use php_ast::{Assign, Binary, Expr, Link, Piece, Spot};
use php_places::first_spot;

fn is_short_piece(piece: &Piece<Expr>) -> bool
    ensures { result ≡ part.is_short_piece (piece_with view piece.now) }
{
    match piece {
        Piece::Bytes(text) => is_short_text(text),
        Piece::Part(_) => true,
    }
}

fn are_short_pieces(pieces: &[Piece<Expr>]) -> bool
    ensures { result ≡ list_all part.is_short_piece (map (piece_with view) pieces.now) }
{
    for piece in pieces {
        if !is_short_piece(piece) {
            return false;
        }
    }
    true
}

fn is_told_link(link: &Link<Expr>) -> bool
    ensures { result ≡ part.is_told_link (link_with view link.now) }
{
    match link {
        Link::Operator(op, _) => is_told_operator(*op),
        Link::Choice(_, _) => false,
        Link::ShortChoice(_) => false,
    }
}

fn are_told_links(links: &[Link<Expr>]) -> bool
    ensures { result ≡ list_all part.is_told_link (map (link_with view) links.now) }
{
    for link in links {
        if !is_told_link(link) {
            return false;
        }
    }
    true
}

/// The first token of the first form in an expression that isn't told.
#[cycle(expressions)]
pub(crate) fn first_in(e: &Expr) -> Option<Spot>
    ensures { noted result ≡ spec.first_in (view e.now) }
{
    match e {
        Expr::Variable(_) => None,
        Expr::Int(spot, number) => first_in_int(*spot, *number),
        Expr::Str(spot, text) => {
            if is_short_text(text) {
                None
            } else {
                Some(*spot)
            }
        }
        Expr::Name(_) => None,
        Expr::Template(spot, pieces) => {
            if are_short_pieces(pieces.as_slice()) {
                first_in_pieces(pieces.as_slice())
            } else {
                Some(*spot)
            }
        }
        Expr::Group(_, e) => first_in(e.get()),
        Expr::Magic(spot, word) => first_in_magic(*spot, *word),
        Expr::Chain(inner, suffixes) => {
            if suffixes.as_slice().is_empty() {
                first_in(inner.get())
            } else {
                Some(first_spot(e))
            }
        }
        Expr::Prefix(spot, op, e) => {
            if is_told_prefix(*op) {
                first_in(e.get())
            } else {
                Some(*spot)
            }
        }
        Expr::Run(first, links) => first_in_run(first.get(), links.as_slice()),
        Expr::Binary(op, l, r) => first_in_binary(*op, l.get(), r.get()),
        Expr::Assign(op, target, e) => first_in_assignment(*op, target.get(), e.get()),
        Expr::StaticMember(_, _)
        | Expr::Array(_, _, _)
        | Expr::IsSet(_, _)
        | Expr::Empty(_, _)
        | Expr::Exit(_)
        | Expr::ExitEmpty(_)
        | Expr::ExitWith(_, _)
        | Expr::New(_, _)
        | Expr::NewWith(_, _, _)
        | Expr::Count(_, _)
        | Expr::InstanceOf(_, _)
        | Expr::InstanceOfStatic(_, _)
        | Expr::AssignReference(_, _)
        | Expr::YieldNothing(_)
        | Expr::Yield(_, _)
        | Expr::YieldPair(_, _, _) => Some(first_spot(e)),
    }
}

#[cycle(expressions)]
fn first_in_binary(op: Binary, l: &Expr, r: &Expr) -> Option<Spot>
    ensures { noted result ≡ spec.first_in (binary op (view l.now) (view r.now)) }
{
    if is_told_operator(op) {
        match first_in(l) {
            None => first_in(r),
            Some(spot) => Some(spot),
        }
    } else {
        Some(first_spot(l))
    }
}

#[cycle(expressions)]
fn first_in_assignment(op: Assign, target: &Expr, e: &Expr) -> Option<Spot>
    ensures { noted result ≡ spec.first_in (assign (by_value op) (view target.now) (view e.now)) }
{
    if is_plain_assignment(op) && is_variable(target) {
        first_in(e)
    } else {
        Some(first_spot(target))
    }
}

/// Of an operand with further ones, or none, behind it.
#[cycle(expressions)]
fn first_in_run(first: &Expr, links: &[Link<Expr>]) -> Option<Spot>
    ensures { noted result ≡ spec.first_in (with_links (view first.now) (map (link_with view) links.now)) }
{
    if are_told_links(links) {
        match first_in(first) {
            None => first_in_links(links),
            Some(spot) => Some(spot),
        }
    } else {
        Some(first_spot(first))
    }
}

#[cycle(expressions)]
fn first_in_links(links: &[Link<Expr>]) -> Option<Spot>
    ensures { noted result ≡ part.first_of part.first_in_link (map (link_with view) links.now) }
{
    for link in links {
        if let Some(spot) = first_in_link(link) {
            return Some(spot);
        }
    }
    None
}

#[cycle(expressions)]
fn first_in_link(link: &Link<Expr>) -> Option<Spot>
    ensures { noted result ≡ part.first_in_link (link_with view link.now) }
{
    match link {
        Link::Operator(_, e) => first_in(e),
        Link::Choice(_, _) => None,
        Link::ShortChoice(_) => None,
    }
}

#[cycle(expressions)]
fn first_in_pieces(pieces: &[Piece<Expr>]) -> Option<Spot>
    ensures { noted result ≡ part.first_of part.first_in_piece (map (piece_with view) pieces.now) }
{
    for piece in pieces {
        if let Some(spot) = first_in_piece(piece) {
            return Some(spot);
        }
    }
    None
}

#[cycle(expressions)]
fn first_in_piece(piece: &Piece<Expr>) -> Option<Spot>
    ensures { noted result ≡ part.first_in_piece (piece_with view piece.now) }
{
    match piece {
        Piece::Bytes(_) => None,
        Piece::Part(e) => first_in(e),
    }
}
