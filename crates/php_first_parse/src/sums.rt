//! Sums, products and atoms, each read from a place in the tokens on.

ghost use Rattle.std.specs.Prelude.{◌≡◌, ◌≤◌, ◌<◌, ◌+◌, ◌-◌, ◌*◌, ℕ, drop, length, true, false, Some, IfOk};
ghost use Rattle.php_first_tree.specs.Expression.{atom_view, product_view, sum_view};
ghost use Rattle.php_first_parse.specs.Spelling as level;
ghost use Rattle.php_first_parse.specs.Answers as answer;

use php_base::NoMemory;
use php_first_tokens::{Lexeme, Token};
use php_first_tree::{Atom, Product, Sign, Sum, Term};
use sqlite_items::{Boxed, Items};
use std::alloc::Global;

/// What was read, and the place behind it.
#[derive(Drop)]
pub(crate) struct Read<T> {
    pub tree: T,
    pub next: usize,
}

pub(crate) fn token_at(tokens: &[Token], at: usize) -> Option<Token>
    ensures { answer.Sees tokens.now at result }
{
    tokens.get(at).copied()
}

pub(crate) fn lexeme_at(tokens: &[Token], at: usize) -> Option<Lexeme>
    ensures { answer.Shows tokens.now at result }
{
    match token_at(tokens, at) {
        None => None,
        Some(token) => Some(token.lexeme),
    }
}

pub(crate) fn sees(tokens: &[Token], at: usize, lexeme: Lexeme) -> bool
    ensures yes { result ≡ true → answer.Stands tokens.now at lexeme }
    ensures no { result ≡ false → answer.HeadIsNot lexeme (drop at tokens.now) }
{
    match lexeme_at(tokens, at) {
        None => false,
        Some(found) => found == lexeme,
    }
}

fn sign_at(tokens: &[Token], at: usize) -> Option<Sign>
    ensures { answer.ShowsSign tokens.now at result }
{
    if sees(tokens, at, Lexeme::Plus) {
        return Some(Sign::Plus);
    }
    if sees(tokens, at, Lexeme::Minus) {
        return Some(Sign::Minus);
    }
    None
}

#[cycle(sums)]
fn atom(
    alloc: Global,
    tokens: &[Token],
    at: usize,
    depth: usize,
) -> Result<Option<Read<Atom>>, NoMemory>
    requires { at ≤ length tokens.now }
    ensures { IfOk result (λ found. answer.Answers level.atom atom_view depth tokens.now at found) }
{
    let Some(lexeme) = lexeme_at(tokens, at) else {
        return Ok(None);
    };
    match lexeme {
        Lexeme::Int(value) => Ok(Some(Read {
            tree: Atom::Int(value),
            next: at + 1,
        })),
        Lexeme::Variable(number) => Ok(Some(Read {
            tree: Atom::Variable(number),
            next: at + 1,
        })),
        Lexeme::Open => group(alloc, tokens, at + 1, depth),
        _ => Ok(None),
    }
}

/// A sum in parentheses, from behind the opening one.
#[cycle(sums)]
fn group(
    alloc: Global,
    tokens: &[Token],
    at: usize,
    depth: usize,
) -> Result<Option<Read<Atom>>, NoMemory>
    requires { at ≤ length tokens.now }
    ensures { IfOk result (λ found. answer.AnswersGroup atom_view depth tokens.now at found) }
{
    if depth == 0 {
        return Ok(None);
    }
    let Some(inside) = sum(alloc, tokens, at, depth - 1)? else {
        return Ok(None);
    };
    if !sees(tokens, inside.next, Lexeme::Close) {
        return Ok(None);
    }
    let Read { tree, next } = inside;
    Ok(Some(Read {
        tree: Atom::Group(Boxed::new(alloc, tree)?),
        next: next + 1,
    }))
}

#[cycle(sums)]
fn product(
    alloc: Global,
    tokens: &[Token],
    at: usize,
    depth: usize,
) -> Result<Option<Read<Product<Atom>>>, NoMemory>
    requires { at ≤ length tokens.now }
    ensures { IfOk result (λ found. answer.Answers level.product product_view depth tokens.now at found) }
{
    let Some(first) = atom(alloc, tokens, at, depth)? else {
        return Ok(None);
    };
    let Read {
        tree: first,
        mut next,
    } = first;
    let mut rest = Items::new(alloc);
    while sees(tokens, next, Lexeme::Star) {
        let Some(factor) = atom(alloc, tokens, next + 1, depth)? else {
            return Ok(None);
        };
        rest.push(factor.tree)?;
        next = factor.next;
    }
    Ok(Some(Read {
        tree: Product { first, rest },
        next,
    }))
}

/// The sum that begins at a place, with at most `depth` parentheses open at once.
#[cycle(sums)]
pub(crate) fn sum(
    alloc: Global,
    tokens: &[Token],
    at: usize,
    depth: usize,
) -> Result<Option<Read<Sum<Atom>>>, NoMemory>
    requires { at ≤ length tokens.now }
    ensures { IfOk result (λ found. answer.Answers level.sum sum_view depth tokens.now at found) }
{
    let Some(first) = product(alloc, tokens, at, depth)? else {
        return Ok(None);
    };
    let Read {
        tree: first,
        mut next,
    } = first;
    let mut rest = Items::new(alloc);
    while let Some(sign) = sign_at(tokens, next) {
        let Some(term) = product(alloc, tokens, next + 1, depth)? else {
            return Ok(None);
        };
        rest.push(Term {
            sign,
            product: term.tree,
        })?;
        next = term.next;
    }
    Ok(Some(Read {
        tree: Sum { first, rest },
        next,
    }))
}
