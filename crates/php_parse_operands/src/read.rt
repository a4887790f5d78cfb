// What the parts of the parser give.

ghost use Rattle.std.specs.Prelude.{◌≡◌, ◌≤◌, ◌<◌, ◌+◌, ◌*◌, ◌-◌, ◌^◌, length, true, false};
ghost use Rattle.php_build.specs.Flat.{is_flat, is_flat_leaf, is_flat_suffix};

use php_ast::{Expr, Suffix};
use php_reader::role::Next;

/// An expression, what an operator behind it must draw less than, the place behind it, and what the token there does.
#[derive(Drop)]
pub struct Read {
    pub expr: Expr,
    pub edge: u8,
    pub next: usize,
    pub behind: Next,
    pub ghost flat: { is_flat expr ≡ true },
}

/// An operand without suffixes, likewise. It is no chain, so that suffixes may follow it.
#[derive(Drop)]
pub(crate) struct Taken {
    pub(crate) expr: Expr,
    pub(crate) edge: u8,
    pub(crate) next: usize,
    pub(crate) behind: Next,
    ghost flat: { is_flat_leaf expr ≡ true },
}

/// An operand with its suffixes, likewise.
#[derive(Drop)]
pub struct Operand {
    pub expr: Expr,
    pub edge: u8,
    /// Whether its last suffix is a call.
    pub is_call: bool,
    pub next: usize,
    pub behind: Next,
    pub ghost flat: { is_flat expr ≡ true },
}

/// A suffix, and the place behind it.
#[derive(Drop)]
pub(crate) struct Followed {
    pub(crate) suffix: Suffix<Expr>,
    pub(crate) is_call: bool,
    pub(crate) next: usize,
    ghost flat: { is_flat_suffix suffix ≡ true },
}

/// One part of a list or of a `new`, the place behind it, and what the token there does.
#[derive(Drop)]
pub(crate) struct Element<T> {
    pub(crate) item: T,
    pub(crate) next: usize,
    pub(crate) behind: Next,
}
