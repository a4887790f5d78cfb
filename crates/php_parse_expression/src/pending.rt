// Operators whose right side is still to be read.

ghost use Rattle.std.specs.Prelude.{◌≡◌, ◌<◌, true, IfOk};
ghost use Rattle.php_ast.specs.expression.Proper.{edge, free, right};
ghost use Rattle.php_ast.specs.expression.View.{view};
ghost use Rattle.php_build.specs.Flat.{is_flat};
ghost use Rattle.php_parse_expression.specs.BetweenView.{are_flat_sides, between_view, row_between};

use php_ast::{Binary, Expr, Link, Row, row_of, row_of_choice};
use php_build::build::{binary_expr, link_expr};
use php_parse_operands::Read;
use php_parse_prefixes::{edge_of, right_of};
use sqlite_items::Boxed;
use std::alloc::{AllocError, Global};

/// What stands between the two sides of an operator.
#[derive(Drop)]
pub(crate) enum Between {
    Binary(Binary),
    /// `?:`
    ShortChoice,
    /// `?`, an expression and `:`
    Choice(Boxed<Expr>),
}

/// An operator with its left side. It stands among operators of a power of at least `least`, and its right side is no
/// deeper than its left one.
#[derive(Drop)]
pub(crate) struct Pending {
    pub(crate) left: Expr,
    pub(crate) between: Between,
    pub(crate) least: u8,
    ghost flat: { are_flat_sides left between ≡ true },
}

/// Where an operator behind an expression leads.
#[derive(Drop)]
pub(crate) enum Onward {
    /// Behind a longer expression.
    Behind(Read),
    /// Into its right side, which begins at a place.
    Inside(Pending, usize),
}

/// The row of an operator.
fn row_at(between: &Between) -> Row
    ensures row { result ≡ row_between between.now }
    ensures small { result.power < free }
{
    match between {
        Between::Binary(op) => row_of(*op),
        Between::ShortChoice | Between::Choice(_) => row_of_choice(),
    }
}

/// An operator between its two sides.
fn between_expr(
    alloc: Global,
    left: Expr,
    between: Between,
    right: Expr,
) -> Result<Expr, AllocError>
    requires sides { are_flat_sides left between ≡ true }
    requires right { is_flat right ≡ true }
    ensures shown { IfOk result (λ e. view e ≡ between_view between (view left) (view right)) }
    ensures flat { IfOk result (λ e. is_flat e ≡ true) }
{
    match between {
        Between::Binary(op) => binary_expr(alloc, op, left, right),
        Between::ShortChoice => link_expr(alloc, left, Link::ShortChoice(right)),
        Between::Choice(middle) => link_expr(alloc, left, Link::Choice(middle.into_inner(), right)),
    }
}

impl Pending {
    ghost use Rattle.php_parse_expression.specs.Climb.{Completes};

    /// The least power of an operator in the right side.
    pub(crate) fn right(&self) -> u8
        ensures { result ≡ right (row_between self.now.between) }
    {
        right_of(row_at(&self.between))
    }

    /// The operator with its right side.
    pub(crate) fn completed(self, alloc: Global, right: Read) -> Result<Read, AllocError>
        ensures { IfOk result (λ r. Completes self right r) }
    {
        let Pending {
            left,
            between,
            least: _,
        } = self;
        let edge = edge_of(row_at(&between));
        Ok(Read {
            edge: edge.min(right.edge),
            next: right.next,
            behind: right.behind,
            expr: between_expr(alloc, left, between, right.expr)?,
        })
    }
}
