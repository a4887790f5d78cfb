// The level of a `break` or a `continue`, and what is wrong with it.

ghost use Rattle.std.specs.Prelude.{◌≡◌, ◌<◌, Some, map};
ghost use Rattle.php_ast.specs.expression.View as shown;
ghost use Rattle.php_ast.specs.statement.View.{optional};
ghost use Rattle.php_legality.specs.First.{fault_at, first_from};
ghost use Rattle.php_legality.specs.Lists.{where_true};
ghost use Rattle.php_legality.specs.Rows as rows;
ghost use Rattle.php_legality.specs.Rows.{level};
ghost use Rattle.php_jumps.specs.Gives as spec;
ghost use Rattle.php_jumps.specs.Met.{met_jump};

use crate::around::Around;
use php_ast::{Expr, Spot};
use php_legality::{Fault, Kind, sooner};

// The integer that an expression is, or 0 where it is none of at least 1.
fn level_of(e: &Expr) -> u64
    ensures value { result ≡ level (Some (shown.view e.now)) }
    ensures small { result < 9223372036854775808 }
{
    match e {
        Expr::Int(_, n) => { if *n > 0 { n.unsigned_abs() } else { 0 } }
        Expr::Chain(inner, suffixes) => {
            if suffixes.as_slice().is_empty() {
                level_of(inner.get())
            } else {
                0
            }
        }
        Expr::Run(inner, links) => {
            if links.as_slice().is_empty() {
                level_of(inner.get())
            } else {
                0
            }
        }
        _ => 0,
    }
}

/// The level of a jump: 1 where none is written, and 0 where what is written is no integer of at least 1.
fn level_in(value: &Option<Expr>) -> u64
    ensures value { result ≡ level (optional shown.view value.now) }
    ensures small { result < 9223372036854775808 }
{
    match value {
        None => 1,
        Some(e) => level_of(e),
    }
}

// Whether no loop or `switch` has this level.
fn is_bad_level(n: u64, around: Around) -> bool
    requires { n < 9223372036854775808 }
    ensures { spec.Tells around result (λ outside. rows.is_bad_level n outside) }
{
    if n < 1 { true } else { around.all < n }
}

// Whether a jump of this level leaves a `finally` block.
fn leaves_finally(n: u64, around: Around) -> bool
    requires { n < 9223372036854775808 }
    ensures { spec.Tells around result (λ outside. rows.leaves_finally n (rows.loops_in_finally outside)) }
{
    around.free < n
}

// The first fault behind those met, where this one holds or doesn't.
fn met_if(met: Option<Fault>, holds: bool, kind: Kind, spot: Spot) -> Option<Fault>
    ensures { result ≡ first_from met (where_true holds (fault_at kind (shown.spot_view spot))) }
{
    if holds {
        sooner(met, Fault { kind, spot })
    } else {
        met
    }
}

/// The first fault, behind those met, of a `break` or `continue` with this level.
pub(crate) fn at_jump(
    met: Option<Fault>,
    around: Around,
    spot: Spot,
    value: &Option<Expr>,
) -> Option<Fault>
    ensures { spec.Gives around met result (λ outside. met_jump outside (shown.spot_view spot)
        (optional shown.view value.now)) }
{
    let n = level_in(value);
    let is_bad = is_bad_level(n, around);
    let is_out = leaves_finally(n, around);
    let first = met_if(met, is_bad, Kind::BadBreak, spot);
    met_if(first, is_out, Kind::JumpFromFinally, spot)
}
