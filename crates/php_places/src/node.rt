// What is wrong with an expression itself, for what is done with it.

ghost use Rattle.std.specs.Prelude.{◌≡◌, ◌&&◌, not};
ghost use Rattle.php_ast.specs.expression.View.{view, spot_view};
ghost use Rattle.php_legality.specs.Places.{first_note};
ghost use Rattle.php_legality.specs.declared.kind.Kind.TheVariants as kind;
ghost use Rattle.php_places.specs.Met as spec;
ghost use Rattle.php_places.specs.Uses.{use_view};

use crate::fault::fault_if;
use crate::shape::{fits, is_bad_list, shape_of};
use crate::usage::Use;
use php_ast::{Expr, Spot};
use php_legality::{Fault, Kind};

/// The spot of the first token of an expression.
pub fn first_spot(e: &Expr) -> Spot
    ensures { spot_view result ≡ first_note (view e.now) }
{
    match e {
        Expr::Variable(name) => name.spot,
        Expr::Int(spot, _) => *spot,
        Expr::Str(spot, _) => *spot,
        Expr::Name(name) => name.spot,
        Expr::StaticMember(spot, _) => *spot,
        Expr::Template(spot, _) => *spot,
        Expr::Group(spot, _) => *spot,
        Expr::Array(spot, _, _) => *spot,
        Expr::IsSet(spot, _) => *spot,
        Expr::Empty(spot, _) => *spot,
        Expr::Exit(spot) => *spot,
        Expr::ExitEmpty(spot) => *spot,
        Expr::ExitWith(spot, _) => *spot,
        Expr::Magic(spot, _) => *spot,
        Expr::Chain(e, _) => first_spot(e.get()),
        Expr::New(spot, _) => *spot,
        Expr::NewWith(spot, _, _) => *spot,
        Expr::Prefix(spot, _, _) => *spot,
        Expr::Count(e, _) => first_spot(e.get()),
        Expr::Run(e, _) => first_spot(e.get()),
        Expr::Binary(_, l, _) => first_spot(l.get()),
        Expr::InstanceOf(l, _) => first_spot(l.get()),
        Expr::InstanceOfStatic(l, _) => first_spot(l.get()),
        Expr::Assign(_, l, _) => first_spot(l.get()),
        Expr::AssignReference(l, _) => first_spot(l.get()),
        Expr::YieldNothing(spot) => *spot,
        Expr::Yield(spot, _) => *spot,
        Expr::YieldPair(spot, _, _) => *spot,
    }
}

fn at_spot(met: Option<Fault>, fits: bool, is_bad: bool, spot: Spot) -> Option<Fault>
    ensures { result ≡ spec.where_bad is_bad kind.BadList (spot_view spot) (spec.where_bad (not fits)
        kind.NoPlace (spot_view spot) met) }
{
    let first = fault_if(met, !fits, Kind::NoPlace, spot);
    fault_if(first, is_bad, Kind::BadList, spot)
}

fn is_right(fits: bool, is_bad: bool) -> bool
    ensures { result ≡ (fits && not is_bad) }
{
    if fits { !is_bad } else { false }
}

/// The first fault, behind those met, of what is done with an expression, without those inside it.
pub(crate) fn at_use(met: Option<Fault>, usage: Use, e: &Expr) -> Option<Fault>
    ensures { result ≡ spec.at_use (use_view usage) (view e.now) met }
{
    let shape = shape_of(e);
    let fits = fits(usage, shape);
    let is_bad = is_bad_list(usage, shape);
    if is_right(fits, is_bad) {
        met
    } else {
        at_spot(met, fits, is_bad, first_spot(e))
    }
}
