// One more fault behind those met.

ghost use Rattle.std.specs.Prelude.{◌≡◌};
ghost use Rattle.php_ast.specs.expression.View.{spot_view};
ghost use Rattle.php_places.specs.Met as spec;
ghost use Rattle.php_places.specs.Spots.{spots};

use php_ast::Spot;
use php_legality::{Fault, Kind, sooner};

/// The first of the faults met so far and, where it `holds`, of a further one.
pub fn fault_if(met: Option<Fault>, holds: bool, kind: Kind, spot: Spot) -> Option<Fault>
    ensures { result ≡ spec.where_bad holds kind (spot_view spot) met }
{
    if holds {
        sooner(met, Fault { kind, spot })
    } else {
        met
    }
}

/// The first of the faults met so far and of a word, where one was found and may not stand here.
#[tactic(auto, unfolding(crate::specs::Met::at_words))]
pub(crate) fn at_word(met: Option<Fault>, may_stand: bool, found: Option<Spot>) -> Option<Fault>
    ensures { result ≡ spec.at_words may_stand (spots found) met }
{
    if may_stand {
        met
    } else {
        match found {
            None => met,
            Some(spot) => sooner(
                met,
                Fault {
                    kind: Kind::BadUse,
                    spot,
                },
            ),
        }
    }
}
