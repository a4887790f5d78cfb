// Faults, and which of two goes first.

ghost use Rattle.std.specs.Prelude.{◌≡◌};
ghost use Rattle.php_legality.specs.First as spec;

use crate::kind::Kind;
use php_ast::Spot;

/// A fault of a script, and the token at which it stands.
#[derive(Clone, Copy, Debug, PartialEq, Eq)]
pub struct Fault {
    pub kind: Kind,
    pub spot: Spot,
}

// The place of a kind among those that stand at one token.
fn rank(kind: Kind) -> u8
    ensures { result ≡ spec.rank kind }
{
    match kind {
        Kind::NoPlace => 0,
        Kind::BadBreak => 1,
        Kind::JumpFromFinally => 2,
        Kind::Duplicate => 3,
        Kind::NoConstant => 4,
        Kind::BadList => 5,
        Kind::BadUse => 6,
        Kind::TooManyNames => 7,
    }
}

fn is_before(a: Fault, b: Fault) -> bool
    ensures { result ≡ spec.is_before a b }
{
    if a.spot.place < b.spot.place {
        true
    } else if a.spot.place == b.spot.place {
        rank(a.kind) < rank(b.kind)
    } else {
        false
    }
}

/// The first of the faults met so far and a further one.
pub fn sooner(first: Option<Fault>, fault: Fault) -> Option<Fault>
    ensures { result ≡ spec.sooner first fault }
{
    match first {
        None => Some(fault),
        Some(met) => {
            if is_before(fault, met) {
                Some(fault)
            } else {
                first
            }
        }
    }
}
