// How far a path leads.
ghost use Rattle.php_memplain_cells.specs.Memory.{memory_seen};
ghost use Rattle.php_memplain_places.specs.Ways.{WayIs};

use crate::places::{base_spot, next_spot};
use crate::spot::Spot;
use php_memdef::Place;
use php_memplain_cells::Cells;

/// How many steps of a path lead somewhere, and where the last of them leads.
#[derive(Clone, Copy, Debug, Eq, PartialEq)]
pub struct Way {
    pub steps: usize,
    /// The place's base, where no step leads anywhere, and `None` where the base is missing.
    pub end: Option<Spot>,
}

/// Goes along the path of a place as far as it leads.
pub fn go_along(cells: &Cells, place: &Place) -> Way
    ensures { WayIs result (memory_seen cells.now) place.now }
{
    let Some(mut spot) = base_spot(cells, &place.base) else {
        return Way {
            steps: 0,
            end: None,
        };
    };
    for at in 0..place.path.len() {
        let Some(next) = next_spot(cells, spot, place.path.step(at)) else {
            return Way {
                steps: at,
                end: Some(spot),
            };
        };
        spot = next;
    }
    Way {
        steps: place.path.len(),
        end: Some(spot),
    }
}
