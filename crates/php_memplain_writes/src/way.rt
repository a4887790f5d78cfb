// How far a path leads.
ghost use Rattle.std.specs.Prelude.{◌≡◌, ◌<◌, ◌≤◌, ◌+◌, length, IfOk, option_map};
ghost use Rattle.php_memdef.specs.Places.{base_spot};
ghost use Rattle.php_memdef.specs.Views.{steps_met, end_along};
ghost use Rattle.php_memplain_cells.specs.Memory.{memory_seen};
ghost use Rattle.php_memplain_places.specs.Spots.{spot_seen};
ghost use Rattle.php_memplain_writes.specs.Ways.{WayIs, IsBegun, IsFront};

use php_base::NoMemory;
use php_memdef::Place;
use php_memplain_cells::Cells;
use php_memplain_places::{Spot, find, meets};

/// How many steps of a path lead somewhere, and where the last of them leads.
#[derive(Clone, Copy)]
pub struct Way {
    pub steps: usize,
    /// The place's base, where no step leads anywhere, and `None` where the base is missing.
    pub end: Option<Spot>,
}

/// Takes the last step of a place off.
pub(crate) fn drop_last(place: &mut Place)
    requires { 0 < length place.old.path }
    ensures front { IsFront place.old place.new }
    ensures less { length place.old.path ≡ length place.new.path + 1 }
{
    match place.path.pop() {
        Some(_) => {}
        None => unreachable!(),
    }
}

// The place to which the first steps of a place lead.
fn begun(place: &Place, steps: usize) -> Result<Place, NoMemory>
    requires { steps ≤ length place.now.path }
    ensures { IfOk result (λ p. IsBegun place.now steps p) }
{
    let mut begun = place.copy()?;
    while begun.path.len() > steps {
        drop_last(&mut begun);
    }
    Ok(begun)
}

// Where the first steps of a place lead, of which each leads somewhere.
fn end_of(cells: &Cells, place: &Place, steps: usize) -> Result<Option<Spot>, NoMemory>
    requires { steps ≡ steps_met (memory_seen cells.now) place.now }
    ensures { IfOk result (λ end. option_map spot_seen end ≡ end_along (memory_seen cells.now) (base_spot (memory_seen cells.now) place.now.base) place.now.path) }
{
    let begun = begun(place, steps)?;
    Ok(find(cells, &begun))
}

/// Goes along the path of a place as far as it leads.
pub(crate) fn go_along(cells: &Cells, place: &Place) -> Result<Way, NoMemory>
    ensures { IfOk result (λ w. WayIs w (memory_seen cells.now) place.now) }
{
    if let Some(spot) = find(cells, place) {
        return Ok(Way {
            steps: place.path.len(),
            end: Some(spot),
        });
    }
    let steps = meets(cells, place).steps;
    let end = end_of(cells, place, steps)?;
    Ok(Way { steps, end })
}
