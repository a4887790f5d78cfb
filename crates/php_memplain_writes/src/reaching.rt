// Where a write leads: what is missing on its way is made.
ghost use Rattle.std.specs.Prelude.{◌≡◌, ◌<◌, ◌≤◌, [], length, Some, None};
ghost use Rattle.php_memdef.specs.Conditions.{IsBase};
ghost use Rattle.php_memdef.specs.Places.{base_spot};
ghost use Rattle.php_memplain_cells.specs.Memory.{memory_seen};
ghost use Rattle.php_memplain_copy.specs.Walking.{IsWhole};
ghost use Rattle.php_memplain_places.specs.Spots.{spot_seen};
ghost use Rattle.php_memplain_writes.specs.Ways.{WayIs};
ghost use Rattle.php_memplain_writes.specs.Reaching.{StopsAt, MakingIs, ReachIs};

use crate::growing::{Grew, grow_at};
use crate::hanging::add_base;
use crate::making::make_chain;
use crate::way::{Way, go_along};
use php_base::NoMemory;
use php_memdef::{Place, Wrote};
use php_memplain_cells::Cells;
use php_memplain_copy::{Log, undo};
use php_memplain_places::Spot;

/// Where a write leads, or why it can't be done.
#[derive(Clone, Copy)]
pub enum Arrival {
    /// The place was there.
    Found(Spot),
    /// The place was missing, and this new store was made for it.
    Made(usize),
    Refused(Wrote),
}

// Makes a base that is missing, and what the steps from there lead to.
fn make_base(cells: &mut Cells, log: &mut Log, place: &Place) -> Result<Arrival, NoMemory>
    requires whole { IsWhole cells.old }
    requires nothing { (log.old.stores.items ≡ []) × (log.old.handles.items ≡ []) }
    requires base { IsBase (memory_seen cells.old) place.now.base }
    requires missing { base_spot (memory_seen cells.old) place.now.base ≡ None }
    ensures making { MakingIs cells.old place.now result cells.new log.new }
    ensures made { cells.old.ledger.made ≤ cells.new.ledger.made }
{
    match make_chain(
        cells.alloc,
        &mut cells.stores,
        &mut log.stores,
        &place.path,
        0,
        &mut cells.ledger,
    ) {
        Ok(ends) => match add_base(cells, &place.base, ends.top) {
            Ok(()) => Ok(Arrival::Made(ends.leaf)),
            Err(_) => Err(NoMemory),
        },
        Err(_) => Err(NoMemory),
    }
}

// Makes the element to which a step from a spot is to lead, and what the steps behind it lead to.
fn make_element(
    cells: &mut Cells,
    log: &mut Log,
    place: &Place,
    spot: Spot,
    steps: usize,
) -> Result<Arrival, NoMemory>
    requires whole { IsWhole cells.old }
    requires nothing { (log.old.stores.items ≡ []) × (log.old.handles.items ≡ []) }
    requires within { steps < length place.now.path }
    requires stops { StopsAt (memory_seen cells.old) place.now (spot_seen spot) steps }
    ensures making { MakingIs cells.old place.now result cells.new log.new }
    ensures made { cells.old.ledger.made ≤ cells.new.ledger.made }
{
    let _count = place.path.len();
    match make_chain(
        cells.alloc,
        &mut cells.stores,
        &mut log.stores,
        &place.path,
        steps + 1,
        &mut cells.ledger,
    ) {
        Ok(ends) => match grow_at(cells, spot, place.path.step(steps), ends.top) {
            Grew::Done(_) => Ok(Arrival::Made(ends.leaf)),
            Grew::Refused(why) => Ok(Arrival::Refused(why)),
            Grew::NoMemory => Err(NoMemory),
        },
        Err(_) => Err(NoMemory),
    }
}

// Makes what is missing behind the part of the way that is there.
fn make_way(cells: &mut Cells, log: &mut Log, place: &Place, way: Way) -> Result<Arrival, NoMemory>
    requires whole { IsWhole cells.old }
    requires nothing { (log.old.stores.items ≡ []) × (log.old.handles.items ≡ []) }
    requires base { IsBase (memory_seen cells.old) place.now.base }
    requires way { WayIs way (memory_seen cells.old) place.now }
    ensures making { MakingIs cells.old place.now result cells.new log.new }
    ensures made { cells.old.ledger.made ≤ cells.new.ledger.made }
{
    match way.end {
        None => make_base(cells, log, place),
        Some(spot) => {
            if way.steps < place.path.len() {
                make_element(cells, log, place, spot, way.steps)
            } else {
                Ok(Arrival::Found(spot))
            }
        }
    }
}

/// Where a write to a place leads. What is missing on its way is made. Where the write can't be done,
/// and where memory is wanting, all that was made is given back.
pub fn reach(cells: &mut Cells, place: &Place) -> Result<Arrival, NoMemory>
    requires whole { IsWhole cells.old }
    requires base { IsBase (memory_seen cells.old) place.now.base }
    ensures reach { ReachIs cells.old place.now result cells.new }
    ensures made { cells.old.ledger.made ≤ cells.new.ledger.made }
{
    let Ok(way) = go_along(cells, place) else {
        return Err(NoMemory);
    };
    let mut log = Log {
        stores: Vec::new(cells.alloc),
        handles: Vec::new(cells.alloc),
    };
    match make_way(cells, &mut log, place, way) {
        Ok(Arrival::Found(spot)) => Ok(Arrival::Found(spot)),
        Ok(Arrival::Made(store)) => Ok(Arrival::Made(store)),
        Ok(Arrival::Refused(why)) => {
            undo(&mut cells.stores, &mut cells.objects, log);
            Ok(Arrival::Refused(why))
        }
        Err(_) => {
            undo(&mut cells.stores, &mut cells.objects, log);
            Err(NoMemory)
        }
    }
}
