// The calls that write.
ghost use Rattle.std.specs.Prelude.{◌≡◌, ◌≤◌, IfOk, OnErr};
ghost use Rattle.php_memdef.specs.Conditions.{CanAssign, CanLink, CanBind};
ghost use Rattle.php_memdef.specs.Writes as model;
ghost use Rattle.php_memplain_cells.specs.Memory.{memory_seen};
ghost use Rattle.php_memplain_copy.specs.Walking.{IsWhole};
ghost use Rattle.php_memplain_content.specs.Copies.{IsBack};
ghost use Rattle.php_memplain_writes.specs.Comes.{ComesTo};

use crate::binding::{bind_place, finish_bind, top_link};
use crate::growing::Grew;
use crate::moving::{link_found, link_new, move_in, reserve_falling};
use crate::reaching::{Arrival, reach};
use php_base::NoMemory;
use php_memdef::{Place, Wrote};
use php_memplain_cells::Cells;
use php_memplain_places::Spot;

/// Moves the top temporary of a block to a place, and lets what stood there fall. Want of memory leaves the
/// same under each number.
pub fn assign(cells: &mut Cells, block: usize, place: &Place) -> Result<Wrote, NoMemory>
    requires whole { IsWhole cells.old }
    requires can { CanAssign block place.now (memory_seen cells.old) }
    ensures ok { IfOk result (λ r. ComesTo cells.new (model.assign (memory_seen cells.old) block place.now) r) }
    ensures no_memory { OnErr result (IsBack cells.old cells.new) }
    ensures made { cells.old.ledger.made ≤ cells.new.ledger.made }
{
    let Ok(()) = reserve_falling(cells, block) else {
        return Err(NoMemory);
    };
    match reach(cells, place) {
        Ok(Arrival::Found(spot)) => {
            move_in(cells, block, spot);
            Ok(Wrote::Done)
        }
        Ok(Arrival::Made(store)) => {
            move_in(cells, block, Spot::Stored(store));
            Ok(Wrote::Done)
        }
        Ok(Arrival::Refused(why)) => Ok(why),
        Err(_) => Err(NoMemory),
    }
}

/// Pushes a link to the store of a place on top of a block. Want of memory leaves the same under each
/// number.
pub fn link(cells: &mut Cells, block: usize, place: &Place) -> Result<Wrote, NoMemory>
    requires whole { IsWhole cells.old }
    requires can { CanLink block place.now (memory_seen cells.old) }
    ensures ok { IfOk result (λ r. ComesTo cells.new (model.make_link (memory_seen cells.old) block place.now) r) }
    ensures no_memory { OnErr result (IsBack cells.old cells.new) }
    ensures made { cells.old.ledger.made ≤ cells.new.ledger.made }
{
    match reach(cells, place) {
        Ok(Arrival::Found(Spot::Stored(store))) => {
            if link_found(cells, block, store) {
                Ok(Wrote::Done)
            } else {
                Err(NoMemory)
            }
        }
        Ok(Arrival::Found(Spot::Standing(_, _))) => unreachable!(),
        Ok(Arrival::Made(store)) => {
            link_new(cells, block, store);
            Ok(Wrote::Done)
        }
        Ok(Arrival::Refused(why)) => Ok(why),
        Err(_) => Err(NoMemory),
    }
}

/// Moves the link on top of a block into a place, which points to the link's store from then on. The store
/// to which it pointed before falls. Want of memory leaves the same under each number.
pub fn bind(cells: &mut Cells, block: usize, place: &Place) -> Result<Wrote, NoMemory>
    requires whole { IsWhole cells.old }
    requires can { CanBind block place.now (memory_seen cells.old) }
    ensures ok { IfOk result (λ r. ComesTo cells.new (model.bind (memory_seen cells.old) block place.now) r) }
    ensures no_memory { OnErr result (IsBack cells.old cells.new) }
    ensures made { cells.old.ledger.made ≤ cells.new.ledger.made }
{
    let Ok(()) = reserve_falling(cells, block) else {
        return Err(NoMemory);
    };
    let store = top_link(cells, block);
    match bind_place(cells, place, store) {
        Grew::Done(fell) => {
            finish_bind(cells, block, fell);
            Ok(Wrote::Done)
        }
        Grew::Refused(why) => Ok(why),
        Grew::NoMemory => Err(NoMemory),
    }
}
