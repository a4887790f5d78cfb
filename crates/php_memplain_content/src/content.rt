// The copy of what stands at a spot.
ghost use Rattle.std.specs.Prelude.{◌≡◌, ◌≤◌, [], IfOk, IfSome, IfNone};
ghost use Rattle.php_memdef.specs.Contents.{content_of};
ghost use Rattle.php_memdef.specs.Places as places;
ghost use Rattle.php_memdef.specs.Sound.{IsLive};
ghost use Rattle.php_memplain_cells.specs.Seen.{content_seen};
ghost use Rattle.php_memplain_cells.specs.Memory.{memory_seen};
ghost use Rattle.php_memplain_copy.specs.More.{IsNoArray, IsSoundArray};
ghost use Rattle.php_memplain_copy.specs.Walking.{IsWhole};
ghost use Rattle.php_memplain_places.specs.Spots.{spot_seen};
ghost use Rattle.php_memplain_content.specs.Copies.{IsSpotThere, CopyComesTo, LoggedComesTo};

use crate::standing::standing_array;
use php_array::Entries;
use php_base::NoMemory;
use php_memplain_cells::{Cells, Content};
use php_memplain_copy::{Log, copy_unless_array, hold_object, undo};
use php_memplain_places::{Spot, content_at};
use php_memplain_walk::copy_array;

// Copies the array of a store, and enters in the log what it takes.
fn copy_stored(cells: &mut Cells, log: &mut Log, store: usize) -> Result<Content, NoMemory>
    requires whole { IsWhole cells.old }
    requires nothing { (log.old.stores.items ≡ []) × (log.old.handles.items ≡ []) }
    requires there { IsLive (memory_seen cells.old) store }
    requires array { IsSoundArray (content_of (memory_seen cells.old) store) }
    ensures copy { LoggedComesTo cells.old (content_of (memory_seen cells.old) store) result cells.new log.new }
    ensures made { cells.old.ledger.made ≤ cells.new.ledger.made }
{
    let levels = cells.stores.len();
    let none = Entries::new(cells.alloc);
    copy_array(
        cells.alloc,
        &mut cells.stores,
        &mut cells.objects,
        log,
        &none,
        Some(store),
        levels,
        &mut cells.ledger,
    )
}

// Copies the array of a temporary.
fn copy_standing(
    cells: &mut Cells,
    log: &mut Log,
    block: usize,
    depth: usize,
) -> Result<Content, NoMemory>
    requires whole { IsWhole cells.old }
    requires nothing { (log.old.stores.items ≡ []) × (log.old.handles.items ≡ []) }
    requires array { IsSoundArray (places.content_at (memory_seen cells.old) (places.standing block depth)) }
    ensures copy { LoggedComesTo cells.old (places.content_at (memory_seen cells.old) (places.standing block depth)) result cells.new log.new }
    ensures made { cells.old.ledger.made ≤ cells.new.ledger.made }
{
    let levels = cells.stores.len();
    let Some(entries) = standing_array(&cells.blocks, block, depth) else {
        unreachable!();
    };
    copy_array(
        cells.alloc,
        &mut cells.stores,
        &mut cells.objects,
        log,
        entries,
        None,
        levels,
        &mut cells.ledger,
    )
}

// Copies the array at a spot.
fn copy_elements(cells: &mut Cells, log: &mut Log, spot: Spot) -> Result<Content, NoMemory>
    requires whole { IsWhole cells.old }
    requires nothing { (log.old.stores.items ≡ []) × (log.old.handles.items ≡ []) }
    requires there { IsSpotThere (memory_seen cells.old) (spot_seen spot) }
    requires array { IsSoundArray (places.content_at (memory_seen cells.old) (spot_seen spot)) }
    ensures copy { LoggedComesTo cells.old (places.content_at (memory_seen cells.old) (spot_seen spot)) result cells.new log.new }
    ensures made { cells.old.ledger.made ≤ cells.new.ledger.made }
{
    match spot {
        Spot::Stored(store) => copy_stored(cells, log, store),
        Spot::Standing(block, depth) => copy_standing(cells, log, block, depth),
    }
}

// A copy of what stands at a spot, where that is no array.
fn plain_copy(cells: &Cells, spot: Spot) -> Result<Option<Content>, NoMemory>
    ensures copy { IfOk result (λ copy. IfSome copy (λ c. (content_seen c ≡ places.content_at (memory_seen cells.now) (spot_seen spot)) × IsNoArray (content_seen c))) }
    ensures none { IfOk result (λ copy. IfNone copy (IsSoundArray (places.content_at (memory_seen cells.now) (spot_seen spot)))) }
{
    match content_at(cells, spot) {
        Some(content) => copy_unless_array(content),
        None => Ok(Some(Content::Null)),
    }
}

// Hands a copy on that is no array, and counts the object that it holds.
fn hand_on(
    cells: &mut Cells,
    log: &mut Log,
    spot: Spot,
    content: Content,
) -> Result<Content, NoMemory>
    requires whole { IsWhole cells.old }
    requires nothing { (log.old.stores.items ≡ []) × (log.old.handles.items ≡ []) }
    requires is { content_seen content ≡ places.content_at (memory_seen cells.old) (spot_seen spot) }
    requires no_array { IsNoArray (content_seen content) }
    ensures copy { LoggedComesTo cells.old (places.content_at (memory_seen cells.old) (spot_seen spot)) result cells.new log.new }
    ensures made { cells.old.ledger.made ≤ cells.new.ledger.made }
{
    match hold_object(&mut cells.objects, &mut log.handles, &content) {
        Ok(()) => Ok(content),
        Err(_) => Err(NoMemory),
    }
}

// Copies a content, and enters in the log what it takes.
fn copy_logged(cells: &mut Cells, log: &mut Log, spot: Spot) -> Result<Content, NoMemory>
    requires whole { IsWhole cells.old }
    requires nothing { (log.old.stores.items ≡ []) × (log.old.handles.items ≡ []) }
    requires there { IsSpotThere (memory_seen cells.old) (spot_seen spot) }
    ensures copy { LoggedComesTo cells.old (places.content_at (memory_seen cells.old) (spot_seen spot)) result cells.new log.new }
    ensures made { cells.old.ledger.made ≤ cells.new.ledger.made }
{
    match plain_copy(cells, spot) {
        Ok(Some(content)) => hand_on(cells, log, spot, content),
        Ok(None) => copy_elements(cells, log, spot),
        Err(_) => Err(NoMemory),
    }
}

/// A copy of what stands at a spot, and null where nothing does. An array is copied with all elements. Where
/// memory is wanting all that the copy had taken is given back.
pub fn copy_content(cells: &mut Cells, spot: Spot) -> Result<Content, NoMemory>
    requires whole { IsWhole cells.old }
    requires there { IsSpotThere (memory_seen cells.old) (spot_seen spot) }
    ensures copy { CopyComesTo cells.old (places.content_at (memory_seen cells.old) (spot_seen spot)) result cells.new }
    ensures made { cells.old.ledger.made ≤ cells.new.ledger.made }
{
    let mut log = Log {
        stores: Vec::new(cells.alloc),
        handles: Vec::new(cells.alloc),
    };
    match copy_logged(cells, &mut log, spot) {
        Ok(content) => Ok(content),
        Err(fault) => {
            undo(&mut cells.stores, &mut cells.objects, log);
            Err(fault)
        }
    }
}
