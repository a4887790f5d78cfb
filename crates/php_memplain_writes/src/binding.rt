// A place that is to point to another store.
ghost use Rattle.std.specs.Prelude.{◌≡◌, ◌<◌, ◌≤◌, ℕ, [], length, Some, None, IfOk};
ghost use Rattle.slab.specs.Slab.{ContainsKey};
ghost use Rattle.php_memdef.specs.Contents.{link, scope_of};
ghost use Rattle.php_memdef.specs.Places.{base_spot, nth_item};
ghost use Rattle.php_memdef.specs.Sound.{IsLive};
ghost use Rattle.php_memdef.specs.Conditions.{IsBase, IsPointed, HasLinkOnTop};
ghost use Rattle.php_memdef.specs.Temporaries.{popped};
ghost use Rattle.php_memdef.specs.Writes.{let_fall_if};
ghost use Rattle.php_memplain_cells.specs.Seen.{item_seen};
ghost use Rattle.php_memplain_cells.specs.Memory.{memory_seen};
ghost use Rattle.php_memplain_copy.specs.Walking.{IsWhole};
ghost use Rattle.php_memplain_places.specs.Spots.{spot_seen};
ghost use Rattle.php_memplain_writes.specs.Ways.{WayIs, IsFront};
ghost use Rattle.php_memplain_writes.specs.Moving.{FallsIn};
ghost use Rattle.php_memplain_writes.specs.Reaching.{StopsAt};
ghost use Rattle.php_memplain_writes.specs.Binding.{BindingIs, PointsIs};

use crate::growing::{Grew, grow_at};
use crate::hanging::add_base;
use crate::making::chain_to;
use crate::moving::{fall, pop_temp};
use crate::pointing::point_base;
use crate::way::{Way, drop_last, go_along};
use php_base::NoMemory;
use php_memdef::Place;
use php_memplain_cells::{Cells, Item};
use php_memplain_copy::{Log, undo};
use php_memplain_places::{Spot, temp_at};

// The same place without its last step.
fn front_of(place: &Place) -> Result<Place, NoMemory>
    requires { 0 < length place.now.path }
    ensures { IfOk result (λ q. IsFront place.now q) }
{
    let mut front = place.copy()?;
    drop_last(&mut front);
    Ok(front)
}

// Makes a base that is missing, from which the steps lead to a store.
fn bind_new_base(cells: &mut Cells, log: &mut Log, place: &Place, store: usize) -> Grew
    requires whole { IsWhole cells.old }
    requires nothing { (log.old.stores.items ≡ []) × (log.old.handles.items ≡ []) }
    requires base { IsBase (memory_seen cells.old) place.now.base }
    requires missing { base_spot (memory_seen cells.old) place.now.base ≡ None }
    requires some { 0 < length place.now.path }
    requires live { IsLive (memory_seen cells.old) store }
    ensures binding { BindingIs cells.old place.now store result cells.new log.new }
    ensures made { cells.old.ledger.made ≤ cells.new.ledger.made }
{
    match chain_to(
        cells.alloc,
        &mut cells.stores,
        &mut log.stores,
        &place.path,
        0,
        store,
        &mut cells.ledger,
    ) {
        Ok(top) => match add_base(cells, &place.base, top) {
            Ok(()) => Grew::Done(None),
            Err(_) => Grew::NoMemory,
        },
        Err(_) => Grew::NoMemory,
    }
}

// Lets the element to which a step from a spot leads point to a store, or to an array from which the steps
// behind it lead there.
fn bind_element_at(
    cells: &mut Cells,
    log: &mut Log,
    place: &Place,
    front: &Place,
    spot: Spot,
    steps: usize,
    store: usize,
) -> Grew
    requires whole { IsWhole cells.old }
    requires nothing { (log.old.stores.items ≡ []) × (log.old.handles.items ≡ []) }
    requires front { IsFront place.now front.now }
    requires within { steps ≤ length front.now.path }
    requires stops { StopsAt (memory_seen cells.old) front.now (spot_seen spot) steps }
    requires live { IsLive (memory_seen cells.old) store }
    ensures binding { BindingIs cells.old place.now store result cells.new log.new }
    ensures made { cells.old.ledger.made ≤ cells.new.ledger.made }
{
    let _steps = front.path.len();
    let _more = place.path.len();
    match chain_to(
        cells.alloc,
        &mut cells.stores,
        &mut log.stores,
        &place.path,
        steps + 1,
        store,
        &mut cells.ledger,
    ) {
        Ok(top) => grow_at(cells, spot, place.path.step(steps), top),
        Err(_) => Grew::NoMemory,
    }
}

// Binds behind the part of the way that is there.
fn bind_way(
    cells: &mut Cells,
    log: &mut Log,
    place: &Place,
    front: &Place,
    way: Way,
    store: usize,
) -> Grew
    requires whole { IsWhole cells.old }
    requires nothing { (log.old.stores.items ≡ []) × (log.old.handles.items ≡ []) }
    requires base { IsBase (memory_seen cells.old) place.now.base }
    requires front { IsFront place.now front.now }
    requires way { WayIs way (memory_seen cells.old) front.now }
    requires live { IsLive (memory_seen cells.old) store }
    ensures binding { BindingIs cells.old place.now store result cells.new log.new }
    ensures made { cells.old.ledger.made ≤ cells.new.ledger.made }
{
    match way.end {
        None => bind_new_base(cells, log, place, store),
        Some(spot) => bind_element_at(cells, log, place, front, spot, way.steps, store),
    }
}

// Lets the element to which a path leads point to a store.
fn bind_element(cells: &mut Cells, place: &Place, store: usize) -> Grew
    requires whole { IsWhole cells.old }
    requires base { IsBase (memory_seen cells.old) place.now.base }
    requires some { 0 < length place.now.path }
    requires live { IsLive (memory_seen cells.old) store }
    ensures points { PointsIs cells.old place.now store result cells.new }
    ensures made { cells.old.ledger.made ≤ cells.new.ledger.made }
{
    let Ok(front) = front_of(place) else {
        return Grew::NoMemory;
    };
    let Ok(way) = go_along(cells, &front) else {
        return Grew::NoMemory;
    };
    let mut log = Log {
        stores: Vec::new(cells.alloc),
        handles: Vec::new(cells.alloc),
    };
    match bind_way(cells, &mut log, place, &front, way, store) {
        Grew::Done(fell) => Grew::Done(fell),
        Grew::Refused(why) => {
            undo(&mut cells.stores, &mut cells.objects, log);
            Grew::Refused(why)
        }
        Grew::NoMemory => {
            undo(&mut cells.stores, &mut cells.objects, log);
            Grew::NoMemory
        }
    }
}

// Lets a base point to a store.
fn bind_base(cells: &mut Cells, place: &Place, store: usize) -> Grew
    requires whole { IsWhole cells.old }
    requires base { IsBase (memory_seen cells.old) place.now.base }
    requires pointed { IsPointed place.now.base place.now.path }
    requires none { place.now.path ≡ [] }
    ensures points { PointsIs cells.old place.now store result cells.new }
    ensures made { cells.old.ledger.made ≤ cells.new.ledger.made }
{
    match point_base(cells, &place.base, store) {
        Ok(fell) => Grew::Done(fell),
        Err(_) => Grew::NoMemory,
    }
}

/// Lets a place point to a store. What is missing on its way is made. Where that can't be done, and where
/// memory is wanting, all that was made is given back. The store to which the place pointed before is
/// answered, and is counted still; the new one isn't counted once more yet.
pub(crate) fn bind_place(cells: &mut Cells, place: &Place, store: usize) -> Grew
    requires whole { IsWhole cells.old }
    requires base { IsBase (memory_seen cells.old) place.now.base }
    requires pointed { IsPointed place.now.base place.now.path }
    requires live { IsLive (memory_seen cells.old) store }
    ensures points { PointsIs cells.old place.now store result cells.new }
    ensures made { cells.old.ledger.made ≤ cells.new.ledger.made }
{
    if place.path.len() > 0 {
        bind_element(cells, place, store)
    } else {
        bind_base(cells, place, store)
    }
}

fn store_of_link(item: &Item) -> usize
    requires { (s : ℕ) × (item_seen item.now ≡ link s) }
    ensures { item_seen item.now ≡ link result }
{
    match item {
        Item::Link(store) => *store,
        Item::Value(_) => unreachable!(),
    }
}

/// The store of the link on top of a block.
pub(crate) fn top_link(cells: &Cells, block: usize) -> usize
    requires { HasLinkOnTop (memory_seen cells.now) block }
    ensures { nth_item (scope_of (memory_seen cells.now) block).temps 0 ≡ Some (link result) }
{
    match temp_at(cells, block, 0) {
        Some(item) => store_of_link(item),
        None => unreachable!(),
    }
}

// Takes the top temporary of a block, which holds nothing from then on.
fn pop_link(cells: &mut Cells, block: usize)
    requires block { ContainsKey cells.old.blocks block }
    requires room { FallsIn cells.old.blocks block }
    ensures seen { memory_seen cells.new ≡ popped (memory_seen cells.old) block }
    ensures block { ContainsKey cells.new.blocks block }
    ensures room { FallsIn cells.new.blocks block }
    ensures stores { cells.new.stores ≡ cells.old.stores }
    ensures objects { cells.new.objects ≡ cells.old.objects }
    ensures ledger { cells.new.ledger ≡ cells.old.ledger }
{
    let _link = pop_temp(&mut cells.blocks[block]);
}

/// Takes the link on top of a block, which has come elsewhere, and lets the store that gave way to it fall.
pub(crate) fn finish_bind(cells: &mut Cells, block: usize, fell: Option<usize>)
    requires block { ContainsKey cells.old.blocks block }
    requires room { FallsIn cells.old.blocks block }
    ensures seen { memory_seen cells.new ≡ let_fall_if (popped (memory_seen cells.old) block) block fell }
    ensures stores { cells.new.stores ≡ cells.old.stores }
    ensures objects { cells.new.objects ≡ cells.old.objects }
    ensures ledger { cells.new.ledger ≡ cells.old.ledger }
{
    pop_link(cells, block);
    match fell {
        Some(store) => fall(cells, block, Item::Link(store)),
        None => {}
    }
}
