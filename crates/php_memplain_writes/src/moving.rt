// The top temporary of a block moves to where a place is.
ghost use Rattle.std.specs.Prelude.{◌≡◌, ◌<◌, ◌++◌, [], ◌∷◌, Some, false, length, IsTrue, IfSome, IfNone, OnOk};
ghost use Rattle.slab.specs.Slab.{ContainsKey};
ghost use Rattle.php_memdef.specs.Contents.{value, link};
ghost use Rattle.php_memdef.specs.Sound.{IsLive};
ghost use Rattle.php_memdef.specs.Conditions.{HasRoom, HasValueOnTop};
ghost use Rattle.php_memdef.specs.Temporaries.{pushed, popped, top, let_fall, rest_of, top_of, fallen};
ghost use Rattle.php_memdef.specs.Writes.{moved_in};
ghost use Rattle.php_memplain_cells.specs.Seen.{content_seen, item_seen, stores_seen, scope_seen};
ghost use Rattle.php_memplain_cells.specs.Counts.{count_of_store};
ghost use Rattle.php_memplain_cells.specs.Memory.{memory_seen, IsCounted};
ghost use Rattle.php_memplain_copy.specs.More.{AreMore};
ghost use Rattle.php_memplain_places.specs.Spots.{spot_seen};
ghost use Rattle.php_memplain_writes.specs.Standing.{HasValue, HasContent, AreWaitingKept};
ghost use Rattle.php_memplain_writes.specs.Moving.{HasFallingPlace, IsSpotBelow, spot_below, FallsIn};

use crate::standing::{swap_content, value_of};
use php_base::NoMemory;
use php_memplain_cells::{Block, Cells, Content, Item, Store};
use php_memplain_copy::raise;
use php_memplain_places::Spot;
use slab::Slab;

// Makes room for one more item that falls.
fn reserve_place(block: &mut Block) -> Result<(), NoMemory>
    ensures seen { scope_seen block.new ≡ scope_seen block.old }
    ensures ok { OnOk result (HasFallingPlace block.new) }
{
    block.waiting.reserve(1)?;
    Ok(())
}

/// Makes room for one more item that falls in a block.
pub(crate) fn reserve_falling(cells: &mut Cells, block: usize) -> Result<(), NoMemory>
    requires block { ContainsKey cells.old.blocks block }
    ensures seen { memory_seen cells.new ≡ memory_seen cells.old }
    ensures ok { OnOk result (FallsIn cells.new.blocks block) }
    ensures stores { cells.new.stores ≡ cells.old.stores }
    ensures objects { cells.new.objects ≡ cells.old.objects }
    ensures ledger { cells.new.ledger ≡ cells.old.ledger }
{
    reserve_place(&mut cells.blocks[block])
}

// Takes the top temporary.
pub(crate) fn pop_temp(block: &mut Block) -> Option<Item>
    ensures seen { scope_seen block.new ≡ record (scope_seen block.old) { temps = rest_of (scope_seen block.old).temps } }
    ensures top { IfSome result (λ i. item_seen i ≡ top_of (scope_seen block.old).temps) }
    ensures none { IfNone result ((scope_seen block.old).temps ≡ []) }
    ensures waiting { block.new.waiting ≡ block.old.waiting }
{
    block.temps.pop()
}

// Takes the content on top of a block.
fn pop_value(cells: &mut Cells, block: usize) -> Content
    requires block { ContainsKey cells.old.blocks block }
    requires top { HasValueOnTop (memory_seen cells.old) block }
    ensures seen { memory_seen cells.new ≡ popped (memory_seen cells.old) block }
    ensures top { value (content_seen result) ≡ top (memory_seen cells.old) block }
    ensures waiting { AreWaitingKept cells.old.blocks cells.new.blocks }
    ensures block { ContainsKey cells.new.blocks block }
    ensures stores { cells.new.stores ≡ cells.old.stores }
    ensures objects { cells.new.objects ≡ cells.old.objects }
    ensures ledger { cells.new.ledger ≡ cells.old.ledger }
{
    match pop_temp(&mut cells.blocks[block]) {
        Some(item) => value_of(item),
        None => unreachable!(),
    }
}

// Lets an item fall behind all others, for which there is room.
fn fall_last(block: &mut Block, item: Item)
    requires { HasFallingPlace block.old }
    ensures { scope_seen block.new ≡ record (scope_seen block.old) { falling = (scope_seen block.old).falling ++ fallen (item_seen item) } }
{
    let item = match item {
        Item::Value(Content::Null | Content::Bool(_) | Content::Int(_) | Content::Str(_)) => return,
        item => item,
    };
    match block.waiting.push_back(item) {
        Ok(()) => {}
        Err(_) => unreachable!(),
    }
}

// Lets an item fall in a block.
pub(crate) fn fall(cells: &mut Cells, block: usize, item: Item)
    requires block { ContainsKey cells.old.blocks block }
    requires room { FallsIn cells.old.blocks block }
    ensures seen { memory_seen cells.new ≡ let_fall (memory_seen cells.old) block (item_seen item) }
    ensures stores { cells.new.stores ≡ cells.old.stores }
    ensures objects { cells.new.objects ≡ cells.old.objects }
    ensures ledger { cells.new.ledger ≡ cells.old.ledger }
{
    fall_last(&mut cells.blocks[block], item);
}

// Where a spot is once the top temporary of a block is gone.
fn below_top(spot: Spot, block: usize) -> Spot
    requires { IsSpotBelow block (spot_seen spot) }
    ensures { spot_seen result ≡ spot_below block (spot_seen spot) }
{
    match spot {
        Spot::Standing(of, depth) => {
            if of == block {
                Spot::Standing(of, depth - 1)
            } else {
                spot
            }
        }
        Spot::Stored(_) => spot,
    }
}

/// Moves the content on top of a block to a spot, and lets what stood there fall.
pub(crate) fn move_in(cells: &mut Cells, block: usize, spot: Spot)
    requires counted { IsCounted cells.old }
    requires block { ContainsKey cells.old.blocks block }
    requires top { HasValueOnTop (memory_seen cells.old) block }
    requires there { HasContent (memory_seen cells.old) (spot_seen spot) }
    requires below { IsSpotBelow block (spot_seen spot) }
    requires room { FallsIn cells.old.blocks block }
    ensures seen { memory_seen cells.new ≡ moved_in (top (memory_seen cells.old) block) (memory_seen cells.old) block (spot_seen spot) }
    ensures counted { IsCounted cells.new }
    ensures ledger { cells.new.ledger ≡ cells.old.ledger }
{
    let content = pop_value(cells, block);
    let before = swap_content(cells, below_top(spot, block), content);
    fall(cells, block, Item::Value(before));
}

// Gives a store with one holder a further one.
fn raise_alone(stores: &mut Slab<Store>, store: usize)
    requires { count_of_store stores.old store ≡ 1 }
    ensures seen { stores_seen stores.new ≡ stores_seen stores.old }
    ensures raised { AreMore stores.old stores.new (store ∷ []) }
{
    stores[store].holders += 1;
}

// Puts an item on top, for which there is room.
fn push_temp(block: &mut Block, item: Item)
    requires { length block.old.temps.items < block.old.room }
    ensures { scope_seen block.new ≡ record (scope_seen block.old) { temps = item_seen item ∷ (scope_seen block.old).temps } }
{
    match block.temps.push(item) {
        Ok(()) => {}
        Err(_) => unreachable!(),
    }
}

// Puts a link on top of a block.
fn push_link(cells: &mut Cells, block: usize, store: usize)
    requires block { ContainsKey cells.old.blocks block }
    requires room { HasRoom (memory_seen cells.old) block }
    ensures seen { memory_seen cells.new ≡ pushed (memory_seen cells.old) block (link store) }
    ensures stores { cells.new.stores ≡ cells.old.stores }
    ensures objects { cells.new.objects ≡ cells.old.objects }
    ensures ledger { cells.new.ledger ≡ cells.old.ledger }
{
    push_temp(&mut cells.blocks[block], Item::Link(store));
}

/// Puts a link to a store, which one thing holds, on top of a block.
pub(crate) fn link_new(cells: &mut Cells, block: usize, store: usize)
    requires counted { IsCounted cells.old }
    requires block { ContainsKey cells.old.blocks block }
    requires room { HasRoom (memory_seen cells.old) block }
    requires alone { count_of_store cells.old.stores store ≡ 1 }
    ensures seen { memory_seen cells.new ≡ pushed (memory_seen cells.old) block (link store) }
    ensures counted { IsCounted cells.new }
    ensures ledger { cells.new.ledger ≡ cells.old.ledger }
{
    raise_alone(&mut cells.stores, store);
    push_link(cells, block, store);
}

/// Puts a link to a store on top of a block. It answers false, and changes nothing, where the store can't
/// have a further holder.
pub(crate) fn link_found(cells: &mut Cells, block: usize, store: usize) -> bool
    requires counted { IsCounted cells.old }
    requires block { ContainsKey cells.old.blocks block }
    requires room { HasRoom (memory_seen cells.old) block }
    requires there { IsLive (memory_seen cells.old) store }
    ensures seen { IsTrue result → memory_seen cells.new ≡ pushed (memory_seen cells.old) block (link store) }
    ensures counted { IsTrue result → IsCounted cells.new }
    ensures kept { result ≡ false → (cells.new.stores ≡ cells.old.stores) × (memory_seen cells.new ≡ memory_seen cells.old) × (cells.new.objects ≡ cells.old.objects) }
    ensures ledger { cells.new.ledger ≡ cells.old.ledger }
{
    if raise(&mut cells.stores, store) {
        push_link(cells, block, store);
        true
    } else {
        false
    }
}
