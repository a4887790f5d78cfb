// What stands at a spot gives way to another content.
ghost use Rattle.std.specs.Prelude.{◌≡◌, ℕ, Some, map, reverse, vec_capacity};
ghost use Rattle.slab.specs.Slab.{ContainsKey};
ghost use Rattle.php_memdef.specs.Numbered.{numbered, with_numbered};
ghost use Rattle.php_memdef.specs.Contents.{value};
ghost use Rattle.php_memdef.specs.Places as places;
ghost use Rattle.php_memdef.specs.Places.{nth_item, with_nth_item, with_content};
ghost use Rattle.php_memplain_cells.specs.Seen.{content_seen, item_seen, stores_seen, scope_seen};
ghost use Rattle.php_memplain_cells.specs.Counts.{count_of_store};
ghost use Rattle.php_memplain_cells.specs.Memory.{memory_seen};
ghost use Rattle.php_memplain_places.specs.Spots.{spot_seen};
ghost use Rattle.php_memplain_writes.specs.Standing.{HasValue, HasContent, AreWaitingKept};

use php_memplain_cells::{Block, Cells, Content, Item, Store};
use php_memplain_places::Spot;
use slab::Slab;
use std::mem;

// Puts a content in the place of the one in a store, which is handed out.
fn swap_stored(stores: &mut Slab<Store>, store: usize, content: Content) -> Content
    requires { ContainsKey stores.old store }
    ensures before { numbered (stores_seen stores.old) store ≡ Some (content_seen result) }
    ensures seen { stores_seen stores.new ≡ with_numbered (stores_seen stores.old) store (Some (content_seen content)) }
    ensures holders { (k : ℕ) → count_of_store stores.new k ≡ count_of_store stores.old k }
{
    mem::replace(&mut stores[store].content, content)
}

/// The content that an item is.
pub(crate) fn value_of(item: Item) -> Content
    requires { HasValue (Some (item_seen item)) }
    ensures { value (content_seen result) ≡ item_seen item }
{
    match item {
        Item::Value(content) => content,
        Item::Link(_) => unreachable!(),
    }
}

// Puts an item in the place of a temporary of a depth, the top at 0, which is handed out.
fn swap_temp(temps: &mut Vec<Item>, depth: usize, item: Item) -> Item
    requires { HasValue (nth_item (map item_seen (reverse temps.old.items)) depth) }
    ensures before { nth_item (map item_seen (reverse temps.old.items)) depth ≡ Some (item_seen result) }
    ensures seen { map item_seen (reverse temps.new.items) ≡ with_nth_item (map item_seen (reverse temps.old.items)) depth (item_seen item) }
    ensures capacity { vec_capacity temps.new ≡ vec_capacity temps.old }
{
    let place = temps.len() - 1 - depth;
    mem::replace(&mut temps[place], item)
}

// Puts a content in the place of a temporary that is one, which is handed out.
fn swap_standing(block: &mut Block, depth: usize, content: Content) -> Content
    requires { HasValue (nth_item (scope_seen block.old).temps depth) }
    ensures before { nth_item (scope_seen block.old).temps depth ≡ Some (value (content_seen result)) }
    ensures seen { scope_seen block.new ≡ record (scope_seen block.old) { temps = with_nth_item (scope_seen block.old).temps depth (value (content_seen content)) } }
    ensures waiting { block.new.waiting ≡ block.old.waiting }
{
    let before = swap_temp(&mut block.temps, depth, Item::Value(content));
    value_of(before)
}

fn swap_in_store(cells: &mut Cells, store: usize, content: Content) -> Content
    requires { HasContent (memory_seen cells.old) (places.stored store) }
    ensures before { content_seen result ≡ places.content_at (memory_seen cells.old) (places.stored store) }
    ensures seen { memory_seen cells.new ≡ with_content (memory_seen cells.old) (places.stored store) (content_seen content) }
    ensures holders { (k : ℕ) → count_of_store cells.new.stores k ≡ count_of_store cells.old.stores k }
    ensures objects { cells.new.objects ≡ cells.old.objects }
    ensures blocks { cells.new.blocks ≡ cells.old.blocks }
    ensures ledger { cells.new.ledger ≡ cells.old.ledger }
{
    swap_stored(&mut cells.stores, store, content)
}

fn swap_in_block(cells: &mut Cells, block: usize, depth: usize, content: Content) -> Content
    requires { HasContent (memory_seen cells.old) (places.standing block depth) }
    ensures before { content_seen result ≡ places.content_at (memory_seen cells.old) (places.standing block depth) }
    ensures seen { memory_seen cells.new ≡ with_content (memory_seen cells.old) (places.standing block depth) (content_seen content) }
    ensures stores { cells.new.stores ≡ cells.old.stores }
    ensures objects { cells.new.objects ≡ cells.old.objects }
    ensures waiting { AreWaitingKept cells.old.blocks cells.new.blocks }
    ensures ledger { cells.new.ledger ≡ cells.old.ledger }
{
    swap_standing(&mut cells.blocks[block], depth, content)
}

/// Puts a content at a spot in the place of what stands there, which is handed out.
pub(crate) fn swap_content(cells: &mut Cells, spot: Spot, content: Content) -> Content
    requires { HasContent (memory_seen cells.old) (spot_seen spot) }
    ensures before { content_seen result ≡ places.content_at (memory_seen cells.old) (spot_seen spot) }
    ensures seen { memory_seen cells.new ≡ with_content (memory_seen cells.old) (spot_seen spot) (content_seen content) }
    ensures holders { (k : ℕ) → count_of_store cells.new.stores k ≡ count_of_store cells.old.stores k }
    ensures objects { cells.new.objects ≡ cells.old.objects }
    ensures waiting { AreWaitingKept cells.old.blocks cells.new.blocks }
    ensures ledger { cells.new.ledger ≡ cells.old.ledger }
{
    match spot {
        Spot::Stored(store) => swap_in_store(cells, store, content),
        Spot::Standing(block, depth) => swap_in_block(cells, block, depth, content),
    }
}
