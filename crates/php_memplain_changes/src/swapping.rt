// A content is put where a place is.
ghost use Rattle.std.specs.Prelude.{◌≡◌, ◌<◌, ℕ, map, reverse, length, Some};
ghost use Rattle.slab.specs.Slab.{ContainsKey};
ghost use Rattle.php_memdef.specs.Numbered.{numbered, with_numbered};
ghost use Rattle.php_memdef.specs.Contents.{value, scope_of};
ghost use Rattle.php_memdef.specs.Places.{nth_item, with_nth_item, standing, content_at, with_content};
ghost use Rattle.php_memplain_cells.specs.Seen.{content_seen, item_seen, store_seen, stores_seen, scope_seen};
ghost use Rattle.php_memplain_cells.specs.Counts.{count_of_store};
ghost use Rattle.php_memplain_cells.specs.Memory.{memory_seen};
ghost use Rattle.php_memplain_places.specs.Spots.{spot_seen};
ghost use Rattle.php_memplain_changes.specs.Standing.{HasValue, HasContent, AreWaitingKept};

use php_memplain_cells::{Block, Cells, Content, Item, Store};
use php_memplain_places::Spot;
use slab::Slab;
use std::mem;

fn swap_in(store: &mut Store, content: Content) -> Content
    ensures seen { store_seen store.new ≡ content_seen content }
    ensures before { content_seen result ≡ store_seen store.old }
    ensures holders { store.new.holders ≡ store.old.holders }
{
    mem::replace(&mut store.content, content)
}

// Puts a content into a store, and hands out what the store held.
fn swap_stored(stores: &mut Slab<Store>, store: usize, content: Content) -> Content
    requires { ContainsKey stores.old store }
    ensures seen { stores_seen stores.new ≡ with_numbered (stores_seen stores.old) store (Some (content_seen content)) }
    ensures before { numbered (stores_seen stores.old) store ≡ Some (content_seen result) }
    ensures holders { (k : ℕ) → count_of_store stores.new k ≡ count_of_store stores.old k }
{
    swap_in(&mut stores[store], content)
}

fn value_of(item: Item) -> Content
    requires { HasValue (Some (item_seen item)) }
    ensures { value (content_seen result) ≡ item_seen item }
{
    match item {
        Item::Value(content) => content,
        Item::Link(_) => unreachable!(),
    }
}

fn swap_value(item: &mut Item, content: Content) -> Content
    requires { HasValue (Some (item_seen item.old)) }
    ensures seen { item_seen item.new ≡ value (content_seen content) }
    ensures before { value (content_seen result) ≡ item_seen item.old }
{
    value_of(mem::replace(item, Item::Value(content)))
}

// Puts a content into the temporary of a depth, the top at 0, and hands out what it held.
fn swap_nth(temps: &mut [Item], depth: usize, content: Content) -> Content
    requires within { depth < length temps.old }
    requires there { HasValue (nth_item (map item_seen (reverse temps.old)) depth) }
    ensures seen { map item_seen (reverse temps.new) ≡ with_nth_item (map item_seen (reverse temps.old)) depth (value (content_seen content)) }
    ensures before { nth_item (map item_seen (reverse temps.old)) depth ≡ Some (value (content_seen result)) }
    ensures len { length temps.new ≡ length temps.old }
{
    let place = temps.len() - 1 - depth;
    swap_value(&mut temps[place], content)
}

fn swap_temp(block: &mut Block, depth: usize, content: Content) -> Content
    requires { HasValue (nth_item (scope_seen block.old).temps depth) }
    ensures seen { scope_seen block.new ≡ record (scope_seen block.old) { temps = with_nth_item (scope_seen block.old).temps depth (value (content_seen content)) } }
    ensures before { nth_item (scope_seen block.old).temps depth ≡ Some (value (content_seen result)) }
    ensures waiting { block.new.waiting ≡ block.old.waiting }
{
    swap_nth(block.temps.as_mut_slice(), depth, content)
}

fn swap_standing(cells: &mut Cells, block: usize, depth: usize, content: Content) -> Content
    requires { HasContent (memory_seen cells.old) (standing block depth) }
    ensures seen { memory_seen cells.new ≡ with_content (memory_seen cells.old) (standing block depth) (content_seen content) }
    ensures before { content_seen result ≡ content_at (memory_seen cells.old) (standing block depth) }
    ensures waiting { AreWaitingKept cells.old.blocks cells.new.blocks }
    ensures stores { cells.new.stores ≡ cells.old.stores }
    ensures objects { cells.new.objects ≡ cells.old.objects }
    ensures ledger { cells.new.ledger ≡ cells.old.ledger }
{
    swap_temp(&mut cells.blocks[block], depth, content)
}

/// Puts a content where a place is, and hands out what stood there.
pub fn swap_content(cells: &mut Cells, spot: Spot, content: Content) -> Content
    requires { HasContent (memory_seen cells.old) (spot_seen spot) }
    ensures seen { memory_seen cells.new ≡ with_content (memory_seen cells.old) (spot_seen spot) (content_seen content) }
    ensures before { content_seen result ≡ content_at (memory_seen cells.old) (spot_seen spot) }
    ensures holders { (k : ℕ) → count_of_store cells.new.stores k ≡ count_of_store cells.old.stores k }
    ensures objects { cells.new.objects ≡ cells.old.objects }
    ensures waiting { AreWaitingKept cells.old.blocks cells.new.blocks }
    ensures ledger { cells.new.ledger ≡ cells.old.ledger }
{
    match spot {
        Spot::Stored(store) => swap_stored(&mut cells.stores, store, content),
        Spot::Standing(block, depth) => swap_standing(cells, block, depth, content),
    }
}
