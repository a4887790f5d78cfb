// How many entries of arrays and properties stand in a memory.
ghost use Rattle.std.specs.Prelude.{◌≡◌, ◌≤◌, [], ◌∷◌, map, reverse, length, option_map};
ghost use Rattle.php_memdef.specs.Numbered.{numbered, weight_if, total};
ghost use Rattle.php_memdef.specs.Places.{nth_item};
ghost use Rattle.php_memdef.specs.Holders.{entries_of_content, entries_of_items, vslots_of_scope, vslots};
ghost use Rattle.php_memplain_cells.specs.Seen.{content_seen, item_seen, store_seen, stores_seen, scope_seen, box_seen};
ghost use Rattle.php_memplain_cells.specs.Memory.{memory_seen};
ghost use Rattle.php_memplain_places.specs.Counted.{blocks_seen, property_count, entries_if};

use crate::spot::nth_temp;
use php_memplain_cells::{Block, Cells, Content, Item, Object, Store};
use slab::Slab;

fn entries_of(content: &Content) -> u64
    ensures { result ≡ entries_of_content (content_seen content.now) }
{
    match content {
        Content::Array(entries, _) => entries.len() as u64,
        Content::Null | Content::Bool(_) | Content::Int(_) | Content::Str(_) | Content::Object(_) =>
            0,
    }
}

fn entries_of_store(store: &Store) -> u64
    ensures { result ≡ entries_of_content (store_seen store.now) }
{
    entries_of(&store.content)
}

fn entries_under(stores: &Slab<Store>, key: usize) -> u64
    ensures { result ≡ weight_if entries_of_content (numbered (stores_seen stores.now) key) }
{
    match stores.get(key) {
        Some(store) => entries_of_store(store),
        None => 0,
    }
}

fn stored_entries(stores: &Slab<Store>) -> u64
    ensures { result ≤ total entries_of_content (stores_seen stores.now) }
{
    let mut count: u64 = 0;
    for key in 0..stores.capacity() {
        count = count.saturating_add(entries_under(stores, key));
    }
    count
}

fn entries_of_item(item: &Item) -> u64
    ensures { result ≡ entries_of_items (item_seen item.now ∷ []) }
{
    match item {
        Item::Value(content) => entries_of(content),
        Item::Link(_) => 0,
    }
}

fn entries_at(temps: &[Item], depth: usize) -> u64
    ensures { result ≡ entries_if (nth_item (map item_seen (reverse temps.now)) depth) }
{
    match nth_temp(temps, depth) {
        Some(item) => entries_of_item(item),
        None => 0,
    }
}

fn standing_entries(temps: &[Item]) -> u64
    ensures { result ≤ entries_of_items (map item_seen (reverse temps.now)) }
{
    let mut count: u64 = 0;
    for depth in 0..temps.len() {
        count = count.saturating_add(entries_at(temps, depth));
    }
    count
}

fn entries_in_block(blocks: &Slab<Block>, key: usize) -> u64
    ensures { result ≤ weight_if vslots_of_scope (numbered (blocks_seen blocks.now) key) }
{
    match blocks.get(key) {
        Some(block) => standing_entries(block.temps.as_slice()),
        None => 0,
    }
}

fn entries_in_blocks(blocks: &Slab<Block>) -> u64
    ensures { result ≤ total vslots_of_scope (blocks_seen blocks.now) }
{
    let mut count: u64 = 0;
    for key in 0..blocks.capacity() {
        count = count.saturating_add(entries_in_block(blocks, key));
    }
    count
}

fn properties_of(slot: &Option<Box<Object>>) -> u64
    ensures { result ≡ weight_if property_count (option_map box_seen slot.now) }
{
    match slot {
        Some(object) => object.properties.len() as u64,
        None => 0,
    }
}

fn properties_in(objects: &[Option<Box<Object>>]) -> u64
    ensures { result ≤ total property_count (map (option_map box_seen) objects.now) }
{
    let mut count: u64 = 0;
    for slot in objects {
        count = count.saturating_add(properties_of(slot));
    }
    count
}

/// The number of entries of arrays that stand in stores and temporaries, and of properties. It stops at
/// the greatest value of its type.
pub fn slots(cells: &Cells) -> u64
    ensures { result ≤ vslots (memory_seen cells.now) }
{
    stored_entries(&cells.stores)
        .saturating_add(properties_in(cells.objects.as_slice()))
        .saturating_add(entries_in_blocks(&cells.blocks))
}
