// What stands where a place is.
ghost use Rattle.std.specs.Prelude.{◌≡◌, map, reverse, Some, option_map, option_copied};
ghost use Rattle.php_memdef.specs.Contents.{content_of, scope_of};
ghost use Rattle.php_memdef.specs.Places as places;
ghost use Rattle.php_memdef.specs.Places.{nth_item, elements_of};
ghost use Rattle.php_memdef.specs.Views.{Shows, content_if_found};
ghost use Rattle.php_memplain_cells.specs.Seen.{content_seen, item_seen, store_seen};
ghost use Rattle.php_memplain_cells.specs.Memory.{memory_seen};
ghost use Rattle.php_memplain_places.specs.Spots.{spot_seen, content_if_any};

use php_array::Entries;
use php_memdef::{Obj, Peek};
use php_memplain_cells::{Cells, Content, Item, Store};

/// Where a place is: in a store, or in a temporary of a block that holds a content, counted from the top.
#[derive(Clone, Copy, Debug, Eq, PartialEq)]
pub enum Spot {
    Stored(usize),
    Standing(usize, usize),
}

// The temporary of a depth, the top at 0.
pub(crate) fn nth_temp(temps: &[Item], depth: usize) -> Option<&Item>
    ensures { option_map item_seen (option_copied result) ≡ nth_item (map item_seen (reverse temps.now)) depth }
{
    let count = temps.len();
    if depth < count {
        let place = count - 1 - depth;
        Some(&temps[place])
    } else {
        None
    }
}

/// The temporary of a depth in a block.
pub fn temp_at(cells: &Cells, block: usize, depth: usize) -> Option<&Item>
    ensures { option_map item_seen (option_copied result) ≡ nth_item (scope_of (memory_seen cells.now) block).temps depth }
{
    match cells.blocks.get(block) {
        Some(block) => nth_temp(block.temps.as_slice(), depth),
        None => None,
    }
}

fn content_in(store: &Store) -> &Content
    ensures { content_seen result.now ≡ store_seen store.now }
{
    &store.content
}

// What a store holds, where it is there.
fn content_of(cells: &Cells, store: usize) -> Option<&Content>
    ensures { content_if_any (option_copied result) ≡ content_of (memory_seen cells.now) store }
{
    match cells.stores.get(store) {
        Some(cell) => Some(content_in(cell)),
        None => None,
    }
}

fn value_of(item: &Item) -> Option<&Content>
    ensures { content_if_any (option_copied result) ≡ places.content_if (Some (item_seen item.now)) }
{
    match item {
        Item::Value(content) => Some(content),
        Item::Link(_) => None,
    }
}

// What a temporary holds, where it isn't a link.
fn content_standing(cells: &Cells, block: usize, depth: usize) -> Option<&Content>
    ensures { content_if_any (option_copied result) ≡ places.content_at (memory_seen cells.now) (places.standing block depth) }
{
    match temp_at(cells, block, depth) {
        Some(item) => value_of(item),
        None => None,
    }
}

/// What stands at a spot, where something does. Where nothing does, the spot reads as null.
pub fn content_at(cells: &Cells, spot: Spot) -> Option<&Content>
    ensures { content_if_any (option_copied result) ≡ places.content_at (memory_seen cells.now) (spot_seen spot) }
{
    match spot {
        Spot::Stored(store) => content_of(cells, store),
        Spot::Standing(block, depth) => content_standing(cells, block, depth),
    }
}

/// How a content looks.
pub fn look_at(content: &Content) -> Peek<'_>
    ensures { Shows result (Some (content_seen content.now)) }
{
    match content {
        Content::Null => Peek::Null,
        Content::Bool(truth) => Peek::Bool(*truth),
        Content::Int(number) => Peek::Int(*number),
        Content::Str(text) => Peek::Str(text),
        Content::Array(entries, _) => Peek::Arr(entries.len()),
        Content::Object(number) => Peek::Obj(Obj(*number)),
    }
}

fn look_there(cells: &Cells, spot: Spot) -> Peek<'_>
    ensures { Shows result (Some (places.content_at (memory_seen cells.now) (spot_seen spot))) }
{
    match content_at(cells, spot) {
        Some(content) => look_at(content),
        None => Peek::Null,
    }
}

/// How what stands at a spot looks.
pub(crate) fn look_at_spot(cells: &Cells, spot: Option<Spot>) -> Peek<'_>
    ensures { Shows result (content_if_found (memory_seen cells.now) (option_map spot_seen spot)) }
{
    match spot {
        Some(spot) => look_there(cells, spot),
        None => Peek::Absent,
    }
}

// The elements of an array.
fn entries_of(content: &Content) -> Option<&Entries<usize>>
    ensures { option_copied result ≡ elements_of (content_seen content.now) }
{
    match content {
        Content::Array(entries, _) => Some(entries),
        Content::Null | Content::Bool(_) | Content::Int(_) | Content::Str(_) | Content::Object(_) =>
            None,
    }
}

/// The elements of the array that stands at a spot.
pub fn entries_in(cells: &Cells, spot: Spot) -> Option<&Entries<usize>>
    ensures { option_copied result ≡ elements_of (places.content_at (memory_seen cells.now) (spot_seen spot)) }
{
    match content_at(cells, spot) {
        Some(content) => entries_of(content),
        None => None,
    }
}
