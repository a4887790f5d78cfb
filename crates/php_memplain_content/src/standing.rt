// The arrays that temporaries hold.
ghost use Rattle.std.specs.Prelude.{◌≡◌, map, reverse, Some, option_map, option_copied};
ghost use Rattle.php_memdef.specs.Places as places;
ghost use Rattle.php_memdef.specs.Places.{nth_item, content_if};
ghost use Rattle.php_memplain_cells.specs.Seen.{item_seen};
ghost use Rattle.php_memplain_content.specs.Copies.{standing_item};

use php_array::Entries;
use php_memplain_cells::{Block, Content, Item};
use slab::Slab;

// The temporary of a depth, the top at 0.
fn nth_temp(temps: &Vec<Item>, depth: usize) -> Option<&Item>
    ensures { option_map item_seen (option_copied result) ≡ nth_item (map item_seen (reverse temps.now.items)) depth }
{
    let count = temps.len();
    if depth < count {
        Some(&temps[count - 1 - depth])
    } else {
        None
    }
}

fn elements_of_item(item: &Item) -> Option<&Entries<usize>>
    ensures { option_copied result ≡ places.elements_of (content_if (Some (item_seen item.now))) }
{
    match item {
        Item::Value(Content::Array(entries, _)) => Some(entries),
        Item::Value(
            Content::Null
            | Content::Bool(_)
            | Content::Int(_)
            | Content::Str(_)
            | Content::Object(_),
        )
        | Item::Link(_) => None,
    }
}

fn array_among(temps: &Vec<Item>, depth: usize) -> Option<&Entries<usize>>
    ensures { option_copied result ≡ places.elements_of (content_if (nth_item (map item_seen (reverse temps.now.items)) depth)) }
{
    match nth_temp(temps, depth) {
        Some(item) => elements_of_item(item),
        None => None,
    }
}

/// The array that a temporary holds, where it holds one.
pub(crate) fn standing_array(
    blocks: &Slab<Block>,
    block: usize,
    depth: usize,
) -> Option<&Entries<usize>>
    ensures { option_copied result ≡ places.elements_of (content_if (standing_item blocks.now block depth)) }
{
    match blocks.get(block) {
        Some(found) => array_among(&found.temps, depth),
        None => None,
    }
}
