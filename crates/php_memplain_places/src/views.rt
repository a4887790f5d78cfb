// What a memory shows without being changed.
ghost use Rattle.std.specs.Prelude.{◌≡◌, Some, option_map, option_copied};
ghost use Rattle.php_memdef.specs.Holders.{is_shared};
ghost use Rattle.php_memdef.specs.Views as views;
ghost use Rattle.php_memdef.specs.Views.{Shows, found, elements_if_found, entry_if_later, later_entry, steps_met, end_met};
ghost use Rattle.php_memplain_cells.specs.Seen.{item_seen};
ghost use Rattle.php_memplain_cells.specs.Memory.{memory_seen, IsCounted};

use crate::places::find;
use crate::spot::{Spot, entries_in, look_at_spot, temp_at};
use crate::way::go_along;
use php_array::Entries;
use php_memdef::{Met, Peek, Place};
use php_memplain_cells::{Cells, Item};
use php_value::Key;

/// How what a place holds looks.
pub fn peek<'a>(cells: &'a Cells, at: &Place) -> Peek<'a>
    ensures { Shows result (found (memory_seen cells.now) at.now) }
{
    let spot = find(cells, at);
    look_at_spot(cells, spot)
}

// The array at a place.
fn entries_at<'a>(cells: &'a Cells, at: &Place) -> Option<&'a Entries<usize>>
    ensures { option_copied result ≡ elements_if_found (found (memory_seen cells.now) at.now) }
{
    match find(cells, at) {
        Some(spot) => entries_in(cells, spot),
        None => None,
    }
}

fn first_behind(entries: &Entries<usize>, serial: u64) -> Option<(u64, &Key)>
    ensures { option_map (λ e. (e.0, e.1.now)) result ≡ entry_if_later (Some entries.now) serial }
{
    match entries.entry_after(serial) {
        Some((serial, key, _)) => Some((serial, key)),
        None => None,
    }
}

fn first_behind_near<'a>(
    entries: &'a Entries<usize>,
    serial: u64,
    near: &mut usize,
) -> Option<(u64, &'a Key)>
    ensures { option_map (λ e. (e.0, e.1.now)) result ≡ entry_if_later (Some entries.now) serial }
{
    match entries.entry_after_near(serial, near) {
        Some((serial, key, _)) => Some((serial, key)),
        None => None,
    }
}

/// Serial and key of the first entry with a greater serial in the array at the place.
pub fn entry_after<'a>(cells: &'a Cells, at: &Place, serial: u64) -> Option<(u64, &'a Key)>
    ensures { option_map (λ e. (e.0, e.1.now)) result ≡ later_entry (memory_seen cells.now) at.now serial }
{
    match entries_at(cells, at) {
        Some(entries) => first_behind(entries, serial),
        None => None,
    }
}

/// As `entry_after`, with a hint of where in the array the entry stands.
pub fn entry_after_near<'a>(
    cells: &'a Cells,
    at: &Place,
    serial: u64,
    near: &mut usize,
) -> Option<(u64, &'a Key)>
    ensures { option_map (λ e. (e.0, e.1.now)) result ≡ later_entry (memory_seen cells.now) at.now serial }
{
    match entries_at(cells, at) {
        Some(entries) => first_behind_near(entries, serial, near),
        None => None,
    }
}

/// How many steps of the path lead somewhere, and what stands where they end.
pub fn meets<'a>(cells: &'a Cells, at: &Place) -> Met<'a>
    ensures steps { result.steps ≡ steps_met (memory_seen cells.now) at.now }
    ensures end { Shows result.end (end_met (memory_seen cells.now) at.now) }
{
    let way = go_along(cells, at);
    let end = look_at_spot(cells, way.end);
    Met {
        steps: way.steps,
        end,
    }
}

fn is_link_item(item: &Item) -> bool
    ensures { result ≡ views.is_link_item (Some (item_seen item.now)) }
{
    match item {
        Item::Link(_) => true,
        Item::Value(_) => false,
    }
}

/// Whether the temporary of this depth, the top at 0, is there and is a link.
pub fn is_link(cells: &Cells, block: usize, depth: usize) -> bool
    ensures { result ≡ views.is_link (memory_seen cells.now) block depth }
{
    match temp_at(cells, block, depth) {
        Some(item) => is_link_item(item),
        None => false,
    }
}

fn is_shared(cells: &Cells, store: usize) -> bool
    requires { IsCounted cells.now }
    ensures { result ≡ is_shared (memory_seen cells.now) store }
{
    match cells.stores.get(store) {
        Some(cell) => 2 <= cell.holders,
        None => false,
    }
}

/// Whether the place has a store that something else points to as well.
pub fn is_aliased(cells: &Cells, at: &Place) -> bool
    requires { IsCounted cells.now }
    ensures { result ≡ views.is_aliased (memory_seen cells.now) at.now }
{
    match find(cells, at) {
        Some(Spot::Stored(store)) => is_shared(cells, store),
        Some(Spot::Standing(_, _)) | None => false,
    }
}
