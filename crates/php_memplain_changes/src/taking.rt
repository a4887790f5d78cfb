// Elements that leave the array where a place is.
ghost use Rattle.std.specs.Prelude.{◌≡◌, option_map};
ghost use Rattle.php_entries.specs.Listing.{last_of};
ghost use Rattle.php_entries.specs.Changes.{pop_entry};
ghost use Rattle.php_memdef.specs.Places.{content_at, elements_of, entry_store, step_store, step_store_if};
ghost use Rattle.php_memdef.specs.Writes.{last_removed_in, removed_in_elements};
ghost use Rattle.php_memplain_cells.specs.Seen.{content_seen};
ghost use Rattle.php_memplain_cells.specs.Memory.{memory_seen, IsCounted};
ghost use Rattle.php_memplain_places.specs.Spots.{spot_seen};
ghost use Rattle.php_memplain_changes.specs.Standing.{HasContent};
ghost use Rattle.php_memplain_changes.specs.Taken.{Takes, with_elements, last_store, without_step};

use crate::swapping::swap_content;
use php_array::Entries;
use php_memdef::Step;
use php_memplain_cells::{Cells, Content};
use php_memplain_places::Spot;

// What is left of a content, and the store of the element that left it.
#[derive(Drop)]
struct Rest {
    content: Content,
    store: Option<usize>,
}

fn pop_last(entries: &mut Entries<usize>) -> Option<usize>
    ensures entries { entries.new ≡ pop_entry entries.old }
    ensures store { result ≡ entry_store (last_of entries.old.entries) }
{
    match entries.pop() {
        Some((_, store)) => Some(store),
        None => None,
    }
}

fn pop_element(content: Content) -> Rest
    ensures content { content_seen result.content ≡ with_elements pop_entry (content_seen content) }
    ensures store { result.store ≡ last_store (elements_of (content_seen content)) }
{
    match content {
        Content::Array(mut entries, link) => {
            let store = pop_last(&mut entries);
            Rest {
                content: Content::Array(entries, link),
                store,
            }
        }
        content => Rest {
            content,
            store: None,
        },
    }
}

/// Takes the last element out of the array at a spot, where there is one, and hands out its store. The next
/// key gives back the key that the element had.
pub fn pop_at(cells: &mut Cells, spot: Spot) -> Option<usize>
    requires counted { IsCounted cells.old }
    requires there { HasContent (memory_seen cells.old) (spot_seen spot) }
    ensures { Takes cells.old cells.new result (λ b. last_removed_in (elements_of (content_at (memory_seen cells.old) (spot_seen spot))) (memory_seen cells.old) b (spot_seen spot)) }
{
    let content = swap_content(cells, spot, Content::Null);
    let rest = pop_element(content);
    let _null = swap_content(cells, spot, rest.content);
    rest.store
}

fn remove_entry(entries: &mut Entries<usize>, step: &Step) -> Option<usize>
    ensures entries { entries.new ≡ without_step step.now entries.old }
    ensures store { result ≡ step_store entries.old step.now }
{
    match step {
        Step::At(key) => entries.remove(key),
        Step::Push => None,
    }
}

fn remove_element(content: Content, step: &Step) -> Rest
    ensures content { content_seen result.content ≡ with_elements (without_step step.now) (content_seen content) }
    ensures store { result.store ≡ step_store_if (elements_of (content_seen content)) step.now }
{
    match content {
        Content::Array(mut entries, link) => {
            let store = remove_entry(&mut entries, step);
            Rest {
                content: Content::Array(entries, link),
                store,
            }
        }
        content => Rest {
            content,
            store: None,
        },
    }
}

/// Takes the element to which a step leads out of the array at a spot, where there is one, and hands out its
/// store. The array's next key stays.
pub fn remove_at(cells: &mut Cells, spot: Spot, step: &Step) -> Option<usize>
    requires counted { IsCounted cells.old }
    requires there { HasContent (memory_seen cells.old) (spot_seen spot) }
    ensures { Takes cells.old cells.new result (λ b. removed_in_elements (elements_of (content_at (memory_seen cells.old) (spot_seen spot))) (memory_seen cells.old) b (spot_seen spot) step.now) }
{
    let content = swap_content(cells, spot, Content::Null);
    let rest = remove_element(content, step);
    let _null = swap_content(cells, spot, rest.content);
    rest.store
}
