// An array that is being copied.
ghost use Rattle.std.specs.Prelude.{◌≡◌, ◌≤◌, [], ◌∷◌, length, IfSome, IfNone, IfOk};
ghost use Rattle.php_entries.specs.Listing.{count_of};
ghost use Rattle.php_memdef.specs.Contents as model;
ghost use Rattle.php_memdef.specs.Numbered.{numbered};
ghost use Rattle.php_entries.specs.Changes.{with_values};
ghost use Rattle.php_entries.specs.Soundness.{IsSound};
ghost use Rattle.php_memplain_cells.specs.Seen.{content_seen, stores_seen};
ghost use Rattle.php_memplain_copy.specs.Walking.{listing_or, listing_if, listing_in, left_in};

use php_array::Entries;
use php_base::{Ledger, NoMemory};
use php_chain::Link;
use php_memplain_cells::{Content, Store};
use slab::Slab;
use std::alloc::Global;

/// An array of which some elements are copied.
#[derive(Drop)]
pub struct Frame {
    /// The store of the array, or none for an array that no store holds.
    pub source: Option<usize>,
    /// How many levels down its elements are copied.
    pub levels: usize,
    /// The copies of its elements.
    pub values: Vec<usize>,
    /// The serial of the last element that was copied.
    pub passed: u64,
    // where the walk through the entries stands
    pub near: usize,
}

// The array of a content, and another one where it is none.
fn entries_or<'a>(content: &'a Content, root: &'a Entries<usize>) -> &'a Entries<usize>
    ensures { result.now ≡ listing_or root.now (content_seen content.now) }
{
    match content {
        Content::Array(entries, _) => entries,
        Content::Null | Content::Bool(_) | Content::Int(_) | Content::Str(_) | Content::Object(_) =>
            root,
    }
}

// The array of a store.
fn entries_in<'a>(
    stores: &'a Slab<Store>,
    root: &'a Entries<usize>,
    store: usize,
) -> &'a Entries<usize>
    ensures { result.now ≡ listing_if root.now (numbered (stores_seen stores.now) store) }
{
    match stores.get(store) {
        Some(cell) => entries_or(&cell.content, root),
        None => root,
    }
}

// The array of a source.
fn entries_of<'a>(
    stores: &'a Slab<Store>,
    root: &'a Entries<usize>,
    source: Option<usize>,
) -> &'a Entries<usize>
    ensures { result.now ≡ listing_in (stores_seen stores.now) root.now source }
{
    match source {
        Some(store) => entries_in(stores, root, store),
        None => root,
    }
}

/// The store of the next element.
pub fn next_element(stores: &Slab<Store>, root: &Entries<usize>, frame: &mut Frame) -> Option<usize>
    ensures some { IfSome result (λ s. left_in (stores_seen stores.now) root.now frame.old ≡ s ∷ left_in (stores_seen stores.now) root.now frame.new) }
    ensures none { IfNone result ((left_in (stores_seen stores.now) root.now frame.old ≡ []) × (left_in (stores_seen stores.now) root.now frame.new ≡ [])) }
    ensures source { frame.new.source ≡ frame.old.source }
    ensures levels { frame.new.levels ≡ frame.old.levels }
    ensures values { frame.new.values ≡ frame.old.values }
{
    let entries = entries_of(stores, root, frame.source);
    let _count = entries.len();
    let (serial, store) = match entries.entry_after_near(frame.passed, &mut frame.near) {
        Some((serial, _, store)) => (serial, *store),
        None => return None,
    };
    frame.passed = serial;
    Some(store)
}

fn made_so_far(ledger: &Ledger) -> u64
    ensures { result ≡ ledger.now.made }
{
    ledger.made
}

/// The copy of an array, over the copies of all of its elements, whose entries are counted.
pub fn finished(
    alloc: Global,
    stores: &Slab<Store>,
    root: &Entries<usize>,
    source: Option<usize>,
    values: Vec<usize>,
    ledger: &mut Ledger,
) -> Result<Content, NoMemory>
    requires { length values.items ≡ count_of (listing_in (stores_seen stores.now) root.now source) }
    ensures copy { IfOk result (λ d. content_seen d ≡ model.array (with_values (listing_in (stores_seen stores.now) root.now source) values.items)) }
    ensures made { ledger.old.made ≤ ledger.new.made }
{
    let _made = made_so_far(ledger);
    let link = Link::new(alloc)?;
    let entries = entries_of(stores, root, source).with_values(values, ledger)?;
    Ok(Content::Array(entries, link))
}

/// The array of a source is sound.
pub fn has_rising_serials(stores: &Slab<Store>, root: &Entries<usize>, source: Option<usize>)
    ensures { IsSound (listing_in (stores_seen stores.now) root.now source) }
{
    let _count = entries_of(stores, root, source).len();
}
