// Arrays in which an element is to point to a store.
ghost use Rattle.std.specs.Prelude.{◌≡◌, ◌≤◌, ℕ, IfOk};
ghost use Rattle.php_memdef.specs.declared.place.Step.TheVariants.{At, Push};
ghost use Rattle.php_memplain_cells.specs.Seen.{content_seen};
ghost use Rattle.php_memplain_cells.specs.Counts.{count_of_store};
ghost use Rattle.php_memplain_cells.specs.Memory.{memory_seen};
ghost use Rattle.php_memplain_places.specs.Spots.{spot_seen};
ghost use Rattle.php_memplain_writes.specs.Standing.{HasContent, AreWaitingKept};
ghost use Rattle.php_memplain_writes.specs.Grows.{GrewIs, HasOneElement};
ghost use Rattle.php_memplain_writes.specs.Growing.{ContentGrew, GrewAt};

use crate::standing::swap_content;
use php_array::{Entries, NoAppend, NoSet};
use php_base::{Ledger, NoMemory};
use php_chain::Link;
use php_memdef::{Step, Wrote};
use php_memplain_cells::{Cells, Content};
use php_memplain_places::Spot;
use php_value::Key;
use std::alloc::Global;

/// What comes of an array in which the element that a step leads to is to point to a store.
#[derive(Clone, Copy)]
pub enum Grew {
    /// It points there, and before that to this store, where the element was there.
    Done(Option<usize>),
    /// The element can't be made. The array is as it was.
    Refused(Wrote),
    /// Memory is wanting. The array is as it was.
    NoMemory,
}

fn made_so_far(ledger: &Ledger) -> u64
    ensures { result ≡ ledger.now.made }
{
    ledger.made
}

fn set(entries: &mut Entries<usize>, key: &Key, store: usize, ledger: &mut Ledger) -> Grew
    ensures grew { GrewIs result entries.old (At key.now) store entries.new }
    ensures made { ledger.old.made ≤ ledger.new.made }
{
    let _made = made_so_far(ledger);
    let Ok(key) = key.share() else {
        return Grew::NoMemory;
    };
    match entries.set(key, store, ledger) {
        Ok(before) => Grew::Done(before),
        Err(NoSet::Limit(_)) => Grew::Refused(Wrote::Limit),
        Err(NoSet::NoMemory(_)) => Grew::NoMemory,
    }
}

fn append(entries: &mut Entries<usize>, store: usize, ledger: &mut Ledger) -> Grew
    ensures grew { GrewIs result entries.old Push store entries.new }
    ensures made { ledger.old.made ≤ ledger.new.made }
{
    let _made = made_so_far(ledger);
    match entries.append(store, ledger) {
        Ok(_) => Grew::Done(None),
        Err(NoAppend::Full(_)) => Grew::Refused(Wrote::Full),
        Err(NoAppend::Limit(_)) => Grew::Refused(Wrote::Limit),
        Err(NoAppend::NoMemory(_)) => Grew::NoMemory,
    }
}

/// Lets the element that a step leads to point to a store, and makes it where it isn't there.
pub fn grow(entries: &mut Entries<usize>, step: &Step, store: usize, ledger: &mut Ledger) -> Grew
    ensures grew { GrewIs result entries.old step.now store entries.new }
    ensures made { ledger.old.made ≤ ledger.new.made }
{
    match step {
        Step::At(key) => set(entries, key, store, ledger),
        Step::Push => append(entries, store, ledger),
    }
}

/// An array with one element, to which a step leads and which points to a store.
pub(crate) fn one_element(
    alloc: Global,
    step: &Step,
    store: usize,
    ledger: &mut Ledger,
) -> Result<Content, NoMemory>
    ensures element { IfOk result (λ c. HasOneElement step.now store (content_seen c)) }
    ensures made { ledger.old.made ≤ ledger.new.made }
{
    let _made = made_so_far(ledger);
    let link = Link::new(alloc)?;
    let mut entries = Entries::new(alloc);
    match grow(&mut entries, step, store, ledger) {
        Grew::Done(_) => Ok(Content::Array(entries, link)),
        Grew::Refused(_) => unreachable!(),
        Grew::NoMemory => Err(NoMemory),
    }
}

// What comes of a content that is to be an array with an element that a step leads to.
fn grown(
    alloc: Global,
    content: Content,
    step: &Step,
    store: usize,
    ledger: &mut Ledger,
) -> (Content, Grew)
    ensures grew { ContentGrew result.1 (content_seen content) step.now store (content_seen result.0) }
    ensures made { ledger.old.made ≤ ledger.new.made }
{
    match content {
        Content::Null => match one_element(alloc, step, store, ledger) {
            Ok(array) => (array, Grew::Done(None)),
            Err(_) => (Content::Null, Grew::NoMemory),
        },
        Content::Array(mut entries, link) => {
            let grew = grow(&mut entries, step, store, ledger);
            (Content::Array(entries, link), grew)
        }
        Content::Bool(_) | Content::Int(_) | Content::Str(_) | Content::Object(_) => {
            (content, Grew::Refused(Wrote::NotArray))
        }
    }
}

/// Lets the element that a step leads to from a spot point to a store, and makes it where it isn't
/// there. Only null becomes an array.
pub(crate) fn grow_at(cells: &mut Cells, spot: Spot, step: &Step, store: usize) -> Grew
    requires there { HasContent (memory_seen cells.old) (spot_seen spot) }
    ensures grew { GrewAt result (memory_seen cells.old) (spot_seen spot) step.now store (memory_seen cells.new) }
    ensures holders { (k : ℕ) → count_of_store cells.new.stores k ≡ count_of_store cells.old.stores k }
    ensures objects { cells.new.objects ≡ cells.old.objects }
    ensures waiting { AreWaitingKept cells.old.blocks cells.new.blocks }
    ensures made { cells.old.ledger.made ≤ cells.new.ledger.made }
{
    let content = swap_content(cells, spot, Content::Null);
    let (content, grew) = grown(cells.alloc, content, step, store, &mut cells.ledger);
    let _null = swap_content(cells, spot, content);
    grew
}
