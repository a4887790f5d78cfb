// Slots are packed anew where most of them are holes.
ghost use Rattle.std.specs.Prelude.{◌≡◌, ◌<◌, filter, length, OnOk, OnErr, IfOk};
ghost use Rattle.php_entries.specs.Soundness.{AreKeysDistinct};
ghost use Rattle.php_array.specs.Index.{IsIndexed};
ghost use Rattle.php_array.specs.Kept.{IsStored, IsRepacked};
ghost use Rattle.php_array.specs.Slots.{is_live, entries_in, AreHoles};

use crate::key_index::KeyIndex;
use crate::key_places::{collect_places, renew_places};
use crate::places::{skip_holes, trim};
use crate::slots::Slots;
use php_base::NoMemory;

/// Fewer slots than this are not packed anew.
const FEW_SLOTS: usize = 16;

/// Whether most of the slots are holes.
fn is_sparse(slots: usize, entries: usize) -> bool {
    slots >= FEW_SLOTS && entries < slots / 2
}

/// Drops all holes.
fn drop_holes<T: Drop>(slots: &mut Slots<T>)
    ensures { slots.new.items ≡ filter is_live slots.old.items }
{
    let mut kept = 0;
    for place in 0..slots.len() {
        if slots.is_live(place) {
            slots.swap(kept, place);
            kept += 1;
        }
    }
    slots.truncate(kept);
}

/// Gives each key a place in a map, where the holes in front are fewer than all other slots.
fn hash_index<T>(index: &mut KeyIndex, slots: &Slots<T>, first: usize) -> Result<(), NoMemory>
    requires distinct { AreKeysDistinct (entries_in slots.now.items) }
    requires indexed { IsIndexed index.old slots.now.items }
    ensures { IsIndexed index.new slots.now.items }
{
    if first >= slots.len() / 2 {
        return Ok(());
    }
    if let KeyIndex::Packed(_) = index {
        *index = KeyIndex::Hashed(collect_places(slots)?);
    }
    Ok(())
}

/// Drops holes: all of them, or where the places tell the keys those in front.
fn compact<T: Drop>(index: &mut KeyIndex, slots: &mut Slots<T>, first: usize) -> usize
    requires { IsStored index.old slots.old.items first }
    ensures { IsRepacked slots.old.items slots.new.items index.new result }
{
    match index {
        KeyIndex::Hashed(places) => {
            drop_holes(slots);
            renew_places(places, slots);
            0
        }
        KeyIndex::Packed(first_key) => match first_key.checked_add(first as u64) {
            Some(shifted_key) if first >= slots.len() / 2 => {
                slots.drop_front(first);
                *first_key = shifted_key;
                0
            }
            _ => first,
        },
    }
}

/// Drops all holes where a map tells the places. Where the keys tell them, holes stay until the room
/// is used up: nothing else waits for it, and moving the slots costs a pass over them.
fn compact_mapped<T: Drop>(index: &mut KeyIndex, slots: &mut Slots<T>, first: usize) -> usize
    requires { IsStored index.old slots.old.items first }
    ensures { IsRepacked slots.old.items slots.new.items index.new result }
{
    if let KeyIndex::Packed(_) = index {
        return first;
    }
    compact(index, slots, first)
}

/// Drops the holes behind the last entry and goes on over those in front, after an entry was taken
/// out. Where a map tells the places and most slots are holes by now, they are packed anew.
pub fn settle<T: Drop>(
    index: &mut KeyIndex,
    slots: &mut Slots<T>,
    first: usize,
    count: usize,
) -> usize
    requires distinct { AreKeysDistinct (entries_in slots.old.items) }
    requires indexed { IsIndexed index.old slots.old.items }
    requires holes { AreHoles first slots.old.items }
    ensures { IsRepacked slots.old.items slots.new.items index.new result }
{
    trim(slots);
    let first = skip_holes(slots, first.min(slots.len()));
    if is_sparse(slots.len(), count) {
        compact_mapped(index, slots, first)
    } else {
        first
    }
}

/// Drops holes, whatever the index was: those in front where they are most of the slots and keys tell
/// their places, else all. Answers `NoMemory` where the index needs a map and gets none; then nothing
/// has changed.
fn compact_all<T: Drop>(
    index: &mut KeyIndex,
    slots: &mut Slots<T>,
    first: usize,
) -> Result<usize, NoMemory>
    requires { IsStored index.old slots.old.items first }
    ensures ok { IfOk result (IsRepacked slots.old.items slots.new.items index.new) }
    ensures err { OnErr result (slots.new.items ≡ slots.old.items) }
    ensures err_index { OnErr result (IsIndexed index.new slots.new.items) }
{
    hash_index(index, slots, first)?;
    Ok(compact(index, slots, first))
}

/// Makes room for a further slot. Where the room is used up and most slots are holes, they are packed
/// anew.
pub fn make_room<T: Drop>(
    index: &mut KeyIndex,
    slots: &mut Slots<T>,
    first: &mut usize,
    count: usize,
) -> Result<(), NoMemory>
    requires { IsStored index.old slots.old.items first.old }
    ensures packed { IsRepacked slots.old.items slots.new.items index.new first.new }
    ensures room { OnOk result (length slots.new.items < slots.new.room) }
{
    if slots.has_room() {
        return Ok(());
    }
    if is_sparse(slots.len(), count) {
        *first = compact_all(index, slots, *first)?;
    }
    slots.reserve()
}
