// A text that grows where it stands.
ghost use Rattle.std.specs.Prelude.{◌≡◌, ℕ, ◌++◌, Some, OnOk, OnErr};
ghost use Rattle.slab.specs.Slab.{ContainsKey};
ghost use Rattle.php_memdef.specs.Conditions.{CanAppend};
ghost use Rattle.php_memdef.specs.Contents.{text};
ghost use Rattle.php_memdef.specs.Places as places;
ghost use Rattle.php_memdef.specs.Places.{with_content};
ghost use Rattle.php_memdef.specs.Sound.{IsClosed};
ghost use Rattle.php_memdef.specs.Temporaries.{popped, rest_of};
ghost use Rattle.php_memdef.specs.Writes as model;
ghost use Rattle.php_memdef.specs.Writes.{text_found};
ghost use Rattle.php_memplain_cells.specs.Seen.{content_seen, scope_seen};
ghost use Rattle.php_memplain_cells.specs.Counts.{count_of_store};
ghost use Rattle.php_memplain_cells.specs.Memory.{memory_seen, IsCounted};
ghost use Rattle.php_memplain_places.specs.Spots.{spot_seen};
ghost use Rattle.php_memplain_changes.specs.Standing.{HasContent, AreWaitingKept};
ghost use Rattle.php_memplain_changes.specs.Joined.{IsText, IsBelowTopOf, joined_at};
ghost use Rattle.php_memplain_changes.specs.Taken.{Becomes};

use crate::swapping::swap_content;
use php_base::NoMemory;
use php_memdef::Place;
use php_memplain_cells::{Block, Cells, Content, Item};
use php_memplain_places::{Spot, content_at, find};
use std::alloc::Global;

// The bytes of a text, none of anything else.
fn bytes_of(content: &Content) -> &[u8]
    ensures { result.now ≡ text_found (Some (content_seen content.now)) }
{
    match content {
        Content::Str(text) => text.bytes(),
        Content::Null
        | Content::Bool(_)
        | Content::Int(_)
        | Content::Array(_, _)
        | Content::Object(_) => &[],
    }
}

// The bytes of the text at a spot.
fn bytes_at(cells: &Cells, spot: Spot) -> &[u8]
    ensures { result.now ≡ text_found (Some (places.content_at (memory_seen cells.now) (spot_seen spot))) }
{
    match content_at(cells, spot) {
        Some(content) => bytes_of(content),
        None => &[],
    }
}

// Puts bytes behind a text, which grows in place where it has no other owner.
fn extend_content(content: &mut Content, alloc: Global, more: &[u8]) -> Result<(), NoMemory>
    requires { IsText (content_seen content.old) }
    ensures longer { OnOk result (content_seen content.new ≡ text (text_found (Some (content_seen content.old)) ++ more.now)) }
    ensures kept { OnErr result (content_seen content.new ≡ content_seen content.old) }
{
    match content {
        Content::Str(text) => text.extend(alloc, more),
        Content::Null
        | Content::Bool(_)
        | Content::Int(_)
        | Content::Array(_, _)
        | Content::Object(_) => unreachable!(),
    }
}

// Puts the bytes of the text on top of a block behind the text at a spot. Want of memory changes nothing.
fn extend_at(cells: &mut Cells, block: usize, spot: Spot) -> Result<(), NoMemory>
    requires there { HasContent (memory_seen cells.old) (spot_seen spot) }
    requires is_text { IsText (places.content_at (memory_seen cells.old) (spot_seen spot)) }
    requires below { IsBelowTopOf block (spot_seen spot) }
    ensures longer { OnOk result (memory_seen cells.new ≡ with_content (memory_seen cells.old) (spot_seen spot) (text (joined_at (memory_seen cells.old) block (spot_seen spot)))) }
    ensures kept { OnErr result (memory_seen cells.new ≡ memory_seen cells.old) }
    ensures holders { (k : ℕ) → count_of_store cells.new.stores k ≡ count_of_store cells.old.stores k }
    ensures objects { cells.new.objects ≡ cells.old.objects }
    ensures waiting { AreWaitingKept cells.old.blocks cells.new.blocks }
    ensures ledger { cells.new.ledger ≡ cells.old.ledger }
{
    let mut content = swap_content(cells, spot, Content::Null);
    let behind = bytes_at(cells, Spot::Standing(block, 0));
    let answer = extend_content(&mut content, cells.alloc, behind);
    let _null = swap_content(cells, spot, content);
    answer
}

// Takes the top temporary off.
fn pop_temp(block: &mut Block) -> Option<Item>
    ensures { scope_seen block.new ≡ record (scope_seen block.old) { temps = rest_of (scope_seen block.old).temps } }
{
    block.temps.pop()
}

fn drop_top(cells: &mut Cells, block: usize)
    requires { ContainsKey cells.old.blocks block }
    ensures seen { memory_seen cells.new ≡ popped (memory_seen cells.old) block }
    ensures stores { cells.new.stores ≡ cells.old.stores }
    ensures objects { cells.new.objects ≡ cells.old.objects }
    ensures ledger { cells.new.ledger ≡ cells.old.ledger }
{
    let _top = pop_temp(&mut cells.blocks[block]);
}

/// Moves the text on top of a block behind the text at a place, which grows in place where it has no other owner.
/// Want of memory changes nothing.
pub fn append(cells: &mut Cells, block: usize, to: &Place) -> Result<(), NoMemory>
    requires counted { IsCounted cells.old }
    requires closed { IsClosed (memory_seen cells.old) }
    requires can { CanAppend block to.now (memory_seen cells.old) }
    ensures ok { OnOk result (Becomes cells.new (model.append (memory_seen cells.old) block to.now)) }
    ensures no_memory { OnErr result (Becomes cells.new (memory_seen cells.old)) }
    ensures ledger { cells.new.ledger ≡ cells.old.ledger }
{
    let Some(spot) = find(cells, to) else {
        unreachable!();
    };
    match extend_at(cells, block, spot) {
        Ok(()) => {
            drop_top(cells, block);
            Ok(())
        }
        Err(_) => Err(NoMemory),
    }
}
