// Variables, properties and elements that are removed at a place.
ghost use Rattle.std.specs.Prelude.{◌≡◌, ◌<◌, length, IfOk, OnOk, OnErr};
ghost use Rattle.php_memdef.specs.Conditions.{IsBase, CanUnset, CanUnsetLast};
ghost use Rattle.php_memdef.specs.Places.{find_place};
ghost use Rattle.php_memdef.specs.Sound.{IsClosed};
ghost use Rattle.php_memdef.specs.Writes as model;
ghost use Rattle.php_memdef.specs.Writes.{removed_at, last_removed_at};
ghost use Rattle.php_memplain_cells.specs.Memory.{memory_seen, IsCounted};
ghost use Rattle.php_memplain_changes.specs.Taken.{Takes, Becomes};

use crate::falling::{fall_if, reserve_falling};
use crate::named::take_base;
use crate::taking::{pop_at, remove_at};
use php_base::NoMemory;
use php_memdef::Place;
use php_memplain_cells::Cells;
use php_memplain_places::find;

// Takes the element out to which the last step of a place leads, where there is one.
fn take_element(cells: &mut Cells, at: &Place) -> Result<Option<usize>, NoMemory>
    requires counted { IsCounted cells.old }
    requires closed { IsClosed (memory_seen cells.old) }
    requires step { 0 < length at.now.path }
    ensures ok { IfOk result (λ store. Takes cells.old cells.new store (λ b. removed_at (memory_seen cells.old) b at.now.base at.now.path)) }
    ensures no_memory { OnErr result (cells.new ≡ cells.old) }
{
    let mut around = at.copy()?;
    let Some(step) = around.path.pop() else {
        unreachable!();
    };
    match find(cells, &around) {
        Some(spot) => Ok(remove_at(cells, spot, &step)),
        None => Ok(None),
    }
}

// Takes out what a place names, where it is there, and hands out its store.
fn take_at(cells: &mut Cells, at: &Place) -> Result<Option<usize>, NoMemory>
    requires counted { IsCounted cells.old }
    requires closed { IsClosed (memory_seen cells.old) }
    requires base { IsBase (memory_seen cells.old) at.now.base }
    ensures ok { IfOk result (λ store. Takes cells.old cells.new store (λ b. removed_at (memory_seen cells.old) b at.now.base at.now.path)) }
    ensures no_memory { OnErr result (cells.new ≡ cells.old) }
{
    if at.path.len() == 0 {
        Ok(take_base(cells, &at.base))
    } else {
        take_element(cells, at)
    }
}

/// Removes the variable, property or element at a place, where there is one, and lets its store fall in a
/// block. Want of memory changes nothing.
pub fn unset(cells: &mut Cells, block: usize, at: &Place) -> Result<(), NoMemory>
    requires counted { IsCounted cells.old }
    requires closed { IsClosed (memory_seen cells.old) }
    requires can { CanUnset block at.now (memory_seen cells.old) }
    ensures ok { OnOk result (Becomes cells.new (model.unset (memory_seen cells.old) block at.now)) }
    ensures no_memory { OnErr result (Becomes cells.new (memory_seen cells.old)) }
    ensures ledger { cells.new.ledger ≡ cells.old.ledger }
{
    let Ok(()) = reserve_falling(cells, block) else {
        return Err(NoMemory);
    };
    match take_at(cells, at) {
        Ok(store) => {
            fall_if(cells, block, store);
            Ok(())
        }
        Err(_) => Err(NoMemory),
    }
}

// Takes the last element out of the array at a place, where there is one, and hands out its store.
fn take_last(cells: &mut Cells, at: &Place) -> Option<usize>
    requires counted { IsCounted cells.old }
    requires closed { IsClosed (memory_seen cells.old) }
    ensures { Takes cells.old cells.new result (λ b. last_removed_at (find_place (memory_seen cells.old) at.now) (memory_seen cells.old) b) }
{
    match find(cells, at) {
        Some(spot) => pop_at(cells, spot),
        None => None,
    }
}

/// Removes the last element of the array at a place, where there is one, and lets its store fall in a block.
/// The array's next key gives back the key that the element had. Want of memory changes nothing.
pub fn unset_last(cells: &mut Cells, block: usize, at: &Place) -> Result<(), NoMemory>
    requires counted { IsCounted cells.old }
    requires closed { IsClosed (memory_seen cells.old) }
    requires can { CanUnsetLast block at.now (memory_seen cells.old) }
    ensures ok { OnOk result (Becomes cells.new (model.unset_last (memory_seen cells.old) block at.now)) }
    ensures no_memory { OnErr result (Becomes cells.new (memory_seen cells.old)) }
    ensures ledger { cells.new.ledger ≡ cells.old.ledger }
{
    let Ok(()) = reserve_falling(cells, block) else {
        return Err(NoMemory);
    };
    let last = take_last(cells, at);
    fall_if(cells, block, last);
    Ok(())
}
