// Room for what falls, and stores that fall.
ghost use Rattle.std.specs.Prelude.{◌≡◌, ◌++◌, [], ◌∷◌, OnOk};
ghost use Rattle.slab.specs.Slab.{ContainsKey};
ghost use Rattle.php_memdef.specs.Contents.{link};
ghost use Rattle.php_memdef.specs.Temporaries.{let_fall};
ghost use Rattle.php_memdef.specs.Writes.{let_fall_if};
ghost use Rattle.php_memplain_cells.specs.Seen.{scope_seen};
ghost use Rattle.php_memplain_cells.specs.Memory.{memory_seen, IsCounted, IsCountedWith};
ghost use Rattle.php_memplain_changes.specs.Standing.{HasWaitingRoom, CanFallIn};
ghost use Rattle.php_memplain_changes.specs.Taken.{in_hand};

use php_base::NoMemory;
use php_memplain_cells::{Block, Cells, Item};

// Makes room for one more item that falls.
fn reserve_place(block: &mut Block) -> Result<(), NoMemory>
    ensures seen { scope_seen block.new ≡ scope_seen block.old }
    ensures ok { OnOk result (HasWaitingRoom block.new) }
{
    block.waiting.reserve(1)?;
    Ok(())
}

/// Makes room for one more item that falls in a block.
pub(crate) fn reserve_falling(cells: &mut Cells, block: usize) -> Result<(), NoMemory>
    requires block { ContainsKey cells.old.blocks block }
    ensures seen { memory_seen cells.new ≡ memory_seen cells.old }
    ensures ok { OnOk result (CanFallIn cells.new.blocks block) }
    ensures stores { cells.new.stores ≡ cells.old.stores }
    ensures objects { cells.new.objects ≡ cells.old.objects }
    ensures ledger { cells.new.ledger ≡ cells.old.ledger }
{
    reserve_place(&mut cells.blocks[block])
}

// Lets a store fall behind all else, for which there is room.
fn fall_last(block: &mut Block, store: usize)
    requires { HasWaitingRoom block.old }
    ensures { scope_seen block.new ≡ record (scope_seen block.old) { falling = (scope_seen block.old).falling ++ link store ∷ [] } }
{
    match block.waiting.push_back(Item::Link(store)) {
        Ok(()) => {}
        Err(_) => unreachable!(),
    }
}

// Lets a store fall in a block.
fn fall(cells: &mut Cells, block: usize, store: usize)
    requires block { ContainsKey cells.old.blocks block }
    requires room { CanFallIn cells.old.blocks block }
    ensures seen { memory_seen cells.new ≡ let_fall (memory_seen cells.old) block (link store) }
    ensures stores { cells.new.stores ≡ cells.old.stores }
    ensures objects { cells.new.objects ≡ cells.old.objects }
    ensures ledger { cells.new.ledger ≡ cells.old.ledger }
{
    fall_last(&mut cells.blocks[block], store);
}

/// Lets a store that was taken out fall in a block, where there is one.
pub(crate) fn fall_if(cells: &mut Cells, block: usize, store: Option<usize>)
    requires block { ContainsKey cells.old.blocks block }
    requires room { CanFallIn cells.old.blocks block }
    requires counted { IsCountedWith cells.old (in_hand store) [] }
    ensures seen { memory_seen cells.new ≡ let_fall_if (memory_seen cells.old) block store }
    ensures counted { IsCounted cells.new }
    ensures ledger { cells.new.ledger ≡ cells.old.ledger }
{
    match store {
        Some(store) => fall(cells, block, store),
        None => {}
    }
}
