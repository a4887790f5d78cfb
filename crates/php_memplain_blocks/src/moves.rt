// Items that move in a memory, as the model moves them.
ghost use Rattle.std.specs.Prelude.{◌≡◌};
ghost use Rattle.slab.specs.Slab.{ContainsKey};
ghost use Rattle.php_memdef.specs.Conditions.{HasRoom, HasTemp, HasFallingRoom};
ghost use Rattle.php_memdef.specs.Temporaries.{pushed, popped, top, with_top, let_fall};
ghost use Rattle.php_memplain_cells.specs.Seen.{item_seen};
ghost use Rattle.php_memplain_cells.specs.Memory.{memory_seen};

use crate::blocks::{fall_last, pop_item, push_item, swap_top};
use php_memplain_cells::{Cells, Item};

/// Puts an item on top of a block.
pub fn push(cells: &mut Cells, block: usize, item: Item)
    requires block { ContainsKey cells.old.blocks block }
    requires room { HasRoom (memory_seen cells.old) block }
    ensures seen { memory_seen cells.new ≡ pushed (memory_seen cells.old) block (item_seen item) }
    ensures stores { cells.new.stores ≡ cells.old.stores }
    ensures objects { cells.new.objects ≡ cells.old.objects }
    ensures ledger { cells.new.ledger ≡ cells.old.ledger }
{
    push_item(&mut cells.blocks[block], item);
}

/// Takes the top item of a block.
pub fn pop(cells: &mut Cells, block: usize) -> Item
    requires block { ContainsKey cells.old.blocks block }
    requires some { HasTemp (memory_seen cells.old) block }
    ensures seen { memory_seen cells.new ≡ popped (memory_seen cells.old) block }
    ensures top { item_seen result ≡ top (memory_seen cells.old) block }
    ensures stores { cells.new.stores ≡ cells.old.stores }
    ensures objects { cells.new.objects ≡ cells.old.objects }
    ensures ledger { cells.new.ledger ≡ cells.old.ledger }
    ensures block { ContainsKey cells.new.blocks block }
{
    match pop_item(&mut cells.blocks[block]) {
        Some(item) => item,
        None => unreachable!(),
    }
}

/// Puts an item in the place of the top item of a block, which is handed out.
pub fn swap(cells: &mut Cells, block: usize, item: Item) -> Item
    requires block { ContainsKey cells.old.blocks block }
    requires some { HasTemp (memory_seen cells.old) block }
    ensures seen { memory_seen cells.new ≡ with_top (memory_seen cells.old) block (item_seen item) }
    ensures top { item_seen result ≡ top (memory_seen cells.old) block }
    ensures stores { cells.new.stores ≡ cells.old.stores }
    ensures objects { cells.new.objects ≡ cells.old.objects }
    ensures ledger { cells.new.ledger ≡ cells.old.ledger }
    ensures block { ContainsKey cells.new.blocks block }
{
    swap_top(&mut cells.blocks[block], item)
}

/// Lets an item fall in a block.
pub fn fall(cells: &mut Cells, block: usize, item: Item)
    requires block { ContainsKey cells.old.blocks block }
    requires room { HasFallingRoom (memory_seen cells.old) block }
    ensures seen { memory_seen cells.new ≡ let_fall (memory_seen cells.old) block (item_seen item) }
    ensures stores { cells.new.stores ≡ cells.old.stores }
    ensures objects { cells.new.objects ≡ cells.old.objects }
    ensures ledger { cells.new.ledger ≡ cells.old.ledger }
{
    fall_last(&mut cells.blocks[block], item);
}
