// The topmost temporaries in another order.
ghost use Rattle.std.specs.Prelude.{◌≡◌, ◌≤◌, ◌++◌, [], length, take, drop, reverse};
ghost use Rattle.php_memdef.specs.Temporaries.{turned};
ghost use Rattle.php_memplain_cells.specs.Seen.{scope_seen};

use php_memplain_cells::{Block, Item};

// Reverses what stands at a place and behind it.
fn reverse_behind(items: &mut [Item], from: usize)
    requires { from ≤ length items.old }
    ensures { items.new ≡ take from items.old ++ reverse (drop from items.old) }
{
    let (_front, back) = items.split_at_mut(from);
    back.reverse();
}

/// Puts the so many top temporaries in reverse order.
pub fn turn_top(block: &mut Block, count: usize)
    requires { count ≤ length block.old.temps.items }
    ensures { scope_seen block.new ≡ record (scope_seen block.old) { temps = turned count (scope_seen block.old).temps [] } }
{
    let from = block.temps.len() - count;
    reverse_behind(block.temps.as_mut_slice(), from);
}
