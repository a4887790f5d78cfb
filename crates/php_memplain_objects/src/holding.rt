// A further holder of an object.
ghost use Rattle.std.specs.Prelude.{◌≡◌, ◌+◌, ◌<◌, ◌^◌, [], ◌∷◌};
ghost use Rattle.php_memplain_cells.specs.Seen.{objects_seen};
ghost use Rattle.php_memplain_cells.specs.Counts.{count_of_object};
ghost use Rattle.php_memplain_cells.specs.Memory.{memory_seen, IsCounted, IsCountedWith};
ghost use Rattle.php_memplain_copy.specs.More.{AreMoreHandles};

use php_memplain_cells::{Cells, Object};

fn gain(object: &mut Object)
    requires { object.old.holders + 1 < 2 ^ 128 }
    ensures { object.new ≡ record object.old { holders = object.old.holders + 1 } }
{
    object.holders += 1;
}

// Counts a further holder of the object of a number.
fn hold_again(objects: &mut Vec<Option<Box<Object>>>, number: u64)
    requires there { 0 < count_of_object objects.old.items number }
    requires fits { count_of_object objects.old.items number + 1 < 2 ^ 128 }
    ensures seen { objects_seen objects.new.items ≡ objects_seen objects.old.items }
    ensures more { AreMoreHandles objects.old.items objects.new.items (number ∷ []) }
{
    let place = (number - 1) as usize;
    let Some(mut object) = objects[place].take() else {
        unreachable!();
    };
    gain(&mut object);
    objects[place] = Some(object);
}

/// Gives an object a further holder, which is at hand. The count always has room for it, since all holders
/// are handles in stores and blocks, of which there are fewer than it can tell.
pub fn hold(cells: &mut Cells, number: u64)
    requires counted { IsCounted cells.old }
    requires there { 0 < count_of_object cells.old.objects.items number }
    ensures seen { memory_seen cells.new ≡ memory_seen cells.old }
    ensures counted { IsCountedWith cells.new [] (number ∷ []) }
    ensures ledger { cells.new.ledger ≡ cells.old.ledger }
{
    let _stores = cells.stores.len();
    let _blocks = cells.blocks.len();
    hold_again(&mut cells.objects, number);
}
