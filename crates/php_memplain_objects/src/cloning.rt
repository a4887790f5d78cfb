// Clones of objects.
ghost use Rattle.std.specs.Prelude.{◌≡◌, ◌≤◌, [], IfOk, OnErr};
ghost use Rattle.php_memdef.specs.Contents.{object_of};
ghost use Rattle.php_memplain_cells.specs.Memory.{memory_seen};
ghost use Rattle.php_memplain_copy.specs.Walking.{IsWhole};
ghost use Rattle.php_memplain_content.specs.Copies.{IsBack};
ghost use Rattle.php_memplain_objects.specs.Cloning.{IsCloned, IsGivenUp};

use crate::adding::append;
use crate::properties::copy_properties;
use php_base::NoMemory;
use php_memplain_cells::{Cells, Property};
use php_memplain_copy::{Log, undo};
use php_memplain_places::{class_of, object_at};

fn is_finishing(cells: &Cells, number: u64) -> bool
    ensures { result ≡ (object_of (memory_seen cells.now) number).finishing }
{
    match object_at(cells.objects.as_slice(), number) {
        Some(object) => object.finishing,
        None => false,
    }
}

// Makes the clone of an object, and enters in the log what its properties take.
fn clone_logged(cells: &mut Cells, log: &mut Log, number: u64) -> Result<u64, NoMemory>
    requires whole { IsWhole cells.old }
    requires nothing { (log.old.stores.items ≡ []) × (log.old.handles.items ≡ []) }
    ensures cloned { IfOk result (λ n. IsCloned cells.old number n cells.new) }
    ensures no_memory { OnErr result (IsGivenUp cells.old cells.new log.new) }
    ensures blocks { cells.new.blocks ≡ cells.old.blocks }
    ensures made { cells.old.ledger.made ≤ cells.new.ledger.made }
{
    let class = class_of(cells, number);
    let finishing = is_finishing(cells, number);
    let Some(levels) = cells.stores.len().checked_add(1) else {
        return Err(NoMemory);
    };
    match copy_properties(cells, log, levels, number) {
        Ok(properties) => match append(cells, class, finishing, properties) {
            Ok(clone) => Ok(clone),
            Err(_) => Err(NoMemory),
        },
        Err(_) => Err(NoMemory),
    }
}

/// Makes a clone of an object, whose handle is at hand. The properties are copied as elements of arrays are. It is
/// finishing where the other is, isn't spent, and no frame waits in it. Where memory is wanting all that it had
/// taken is given back.
pub(crate) fn make_clone(cells: &mut Cells, number: u64) -> Result<u64, NoMemory>
    requires { IsWhole cells.old }
    ensures cloned { IfOk result (λ n. IsCloned cells.old number n cells.new) }
    ensures blocks { cells.new.blocks ≡ cells.old.blocks }
    ensures no_memory { OnErr result (IsBack cells.old cells.new) }
    ensures made { cells.old.ledger.made ≤ cells.new.ledger.made }
{
    let mut log = Log {
        stores: Vec::new(cells.alloc),
        handles: Vec::new(cells.alloc),
    };
    match clone_logged(cells, &mut log, number) {
        Ok(clone) => Ok(clone),
        Err(_) => {
            undo(&mut cells.stores, &mut cells.objects, log);
            Err(NoMemory)
        }
    }
}
