// Operations that are made one after another.
ghost use Rattle.std.specs.Prelude.{◌+◌, ◌<◌, ◌^◌};
ghost use Rattle.php_memdef.specs.Meanings.{SomeMeant, Does};
ghost use Rattle.php_vm_actions.specs.Straight.{CanAll, all, drops_of, sink_of, trim_of, replace_of};

use php_memdef::{Block, Memory};
use php_value::Scalar;

/// So many temporaries fall, the top first.
pub fn drops<M: Memory>(memory: &mut M, block: Block, count: usize)
    requires { SomeMeant (M.means memory.old) (CanAll (drops_of block.0 count)) }
    ensures { Does (M.means memory.old) (M.means memory.new) (all (drops_of block.0 count)) }
{
    let mut left = count;
    while left > 0 {
        memory.drop_top(block);
        left -= 1;
    }
}

/// So many temporaries under the top fall, the lowest first.
pub fn sink<M: Memory>(memory: &mut M, block: Block, count: usize)
    requires can { SomeMeant (M.means memory.old) (CanAll (sink_of block.0 count)) }
    requires counts { count + 1 < 2 ^ 64 }
    ensures { Does (M.means memory.old) (M.means memory.new) (all (sink_of block.0 count)) }
{
    if count > 0 {
        memory.turn(block, count + 1);
        drops(memory, block, count);
    }
}

/// So many temporaries under the top fall, the highest first.
pub fn trim<M: Memory>(memory: &mut M, block: Block, count: usize)
    requires can { SomeMeant (M.means memory.old) (CanAll (trim_of block.0 count)) }
    requires counts { count + 1 < 2 ^ 64 }
    ensures { Does (M.means memory.old) (M.means memory.new) (all (trim_of block.0 count)) }
{
    if count > 0 {
        memory.turn(block, count + 1);
        memory.turn(block, count);
        drops(memory, block, count);
    }
}

/// So many top temporaries fall, the lowest first, and a value comes.
pub fn replace<M: Memory>(memory: &mut M, block: Block, count: usize, value: Scalar)
    requires { SomeMeant (M.means memory.old) (CanAll (replace_of block.0 count value)) }
    ensures { Does (M.means memory.old) (M.means memory.new) (all (replace_of block.0 count value)) }
{
    memory.turn(block, count);
    drops(memory, block, count);
    memory.push(block, value);
}
