// The calls that remove what is at a place, and let a text grow there.
ghost use Rattle.std.specs.Prelude.{false, IfOk, OnErr};
ghost use Rattle.php_memdef.specs.Operations as op;
ghost use Rattle.php_memdef.specs.Operations.{Can, effect, cost};
ghost use Rattle.php_memdef.specs.Meanings.{SomeMeant, Keeps, Does, MakesAtMost};
ghost use Rattle.php_memplain.specs.Means.{Means, made_of};

use crate::memory::MemPlain;
use php_base::NoMemory;
use php_memdef::{Block, Place};
use php_memplain_changes as changes;

impl MemPlain {
    /// Moves the text on top behind the text at the place, as an assignment of both together would.
    pub fn append(&mut self, block: Block, to: &Place) -> Result<(), NoMemory>
        requires { SomeMeant (Means self.old) (Can (op.append block.0 to.now)) }
        ensures ok { IfOk result (λ _. Does (Means self.old) (Means self.new) (effect (op.append block.0 to.now))) }
        ensures no_memory { OnErr result (Keeps (Means self.old) (Means self.new)) }
        ensures made { MakesAtMost false (Means self.old) (made_of self.old) (made_of self.new) (cost (op.append block.0 to.now)) }
    {
        match changes::append(&mut self.cells, block.0, to) {
            Ok(()) => Ok(()),
            Err(_) => Err(NoMemory),
        }
    }

    /// Removes the variable, property or element at the place, where there is one, and lets its
    /// store fall.
    pub fn unset(&mut self, block: Block, at: &Place) -> Result<(), NoMemory>
        requires { SomeMeant (Means self.old) (Can (op.unset block.0 at.now)) }
        ensures ok { IfOk result (λ _. Does (Means self.old) (Means self.new) (effect (op.unset block.0 at.now))) }
        ensures no_memory { OnErr result (Keeps (Means self.old) (Means self.new)) }
        ensures made { MakesAtMost false (Means self.old) (made_of self.old) (made_of self.new) (cost (op.unset block.0 at.now)) }
    {
        match changes::unset(&mut self.cells, block.0, at) {
            Ok(()) => Ok(()),
            Err(_) => Err(NoMemory),
        }
    }

    /// Removes the last element of the array at the place, where there is one, and lets its store
    /// fall. The array's next key gives back the key that the element had.
    pub fn unset_last(&mut self, block: Block, at: &Place) -> Result<(), NoMemory>
        requires { SomeMeant (Means self.old) (Can (op.unset_last block.0 at.now)) }
        ensures ok { IfOk result (λ _. Does (Means self.old) (Means self.new) (effect (op.unset_last block.0 at.now))) }
        ensures no_memory { OnErr result (Keeps (Means self.old) (Means self.new)) }
        ensures made { MakesAtMost false (Means self.old) (made_of self.old) (made_of self.new) (cost (op.unset_last block.0 at.now)) }
    {
        match changes::unset_last(&mut self.cells, block.0, at) {
            Ok(()) => Ok(()),
            Err(_) => Err(NoMemory),
        }
    }
}
