// Variables by their names.
ghost use Rattle.std.specs.Prelude.{false};
ghost use Rattle.php_memdef.specs.Operations as op;
ghost use Rattle.php_memdef.specs.Operations.{Can, effect, cost};
ghost use Rattle.php_memdef.specs.Meanings.{SomeMeant, Does, MakesAtMost};
ghost use Rattle.php_memplain.specs.Means.{Means, made_of};

use crate::memory::MemPlain;
use php_memdef::{Block, Name};
use php_memplain_blocks::forget_variable;

impl MemPlain {
    /// Removes a variable of the block, where it is there, and lets its store fall.
    pub fn forget(&mut self, block: Block, name: Name)
        requires { SomeMeant (Means self.old) (Can (op.forget block.0 name.0)) }
        ensures effect { Does (Means self.old) (Means self.new) (effect (op.forget block.0 name.0)) }
        ensures made { MakesAtMost false (Means self.old) (made_of self.old) (made_of self.new) (cost (op.forget block.0 name.0)) }
    {
        forget_variable(&mut self.cells.blocks[block.0], name.0);
    }
}
