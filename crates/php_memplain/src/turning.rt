// The topmost temporaries in another order.
ghost use Rattle.std.specs.Prelude.{false};
ghost use Rattle.php_memdef.specs.Operations as op;
ghost use Rattle.php_memdef.specs.Operations.{Can, effect, cost};
ghost use Rattle.php_memdef.specs.Meanings.{SomeMeant, Does, MakesAtMost};
ghost use Rattle.php_memplain.specs.Means.{Means, made_of};

use crate::memory::MemPlain;
use php_memdef::Block;
use php_memplain_blocks::turn_top;

impl MemPlain {
    /// Puts the so many top temporaries in reverse order.
    pub fn turn(&mut self, block: Block, count: usize)
        requires { SomeMeant (Means self.old) (Can (op.turn block.0 count)) }
        ensures effect { Does (Means self.old) (Means self.new) (effect (op.turn block.0 count)) }
        ensures made { MakesAtMost false (Means self.old) (made_of self.old) (made_of self.new) (cost (op.turn block.0 count)) }
    {
        turn_top(&mut self.cells.blocks[block.0], count);
    }
}
