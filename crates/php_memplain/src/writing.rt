// The calls that write.
ghost use Rattle.std.specs.Prelude.{false, IfOk, OnErr};
ghost use Rattle.php_memdef.specs.Operations as op;
ghost use Rattle.php_memdef.specs.Operations.{Can, run, cost};
ghost use Rattle.php_memdef.specs.Meanings.{SomeMeant, Keeps, Answers, MakesAtMost};
ghost use Rattle.php_memplain.specs.Means.{Means, made_of};

use crate::memory::MemPlain;
use php_base::NoMemory;
use php_memdef::{Block, Place, Wrote};
use php_memplain_writes::{assign, bind, link};

impl MemPlain {
    /// Moves the top temporary into the place, and lets what the place held fall. Every answer but
    /// `Done` leaves the temporary where it is.
    pub fn assign(&mut self, block: Block, to: &Place) -> Result<Wrote, NoMemory>
        requires { SomeMeant (Means self.old) (Can (op.assign block.0 to.now)) }
        ensures ok { IfOk result (λ r. Answers (Means self.old) (Means self.new) r (run (op.assign block.0 to.now))) }
        ensures no_memory { OnErr result (Keeps (Means self.old) (Means self.new)) }
        ensures made { MakesAtMost false (Means self.old) (made_of self.old) (made_of self.new) (cost (op.assign block.0 to.now)) }
    {
        assign(&mut self.cells, block.0, to)
    }

    /// Pushes a link to the place's store.
    pub fn link(&mut self, block: Block, from: &Place) -> Result<Wrote, NoMemory>
        requires { SomeMeant (Means self.old) (Can (op.link block.0 from.now)) }
        ensures ok { IfOk result (λ r. Answers (Means self.old) (Means self.new) r (run (op.link block.0 from.now))) }
        ensures no_memory { OnErr result (Keeps (Means self.old) (Means self.new)) }
        ensures made { MakesAtMost false (Means self.old) (made_of self.old) (made_of self.new) (cost (op.link block.0 from.now)) }
    {
        link(&mut self.cells, block.0, from)
    }

    /// Moves the link on top into the place, which points to the link's store from then on. The
    /// store that it pointed to before falls. Every answer but `Done` leaves the link where it is.
    pub fn bind(&mut self, block: Block, to: &Place) -> Result<Wrote, NoMemory>
        requires { SomeMeant (Means self.old) (Can (op.bind block.0 to.now)) }
        ensures ok { IfOk result (λ r. Answers (Means self.old) (Means self.new) r (run (op.bind block.0 to.now))) }
        ensures no_memory { OnErr result (Keeps (Means self.old) (Means self.new)) }
        ensures made { MakesAtMost false (Means self.old) (made_of self.old) (made_of self.new) (cost (op.bind block.0 to.now)) }
    {
        bind(&mut self.cells, block.0, to)
    }
}
