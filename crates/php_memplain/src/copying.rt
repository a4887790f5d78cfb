// The calls that copy.
ghost use Rattle.std.specs.Prelude.{◌≡◌, ℕ, false, Some, IfOk, OnErr};
ghost use Rattle.php_memdef.specs.Contents.{link, scope_of};
ghost use Rattle.php_memdef.specs.Conditions.{HasLinkOnTop};
ghost use Rattle.php_memdef.specs.Places.{nth_item};
ghost use Rattle.php_memdef.specs.Operations as op;
ghost use Rattle.php_memdef.specs.Operations.{Can, run, effect, cost};
ghost use Rattle.php_memdef.specs.Meanings.{SomeMeant, Keeps, Does, Answers, MakesAtMost};
ghost use Rattle.php_memplain_cells.specs.Seen.{item_seen};
ghost use Rattle.php_memplain_cells.specs.Memory.{memory_seen};
ghost use Rattle.php_memplain.specs.Means.{Means, made_of};

use crate::memory::MemPlain;
use php_base::NoMemory;
use php_memdef::{Block, Place, Read};
use php_memplain_blocks as moves;
use php_memplain_cells::{Cells, Item};
use php_memplain_content::copy_content;
use php_memplain_places::{Spot, find, temp_at};

fn store_of_link(item: &Item) -> usize
    requires { (s : ℕ) × (item_seen item.now ≡ link s) }
    ensures { item_seen item.now ≡ link result }
{
    match item {
        Item::Link(store) => *store,
        Item::Value(_) => unreachable!(),
    }
}

// The store of the link on top of a block.
fn top_link(cells: &Cells, block: usize) -> usize
    requires { HasLinkOnTop (memory_seen cells.now) block }
    ensures { nth_item (scope_of (memory_seen cells.now) block).temps 0 ≡ Some (link result) }
{
    let Some(item) = temp_at(cells, block, 0) else {
        unreachable!();
    };
    store_of_link(item)
}

impl MemPlain {
    /// Pushes a copy of what the place holds. Where the place is missing nothing is pushed.
    pub fn copy(&mut self, block: Block, from: &Place) -> Result<Read, NoMemory>
        requires { SomeMeant (Means self.old) (Can (op.copy block.0 from.now)) }
        ensures ok { IfOk result (λ r. Answers (Means self.old) (Means self.new) r (run (op.copy block.0 from.now))) }
        ensures no_memory { OnErr result (Keeps (Means self.old) (Means self.new)) }
        ensures made { MakesAtMost false (Means self.old) (made_of self.old) (made_of self.new) (cost (op.copy block.0 from.now)) }
    {
        let Some(spot) = find(&self.cells, from) else {
            return Ok(Read::Absent);
        };
        match copy_content(&mut self.cells, spot) {
            Ok(content) => {
                moves::push(&mut self.cells, block.0, Item::Value(content));
                Ok(Read::Found)
            }
            Err(_) => Err(NoMemory),
        }
    }

    /// Puts a copy of what its store holds in the place of the link on top, and lets the link fall.
    pub fn settle(&mut self, block: Block) -> Result<(), NoMemory>
        requires { SomeMeant (Means self.old) (Can (op.settle block.0)) }
        ensures ok { IfOk result (λ _. Does (Means self.old) (Means self.new) (effect (op.settle block.0))) }
        ensures no_memory { OnErr result (Keeps (Means self.old) (Means self.new)) }
        ensures made { MakesAtMost false (Means self.old) (made_of self.old) (made_of self.new) (cost (op.settle block.0)) }
    {
        let store = top_link(&self.cells, block.0);
        match copy_content(&mut self.cells, Spot::Stored(store)) {
            Ok(content) => {
                let link = moves::swap(&mut self.cells, block.0, Item::Value(content));
                moves::fall(&mut self.cells, block.0, link);
                Ok(())
            }
            Err(_) => Err(NoMemory),
        }
    }
}
