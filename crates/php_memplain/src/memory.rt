// The calls of a memory that copies at once.
ghost use Rattle.std.specs.Prelude.{◌≡◌, false, IfOk, OnErr};
ghost use Rattle.php_memdef.specs.Contents.{fresh};
ghost use Rattle.php_memdef.specs.Operations as op;
ghost use Rattle.php_memdef.specs.Operations.{Can, run, effect, cost};
ghost use Rattle.php_memdef.specs.Meanings.{SomeMeant, EachMeant, Keeps, Does, Answers, Enters, MakesAtMost};
ghost use Rattle.php_memdef.specs.Conditions.{IsBlock};
ghost use Rattle.php_memdef.specs.Views.{temps_count};
ghost use Rattle.php_memdef.specs.Temporaries.{content_of_scalar};
ghost use Rattle.php_memplain_cells.specs.Seen.{content_seen};
ghost use Rattle.php_memplain.specs.Means.{Means, made_of};

use php_array::Entries;
use php_base::{Ledger, NoMemory};
use php_chain::Link;
use php_memdef::{Block, Fallen};
use php_memplain_blocks as moves;
use php_memplain_blocks::{new_block, reserve_room, shed_variable};
use php_memplain_cells::{Cells, Content, Item};
use php_value::Scalar;
use slab::Slab;
use std::alloc::Global;

/// Variables, temporaries, objects and what they hold, each array by itself.
#[derive(Drop)]
pub struct MemPlain {
    pub(crate) cells: Cells,
}

fn content_of(value: Scalar) -> Content
    ensures { content_seen result ≡ content_of_scalar value }
{
    match value {
        Scalar::Null => Content::Null,
        Scalar::Bool(truth) => Content::Bool(truth),
        Scalar::Int(number) => Content::Int(number),
        Scalar::Str(text) => Content::Str(text),
    }
}

impl MemPlain {
    /// A memory in which nothing was made yet.
    pub fn new(alloc: Global) -> MemPlain
        ensures fresh { Means result fresh }
        ensures made { made_of result ≡ 0 }
    {
        MemPlain {
            cells: Cells {
                alloc,
                stores: Slab::new(alloc),
                objects: Vec::new(alloc),
                blocks: Slab::new(alloc),
                statics: Vec::new(alloc),
                ledger: Ledger { made: 0 },
            },
        }
    }

    /// Makes an empty block with room for so many temporaries, and for as many falling items.
    pub fn enter(&mut self, temps: usize) -> Result<Block, NoMemory>
        ensures ok { IfOk result (λ b. Enters (Means self.old) (Means self.new) b.0 temps) }
        ensures no_memory { OnErr result (Keeps (Means self.old) (Means self.new)) }
        ensures made { MakesAtMost false (Means self.old) (made_of self.old) (made_of self.new) (λ m. 0) }
    {
        let block = new_block(self.cells.alloc, temps)?;
        let Ok(key) = self.cells.blocks.insert(block) else {
            return Err(NoMemory);
        };
        Ok(Block(key))
    }

    /// Removes an empty block.
    pub fn leave(&mut self, block: Block)
        requires { SomeMeant (Means self.old) (Can (op.leave block.0)) }
        ensures effect { Does (Means self.old) (Means self.new) (effect (op.leave block.0)) }
        ensures made { MakesAtMost false (Means self.old) (made_of self.old) (made_of self.new) (cost (op.leave block.0)) }
    {
        let _left = self.cells.blocks.remove(block.0);
    }

    /// Makes room for so many more temporaries and falling items in the block.
    pub fn reserve(&mut self, block: Block, more: usize) -> Result<(), NoMemory>
        requires { SomeMeant (Means self.old) (Can (op.reserve block.0 more)) }
        ensures ok { IfOk result (λ _. Does (Means self.old) (Means self.new) (effect (op.reserve block.0 more))) }
        ensures no_memory { OnErr result (Keeps (Means self.old) (Means self.new)) }
        ensures made { MakesAtMost false (Means self.old) (made_of self.old) (made_of self.new) (cost (op.reserve block.0 more)) }
    {
        let Ok(()) = reserve_room(&mut self.cells.blocks[block.0], more) else {
            return Err(NoMemory);
        };
        Ok(())
    }

    /// Removes the oldest variable of the block and lets its store fall. It answers false exactly
    /// where the block has no variable.
    pub fn shed(&mut self, block: Block) -> bool
        requires { SomeMeant (Means self.old) (Can (op.shed block.0)) }
        ensures effect { Answers (Means self.old) (Means self.new) result (run (op.shed block.0)) }
        ensures made { MakesAtMost false (Means self.old) (made_of self.old) (made_of self.new) (cost (op.shed block.0)) }
    {
        shed_variable(&mut self.cells.blocks[block.0])
    }

    /// The number of the block's temporaries.
    pub fn temps(&self, block: Block) -> usize
        requires { SomeMeant (Means self.now) (λ m. IsBlock m block.0) }
        ensures { EachMeant (Means self.now) (λ m. result ≡ temps_count m block.0) }
    {
        self.cells.blocks[block.0].temps.len()
    }

    /// The count of array entries that were really made. It stops at the greatest value of its type.
    pub fn made(&self) -> u64
        ensures { result ≡ made_of self.now }
    {
        self.cells.ledger.made
    }

    /// Pushes an array without elements.
    pub fn push_array(&mut self, block: Block) -> Result<(), NoMemory>
        requires { SomeMeant (Means self.old) (Can (op.push_array block.0)) }
        ensures ok { IfOk result (λ _. Does (Means self.old) (Means self.new) (effect (op.push_array block.0))) }
        ensures no_memory { OnErr result (Keeps (Means self.old) (Means self.new)) }
        ensures made { MakesAtMost false (Means self.old) (made_of self.old) (made_of self.new) (cost (op.push_array block.0)) }
    {
        let link = Link::new(self.cells.alloc)?;
        let array = Content::Array(Entries::new(self.cells.alloc), link);
        moves::push(&mut self.cells, block.0, Item::Value(array));
        Ok(())
    }

    /// Pushes a temporary.
    pub fn push(&mut self, block: Block, value: Scalar)
        requires { SomeMeant (Means self.old) (Can (op.push block.0 value)) }
        ensures effect { Does (Means self.old) (Means self.new) (effect (op.push block.0 value)) }
        ensures made { MakesAtMost false (Means self.old) (made_of self.old) (made_of self.new) (cost (op.push block.0 value)) }
    {
        let content = content_of(value);
        moves::push(&mut self.cells, block.0, Item::Value(content));
    }

    /// Moves the top temporary of one block to the top of another.
    pub fn pass(&mut self, from: Block, to: Block)
        requires { SomeMeant (Means self.old) (Can (op.pass from.0 to.0)) }
        ensures effect { Does (Means self.old) (Means self.new) (effect (op.pass from.0 to.0)) }
        ensures made { MakesAtMost false (Means self.old) (made_of self.old) (made_of self.new) (cost (op.pass from.0 to.0)) }
    {
        let item = moves::pop(&mut self.cells, from.0);
        moves::push(&mut self.cells, to.0, item);
    }

    /// Lets the top temporary fall.
    pub fn drop_top(&mut self, block: Block)
        requires { SomeMeant (Means self.old) (Can (op.drop_top block.0)) }
        ensures effect { Does (Means self.old) (Means self.new) (effect (op.drop_top block.0)) }
        ensures made { MakesAtMost false (Means self.old) (made_of self.old) (made_of self.new) (cost (op.drop_top block.0)) }
    {
        let item = moves::pop(&mut self.cells, block.0);
        moves::fall(&mut self.cells, block.0, item);
    }

    /// Releases what has fallen in the block, first item first, until nothing is left, a destructor
    /// is due or a generator's frame is to be released.
    pub fn fall(&mut self, block: Block) -> Fallen
        requires { SomeMeant (Means self.old) (Can (op.fall block.0)) }
        ensures effect { Answers (Means self.old) (Means self.new) result (run (op.fall block.0)) }
        ensures made { MakesAtMost false (Means self.old) (made_of self.old) (made_of self.new) (cost (op.fall block.0)) }
    {
        self.cells.fall(block.0)
    }
}
