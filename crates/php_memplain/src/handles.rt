// Objects that are made or cloned, and their handles on top of a block.
ghost use Rattle.std.specs.Prelude.{◌≡◌, false, Some, IfOk, IfErr};
ghost use Rattle.php_memdef.specs.Operations as op;
ghost use Rattle.php_memdef.specs.Operations.{Can, run, effect, cost};
ghost use Rattle.php_memdef.specs.Meanings.{SomeMeant, Does, Answers, MakesNone, MakesAtMost};
ghost use Rattle.php_memplain.specs.Means.{Means, made_of};

use crate::memory::MemPlain;
use php_memdef::{Block, NoObject, Obj};
use php_memplain_blocks as moves;
use php_memplain_cells::{Content, Item};
use php_memplain_objects::{clone_top, hold, make_object};

impl MemPlain {
    /// Pushes the handle of an object.
    pub fn push_object(&mut self, block: Block, obj: Obj)
        requires { SomeMeant (Means self.old) (Can (op.push_object block.0 obj.0)) }
        ensures effect { Does (Means self.old) (Means self.new) (effect (op.push_object block.0 obj.0)) }
        ensures made { MakesAtMost false (Means self.old) (made_of self.old) (made_of self.new) (cost (op.push_object block.0 obj.0)) }
    {
        hold(&mut self.cells, obj.0);
        moves::push(
            &mut self.cells,
            block.0,
            Item::Value(Content::Object(obj.0)),
        );
    }

    /// Makes an object without properties, whose handle comes on top. It answers `Limit` exactly
    /// where all object numbers are used up.
    pub fn object(&mut self, block: Block, class: u32, finishing: bool) -> Result<Obj, NoObject>
        requires { SomeMeant (Means self.old) (Can (op.make_object block.0 class finishing)) }
        ensures ok { IfOk result (λ obj. Answers (Means self.old) (Means self.new) (Some obj.0) (run (op.make_object block.0 class finishing))) }
        ensures refused { IfErr result (λ why. MakesNone (Means self.old) (Means self.new) why (run (op.make_object block.0 class finishing))) }
        ensures made { MakesAtMost false (Means self.old) (made_of self.old) (made_of self.new) (cost (op.make_object block.0 class finishing)) }
    {
        match make_object(&mut self.cells, class, finishing) {
            Ok(number) => {
                moves::push(
                    &mut self.cells,
                    block.0,
                    Item::Value(Content::Object(number)),
                );
                Ok(Obj(number))
            }
            Err(_) => Err(NoObject::NoMemory),
        }
    }

    /// Puts the handle of a clone in the place of the handle on top, which falls. The properties are
    /// copied as elements of arrays are. It answers `Limit` as `object` does.
    pub fn clone_object(&mut self, block: Block) -> Result<Obj, NoObject>
        requires { SomeMeant (Means self.old) (Can (op.clone_object block.0)) }
        ensures ok { IfOk result (λ obj. Answers (Means self.old) (Means self.new) (Some obj.0) (run (op.clone_object block.0))) }
        ensures refused { IfErr result (λ why. MakesNone (Means self.old) (Means self.new) why (run (op.clone_object block.0))) }
        ensures made { MakesAtMost false (Means self.old) (made_of self.old) (made_of self.new) (cost (op.clone_object block.0)) }
    {
        match clone_top(&mut self.cells, block.0) {
            Ok(number) => Ok(Obj(number)),
            Err(_) => Err(NoObject::NoMemory),
        }
    }
}
