// Changes of one object that leave its properties.
ghost use Rattle.std.specs.Prelude.{◌≡◌, ◌<◌, false, length, option_map};
ghost use Rattle.php_memdef.specs.Operations as op;
ghost use Rattle.php_memdef.specs.Operations.{Can, effect, cost};
ghost use Rattle.php_memdef.specs.Meanings.{SomeMeant, Does, MakesAtMost};
ghost use Rattle.php_memplain_cells.specs.Seen.{object_seen, objects_seen};
ghost use Rattle.php_memplain_cells.specs.Counts.{count_of_object, AreSameHandles};
ghost use Rattle.php_memplain.specs.Changes.{changed, changed_at};
ghost use Rattle.php_memplain.specs.Means.{Means, made_of};

use crate::memory::MemPlain;
use php_memdef::{Block, Obj};
use php_memplain_cells::Object;

/// What is changed of an object.
#[derive(Clone, Copy)]
pub enum Change {
    Finishing,
    Spent,
    Frame(Option<usize>),
}

fn alter(object: &mut Object, what: Change)
    ensures seen { object_seen object.new ≡ changed what (object_seen object.old) }
    ensures holders { object.new.holders ≡ object.old.holders }
{
    match what {
        Change::Finishing => object.finishing = true,
        Change::Spent => object.spent = true,
        Change::Frame(frame) => object.frame = frame,
    }
}

// Changes the object of a number.
fn change_object(objects: &mut Vec<Option<Box<Object>>>, number: u64, what: Change)
    requires { 0 < count_of_object objects.old.items number }
    ensures seen { objects_seen objects.new.items ≡ changed_at what (objects_seen objects.old.items) number }
    ensures holders { AreSameHandles objects.old.items objects.new.items }
    ensures len { length objects.new.items ≡ length objects.old.items }
{
    let place = (number - 1) as usize;
    let Some(mut object) = objects[place].take() else {
        unreachable!();
    };
    alter(&mut object, what);
    objects[place] = Some(object);
}

fn number_of(frame: Option<Block>) -> Option<usize>
    ensures { result ≡ option_map (λ b. b.0) frame }
{
    match frame {
        Some(block) => Some(block.0),
        None => None,
    }
}

impl MemPlain {
    /// The object has a destructor that is to be run from now on.
    pub fn finish(&mut self, obj: Obj)
        requires { SomeMeant (Means self.old) (Can (op.finish obj.0)) }
        ensures effect { Does (Means self.old) (Means self.new) (effect (op.finish obj.0)) }
        ensures made { MakesAtMost false (Means self.old) (made_of self.old) (made_of self.new) (cost (op.finish obj.0)) }
    {
        change_object(&mut self.cells.objects, obj.0, Change::Finishing);
    }

    /// The object's destructor counts as run.
    pub fn spare(&mut self, obj: Obj)
        requires { SomeMeant (Means self.old) (Can (op.spare obj.0)) }
        ensures effect { Does (Means self.old) (Means self.new) (effect (op.spare obj.0)) }
        ensures made { MakesAtMost false (Means self.old) (made_of self.old) (made_of self.new) (cost (op.spare obj.0)) }
    {
        change_object(&mut self.cells.objects, obj.0, Change::Spent);
    }

    /// The frame of a generator that waits in the object, or none.
    pub fn attach(&mut self, obj: Obj, frame: Option<Block>)
        requires { SomeMeant (Means self.old) (Can (op.attach obj.0 (option_map (λ b. b.0) frame))) }
        ensures effect { Does (Means self.old) (Means self.new) (effect (op.attach obj.0 (option_map (λ b. b.0) frame))) }
        ensures made { MakesAtMost false (Means self.old) (made_of self.old) (made_of self.new) (cost (op.attach obj.0 (option_map (λ b. b.0) frame))) }
    {
        let number = number_of(frame);
        change_object(&mut self.cells.objects, obj.0, Change::Frame(number));
    }
}
