// What every memory does.
ghost use Rattle.std.specs.Prelude.{◌≡◌, ◌≤◌, ℕ, Bool, Some, IfOk, IfErr, OnErr, option_copied, option_map};
ghost use Rattle.php_memdef.specs.Contents.{Mem};
ghost use Rattle.php_memdef.specs.Holders.{vslots};
ghost use Rattle.php_memdef.specs.Objects as objects;
ghost use Rattle.php_memdef.specs.Views.{Shows, found, later_entry, is_aliased, is_link, steps_met, end_met, temps_count};
ghost use Rattle.php_memdef.specs.Conditions.{IsBlock, IsObject, IsPlace};
ghost use Rattle.php_memdef.specs.Operations as op;
ghost use Rattle.php_memdef.specs.Operations.{Can, run, effect, cost};
ghost use Rattle.php_memdef.specs.Sound.{IsSound};
ghost use Rattle.php_memdef.specs.Meanings.{SomeMeant, EachMeant, Keeps, Does, Answers, Enters, MakesNone, MakesAtMost};

use crate::answer::{Fallen, Met, NoObject, Peek, Read, Wrote};
use crate::names::{Block, Name, Obj};
use crate::place::{Place, PropName};
use php_base::NoMemory;
use php_value::{Key, Scalar};

/// A memory of variables, temporaries, objects and what they hold.
///
/// Which memory of the model it is can be told only up to the numbers of stores, so it *means* many.
/// A call may be made where one of them meets its condition; its effect holds of each of them. An
/// answer for want of memory leaves every meaning as it was.
pub trait Memory {
    /// The memories of the model that this one can be taken for.
    ghost means: { Self → Mem → Type 0 };

    /// The count of array entries that were really made.
    ghost made_of: { Self → ℕ };

    /// Whether it makes no more entries than the writes call for.
    ghost frugal: { Bool };

    /// Makes an empty block with room for so many temporaries, and for as many falling items.
    fn enter(&mut self, temps: usize) -> Result<Block, NoMemory>
        ensures ok { IfOk result (λ b. Enters (means self.old) (means self.new) b.0 temps) }
        ensures no_memory { OnErr result (Keeps (means self.old) (means self.new)) }
        ensures made { MakesAtMost frugal (means self.old) (made_of self.old) (made_of self.new) (λ m. 0) };

    /// Removes an empty block.
    fn leave(&mut self, block: Block)
        requires { SomeMeant (means self.old) (Can (op.leave block.0)) }
        ensures effect { Does (means self.old) (means self.new) (effect (op.leave block.0)) }
        ensures made { MakesAtMost frugal (means self.old) (made_of self.old) (made_of self.new) (cost (op.leave block.0)) };

    /// Pushes a temporary.
    fn push(&mut self, block: Block, value: Scalar)
        requires { SomeMeant (means self.old) (Can (op.push block.0 value)) }
        ensures effect { Does (means self.old) (means self.new) (effect (op.push block.0 value)) }
        ensures made { MakesAtMost frugal (means self.old) (made_of self.old) (made_of self.new) (cost (op.push block.0 value)) };

    /// Pushes an array without elements.
    fn push_array(&mut self, block: Block) -> Result<(), NoMemory>
        requires { SomeMeant (means self.old) (Can (op.push_array block.0)) }
        ensures ok { IfOk result (λ _. Does (means self.old) (means self.new) (effect (op.push_array block.0))) }
        ensures no_memory { OnErr result (Keeps (means self.old) (means self.new)) }
        ensures made { MakesAtMost frugal (means self.old) (made_of self.old) (made_of self.new) (cost (op.push_array block.0)) };

    /// Pushes the handle of an object.
    fn push_object(&mut self, block: Block, obj: Obj)
        requires { SomeMeant (means self.old) (Can (op.push_object block.0 obj.0)) }
        ensures effect { Does (means self.old) (means self.new) (effect (op.push_object block.0 obj.0)) }
        ensures made { MakesAtMost frugal (means self.old) (made_of self.old) (made_of self.new) (cost (op.push_object block.0 obj.0)) };

    /// Pushes a copy of what the place holds. Where the place is missing nothing is pushed.
    fn copy(&mut self, block: Block, from: &Place) -> Result<Read, NoMemory>
        requires { SomeMeant (means self.old) (Can (op.copy block.0 from.now)) }
        ensures ok { IfOk result (λ r. Answers (means self.old) (means self.new) r (run (op.copy block.0 from.now))) }
        ensures no_memory { OnErr result (Keeps (means self.old) (means self.new)) }
        ensures made { MakesAtMost frugal (means self.old) (made_of self.old) (made_of self.new) (cost (op.copy block.0 from.now)) };

    /// Moves the top temporary into the place, and lets what the place held fall. Every answer but
    /// `Done` leaves the temporary where it is.
    fn assign(&mut self, block: Block, to: &Place) -> Result<Wrote, NoMemory>
        requires { SomeMeant (means self.old) (Can (op.assign block.0 to.now)) }
        ensures ok { IfOk result (λ r. Answers (means self.old) (means self.new) r (run (op.assign block.0 to.now))) }
        ensures no_memory { OnErr result (Keeps (means self.old) (means self.new)) }
        ensures made { MakesAtMost frugal (means self.old) (made_of self.old) (made_of self.new) (cost (op.assign block.0 to.now)) };

    /// Pushes a link to the place's store.
    fn link(&mut self, block: Block, from: &Place) -> Result<Wrote, NoMemory>
        requires { SomeMeant (means self.old) (Can (op.link block.0 from.now)) }
        ensures ok { IfOk result (λ r. Answers (means self.old) (means self.new) r (run (op.link block.0 from.now))) }
        ensures no_memory { OnErr result (Keeps (means self.old) (means self.new)) }
        ensures made { MakesAtMost frugal (means self.old) (made_of self.old) (made_of self.new) (cost (op.link block.0 from.now)) };

    /// Moves the link on top into the place, which points to the link's store from then on. The
    /// store that it pointed to before falls. Every answer but `Done` leaves the link where it is.
    fn bind(&mut self, block: Block, to: &Place) -> Result<Wrote, NoMemory>
        requires { SomeMeant (means self.old) (Can (op.bind block.0 to.now)) }
        ensures ok { IfOk result (λ r. Answers (means self.old) (means self.new) r (run (op.bind block.0 to.now))) }
        ensures no_memory { OnErr result (Keeps (means self.old) (means self.new)) }
        ensures made { MakesAtMost frugal (means self.old) (made_of self.old) (made_of self.new) (cost (op.bind block.0 to.now)) };

    /// Puts a copy of what its store holds in the place of the link on top, and lets the link fall.
    fn settle(&mut self, block: Block) -> Result<(), NoMemory>
        requires { SomeMeant (means self.old) (Can (op.settle block.0)) }
        ensures ok { IfOk result (λ _. Does (means self.old) (means self.new) (effect (op.settle block.0))) }
        ensures no_memory { OnErr result (Keeps (means self.old) (means self.new)) }
        ensures made { MakesAtMost frugal (means self.old) (made_of self.old) (made_of self.new) (cost (op.settle block.0)) };

    /// Moves the top temporary of one block to the top of another.
    fn pass(&mut self, from: Block, to: Block)
        requires { SomeMeant (means self.old) (Can (op.pass from.0 to.0)) }
        ensures effect { Does (means self.old) (means self.new) (effect (op.pass from.0 to.0)) }
        ensures made { MakesAtMost frugal (means self.old) (made_of self.old) (made_of self.new) (cost (op.pass from.0 to.0)) };

    /// Puts the so many top temporaries in reverse order.
    fn turn(&mut self, block: Block, count: usize)
        requires { SomeMeant (means self.old) (Can (op.turn block.0 count)) }
        ensures effect { Does (means self.old) (means self.new) (effect (op.turn block.0 count)) }
        ensures made { MakesAtMost frugal (means self.old) (made_of self.old) (made_of self.new) (cost (op.turn block.0 count)) };

    /// Makes room for so many more temporaries and falling items in the block.
    fn reserve(&mut self, block: Block, more: usize) -> Result<(), NoMemory>
        requires { SomeMeant (means self.old) (Can (op.reserve block.0 more)) }
        ensures ok { IfOk result (λ _. Does (means self.old) (means self.new) (effect (op.reserve block.0 more))) }
        ensures no_memory { OnErr result (Keeps (means self.old) (means self.new)) }
        ensures made { MakesAtMost frugal (means self.old) (made_of self.old) (made_of self.new) (cost (op.reserve block.0 more)) };

    /// Moves the text on top behind the text at the place, as an assignment of both together would.
    fn append(&mut self, block: Block, to: &Place) -> Result<(), NoMemory>
        requires { SomeMeant (means self.old) (Can (op.append block.0 to.now)) }
        ensures ok { IfOk result (λ _. Does (means self.old) (means self.new) (effect (op.append block.0 to.now))) }
        ensures no_memory { OnErr result (Keeps (means self.old) (means self.new)) }
        ensures made { MakesAtMost frugal (means self.old) (made_of self.old) (made_of self.new) (cost (op.append block.0 to.now)) };

    /// Removes the variable, property or element at the place, where there is one, and lets its
    /// store fall.
    fn unset(&mut self, block: Block, at: &Place) -> Result<(), NoMemory>
        requires { SomeMeant (means self.old) (Can (op.unset block.0 at.now)) }
        ensures ok { IfOk result (λ _. Does (means self.old) (means self.new) (effect (op.unset block.0 at.now))) }
        ensures no_memory { OnErr result (Keeps (means self.old) (means self.new)) }
        ensures made { MakesAtMost frugal (means self.old) (made_of self.old) (made_of self.new) (cost (op.unset block.0 at.now)) };

    /// Removes the last element of the array at the place, where there is one, and lets its store
    /// fall. The array's next key gives back the key that the element had.
    fn unset_last(&mut self, block: Block, at: &Place) -> Result<(), NoMemory>
        requires { SomeMeant (means self.old) (Can (op.unset_last block.0 at.now)) }
        ensures ok { IfOk result (λ _. Does (means self.old) (means self.new) (effect (op.unset_last block.0 at.now))) }
        ensures no_memory { OnErr result (Keeps (means self.old) (means self.new)) }
        ensures made { MakesAtMost frugal (means self.old) (made_of self.old) (made_of self.new) (cost (op.unset_last block.0 at.now)) };

    /// Removes a variable of the block, where it is there, and lets its store fall.
    fn forget(&mut self, block: Block, name: Name)
        requires { SomeMeant (means self.old) (Can (op.forget block.0 name.0)) }
        ensures effect { Does (means self.old) (means self.new) (effect (op.forget block.0 name.0)) }
        ensures made { MakesAtMost frugal (means self.old) (made_of self.old) (made_of self.new) (cost (op.forget block.0 name.0)) };

    /// Removes the oldest variable of the block and lets its store fall. It answers false exactly
    /// where the block has no variable.
    fn shed(&mut self, block: Block) -> bool
        requires { SomeMeant (means self.old) (Can (op.shed block.0)) }
        ensures effect { Answers (means self.old) (means self.new) result (run (op.shed block.0)) }
        ensures made { MakesAtMost frugal (means self.old) (made_of self.old) (made_of self.new) (cost (op.shed block.0)) };

    /// Lets the top temporary fall.
    fn drop_top(&mut self, block: Block)
        requires { SomeMeant (means self.old) (Can (op.drop_top block.0)) }
        ensures effect { Does (means self.old) (means self.new) (effect (op.drop_top block.0)) }
        ensures made { MakesAtMost frugal (means self.old) (made_of self.old) (made_of self.new) (cost (op.drop_top block.0)) };

    /// Releases what has fallen in the block, first item first, until nothing is left, a destructor
    /// is due or a generator's frame is to be released.
    fn fall(&mut self, block: Block) -> Fallen
        requires { SomeMeant (means self.old) (Can (op.fall block.0)) }
        ensures effect { Answers (means self.old) (means self.new) result (run (op.fall block.0)) }
        ensures made { MakesAtMost frugal (means self.old) (made_of self.old) (made_of self.new) (cost (op.fall block.0)) };

    /// Makes an object without properties, whose handle comes on top. It answers `Limit` exactly
    /// where all object numbers are used up.
    fn object(&mut self, block: Block, class: u32, finishing: bool) -> Result<Obj, NoObject>
        requires { SomeMeant (means self.old) (Can (op.make_object block.0 class finishing)) }
        ensures ok { IfOk result (λ obj. Answers (means self.old) (means self.new) (Some obj.0) (run (op.make_object block.0 class finishing))) }
        ensures refused { IfErr result (λ why. MakesNone (means self.old) (means self.new) why (run (op.make_object block.0 class finishing))) }
        ensures made { MakesAtMost frugal (means self.old) (made_of self.old) (made_of self.new) (cost (op.make_object block.0 class finishing)) };

    /// Puts the handle of a clone in the place of the handle on top, which falls. The properties are
    /// copied as elements of arrays are. It answers `Limit` as `object` does.
    fn clone_object(&mut self, block: Block) -> Result<Obj, NoObject>
        requires { SomeMeant (means self.old) (Can (op.clone_object block.0)) }
        ensures ok { IfOk result (λ obj. Answers (means self.old) (means self.new) (Some obj.0) (run (op.clone_object block.0))) }
        ensures refused { IfErr result (λ why. MakesNone (means self.old) (means self.new) why (run (op.clone_object block.0))) }
        ensures made { MakesAtMost frugal (means self.old) (made_of self.old) (made_of self.new) (cost (op.clone_object block.0)) };

    /// The object has a destructor that is to be run from now on.
    fn finish(&mut self, obj: Obj)
        requires { SomeMeant (means self.old) (Can (op.finish obj.0)) }
        ensures effect { Does (means self.old) (means self.new) (effect (op.finish obj.0)) }
        ensures made { MakesAtMost frugal (means self.old) (made_of self.old) (made_of self.new) (cost (op.finish obj.0)) };

    /// The object's destructor counts as run.
    fn spare(&mut self, obj: Obj)
        requires { SomeMeant (means self.old) (Can (op.spare obj.0)) }
        ensures effect { Does (means self.old) (means self.new) (effect (op.spare obj.0)) }
        ensures made { MakesAtMost frugal (means self.old) (made_of self.old) (made_of self.new) (cost (op.spare obj.0)) };

    /// The frame of a generator that waits in the object, or none.
    fn attach(&mut self, obj: Obj, frame: Option<Block>)
        requires { SomeMeant (means self.old) (Can (op.attach obj.0 (option_map (λ b. b.0) frame))) }
        ensures effect { Does (means self.old) (means self.new) (effect (op.attach obj.0 (option_map (λ b. b.0) frame))) }
        ensures made { MakesAtMost frugal (means self.old) (made_of self.old) (made_of self.new) (cost (op.attach obj.0 (option_map (λ b. b.0) frame))) };

    /// What the place holds.
    fn peek(&self, at: &Place) -> Peek<'_>
        requires { SomeMeant (means self.now) (λ m. IsPlace m at.now) }
        ensures { EachMeant (means self.now) (λ m. Shows result (found m at.now)) };

    /// Birth serial and key of the first entry with a greater serial in the array at the place, where
    /// the place holds an array with such an entry. Serials begin at 1.
    fn entry_after(&self, at: &Place, serial: u64) -> Option<(u64, &Key)>
        requires { SomeMeant (means self.now) (λ m. IsPlace m at.now) }
        ensures { EachMeant (means self.now) (λ m. option_map (λ e. (e.0, e.1.now)) result ≡ later_entry m at.now serial) };

    /// As `entry_after`, for a walk that keeps a hint of where in the array it is. The call sets the
    /// hint; any number is right, 0 at first, and the answer doesn't depend on it.
    fn entry_after_near(&self, at: &Place, serial: u64, near: &mut usize) -> Option<(u64, &Key)>
        requires { SomeMeant (means self.now) (λ m. IsPlace m at.now) }
        ensures { EachMeant (means self.now) (λ m. option_map (λ e. (e.0, e.1.now)) result ≡ later_entry m at.now serial) };

    /// How many steps of the path lead somewhere, and what stands where they end.
    fn meets(&self, at: &Place) -> Met<'_>
        requires { SomeMeant (means self.now) (λ m. IsPlace m at.now) }
        ensures steps { EachMeant (means self.now) (λ m. result.steps ≡ steps_met m at.now) }
        ensures end { EachMeant (means self.now) (λ m. Shows result.end (end_met m at.now)) };

    /// Whether the temporary of this depth, the top at 0, is there and is a link.
    fn is_link(&self, block: Block, depth: usize) -> bool
        requires { SomeMeant (means self.now) (λ m. IsBlock m block.0) }
        ensures { EachMeant (means self.now) (λ m. result ≡ is_link m block.0 depth) };

    /// Whether the place has a store that something else points to as well.
    fn aliased(&self, at: &Place) -> bool
        requires { SomeMeant (means self.now) (λ m. IsPlace m at.now) }
        ensures { EachMeant (means self.now) (λ m. result ≡ is_aliased m at.now) };

    /// The number of the block's temporaries.
    fn temps(&self, block: Block) -> usize
        requires { SomeMeant (means self.now) (λ m. IsBlock m block.0) }
        ensures { EachMeant (means self.now) (λ m. result ≡ temps_count m block.0) };

    /// The number of the object's class.
    fn class_of(&self, obj: Obj) -> u32
        requires { SomeMeant (means self.now) (λ m. IsObject m obj.0) }
        ensures { EachMeant (means self.now) (λ m. result ≡ objects.class_of m obj.0) };

    /// The name of the object's property of that place in the order of making, the first one at 0,
    /// where there are so many.
    fn prop_at(&self, obj: Obj, place: usize) -> Option<&PropName>
        requires { SomeMeant (means self.now) (λ m. IsObject m obj.0) }
        ensures { EachMeant (means self.now) (λ m. option_copied result ≡ objects.property_name m obj.0 place) };

    /// The oldest object whose destructor is to be run and wasn't.
    fn eldest(&self) -> Option<Obj>
        ensures { EachMeant (means self.now) (λ m. option_map (λ h. h.0) result ≡ objects.eldest m) };

    /// The number of entries of arrays and of properties that stand in it, however they are shared.
    /// It is at most the number that the model's memory has.
    fn slots(&self) -> u64
        ensures { EachMeant (means self.now) (λ m. result ≤ vslots m) };

    /// The count of array entries that were really made. It stops at the greatest value of its type.
    fn made(&self) -> u64
        ensures { result ≡ made_of self.now };

    /// Each memory of the model that it can be taken for is sound.
    ghost meant_is_sound: { (s : Self) (m : Mem) → means s m → IsSound m };
}
