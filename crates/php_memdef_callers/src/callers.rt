// Code over any memory.
ghost use Rattle.std.specs.Prelude.{◌≡◌, IfOk};
ghost use Rattle.php_value.specs.declared.scalar.Scalar.TheVariants.{Int};
ghost use Rattle.php_memdef.specs.Meanings.{SomeMeant, EachMeant, Does, Answers};
ghost use Rattle.php_memdef.specs.Conditions.{IsPlace, CanPushArray};
ghost use Rattle.php_memdef.specs.Temporaries as temporaries;
ghost use Rattle.php_memdef.specs.Views.{found};
ghost use Rattle.php_memdef_callers.specs.Assignments.{assigned_and_read, assigned_or_dropped, all_assigned, made_and_dropped, CanAssignAndRead, CanAssignOrDrop, CanAssignAll, CanMakeAndDrop, entries_of};

use php_base::NoMemory;
use php_memdef::{Block, Fallen, Memory, NoObject, Peek, Place, Read, Wrote};
use php_value::Scalar;

/// Assigns a value to a place, and pushes a copy of what stands there then. A value that can't be
/// assigned stays below.
pub fn assign_and_read<M: Memory>(
    memory: &mut M,
    block: Block,
    value: Scalar,
    to: &Place,
) -> Result<(Wrote, Read), NoMemory>
    requires { SomeMeant (M.means memory.old) (CanAssignAndRead block.0 value to.now) }
    ensures { IfOk result (λ r. Answers (M.means memory.old) (M.means memory.new) r (λ m. assigned_and_read m block.0 value to.now)) }
{
    memory.push(block, value);
    let wrote = memory.assign(block, to)?;
    let read = memory.copy(block, to)?;
    Ok((wrote, read))
}

/// Assigns a value to a place, or lets it fall where the place can't take it, and says which.
pub fn assign_or_drop<M: Memory>(
    memory: &mut M,
    block: Block,
    value: Scalar,
    to: &Place,
) -> Result<bool, NoMemory>
    requires { SomeMeant (M.means memory.old) (CanAssignOrDrop block.0 value to.now) }
    ensures { IfOk result (λ r. Answers (M.means memory.old) (M.means memory.new) r (λ m. assigned_or_dropped m block.0 value to.now)) }
{
    memory.push(block, value);
    match memory.assign(block, to)? {
        Wrote::Done => Ok(true),
        Wrote::NotArray | Wrote::Full | Wrote::Limit => {
            memory.drop_top(block);
            Ok(false)
        }
    }
}

/// Pushes an int. Any `i64` is one that a memory takes.
pub fn push_number<M: Memory>(memory: &mut M, block: Block, number: i64)
    requires { SomeMeant (M.means memory.old) (CanPushArray block.0) }
    ensures { Does (M.means memory.old) (M.means memory.new) (λ m. temporaries.push m block.0 (Int number)) }
{
    memory.push(block, Scalar::Int(number));
}

/// Makes an object whose destructor is to be run and lets its only handle fall. It answers what the
/// release of it stops for.
pub fn object_dropped<M: Memory>(
    memory: &mut M,
    block: Block,
    class: u32,
) -> Result<Fallen, NoObject>
    requires { SomeMeant (M.means memory.old) (CanMakeAndDrop block.0 class) }
    ensures { IfOk result (λ r. Answers (M.means memory.old) (M.means memory.new) r (λ m. made_and_dropped m block.0 class)) }
{
    memory.object(block, class, true)?;
    memory.drop_top(block);
    Ok(memory.fall(block))
}

/// A place and the int that it is to hold.
#[derive(Drop)]
pub struct Setting {
    pub place: Place,
    pub number: i64,
}

impl Setting {
    fn scalar(&self) -> Scalar
        ensures { result ≡ Int self.now.number }
    {
        Scalar::Int(self.number)
    }
}

/// Assigns each number to its place, and leaves a copy of each place on top.
pub fn assign_all<M: Memory>(
    memory: &mut M,
    block: Block,
    settings: &[Setting],
) -> Result<(), NoMemory>
    requires { SomeMeant (M.means memory.old) (CanAssignAll block.0 settings.now) }
    ensures { IfOk result (λ _. Does (M.means memory.old) (M.means memory.new) (λ m. all_assigned m block.0 settings.now)) }
{
    for setting in settings {
        assign_and_read(memory, block, setting.scalar(), &setting.place)?;
    }
    Ok(())
}

/// The number of entries of the array at a place, where there is one.
pub fn entries_at<M: Memory>(memory: &M, at: &Place) -> Option<usize>
    requires { SomeMeant (M.means memory.now) (λ m. IsPlace m at.now) }
    ensures { EachMeant (M.means memory.now) (λ m. result ≡ entries_of (found m at.now)) }
{
    match memory.peek(at) {
        Peek::Arr(entries) => Some(entries),
        Peek::Absent | Peek::Null | Peek::Bool(_) | Peek::Int(_) | Peek::Str(_) | Peek::Obj(_) =>
            None,
    }
}
