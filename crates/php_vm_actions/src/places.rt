// Actions on places. So far these are variables; elements join with arrays.
ghost use Rattle.std.specs.Prelude.{◌≡◌};
ghost use Rattle.php_actions.specs.Places.{effect_place};
ghost use Rattle.php_vm_actions.specs.Acting.{Acts, CanMove, frame_of};
ghost use Rattle.php_vm_actions.specs.Variables.{IsNoThis, place_of, variable_assigned, variable_read, variable_written};

use crate::did::{Cause, Did};
use crate::operands::temporary;
use php_actions::{BaseForm, PlaceAction, PlaceForm};
use php_frames::Frame;
use php_memdef::{Base, Block, Memory, Name, Path, Place, Read, Wrote};
use php_value::{ErrorKind, Fault, Scalar, Text};
use std::alloc::Global;

/// Does an action on a place, in a function that may have `$this`.
pub fn do_place<M: Memory>(
    alloc: Global,
    frame: &Frame,
    memory: &mut M,
    action: &PlaceAction,
    this: bool,
) -> Did
    requires { CanMove (M.means memory.old) frame.now.block.0 (effect_place action.now this (frame_of frame.now)) }
    ensures { Acts (M.means memory.old) (M.means memory.new) frame.now.block.0 result (effect_place action.now this (frame_of frame.now)) }
{
    match action {
        PlaceAction::Read(form) => read(alloc, frame, memory, form, this),
        PlaceAction::Assign(form) => assign(alloc, frame, memory, form, this),
    }
}

fn read<M: Memory>(
    alloc: Global,
    frame: &Frame,
    memory: &mut M,
    form: &PlaceForm,
    this: bool,
) -> Did
    requires { CanMove (M.means memory.old) frame.now.block.0 (effect_place (PlaceAction.Read form.now) this (frame_of frame.now)) }
    ensures { Acts (M.means memory.old) (M.means memory.new) frame.now.block.0 result (effect_place (PlaceAction.Read form.now) this (frame_of frame.now)) }
{
    if !form.steps.is_empty() {
        return Did::NoMemory;
    }
    match &form.base {
        BaseForm::Variable(name) => read_variable(alloc, frame, memory, *name),
        BaseForm::This => no_this(frame, this),
        BaseForm::Standing => Did::NoMemory,
    }
}

fn assign<M: Memory>(
    alloc: Global,
    frame: &Frame,
    memory: &mut M,
    form: &PlaceForm,
    this: bool,
) -> Did
    requires { CanMove (M.means memory.old) frame.now.block.0 (effect_place (PlaceAction.Assign form.now) this (frame_of frame.now)) }
    ensures { Acts (M.means memory.old) (M.means memory.new) frame.now.block.0 result (effect_place (PlaceAction.Assign form.now) this (frame_of frame.now)) }
{
    if !form.steps.is_empty() {
        return Did::NoMemory;
    }
    match &form.base {
        BaseForm::Variable(name) => assign_variable(alloc, frame, memory, *name),
        BaseForm::This => no_this(frame, this),
        BaseForm::Standing => Did::NoMemory,
    }
}

// Where the function has no `$this`, that is an error.
fn no_this(frame: &Frame, this: bool) -> Did
    ensures { IsNoThis frame.now this result }
{
    if this {
        return Did::NoMemory;
    }
    Did::Ends(Cause::Error(ErrorKind::NO_THIS, Text::empty(), frame.line))
}

fn variable(alloc: Global, block: Block, name: Name) -> Place
    ensures { result ≡ place_of block.0 name.0 }
{
    Place {
        base: Base::Var(block, name),
        path: Path::new(alloc),
    }
}

// A variable that is missing is null.
fn read_variable<M: Memory>(alloc: Global, frame: &Frame, memory: &mut M, name: Name) -> Did
    requires { CanMove (M.means memory.old) frame.now.block.0 (variable_read name.0 (frame_of frame.now)) }
    ensures { Acts (M.means memory.old) (M.means memory.new) frame.now.block.0 result (variable_read name.0 (frame_of frame.now)) }
{
    let place = variable(alloc, frame.block, name);
    match memory.copy(frame.block, &place) {
        Ok(Read::Found) => Did::Goes,
        Ok(Read::Absent) => {
            memory.push(frame.block, Scalar::Null);
            Did::Goes
        }
        Err(_) => Did::NoMemory,
    }
}

fn assign_variable<M: Memory>(alloc: Global, frame: &Frame, memory: &mut M, name: Name) -> Did
    requires { CanMove (M.means memory.old) frame.now.block.0 (variable_assigned name.0 (frame_of frame.now)) }
    ensures { Acts (M.means memory.old) (M.means memory.new) frame.now.block.0 result (variable_assigned name.0 (frame_of frame.now)) }
{
    let top = temporary(alloc, frame.block, 0);
    match memory.copy(frame.block, &top) {
        Ok(_) => move_into(alloc, frame, memory, name),
        Err(_) => Did::NoMemory,
    }
}

// Moves the value on top into the variable.
fn move_into<M: Memory>(alloc: Global, frame: &Frame, memory: &mut M, name: Name) -> Did
    requires { CanMove (M.means memory.old) frame.now.block.0 (variable_written name.0 (frame_of frame.now)) }
    ensures { Acts (M.means memory.old) (M.means memory.new) frame.now.block.0 result (variable_written name.0 (frame_of frame.now)) }
{
    let place = variable(alloc, frame.block, name);
    match memory.assign(frame.block, &place) {
        Ok(Wrote::Done) => Did::Goes,
        Ok(Wrote::NotArray) => unreachable!(),
        Ok(Wrote::Full) => Did::Ends(Cause::Error(
            ErrorKind::NO_KEY_LEFT,
            Text::empty(),
            frame.line,
        )),
        Ok(Wrote::Limit) => Did::Ends(Cause::Fault(Fault::ArrayLimit, frame.line)),
        Err(_) => Did::NoMemory,
    }
}
