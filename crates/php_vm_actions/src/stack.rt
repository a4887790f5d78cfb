// Actions on temporaries alone.
ghost use Rattle.std.specs.Prelude.{◌≡◌};
ghost use Rattle.php_actions.specs.declared.stack.StackAction.TheVariants.{Push, PushArray, Drop, Swap, Duplicate, Settle, TestTruth, TestNotNull};
ghost use Rattle.php_actions.specs.Stack.{effect_stack};
ghost use Rattle.php_vm_actions.specs.Acting.{Acts, CanMove, frame_of};

use crate::did::Did;
use crate::operands::{is_null_at, temporary, truth_at};
use php_actions::StackAction;
use php_frames::Frame;
use php_memdef::Memory;
use php_value::Scalar;
use std::alloc::Global;

/// Does an action on temporaries.
pub fn do_stack<M: Memory>(
    alloc: Global,
    frame: &Frame,
    memory: &mut M,
    action: &StackAction,
) -> Did
    requires { CanMove (M.means memory.old) frame.now.block.0 (effect_stack action.now (frame_of frame.now)) }
    ensures { Acts (M.means memory.old) (M.means memory.new) frame.now.block.0 result (effect_stack action.now (frame_of frame.now)) }
{
    match action {
        StackAction::Push(value) => push(frame, memory, value),
        StackAction::PushArray => push_array(frame, memory),
        StackAction::Drop => drop_one(frame, memory),
        StackAction::Swap => swap(frame, memory),
        StackAction::Duplicate => duplicate(alloc, frame, memory),
        StackAction::Settle => settle(frame, memory),
        StackAction::TestTruth => test_truth(alloc, frame, memory),
        StackAction::TestNotNull => test_not_null(alloc, frame, memory),
    }
}

fn push<M: Memory>(frame: &Frame, memory: &mut M, value: &Scalar) -> Did
    requires { CanMove (M.means memory.old) frame.now.block.0 (effect_stack (Push value.now) (frame_of frame.now)) }
    ensures { Acts (M.means memory.old) (M.means memory.new) frame.now.block.0 result (effect_stack (Push value.now) (frame_of frame.now)) }
{
    match value.share() {
        Ok(value) => {
            memory.push(frame.block, value);
            Did::Goes
        }
        Err(_) => Did::NoMemory,
    }
}

fn push_array<M: Memory>(frame: &Frame, memory: &mut M) -> Did
    requires { CanMove (M.means memory.old) frame.now.block.0 (effect_stack PushArray (frame_of frame.now)) }
    ensures { Acts (M.means memory.old) (M.means memory.new) frame.now.block.0 result (effect_stack PushArray (frame_of frame.now)) }
{
    match memory.push_array(frame.block) {
        Ok(()) => Did::Goes,
        Err(_) => Did::NoMemory,
    }
}

fn drop_one<M: Memory>(frame: &Frame, memory: &mut M) -> Did
    requires { CanMove (M.means memory.old) frame.now.block.0 (effect_stack Drop (frame_of frame.now)) }
    ensures { Acts (M.means memory.old) (M.means memory.new) frame.now.block.0 result (effect_stack Drop (frame_of frame.now)) }
{
    memory.drop_top(frame.block);
    Did::Goes
}

fn swap<M: Memory>(frame: &Frame, memory: &mut M) -> Did
    requires { CanMove (M.means memory.old) frame.now.block.0 (effect_stack Swap (frame_of frame.now)) }
    ensures { Acts (M.means memory.old) (M.means memory.new) frame.now.block.0 result (effect_stack Swap (frame_of frame.now)) }
{
    memory.turn(frame.block, 2);
    Did::Goes
}

fn duplicate<M: Memory>(alloc: Global, frame: &Frame, memory: &mut M) -> Did
    requires { CanMove (M.means memory.old) frame.now.block.0 (effect_stack Duplicate (frame_of frame.now)) }
    ensures { Acts (M.means memory.old) (M.means memory.new) frame.now.block.0 result (effect_stack Duplicate (frame_of frame.now)) }
{
    let top = temporary(alloc, frame.block, 0);
    match memory.copy(frame.block, &top) {
        Ok(_) => Did::Goes,
        Err(_) => Did::NoMemory,
    }
}

// A content stays as it is.
fn settle<M: Memory>(frame: &Frame, memory: &mut M) -> Did
    requires { CanMove (M.means memory.old) frame.now.block.0 (effect_stack Settle (frame_of frame.now)) }
    ensures { Acts (M.means memory.old) (M.means memory.new) frame.now.block.0 result (effect_stack Settle (frame_of frame.now)) }
{
    if !memory.is_link(frame.block, 0) {
        return Did::Goes;
    }
    match memory.settle(frame.block) {
        Ok(()) => Did::Goes,
        Err(_) => Did::NoMemory,
    }
}

fn test_truth<M: Memory>(alloc: Global, frame: &Frame, memory: &mut M) -> Did
    requires { CanMove (M.means memory.old) frame.now.block.0 (effect_stack TestTruth (frame_of frame.now)) }
    ensures { Acts (M.means memory.old) (M.means memory.new) frame.now.block.0 result (effect_stack TestTruth (frame_of frame.now)) }
{
    let truth = truth_at(alloc, memory, frame.block, 0);
    memory.push(frame.block, Scalar::Bool(truth));
    Did::Goes
}

fn test_not_null<M: Memory>(alloc: Global, frame: &Frame, memory: &mut M) -> Did
    requires { CanMove (M.means memory.old) frame.now.block.0 (effect_stack TestNotNull (frame_of frame.now)) }
    ensures { Acts (M.means memory.old) (M.means memory.new) frame.now.block.0 result (effect_stack TestNotNull (frame_of frame.now)) }
{
    let is_null = is_null_at(alloc, memory, frame.block, 0);
    memory.push(frame.block, Scalar::Bool(!is_null));
    Did::Goes
}
