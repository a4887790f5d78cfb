// Actions that compute a value from others.
ghost use Rattle.std.specs.Prelude.{◌≡◌, Some, Err, IsSome, IfOk, nat_lt, length, ◌++◌};
ghost use Rattle.php_memdef.specs.Contents.{Content};
ghost use Rattle.php_memdef.specs.Meanings.{SomeMeant, EachMeant};
ghost use Rattle.php_actions.specs.Steps.{operand};
ghost use Rattle.php_actions.specs.declared.operators.OperatorAction.TheVariants.{Operate, Compare, Identical, TestCase, ExclusiveOr, Join};
ghost use Rattle.php_actions.specs.Operators.{differ, effect_operator, finish_one, finish_two, texts_of};
ghost use Rattle.php_vm_actions.specs.Acting.{Acts, CanMove, frame_of};
ghost use Rattle.php_vm_actions.specs.Operands.{FinishedBy, HasTwo, IfTold, Sees, is_one, one_operand, text_joined};

use crate::comparisons::{compared, identical};
use crate::compute::{computed, operated, unites};
use crate::did::{Cause, Did};
use crate::operands::{Operand, operand_at, truth_at};
use crate::straight::{drops, replace};
use crate::texts::text_at;
use php_actions::{OperatorAction, Relation};
use php_base::NoMemory;
use php_frames::Frame;
use php_memdef::{Block, Memory};
use php_value::{ErrorKind, Fault, Op, Scalar, Stopped, Text};
use std::alloc::Global;

// The most bytes of a string.
const TEXT_LIMIT: usize = 16_777_216;

/// Does an action that computes a value.
pub fn do_operator<M: Memory>(
    alloc: Global,
    frame: &Frame,
    memory: &mut M,
    action: &OperatorAction,
) -> Did
    requires { CanMove (M.means memory.old) frame.now.block.0 (effect_operator action.now (frame_of frame.now)) }
    ensures { Acts (M.means memory.old) (M.means memory.new) frame.now.block.0 result (effect_operator action.now (frame_of frame.now)) }
{
    if is_one(action) {
        return on_one(alloc, frame, memory, action);
    }
    match action {
        OperatorAction::Operate(op) => operate(alloc, frame, memory, *op),
        OperatorAction::Compare(relation) => compare_two(alloc, frame, memory, *relation),
        OperatorAction::Identical { negated } => identify(alloc, frame, memory, *negated),
        OperatorAction::TestCase => test_case(alloc, frame, memory),
        OperatorAction::ExclusiveOr => exclusive_or(alloc, frame, memory),
        OperatorAction::Join(count) => join(alloc, frame, memory, *count),
        // The others were done above.
        _ => Did::NoMemory,
    }
}

// Whether the action has one operand.
fn is_one(action: &OperatorAction) -> bool
    ensures { result ≡ is_one action.now }
{
    match action {
        OperatorAction::ToBool
        | OperatorAction::Not
        | OperatorAction::ToInt
        | OperatorAction::ToText
        | OperatorAction::Sign { .. }
        | OperatorAction::Complement
        | OperatorAction::Count { .. } => true,
        OperatorAction::Operate(_)
        | OperatorAction::Compare(_)
        | OperatorAction::Identical { .. }
        | OperatorAction::TestCase
        | OperatorAction::ExclusiveOr
        | OperatorAction::Join(_) => false,
    }
}

// Puts a result in the place of the top temporary.
fn finish_one<M: Memory>(frame: &Frame, memory: &mut M, told: Result<Scalar, Stopped>) -> Did
    requires { IfTold told (CanMove (M.means memory.old) frame.now.block.0 (finish_one (Some told) (frame_of frame.now))) }
    ensures { FinishedBy told result (Acts (M.means memory.old) (M.means memory.new) frame.now.block.0 result (finish_one (Some told) (frame_of frame.now))) }
{
    match told {
        Ok(value) => {
            memory.drop_top(frame.block);
            memory.push(frame.block, value);
            Did::Goes
        }
        Err(Stopped::Fault(fault)) => Did::Ends(Cause::Fault(fault, frame.line)),
        Err(Stopped::Throws(kind)) => Did::Ends(Cause::Error(kind, Text::empty(), frame.line)),
        Err(Stopped::NoMemory) => Did::NoMemory,
    }
}

// Puts a result in the place of the two top temporaries, of which the left one falls first. They fall before an
// error, too.
fn finish_two<M: Memory>(frame: &Frame, memory: &mut M, told: Result<Scalar, Stopped>) -> Did
    requires { IfTold told (CanMove (M.means memory.old) frame.now.block.0 (finish_two (Some told) (frame_of frame.now))) }
    ensures { FinishedBy told result (Acts (M.means memory.old) (M.means memory.new) frame.now.block.0 result (finish_two (Some told) (frame_of frame.now))) }
{
    match told {
        Ok(value) => {
            replace(memory, frame.block, 2, value);
            Did::Goes
        }
        Err(Stopped::Fault(fault)) => Did::Ends(Cause::Fault(fault, frame.line)),
        Err(Stopped::Throws(kind)) => throw_two(frame, memory, kind),
        Err(Stopped::NoMemory) => Did::NoMemory,
    }
}

// An error about the two top temporaries.
fn throw_two<M: Memory>(frame: &Frame, memory: &mut M, kind: ErrorKind) -> Did
    requires { CanMove (M.means memory.old) frame.now.block.0 (finish_two (Some (Err (Stopped.Throws kind))) (frame_of frame.now)) }
    ensures { Acts (M.means memory.old) (M.means memory.new) frame.now.block.0 result (finish_two (Some (Err (Stopped.Throws kind))) (frame_of frame.now)) }
{
    memory.turn(frame.block, 2);
    drops(memory, frame.block, 2);
    Did::Ends(Cause::Error(kind, Text::empty(), frame.line))
}

// An action on one operand.
fn on_one<M: Memory>(alloc: Global, frame: &Frame, memory: &mut M, action: &OperatorAction) -> Did
    requires { CanMove (M.means memory.old) frame.now.block.0 (one_operand action.now (frame_of frame.now)) }
    ensures { Acts (M.means memory.old) (M.means memory.new) frame.now.block.0 result (one_operand action.now (frame_of frame.now)) }
{
    let Ok(operand) = operand_at(alloc, memory, frame.block, 0) else {
        return Did::NoMemory;
    };
    let told = computed(alloc, action, &operand);
    finish_one(frame, memory, told)
}

// The two top temporaries, of which the left one is below.
#[derive(Drop)]
struct Two {
    left: Operand,
    right: Operand,
}

fn two_operands<M: Memory>(alloc: Global, memory: &M, block: Block) -> Result<Two, NoMemory>
    requires { SomeMeant (M.means memory.now) (HasTwo block.0) }
    ensures { EachMeant (M.means memory.now)
        (λ m. (x y : Content) → operand m block.0 1 ≡ Some x → operand m block.0 0 ≡ Some y
        → IfOk result (λ two. Sees two.left x × Sees two.right y)) }
{
    let left = operand_at(alloc, memory, block, 1)?;
    let right = operand_at(alloc, memory, block, 0)?;
    Ok(Two { left, right })
}

// Two arrays are united with the arrays' actions, which join later.
fn operate<M: Memory>(alloc: Global, frame: &Frame, memory: &mut M, op: Op) -> Did
    requires { CanMove (M.means memory.old) frame.now.block.0 (effect_operator (Operate op) (frame_of frame.now)) }
    ensures { Acts (M.means memory.old) (M.means memory.new) frame.now.block.0 result (effect_operator (Operate op) (frame_of frame.now)) }
{
    let Ok(two) = two_operands(alloc, memory, frame.block) else {
        return Did::NoMemory;
    };
    if unites(op, &two.left, &two.right) {
        return Did::NoMemory;
    }
    let told = operated(alloc, op, &two.left, &two.right);
    finish_two(frame, memory, told)
}

fn compare_two<M: Memory>(alloc: Global, frame: &Frame, memory: &mut M, relation: Relation) -> Did
    requires { CanMove (M.means memory.old) frame.now.block.0 (effect_operator (Compare relation) (frame_of frame.now)) }
    ensures { Acts (M.means memory.old) (M.means memory.new) frame.now.block.0 result (effect_operator (Compare relation) (frame_of frame.now)) }
{
    let told = compared(alloc, memory, frame.block, relation);
    finish_two(frame, memory, told)
}

fn identify<M: Memory>(alloc: Global, frame: &Frame, memory: &mut M, negated: bool) -> Did
    requires { CanMove (M.means memory.old) frame.now.block.0 (effect_operator (Identical negated) (frame_of frame.now)) }
    ensures { Acts (M.means memory.old) (M.means memory.new) frame.now.block.0 result (effect_operator (Identical negated) (frame_of frame.now)) }
{
    let told = identical(alloc, memory, frame.block, negated);
    finish_two(frame, memory, told)
}

fn test_case<M: Memory>(alloc: Global, frame: &Frame, memory: &mut M) -> Did
    requires { CanMove (M.means memory.old) frame.now.block.0 (effect_operator TestCase (frame_of frame.now)) }
    ensures { Acts (M.means memory.old) (M.means memory.new) frame.now.block.0 result (effect_operator TestCase (frame_of frame.now)) }
{
    let told = compared(alloc, memory, frame.block, Relation::Equal);
    finish_one(frame, memory, told)
}

fn exclusive_or<M: Memory>(alloc: Global, frame: &Frame, memory: &mut M) -> Did
    requires { CanMove (M.means memory.old) frame.now.block.0 (effect_operator ExclusiveOr (frame_of frame.now)) }
    ensures { Acts (M.means memory.old) (M.means memory.new) frame.now.block.0 result (effect_operator ExclusiveOr (frame_of frame.now)) }
{
    let left = truth_at(alloc, memory, frame.block, 1);
    let right = truth_at(alloc, memory, frame.block, 0);
    finish_two(frame, memory, Ok(Scalar::Bool(differ(left, right))))
}

// One of them alone.
fn differ(left: bool, right: bool) -> bool
    ensures { result ≡ differ left right }
{
    if left { !right } else { right }
}

// Joins the texts of the so many top temporaries. The last one falls first.
fn join<M: Memory>(alloc: Global, frame: &Frame, memory: &mut M, count: usize) -> Did
    requires { CanMove (M.means memory.old) frame.now.block.0 (effect_operator (Join count) (frame_of frame.now)) }
    ensures { Acts (M.means memory.old) (M.means memory.new) frame.now.block.0 result (effect_operator (Join count) (frame_of frame.now)) }
{
    let Ok(bytes) = joined_texts(alloc, memory, frame.block, count) else {
        return Did::NoMemory;
    };
    if is_too_long(&bytes) {
        return Did::Ends(Cause::Fault(Fault::StringLimit, frame.line));
    }
    match Text::from_vec(alloc, bytes) {
        Ok(text) => put_joined(frame, memory, count, text),
        Err(_) => Did::NoMemory,
    }
}

// Whether the bytes are too many for a string.
fn is_too_long(bytes: &Vec<u8>) -> bool
    ensures { result ≡ nat_lt 16777216 (length bytes.now.items) }
{
    bytes.len() > TEXT_LIMIT
}

// So many temporaries fall, and the text comes.
fn put_joined<M: Memory>(frame: &Frame, memory: &mut M, count: usize, text: Text) -> Did
    requires { CanMove (M.means memory.old) frame.now.block.0 (text_joined count text (frame_of frame.now)) }
    ensures { Acts (M.means memory.old) (M.means memory.new) frame.now.block.0 result (text_joined count text (frame_of frame.now)) }
{
    drops(memory, frame.block, count);
    memory.push(frame.block, Scalar::Str(text));
    Did::Goes
}

// The bytes of the so many top temporaries, the lowest first. They are taken while they aren't too long.
fn joined_texts<M: Memory>(
    alloc: Global,
    memory: &M,
    block: Block,
    count: usize,
) -> Result<Vec<u8>, NoMemory>
    requires { SomeMeant (M.means memory.now) (λ m. IsSome (texts_of m block.0 count)) }
    ensures { EachMeant (M.means memory.now)
        (λ m. IsSome (texts_of m block.0 count) → IfOk result (λ v. texts_of m block.0 count ≡ Some v.items)) }
{
    let mut bytes = Vec::new(alloc);
    let mut left = count;
    while left > 0 {
        left -= 1;
        let text = text_at(alloc, memory, block, left)?;
        add_text(&mut bytes, text)?;
    }
    Ok(bytes)
}

// Adds the text's bytes.
fn add_text(bytes: &mut Vec<u8>, text: Text) -> Result<(), NoMemory>
    ensures { IfOk result (λ _. bytes.new.items ≡ bytes.old.items ++ text) }
{
    match bytes.extend_from_slice(text.bytes()) {
        Ok(()) => Ok(()),
        Err(_) => Err(NoMemory),
    }
}
