// One step of a run.
ghost use Rattle.std.specs.Prelude.{◌≡◌, ◌^◌, ◌+◌, ◌-◌, ◌<◌, ◌≤◌, cond, ℕ, List, Option, ◌&&◌, nat_eq, option_map, length, slice_get, IfSome};
ghost use Rattle.std.specs.Option.{option_copied};
ghost use Rattle.php_machine.specs.Moves.{Proceed, Complete};
ghost use Rattle.php_actions.specs.Effect.{effect, nth_fact, this_if};
ghost use Rattle.php_actions.specs.Frames.{unserved};
ghost use Rattle.php_code.specs.Code.{code_in, ranges_in, target_of, range_at, served_at, place};
ghost use Rattle.php_vm_actions.specs.Acting.{CountsFault, frame_of};
ghost use Rattle.php_vm.specs.Running.{CanStep, Steps, MayMove, Moves, IfGoes};
ghost use Rattle.php_vm.specs.Stepping.{AnyData, IsQuiet, IsPlanned, Releases, Ticks, JumpsTo, Passes, IsAt, Chooses, MayChoose, body_ended, frame_ended, rest_ended, fallen_of, CanClear, cleared_as};
ghost use Rattle.php_memdef.specs.Meanings.{SomeMeant, Does};
ghost use Rattle.php_memdef.specs.Conditions.{IsBlock};
ghost use Rattle.php_vm_actions.specs.Straight.{CanAll, all};

use crate::state::State;
use php_actions::{Action, CallAction, JumpAction};
use php_base::Sink;
use php_code::{Instr, Program};
use php_frames::{Completion, Frame, Ranges, Way, handler};
use php_memdef::Memory;
use php_value::Scalar;
use php_vm_actions::{
    Cause, Did, do_name, do_operator, do_output, do_place, do_stack, sink, trim, truth_at,
};
use std::alloc::Global;

/// Does one step, or two where something that has fallen is released first.
pub fn step<M: Memory, K: Sink>(
    alloc: Global,
    program: &Program,
    state: &mut State,
    memory: &mut M,
    out: &mut K,
) -> Did
    requires { CanStep program.now AnyData (M.means memory.old) state.old }
    ensures steps { Steps program.now AnyData (M.means memory.old) (M.means memory.new)
        (K.written out.old) (K.written out.new) state.old state.new result }
    ensures faults { CountsFault result (K.faults out.old) (K.faults out.new) }
{
    release(program, state, memory);
    step_on(alloc, program, state, memory, out)
}

// Releases what has fallen.
fn release<M: Memory>(program: &Program, state: &State, memory: &mut M)
    requires { CanStep program.now AnyData (M.means memory.old) state.now }
    ensures { Releases program.now (M.means memory.old) (M.means memory.new) state.now }
{
    memory.fall(state.frame.block);
}

// Does the next step where nothing has fallen.
fn step_on<M: Memory, K: Sink>(
    alloc: Global,
    program: &Program,
    state: &mut State,
    memory: &mut M,
    out: &mut K,
) -> Did
    requires { CanStep program.now (IsQuiet state.old) (M.means memory.old) state.old }
    ensures steps { Steps program.now (IsQuiet state.old) (M.means memory.old) (M.means memory.new)
        (K.written out.old) (K.written out.new) state.old state.new result }
    ensures faults { CountsFault result (K.faults out.old) (K.faults out.new) }
{
    match state.frame.way {
        Way::Ending => end_frame(program, state, memory),
        Way::Landed => proceed(alloc, program, state, memory, out),
        Way::Going => match state.frame.pending {
            Completion::Normal => proceed(alloc, program, state, memory, out),
            why => complete(program, state, memory, why),
        },
    }
}

// Does what the code says next.
fn proceed<M: Memory, K: Sink>(
    alloc: Global,
    program: &Program,
    state: &mut State,
    memory: &mut M,
    out: &mut K,
) -> Did
    requires { CanStep program.now (IsPlanned program.now.facts Proceed) (M.means memory.old) state.old }
    ensures steps { Steps program.now (IsPlanned program.now.facts Proceed) (M.means memory.old) (M.means memory.new)
        (K.written out.old) (K.written out.new) state.old state.new result }
    ensures faults { CountsFault result (K.faults out.old) (K.faults out.new) }
{
    match fetch(program, &state.frame) {
        None => {
            let at = state.frame.at;
            end_body(state, memory, at)
        }
        Some(Instr::Do(action)) => do_action(alloc, program, state, memory, out, action),
        Some(Instr::Unless(by)) => branch(alloc, state, memory, *by),
        Some(Instr::Go(by)) => go(state, *by),
        Some(Instr::TickBack(line, by)) => {
            let at = place_before(state.frame.at, *by);
            tick(state, *line, at)
        }
    }
}

// The instruction at a frame's place; none behind the last one.
fn fetch<'a>(program: &'a Program, frame: &Frame) -> Option<&'a Instr>
    ensures { option_copied result ≡ slice_get (code_in (slice_get program.now.functions frame.now.function)) frame.now.at }
{
    match program.functions.get(frame.function as usize) {
        None => None,
        Some(function) => function.code.get(frame.at),
    }
}

// The place behind so many instructions after this one, where a number can tell it.
fn place_behind(at: usize, by: usize) -> Option<usize>
    ensures { IfSome result (λ p. p ≡ at + 1 + by) }
{
    match at.checked_add(1) {
        Some(next) => next.checked_add(by),
        None => None,
    }
}

// The place so many instructions before this one.
fn place_before(at: usize, by: usize) -> usize
    ensures { result ≡ at - by }
{
    at.saturating_sub(by)
}

// Does an action, and goes on behind it. A place that no number can tell is more than any memory holds.
fn do_action<M: Memory, K: Sink>(
    alloc: Global,
    program: &Program,
    state: &mut State,
    memory: &mut M,
    out: &mut K,
    action: &Action,
) -> Did
    requires { MayMove (M.means memory.old) state.old (effect program.now.facts action.now) }
    ensures moves { Moves (M.means memory.old) (M.means memory.new) (K.written out.old) (K.written out.new)
        state.old state.new result (effect program.now.facts action.now) }
    ensures place { IfGoes result (IsAt state.old state.new (state.old.frame.at + 1)) }
    ensures faults { CountsFault result (K.faults out.old) (K.faults out.new) }
{
    let Some(next) = place_behind(state.frame.at, 0) else {
        return Did::NoMemory;
    };
    match action {
        Action::Stack(a) => {
            let did = do_stack(alloc, &state.frame, memory, a);
            state.frame.at = next;
            did
        }
        Action::Place(a) => {
            let this = has_this(program, state.frame.function);
            let did = do_place(alloc, &state.frame, memory, a, this);
            state.frame.at = next;
            did
        }
        Action::Operator(a) => {
            let did = do_operator(alloc, &state.frame, memory, a);
            state.frame.at = next;
            did
        }
        Action::Output(a) => {
            let did = do_output(alloc, &state.frame, memory, out, a);
            state.frame.at = next;
            did
        }
        Action::Name(a) => {
            let did = do_name(&state.frame, memory, a);
            state.frame.at = next;
            did
        }
        Action::Call(CallAction::EndBody) => end_body(state, memory, next),
        Action::Jump(a) => jump(state, a, next),
    }
}

// Goes on past so many instructions.
fn go(state: &mut State, by: usize) -> Did
    ensures { Passes state.old state.new (state.old.frame.at + 1 + by) result }
{
    match place_behind(state.frame.at, by) {
        Some(at) => {
            state.frame.at = at;
            Did::Goes
        }
        None => Did::NoMemory,
    }
}

// Takes a tick, and goes on there.
fn tick(state: &mut State, line: u32, at: usize) -> Did
    ensures { Ticks state.old state.new line at result }
{
    if state.left == 0 {
        return Did::Ends(Cause::Allowance);
    }
    state.left -= 1;
    state.taken += 1;
    state.frame.line = line;
    state.frame.at = at;
    Did::Goes
}

// Does an action of a statement, and goes on there.
fn jump(state: &mut State, action: &JumpAction, at: usize) -> Did
    ensures { JumpsTo state.old state.new action.now at result }
{
    match action {
        JumpAction::Tick(line) => tick(state, *line, at),
    }
}

// Goes on by the value on top.
fn branch<M: Memory>(alloc: Global, state: &mut State, memory: &mut M, by: usize) -> Did
    requires { MayChoose (M.means memory.old) state.old }
    ensures { Chooses (M.means memory.old) (M.means memory.new) state.old state.new by result }
{
    let Some(next) = place_behind(state.frame.at, 0) else {
        return Did::NoMemory;
    };
    let Some(past) = place_behind(state.frame.at, by) else {
        return Did::NoMemory;
    };
    let truth = truth_at(alloc, memory, state.frame.block, 0);
    memory.drop_top(state.frame.block);
    if truth {
        state.frame.at = next;
        return Did::Goes;
    }
    state.frame.at = past;
    Did::Goes
}

// A return of null is under way.
fn end_body<M: Memory>(state: &mut State, memory: &mut M, at: usize) -> Did
    requires { MayMove (M.means memory.old) state.old body_ended }
    ensures moves { (written : Option (List ℕ)) → Moves (M.means memory.old) (M.means memory.new) written written
        state.old state.new result body_ended }
    ensures place { IsAt state.old state.new at }
    ensures faults { (n : ℕ) → CountsFault result n n }
{
    memory.push(state.frame.block, Scalar::Null);
    state.frame.pending = Completion::Return;
    state.frame.way = Way::Going;
    state.frame.at = at;
    Did::Goes
}

// Takes a completion to what serves it, or begins to end the frame.
fn complete<M: Memory>(program: &Program, state: &mut State, memory: &mut M, why: Completion) -> Did
    requires { CanStep program.now (IsPlanned program.now.facts (Complete why)) (M.means memory.old) state.old }
    ensures steps { (written : Option (List ℕ)) → Steps program.now (IsPlanned program.now.facts (Complete why))
        (M.means memory.old) (M.means memory.new) written written state.old state.new result }
    ensures faults { (n : ℕ) → CountsFault result n n }
{
    match served_at(program, &state.frame, why) {
        Some(at) => {
            state.frame.way = Way::Landed;
            state.frame.at = at;
            Did::Goes
        }
        None => unserve(program, state, memory),
    }
}

// Where the completion is served, if it is.
fn served_at(program: &Program, frame: &Frame, why: Completion) -> Option<usize>
    ensures { option_map (place frame.now.function) result
        ≡ served_at (ranges_in (slice_get program.now.functions frame.now.function)) frame.now.function frame.now.at why }
{
    match program.functions.get(frame.function as usize) {
        None => None,
        Some(function) => served_in(&function.ranges, frame.at, why),
    }
}

// A range that would lead back isn't taken.
fn served_in(ranges: &Ranges, at: usize, why: Completion) -> Option<usize>
    ensures { (f : ℕ) → option_map (place f) result ≡ served_at ranges.now f at why }
{
    match handler(ranges, at, why) {
        None => None,
        Some(n) => target_in(ranges, n),
    }
}

fn target_in(ranges: &Ranges, n: usize) -> Option<usize>
    requires { n < length ranges.now }
    ensures { (f : ℕ) → option_map (place f) result ≡ target_of f (range_at ranges.now (Some n)) }
{
    let range = ranges.at(n);
    if range.to <= range.target {
        Some(range.target)
    } else {
        None
    }
}

// Whether the lowest temporary of the function's block is `$this`.
fn has_this(program: &Program, function: u32) -> bool
    ensures { result ≡ this_if (nth_fact program.now.facts.functions function) }
{
    match program.facts.functions.get(function as usize) {
        None => false,
        Some(fact) => fact.has_this,
    }
}

// How many operands stand, where so many temporaries do: `$this` is none.
fn operand_count(program: &Program, function: u32, standing: usize) -> usize
    ensures count { result ≡ cond (this_if (nth_fact program.now.facts.functions function)) (standing - 1) standing }
    ensures within { result ≤ standing }
{
    if has_this(program, function) {
        standing.saturating_sub(1)
    } else {
        standing
    }
}

// How many of them stand under the top one.
fn below_count(program: &Program, function: u32, standing: usize) -> usize
    ensures count { result ≡ cond (this_if (nth_fact program.now.facts.functions function)) (standing - 1) standing - 1 }
    ensures within { result + 1 < 2 ^ 64 }
{
    let operands = operand_count(program, function, standing);
    operands.saturating_sub(1)
}

// The frame begins to end: all that stands under the value of its completion falls.
fn unserve<M: Memory>(program: &Program, state: &mut State, memory: &mut M) -> Did
    requires { MayMove (M.means memory.old) state.old (unserved program.now.facts) }
    ensures moves { (written : Option (List ℕ)) → Moves (M.means memory.old) (M.means memory.new) written written
        state.old state.new result (unserved program.now.facts) }
    ensures place { IsAt state.old state.new state.old.frame.at }
    ensures faults { (n : ℕ) → CountsFault result n n }
{
    clear(program, &state.frame, memory);
    state.frame.way = Way::Ending;
    Did::Goes
}

// What stands under the value of the frame's completion falls.
fn clear<M: Memory>(program: &Program, frame: &Frame, memory: &mut M)
    requires block { SomeMeant (M.means memory.old) (λ m. IsBlock m frame.now.block.0) }
    requires can { SomeMeant (M.means memory.old) (CanClear program.now.facts (frame_of frame.now)) }
    ensures { Does (M.means memory.old) (M.means memory.new) (cleared_as program.now.facts (frame_of frame.now)) }
{
    let standing = memory.temps(frame.block);
    let below = below_count(program, frame.function, standing);
    clear_below(frame, memory, below);
}

fn clear_below<M: Memory>(frame: &Frame, memory: &mut M, below: usize)
    requires can { SomeMeant (M.means memory.old) (CanAll (fallen_of frame.now.given frame.now.block.0 below)) }
    requires counts { below + 1 < 2 ^ 64 }
    ensures { Does (M.means memory.old) (M.means memory.new) (all (fallen_of frame.now.given frame.now.block.0 below)) }
{
    match frame.given {
        None => trim(memory, frame.block, below),
        Some(_) => sink(memory, frame.block, below),
    }
}

// One step of the end of a frame: a variable goes, the oldest first; then `$this`; then the value; then the
// run is over.
fn end_frame<M: Memory>(program: &Program, state: &State, memory: &mut M) -> Did
    requires { MayMove (M.means memory.old) state.now (frame_ended program.now.facts (frame_of state.now.frame)) }
    ensures moves { (written : Option (List ℕ)) → Moves (M.means memory.old) (M.means memory.new) written written
        state.now state.now result (frame_ended program.now.facts (frame_of state.now.frame)) }
    ensures faults { (n : ℕ) → CountsFault result n n }
{
    if memory.shed(state.frame.block) {
        return Did::Goes;
    }
    end_rest(program, state, memory)
}

// Without a variable left.
fn end_rest<M: Memory>(program: &Program, state: &State, memory: &mut M) -> Did
    requires { MayMove (M.means memory.old) state.now (rest_ended program.now.facts (frame_of state.now.frame)) }
    ensures moves { (written : Option (List ℕ)) → Moves (M.means memory.old) (M.means memory.new) written written
        state.now state.now result (rest_ended program.now.facts (frame_of state.now.frame)) }
    ensures faults { (n : ℕ) → CountsFault result n n }
{
    let standing = memory.temps(state.frame.block);
    let this = has_this(program, state.frame.function);
    if leaves_this(this, standing) {
        memory.turn(state.frame.block, 2);
        memory.drop_top(state.frame.block);
        return Did::Goes;
    }
    if standing > 0 {
        memory.drop_top(state.frame.block);
        return Did::Goes;
    }
    Did::Ends(Cause::Status(0))
}

// Whether `$this` stands under the value alone.
fn leaves_this(this: bool, standing: usize) -> bool
    ensures { result ≡ (this && nat_eq standing 2) }
{
    if this { standing == 2 } else { false }
}
