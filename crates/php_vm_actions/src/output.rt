// Actions that write.
ghost use Rattle.php_actions.specs.Output.{effect_output};
ghost use Rattle.php_actions.specs.declared.output.OutputAction.TheVariants.{Echo, Write, Print};
ghost use Rattle.php_vm_actions.specs.Acting.{ActsWriting, CanMove, CountsFault, frame_of};
ghost use Rattle.php_vm_actions.specs.Writing.{PutAll, PutFaults, text_echoed, text_printed};

use crate::did::Did;
use crate::texts::text_at;
use php_actions::OutputAction;
use php_base::{Sink, put_all};
use php_frames::Frame;
use php_memdef::Memory;
use php_value::{Scalar, Text};
use std::alloc::Global;

/// Does an action that writes. Each text is handed to the sink as one piece.
pub fn do_output<M: Memory, K: Sink>(
    alloc: Global,
    frame: &Frame,
    memory: &mut M,
    out: &mut K,
    action: &OutputAction,
) -> Did
    requires { CanMove (M.means memory.old) frame.now.block.0 (effect_output action.now (frame_of frame.now)) }
    ensures done { ActsWriting (M.means memory.old) (M.means memory.new) (K.written out.old) (K.written out.new)
        frame.now.block.0 result (effect_output action.now (frame_of frame.now)) }
    ensures faults { CountsFault result (K.faults out.old) (K.faults out.new) }
{
    match action {
        OutputAction::Echo => echo(alloc, frame, memory, out),
        OutputAction::Write(text) => write(memory, out, frame, text),
        OutputAction::Print => print(alloc, frame, memory, out),
    }
}

// Whether the sink took all of the text.
fn put<K: Sink>(out: &mut K, text: &Text) -> bool
    ensures written { PutAll result (K.written out.old) (K.written out.new) text.now }
    ensures faults { PutFaults result (K.faults out.old) (K.faults out.new) }
{
    match put_all(out, text.bytes()) {
        Ok(()) => true,
        Err(_) => false,
    }
}

fn write<M: Memory, K: Sink>(memory: &M, out: &mut K, frame: &Frame, text: &Text) -> Did
    ensures done { ActsWriting (M.means memory.now) (M.means memory.now) (K.written out.old) (K.written out.new)
        frame.now.block.0 result (effect_output (Write text.now) (frame_of frame.now)) }
    ensures faults { CountsFault result (K.faults out.old) (K.faults out.new) }
{
    if put(out, text) {
        return Did::Goes;
    }
    Did::SinkFault
}

fn echo<M: Memory, K: Sink>(alloc: Global, frame: &Frame, memory: &mut M, out: &mut K) -> Did
    requires { CanMove (M.means memory.old) frame.now.block.0 (effect_output Echo (frame_of frame.now)) }
    ensures done { ActsWriting (M.means memory.old) (M.means memory.new) (K.written out.old) (K.written out.new)
        frame.now.block.0 result (effect_output Echo (frame_of frame.now)) }
    ensures faults { CountsFault result (K.faults out.old) (K.faults out.new) }
{
    match text_at(alloc, memory, frame.block, 0) {
        Ok(text) => echo_text(frame, memory, out, &text),
        Err(_) => Did::NoMemory,
    }
}

fn echo_text<M: Memory, K: Sink>(frame: &Frame, memory: &mut M, out: &mut K, text: &Text) -> Did
    requires { CanMove (M.means memory.old) frame.now.block.0 (text_echoed text.now (frame_of frame.now)) }
    ensures done { ActsWriting (M.means memory.old) (M.means memory.new) (K.written out.old) (K.written out.new)
        frame.now.block.0 result (text_echoed text.now (frame_of frame.now)) }
    ensures faults { CountsFault result (K.faults out.old) (K.faults out.new) }
{
    if put(out, text) {
        memory.drop_top(frame.block);
        return Did::Goes;
    }
    Did::SinkFault
}

fn print<M: Memory, K: Sink>(alloc: Global, frame: &Frame, memory: &mut M, out: &mut K) -> Did
    requires { CanMove (M.means memory.old) frame.now.block.0 (effect_output Print (frame_of frame.now)) }
    ensures done { ActsWriting (M.means memory.old) (M.means memory.new) (K.written out.old) (K.written out.new)
        frame.now.block.0 result (effect_output Print (frame_of frame.now)) }
    ensures faults { CountsFault result (K.faults out.old) (K.faults out.new) }
{
    match text_at(alloc, memory, frame.block, 0) {
        Ok(text) => print_text(frame, memory, out, &text),
        Err(_) => Did::NoMemory,
    }
}

fn print_text<M: Memory, K: Sink>(frame: &Frame, memory: &mut M, out: &mut K, text: &Text) -> Did
    requires { CanMove (M.means memory.old) frame.now.block.0 (text_printed text.now (frame_of frame.now)) }
    ensures done { ActsWriting (M.means memory.old) (M.means memory.new) (K.written out.old) (K.written out.new)
        frame.now.block.0 result (text_printed text.now (frame_of frame.now)) }
    ensures faults { CountsFault result (K.faults out.old) (K.faults out.new) }
{
    if put(out, text) {
        memory.drop_top(frame.block);
        memory.push(frame.block, Scalar::Int(1));
        return Did::Goes;
    }
    Did::SinkFault
}
