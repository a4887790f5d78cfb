// A whole script.
ghost use Rattle.std.specs.Prelude.{◌≡◌};
ghost use Rattle.php_ast.specs.declaration.View.{script_view};
ghost use Rattle.php_memdef.specs.Contents.{fresh};
ghost use Rattle.php_actions.specs.Effect.{nth_fact};
ghost use Rattle.php_actions.specs.Start.{room_if};
ghost use Rattle.php_actions.specs.Data.{Data};
ghost use Rattle.php_vm.specs.Running.{NeverStuck, control_of};
ghost use Rattle.php_vm.specs.Finishing.{BeginsWith, Finishes, StopFaults};
ghost use Rattle.php_runnable.specs.Arguments.{AreArguments};
ghost use Rattle.php_runnable.specs.Told.{IsScriptTold};
ghost use Rattle.php_runnable_code.specs.Runnable.{IsRunnable, first_data};
ghost use Rattle.php_vm_callers.specs.Beginnings.{bytes_of};
ghost use Rattle.php_vm_callers.specs.Outcomes.{HasRun, RunsAs};

use crate::start::{begin, can_run};
use php_ast::Script;
use php_base::Sink;
use php_code::Program;
use php_compile::compile;
use php_memdef::Memory;
use php_vm::{Ended, Stop, Vm};
use std::alloc::Global;

/// Runs a script, takes so many ticks at most, and hands the memory back. All forms of the script are told, and in the
/// memory nothing was made yet.
///
/// The words are its arguments: `$argv` is the list of them, and `$argc` their number. The first one is the name of the
/// script's own file, which the caller puts there; those that the command line has behind that name follow it. Where a
/// word or their number may be beyond its limit, ask `are_arguments` first.
///
/// It answers how the script's own run ends, with its ticks and its output. SinkFault and NoMemory come with the beginning of
/// that output, and no more ticks.
pub fn run_script<M: Memory, K: Sink>(
    alloc: Global,
    script: &Script,
    memory: M,
    allowance: u64,
    words: &[String],
    out: &mut K,
) -> Ended<M>
    requires told { IsScriptTold (script_view script.now) }
    requires arguments { AreArguments (bytes_of words.now) }
    requires nothing_made { M.means memory fresh }
    ensures runs { RunsAs (script_view script.now) allowance (bytes_of words.now) (M.means result.memory)
        (K.written out.new) (K.written out.old) result.ticks result.stop }
    ensures faults { StopFaults result.stop (K.faults out.old) (K.faults out.new) }
{
    match compile(alloc, script) {
        Ok(program) => run_program(alloc, &program, memory, allowance, words, out),
        Err(_) => Ended {
            stop: Stop::NoMemory,
            ticks: 0,
            memory,
        },
    }
}

/// Runs a program with these arguments, one that the machine may run, over a memory in which nothing was made yet.
pub fn run_program<M: Memory, K: Sink>(
    alloc: Global,
    program: &Program,
    memory: M,
    allowance: u64,
    words: &[String],
    out: &mut K,
) -> Ended<M>
    requires runnable { IsRunnable program.now }
    requires arguments { AreArguments (bytes_of words.now) }
    requires nothing_made { M.means memory fresh }
    ensures runs { HasRun program.now allowance (bytes_of words.now) (M.means result.memory)
        (K.written out.new) (K.written out.old) result.ticks result.stop }
    ensures faults { StopFaults result.stop (K.faults out.old) (K.faults out.new) }
{
    let mut memory = memory;
    let room = room_of(program, 0);
    match begin(alloc, &mut memory, room, words) {
        Ok(frame) => {
            can_run(program, &memory, &frame, room, allowance, words);
            run_from(alloc, program, Vm { memory, frame }, allowance, words, out)
        }
        Err(_) => Ended {
            stop: Stop::NoMemory,
            ticks: 0,
            memory,
        },
    }
}

// Runs from the data with which a run begins. The words are here so that the caller can tell that data by them.
fn run_from<M: Memory, K: Sink>(
    alloc: Global,
    program: &Program,
    vm: Vm<M>,
    allowance: u64,
    words: &[String],
    out: &mut K,
) -> Ended<M>
    ghost begun: { Data }
    requires data { begun ≡ first_data program.now allowance (bytes_of words.now) vm.frame.block }
    requires begins { BeginsWith (M.means vm.memory) vm.frame allowance begun }
    requires runnable { NeverStuck program.now begun (control_of vm.frame) }
    ensures ends { Finishes program.now begun (control_of vm.frame) (M.means result.memory)
        (K.written out.new) (K.written out.old) result.ticks result.stop }
    ensures faults { StopFaults result.stop (K.faults out.old) (K.faults out.new) }
{
    vm.run(alloc, program, allowance, out)
}

// The room that a function's block has for temporaries.
fn room_of(program: &Program, function: u32) -> usize
    ensures { result ≡ room_if (nth_fact program.now.facts.functions function) }
{
    match program.facts.functions.get(function as usize) {
        None => 0,
        Some(fact) => fact.room,
    }
}
