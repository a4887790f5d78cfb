// A whole run.
ghost use Rattle.std.specs.Prelude.{◌≡◌, ◌<◌};
ghost use Rattle.php_actions.specs.Data.{Data};
ghost use Rattle.php_vm.specs.Running.{NeverStuck, control_of};
ghost use Rattle.php_vm.specs.Finishing.{BeginsWith, Finishes, StopFaults};

use crate::state::State;
use crate::step::step;
use crate::steps::Steps;
use crate::stop::{Ended, Stop};
use php_base::Sink;
use php_code::Program;
use php_frames::Frame;
use php_memdef::Memory;
use php_vm_actions::Did;
use std::alloc::Global;
use std::marker::Brand;
use std::sync::ledger::{Blank, Ledger};

/// A run that is about to begin: the memory, and the frame of the script's own part.
pub struct Vm<M> {
    pub memory: M,
    pub frame: Frame,
}

impl<M: Memory> Vm<M> {
    /// Runs a program from the data with which it begins, until it is over, takes so many ticks at most, and hands
    /// the memory back. Each text that is echoed is written as it comes.
    ///
    /// It answers exactly how the code's run ends, with its ticks and its output, and the memory means what the run
    /// made. SinkFault and NoMemory come with the beginning of that output, and no more ticks.
    pub fn run<K: Sink>(
        self,
        alloc: Global,
        program: &Program,
        allowance: u64,
        out: &mut K,
    ) -> Ended<M>
        ghost begun: { Data }
        requires begins { BeginsWith (M.means self.memory) self.frame allowance begun }
        requires runnable { NeverStuck program.now begun (control_of self.frame) }
        ensures ends { Finishes program.now begun (control_of self.frame) (M.means result.memory)
            (K.written out.new) (K.written out.old) result.ticks result.stop }
        ensures faults { StopFaults result.stop (K.faults out.old) (K.faults out.new) }
    {
        let Vm { mut memory, frame } = self;
        let mut state = State {
            frame,
            left: allowance,
            taken: 0,
        };
        let stop = run_all(alloc, program, &mut state, &mut memory, out);
        Ended {
            stop,
            ticks: state.taken,
            memory,
        }
    }
}

// Runs from a state in which no tick was taken.
fn run_all<M: Memory, K: Sink>(
    alloc: Global,
    program: &Program,
    state: &mut State,
    memory: &mut M,
    out: &mut K,
) -> Stop
    ghost begun: { Data }
    requires fresh { state.old.taken ≡ 0 }
    requires begins { BeginsWith (M.means memory.old) state.old.frame state.old.left begun }
    requires runnable { NeverStuck program.now begun (control_of state.old.frame) }
    ensures ends { Finishes program.now begun (control_of state.old.frame) (M.means memory.new)
        (K.written out.new) (K.written out.old) state.new.taken result }
    ensures faults { StopFaults result (K.faults out.old) (K.faults out.new) }
{
    run_on::<M, K, Brand>(alloc, program, state, memory, out, Blank::new(1))
}

// Goes on until the run is over. It ends since any code does: what is left of the steps that this takes falls
// with each step.
fn run_on<M: Memory, K: Sink, L: Ledger>(
    alloc: Global,
    program: &Program,
    state: &mut State,
    memory: &mut M,
    out: &mut K,
    blank: Blank,
) -> Stop
    ghost begun: { Data }
    requires name { blank.name ≡ L.name }
    requires parts { blank.parts ≡ L.parts }
    requires some { 0 < blank.parts }
    requires fresh { state.old.taken ≡ 0 }
    requires begins { BeginsWith (M.means memory.old) state.old.frame state.old.left begun }
    requires runnable { NeverStuck program.now begun (control_of state.old.frame) }
    ensures ends { Finishes program.now begun (control_of state.old.frame) (M.means memory.new)
        (K.written out.new) (K.written out.old) state.new.taken result }
    ensures faults { StopFaults result (K.faults out.old) (K.faults out.new) }
{
    let mut count = Steps::<L>::new(blank);
    'steps: loop {
        match step(alloc, program, state, memory, out) {
            Did::Goes => count.tick(),
            Did::Ends(cause) => return Stop::Ends(cause),
            Did::SinkFault => return Stop::SinkFault,
            Did::NoMemory => return Stop::NoMemory,
        }
    }
}
