ghost use Rattle.std.specs.Prelude.{◌≡◌, ℕ, ◌+◌, ◌-◌, ◌<◌, ◌≤◌, ◌↔◌, [], ◌∷◌, ◌++◌, Some, OnOk, OnErr, IfOk, IsOk, IsErr, IsTrue, take, length};
ghost use Rattle.php_base.specs.Counts.{counted_up};
ghost use Rattle.php_base.specs.MemSink.{write_fails, taken};

use crate::memory::NoMemory;
use crate::sink::{Failed, Sink};
use std::alloc::Global;
use std::marker::Model;

/// A sink in memory, for tests: it keeps what was written, may take pieces by small steps, and
/// fails at chosen calls or where its room is used up.
#[derive(Drop)]
pub struct MemSink {
    written: Vec<u8>,
    step: usize,
    room: usize,
    failing: Vec<u64>,
    calls: u64,
    faults: u64,
}

impl Model for MemSink {
    ghost use Rattle.std.specs.Prelude.{◌+◌, ◌<◌, ◌≤◌, vec_len, vec_capacity};
    ghost use Rattle.php_base.specs.MemSink.{SinkState};

    ghost Value = { SinkState };

    ghost view = { λ sink. record {
      written = sink.written.items;
      step = sink.step;
      room = sink.room;
      failing = sink.failing.items;
      calls = sink.calls;
      faults = sink.faults;
    } };

    ghost invariant = { λ sink. (0 < sink.step) × (vec_len sink.written + sink.room ≤ vec_capacity sink.written) };
}

impl MemSink {
    /// A sink with nothing written. It takes at most `step` bytes at a call and `room` in all,
    /// whose memory it takes now.
    pub fn new(alloc: Global, step: usize, room: usize) -> Result<MemSink, NoMemory>
        requires { 0 < step }
        ensures { IfOk result (λ sink. sink ≡ record { written = []; step = step; room = room; failing = []; calls = 0; faults = 0 }) }
    {
        let written = Vec::with_capacity(alloc, room)?;
        Ok(MemSink {
            written,
            step,
            room,
            failing: Vec::new(alloc),
            calls: 0,
            faults: 0,
        })
    }

    /// Lets this call of `write` fail, counted from 1. A write of an empty piece is no call.
    pub fn fail_at(&mut self, call: u64) -> Result<(), NoMemory>
        ensures ok { OnOk result (self.new ≡ record self.old { failing = self.old.failing ++ call ∷ [] }) }
        ensures err { OnErr result (self.new ≡ self.old) }
    {
        self.failing.push(call)?;
        Ok(())
    }

    /// What was written so far.
    pub fn bytes(&self) -> &[u8]
        ensures { result.now ≡ self.now.written }
    {
        self.written.as_slice()
    }
}

impl Sink for MemSink {
    ghost written = { λ sink. Some sink.written };

    ghost faults = { λ sink. sink.faults };

    fn write(&mut self, piece: &[u8]) -> Result<usize, Failed>
        ensures nothing { length piece.now ≡ 0 → (result ≡ Ok 0) × (self.new ≡ self.old) }

        ensures fails { 0 < length piece.now → (IsErr result ↔ IsTrue (write_fails self.old)) }
        ensures err { OnErr result (self.new ≡ record self.old { calls = counted_up self.old.calls; faults = counted_up self.old.faults }) }

        ensures count { IfOk result (λ n. n ≡ taken self.old piece.now) }
        ensures state { 0 < length piece.now → IfOk result (λ n. self.new ≡ record self.old {
          written = self.old.written ++ take n piece.now;
          room = self.old.room - n;
          calls = counted_up self.old.calls;
        }) }

        ensures some { IfOk result (λ n. 0 < length piece.now → 0 < n) }
        ensures faults_stay { self.old.faults ≤ self.new.faults }

        // With no listed call and room for the piece it takes some of it.
        ensures never_fails { self.old.failing ≡ [] → length piece.now ≤ self.old.room → IsOk result }
    {
        if piece.is_empty() {
            return Ok(0);
        }
        self.calls = self.calls.saturating_add(1);
        if self.failing.contains(&self.calls) || self.room == 0 {
            self.faults = self.faults.saturating_add(1);
            return Err(Failed);
        }
        let n = piece.len().min(self.step).min(self.room);
        self.written.extend_from_slice(&piece[..n]).unwrap();
        self.room -= n;
        Ok(n)
    }
}
