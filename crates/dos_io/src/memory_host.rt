// A host in memory, which fails at the calls that it is told to.
ghost use Rattle.std.specs.Prelude.{◌≡◌, ◌≤◌, ◌<◌, ◌++◌, ◌∷◌, [], is_ok, length, take, drop};
ghost use Rattle.std.specs.Prelude.{IfOk, OnOk, OnErr, IfSome};
ghost use Rattle.dos_io.specs.Outside.{HasCause};
ghost use Rattle.dos_io.specs.Calls.{no_calls, after_call};
ghost use Rattle.dos_io.specs.Hosts.{taken, after_input, before_reading};
ghost use Rattle.dos_io.specs.HostMemory.{told_by, input_succeeds, clock_succeeds, after_taking};

use crate::calls::Calls;
use crate::host_trail::HostTrail;
use crate::{Host, HostFault, HostQuestion};
use std::alloc::{AllocError, Global};
use std::marker::Model;

/// A host in memory. Its input comes in pieces of one size, the last one perhaps shorter. It fails
/// at the calls whose numbers it is given, and where no reading is left, and at no other call.
#[derive(Drop)]
pub struct MemoryHost {
    input: Vec<u8>,
    given: usize,
    first: usize,
    size: usize,
    clocks: Vec<u64>,
    read: usize,
    calls: Calls,
    asked: HostTrail,
}

impl Model for MemoryHost {
    ghost use Rattle.std.specs.Prelude.{◌≤◌, drop, vec_len};
    ghost use Rattle.dos_io.specs.HostMemory.{HostState};

    ghost Value = { HostState };

    ghost view = { λ h. record {
      left = drop h.given h.input.items;
      first = h.first;
      size = h.size;
      readings = drop h.read h.clocks.items;
      calls = h.calls;
      asked = h.asked.questions;
    } };

    ghost invariant = { λ h. (1 ≤ h.first) × (h.first ≤ h.size) × (h.given ≤ vec_len h.input)
        × (h.read ≤ vec_len h.clocks) };
}

impl MemoryHost {
    /// A host with this input, in pieces of `piece` bytes, and these readings. `failing` has the
    /// numbers of the calls that are to fail, counted from 1.
    pub fn new(
        alloc: Global,
        input: &[u8],
        piece: u32,
        clocks: &[u64],
        failing: &[u32],
    ) -> Result<MemoryHost, AllocError>
        requires { 1 ≤ piece }
        ensures { IfOk result (λ host. host ≡ record {
          left = input.now;
          first = piece;
          size = piece;
          readings = clocks.now;
          calls = no_calls failing.now;
          asked = [];
        }) }
    {
        Ok(MemoryHost {
            input: Vec::from_slice(alloc, input)?,
            given: 0,
            first: piece as usize,
            size: piece as usize,
            clocks: Vec::from_slice(alloc, clocks)?,
            read: 0,
            calls: Calls::new(alloc, failing)?,
            asked: HostTrail::new(),
        })
    }

    // How many bytes a call for at most `max` takes.
    fn next_count(&self, max: usize) -> usize
        ensures max { result ≤ max }
        ensures first { result ≤ self.now.first }
        ensures left { result ≤ length self.now.left }
        ensures one { 0 < max → 0 < length self.now.left → 0 < result }
        ensures most { (result < max) → (result < self.now.first) → result ≡ length self.now.left }
    {
        max.min(self.first).min(self.input.len() - self.given)
    }

    // Takes so many bytes from the front.
    fn take(&mut self, buf: &mut [u8], count: usize)
        requires first { count ≤ self.old.first }
        requires left { count ≤ length self.old.left }
        requires room { count ≤ length buf.old }
        ensures bytes { take count buf.new ≡ take count self.old.left }
        ensures rest { drop count buf.new ≡ drop count buf.old }
        ensures state { self.new ≡ after_taking count self.old }
    {
        buf[..count].copy_from_slice(&self.input[self.given..self.given + count]);
        self.given += count;
        self.first = if count == self.first {
            self.size
        } else {
            self.first - count
        };
    }
}

impl Host for MemoryHost {
    ghost use Rattle.dos_io.specs.HostMemory.{told_by};
    ghost use Rattle.dos_io.specs.HostFilled.{pieces_filled};

    ghost told = { told_by };

    ghost asked = { λ h. h.asked };

    ghost faults = { λ h. h.calls.faults };

    fn input(&mut self, buf: &mut [u8]) -> Result<usize, HostFault>
        requires { 0 < length buf.old }
        ensures answer { is_ok result ≡ input_succeeds self.old }
        ensures calls { self.new.calls ≡ after_call self.old.calls (input_succeeds self.old) }

        // As of every host.
        ensures short { IfOk result (λ k. k ≤ length buf.old) }
        ensures bytes { IfOk result (λ k. IfSome (told_by self.old)
            (λ t. take k buf.new ≡ (taken (length buf.old) t.pieces).0)) }
        ensures rest { IfOk result (λ k. drop k buf.new ≡ drop k buf.old) }
        ensures told_ok { OnOk result (told_by self.new ≡ after_input (length buf.old)
            (told_by self.old)) }
        ensures told_err { OnErr result (told_by self.new ≡ told_by self.old) }
        ensures asked { self.new.asked
            ≡ self.old.asked ++ HostQuestion.Bytes (length buf.old) ∷ [] }
        ensures cause { HasCause self.old.calls.faults self.new.calls.faults result }
        ensures steady { OnOk result (self.new.calls.faults ≡ self.old.calls.faults) }
    {
        self.asked = HostTrail::then(&self.asked, &HostQuestion::Bytes { most: buf.len() });
        if !self.calls.count(true) {
            return Err(HostFault {});
        }
        let count = self.next_count(buf.len());
        self.take(buf, count);
        Ok(count)
    }

    fn clock(&mut self) -> Result<u64, HostFault>
        ensures answer { is_ok result ≡ clock_succeeds self.old }
        ensures calls { self.new.calls ≡ after_call self.old.calls (clock_succeeds self.old) }

        // As of every host.
        ensures told_ok { IfOk result (λ n. told_by self.old ≡ before_reading n
            (told_by self.new)) }
        ensures told_err { OnErr result (told_by self.new ≡ told_by self.old) }
        ensures asked { self.new.asked ≡ self.old.asked ++ HostQuestion.Reading ∷ [] }
        ensures cause { HasCause self.old.calls.faults self.new.calls.faults result }
        ensures steady { OnOk result (self.new.calls.faults ≡ self.old.calls.faults) }
    {
        self.asked = HostTrail::then(&self.asked, &HostQuestion::Reading);
        if !self.calls.count(self.read < self.clocks.len()) {
            return Err(HostFault {});
        }
        let reading = self.clocks[self.read];
        self.read += 1;
        Ok(reading)
    }

    ghost filled = { λ h. pieces_filled h.first h.size h.left };
}
