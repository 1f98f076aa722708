//! The follower runs beside its leader: the host's second call waits until the follower has put a
//! byte.
ghost use Rattle.std.specs.Prelude.{◌≡◌, ◌<◌, ◌≤◌, ◌++◌, ◌∷◌, [], length, drop, None, IfOk, OnOk};
ghost use Rattle.dos_io.specs.Outside.{HasCause};

use crate::guests::{COPIES, files_with, words_of};
use dos_io::{Host, HostFault, HostQuestion, MemoryHost, MemorySink, Sink, SinkFault};
use dos_twin::twin_main;
use std::hint;
use std::sync::atomic::{AtomicU64, Ordering};
use worker_pool::{OpenGate, Stealing, Tally};

/// How often it looks.
const TURNS: u64 = 10_000_000;

// A sink that notes that a byte was put.
#[derive(Drop)]
struct Noting<'a> {
    sink: MemorySink,
    seen: &'a AtomicU64,
}

impl Sink for Noting<'_> {
    ghost told = { λ _. None };

    ghost faults = { λ s. s.sink.calls.faults };

    fn put(&mut self, piece: &[u8]) -> Result<(), SinkFault> {
        self.sink.put(piece)?;
        if !piece.is_empty() {
            self.seen.store(1, Ordering::SeqCst);
        }
        Ok(())
    }
}

// Calls of which the second waits until a byte was put, for so many turns at most.
#[derive(Drop)]
struct Turns<'a> {
    calls: u64,
    missed: bool,
    seen: &'a AtomicU64,
}

impl Turns<'_> {
    fn hold(&mut self) {
        if self.calls == 1 {
            let mut seen = false;
            for _ in 0..TURNS {
                if self.seen.load(Ordering::SeqCst) == 1 {
                    seen = true;
                    break;
                }
                hint::spin_loop();
            }
            self.missed = !seen;
        }
        self.calls = self.calls.saturating_add(1);
    }
}

// A host whose calls are these.
#[derive(Drop)]
struct Holding<'a> {
    host: MemoryHost,
    turns: Turns<'a>,
}

impl Host for Holding<'_> {
    ghost told = { λ _. None };

    ghost asked = { λ s. s.host.asked };

    ghost faults = { λ s. s.host.calls.faults };

    fn input(&mut self, buf: &mut [u8]) -> Result<usize, HostFault>
        requires { 0 < length buf.old }
        ensures short { IfOk result (λ k. k ≤ length buf.old) }
        ensures rest { IfOk result (λ k. drop k buf.new ≡ drop k buf.old) }
        ensures asked { self.new.host.asked
            ≡ self.old.host.asked ++ HostQuestion.Bytes (length buf.old) ∷ [] }
        ensures cause { HasCause self.old.host.calls.faults self.new.host.calls.faults result }
        ensures steady { OnOk result (self.new.host.calls.faults
            ≡ self.old.host.calls.faults) }
    {
        self.turns.hold();
        self.host.input(buf)
    }

    fn clock(&mut self) -> Result<u64, HostFault> {
        self.turns.hold();
        self.host.clock()
    }

    ghost filled = { λ _. tt };
}

#[test]
fn follower_runs_beside(rt: HostRuntime) {
    let alloc = rt.alloc();
    let seen = AtomicU64::new(0);
    let mut files = files_with(&rt, alloc, &COPIES, b"", &[]);
    let words = words_of(&rt, alloc, &["a"]);
    let mut host = Holding {
        host: MemoryHost::new(alloc, b"0123456789", 64, &[], &[]).expect(&rt, "memory"),
        turns: Turns {
            calls: 0,
            missed: false,
            seen: &seen,
        },
    };
    let mut out = MemorySink::new(alloc, 100, &[]).expect(&rt, "memory");
    let mut err = MemorySink::new(alloc, 100, &[]).expect(&rt, "memory");
    let mut second_out = Noting {
        sink: MemorySink::new(alloc, 100, &[]).expect(&rt, "memory"),
        seen: &seen,
    };
    let mut second_err = MemorySink::new(alloc, 100, &[]).expect(&rt, "memory");
    let gate = OpenGate::new();
    let mut tally = Tally::new();
    let mut workers = Stealing::new(&rt, alloc, 2, &gate, &mut tally);
    let status = twin_main(
        &rt,
        alloc,
        &words,
        &mut files,
        &mut host,
        &mut out,
        &mut err,
        &mut second_out,
        &mut second_err,
        &mut workers,
    );
    assert!(rt; status == 0, "status {status} and not 0");
    assert!(rt; !host.turns.missed, "the follower ran behind its leader");
}
