//! The recorder, over hosts in memory.
ghost use Rattle.std.specs.Prelude.{IfOk};
ghost use Rattle.dos_io.specs.Shims.{HasNoEnd};
ghost use Rattle.shim_log.specs.Ledger.{recorder_state};
ghost use Rattle.log_text.specs.Ranges.{FitsHeader};

use crate::hosts::brings;
use crate::shims::{answers_clock, answers_input, answers_signals, came, fills};
use crate::texts::{SMALLEST, are, is_written};
use dos_io::{ClockRule, HostFault, MemoryHost, Shim, ShimStop, SignalList};
use dos_world::{Ending, Post};
use log_text::{Digests, Log, LogHeader};
use shim_log::{Ledger, Recorder};
use std::alloc::{AllocError, Global};
use std::process::Abort;

/// The usual numbers, and one digest.
fn header() -> LogHeader
    ensures { FitsHeader result }
{
    let mut digests = Digests::new();
    digests.push([7; 32]);
    LogHeader {
        quantum: 1000,
        rounds: 100_000,
        frames: 4096,
        digests,
    }
}

/// A recorder that was asked nothing yet. In round 2 signal 15 comes to process 1.
pub fn recorder<'h>(
    alloc: Global,
    host: &'h mut MemoryHost,
    clock: ClockRule,
) -> Result<Recorder<'h, MemoryHost>, AllocError>
    ensures { IfOk result (λ shim. HasNoEnd (recorder_state shim.ledger).told) }
{
    let posts = [(2, Post { pid: 1, signal: 15 })];
    let ledger = Ledger::new(alloc, &posts, clock, header())?;
    Ok(Recorder::of(host, ledger))
}

/// The log, where the run is done after so many rounds.
pub fn finished(mut shim: Recorder<'_, MemoryHost>, rounds: u32) -> Result<Log, ShimStop>
    requires { HasNoEnd (recorder_state shim.ledger).told }
{
    shim.end(Ending::Done, rounds)?;
    let (_, log) = shim.into_parts();
    Ok(log)
}

#[test]
fn a_run_without_answers_has_the_smallest_log(rt: HostRuntime) {
    let mut host = MemoryHost::new(rt.alloc(), b"", 1, &[], &[]).expect(&rt, "memory");
    let mut shim = recorder(rt.alloc(), &mut host, ClockRule::FromHost).expect(&rt, "memory");
    let mut list = SignalList::new();
    answers_signals(&rt, &mut shim, 1, &mut list, Ok(()));
    let log = finished(shim, 1).expect(&rt, "a log");
    is_written(&rt, rt.alloc(), &log, &SMALLEST);
    drop(log);
    drop(host);
}

#[test]
fn a_round_has_its_posts(rt: HostRuntime) {
    let mut host = MemoryHost::new(rt.alloc(), b"", 1, &[], &[]).expect(&rt, "memory");
    let mut shim = recorder(rt.alloc(), &mut host, ClockRule::FromHost).expect(&rt, "memory");
    let mut list = SignalList::new();
    answers_signals(&rt, &mut shim, 1, &mut list, Ok(()));
    came(&rt, &list, 0);
    answers_signals(&rt, &mut shim, 2, &mut list, Ok(()));
    came(&rt, &list, 1);
    drop(shim);
    drop(host);
}

#[test]
fn a_counted_clock_counts(rt: HostRuntime) {
    let mut host = MemoryHost::new(rt.alloc(), b"", 1, &[], &[]).expect(&rt, "memory");
    let rule = ClockRule::Counted { from: 5, step: 3 };
    let mut shim = recorder(rt.alloc(), &mut host, rule).expect(&rt, "memory");
    answers_clock(&rt, &mut shim, Ok(5));
    answers_clock(&rt, &mut shim, Ok(8));
    answers_clock(&rt, &mut shim, Ok(11));
    drop(shim);
    drop(host);
}

// A host whose input is one byte, so many times, in pieces of 4096, and whose call of this number
// fails.
fn full_host(rt: &impl Abort, alloc: Global, byte: u8, count: usize, failing: u32) -> MemoryHost {
    let bytes = vec![in alloc; byte; count].expect(rt, "memory");
    let host = MemoryHost::new(alloc, &bytes, 4096, &[], &[failing]).expect(rt, "memory");
    drop(bytes);
    host
}

#[test]
fn a_full_log_asks_nothing_and_takes_what_is_smaller(rt: HostRuntime) {
    let mut host = full_host(&rt, rt.alloc(), 7, 66_895_872, 16334);
    let rule = ClockRule::Counted { from: 0, step: 1 };
    let mut shim = recorder(rt.alloc(), &mut host, rule).expect(&rt, "memory");
    let mut buf = [0; 4096];
    fills(&rt, &mut shim, &mut buf, 16332);
    answers_input(&rt, &mut shim, &mut buf, Err(ShimStop::LogFull));
    answers_clock(&rt, &mut shim, Ok(0));
    let asked = shim.into_host();
    // Its calls 1 to 16332 were made and none more: call 16334 alone fails.
    brings(&rt, asked, &mut buf, Ok(0));
    brings(&rt, asked, &mut buf, Err(HostFault {}));
    drop(host);
}

#[test]
fn any_input_passes(rt: HostRuntime) {
    let mut host = full_host(&rt, rt.alloc(), 0xff, 4099, 2);
    let mut shim = recorder(rt.alloc(), &mut host, ClockRule::FromHost).expect(&rt, "memory");
    let mut buf = [0; 4096];
    answers_input(&rt, &mut shim, &mut buf, Ok(4096));
    answers_input(&rt, &mut shim, &mut buf, Err(ShimStop::HostFault));
    answers_input(&rt, &mut shim, &mut buf, Ok(3));
    answers_input(&rt, &mut shim, &mut buf, Ok(0));
    are(&rt, &[buf[4095]], &[0xff]);
    drop(shim);
    drop(host);
}
