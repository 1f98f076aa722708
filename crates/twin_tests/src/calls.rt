//! Calls of the top, and what they leave.

use crate::guests::{COPIES, files_with, words_of};
use dos_io::{MemoryHost, MemorySink};
use dos_twin::twin_main;
use std::alloc::Global;
use std::process::Abort;
use std::sync::Wait;
use std::thread::Threads;
use worker_pool::{OpenGate, Stealing, Tally};

/// A call: its words, its guest's code and text, what the host gives in which pieces, and the calls
/// that fail of the files, the host and each output, counted from 1.
#[derive(Clone, Copy)]
pub struct Call {
    pub words: &'static [&'static str],
    pub code: &'static [u32],
    pub text: &'static [u8],
    pub input: &'static [u8],
    pub piece: u32,
    pub clocks: &'static [u64],
    pub files_failing: u32,
    pub host_failing: u32,
    pub out_failing: u32,
    pub err_failing: u32,
    pub second_out_failing: u32,
    pub second_err_failing: u32,
}

/// A guest that copies its input, where nothing fails.
pub const COPY: Call = Call {
    words: &["a"],
    code: &COPIES,
    text: b"",
    input: b"0123456789",
    piece: 64,
    clocks: &[],
    files_failing: 0,
    host_failing: 0,
    out_failing: 0,
    err_failing: 0,
    second_out_failing: 0,
    second_err_failing: 0,
};

/// What a call leaves: its status, and what the four outputs hold.
#[derive(Clone, Copy)]
pub struct Left<'a> {
    pub status: u8,
    pub out: &'a str,
    pub err: &'a str,
    pub second_out: &'a str,
    pub second_err: &'a str,
}

// An output whose put of this number fails; none has the number 0.
fn sink(rt: &impl Abort, alloc: Global, failing: u32) -> MemorySink {
    MemorySink::new(alloc, 4000, &[failing]).expect(rt, "memory")
}

fn holds(rt: &impl Abort, name: &str, sink: &MemorySink, wanted: &str) {
    let same = sink.bytes() == wanted.as_bytes();
    assert!(rt; same, "{name} isn't {wanted:?}");
}

/// The call leaves this.
pub fn leaves<R: Threads + Wait + Sync + Abort>(
    rt: &R,
    alloc: Global,
    call: &Call,
    wanted: &Left<'_>,
) {
    let mut files = files_with(rt, alloc, call.code, call.text, &[call.files_failing]);
    let words = words_of(rt, alloc, call.words);
    let mut host = MemoryHost::new(
        alloc,
        call.input,
        call.piece.max(1),
        call.clocks,
        &[call.host_failing],
    )
    .expect(rt, "memory");
    let mut out = sink(rt, alloc, call.out_failing);
    let mut err = sink(rt, alloc, call.err_failing);
    let mut second_out = sink(rt, alloc, call.second_out_failing);
    let mut second_err = sink(rt, alloc, call.second_err_failing);
    let gate = OpenGate::new();
    let mut tally = Tally::new();
    let mut workers = Stealing::new(rt, alloc, 2, &gate, &mut tally);
    let status = twin_main(
        rt,
        alloc,
        &words,
        &mut files,
        &mut host,
        &mut out,
        &mut err,
        &mut second_out,
        &mut second_err,
        &mut workers,
    );
    assert!(rt;
        status == wanted.status,
        "status {status} and not {}",
        wanted.status
    );
    holds(rt, "output", &out, wanted.out);
    holds(rt, "error", &err, wanted.err);
    holds(rt, "the second output", &second_out, wanted.second_out);
    holds(rt, "the second error", &second_err, wanted.second_err);
}

/// The call ends with this status; both outputs hold this, and so do both errors, but for the last
/// lines, which the leader's has.
pub fn both<R: Threads + Wait + Sync + Abort>(
    rt: &R,
    alloc: Global,
    call: &Call,
    wanted: (u8, &str, &str, &str),
) {
    let (status, out, error, err) = wanted;
    let left = Left {
        status,
        out,
        err,
        second_out: out,
        second_err: error,
    };
    leaves(rt, alloc, call, &left);
}
