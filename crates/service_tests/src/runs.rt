//! Runs of guests, each a group of its own.
ghost use Rattle.std.specs.Prelude.{◌≡◌, false};
ghost use Rattle.dos_world.specs.Lawful.{IsConfig};
ghost use Rattle.dos_io.specs.Shims.{HasNoEnd};
ghost use Rattle.shim_log.specs.Ledger.{recorder_state};
ghost use Rattle.log_text.specs.Ranges.{FitsHeader};

use crate::checks::same_at;
use crate::guests::{Step, file};
use dos_io::{ClockRule, MemoryHost, MemorySink, Shim, Sink};
use dos_world::{Config, Ending, Post, Scheme};
use dpg_run::{open_group, put_report, run_group};
use elf_image::{Image, read_image};
use group_rounds::Kernel;
use log_text::{Digests, LogHeader};
use shim_log::Recorder;
use std::alloc::Global;
use std::process::Abort;
use std::thread::Threads;
use worker_pool::{Serial, Tally, Workers};

/// What comes to input, in pieces of four bytes.
const INPUT: &[u8] = b"0123456789";

/// What the clock reads.
const READINGS: [u64; 2] = [0x1_0000_0002, 0xffff_ffff];

/// In each of these rounds the signal, 1 to 31, is posted to the process. No round is 0.
#[derive(Clone, Copy)]
pub struct Posts {
    pub rounds: [u32; 5],
    pub pid: u32,
    pub signal: u8,
}

/// No post.
pub const NOTHING: Posts = Posts {
    rounds: [0; 5],
    pid: 1,
    signal: 1,
};

/// Signal 10 in round 2.
pub const IN_2: Posts = Posts {
    rounds: [2, 0, 0, 0, 0],
    pid: 1,
    signal: 10,
};

/// Signal 10 in each of the rounds 2 to 6.
pub const IN_2_TO_6: Posts = Posts {
    rounds: [2, 3, 4, 5, 6],
    pid: 1,
    signal: 10,
};

/// A guest; how it is run; and what it leaves: the words that it tells, and the report.
#[derive(Clone, Copy)]
pub struct Row {
    pub quantum: u32,
    pub frames: u32,
    pub scheme: Scheme,
    pub posts: Posts,
    pub guest: &'static [&'static [Step]],
    pub told: &'static [i32],
    pub ending: Ending,
    pub report: &'static str,
}

/// A row of a guest that does and tells nothing, under the usual numbers in the ownership scheme.
pub const USUAL: Row = Row {
    quantum: 1000,
    frames: 4096,
    scheme: Scheme::Ownership,
    posts: NOTHING,
    guest: &[],
    told: &[],
    ending: Ending::Done,
    report: "",
};

fn config_of(row: &Row) -> Config
    ensures { IsConfig result }
{
    Config {
        quantum: row.quantum.clamp(16, 65536),
        rounds: 100_000,
        frames: row.frames.clamp(16, 16384),
        scheme: row.scheme,
    }
}

fn header() -> LogHeader
    ensures { FitsHeader result }
{
    let mut digests = Digests::new();
    digests.push([0; 32]);
    LogHeader {
        quantum: 1000,
        rounds: 100_000,
        frames: 4096,
        digests,
    }
}

fn recorder<'h>(
    rt: &impl Abort,
    alloc: Global,
    host: &'h mut MemoryHost,
    posts: &Posts,
) -> Recorder<'h, MemoryHost>
    ensures { HasNoEnd (recorder_state result.ledger).told }
{
    let Posts {
        rounds,
        pid,
        signal,
    } = *posts;
    if signal < 1 || signal > 31 || pid > 65535 {
        panic!(rt; "no signal or no process has this number");
    }
    let post = Post { pid, signal };
    let planned = [
        (rounds[0], post),
        (rounds[1], post),
        (rounds[2], post),
        (rounds[3], post),
        (rounds[4], post),
    ];
    Recorder::new(alloc, host, &planned, ClockRule::FromHost, header()).expect(rt, "memory")
}

fn add_bytes(rt: &impl Abort, bytes: &mut Vec<u8>, more: &[u8]) {
    bytes.extend_from_slice(more).expect(rt, "memory");
}

// the words, each little-endian
fn bytes_of(rt: &impl Abort, alloc: Global, words: &[i32]) -> Vec<u8> {
    let mut bytes = Vec::new(alloc);
    for word in words {
        add_bytes(rt, &mut bytes, &word.to_le_bytes());
    }
    bytes
}

/// The image of a guest of these parts.
pub fn image(rt: &impl Abort, alloc: Global, guest: &[&[Step]]) -> Image {
    let bytes = file(rt, alloc, guest);
    let image = read_image(alloc, &bytes).expect(rt, "an image");
    drop(bytes);
    image
}

// the guest's group, which has run no round
fn opened(rt: &impl Abort, alloc: Global, row: &Row) -> Kernel
    ensures running { result.failed ≡ false }
    ensures fresh { result.state.round ≡ 1 }
{
    let images = [image(rt, alloc, row.guest)];
    let kernel = open_group(alloc, &images, config_of(row)).expect(rt, "room");
    drop(images);
    kernel
}

fn reported<E: Sink>(kernel: &Kernel, ending: Ending, err: &mut E) -> Option<Ending> {
    match put_report(kernel, ending, err) {
        Ok(()) => Some(ending),
        Err(_) => None,
    }
}

// the run of a group, with its report
fn play<S: Shim, O: Sink, E: Sink, W: Workers>(
    kernel: &mut Kernel,
    shim: &mut S,
    out: &mut O,
    err: &mut E,
    workers: &mut W,
) -> Option<Ending>
    requires running { kernel.old.failed ≡ false }
    requires fresh { kernel.old.state.round ≡ 1 }
    requires told { HasNoEnd (S.state shim.old).told }
{
    match run_group(kernel, shim, out, err, workers) {
        Ok(ending) => reported(kernel, ending, err),
        Err(_) => None,
    }
}

// A sink with room for 4096 bytes.
fn sink(rt: &impl Abort, alloc: Global) -> MemorySink {
    MemorySink::new(alloc, 4096, &[]).expect(rt, "memory")
}

fn run_row<R: Threads + Sync + Abort>(
    rt: &R,
    alloc: Global,
    row: &Row,
    out: &mut MemorySink,
    err: &mut MemorySink,
) -> Option<Ending> {
    let mut host = MemoryHost::new(alloc, INPUT, 4, &READINGS, &[]).expect(rt, "memory");
    let mut shim = recorder(rt, alloc, &mut host, &row.posts);
    let mut kernel = opened(rt, alloc, row);
    let mut tally = Tally::new();
    let mut workers: Serial<'_, R> = Serial::new(&mut tally);
    let ending = play(&mut kernel, &mut shim, out, err, &mut workers);
    drop(kernel);
    drop(shim);
    drop(host);
    ending
}

fn check_row<R: Threads + Sync + Abort>(rt: &R, alloc: Global, row: &Row) {
    let mut out = sink(rt, alloc);
    let mut err = sink(rt, alloc);
    let ending = run_row(rt, alloc, row, &mut out, &mut err);
    let told = bytes_of(rt, alloc, row.told);
    let seen = (ending, out.bytes(), err.bytes());
    let wanted = (Some(row.ending), told.as_slice(), row.report.as_bytes());
    same_at(rt, seen, wanted, row.report);
    drop(told);
    drop(out);
    drop(err);
}

/// Runs the guests of these rows in the buffered scheme, in which they leave what the rows say too.
pub fn check_buffered<R: Threads + Sync + Abort>(rt: &R, alloc: Global, rows: &[Row]) {
    for row in rows {
        let buffered = Row {
            scheme: Scheme::Buffered,
            ..*row
        };
        check_row(rt, alloc, &buffered);
    }
}

/// Runs the guests of these rows, one after another. The first that leaves something else fails.
pub fn check_rows<R: Threads + Sync + Abort>(rt: &R, alloc: Global, rows: &[Row]) {
    for row in rows {
        check_row(rt, alloc, row);
    }
}
