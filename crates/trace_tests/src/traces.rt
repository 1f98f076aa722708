//! Traces of small groups, line by line.
ghost use Rattle.std.specs.Prelude.{◌≡◌, false};

use dos_io::{MemorySink, Quiet};
use dos_world::{Config, Ending, Scheme};
use dpg_run::open_group;
use elf_image::{Image, read_image};
use group_rounds::Kernel;
use page_trace::{TraceStop, run_traced};
use rv_asm::Builder;
use std::alloc::Global;
use std::process::Abort;
use std::thread::Threads;
use worker_pool::{Serial, Tally};

/// Where the code begins.
const CODE: u32 = 0x10000;

/// Ends with status 0.
const ENDS: &[u32] = &[0x0020_0893, 0x0000_0073];

/// Two threads read a word of one page, yield, and store it with one added: they race for the page.
const RACES: &[u32] = &[
    0x0030_0893,
    0x0000_0517,
    0x0145_0513,
    0x0000_0073,
    0x0170_0893,
    0x0000_0073,
    0x0000_0417,
    0x0384_2283,
    0x0170_0893,
    0x0000_0073,
    0x0012_8293,
    0x0254_2C23,
    0x0000_0073,
    0x0080_0893,
    0x0010_0513,
    0x0384_0593,
    0x0010_0613,
    0x0000_0073,
    0x0010_0893,
    0x0000_0073,
    0x0000_0030,
];

fn word(rt: &impl Abort, builder: &mut Builder, word: u32) {
    builder.word(word).expect(rt, "memory");
}

fn image(rt: &impl Abort, alloc: Global, words: &[u32]) -> Image {
    let mut builder = Builder::new(alloc, CODE, true).expect(rt, "memory");
    for one in words {
        word(rt, &mut builder, *one);
    }
    let bytes = builder.finish().expect(rt, "an image");
    let image = read_image(alloc, &bytes).expect(rt, "an image");
    drop(bytes);
    image
}

fn opened(rt: &impl Abort, alloc: Global, words: &[u32]) -> Kernel
    ensures running { result.failed ≡ false }
{
    let images = [image(rt, alloc, words)];
    let config = Config {
        quantum: 1000,
        rounds: 100_000,
        frames: 4096,
        scheme: Scheme::Ownership,
    };
    let kernel = open_group(alloc, &images, config).expect(rt, "room");
    drop(images);
    kernel
}

fn trace<R: Threads + Sync + Abort>(
    rt: &R,
    alloc: Global,
    words: &[u32],
    lines: &mut MemorySink,
) -> Result<Ending, TraceStop> {
    let mut kernel = opened(rt, alloc, words);
    let mut shim = Quiet::new(alloc);
    let mut out = MemorySink::new(alloc, 4096, &[]).expect(rt, "memory");
    let mut err = MemorySink::new(alloc, 4096, &[]).expect(rt, "memory");
    let mut tally = Tally::new();
    let mut workers: Serial<'_, R> = Serial::new(&mut tally);
    let ended = run_traced(
        alloc,
        &mut kernel,
        &mut shim,
        &mut out,
        &mut err,
        lines,
        &mut workers,
    );
    drop(kernel);
    drop(out);
    drop(err);
    ended
}

/// Traces a group whose put of this number fails, and compares what is left of the lines.
fn check<R: Threads + Sync + Abort>(
    rt: &R,
    alloc: Global,
    words: &[u32],
    failing: &[u32],
    wanted: (Result<Ending, TraceStop>, &str),
) {
    let mut lines = MemorySink::new(alloc, 4096, failing).expect(rt, "memory");
    let ended = trace(rt, alloc, words, &mut lines);
    assert_eq!(rt; (ended, lines.bytes()), (wanted.0, wanted.1.as_bytes()));
    drop(lines);
}

/// All frames of a group that ends in its first round are freed in it.
#[test]
fn what_ends_at_once_frees_its_frames(rt: HostRuntime) {
    let lines = "round 1 frame 0 thread 1 to free\nround 1 frame 1 thread 1 to free\n\
        round 1 frame 2 thread 1 to free\nround 1 frame 3 thread 1 to free\n\
        round 1 frame 4 thread 1 to free\nround 1 frame 5 thread 1 to free\n\
        round 1 frame 6 thread 1 to free\nround 1 frame 7 thread 1 to free\n\
        round 1 frame 8 thread 1 to free\nround 1 frame 9 thread 1 to free\n\
        round 1 frame 10 thread 1 to free\nround 1 frame 11 thread 1 to free\n\
        round 1 frame 12 thread 1 to free\nround 1 frame 13 thread 1 to free\n\
        round 1 frame 14 thread 1 to free\nround 1 frame 15 thread 1 to free\n\
        round 1 frame 16 thread 1 to free\n";
    check(&rt, rt.alloc(), ENDS, &[], (Ok(Ending::Done), lines));
}

/// A page that two threads store to goes from the one to the other; what is granted within a round
/// and taken again in it isn't seen.
#[test]
fn a_page_goes_to_and_fro(rt: HostRuntime) {
    let lines = "round 2 frame 0 thread 1 to shared\nround 3 frame 0 shared to thread 2\n\
        round 4 frame 0 thread 2 to free\nround 4 frame 1 thread 1 to free\n\
        round 4 frame 2 thread 1 to free\nround 4 frame 3 thread 1 to free\n\
        round 4 frame 4 thread 1 to free\nround 4 frame 5 thread 1 to free\n\
        round 4 frame 6 thread 1 to free\nround 4 frame 7 thread 1 to free\n\
        round 4 frame 8 thread 1 to free\nround 4 frame 9 thread 1 to free\n\
        round 4 frame 10 thread 1 to free\nround 4 frame 11 thread 1 to free\n\
        round 4 frame 12 thread 1 to free\nround 4 frame 13 thread 1 to free\n\
        round 4 frame 14 thread 1 to free\nround 4 frame 15 thread 1 to free\n\
        round 4 frame 16 thread 1 to free\n";
    check(&rt, rt.alloc(), RACES, &[], (Ok(Ending::Done), lines));
}

/// A line that fails in mid-trace leaves those before it, and ends the run.
#[test]
fn a_line_that_fails_leaves_those_before_it(rt: HostRuntime) {
    let lines = "round 2 frame 0 thread 1 to shared\nround 3 frame 0 shared to thread 2\n";
    let wanted = (Err(TraceStop::LineFault), lines);
    check(&rt, rt.alloc(), RACES, &[3], wanted);
}
