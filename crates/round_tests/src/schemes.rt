// Rounds in both schemes, of small guests that share a page; what they leave is worked out by hand.
ghost use Rattle.std.specs.Prelude.{◌≡◌, ◌<◌, ◌≤◌, false};
ghost use Rattle.dos_io.specs.Quiet.{shown_by};
ghost use Rattle.dos_io.specs.Shims.{HasNoEnd};

use crate::checks::{same, same_at};
use crate::guests::{
    ADDS, CLAIMS, Data, LOOKS_AT_THE_OTHER, MAKES_ANOTHER, STORES_A_BYTE, WRITES_1024, WRITES_1025,
    YIELDS, file_with,
};
use crate::opening::word_at;
use crate::rounds::{Outside, opened, round_over};
use dos_world::{Config, Scheme};
use elf_image::read_image;
use group_rounds::{Kernel, RoundEnd};
use rv_isa::Instr;
use std::alloc::Global;
use std::process::Abort;
use std::thread::Threads;
use worker_pool::{OpenGate, Serial, Stealing, Tally, Workers};

/// The pages 0x11 and 0x12, which begin with the words 0, 0, 7 and 0x9000007. Page 0x10, of the
/// code, is in frame 0, so that they are in the frames 1 and 2.
const DATA: Data = Data {
    address: 0x1_1000,
    bytes: &[0, 0, 0, 0, 0, 0, 0, 0, 7, 0, 0, 0, 7, 0, 0, 9],
    zeros: 8176,
};

/// A guest that yields in its first round, and what its first two rounds leave: so many
/// instructions of their parallel phases, and words at addresses of the pages 0x11 and 0x12.
#[derive(Clone, Copy)]
struct Row {
    name: &'static str,
    guest: &'static [&'static [Instr]],
    scheme: Scheme,
    work: u64,
    words: &'static [(u32, u32)],
}

/// Two threads. The first does 4 instructions in the first round, up to the service that makes the
/// other. All pages are the first's, so where pages have owners, the other does nothing in the
/// second parallel phase, and all in the serial one, behind the first.
const TOGETHER: [Row; 10] = [
    // 9 instructions of each before it yields
    Row {
        name: "each sees the other's flag as it was, and both flags stand",
        guest: &[&MAKES_ANOTHER, &LOOKS_AT_THE_OTHER, &YIELDS],
        scheme: Scheme::Buffered,
        work: 22,
        words: &[(0x1_1000, 1), (0x1_1004, 1), (0x1_1008, 0), (0x1_100c, 0)],
    },
    Row {
        name: "the second sees the first's flag",
        guest: &[&MAKES_ANOTHER, &LOOKS_AT_THE_OTHER, &YIELDS],
        scheme: Scheme::Ownership,
        work: 13,
        words: &[(0x1_1000, 1), (0x1_1004, 1), (0x1_1008, 0), (0x1_100c, 1)],
    },
    // 6 of each: both load 7, the first stores 8 and the second 12, which is put in behind it
    Row {
        name: "an addition is lost",
        guest: &[&MAKES_ANOTHER, &ADDS, &YIELDS],
        scheme: Scheme::Buffered,
        work: 16,
        words: &[(0x1_1008, 12)],
    },
    Row {
        name: "no addition is lost",
        guest: &[&MAKES_ANOTHER, &ADDS, &YIELDS],
        scheme: Scheme::Ownership,
        work: 10,
        words: &[(0x1_1008, 13)],
    },
    // 3 of each before the claim, which waits for the serial phase
    Row {
        name: "no addition by a claim is lost",
        guest: &[&MAKES_ANOTHER, &CLAIMS, &YIELDS],
        scheme: Scheme::Buffered,
        work: 10,
        words: &[(0x1_1008, 13)],
    },
    // 5 of the first
    Row {
        name: "the first claims its own word",
        guest: &[&MAKES_ANOTHER, &CLAIMS, &YIELDS],
        scheme: Scheme::Ownership,
        work: 9,
        words: &[(0x1_1008, 13)],
    },
    // 6 of each
    Row {
        name: "bytes of one word, each of another thread, are put in beside each other",
        guest: &[&MAKES_ANOTHER, &STORES_A_BYTE, &YIELDS],
        scheme: Scheme::Buffered,
        work: 16,
        words: &[(0x1_1008, 7), (0x1_100c, 0x900_0501)],
    },
    Row {
        name: "bytes of one word are stored one after another",
        guest: &[&MAKES_ANOTHER, &STORES_A_BYTE, &YIELDS],
        scheme: Scheme::Ownership,
        work: 10,
        words: &[(0x1_1008, 7), (0x1_100c, 0x900_0501)],
    },
    // of each 2, and 3 for each of 1024 words; the next store is done in the serial phase
    Row {
        name: "the 1025th word stops each part",
        guest: &[&MAKES_ANOTHER, &WRITES_1025, &YIELDS],
        scheme: Scheme::Buffered,
        work: 6152,
        words: &[
            (0x1_1000, 0x1_1000),
            (0x1_1ffc, 0x1_1ffc),
            (0x1_2000, 0x1_2000),
            (0x1_2004, 0),
        ],
    },
    // of the first 3 more for the last word, and 1 before it yields
    Row {
        name: "the first writes 1025 words",
        guest: &[&MAKES_ANOTHER, &WRITES_1025, &YIELDS],
        scheme: Scheme::Ownership,
        work: 3082,
        words: &[
            (0x1_1000, 0x1_1000),
            (0x1_1ffc, 0x1_1ffc),
            (0x1_2000, 0x1_2000),
            (0x1_2004, 0),
        ],
    },
];

/// One thread, whose words are put in memory as it writes them, and which does 1 instruction in the
/// first round, before it yields, and stores in the second, 3 instructions a word.
const MANY_WORDS: [Row; 4] = [
    // 2 instructions, and 3 for each of 1024 words; the next store is done in the serial phase
    Row {
        name: "the 1025th word stops the part",
        guest: &[&YIELDS, &WRITES_1025, &YIELDS],
        scheme: Scheme::Buffered,
        work: 3075,
        words: &[
            (0x1_1000, 0x1_1000),
            (0x1_1ffc, 0x1_1ffc),
            (0x1_2000, 0x1_2000),
            (0x1_2004, 0),
        ],
    },
    // 3 more for the last word, and 1 before it yields
    Row {
        name: "1025 words of its own pages",
        guest: &[&YIELDS, &WRITES_1025, &YIELDS],
        scheme: Scheme::Ownership,
        work: 3079,
        words: &[
            (0x1_1000, 0x1_1000),
            (0x1_1ffc, 0x1_1ffc),
            (0x1_2000, 0x1_2000),
            (0x1_2004, 0),
        ],
    },
    // 3 instructions, 3 for each of 1024 words, 1 more store, and 1 before it yields
    Row {
        name: "a word that was written before is not one more",
        guest: &[&YIELDS, &WRITES_1024, &YIELDS],
        scheme: Scheme::Buffered,
        work: 3078,
        words: &[
            (0x1_1000, 0x1_1000),
            (0x1_1ff8, 0x1_1ff8),
            (0x1_1ffc, 0),
            (0x1_2000, 0),
        ],
    },
    Row {
        name: "1024 words of its own page, and one of them again",
        guest: &[&YIELDS, &WRITES_1024, &YIELDS],
        scheme: Scheme::Ownership,
        work: 3078,
        words: &[
            (0x1_1000, 0x1_1000),
            (0x1_1ff8, 0x1_1ff8),
            (0x1_1ffc, 0),
            (0x1_2000, 0),
        ],
    },
];

// the row's guest, before its first round
fn begun(rt: &impl Abort, alloc: Global, row: &Row) -> Kernel {
    let bytes = file_with(rt, alloc, row.guest, &DATA);
    let images = [read_image(alloc, &bytes).expect(rt, "an image")];
    let config = Config {
        quantum: 5000,
        rounds: 2,
        frames: 40,
        scheme: row.scheme,
    };
    let kernel = opened(rt, alloc, &images, config);
    drop(images);
    drop(bytes);
    kernel
}

// one round more, which is run
fn run_next<W: Workers>(
    rt: &impl Abort,
    kernel: &mut Kernel,
    outside: &mut Outside,
    workers: &mut W,
)
    requires { HasNoEnd (shown_by outside.old.shim).told }
    ensures { HasNoEnd (shown_by outside.new.shim).told }
{
    assert!(rt; !kernel.is_failed(), "a round has failed");
    assert!(rt;
        kernel.rounds() < kernel.config().rounds,
        "no round is left"
    );
    let Outside { shim, out, err } = outside;
    match round_over(kernel, shim, out, err, workers) {
        Ok(end) => same(rt, end, RoundEnd::Went),
        Err(_) => panic!(rt; "the round stopped"),
    }
}

// the first two rounds
fn run_two<W: Workers>(rt: &impl Abort, alloc: Global, kernel: &mut Kernel, workers: &mut W) {
    let mut outside = Outside::new(rt, alloc, &[]);
    run_next(rt, kernel, &mut outside, workers);
    run_next(rt, kernel, &mut outside, workers);
    drop(outside);
}

// what they left
fn check_left(rt: &impl Abort, kernel: Kernel, row: &Row, work: u64) {
    for &(address, word) in row.words {
        let frame = (address / 4096).wrapping_sub(16);
        let seen = word_at(&kernel.state().frames, frame, address % 4096);
        same_at(rt, seen, Some(word), (row.name, address));
    }
    same_at(rt, work, row.work, row.name);
    drop(kernel);
}

fn check_on_one<R: Threads + Sync + Abort>(rt: &R, alloc: Global, row: &Row) {
    let mut kernel = begun(rt, alloc, row);
    let mut tally = Tally::new();
    let mut workers: Serial<'_, R> = Serial::new(&mut tally);
    run_two(rt, alloc, &mut kernel, &mut workers);
    workers.finish();
    check_left(rt, kernel, row, tally.count());
}

fn check_on<R: Threads + Sync + Abort>(rt: &R, alloc: Global, row: &Row, number: u32)
    requires { (0 < number) × (number ≤ 32) }
{
    let mut kernel = begun(rt, alloc, row);
    let gate = OpenGate::new();
    let mut tally = Tally::new();
    let mut workers = Stealing::new(rt, alloc, number, &gate, &mut tally);
    run_two(rt, alloc, &mut kernel, &mut workers);
    workers.finish();
    check_left(rt, kernel, row, tally.count());
}

// by a caller that runs the parts itself, and by 1, 2 and 4 workers
fn check_row<R: Threads + Sync + Abort>(rt: &R, alloc: Global, row: &Row) {
    check_on_one(rt, alloc, row);
    check_on(rt, alloc, row, 1);
    check_on(rt, alloc, row, 2);
    check_on(rt, alloc, row, 4);
}

#[test]
fn two_threads_share_a_page(rt: HostRuntime) {
    for row in &TOGETHER {
        check_row(&rt, rt.alloc(), row);
    }
}

#[test]
fn a_thread_writes_many_words(rt: HostRuntime) {
    for row in &MANY_WORDS {
        check_row(&rt, rt.alloc(), row);
    }
}
