//! Guests that do what they may not, or as much as they may: with one worker and with 32, and each
//! replayed.
use crate::calls::run_twice;
use crate::machine_words::add_words;
use dos_io::MemoryFiles;
use std::alloc::Global;
use std::process::Abort;
use std::thread::Threads;

// Guests, by their words.

// Stores a word at the last place of its stack, and ends with 0.
const STORES_LAST: [u32; 4] = [0xf000_0437, 0xfe04_2e23, 0x0020_0893, 0x0000_0073];

// Stores a word there, and one behind its stack.
const STORES_BEHIND: [u32; 3] = [0xf000_0437, 0xfe04_2e23, 0x0004_2023];

// Forks until it is refused, and ends with that answer; each child ends with 0.
const FORKS: [u32; 5] = [
    0x0040_0893,
    0x0000_0073,
    0xfea0_4ce3,
    0x0020_0893,
    0x0000_0073,
];

// Waits on a word of its own for ever.
const WAITS: [u32; 6] = [
    0x00b0_0893,
    0x0000_0517,
    0x0005_2583,
    0x0000_0073,
    0x0020_0893,
    0x0000_0073,
];

// Makes a pipe, and writes 5000 bytes into it, of which 4096 fit, and then one more.
const FILLS: [u32; 15] = [
    0x0060_0893,
    0x0000_0073,
    0x0005_8413,
    0xefff_e4b7,
    0x0004_8593,
    0x0000_1637,
    0x3886_0613,
    0x0004_0513,
    0x0080_0893,
    0x0000_0073,
    0x0004_0513,
    0x0010_0613,
    0x0000_0073,
    0x0020_0893,
    0x0000_0073,
];

// Sets a handler for signal 15, and waits for ever. The handler lets 15 come again, prints its
// text, and waits for ever too.
const NESTS: [u32; 26] = [
    0x0100_0893,
    0x00f0_0513,
    0x0000_0597,
    0x0245_8593,
    0x0000_0073,
    0x00b0_0893,
    0x0000_0517,
    0x0005_2583,
    0x0000_0073,
    0x0020_0893,
    0x0000_0073,
    // the handler
    0x0110_0893,
    0x0000_0513,
    0x0000_0073,
    0x0080_0893,
    0x0010_0513,
    0x0001_05b7,
    0x1005_8593,
    0x0010_0613,
    0x0000_0073,
    0x00b0_0893,
    0x0000_0517,
    0x0005_2583,
    0x0000_0073,
    0x0020_0893,
    0x0000_0073,
];

// Stores a word of zeros, which is no instruction, over its own next one.
const STORES_NEXT: [u32; 4] = [0x0000_0297, 0x0002_a423, 0x0020_0893, 0x0000_0073];

// A guest, whose text is `x`; the words that it is run with, but for its workers; and what the call
// leaves.
struct Row {
    words: &'static [&'static str],
    code: &'static [u32],
    status: u8,
    out: &'static str,
    err: &'static str,
}

const ROWS: [Row; 8] = [
    Row {
        words: &[],
        code: &STORES_LAST,
        status: 0,
        out: "",
        err: "process 1 status 0\nrounds 1 done\n",
    },
    Row {
        words: &[],
        code: &STORES_BEHIND,
        status: 0,
        out: "",
        err: "process 1 status 139\nrounds 1 done\n",
    },
    // there is no frame for a third process: -12
    Row {
        words: &["--frames", "34"],
        code: &FORKS,
        status: 0,
        out: "",
        err: "process 1 status 244\nprocess 2 status 0\nrounds 2 done\n",
    },
    // a signal whose default is nothing, and one to a process that there isn't
    Row {
        words: &["--signals", "2:1:17"],
        code: &WAITS,
        status: 8,
        out: "",
        err: "process 1 live\nrounds 1 stalled\n",
    },
    Row {
        words: &["--signals", "2:9:15"],
        code: &WAITS,
        status: 8,
        out: "",
        err: "process 1 live\nrounds 1 stalled\n",
    },
    Row {
        words: &[],
        code: &FILLS,
        status: 8,
        out: "",
        err: "process 1 live\nrounds 1 stalled\n",
    },
    // four are taken, and the fifth stays pending
    Row {
        words: &["--signals", "2:1:15,3:1:15,4:1:15,5:1:15,6:1:15"],
        code: &NESTS,
        status: 8,
        out: "xxxx",
        err: "process 1 live\nrounds 5 stalled\n",
    },
    Row {
        words: &[],
        code: &STORES_NEXT,
        status: 0,
        out: "",
        err: "process 1 status 132\nrounds 1 done\n",
    },
];

const NUMBERS: [&str; 2] = ["1", "32"];

// The words of a run of `a` with so many workers and these options.
fn words_with<'a>(
    rt: &impl Abort,
    alloc: Global,
    workers: &'a str,
    options: &[&'a str],
) -> Vec<&'a str> {
    let mut words = Vec::new(alloc);
    words
        .extend_from_slice(&["run", "--workers", workers])
        .expect(rt, "memory");
    words.extend_from_slice(options).expect(rt, "memory");
    words.push("a").expect(rt, "memory");
    words
}

fn check_row<R: Threads + Sync + Abort>(rt: &R, alloc: Global, row: &Row, workers: &str) {
    let mut files = MemoryFiles::new(alloc, &[]).expect(rt, "memory");
    add_words(rt, alloc, &mut files, row.code, b"x");
    let words = words_with(rt, alloc, workers, row.words);
    let wanted = (row.status, row.out, row.err);
    run_twice(rt, alloc, &mut files, &words, wanted);
    drop(words);
    drop(files);
}

#[test]
fn guests_do_what_they_may_not(rt: HostRuntime) {
    for row in &ROWS {
        for workers in NUMBERS {
            check_row(&rt, rt.alloc(), row, workers);
        }
    }
}

fn add_line(rt: &impl Abort, alloc: Global, text: &mut String, number: u32, status: u32) {
    let line = format!(in alloc; "process {number} status {status}\n").expect(rt, "memory");
    text.push_str(&line).expect(rt, "memory");
    drop(line);
}

// The first process ended with 245, which is -11, and all others, up to the last, with 0.
fn report_of(rt: &impl Abort, alloc: Global, last: u32, rounds: &str) -> String {
    let mut text = String::new(alloc);
    add_line(rt, alloc, &mut text, 1, 245);
    for number in 2..=last {
        add_line(rt, alloc, &mut text, number, 0);
    }
    text.push_str(rounds).expect(rt, "memory");
    text
}

// The options of a run of the guest that forks; its last process; and its line of rounds.
type Forks = (&'static [&'static str], u32, &'static str);

// It is refused where 32 processes live, or, where its children end between, where the last number
// was given.
const FORKED: [Forks; 2] = [
    (&[], 32, "rounds 2 done\n"),
    (&["--quantum", "16"], 65535, "rounds 12289 done\n"),
];

fn check_forks<R: Threads + Sync + Abort>(rt: &R, alloc: Global, forks: &Forks, workers: &str) {
    let (options, last, rounds) = *forks;
    let mut files = MemoryFiles::new(alloc, &[]).expect(rt, "memory");
    add_words(rt, alloc, &mut files, &FORKS, b"");
    let words = words_with(rt, alloc, workers, options);
    let report = report_of(rt, alloc, last, rounds);
    run_twice(rt, alloc, &mut files, &words, (0, "", &report));
    drop(report);
    drop(words);
    drop(files);
}

#[test]
fn a_guest_forks_until_it_is_refused(rt: HostRuntime) {
    for forks in &FORKED {
        for workers in NUMBERS {
            check_forks(&rt, rt.alloc(), forks, workers);
        }
    }
}
