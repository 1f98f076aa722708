//! What the two schemes show of the same guests, and logs that are replayed by the other one.
use crate::calls::{NOTHING, Wanted, leaves, replay_words, run_by, with_options};
use crate::guests::{EIGHT_ADD, FLAGS, MANY_WORDS, WAITS_FOR_A_FLAG, files_with};
use dos_io::MemoryFiles;
use rv_isa::Instr;
use std::alloc::Global;
use std::process::Abort;
use std::thread::Threads;

const OWNERSHIP: &str = "ownership";

const BUFFERED: &str = "buffered";

const DONE_IN_2: &str = "process 1 status 0\nrounds 2 done\n";

const DONE_IN_10: &str = "process 1 status 0\nrounds 10 done\n";

const DONE_IN_3: &str = "process 1 status 0\nrounds 3 done\n";

// A guest with its text and so many zeros behind, the words that it is run with, and what both
// schemes leave.
struct Row {
    words: &'static [&'static str],
    code: &'static [Instr],
    text: &'static [u8],
    zeros: u32,
    ownership: Wanted<'static>,
    buffered: Wanted<'static>,
}

const ROWS: [Row; 6] = [
    // by ownership the second sees what the first has stored in this round
    Row {
        words: &["run", "a"],
        code: &FLAGS,
        text: b"0\0\0\00\0\0\0",
        zeros: 8,
        ownership: (0, "01", DONE_IN_2),
        buffered: (0, "00", DONE_IN_2),
    },
    Row {
        words: &["run", "a"],
        code: &WAITS_FOR_A_FLAG,
        text: b"\0\0\0\0",
        zeros: 0,
        ownership: (0, "", DONE_IN_2),
        buffered: (0, "", DONE_IN_3),
    },
    // Of a word that several threads write bytes of in a round each keeps its own. The threads
    // print in rising number: 1 has the first byte, and 2 to 8 have the last to the second.
    Row {
        words: &["run", "a"],
        code: &EIGHT_ADD,
        text: b"-./01234",
        zeros: 0,
        ownership: (0, "AHGFEDCB", DONE_IN_2),
        buffered: (0, "AHGFEDCB", DONE_IN_2),
    },
    // The threads 2 and 3 begin in round 2, 4 to 6 in round 3, and 1, 7 and 8 in round 4; each
    // prints by its 109th instruction, which is in its seventh part.
    Row {
        words: &["run", "--quantum", "16", "a"],
        code: &EIGHT_ADD,
        text: b"-./01234",
        zeros: 0,
        ownership: (0, "HGFEDACB", DONE_IN_10),
        buffered: (0, "HGFEDACB", DONE_IN_10),
    },
    // 1500 + 1499 + .. + 1 is 1125750, whose low byte is 118. There is no room for the 1025th word,
    // which is stored in the serial phase.
    Row {
        words: &["run", "--quantum", "65536", "a"],
        code: &MANY_WORDS,
        text: b"",
        zeros: 12288,
        ownership: (0, "", "process 1 status 118\nrounds 1 done\n"),
        buffered: (0, "", "process 1 status 118\nrounds 1 done\n"),
    },
    // 3 instructions, 1500 times 4, one, 1500 times 5, and 3: 13507
    Row {
        words: &["run", "a"],
        code: &MANY_WORDS,
        text: b"",
        zeros: 12288,
        ownership: (0, "", "process 1 status 118\nrounds 14 done\n"),
        buffered: (0, "", "process 1 status 118\nrounds 14 done\n"),
    },
];

fn check_row<R: Threads + Sync + Abort>(rt: &R, alloc: Global, row: &Row) {
    let mut files = files_with(rt, alloc, row.code, row.text, row.zeros);
    let words = row.words;
    run_by(
        rt,
        alloc,
        &mut files,
        words,
        OWNERSHIP,
        &NOTHING,
        row.ownership,
    );
    run_by(
        rt,
        alloc,
        &mut files,
        words,
        BUFFERED,
        &NOTHING,
        row.buffered,
    );
    drop(files);
}

#[test]
fn each_scheme_leaves_its_own(rt: HostRuntime) {
    for row in &ROWS {
        check_row(&rt, rt.alloc(), row);
    }
}

// Runs `a` by a scheme, which leaves this.
fn run_a<R: Threads + Sync + Abort>(
    rt: &R,
    alloc: Global,
    files: &mut MemoryFiles,
    scheme: &str,
    wanted: Wanted<'_>,
) {
    let words = with_options(rt, alloc, &["run", "a"], &["--scheme", scheme]);
    let _ = leaves(rt, alloc, files, &words, wanted);
    drop(words);
}

// Replays the log by a scheme, which leaves this.
fn replay_a<R: Threads + Sync + Abort>(
    rt: &R,
    alloc: Global,
    files: &mut MemoryFiles,
    scheme: &str,
    wanted: Wanted<'_>,
) {
    let ran = ["run", "--scheme", scheme, "a"];
    let words = replay_words(rt, alloc, &ran);
    let _ = leaves(rt, alloc, files, &words, wanted);
    drop(words);
}

// The log of a run by the one scheme, with what a replay by the other one leaves.
struct Crossed {
    ran: &'static str,
    left: Wanted<'static>,
    replayed: &'static str,
    again: Wanted<'static>,
}

// Both ask the same, so a log of either is one of both.
const FITS: [Crossed; 2] = [
    Crossed {
        ran: OWNERSHIP,
        left: (0, "01", DONE_IN_2),
        replayed: BUFFERED,
        again: (0, "00", DONE_IN_2),
    },
    Crossed {
        ran: BUFFERED,
        left: (0, "00", DONE_IN_2),
        replayed: OWNERSHIP,
        again: (0, "01", DONE_IN_2),
    },
];

// One has a round more.
const MISFITS: [Crossed; 2] = [
    Crossed {
        ran: OWNERSHIP,
        left: (0, "", DONE_IN_2),
        replayed: BUFFERED,
        again: (
            4,
            "",
            "dos: log entry 2 is end done rounds 2, asked signals round 3\n",
        ),
    },
    Crossed {
        ran: BUFFERED,
        left: (0, "", DONE_IN_3),
        replayed: OWNERSHIP,
        again: (
            4,
            "",
            "dos: log entry 2 is signals round 3, asked end done rounds 2\n",
        ),
    },
];

fn check_crossed<R: Threads + Sync + Abort>(
    rt: &R,
    alloc: Global,
    files: &mut MemoryFiles,
    cases: &[Crossed],
) {
    for case in cases {
        run_a(rt, alloc, files, case.ran, case.left);
        replay_a(rt, alloc, files, case.replayed, case.again);
    }
}

#[test]
fn a_log_is_replayed_by_the_other_scheme(rt: HostRuntime) {
    let alloc = rt.alloc();
    let mut files = files_with(&rt, alloc, &FLAGS, b"0\0\0\00\0\0\0", 8);
    check_crossed(&rt, alloc, &mut files, &FITS);
    drop(files);
}

#[test]
fn a_log_doesnt_fit_the_other_scheme(rt: HostRuntime) {
    let alloc = rt.alloc();
    let mut files = files_with(&rt, alloc, &WAITS_FOR_A_FLAG, b"\0\0\0\0", 0);
    check_crossed(&rt, alloc, &mut files, &MISFITS);
    drop(files);
}
