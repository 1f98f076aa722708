//! Guests of one image.
use crate::calls::run_twice;
use crate::guests;
use rv_isa::Instr;
use std::alloc::Global;
use std::process::Abort;
use std::thread::Threads;

// A guest, which is named `a`, with its text; the words that it is run with; and what the call
// leaves.
struct Row {
    words: &'static [&'static str],
    code: &'static [Instr],
    text: &'static [u8],
    status: u8,
    out: &'static str,
    err: &'static str,
}

fn check_row<R: Threads + Sync + Abort>(rt: &R, alloc: Global, row: &Row) {
    let mut files = guests::files_with(rt, alloc, row.code, row.text, 0);
    let wanted = (row.status, row.out, row.err);
    run_twice(rt, alloc, &mut files, row.words, wanted);
    drop(files);
}

fn check_rows<R: Threads + Sync + Abort>(rt: &R, alloc: Global, rows: &[Row]) {
    for row in rows {
        check_row(rt, alloc, row);
    }
}

const ENDS: [Row; 5] = [
    Row {
        words: &["run", "a"],
        code: &guests::SEVEN,
        text: b"",
        status: 0,
        out: "",
        err: "process 1 status 7\nrounds 1 done\n",
    },
    // the numbers at the ends of their ranges, in either order
    Row {
        words: &[
            "run",
            "--quantum",
            "65536",
            "--rounds",
            "1000000",
            "--frames",
            "16384",
            "a",
        ],
        code: &guests::SEVEN,
        text: b"",
        status: 0,
        out: "",
        err: "process 1 status 7\nrounds 1 done\n",
    },
    Row {
        words: &["run", "--frames", "17", "--quantum", "16", "a"],
        code: &guests::SEVEN,
        text: b"",
        status: 0,
        out: "",
        err: "process 1 status 7\nrounds 1 done\n",
    },
    Row {
        words: &["run", "a"],
        code: &guests::PRINTS,
        text: b"Hi\n",
        status: 0,
        out: "Hi\n",
        err: "process 1 status 0\nrounds 1 done\n",
    },
    // no round ends it
    Row {
        words: &["run", "--rounds", "1", "a"],
        code: &guests::ENDLESS,
        text: b"",
        status: 7,
        out: "",
        err: "process 1 live\nrounds 1 limit\n",
    },
];

// A guest that faults, and what the call leaves in error.
type Fault = (&'static [Instr], &'static str);

const FAULTS: [Fault; 6] = [
    (
        &guests::MISALIGNED_STORE,
        "process 1 status 135\nrounds 1 done\n",
    ),
    (&guests::STORE_AT_0, "process 1 status 139\nrounds 1 done\n"),
    (
        &guests::JUMP_TO_A_HALFWORD,
        "process 1 status 132\nrounds 1 done\n",
    ),
    (&guests::INTO_ZEROS, "process 1 status 132\nrounds 1 done\n"),
    (&guests::BREAKS, "process 1 status 133\nrounds 1 done\n"),
    (&guests::JUMP_BELOW, "process 1 status 139\nrounds 1 done\n"),
];

const SENDS: [Row; 3] = [
    // the bytes go to error, before the report
    Row {
        words: &["run", "a"],
        code: &guests::PRINTS_TO_ERROR,
        text: b"Hi\n",
        status: 0,
        out: "",
        err: "Hi\nprocess 1 status 0\nrounds 1 done\n",
    },
    // the word is the text "0" at first
    Row {
        words: &["run", "a"],
        code: &guests::RACE,
        text: b"0\0\0\0",
        status: 0,
        out: "11",
        err: "process 1 status 0\nrounds 4 done\n",
    },
    // numbers 2 to 64, then -11
    Row {
        words: &["run", "a"],
        code: &guests::MAKES_THREADS,
        text: b"",
        status: 0,
        out: "",
        err: "process 1 status 245\nrounds 1 done\n",
    },
];

// The number of a service and its arguments, with which it is called, and what the call of the
// program leaves in error, where the guest ends with the low byte of the answer.
type Answer = (u32, [u32; 3], &'static str);

const NUMBERS: [Answer; 8] = [
    // the only process, its only thread, and the first round
    (20, [0, 0, 0], "process 1 status 1\nrounds 1 done\n"),
    (21, [0, 0, 0], "process 1 status 1\nrounds 1 done\n"),
    (24, [0, 0, 0], "process 1 status 1\nrounds 1 done\n"),
    // a yield answers 0, and ends the thread's round
    (23, [5, 0, 0], "process 1 status 0\nrounds 2 done\n"),
    // there is no such service: -38
    (0, [0, 0, 0], "process 1 status 218\nrounds 1 done\n"),
    (25, [0, 0, 0], "process 1 status 218\nrounds 1 done\n"),
    (99, [0, 0, 0], "process 1 status 218\nrounds 1 done\n"),
    (0x1_0014, [0, 0, 0], "process 1 status 218\nrounds 1 done\n"),
];

const ENDINGS: [Answer; 4] = [
    // a status is taken modulo 256
    (2, [0x1234, 0, 0], "process 1 status 52\nrounds 1 done\n"),
    // the last thread ends its process with 0
    (1, [9, 0, 0], "process 1 status 0\nrounds 1 done\n"),
    // a new thread begins at a multiple of 2, else -22; it may begin where nothing is mapped
    (3, [0x1_0001, 0, 0], "process 1 status 234\nrounds 1 done\n"),
    (
        3,
        [0xffff_fffc, 0, 0],
        "process 1 status 2\nrounds 1 done\n",
    ),
];

const REFUSED_WRITES: [Answer; 9] = [
    // neither output nor error, whatever else is wrong: -9
    (8, [0, 0x1_0000, 3], "process 1 status 247\nrounds 1 done\n"),
    (8, [3, 0x1_0000, 0], "process 1 status 247\nrounds 1 done\n"),
    (8, [32, 0, 1], "process 1 status 247\nrounds 1 done\n"),
    // no byte, wherever it isn't
    (8, [1, 0, 0], "process 1 status 0\nrounds 1 done\n"),
    // a byte that isn't mapped, -14: all of them, the last, the first, and at the end of the
    // addresses
    (8, [1, 0, 3], "process 1 status 242\nrounds 1 done\n"),
    (8, [1, 0x1_0fff, 2], "process 1 status 242\nrounds 1 done\n"),
    (8, [1, 0xffff, 2], "process 1 status 242\nrounds 1 done\n"),
    (8, [2, 0x1_1000, 1], "process 1 status 242\nrounds 1 done\n"),
    (
        8,
        [1, 0xffff_ffff, 4096],
        "process 1 status 242\nrounds 1 done\n",
    ),
];

// Runs code that sends nothing.
fn check_silent<R: Threads + Sync + Abort>(
    rt: &R,
    alloc: Global,
    words: &[&str],
    code: &[Instr],
    err: &str,
) {
    let mut files = guests::files_with(rt, alloc, code, b"", 0);
    run_twice(rt, alloc, &mut files, words, (0, "", err));
    drop(files);
}

fn check_answer<R: Threads + Sync + Abort>(rt: &R, alloc: Global, answer: &Answer) {
    let (number, arguments, err) = *answer;
    let code = guests::calls(rt, alloc, number, arguments);
    check_silent(rt, alloc, &["run", "a"], &code, err);
    drop(code);
}

fn check_answers<R: Threads + Sync + Abort>(rt: &R, alloc: Global, answers: &[Answer]) {
    for answer in answers {
        check_answer(rt, alloc, answer);
    }
}

#[test]
fn guests_end(rt: HostRuntime) {
    check_rows(&rt, rt.alloc(), &ENDS);
}

#[test]
fn faults_end_the_process(rt: HostRuntime) {
    for (code, err) in &FAULTS {
        check_silent(&rt, rt.alloc(), &["run", "a"], code, err);
    }
}

#[test]
fn a_race_loses_one_addition_and_64_threads_live(rt: HostRuntime) {
    check_rows(&rt, rt.alloc(), &SENDS);
}

#[test]
fn services_answer_by_their_numbers(rt: HostRuntime) {
    check_answers(&rt, rt.alloc(), &NUMBERS);
}

#[test]
fn threads_and_processes_end(rt: HostRuntime) {
    check_answers(&rt, rt.alloc(), &ENDINGS);
}

#[test]
fn writes_are_refused(rt: HostRuntime) {
    check_answers(&rt, rt.alloc(), &REFUSED_WRITES);
}

// Runs this code, then so many instructions that do nothing, then the rest, with these words.
fn check_padded<R: Threads + Sync + Abort>(
    rt: &R,
    alloc: Global,
    words: &[&str],
    first: &[Instr],
    nothing: usize,
    last: &[Instr],
    err: &str,
) {
    let code = guests::padded(rt, alloc, first, nothing, last);
    check_silent(rt, alloc, words, &code, err);
    drop(code);
}

const SHORT: [&str; 4] = ["run", "--quantum", "16", "a"];

#[test]
fn a_quantum_ends_a_round(rt: HostRuntime) {
    // its ecall is unit 17, or 16
    for (nothing, err) in [
        (15, "process 1 status 0\nrounds 2 done\n"),
        (14, "process 1 status 0\nrounds 1 done\n"),
    ] {
        check_padded(&rt, rt.alloc(), &SHORT, &[], nothing, &guests::ENDS, err);
    }
}

// The words of a run, and how many instructions stand between the load that reserves and the store.
type Reserved = (&'static [&'static str], usize, &'static str);

// The store is made within one part, and not in the next.
const RESERVED: [Reserved; 2] = [
    (&["run", "a"], 0, "process 1 status 0\nrounds 1 done\n"),
    (&SHORT, 14, "process 1 status 1\nrounds 2 done\n"),
];

#[test]
fn a_reservation_ends_with_its_part(rt: HostRuntime) {
    let (first, last) = (&guests::RESERVES, &guests::STORES_IF_RESERVED);
    for &(words, nothing, err) in &RESERVED {
        check_padded(&rt, rt.alloc(), words, first, nothing, last, err);
    }
}
