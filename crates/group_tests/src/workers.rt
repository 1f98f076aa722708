//! The same with any number of workers: bytes, rounds and the tally.
use crate::calls::{NOTHING, call_by, check_left, leaves};
use crate::checks::{same, same_at};
use crate::files::usual_files;
use crate::guests::{
    BEHIND_NINE, ENDLESS, ENDS, MAKES_THREADS, PRINTS_BEHIND, RACE, add_guest, file_at, padded,
};
use dos_io::MemoryFiles;
use std::alloc::Global;
use std::process::Abort;
use std::thread::Threads;
use worker_pool::{Boarded, OpenGate, Serial, Spread, Tally, Workers};

const NUMBERS: [&str; 4] = ["1", "2", "4", "32"];

fn words_on<'a>(
    rt: &impl Abort,
    alloc: Global,
    workers: &'a str,
    rest: &[&'a str],
) -> Vec<&'a str> {
    let mut words = Vec::new(alloc);
    words
        .extend_from_slice(&["run", "--workers", workers])
        .expect(rt, "memory");
    words.extend_from_slice(rest).expect(rt, "memory");
    words
}

// The words behind the number of workers, what comes, and how much the tally grows where that was
// worked out.
struct Row {
    rest: &'static [&'static str],
    status: u8,
    out: &'static str,
    err: &'static str,
    work: Option<u64>,
}

const ROWS: [Row; 8] = [
    Row {
        rest: &["seven"],
        status: 0,
        out: "",
        err: "process 1 status 7\nrounds 1 done\n",
        work: Some(2),
    },
    Row {
        rest: &["hi"],
        status: 0,
        out: "Hi\n",
        err: "process 1 status 0\nrounds 1 done\n",
        work: Some(5),
    },
    Row {
        rest: &["seven", "hi"],
        status: 0,
        out: "Hi\n",
        err: "process 1 status 7\nprocess 2 status 0\nrounds 1 done\n",
        work: Some(7),
    },
    // its text stands behind its code
    Row {
        rest: &["behind"],
        status: 0,
        out: "Hi\n",
        err: "process 1 status 0\nrounds 1 done\n",
        work: Some(5),
    },
    Row {
        rest: &["--rounds", "1", "endless"],
        status: 7,
        out: "",
        err: "process 1 live\nrounds 1 limit\n",
        work: Some(1000),
    },
    // the quantum ends before its call
    Row {
        rest: &["--quantum", "16", "later"],
        status: 0,
        out: "",
        err: "process 1 status 0\nrounds 2 done\n",
        work: Some(16),
    },
    // threads of one process
    Row {
        rest: &["race"],
        status: 0,
        out: "11",
        err: "process 1 status 0\nrounds 4 done\n",
        work: None,
    },
    Row {
        rest: &["threads"],
        status: 0,
        out: "",
        err: "process 1 status 245\nrounds 1 done\n",
        work: None,
    },
];

// This number of workers leaves this; by how much the tally grew.
fn work_on<R: Threads + Sync + Abort>(
    rt: &R,
    alloc: Global,
    files: &mut MemoryFiles,
    workers: &str,
    row: &Row,
) -> u64 {
    let words = words_on(rt, alloc, workers, row.rest);
    let work = leaves(rt, alloc, files, &words, (row.status, row.out, row.err));
    drop(words);
    work
}

// Each number of workers leaves this, and the same tally.
fn check_row<R: Threads + Sync + Abort>(rt: &R, alloc: Global, files: &mut MemoryFiles, row: &Row) {
    let mut work = row.work;
    for workers in &NUMBERS {
        let grown = work_on(rt, alloc, files, workers, row);
        same_at(rt, grown, work.unwrap_or(grown), row.rest);
        work = Some(grown);
    }
}

fn add_behind(rt: &impl Abort, alloc: Global, files: &mut MemoryFiles) {
    let behind = file_at(rt, alloc, &PRINTS_BEHIND, BEHIND_NINE, b"Hi\n", 0);
    files.add("behind", &behind).expect(rt, "memory");
    drop(behind);
}

fn add_later(rt: &impl Abort, alloc: Global, files: &mut MemoryFiles) {
    let later = padded(rt, alloc, &[], 15, &ENDS);
    add_guest(rt, alloc, files, "later", &later, b"", 0);
    drop(later);
}

fn guests(rt: &impl Abort, alloc: Global) -> MemoryFiles {
    let mut files = usual_files(rt, alloc);
    add_behind(rt, alloc, &mut files);
    add_guest(rt, alloc, &mut files, "endless", &ENDLESS, b"", 0);
    add_later(rt, alloc, &mut files);
    add_guest(rt, alloc, &mut files, "race", &RACE, b"0\0\0\0", 0);
    add_guest(rt, alloc, &mut files, "threads", &MAKES_THREADS, b"", 0);
    files
}

#[test]
fn any_number_of_workers_leaves_the_same(rt: HostRuntime) {
    let alloc = rt.alloc();
    let mut files = guests(&rt, alloc);
    for row in &ROWS {
        check_row(&rt, alloc, &mut files, row);
    }
    drop(files);
}

// The guest `race` leaves this with any workers.
fn check_race<W: Workers>(
    rt: &impl Abort,
    alloc: Global,
    files: &mut MemoryFiles,
    workers: &mut W,
) {
    let words = words_on(rt, alloc, "4", &["race"]);
    let left = call_by(rt, alloc, files, &words, &NOTHING, workers);
    let wanted = (0, "11", "process 1 status 0\nrounds 4 done\n");
    check_left(rt, &left, &words, wanted);
    drop(left);
    drop(words);
}

// On one thread, with one hand, and with a board.

fn race_alone<R: Threads + Sync + Abort>(
    rt: &R,
    alloc: Global,
    files: &mut MemoryFiles,
    tally: &mut Tally,
) {
    let mut workers: Serial<'_, R> = Serial::new(tally);
    check_race(rt, alloc, files, &mut workers);
    workers.finish();
}

fn race_spread<R: Threads + Sync + Abort>(
    rt: &R,
    alloc: Global,
    files: &mut MemoryFiles,
    tally: &mut Tally,
) {
    let gate = OpenGate::new();
    let mut workers = Spread::new(rt, 1, &gate, tally);
    check_race(rt, alloc, files, &mut workers);
    workers.finish();
}

fn race_boarded<R: Threads + Sync + Abort>(
    rt: &R,
    alloc: Global,
    files: &mut MemoryFiles,
    tally: &mut Tally,
) {
    let gate = OpenGate::new();
    let mut workers = Boarded::new(rt, alloc, 1, &gate, tally);
    check_race(rt, alloc, files, &mut workers);
    workers.finish();
}

#[test]
fn each_pool_leaves_the_same(rt: HostRuntime) {
    let alloc = rt.alloc();
    let mut files = guests(&rt, alloc);
    let mut alone = Tally::new();
    let mut spread = Tally::new();
    let mut boarded = Tally::new();
    race_alone(&rt, alloc, &mut files, &mut alone);
    race_spread(&rt, alloc, &mut files, &mut spread);
    race_boarded(&rt, alloc, &mut files, &mut boarded);
    same(&rt, spread.count(), alone.count());
    same(&rt, boarded.count(), alone.count());
    drop(files);
}
