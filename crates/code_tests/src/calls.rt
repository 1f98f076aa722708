//! Calls of the program, which run a guest and replay it.
use crate::checks::same_at;
use crate::guests::{Guest, files_of};
use dos_cmd::dos_main;
use dos_io::{MemoryFiles, MemoryHost, MemorySink};
use std::alloc::Global;
use std::process::Abort;
use std::thread::Threads;
use worker_pool::{OpenGate, Stealing, Tally};

const QUANTA: [&str; 6] = ["16", "17", "23", "64", "1000", "65536"];

const OWNERSHIP: &str = "ownership";

const BUFFERED: &str = "buffered";

// The guest's file.
const ONE: &[&str] = &["a"];

// The same for two processes.
const TWO: &[&str] = &["a", "a"];

// What a call left, and by how much the tally grew.
#[derive(Drop)]
struct Left {
    status: u8,
    out: MemorySink,
    err: MemorySink,
    work: u64,
}

fn words_of(rt: &impl Abort, alloc: Global, texts: &[&str], names: &[&str]) -> Vec<String> {
    let mut words = Vec::new(alloc);
    for text in texts.iter().chain(names) {
        let word = String::from_str(alloc, text).expect(rt, "memory");
        words.push(word).expect(rt, "memory");
    }
    words
}

fn host_of(rt: &impl Abort, alloc: Global, guest: &Guest) -> MemoryHost {
    MemoryHost::new(alloc, guest.input, guest.piece.max(1), &[], &[]).expect(rt, "memory")
}

fn sink(rt: &impl Abort, alloc: Global) -> MemorySink {
    MemorySink::new(alloc, 10000, &[]).expect(rt, "memory")
}

fn call<R: Threads + Sync + Abort>(
    rt: &R,
    alloc: Global,
    files: &mut MemoryFiles,
    guest: &Guest,
    texts: &[&str],
    names: &[&str],
) -> Left {
    let words = words_of(rt, alloc, texts, names);
    let mut host = host_of(rt, alloc, guest);
    let mut out = sink(rt, alloc);
    let mut err = sink(rt, alloc);
    let gate = OpenGate::new();
    let mut tally = Tally::new();
    let mut workers = Stealing::new(rt, alloc, 1, &gate, &mut tally);
    let status = dos_main(
        alloc,
        &words,
        files,
        &mut host,
        &mut out,
        &mut err,
        &mut workers,
    );
    workers.finish();
    drop(words);
    drop(host);
    Left {
        status,
        out,
        err,
        work: tally.count(),
    }
}

fn run<R: Threads + Sync + Abort>(
    rt: &R,
    alloc: Global,
    files: &mut MemoryFiles,
    guest: &Guest,
    scheme: &str,
    quantum: &str,
    workers: &str,
    names: &[&str],
) -> Left {
    let words = [
        "run",
        "--log",
        "log",
        "--scheme",
        scheme,
        "--frames",
        "64",
        "--quantum",
        quantum,
        "--workers",
        workers,
    ];
    call(rt, alloc, files, guest, &words, names)
}

fn replay<R: Threads + Sync + Abort>(
    rt: &R,
    alloc: Global,
    files: &mut MemoryFiles,
    guest: &Guest,
    scheme: &str,
    names: &[&str],
) -> Left {
    let words = ["replay", "--log", "log", "--scheme", scheme];
    call(rt, alloc, files, guest, &words, names)
}

// What stands behind these bytes; nothing where they don't stand there.
fn behind<'a>(bytes: &'a [u8], front: &[u8]) -> &'a [u8] {
    bytes.strip_prefix(front).unwrap_or(b"")
}

// Whether the report has these lines, and then that the group is done.
fn is_report(err: &[u8], lines: &str) -> bool {
    let rest = behind(err, lines.as_bytes());
    rest.starts_with(b"rounds ") && rest.ends_with(b" done\n")
}

// The same where two processes have the line of process 1.
fn is_report_of_two(err: &[u8], line: &str) -> bool {
    let rest = behind(err, line.as_bytes());
    let status = line.strip_prefix("process 1").unwrap_or("");
    is_report(behind(rest, b"process 2"), status)
}

fn check_left(rt: &impl Abort, left: &Left, guest: &Guest, case: (&str, &str)) {
    let reported = is_report(left.err.bytes(), guest.report);
    same_at(rt, (left.status, reported), (0, true), case);
    same_at(rt, left.out.bytes(), guest.out, case);
}

// Each of two processes has left what one does.
fn check_left_by_two(rt: &impl Abort, left: &Left, guest: &Guest, case: (&str, &str)) {
    let reported = is_report_of_two(left.err.bytes(), guest.report);
    same_at(rt, (left.status, reported), (0, true), case);
    let rest = behind(left.out.bytes(), guest.out);
    same_at(rt, rest, guest.out, case);
}

fn check_same(rt: &impl Abort, left: &Left, wanted: &Left, case: (&str, &str)) {
    let seen = (left.status, left.work);
    same_at(rt, seen, (wanted.status, wanted.work), case);
    same_at(rt, left.out.bytes(), wanted.out.bytes(), case);
    same_at(rt, left.err.bytes(), wanted.err.bytes(), case);
}

// What one worker leaves, and 32 workers and a replay leave the same.
fn left_at<R: Threads + Sync + Abort>(
    rt: &R,
    alloc: Global,
    files: &mut MemoryFiles,
    guest: &Guest,
    case: (&str, &str),
    names: &[&str],
) -> Left {
    let (scheme, quantum) = case;
    let one = run(rt, alloc, files, guest, scheme, quantum, "1", names);
    let many = run(rt, alloc, files, guest, scheme, quantum, "32", names);
    check_same(rt, &many, &one, case);
    let again = replay(rt, alloc, files, guest, scheme, names);
    check_same(rt, &again, &one, case);
    drop(many);
    drop(again);
    one
}

// The guest leaves what is wanted by a scheme at each quantum, with 1 and with 32 workers, and is
// replayed.
fn check_by<R: Threads + Sync + Abort>(rt: &R, alloc: Global, guest: &Guest, scheme: &str) {
    let mut files = files_of(rt, alloc, guest);
    for quantum in &QUANTA {
        let case = (scheme, *quantum);
        let left = left_at(rt, alloc, &mut files, guest, case, ONE);
        check_left(rt, &left, guest, case);
        drop(left);
    }
    drop(files);
}

// Two processes of the guest, side by side by the buffered scheme, leave each what is wanted.
fn check_two<R: Threads + Sync + Abort>(rt: &R, alloc: Global, guest: &Guest) {
    let mut files = files_of(rt, alloc, guest);
    for quantum in &QUANTA {
        let case = (BUFFERED, *quantum);
        let left = left_at(rt, alloc, &mut files, guest, case, TWO);
        check_left_by_two(rt, &left, guest, case);
        drop(left);
    }
    drop(files);
}

/// The guest leaves what is wanted at each quantum, with 1 and with 32 workers, and is replayed.
pub fn check_guest<R: Threads + Sync + Abort>(rt: &R, alloc: Global, guest: &Guest) {
    check_by(rt, alloc, guest, OWNERSHIP);
}

/// The same by both schemes, which leave the same of a guest of one thread.
pub fn check_in_both<R: Threads + Sync + Abort>(rt: &R, alloc: Global, guest: &Guest) {
    check_by(rt, alloc, guest, OWNERSHIP);
    check_by(rt, alloc, guest, BUFFERED);
}

/// The same, and by two processes of a guest that doesn't ask which it is: what each has stored in
/// this round it fetches from its own words.
pub fn check_twice<R: Threads + Sync + Abort>(rt: &R, alloc: Global, guest: &Guest) {
    check_in_both(rt, alloc, guest);
    check_two(rt, alloc, guest);
}
