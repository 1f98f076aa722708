//! A guest that looks at the clock, and options in another order.
use crate::calls::{LOG, NOTHING, Outside, Wanted, leaves, log_of, run_twice, run_twice_over};
use crate::checks::same;
use crate::guests::{CLOCKS, files_with};
use dos_io::MemoryFiles;
use std::alloc::Global;
use std::process::Abort;
use std::thread::Threads;

const COUNTED: [&str; 6] = ["run", "--clock-from", "65", "--clock-step", "3", "a"];

const HOST_CLOCKS: Outside<'static> = Outside {
    clocks: &[72, 105, 33],
    ..NOTHING
};

#[test]
fn readings_are_the_hosts_or_counted(rt: HostRuntime) {
    let alloc = rt.alloc();
    let mut files = files_with(&rt, alloc, &CLOCKS, b"", 0);
    let err = "process 1 status 0\nrounds 1 done\n";
    let wanted = (0, "A\0\0\0D\0\0\0G\0\0\0", err);
    run_twice(&rt, alloc, &mut files, &COUNTED, wanted);
    let wanted = (0, "H\0\0\0i\0\0\0!\0\0\0", err);
    run_twice_over(&rt, alloc, &mut files, &["run", "a"], &HOST_CLOCKS, wanted);
    drop(files);
}

// It has printed the third reading with its 30th instruction; the signal comes behind the 32nd.
const RUN: [&str; 16] = [
    "run",
    "--quantum",
    "16",
    "--rounds",
    "3",
    "--frames",
    "17",
    "--workers",
    "2",
    "--signals",
    "3:1:15",
    "--clock-from",
    "65",
    "--clock-step",
    "3",
    "a",
];

// The same options from the last to the first.
const RUN_REVERSED: [&str; 16] = [
    "run",
    "--clock-step",
    "3",
    "--clock-from",
    "65",
    "--signals",
    "3:1:15",
    "--workers",
    "2",
    "--frames",
    "17",
    "--rounds",
    "3",
    "--quantum",
    "16",
    "a",
];

const OTHERS: [&[&str]; 3] = [
    &RUN_REVERSED,
    &["replay", "--workers", "2", "--log", LOG, "a"],
    &["replay", "--log", LOG, "--workers", "2", "a"],
];

// What the call leaves with any of them.
const LEFT: Wanted<'static> = (
    0,
    "A\0\0\0D\0\0\0G\0\0\0",
    "process 1 status 143\nrounds 2 done\n",
);

// The call leaves that, a tally that grew by this, and this log.
fn check_again<R: Threads + Sync + Abort>(
    rt: &R,
    alloc: Global,
    files: &mut MemoryFiles,
    words: &[&str],
    work: u64,
    log: &[u8],
) {
    same(rt, leaves(rt, alloc, files, words, LEFT), work);
    let again = log_of(rt, files);
    same(rt, again.as_slice(), log);
    drop(again);
}

#[test]
fn options_have_no_order(rt: HostRuntime) {
    let alloc = rt.alloc();
    let mut files = files_with(&rt, alloc, &CLOCKS, b"", 0);
    let work = leaves(&rt, alloc, &mut files, &RUN, LEFT);
    let log = log_of(&rt, &mut files);
    for words in &OTHERS {
        check_again(&rt, alloc, &mut files, words, work, &log);
    }
    drop(log);
    drop(files);
}
