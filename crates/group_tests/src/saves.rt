//! Replays that are stopped after a round, and groups that are gone on with: what both leave, one
//! behind the other, is what the whole replay leaves.
use crate::calls::{
    Case, LOG, NOTHING, Outside, SILENT, call, call_over, check_cases, check_joined, leaves,
};
use crate::checks::same;
use crate::guests::{
    CATCHES, ECHOES, ENDLESS, FORKS, MAKES_THREADS, PRINTS_TO_BOTH, RACE, READS, SEVEN, WAITS,
    add_guest, files_with,
};
use dos_io::{Files, MemoryFiles};
use rv_isa::Instr;
use std::alloc::Global;
use std::process::Abort;
use std::thread::Threads;

/// The file of the saved group.
pub const GROUP: &str = "group";

/// The words that go on with it.
pub const RESUME: [&str; 5] = ["resume", "--log", LOG, "--from", GROUP];

const RACED: &str = "process 1 status 0\nrounds 4 done\n";

/// The race of two threads, and the log of its run.
pub fn race_files<R: Threads + Sync + Abort>(rt: &R, alloc: Global) -> MemoryFiles {
    let mut files = files_with(rt, alloc, &RACE, b"0\0\0\0", 0);
    let _ = leaves(rt, alloc, &mut files, &["run", "a"], (0, "11", RACED));
    files
}

// The race is saved with so many workers, and gone on with by others.
const SAVED: [Case; 6] = [
    Case {
        words: &["save", "--log", LOG, "--round", "3", "--to", GROUP, "a"],
        err: "saved round 3\n",
        ..SILENT
    },
    Case {
        words: &RESUME,
        out: "11",
        err: RACED,
        ..SILENT
    },
    Case {
        words: &[
            "save",
            "--workers",
            "1",
            "--to",
            GROUP,
            "--round",
            "3",
            "--log",
            LOG,
            "a",
        ],
        err: "saved round 3\n",
        ..SILENT
    },
    Case {
        words: &["resume", "--workers", "32", "--from", GROUP, "--log", LOG],
        out: "11",
        err: RACED,
        ..SILENT
    },
    // what the last round has put isn't put again
    Case {
        words: &["save", "--log", LOG, "--round", "4", "--to", GROUP, "a"],
        out: "11",
        err: "saved round 4\n",
        ..SILENT
    },
    Case {
        words: &RESUME,
        err: RACED,
        ..SILENT
    },
];

#[test]
fn a_race_is_saved_and_gone_on_with(rt: HostRuntime) {
    let alloc = rt.alloc();
    let mut files = race_files(&rt, alloc);
    check_cases(&rt, alloc, &mut files, &SAVED);
    drop(files);
}

// A replay that ends before is a whole one.
const ENDED: [Case; 2] = [
    Case {
        words: &["save", "--log", LOG, "--round", "5", "--to", GROUP, "a"],
        err: "process 1 status 7\nrounds 1 done\n",
        ..SILENT
    },
    Case {
        words: &["save", "--log", LOG, "--round", "2", "--to", GROUP, "a"],
        err: "process 1 status 7\nrounds 1 done\n",
        ..SILENT
    },
];

#[test]
fn a_replay_that_ends_before_writes_no_group(rt: HostRuntime) {
    let alloc = rt.alloc();
    let mut files = files_with(&rt, alloc, &SEVEN, b"", 0);
    let wanted = (0, "", "process 1 status 7\nrounds 1 done\n");
    let _ = leaves(&rt, alloc, &mut files, &["run", "a"], wanted);
    check_cases(&rt, alloc, &mut files, &ENDED);
    same(&rt, files.get(GROUP, 1 << 27).is_ok(), false);
    drop(files);
}

// A guest named `a` with the text `0`, the words of its run, what comes from outside, and after how
// many rounds it ends.
#[derive(Clone, Copy)]
struct Guest {
    code: &'static [Instr],
    words: &'static [&'static str],
    outside: Outside<'static>,
    rounds: usize,
}

const RUN: Guest = Guest {
    code: &RACE,
    words: &["run", "a"],
    outside: NOTHING,
    rounds: 4,
};

const TEN: Outside<'static> = Outside {
    input: b"0123456789",
    piece: 4,
    ..NOTHING
};

// Twenty pieces, of which each round with the least quantum reads some.
const HUNDRED: Outside<'static> = Outside {
    input: &[0x61; 100],
    piece: 5,
    ..NOTHING
};

const GUESTS: [Guest; 10] = [
    RUN,
    Guest {
        code: &PRINTS_TO_BOTH,
        words: &["run", "--quantum", "16", "a"],
        rounds: 2,
        ..RUN
    },
    Guest {
        code: &ECHOES,
        outside: TEN,
        rounds: 1,
        ..RUN
    },
    Guest {
        code: &ECHOES,
        words: &["run", "--quantum", "16", "a"],
        outside: HUNDRED,
        rounds: 15,
        ..RUN
    },
    Guest {
        code: &FORKS,
        rounds: 3,
        ..RUN
    },
    // a signal comes in the round behind the one that is saved
    Guest {
        code: &CATCHES,
        words: &["run", "--signals", "2:1:15", "a"],
        rounds: 2,
        ..RUN
    },
    Guest {
        code: &WAITS,
        words: &["run", "--signals", "2:1:15", "a"],
        rounds: 1,
        ..RUN
    },
    // these don't end by themselves
    Guest {
        code: &WAITS,
        rounds: 1,
        ..RUN
    },
    Guest {
        code: &ENDLESS,
        words: &["run", "--rounds", "3", "a"],
        rounds: 3,
        ..RUN
    },
    Guest {
        code: &MAKES_THREADS,
        words: &["run", "--quantum", "64", "--frames", "17", "a"],
        rounds: 5,
        ..RUN
    },
];

/// Rounds, as they are spelled.
pub const ROUNDS: [&str; 15] = [
    "1", "2", "3", "4", "5", "6", "7", "8", "9", "10", "11", "12", "13", "14", "15",
];

fn saved_line(rt: &impl Abort, alloc: Global, round: &str) -> Vec<u8> {
    let mut line = Vec::new(alloc);
    line.extend_from_slice(b"saved round ").expect(rt, "memory");
    line.extend_from_slice(round.as_bytes())
        .expect(rt, "memory");
    line.extend_from_slice(b"\n").expect(rt, "memory");
    line
}

/// The log of the guest `a` is saved after this round and gone on with, each by so many workers.
pub fn check_round<R: Threads + Sync + Abort>(
    rt: &R,
    alloc: Global,
    files: &mut MemoryFiles,
    round: &str,
    workers: [&str; 2],
) {
    let line = saved_line(rt, alloc, round);
    let whole = call(rt, alloc, files, &["replay", "--log", LOG, "a"]);
    let [first, second] = workers;
    let words = [
        "save",
        "--log",
        LOG,
        "--workers",
        first,
        "--round",
        round,
        "--to",
        GROUP,
        "a",
    ];
    let saved = call(rt, alloc, files, &words);
    let words = ["resume", "--log", LOG, "--workers", second, "--from", GROUP];
    let resumed = call(rt, alloc, files, &words);
    check_joined(rt, alloc, &saved, &line, &resumed, &whole);
    drop(line);
    drop(whole);
    drop(saved);
    drop(resumed);
}

// A save of the round behind the last is a whole replay.
fn check_behind<R: Threads + Sync + Abort>(
    rt: &R,
    alloc: Global,
    files: &mut MemoryFiles,
    rounds: usize,
) {
    let behind = ROUNDS.get(rounds).unwrap_or(&"16");
    let whole = call(rt, alloc, files, &["replay", "--log", LOG, "a"]);
    let words = ["save", "--log", LOG, "--round", behind, "--to", "none", "a"];
    let nothing = call(rt, alloc, files, &words);
    same(rt, nothing.seen(), whole.seen());
    same(rt, files.get("none", 1 << 27).is_ok(), false);
    drop(whole);
    drop(nothing);
}

fn check_guest<R: Threads + Sync + Abort>(rt: &R, alloc: Global, guest: &Guest) {
    let mut files = files_with(rt, alloc, guest.code, b"0\0\0\0", 0);
    let left = call_over(rt, alloc, &mut files, guest.words, &guest.outside);
    drop(left);
    for round in ROUNDS.iter().take(guest.rounds) {
        check_round(rt, alloc, &mut files, round, ["1", "4"]);
        check_round(rt, alloc, &mut files, round, ["4", "1"]);
    }
    check_behind(rt, alloc, &mut files, guest.rounds);
    drop(files);
}

#[test]
fn guests_are_saved_after_each_of_their_rounds(rt: HostRuntime) {
    for guest in &GUESTS {
        check_guest(&rt, rt.alloc(), guest);
    }
}

// A guest that asks its host again and again, over no input at all: what it asks in the rounds that
// are saved is in the log, and isn't asked again.
#[test]
fn a_full_round_of_questions_is_saved(rt: HostRuntime) {
    let alloc = rt.alloc();
    let mut files = files_with(&rt, alloc, &READS, b"", 0);
    let words = ["run", "--rounds", "2", "a"];
    let wanted = (7, "", "process 1 live\nrounds 2 limit\n");
    let _ = leaves(&rt, alloc, &mut files, &words, wanted);
    check_round(&rt, alloc, &mut files, "1", ["1", "1"]);
    check_round(&rt, alloc, &mut files, "2", ["1", "1"]);
    drop(files);
}

// Two images are one group; a saved one needs neither any more.
#[test]
fn a_group_of_two_is_gone_on_with_without_its_files(rt: HostRuntime) {
    let alloc = rt.alloc();
    let mut files = race_files(&rt, alloc);
    add_guest(&rt, alloc, &mut files, "b", &SEVEN, b"", 0);
    let report = "process 1 status 0\nprocess 2 status 7\nrounds 4 done\n";
    let _ = leaves(
        &rt,
        alloc,
        &mut files,
        &["run", "a", "b"],
        (0, "11", report),
    );
    let words = [
        "save", "--log", LOG, "--round", "3", "--to", GROUP, "a", "b",
    ];
    let _ = leaves(&rt, alloc, &mut files, &words, (0, "", "saved round 3\n"));
    files.add("a", b"").expect(&rt, "memory");
    files.add("b", b"").expect(&rt, "memory");
    let _ = leaves(&rt, alloc, &mut files, &RESUME, (0, "11", report));
    drop(files);
}
