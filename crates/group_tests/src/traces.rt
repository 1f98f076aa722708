//! What `trace` prints: which frames changed their owners in each round of a replay. The lines were
//! worked out from the rules of ownership.
use crate::calls::{Case, LOG, SILENT, check_cases, leaves};
use crate::guests::{ENDLESS, PRINTS_TO_BOTH, RACE, SEVEN, WAITS, add_guest, files_with};
use dos_io::{Files, MemoryFiles};
use std::alloc::Global;
use std::process::Abort;
use std::thread::Threads;

// A guest of one page has the frames 0 to 16, since its stack has sixteen. They are thread 1's from
// the start, and free when it has ended.
const FREED: &str = "round 1 frame 0 thread 1 to free\nround 1 frame 1 thread 1 to free\n\
    round 1 frame 2 thread 1 to free\nround 1 frame 3 thread 1 to free\n\
    round 1 frame 4 thread 1 to free\nround 1 frame 5 thread 1 to free\n\
    round 1 frame 6 thread 1 to free\nround 1 frame 7 thread 1 to free\n\
    round 1 frame 8 thread 1 to free\nround 1 frame 9 thread 1 to free\n\
    round 1 frame 10 thread 1 to free\nround 1 frame 11 thread 1 to free\n\
    round 1 frame 12 thread 1 to free\nround 1 frame 13 thread 1 to free\n\
    round 1 frame 14 thread 1 to free\nround 1 frame 15 thread 1 to free\n\
    round 1 frame 16 thread 1 to free\n";

// Two threads load a word of one page in round 2, and store it in round 3, one after the other.
const RACED: &str = "round 2 frame 0 thread 1 to shared\nround 3 frame 0 shared to thread 2\n\
    round 4 frame 0 thread 2 to free\nround 4 frame 1 thread 1 to free\n\
    round 4 frame 2 thread 1 to free\nround 4 frame 3 thread 1 to free\n\
    round 4 frame 4 thread 1 to free\nround 4 frame 5 thread 1 to free\n\
    round 4 frame 6 thread 1 to free\nround 4 frame 7 thread 1 to free\n\
    round 4 frame 8 thread 1 to free\nround 4 frame 9 thread 1 to free\n\
    round 4 frame 10 thread 1 to free\nround 4 frame 11 thread 1 to free\n\
    round 4 frame 12 thread 1 to free\nround 4 frame 13 thread 1 to free\n\
    round 4 frame 14 thread 1 to free\nround 4 frame 15 thread 1 to free\n\
    round 4 frame 16 thread 1 to free\n";

// The trace of the log `log` of the guest `a`, by one worker, two, and 32.
const TRACES: [[&str; 6]; 3] = [
    ["trace", "--log", LOG, "--workers", "1", "a"],
    ["trace", "--log", LOG, "--workers", "2", "a"],
    ["trace", "--log", LOG, "--workers", "32", "a"],
];

// The log of a run of these words is traced.
fn check_traces<R: Threads + Sync + Abort>(
    rt: &R,
    alloc: Global,
    files: &mut MemoryFiles,
    run: (&[&str], (u8, &str, &str)),
    wanted: (u8, &str, &str),
) {
    let _ = leaves(rt, alloc, files, run.0, run.1);
    for words in &TRACES {
        let _ = leaves(rt, alloc, files, words, wanted);
    }
}

const SEVENS: &str = "process 1 status 7\nrounds 1 done\n";

#[test]
fn what_ends_at_once_frees_its_frames(rt: HostRuntime) {
    let alloc = rt.alloc();
    let mut files = files_with(&rt, alloc, &SEVEN, b"", 0);
    let run = (["run", "a"].as_slice(), (0, "", SEVENS));
    check_traces(&rt, alloc, &mut files, run, (0, FREED, SEVENS));
    drop(files);
}

// What the guest prints to either output is dropped.
#[test]
fn what_guests_print_is_dropped(rt: HostRuntime) {
    let alloc = rt.alloc();
    let mut files = files_with(&rt, alloc, &PRINTS_TO_BOTH, b"abcdefghi", 0);
    let err = "cdghiprocess 1 status 0\nrounds 1 done\n";
    let run = (["run", "a"].as_slice(), (0, "abef", err));
    let report = "process 1 status 0\nrounds 1 done\n";
    check_traces(&rt, alloc, &mut files, run, (0, FREED, report));
    drop(files);
}

// Its frames stay its own.
#[test]
fn what_never_ends_changes_no_owner(rt: HostRuntime) {
    let alloc = rt.alloc();
    let report = "process 1 live\nrounds 3 limit\n";
    let mut files = files_with(&rt, alloc, &ENDLESS, b"", 0);
    let run = (["run", "--rounds", "3", "a"].as_slice(), (7, "", report));
    check_traces(&rt, alloc, &mut files, run, (7, "", report));
    drop(files);
    let report = "process 1 live\nrounds 1 stalled\n";
    let mut files = files_with(&rt, alloc, &WAITS, b"", 0);
    let run = (["run", "a"].as_slice(), (8, "", report));
    check_traces(&rt, alloc, &mut files, run, (8, "", report));
    drop(files);
}

// The files of the race, and the log of its run.
fn race_files<R: Threads + Sync + Abort>(rt: &R, alloc: Global) -> MemoryFiles {
    let mut files = files_with(rt, alloc, &RACE, b"0\0\0\0", 0);
    let report = "process 1 status 0\nrounds 4 done\n";
    let _ = leaves(rt, alloc, &mut files, &["run", "a"], (0, "11", report));
    files
}

// What is granted within a round and taken again in it isn't seen.
#[test]
fn a_page_goes_to_and_fro(rt: HostRuntime) {
    let alloc = rt.alloc();
    let mut files = race_files(&rt, alloc);
    for words in &TRACES {
        let wanted = (0, RACED, "process 1 status 0\nrounds 4 done\n");
        let _ = leaves(&rt, alloc, &mut files, words, wanted);
    }
    drop(files);
}

// Lines that fail leave those before them, and a report that fails a front of it.
const FAILING: [Case; 3] = [
    Case {
        words: &["trace", "--log", LOG, "--workers", "1", "a"],
        out_failing: &[1],
        status: 6,
        ..SILENT
    },
    Case {
        words: &["trace", "--log", LOG, "--workers", "2", "a"],
        out_failing: &[3],
        status: 6,
        out: "round 2 frame 0 thread 1 to shared\nround 3 frame 0 shared to thread 2\n",
        ..SILENT
    },
    Case {
        words: &["trace", "--log", LOG, "--workers", "32", "a"],
        err_failing: &[2],
        status: 6,
        out: RACED,
        err: "process 1 status 0\n",
        ..SILENT
    },
];

#[test]
fn outputs_that_fail_cut_a_trace_off(rt: HostRuntime) {
    let alloc = rt.alloc();
    let mut files = race_files(&rt, alloc);
    check_cases(&rt, alloc, &mut files, &FAILING);
    drop(files);
}

// The log with one byte changed.
fn change_log(rt: &impl Abort, files: &mut MemoryFiles, place: usize, value: u8) {
    let mut log = files.get(LOG, 1 << 20).expect(rt, "a log");
    *log.get_mut(place).expect(rt, "a byte") = value;
    files.set(LOG, &log).expect(rt, "a file");
    drop(log);
}

const MISFITS: [Case; 1] = [Case {
    words: &["trace", "--log", LOG, "--workers", "2", "a"],
    status: 4,
    out: "round 2 frame 0 thread 1 to shared\n",
    err: "dos: log entry 2 is end done rounds 4, asked signals round 3\n",
    ..SILENT
}];

// The log says that two rounds were asked, and not four.
#[test]
fn on_a_misfit_the_lines_so_far_stand(rt: HostRuntime) {
    let alloc = rt.alloc();
    let mut files = race_files(&rt, alloc);
    change_log(&rt, &mut files, 57, 2);
    check_cases(&rt, alloc, &mut files, &MISFITS);
    drop(files);
}

// What is refused before the run, as of a replay.
const REFUSED: [Case; 4] = [
    Case {
        words: &["trace", "a"],
        status: 2,
        err: "dos: words refused\n",
        ..SILENT
    },
    Case {
        words: &["trace", "--log", "none", "a"],
        status: 5,
        err: "dos: file fault\n",
        ..SILENT
    },
    Case {
        words: &["trace", "--log", "a", "a"],
        status: 4,
        err: "dos: log refused: magic\n",
        ..SILENT
    },
    Case {
        words: &["trace", "--log", LOG, "a", "b"],
        status: 4,
        err: "dos: log has 1 images, given 2\n",
        ..SILENT
    },
];

#[test]
fn a_trace_is_refused_as_a_replay_is(rt: HostRuntime) {
    let alloc = rt.alloc();
    let mut files = race_files(&rt, alloc);
    add_guest(&rt, alloc, &mut files, "b", &SEVEN, b"", 0);
    check_cases(&rt, alloc, &mut files, &REFUSED);
    drop(files);
}
