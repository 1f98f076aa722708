//! What runs record: rounds, signals and input; and hosts and outputs that fail in a run.
use crate::calls::{
    NOTHING, Outside, Wanted, call_over, check_left, check_replay, has_log, leaves_over, log_length,
};
use crate::checks::{same, same_at};
use crate::guests::{CATCHES, ECHOES, FORKS, MAPS, READS, WAITS, add_guest, files_with};
use dos_io::MemoryFiles;
use rv_isa::Instr;
use std::alloc::Global;
use std::process::Abort;
use std::thread::Threads;

// The code of a guest named `a`, the words that it is run with, and what the run leaves, with how
// many bytes its log has.
struct Guest {
    code: &'static [Instr],
    words: &'static [&'static str],
    status: u8,
    err: &'static str,
    length: usize,
}

const GUESTS: [Guest; 6] = [
    Guest {
        code: &WAITS,
        words: &["run", "a"],
        status: 8,
        err: "process 1 live\nrounds 1 stalled\n",
        length: 67,
    },
    Guest {
        code: &WAITS,
        words: &["run", "--signals", "2:1:15", "a"],
        status: 0,
        err: "process 1 status 143\nrounds 1 done\n",
        length: 78,
    },
    Guest {
        code: &CATCHES,
        words: &["run", "--signals", "2:1:15", "a"],
        status: 0,
        err: "process 1 status 252\nrounds 2 done\n",
        length: 78,
    },
    Guest {
        code: &MAPS,
        words: &["run", "--frames", "17", "a"],
        status: 0,
        err: "process 1 status 244\nrounds 1 done\n",
        length: 67,
    },
    Guest {
        code: &MAPS,
        words: &["run", "--frames", "18", "a"],
        status: 0,
        err: "process 1 status 0\nrounds 1 done\n",
        length: 67,
    },
    Guest {
        code: &FORKS,
        words: &["run", "a"],
        status: 0,
        err: "process 1 status 5\nprocess 2 status 5\nrounds 3 done\n",
        length: 67,
    },
];

// A run of the guest leaves what is wanted, and a log of this length, whose replay leaves the same.
fn check_recorded<R: Threads + Sync + Abort>(
    rt: &R,
    alloc: Global,
    files: &mut MemoryFiles,
    words: &[&str],
    outside: &Outside<'_>,
    wanted: Wanted<'_>,
    length: usize,
) {
    let left = call_over(rt, alloc, files, words, outside);
    check_left(rt, &left, words, wanted);
    same_at(rt, log_length(rt, files), length, words);
    check_replay(rt, alloc, files, words, left);
}

fn check_guest<R: Threads + Sync + Abort>(
    rt: &R,
    alloc: Global,
    files: &mut MemoryFiles,
    guest: &Guest,
) {
    let (words, length) = (guest.words, guest.length);
    let wanted = (guest.status, "", guest.err);
    add_guest(rt, alloc, files, "a", guest.code, b"", 0);
    check_recorded(rt, alloc, files, words, &NOTHING, wanted, length);
}

#[test]
fn runs_are_recorded_round_by_round(rt: HostRuntime) {
    let alloc = rt.alloc();
    let mut files = MemoryFiles::new(alloc, &[]).expect(&rt, "memory");
    for guest in &GUESTS {
        check_guest(&rt, alloc, &mut files, guest);
    }
    drop(files);
}

const TEN: Outside<'static> = Outside {
    input: b"0123456789",
    piece: 64,
    ..NOTHING
};

#[test]
fn input_is_recorded(rt: HostRuntime) {
    let wanted = (0, "0123456789", "process 1 status 0\nrounds 1 done\n");
    let mut files = files_with(&rt, rt.alloc(), &ECHOES, b"", 0);
    let words = ["run", "a"];
    check_recorded(&rt, rt.alloc(), &mut files, &words, &TEN, wanted, 103);
    drop(files);
}

// A run of this code leaves what is wanted, and no log.
fn check_unrecorded<R: Threads + Sync + Abort>(
    rt: &R,
    alloc: Global,
    code: &[Instr],
    outside: &Outside<'_>,
    wanted: Wanted<'_>,
) {
    let mut files = files_with(rt, alloc, code, b"", 0);
    let _ = leaves_over(rt, alloc, &mut files, &["run", "a"], outside, wanted);
    same(rt, has_log(&mut files), false);
    drop(files);
}

#[test]
fn a_host_that_fails_gives_five_and_no_log(rt: HostRuntime) {
    let outside = Outside {
        host_failing: &[2],
        ..TEN
    };
    let wanted = (5, "0123456789", "dos: host fault\n");
    check_unrecorded(&rt, rt.alloc(), &ECHOES, &outside, wanted);
}

#[test]
fn an_output_that_fails_in_a_run_gives_six_and_no_log(rt: HostRuntime) {
    let outside = Outside {
        piece: 4,
        out_failing: &[3],
        ..TEN
    };
    let wanted = (6, "01234567", "");
    check_unrecorded(&rt, rt.alloc(), &ECHOES, &outside, wanted);
}

// The guest reads 4096 bytes 333 times a round, and an entry of 4096 bytes takes 4109. With what is
// asked in 50 rounds 16332 of them fit; then there is no room for what the next question may bring,
// though nothing would come.
#[test]
fn a_full_log_gives_ten_and_no_log(rt: HostRuntime) {
    let alloc = rt.alloc();
    let input = vec![in alloc; 0u8; 66895872].expect(&rt, "memory");
    let outside = Outside {
        input: &input,
        piece: 4096,
        ..NOTHING
    };
    let wanted = (10, "", "dos: log full\n");
    check_unrecorded(&rt, alloc, &READS, &outside, wanted);
    drop(input);
}
