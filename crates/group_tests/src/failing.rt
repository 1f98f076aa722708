//! Each put of a call fails in turn: what was put before stands, and nothing follows.
use crate::calls::{Case, SILENT, check_cases};
use crate::files::usual_files;
use crate::guests::{PRINTS_TO_BOTH, add_guest};

// The guest's four puts and the report's two, in the order in which they come.
const PUTS: [Case; 7] = [
    Case {
        words: &["run", "both"],
        out_failing: &[1],
        status: 6,
        ..SILENT
    },
    Case {
        words: &["run", "both"],
        err_failing: &[1],
        status: 6,
        out: "ab",
        ..SILENT
    },
    Case {
        words: &["run", "both"],
        out_failing: &[2],
        status: 6,
        out: "ab",
        err: "cd",
        ..SILENT
    },
    Case {
        words: &["run", "both"],
        err_failing: &[2],
        status: 6,
        out: "abef",
        err: "cd",
        ..SILENT
    },
    Case {
        words: &["run", "both"],
        err_failing: &[3],
        status: 6,
        out: "abef",
        err: "cdgh\n",
        ..SILENT
    },
    Case {
        words: &["run", "both"],
        err_failing: &[4],
        status: 6,
        out: "abef",
        err: "cdgh\nprocess 1 status 0\n",
        ..SILENT
    },
    // there is no other put
    Case {
        words: &["run", "both"],
        out_failing: &[3],
        err_failing: &[5],
        out: "abef",
        err: "cdgh\nprocess 1 status 0\nrounds 1 done\n",
        ..SILENT
    },
];

// The lines of an image's entry and of its parts.
const LINES: [Case; 4] = [
    Case {
        words: &["inspect", "seven"],
        out_failing: &[1],
        status: 6,
        ..SILENT
    },
    Case {
        words: &["inspect", "seven"],
        out_failing: &[2],
        status: 6,
        out: "entry 00010000\n",
        ..SILENT
    },
    Case {
        words: &["inspect", "seven"],
        out_failing: &[3],
        err_failing: &[1],
        out: "entry 00010000\nload 00010000 file 12 memory 12 rights rwx\n",
        ..SILENT
    },
    Case {
        words: &["inspect", "linked"],
        out: "\
            entry 000100b4\n\
            load 00010000 file 192 memory 192 rights r-x\n\
            load 000110c0 file 4 memory 64 rights rw-\n",
        ..SILENT
    },
];

// The four lines of a group that is made from a number.
const SUMMARY: [Case; 5] = [
    Case {
        words: &["gen", "--threads", "1", "--number", "7"],
        out_failing: &[1],
        status: 6,
        ..SILENT
    },
    Case {
        words: &["gen", "--threads", "1", "--number", "7"],
        out_failing: &[2],
        status: 6,
        out: "rounds 13 done\n",
        ..SILENT
    },
    Case {
        words: &["gen", "--threads", "1", "--number", "7"],
        out_failing: &[3],
        status: 6,
        out: "rounds 13 done\nprocess 1 status 0\n",
        ..SILENT
    },
    Case {
        words: &["gen", "--threads", "1", "--number", "7"],
        out_failing: &[4],
        status: 6,
        out: "rounds 13 done\nprocess 1 status 0\noutput 4100 bytes\n",
        ..SILENT
    },
    Case {
        words: &["gen", "--threads", "1", "--number", "7"],
        out_failing: &[5],
        err_failing: &[1],
        out: "\
            rounds 13 done\n\
            process 1 status 0\n\
            output 4100 bytes\n\
            sha256 e59d0f930d0ea4db1caa85500322a5534b2c60e19a71fb491a8eac6055e8aa34\n",
        ..SILENT
    },
];

const OTHERS: [Case; 4] = [
    // a refusal is one line
    Case {
        words: &["run"],
        err_failing: &[1],
        status: 6,
        ..SILENT
    },
    Case {
        words: &["run", "short"],
        err_failing: &[1],
        status: 6,
        ..SILENT
    },
    // of two processes
    Case {
        words: &["run", "hi", "hi"],
        out_failing: &[2],
        status: 6,
        out: "Hi\n",
        ..SILENT
    },
    Case {
        words: &["run", "hi", "hi"],
        err_failing: &[3],
        status: 6,
        out: "Hi\nHi\n",
        err: "process 1 status 0\nprocess 2 status 0\n",
        ..SILENT
    },
];

const ALL: [&[Case]; 4] = [&PUTS, &LINES, &SUMMARY, &OTHERS];

#[test]
fn each_put_fails_in_turn(rt: HostRuntime) {
    let alloc = rt.alloc();
    let mut files = usual_files(&rt, alloc);
    add_guest(
        &rt,
        alloc,
        &mut files,
        "both",
        &PRINTS_TO_BOTH,
        b"abcdefgh\n",
        0,
    );
    for cases in &ALL {
        check_cases(&rt, alloc, &mut files, cases);
    }
    drop(files);
}
