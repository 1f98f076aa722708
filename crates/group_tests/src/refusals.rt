//! Calls that run no guest.
use crate::calls::{Case, SILENT, check_cases, leaves};
use crate::files::{add_zeros, usual_files};

const OTHERS: [&[&str]; 34] = [
    &[],
    &["run"],
    &["seven"],
    &["run", "-x"],
    &["run", "seven", "-x"],
    &["replay", "seven"],
    &["replay", "--log", "seven"],
    &["replay", "--log", "seven", "--quantum", "1000", "seven"],
    &["gen", "--number", "7"],
    &["gen", "--number", "7", "--threads", "33"],
    &["gen", "--number", "4294967296", "--threads", "1"],
    &["gen", "--number", "7", "--threads", "1", "seven"],
    &["run", "--workers", "33", "seven"],
    &["run", "--signals", "1:1:32", "seven"],
    &["run", "--signals", "0:1:1", "seven"],
    &["run", "--clock-from", "18446744073709551616", "seven"],
    &["--help"],
    &["run", "--help"],
    &["--version"],
    &["walk", "seven"],
    &["inspect"],
    &["inspect", "seven", "b"],
    &["inspect", "-a"],
    &["run", "--quantum", "15", "seven"],
    &["run", "--quantum", "65537", "seven"],
    &["run", "--quantum", "0016", "seven"],
    &["run", "--rounds", "0", "seven"],
    &["run", "--rounds", "1000001", "seven"],
    &["run", "--frames", "15", "seven"],
    &["run", "--frames", "16385", "seven"],
    &["run", "--frames", "seven"],
    &["run", "--frames", "16", "--frames", "16", "seven"],
    &["run", "seven", "--frames", "18", "seven"],
    &[
        "run", "seven", "seven", "seven", "seven", "seven", "seven", "seven", "seven", "seven",
    ],
];

#[test]
fn other_words_are_refused(rt: HostRuntime) {
    let alloc = rt.alloc();
    let mut files = usual_files(&rt, alloc);
    for words in &OTHERS {
        let wanted = (2, "", "dos: words refused\n");
        let _ = leaves(&rt, alloc, &mut files, words, wanted);
    }
    drop(files);
}

const FILES: [Case; 9] = [
    Case {
        words: &["run", "short"],
        status: 3,
        err: "dos: image 1 refused 1\n",
        ..SILENT
    },
    Case {
        words: &["run", "empty"],
        status: 3,
        err: "dos: image 1 refused 13\n",
        ..SILENT
    },
    Case {
        words: &["run", "cut"],
        status: 3,
        err: "dos: image 1 refused 11 at 0\n",
        ..SILENT
    },
    Case {
        words: &["run", "seven", "short"],
        status: 3,
        err: "dos: image 2 refused 1\n",
        ..SILENT
    },
    Case {
        words: &["run", "seven", "none"],
        status: 5,
        err: "dos: file fault\n",
        ..SILENT
    },
    Case {
        words: &["inspect", "short"],
        status: 3,
        err: "dos: image 1 refused 1\n",
        ..SILENT
    },
    // 4194305 bytes
    Case {
        words: &["run", "long"],
        status: 3,
        err: "dos: image 1 too long\n",
        ..SILENT
    },
    Case {
        words: &["run", "seven", "long"],
        status: 3,
        err: "dos: image 2 too long\n",
        ..SILENT
    },
    Case {
        words: &["run", "none"],
        status: 5,
        err: "dos: file fault\n",
        ..SILENT
    },
];

#[test]
fn other_files_are_refused(rt: HostRuntime) {
    let alloc = rt.alloc();
    let mut files = usual_files(&rt, alloc);
    add_zeros(&rt, alloc, &mut files, "long", 4194305);
    check_cases(&rt, alloc, &mut files, &FILES);
    drop(files);
}
