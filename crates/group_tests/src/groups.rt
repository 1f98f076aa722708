//! Groups of several images, and room for them.
use crate::calls::{Case, SILENT, call, check_cases, check_long};
use crate::files::usual_files;
use crate::guests::{LONG_WRITE, files_with};

const GROUPS: [Case; 6] = [
    Case {
        words: &["run", "seven", "hi"],
        out: "Hi\n",
        err: "process 1 status 7\nprocess 2 status 0\nrounds 1 done\n",
        ..SILENT
    },
    // one file twice
    Case {
        words: &["run", "hi", "hi"],
        out: "Hi\nHi\n",
        err: "process 1 status 0\nprocess 2 status 0\nrounds 1 done\n",
        ..SILENT
    },
    Case {
        words: &["run", "--frames", "17", "linked"],
        status: 3,
        err: "dos: needs 18 frames, has 17\n",
        ..SILENT
    },
    Case {
        words: &["run", "--frames", "18", "linked"],
        err: "process 1 status 7\nrounds 1 done\n",
        ..SILENT
    },
    Case {
        words: &["run", "--frames", "16", "seven"],
        status: 3,
        err: "dos: needs 17 frames, has 16\n",
        ..SILENT
    },
    Case {
        words: &["run", "--frames", "33", "seven", "seven"],
        status: 3,
        err: "dos: needs 34 frames, has 33\n",
        ..SILENT
    },
];

#[test]
fn images_are_processes_where_there_is_room(rt: HostRuntime) {
    let alloc = rt.alloc();
    let mut files = usual_files(&rt, alloc);
    check_cases(&rt, alloc, &mut files, &GROUPS);
    drop(files);
}

#[test]
fn a_write_puts_at_most_4096_bytes(rt: HostRuntime) {
    let alloc = rt.alloc();
    let mut files = files_with(&rt, alloc, &LONG_WRITE, b"", 5000);
    let left = call(&rt, alloc, &mut files, &["run", "a"]);
    // 4096 modulo 256 is 0, and 5000 modulo 256 is not
    let err = "process 1 status 0\nrounds 1 done\n";
    check_long(&rt, &left, 4096, err);
    drop(left);
    drop(files);
}
