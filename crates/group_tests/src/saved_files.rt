//! The files of saved groups: what stands in them, byte for byte, and what is said of others.
use crate::calls::{Case, LOG, NOTHING, Outside, SILENT, check_cases, leaves, leaves_over};
use crate::checks::same;
use crate::files::add_zeros;
use crate::guests::{RACE, SEVEN, add_guest, files_with};
use crate::saves::{GROUP, RESUME, race_files};
use dos_io::{Files, MemoryFiles};
use std::alloc::Global;
use std::process::Abort;

// What stands in front of the digest of the log's file.
const MAGIC: [u8; 6] = [0x44, 0x50, 0x47, 0x53, 1, 0];

// The digest of the log of `SEVEN` over 17 frames.
const DIGEST: [u8; 32] = [
    0xb3, 0x38, 0x7f, 0x12, 0x1a, 0x4e, 0xb1, 0x28, 0x16, 0x84, 0xa0, 0xe1, 0x0e, 0x5c, 0xb7, 0xb3,
    0xdb, 0x83, 0x8d, 0xb3, 0x18, 0x19, 0x9a, 0x34, 0x4e, 0x15, 0x14, 0x58, 0xed, 0xae, 0xa8, 0x84,
];

// What was used of the log; the quantum, the limit of rounds, the frames, the rounds, the numbers
// of threads and of processes that were given; and the one process: its parent, that it has ended,
// and its status. Behind that nothing but zeros stands: of the number of threads, of 64 pipes, of
// the number of sleepers, and of 17 Free frames.
const SEVEN_GROUP: [u8; 34] = [
    1, 0, 0, 0, 0xe8, 3, 0, 0, 0xa0, 0x86, 1, 0, 17, 0, 0, 0, 1, 0, 0, 0, 1, 0, 0, 0, 1, 0, 0, 0,
    0, 0, 0, 0, 1, 7,
];

// The whole of it.
fn seven_group(rt: &impl Abort, alloc: Global) -> Vec<u8> {
    let mut group = Vec::new(alloc);
    for part in [
        MAGIC.as_slice(),
        DIGEST.as_slice(),
        SEVEN_GROUP.as_slice(),
        [0; 215].as_slice(),
    ] {
        group.extend_from_slice(part).expect(rt, "memory");
    }
    group
}

// The file holds these bytes.
fn check_file(rt: &impl Abort, files: &mut MemoryFiles, name: &str, wanted: &[u8]) {
    let file = files.get(name, 1 << 27).expect(rt, "a file");
    same(rt, file.as_slice(), wanted);
    drop(file);
}

const SAVE_SEVEN: [&str; 8] = ["save", "--log", LOG, "--round", "1", "--to", GROUP, "a"];

// A group of a process that has ended, saved where it would end next.
#[test]
fn a_smallest_group_is_written(rt: HostRuntime) {
    let alloc = rt.alloc();
    let mut files = files_with(&rt, alloc, &SEVEN, b"", 0);
    let report = (0, "", "process 1 status 7\nrounds 1 done\n");
    let words = ["run", "--frames", "17", "a"];
    let _ = leaves(&rt, alloc, &mut files, &words, report);
    let saved = (0, "", "saved round 1\n");
    let _ = leaves(&rt, alloc, &mut files, &SAVE_SEVEN, saved);
    let group = seven_group(&rt, alloc);
    check_file(&rt, &mut files, GROUP, &group);
    let _ = leaves(&rt, alloc, &mut files, &RESUME, report);
    check_file(&rt, &mut files, GROUP, &group);
    drop(group);
    drop(files);
}

// A change of the smallest group: of one byte of it and a zero behind it, of which so many bytes
// are left; and the line of its resumption.
#[derive(Clone, Copy)]
struct Change {
    place: usize,
    value: u8,
    length: usize,
    line: &'static str,
}

const CHANGE: Change = Change {
    place: 0,
    value: 0x44,
    length: 287,
    line: "",
};

const CHANGES: [Change; 14] = [
    Change {
        value: 0,
        line: "dos: group refused: magic\n",
        ..CHANGE
    },
    Change {
        length: 0,
        line: "dos: group refused: short at 0\n",
        ..CHANGE
    },
    Change {
        value: 0,
        length: 3,
        line: "dos: group refused: short at 0\n",
        ..CHANGE
    },
    // a digest is one field
    Change {
        length: 37,
        line: "dos: group refused: short at 6\n",
        ..CHANGE
    },
    Change {
        length: 286,
        line: "dos: group refused: short at 283\n",
        ..CHANGE
    },
    Change {
        length: 288,
        line: "dos: group refused: after end at 287\n",
        ..CHANGE
    },
    Change {
        place: 5,
        value: 1,
        line: "dos: group refused: version 257\n",
        ..CHANGE
    },
    // the rounds, over their limit
    Change {
        place: 57,
        value: 1,
        line: "dos: group refused: field at 54\n",
        ..CHANGE
    },
    // the first process is its own parent
    Change {
        place: 66,
        value: 1,
        line: "dos: group refused: unlawful\n",
        ..CHANGE
    },
    // a frame that is Shared and hasn't its bytes
    Change {
        place: 282,
        value: 1,
        line: "dos: group refused: short at 287\n",
        ..CHANGE
    },
    Change {
        place: 6,
        value: 0,
        line: "dos: group is of another log\n",
        ..CHANGE
    },
    // the log is used up
    Change {
        place: 38,
        value: 2,
        line: "dos: group is of another log\n",
        ..CHANGE
    },
    Change {
        place: 41,
        value: 255,
        line: "dos: group is of another log\n",
        ..CHANGE
    },
    // what is wrong first is told, whatever is wrong behind it
    Change {
        place: 42,
        value: 0,
        length: 45,
        line: "dos: group refused: short at 42\n",
        ..CHANGE
    },
];

// The group with the change.
fn add_changed(rt: &impl Abort, alloc: Global, files: &mut MemoryFiles, change: &Change) {
    let mut group = seven_group(rt, alloc);
    group.push(0).expect(rt, "memory");
    if let Some(byte) = group.get_mut(change.place) {
        *byte = change.value;
    }
    let left = group.get(..change.length).unwrap_or(&[]);
    files.add(GROUP, left).expect(rt, "memory");
    drop(group);
}

#[test]
fn other_groups_are_refused(rt: HostRuntime) {
    let alloc = rt.alloc();
    let mut files = files_with(&rt, alloc, &SEVEN, b"", 0);
    let report = (0, "", "process 1 status 7\nrounds 1 done\n");
    let words = ["run", "--frames", "17", "a"];
    let _ = leaves(&rt, alloc, &mut files, &words, report);
    for change in &CHANGES {
        add_changed(&rt, alloc, &mut files, change);
        let _ = leaves(&rt, alloc, &mut files, &RESUME, (11, "", change.line));
    }
    drop(files);
}

#[test]
fn the_longest_group_has_80_mebibytes(rt: HostRuntime) {
    let alloc = rt.alloc();
    let mut files = files_with(&rt, alloc, &SEVEN, b"", 0);
    add_zeros(&rt, alloc, &mut files, GROUP, 83886081);
    let wanted = (11, "", "dos: group too long\n");
    let _ = leaves(&rt, alloc, &mut files, &RESUME, wanted);
    add_zeros(&rt, alloc, &mut files, GROUP, 83886080);
    let wanted = (11, "", "dos: group refused: magic\n");
    let _ = leaves(&rt, alloc, &mut files, &RESUME, wanted);
    drop(files);
}

const OF_OTHERS: [Case; 7] = [
    Case {
        words: &["resume", "--log", "seven log", "--from", GROUP],
        status: 11,
        err: "dos: group is of another log\n",
        ..SILENT
    },
    // the group is judged before the log is read
    Case {
        words: &["resume", "--log", "none", "--from", "a"],
        status: 11,
        err: "dos: group refused: magic\n",
        ..SILENT
    },
    Case {
        words: &["resume", "--log", "none", "--from", GROUP],
        status: 5,
        err: "dos: file fault\n",
        ..SILENT
    },
    Case {
        words: &["resume", "--log", LOG, "--from", "none"],
        status: 5,
        err: "dos: file fault\n",
        ..SILENT
    },
    Case {
        words: &["resume", "--log", GROUP, "--from", GROUP],
        status: 4,
        err: "dos: log refused: magic\n",
        ..SILENT
    },
    Case {
        words: &["resume", "--log", LOG, "--from", GROUP, "a"],
        status: 2,
        err: "dos: words refused\n",
        ..SILENT
    },
    // none of them has changed it
    Case {
        words: &RESUME,
        out: "11",
        err: "process 1 status 0\nrounds 4 done\n",
        ..SILENT
    },
];

const SAVE_RACE: [&str; 8] = ["save", "--log", LOG, "--round", "3", "--to", GROUP, "a"];

// Another run, whose log gets a name of its own.
fn add_seven_log(rt: &impl Abort, files: &mut MemoryFiles) {
    let log = files.get(LOG, 1 << 27).expect(rt, "a log");
    files.add("seven log", &log).expect(rt, "memory");
    drop(log);
}

#[test]
fn a_group_is_of_its_log(rt: HostRuntime) {
    let alloc = rt.alloc();
    let mut files = files_with(&rt, alloc, &SEVEN, b"", 0);
    let report = (0, "", "process 1 status 7\nrounds 1 done\n");
    let _ = leaves(&rt, alloc, &mut files, &["run", "a"], report);
    add_seven_log(&rt, &mut files);
    add_guest(&rt, alloc, &mut files, "a", &RACE, b"0\0\0\0", 0);
    let raced = (0, "11", "process 1 status 0\nrounds 4 done\n");
    let _ = leaves(&rt, alloc, &mut files, &["run", "a"], raced);
    let _ = leaves(
        &rt,
        alloc,
        &mut files,
        &SAVE_RACE,
        (0, "", "saved round 3\n"),
    );
    check_cases(&rt, alloc, &mut files, &OF_OTHERS);
    drop(files);
}

// The file with one byte changed.
fn change_byte(rt: &impl Abort, files: &mut MemoryFiles, name: &str, place: usize, value: u8) {
    let mut file = files.get(name, 1 << 27).expect(rt, "a file");
    *file.get_mut(place).expect(rt, "a byte") = value;
    files.add(name, &file).expect(rt, "memory");
    drop(file);
}

// How many exchanges of the race's log were used, as the group has it, where three were; and the
// line. Its log has four rounds without a signal, and the end.
const USED: [(u8, u8, &str); 5] = [
    (
        0,
        4,
        "dos: log entry 0 is signals round 1, asked signals round 4\n",
    ),
    (
        2,
        4,
        "dos: log entry 2 is signals round 3, asked signals round 4\n",
    ),
    (
        4,
        4,
        "dos: log entry 4 is end done rounds 4, asked signals round 4\n",
    ),
    (5, 11, "dos: group is of another log\n"),
    (255, 11, "dos: group is of another log\n"),
];

#[test]
fn a_group_is_gone_on_with_where_it_was_left(rt: HostRuntime) {
    let alloc = rt.alloc();
    let mut files = race_files(&rt, alloc);
    let _ = leaves(
        &rt,
        alloc,
        &mut files,
        &SAVE_RACE,
        (0, "", "saved round 3\n"),
    );
    for (used, status, line) in USED {
        change_byte(&rt, &mut files, GROUP, 38, used);
        let _ = leaves(&rt, alloc, &mut files, &RESUME, (status, "", line));
    }
    drop(files);
}

// The log says that two rounds were asked, and not four.
const CUT: [Case; 4] = [
    Case {
        words: &SAVE_RACE,
        status: 4,
        err: "dos: log entry 2 is end done rounds 4, asked signals round 3\n",
        ..SILENT
    },
    Case {
        words: &["resume", "--log", LOG, "--from", GROUP],
        status: 5,
        err: "dos: file fault\n",
        ..SILENT
    },
    Case {
        words: &["save", "--log", LOG, "--round", "2", "--to", GROUP, "a"],
        err: "saved round 2\n",
        ..SILENT
    },
    Case {
        words: &RESUME,
        status: 4,
        err: "dos: log entry 2 is end done rounds 4, asked signals round 3\n",
        ..SILENT
    },
];

#[test]
fn a_misfit_behind_the_round_is_the_resumptions(rt: HostRuntime) {
    let alloc = rt.alloc();
    let mut files = race_files(&rt, alloc);
    change_byte(&rt, &mut files, LOG, 57, 2);
    check_cases(&rt, alloc, &mut files, &CUT);
    drop(files);
}

// What is refused before the run, as of a replay; no file is written.
const REFUSED: [Case; 6] = [
    Case {
        words: &["save", "--log", LOG, "--round", "3", "--to", GROUP],
        status: 2,
        err: "dos: words refused\n",
        ..SILENT
    },
    Case {
        words: &["save", "--log", LOG, "--round", "0", "--to", GROUP, "a"],
        status: 2,
        err: "dos: words refused\n",
        ..SILENT
    },
    Case {
        words: &["save", "--log", "none", "--round", "3", "--to", GROUP, "a"],
        status: 5,
        err: "dos: file fault\n",
        ..SILENT
    },
    Case {
        words: &["save", "--log", "a", "--round", "3", "--to", GROUP, "a"],
        status: 4,
        err: "dos: log refused: magic\n",
        ..SILENT
    },
    Case {
        words: &[
            "save", "--log", LOG, "--round", "3", "--to", GROUP, "a", "a",
        ],
        status: 4,
        err: "dos: log has 1 images, given 2\n",
        ..SILENT
    },
    Case {
        words: &["save", "--log", LOG, "--round", "3", "--to", GROUP, LOG],
        status: 3,
        err: "dos: image 1 refused 2\n",
        ..SILENT
    },
];

#[test]
fn a_save_is_refused_as_a_replay_is(rt: HostRuntime) {
    let alloc = rt.alloc();
    let mut files = race_files(&rt, alloc);
    check_cases(&rt, alloc, &mut files, &REFUSED);
    same(&rt, files.get(GROUP, 1 << 27).is_ok(), false);
    drop(files);
}

// The race prints its two bytes in its fourth round. Each put of a save behind it and of a
// resumption fails in turn.
const FAILING: [Case; 10] = [
    Case {
        words: &["save", "--log", LOG, "--round", "4", "--to", "none", "a"],
        out_failing: &[1],
        status: 6,
        ..SILENT
    },
    Case {
        words: &["save", "--log", LOG, "--round", "4", "--to", "none", "a"],
        out_failing: &[2],
        status: 6,
        out: "1",
        ..SILENT
    },
    Case {
        words: &["resume", "--log", LOG, "--from", "none"],
        status: 5,
        err: "dos: file fault\n",
        ..SILENT
    },
    // the file stands where the line fails
    Case {
        words: &["save", "--log", LOG, "--round", "4", "--to", GROUP, "a"],
        err_failing: &[1],
        status: 6,
        out: "11",
        ..SILENT
    },
    Case {
        words: &RESUME,
        err: "process 1 status 0\nrounds 4 done\n",
        ..SILENT
    },
    Case {
        words: &SAVE_RACE,
        err_failing: &[2],
        err: "saved round 3\n",
        ..SILENT
    },
    Case {
        words: &RESUME,
        out_failing: &[1],
        status: 6,
        ..SILENT
    },
    Case {
        words: &RESUME,
        out_failing: &[2],
        status: 6,
        out: "1",
        ..SILENT
    },
    Case {
        words: &RESUME,
        err_failing: &[2],
        status: 6,
        out: "11",
        err: "process 1 status 0\n",
        ..SILENT
    },
    // the line of a refusal fails too
    Case {
        words: &["resume", "--log", LOG, "--from", "a"],
        err_failing: &[1],
        status: 6,
        ..SILENT
    },
];

#[test]
fn outputs_that_fail_leave_what_was_put(rt: HostRuntime) {
    let alloc = rt.alloc();
    let mut files = race_files(&rt, alloc);
    check_cases(&rt, alloc, &mut files, &FAILING);
    drop(files);
}

// The race, whose files fail at the call of this number: the run asks them for its image and its
// log, the save for its log, its image and its group, and the resumption for its group and its log.
fn failing_files(rt: &impl Abort, alloc: Global, failing: u32) -> MemoryFiles {
    let mut files = MemoryFiles::new(alloc, &[failing]).expect(rt, "memory");
    add_guest(rt, alloc, &mut files, "a", &RACE, b"0\0\0\0", 0);
    files
}

const LINE_FAILING: Outside<'static> = Outside {
    err_failing: &[1],
    ..NOTHING
};

const RACE_ENDS: (u8, &str, &str) = (0, "11", "process 1 status 0\nrounds 4 done\n");

const SAVE_LAST: [&str; 8] = ["save", "--log", LOG, "--round", "4", "--to", GROUP, "a"];

#[test]
fn files_that_fail_in_a_save_give_five(rt: HostRuntime) {
    let alloc = rt.alloc();
    for (failing, out) in [(3, ""), (4, ""), (5, "11")] {
        let mut files = failing_files(&rt, alloc, failing);
        let _ = leaves(&rt, alloc, &mut files, &["run", "a"], RACE_ENDS);
        let wanted = (5, out, "dos: file fault\n");
        let _ = leaves(&rt, alloc, &mut files, &SAVE_LAST, wanted);
        drop(files);
    }
    // and six where that line fails too
    let mut files = failing_files(&rt, alloc, 5);
    let _ = leaves(&rt, alloc, &mut files, &["run", "a"], RACE_ENDS);
    let _ = leaves_over(
        &rt,
        alloc,
        &mut files,
        &SAVE_LAST,
        &LINE_FAILING,
        (6, "11", ""),
    );
    drop(files);
}

#[test]
fn files_that_fail_in_a_resumption_give_five(rt: HostRuntime) {
    let alloc = rt.alloc();
    for failing in [6, 7] {
        let mut files = failing_files(&rt, alloc, failing);
        let _ = leaves(&rt, alloc, &mut files, &["run", "a"], RACE_ENDS);
        let _ = leaves(
            &rt,
            alloc,
            &mut files,
            &SAVE_RACE,
            (0, "", "saved round 3\n"),
        );
        let wanted = (5, "", "dos: file fault\n");
        let _ = leaves(&rt, alloc, &mut files, &RESUME, wanted);
        let _ = leaves(&rt, alloc, &mut files, &RESUME, RACE_ENDS);
        drop(files);
    }
}
