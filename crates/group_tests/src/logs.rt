//! What a run writes into its log, byte for byte, and what a replay says of other logs.
use crate::calls::{
    Case, LOG, NOTHING, Outside, SILENT, call, check_cases, check_left, check_replay, leaves,
    leaves_over, log_of,
};
use crate::checks::same;
use crate::files::{add_zeros, usual_files};
use crate::guests::{ENDS_WITH_0, SEVEN, add_guest, files_with};
use dos_io::MemoryFiles;
use std::alloc::Global;
use std::process::Abort;
use std::thread::Threads;

// The log of a run that ends with 7 in its first round. Its digest is that of another program.
const SEVEN_LOG: [u8; 67] = [
    0x44, 0x50, 0x47, 0x4c, 0x02, 0x00, 0x01, 0x00, 0xe8, 0x03, 0x00, 0x00, 0xa0, 0x86, 0x01, 0x00,
    0x00, 0x10, 0x00, 0x00, 0x3e, 0x21, 0x5e, 0xaa, 0xc5, 0x7e, 0x12, 0x59, 0xf5, 0x83, 0xad, 0x0a,
    0x3d, 0x62, 0x72, 0xda, 0x6e, 0x75, 0xfb, 0xda, 0x72, 0xe3, 0x70, 0x32, 0x7d, 0xf3, 0x11, 0x09,
    0x82, 0x4a, 0x6e, 0x5b, 0x04, 0x01, 0x00, 0x00, 0x00, 0x01, 0x00, 0x00, 0x00, 0x00, 0x00, 0x01,
    0x00, 0x00, 0x00,
];

// The same log in version 1.
const SEVEN_LOG_ONE: [u8; 64] = [
    0x44, 0x50, 0x47, 0x4c, 0x01, 0x00, 0x01, 0x00, 0xe8, 0x03, 0x00, 0x00, 0xa0, 0x86, 0x01, 0x00,
    0x00, 0x10, 0x00, 0x00, 0x3e, 0x21, 0x5e, 0xaa, 0xc5, 0x7e, 0x12, 0x59, 0xf5, 0x83, 0xad, 0x0a,
    0x3d, 0x62, 0x72, 0xda, 0x6e, 0x75, 0xfb, 0xda, 0x72, 0xe3, 0x70, 0x32, 0x7d, 0xf3, 0x11, 0x09,
    0x82, 0x4a, 0x6e, 0x5b, 0x01, 0x01, 0x00, 0x00, 0x00, 0x00, 0x00, 0x00, 0x01, 0x00, 0x00, 0x00,
];

// That is the log.
fn check_log(rt: &impl Abort, files: &mut MemoryFiles) {
    let log = log_of(rt, files);
    same(rt, log.as_slice(), SEVEN_LOG.as_slice());
    drop(log);
}

#[test]
fn a_run_writes_its_log(rt: HostRuntime) {
    let alloc = rt.alloc();
    let words = ["run", "a"];
    let mut files = files_with(&rt, alloc, &SEVEN, b"", 0);
    let left = call(&rt, alloc, &mut files, &words);
    let wanted = (0, "", "process 1 status 7\nrounds 1 done\n");
    check_left(&rt, &left, &words, wanted);
    check_log(&rt, &mut files);
    check_replay(&rt, alloc, &mut files, &words, left);
    drop(files);
}

// A change of the log of a run: of one byte of it and a zero behind it, of which so many bytes are
// left; and the line of its replay.
struct Change {
    place: usize,
    value: u8,
    length: usize,
    line: &'static str,
}

const CHANGES: [Change; 11] = [
    Change {
        place: 53,
        value: 2,
        length: 67,
        line: "dos: log entry 0 is signals round 2, asked signals round 1\n",
    },
    Change {
        place: 57,
        value: 2,
        length: 67,
        line: "dos: log entry 1 is signals round 2, asked end done rounds 1\n",
    },
    Change {
        place: 52,
        value: 9,
        length: 67,
        line: "dos: log refused: entry at 52\n",
    },
    Change {
        place: 57,
        value: 0,
        length: 67,
        line: "dos: log refused: entry at 57\n",
    },
    Change {
        place: 0,
        value: 9,
        length: 67,
        line: "dos: log refused: magic\n",
    },
    Change {
        place: 4,
        value: 3,
        length: 67,
        line: "dos: log refused: version 3\n",
    },
    Change {
        place: 4,
        value: 1,
        length: 67,
        line: "dos: log refused: entry at 52\n",
    },
    Change {
        place: 6,
        value: 9,
        length: 67,
        line: "dos: log refused: header at 6\n",
    },
    Change {
        place: 62,
        value: 1,
        length: 67,
        line: "dos: log entry 1 is end limit rounds 1, asked end done rounds 1\n",
    },
    Change {
        place: 0,
        value: 0x44,
        length: 58,
        line: "dos: log refused: short at 57\n",
    },
    Change {
        place: 67,
        value: 0,
        length: 68,
        line: "dos: log refused: after end at 67\n",
    },
];

// The log with the change.
fn add_changed(rt: &impl Abort, files: &mut MemoryFiles, change: &Change) {
    let mut log = [0; 68];
    log[..67].copy_from_slice(&SEVEN_LOG);
    if let Some(byte) = log.get_mut(change.place) {
        *byte = change.value;
    }
    files
        .add(LOG, log.get(..change.length).unwrap_or(&[]))
        .expect(rt, "memory");
}

fn check_change<R: Threads + Sync + Abort>(
    rt: &R,
    alloc: Global,
    files: &mut MemoryFiles,
    change: &Change,
) {
    add_changed(rt, files, change);
    let words = ["replay", "--log", LOG, "seven"];
    let _ = leaves(rt, alloc, files, &words, (4, "", change.line));
}

#[test]
fn other_logs_are_refused(rt: HostRuntime) {
    let alloc = rt.alloc();
    let mut files = usual_files(&rt, alloc);
    for change in &CHANGES {
        check_change(&rt, alloc, &mut files, change);
    }
    drop(files);
}

const IMAGES: [Case; 4] = [
    Case {
        words: &["replay", "--log", LOG, "zero"],
        status: 4,
        err: "\
            dos: image 1 has digest \
            1f781d9d639fb03ae3a3faf3687483964a05de01ec4ff7b5437fff003f59ddfa, \
            log has 3e215eaac57e1259f583ad0a3d6272da6e75fbda72e370327df31109824a6e5b\n",
        ..SILENT
    },
    Case {
        words: &["replay", "--log", LOG, "seven", "seven"],
        status: 4,
        err: "dos: log has 1 images, given 2\n",
        ..SILENT
    },
    // the images are read first
    Case {
        words: &["replay", "--log", LOG, "seven", "none"],
        status: 5,
        err: "dos: file fault\n",
        ..SILENT
    },
    Case {
        words: &["replay", "--log", "none", "seven"],
        status: 5,
        err: "dos: file fault\n",
        ..SILENT
    },
];

#[test]
fn a_log_is_of_its_images(rt: HostRuntime) {
    let alloc = rt.alloc();
    let mut files = usual_files(&rt, alloc);
    add_guest(&rt, alloc, &mut files, "zero", &ENDS_WITH_0, b"", 0);
    files.add(LOG, &SEVEN_LOG).expect(&rt, "memory");
    check_cases(&rt, alloc, &mut files, &IMAGES);
    drop(files);
}

// Of version 1, a log is read and replayed as before.
#[test]
fn a_log_of_version_1_is_replayed(rt: HostRuntime) {
    let alloc = rt.alloc();
    let mut files = usual_files(&rt, alloc);
    files.add(LOG, &SEVEN_LOG_ONE).expect(&rt, "memory");
    let words = ["replay", "--log", LOG, "seven"];
    let wanted = (0, "", "process 1 status 7\nrounds 1 done\n");
    let _ = leaves(&rt, alloc, &mut files, &words, wanted);
    drop(files);
}

// Two rounds without a signal, one behind the other, as two entries.
#[test]
fn a_stretch_in_two_entries_is_refused(rt: HostRuntime) {
    let alloc = rt.alloc();
    let mut files = usual_files(&rt, alloc);
    let mut log = [0; 76];
    log[..61].copy_from_slice(&SEVEN_LOG[..61]);
    log[61..70].copy_from_slice(&[4, 2, 0, 0, 0, 1, 0, 0, 0]);
    log[70..].copy_from_slice(&[0, 2, 1, 0, 0, 0]);
    files.add(LOG, &log).expect(&rt, "memory");
    let words = ["replay", "--log", LOG, "seven"];
    let wanted = (4, "", "dos: log refused: entry at 62\n");
    let _ = leaves(&rt, alloc, &mut files, &words, wanted);
    drop(files);
}

#[test]
fn the_longest_log_has_64_mebibytes(rt: HostRuntime) {
    let alloc = rt.alloc();
    let mut files = files_with(&rt, alloc, &SEVEN, b"", 0);
    add_zeros(&rt, alloc, &mut files, LOG, 67108865);
    let words = ["replay", "--log", LOG, "a"];
    let wanted = (4, "", "dos: log too long\n");
    let _ = leaves(&rt, alloc, &mut files, &words, wanted);
    drop(files);
}

const REPORT_FAILING: Outside<'static> = Outside {
    err_failing: &[1],
    ..NOTHING
};

// The log stands where a line of the report fails, and not where it can't be written.
#[test]
fn the_log_is_written_before_the_report(rt: HostRuntime) {
    let alloc = rt.alloc();
    let words = ["run", "a"];
    let mut files = files_with(&rt, alloc, &SEVEN, b"", 0);
    let _ = leaves_over(&rt, alloc, &mut files, &words, &REPORT_FAILING, (6, "", ""));
    check_log(&rt, &mut files);
    drop(files);
}

#[test]
fn a_log_that_cant_be_written_gives_five(rt: HostRuntime) {
    let alloc = rt.alloc();
    let mut files = MemoryFiles::new(alloc, &[2]).expect(&rt, "memory");
    add_guest(&rt, alloc, &mut files, "a", &SEVEN, b"", 0);
    let wanted = (5, "", "dos: file fault\n");
    let _ = leaves(&rt, alloc, &mut files, &["run", "a"], wanted);
    drop(files);
}
