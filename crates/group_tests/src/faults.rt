//! Faults of files, host and outputs, each at its call, and logs that are no longer whole: what the
//! call leaves then, and the log's file.
use crate::calls::{LOG, NOTHING, Outside, Wanted, leaves, leaves_over};
use crate::checks::same_at;
use crate::machine_words::add_words;
use dos_io::{Files, MemoryFiles};
use std::alloc::Global;
use std::process::Abort;
use std::thread::Threads;

// Guests, by their words.

// Ends with 7.
const SEVEN: [u32; 3] = [0x0020_0893, 0x0070_0513, 0x0000_0073];

// Writes the three bytes behind its code to output, and ends with 0.
const PRINTS: [u32; 10] = [
    0x0080_0893,
    0x0010_0513,
    0x0000_0597,
    0x01c5_8593,
    0x0030_0613,
    0x0000_0073,
    0x0020_0893,
    0x0000_0513,
    0x0000_0073,
    0x000a_6948,
];

// Copies its input to output, 64 bytes at a time.
const ECHOES: [u32; 13] = [
    0x0070_0893,
    0x0000_0513,
    0xfc01_0593,
    0x0400_0613,
    0x0000_0073,
    0x0005_0c63,
    0x0005_0613,
    0x0080_0893,
    0x0010_0513,
    0x0000_0073,
    0xfd9f_f06f,
    0x0020_0893,
    0x0000_0073,
];

// Reads 4096 bytes again and again.
const READS: [u32; 6] = [
    0x0070_0893,
    0xefff_05b7,
    0x0000_1637,
    0x0000_0513,
    0x0000_0073,
    0xff9f_f06f,
];

// The log of a run of `SEVEN`. Its digest is that of another program.
const SEVEN_LOG: [u8; 67] = [
    0x44, 0x50, 0x47, 0x4c, 0x02, 0x00, 0x01, 0x00, 0xe8, 0x03, 0x00, 0x00, 0xa0, 0x86, 0x01, 0x00,
    0x00, 0x10, 0x00, 0x00, 0x3e, 0x21, 0x5e, 0xaa, 0xc5, 0x7e, 0x12, 0x59, 0xf5, 0x83, 0xad, 0x0a,
    0x3d, 0x62, 0x72, 0xda, 0x6e, 0x75, 0xfb, 0xda, 0x72, 0xe3, 0x70, 0x32, 0x7d, 0xf3, 0x11, 0x09,
    0x82, 0x4a, 0x6e, 0x5b, 0x04, 0x01, 0x00, 0x00, 0x00, 0x01, 0x00, 0x00, 0x00, 0x00, 0x00, 0x01,
    0x00, 0x00, 0x00,
];

// The log of a run of `ECHOES` over the input `0123456789`: a stretch of one round, two inputs, the
// end. Its digest is that of another program.
const ECHOES_LOG: [u8; 103] = [
    0x44, 0x50, 0x47, 0x4c, 0x02, 0x00, 0x01, 0x00, 0xe8, 0x03, 0x00, 0x00, 0xa0, 0x86, 0x01, 0x00,
    0x00, 0x10, 0x00, 0x00, 0xfe, 0xe2, 0xf0, 0x92, 0x5b, 0xed, 0x3a, 0xe0, 0x64, 0xae, 0x6b, 0x6b,
    0x96, 0x26, 0x7f, 0x4e, 0xc5, 0x25, 0x18, 0x45, 0x9c, 0xf1, 0xa9, 0x36, 0x68, 0x46, 0x54, 0xb1,
    0xcd, 0x12, 0xeb, 0x91, 0x04, 0x01, 0x00, 0x00, 0x00, 0x01, 0x00, 0x00, 0x00, 0x02, 0x01, 0x00,
    0x00, 0x00, 0x01, 0x00, 0x00, 0x00, 0x40, 0x00, 0x0a, 0x00, 0x30, 0x31, 0x32, 0x33, 0x34, 0x35,
    0x36, 0x37, 0x38, 0x39, 0x02, 0x01, 0x00, 0x00, 0x00, 0x01, 0x00, 0x00, 0x00, 0x40, 0x00, 0x00,
    0x00, 0x00, 0x00, 0x01, 0x00, 0x00, 0x00,
];

// The words of a call and of its guest, and a log that lies there before; what comes from outside,
// with so many zeros behind the input, and the calls of files that fail; what the call leaves, and
// the log that lies there then.
#[derive(Clone, Copy)]
struct Fault {
    words: &'static [&'static str],
    code: &'static [u32],
    before: Option<&'static [u8]>,
    outside: Outside<'static>,
    zeros: usize,
    files_failing: &'static [u32],
    wanted: Wanted<'static>,
    after: Option<&'static [u8]>,
}

const TEN: Outside<'static> = Outside {
    input: b"0123456789",
    piece: 64,
    ..NOTHING
};

// The run of a guest over ten bytes, in which nothing fails and no log is written.
const RUN: Fault = Fault {
    words: &["run", "a"],
    code: &ECHOES,
    before: None,
    outside: TEN,
    zeros: 0,
    files_failing: &[],
    wanted: (0, "", ""),
    after: None,
};

const FAULTS: [Fault; 10] = [
    // the image can't be read
    Fault {
        files_failing: &[1],
        wanted: (5, "", "dos: file fault\n"),
        ..RUN
    },
    // the log can't be written
    Fault {
        files_failing: &[2],
        wanted: (5, "0123456789", "dos: file fault\n"),
        ..RUN
    },
    Fault {
        outside: Outside {
            host_failing: &[1],
            ..TEN
        },
        wanted: (5, "", "dos: host fault\n"),
        ..RUN
    },
    Fault {
        outside: Outside {
            host_failing: &[2],
            ..TEN
        },
        wanted: (5, "0123456789", "dos: host fault\n"),
        ..RUN
    },
    Fault {
        code: &PRINTS,
        outside: Outside {
            out_failing: &[1],
            ..NOTHING
        },
        wanted: (6, "", ""),
        ..RUN
    },
    // in the report, before which the log is written
    Fault {
        code: &SEVEN,
        outside: Outside {
            err_failing: &[1],
            ..NOTHING
        },
        wanted: (6, "", ""),
        after: Some(&SEVEN_LOG),
        ..RUN
    },
    Fault {
        code: &SEVEN,
        outside: Outside {
            err_failing: &[2],
            ..NOTHING
        },
        wanted: (6, "", "process 1 status 7\n"),
        after: Some(&SEVEN_LOG),
        ..RUN
    },
    // in the line of a refusal
    Fault {
        words: &[],
        outside: Outside {
            err_failing: &[1],
            ..NOTHING
        },
        wanted: (6, "", ""),
        ..RUN
    },
    // the log is read, and the image can't be
    Fault {
        words: &["replay", "--log", LOG, "a"],
        before: Some(&ECHOES_LOG),
        files_failing: &[2],
        wanted: (5, "", "dos: file fault\n"),
        after: Some(&ECHOES_LOG),
        ..RUN
    },
    // more comes than a log has room for
    Fault {
        code: &READS,
        outside: Outside {
            piece: 4096,
            ..NOTHING
        },
        zeros: 67108864,
        wanted: (10, "", "dos: log full\n"),
        ..RUN
    },
];

// Files of which these calls fail: the guest, and the log, if there is one.
fn files_of(rt: &impl Abort, alloc: Global, fault: &Fault) -> MemoryFiles {
    let mut files = MemoryFiles::new(alloc, fault.files_failing).expect(rt, "memory");
    add_words(rt, alloc, &mut files, fault.code, b"");
    if let Some(log) = fault.before {
        files.add(LOG, log).expect(rt, "memory");
    }
    files
}

// The input, and the zeros behind it.
fn input_of(rt: &impl Abort, alloc: Global, fault: &Fault) -> Vec<u8> {
    let mut input = vec![in alloc; 0u8; fault.zeros].expect(rt, "memory");
    input
        .extend_from_slice(fault.outside.input)
        .expect(rt, "memory");
    input
}

// This is the log, if there is to be one.
fn check_log(rt: &impl Abort, files: &mut MemoryFiles, words: &[&str], wanted: Option<&[u8]>) {
    let log = files.get(LOG, 1 << 27).ok();
    same_at(rt, log.as_deref(), wanted, words);
    drop(log);
}

fn check_fault<R: Threads + Sync + Abort>(rt: &R, alloc: Global, fault: &Fault) {
    let mut files = files_of(rt, alloc, fault);
    let input = input_of(rt, alloc, fault);
    let outside = Outside {
        input: &input,
        ..fault.outside
    };
    let _ = leaves_over(rt, alloc, &mut files, fault.words, &outside, fault.wanted);
    check_log(rt, &mut files, fault.words, fault.after);
    drop(input);
    drop(files);
}

#[test]
fn a_fault_leaves_what_stood_before_it(rt: HostRuntime) {
    for fault in &FAULTS {
        check_fault(&rt, rt.alloc(), fault);
    }
}

// Where the fields of `ECHOES_LOG` begin, but for bytes of which there are none.
const FIELDS: [usize; 23] = [
    0, 4, 6, 8, 12, 16, 20, 52, 53, 57, 61, 62, 66, 70, 72, 74, 84, 85, 89, 93, 95, 97, 98,
];

// The last field of `ECHOES_LOG`.
const LAST_FIELD: usize = 99;

// Where the field begins in which a text of this length ends.
fn field_at(length: usize) -> usize {
    let mut place = 0;
    for field in FIELDS {
        if field <= length {
            place = field;
        }
    }
    if LAST_FIELD <= length {
        place = LAST_FIELD;
    }
    place
}

const REPLAY: [&str; 4] = ["replay", "--log", LOG, "a"];

// With this log the call leaves the line, and no output.
fn check_refused<R: Threads + Sync + Abort>(
    rt: &R,
    alloc: Global,
    files: &mut MemoryFiles,
    log: &[u8],
    line: &str,
) {
    files.add(LOG, log).expect(rt, "memory");
    let _ = leaves(rt, alloc, files, &REPLAY, (4, "", line));
}

// The log that ends with this length is short at the field that is cut.
fn check_short<R: Threads + Sync + Abort>(
    rt: &R,
    alloc: Global,
    files: &mut MemoryFiles,
    length: usize,
) {
    let place = field_at(length);
    let line = format!(in alloc; "dos: log refused: short at {place}\n").expect(rt, "memory");
    let log = ECHOES_LOG.get(..length).unwrap_or(&[]);
    check_refused(rt, alloc, files, log, &line);
    drop(line);
}

fn check_cuts<R: Threads + Sync + Abort>(rt: &R, alloc: Global, files: &mut MemoryFiles) {
    for length in 0..ECHOES_LOG.len() {
        check_short(rt, alloc, files, length);
    }
}

const OTHER_THREAD: &str = "dos: log entry 1 is input round 1 thread 2 max 64, asked input round 1 \
    thread 1 max 64\n";

// The first input is another thread's.
fn check_other_thread<R: Threads + Sync + Abort>(rt: &R, alloc: Global, files: &mut MemoryFiles) {
    let mut log = ECHOES_LOG;
    log[66] = 2;
    check_refused(rt, alloc, files, &log, OTHER_THREAD);
}

#[test]
fn a_log_that_is_cut_or_changed_is_refused(rt: HostRuntime) {
    let alloc = rt.alloc();
    let mut files = files_of(&rt, alloc, &RUN);
    check_cuts(&rt, alloc, &mut files);
    check_other_thread(&rt, alloc, &mut files);
    check_refused(
        &rt,
        alloc,
        &mut files,
        &[],
        "dos: log refused: short at 0\n",
    );
    drop(files);
}
