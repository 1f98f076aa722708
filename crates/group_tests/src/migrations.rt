//! What `migrate` writes, byte for byte, and what it prints.
use crate::calls::{Case, LOG, NOTHING, Outside, SILENT, check_cases, leaves, leaves_over};
use crate::checks::same;
use crate::guests::{WAITS, add_guest};
use dos_io::{Files, MemoryFiles};
use std::alloc::Global;
use std::process::Abort;

// The log in version 1 of a guest that waits for ever in its first round.
const WAITS_LOG_ONE: [u8; 70] = [
    0x44, 0x50, 0x47, 0x4c, 0x01, 0x00, 0x01, 0x00, 0xe8, 0x03, 0x00, 0x00, 0xa0, 0x86, 0x01, 0x00,
    0x00, 0x10, 0x00, 0x00, 0x4f, 0x93, 0xc2, 0xd4, 0xee, 0xe2, 0x7f, 0xb3, 0xde, 0xb9, 0x2e, 0x0c,
    0xe5, 0xb9, 0x01, 0x84, 0x57, 0x49, 0xce, 0x37, 0x20, 0xbb, 0x2d, 0xe3, 0x02, 0x26, 0x47, 0xc1,
    0xf3, 0x2e, 0x19, 0x6a, 0x01, 0x01, 0x00, 0x00, 0x00, 0x00, 0x01, 0x02, 0x00, 0x00, 0x00, 0x00,
    0x00, 0x02, 0x01, 0x00, 0x00, 0x00,
];

// The same log in version 2.
const WAITS_LOG: [u8; 67] = [
    0x44, 0x50, 0x47, 0x4c, 0x02, 0x00, 0x01, 0x00, 0xe8, 0x03, 0x00, 0x00, 0xa0, 0x86, 0x01, 0x00,
    0x00, 0x10, 0x00, 0x00, 0x4f, 0x93, 0xc2, 0xd4, 0xee, 0xe2, 0x7f, 0xb3, 0xde, 0xb9, 0x2e, 0x0c,
    0xe5, 0xb9, 0x01, 0x84, 0x57, 0x49, 0xce, 0x37, 0x20, 0xbb, 0x2d, 0xe3, 0x02, 0x26, 0x47, 0xc1,
    0xf3, 0x2e, 0x19, 0x6a, 0x04, 0x01, 0x00, 0x00, 0x00, 0x02, 0x00, 0x00, 0x00, 0x00, 0x02, 0x01,
    0x00, 0x00, 0x00,
];

const BOTH: &str = "version 1 bytes 70\nversion 2 bytes 67\n";

const MIGRATE: [&str; 5] = ["migrate", "--log", LOG, "--to", "new"];

// The guest, and its log in version 1; the calls of these numbers fail.
fn old_files(rt: &impl Abort, alloc: Global, failing: &[u32]) -> MemoryFiles {
    let mut files = MemoryFiles::new(alloc, failing).expect(rt, "memory");
    add_guest(rt, alloc, &mut files, "waits", &WAITS, b"", 0);
    files.add(LOG, &WAITS_LOG_ONE).expect(rt, "memory");
    files
}

// The file holds these bytes.
fn check_file(rt: &impl Abort, files: &mut MemoryFiles, name: &str, wanted: &[u8]) {
    let file = files.get(name, 1 << 27).expect(rt, "a file");
    same(rt, file.as_slice(), wanted);
    drop(file);
}

const REPLAYS: [Case; 2] = [
    Case {
        words: &["replay", "--log", LOG, "waits"],
        status: 8,
        err: "process 1 live\nrounds 1 stalled\n",
        ..SILENT
    },
    Case {
        words: &["replay", "--log", "new", "waits"],
        status: 8,
        err: "process 1 live\nrounds 1 stalled\n",
        ..SILENT
    },
];

#[test]
fn a_log_of_version_1_is_written_anew(rt: HostRuntime) {
    let alloc = rt.alloc();
    let mut files = old_files(&rt, alloc, &[]);
    let _ = leaves(&rt, alloc, &mut files, &MIGRATE, (0, BOTH, ""));
    check_file(&rt, &mut files, "new", &WAITS_LOG);
    check_file(&rt, &mut files, LOG, &WAITS_LOG_ONE);
    check_cases(&rt, alloc, &mut files, &REPLAYS);
    drop(files);
}

// The new text may take the old one's place, and a log of version 2 is copied.
#[test]
fn a_log_is_written_over_itself(rt: HostRuntime) {
    let alloc = rt.alloc();
    let mut files = old_files(&rt, alloc, &[]);
    let words = ["migrate", "--to", LOG, "--log", LOG];
    let _ = leaves(&rt, alloc, &mut files, &words, (0, BOTH, ""));
    check_file(&rt, &mut files, LOG, &WAITS_LOG);
    let again = (0, "version 2 bytes 67\nversion 2 bytes 67\n", "");
    let _ = leaves(&rt, alloc, &mut files, &words, again);
    check_file(&rt, &mut files, LOG, &WAITS_LOG);
    drop(files);
}

const REFUSED: [Case; 5] = [
    Case {
        words: &["migrate", "--log", LOG],
        status: 2,
        err: "dos: words refused\n",
        ..SILENT
    },
    Case {
        words: &["migrate", "--to", LOG],
        status: 2,
        err: "dos: words refused\n",
        ..SILENT
    },
    Case {
        words: &["migrate", "--log", LOG, "--to", "new", "waits"],
        status: 2,
        err: "dos: words refused\n",
        ..SILENT
    },
    Case {
        words: &["migrate", "--log", "waits", "--to", "new"],
        status: 4,
        err: "dos: log refused: magic\n",
        ..SILENT
    },
    Case {
        words: &["migrate", "--log", "none", "--to", "new"],
        status: 5,
        err: "dos: file fault\n",
        ..SILENT
    },
];

// What isn't taken writes no file.
#[test]
fn other_migrations_write_nothing(rt: HostRuntime) {
    let alloc = rt.alloc();
    let mut files = old_files(&rt, alloc, &[]);
    check_cases(&rt, alloc, &mut files, &REFUSED);
    same(&rt, files.get("new", 1 << 27).is_ok(), false);
    check_file(&rt, &mut files, LOG, &WAITS_LOG_ONE);
    drop(files);
}

const FIRST_FAILING: Outside<'static> = Outside {
    out_failing: &[1],
    ..NOTHING
};

const SECOND_FAILING: Outside<'static> = Outside {
    out_failing: &[2],
    ..NOTHING
};

// The text stands where a line fails, and no line where the text can't be written.
#[test]
fn the_text_is_written_before_the_lines(rt: HostRuntime) {
    let alloc = rt.alloc();
    let mut files = old_files(&rt, alloc, &[]);
    let wanted = (6, "", "");
    let _ = leaves_over(&rt, alloc, &mut files, &MIGRATE, &FIRST_FAILING, wanted);
    check_file(&rt, &mut files, "new", &WAITS_LOG);
    let wanted = (6, "version 1 bytes 70\n", "");
    let _ = leaves_over(&rt, alloc, &mut files, &MIGRATE, &SECOND_FAILING, wanted);
    drop(files);
    let mut files = old_files(&rt, alloc, &[2]);
    let wanted = (5, "", "dos: file fault\n");
    let _ = leaves(&rt, alloc, &mut files, &MIGRATE, wanted);
    drop(files);
}

fn add_bytes(rt: &impl Abort, text: &mut Vec<u8>, bytes: &[u8]) {
    text.extend_from_slice(bytes).expect(rt, "memory");
}

// Takes turns of a round without a signal and a reading of the clock: 23 bytes a turn in version 1,
// and 26 in version 2.
fn add_turns(rt: &impl Abort, text: &mut Vec<u8>, turns: u32) {
    for round in 0..turns {
        add_bytes(rt, text, &[1]);
        add_bytes(rt, text, &round.to_le_bytes());
        add_bytes(rt, text, &[0, 3]);
        add_bytes(rt, text, &round.to_le_bytes());
        add_bytes(rt, text, &[1, 0, 0, 0, 7, 0, 0, 0, 0, 0, 0, 0]);
    }
}

// A log of version 1 with 2581107 such turns and an input of so many bytes, fewer than 256.
fn add_long(rt: &impl Abort, alloc: Global, files: &mut MemoryFiles, input: u8) {
    let mut text = Vec::new(alloc);
    add_bytes(rt, &mut text, &WAITS_LOG_ONE[..52]);
    add_turns(rt, &mut text, 2581107);
    add_bytes(rt, &mut text, &[2, 0, 0, 0, 0, 1, 0, 0, 0, 0, 1, input, 0]);
    for _ in 0..input {
        add_bytes(rt, &mut text, &[9]);
    }
    add_bytes(rt, &mut text, &[0, 2, 1, 0, 0, 0]);
    files.add(LOG, &text).expect(rt, "memory");
    drop(text);
}

// 58 bytes, 26 for each turn, and 13 and its bytes for the input: 67108864 with 11 of them.
#[test]
fn the_longest_text_has_64_mebibytes(rt: HostRuntime) {
    let alloc = rt.alloc();
    let mut files = old_files(&rt, alloc, &[]);
    add_long(&rt, alloc, &mut files, 11);
    let wanted = (
        0,
        "version 1 bytes 59365543\nversion 2 bytes 67108864\n",
        "",
    );
    let _ = leaves(&rt, alloc, &mut files, &MIGRATE, wanted);
    drop(files);
}

#[test]
fn a_longer_text_isnt_written(rt: HostRuntime) {
    let alloc = rt.alloc();
    let mut files = old_files(&rt, alloc, &[]);
    add_long(&rt, alloc, &mut files, 12);
    let wanted = (10, "", "dos: log full\n");
    let _ = leaves(&rt, alloc, &mut files, &MIGRATE, wanted);
    same(&rt, files.get("new", 1 << 27).is_ok(), false);
    drop(files);
}
