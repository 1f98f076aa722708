//! The files that were run, as a client reads them.
use crate::checks::same_text;
use debug_answers::{put_exec_file, put_file_opened, put_file_piece, put_file_status};
use gdb_packets::packets::Stretch;
use std::alloc::{AllocError, Global};
use std::process::Abort;

fn two(alloc: Global, first: &str, second: &str) -> Result<Vec<Vec<u8>>, AllocError> {
    let mut both = Vec::new(alloc);
    both.push(Vec::from_slice(alloc, first.as_bytes())?)?;
    both.push(Vec::from_slice(alloc, second.as_bytes())?)?;
    Ok(both)
}

const ALL: Stretch = Stretch {
    from: 0,
    length: 0x100,
};

fn check_name(rt: &impl Abort, alloc: Global, is_known: bool, process: u32, wanted: &str) {
    let names = two(alloc, "bin/a", "/b").expect(rt, "memory");
    let mut out = Vec::new(alloc);
    put_exec_file(alloc, &mut out, &names, &[1, 2, 2], is_known, process, ALL).expect(rt, "memory");
    same_text(rt, out.as_slice(), wanted);
}

const NAMES: [(bool, u32, &str); 6] = [
    (true, 1, "l/bin/a"),
    (true, 2, "l/b"),
    (true, 3, "l/b"),
    (true, 4, "E01"),
    (true, 0, "E01"),
    (false, 1, "E01"),
];

#[test]
fn the_image_of_a_process_is_named(rt: HostRuntime) {
    for (is_known, process, wanted) in NAMES {
        check_name(&rt, rt.alloc(), is_known, process, wanted);
    }
}

fn check_opened(rt: &impl Abort, alloc: Global, text: &str, wanted: &str) {
    let names = two(alloc, "bin/a", "/b").expect(rt, "memory");
    let mut out = Vec::new(alloc);
    if names.len() == 2 {
        if text.len() <= 100 {
            put_file_opened(&mut out, &names, text.as_bytes()).expect(rt, "memory");
        }
    }
    same_text(rt, out.as_slice(), wanted);
}

const OPENED: [(&str, &str); 5] = [
    ("vFile:open:2f62696e2f61,0,0", "F0"),
    ("vFile:open:2f62,0,0", "F1"),
    ("vFile:open:62,0,0", "F-1,2"),
    ("vFile:open:2F6,0,0", "F-1,2"),
    ("vFile:open:2f62", "F-1,2"),
];

#[test]
fn a_file_is_opened_by_its_name(rt: HostRuntime) {
    for (text, wanted) in OPENED {
        check_opened(&rt, rt.alloc(), text, wanted);
    }
}

// a file of 35 bytes, whose count is a byte that must be escaped
const BYTES: &str = "0123456789}#abcdefghijklmnopqrstuvw";

const STATUS: [u8; 69] = [
    b'F', b'4', b'0', b';', // 64 bytes follow
    0, 0, 0, 0, 0, 0, 0, 0, 0, 0, 0x81, 0xa4, 0, 0, 0, 0, 0, 0, 0, 0, // the mode at 8
    0, 0, 0, 0, 0, 0, 0, 0, // and what stands up to the length
    0, 0, 0, 0, 0, 0, 0, b'}', 3, // 35, escaped
    0, 0, 0, 0, 0, 0, 0, 0, 0, 0, 0, 0, 0, 0, 0, 0, 0, 0, 0, 0, 0, 0, 0, 0, 0, 0, 0, 0,
];

fn check_status(rt: &impl Abort, alloc: Global, file: u32, wanted: &[u8]) {
    let files = two(alloc, "", BYTES).expect(rt, "memory");
    let mut out = Vec::new(alloc);
    put_file_status(&mut out, &files, file).expect(rt, "memory");
    assert!(rt; out.as_slice() == wanted, "{file}");
}

#[test]
fn a_file_has_its_status(rt: HostRuntime) {
    check_status(&rt, rt.alloc(), 1, &STATUS);
    check_status(&rt, rt.alloc(), 2, "F-1,9".as_bytes());
}

fn check_piece(rt: &impl Abort, alloc: Global, file: u32, part: (u32, u32), wanted: &str) {
    let files = two(alloc, "", BYTES).expect(rt, "memory");
    let mut out = Vec::new(alloc);
    let part = Stretch {
        from: part.0,
        length: part.1,
    };
    put_file_piece(&mut out, &files, file, part).expect(rt, "memory");
    same_text(rt, out.as_slice(), wanted);
}

const PIECES: [(u32, (u32, u32), &str); 6] = [
    (1, (0, 3), "F3;012"),
    (1, (9, 4), "F4;9}]}\x03a"),
    (1, (23, 0x1000), "Fc;lmnopqrstuvw"),
    (1, (35, 8), "F0;"),
    (0, (0, 8), "F0;"),
    (2, (0, 8), "F-1,9"),
];

#[test]
fn pieces_of_a_file_are_told(rt: HostRuntime) {
    for (file, part, wanted) in PIECES {
        check_piece(&rt, rt.alloc(), file, part, wanted);
    }
}
