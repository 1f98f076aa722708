//! Files that the assembler doesn't make.
use crate::guests::{PRINTS, SEVEN, add_guest, file};
use dos_io::MemoryFiles;
use std::alloc::Global;
use std::process::Abort;

// The number of four bytes at a place of a file, if it is in it.
fn set_word(file: &mut [u8], place: usize, value: u32) {
    if file.len() >= 4 && place <= file.len() - 4 {
        file[place..place + 4].copy_from_slice(&value.to_le_bytes());
    }
}

/// Adds a file as `seven`, but for these numbers at places of it.
fn add_changed(
    rt: &impl Abort,
    alloc: Global,
    files: &mut MemoryFiles,
    name: &str,
    words: &[(usize, u32)],
) {
    let mut bytes = file(rt, alloc, &SEVEN);
    for &(place, value) in words {
        set_word(&mut bytes, place, value);
    }
    files.add(name, &bytes).expect(rt, "memory");
    drop(bytes);
}

/// 12 bytes of code, whose segment claims one byte more, past the file's end.
const CUT: [(usize, u32); 2] = [(68, 13), (72, 13)];

/// No program header.
const NO_HEADERS: [(usize, u32); 1] = [(44, 0)];

/// The program headers that a linker makes: a note, code, data and the stack's rights.
const LINKED: [[u32; 8]; 4] = [
    [4, 0, 0, 0, 0, 0, 4, 4],
    [1, 0, 0x1_0000, 0x1_0000, 192, 192, 5, 0x1000],
    [1, 192, 0x1_10c0, 0x1_10c0, 4, 64, 6, 0x1000],
    [0x6474_e551, 0, 0, 0, 0, 0, 6, 16],
];

fn add_bytes(rt: &impl Abort, file: &mut Vec<u8>, bytes: &[u8]) {
    file.extend_from_slice(bytes).expect(rt, "memory");
}

fn add_headers(rt: &impl Abort, file: &mut Vec<u8>, headers: &[[u32; 8]]) {
    for header in headers {
        for number in header {
            add_bytes(rt, file, &number.to_le_bytes());
        }
    }
}

/// Adds a file as a linker makes it. Its code lies behind the headers, in the part that they are
/// in, and ends with 7.
fn add_linked(rt: &impl Abort, alloc: Global, files: &mut MemoryFiles) {
    let made = file(rt, alloc, &SEVEN);
    let mut bytes = Vec::new(alloc);
    add_bytes(rt, &mut bytes, made.get(..52).expect(rt, "a header"));
    set_word(&mut bytes, 24, 0x1_00b4);
    set_word(&mut bytes, 44, 4);
    add_headers(rt, &mut bytes, &LINKED);
    add_bytes(rt, &mut bytes, made.get(84..).expect(rt, "code"));
    add_bytes(rt, &mut bytes, &[1, 2, 3, 4]);
    files.add("linked", &bytes).expect(rt, "memory");
    drop(bytes);
    drop(made);
}

/// Adds the first 51 bytes of `seven`.
fn add_short(rt: &impl Abort, alloc: Global, files: &mut MemoryFiles) {
    let whole = file(rt, alloc, &SEVEN);
    let short = whole.get(..51).expect(rt, "51 bytes");
    files.add("short", short).expect(rt, "memory");
    drop(whole);
}

/// Files of the names `seven`, which ends with 7, `hi`, which prints `Hi`, `linked`, and `short`,
/// `empty` and `cut`, which are refused.
pub fn usual_files(rt: &impl Abort, alloc: Global) -> MemoryFiles {
    let mut files = MemoryFiles::new(alloc, &[]).expect(rt, "memory");
    add_guest(rt, alloc, &mut files, "seven", &SEVEN, b"", 0);
    add_guest(rt, alloc, &mut files, "hi", &PRINTS, b"Hi\n", 0);
    add_linked(rt, alloc, &mut files);
    add_short(rt, alloc, &mut files);
    add_changed(rt, alloc, &mut files, "empty", &NO_HEADERS);
    add_changed(rt, alloc, &mut files, "cut", &CUT);
    files
}

/// Adds a file of so many zeros.
pub fn add_zeros(
    rt: &impl Abort,
    alloc: Global,
    files: &mut MemoryFiles,
    name: &str,
    length: usize,
) {
    let zeros = vec![in alloc; 0u8; length].expect(rt, "memory");
    files.add(name, &zeros).expect(rt, "memory");
    drop(zeros);
}
