//! What all tests do with pages of code. An assert is a way out, so it stands here.
use code_pages::{CodePages, Kind, Line, line_from};
use std::alloc::{AllocError, Global};
use std::fmt::Debug;
use std::process::Abort;

/// A line as it is wanted: offset, run, kind, whether it is turned, and size.
pub(crate) type Row = (u16, u16, Kind, bool, u8);

pub(crate) fn same_at<T: Copy + PartialEq + Debug, C: Copy + Debug>(
    rt: &impl Abort,
    seen: T,
    wanted: T,
    case: C,
) {
    assert_eq!(rt; seen, wanted, "{case:?}");
}

// Of what the helpers do to the pages nothing is said: the tests look.

pub(crate) fn no_pages(alloc: Global) -> Result<CodePages, AllocError> {
    CodePages::reserve(alloc)
}

/// Puts a code into a page, of two bytes or of four. What would lie behind the page is left out.
pub(crate) fn put(page: &mut [u8; 4096], offset: usize, code: u32) {
    let bytes = code.to_le_bytes();
    let size: usize = if code % 4 == 3 { 4 } else { 2 };
    for at in 0..size {
        if offset < 4096 && at < 4096 - offset {
            page[offset + at] = bytes[at];
        }
    }
}

/// A page with these codes, each at its offset, and zeros between them.
pub(crate) fn page_with(codes: &[(usize, u32)]) -> [u8; 4096] {
    let mut page = [0; 4096];
    for &(offset, code) in codes {
        put(&mut page, offset, code);
    }
    page
}

/// Shows a block of a page at a place, and compares whether it was taken.
pub(crate) fn check_block(
    rt: &impl Abort,
    pages: &mut CodePages,
    place: usize,
    block: usize,
    page: &[u8; 4096],
    taken: bool,
) {
    let seen = if block < 16 {
        Some(pages.check(place, block, page))
    } else {
        None
    };
    same_at(rt, seen, Some(taken), (place, block));
}

/// Shows each block of a page at a place, in turn.
pub(crate) fn check_show(
    rt: &impl Abort,
    pages: &mut CodePages,
    place: usize,
    page: &[u8; 4096],
    taken: bool,
) {
    for block in 0..16usize {
        check_block(rt, pages, place, block, page, taken);
    }
}

// the line of a code, learnt where it isn't known. None where no code is at such an offset
fn line(pages: &mut CodePages, place: usize, offset: u32) -> Option<usize> {
    if offset >= 4096 {
        return None;
    }
    if offset % 2 != 0 {
        return None;
    }
    Some(pages.line(place, offset))
}

// the same, only where it is known, stale or not
fn line_at(pages: &CodePages, place: usize, offset: u32) -> Option<usize> {
    if offset >= 4096 {
        return None;
    }
    match pages.starts(place) {
        Some(starts) => Some(line_from(starts, offset)),
        None => Some(0),
    }
}

/// Learns the code at an offset, and compares its line.
pub(crate) fn check_line(
    rt: &impl Abort,
    pages: &mut CodePages,
    place: usize,
    offset: u32,
    wanted: usize,
) {
    same_at(
        rt,
        line(pages, place, offset),
        Some(wanted),
        (place, offset),
    );
}

/// Compares the lines that are known of the codes at these offsets.
pub(crate) fn check_known(
    rt: &impl Abort,
    pages: &CodePages,
    place: usize,
    wanted: &[(u32, usize)],
) {
    for &(offset, at) in wanted {
        same_at(rt, line_at(pages, place, offset), Some(at), (place, offset));
    }
}

/// Compares how many lines there are.
pub(crate) fn check_count(rt: &impl Abort, pages: &CodePages, wanted: usize) {
    assert_eq!(rt; pages.lines().len(), wanted);
}

fn row_of(line: Line) -> Row {
    (line.offset, line.run, line.kind, line.turned, line.size)
}

/// Compares the lines from one on, which are the last.
pub(crate) fn check_lines(rt: &impl Abort, pages: &CodePages, first: usize, wanted: &[Row]) {
    let lines = pages.lines();
    let mut at = first;
    for &row in wanted {
        if at < lines.len() {
            assert!(rt; row_of(lines[at]) == row, "line {at}");
            at += 1;
        } else {
            assert!(rt; false, "no line {at}");
        }
    }
    same_at(rt, lines.len(), at, first);
}

/// Compares the fields of a line's form.
pub(crate) fn check_form(rt: &impl Abort, pages: &CodePages, at: usize, wanted: (u8, u8, u8, i32)) {
    let lines = pages.lines();
    let seen = if at < lines.len() {
        let form = lines[at].form;
        Some((form.rd, form.rs1, form.rs2, form.imm))
    } else {
        None
    };
    same_at(rt, seen, Some(wanted), at);
}
