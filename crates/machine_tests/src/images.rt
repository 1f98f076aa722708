use crate::checks::{same, same_at};
use elf_image::{Image, ImageError, Part, read_image};
use std::alloc::{AllocError, Global};
use std::process::Abort;

/// Three instructions that end the process, at 0x00010000 with all rights: one program header, and
/// the code behind it.
pub const SMALLEST: [u8; 96] = [
    0x7F, 0x45, 0x4C, 0x46, 1, 1, 1, 0, 0, 0, 0, 0, 0, 0, 0, 0, // e_ident
    2, 0, 243, 0, 1, 0, 0, 0, 0x00, 0x00, 1, 0, 52, 0, 0, 0, // e_type to e_phoff
    0, 0, 0, 0, 0, 0, 0, 0, 52, 0, 32, 0, 1, 0, 0, 0, 0, 0, 0, 0, // e_shoff to e_shstrndx
    1, 0, 0, 0, 84, 0, 0, 0, 0, 0, 1, 0, 0, 0, 1, 0, // PT_LOAD, offset, two addresses
    12, 0, 0, 0, 12, 0, 0, 0, 7, 0, 0, 0, 0, 0x10, 0, 0, // two sizes, rights, alignment
    0x93, 0x08, 0x20, 0, 0x13, 0x05, 0x70, 0, 0x73, 0, 0, 0,
];

/// As a linker makes it: a note, the headers and the code, the data, and the stack's header.
const LINKED: [u8; 196] = [
    0x7F, 0x45, 0x4C, 0x46, 1, 1, 1, 0, 0, 0, 0, 0, 0, 0, 0, 0, // e_ident
    2, 0, 243, 0, 1, 0, 0, 0, 0xB4, 0x00, 1, 0, 52, 0, 0, 0, // e_type to e_phoff
    0, 0, 0, 0, 0, 0, 0, 0, 52, 0, 32, 0, 4, 0, 0, 0, 0, 0, 0, 0, // e_shoff to e_shstrndx
    4, 0, 0, 0, 0, 0, 0, 0, 0, 0, 0, 0, 0, 0, 0, 0, // at 52
    0, 0, 0, 0, 0, 0, 0, 0, 4, 0, 0, 0, 4, 0, 0, 0, //
    1, 0, 0, 0, 0, 0, 0, 0, 0, 0, 1, 0, 0, 0, 1, 0, // at 84
    192, 0, 0, 0, 192, 0, 0, 0, 5, 0, 0, 0, 0, 0x10, 0, 0, //
    1, 0, 0, 0, 192, 0, 0, 0, 0xC0, 0x10, 1, 0, 0xC0, 0x10, 1, 0, // at 116
    4, 0, 0, 0, 64, 0, 0, 0, 6, 0, 0, 0, 0, 0x10, 0, 0, //
    0x51, 0xE5, 0x74, 0x64, 0, 0, 0, 0, 0, 0, 0, 0, 0, 0, 0, 0, // at 148
    0, 0, 0, 0, 0, 0, 0, 0, 6, 0, 0, 0, 16, 0, 0, 0, //
    0x93, 0x08, 0x20, 0, 0x13, 0x05, 0x70, 0, 0x73, 0, 0, 0, // at 180
    1, 2, 3, 4, // at 192
];

/// What a part of an image is to be.
#[derive(Clone, Copy)]
pub struct Wanted<'a> {
    pub address: u32,
    pub zeros: u32,
    pub index: u32,
    pub write: bool,
    pub exec: bool,
    pub bytes: &'a [u8],
}

// whether a part is what it is to be
fn is_as_wanted(part: &Part, wanted: &Wanted<'_>) -> bool {
    part.address == wanted.address
        && part.zeros == wanted.zeros
        && part.index == wanted.index
        && part.write == wanted.write
        && part.exec == wanted.exec
        && part.bytes.as_slice() == wanted.bytes
}

fn check_parts(rt: &impl Abort, parts: &[Part], wanted: &[Wanted<'_>]) {
    for (part, wanted) in parts.iter().zip(wanted) {
        same_at(rt, is_as_wanted(part, wanted), true, wanted.index);
    }
}

/// An image has this entry and these parts.
pub fn check_image(rt: &impl Abort, image: &Image, entry: u32, wanted: &[Wanted<'_>]) {
    let parts = image.parts();
    same(rt, (image.entry(), parts.len()), (entry, wanted.len()));
    check_parts(rt, parts, wanted);
}

/// A file is accepted, with this entry and these parts.
pub fn check_file(rt: &impl Abort, alloc: Global, file: &[u8], entry: u32, wanted: &[Wanted<'_>]) {
    let image = read_image(alloc, file).expect(rt, "an image");
    check_image(rt, &image, entry, wanted);
    drop(image);
}

/// Writes a number of four bytes, if it is in the file.
pub fn set_word(file: &mut [u8], place: usize, value: u32) {
    if file.len() >= 4 && place <= file.len() - 4 {
        file[place..place + 4].copy_from_slice(&value.to_le_bytes());
    }
}

/// A byte that stands at a place of the smallest file, and the refusal.
type ByteRow = (usize, u8, Option<ImageError>);

const BY_BYTE: [ByteRow; 33] = [
    (0, 0x7E, Some(ImageError::NotElf)),
    (3, 0x47, Some(ImageError::NotElf)),
    (4, 2, Some(ImageError::Class)),
    (5, 2, Some(ImageError::ByteOrder)),
    (6, 0, Some(ImageError::Version)),
    (20, 2, Some(ImageError::Version)),
    (16, 3, Some(ImageError::Kind)),
    (17, 1, Some(ImageError::Kind)),
    (18, 62, Some(ImageError::Machine)),
    (19, 1, Some(ImageError::Machine)),
    (36, 1, None),
    (36, 3, Some(ImageError::Flags)),
    (36, 2, Some(ImageError::Flags)),
    (36, 4, Some(ImageError::Flags)),
    (36, 8, Some(ImageError::Flags)),
    (42, 31, Some(ImageError::HeaderTable)),
    (44, 2, Some(ImageError::HeaderTable)),
    (28, 65, Some(ImageError::HeaderTable)),
    (28, 64, Some(ImageError::NoLoad)),
    (44, 0, Some(ImageError::NoLoad)),
    (52, 2, Some(ImageError::Dynamic)),
    (52, 3, Some(ImageError::Dynamic)),
    (52, 4, Some(ImageError::NoLoad)),
    (24, 12, Some(ImageError::Entry)),
    (24, 1, Some(ImageError::Entry)),
    (24, 2, None),
    (76, 6, Some(ImageError::Entry)),
    (24, 8, None),
    (36, 0x10, None),
    (7, 9, None),
    (40, 0, None),
    (64, 1, None),
    (80, 3, None),
];

/// Numbers that stand at places of the linker's file, and the refusal.
type WordsRow = (&'static [(usize, u32)], Option<ImageError>);

static BY_WORDS: [WordsRow; 34] = [
    (&[], None),
    // no table: neither its place nor its headers' size counts
    (&[(42, 0), (28, 0xFFFF_FFFF)], Some(ImageError::NoLoad)),
    (&[(28, 0xFFFF_FFE0)], Some(ImageError::HeaderTable)),
    // more bytes than memory, and bytes past the file's end
    (&[(136, 3)], Some(ImageError::Segment(2))),
    (&[(136, 4)], None),
    (&[(132, 5)], Some(ImageError::Segment(2))),
    (&[(120, 0xFFFF_FFFC)], Some(ImageError::Segment(2))),
    (&[(120, 0xFFFF_FFFC), (132, 0)], None),
    (&[(100, 197), (132, 5)], Some(ImageError::Segment(1))),
    // below the lowest address, and up to the stack
    (&[(124, 0xFFF)], Some(ImageError::Segment(2))),
    (&[(124, 0x1000)], None),
    (&[(124, 0xEFFE_FFC1)], Some(ImageError::Segment(2))),
    (&[(124, 0xEFFE_FFC0)], None),
    (&[(124, 0xFFFF_FFF0)], Some(ImageError::Segment(2))),
    // without memory it is no part, wherever it is
    (&[(124, 0), (132, 0), (136, 0)], None),
    (&[(124, 0), (136, 0)], Some(ImageError::Segment(2))),
    (&[(52, 1)], None),
    (&[(52, 1), (72, 1)], Some(ImageError::Segment(0))),
    // two parts at one address, and side by side
    (&[(124, 0x100BF)], Some(ImageError::Overlap(1, 2))),
    (&[(124, 0x100C0)], None),
    (&[(124, 0xFFC1)], Some(ImageError::Overlap(1, 2))),
    (&[(124, 0xFFC0)], None),
    (
        &[(124, 0x100BF), (148, 1), (156, 0x100BF), (168, 1)],
        Some(ImageError::Overlap(1, 2)),
    ),
    (
        &[(148, 1), (156, 0x110FF), (168, 1)],
        Some(ImageError::Overlap(2, 3)),
    ),
    // the entry at the code's end, in data, between two words and between two halfwords
    (&[(24, 0x100BC)], None),
    (&[(24, 0x100C0)], Some(ImageError::Entry)),
    (&[(24, 0x110C0)], Some(ImageError::Entry)),
    (&[(24, 0x100B6)], None),
    (&[(24, 0x100B7)], Some(ImageError::Entry)),
    (&[(108, 6)], Some(ImageError::Entry)),
    // the first that holds is told
    (&[(52, 3), (132, 5)], Some(ImageError::Dynamic)),
    (&[(124, 0x100BF), (24, 0)], Some(ImageError::Overlap(1, 2))),
    (&[(84, 4), (116, 4), (24, 2)], Some(ImageError::NoLoad)),
    (&[(44, 5), (52, 3)], Some(ImageError::HeaderTable)),
];

/// Why a file is refused with another byte at a place.
fn with_byte(alloc: Global, mut file: [u8; 96], place: usize, byte: u8) -> Option<ImageError> {
    if place < file.len() {
        file[place] = byte;
    }
    read_image(alloc, &file).err()
}

/// Why a file is refused with other numbers at some places.
fn with_words(alloc: Global, mut file: [u8; 196], words: &[(usize, u32)]) -> Option<ImageError> {
    for &(place, value) in words {
        set_word(&mut file, place, value);
    }
    read_image(alloc, &file).err()
}

fn check_bytes(rt: &impl Abort, alloc: Global, file: [u8; 96], rows: &[ByteRow]) {
    for &(place, byte, refusal) in rows {
        same_at(
            rt,
            with_byte(alloc, file, place, byte),
            refusal,
            (place, byte),
        );
    }
}

fn check_words(rt: &impl Abort, alloc: Global, file: [u8; 196], rows: &[WordsRow]) {
    for &(words, refusal) in rows {
        same_at(rt, with_words(alloc, file, words), refusal, words);
    }
}

#[test]
fn refuses_by_the_file_header(rt: HostRuntime) {
    check_bytes(&rt, rt.alloc(), SMALLEST, &BY_BYTE);
}

#[test]
fn refuses_by_the_segments(rt: HostRuntime) {
    check_words(&rt, rt.alloc(), LINKED, &BY_WORDS);
}

/// The first refusal of the linker's file, cut to this length.
fn cut_refusal(len: usize) -> Option<ImageError> {
    match len {
        0..=51 => Some(ImageError::Short),
        52..=179 => Some(ImageError::HeaderTable),
        180..=191 => Some(ImageError::Segment(1)),
        192..=195 => Some(ImageError::Segment(2)),
        _ => None,
    }
}

/// Each front of the linker's file.
fn check_fronts(rt: &impl Abort, alloc: Global, file: &[u8]) {
    for len in 0..=file.len() {
        same_at(
            rt,
            read_image(alloc, &file[..len]).err(),
            cut_refusal(len),
            len,
        );
    }
}

#[test]
fn reads_a_file_cut_anywhere(rt: HostRuntime) {
    check_fronts(&rt, rt.alloc(), &LINKED);
}

/// A file's header, and what follows it.
fn joined(alloc: Global, header: &[u8], rest: &[u8]) -> Result<Vec<u8>, AllocError> {
    let mut file = Vec::from_slice(alloc, header)?;
    file.extend_from_slice(rest)?;
    Ok(file)
}

/// Why a file is refused with so many headers.
fn with_count(alloc: Global, file: &mut [u8], count: u32) -> Option<ImageError> {
    set_word(file, 44, count);
    read_image(alloc, file).err()
}

#[test]
fn takes_64_headers(rt: HostRuntime) {
    let mut file = joined(rt.alloc(), &SMALLEST[..52], &[0; 65 * 32]).expect(&rt, "memory");
    let at_most = with_count(rt.alloc(), &mut file, 64);
    let one_more = with_count(rt.alloc(), &mut file, 65);
    drop(file);
    let refusals = (Some(ImageError::NoLoad), Some(ImageError::HeaderTable));
    same(&rt, (at_most, one_more), refusals);
}

#[test]
fn reads_the_smallest_file(rt: HostRuntime) {
    let part = Wanted {
        address: 0x10000,
        zeros: 0,
        index: 0,
        write: true,
        exec: true,
        bytes: &SMALLEST[84..],
    };
    check_file(&rt, rt.alloc(), &SMALLEST, 0x10000, &[part]);
}

/// Why a file is refused with other sizes in the file and in memory.
fn with_sizes(alloc: Global, mut file: [u8; 96], sizes: [u32; 2]) -> Option<ImageError> {
    set_word(&mut file, 68, sizes[0]);
    set_word(&mut file, 72, sizes[1]);
    read_image(alloc, &file).err()
}

fn check_sizes(rt: &impl Abort, alloc: Global, rows: &[([u32; 2], Option<ImageError>)]) {
    for &(sizes, refusal) in rows {
        same_at(rt, with_sizes(alloc, SMALLEST, sizes), refusal, sizes);
    }
}

#[test]
fn refuses_by_the_sizes(rt: HostRuntime) {
    let rows = [
        ([12, 13], None),
        ([13, 12], Some(ImageError::Segment(0))),
        ([13, 13], Some(ImageError::Segment(0))),
    ];
    check_sizes(&rt, rt.alloc(), &rows);
}

#[test]
fn reads_a_linkers_file(rt: HostRuntime) {
    let code = Wanted {
        address: 0x10000,
        zeros: 0,
        index: 1,
        write: false,
        exec: true,
        bytes: &LINKED[..192],
    };
    let data = Wanted {
        address: 0x110C0,
        zeros: 60,
        index: 2,
        write: true,
        exec: false,
        bytes: &[1, 2, 3, 4],
    };
    check_file(&rt, rt.alloc(), &LINKED, 0x100B4, &[code, data]);
}

fn check_text(rt: &impl Abort, alloc: Global, error: ImageError, text: &str) {
    let told = format!(in alloc; "{error}").expect(rt, "memory");
    let is_told = told.as_str() == text;
    drop(told);
    same_at(rt, is_told, true, error);
}

#[test]
fn tells_a_refusal(rt: HostRuntime) {
    let overlap = ImageError::Overlap(1, 2);
    let segment = ImageError::Segment(3);
    check_text(&rt, rt.alloc(), segment, "segment 3 does not fit");
    check_text(&rt, rt.alloc(), overlap, "segments 1 and 2 overlap");
    same(&rt, overlap.number(), 12);
}
