//! Each field of a log at and past each end of its range.
use crate::texts::{EACH_KIND, STRETCHES, is_read};
use log_text::{LogError, ReadError};
use std::alloc::Global;
use std::process::Abort;

/// `EACH_KIND` is refused so where the bytes from a place on are others; none where it is a log.
fn changed(rt: &impl Abort, alloc: Global, place: usize, bytes: &[u8], refusal: Option<ReadError>) {
    let mut text = EACH_KIND;
    for (to, from) in text.iter_mut().skip(place).zip(bytes) {
        *to = *from;
    }
    is_read(rt, alloc, &text, refusal);
}

/// Texts that are refused: the place, the bytes that stand there, and the refusal.
const REFUSED: [(usize, &[u8], LogError); 25] = [
    (0, &[0x43], LogError::Magic),
    (3, &[0x4d], LogError::Magic),
    (4, &[0, 0], LogError::Version(0)),
    (4, &[3, 0], LogError::Version(3)),
    (4, &[1, 1], LogError::Version(257)),
    (6, &[0, 0], LogError::Header(6)),
    (6, &[8, 0], LogError::Short(84)),
    (6, &[9, 0], LogError::Header(6)),
    (8, &[15, 0, 0, 0], LogError::Header(8)),
    (8, &[1, 0, 1, 0], LogError::Header(8)),
    (12, &[0, 0, 0, 0], LogError::Header(12)),
    (12, &[0x41, 0x42, 0x0f, 0], LogError::Header(12)),
    (16, &[15, 0, 0, 0], LogError::Header(16)),
    (16, &[1, 0x40, 0, 0], LogError::Header(16)),
    (52, &[4], LogError::Entry(52)),
    (52, &[0], LogError::AfterEnd(58)),
    (57, &[32], LogError::Entry(67)),
    (57, &[33], LogError::Entry(57)),
    (62, &[0], LogError::Entry(62)),
    (62, &[32], LogError::Entry(62)),
    (72, &[0, 0], LogError::Entry(72)),
    (72, &[1, 0x10], LogError::Entry(72)),
    (74, &[4, 0], LogError::Entry(74)),
    (74, &[3, 0], LogError::AfterEnd(91)),
    (96, &[3], LogError::Entry(96)),
];

/// `STRETCHES` is refused so where the bytes from a place on are others; none where it is a log.
fn changed_stretches(
    rt: &impl Abort,
    alloc: Global,
    place: usize,
    bytes: &[u8],
    refusal: Option<ReadError>,
) {
    let mut text = STRETCHES;
    for (to, from) in text.iter_mut().skip(place).zip(bytes) {
        *to = *from;
    }
    is_read(rt, alloc, &text, refusal);
}

/// Texts of version 2 that are refused: a stretch of no round, one past the last round, one of more
/// exchanges than a log may have, one that goes on with the stretch in front of it, signals without
/// a post, and an unknown kind.
const REFUSED_STRETCHES: [(usize, &[u8], LogError); 7] = [
    (57, &[0, 0, 0, 0], LogError::Entry(57)),
    (53, &[0xfe, 0xff, 0xff, 0xff], LogError::Entry(57)),
    (57, &[1, 0, 0, 1], LogError::Entry(57)),
    (83, &[0xff, 0xff, 0xff, 0], LogError::Entry(83)),
    (88, &[5, 0, 0, 0], LogError::Entry(88)),
    (101, &[0], LogError::Entry(101)),
    (96, &[5], LogError::Entry(96)),
];

/// Texts of version 2 that are logs.
const READ_STRETCHES: [(usize, &[u8]); 4] = [
    (53, &[0xfd, 0xff, 0xff, 0xff]),
    (57, &[0xfb, 0xff, 0xff, 0]),
    (88, &[4, 0, 0, 0]),
    (79, &[1, 0, 0, 0]),
];

#[test]
fn stretches_are_refused_with_their_place(rt: HostRuntime) {
    for (place, bytes, wrong) in &REFUSED_STRETCHES {
        let refusal = Some(ReadError::Refused(*wrong));
        changed_stretches(&rt, rt.alloc(), *place, bytes, refusal);
    }
}

#[test]
fn each_end_of_a_stretch_is_read(rt: HostRuntime) {
    for (place, bytes) in &READ_STRETCHES {
        changed_stretches(&rt, rt.alloc(), *place, bytes, None);
    }
}

/// Texts that are logs: the place, and the bytes that stand there.
const READ: [(usize, &[u8]); 18] = [
    (8, &[16, 0, 0, 0]),
    (8, &[0, 0, 1, 0]),
    (12, &[1, 0, 0, 0]),
    (12, &[0x40, 0x42, 0x0f, 0]),
    (16, &[16, 0, 0, 0]),
    (16, &[0, 0x40, 0, 0]),
    (20, &[0xff]),
    (53, &[0xff, 0xff, 0xff, 0xff]),
    (58, &[0xff, 0xff, 0xff, 0xff]),
    (62, &[1]),
    (62, &[31]),
    (64, &[0xff, 0xff, 0xff, 0xff, 0xff, 0xff, 0xff, 0xff]),
    (72, &[2, 0]),
    (72, &[0, 0x10]),
    (87, &[0xff, 0xff, 0xff, 0xff, 0xff, 0xff, 0xff, 0xff]),
    (96, &[1]),
    (96, &[2]),
    (97, &[0xff, 0xff, 0xff, 0xff]),
];

#[test]
fn what_is_out_of_its_range_is_refused_with_its_place(rt: HostRuntime) {
    for (place, bytes, wrong) in &REFUSED {
        let refusal = Some(ReadError::Refused(*wrong));
        changed(&rt, rt.alloc(), *place, bytes, refusal);
    }
}

#[test]
fn each_end_of_each_range_is_read(rt: HostRuntime) {
    for (place, bytes) in &READ {
        changed(&rt, rt.alloc(), *place, bytes, None);
    }
}
