//! Bytes, halves and words that meet in a word, or lie in two.
use crate::checks::{
    Store, check_quickly, check_read, check_store, check_whole, check_words, no_words, same_at,
    store_all,
};
use dos_world::Size;
use std::process::Abort;
use written_words::{Written, WrittenWords};

const OLD: [u8; 4] = [0x11, 0x22, 0x33, 0x44];

fn word(frame: u32, offset: u32, mask: u32, value: u32) -> Written {
    Written {
        frame,
        offset,
        mask,
        value,
    }
}

/// Stores into the word at offset 4 of frame 7, one after another; mask and value of the one word
/// that they leave; and what is read there over the bytes above.
type Row = (&'static [Store], (u32, u32), [u8; 4]);

const ONE_WORD: [Row; 12] = [
    (
        &[(7, 4, Size::Byte, 0xaa)],
        (0b0001, 0xaa),
        [0xaa, 0x22, 0x33, 0x44],
    ),
    (
        &[(7, 7, Size::Byte, 0x1234_56ff)],
        (0b1000, 0xff00_0000),
        [0x11, 0x22, 0x33, 0xff],
    ),
    (
        &[(7, 4, Size::Half, 0xbbcc)],
        (0b0011, 0xbbcc),
        [0xcc, 0xbb, 0x33, 0x44],
    ),
    (
        &[(7, 6, Size::Half, 0x9999_bbcc)],
        (0b1100, 0xbbcc_0000),
        [0x11, 0x22, 0xcc, 0xbb],
    ),
    (
        &[(7, 4, Size::Word, 0x89ab_cdef)],
        (0b1111, 0x89ab_cdef),
        [0xef, 0xcd, 0xab, 0x89],
    ),
    // a byte of 0 is written too
    (&[(7, 5, Size::Byte, 0)], (0b0010, 0), [0x11, 0, 0x33, 0x44]),
    // two bytes with one between them that isn't written
    (
        &[(7, 6, Size::Byte, 6), (7, 4, Size::Byte, 4)],
        (0b0101, 0x0006_0004),
        [4, 0x22, 6, 0x44],
    ),
    // a half over a byte, and a byte over the half
    (
        &[
            (7, 4, Size::Byte, 0xaa),
            (7, 4, Size::Half, 0xbbcc),
            (7, 5, Size::Byte, 0xdd),
        ],
        (0b0011, 0xddcc),
        [0xcc, 0xdd, 0x33, 0x44],
    ),
    // a half beside a byte
    (
        &[(7, 5, Size::Byte, 0xdd), (7, 6, Size::Half, 0xbbcc)],
        (0b1110, 0xbbcc_dd00),
        [0x11, 0xdd, 0xcc, 0xbb],
    ),
    // a byte and a half over a word
    (
        &[
            (7, 4, Size::Word, 0x0102_0304),
            (7, 7, Size::Byte, 0xff),
            (7, 4, Size::Half, 0xbbcc),
        ],
        (0b1111, 0xff02_bbcc),
        [0xcc, 0xbb, 0x02, 0xff],
    ),
    // a word over a half and a byte
    (
        &[
            (7, 6, Size::Half, 0xbbcc),
            (7, 4, Size::Byte, 0xaa),
            (7, 4, Size::Word, 0),
        ],
        (0b1111, 0),
        [0, 0, 0, 0],
    ),
    // the same byte twice
    (
        &[(7, 6, Size::Byte, 0xff), (7, 6, Size::Byte, 0x0f)],
        (0b0100, 0x000f_0000),
        [0x11, 0x22, 0x0f, 0x44],
    ),
];

fn check_rows(rt: &impl Abort, words: &mut WrittenWords, rows: &[Row]) {
    for &(stores, (mask, value), bytes) in rows {
        words.clear();
        store_all(rt, words, stores);
        check_words(rt, words, &[word(7, 4, mask, value)]);
        check_read(rt, words, (7, 4), OLD, bytes);
        for place in [(7, 0), (7, 8), (8, 4)] {
            check_read(rt, words, place, OLD, OLD);
        }
    }
}

#[test]
fn stores_meet_in_one_word(rt: HostRuntime) {
    let mut words = no_words(rt.alloc()).expect(&rt, "memory");
    check_rows(&rt, &mut words, &ONE_WORD);
    drop(words);
}

#[test]
fn stores_beside_each_other_lie_in_two_words(rt: HostRuntime) {
    let mut words = no_words(rt.alloc()).expect(&rt, "memory");
    let stores = [
        (7, 4092, Size::Half, 0x0102),
        (7, 4, Size::Byte, 0x44),
        (7, 2, Size::Half, 0x2233),
        (8, 0, Size::Word, 0x0a0b_0c0d),
        (7, 3, Size::Byte, 0x55),
        (7, 4094, Size::Half, 0x0304),
    ];
    store_all(&rt, &mut words, &stores);
    // in the order in which each was first written
    let wanted = [
        word(7, 4092, 0b1111, 0x0304_0102),
        word(7, 4, 0b0001, 0x44),
        word(7, 0, 0b1100, 0x5533_0000),
        word(8, 0, 0b1111, 0x0a0b_0c0d),
    ];
    check_words(&rt, &words, &wanted);
    check_read(&rt, &words, (7, 0), OLD, [0x11, 0x22, 0x33, 0x55]);
    check_read(&rt, &words, (7, 4), OLD, [0x44, 0x22, 0x33, 0x44]);
    check_read(&rt, &words, (7, 4092), OLD, [2, 1, 4, 3]);
    check_read(&rt, &words, (8, 0), OLD, [0x0d, 0x0c, 0x0b, 0x0a]);
    check_read(&rt, &words, (8, 4092), OLD, OLD);
    drop(words);
}

/// Stores, and the number in the word at offset 4 of frame 7 after each. None while a byte of it
/// isn't written, or where it isn't found at first sight.
const WHOLE: [(Store, Option<u32>); 11] = [
    ((7, 6, Size::Byte, 0x33), None),
    ((7, 4, Size::Byte, 0x11), None),
    ((7, 7, Size::Byte, 0x44), None),
    // the lowest byte first
    ((7, 5, Size::Byte, 0x22), Some(0x4433_2211)),
    // stored over
    ((7, 6, Size::Half, 0xbbcc), Some(0xbbcc_2211)),
    ((7, 4, Size::Word, 0x89ab_cdef), Some(0x89ab_cdef)),
    ((7, 4, Size::Word, 0), Some(0)),
    // beside it and in another frame
    ((7, 8, Size::Byte, 1), Some(0)),
    ((7, 0, Size::Word, 2), Some(0)),
    ((8, 4, Size::Half, 3), Some(0)),
    // behind the later word of its chain, which those of frames have that differ by 1024
    ((1031, 4, Size::Word, u32::MAX), None),
];

#[test]
fn a_word_is_whole_once_its_bytes_are_written(rt: HostRuntime) {
    let mut words = no_words(rt.alloc()).expect(&rt, "memory");
    check_whole(&rt, &words, (7, 4), None);
    for (store, wanted) in WHOLE {
        store_all(&rt, &mut words, &[store]);
        check_whole(&rt, &words, (7, 4), wanted);
    }
    let rows = [
        ((7, 8), None),
        ((7, 0), Some(2)),
        ((8, 4), None),
        ((1031, 4), Some(0xffff_ffff)),
        ((7, 12), None),
        ((6, 4), None),
    ];
    for (place, wanted) in rows {
        check_whole(&rt, &words, place, wanted);
    }
    words.clear();
    check_whole(&rt, &words, (7, 4), None);
    // two halves
    let halves = [(7, 6, Size::Half, 0x0304), (7, 4, Size::Half, 0x0102)];
    store_all(&rt, &mut words, &halves);
    check_whole(&rt, &words, (7, 4), Some(0x0304_0102));
    drop(words);
}

#[test]
fn a_word_is_stored_without_a_search_where_its_chain_has_none_or_ends_with_it(rt: HostRuntime) {
    let mut words = no_words(rt.alloc()).expect(&rt, "memory");
    // the first of its chain
    check_quickly(&rt, &mut words, (7, 4, Size::Byte, 0x11aa), true);
    check_words(&rt, &words, &[word(7, 4, 0b0001, 0xaa)]);
    // the last of its chain
    check_quickly(&rt, &mut words, (7, 6, Size::Half, 0xbbcc), true);
    check_words(&rt, &words, &[word(7, 4, 0b1101, 0xbbcc_00aa)]);
    check_quickly(&rt, &mut words, (7, 4, Size::Word, 0x89ab_cdef), true);
    check_words(&rt, &words, &[word(7, 4, 0b1111, 0x89ab_cdef)]);
    // of another chain, and as the second of the first one's, which frames have that differ by 1024
    check_quickly(&rt, &mut words, (7, 8, Size::Word, 1), true);
    check_quickly(&rt, &mut words, (1031, 4, Size::Word, 2), false);
    let mut wanted = vec![in rt.alloc();
        word(7, 4, 0b1111, 0x89ab_cdef),
        word(7, 8, 0b1111, 1),
    ].expect(&rt, "memory");
    check_words(&rt, &words, &wanted);
    store_all(&rt, &mut words, &[(1031, 4, Size::Word, 2)]);
    // the earlier word of its chain, and the later one
    check_quickly(&rt, &mut words, (7, 4, Size::Word, 3), false);
    check_quickly(&rt, &mut words, (1031, 4, Size::Word, 4), true);
    wanted.push(word(1031, 4, 0b1111, 4)).expect(&rt, "memory");
    check_words(&rt, &words, &wanted);
    words.clear();
    check_quickly(&rt, &mut words, (1031, 4, Size::Word, 5), true);
    check_words(&rt, &words, &[word(1031, 4, 0b1111, 5)]);
    drop(words);
}

#[test]
fn a_list_that_is_full_takes_no_word_without_a_search(rt: HostRuntime) {
    let mut words = no_words(rt.alloc()).expect(&rt, "memory");
    for number in 0..1023 {
        check_quickly(&rt, &mut words, (3, 4 * number, Size::Word, number), true);
    }
    check_store(&rt, &mut words, (2, 0, Size::Word, 7), true);
    // that of the last chain of frame 3, which has no word
    check_quickly(&rt, &mut words, (3, 4092, Size::Word, 8), false);
    check_quickly(&rt, &mut words, (3, 4088, Size::Byte, 9), true);
    same_at(&rt, words.as_slice().len(), 1024, "words");
    drop(words);
}
