//! 1,024 words and no more; and none after a clear.
use crate::checks::{check_read, check_store, check_words, no_words, same_at, store_all};
use dos_world::Size;
use std::process::Abort;
use written_words::{Written, WrittenWords};

const OLD: [u8; 4] = [1, 2, 3, 4];

// Writes every word of a frame's page, in falling offset, each with its offset.
fn fill(rt: &impl Abort, words: &mut WrittenWords, frame: u32) {
    for back in 0..1024u32 {
        let offset = (1023 - back) * 4;
        check_store(rt, words, (frame, offset, Size::Word, offset), true);
    }
}

// How many words there are, and the last of them.
fn last(words: &WrittenWords) -> (usize, Option<Written>) {
    (words.as_slice().len(), words.as_slice().last().copied())
}

// All words of the page are there and have their offsets.
fn check_filled(rt: &impl Abort, words: &WrittenWords, frame: u32) {
    for index in 0..1024u32 {
        let wanted = (index * 4).to_le_bytes();
        check_read(rt, words, (frame, index * 4), OLD, wanted);
    }
}

#[test]
fn the_1025th_word_is_refused(rt: HostRuntime) {
    let mut words = no_words(rt.alloc()).expect(&rt, "memory");
    fill(&rt, &mut words, 3);
    let zeroth = Written {
        frame: 3,
        offset: 0,
        mask: 15,
        value: 0,
    };
    same_at(&rt, last(&words), (1024, Some(zeroth)), "full");
    for store in [
        (4, 0, Size::Word, 9),
        (2, 4092, Size::Byte, 9),
        (1027, 0, Size::Half, 9),
    ] {
        check_store(&rt, &mut words, store, false);
    }
    same_at(&rt, last(&words), (1024, Some(zeroth)), "refused");
    check_filled(&rt, &words, 3);
    check_read(&rt, &words, (4, 0), OLD, OLD);
    // a word that is there is written on
    store_all(&rt, &mut words, &[(3, 1, Size::Byte, 0x77)]);
    check_read(&rt, &words, (3, 0), OLD, [0, 0x77, 0, 0]);
    same_at(&rt, words.as_slice().len(), 1024, "again");
    drop(words);
}

#[test]
fn the_1024th_word_is_taken(rt: HostRuntime) {
    let mut words = no_words(rt.alloc()).expect(&rt, "memory");
    for frame in 0..1023u32 {
        check_store(&rt, &mut words, (frame, 8, Size::Byte, 1), true);
    }
    same_at(&rt, words.as_slice().len(), 1023, "words");
    let rows = [
        ((1023, 8, Size::Half, 2), true),
        ((1024, 8, Size::Half, 2), false),
        ((1023, 10, Size::Half, 2), true),
        ((u32::MAX, 8, Size::Byte, 2), false),
    ];
    for (store, taken) in rows {
        check_store(&rt, &mut words, store, taken);
    }
    same_at(&rt, words.as_slice().len(), 1024, "words");
    drop(words);
}

#[test]
fn nothing_is_left_by_a_clear(rt: HostRuntime) {
    let mut words = no_words(rt.alloc()).expect(&rt, "memory");
    for round in 0..3u32 {
        // the mask and the value are those of this round
        store_all(&rt, &mut words, &[(0, 0, Size::Byte, 5 + round)]);
        let [byte, _, _, _] = (5 + round).to_le_bytes();
        check_read(&rt, &words, (0, 0), OLD, [byte, 2, 3, 4]);
        words.clear();
        fill(&rt, &mut words, round);
        check_filled(&rt, &words, round);
        check_store(&rt, &mut words, (9, 0, Size::Byte, 0), false);
        words.clear();
        check_words(&rt, &words, &[]);
        check_read(&rt, &words, (round, 4), OLD, OLD);
    }
    drop(words);
}
