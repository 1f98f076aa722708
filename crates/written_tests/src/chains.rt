//! Look-ups that meet a long chain: frames that differ by a multiple of 1024 have the same chain at
//! the same offset, and frames side by side have it 1556 bytes apart.
use crate::checks::{check_read, check_store, no_words, store_all};
use dos_world::Size;
use std::process::Abort;
use written_words::WrittenWords;

const OLD: [u8; 4] = [1, 2, 3, 4];

fn check_chain(rt: &impl Abort, words: &WrittenWords) {
    for index in 0..1024u32 {
        let frame = index * 1024;
        let [first, second, _, _] = index.to_le_bytes();
        check_read(rt, words, (frame, 40), OLD, [1, first, second, 4]);
        // of the same chain, and not written
        check_read(rt, words, (frame + 1, 2580), OLD, OLD);
        // of the next chain
        check_read(rt, words, (frame, 44), OLD, OLD);
    }
}

#[test]
fn a_thousand_words_of_one_chain_are_found(rt: HostRuntime) {
    let mut words = no_words(rt.alloc()).expect(&rt, "memory");
    for index in 0..1024u32 {
        let [first, second, _, _] = index.to_le_bytes();
        let frame = index * 1024;
        let stores = [
            (frame, 41, Size::Byte, u32::from(first)),
            (frame, 42, Size::Byte, u32::from(second)),
        ];
        store_all(&rt, &mut words, &stores);
    }
    check_chain(&rt, &words);
    check_read(&rt, &words, (1 << 20, 40), OLD, OLD);
    check_store(&rt, &mut words, (1 << 20, 40, Size::Byte, 0), false);
    check_chain(&rt, &words);
    drop(words);
}

#[test]
fn words_of_one_chain_are_told_apart(rt: HostRuntime) {
    let mut words = no_words(rt.alloc()).expect(&rt, "memory");
    // 389 words of a page are 1556 bytes
    let stores = [
        (0, 1556, Size::Byte, 5),
        (1, 0, Size::Byte, 6),
        (1025, 0, Size::Byte, 7),
        (0, 1557, Size::Byte, 8),
        (1025, 3, Size::Byte, 9),
    ];
    store_all(&rt, &mut words, &stores);
    let rows = [
        (0, 1556, [5, 8, 3, 4]),
        (1, 0, [6, 2, 3, 4]),
        (1025, 0, [7, 2, 3, 9]),
        (1024, 1556, OLD),
        (2049, 0, OLD),
        (0, 0, OLD),
        (1, 1556, OLD),
    ];
    for (frame, offset, wanted) in rows {
        check_read(&rt, &words, (frame, offset), OLD, wanted);
    }
    drop(words);
}
