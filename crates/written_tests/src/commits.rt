//! Words put in memory in their order, beside stores that are done at once.
use crate::checks::{Store, check_read, check_store, no_words, same_at, store_all};
use dos_world::Size;
use std::process::Abort;
use written_words::{Written, WrittenWords};

// The first 64 bytes of two frames whose words have the same chains.
const FRAMES: [u32; 2] = [5, 1029];

type Memory = [u8; 128];

fn place_of(frame: u32, offset: u32) -> usize {
    let first = if frame == 5 { 0 } else { 64 };
    first + (offset % 64) as usize
}

fn put(memory: &mut Memory, frame: u32, offset: u32, byte: u8) {
    if let Some(there) = memory.get_mut(place_of(frame, offset)) {
        *there = byte;
    }
}

// The bytes of a value that a mask names, one after another.
fn put_by(memory: &mut Memory, frame: u32, offset: u32, mask: u32, value: u32) {
    let [a, b, c, d] = value.to_le_bytes();
    for (index, bit, byte) in [(0, 1, a), (1, 2, b), (2, 4, c), (3, 8, d)] {
        if mask & bit != 0 {
            put(memory, frame, offset.wrapping_add(index), byte);
        }
    }
}

fn commit(memory: &mut Memory, words: &[Written]) {
    for word in words {
        put_by(memory, word.frame, word.offset, word.mask, word.value);
    }
}

fn store_at_once(memory: &mut Memory, store: Store) {
    let (frame, offset, size, value) = store;
    let mask = match size {
        Size::Byte => 1,
        Size::Half => 3,
        Size::Word => 15,
    };
    put_by(memory, frame, offset, mask, value);
}

fn bytes_at(memory: &Memory, frame: u32, offset: u32) -> [u8; 4] {
    let place = place_of(frame, offset);
    let mut bytes = [0; 4];
    for (to, from) in bytes.iter_mut().zip(memory.iter().skip(place)) {
        *to = *from;
    }
    bytes
}

// The next number of a generator by multiplication and addition modulo 2^32.
fn next(seed: &mut u32) -> u32 {
    *seed = seed.wrapping_mul(1_664_525).wrapping_add(1_013_904_223);
    *seed >> 8
}

// A store of any size at an aligned offset of one of the two frames.
fn any_store(seed: &mut u32) -> Store {
    let frame = if next(seed) % 2 == 0 {
        FRAMES[0]
    } else {
        FRAMES[1]
    };
    let offset = next(seed) % 64;
    let value = next(seed) << 8 | next(seed) % 256;
    match next(seed) % 3 {
        0 => (frame, offset, Size::Byte, value),
        1 => (frame, offset / 2 * 2, Size::Half, value),
        _ => (frame, offset / 4 * 4, Size::Word, value),
    }
}

fn opening() -> Memory {
    let mut memory = [0; 128];
    for (index, byte) in memory.iter_mut().enumerate() {
        *byte = (index % 128) as u8 + 100;
    }
    memory
}

// What is read over the opening is what stores done at once have made.
fn check_reads(rt: &impl Abort, words: &WrittenWords, at_once: &Memory, opened: &Memory) {
    for frame in FRAMES {
        for index in 0..16u32 {
            let offset = index * 4;
            let old = bytes_at(opened, frame, offset);
            let wanted = bytes_at(at_once, frame, offset);
            check_read(rt, words, (frame, offset), old, wanted);
        }
    }
}

#[test]
fn a_commit_is_the_stores(rt: HostRuntime) {
    let mut words = no_words(rt.alloc()).expect(&rt, "memory");
    let mut seed = 1;
    for round in 0..40u32 {
        words.clear();
        let opened = opening();
        let mut at_once = opened;
        for _ in 0..round {
            let store = any_store(&mut seed);
            check_store(&rt, &mut words, store, true);
            store_at_once(&mut at_once, store);
        }
        check_reads(&rt, &words, &at_once, &opened);
        let mut committed = opened;
        commit(&mut committed, words.as_slice());
        same_at(&rt, committed, at_once, round);
    }
    drop(words);
}

// Two threads' words, put in memory one list after the other: each byte that only one has written
// is kept, and of one that both have written the later's.
#[test]
fn a_later_commit_wins_by_bytes(rt: HostRuntime) {
    let mut first = no_words(rt.alloc()).expect(&rt, "memory");
    let mut second = no_words(rt.alloc()).expect(&rt, "memory");
    let old = opening();
    let stores = [(5, 0, Size::Half, 0x0201), (1029, 8, Size::Byte, 7)];
    store_all(&rt, &mut first, &stores);
    let stores = [(5, 1, Size::Byte, 0x22), (5, 2, Size::Byte, 0x33)];
    store_all(&rt, &mut second, &stores);
    let mut memory = old;
    commit(&mut memory, first.as_slice());
    commit(&mut memory, second.as_slice());
    let rows = [
        (5, 0, [1, 0x22, 0x33, 103]),
        (5, 4, [104, 105, 106, 107]),
        (1029, 8, [7, 173, 174, 175]),
    ];
    for (frame, offset, wanted) in rows {
        same_at(
            &rt,
            bytes_at(&memory, frame, offset),
            wanted,
            (frame, offset),
        );
    }
    drop(first);
    drop(second);
}
