//! What all tests do with a list of words. An assert is a way out, so it stands here.
use dos_world::Size;
use std::alloc::{AllocError, Global};
use std::fmt::Debug;
use std::process::Abort;
use written_words::{Written, WrittenWords};

/// A store: frame, offset, size and value.
pub(crate) type Store = (u32, u32, Size, u32);

pub(crate) fn same_at<T: Copy + PartialEq + Debug, C: Copy + Debug>(
    rt: &impl Abort,
    seen: T,
    wanted: T,
    case: C,
) {
    assert_eq!(rt; seen, wanted, "{case:?}");
}

// Of what the helpers do to the words nothing is said: the tests look.

pub(crate) fn no_words(alloc: Global) -> Result<WrittenWords, AllocError> {
    WrittenWords::reserve(alloc)
}

/// Whether a store was taken. None where no access is at such an offset.
fn stored(words: &mut WrittenWords, store: Store) -> Option<bool> {
    let (frame, offset, size, value) = store;
    if offset >= 4096 || !size.is_aligned(offset) {
        return None;
    }
    Some(words.store(frame, offset, size, value))
}

/// The word at an offset as it is read over these bytes. None where no word is there.
fn read(words: &WrittenWords, frame: u32, offset: u32, old: [u8; 4]) -> Option<[u8; 4]> {
    if offset >= 4096 || !Size::Word.is_aligned(offset) {
        return None;
    }
    Some(words.over(frame, offset, old))
}

/// The number at an offset if it was written whole and is found at first sight. None where no word
/// is there.
fn whole(words: &WrittenWords, frame: u32, offset: u32) -> Option<Option<u32>> {
    if offset >= 4096 || !Size::Word.is_aligned(offset) {
        return None;
    }
    Some(words.whole(frame, offset))
}

/// Does a store, and compares whether it was taken.
pub(crate) fn check_store(rt: &impl Abort, words: &mut WrittenWords, store: Store, taken: bool) {
    let place = (store.0, store.1);
    same_at(rt, stored(words, store), Some(taken), place);
}

/// Whether a store was done without a search. None where no access is at such an offset.
fn stored_quickly(words: &mut WrittenWords, store: Store) -> Option<bool> {
    let (frame, offset, size, value) = store;
    if offset >= 4096 || !size.is_aligned(offset) {
        return None;
    }
    Some(words.store_quickly(frame, offset, size, value))
}

/// Does a store if it takes no search, and compares whether it was done.
pub(crate) fn check_quickly(rt: &impl Abort, words: &mut WrittenWords, store: Store, done: bool) {
    let place = (store.0, store.1);
    same_at(rt, stored_quickly(words, store), Some(done), place);
}

/// Does the stores, each of which is taken.
pub(crate) fn store_all(rt: &impl Abort, words: &mut WrittenWords, stores: &[Store]) {
    for &store in stores {
        check_store(rt, words, store, true);
    }
}

/// Compares the word at a place, by its frame and offset, as it is read over these bytes.
pub(crate) fn check_read(
    rt: &impl Abort,
    words: &WrittenWords,
    place: (u32, u32),
    old: [u8; 4],
    wanted: [u8; 4],
) {
    same_at(rt, read(words, place.0, place.1, old), Some(wanted), place);
}

/// Compares the number at a place, by its frame and offset, where it was written whole and is found
/// at first sight.
pub(crate) fn check_whole(
    rt: &impl Abort,
    words: &WrittenWords,
    place: (u32, u32),
    wanted: Option<u32>,
) {
    same_at(rt, whole(words, place.0, place.1), Some(wanted), place);
}

pub(crate) fn check_words(rt: &impl Abort, words: &WrittenWords, wanted: &[Written]) {
    assert_eq!(rt; words.as_slice(), wanted);
}
