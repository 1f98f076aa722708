// The words that a thread has written.
ghost use Rattle.std.specs.Prelude.{◌≡◌, ◌+◌, ◌*◌, ◌/◌, ◌≤◌, ◌<◌, ◌%◌, ◌++◌, ◌∷◌, ℕ, List, []};
ghost use Rattle.std.specs.Prelude.{true, false, Some, None, IfOk, IfSome, MatchOption, length};
ghost use Rattle.std.specs.Prelude.{if◌then◌else◌};
ghost use Rattle.std.specs.Prelude.{take, drop, replicate, slice_get, slice_set};
ghost use Rattle.std.specs.List.{list_any};
ghost use Rattle.dos_world.specs.World.{page_of};
ghost use Rattle.dos_world.specs.Reach.{bytes_of, width, written};
ghost use Rattle.written_words.specs.declared.Written.{Written as word_type};
ghost use Rattle.written_words.specs.Words.{is_at, with_bytes_from, with_stored, words_put};
ghost use Rattle.written_words.specs.Index.{HasNoneOf, IsFound, IsAlignedWord};

use crate::Written;
use crate::index::chain;
use crate::merge::{WHOLE, bytes_over, with_value};
use dos_world::Size;
use std::alloc::{AllocError, Global};
use std::marker::Model;

/// How many words there may be.
const MOST: usize = 1024;

/// At most 1,024 words, each once. Contracts see the list of them, in the order in which each was
/// first written.
#[derive(Drop)]
pub struct WrittenWords {
    words: Vec<Written>,
    // for each word the place, counted from 1, of the one before it in its chain; 0 for none
    before: Vec<u16>,
    // for each chain the place of its last word
    last: Box<[u16; 1024]>,
    // by a frame's number modulo 256, whether there may be a word of it
    marks: Box<[bool; 256]>,
}

impl Model for WrittenWords {
    ghost use Rattle.std.specs.Prelude.{List, ◌≤◌};
    ghost use Rattle.std.specs.Vec.{vec_capacity};
    ghost use Rattle.written_words.specs.declared.Written.{Written as word_type};
    ghost use Rattle.written_words.specs.Index.{FramesAreMarked, IsIndexed};

    ghost Value = { List word_type };

    ghost view = { λ w. w.words.items };

    ghost invariant = { λ w. IsIndexed w.words.items w.before.items w.last.value
        × FramesAreMarked w.words.items w.marks.value
        × (1024 ≤ vec_capacity w.words) × (1024 ≤ vec_capacity w.before) };
}

// no chain has a word
fn no_chains() -> [u16; 1024]
    ensures { result ≡ replicate 1024 0 }
{
    [0; 1024]
}

// no chain has a word any more
fn reset(last: &mut [u16; 1024])
    ensures { last.new ≡ replicate 1024 0 }
{
    *last = no_chains();
}

// no frame has a word
fn no_marks() -> [bool; 256]
    ensures { result ≡ replicate 256 false }
{
    [false; 256]
}

// no frame has a word any more
fn unmark(marks: &mut [bool; 256])
    ensures { marks.new ≡ replicate 256 false }
{
    *marks = no_marks();
}

impl WrittenWords {
    /// No words, and room for all that there may be.
    pub fn reserve(alloc: Global) -> Result<WrittenWords, AllocError>
        ensures { IfOk result (λ w. w ≡ []) }
    {
        Ok(WrittenWords {
            words: Vec::with_capacity(alloc, MOST)?,
            before: Vec::with_capacity(alloc, MOST)?,
            last: Box::new(alloc, no_chains())?,
            marks: Box::new(alloc, no_marks())?,
        })
    }

    /// No words any more. The room stays.
    pub fn clear(&mut self)
        ensures { self.new ≡ [] }
    {
        self.words.clear();
        self.before.clear();
        reset(&mut self.last);
        unmark(&mut self.marks);
    }

    /// The words, in the order in which each was first written.
    pub fn as_slice(&self) -> &[Written]
        ensures { result.now ≡ self.now }
    {
        self.words.as_slice()
    }

    /// Whether there may be a word of this frame. Where it says no there is none, and the frame's
    /// page is as memory has it. It looks at one mark.
    #[inline(always)]
    pub fn may_have(&self, frame: u32) -> bool
        ensures none { result ≡ false → HasNoneOf self.now frame }
        ensures page { result ≡ false → (bytes : List ℕ)
            → page_of (words_put bytes self.now) frame ≡ page_of bytes frame }
    {
        self.marks[(frame % 256) as usize]
    }

    /// Where the word of this frame and offset stands.
    #[inline]
    fn find(&self, frame: u32, offset: u32) -> Option<usize>
        ensures { MatchOption result (list_any (is_at frame offset) self.now ≡ false)
            (λ place. IsFound self.now frame offset place) }
    {
        let mut next = self.last[chain(frame, offset)] as usize;
        while next > 0 {
            let place = next - 1;
            let word = self.words[place];
            if word.frame == frame && word.offset == offset {
                return Some(place);
            }
            next = self.before[place] as usize;
        }
        None
    }

    // the same, if it is the last one of its chain, as it mostly is
    #[inline(always)]
    fn find_last(&self, frame: u32, offset: u32) -> Option<usize>
        ensures { IfSome result (λ place. IsFound self.now frame offset place) }
    {
        let last = self.last[chain(frame, offset)] as usize;
        if last == 0 {
            return None;
        }
        let place = last - 1;
        let word = self.words[place];
        if word.frame == frame && word.offset == offset {
            return Some(place);
        }
        None
    }

    // whether no word of the chain of this frame and offset has been written
    #[inline(always)]
    fn has_none_in_chain(&self, frame: u32, offset: u32) -> bool
        ensures { result ≡ true → list_any (is_at frame offset) self.now ≡ false }
    {
        // that the words are indexed is known of what is kept of them
        let _count = self.words.len();
        self.last[chain(frame, offset)] == 0
    }

    // one word more
    fn add(&mut self, word: Written)
        requires few { length self.old < 1024 }
        requires word { IsAlignedWord word }
        requires other { list_any (is_at word.frame word.offset) self.old ≡ false }
        ensures { self.new ≡ self.old ++ word ∷ [] }
    {
        let chain = chain(word.frame, word.offset);
        self.before.push_reserved(self.last[chain]);
        self.words.push_reserved(word);
        self.last[chain] = self.words.len() as u16;
        self.marks[(word.frame % 256) as usize] = true;
    }

    // the low bytes of a value go into the word at this place, from this byte on
    fn change(&mut self, place: usize, first: u32, size: Size, value: u32)
        requires within { first + width size ≤ 4 }
        requires place { place < length self.old }
        ensures { (x : word_type) → slice_get self.old place ≡ Some x
            → self.new ≡ slice_set self.old place
            (with_bytes_from first (bytes_of (width size) value) x) }
    {
        self.words[place] = with_value(self.words[place], first, size, value);
    }

    // the same as `store` where the word hasn't been written
    #[inline]
    fn store_new(&mut self, frame: u32, offset: u32, size: Size, value: u32) -> bool
        requires within { offset < 4096 }
        requires aligned { offset % width size ≡ 0 }
        requires other { list_any (is_at frame (offset / 4 * 4)) self.old ≡ false }
        ensures words { with_stored self.old frame offset (bytes_of (width size) value)
            ≡ (if result then Some self.new else None) }
        ensures put { result ≡ true → (bytes : List ℕ) → words_put bytes self.new
            ≡ written (words_put bytes self.old) (4096 * frame + offset)
            (bytes_of (width size) value) }
        ensures same { result ≡ false → self.new ≡ self.old }
    {
        if self.words.len() == MOST {
            return false;
        }
        let word = Written {
            frame,
            offset: offset / 4 * 4,
            mask: 0,
            value: 0,
        };
        self.add(with_value(word, offset % 4, size, value));
        true
    }

    /// Stores the low bytes of a value at an offset in a frame: into the word that has been written
    /// there, or into a new one. False exactly where that would be the 1,025th, and nothing is
    /// changed then. What the words make of memory afterwards is what they made of it before, with
    /// these bytes stored.
    #[inline]
    pub fn store(&mut self, frame: u32, offset: u32, size: Size, value: u32) -> bool
        requires within { offset < 4096 }
        requires aligned { offset % width size ≡ 0 }
        ensures words { with_stored self.old frame offset (bytes_of (width size) value)
            ≡ (if result then Some self.new else None) }
        ensures put { result ≡ true → (bytes : List ℕ) → words_put bytes self.new
            ≡ written (words_put bytes self.old) (4096 * frame + offset)
            (bytes_of (width size) value) }
        ensures same { result ≡ false → self.new ≡ self.old }
    {
        // that the words are indexed is known of what is kept of them
        let _count = self.words.len();
        let aligned = offset / 4 * 4;
        match self.find(frame, aligned) {
            Some(place) => {
                self.change(place, offset % 4, size, value);
                true
            }
            None => self.store_new(frame, offset, size, value),
        }
    }

    /// Stores as `store` does where it takes no search: the word is the last of its chain, or no
    /// word of its chain has been written and there is room. False, and nothing is changed, where
    /// it takes one.
    #[inline(always)]
    pub fn store_quickly(&mut self, frame: u32, offset: u32, size: Size, value: u32) -> bool
        requires within { offset < 4096 }
        requires aligned { offset % width size ≡ 0 }
        ensures words { result ≡ true
            → with_stored self.old frame offset (bytes_of (width size) value) ≡ Some self.new }
        ensures put { result ≡ true → (bytes : List ℕ) → words_put bytes self.new
            ≡ written (words_put bytes self.old) (4096 * frame + offset)
            (bytes_of (width size) value) }
        ensures same { result ≡ false → self.new ≡ self.old }
    {
        // that the words are indexed is known of what is kept of them
        let _count = self.words.len();
        let aligned = offset / 4 * 4;
        if self.has_none_in_chain(frame, aligned) {
            return self.store_new(frame, offset, size, value);
        }
        match self.find_last(frame, aligned) {
            Some(place) => {
                self.change(place, offset % 4, size, value);
                true
            }
            None => false,
        }
    }

    /// The number at an offset in a frame where the thread has written all four bytes of it, and
    /// the word is found at first sight: what it reads there, whatever memory has.
    #[inline(always)]
    pub fn whole(&self, frame: u32, offset: u32) -> Option<u32>
        requires within { offset < 4096 }
        requires aligned { offset % 4 ≡ 0 }
        ensures { IfSome result (λ number. (bytes : List ℕ)
            → 4096 * frame + offset + 4 ≤ length bytes
            → take 4 (drop (4096 * frame + offset) (words_put bytes self.now))
            ≡ bytes_of 4 number) }
    {
        match self.find_last(frame, offset) {
            Some(place) => {
                let word = self.words[place];
                if word.mask == WHOLE {
                    Some(word.value)
                } else {
                    None
                }
            }
            None => None,
        }
    }

    /// The four bytes at an offset in a frame as the thread sees them: each that was written, and
    /// else that of `old`, which memory has there.
    #[inline]
    pub fn over(&self, frame: u32, offset: u32, old: [u8; 4]) -> [u8; 4]
        requires within { offset < 4096 }
        requires aligned { offset % 4 ≡ 0 }
        ensures { (bytes : List ℕ) → old ≡ take 4 (drop (4096 * frame + offset) bytes)
            → result ≡ take 4 (drop (4096 * frame + offset) (words_put bytes self.now)) }
    {
        match self.find(frame, offset) {
            Some(place) => bytes_over(old, self.words[place]),
            None => old,
        }
    }
}
