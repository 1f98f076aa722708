// The frames as a phase began, and the words that a thread has written over them.
ghost use Rattle.std.specs.Prelude.{◌≡◌, ◌+◌, ◌*◌, ◌%◌, ◌^◌, ◌<◌, ◌≤◌, ℕ, List, Some, None, true};
ghost use Rattle.std.specs.Prelude.{false, if◌then◌else◌, take, drop, IfSome, slice_get};
ghost use Rattle.dos_world.specs.Reach.{bytes_of, width, written};
ghost use Rattle.dos_world.specs.declared.Size.TheVariants.{Word};
ghost use Rattle.page_store.specs.Store.{AreHome, joined, number_at, whole};
ghost use Rattle.code_pages.specs.Lines.{AreSameIn};
ghost use Rattle.written_words.specs.Words.{with_stored, words_put};
ghost use Rattle.quantum_run.specs.Buffering.{pages_read};
ghost use Rattle.quantum_run.specs.Pages.{IsPageHere};

use crate::pages::Pages;
use code_pages::CodePages;
use dos_world::{Owner, Size};
use page_store::{Frames, Page};
use written_words::WrittenWords;

/// The frames, all home, as a phase began, and the words that thread `tid` has written since. Each
/// frame in use is the thread's own; no word can be claimed.
#[derive(Drop)]
pub struct Buffered<'a> {
    pub frames: &'a Frames,
    pub words: WrittenWords,
    pub tid: u32,
    ghost home: { AreHome frames.now },
}

// the number of this size in a word, from a byte on
#[inline(always)]
fn number_in(word: [u8; 4], first: u32, size: Size) -> u32
    requires { first + width size ≤ 4 }
    ensures value { result ≡ number_at word first size }
    ensures range { result < 256 ^ width size }
{
    let at = first as usize;
    match size {
        Size::Byte => u32::from(word[at]),
        Size::Half => u32::from(u16::from_le_bytes([word[at], word[at + 1]])),
        Size::Word => u32::from_le_bytes(word),
    }
}

// the four bytes of a frame from an offset on
#[inline(always)]
fn window(frames: &Frames, frame: u32, offset: u32) -> [u8; 4]
    requires here { IsPageHere frames.now.pages frame }
    requires within { offset + 4 ≤ 4096 }
    ensures { result ≡ take 4 (drop (4096 * frame + offset) (joined frames.now.pages)) }
{
    let bytes = frames.lend(frame).bytes();
    let at = offset as usize;
    [bytes[at], bytes[at + 1], bytes[at + 2], bytes[at + 3]]
}

// the word of this number in a page is this one from now on
#[inline(always)]
fn put_word(page: &mut [u8; 4096], number: u32, word: [u8; 4])
    requires { number < 1024 }
    ensures { page.new ≡ written page.old (4 * number) word }
{
    let at = (4 * number) as usize;
    page[at..at + 4].copy_from_slice(&word);
}

// the same as the words' own, of a byte or a half or any; out of the loop, as the next two are,
// so that the loop's own values stay in registers
#[inline(never)]
fn store_part(words: &mut WrittenWords, frame: u32, offset: u32, size: Size, value: u32) -> bool
    requires within { offset < 4096 }
    requires aligned { offset % width size ≡ 0 }
    ensures words { with_stored words.old frame offset (bytes_of (width size) value)
        ≡ (if result then Some words.new else None) }
    ensures put { result ≡ true → (bytes : List ℕ) → words_put bytes words.new
        ≡ written (words_put bytes words.old) (4096 * frame + offset)
        (bytes_of (width size) value) }
    ensures same { result ≡ false → words.new ≡ words.old }
{
    words.store(frame, offset, size, value)
}

// the same of the word of this number in the frame
#[inline(never)]
fn store_new_word(words: &mut WrittenWords, frame: u32, number: u32, value: u32) -> bool
    requires { number < 1024 }
    ensures words { with_stored words.old frame (4 * number) (bytes_of 4 value)
        ≡ (if result then Some words.new else None) }
    ensures put { result ≡ true → (bytes : List ℕ) → words_put bytes words.new
        ≡ written (words_put bytes words.old) (4096 * frame + 4 * number) (bytes_of 4 value) }
    ensures same { result ≡ false → words.new ≡ words.old }
{
    words.store(frame, 4 * number, Size::Word, value)
}

// the same, without a search where it takes none
#[inline(never)]
fn store_word(words: &mut WrittenWords, frame: u32, number: u32, value: u32) -> bool
    requires { number < 1024 }
    ensures words { with_stored words.old frame (4 * number) (bytes_of 4 value)
        ≡ (if result then Some words.new else None) }
    ensures put { result ≡ true → (bytes : List ℕ) → words_put bytes words.new
        ≡ written (words_put bytes words.old) (4096 * frame + 4 * number) (bytes_of 4 value) }
    ensures same { result ≡ false → words.new ≡ words.old }
{
    if words.store_quickly(frame, 4 * number, Size::Word, value) {
        return true;
    }
    store_new_word(words, frame, number, value)
}

// the same of any size
#[inline(always)]
pub(crate) fn store(
    words: &mut WrittenWords,
    frame: u32,
    offset: u32,
    size: Size,
    value: u32,
) -> bool
    requires within { offset < 4096 }
    requires aligned { offset % width size ≡ 0 }
    ensures words { with_stored words.old frame offset (bytes_of (width size) value)
        ≡ (if result then Some words.new else None) }
    ensures put { result ≡ true → (bytes : List ℕ) → words_put bytes words.new
        ≡ written (words_put bytes words.old) (4096 * frame + offset)
        (bytes_of (width size) value) }
    ensures same { result ≡ false → words.new ≡ words.old }
{
    match size {
        Size::Word => store_word(words, frame, offset / 4, value),
        _ => store_part(words, frame, offset, size, value),
    }
}

impl<'a> Buffered<'a> {
    // the number at an aligned offset, by the words
    #[inline(always)]
    fn read_over(&self, frame: u32, offset: u32, size: Size) -> u32
        requires home { IsPageHere (pages_read self.now.frames.now.pages self.now.words) frame }
        requires within { offset + width size ≤ 4096 }
        requires aligned { offset % width size ≡ 0 }
        ensures value { result ≡ number_at
            (joined (pages_read self.now.frames.now.pages self.now.words))
            (4096 * frame + offset) size }
        ensures range { result < 256 ^ width size }
    {
        let aligned = offset / 4 * 4;
        let old = window(self.frames, frame, aligned);
        let word = self.words.over(frame, aligned, old);
        number_in(word, offset % 4, size)
    }

    // the same out of the loop
    #[inline(never)]
    fn read_part(&self, frame: u32, offset: u32, size: Size) -> u32
        requires home { IsPageHere (pages_read self.now.frames.now.pages self.now.words) frame }
        requires within { offset + width size ≤ 4096 }
        requires aligned { offset % width size ≡ 0 }
        ensures value { result ≡ number_at
            (joined (pages_read self.now.frames.now.pages self.now.words))
            (4096 * frame + offset) size }
        ensures range { result < 256 ^ width size }
    {
        self.read_over(frame, offset, size)
    }

    // the word of this number in the frame
    #[inline(never)]
    fn read_other_word(&self, frame: u32, number: u32) -> u32
        requires home { IsPageHere (pages_read self.now.frames.now.pages self.now.words) frame }
        requires within { number < 1024 }
        ensures { result ≡ number_at
            (joined (pages_read self.now.frames.now.pages self.now.words))
            (4096 * frame + 4 * number) Word }
    {
        self.read_over(frame, 4 * number, Size::Word)
    }

    // the same, without a search where it takes none
    #[inline(never)]
    fn read_word(&self, frame: u32, number: u32) -> u32
        requires home { IsPageHere (pages_read self.now.frames.now.pages self.now.words) frame }
        requires within { number < 1024 }
        ensures { result ≡ number_at
            (joined (pages_read self.now.frames.now.pages self.now.words))
            (4096 * frame + 4 * number) Word }
    {
        match self.words.whole(frame, 4 * number) {
            Some(value) => value,
            None => self.read_other_word(frame, number),
        }
    }

    // the frame's page, unless the thread may have written a word of it
    #[inline(always)]
    fn unwritten(&self, frame: u32) -> Option<&Page>
        requires { IsPageHere (pages_read self.now.frames.now.pages self.now.words) frame }
        ensures { IfSome result
            (λ page. slice_get (pages_read self.now.frames.now.pages self.now.words) frame
            ≡ Some (Some page.now)) }
    {
        if self.words.may_have(frame) {
            return None;
        }
        Some(self.frames.lend(frame))
    }

    // a page of which a block, and the word behind it, are the frame's as the thread reads it
    #[inline(never)]
    fn block_read(&self, frame: u32, block: usize) -> [u8; 4096]
        requires home { IsPageHere (pages_read self.now.frames.now.pages self.now.words) frame }
        requires block { block < 16 }
        ensures { (page : List ℕ)
            → slice_get (pages_read self.now.frames.now.pages self.now.words) frame
            ≡ Some (Some page)
            → AreSameIn (256 * block) (256 * block + 258) result (whole page) }
    {
        let mut bytes = [0; 4096];
        let first = 64 * block as u32;
        for number in first..(first + 65).min(1024) {
            let old = window(self.frames, frame, 4 * number);
            put_word(&mut bytes, number, self.words.over(frame, 4 * number, old));
        }
        bytes
    }

    // the number at an aligned offset of a frame of which the thread may have written a word
    #[inline(always)]
    fn read_written(&self, frame: u32, offset: u32, size: Size) -> u32
        requires home { IsPageHere (pages_read self.now.frames.now.pages self.now.words) frame }
        requires within { offset + width size ≤ 4096 }
        requires aligned { offset % width size ≡ 0 }
        ensures value { result ≡ number_at
            (joined (pages_read self.now.frames.now.pages self.now.words))
            (4096 * frame + offset) size }
        ensures range { result < 256 ^ width size }
    {
        match size {
            Size::Word => self.read_word(frame, offset / 4),
            _ => self.read_part(frame, offset, size),
        }
    }
}

impl<'a> Pages for Buffered<'a> {
    ghost use Rattle.std.specs.Prelude.{ℕ, List, map};
    ghost use Rattle.std.proofs.Common.{sym};
    ghost use Rattle.flat_machine.specs.Buffered.{owner_for};
    ghost use Rattle.page_store.specs.Store.{Store, joined};
    ghost use Rattle.written_words.specs.declared.Written.{Written};
    ghost use Rattle.quantum_run.specs.Buffering.{buffer_places, pages_read};
    ghost use Rattle.quantum_run.specs.Pages.{is_here};
    ghost use Rattle.quantum_run.specs.Reading.{read-joined};

    ghost Fixed = { Store × ℕ };

    ghost State = { List Written };

    ghost fixed = { λ b. (b.frames.now, b.tid) };

    ghost state = { λ b. b.words };

    ghost places = { λ fixed. buffer_places (joined fixed.0.pages) };

    ghost owners = { λ b. map (owner_for b.tid) b.frames.now.owners };

    ghost pages = { λ b. pages_read b.frames.now.pages b.words };

    ghost is_own = { λ b frame. is_here b.frames.now.pages frame };

    ghost bytes_are = { λ b. sym (read-joined b.frames.now.pages b.words) };

    // each frame in use is the thread's own
    #[inline]
    fn owner(&self, frame: u32) -> Owner {
        match self.frames.owner(frame) {
            Owner::Free => Owner::Free,
            _ => Owner::Of(self.tid),
        }
    }

    #[inline(always)]
    fn claims(&self) -> bool {
        false
    }

    #[inline]
    fn read(&self, frame: u32, offset: u32, size: Size) -> u32 {
        match self.unwritten(frame) {
            Some(page) => page.read(offset, size),
            None => self.read_written(frame, offset, size),
        }
    }

    #[inline]
    fn check(&self, frame: u32, code: &mut CodePages, place: usize, block: usize) -> bool {
        match self.unwritten(frame) {
            Some(page) => code.check(place, block, page.bytes()),
            None => code.check(place, block, &self.block_read(frame, block)),
        }
    }

    // into the thread's words
    #[inline]
    fn write(&mut self, frame: u32, offset: u32, size: Size, value: u32) -> bool {
        store(&mut self.words, frame, offset, size, value)
    }
}
