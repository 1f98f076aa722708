// Pages of code that are known.
ghost use Rattle.std.specs.Prelude.{ℕ, ◌≡◌, ◌+◌, ◌%◌, ◌<◌, ◌≤◌, ◌⊎◌, true, false, [], IfOk, IfSome};
ghost use Rattle.std.specs.Prelude.{Some, None, option_map, length, slice_get, slice_set};
ghost use Rattle.std.specs.Prelude.{replicate, unwrap_or, if◌then◌else◌};
ghost use Rattle.std.specs.Vec.{vec_len, vec_capacity};
ghost use Rattle.dos_world.specs.Bytes.{zero_page};
ghost use Rattle.code_pages.specs.Lines.{IsKnownPage, AreLinesKept, AreRuns, AreRunsCounted};
ghost use Rattle.code_pages.specs.Lines.{bytes_of_page, bytes_of_pages, AreKnownPages, IsStartIn};
ghost use Rattle.code_pages.specs.Lines.{IsLiveAt, AreSameBelow, AreSameBut, AreStartsFrom};
ghost use Rattle.code_pages.specs.Lines.{IsStaleAt, starts_of_slot, start_in, slot_at};
ghost use Rattle.code_pages.specs.Lines.{page_of_slot, runs_of, unlearnt, with_block};
ghost use Rattle.code_pages.specs.Lines.{AreStartsOf, Known, page_bytes_at};

use crate::Line;
use crate::learning::Code;
use std::alloc::{AllocError, Global};
use std::marker::Model;

/// How many pages are known at most, each at a place of its own.
pub const PLACES: usize = 256;

/// How many lines there are at most, of all pages.
const MOST: usize = 16384;

/// Pages of code, each at a place, with the lines of all of them.
#[derive(Drop)]
pub struct CodePages {
    lines: Vec<Line>,
    pages: Vec<Option<Code>>,
    hints: [u32; 64],
}

impl Model for CodePages {
    ghost use Rattle.std.specs.Prelude.{◌≤◌, ◌<◌, length};
    ghost use Rattle.std.specs.Vec.{vec_capacity};
    ghost use Rattle.code_pages.specs.Lines.{Known, AreKnownPages};

    ghost Value = { Known };

    ghost view = { λ k. record { lines = k.lines.items; pages = k.pages.items } };

    ghost invariant = { λ k.
        AreKnownPages (record { lines = k.lines.items; pages = k.pages.items })
        × (0 < length k.pages.items → 16384 ≤ vec_capacity k.lines) };
}

// no page at any place
fn no_pages(alloc: Global) -> Result<Vec<Option<Code>>, AllocError>
    ensures { IfOk result (λ pages. pages.items ≡ replicate 256 None) }
{
    let mut pages = Vec::with_capacity(alloc, PLACES)?;
    for _ in 0..PLACES {
        pages.push_reserved(None);
    }
    Ok(pages)
}

// a slot has a page from now on, zeros where it had none; false where there is no memory
#[tactic(auto, unfolding(dos_world::specs::Bytes::zero_page))]
fn have_page(slot: &mut Option<Code>, alloc: Global) -> bool
    ensures there { result ≡ true → slot.new ≡ Some (page_of_slot slot.old) }
    ensures same { result ≡ false → slot.new ≡ slot.old }
{
    if let Some(_) = slot {
        return true;
    }
    match Code::new(alloc) {
        Ok(code) => {
            *slot = Some(code);
            true
        }
        Err(_) => false,
    }
}

// a block of the page in a slot, and the halfword behind it, are those of these bytes from now on,
// and the last halfword that was another is noted; false, with nothing changed, where there is no
// memory
#[inline]
fn check_in(
    slot: &mut Option<Code>,
    lines: &mut Vec<Line>,
    block: usize,
    bytes: &[u8],
    last: &mut usize,
) -> bool
    requires block { block < 16 }
    requires page { length bytes.now ≡ 4096 }
    requires known { IfSome slot.old (λ page. IsKnownPage lines.old.items page) }
    requires last { last.old < 2048 }
    ensures known { IfSome slot.new (λ page. IsKnownPage lines.new.items page) }
    ensures lines { AreLinesKept lines.old.items lines.new.items }
    ensures bytes { result ≡ true → bytes_of_page slot.new
        ≡ Some (with_block (unwrap_or (bytes_of_page slot.old) zero_page) block bytes.now) }
    ensures starts { (n : ℕ) → AreStartsFrom n (starts_of_slot slot.old)
        (starts_of_slot slot.new) }
    ensures same { result ≡ false → (slot.new ≡ slot.old) × (lines.new.items ≡ lines.old.items) }
    ensures capacity { vec_capacity lines.new ≡ vec_capacity lines.old }
    ensures last { last.new < 2048 }
{
    let alloc = *lines.allocator();
    if !have_page(slot, alloc) {
        return false;
    }
    match slot {
        Some(code) => {
            code.check(lines, block, bytes, last);
            true
        }
        None => false,
    }
}

// the run from an offset on of the page in a slot, whose code isn't known, is known from now on:
// its first line, or 0
fn learn_in(slot: &mut Option<Code>, lines: &mut Vec<Line>, offset: u32) -> usize
    requires offset { offset < 4096 }
    requires even { offset % 2 ≡ 0 }
    requires some { 0 < vec_len lines.old }
    requires few { vec_len lines.old + 130 ≤ 16384 }
    requires room { 16384 ≤ vec_capacity lines.old }
    requires known { IfSome slot.old (λ page. IsKnownPage lines.old.items page) }
    requires unknown { start_in slot.old offset ≡ 0 }
    requires runs { AreRuns lines.old.items }
    requires counted { AreRunsCounted lines.old.items }
    ensures known { IfSome slot.new (λ page. IsKnownPage lines.new.items page) }
    ensures bytes { bytes_of_page slot.new ≡ bytes_of_page slot.old }
    ensures runs { AreRuns lines.new.items }
    ensures counted { AreRunsCounted lines.new.items }
    ensures below { AreSameBelow (vec_len lines.old) lines.old.items lines.new.items }
    ensures starts { AreStartsFrom (vec_len lines.old) (starts_of_slot slot.old)
        (starts_of_slot slot.new) }
    ensures more { vec_len lines.old ≤ vec_len lines.new }
    ensures few { vec_len lines.new ≤ 16384 }
    ensures capacity { vec_capacity lines.new ≡ vec_capacity lines.old }
    ensures start { (result ≡ 0) ⊎ (start_in slot.new offset ≡ result) }
    ensures live { (result ≡ 0) ⊎ IsLiveAt lines.new.items result }
{
    match slot {
        Some(code) => code.learn(lines, offset),
        None => 0,
    }
}

// the stale line at which the code at an offset of the page in a slot begins is known again in its
// place; where it can't be, no code begins there any more
fn relearn_in(slot: &mut Option<Code>, lines: &mut Vec<Line>, offset: u32, at: usize) -> bool
    requires offset { offset < 4096 }
    requires even { offset % 2 ≡ 0 }
    requires begins { start_in slot.old offset ≡ at }
    requires later { 0 < at }
    requires stale { IsStaleAt lines.old.items at }
    requires known { IfSome slot.old (λ page. IsKnownPage lines.old.items page) }
    requires runs { AreRuns lines.old.items }
    requires counted { AreRunsCounted lines.old.items }
    ensures known { IfSome slot.new (λ page. IsKnownPage lines.new.items page) }
    ensures bytes { bytes_of_page slot.new ≡ bytes_of_page slot.old }
    ensures runs { AreRuns lines.new.items }
    ensures counts { runs_of lines.new.items ≡ runs_of lines.old.items }
    ensures others { AreSameBut at lines.old.items lines.new.items }
    ensures starts { (n : ℕ) → AreStartsFrom n (starts_of_slot slot.old)
        (starts_of_slot slot.new) }
    ensures start { result ≡ true → start_in slot.new offset ≡ at }
    ensures live { result ≡ true → IsLiveAt lines.new.items at }
    ensures clear { result ≡ false → start_in slot.new offset ≡ 0 }
    ensures capacity { vec_capacity lines.new ≡ vec_capacity lines.old }
{
    match slot {
        Some(code) => {
            if code.relearn(lines, offset, at) {
                return true;
            }
            code.clear(offset);
            false
        }
        None => false,
    }
}

// no line of the page in a slot is known
fn forget_in(slot: &mut Option<Code>)
    ensures { slot.new ≡ option_map unlearnt slot.old }
{
    if let Some(code) = slot {
        code.forget();
    }
}

// no line of any page is known
fn forget_all(pages: &mut Vec<Option<Code>>)
    ensures count { vec_len pages.new ≡ vec_len pages.old }
    ensures each { (place : ℕ) → slice_get pages.new.items place
        ≡ option_map (λ slot. option_map unlearnt slot) (slice_get pages.old.items place) }
{
    for place in 0..pages.len() {
        forget_in(&mut pages[place]);
    }
}

/// The line of the code at an offset of a page of which this is, for each halfword, the line of the
/// code that begins there; 0 where none is known.
#[inline(always)]
pub fn line_from(starts: &[u16; 2048], offset: u32) -> usize
    requires { offset < 4096 }
    ensures { (known : Known) (place : ℕ) → AreStartsOf known place starts.now
        → (result ≡ 0) ⊎ IsStartIn known place offset result }
{
    starts[(offset / 2) as usize] as usize
}

impl CodePages {
    /// No page, with room for all.
    pub fn reserve(alloc: Global) -> Result<CodePages, AllocError>
        ensures { IfOk result (λ known. known.pages ≡ replicate 256 None) }
    {
        let mut lines = Vec::with_capacity(alloc, MOST)?;
        lines.push_reserved(Line::end(0));
        Ok(CodePages {
            lines,
            pages: no_pages(alloc)?,
            hints: [0; 64],
        })
    }

    /// No page, and no place for one.
    pub fn empty(alloc: Global) -> CodePages
        ensures { result.pages ≡ [] }
    {
        CodePages {
            lines: Vec::new(alloc),
            pages: Vec::new(alloc),
            hints: [0; 64],
        }
    }

    /// The numbers that are kept beside the pages.
    pub fn hints(&self) -> [u32; 64] {
        self.hints
    }

    /// Other numbers beside the pages.
    pub fn keep_hints(&mut self, hints: [u32; 64])
        ensures { self.new ≡ self.old }
    {
        self.hints = hints;
    }

    /// A block of 256 bytes of the page at a place, and the halfword behind it, are those of these
    /// bytes from now on. False, with nothing changed, where there is no such place, or no memory.
    /// Where some were others, the code is known again that begins at the last changed halfword or
    /// the one before it, as far as it was known: mostly no more than one instruction is another.
    #[inline(never)]
    pub fn check(&mut self, place: usize, block: usize, bytes: &[u8]) -> bool
        requires block { block < 16 }
        requires page { length bytes.now ≡ 4096 }
        ensures pages { bytes_of_pages self.new ≡ (if result
            then slice_set (bytes_of_pages self.old) place
            (Some (with_block (page_bytes_at self.old place) block bytes.now))
            else bytes_of_pages self.old) }
        ensures there { result ≡ true → place < length self.old.pages }
        ensures same { result ≡ false → self.new ≡ self.old }
        ensures known { AreKnownPages self.old }
    {
        let mut last = 128 * block;
        if !self.check_block(place, block, bytes, &mut last) {
            return false;
        }
        self.know_again(place, last.saturating_sub(1));
        self.know_again(place, last);
        true
    }

    // the same, but that code which has changed is stale; the last halfword of it is noted
    #[inline(always)]
    fn check_block(&mut self, place: usize, block: usize, bytes: &[u8], last: &mut usize) -> bool
        requires block { block < 16 }
        requires page { length bytes.now ≡ 4096 }
        requires last { last.old < 2048 }
        ensures pages { bytes_of_pages self.new ≡ (if result
            then slice_set (bytes_of_pages self.old) place
            (Some (with_block (page_bytes_at self.old place) block bytes.now))
            else bytes_of_pages self.old) }
        ensures there { result ≡ true → place < length self.old.pages }
        ensures same { result ≡ false → self.new ≡ self.old }
        ensures known { AreKnownPages self.old }
        ensures last { last.new < 2048 }
    {
        if place >= self.pages.len() {
            return false;
        }
        check_in(&mut self.pages[place], &mut self.lines, block, bytes, last)
    }

    // the code that begins at a halfword is known again where its line is stale
    fn know_again(&mut self, place: usize, half: usize)
        requires { half < 2048 }
        ensures { bytes_of_pages self.new ≡ bytes_of_pages self.old }
    {
        let offset = (half + half) as u32;
        let at = self.line_at(place, offset);
        if at == 0 {
            return;
        }
        if self.is_live(at) {
            return;
        }
        let _known = self.renew(place, offset, at);
    }

    /// The lines.
    #[inline(always)]
    pub fn lines(&self) -> &[Line]
        ensures lines { result.now ≡ self.now.lines }
        ensures known { AreKnownPages self.now }
    {
        self.lines.as_slice()
    }

    /// For each halfword of the page at a place the line of the code that begins there, which may
    /// be stale, and 0 for none. None where no page is known there.
    #[inline(always)]
    pub fn starts(&self, place: usize) -> Option<&[u16; 2048]>
        ensures { IfSome result (λ starts. AreStartsOf self.now place starts.now) }
    {
        if place >= self.pages.len() {
            return None;
        }
        match &self.pages[place] {
            Some(code) => Some(code.starts()),
            None => None,
        }
    }

    /// The line of the code at an offset of the page at a place, or 0 where none is known. It may
    /// be stale.
    #[inline(always)]
    fn line_at(&self, place: usize, offset: u32) -> usize
        requires { offset < 4096 }
        ensures start { (result ≡ 0) ⊎ IsStartIn self.now place offset result }
        ensures value { result ≡ start_in (slot_at self.now place) offset }
        ensures within { 0 < result → result < length self.now.lines }
    {
        if place >= self.pages.len() {
            return 0;
        }
        match &self.pages[place] {
            Some(code) => code.start_at(offset),
            None => 0,
        }
    }

    /// The same, learnt where it isn't known or stale; 0 where there is no page, or where the code
    /// doesn't lie in it.
    #[inline]
    pub fn line(&mut self, place: usize, offset: u32) -> usize
        requires offset { offset < 4096 }
        requires even { offset % 2 ≡ 0 }
        ensures pages { bytes_of_pages self.new ≡ bytes_of_pages self.old }
        ensures line { (result ≡ 0) ⊎ IsStartIn self.new place offset result }
        ensures live { (result ≡ 0) ⊎ IsLiveAt self.new.lines result }
    {
        let at = self.line_at(place, offset);
        if at == 0 {
            return self.learn(place, offset);
        }
        if self.is_live(at) {
            return at;
        }
        self.learn_again(place, offset, at)
    }

    // whether a line isn't stale
    #[inline(always)]
    fn is_live(&self, at: usize) -> bool
        requires { at < length self.now.lines }
        ensures live { result ≡ true → IsLiveAt self.now.lines at }
        ensures stale { result ≡ false → IsStaleAt self.now.lines at }
    {
        let line = self.lines[at];
        if line.size == 0 {
            return false;
        }
        true
    }

    // the line of a code that isn't known, learnt
    #[cold]
    #[inline(never)]
    fn learn(&mut self, place: usize, offset: u32) -> usize
        requires offset { offset < 4096 }
        requires even { offset % 2 ≡ 0 }
        requires unknown { start_in (slot_at self.old place) offset ≡ 0 }
        ensures pages { bytes_of_pages self.new ≡ bytes_of_pages self.old }
        ensures line { (result ≡ 0) ⊎ IsStartIn self.new place offset result }
        ensures live { (result ≡ 0) ⊎ IsLiveAt self.new.lines result }
    {
        if place >= self.pages.len() {
            return 0;
        }
        self.make_room();
        learn_in(&mut self.pages[place], &mut self.lines, offset)
    }

    // the stale line at which a code begins, learnt again in its place; false where it can't be:
    // the code isn't known then
    fn renew(&mut self, place: usize, offset: u32, at: usize) -> bool
        requires offset { offset < 4096 }
        requires even { offset % 2 ≡ 0 }
        requires later { 0 < at }
        requires begins { start_in (slot_at self.old place) offset ≡ at }
        requires stale { IsStaleAt self.old.lines at }
        ensures pages { bytes_of_pages self.new ≡ bytes_of_pages self.old }
        ensures line { result ≡ true → IsStartIn self.new place offset at }
        ensures live { result ≡ true → IsLiveAt self.new.lines at }
        ensures unknown { result ≡ false → start_in (slot_at self.new place) offset ≡ 0 }
    {
        relearn_in(&mut self.pages[place], &mut self.lines, offset, at)
    }

    // the stale line at which a code begins, learnt again in its place, or else as a new one
    #[cold]
    #[inline(never)]
    fn learn_again(&mut self, place: usize, offset: u32, at: usize) -> usize
        requires offset { offset < 4096 }
        requires even { offset % 2 ≡ 0 }
        requires later { 0 < at }
        requires begins { start_in (slot_at self.old place) offset ≡ at }
        requires stale { IsStaleAt self.old.lines at }
        ensures pages { bytes_of_pages self.new ≡ bytes_of_pages self.old }
        ensures line { (result ≡ 0) ⊎ IsStartIn self.new place offset result }
        ensures live { (result ≡ 0) ⊎ IsLiveAt self.new.lines result }
    {
        if self.renew(place, offset, at) {
            return at;
        }
        self.learn(place, offset)
    }

    // there is room for a run from now on; where there was none all lines are forgotten
    fn make_room(&mut self)
        ensures bytes { bytes_of_pages self.new ≡ bytes_of_pages self.old }
        ensures places { length self.new.pages ≡ length self.old.pages }
        ensures room { length self.new.lines + 130 ≤ 16384 }
        ensures unknown { (place offset : ℕ) → start_in (slot_at self.old place) offset ≡ 0
            → start_in (slot_at self.new place) offset ≡ 0 }
    {
        if self.lines.len() + 130 <= MOST {
            return;
        }
        forget_all(&mut self.pages);
        self.lines.truncate(1);
    }
}
