// What is learnt of a page's code.
ghost use Rattle.std.specs.Prelude.{ℕ, ◌≡◌, ◌+◌, ◌*◌, ◌-◌, ◌/◌, ◌%◌, ◌<◌, ◌≤◌, ◌⊎◌, true, false};
ghost use Rattle.std.specs.Prelude.{IfSome, IfOk, MatchOption, length, slice_set, slice_index};
ghost use Rattle.std.specs.Prelude.{replicate, ◌∷◌, []};
ghost use Rattle.std.specs.Int.{from_le_bytes, w32};
ghost use Rattle.std.specs.Vec.{vec_len, vec_capacity};
ghost use Rattle.code_pages.specs.Codes.{IsCodeIn};
ghost use Rattle.code_pages.specs.Lines.{CodePage, start_at, unlearnt, IsKnownPage, AreLinesKept};
ghost use Rattle.code_pages.specs.Lines.{AreRuns, AreSameBelow, AreRunsCountedFrom, IsMarked};
ghost use Rattle.code_pages.specs.Lines.{LastEnds, AreSameIn, AreSameBut, IsStaleAt, IsLiveAt};
ghost use Rattle.code_pages.specs.Lines.{AreRunsCounted, IsUnlearnt, IsWrittenIn, AreFreshFrom};
ghost use Rattle.code_pages.specs.Lines.{AreStartsFrom, runs_of, AreSameCodes, with_block};
ghost use Rattle.code_pages.specs.Lines.{IsBehind};
ghost use Rattle.code_pages.specs.Kinds.{ends};

use crate::Line;
use std::alloc::{AllocError, Global};
use std::marker::Model;

/// A page's bytes, and for each halfword of it which line's code begins there, 0 for none.
#[derive(Drop)]
pub(crate) struct Code {
    bytes: Box<[u8; 4096]>,
    starts: Box<[u16; 2048]>,
}

impl Model for Code {
    ghost use Rattle.code_pages.specs.Lines.{CodePage};

    ghost Value = { CodePage };

    ghost view = { λ c. record { bytes = c.bytes.value; starts = c.starts.value } };
}

// whether any of so many bytes differs, all of them read
#[inline(always)]
fn differ(a: &[u8; 4096], b: &[u8], from: usize, count: usize) -> bool
    requires within { from + count ≤ 4096 }
    requires page { length b.now ≡ 4096 }
    ensures { result ≡ false → AreSameIn from (from + count) a.now b.now }
{
    let mut all = 0u8;
    for at in from..from + count {
        all |= a[at] ^ b[at];
    }
    all != 0
}

// the number of the four bytes from a place on
#[inline(always)]
fn four_at(bytes: &[u8], at: usize) -> u32
    requires { at + 4 ≤ length bytes.now }
    ensures { result ≡ from_le_bytes w32 (slice_index bytes.now at
        ∷ slice_index bytes.now (at + 1) ∷ slice_index bytes.now (at + 2)
        ∷ slice_index bytes.now (at + 3) ∷ []) }
{
    u32::from_le_bytes([bytes[at], bytes[at + 1], bytes[at + 2], bytes[at + 3]])
}

// whether any of four bytes differs
#[inline(always)]
fn four_differ(a: &[u8; 4096], b: &[u8], at: usize) -> bool
    requires within { at + 4 ≤ 4096 }
    requires page { length b.now ≡ 4096 }
    ensures { result ≡ false → AreSameIn at (at + 4) a.now b.now }
{
    four_at(a, at) != four_at(b, at)
}

// whether any of 8 bytes differs
#[inline(always)]
fn eight_differ(a: &[u8; 4096], b: &[u8], at: usize) -> bool
    requires within { at + 8 ≤ 4096 }
    requires page { length b.now ≡ 4096 }
    ensures { result ≡ false → AreSameIn at (at + 8) a.now b.now }
{
    if four_differ(a, b, at) {
        return true;
    }
    four_differ(a, b, at + 4)
}

// the line is stale from now on
fn make_stale(lines: &mut Vec<Line>, at: usize)
    requires within { at < vec_len lines.old }
    requires later { 0 < at }
    ensures kept { AreLinesKept lines.old.items lines.new.items }
    ensures stale { IsStaleAt lines.new.items at }
    ensures capacity { vec_capacity lines.new ≡ vec_capacity lines.old }
{
    lines[at] = lines[at].stale();
}

// whether a line goes on to the one behind a place, where it is to stand there
#[inline]
fn follows(lines: &Vec<Line>, at: usize, line: Line) -> bool
    requires within { 0 < line.run → at + 1 < vec_len lines.now }
    ensures { result ≡ true → ends line.kind ≡ false
        → (0 < line.run) × IsBehind lines.now.items at (line.offset + line.size) }
{
    if line.kind.ends() {
        return true;
    }
    if line.run == 0 {
        return false;
    }
    u32::from(lines[at + 1].offset) == u32::from(line.offset) + u32::from(line.size)
}

// each line from a place on knows how many stand behind it
fn count_runs(lines: &mut Vec<Line>, first: usize)
    requires few { vec_len lines.old ≤ 16384 }
    ensures count { vec_len lines.new ≡ vec_len lines.old }
    ensures below { AreSameBelow first lines.old.items lines.new.items }
    ensures codes { AreSameCodes lines.old.items lines.new.items }
    ensures counted { AreRunsCountedFrom first lines.new.items }
    ensures capacity { vec_capacity lines.new ≡ vec_capacity lines.old }
{
    let count = lines.len();
    for at in first..count {
        lines[at] = lines[at].with_run((count - at - 1) as u16);
    }
}

// no line of any halfword is known
fn no_starts() -> [u16; 2048]
    ensures { result ≡ replicate 2048 0 }
{
    [0; 2048]
}

fn reset(starts: &mut [u16; 2048])
    ensures { starts.new ≡ replicate 2048 0 }
{
    *starts = no_starts();
}

impl Code {
    /// A page of zeros, of which no line is known.
    pub fn new(alloc: Global) -> Result<Code, AllocError>
        ensures { IfOk result (λ code. code
            ≡ record { bytes = replicate 4096 0; starts = replicate 2048 0 }) }
    {
        Ok(Code {
            bytes: Box::new(alloc, [0; 4096])?,
            starts: Box::new(alloc, no_starts())?,
        })
    }

    /// The line of the code that begins at an even offset, 0 for none.
    #[inline(always)]
    pub fn start_at(&self, offset: u32) -> usize
        requires { offset < 4096 }
        ensures { result ≡ start_at self.now offset }
    {
        self.starts[(offset / 2) as usize] as usize
    }

    /// For each halfword the line of the code that begins there, 0 for none.
    #[inline(always)]
    pub fn starts(&self) -> &[u16; 2048]
        ensures { result.now ≡ self.now.starts }
    {
        &self.starts
    }

    /// No line of it is known any more.
    pub fn forget(&mut self)
        ensures { self.new ≡ unlearnt self.old }
    {
        reset(&mut self.starts);
    }

    // the line of the code that begins at a halfword is stale, if there is one
    fn unlearn(&self, lines: &mut Vec<Line>, half: usize)
        requires half { half < 2048 }
        requires known { IsKnownPage lines.old.items self.now }
        ensures kept { AreLinesKept lines.old.items lines.new.items }
        ensures stale { IsUnlearnt lines.new.items self.now half }
        ensures capacity { vec_capacity lines.new ≡ vec_capacity lines.old }
    {
        let at = self.starts[half] as usize;
        if at != 0 {
            make_stale(lines, at);
        }
    }

    // two bytes of a halfword
    fn put(&mut self, half: usize, low: u8, high: u8)
        requires half { half < 2048 }
        ensures bytes { self.new.bytes
            ≡ slice_set (slice_set self.old.bytes (2 * half) low) (2 * half + 1) high }
        ensures starts { self.new.starts ≡ self.old.starts }
    {
        self.bytes[2 * half] = low;
        self.bytes[2 * half + 1] = high;
    }

    // a halfword is what these bytes have there from now on; where that is another, it is noted
    fn change_half(&mut self, lines: &mut Vec<Line>, bytes: &[u8], half: usize, last: &mut usize)
        requires half { half < 2048 }
        requires page { length bytes.now ≡ 4096 }
        requires known { IsKnownPage lines.old.items self.old }
        requires last { last.old < 2048 }
        ensures known { IsKnownPage lines.new.items self.new }
        ensures lines { AreLinesKept lines.old.items lines.new.items }
        ensures bytes { IsWrittenIn (2 * half) (2 * half + 2) self.old.bytes self.new.bytes
            bytes.now }
        ensures starts { self.new.starts ≡ self.old.starts }
        ensures capacity { vec_capacity lines.new ≡ vec_capacity lines.old }
        ensures last { last.new < 2048 }
    {
        let low = bytes[2 * half];
        let high = bytes[2 * half + 1];
        if self.bytes[2 * half] == low && self.bytes[2 * half + 1] == high {
            return;
        }
        self.unlearn(lines, half);
        self.unlearn(lines, half.saturating_sub(1));
        self.put(half, low, high);
        *last = half;
    }

    // 8 bytes are what these bytes have there from now on; apart, so that who compares them before
    // loads them at once and not one by one
    #[inline(never)]
    fn change_eight(&mut self, lines: &mut Vec<Line>, bytes: &[u8], eight: usize, last: &mut usize)
        requires eight { eight < 512 }
        requires page { length bytes.now ≡ 4096 }
        requires known { IsKnownPage lines.old.items self.old }
        requires last { last.old < 2048 }
        ensures known { IsKnownPage lines.new.items self.new }
        ensures lines { AreLinesKept lines.old.items lines.new.items }
        ensures bytes { IsWrittenIn (8 * eight) (8 * eight + 8) self.old.bytes self.new.bytes
            bytes.now }
        ensures starts { self.new.starts ≡ self.old.starts }
        ensures capacity { vec_capacity lines.new ≡ vec_capacity lines.old }
        ensures last { last.new < 2048 }
    {
        for half in 4 * eight..4 * eight + 4 {
            self.change_half(lines, bytes, half, last);
        }
    }

    // the same, where they differ
    #[inline(always)]
    fn match_eight(&mut self, lines: &mut Vec<Line>, bytes: &[u8], eight: usize, last: &mut usize)
        requires eight { eight < 512 }
        requires page { length bytes.now ≡ 4096 }
        requires known { IsKnownPage lines.old.items self.old }
        requires last { last.old < 2048 }
        ensures known { IsKnownPage lines.new.items self.new }
        ensures lines { AreLinesKept lines.old.items lines.new.items }
        ensures bytes { IsWrittenIn (8 * eight) (8 * eight + 8) self.old.bytes self.new.bytes
            bytes.now }
        ensures starts { self.new.starts ≡ self.old.starts }
        ensures capacity { vec_capacity lines.new ≡ vec_capacity lines.old }
        ensures last { last.new < 2048 }
    {
        if eight_differ(&self.bytes, bytes, 8 * eight) {
            self.change_eight(lines, bytes, eight, last);
        }
    }

    // 64 bytes are what these bytes have there from now on
    #[inline(never)]
    fn change_part(&mut self, lines: &mut Vec<Line>, bytes: &[u8], part: usize, last: &mut usize)
        requires part { part < 64 }
        requires page { length bytes.now ≡ 4096 }
        requires known { IsKnownPage lines.old.items self.old }
        requires last { last.old < 2048 }
        ensures known { IsKnownPage lines.new.items self.new }
        ensures lines { AreLinesKept lines.old.items lines.new.items }
        ensures bytes { IsWrittenIn (64 * part) (64 * part + 64) self.old.bytes self.new.bytes
            bytes.now }
        ensures starts { self.new.starts ≡ self.old.starts }
        ensures capacity { vec_capacity lines.new ≡ vec_capacity lines.old }
        ensures last { last.new < 2048 }
    {
        for eight in 8 * part..8 * part + 8 {
            self.match_eight(lines, bytes, eight, last);
        }
    }

    // the same, where they differ
    #[inline(always)]
    fn match_part(&mut self, lines: &mut Vec<Line>, bytes: &[u8], part: usize, last: &mut usize)
        requires part { part < 64 }
        requires page { length bytes.now ≡ 4096 }
        requires known { IsKnownPage lines.old.items self.old }
        requires last { last.old < 2048 }
        ensures known { IsKnownPage lines.new.items self.new }
        ensures lines { AreLinesKept lines.old.items lines.new.items }
        ensures bytes { IsWrittenIn (64 * part) (64 * part + 64) self.old.bytes self.new.bytes
            bytes.now }
        ensures starts { self.new.starts ≡ self.old.starts }
        ensures capacity { vec_capacity lines.new ≡ vec_capacity lines.old }
        ensures last { last.new < 2048 }
    {
        if differ(&self.bytes, bytes, 64 * part, 64) {
            self.change_part(lines, bytes, part, last);
        }
    }

    // a block of 256 bytes is what these bytes have there from now on
    #[inline(always)]
    fn match_block(&mut self, lines: &mut Vec<Line>, bytes: &[u8], block: usize, last: &mut usize)
        requires block { block < 16 }
        requires page { length bytes.now ≡ 4096 }
        requires known { IsKnownPage lines.old.items self.old }
        requires last { last.old < 2048 }
        ensures known { IsKnownPage lines.new.items self.new }
        ensures lines { AreLinesKept lines.old.items lines.new.items }
        ensures bytes { IsWrittenIn (256 * block) (256 * block + 256) self.old.bytes
            self.new.bytes bytes.now }
        ensures starts { self.new.starts ≡ self.old.starts }
        ensures capacity { vec_capacity lines.new ≡ vec_capacity lines.old }
        ensures last { last.new < 2048 }
    {
        self.match_part(lines, bytes, 4 * block, last);
        self.match_part(lines, bytes, 4 * block + 1, last);
        self.match_part(lines, bytes, 4 * block + 2, last);
        self.match_part(lines, bytes, 4 * block + 3, last);
    }

    /// A block of 256 bytes, and the halfword behind it, which a word may lie in that begins in
    /// the block, are what these bytes have there from now on. The last halfword that was another
    /// is noted in `last`.
    #[inline]
    pub fn check(&mut self, lines: &mut Vec<Line>, block: usize, bytes: &[u8], last: &mut usize)
        requires block { block < 16 }
        requires page { length bytes.now ≡ 4096 }
        requires known { IsKnownPage lines.old.items self.old }
        requires last { last.old < 2048 }
        ensures known { IsKnownPage lines.new.items self.new }
        ensures lines { AreLinesKept lines.old.items lines.new.items }
        ensures bytes { self.new.bytes ≡ with_block self.old.bytes block bytes.now }
        ensures starts { self.new.starts ≡ self.old.starts }
        ensures capacity { vec_capacity lines.new ≡ vec_capacity lines.old }
        ensures last { last.new < 2048 }
    {
        self.match_block(lines, bytes, block, last);
        if block < 15 {
            self.change_half(lines, bytes, 128 * block + 128, last);
        }
    }

    // the number of two bytes, the lower first
    fn half_at(&self, half: usize) -> u32
        requires { half < 2048 }
        ensures value { result ≡ slice_index self.now.bytes (half + half)
            + 256 * slice_index self.now.bytes (half + half + 1) }
        ensures small { result < 65536 }
    {
        u32::from(self.bytes[half + half]) + 256 * u32::from(self.bytes[half + half + 1])
    }

    // the code that begins there, if all of it lies in the page
    fn code_at(&self, half: usize) -> Option<u32>
        requires { half < 2048 }
        ensures { IfSome result (λ code. IsCodeIn self.now.bytes (half + half) code) }
    {
        let low = self.half_at(half);
        if low % 4 != 3 {
            return Some(low);
        }
        if half == 2047 {
            return None;
        }
        Some(low + 65536 * self.half_at(half + 1))
    }

    // The code at a halfword is learnt in place of the end that is the last line, if there is one
    // in this block and it isn't known: where the run goes on.
    fn learn_one(&mut self, lines: &mut Vec<Line>, half: usize, block: usize) -> Option<usize>
        requires half { half ≤ 2048 }
        requires some { 1 < vec_len lines.old }
        requires few { vec_len lines.old < 16384 }
        requires room { vec_len lines.old < vec_capacity lines.old }
        requires known { IsKnownPage lines.old.items self.old }
        requires marked { IsMarked lines.old.items block half }
        ensures known { IsKnownPage lines.new.items self.new }
        ensures bytes { self.new.bytes ≡ self.old.bytes }
        ensures below { AreSameBelow (vec_len lines.old - 1) lines.old.items lines.new.items }
        ensures starts { AreStartsFrom (vec_len lines.old - 1) self.old.starts self.new.starts }
        ensures fresh { (first : ℕ) → AreFreshFrom first lines.old.items
            → AreFreshFrom first lines.new.items }
        ensures capacity { vec_capacity lines.new ≡ vec_capacity lines.old }
        ensures next { MatchOption result (vec_len lines.new ≡ vec_len lines.old)
            (λ next. (vec_len lines.new ≡ vec_len lines.old + 1) × (half < next)
            × (next ≤ 2048) × (half / 128 ≡ block) × (next ≤ half + 2)) }
        ensures goes { MatchOption result (LastEnds lines.new.items)
            (λ next. IsMarked lines.new.items block next) }
    {
        if half == 2048 {
            return None;
        }
        if half / 128 != block {
            return None;
        }
        if self.starts[half] != 0 {
            return None;
        }
        match self.code_at(half) {
            Some(code) => self.learn_code(lines, half, block, code),
            None => None,
        }
    }

    // the same, where this code stands there and isn't known
    fn learn_code(
        &mut self,
        lines: &mut Vec<Line>,
        half: usize,
        block: usize,
        code: u32,
    ) -> Option<usize>
        requires half { half < 2048 }
        requires block { half / 128 ≡ block }
        requires code { IsCodeIn self.old.bytes (half + half) code }
        requires unknown { slice_index self.old.starts half ≡ 0 }
        requires some { 1 < vec_len lines.old }
        requires few { vec_len lines.old < 16384 }
        requires room { vec_len lines.old < vec_capacity lines.old }
        requires known { IsKnownPage lines.old.items self.old }
        requires marked { IsMarked lines.old.items block half }
        ensures known { IsKnownPage lines.new.items self.new }
        ensures bytes { self.new.bytes ≡ self.old.bytes }
        ensures below { AreSameBelow (vec_len lines.old - 1) lines.old.items lines.new.items }
        ensures starts { AreStartsFrom (vec_len lines.old - 1) self.old.starts self.new.starts }
        ensures fresh { (first : ℕ) → AreFreshFrom first lines.old.items
            → AreFreshFrom first lines.new.items }
        ensures capacity { vec_capacity lines.new ≡ vec_capacity lines.old }
        ensures next { MatchOption result (vec_len lines.new ≡ vec_len lines.old)
            (λ next. (vec_len lines.new ≡ vec_len lines.old + 1) × (half < next)
            × (next ≤ 2048) × (half / 128 ≡ block) × (next ≤ half + 2)) }
        ensures goes { MatchOption result (LastEnds lines.new.items)
            (λ next. IsMarked lines.new.items block next) }
    {
        let line = Line::of(code, (half + half) as u16);
        let last = lines.len() - 1;
        self.starts[half] = last as u16;
        lines[last] = line;
        if line.kind.ends() {
            return None;
        }
        let next = half + (line.size / 2) as usize;
        lines.push_reserved(Line::end((next + next) as u16));
        Some(next)
    }

    // the run of a code that lies in the page and isn't known is known from now on: its first line
    fn learn_run(&mut self, lines: &mut Vec<Line>, offset: u32) -> usize
        requires offset { offset < 4096 }
        requires even { offset % 2 ≡ 0 }
        requires some { 0 < vec_len lines.old }
        requires few { vec_len lines.old + 130 ≤ 16384 }
        requires room { 16384 ≤ vec_capacity lines.old }
        requires known { IsKnownPage lines.old.items self.old }
        requires unknown { start_at self.old offset ≡ 0 }
        requires runs { AreRuns lines.old.items }
        requires counted { AreRunsCounted lines.old.items }
        ensures known { IsKnownPage lines.new.items self.new }
        ensures bytes { self.new.bytes ≡ self.old.bytes }
        ensures runs { AreRuns lines.new.items }
        ensures counted { AreRunsCounted lines.new.items }
        ensures below { AreSameBelow (vec_len lines.old) lines.old.items lines.new.items }
        ensures starts { AreStartsFrom (vec_len lines.old) self.old.starts self.new.starts }
        ensures more { vec_len lines.old ≤ vec_len lines.new }
        ensures few { vec_len lines.new ≤ 16384 }
        ensures capacity { vec_capacity lines.new ≡ vec_capacity lines.old }
        ensures start { start_at self.new offset ≡ result }
        ensures live { (result ≡ 0) ⊎ IsLiveAt lines.new.items result }
    {
        let first = lines.len();
        let mut half = (offset / 2) as usize;
        let block = half / 128;
        lines.push_reserved(Line::end(offset as u16));
        while let Some(next) = self.learn_one(lines, half, block) {
            half = next;
        }
        count_runs(lines, first);
        self.start_at(offset)
    }

    /// The run from an offset on, whose code isn't known, is known from now on: its first line, or
    /// 0 where its code doesn't lie in the page.
    pub fn learn(&mut self, lines: &mut Vec<Line>, offset: u32) -> usize
        requires offset { offset < 4096 }
        requires even { offset % 2 ≡ 0 }
        requires some { 0 < vec_len lines.old }
        requires few { vec_len lines.old + 130 ≤ 16384 }
        requires room { 16384 ≤ vec_capacity lines.old }
        requires known { IsKnownPage lines.old.items self.old }
        requires unknown { start_at self.old offset ≡ 0 }
        requires runs { AreRuns lines.old.items }
        requires counted { AreRunsCounted lines.old.items }
        ensures known { IsKnownPage lines.new.items self.new }
        ensures bytes { self.new.bytes ≡ self.old.bytes }
        ensures runs { AreRuns lines.new.items }
        ensures counted { AreRunsCounted lines.new.items }
        ensures below { AreSameBelow (vec_len lines.old) lines.old.items lines.new.items }
        ensures starts { AreStartsFrom (vec_len lines.old) self.old.starts self.new.starts }
        ensures more { vec_len lines.old ≤ vec_len lines.new }
        ensures few { vec_len lines.new ≤ 16384 }
        ensures capacity { vec_capacity lines.new ≡ vec_capacity lines.old }
        ensures start { (result ≡ 0) ⊎ (start_at self.new offset ≡ result) }
        ensures live { (result ≡ 0) ⊎ IsLiveAt lines.new.items result }
    {
        match self.code_at((offset / 2) as usize) {
            Some(_) => self.learn_run(lines, offset),
            None => 0,
        }
    }

    // the line of a code that has changed takes its old place, where the line behind it still
    // follows it
    fn renew(&self, lines: &mut Vec<Line>, offset: u32, at: usize, code: u32) -> bool
        requires offset { offset < 4096 }
        requires even { offset % 2 ≡ 0 }
        requires begins { start_at self.now offset ≡ at }
        requires later { 0 < at }
        requires code { IsCodeIn self.now.bytes (offset / 2 + offset / 2) code }
        requires known { IsKnownPage lines.old.items self.now }
        requires runs { AreRuns lines.old.items }
        requires counted { AreRunsCounted lines.old.items }
        ensures known { IsKnownPage lines.new.items self.now }
        ensures runs { AreRuns lines.new.items }
        ensures counts { runs_of lines.new.items ≡ runs_of lines.old.items }
        ensures others { AreSameBut at lines.old.items lines.new.items }
        ensures live { result ≡ true → IsLiveAt lines.new.items at }
        ensures same { result ≡ false → lines.new.items ≡ lines.old.items }
        ensures capacity { vec_capacity lines.new ≡ vec_capacity lines.old }
    {
        let line = Line::of(code, offset as u16).with_run(lines[at].run);
        if follows(lines, at, line) {
            lines[at] = line;
            return true;
        }
        false
    }

    /// The line of a code that has changed is known again in its place. False where it can't be,
    /// with nothing changed.
    #[inline(never)]
    pub fn relearn(&self, lines: &mut Vec<Line>, offset: u32, at: usize) -> bool
        requires offset { offset < 4096 }
        requires even { offset % 2 ≡ 0 }
        requires begins { start_at self.now offset ≡ at }
        requires later { 0 < at }
        requires known { IsKnownPage lines.old.items self.now }
        requires runs { AreRuns lines.old.items }
        requires counted { AreRunsCounted lines.old.items }
        ensures known { IsKnownPage lines.new.items self.now }
        ensures runs { AreRuns lines.new.items }
        ensures counts { runs_of lines.new.items ≡ runs_of lines.old.items }
        ensures others { AreSameBut at lines.old.items lines.new.items }
        ensures live { result ≡ true → IsLiveAt lines.new.items at }
        ensures same { result ≡ false → lines.new.items ≡ lines.old.items }
        ensures capacity { vec_capacity lines.new ≡ vec_capacity lines.old }
    {
        match self.code_at((offset / 2) as usize) {
            Some(code) => self.renew(lines, offset, at, code),
            None => false,
        }
    }

    /// No code is known to begin at an offset: none that isn't stale did.
    pub fn clear(&mut self, offset: u32)
        requires { offset < 4096 }
        ensures { self.new
            ≡ record self.old { starts = slice_set self.old.starts (offset / 2) 0 } }
    {
        self.starts[(offset / 2) as usize] = 0;
    }
}
