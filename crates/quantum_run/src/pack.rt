// A thread with the pages that are its own, apart from the frames.
ghost use Rattle.std.specs.Prelude.{◌≡◌, ◌<◌, ◌≤◌, ◌+◌, [], length};
ghost use Rattle.std.specs.Prelude.{true, false, Some, None, IfOk, MatchOption};
ghost use Rattle.page_store.specs.Store.{AreHome, joined, whole};
ghost use Rattle.written_words.specs.Words.{words_put};
ghost use Rattle.quantum_run.specs.Shows.{CanRun, Finished, LeadsTo, RanFor, RanOut, begun_pack};
ghost use Rattle.quantum_run.specs.Shows.{frames_of, has_words};
ghost use Rattle.quantum_run.specs.Packs.{HoldsNo, empty_pack, empty_writing, seen_by_view};
ghost use Rattle.quantum_run.specs.Packs.{seen_in, with_own_page, with_thread_of, without_words};
ghost use Rattle.quantum_run.specs.Packs.{view_of, words_held};

use crate::page_places::Places;
use crate::run::{run_lent, run_over, run_through};
use code_pages::CodePages;
use dos_world::Regs;
use page_store::{Frames, Page};
use proc_table::Table;
use std::alloc::{AllocError, Global};
use std::marker::Model;
use written_words::{Written, WrittenWords};

/// What is lent to each pack: the frames, and the table with the spaces.
#[derive(Drop)]
pub struct View<'a> {
    /// The frames: the pages that packs hold are away.
    pub frames: &'a Frames,
    /// The processes' spaces.
    pub table: &'a Table,
}

/// What the packs of a phase share, owned: it can be handed to threads that outlive the call.
#[derive(Drop)]
pub struct Shared {
    /// The frames: the pages that packs hold are away.
    pub frames: Frames,
    /// The processes' spaces.
    pub table: Table,
}

impl Shared {
    /// The view of it that each pack is lent.
    pub fn view(&self) -> View<'_>
        ensures { seen_by_view result ≡ seen_in self.now }
    {
        View {
            frames: &self.frames,
            table: &self.table,
        }
    }
}

/// A thread's number and its process's, its registers and budget, and the pages of frames that are
/// its own; or in the buffered scheme, in place of pages, the words that it has written. Contracts
/// see the record `Pack`, with the pages in the order in which they came.
#[derive(Drop)]
pub struct Pack {
    tid: u32,
    pid: u32,
    // apart, since packs are moved from place to place
    regs: Box<Regs>,
    left: u32,
    // by frame
    own: Places,
    held: Vec<u32>,
    // in the buffered scheme, where no page is held
    words: Option<WrittenWords>,
    // of no thread
    code: Box<CodePages>,
}

impl Model for Pack {
    ghost use Rattle.std.specs.Prelude.{length};
    ghost use Rattle.std.specs.Vec.{vec_capacity};
    ghost use Rattle.quantum_run.specs.Shows.{Pack as Value_of};
    ghost use Rattle.quantum_run.specs.Packs.{IsPacked, paired};

    ghost Value = { Value_of };

    ghost view = { λ k. record {
      thread = k.tid;
      process = k.pid;
      registers = k.regs.value;
      budget =
          k.left;
      pages = paired k.held.items k.own;
      room = length k.own;
      words = k.words;
    } };

    ghost invariant = { λ k. IsPacked k.held.items k.own (vec_capacity k.held) };
}

// no words any more, where there were some
fn forget(words: &mut Option<WrittenWords>)
    ensures { words.new ≡ without_words words.old }
{
    match words {
        Some(words) => words.clear(),
        None => {}
    }
}

impl Pack {
    /// No pages, with room for `frames` of them. All memory of the pack is taken here.
    pub fn reserve(alloc: Global, frames: u32) -> Result<Pack, AllocError>
        ensures { IfOk result (λ p. p ≡ empty_pack frames) }
    {
        Ok(Pack {
            tid: 0,
            pid: 0,
            regs: Box::new(alloc, Regs::new(0))?,
            left: 0,
            own: Places::reserve(alloc, frames)?,
            held: Vec::with_capacity(alloc, frames as usize)?,
            words: None,
            code: Box::new(alloc, CodePages::reserve(alloc)?)?,
        })
    }

    /// No words, with room for all that there may be, and none for pages: a pack of the buffered
    /// scheme. All memory of the pack is taken here.
    pub fn reserve_buffered(alloc: Global) -> Result<Pack, AllocError>
        ensures { IfOk result (λ p. p ≡ empty_writing) }
    {
        Ok(Pack {
            tid: 0,
            pid: 0,
            regs: Box::new(alloc, Regs::new(0))?,
            left: 0,
            own: Places::reserve(alloc, 0)?,
            held: Vec::new(alloc),
            words: Some(WrittenWords::reserve(alloc)?),
            code: Box::new(alloc, CodePages::reserve(alloc)?)?,
        })
    }

    /// Another thread, before its pages come; it has written nothing.
    pub fn fill(&mut self, tid: u32, pid: u32, regs: Regs, budget: u32)
        requires { self.old.pages ≡ [] }
        ensures { self.new ≡ with_thread_of self.old tid pid regs budget }
    {
        self.tid = tid;
        self.pid = pid;
        *self.regs = regs;
        self.left = budget;
        forget(&mut self.words);
    }

    /// One page more, of a frame that isn't held.
    pub fn add_page(&mut self, frame: u32, page: Page)
        requires room { frame < self.old.room }
        requires other { HoldsNo self.old frame }
        ensures { self.new ≡ with_own_page self.old frame page }
    {
        self.own.put(frame, page);
        match self.held.push(frame) {
            Ok(()) => {}
            Err(_) => unreachable!(),
        }
    }

    /// The page that came last; None exactly where none is held.
    pub fn take_page(&mut self) -> Option<(u32, Page)>
        ensures { MatchOption result ((self.old.pages ≡ []) × (self.new ≡ self.old))
            (λ r. self.old ≡ with_own_page self.new r.0 r.1) }
    {
        let frame = self.held.pop()?;
        match self.own.take(frame) {
            Some(page) => Some((frame, page)),
            None => unreachable!(),
        }
    }

    /// The thread's part begins: it has no reservation.
    pub fn begin(&mut self)
        ensures { self.new ≡ begun_pack self.old }
    {
        self.regs.set_held(None);
    }

    /// The thread's number.
    pub fn tid(&self) -> u32
        ensures { result ≡ self.now.thread }
    {
        self.tid
    }

    /// Its registers.
    pub fn regs(&self) -> &Regs
        ensures { result.now ≡ self.now.registers }
    {
        &self.regs
    }

    /// Its budget.
    pub fn budget(&self) -> u32
        ensures { result ≡ self.now.budget }
    {
        self.left
    }

    /// The words that it has written, in the order in which each was first written; none in the
    /// ownership scheme.
    pub fn words(&self) -> &[Written]
        ensures { result.now ≡ words_held self.now }
    {
        match &self.words {
            Some(words) => words.as_slice(),
            None => &[],
        }
    }
}

/// Runs the pack's thread until its next instruction stops or its budget is 0: its whole part in
/// the parallel phase, in each world that the pack and the view show. It takes no memory and no
/// lock.
pub fn run_pack(pack: &mut Pack, view: &View<'_>)
    requires can { CanRun pack.old (seen_by_view view.now) }
    ensures finished { Finished pack.old (seen_by_view view.now) pack.new }
    ensures thread { pack.new.thread ≡ pack.old.thread }
    ensures process { pack.new.process ≡ pack.old.process }
    ensures frames { frames_of pack.new.pages ≡ frames_of pack.old.pages }
    ensures budget { pack.new.budget ≤ pack.old.budget }
    ensures room { pack.new.room ≡ pack.old.room }
{
    pack.begin();
    run_out(pack, view);
}

/// Runs the pack's thread from where it stands until its next instruction stops or its budget is 0.
pub fn run_out(pack: &mut Pack, view: &View<'_>)
    requires can { CanRun pack.old (seen_by_view view.now) }
    ensures out { RanOut pack.old (seen_by_view view.now) pack.new }
    ensures thread { pack.new.thread ≡ pack.old.thread }
    ensures process { pack.new.process ≡ pack.old.process }
    ensures frames { frames_of pack.new.pages ≡ frames_of pack.old.pages }
    ensures budget { pack.new.budget ≤ pack.old.budget }
    ensures room { pack.new.room ≡ pack.old.room }
{
    let whole = pack.budget();
    let _out = run_slice(pack, view, whole);
}

/// Runs the pack's thread from where it stands until its next instruction stops or its budget is
/// 0, but no more than `most` instructions: whether it has run out. It takes no memory and no
/// lock.
pub fn run_slice(pack: &mut Pack, view: &View<'_>, most: u32) -> bool
    requires can { CanRun pack.old (seen_by_view view.now) }
    ensures out { result ≡ true → RanOut pack.old (seen_by_view view.now) pack.new }
    ensures more { result ≡ false → LeadsTo pack.old (seen_by_view view.now) pack.new
        × (0 < pack.new.budget) × (pack.new.budget + most ≡ pack.old.budget) }
    ensures part { result ≡ false → RanFor most pack.old (seen_by_view view.now) pack.new }
    ensures thread { pack.new.thread ≡ pack.old.thread }
    ensures process { pack.new.process ≡ pack.old.process }
    ensures frames { frames_of pack.new.pages ≡ frames_of pack.old.pages }
    ensures budget { pack.new.budget ≤ pack.old.budget }
    ensures room { pack.new.room ≡ pack.old.room }
{
    // that each page has an owner is known of the frames themselves
    let _count = view.frames.count();
    if pack.words.is_some() {
        return run_words(pack, view, most);
    }
    run_pages(pack, view, most)
}

// the same of a pack with pages of its own
#[inline(always)]
fn run_pages(pack: &mut Pack, view: &View<'_>, most: u32) -> bool
    requires scheme { has_words pack.old ≡ false }
    requires can { CanRun pack.old (seen_by_view view.now) }
    requires each { length view.now.frames.now.owners ≡ length view.now.frames.now.pages }
    ensures out { result ≡ true → RanOut pack.old (seen_by_view view.now) pack.new }
    ensures more { result ≡ false → LeadsTo pack.old (seen_by_view view.now) pack.new
        × (0 < pack.new.budget) × (pack.new.budget + most ≡ pack.old.budget) }
    ensures part { result ≡ false → RanFor most pack.old (seen_by_view view.now) pack.new }
    ensures thread { pack.new.thread ≡ pack.old.thread }
    ensures process { pack.new.process ≡ pack.old.process }
    ensures frames { frames_of pack.new.pages ≡ frames_of pack.old.pages }
    ensures budget { pack.new.budget ≤ pack.old.budget }
    ensures room { pack.new.room ≡ pack.old.room }
{
    let space = view.table.space(pack.pid);
    let mut regs = *pack.regs;
    let mut left = pack.left;
    let floor = left.saturating_sub(most);
    let stop = run_lent(
        &mut pack.own,
        view.frames,
        space,
        pack.tid,
        &mut pack.code,
        &mut regs,
        &mut left,
        floor,
    );
    *pack.regs = regs;
    pack.left = left;
    stop.is_some() || floor == 0
}

// the same of a pack with words
#[inline(always)]
fn run_words(pack: &mut Pack, view: &View<'_>, most: u32) -> bool
    requires scheme { has_words pack.old ≡ true }
    requires can { CanRun pack.old (seen_by_view view.now) }
    requires each { length view.now.frames.now.owners ≡ length view.now.frames.now.pages }
    ensures out { result ≡ true → RanOut pack.old (seen_by_view view.now) pack.new }
    ensures more { result ≡ false → LeadsTo pack.old (seen_by_view view.now) pack.new
        × (0 < pack.new.budget) × (pack.new.budget + most ≡ pack.old.budget) }
    ensures part { result ≡ false → RanFor most pack.old (seen_by_view view.now) pack.new }
    ensures thread { pack.new.thread ≡ pack.old.thread }
    ensures process { pack.new.process ≡ pack.old.process }
    ensures frames { frames_of pack.new.pages ≡ frames_of pack.old.pages }
    ensures budget { pack.new.budget ≤ pack.old.budget }
    ensures room { pack.new.room ≡ pack.old.room }
{
    let space = view.table.space(pack.pid);
    let mut regs = *pack.regs;
    let mut left = pack.left;
    let end = left.saturating_sub(most);
    let why = run_over(
        view.frames,
        space,
        pack.tid,
        &mut pack.code,
        &mut pack.words,
        &mut regs,
        &mut left,
        end,
    );
    *pack.regs = regs;
    pack.left = left;
    why.is_some() || end == 0
}

/// Runs the pack's thread as `run_pack` does where it has words, none yet, and is the only one to
/// run: over the frames in place, into which each word is put as it is written. So the frames are
/// left as they were with all the pack's words put in; owners, uses and marks stay.
pub fn run_pack_through(pack: &mut Pack, frames: &mut Frames, table: &Table)
    requires words { pack.old.words ≡ Some [] }
    requires can { CanRun pack.old (view_of frames.old table.now) }
    ensures finished { Finished pack.old (view_of frames.old table.now) pack.new }
    ensures thread { pack.new.thread ≡ pack.old.thread }
    ensures process { pack.new.process ≡ pack.old.process }
    ensures frames { frames_of pack.new.pages ≡ frames_of pack.old.pages }
    ensures budget { pack.new.budget ≤ pack.old.budget }
    ensures room { pack.new.room ≡ pack.old.room }
    ensures puts { joined frames.new.pages
        ≡ words_put (joined frames.old.pages) (words_held pack.new) }
    ensures owners { frames.new.owners ≡ frames.old.owners }
    ensures uses { frames.new.uses ≡ frames.old.uses }
    ensures marked { frames.new.marked ≡ frames.old.marked }
    ensures home { AreHome frames.new }
{
    // that each page has an owner is known of the frames themselves
    let _count = frames.count();
    pack.begin();
    let space = table.space(pack.pid);
    let mut regs = *pack.regs;
    let mut left = pack.left;
    let _stop = run_through(
        frames,
        space,
        pack.tid,
        &mut pack.words,
        &mut regs,
        &mut left,
    );
    *pack.regs = regs;
    pack.left = left;
}
