// The parallel phase over packs: their pages go out, they run, and all comes back.
ghost use Rattle.std.specs.Prelude.{◌≡◌, ◌≢◌, true, ◌+◌, ◌-◌, ◌^◌, ◌≤◌, ◌<◌, ◌++◌, ◌∷◌, ◌⊎◌, [], ℕ};
ghost use Rattle.std.specs.Prelude.{List, Some, IfOk, IsSome, MatchOption, length, map, slice_get};
ghost use Rattle.std.specs.Vec.{vec_capacity};
ghost use Rattle.dos_world.specs.declared.Owner.TheVariants.{Of};
ghost use Rattle.dos_world.specs.declared.Scheme.TheVariants.{Buffered, Ownership};
ghost use Rattle.page_store.specs.Store.{AreHome, IsAway, IsHome, owner_at};
ghost use Rattle.proc_table.specs.Tables.{IsLiveThread};
ghost use Rattle.quantum_run.specs.Shows.{Pack as pack_value};
ghost use Rattle.quantum_run.specs.Packs.{HoldsNo, empty_pack};
ghost use Rattle.kernel_calls.specs.StateWorld.{IsSound};
ghost use Rattle.group_rounds.specs.Parts.{work_between};
ghost use Rattle.worker_pool.specs.Ran.{AllCanRun, AllRan, GrewBy, budgets_left};
ghost use Rattle.group_rounds.specs.Phases.{AreLive, HavePutParts, HaveRunAlone, HaveRunPhase};
ghost use Rattle.group_rounds.specs.Phases.{ready_in};
ghost use Rattle.group_rounds.specs.Handing.{AreOnce, In, all_pages, HaveNoFrameTwice, AreOthers};
ghost use Rattle.group_rounds.specs.Handing.{AreBegun};
ghost use Rattle.group_rounds.specs.Handing.{AreSpare, GoesOut, Handing, PutBack, AreSet, Stays};
ghost use Rattle.group_rounds.specs.Handing.{blank_pack, emptied_pack, pack_of, view_of};

use crate::buffers::buffered_packs;
use crate::in_place::{is_callers, run_each};
use dos_world::{Owner, Scheme};
use kernel_calls::State;
use page_store::Frames;
use proc_table::Table;
use quantum_run::{Pack, Shared};
use std::alloc::{AllocError, Global};
use std::marker::Model;
use std::mem;
use worker_pool::Workers;

// at most so many threads live
const THREADS: usize = 64;

/// The packs of a kernel between two phases: all are spare. Contracts see for how many frames and
/// which scheme they are.
#[derive(Drop)]
pub(crate) struct Packs {
    pub(crate) frames: u32,
    pub(crate) scheme: Scheme,
    pub(crate) spare: Vec<Pack>,
    pub(crate) out: Vec<Pack>,
    // what stands in for the state's frames and table while the workers have them
    pub(crate) stand_in: Option<Shared>,
}

impl Model for Packs {
    ghost use Rattle.std.specs.Prelude.{ℕ, IsSome};
    ghost use Rattle.std.specs.Vec.{vec_capacity};
    ghost use Rattle.group_rounds.specs.Handing.{ArePacks, PacksFor, blank_pack};

    ghost Value = { PacksFor };

    ghost view = { λ p. record { frames = p.frames; scheme = p.scheme } };

    ghost invariant = { λ p. ArePacks (blank_pack p.scheme p.frames) p.spare.items p.out.items
        (vec_capacity p.spare) (vec_capacity p.out) × IsSome p.stand_in };
}

// one pack of a scheme
fn reserve_pack(alloc: Global, frames: u32, scheme: Scheme) -> Result<Pack, AllocError>
    ensures { IfOk result (λ p. p ≡ blank_pack scheme frames) }
{
    match scheme {
        Scheme::Ownership => Pack::reserve(alloc, frames),
        Scheme::Buffered => Pack::reserve_buffered(alloc),
    }
}

// so many packs, and room for them
fn spare_packs(alloc: Global, frames: u32, scheme: Scheme) -> Result<Vec<Pack>, AllocError>
    ensures { IfOk result (λ packs. AreSpare (blank_pack scheme frames) packs.items
        × (length packs.items ≡ 64) × (64 ≤ vec_capacity packs)) }
{
    let mut packs = Vec::with_capacity(alloc, THREADS)?;
    for _place in 0..THREADS {
        packs.push(reserve_pack(alloc, frames, scheme)?)?;
    }
    Ok(packs)
}

// what stands in for the state's frames and table: none of either
fn reserve_stand_in(alloc: Global) -> Result<Shared, AllocError> {
    Ok(Shared {
        frames: Frames::reserve(alloc, 0)?,
        table: Table::reserve(alloc, 0)?,
    })
}

impl Packs {
    /// The packs of a kernel with `frames` frames, for phases of a scheme. All their memory is
    /// taken here.
    pub(crate) fn reserve(alloc: Global, frames: u32, scheme: Scheme) -> Result<Packs, AllocError>
        ensures { IfOk result (λ p. p ≡ record { frames = frames; scheme = scheme }) }
    {
        Ok(Packs {
            frames,
            scheme,
            spare: spare_packs(alloc, frames, scheme)?,
            out: Vec::with_capacity(alloc, THREADS)?,
            stand_in: Some(reserve_stand_in(alloc)?),
        })
    }

    /// The parallel phase of the packs' scheme, over the ready threads, on the workers.
    pub(crate) fn run<W: Workers>(&mut self, state: &mut State, starters: &[u32], workers: &mut W)
        requires sound { IsSound state.old }
        requires ready { starters.now ≡ ready_in state.old.table.threads }
        requires few { length starters.now ≤ 64 }
        requires level { self.old.frames ≡ length state.old.frames.owners }
        ensures phase { HaveRunPhase self.old.scheme state.old state.new }
        ensures packs { self.new ≡ self.old }
        ensures tally { GrewBy (W.tally workers.old) (W.tally workers.new)
            (work_between state.old state.new starters.now) }
        ensures fixed { W.fixed workers.new ≡ W.fixed workers.old }
    {
        match self.scheme {
            Scheme::Ownership => self.run_owning(state, starters, workers),
            Scheme::Buffered => self.run_writing(state, starters, workers),
        }
    }

    // that of the ownership scheme: each starter by itself, over its own pages; in place where only
    // the caller's own thread would run them
    fn run_owning<W: Workers>(&mut self, state: &mut State, starters: &[u32], workers: &mut W)
        requires scheme { self.old.scheme ≡ Ownership }
        requires sound { IsSound state.old }
        requires live { AreLive state.old.table.threads starters.now }
        requires apart { AreOnce starters.now }
        requires few { length starters.now ≤ 64 }
        requires level { self.old.frames ≡ length state.old.frames.owners }
        ensures parts { HaveRunAlone starters.now state.old state.new }
        ensures packs { self.new ≡ self.old }
        ensures tally { GrewBy (W.tally workers.old) (W.tally workers.new)
            (work_between state.old state.new starters.now) }
        ensures fixed { W.fixed workers.new ≡ W.fixed workers.old }
    {
        if is_callers(workers, starters.len()) {
            run_each(state, starters, workers);
            return;
        }
        let stand_in = &mut self.stand_in;
        parallel_packs(
            state,
            starters,
            &mut self.spare,
            &mut self.out,
            stand_in,
            workers,
        );
    }

    // that of the buffered scheme
    fn run_writing<W: Workers>(&mut self, state: &mut State, starters: &[u32], workers: &mut W)
        requires scheme { self.old.scheme ≡ Buffered }
        requires sound { IsSound state.old }
        requires live { AreLive state.old.table.threads starters.now }
        requires apart { AreOnce starters.now }
        requires few { length starters.now ≤ 64 }
        ensures parts { HavePutParts starters.now state.old state.new }
        ensures packs { self.new ≡ self.old }
        ensures tally { GrewBy (W.tally workers.old) (W.tally workers.new)
            (work_between state.old state.new starters.now) }
        ensures fixed { W.fixed workers.new ≡ W.fixed workers.old }
    {
        let stand_in = &mut self.stand_in;
        buffered_packs(
            state,
            starters,
            &mut self.spare,
            &mut self.out,
            stand_in,
            workers,
        );
    }
}

// whether a thread stands at this place among the starters; any place
fn stands_at(starters: &[u32], tid: u32, place: usize) -> bool
    ensures { result ≡ true → slice_get starters.now place ≡ Some tid }
{
    match starters.get(place) {
        Some(starter) => *starter == tid,
        None => false,
    }
}

// where a thread stands among the starters if all between the first of them and it are
fn place_from_first(starters: &[u32], tid: u32) -> usize {
    match starters.first() {
        Some(first) => (tid as usize).wrapping_sub(*first as usize),
        None => 0,
    }
}

// where a thread stands among the starters
fn place_of(starters: &[u32], tid: u32) -> Option<usize>
    ensures { MatchOption result ((place : ℕ) → slice_get starters.now place ≢ Some tid)
        (λ place. slice_get starters.now place ≡ Some tid) }
{
    let guess = place_from_first(starters, tid);
    if stands_at(starters, tid, guess) {
        return Some(guess);
    }
    for place in 0..starters.len() {
        if starters[place] == tid {
            return Some(place);
        }
    }
    None
}

// a starter's pack, before its pages come
fn fill_next(table: &Table, tid: u32, spare: &mut Vec<Pack>, packs: &mut Vec<Pack>)
    requires live { IsLiveThread table.now.threads tid }
    requires some { 0 < length spare.old.items }
    requires room { length packs.old.items + 1 ≤ vec_capacity packs.old }
    requires empty { (p : pack_value) → In spare.old.items p → p.pages ≡ [] }
    ensures fills { (first : pack_value) → AreSpare first spare.old.items
        → packs.new.items ≡ packs.old.items ++ pack_of table.now first tid ∷ [] }
    ensures spare { (first : pack_value) → AreSpare first spare.old.items
        → AreSpare first spare.new.items }
    ensures less { length spare.new.items + 1 ≡ length spare.old.items }
    ensures count { length packs.new.items ≡ length packs.old.items + 1 }
    ensures empty { (p : pack_value) → In spare.new.items p → p.pages ≡ [] }
    ensures room { vec_capacity packs.old ≤ vec_capacity packs.new }
    ensures same_room { vec_capacity spare.new ≡ vec_capacity spare.old }
{
    match spare.pop() {
        Some(mut pack) => {
            pack.fill(
                tid,
                table.process_of(tid),
                *table.regs(tid),
                table.budget(tid),
            );
            keep(packs, pack);
        }
        None => unreachable!(),
    }
}

/// Each starter has a pack, with no pages and no words yet.
pub(crate) fn fill_each(
    table: &Table,
    starters: &[u32],
    spare: &mut Vec<Pack>,
    packs: &mut Vec<Pack>,
)
    requires live { AreLive table.now.threads starters.now }
    requires none { packs.old.items ≡ [] }
    requires room { length starters.now ≤ vec_capacity packs.old }
    requires enough { length starters.now ≤ length spare.old.items }
    requires empty { (p : pack_value) → In spare.old.items p → p.pages ≡ [] }
    ensures fills { (first : pack_value) → AreSpare first spare.old.items
        → packs.new.items ≡ map (pack_of table.now first) starters.now }
    ensures spare { (first : pack_value) → AreSpare first spare.old.items
        → AreSpare first spare.new.items }
    ensures less { length spare.new.items + length starters.now ≡ length spare.old.items }
    ensures spare_room { vec_capacity spare.new ≡ vec_capacity spare.old }
    ensures room { vec_capacity packs.old ≤ vec_capacity packs.new }
{
    for &tid in starters {
        fill_next(table, tid, spare, packs);
    }
}

// the page of a frame goes into its owner's pack, where the owner starts
fn hand_page(frames: &mut Frames, starters: &[u32], packs: &mut Vec<Pack>, frame: u32)
    requires within { frame < length frames.old.owners }
    requires home { IsHome frames.old frame }
    requires level { length packs.old.items ≡ length starters.now }
    requires room { (i : ℕ) (p : pack_value) → slice_get packs.old.items i ≡ Some p
        → (frame < p.room) × HoldsNo p frame }
    ensures goes { Stays starters.now frames.old packs.old.items frame frames.new packs.new.items
        ⊎ GoesOut starters.now frames.old packs.old.items frame frames.new packs.new.items }
    ensures room { vec_capacity packs.new ≡ vec_capacity packs.old }
{
    let Owner::Of(tid) = frames.owner(frame) else {
        return;
    };
    let Some(place) = place_of(starters, tid) else {
        return;
    };
    let page = frames.take(frame);
    packs[place].add_page(frame, page);
}

// the lowest frame from this one on that is a thread's; `high` where none below it is
fn next_owned(frames: &Frames, from: u32, high: u32) -> u32
    requires within { high ≤ length frames.now.owners }
    requires below { from ≤ high }
    ensures above { from ≤ result }
    ensures below { result ≤ high }
    ensures none { (f t : ℕ) → from ≤ f → f < result → owner_at frames.now f ≢ Of t }
{
    for frame in from..high {
        if let Owner::Of(_tid) = frames.owner(frame) {
            return frame;
        }
    }
    high
}

// the pages of the starters' frames go into their packs
fn hand_pages(frames: &mut Frames, starters: &[u32], packs: &mut Vec<Pack>)
    requires home { AreHome frames.old }
    requires apart { AreOnce starters.now }
    requires level { length packs.old.items ≡ length starters.now }
    requires begun { AreBegun frames.old packs.old.items }
    ensures hands { Handing starters.now packs.old.items frames.old frames.new packs.new.items
        (length frames.old.pages) }
    ensures room { vec_capacity packs.new ≡ vec_capacity packs.old }
{
    // that each page has an owner is known of the frames themselves
    let _count = frames.count();
    let high = frames.high();
    let mut frame = next_owned(frames, 0, high);
    while frame < high {
        hand_page(frames, starters, packs, frame);
        frame = next_owned(frames, frame + 1, high);
    }
}

/// Each starter has a pack, with the pages of its frames.
pub(crate) fn hand_out(
    state: &mut State,
    starters: &[u32],
    spare: &mut Vec<Pack>,
    packs: &mut Vec<Pack>,
)
    requires sound { IsSound state.old }
    requires live { AreLive state.old.table.threads starters.now }
    requires apart { AreOnce starters.now }
    requires none { packs.old.items ≡ [] }
    requires room { length starters.now ≤ vec_capacity packs.old }
    requires enough { length starters.now ≤ length spare.old.items }
    requires spare { AreSpare (empty_pack (length state.old.frames.pages)) spare.old.items }
    ensures hands { Handing starters.now
        (map (pack_of state.old.table (empty_pack (length state.old.frames.pages))) starters.now)
        state.old.frames state.new.frames packs.new.items (length state.old.frames.pages) }
    ensures table { state.new.table ≡ state.old.table }
    ensures round { state.new.round ≡ state.old.round }
    ensures pipes { state.new.pipes ≡ state.old.pipes }
    ensures futexes { state.new.futexes ≡ state.old.futexes }
    ensures spare { AreSpare (empty_pack (length state.old.frames.pages)) spare.new.items }
    ensures less { length spare.new.items + length starters.now ≡ length spare.old.items }
    ensures spare_room { vec_capacity spare.new ≡ vec_capacity spare.old }
    ensures room { vec_capacity packs.old ≤ vec_capacity packs.new }
{
    fill_each(&state.table, starters, spare, packs);
    hand_pages(&mut state.frames, starters, packs);
}

// the pages of a pack come home
fn put_pages(frames: &mut Frames, pack: &mut Pack)
    requires away { (frame : ℕ) (page : List ℕ) → In pack.old.pages (frame, page)
        → IsAway frames.old frame }
    requires apart { HaveNoFrameTwice pack.old.pages }
    ensures back { PutBack pack.old.pages frames.old frames.new }
    ensures pack { pack.new ≡ record pack.old { pages = [] } }
{
    while let Some((frame, page)) = pack.take_page() {
        frames.put_back(frame, page);
    }
}

// the registers, the budget and the pages of a pack come back
fn take_back(state: &mut State, pack: &mut Pack)
    requires away { (frame : ℕ) (page : List ℕ) → In pack.old.pages (frame, page)
        → IsAway state.old.frames frame }
    requires apart { HaveNoFrameTwice pack.old.pages }
    requires live { IsLiveThread state.old.table.threads pack.old.thread }
    ensures back { PutBack pack.old.pages state.old.frames state.new.frames }
    ensures set { AreSet (pack.old ∷ []) state.old.table state.new.table }
    ensures round { state.new.round ≡ state.old.round }
    ensures pipes { state.new.pipes ≡ state.old.pipes }
    ensures futexes { state.new.futexes ≡ state.old.futexes }
    ensures pack { pack.new ≡ record pack.old { pages = [] } }
{
    state.table.set_run(pack.tid(), *pack.regs(), pack.budget());
    put_pages(&mut state.frames, pack);
}

/// One pack more, for which there is room.
pub(crate) fn keep(spare: &mut Vec<Pack>, pack: Pack)
    requires room { length spare.old.items + 1 ≤ vec_capacity spare.old }
    ensures items { spare.new.items ≡ spare.old.items ++ pack ∷ [] }
    ensures room { vec_capacity spare.old ≤ vec_capacity spare.new }
{
    match spare.push(pack) {
        Ok(()) => {}
        Err(_) => unreachable!(),
    }
}

/// Each pack runs on the workers, who have the frames and the table meanwhile. What stands in for
/// them comes back.
pub(crate) fn run_parts<W: Workers>(
    state: &mut State,
    stand_in: Shared,
    packs: &mut Vec<Pack>,
    workers: &mut W,
) -> Shared
    requires count { length packs.old.items < 2 ^ 32 }
    requires can { AllCanRun (view_of state.old.frames state.old.table) packs.old.items }
    ensures runs { AllRan (view_of state.old.frames state.old.table) packs.old.items
        packs.new.items }
    ensures state { state.new ≡ state.old }
    ensures room { vec_capacity packs.old ≤ vec_capacity packs.new }
    ensures tally { GrewBy (W.tally workers.old) (W.tally workers.new)
        (budgets_left packs.old.items - budgets_left packs.new.items) }
    ensures fixed { W.fixed workers.new ≡ W.fixed workers.old }
{
    let Shared { frames, table } = stand_in;
    let frames = mem::replace(&mut state.frames, frames);
    let table = mem::replace(&mut state.table, table);
    let Shared { frames, table } = workers.run_all(packs, Shared { frames, table });
    Shared {
        frames: mem::replace(&mut state.frames, frames),
        table: mem::replace(&mut state.table, table),
    }
}

// what stands in is kept again
fn put_in(stand_in: &mut Option<Shared>, other: Shared)
    ensures { IsSome stand_in.new }
{
    *stand_in = Some(other);
}

/// Each pack runs on the workers, with what stands in taken out and put back.
pub(crate) fn run_out<W: Workers>(
    state: &mut State,
    stand_in: &mut Option<Shared>,
    packs: &mut Vec<Pack>,
    workers: &mut W,
)
    requires count { length packs.old.items < 2 ^ 32 }
    requires can { AllCanRun (view_of state.old.frames state.old.table) packs.old.items }
    requires stand_in { IsSome stand_in.old }
    ensures runs { AllRan (view_of state.old.frames state.old.table) packs.old.items
        packs.new.items }
    ensures state { state.new ≡ state.old }
    ensures stand_in { IsSome stand_in.new }
    ensures room { vec_capacity packs.old ≤ vec_capacity packs.new }
    ensures tally { GrewBy (W.tally workers.old) (W.tally workers.new)
        (budgets_left packs.old.items - budgets_left packs.new.items) }
    ensures fixed { W.fixed workers.new ≡ W.fixed workers.old }
{
    let other = stand_in.take().unwrap();
    let other = run_parts(state, other, packs, workers);
    put_in(stand_in, other);
}

/// All pages, registers and budgets of the packs come back, and the packs are spare.
pub(crate) fn take_in(state: &mut State, packs: &mut Vec<Pack>, spare: &mut Vec<Pack>)
    requires away { (frame : ℕ) (page : List ℕ) → In (all_pages packs.old.items) (frame, page)
        → IsAway state.old.frames frame }
    requires apart { HaveNoFrameTwice (all_pages packs.old.items) }
    requires live { (p : pack_value) → In packs.old.items p
        → IsLiveThread state.old.table.threads p.thread }
    requires others { AreOthers packs.old.items }
    requires room { length spare.old.items + length packs.old.items ≤ vec_capacity spare.old }
    ensures back { PutBack (all_pages packs.old.items) state.old.frames state.new.frames }
    ensures set { AreSet packs.old.items state.old.table state.new.table }
    ensures round { state.new.round ≡ state.old.round }
    ensures pipes { state.new.pipes ≡ state.old.pipes }
    ensures futexes { state.new.futexes ≡ state.old.futexes }
    ensures packs { packs.new.items ≡ [] }
    ensures spare { length spare.new.items ≡ length spare.old.items + length packs.old.items }
    ensures all_spare { (first : pack_value) → AreSpare first spare.old.items
        → ((p : pack_value) → In packs.old.items p
        → emptied_pack (record p { pages = [] }) ≡ first)
        → AreSpare first spare.new.items }
    ensures spare_room { vec_capacity spare.old ≤ vec_capacity spare.new }
    ensures packs_room { vec_capacity packs.new ≡ vec_capacity packs.old }
{
    while let Some(mut pack) = packs.pop() {
        take_back(state, &mut pack);
        keep(spare, pack);
    }
}

// The parallel phase: each starter by itself, over its own pages.
fn parallel_packs<W: Workers>(
    state: &mut State,
    starters: &[u32],
    spare: &mut Vec<Pack>,
    packs: &mut Vec<Pack>,
    stand_in: &mut Option<Shared>,
    workers: &mut W,
)
    requires sound { IsSound state.old }
    requires live { AreLive state.old.table.threads starters.now }
    requires apart { AreOnce starters.now }
    requires few { length starters.now ≤ 64 }
    requires stand_in { IsSome stand_in.old }
    requires none { packs.old.items ≡ [] }
    requires room { length starters.now ≤ vec_capacity packs.old }
    requires enough { length starters.now ≤ length spare.old.items }
    requires spare { AreSpare (empty_pack (length state.old.frames.pages)) spare.old.items }
    requires spare_room { length spare.old.items ≤ vec_capacity spare.old }
    ensures parts { HaveRunAlone starters.now state.old state.new }
    ensures tally { GrewBy (W.tally workers.old) (W.tally workers.new)
        (work_between state.old state.new starters.now) }
    ensures fixed { W.fixed workers.new ≡ W.fixed workers.old }
    ensures none { packs.new.items ≡ [] }
    ensures room { vec_capacity packs.old ≤ vec_capacity packs.new }
    ensures enough { length spare.new.items ≡ length spare.old.items }
    ensures spare { AreSpare (empty_pack (length state.old.frames.pages)) spare.new.items }
    ensures spare_room { vec_capacity spare.old ≤ vec_capacity spare.new }
    ensures stand_in { IsSome stand_in.new }
{
    hand_out(state, starters, spare, packs);
    run_out(state, stand_in, packs, workers);
    take_in(state, packs, spare);
}
