// The threads that live, in rising number.
ghost use Rattle.std.specs.Prelude.{◌≡◌, true, ◌==◌, ◌≤◌, filter, find, count_by, slice_get, ◌<◌};
ghost use Rattle.std.specs.Prelude.{◌+◌, [], ◌∷◌, ◌++◌, length, map, option_map, None, Some, false};
ghost use Rattle.std.specs.Prelude.{is_some, IfOk, IfErr, IsSome, IfSome};
ghost use Rattle.dos_world.specs.Numbered.{changed, numbers_of};
ghost use Rattle.dos_world.specs.World.{belongs_to, first_of, none_of, registers_by};
ghost use Rattle.dos_world.specs.Kernel.{pending_with, unless_of};
ghost use Rattle.dos_world.specs.Calls.{charged};
ghost use Rattle.dos_world.specs.ThreadCalls.{are_threads_full};
ghost use Rattle.proc_table.specs.Tables.{IsLiveThread, next_in, ran, thread_in, with_budget};
ghost use Rattle.proc_table.specs.Spread.{AreInOrder, IsThreadAt, IsGapAbove, IsGapForThread};
ghost use Rattle.proc_table.specs.Spread.{AreRising, live_in, living_from, spread};
ghost use Rattle.std.specs.Vec.{vec_capacity};
ghost use Rattle.std.specs.Borrow.{sem};
ghost use Rattle.proc_table.specs.Lending.{LendsThread};

use crate::thread::Thread;
use arrayvec::ArrayVec;
use dos_world::Regs;
use std::alloc::{AllocError, Global};
use std::marker::Model;

// how many threads may live, and the last number that is given
const MOST_THREADS: u32 = 64;

const LAST_NUMBER: u32 = 65535;

// The live threads with their numbers, and how many numbers were given. Contracts see the list by
// number from 1; a thread that is gone is None.
#[derive(Drop)]
pub(crate) struct Threads {
    live: Vec<(u32, Thread)>,
    given: u32,
}

impl Model for Threads {
    ghost use Rattle.std.specs.Prelude.{List, Option};
    ghost use Rattle.std.specs.Vec.{vec_capacity};
    ghost use Rattle.dos_world.specs.World.{Thread as Flat};
    ghost use Rattle.proc_table.specs.Spread.{IsSpreadKept, spread};

    ghost Value = { List (Option Flat) };

    ghost view = { λ t. spread t.live.items t.given };

    ghost invariant = { λ t. IsSpreadKept t.live.items t.given (vec_capacity t.live) };
}

impl Threads {
    // No thread. All memory for the threads is taken here.
    pub(crate) fn reserve(alloc: Global) -> Result<Threads, AllocError>
        ensures { IfOk result (λ t. t ≡ []) }
    {
        Ok(Threads {
            live: Vec::with_capacity(alloc, MOST_THREADS as usize)?,
            given: 0,
        })
    }

    // These threads with their numbers, where so many numbers were given.
    pub(crate) fn restore(live: Vec<(u32, Thread)>, given: u32) -> Threads
        requires rising { AreRising 1 (given + 1) live.items }
        requires few { length live.items ≤ 64 }
        requires numbers { given ≤ 65535 }
        requires taken { 64 ≤ vec_capacity live }
        ensures { result ≡ spread live.items given }
    {
        Threads { live, given }
    }

    // the live thread at this place in the rising order, and its number
    pub(crate) fn at(&self, place: u32) -> (u32, &Thread)
        requires { place < length (living_from 1 self.now) }
        ensures { slice_get (living_from 1 self.now) place ≡ Some (result.0, result.1.now) }
    {
        let entry = &self.live[place as usize];
        (entry.0, &entry.1)
    }

    // how many numbers were given
    pub(crate) fn given(&self) -> u32
        ensures { result ≡ length self.now }
    {
        self.given
    }

    // how many threads live
    pub(crate) fn count(&self) -> u32
        ensures { result ≡ length (numbers_of is_some self.now) }
    {
        self.live.len() as u32
    }

    pub(crate) fn is_full(&self) -> bool
        ensures { result ≡ are_threads_full self.now }
    {
        if self.live.len() as u32 >= MOST_THREADS {
            return true;
        }
        self.given >= LAST_NUMBER
    }

    // one thread more; its number
    pub(crate) fn add(&mut self, thread: Thread) -> u32
        requires { are_threads_full self.old ≡ false }
        ensures number { result ≡ length self.old + 1 }
        ensures begins { self.new ≡ self.old ++ Some thread ∷ [] }
    {
        let number = self.given + 1;
        self.given = number;
        match self.live.push((number, thread)) {
            Ok(()) => number,
            Err(_) => unreachable!(),
        }
    }

    pub(crate) fn is_thread(&self, tid: u32) -> bool
        ensures { result ≡ is_some (thread_in self.now tid) }
    {
        match search(&self.live, tid) {
            Ok(_) => true,
            Err(_) => false,
        }
    }

    pub(crate) fn get(&self, tid: u32) -> &Thread
        requires { IsLiveThread self.now tid }
        ensures { thread_in self.now tid ≡ Some result.now }
    {
        &self.live[place_of(&self.live, tid)].1
    }

    // the thread, to be changed
    pub(crate) fn get_mut(&mut self, tid: u32) -> &mut Thread
        requires { IsLiveThread self.old tid }
        ensures is { thread_in self.old tid ≡ Some result.now }
        ensures* writes_back { sem 𝓛 (LendsThread self.entry tid result) }
    {
        let place = place_of(&self.live, tid);
        &mut self.live[place].1
    }

    // one unit of the budget less, and nothing reserved
    pub(crate) fn charge(&mut self, tid: u32)
        requires live { IsLiveThread self.old tid }
        requires budget { IfSome (thread_in self.old tid) (λ thread. 0 < thread.budget) }
        ensures { self.new ≡ changed (option_map charged) self.old tid }
    {
        let place = place_of(&self.live, tid);
        let thread = &mut self.live[place].1;
        thread.budget -= 1;
        thread.regs.set_held(None);
    }

    pub(crate) fn remove(&mut self, tid: u32)
        requires { IsLiveThread self.old tid }
        ensures { self.new ≡ changed none_of self.old tid }
    {
        let place = place_of(&self.live, tid);
        let _ = self.live.remove(place);
    }

    // the process's threads are gone
    pub(crate) fn remove_of(&mut self, pid: u32)
        ensures { self.new ≡ map (unless_of pid) self.old }
    {
        self.live.retain(|entry| !belongs(entry, pid));
    }

    // the process's lowest thread
    pub(crate) fn first_of(&self, pid: u32) -> Option<u32>
        ensures { result ≡ first_of (numbers_of (belongs_to pid) self.now) }
    {
        first_in(&self.live, pid)
    }

    // the numbers of the process's threads, in rising order
    pub(crate) fn numbers_of(&self, pid: u32) -> ArrayVec<u32, 64>
        ensures { result.items ≡ numbers_of (belongs_to pid) self.now }
    {
        numbers_in(&self.live, pid)
    }

    // how many threads the process has
    pub(crate) fn count_of(&self, pid: u32) -> u32
        ensures { result ≡ length (numbers_of (belongs_to pid) self.now) }
    {
        count_in(&self.live, pid)
    }

    // the lowest thread above a number
    pub(crate) fn next(&self, after: u32) -> Option<u32>
        ensures { result ≡ next_in self.now after }
    {
        number_in(&self.live, place_above(&self.live, after))
    }
}

fn belongs(entry: &(u32, Thread), pid: u32) -> bool
    ensures { result ≡ (entry.now.1.process == pid) }
{
    let thread = &entry.1;
    thread.process == pid
}

fn first_in(live: &[(u32, Thread)], pid: u32) -> Option<u32>
    ensures { result ≡ option_map (λ e. e.0) (find (λ e. e.1.process == pid) live.now) }
{
    match live.iter().find(|entry| belongs(entry, pid)) {
        Some(entry) => Some(entry.0),
        None => None,
    }
}

fn numbers_in(live: &[(u32, Thread)], pid: u32) -> ArrayVec<u32, 64>
    requires { length live.now ≤ 64 }
    ensures { result.items ≡ map (λ e. e.0) (filter (λ e. e.1.process == pid) live.now) }
{
    let mut numbers = ArrayVec::new();
    for entry in live {
        if belongs(entry, pid) {
            numbers.push(entry.0);
        }
    }
    numbers
}

fn count_in(live: &[(u32, Thread)], pid: u32) -> u32
    requires { length live.now ≤ 64 }
    ensures { result ≡ count_by (λ e. e.1.process == pid) live.now }
{
    live.iter().filter(|entry| belongs(entry, pid)).count() as u32
}

fn number_in(live: &[(u32, Thread)], place: usize) -> Option<u32>
    ensures { result ≡ option_map (λ e. e.0) (slice_get live.now place) }
{
    match live.get(place) {
        Some(entry) => Some(entry.0),
        None => None,
    }
}

// whether the thread stands at this place; any place
fn stands_at(live: &[(u32, Thread)], tid: u32, place: usize) -> bool
    ensures { result ≡ true → IsThreadAt live.now tid place }
{
    match live.get(place) {
        Some(entry) => entry.0 == tid,
        None => false,
    }
}

// where the thread stands if none above it is gone
fn place_from_end(live: &[(u32, Thread)], tid: u32) -> usize {
    let last = match live.last() {
        Some(entry) => entry.0,
        None => 0,
    };
    live.len()
        .wrapping_sub(1 + last as usize)
        .wrapping_add(tid as usize)
}

// Where the thread stands, or where it would. It mostly stands where none below it is gone, or none
// above it.
fn search(live: &[(u32, Thread)], tid: u32) -> Result<usize, usize>
    requires { AreInOrder live.now }
    ensures found { IfOk result (IsThreadAt live.now tid) }
    ensures gap { IfErr result (IsGapForThread live.now tid) }
{
    let first = (tid as usize).wrapping_sub(1);
    if stands_at(live, tid, first) {
        return Ok(first);
    }
    let second = place_from_end(live, tid);
    if stands_at(live, tid, second) {
        return Ok(second);
    }
    live.binary_search_by_key(&tid, |(number, _)| *number)
}

// where a thread stands that lives
fn place_of(live: &[(u32, Thread)], tid: u32) -> usize
    requires order { AreInOrder live.now }
    requires live { IsSome (live_in live.now tid) }
    ensures { IsThreadAt live.now tid result }
{
    match search(live, tid) {
        Ok(place) => place,
        Err(_) => unreachable!(),
    }
}

// where the threads above a number begin
fn place_above(live: &[(u32, Thread)], after: u32) -> usize
    requires { AreInOrder live.now }
    ensures { IsGapAbove live.now after result }
{
    match search(live, after) {
        Ok(place) => place + 1,
        Err(place) => place,
    }
}
