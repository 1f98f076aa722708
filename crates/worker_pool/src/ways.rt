// The ways to run packs.
ghost use Rattle.std.specs.Prelude.{◌≡◌, ◌<◌, ◌≤◌, ◌^◌, All, length, vec_len, vec_capacity};
ghost use Rattle.quantum_run.specs.Packs.{seen_by_view, seen_in};
ghost use Rattle.quantum_run.specs.Shows.{CanRun};
ghost use Rattle.worker_pool.specs.Ran.{AllCanRun, AllRan, AllRunnable, EachRan, HasRun};

use crate::crew::run_each;
use crate::gate::{Gate, OpenGate};
use crate::lent::{lend, take_back};
use crate::pace::Pace;
use quantum_run::{Pack, Shared, View, run_pack};
use std::alloc::Global;
use std::thread;
use std::thread::Threads;

/// How many threads may run at once, and the gate that they pass.
#[derive(Drop)]
pub struct Hands<'a, R, G> {
    rt: &'a R,
    workers: u32,
    gate: &'a G,
    pace: Pace,
    ghost few: { (0 < workers) × (workers ≤ 32) },
}

impl<'a, R, G> Hands<'a, R, G> {
    /// From 1 to 32 threads, the caller's among them. The others are started at each call.
    pub fn new(rt: &'a R, workers: u32, gate: &'a G) -> Hands<'a, R, G>
        requires { (0 < workers) × (workers ≤ 32) }
        ensures { result.workers ≡ workers }
    {
        Hands {
            rt,
            workers,
            gate,
            pace: Pace::started(),
        }
    }

    /// The same where the others stay over the calls, which pay with fewer instructions.
    pub fn staying(rt: &'a R, workers: u32, gate: &'a G) -> Hands<'a, R, G>
        requires { (0 < workers) × (workers ≤ 32) }
        ensures { result.workers ≡ workers }
    {
        Hands {
            rt,
            workers,
            gate,
            pace: Pace::staying(),
        }
    }

    /// The same for one call.
    pub fn again(&self) -> Hands<'_, R, G>
        ensures { result.workers ≡ self.now.workers }
    {
        Hands {
            rt: self.rt,
            workers: self.workers,
            gate: self.gate,
            pace: self.pace,
        }
    }

    /// From now on so many threads, from 1 to 32; the pace is kept.
    pub fn hire(&mut self, workers: u32)
        requires { (0 < workers) × (workers ≤ 32) }
        ensures { self.new.workers ≡ workers }
    {
        self.workers = workers;
    }

    /// A call ran so many instructions.
    pub fn note(&mut self, work: u64) {
        self.pace.note(work);
    }

    /// How many threads are to run so many packs: no more than packs, and no more than pay by what
    /// the last calls took.
    pub fn enough_for(&self, packs: usize) -> u32
        ensures some { 0 < result }
        ensures hired { result ≤ self.now.workers }
        ensures few { result ≤ 32 }
    {
        let most = self.workers.min(self.pace.threads());
        if packs < most as usize {
            (packs as u32).max(1)
        } else {
            most
        }
    }
}

/// Threads that stay over many calls. A call may wait where the type's runtime may.
pub trait Staff {
    /// Whether the caller alone would run so many packs.
    fn is_alone(&self, packs: usize) -> bool;

    /// Runs each pack, as `run_pack` does; what they share comes back as it was.
    fn run_packs(&self, packs: &mut Vec<Pack>, shared: Shared) -> Shared
        requires count { vec_len packs.old < 2 ^ 32 }
        requires can { AllCanRun (seen_in shared) packs.old.items }
        ensures runs { AllRan (seen_in shared) packs.old.items packs.new.items }
        ensures shared { result ≡ shared }
        ensures room { vec_capacity packs.new ≡ vec_capacity packs.old };
}

/// No threads that stay: the caller runs the packs.
#[derive(Drop)]
pub struct Nobody;

/// Who runs the packs of one call.
#[derive(Drop)]
pub enum Way<'a, R, G, S> {
    /// The caller, one after another.
    InPlace(&'a G),
    /// Threads with an even part each.
    Spread(Hands<'a, R, G>),
    /// Threads that draw from a board.
    Boarded(Hands<'a, R, G>, Global),
    /// Threads that have a deque each, and steal from one another.
    Stealing(Hands<'a, R, G>, Global),
    /// Threads that stay.
    Staffed(&'a S),
}

// one pack, whose number passes the gate
fn run_gated<G: Gate>(gate: &G, number: usize, pack: &mut Pack, view: &View<'_>)
    requires number { number < 2 ^ 32 }
    requires can { CanRun pack.old (seen_by_view view.now) }
    ensures { HasRun (seen_by_view view.now) pack.old pack.new }
{
    gate.pass(number as u32);
    run_pack(pack, view);
}

/// Runs one pack after another, on the caller's own thread.
pub fn run_in_place<G: Gate>(gate: &G, packs: &mut Vec<Pack>, view: &View<'_>)
    requires count { vec_len packs.old < 2 ^ 32 }
    requires can { AllRunnable (seen_by_view view.now) packs.old.items }
    ensures number { length packs.new.items ≡ length packs.old.items }
    ensures each { EachRan (seen_by_view view.now) packs.old.items packs.new.items }
    ensures room { vec_capacity packs.new ≡ vec_capacity packs.old }
{
    for place in 0..packs.len() {
        run_gated(gate, place, &mut packs[place], view);
    }
}

// on so many threads with an even part each
fn run_evenly<R: Threads + Sync, G: Gate + Sync>(
    rt: &R,
    threads: u32,
    gate: &G,
    packs: &mut [Pack],
    view: &View<'_>,
)
    requires threads { 0 < threads }
    requires count { length packs.old < 2 ^ 32 }
    requires can { AllRunnable (seen_by_view view.now) packs.old }
    ensures number { length packs.new ≡ length packs.old }
    ensures each { EachRan (seen_by_view view.now) packs.old packs.new }
{
    let run = |number: usize, pack: &mut Pack|
        requires { (number < 2 ^ 32) × CanRun pack.now (seen_by_view view.now) }
        ensures { HasRun (seen_by_view view.entry.now) pack.entry.now pack.exit.now }
    { run_gated(gate, number, pack, view) };
    thread::for_each_mut(rt, packs, threads as usize, &run);
}

// on threads with an even part each: with one worker, or one pack, or few instructions of late, on
// the caller's own
fn run_spread<R: Threads + Sync, G: Gate + Sync>(
    hands: &Hands<'_, R, G>,
    packs: &mut Vec<Pack>,
    view: &View<'_>,
)
    requires count { vec_len packs.old < 2 ^ 32 }
    requires can { AllRunnable (seen_by_view view.now) packs.old.items }
    ensures number { length packs.new.items ≡ length packs.old.items }
    ensures each { EachRan (seen_by_view view.now) packs.old.items packs.new.items }
    ensures room { vec_capacity packs.new ≡ vec_capacity packs.old }
{
    let workers = hands.enough_for(packs.len());
    run_evenly(hands.rt, workers, hands.gate, packs.as_mut_slice(), view);
}

// as many deques as workers where they steal from one another, else none
fn lanes_for(steals: bool, workers: u32) -> u32 {
    if steals { workers } else { 0 }
}

// over a board; where memory for it is wanting, on threads with an even part each
fn run_shared<R: Threads + Sync, G: Gate + Sync>(
    hands: &Hands<'_, R, G>,
    alloc: Global,
    steals: bool,
    packs: &mut Vec<Pack>,
    view: &View<'_>,
)
    requires count { vec_len packs.old < 2 ^ 32 }
    requires can { AllRunnable (seen_by_view view.now) packs.old.items }
    ensures number { length packs.new.items ≡ length packs.old.items }
    ensures each { EachRan (seen_by_view view.now) packs.old.items packs.new.items }
    ensures room { vec_capacity packs.new ≡ vec_capacity packs.old }
{
    let workers = hands.enough_for(packs.len());
    if workers == 1 {
        return run_in_place(hands.gate, packs, view);
    }
    let Ok(mut lent) = Vec::with_capacity(alloc, packs.len()) else {
        return run_spread(hands, packs, view);
    };
    lend(packs, view, &mut lent);
    let lanes = lanes_for(steals, workers);
    match run_each(hands.rt, alloc, lent, hands.gate, workers, lanes) {
        Ok(lent) => take_back(lent, packs),
        Err(lent) => {
            take_back(lent, packs);
            run_spread(hands, packs, view);
        }
    }
}

impl Staff for Nobody {
    fn is_alone(&self, _packs: usize) -> bool {
        true
    }

    fn run_packs(&self, packs: &mut Vec<Pack>, shared: Shared) -> Shared {
        run_in_place(&OpenGate::new(), packs, &shared.view());
        shared
    }
}

/// Runs the packs this way.
pub(crate) fn run_by<R: Threads + Sync, G: Gate + Sync, S: Staff>(
    way: Way<'_, R, G, S>,
    packs: &mut Vec<Pack>,
    shared: Shared,
) -> Shared
    requires count { vec_len packs.old < 2 ^ 32 }
    requires can { AllCanRun (seen_in shared) packs.old.items }
    ensures runs { AllRan (seen_in shared) packs.old.items packs.new.items }
    ensures shared { result ≡ shared }
    ensures room { vec_capacity packs.new ≡ vec_capacity packs.old }
{
    let view = shared.view();
    match way {
        Way::InPlace(gate) => run_in_place(gate, packs, &view),
        Way::Spread(hands) => run_spread(&hands, packs, &view),
        Way::Boarded(hands, alloc) => run_shared(&hands, alloc, false, packs, &view),
        Way::Stealing(hands, alloc) => run_shared(&hands, alloc, true, packs, &view),
        Way::Staffed(staff) => return staff.run_packs(packs, shared),
    }
    shared
}
