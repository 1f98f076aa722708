// The workers that are kept from call to call, and how a call's packs are run by them.
ghost use Rattle.std.specs.Prelude.{◌≡◌, ◌<◌, ◌≤◌, ◌^◌, vec_len, vec_capacity};
ghost use Rattle.quantum_run.specs.Packs.{seen_in};
ghost use Rattle.worker_pool.specs.Ran.{AllCanRun, AllRan};

use crate::fewer::Fewer;
use crate::held::{lend, take_back};
use crate::rounds::{Idle, MOST, dismiss_all, run_each};
use counted_loans::Lender;
use quantum_run::{Pack, Shared};
use std::alloc::Global;
use std::cell::Cell;
use std::sync::Arc;
use std::thread;
use std::thread::Threads;
use worker_pool::{Gate, Hands, run_in_place};

/// Workers between calls: who has no order, and how many fewer a call gets for a while.
#[derive(Drop)]
pub struct Kept<G: Gate> {
    idle: Cell<Vec<Idle<G>>>,
    fewer: Cell<Fewer>,
}

impl<G: Gate> Kept<G> {
    /// No worker yet.
    pub fn new(alloc: Global) -> Kept<G> {
        Kept {
            idle: Cell::new(Vec::new(alloc)),
            fewer: Cell::new(Fewer::new()),
        }
    }
}

impl<G: Gate + Drop> Kept<G> {
    /// Each worker has ended when this returns; later calls start others.
    pub fn dismiss<R: Threads>(&self, rt: &R, alloc: Global) {
        dismiss_all(rt, self.idle.replace(Vec::new(alloc)));
    }

    // so many should be there after a call
    fn keep(&self, idle: Vec<Idle<G>>, others: usize) {
        if idle.len() < others {
            self.fewer
                .set(self.fewer.get().late(others.min(MOST) as u32 + 1));
        }
        self.idle.set(idle);
    }
}

/// The workers of a pool that may be used, and the gate that they pass.
#[derive(Drop)]
pub struct Hired<'a, R, G: Gate> {
    rt: &'a R,
    alloc: Global,
    gate: &'a Arc<G, Global>,
    kept: &'a Kept<G>,
    // the caller, and the workers that are used
    hands: Hands<'a, R, G>,
}

impl<'a, R, G: Gate> Hired<'a, R, G> {
    /// Nobody yet: until some are hired the caller alone runs packs.
    pub fn new(
        rt: &'a R,
        alloc: Global,
        gate: &'a Arc<G, Global>,
        kept: &'a Kept<G>,
    ) -> Hired<'a, R, G> {
        let door: &'a G = gate;
        Hired {
            rt,
            alloc,
            gate,
            kept,
            hands: Hands::staying(rt, 1, door),
        }
    }

    /// A call ran so many instructions.
    pub fn note(&mut self, work: u64) {
        self.hands.note(work);
        self.kept.fewer.set(self.kept.fewer.get().passed(work));
    }

    // the workers that are to run so many packs beside the caller
    fn others(&self, packs: usize) -> u32
        ensures { result < 32 }
    {
        self.kept.fewer.get().left(self.hands.enough_for(packs) - 1)
    }

    /// Whether the caller alone would run so many packs.
    pub fn is_alone(&self, packs: usize) -> bool {
        self.others(packs) == 0
    }
}

// How many processors there are beside the caller's, as far as that is known.
fn other_processors<R: Threads>(rt: &R) -> u32 {
    match thread::available_parallelism(rt) {
        Ok(count) => count.get().min(MOST) as u32 - 1,
        Err(_) => 0,
    }
}

impl<'a, R: Threads, G: Gate> Hired<'a, R, G> {
    /// From now on at most so many threads, the caller's among them, and no more than there are
    /// processors, but two at least where two are asked for.
    pub fn hire(&mut self, workers: u32)
        requires { (0 < workers) × (workers ≤ 32) }
    {
        let most = other_processors(self.rt).max(1);
        self.hands.hire((workers - 1).min(most).min(31) + 1);
    }
}

// one after another, on the caller's own thread
fn run_alone<G: Gate>(gate: &G, packs: &mut Vec<Pack>, shared: &Shared)
    requires count { vec_len packs.old < 2 ^ 32 }
    requires can { AllCanRun (seen_in shared.now) packs.old.items }
    ensures runs { AllRan (seen_in shared.now) packs.old.items packs.new.items }
    ensures room { vec_capacity packs.new ≡ vec_capacity packs.old }
{
    run_in_place(gate, packs, &shared.view());
}

// the same where what they share is with its lender
fn run_beside<G: Gate>(
    gate: &G,
    packs: &mut Vec<Pack>,
    lender: Lender<Shared, Global>,
) -> Lender<Shared, Global>
    requires none { lender.out ≡ 0 }
    requires count { vec_len packs.old < 2 ^ 32 }
    requires can { AllCanRun (seen_in lender.value) packs.old.items }
    ensures runs { AllRan (seen_in lender.value) packs.old.items packs.new.items }
    ensures room { vec_capacity packs.new ≡ vec_capacity packs.old }
    ensures lender { (result.value ≡ lender.value) × (result.out ≡ 0) }
{
    let (lender, mine) = lender.lend();
    run_alone(gate, packs, mine.get());
    lender.take_back(mine)
}

// by the caller and so many workers; where memory is wanting, by the caller alone
fn run_owned<R: Threads, G: Gate + Send + Sync + Drop + 'static>(
    rt: &R,
    alloc: Global,
    gate: &Arc<G, Global>,
    idle: &mut Vec<Idle<G>>,
    others: usize,
    packs: &mut Vec<Pack>,
    lender: Lender<Shared, Global>,
) -> Lender<Shared, Global>
    requires none { lender.out ≡ 0 }
    requires few { others < 2 ^ 32 }
    requires count { vec_len packs.old < 2 ^ 32 }
    requires can { AllCanRun (seen_in lender.value) packs.old.items }
    ensures runs { AllRan (seen_in lender.value) packs.old.items packs.new.items }
    ensures room { vec_capacity packs.new ≡ vec_capacity packs.old }
    ensures lender { (result.value ≡ lender.value) × (result.out ≡ 0) }
{
    let door: &G = gate;
    let Ok(mut held) = Vec::with_capacity(alloc, packs.len()) else {
        return run_beside(door, packs, lender);
    };
    let lender = lend(packs, lender, &mut held);
    match run_each(rt, alloc, held, gate, idle, others) {
        Ok(held) => take_back(held, packs, lender),
        Err(held) => {
            let lender = take_back(held, packs, lender);
            run_beside(door, packs, lender)
        }
    }
}

/// Runs each pack, as `run_pack` does; what they share comes back as it was.
pub fn run_lent<R: Threads, G: Gate + Send + Sync + Drop + 'static>(
    hired: &Hired<'_, R, G>,
    packs: &mut Vec<Pack>,
    shared: Shared,
) -> Shared
    requires count { vec_len packs.old < 2 ^ 32 }
    requires can { AllCanRun (seen_in shared) packs.old.items }
    ensures runs { AllRan (seen_in shared) packs.old.items packs.new.items }
    ensures shared { result ≡ shared }
    ensures room { vec_capacity packs.new ≡ vec_capacity packs.old }
{
    let (rt, alloc, gate, kept) = (hired.rt, hired.alloc, hired.gate, hired.kept);
    let others = hired.others(packs.len()) as usize;
    let door: &G = gate;
    if others == 0 {
        run_alone(door, packs, &shared);
        return shared;
    }
    match Box::new(alloc, shared) {
        Ok(owner) => {
            let mut idle = kept.idle.replace(Vec::new(alloc));
            let lender = Lender::new(owner);
            let lender = run_owned(rt, alloc, gate, &mut idle, others, packs, lender);
            kept.keep(idle, others);
            Box::into_inner(lender.into_box())
        }
        Err(failed) => {
            let shared = failed.value;
            run_alone(door, packs, &shared);
            shared
        }
    }
}
