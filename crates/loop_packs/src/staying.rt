// Workers that stay, at the gate that holds one until others have come.
ghost use Rattle.std.specs.Prelude.{◌≡◌, ◌<◌, ◌≤◌, ◌+◌, ◌^◌, vec_len, vec_capacity};
ghost use Rattle.std.specs.Borrow.{GName};
ghost use Rattle.quantum_run.specs.Packs.{seen_in};
ghost use Rattle.worker_pool.specs.Ran.{AllCanRun, AllRan};

use crate::gate::Holding;
use quantum_run::{Pack, Shared};
use staying_workers::{Hired, Kept, run_lent};
use std::alloc::Global;
use std::sync::Arc;
use std::thread::Threads;
use worker_pool::{Staff, Tally, Way, Workers};

/// The workers that a `StayingHeld` may use.
#[derive(Drop)]
pub struct HiredHeld<'a, R> {
    hired: Hired<'a, R, Holding>,
}

impl<'a, R: Threads> Staff for HiredHeld<'a, R> {
    fn is_alone(&self, packs: usize) -> bool {
        self.hired.is_alone(packs)
    }

    fn run_packs(&self, packs: &mut Vec<Pack>, shared: Shared) -> Shared {
        run_lent(&self.hired, packs, shared)
    }
}

/// `Staying` of staying_workers at another gate: the same workers, run by the same function.
#[derive(Drop)]
pub struct StayingHeld<'a, R> {
    held: HiredHeld<'a, R>,
    tally: &'a mut Tally,
}

impl<'a, R> StayingHeld<'a, R> {
    /// The workers that are kept here, which hold this tally. Until some are hired the caller alone
    /// runs packs.
    pub fn new(
        rt: &'a R,
        alloc: Global,
        gate: &'a Arc<Holding, Global>,
        kept: &'a Kept<Holding>,
        tally: &'a mut Tally,
    ) -> StayingHeld<'a, R>
        ensures same { result.tally.ghost_name ≡ tally.entry.ghost_name }
        ensures value { result.tally.now ≡ tally.old }
    {
        StayingHeld {
            held: HiredHeld {
                hired: Hired::new(rt, alloc, gate, kept),
            },
            tally,
        }
    }

    /// The tally goes back.
    pub fn finish(self)
        ensures { self.exit.1.0.now ≡ self.entry.tally.now }
    {
        let StayingHeld { held: _, tally: _ } = self;
    }
}

impl<'a, R: Threads + Sync> Workers for StayingHeld<'a, R> {
    type Rt = R;

    type Door = Holding;

    type Staff = HiredHeld<'a, R>;

    ghost tally = { λ s. s.tally.now.count };

    ghost Fixed = { GName };

    ghost fixed = { λ s. s.tally.ghost_name };

    fn way(&self) -> Way<'_, R, Holding, HiredHeld<'a, R>> {
        Way::Staffed(&self.held)
    }

    fn add(&mut self, more: u64) {
        self.held.hired.note(more);
        self.tally.add(more);
    }

    fn hire(&mut self, workers: u32) {
        self.held.hired.hire(workers);
    }
}
