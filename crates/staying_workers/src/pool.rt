// The pool of workers that stay.
ghost use Rattle.std.specs.Prelude.{◌≡◌, ◌<◌, ◌≤◌, ◌+◌, ◌^◌, vec_len, vec_capacity};
ghost use Rattle.std.specs.Borrow.{GName};
ghost use Rattle.quantum_run.specs.Packs.{seen_in};
ghost use Rattle.worker_pool.specs.Ran.{AllCanRun, AllRan};

use crate::kept::{Hired, Kept, run_lent};
use quantum_run::{Pack, Shared};
use std::alloc::Global;
use std::sync::Arc;
use std::thread::Threads;
use worker_pool::{OpenGate, Staff, Tally, Way, Workers};

impl<'a, R: Threads> Staff for Hired<'a, R, OpenGate> {
    fn is_alone(&self, packs: usize) -> bool {
        self.is_alone(packs)
    }

    fn run_packs(&self, packs: &mut Vec<Pack>, shared: Shared) -> Shared {
        run_lent(self, packs, shared)
    }
}

/// Threads that stay from call to call, and end by themselves where no call comes: each call lends
/// them a board, from which they take packs beside the caller. Each begins at a number of its own,
/// and goes round.
#[derive(Drop)]
pub struct Staying<'a, R> {
    hired: Hired<'a, R, OpenGate>,
    tally: &'a mut Tally,
}

impl<'a, R> Staying<'a, R> {
    /// The workers that are kept here, which hold this tally. Until some are hired the caller alone
    /// runs packs.
    pub fn new(
        rt: &'a R,
        alloc: Global,
        gate: &'a Arc<OpenGate, Global>,
        kept: &'a Kept<OpenGate>,
        tally: &'a mut Tally,
    ) -> Staying<'a, R>
        ensures same { result.tally.ghost_name ≡ tally.entry.ghost_name }
        ensures value { result.tally.now ≡ tally.old }
    {
        Staying {
            hired: Hired::new(rt, alloc, gate, kept),
            tally,
        }
    }

    /// The tally goes back.
    pub fn finish(self)
        ensures { self.exit.1.0.now ≡ self.entry.tally.now }
    {
        let Staying { hired: _, tally: _ } = self;
    }
}

impl<'a, R: Threads + Sync> Workers for Staying<'a, R> {
    type Rt = R;

    type Door = OpenGate;

    type Staff = Hired<'a, R, OpenGate>;

    ghost tally = { λ s. s.tally.now.count };

    ghost Fixed = { GName };

    ghost fixed = { λ s. s.tally.ghost_name };

    fn way(&self) -> Way<'_, R, OpenGate, Hired<'a, R, OpenGate>> {
        Way::Staffed(&self.hired)
    }

    fn add(&mut self, more: u64) {
        self.hired.note(more);
        self.tally.add(more);
    }

    fn hire(&mut self, workers: u32) {
        self.hired.hire(workers);
    }
}
