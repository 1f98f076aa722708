// The workers themselves: each holds a tally, and says how it runs packs.
ghost use Rattle.std.specs.Prelude.{◌≡◌, ◌<◌, ◌≤◌, ◌+◌, ◌%◌, ◌^◌, ℕ};
ghost use Rattle.std.specs.Borrow.{GName};

use crate::gate::{Gate, OpenGate};
use crate::tally::Tally;
use crate::ways::{Hands, Nobody, Way};
use crate::workers::Workers;
use std::alloc::Global;
use std::marker::PhantomData;
use std::thread::Threads;

/// The caller runs the packs, one after another.
#[derive(Drop)]
pub struct Serial<'a, R> {
    gate: OpenGate,
    tally: &'a mut Tally,
    runtime: PhantomData<R>,
}

impl<'a, R> Serial<'a, R> {
    /// Workers that hold this tally.
    pub fn new(tally: &'a mut Tally) -> Serial<'a, R>
        ensures same { result.tally.ghost_name ≡ tally.entry.ghost_name }
        ensures value { result.tally.now ≡ tally.old }
    {
        Serial {
            gate: OpenGate::new(),
            tally,
            runtime: PhantomData,
        }
    }

    /// The tally goes back.
    pub fn finish(self)
        ensures { self.exit.1.0.now ≡ self.entry.tally.now }
    {
        let Serial {
            gate: _,
            tally: _,
            runtime: _,
        } = self;
    }
}

impl<'a, R: Threads + Sync> Workers for Serial<'a, R> {
    type Rt = R;

    type Door = OpenGate;

    type Staff = Nobody;

    ghost tally = { λ s. s.tally.now.count };

    ghost Fixed = { GName };

    ghost fixed = { λ s. s.tally.ghost_name };

    fn way(&self) -> Way<'_, R, OpenGate, Nobody> {
        Way::InPlace(&self.gate)
    }

    fn add(&mut self, more: u64) {
        self.tally.add(more);
    }

    fn hire(&mut self, _workers: u32) {}
}

/// Threads run an even part of the packs each, in one piece, decided beforehand.
#[derive(Drop)]
pub struct Spread<'a, R, G> {
    hands: Hands<'a, R, G>,
    tally: &'a mut Tally,
}

impl<'a, R, G> Spread<'a, R, G> {
    /// From 1 to 32 workers that hold this tally. One worker, or one pack, runs on the caller's own
    /// thread, and so do later calls after some that took few instructions.
    pub fn new(rt: &'a R, workers: u32, gate: &'a G, tally: &'a mut Tally) -> Spread<'a, R, G>
        requires { (0 < workers) × (workers ≤ 32) }
        ensures same { result.tally.ghost_name ≡ tally.entry.ghost_name }
        ensures value { result.tally.now ≡ tally.old }
    {
        Spread {
            hands: Hands::new(rt, workers, gate),
            tally,
        }
    }

    /// The tally goes back.
    pub fn finish(self)
        ensures { self.exit.1.0.now ≡ self.entry.tally.now }
    {
        let Spread { hands: _, tally: _ } = self;
    }
}

impl<'a, R: Threads + Sync, G: Gate + Sync> Workers for Spread<'a, R, G> {
    type Rt = R;

    type Door = G;

    type Staff = Nobody;

    ghost tally = { λ s. s.tally.now.count };

    ghost Fixed = { GName };

    ghost fixed = { λ s. s.tally.ghost_name };

    fn way(&self) -> Way<'_, R, G, Nobody> {
        Way::Spread(self.hands.again())
    }

    fn add(&mut self, more: u64) {
        self.hands.note(more);
        self.tally.add(more);
    }

    fn hire(&mut self, workers: u32) {
        self.hands.hire(workers);
    }
}

/// Threads draw packs from a board, each the lowest that it finds not begun.
#[derive(Drop)]
pub struct Boarded<'a, R, G> {
    hands: Hands<'a, R, G>,
    alloc: Global,
    tally: &'a mut Tally,
}

impl<'a, R, G> Boarded<'a, R, G> {
    /// From 1 to 32 workers that hold this tally, and take memory for a board at each call. One
    /// worker, or one pack, runs on the caller's own thread, and so do later calls after some that
    /// took few instructions.
    pub fn new(
        rt: &'a R,
        alloc: Global,
        workers: u32,
        gate: &'a G,
        tally: &'a mut Tally,
    ) -> Boarded<'a, R, G>
        requires { (0 < workers) × (workers ≤ 32) }
        ensures same { result.tally.ghost_name ≡ tally.entry.ghost_name }
        ensures value { result.tally.now ≡ tally.old }
    {
        Boarded {
            hands: Hands::new(rt, workers, gate),
            alloc,
            tally,
        }
    }

    /// The tally goes back.
    pub fn finish(self)
        ensures { self.exit.1.1.0.now ≡ self.entry.tally.now }
    {
        let Boarded {
            hands: _,
            alloc: _,
            tally: _,
        } = self;
    }
}

impl<'a, R: Threads + Sync, G: Gate + Sync> Workers for Boarded<'a, R, G> {
    type Rt = R;

    type Door = G;

    type Staff = Nobody;

    ghost tally = { λ s. s.tally.now.count };

    ghost Fixed = { GName };

    ghost fixed = { λ s. s.tally.ghost_name };

    fn way(&self) -> Way<'_, R, G, Nobody> {
        Way::Boarded(self.hands.again(), self.alloc)
    }

    fn add(&mut self, more: u64) {
        self.hands.note(more);
        self.tally.add(more);
    }

    fn hire(&mut self, workers: u32) {
        self.hands.hire(workers);
    }
}

/// Threads have a deque of numbers each, and steal from one another; a board says who runs what.
#[derive(Drop)]
pub struct Stealing<'a, R, G> {
    hands: Hands<'a, R, G>,
    alloc: Global,
    tally: &'a mut Tally,
}

impl<'a, R, G> Stealing<'a, R, G> {
    /// From 1 to 32 workers that hold this tally, and take memory for a board at each call. One
    /// worker, or one pack, runs on the caller's own thread, and so do later calls after some that
    /// took few instructions.
    pub fn new(
        rt: &'a R,
        alloc: Global,
        workers: u32,
        gate: &'a G,
        tally: &'a mut Tally,
    ) -> Stealing<'a, R, G>
        requires { (0 < workers) × (workers ≤ 32) }
        ensures same { result.tally.ghost_name ≡ tally.entry.ghost_name }
        ensures value { result.tally.now ≡ tally.old }
    {
        Stealing {
            hands: Hands::new(rt, workers, gate),
            alloc,
            tally,
        }
    }

    /// The tally goes back.
    pub fn finish(self)
        ensures { self.exit.1.1.0.now ≡ self.entry.tally.now }
    {
        let Stealing {
            hands: _,
            alloc: _,
            tally: _,
        } = self;
    }
}

impl<'a, R: Threads + Sync, G: Gate + Sync> Workers for Stealing<'a, R, G> {
    type Rt = R;

    type Door = G;

    type Staff = Nobody;

    ghost tally = { λ s. s.tally.now.count };

    ghost Fixed = { GName };

    ghost fixed = { λ s. s.tally.ghost_name };

    fn way(&self) -> Way<'_, R, G, Nobody> {
        Way::Stealing(self.hands.again(), self.alloc)
    }

    fn add(&mut self, more: u64) {
        self.hands.note(more);
        self.tally.add(more);
    }

    fn hire(&mut self, workers: u32) {
        self.hands.hire(workers);
    }
}
