// A gate that holds one worker until others have come.
use std::sync::atomic::{AtomicU64, Ordering};
use std::thread;
use worker_pool::Gate;

/// How long number 0 is held at most, in turns.
const TURNS: u32 = 10_000_000;

/// Holds number 0 until all numbers of `wanted`, one bit each, have entered, or notes a miss.
#[derive(Drop)]
pub struct Holding {
    wanted: u64,
    entered: AtomicU64,
    passes: AtomicU64,
    missed: AtomicU64,
}

impl Holding {
    /// Nobody has entered yet.
    pub fn until(wanted: u64) -> Holding {
        Holding {
            wanted,
            entered: AtomicU64::new(0),
            passes: AtomicU64::new(0),
            missed: AtomicU64::new(0),
        }
    }

    /// How many have passed, the numbers that have, one bit each, and how many misses there were.
    pub fn seen(&self) -> (u64, u64, u64) {
        (
            self.passes.load(Ordering::SeqCst),
            self.entered.load(Ordering::SeqCst),
            self.missed.load(Ordering::SeqCst),
        )
    }
}

impl Gate for Holding {
    fn pass(&self, number: u32) {
        self.passes.fetch_add(1, Ordering::SeqCst);
        self.entered.fetch_or(1 << (number % 64), Ordering::SeqCst);
        if number != 0 {
            return;
        }
        for _ in 0..TURNS {
            if self.entered.load(Ordering::SeqCst) & self.wanted == self.wanted {
                return;
            }
            thread::yield_now();
        }
        self.missed.fetch_add(1, Ordering::SeqCst);
    }
}
