// A bell: who waits for another thread sleeps until it rings.

use crossbeam_utils::CachePadded;
use std::sync::Wait;
use std::sync::atomic::{AtomicU64, Ordering};

const AWAKE: u64 = 0;

const ASLEEP: u64 = 1; // or about to sleep

/// One thread rings it, and one sleeps by it. The sleeper says that it is about to sleep, looks
/// once more for what it waits for, and then sleeps, so no ring is lost on it.
#[derive(Drop)]
pub(crate) struct Bell {
    // on a cache line of its own, which each side's calls write
    state: CachePadded<AtomicU64>,
}

impl Bell {
    pub(crate) fn new() -> Bell {
        Bell {
            state: CachePadded::new(AtomicU64::new(AWAKE)),
        }
    }

    /// The sleeper is woken, or doesn't begin to sleep.
    pub(crate) fn ring(&self) {
        if self.state.load(Ordering::SeqCst) == ASLEEP {
            self.state.store(AWAKE, Ordering::SeqCst);
            self.state.wake_one();
        }
    }

    /// From now on a ring is heard.
    pub(crate) fn listen(&self) {
        self.state.store(ASLEEP, Ordering::SeqCst);
    }

    /// Sleeps until the bell rings, or for no reason.
    pub(crate) fn sleep<R: Wait>(&self, rt: &R) {
        self.state.park(rt, ASLEEP as u32);
    }
}
