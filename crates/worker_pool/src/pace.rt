// How many threads the next call is worth, by what the last ones took. No contract speaks of it.
ghost use Rattle.std.specs.Prelude.{◌<◌, ◌≤◌};

/// So many calls are spread whatever they take.
const FIRST_CALLS: u32 = 8;

/// A thread that is started and joined costs about as much as so many instructions, or fewer.
const STARTED_COST: u64 = 8192;

/// And a thread that stays, and is told of a call; its packs come from another processor's memory.
const STAYING_COST: u64 = 900;

/// A call of fewer instructions isn't worth telling threads that stay of it.
const STAYING_LEAST: u64 = 3000;

/// What the last calls took, and what a thread costs.
#[derive(Clone, Copy)]
pub(crate) struct Pace {
    cost: u64,
    least: u64,
    calls: u32,
    work: u64,
    ghost some: { 0 < cost },
}

impl Pace {
    /// There was no call yet. Threads are started at each.
    pub(crate) fn started() -> Pace {
        Pace {
            cost: STARTED_COST,
            least: STARTED_COST,
            calls: 0,
            work: 0,
        }
    }

    /// There was no call yet. Threads stay over the calls.
    pub(crate) fn staying() -> Pace {
        Pace {
            cost: STAYING_COST,
            least: STAYING_LEAST,
            calls: 0,
            work: 0,
        }
    }

    /// A call ran so many instructions. Older calls count by halves.
    pub(crate) fn note(&mut self, work: u64) {
        self.calls = self.calls.saturating_add(1);
        self.work = work.max(self.work / 2);
    }

    /// How many threads, of at most 32, the next call is worth.
    pub(crate) fn threads(&self) -> u32
        ensures { (0 < result) × (result ≤ 32) }
    {
        if self.calls < FIRST_CALLS {
            return 32;
        }
        if self.work < self.least {
            return 1;
        }
        let threads = self.work / self.cost;
        if threads > 32 {
            32
        } else {
            (threads as u32).max(1)
        }
    }
}
