// Whether a call gets one worker fewer for a while, after one was late. No contract speaks of it.
ghost use Rattle.std.specs.Prelude.{◌≤◌};

/// After a lateness a call gets one worker fewer for so many instructions of all threads, about a
/// millisecond; four times as many each time that one is late again soon after.
const SHORTEST: u64 = 1 << 20;

/// And no more than so many.
const LONGEST: u64 = 1 << 24;

/// What a thread loses where the system gives its processor to another program for a while, in
/// instructions.
const LOST: u64 = 1_350_000;

/// For how many instructions there is still one worker fewer, for how many there was last time, and
/// how many were run since all were tried again.
#[derive(Clone, Copy)]
pub(crate) struct Fewer {
    left: u64,
    wait: u64,
    since: u64,
}

// With so many threads, one of which is held up after fewer instructions than this, one thread
// fewer that isn't held up is faster.
fn soon(threads: u32) -> u64 {
    let threads = u64::from(threads.min(32));
    LOST * threads * threads.saturating_sub(1)
}

impl Fewer {
    /// None was late yet.
    pub(crate) fn new() -> Fewer {
        Fewer {
            left: 0,
            wait: SHORTEST,
            since: u64::MAX,
        }
    }

    /// What is left of so many workers.
    pub(crate) fn left(&self, workers: u32) -> u32
        ensures { result ≤ workers }
    {
        if self.left == 0 {
            return workers;
        }
        workers.saturating_sub(1)
    }

    /// One of so many threads was late, or couldn't be started.
    pub(crate) fn late(&self, threads: u32) -> Fewer {
        let wait = if self.since < soon(threads) {
            self.wait.saturating_mul(4).min(LONGEST)
        } else {
            SHORTEST
        };
        Fewer {
            left: wait,
            wait,
            since: 0,
        }
    }

    /// A call ran so many instructions.
    pub(crate) fn passed(&self, work: u64) -> Fewer {
        let left = self.left.saturating_sub(work);
        Fewer {
            left,
            wait: self.wait,
            since: if left == 0 {
                self.since.saturating_add(work)
            } else {
                0
            },
        }
    }
}
