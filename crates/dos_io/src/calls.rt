// Which calls of an object in memory fail.
ghost use Rattle.std.specs.Prelude.{◌≡◌, ◌≤◌, IfOk};
ghost use Rattle.dos_io.specs.Calls.{no_calls, next_is_to_fail, succeeds, after_call};

use std::alloc::{AllocError, Global};
use std::marker::Model;

/// The calls of an object in memory: the numbers of those that are to fail, and how many were made
/// and failed.
#[derive(Drop)]
pub(crate) struct Calls {
    failing: Vec<u32>,
    made: u64,
    faults: u64,
}

impl Model for Calls {
    ghost use Rattle.dos_io.specs.Calls.{CallState};

    ghost Value = { CallState };

    ghost view = { λ c. record { failing = c.failing.items; made = c.made; faults = c.faults } };
}

impl Calls {
    /// Before the first call.
    pub(crate) fn new(alloc: Global, failing: &[u32]) -> Result<Calls, AllocError>
        ensures { IfOk result (λ calls. calls ≡ no_calls failing.now) }
    {
        Ok(Calls {
            failing: Vec::from_slice(alloc, failing)?,
            made: 0,
            faults: 0,
        })
    }

    /// Counts a call, and says whether it succeeds. It fails also where what it asks for isn't
    /// possible.
    pub(crate) fn count(&mut self, possible: bool) -> bool
        ensures answer { result ≡ succeeds self.old possible }
        ensures counted { self.new ≡ after_call self.old result }
        ensures later { self.old.faults ≤ self.new.faults }
    {
        let success = self.succeeds(possible);
        self.made = self.made.saturating_add(1);
        if !success {
            self.faults = self.faults.saturating_add(1);
        }
        success
    }

    fn succeeds(&self, possible: bool) -> bool
        ensures { result ≡ succeeds self.now possible }
    {
        if self.is_next_to_fail() {
            return false;
        }
        possible
    }

    fn is_next_to_fail(&self) -> bool
        ensures { result ≡ next_is_to_fail self.now }
    {
        let number = self.made.saturating_add(1);
        self.failing.iter().any(|&n| u64::from(n) == number)
    }
}
