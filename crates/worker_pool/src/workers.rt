// Who runs packs, and counts the instructions.
ghost use Rattle.std.specs.Prelude.{◌≡◌, ◌<◌, ◌≤◌, ◌+◌, ◌-◌, ◌%◌, ◌^◌, ℕ, length};
ghost use Rattle.std.specs.Prelude.{vec_len, vec_capacity};
ghost use Rattle.quantum_run.specs.Packs.{seen_in};
ghost use Rattle.worker_pool.specs.Ran.{AllCanRun, AllRan, budgets_left};

use crate::gate::Gate;
use crate::ways::{Staff, Way, run_by};
use quantum_run::{Pack, Shared};
use std::thread::Threads;

/// Who runs the packs of a phase. Workers hold a tally, and keep it.
pub trait Workers {
    /// By which threads are started.
    type Rt: Threads + Sync;

    /// What each worker passes as it begins a pack.
    type Door: Gate + Sync;

    /// Threads that stay: `Nobody` where there are none.
    type Staff: Staff;

    /// The count of the tally that is held.
    ghost tally: { Self → ℕ };

    ghost Fixed: { Type 0 };

    /// What no call changes: which tally it is.
    ghost fixed: { Self → Fixed };

    /// How the next packs are run.
    fn way(&self) -> Way<'_, Self::Rt, Self::Door, Self::Staff>;

    /// So many instructions were run.
    fn add(&mut self, more: u64)
        ensures tally { tally self.new ≡ (tally self.old + more) % 2 ^ 64 }
        ensures fixed { fixed self.new ≡ fixed self.old };

    /// From now on at most so many threads run packs, from 1 to 32, the caller's among them.
    fn hire(&mut self, workers: u32)
        requires { (0 < workers) × (workers ≤ 32) }
        ensures tally { tally self.new ≡ tally self.old }
        ensures fixed { fixed self.new ≡ fixed self.old };

    /// Runs each pack as `run_pack` does, in whatever order and on whatever thread; the packs come
    /// back in order, into the same vector, and what they share comes back as it was. It can't be
    /// refused: where memory for the way is wanting, another is taken. The tally grows by the
    /// instructions that were run, which are the packs' budgets before less those after.
    final fn run_all(&mut self, packs: &mut Vec<Pack>, shared: Shared) -> Shared
        requires count { vec_len packs.old < 2 ^ 32 }
        requires can { AllCanRun (seen_in shared) packs.old.items }
        ensures number { vec_len packs.new ≡ vec_len packs.old }
        ensures runs { AllRan (seen_in shared) packs.old.items packs.new.items }
        ensures shared { result ≡ shared }
        ensures room { vec_capacity packs.old ≤ vec_capacity packs.new }
        ensures tally { tally self.new
            ≡ (tally self.old + (budgets_left packs.old.items - budgets_left packs.new.items))
            % 2 ^ 64 }
        ensures fixed { fixed self.new ≡ fixed self.old }
    {
        let before = budgets_of(packs.as_slice());
        let shared = run_by(self.way(), packs, shared);
        let after = budgets_of(packs.as_slice());
        self.add(before - after);
        shared
    }
}

// the sum of the budgets
fn budgets_of(packs: &[Pack]) -> u64
    requires { length packs.now < 2 ^ 32 }
    ensures { result ≡ budgets_left packs.now }
{
    let mut sum = 0u64;
    for pack in packs {
        sum += u64::from(pack.budget());
    }
    sum
}
