// The parallel phase in place: the starters' parts one after another, over the frames themselves.
ghost use Rattle.std.specs.Prelude.{◌≡◌, ◌≤◌, length};
ghost use Rattle.kernel_calls.specs.StateWorld.{IsSound};
ghost use Rattle.group_rounds.specs.Handing.{AreOnce};
ghost use Rattle.group_rounds.specs.Parts.{work_between};
ghost use Rattle.group_rounds.specs.Phases.{AreLive, HaveRunAlone};
ghost use Rattle.worker_pool.specs.Ran.{GrewBy};

use crate::part::run_alone;
use kernel_calls::State;
use worker_pool::{Staff, Way, Workers};

/// Whether the caller's own thread would run the parts of so many starters, one after another.
pub(crate) fn is_callers<W: Workers>(workers: &W, starters: usize) -> bool {
    match workers.way() {
        Way::InPlace(_gate) => true,
        Way::Spread(hands) => hands.enough_for(starters) == 1,
        Way::Boarded(hands, _alloc) => hands.enough_for(starters) == 1,
        Way::Stealing(hands, _alloc) => hands.enough_for(starters) == 1,
        Way::Staffed(staff) => staff.is_alone(starters),
    }
}

/// The parallel phase on the caller's own thread: no page leaves its frame.
pub(crate) fn run_each<W: Workers>(state: &mut State, starters: &[u32], workers: &mut W)
    requires sound { IsSound state.old }
    requires live { AreLive state.old.table.threads starters.now }
    requires apart { AreOnce starters.now }
    requires few { length starters.now ≤ 64 }
    ensures parts { HaveRunAlone starters.now state.old state.new }
    ensures tally { GrewBy (W.tally workers.old) (W.tally workers.new)
        (work_between state.old state.new starters.now) }
    ensures fixed { W.fixed workers.new ≡ W.fixed workers.old }
{
    let mut work = 0u64;
    for &tid in starters {
        work += u64::from(run_alone(state, tid));
    }
    workers.add(work);
}
