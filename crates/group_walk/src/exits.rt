// The end of the last process.
ghost use Rattle.std.specs.Prelude.{◌≡◌, ℕ, List, true};
ghost use Rattle.group_moves.specs.Moments.{moment_at};
ghost use Rattle.group_moves.specs.Places.{within_rest};
ghost use Rattle.kernel_calls.specs.StateWorld.{IsSound, sent, world_of};
ghost use Rattle.proc_table.specs.Tables.{IsLiveThread};
ghost use Rattle.group_walk.specs.Exits.{LeavesNobody};

use crate::stops::why_stops;
use dos_world::Reason;
use kernel_calls::State;

/// The number by which a process exits.
const PROCESS_EXIT: u32 = 2;

/// Whether the turn that a thread has next in the serial phase ends the only process that lives, by
/// its exit or by a fault. Nothing is run.
pub(crate) fn is_last_exit(state: &State, tid: u32) -> bool
    requires sound { IsSound state.now }
    requires live { IsLiveThread state.now.table.threads tid }
    ensures { result ≡ true → (q limit begun made : ℕ) (o e starters ts : List ℕ)
        → LeavesNobody limit (moment_at begun made (
          sent o e (world_of q state.now),
          within_rest starters tid ts,
        )) }
{
    if state.table.live_processes() != 1 {
        return false;
    }
    match why_stops(state, tid, true) {
        None => false,
        Some(Reason::Page { .. }) => false,
        Some(Reason::Fault(_)) => true,
        Some(Reason::Service) => state.table.regs(tid).get(17) == PROCESS_EXIT,
    }
}
