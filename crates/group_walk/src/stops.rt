// Why a thread's instruction would stop.
ghost use Rattle.std.specs.Prelude.{◌≡◌, ℕ, List};
ghost use Rattle.flat_machine.specs.Step.{step};
ghost use Rattle.kernel_calls.specs.StateWorld.{IsSound, sent, world_of};
ghost use Rattle.proc_table.specs.Tables.{IsLiveThread};
ghost use Rattle.group_walk.specs.Needs.{reason_of, seen_by, unmet};

use crate::code::instruction_of;
use crate::frames::frame_of;
use crate::need::{Need, need_of};
use dos_world::Reason;
use kernel_calls::State;

// why the thread doesn't have what is needed
fn why_unmet(state: &State, tid: u32, need: Need, is_granted: bool) -> Option<Reason>
    requires sound { IsSound state.now }
    requires live { IsLiveThread state.now.table.threads tid }
    ensures { (q : ℕ) (o e : List ℕ)
        → unmet (seen_by is_granted tid (sent o e (world_of q state.now))) tid need ≡ result }
{
    match need {
        Need::Nothing => None,
        Need::Reach {
            address,
            size,
            access,
        } => match frame_of(state, tid, address, size, access, is_granted) {
            Ok(_) => None,
            Err(reason) => Some(reason),
        },
        Need::Stop(reason) => Some(reason),
    }
}

/// Why the thread's next instruction would stop; None exactly where it would be done. With
/// `is_granted` as if each page were granted to it that it maps. Nothing is run.
pub fn why_stops(state: &State, tid: u32, is_granted: bool) -> Option<Reason>
    requires sound { IsSound state.now }
    requires live { IsLiveThread state.now.table.threads tid }
    ensures { (q : ℕ) (o e : List ℕ)
        → reason_of (step (seen_by is_granted tid (sent o e (world_of q state.now))) tid)
        ≡ result }
{
    let regs = state.table.regs(tid);
    match instruction_of(state, tid, regs.pc(), is_granted) {
        Err(reason) => Some(reason),
        Ok(None) => Some(Reason::Fault(4)),
        Ok(Some(instr)) => why_unmet(state, tid, need_of(&instr, regs), is_granted),
    }
}
