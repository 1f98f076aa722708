// Where an access of a thread goes in the frames.
ghost use Rattle.std.specs.Prelude.{◌≡◌, ◌+◌, ◌%◌, ◌<◌, ◌≤◌, ℕ, List, IfOk, length};
ghost use Rattle.dos_world.specs.Reach.{width};
ghost use Rattle.flat_machine.specs.Step.{half_at, reached};
ghost use Rattle.kernel_calls.specs.StateWorld.{IsSound, sent, world_of};
ghost use Rattle.proc_table.specs.Tables.{IsLiveThread};
ghost use Rattle.group_walk.specs.Needs.{place_in_frame, seen_by};

use dos_world::{Access, Reason, Size};
use kernel_calls::State;
use kernel_mem::entry_at;

/// The frame that an access reaches, or why it reaches none; where pages are to be granted,
/// whosever they are.
pub(crate) fn frame_of(
    state: &State,
    tid: u32,
    address: u32,
    size: Size,
    access: Access,
    is_granted: bool,
) -> Result<u32, Reason>
    requires sound { IsSound state.now }
    requires live { IsLiveThread state.now.table.threads tid }
    ensures place { (q : ℕ) (o e : List ℕ)
        → reached (seen_by is_granted tid (sent o e (world_of q state.now))) tid address size access
        ≡ place_in_frame address result }
    ensures within { IfOk result (λ frame. frame < length state.now.frames.owners) }
    ensures one { IfOk result (λ frame. address % 4096 + width size ≤ 4096) }
{
    if !size.is_aligned(address) {
        return Err(Reason::Fault(7));
    }
    match entry_at(&state.table, tid, address) {
        None => Err(Reason::Fault(11)),
        Some(entry) => {
            if !entry.has_right(access) {
                return Err(Reason::Fault(11));
            }
            if is_granted {
                return Ok(entry.frame);
            }
            if state.frames.owner(entry.frame).is_foreign(tid, access) {
                return Err(Reason::Page { address, access });
            }
            Ok(entry.frame)
        }
    }
}

/// Two bytes of an instruction.
pub(crate) fn half_of(
    state: &State,
    tid: u32,
    address: u32,
    is_granted: bool,
) -> Result<u32, Reason>
    requires sound { IsSound state.now }
    requires live { IsLiveThread state.now.table.threads tid }
    ensures half { (q : ℕ) (o e : List ℕ)
        → half_at (seen_by is_granted tid (sent o e (world_of q state.now))) tid address
        ≡ result }
    ensures range { IfOk result (λ half. half < 65536) }
{
    match frame_of(state, tid, address, Size::Half, Access::Fetch, is_granted) {
        Ok(frame) => Ok(state.frames.lend(frame).read(address % 4096, Size::Half)),
        Err(reason) => Err(reason),
    }
}
