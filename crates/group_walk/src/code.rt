// The instruction of a thread.
ghost use Rattle.std.specs.Prelude.{◌≡◌, ℕ, List, IfOk, IfSome, Result, Ok, Err};
ghost use Rattle.rv_isa.specs.Valid.{IsValid};
ghost use Rattle.flat_machine.specs.Step.{instruction_at};
ghost use Rattle.kernel_calls.specs.StateWorld.{IsSound, sent, world_of};
ghost use Rattle.proc_table.specs.Tables.{IsLiveThread};
ghost use Rattle.group_walk.specs.Needs.{instructions_of, seen_by};

use crate::frames::half_of;
use dos_world::Reason;
use kernel_calls::State;
use rv_isa::{Instr, decode, expand_code};

/// The instruction at an address, where its bytes mean one; or why it isn't fetched.
pub fn instruction_of(
    state: &State,
    tid: u32,
    address: u32,
    is_granted: bool,
) -> Result<Option<Instr>, Reason>
    requires sound { IsSound state.now }
    requires live { IsLiveThread state.now.table.threads tid }
    ensures is { (q : ℕ) (o e : List ℕ)
        → instructions_of
        (instruction_at (seen_by is_granted tid (sent o e (world_of q state.now))) tid address)
        ≡ result }
    ensures valid { IfOk result (λ found. IfSome found IsValid) }
{
    match half_of(state, tid, address, is_granted) {
        Err(reason) => Err(reason),
        Ok(low) => {
            if low % 4 != 3 {
                return Ok(expand_code(low));
            }
            match half_of(state, tid, address.wrapping_add(2), is_granted) {
                Err(reason) => Err(reason),
                Ok(high) => Ok(decode(low + 65536 * high)),
            }
        }
    }
}
