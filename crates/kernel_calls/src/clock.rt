// The clock.
ghost use Rattle.std.specs.Prelude.{◌≡◌, OnErr, OnOk};
ghost use Rattle.dos_world.specs.Services.{clock};
ghost use Rattle.dos_io.specs.Shims.{HasNoEnd};
ghost use Rattle.kernel_calls.specs.StateWorld.{IsCounted, IsSound, StandsButOwners, StaysInRound};
ghost use Rattle.kernel_calls.specs.Plays.{PlaysOnce};
ghost use Rattle.kernel_calls.specs.CallResults.{AreAsked, call_in};

use crate::answering::reply_two;
use crate::state::{Asked, RunStop, Served, State, run_stop};
use dos_io::Border;

// How many readings a register tells apart.
const HALF: u64 = 0x1_0000_0000;

/// A reading of the shim's clock: its low half in a0, its high half in a1.
pub(crate) fn clock<B: Border>(
    state: &mut State,
    asked: &Asked,
    border: &mut B,
) -> Result<Served, RunStop>
    requires sound { IsSound state.old }
    requires asked { AreAsked state.old asked.now }
    requires told { HasNoEnd (B.state border.old).shim.told }
    ensures plays { PlaysOnce (λ w. clock (call_in w asked.now)) result
        state.old (B.state border.old) state.new (B.state border.new) }
    ensures counted { OnOk result (IsCounted state.new) }
    ensures stands { OnErr result (StandsButOwners state.old state.new) }
    ensures round { StaysInRound state.old state.new }
    ensures follows { B.follows border.old border.new }
{
    match border.clock(state.round, asked.thread) {
        Ok(reading) => {
            let low = (reading % HALF) as u32;
            let high = (reading / HALF % HALF) as u32;
            reply_two(state, asked.thread, low, high);
            Ok(Served::Went)
        }
        Err(stop) => Err(run_stop(stop)),
    }
}
