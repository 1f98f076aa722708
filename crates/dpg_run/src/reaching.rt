// A run as far as a round.
ghost use Rattle.std.specs.Prelude.{◌≡◌, ◌≤◌, ◌-◌, false};
ghost use Rattle.dos_io.specs.Shims.{HasNoEnd};
ghost use Rattle.group_rounds.specs.Kernels.{IsBetweenRounds};
ghost use Rattle.dpg_run.specs.Reached.{ArrivesAt, border_of};

use crate::run::{run_some, tell_end};
use dos_io::{Border, GroupBorder, Shim, Sink};
use dos_world::Ending;
use group_rounds::Kernel;
use kernel_calls::RunStop;
use worker_pool::Workers;

/// How far a run has come that was to come to a round.
#[derive(Clone, Copy, Debug, PartialEq, Eq)]
pub enum Reached {
    /// So many rounds have been run.
    Round,
    /// It ended before, and the shim was told.
    Ended(Ending),
}

// as many rounds as there are up to that one, and the end, where it comes before
fn run_until<B: Border, W: Workers>(
    kernel: &mut Kernel,
    border: &mut B,
    workers: &mut W,
    round: u32,
) -> Result<Reached, RunStop>
    requires running { kernel.old.failed ≡ false }
    requires told { HasNoEnd (B.state border.old).shim.told }
    requires behind { kernel.old.state.round - 1 ≤ round }
    ensures reaches { ArrivesAt kernel.old.config round result
        kernel.old.state (B.state border.old) kernel.new.state (B.state border.new)
        kernel.new.failed (W.tally workers.old) (W.tally workers.new) }
    ensures sound { kernel.new.failed ≡ false → IsBetweenRounds kernel.new.state kernel.new.config }
    ensures config { kernel.new.config ≡ kernel.old.config }
    ensures follows { B.follows border.old border.new }
    ensures fixed { W.fixed workers.new ≡ W.fixed workers.old }
{
    let _state = kernel.state();
    let rounds = round - kernel.rounds();
    match run_some(kernel, border, workers, rounds) {
        Ok(Some(ending)) => match tell_end(kernel, border, ending) {
            Ok(ending) => Ok(Reached::Ended(ending)),
            Err(stop) => Err(stop),
        },
        Ok(None) => Ok(Reached::Round),
        Err(stop) => Err(stop),
    }
}

/// Runs a group until so many rounds have been run, counted from its first, or to its end where
/// that comes before; then the shim is told the end. Whether the round is reached is looked at
/// before each round begins, so a run whose configuration allows no more than that many reaches it.
///
/// It stops as `run_group` does. The workers' tally grows by the work of the rounds that were run,
/// and of the one that was stopped.
pub fn run_to<S: Shim, O: Sink, E: Sink, W: Workers>(
    kernel: &mut Kernel,
    shim: &mut S,
    out: &mut O,
    err: &mut E,
    workers: &mut W,
    round: u32,
) -> Result<Reached, RunStop>
    requires running { kernel.old.failed ≡ false }
    requires told { HasNoEnd (S.state shim.old).told }
    requires behind { kernel.old.state.round - 1 ≤ round }
    ensures reaches { ArrivesAt kernel.old.config round result kernel.old.state
        (border_of (S.state shim.old) (O.told out.old) (E.told err.old) (O.faults out.old)
        (E.faults err.old)) kernel.new.state
        (border_of (S.state shim.new) (O.told out.new) (E.told err.new) (O.faults out.new)
        (E.faults err.new)) kernel.new.failed (W.tally workers.old) (W.tally workers.new) }
    ensures sound { kernel.new.failed ≡ false → IsBetweenRounds kernel.new.state kernel.new.config }
    ensures config { kernel.new.config ≡ kernel.old.config }
    ensures follows { S.follows shim.old shim.new }
    ensures fixed { W.fixed workers.new ≡ W.fixed workers.old }
{
    let mut border = GroupBorder { shim, out, err };
    run_until(kernel, &mut border, workers, round)
}
