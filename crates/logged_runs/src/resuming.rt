// A replay as far as a round, and a run that goes on from there.
ghost use Rattle.std.specs.Prelude.{◌≡◌, ◌≢◌, ◌≤◌, ◌<◌, ℕ, List, Err, false, IfOk, IfErr, IsErrOf};
ghost use Rattle.std.specs.Prelude.{OnErr, OnOk, length};
ghost use Rattle.dos_world.specs.declared.Misfit.{Misfit};
ghost use Rattle.dos_world.specs.declared.Scheme.{Scheme};
ghost use Rattle.elf_image.specs.Image.{Image};
ghost use Rattle.flat_machine.specs.Machine.{Seen};
ghost use Rattle.group_rounds.specs.Kernels.{IsBetweenRounds, kernel_world};
ghost use Rattle.kernel_calls.specs.StateWorld.{HasSinkCause};
ghost use Rattle.kernel_calls.specs.declared.state.RunStop.TheVariants as stops;
ghost use Rattle.log_text.specs.LogText.{exchanges};
ghost use Rattle.logged_runs.specs.Opened.{IsOpenedWith};
ghost use Rattle.logged_runs.specs.Runs.{Ended, Halted};
ghost use Rattle.logged_runs.specs.Replaying.{ReplayedAhead, ReplayedUntil, StopsReplay, config_of};
ghost use Rattle.logged_runs.specs.Resuming.{Arrives, AsksWithin, Resumed, ResumedAhead};
ghost use Rattle.logged_runs.specs.Resuming.{ResumedUntil};

use dos_io::Sink;
use dos_world::Ending;
use dpg_run::{Reached, run_group, run_to};
use group_rounds::Kernel;
use kernel_calls::RunStop;
use log_text::Log;
use shim_log::Replayer;
use worker_pool::Workers;

/// How far a replay came that was to come to a round.
#[derive(Clone, Copy, Debug, PartialEq, Eq)]
pub enum Arrived {
    /// So many rounds have been run.
    AtRound {
        /// How many exchanges of the log were used by then.
        used: u32,
    },
    /// It ended so before.
    AtItsEnd(Ending),
}

/// Runs a group that was opened by the answers of a log, in the scheme of its kernel, until so many
/// rounds have been run, or to its end where that comes before. It stops as a whole replay does,
/// and takes no memory; at the log's misfit where a run that has no more rounds than these comes to
/// it.
pub fn replay_to<O: Sink, E: Sink, W: Workers>(
    kernel: &mut Kernel,
    log: Log,
    round: u32,
    out: &mut O,
    err: &mut E,
    workers: &mut W,
) -> Result<Arrived, RunStop>
    requires running { kernel.old.failed ≡ false }
    requires fresh { kernel.old.state.round ≡ 1 }
    ensures arrived { IfOk result (λ x. (scheme : Scheme) (images : List Image)
        → IsOpenedWith kernel.old images (config_of scheme log.header)
        → Arrives scheme x images log round kernel.new (O.told out.old) (E.told err.old)
        (O.told out.new) (E.told err.new) (W.tally workers.old) (W.tally workers.new)) }
    ensures misfit { (found : Misfit) → IsErrOf result (stops.Misfit found) → (scheme : Scheme)
        (images : List Image) → IsOpenedWith kernel.old images (config_of scheme log.header)
        → (output : List ℕ) × (error : List ℕ) × (work : ℕ)
        × ReplayedUntil scheme images log found output error work
        × Halted (O.told out.old) (E.told err.old) (O.told out.new) (E.told err.new)
        (W.tally workers.old) (W.tally workers.new) output error work
        × AsksWithin scheme round images log found }
    ensures cut { OnErr result ((scheme : Scheme) (images : List Image)
        → IsOpenedWith kernel.old images (config_of scheme log.header)
        → (output : List ℕ) × (error : List ℕ) × (work : ℕ)
        × ReplayedAhead scheme images log output error work
        × Halted (O.told out.old) (E.told err.old) (O.told out.new) (E.told err.new)
        (W.tally workers.old) (W.tally workers.new) output error work) }
    ensures only { IfErr result StopsReplay }
    ensures sinks { IfErr result (λ stop. HasSinkCause stop (O.faults out.old) (O.faults out.new)
        (E.faults err.old) (E.faults err.new)) }
    ensures running { OnOk result (kernel.new.failed ≡ false) }
    ensures sound { OnOk result (IsBetweenRounds kernel.new.state kernel.new.config) }
    ensures config { kernel.new.config ≡ kernel.old.config }
    ensures out_steady { result ≢ Err RunStop.OutFault → O.faults out.new ≡ O.faults out.old }
    ensures err_steady { result ≢ Err RunStop.ErrFault → E.faults err.new ≡ E.faults err.old }
    ensures out_later { O.faults out.old ≤ O.faults out.new }
    ensures err_later { E.faults err.old ≤ E.faults err.new }
    ensures fixed { W.fixed workers.new ≡ W.fixed workers.old }
{
    let _exchanges = log.len();
    let _state = kernel.state();
    let mut shim = Replayer::new(log);
    match run_to(kernel, &mut shim, out, err, workers, round) {
        Ok(Reached::Round) => Ok(Arrived::AtRound { used: shim.used() }),
        Ok(Reached::Ended(ending)) => Ok(Arrived::AtItsEnd(ending)),
        Err(stop) => {
            shim.look();
            Err(stop)
        }
    }
}

/// Runs a group on, from wherever it stands between two rounds, in the scheme of its kernel, by the
/// answers of a log of which so many exchanges were used, to its end. It stops as a whole replay
/// does, and takes no memory.
pub fn resume_group<O: Sink, E: Sink, W: Workers>(
    kernel: &mut Kernel,
    log: Log,
    used: u32,
    out: &mut O,
    err: &mut E,
    workers: &mut W,
) -> Result<Ending, RunStop>
    requires running { kernel.old.failed ≡ false }
    requires left { used < length (exchanges log) }
    ensures ran { IfOk result (λ ending. (seen : Seen)
        × Resumed (kernel_world kernel.old) kernel.old.config used log seen
        × Ended kernel.new ending seen (O.told out.old) (E.told err.old) (O.told out.new)
        (E.told err.new) (W.tally workers.old) (W.tally workers.new)) }
    ensures misfit { (found : Misfit) → IsErrOf result (stops.Misfit found)
        → (output : List ℕ) × (error : List ℕ) × (work : ℕ)
        × ResumedUntil (kernel_world kernel.old) kernel.old.config used log found output error work
        × Halted (O.told out.old) (E.told err.old) (O.told out.new) (E.told err.new)
        (W.tally workers.old) (W.tally workers.new) output error work }
    ensures cut { OnErr result ((output : List ℕ) × (error : List ℕ) × (work : ℕ)
        × ResumedAhead (kernel_world kernel.old) kernel.old.config used log output error work
        × Halted (O.told out.old) (E.told err.old) (O.told out.new) (E.told err.new)
        (W.tally workers.old) (W.tally workers.new) output error work) }
    ensures only { IfErr result StopsReplay }
    ensures sinks { IfErr result (λ stop. HasSinkCause stop (O.faults out.old) (O.faults out.new)
        (E.faults err.old) (E.faults err.new)) }
    ensures out_steady { result ≢ Err RunStop.OutFault → O.faults out.new ≡ O.faults out.old }
    ensures err_steady { result ≢ Err RunStop.ErrFault → E.faults err.new ≡ E.faults err.old }
    ensures out_later { O.faults out.old ≤ O.faults out.new }
    ensures err_later { E.faults err.old ≤ E.faults err.new }
    ensures fixed { W.fixed workers.new ≡ W.fixed workers.old }
{
    let _exchanges = log.len();
    let mut shim = Replayer::resume(log, used);
    match run_group(kernel, &mut shim, out, err, workers) {
        Ok(ending) => Ok(ending),
        Err(stop) => {
            shim.look();
            Err(stop)
        }
    }
}
