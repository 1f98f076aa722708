// A run that is replayed.
ghost use Rattle.std.specs.Prelude.{◌≡◌, ◌≢◌, ◌≤◌, ℕ, List, Err, false, IfOk, IfErr, IsErrOf};
ghost use Rattle.std.specs.Prelude.{OnErr};
ghost use Rattle.dos_world.specs.declared.Misfit.{Misfit};
ghost use Rattle.dos_world.specs.declared.Scheme.{Scheme};
ghost use Rattle.elf_image.specs.Image.{Image};
ghost use Rattle.flat_machine.specs.Machine.{Seen};
ghost use Rattle.kernel_calls.specs.StateWorld.{HasSinkCause};
ghost use Rattle.kernel_calls.specs.declared.state.RunStop.TheVariants as stops;
ghost use Rattle.logged_runs.specs.Opened.{IsOpenedWith};
ghost use Rattle.logged_runs.specs.Runs.{Ended, Halted};
ghost use Rattle.logged_runs.specs.Replaying.{Replayed, ReplayedAhead, ReplayedUntil, StopsReplay};
ghost use Rattle.logged_runs.specs.Replaying.{config_of};

use dos_io::Sink;
use dos_world::Ending;
use dpg_run::run_group;
use group_rounds::Kernel;
use kernel_calls::RunStop;
use log_text::Log;
use shim_log::Replayer;
use worker_pool::Workers;

/// Runs a group that was opened by the answers of a log, of which it asks nothing else, in the
/// scheme of its kernel: a log names none.
///
/// It stops where the log has an exchange of another question than the run asks, by that misfit, or
/// where an output fails, and by nothing else: it takes no memory. The workers' tally grows by the
/// instructions of the parallel phases, however it ends.
pub fn replay_group<O: Sink, E: Sink, W: Workers>(
    kernel: &mut Kernel,
    log: Log,
    out: &mut O,
    err: &mut E,
    workers: &mut W,
) -> Result<Ending, RunStop>
    requires running { kernel.old.failed ≡ false }
    ensures ran { IfOk result (λ ending. (scheme : Scheme) (images : List Image)
        → IsOpenedWith kernel.old images (config_of scheme log.header)
        → (seen : Seen) × Replayed scheme images log seen
        × Ended kernel.new ending seen (O.told out.old) (E.told err.old) (O.told out.new)
        (E.told err.new) (W.tally workers.old) (W.tally workers.new)) }
    ensures misfit { (found : Misfit) → IsErrOf result (stops.Misfit found) → (scheme : Scheme)
        (images : List Image) → IsOpenedWith kernel.old images (config_of scheme log.header)
        → (output : List ℕ) × (error : List ℕ) × (work : ℕ)
        × ReplayedUntil scheme images log found output error work
        × Halted (O.told out.old) (E.told err.old) (O.told out.new) (E.told err.new)
        (W.tally workers.old) (W.tally workers.new) output error work }
    ensures cut { OnErr result ((scheme : Scheme) (images : List Image)
        → IsOpenedWith kernel.old images (config_of scheme log.header)
        → (output : List ℕ) × (error : List ℕ) × (work : ℕ)
        × ReplayedAhead scheme images log output error work
        × Halted (O.told out.old) (E.told err.old) (O.told out.new) (E.told err.new)
        (W.tally workers.old) (W.tally workers.new) output error work) }
    ensures only { IfErr result StopsReplay }
    ensures sinks { IfErr result (λ stop. HasSinkCause stop (O.faults out.old) (O.faults out.new)
        (E.faults err.old) (E.faults err.new)) }
    ensures out_steady { result ≢ Err RunStop.OutFault → O.faults out.new ≡ O.faults out.old }
    ensures err_steady { result ≢ Err RunStop.ErrFault → E.faults err.new ≡ E.faults err.old }
    ensures out_later { O.faults out.old ≤ O.faults out.new }
    ensures err_later { E.faults err.old ≤ E.faults err.new }
    ensures fixed { W.fixed workers.new ≡ W.fixed workers.old }
{
    let _exchanges = log.len();
    let mut shim = Replayer::new(log);
    match run_group(kernel, &mut shim, out, err, workers) {
        Ok(ending) => Ok(ending),
        Err(stop) => {
            shim.look();
            Err(stop)
        }
    }
}
