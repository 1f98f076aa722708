// A run that is replayed and traced.
ghost use Rattle.std.specs.Prelude.{◌≡◌, ◌≢◌, ◌≤◌, List, Err, false, IfOk, IfErr, IsErrOf};
ghost use Rattle.dos_world.specs.declared.Misfit.{Misfit};
ghost use Rattle.dos_world.specs.declared.Scheme.TheVariants.{Ownership};
ghost use Rattle.elf_image.specs.Image.{Image};
ghost use Rattle.kernel_calls.specs.declared.state.RunStop.TheVariants as stops;
ghost use Rattle.logged_runs.specs.Opened.{IsOpenedWith};
ghost use Rattle.logged_runs.specs.Replaying.{config_of};
ghost use Rattle.page_trace.specs.Tracing.{HasLineCause};
ghost use Rattle.page_trace.specs.declared.stop.TraceStop.TheVariants as traces;
ghost use Rattle.traced_logs.specs.TracedLogs.{StopsTrace, TracedAhead, TracedUntil, TracedWhole};

use dos_io::Sink;
use dos_world::Ending;
use generated_group::DropSink;
use group_rounds::Kernel;
use log_text::Log;
use page_trace::{TraceStop, run_traced};
use shim_log::Replayer;
use std::alloc::Global;
use worker_pool::Workers;

/// Runs a group that was opened in the ownership scheme by the answers of a log, and puts after
/// each round a line for each frame whose owner has changed in it. The guests' bytes are dropped.
///
/// It stops where the log has an exchange of another question than the run asks, by that misfit,
/// where a line fails, or for want of memory before the first round, and by nothing else.
pub fn trace_log<T: Sink, W: Workers>(
    alloc: Global,
    kernel: &mut Kernel,
    log: Log,
    lines: &mut T,
    workers: &mut W,
) -> Result<Ending, TraceStop>
    requires { kernel.old.failed ≡ false }
    ensures ran { IfOk result (λ ending. (images : List Image)
        → IsOpenedWith kernel.old images (config_of Ownership log.header)
        → TracedWhole images log kernel.new ending (T.told lines.old) (T.told lines.new)
        (W.tally workers.old) (W.tally workers.new)) }
    ensures misfit { (found : Misfit) → IsErrOf result (traces.Run (stops.Misfit found))
        → (images : List Image) → IsOpenedWith kernel.old images (config_of Ownership log.header)
        → TracedUntil images log found (T.told lines.old) (T.told lines.new)
        (W.tally workers.old) (W.tally workers.new) }
    ensures cut { IsErrOf result traces.LineFault → (images : List Image)
        → IsOpenedWith kernel.old images (config_of Ownership log.header)
        → TracedAhead images log (T.told lines.old) (T.told lines.new)
        (W.tally workers.old) (W.tally workers.new) }
    ensures memory { IsErrOf result traces.Memory → T.told lines.new ≡ T.told lines.old }
    ensures rested { IsErrOf result traces.Memory → W.tally workers.new ≡ W.tally workers.old }
    ensures only { IfErr result StopsTrace }
    ensures cause { IfErr result
        (λ stop. HasLineCause stop (T.faults lines.old) (T.faults lines.new)) }
    ensures later { T.faults lines.old ≤ T.faults lines.new }
    ensures steady { result ≢ Err TraceStop.LineFault → T.faults lines.new ≡ T.faults lines.old }
    ensures fixed { W.fixed workers.new ≡ W.fixed workers.old }
{
    let _exchanges = log.len();
    let mut shim = Replayer::new(log);
    let mut out = DropSink;
    let mut err = DropSink;
    match run_traced(alloc, kernel, &mut shim, &mut out, &mut err, lines, workers) {
        Ok(ending) => Ok(ending),
        Err(stop) => {
            shim.look();
            Err(stop)
        }
    }
}
