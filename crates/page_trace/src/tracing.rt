//! A run whose changes of owners are put round by round.
ghost use Rattle.std.specs.Prelude.{◌≡◌, ◌≢◌, ◌≤◌, ◌-◌, false, is_err, length, Err, IfErr, IfOk};
ghost use Rattle.std.specs.Prelude.{IsErrOf, OnErr, OnOk};
ghost use Rattle.dos_io.specs.Outside.{GrewByFront, HasCause, grown};
ghost use Rattle.dos_io.specs.Shims.{HasNoEnd};
ghost use Rattle.page_store.specs.Store.{AreMarked};
ghost use Rattle.group_rounds.specs.Kernels.{IsBetweenRounds, kernel_marked};
ghost use Rattle.dpg_run.specs.GroupRuns.{RunsGroup};
ghost use Rattle.dpg_run.specs.Reached.{border_of};
ghost use Rattle.page_trace.specs.Lines.{change_lines};
ghost use Rattle.page_trace.specs.Trace.{changes};
ghost use Rattle.page_trace.specs.Tracing.{Counts, EndsTraced, HasLineCause, OfRun, RoundTraces};
ghost use Rattle.page_trace.specs.Tracing.{RoundsTrace, Traces, traced, traced_at};

use crate::putting::put_changes;
use crate::stop::TraceStop;
use dos_io::{Border, GroupBorder, Shim, Sink};
use dos_world::Ending;
use dpg_run::{limit_ending, run_next, tell_end};
use group_rounds::Kernel;
use std::alloc::Global;
use worker_pool::Workers;

// The lines of a round after which the run has ended so, or goes on.
fn put_round<T: Sink>(
    kernel: &mut Kernel,
    ended: Option<Ending>,
    round: u32,
    lines: &mut T,
) -> Result<Option<Ending>, TraceStop>
    requires { AreMarked kernel.old.state.frames }
    ensures same { IfOk result (λ x. x ≡ ended) }
    ensures kernel { kernel.new ≡ kernel_marked kernel.old kernel.new.state.frames.marked }
    ensures marked { OnOk result (kernel.new.state.frames.marked
        ≡ kernel.new.state.frames.owners) }
    ensures ok { OnOk result (T.told lines.new ≡ grown (T.told lines.old) (change_lines (changes
        round kernel.old.state.frames.marked kernel.old.state.frames.owners))) }
    ensures only { IfErr result (λ stop. stop ≡ TraceStop.LineFault) }
    ensures err { OnErr result (GrewByFront (T.told lines.old) (T.told lines.new) (change_lines
        (changes round kernel.old.state.frames.marked kernel.old.state.frames.owners))) }
    ensures cause { HasCause (T.faults lines.old) (T.faults lines.new) result }
    ensures steady { OnOk result (T.faults lines.new ≡ T.faults lines.old) }
{
    match put_changes(kernel, round, lines) {
        Ok(()) => Ok(ended),
        Err(_) => Err(TraceStop::LineFault),
    }
}

// One round, of those that the configuration leaves, and its lines.
fn trace_next<B: Border, T: Sink, W: Workers>(
    kernel: &mut Kernel,
    border: &mut B,
    lines: &mut T,
    workers: &mut W,
) -> Result<Option<Ending>, TraceStop>
    requires running { kernel.old.failed ≡ false }
    requires limit { kernel.old.state.round ≤ kernel.old.config.rounds }
    requires told { HasNoEnd (B.state border.old).shim.told }
    requires marked { kernel.old.state.frames.marked ≡ kernel.old.state.frames.owners }
    ensures traces { RoundTraces kernel.old.config result
        kernel.old.state (B.state border.old) kernel.new.state (B.state border.new)
        (T.told lines.old) (T.told lines.new) (W.tally workers.old) (W.tally workers.new) }
    ensures marked { OnOk result (kernel.new.state.frames.marked
        ≡ kernel.new.state.frames.owners) }
    ensures cause { IfErr result
        (λ stop. HasLineCause stop (T.faults lines.old) (T.faults lines.new)) }
    ensures later { T.faults lines.old ≤ T.faults lines.new }
    ensures steady { result ≢ Err TraceStop.LineFault → T.faults lines.new ≡ T.faults lines.old }
    ensures sound { kernel.new.failed ≡ false → IsBetweenRounds kernel.new.state kernel.new.config }
    ensures config { kernel.new.config ≡ kernel.old.config }
    ensures failed { OfRun result (λ ran. kernel.new.failed ≡ is_err ran) }
    ensures follows { B.follows border.old border.new }
    ensures fixed { W.fixed workers.new ≡ W.fixed workers.old }
{
    let round = kernel.state().round;
    match run_next(kernel, border, workers) {
        Ok(ended) => put_round(kernel, ended, round, lines),
        Err(stop) => Err(TraceStop::Run(stop)),
    }
}

// how many rounds the configuration leaves
fn rounds_left(kernel: &Kernel) -> u32
    requires { kernel.now.failed ≡ false }
    ensures count { result ≡ kernel.now.config.rounds - (kernel.now.state.round - 1) }
    ensures sound { IsBetweenRounds kernel.now.state kernel.now.config }
{
    let _state = kernel.state();
    kernel.config().rounds - kernel.rounds()
}

// the rounds that the configuration leaves, and their lines
fn trace_rounds<B: Border, T: Sink, W: Workers>(
    kernel: &mut Kernel,
    border: &mut B,
    lines: &mut T,
    workers: &mut W,
) -> Result<Ending, TraceStop>
    requires running { kernel.old.failed ≡ false }
    requires told { HasNoEnd (B.state border.old).shim.told }
    requires marked { kernel.old.state.frames.marked ≡ kernel.old.state.frames.owners }
    ensures traces { RoundsTrace kernel.old.config result
        kernel.old.state (B.state border.old) kernel.new.state (B.state border.new)
        (T.told lines.old) (T.told lines.new) (W.tally workers.old) (W.tally workers.new) }
    ensures told { OnOk result (HasNoEnd (B.state border.new).shim.told) }
    ensures cause { IfErr result
        (λ stop. HasLineCause stop (T.faults lines.old) (T.faults lines.new)) }
    ensures later { T.faults lines.old ≤ T.faults lines.new }
    ensures steady { result ≢ Err TraceStop.LineFault → T.faults lines.new ≡ T.faults lines.old }
    ensures sound { kernel.new.failed ≡ false → IsBetweenRounds kernel.new.state kernel.new.config }
    ensures config { kernel.new.config ≡ kernel.old.config }
    ensures failed { OfRun result (λ ran. kernel.new.failed ≡ is_err ran) }
    ensures follows { B.follows border.old border.new }
    ensures fixed { W.fixed workers.new ≡ W.fixed workers.old }
{
    for _round in 0..rounds_left(kernel) {
        if let Some(ending) = trace_next(kernel, border, lines, workers)? {
            return Ok(ending);
        }
    }
    Ok(limit_ending(kernel))
}

// the shim is told the end of a traced run
fn end_run<B: Border>(kernel: &Kernel, border: &mut B, ending: Ending) -> Result<Ending, TraceStop>
    requires { HasNoEnd (B.state border.old).shim.told }
    ensures runs { EndsTraced kernel.now result ending (B.state border.old) (B.state border.new) }
    ensures follows { B.follows border.old border.new }
{
    match tell_end(kernel, border, ending) {
        Ok(ending) => Ok(ending),
        Err(stop) => Err(TraceStop::Run(stop)),
    }
}

// a run of traced rounds, and the shim is told its end
fn trace_over<B: Border, T: Sink, W: Workers>(
    kernel: &mut Kernel,
    border: &mut B,
    lines: &mut T,
    workers: &mut W,
) -> Result<Ending, TraceStop>
    requires running { kernel.old.failed ≡ false }
    requires told { HasNoEnd (B.state border.old).shim.told }
    requires marked { kernel.old.state.frames.marked ≡ kernel.old.state.frames.owners }
    ensures runs { OfRun result (λ ran. RunsGroup kernel.old.config ran
        kernel.old.state (B.state border.old) kernel.new.state (B.state border.new)
        kernel.new.failed (W.tally workers.old) (W.tally workers.new)) }
    ensures traces { Traces kernel.old.config result kernel.old.state kernel.new.state
        (traced_at (B.state border.old) (T.told lines.old))
        (traced_at (B.state border.new) (T.told lines.new)) }
    ensures counted { IsErrOf result TraceStop.LineFault → Counts kernel.old.config kernel.old.state
        (B.state border.old).shim.told (B.state border.new).shim.told
        (W.tally workers.old) (W.tally workers.new) }
    ensures only { IfErr result (λ stop. stop ≢ TraceStop.Memory) }
    ensures cause { IfErr result
        (λ stop. HasLineCause stop (T.faults lines.old) (T.faults lines.new)) }
    ensures later { T.faults lines.old ≤ T.faults lines.new }
    ensures steady { result ≢ Err TraceStop.LineFault → T.faults lines.new ≡ T.faults lines.old }
    ensures sound { kernel.new.failed ≡ false → IsBetweenRounds kernel.new.state kernel.new.config }
    ensures config { kernel.new.config ≡ kernel.old.config }
    ensures follows { B.follows border.old border.new }
    ensures fixed { W.fixed workers.new ≡ W.fixed workers.old }
{
    match trace_rounds(kernel, border, lines, workers) {
        Ok(ending) => end_run(kernel, border, ending),
        Err(stop) => Err(stop),
    }
}

// the same with the owners marked that there are before the first round
fn trace_marked<S: Shim, O: Sink, E: Sink, T: Sink, W: Workers>(
    kernel: &mut Kernel,
    shim: &mut S,
    out: &mut O,
    err: &mut E,
    lines: &mut T,
    workers: &mut W,
) -> Result<Ending, TraceStop>
    requires running { kernel.old.failed ≡ false }
    requires told { HasNoEnd (S.state shim.old).told }
    requires marked { kernel.old.state.frames.marked ≡ kernel.old.state.frames.owners }
    ensures runs { OfRun result (λ ran. RunsGroup kernel.old.config ran kernel.old.state
        (border_of (S.state shim.old) (O.told out.old) (E.told err.old) (O.faults out.old)
        (E.faults err.old)) kernel.new.state
        (border_of (S.state shim.new) (O.told out.new) (E.told err.new) (O.faults out.new)
        (E.faults err.new)) kernel.new.failed (W.tally workers.old) (W.tally workers.new)) }
    ensures traces { Traces kernel.old.config result kernel.old.state kernel.new.state
        (traced (S.state shim.old).told (T.told lines.old))
        (traced (S.state shim.new).told (T.told lines.new)) }
    ensures counted { IsErrOf result TraceStop.LineFault → Counts kernel.old.config kernel.old.state
        (S.state shim.old).told (S.state shim.new).told
        (W.tally workers.old) (W.tally workers.new) }
    ensures only { IfErr result (λ stop. stop ≢ TraceStop.Memory) }
    ensures cause { IfErr result
        (λ stop. HasLineCause stop (T.faults lines.old) (T.faults lines.new)) }
    ensures later { T.faults lines.old ≤ T.faults lines.new }
    ensures steady { result ≢ Err TraceStop.LineFault → T.faults lines.new ≡ T.faults lines.old }
    ensures sound { kernel.new.failed ≡ false → IsBetweenRounds kernel.new.state kernel.new.config }
    ensures config { kernel.new.config ≡ kernel.old.config }
    ensures follows { S.follows shim.old shim.new }
    ensures fixed { W.fixed workers.new ≡ W.fixed workers.old }
{
    let mut border = GroupBorder { shim, out, err };
    trace_over(kernel, &mut border, lines, workers)
}

/// Runs a group as `run_group` does, and puts after each round a line for each frame whose owner
/// has changed in it, in rising order.
///
/// The lines are those of the trace over the answers of the shim; after a fault of a line a front
/// of them; and after a fault of the guests' sinks those of the rounds before it. The workers'
/// tally grows as `run_group` has it, and where a line fails by the rounds until then. `Memory`
/// comes before the first round, when nothing was put or asked, and never after it.
pub fn run_traced<S: Shim, O: Sink, E: Sink, T: Sink, W: Workers>(
    alloc: Global,
    kernel: &mut Kernel,
    shim: &mut S,
    out: &mut O,
    err: &mut E,
    lines: &mut T,
    workers: &mut W,
) -> Result<Ending, TraceStop>
    requires running { kernel.old.failed ≡ false }
    requires told { HasNoEnd (S.state shim.old).told }
    ensures runs { OfRun result (λ ran. RunsGroup kernel.old.config ran kernel.old.state
        (border_of (S.state shim.old) (O.told out.old) (E.told err.old) (O.faults out.old)
        (E.faults err.old)) kernel.new.state
        (border_of (S.state shim.new) (O.told out.new) (E.told err.new) (O.faults out.new)
        (E.faults err.new)) kernel.new.failed (W.tally workers.old) (W.tally workers.new)) }
    ensures traces { Traces kernel.old.config result kernel.old.state kernel.new.state
        (traced (S.state shim.old).told (T.told lines.old))
        (traced (S.state shim.new).told (T.told lines.new)) }
    ensures counted { IsErrOf result TraceStop.LineFault → Counts kernel.old.config kernel.old.state
        (S.state shim.old).told (S.state shim.new).told
        (W.tally workers.old) (W.tally workers.new) }
    ensures memory { IsErrOf result TraceStop.Memory → kernel.new ≡ kernel.old }
    ensures rested { IsErrOf result TraceStop.Memory → W.tally workers.new ≡ W.tally workers.old }
    ensures cause { IfErr result
        (λ stop. HasLineCause stop (T.faults lines.old) (T.faults lines.new)) }
    ensures later { T.faults lines.old ≤ T.faults lines.new }
    ensures steady { result ≢ Err TraceStop.LineFault → T.faults lines.new ≡ T.faults lines.old }
    ensures sound { kernel.new.failed ≡ false → IsBetweenRounds kernel.new.state kernel.new.config }
    ensures config { kernel.new.config ≡ kernel.old.config }
    ensures follows { S.follows shim.old shim.new }
    ensures fixed { W.fixed workers.new ≡ W.fixed workers.old }
{
    let _state = kernel.state();
    match kernel.mark(alloc) {
        Ok(()) => trace_marked(kernel, shim, out, err, lines, workers),
        Err(_) => Err(TraceStop::Memory),
    }
}
