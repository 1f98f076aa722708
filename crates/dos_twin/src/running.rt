// Both runs, and the report.
ghost use Rattle.std.specs.Prelude.{◌≡◌, ◌≢◌, ◌≤◌, ◌⊎◌, ℕ, List, [], Option, Ok, Err, IfErr, IfOk};
ghost use Rattle.std.specs.Prelude.{OnOk, false};
ghost use Rattle.dos_io.specs.Outside.{grown};
ghost use Rattle.dpg_run.specs.Report.{report_in};
ghost use Rattle.group_rounds.specs.Kernels.{kernel_world};
ghost use Rattle.dos_texts.specs.Exit.{ending_status};
ghost use Rattle.dos_words.specs.Numbers.{Text};
ghost use Rattle.dos_cmd.specs.Stops.{refusal_by};
ghost use Rattle.dos_twin.specs.TwinImages.{AreBothOpened, TwinBegun};
ghost use Rattle.dos_twin.specs.TwinLeaves.{DidTwin, TwinLeaves};
ghost use Rattle.dos_twin.specs.TwinReports.{EndedWithout, ReportFailed, has_cut, twin_ending};
ghost use Rattle.dos_twin.specs.TwinOutside.{twin_faults, twin_outside};

use dos_cmd::report;
use dos_io::{Host, Sink};
use dos_texts::Refusal;
use dos_world::Ending;
use group_rounds::Kernel;
use kernel_calls::RunStop;
use std::alloc::Global;
use std::sync::Wait;
use std::thread;
use std::thread::Threads;
use twin_runs::{Both, run_both};
use worker_pool::Workers;

/// How often a side looks before it sleeps: for some 100 microseconds.
const LOOKS: u32 = 16_000;

// Who looks takes time from who runs, where there is no other processor.
fn looks<R: Threads>(rt: &R) -> u32 {
    match thread::available_parallelism(rt) {
        Ok(count) => { if count.get() > 1 { LOOKS } else { 0 } }
        Err(_) => 0,
    }
}

// Whether a thread can be started now: one is, which does nothing, and it is waited for.
fn can_start<R: Threads>(rt: &R) -> bool {
    match thread::spawn(rt, || {}) {
        Ok(handle) => {
            handle.join(rt);
            true
        }
        Err(_) => false,
    }
}

// whether a put of this run failed
fn has_cut(run: &Result<Ending, RunStop>) -> bool
    ensures { result ≡ has_cut run.now }
{
    match run {
        Ok(_) => false,
        Err(stop) => match stop {
            RunStop::OutFault => true,
            RunStop::ErrFault => true,
            RunStop::HostFault => false,
            RunStop::LogFull => false,
            RunStop::Misfit(_) => false,
            RunStop::Memory => false,
        },
    }
}

// why a run that stopped so comes to no report
fn refusal_by(stop: &RunStop) -> Refusal
    ensures { result ≡ refusal_by stop.now }
{
    match stop {
        RunStop::OutFault => Refusal::Sink,
        RunStop::ErrFault => Refusal::Sink,
        RunStop::HostFault => Refusal::Host,
        RunStop::LogFull => Refusal::LogFull,
        RunStop::Misfit(found) => Refusal::Misfit(*found),
        RunStop::Memory => Refusal::Memory,
    }
}

// The leader's ending, or why there is no report: a put of either side failed, and else what
// stopped the leader.
fn ending_of(
    leader: &Result<Ending, RunStop>,
    follower: &Result<Ending, RunStop>,
) -> Result<Ending, Refusal>
    ensures { result ≡ twin_ending leader.now follower.now }
{
    if has_cut(follower) {
        return Err(Refusal::Sink);
    }
    match leader {
        Ok(ending) => Ok(*ending),
        Err(stop) => Err(refusal_by(stop)),
    }
}

// Puts the leader's report, where both came to the end.
fn conclude<E: Sink>(
    kernel: &Kernel,
    leader: &Result<Ending, RunStop>,
    follower: &Result<Ending, RunStop>,
    err: &mut E,
) -> Result<Ending, Refusal>
    ensures ended { IfOk result (λ ending. twin_ending leader.now follower.now ≡ Ok ending) }
    ensures told { IfOk result (λ ending. E.told err.new
        ≡ grown (E.told err.old) (report_in (kernel_world kernel.now) ending)) }
    ensures fails { IfErr result (λ why. EndedWithout leader.now follower.now why
        (E.faults err.old) (E.faults err.new) (E.told err.old) (E.told err.new)
        ⊎ ReportFailed leader.now follower.now why (kernel_world kernel.now)
        (E.faults err.old) (E.faults err.new) (E.told err.old) (E.told err.new)) }
    ensures steady { OnOk result (E.faults err.new ≡ E.faults err.old) }
    ensures later { E.faults err.old ≤ E.faults err.new }
{
    match ending_of(leader, follower) {
        Ok(ending) => report(kernel, ending, err),
        Err(why) => Err(why),
    }
}

/// Runs two groups, of which the second follows the first, and puts the first one's report.
pub(crate) fn run_opened<
    R: Threads + Wait + Sync,
    H: Host,
    O: Sink,
    E: Sink,
    P: Sink + Send,
    Q: Sink + Send,
    W: Workers,
>(
    rt: &R,
    alloc: Global,
    first: Kernel,
    second: Kernel,
    host: &mut H,
    out: &mut O,
    err: &mut E,
    second_out: &mut P,
    second_err: &mut Q,
    workers: &mut W,
) -> Result<Ending, Refusal>
    requires running { first.failed ≡ false }
    requires fresh { first.state.round ≡ 1 }
    requires second_running { second.failed ≡ false }
    requires second_fresh { second.state.round ≡ 1 }
    ensures did { IfOk result (λ ending. (names : List Text)
        (contents after : Text → Option (List ℕ)) → ((name : Text) → after name ≡ contents name)
        → AreBothOpened names contents first second → TwinBegun names
        (twin_outside contents after (H.told host.old) (H.told host.new)
        (O.told out.old) (O.told out.new) (E.told err.old) (E.told err.new)
        (P.told second_out.old) (P.told second_out.new) (Q.told second_err.old)
        (Q.told second_err.new) (W.tally workers.old) (W.tally workers.new))
        (λ images. DidTwin images (ending_status ending)
        (twin_outside contents after (H.told host.old) (H.told host.new)
        (O.told out.old) (O.told out.new) (E.told err.old) (E.told err.new)
        (P.told second_out.old) (P.told second_out.new) (Q.told second_err.old)
        (Q.told second_err.new) (W.tally workers.old) (W.tally workers.new)))) }
    ensures leaves { IfErr result (λ why. (names : List Text)
        (contents after : Text → Option (List ℕ)) (failed failed_after : ℕ)
        → ((name : Text) → after name ≡ contents name)
        → AreBothOpened names contents first second → TwinLeaves names
        (twin_outside contents after (H.told host.old) (H.told host.new)
        (O.told out.old) (O.told out.new) (E.told err.old) (E.told err.new)
        (P.told second_out.old) (P.told second_out.new) (Q.told second_err.old)
        (Q.told second_err.new) (W.tally workers.old) (W.tally workers.new))
        (twin_faults failed failed_after (H.faults host.old) (H.faults host.new)
        (O.faults out.old) (O.faults out.new) (E.faults err.old) (E.faults err.new)
        (P.faults second_out.old) (P.faults second_out.new) (Q.faults second_err.old)
        (Q.faults second_err.new)) why []) }
    ensures steady { result ≢ Err Refusal.Sink → (O.faults out.new ≡ O.faults out.old)
        × (E.faults err.new ≡ E.faults err.old)
        × (P.faults second_out.new ≡ P.faults second_out.old)
        × (Q.faults second_err.new ≡ Q.faults second_err.old) }
    ensures host_later { H.faults host.old ≤ H.faults host.new }
    ensures out_later { O.faults out.old ≤ O.faults out.new }
    ensures err_later { E.faults err.old ≤ E.faults err.new }
    ensures second_out_later { P.faults second_out.old ≤ P.faults second_out.new }
    ensures second_err_later { Q.faults second_err.old ≤ Q.faults second_err.new }
    ensures fixed { W.fixed workers.new ≡ W.fixed workers.old }
{
    if !can_start(rt) {
        drop(first);
        drop(second);
        return Err(Refusal::Memory);
    }
    let Ok(both) = run_both(
        rt,
        alloc,
        looks(rt),
        first,
        second,
        host,
        out,
        err,
        second_out,
        second_err,
        workers,
    ) else {
        return Err(Refusal::Memory);
    };
    let Both {
        kernel,
        leader,
        follower,
    } = both;
    let ended = conclude(&kernel, &leader, &follower, err);
    drop(kernel);
    ended
}
