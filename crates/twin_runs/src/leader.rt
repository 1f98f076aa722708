// A leader's run.
ghost use Rattle.std.specs.Prelude.{◌≡◌, ◌≢◌, ◌≤◌, [], Err, false, IfErr, IsErrOf};
ghost use Rattle.dos_io.specs.Given.{Given};
ghost use Rattle.dos_io.specs.Outside.{Rose};
ghost use Rattle.dos_io.specs.declared.exchange.ClockRule.TheVariants.{FromHost};
ghost use Rattle.kernel_calls.specs.StateWorld.{HasSinkCause};
ghost use Rattle.twin_shims.specs.Leader.{new_teller};
ghost use Rattle.twin_shims.specs.Notes.{exchanges_in, IsClosed};
ghost use Rattle.twin_runs.specs.Twins.{Led};

use dos_io::{Host, Sink};
use dos_world::Ending;
use dpg_run::run_group;
use group_rounds::Kernel;
use kernel_calls::RunStop;
use std::alloc::Global;
use std::sync::Wait;
use twin_shims::{Leading, Sent, Teller};
use worker_pool::Workers;

// The host as the leader leaves it.
fn hand_back<H: Host>(host: &mut H)
    ensures { host.new ≡ host.old }
{
    let _host = host;
}

/// Runs a group that was opened over this host, and pushes a note for each exchange; where it comes
/// to no end, a last note says so.
///
/// It stops where the host fails, where an output fails, or for want of memory.
pub fn lead_group<'a, R: Wait, H: Host, O: Sink, E: Sink, W: Workers>(
    rt: &'a R,
    alloc: Global,
    kernel: &mut Kernel,
    teller: Teller<'a>,
    host: &mut H,
    out: &mut O,
    err: &mut E,
    workers: &mut W,
) -> (Result<Ending, RunStop>, Sent<'a>)
    requires running { kernel.old.failed ≡ false }
    requires fresh { kernel.old.state.round ≡ 1 }
    requires begins { teller ≡ new_teller teller.line }
    ensures line { result.1.line ≡ teller.entry.line }
    ensures closed { IsClosed result.1.notes }
    ensures given { Given [] FromHost 0 (H.told host.old) (H.told host.new)
        (exchanges_in result.1.notes) }
    ensures led { Led kernel.old kernel.new result.0 result.1.notes
        (O.told out.old) (E.told err.old) (O.told out.new) (E.told err.new)
        (W.tally workers.old) (W.tally workers.new) }
    ensures host_cause { IsErrOf result.0 RunStop.HostFault
        → Rose (H.faults host.old) (H.faults host.new) }
    ensures sinks { IfErr result.0 (λ stop. HasSinkCause stop (O.faults out.old) (O.faults out.new)
        (E.faults err.old) (E.faults err.new)) }
    ensures out_steady { result.0 ≢ Err RunStop.OutFault → O.faults out.new ≡ O.faults out.old }
    ensures err_steady { result.0 ≢ Err RunStop.ErrFault → E.faults err.new ≡ E.faults err.old }
    ensures host_later { H.faults host.old ≤ H.faults host.new }
    ensures out_later { O.faults out.old ≤ O.faults out.new }
    ensures err_later { E.faults err.old ≤ E.faults err.new }
    ensures fixed { W.fixed workers.new ≡ W.fixed workers.old }
{
    let mut shim = Leading::of(rt, alloc, host, teller);
    let result = run_group(kernel, &mut shim, out, err, workers);
    shim.look();
    let (host, sent) = shim.finish();
    hand_back(host);
    (result, sent)
}
