// A run that is recorded.
ghost use Rattle.std.specs.Prelude.{◌≡◌, ◌≢◌, ◌≤◌, ℕ, List, Err, false, IfOk, IfErr, IfSome};
ghost use Rattle.std.specs.Prelude.{IsErrOf};
ghost use Rattle.dos_world.specs.declared.Config.{Config};
ghost use Rattle.dos_io.specs.Outside.{Rose};
ghost use Rattle.elf_image.specs.Image.{Image};
ghost use Rattle.flat_machine.specs.Machine.{Seen};
ghost use Rattle.kernel_calls.specs.StateWorld.{HasSinkCause, shim_stop};
ghost use Rattle.shim_log.specs.Ledger.{empty_ledger};
ghost use Rattle.logged_runs.specs.Opened.{IsOpenedWith};
ghost use Rattle.logged_runs.specs.Runs.{Ended, Halted};
ghost use Rattle.logged_runs.specs.Recording.{Recorded, RecordedAhead, RecordedUntil, host_seen};
ghost use Rattle.logged_runs.specs.Recording.{plan_of};

use dos_io::{Host, Sink};
use dos_world::Ending;
use dpg_run::run_group;
use group_rounds::Kernel;
use kernel_calls::RunStop;
use log_text::Log;
use shim_log::{Ledger, Recorder};
use worker_pool::Workers;

// The host as the recorder leaves it.
fn hand_back<H: Host>(host: &mut H)
    ensures { host.new ≡ host.old }
{
    let _host = host;
}

/// Runs a group that was opened over a recorder, which asks this host and goes on in this ledger of
/// nothing yet, and gives the log of the run.
///
/// It stops where the host fails, where the log has no room, where an output fails, or for want of
/// memory; there is no log then, and nothing is said of the kernel but that it has failed.
pub fn record_group<H: Host, O: Sink, E: Sink, W: Workers>(
    kernel: &mut Kernel,
    host: &mut H,
    ledger: Ledger,
    out: &mut O,
    err: &mut E,
    workers: &mut W,
) -> Result<(Ending, Log), RunStop>
    requires running { kernel.old.failed ≡ false }
    requires begins { ledger
        ≡ empty_ledger ledger.posts ledger.clock ledger.header ledger.room }
    ensures ran { IfOk result (λ x. (images : List Image) (config : Config)
        → IsOpenedWith kernel.old images config
        → (seen : Seen) × Recorded (plan_of images config ledger)
        (host_seen (H.told host.old) (H.asked host.old))
        (host_seen (H.told host.new) (H.asked host.new)) x.1 seen
        × Ended kernel.new x.0 seen (O.told out.old) (E.told err.old) (O.told out.new)
        (E.told err.new) (W.tally workers.old) (W.tally workers.new)) }
    ensures stopped { IfErr result (λ stop. IfSome (shim_stop stop) (λ why. (images : List Image)
        (config : Config) → IsOpenedWith kernel.old images config
        → (output : List ℕ) × (error : List ℕ) × (work : ℕ)
        × RecordedUntil (plan_of images config ledger)
        (host_seen (H.told host.old) (H.asked host.old))
        (host_seen (H.told host.new) (H.asked host.new)) why output error work
        × Halted (O.told out.old) (E.told err.old) (O.told out.new) (E.told err.new)
        (W.tally workers.old) (W.tally workers.new) output error work)) }
    ensures cut { IfErr result (λ stop. (images : List Image) (config : Config)
        → IsOpenedWith kernel.old images config
        → (output : List ℕ) × (error : List ℕ) × (work : ℕ)
        × RecordedAhead (plan_of images config ledger)
        (host_seen (H.told host.old) (H.asked host.old))
        (host_seen (H.told host.new) (H.asked host.new)) stop output error work
        × Halted (O.told out.old) (E.told err.old) (O.told out.new) (E.told err.new)
        (W.tally workers.old) (W.tally workers.new) output error work) }
    ensures host_cause { IsErrOf result RunStop.HostFault
        → Rose (H.faults host.old) (H.faults host.new) }
    ensures host_steady { result ≢ Err RunStop.HostFault
        → H.faults host.new ≡ H.faults host.old }
    ensures sinks { IfErr result (λ stop. HasSinkCause stop (O.faults out.old) (O.faults out.new)
        (E.faults err.old) (E.faults err.new)) }
    ensures out_steady { result ≢ Err RunStop.OutFault → O.faults out.new ≡ O.faults out.old }
    ensures err_steady { result ≢ Err RunStop.ErrFault → E.faults err.new ≡ E.faults err.old }
    ensures host_later { H.faults host.old ≤ H.faults host.new }
    ensures out_later { O.faults out.old ≤ O.faults out.new }
    ensures err_later { E.faults err.old ≤ E.faults err.new }
    ensures fixed { W.fixed workers.new ≡ W.fixed workers.old }
{
    let mut shim = Recorder::of(host, ledger);
    match run_group(kernel, &mut shim, out, err, workers) {
        Ok(ending) => {
            shim.look();
            let (host, log) = shim.into_parts();
            hand_back(host);
            let _exchanges = log.len();
            Ok((ending, log))
        }
        Err(stop) => {
            shim.look();
            hand_back(shim.into_host());
            Err(stop)
        }
    }
}
