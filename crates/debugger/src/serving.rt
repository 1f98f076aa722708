// A recorded run is shown to a debugger.
ghost use Rattle.std.specs.Prelude.{◌≡◌, ◌≢◌, ◌≤◌, Err, IfErr, IsErrOf, Ok, OnOk, length};
ghost use Rattle.debug_connection.specs.Keeping.{texts_of};
ghost use Rattle.dos_io.specs.Outside.{Rose};
ghost use Rattle.flat_machine.specs.Opening.{needed};
ghost use Rattle.dos_world.specs.Lawful.{IsConfig};
ghost use Rattle.dos_world.specs.declared.Scheme.TheVariants.{Ownership};
ghost use Rattle.logged_runs.specs.Recording.{host_seen};
ghost use Rattle.logged_runs.specs.Replaying.{config_of};
ghost use Rattle.debugger.specs.Debugging.{HasDebugged, HasStopped, debug_stop};

use crate::opening::open_session;
use crate::stops::DebugStop;
use debug_connection::{ServeStop, serve};
use dos_io::{Host, Sink};
use dos_world::{Config, Scheme};
use elf_image::Image;
use group_open::OpenError;
use log_text::Log;
use recorded_walk::laws::histories_start;
use std::alloc::Global;

// What a log's run was given. A log names no scheme; the debugger walks in the ownership scheme.
fn config_of(log: &Log) -> Config
    ensures config { result ≡ config_of Ownership log.now.header }
    ensures range { IsConfig result }
{
    let _len = log.len();
    let header = log.header();
    Config {
        quantum: header.quantum,
        rounds: header.rounds,
        frames: header.frames,
        scheme: Scheme::Ownership,
    }
}

// why it was stopped, of the whole call
fn debug_stop(stop: ServeStop) -> DebugStop
    ensures { result ≡ debug_stop stop }
{
    match stop {
        ServeStop::HostFault => DebugStop::HostFault,
        ServeStop::SinkFault => DebugStop::SinkFault,
        ServeStop::Memory => DebugStop::Memory,
    }
}

/// Opens the group of these images, and shows its run by this log to a debugger: reads what the
/// host
/// gives to its end, and puts what is answered. `names` and `files` are those of the images.
pub fn debug_group<H: Host, O: Sink>(
    alloc: Global,
    images: Vec<Image>,
    log: Log,
    names: Vec<Vec<u8>>,
    files: Vec<Vec<u8>>,
    host: &mut H,
    out: &mut O,
) -> Result<(), DebugStop>
    requires some { 1 ≤ length images.items }
    requires few { length images.items ≤ 8 }
    requires names { length names.items ≡ length images.items }
    ensures room { OnOk result (needed images.items ≤ log.header.frames) }
    ensures done { OnOk result (HasDebugged images.items (texts_of names.items)
        (texts_of files.items) log (Ok tt) (H.told host.old) (O.told out.old) (O.told out.new)) }
    ensures stopped { IfErr result (λ why. HasStopped images.items (texts_of names.items)
        (texts_of files.items) log why (host_seen (H.told host.old) (H.asked host.old))
        (host_seen (H.told host.new) (H.asked host.new)) (O.told out.old) (O.told out.new)) }
    ensures host_cause { IsErrOf result DebugStop.HostFault
        → Rose (H.faults host.old) (H.faults host.new) }
    ensures host_later { H.faults host.old ≤ H.faults host.new }
    ensures host_steady { result ≢ Err DebugStop.HostFault
        → H.faults host.new ≡ H.faults host.old }
    ensures sink_cause { IsErrOf result DebugStop.SinkFault
        → Rose (O.faults out.old) (O.faults out.new) }
    ensures out_later { O.faults out.old ≤ O.faults out.new }
    ensures out_steady { result ≢ Err DebugStop.SinkFault
        → O.faults out.new ≡ O.faults out.old }
{
    histories_start();
    let config = config_of(&log);
    let mut session = match open_session(alloc, images, config, log, names, files) {
        Ok(session) => session,
        Err(OpenError::NoRoom { needed, frames }) => {
            return Err(DebugStop::NoRoom { needed, frames });
        }
        Err(OpenError::Memory) => return Err(DebugStop::Memory),
    };
    let served = serve(alloc, &mut session, host, out);
    drop(session);
    match served {
        Ok(()) => Ok(()),
        Err(stop) => Err(debug_stop(stop)),
    }
}
