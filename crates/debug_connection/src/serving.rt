// A session from the begin of its input to its end.
ghost use Rattle.std.specs.Prelude.{◌≡◌, ◌≢◌, ◌≤◌, Err, IsErrOf};
ghost use Rattle.dos_io.specs.Outside.{Rose};
ghost use Rattle.debug_session.specs.Sessions.{Session};
ghost use Rattle.debug_connection.specs.Serving.{HasServed};

use crate::answering::Answering;
use crate::connection::Connection;
use crate::stops::ServeStop;
use dos_io::{Host, Sink};
use gdb_packets::framing::Framer;
use std::alloc::Global;

/// Reads a host's input to its end, and answers it.
pub fn serve<S: Answering, H: Host, O: Sink>(
    alloc: Global,
    server: &mut S,
    host: &mut H,
    out: &mut O,
) -> Result<(), ServeStop>
    ensures served { (s : Session) → S.shows server.old s
        → HasServed s result (H.told host.old) (O.told out.old) (O.told out.new) }
    ensures host_fault { IsErrOf result ServeStop.HostFault
        → Rose (H.faults host.old) (H.faults host.new) }
    ensures host_later { H.faults host.old ≤ H.faults host.new }
    ensures host_steady { result ≢ Err ServeStop.HostFault
        → H.faults host.new ≡ H.faults host.old }
    ensures sink_fault { IsErrOf result ServeStop.SinkFault
        → Rose (O.faults out.old) (O.faults out.new) }
    ensures out_later { O.faults out.old ≤ O.faults out.new }
    ensures out_steady { result ≢ Err ServeStop.SinkFault
        → O.faults out.new ≡ O.faults out.old }
{
    let mut connection = Connection::new(alloc);
    let mut framer = Framer::new();
    let mut buffer = [0; 4096];
    for _ in 0..u64::MAX {
        let count = host.input(&mut buffer)?;
        if count == 0 {
            return Ok(());
        }
        connection.hear_bytes(alloc, &mut framer, server, out, &buffer[..count])?;
    }
    // so many answers were never given
    Err(ServeStop::Memory)
}
