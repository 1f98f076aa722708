// The command `debug`. The walk runs in the caller's thread.
ghost use Rattle.std.specs.Prelude.{◌≡◌, ◌≢◌, ◌≤◌, ℕ, List, Option, [], Err, length, IfErr, IfOk};
ghost use Rattle.debug_connection.specs.Keeping.{texts_of};
ghost use Rattle.dos_texts.specs.Exit.{ending_status};
ghost use Rattle.dos_words.specs.declared.request.Request.TheVariants as requests;
ghost use Rattle.logged_runs.specs.Recording.{host_seen};
ghost use Rattle.dos_cmd.specs.Asking.{Asks, named_by};
ghost use Rattle.dos_cmd.specs.DebugLeaves.{debug_refusal};
ghost use Rattle.dos_cmd.specs.Outside.{outside, faults};
ghost use Rattle.dos_cmd.specs.Results.{Begun, Did, Leaves};

use crate::replay::take;
use debugger::{DebugStop, debug_group};
use dos_io::{Files, Host, Sink};
use dos_texts::Refusal;
use dos_words::{Names, Text};
use dos_world::Ending;
use std::alloc::{AllocError, Global};

/// Why a session wasn't served to the end of its input, as the reason for which a call comes to no
/// report.
fn debug_refusal(stop: DebugStop) -> Refusal
    ensures { result ≡ debug_refusal stop }
{
    match stop {
        DebugStop::NoRoom { needed, frames } => Refusal::NoRoom(needed, frames),
        DebugStop::HostFault => Refusal::Host,
        DebugStop::SinkFault => Refusal::Sink,
        DebugStop::Memory => Refusal::Memory,
    }
}

/// Owned copies of the names.
fn copies_of(alloc: Global, names: &Names) -> Result<Vec<Vec<u8>>, AllocError>
    ensures { IfOk result (λ copies. texts_of copies.items ≡ names.now) }
{
    let mut copies = Vec::new(alloc);
    for index in 0..names.len() {
        let copy = Vec::from_slice(alloc, names.at(index).as_bytes())?;
        copies.push(copy)?;
    }
    Ok(copies)
}

/// Does what `debug` is asked for.
pub(crate) fn debug<F: Files, H: Host, O: Sink>(
    alloc: Global,
    log: &Text,
    names: &Names,
    files: &mut F,
    host: &mut H,
    out: &mut O,
) -> Result<Ending, Refusal>
    requires { length names.now ≤ 8 }
    // whatever error tells, and however often it failed
    ensures did { (n : ℕ) (e : Option (List ℕ)) (t : ℕ) → IfOk result (λ ending.
        Begun (requests.Debug n log.now names.now)
        (outside (F.tells files.old) (F.content files.old) (F.content files.new)
        (host_seen (H.told host.old) (H.asked host.old))
        (host_seen (H.told host.new) (H.asked host.new)) (O.told out.old) (O.told out.new) e e t t)
        (λ taken. Did (requests.Debug n log.now names.now) taken (ending_status ending)
        (outside (F.tells files.old) (F.content files.old) (F.content files.new)
        (host_seen (H.told host.old) (H.asked host.old))
        (host_seen (H.told host.new) (H.asked host.new)) (O.told out.old) (O.told out.new) e e t
        t))) }
    ensures leaves { (n : ℕ) (e : Option (List ℕ)) (t m : ℕ) → IfErr result (λ why.
        Leaves (requests.Debug n log.now names.now)
        (outside (F.tells files.old) (F.content files.old) (F.content files.new)
        (host_seen (H.told host.old) (H.asked host.old))
        (host_seen (H.told host.new) (H.asked host.new)) (O.told out.old) (O.told out.new) e e t t)
        (faults (F.faults files.old) (F.faults files.new) (H.faults host.old) (H.faults host.new)
        (O.faults out.old) (O.faults out.new) m m) why []) }
    ensures asked { (n : ℕ) → Asks (named_by (requests.Debug n log.now names.now)) result
        (F.asked files.old) (F.asked files.new) }
    ensures files_later { F.faults files.old ≤ F.faults files.new }
    ensures host_later { H.faults host.old ≤ H.faults host.new }
    ensures host_steady { result ≢ Err Refusal.Host → H.faults host.new ≡ H.faults host.old }
    ensures out_later { O.faults out.old ≤ O.faults out.new }
    ensures out_steady { result ≢ Err Refusal.Sink → O.faults out.new ≡ O.faults out.old }
{
    let copies = match copies_of(alloc, names) {
        Ok(copies) => copies,
        Err(_) => return Err(Refusal::Memory),
    };
    let (log, images, contents) = take(alloc, files, log, names)?;
    match debug_group(alloc, images, log, copies, contents, host, out) {
        Ok(()) => Ok(Ending::Done),
        Err(stop) => Err(debug_refusal(stop)),
    }
}
