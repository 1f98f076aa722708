// Packets as they are sent.
ghost use Rattle.std.specs.Prelude.{◌≡◌, ◌++◌, ◌∷◌, [], map, IfOk, OnOk, OnErr};
ghost use Rattle.dos_io.specs.Outside.{GrewByFront, HasCause, grown};
ghost use Rattle.gdb_packets.specs.Framing.{checksum, frame};
ghost use Rattle.debug_session.specs.Connections.{acknowledgement};
ghost use Rattle.debug_connection.specs.Keeping.{all_of, texts_of};

use arrayvec::ArrayVec;
use dos_io::{Sink, SinkFault};
use gdb_packets::hexadecimal::push_byte;
use std::alloc::{AllocError, Global};

// The sum of the bytes modulo 256.
fn checksum(body: &[u8]) -> u8
    ensures { result ≡ checksum body.now }
{
    let mut running: u8 = 0;
    for byte in body {
        running = ((u16::from(running) + u16::from(*byte)) % 256) as u8;
    }
    running
}

// A packet with its frame.
fn framed(alloc: Global, body: &[u8]) -> Result<Vec<u8>, AllocError>
    ensures { IfOk result (λ text. text.items ≡ frame body.now) }
{
    let mut sum: ArrayVec<u8, 2> = ArrayVec::new();
    push_byte(&mut sum, checksum(body));
    let mut text = Vec::new(alloc);
    text.push(b'$')?;
    text.extend_from_slice(body)?;
    text.push(b'#')?;
    text.extend_from_slice(sum.as_slice())?;
    Ok(text)
}

/// The packets with their frames.
pub(crate) fn framed_all(alloc: Global, bodies: &[Vec<u8>]) -> Result<Vec<Vec<u8>>, AllocError>
    ensures { IfOk result (λ frames. texts_of frames.items ≡ map frame (texts_of bodies.now)) }
{
    let mut frames = Vec::new(alloc);
    for body in bodies {
        frames.push(framed(alloc, body)?)?;
    }
    Ok(frames)
}

/// The empty packet with its frame.
pub(crate) fn framed_empty(alloc: Global) -> Result<Vec<Vec<u8>>, AllocError>
    ensures { IfOk result (λ frames. texts_of frames.items ≡ frame [] ∷ []) }
{
    let mut frames = Vec::new(alloc);
    frames.push(framed(alloc, &[])?)?;
    Ok(frames)
}

// Puts each by itself.
fn put_all<O: Sink>(out: &mut O, frames: &[Vec<u8>]) -> Result<(), SinkFault>
    ensures ok { OnOk result
        (O.told out.new ≡ grown (O.told out.old) (all_of (texts_of frames.now))) }
    ensures err { OnErr result
        (GrewByFront (O.told out.old) (O.told out.new) (all_of (texts_of frames.now))) }
    ensures cause { HasCause (O.faults out.old) (O.faults out.new) result }
    ensures steady { OnOk result (O.faults out.new ≡ O.faults out.old) }
{
    for frame in frames {
        out.put(frame)?;
    }
    Ok(())
}

/// Puts each by itself, behind a `+` where a packet is acknowledged.
pub(crate) fn put_frames<O: Sink>(
    out: &mut O,
    acknowledges: bool,
    frames: &[Vec<u8>],
) -> Result<(), SinkFault>
    ensures ok { OnOk result (O.told out.new ≡ grown (O.told out.old)
        (all_of (acknowledgement acknowledges ++ texts_of frames.now))) }
    ensures err { OnErr result (GrewByFront (O.told out.old) (O.told out.new)
        (all_of (acknowledgement acknowledges ++ texts_of frames.now))) }
    ensures cause { HasCause (O.faults out.old) (O.faults out.new) result }
    ensures steady { OnOk result (O.faults out.new ≡ O.faults out.old) }
{
    if acknowledges {
        out.put("+".as_bytes())?;
    }
    put_all(out, frames)
}
