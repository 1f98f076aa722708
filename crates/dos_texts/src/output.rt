//! What `gen` prints of a run's output: how much it was, and its digest.

ghost use Rattle.std.specs.Prelude.{◌≡◌, ◌++◌, OnOk, OnErr};
ghost use Rattle.dos_io.specs.Outside.{grown, GrewByFront, HasCause};
ghost use Rattle.dos_texts.specs.Printed.{output_line, sha256_line};

use crate::line::{LINE, push_digest, put_line};
use arrayvec::ArrayString;
use dos_io::{Sink, SinkFault};
use itoa::Buffer;

fn output_line(count: u64) -> ArrayString<LINE>
    ensures { result.bytes ≡ output_line count }
{
    let mut number = Buffer::new();
    let mut line = ArrayString::new();
    line.push_str("output ");
    line.push_str(number.format(count));
    line.push_str(" bytes\n");
    line
}

fn sha256_line(digest: &[u8; 32]) -> ArrayString<LINE>
    ensures { result.bytes ≡ sha256_line digest.now }
{
    let mut line = ArrayString::new();
    line.push_str("sha256 ");
    push_digest(&mut line, digest);
    line.push_str("\n");
    line
}

/// Prints how many bytes a run printed, and their SHA-256 digest, one put for each line. Where a
/// put fails a front of the lines was put.
pub fn put_output<O: Sink>(count: u64, digest: &[u8; 32], out: &mut O) -> Result<(), SinkFault>
    ensures told { OnOk result
        (O.told out.new ≡ grown (O.told out.old) (output_line count ++ sha256_line digest.now)) }
    ensures front { OnErr result
        (GrewByFront (O.told out.old) (O.told out.new)
        (output_line count ++ sha256_line digest.now)) }
    ensures cause { HasCause (O.faults out.old) (O.faults out.new) result }
    ensures steady { OnOk result (O.faults out.new ≡ O.faults out.old) }
{
    let first = output_line(count);
    put_line(&first, out)?;
    let last = sha256_line(digest);
    put_line(&last, out)
}
