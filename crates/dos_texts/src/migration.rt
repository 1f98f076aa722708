//! What `migrate` prints of a log: the version and the length of its text, and of the new one.

ghost use Rattle.std.specs.Prelude.{◌≡◌, OnOk, OnErr};
ghost use Rattle.dos_io.specs.Outside.{grown, GrewByFront, HasCause};
ghost use Rattle.dos_texts.specs.Migration.{migrated_lines, version_line};

use crate::line::{LINE, put_line};
use arrayvec::ArrayString;
use dos_io::{Sink, SinkFault};
use itoa::Buffer;
use log_text::LogVersion;

fn version_line(version: LogVersion, bytes: u64) -> ArrayString<LINE>
    ensures { result.bytes ≡ version_line version bytes }
{
    let mut number = Buffer::new();
    let mut line = ArrayString::new();
    line.push_str("version ");
    line.push_str(number.format(version.number()));
    line.push_str(" bytes ");
    line.push_str(number.format(bytes));
    line.push_str("\n");
    line
}

/// Prints the version and the length of the text that was read, and of the one that was written,
/// one put for each line. Where a put fails a front of the lines was put.
pub fn put_migrated<O: Sink>(
    version: LogVersion,
    bytes: u64,
    written: u64,
    out: &mut O,
) -> Result<(), SinkFault>
    ensures told { OnOk result
        (O.told out.new ≡ grown (O.told out.old) (migrated_lines version bytes written)) }
    ensures front { OnErr result
        (GrewByFront (O.told out.old) (O.told out.new) (migrated_lines version bytes written)) }
    ensures cause { HasCause (O.faults out.old) (O.faults out.new) result }
    ensures steady { OnOk result (O.faults out.new ≡ O.faults out.old) }
{
    let first = version_line(version, bytes);
    put_line(&first, out)?;
    let last = version_line(LogVersion::Two, written);
    put_line(&last, out)
}
