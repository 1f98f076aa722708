//! What `inspect` prints, a line for the entry and one for each part.

ghost use Rattle.std.specs.Prelude.{◌≡◌, ◌≤◌, OnOk, OnErr};
ghost use Rattle.dos_io.specs.Outside.{grown, GrewByFront, HasCause};
ghost use Rattle.elf_image.specs.Image.{size_of};
ghost use Rattle.dos_texts.specs.Printed.{rights, entry_line, part_line, inspect_lines};

use crate::line::{LINE, push_hex, put_line};
use arrayvec::ArrayString;
use dos_io::{Sink, SinkFault};
use elf_image::{Image, Part};
use itoa::Buffer;

#[tactic(auto, unfolding(crate::specs::Printed::entry_line))]
fn entry_line(entry: u32) -> ArrayString<LINE>
    ensures { result.bytes ≡ entry_line entry }
{
    let mut line = ArrayString::new();
    line.push_str("entry ");
    push_hex(&mut line, 8, entry);
    line.push_str("\n");
    line
}

fn rights(part: &Part) -> &'static str
    ensures { result.now ≡ rights part.now }
{
    match (part.write, part.exec) {
        (true, true) => "rwx",
        (true, false) => "rw-",
        (false, true) => "r-x",
        (false, false) => "r--",
    }
}

#[tactic(auto, unfolding(crate::specs::Printed::part_line))]
fn part_line(part: &Part) -> ArrayString<LINE>
    requires { size_of part.now ≤ 0xffffffff }
    ensures { result.bytes ≡ part_line part.now }
{
    let mut number = Buffer::new();
    let mut line = ArrayString::new();
    line.push_str("load ");
    push_hex(&mut line, 8, part.address);
    line.push_str(" file ");
    line.push_str(number.format(part.bytes.len()));
    line.push_str(" memory ");
    line.push_str(number.format(part.bytes.len() + part.zeros as usize));
    line.push_str(" rights ");
    line.push_str(rights(part));
    line.push_str("\n");
    line
}

/// Prints an image's entry and parts, one put for each line. Where a put fails a front of the
/// lines was put.
pub fn put_inspect<O: Sink>(image: &Image, out: &mut O) -> Result<(), SinkFault>
    ensures told { OnOk result (O.told out.new ≡ grown (O.told out.old) (inspect_lines image.now)) }
    ensures front { OnErr result (GrewByFront (O.told out.old) (O.told out.new)
        (inspect_lines image.now)) }
    ensures cause { HasCause (O.faults out.old) (O.faults out.new) result }
    ensures steady { OnOk result (O.faults out.new ≡ O.faults out.old) }
{
    let first = entry_line(image.entry());
    put_line(&first, out)?;
    for part in image.parts() {
        let next = part_line(part);
        put_line(&next, out)?;
    }
    Ok(())
}
