//! What is said of saved groups: the line of one that was saved, and those of the refused ones.

ghost use Rattle.std.specs.Prelude.{◌≡◌, ◌≤◌, ◌++◌, OnOk, OnErr};
ghost use Rattle.arrayvec.specs.ArrayString.{array_string_len};
ghost use Rattle.dos_io.specs.Outside.{grown, GrewByFront, HasCause};
ghost use Rattle.dos_texts.specs.Exit.{group_message, line};
ghost use Rattle.dos_texts.specs.Lines.{group_refused, group_refusal_text};
ghost use Rattle.dos_texts.specs.Saved.{saved_line};

use crate::line::{LINE, push_place, put_line, text_line};
use arrayvec::ArrayString;
use dos_io::{Sink, SinkFault};
use group_files::SavedRefusal;
use group_text::GroupRefusal;
use itoa::Buffer;

/// Writes what is wrong with a saved group.
fn push_wrong(line: &mut ArrayString<LINE>, error: GroupRefusal)
    requires { array_string_len line.old ≤ 32 }
    ensures bytes { line.new.bytes ≡ line.old.bytes ++ group_refusal_text error }
    ensures room { array_string_len line.new ≤ 96 }
{
    match error {
        GroupRefusal::Short(place) => push_place(line, "short at ", place),
        GroupRefusal::Magic => line.push_str("magic"),
        GroupRefusal::Version(version) => push_place(line, "version ", u64::from(version)),
        GroupRefusal::Field(place) => push_place(line, "field at ", place),
        GroupRefusal::AfterEnd(place) => push_place(line, "after end at ", place),
    }
}

/// The line of a file that is no saved group.
fn refused_line(error: GroupRefusal) -> ArrayString<LINE>
    ensures { result.bytes ≡ line (group_refused error) }
{
    let mut line = ArrayString::new();
    line.push_str("dos: group refused: ");
    push_wrong(&mut line, error);
    line.push_str("\n");
    line
}

/// The line of a saved group that isn't resumed.
pub(crate) fn group_line(why: SavedRefusal) -> ArrayString<LINE>
    ensures { result.bytes ≡ line (group_message why) }
{
    match why {
        SavedRefusal::TooLong => text_line("dos: group too long\n"),
        SavedRefusal::Refused(error) => refused_line(error),
        SavedRefusal::Unlawful => text_line("dos: group refused: unlawful\n"),
        SavedRefusal::OtherLog => text_line("dos: group is of another log\n"),
    }
}

/// Puts the line that says after how many rounds a group was saved, by one put. Where it fails a
/// front of the line was put.
pub fn put_saved<E: Sink>(round: u32, err: &mut E) -> Result<(), SinkFault>
    ensures told { OnOk result (E.told err.new ≡ grown (E.told err.old) (saved_line round)) }
    ensures front { OnErr result
        (GrewByFront (E.told err.old) (E.told err.new) (saved_line round)) }
    ensures cause { HasCause (E.faults err.old) (E.faults err.new) result }
    ensures steady { OnOk result (E.faults err.new ≡ E.faults err.old) }
{
    let mut number = Buffer::new();
    let mut line: ArrayString<LINE> = ArrayString::new();
    line.push_str("saved round ");
    line.push_str(number.format(round));
    line.push_str("\n");
    put_line(&line, err)
}
