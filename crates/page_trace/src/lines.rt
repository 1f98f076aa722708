//! The lines of a trace, without memory of their own.
ghost use Rattle.std.specs.Prelude.{◌≡◌, ◌++◌, ◌+◌, ◌≤◌, length};
ghost use Rattle.arrayvec.specs.ArrayString.{array_string_len};
ghost use Rattle.page_trace.specs.Lines.{change_line, owner_text};

use arrayvec::ArrayString;
use dos_texts::LINE;
use dos_world::Owner;
use itoa::Buffer;

fn push_owner(line: &mut ArrayString<LINE>, owner: Owner)
    requires { array_string_len line.old + 17 ≤ 192 }
    ensures bytes { line.new.bytes ≡ line.old.bytes ++ owner_text owner }
    ensures len { array_string_len line.new ≤ array_string_len line.old + 17 }
{
    match owner {
        Owner::Free => line.push_str("free"),
        Owner::Shared => line.push_str("shared"),
        Owner::Of(thread) => {
            let mut digits = Buffer::new();
            line.push_str("thread ");
            line.push_str(digits.format(thread));
        }
    }
}

/// The line of a frame whose owner has changed so in this round.
pub fn change_line(round: u32, frame: u32, before: Owner, after: Owner) -> ArrayString<LINE>
    ensures { result.bytes ≡ change_line (record {
      round = round;
      frame = frame;
      before = before;
      after = after;
    }) }
{
    let mut digits = Buffer::new();
    let mut line = ArrayString::new();
    line.push_str("round ");
    line.push_str(digits.format(round));
    line.push_str(" frame ");
    line.push_str(digits.format(frame));
    line.push_str(" ");
    push_owner(&mut line, before);
    line.push_str(" to ");
    push_owner(&mut line, after);
    line.push_str("\n");
    line
}
