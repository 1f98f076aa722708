//! Lines of text, without memory of their own.

ghost use Rattle.std.specs.Prelude.{◌≡◌, ◌+◌, ◌++◌, ◌<◌, ◌≤◌, OnOk, OnErr, decimal, length};
ghost use Rattle.arrayvec.specs.ArrayString.{array_string_len};
ghost use Rattle.dos_io.specs.Outside.{grown, GrewByFront, HasCause};
ghost use Rattle.dos_texts.specs.Lines.{digest_text, hex, hex_digit};

use arrayvec::ArrayString;
use dos_io::{Sink, SinkFault};
use itoa::Buffer;

/// A line is at most so many bytes long.
pub const LINE: usize = 192;

/// The line that is this text.
pub(crate) fn text_line(text: &str) -> ArrayString<LINE>
    requires { length text.now ≤ 192 }
    ensures { result.bytes ≡ text.now }
{
    let mut line = ArrayString::new();
    line.push_str(text);
    line
}

fn hex_digit(value: u32) -> char
    requires { value < 16 }
    ensures digit { result ≡ hex_digit value }
    ensures ascii { result < 128 }
{
    let value = value as u8;
    if value < 10 {
        char::from(b'0' + value)
    } else {
        char::from(b'a' + (value - 10))
    }
}

/// Writes the last `count` hexadecimal digits of a number, in lower case. There must be room.
#[tactic(auto, using(crate::proofs::Lines::one_byte, crate::proofs::Lines::hex_pushed))]
pub(crate) fn push_hex(line: &mut ArrayString<LINE>, count: usize, value: u32)
    requires { array_string_len line.old + count ≤ 192 }
    ensures bytes { line.new.bytes ≡ line.old.bytes ++ hex count value }
    ensures len { array_string_len line.new ≡ array_string_len line.old + count }
{
    if count == 0 {
        return;
    }
    push_hex(line, count - 1, value / 16);
    line.push(hex_digit(value % 16));
}

/// Writes these words and a place behind them.
pub(crate) fn push_place(line: &mut ArrayString<LINE>, words: &str, place: u64)
    requires begun { array_string_len line.old ≤ 32 }
    requires short { length words.now ≤ 32 }
    ensures bytes { line.new.bytes ≡ line.old.bytes ++ words.now ++ decimal place }
    ensures room { array_string_len line.new ≤ 96 }
{
    let mut number = Buffer::new();
    line.push_str(words);
    line.push_str(number.format(place));
}

/// Writes a digest, two hexadecimal digits for each byte. There must be room.
pub(crate) fn push_digest(line: &mut ArrayString<LINE>, digest: &[u8; 32])
    requires { array_string_len line.old + 64 ≤ 192 }
    ensures bytes { line.new.bytes ≡ line.old.bytes ++ digest_text digest.now }
    ensures len { array_string_len line.new ≡ array_string_len line.old + 64 }
{
    for byte in digest {
        push_hex(line, 2, u32::from(*byte));
    }
}

/// Puts a line by one put. Where that fails a front of it was put.
pub(crate) fn put_line<S: Sink>(line: &ArrayString<LINE>, sink: &mut S) -> Result<(), SinkFault>
    ensures told { OnOk result (S.told sink.new ≡ grown (S.told sink.old) line.now.bytes) }
    ensures front { OnErr result (GrewByFront (S.told sink.old) (S.told sink.new) line.now.bytes) }
    ensures cause { HasCause (S.faults sink.old) (S.faults sink.new) result }
    ensures steady { OnOk result (S.faults sink.new ≡ S.faults sink.old) }
{
    sink.put(line.as_str().as_bytes())
}
