// Texts and numbers, put behind others.
ghost use Rattle.std.specs.Prelude.{◌≡◌, ◌++◌, ◌∷◌, [], OnOk};
ghost use Rattle.gdb_packets.specs.Hexadecimal.{byte_digits, bytes_digits, number_digits};
ghost use Rattle.gdb_packets.specs.Hexadecimal.{register_digits};
ghost use Rattle.debug_session.specs.Stops.{pair_text};
ghost use Rattle.debug_session.specs.Waits.{word_digits};

use arrayvec::ArrayVec;
use gdb_packets::hexadecimal::{push_byte, push_number};
use gdb_packets::ids::push_id;
use itoa::{Buffer, Integer};
use std::alloc::AllocError;

/// A text.
pub fn put_text(out: &mut Vec<u8>, text: &str) -> Result<(), AllocError>
    ensures { OnOk result (out.new.items ≡ out.old.items ++ text.now) }
{
    out.extend_from_slice(text.as_bytes())
}

/// Bytes as they are.
pub(crate) fn put_bytes(out: &mut Vec<u8>, bytes: &[u8]) -> Result<(), AllocError>
    ensures { OnOk result (out.new.items ≡ out.old.items ++ bytes.now) }
{
    out.extend_from_slice(bytes)
}

/// A number in decimal digits.
pub(crate) fn put_decimal<I: Integer>(out: &mut Vec<u8>, number: I) -> Result<(), AllocError>
    ensures { OnOk result (out.new.items ≡ out.old.items ++ I.text number) }
{
    let mut digits = Buffer::new();
    out.extend_from_slice(digits.format(number).as_bytes())
}

/// Words, and a number behind them in decimal digits.
pub fn put_words<I: Integer>(out: &mut Vec<u8>, words: &str, number: I) -> Result<(), AllocError>
    ensures { OnOk result (out.new.items ≡ out.old.items ++ (words.now ++ I.text number)) }
{
    put_text(out, words)?;
    put_decimal(out, number)
}

/// A byte, two hexadecimal digits.
pub(crate) fn put_byte_digits(out: &mut Vec<u8>, byte: u8) -> Result<(), AllocError>
    ensures { OnOk result (out.new.items ≡ out.old.items ++ byte_digits byte) }
{
    let mut digits: ArrayVec<u8, 2> = ArrayVec::new();
    push_byte(&mut digits, byte);
    out.extend_from_slice(digits.as_slice())
}

/// Bytes, two hexadecimal digits each.
pub(crate) fn put_bytes_digits(out: &mut Vec<u8>, bytes: &[u8]) -> Result<(), AllocError>
    ensures { OnOk result (out.new.items ≡ out.old.items ++ bytes_digits bytes.now) }
{
    for i in 0..bytes.len() {
        put_byte_digits(out, bytes[i])?;
    }
    Ok(())
}

/// A register: its bytes in memory order.
pub(crate) fn put_register_digits(out: &mut Vec<u8>, value: u32) -> Result<(), AllocError>
    ensures { OnOk result (out.new.items ≡ out.old.items ++ register_digits value) }
{
    put_bytes_digits(out, &value.to_le_bytes())
}

/// A number in hexadecimal digits, without zeros in front.
pub(crate) fn put_number(out: &mut Vec<u8>, number: u32) -> Result<(), AllocError>
    ensures { OnOk result (out.new.items ≡ out.old.items ++ number_digits number) }
{
    let mut digits: ArrayVec<u8, 8> = ArrayVec::new();
    push_number(&mut digits, number);
    out.extend_from_slice(digits.as_slice())
}

/// Eight hexadecimal digits.
pub(crate) fn put_word_digits(out: &mut Vec<u8>, number: u32) -> Result<(), AllocError>
    ensures { OnOk result (out.new.items ≡ out.old.items ++ word_digits number) }
{
    put_byte_digits(out, (number / 0x100_0000) as u8)?;
    put_byte_digits(out, (number / 0x1_0000 % 256) as u8)?;
    put_byte_digits(out, (number / 0x100 % 256) as u8)?;
    put_byte_digits(out, (number % 256) as u8)
}

/// A thread of a process, as ids are sent.
pub(crate) fn put_pair(out: &mut Vec<u8>, pair: (u32, u32)) -> Result<(), AllocError>
    ensures { OnOk result (out.new.items ≡ out.old.items ++ pair_text pair) }
{
    let mut id: ArrayVec<u8, 18> = ArrayVec::new();
    push_id(&mut id, pair.0, pair.1);
    out.extend_from_slice(id.as_slice())
}
