// The registers of a thread.
ghost use Rattle.std.specs.Prelude.{◌≡◌, ℕ, None, IfOk, drop};
ghost use Rattle.text_fields.specs.Formats.{many, u32_in, any};
ghost use Rattle.text_fields.specs.Reading.{GivesField};
ghost use Rattle.group_text.specs.GroupText.{registers_row, to_registers};

use crate::rows::read_held;
use dos_world::Regs;
use text_fields::{FieldError, read_u32};

// x1 to x31, into registers with this pc
fn read_numbers(pc: u32, end: usize, bytes: &[u8]) -> Result<(Regs, &[u8]), FieldError>
    ensures numbers { GivesField (λ x. (drop 1 x.0.numbers, x.1.now)) result
        ((many 31 (u32_in any)).read end bytes.now) }
    ensures others { IfOk result (λ x. x.0 ≡ to_registers (pc, (drop 1 x.0.numbers, None))) }
{
    let mut regs = Regs::new(pc);
    let mut rest = bytes;
    for index in 0..31 {
        let (number, after) = read_u32(end, rest)?;
        regs.set(index + 1, number);
        rest = after;
    }
    Ok((regs, rest))
}

/// The registers of a thread: pc, x1 to x31, and the address that lr.w reserved.
pub(crate) fn read_registers(end: usize, bytes: &[u8]) -> Result<(Regs, &[u8]), FieldError>
    ensures { GivesField (λ x. (x.0, x.1.now)) result (registers_row.read end bytes.now) }
{
    let (pc, rest) = read_u32(end, bytes)?;
    let (mut regs, rest) = match read_numbers(pc, end, rest) {
        Ok(read) => read,
        Err(error) => return Err(error),
    };
    let (held, rest) = read_held(end, rest)?;
    regs.set_held(held);
    Ok((regs, rest))
}
