// Registers as they are told.
ghost use Rattle.std.specs.Prelude.{◌≡◌, ◌++◌, ℕ, flat_map, length, OnOk};
ghost use Rattle.gdb_packets.specs.Hexadecimal.{register_digits};
ghost use Rattle.dos_world.specs.World.{thread_at};
ghost use Rattle.kernel_calls.specs.StateWorld.{world_of, IsSound};
ghost use Rattle.debug_session.specs.Told.{registers_text, registers_told, register_told};
ghost use Rattle.debug_session.specs.Told.{known_or_not, digits_or_error};
ghost use Rattle.debug_session.specs.Told.{register_of};

use crate::texts::{put_register_digits, put_text};
use dos_world::Regs;
use kernel_calls::State;
use std::alloc::AllocError;

// x0 to x31
fn put_numbers(out: &mut Vec<u8>, regs: &Regs) -> Result<(), AllocError>
    requires { length regs.now.numbers ≡ 32 }
    ensures { OnOk result (out.new.items
        ≡ out.old.items ++ flat_map register_digits regs.now.numbers) }
{
    for index in 0..32_u8 {
        put_register_digits(out, regs.get(index))?;
    }
    Ok(())
}

// x0 to x31 and pc
fn put_all(out: &mut Vec<u8>, regs: &Regs) -> Result<(), AllocError>
    requires { length regs.now.numbers ≡ 32 }
    ensures { OnOk result (out.new.items ≡ out.old.items ++ registers_text regs.now) }
{
    put_numbers(out, regs)?;
    put_register_digits(out, regs.pc())
}

// all registers of a thread that doesn't live
fn put_none_known(out: &mut Vec<u8>, is_listed: bool) -> Result<(), AllocError>
    ensures { OnOk result (out.new.items ≡ out.old.items ++ known_or_not is_listed 33) }
{
    if is_listed {
        out.extend_from_slice(&[b'x'; 264])
    } else {
        put_text(out, "E01")
    }
}

// one register of a thread that doesn't live
fn put_not_known(out: &mut Vec<u8>, is_listed: bool) -> Result<(), AllocError>
    ensures { OnOk result (out.new.items ≡ out.old.items ++ known_or_not is_listed 1) }
{
    put_text(out, if is_listed { "xxxxxxxx" } else { "E01" })
}

/// All registers of a thread, as `g` asks: x0 to x31 and pc, each as its four bytes in memory
/// order; `x` for each digit where the thread is listed and doesn't live. Any number.
pub fn put_registers(
    out: &mut Vec<u8>,
    state: &State,
    is_listed: bool,
    thread: u32,
) -> Result<(), AllocError>
    requires { IsSound state.now }
    ensures { (q : ℕ) → OnOk result (out.new.items
        ≡ out.old.items ++ registers_told is_listed (thread_at (world_of q state.now) thread)) }
{
    if state.table.is_thread(thread) {
        return put_all(out, state.table.regs(thread));
    }
    put_none_known(out, is_listed)
}

// a register by gdb's number
fn register_of(regs: &Regs, number: u32) -> Option<u32>
    requires { length regs.now.numbers ≡ 32 }
    ensures { result ≡ register_of regs.now number }
{
    if number == 32 {
        return Some(regs.pc());
    }
    if number > 32 {
        return None;
    }
    Some(regs.get(number as u8))
}

fn put_digits_or_error(out: &mut Vec<u8>, value: Option<u32>) -> Result<(), AllocError>
    ensures { OnOk result (out.new.items ≡ out.old.items ++ digits_or_error value) }
{
    match value {
        Some(value) => put_register_digits(out, value),
        None => put_text(out, "E01"),
    }
}

/// One register of a thread, as `p` asks: 0 to 31 are x0 to x31, and 32 is pc. Any numbers.
pub fn put_register(
    out: &mut Vec<u8>,
    state: &State,
    is_listed: bool,
    thread: u32,
    number: u32,
) -> Result<(), AllocError>
    requires { IsSound state.now }
    ensures { (q : ℕ) → OnOk result (out.new.items ≡ out.old.items
        ++ register_told is_listed (thread_at (world_of q state.now) thread) number) }
{
    if state.table.is_thread(thread) {
        return put_digits_or_error(out, register_of(state.table.regs(thread), number));
    }
    put_not_known(out, is_listed)
}
