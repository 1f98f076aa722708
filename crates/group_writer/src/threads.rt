// The live threads.
ghost use Rattle.std.specs.Prelude.{◌≡◌, ◌<◌, ◌++◌, ◌∷◌, [], ℕ, length, map, drop, All, OnOk};
ghost use Rattle.std.specs.Prelude.{reverse};
ghost use Rattle.text_fields.specs.Formats.{many, u32_in, any};
ghost use Rattle.group_text.specs.GroupText.{held_row, registers_row, saved_row, saved_rows};
ghost use Rattle.group_text.specs.GroupText.{state_code, thread_row, thread_rows};
ghost use Rattle.group_text.specs.Records.{thread_of_record};
ghost use Rattle.group_writer.specs.Lengths.{HasAllNumbers, IsWholeThread};

use crate::fields::{put_byte, put_u32};
use dos_world::{Regs, ThreadState};
use group_text::ThreadRecord;
use std::alloc::AllocError;

// the address that lr.w reserved
fn put_held(out: &mut Vec<u8>, held: Option<u32>) -> Result<(), AllocError>
    ensures { OnOk result (out.new.items ≡ out.old.items ++ held_row.text held) }
{
    match held {
        None => {
            put_byte(out, 0)?;
            put_u32(out, 0)
        }
        Some(address) => {
            put_byte(out, 1)?;
            put_u32(out, address)
        }
    }
}

// x1 to x31
fn put_numbers(out: &mut Vec<u8>, regs: Regs) -> Result<(), AllocError>
    requires { HasAllNumbers regs }
    ensures { OnOk result (out.new.items
        ≡ out.old.items ++ (many 31 (u32_in any)).text (drop 1 regs.numbers)) }
{
    for index in 1..32 {
        put_u32(out, regs.get(index))?;
    }
    Ok(())
}

// pc, x1 to x31, and the address that lr.w reserved
fn put_registers(out: &mut Vec<u8>, regs: Regs) -> Result<(), AllocError>
    requires { HasAllNumbers regs }
    ensures { OnOk result (out.new.items ≡ out.old.items ++ registers_row.text regs) }
{
    put_u32(out, regs.pc())?;
    put_numbers(out, regs)?;
    put_held(out, regs.held())
}

// registers and a mask that a handler has saved
fn put_saved_one(out: &mut Vec<u8>, saved: &(Regs, u32)) -> Result<(), AllocError>
    requires { HasAllNumbers saved.now.0 }
    ensures { OnOk result (out.new.items ≡ out.old.items ++ saved_row.text saved.now) }
{
    put_registers(out, saved.0)?;
    put_u32(out, saved.1)
}

// what handlers have saved, the first saved first
fn put_saved_in_order(out: &mut Vec<u8>, saved: &[(Regs, u32)]) -> Result<(), AllocError>
    requires { All (λ s. HasAllNumbers s.0) (reverse saved.now) }
    ensures { OnOk result (out.new.items
        ≡ out.old.items ++ (many 0 saved_row).text (reverse saved.now)) }
{
    let depth = saved.len();
    for i in 0..depth {
        put_saved_one(out, &saved[depth - 1 - i])?;
    }
    Ok(())
}

// how many are saved, and these
fn put_saved(out: &mut Vec<u8>, saved: &[(Regs, u32)]) -> Result<(), AllocError>
    requires count { length saved.now < 256 }
    requires numbers { All (λ s. HasAllNumbers s.0) (reverse saved.now) }
    ensures { OnOk result (out.new.items ≡ out.old.items ++ saved_rows.text saved.now) }
{
    put_byte(out, saved.len() as u8)?;
    put_saved_in_order(out, saved)
}

fn code_of(state: ThreadState) -> u8
    ensures { result ≡ state_code state }
{
    match state {
        ThreadState::Ready => 0,
        ThreadState::Retry => 1,
        ThreadState::Asleep => 2,
    }
}

fn put_thread(out: &mut Vec<u8>, thread: &ThreadRecord) -> Result<(), AllocError>
    requires { IsWholeThread thread.now }
    ensures { OnOk result (out.new.items
        ≡ out.old.items ++ (thread_row 0 0 0).text (thread_of_record thread.now)) }
{
    put_u32(out, thread.tid)?;
    put_u32(out, thread.pid)?;
    put_byte(out, code_of(thread.state))?;
    put_registers(out, thread.regs)?;
    put_u32(out, thread.budget)?;
    put_u32(out, thread.pending)?;
    put_u32(out, thread.mask)?;
    put_saved(out, &thread.saved)?;
    Ok(())
}

// each of these
fn put_each_thread(out: &mut Vec<u8>, threads: &[ThreadRecord]) -> Result<(), AllocError>
    requires { All IsWholeThread threads.now }
    ensures { OnOk result (out.new.items
        ≡ out.old.items ++ (many 0 (thread_row 0 0 0)).text (map thread_of_record threads.now)) }
{
    for i in 0..threads.len() {
        put_thread(out, &threads[i])?;
    }
    Ok(())
}

/// How many threads there are, and these.
pub(crate) fn put_threads(out: &mut Vec<u8>, threads: &[ThreadRecord]) -> Result<(), AllocError>
    requires count { length threads.now < 256 }
    requires whole { All IsWholeThread threads.now }
    ensures { OnOk result (out.new.items
        ≡ out.old.items ++ (thread_rows 0 0).text (map thread_of_record threads.now)) }
{
    put_byte(out, threads.len() as u8)?;
    put_each_thread(out, threads)?;
    Ok(())
}
