// The services of threads and processes that send nothing.
ghost use Rattle.std.specs.Prelude.{◌≡◌, ◌==◌, length};
ghost use Rattle.dos_world.specs.Numbered.{numbers_of};
ghost use Rattle.dos_world.specs.World.{belongs_to};
ghost use Rattle.dos_world.specs.Services.{new_registers, process_exit, round_number, thread_exit};
ghost use Rattle.dos_world.specs.Services.{thread_new};
ghost use Rattle.kernel_calls.specs.StateWorld.{IsCounted, IsSound, StaysInRound};
ghost use Rattle.kernel_calls.specs.CallResults.{AreAsked, ActsQuietly};
ghost use Rattle.kernel_calls.specs.declared.state.Served.TheVariants.{Gone, Went};

use crate::answering::{refuse_call, reply};
use crate::ending::end_process;
use crate::state::{Asked, State};
use dos_world::Regs;
use dos_world::errors::{EAGAIN, EINVAL};
use proc_table::Table;

// How much an instruction's address is a multiple of.
const CODE_UNIT: u32 = 2;

/// A new thread at a0, with stack a1 and argument a2: its number. Refusals: 22 where a0 is no place
/// for an instruction, 11 where no more threads can be made.
pub(crate) fn thread_new(state: &mut State, asked: &Asked)
    requires sound { IsSound state.old }
    requires asked { AreAsked state.old asked.now }
    ensures goes_on { ActsQuietly thread_new state.old asked.now Went state.new }
    ensures counted { IsCounted state.new }
    ensures round { StaysInRound state.old state.new }
{
    if asked.a0 % CODE_UNIT != 0 {
        refuse_call(state, asked.thread, EINVAL);
        return;
    }
    let mask = state.table.mask(asked.thread);
    let regs = new_registers(asked.a0, asked.a1, asked.a2);
    match state.table.add_thread(asked.process, regs, mask) {
        Ok(number) => reply(state, asked.thread, number),
        Err(_) => refuse_call(state, asked.thread, EAGAIN),
    }
}

// pc, stack pointer and argument of a new thread.
fn new_registers(pc: u32, sp: u32, argument: u32) -> Regs
    ensures { result ≡ new_registers pc sp argument }
{
    let mut regs = Regs::new(pc);
    regs.set(2, sp);
    regs.set(10, argument);
    regs
}

/// The thread is gone. The last thread of a process ends it with status 0.
pub(crate) fn thread_exit(state: &mut State, asked: &Asked)
    requires sound { IsSound state.old }
    requires asked { AreAsked state.old asked.now }
    ensures goes_on { ActsQuietly thread_exit state.old asked.now Gone state.new }
    ensures counted { IsCounted state.new }
    ensures round { StaysInRound state.old state.new }
{
    if has_one_thread(&state.table, asked.process) {
        end_process(state, asked.process, 0);
    } else {
        state.table.end_thread(asked.thread);
    }
}

fn has_one_thread(table: &Table, pid: u32) -> bool
    ensures { result ≡ (length (numbers_of (belongs_to pid) table.now.threads) == 1) }
{
    table.threads_of(pid) == 1
}

/// The process has ended, with its status a0 modulo 256.
pub(crate) fn process_exit(state: &mut State, asked: &Asked)
    requires sound { IsSound state.old }
    requires asked { AreAsked state.old asked.now }
    ensures goes_on { ActsQuietly process_exit state.old asked.now Gone state.new }
    ensures counted { IsCounted state.new }
    ensures round { StaysInRound state.old state.new }
{
    end_process(state, asked.process, (asked.a0 % 256) as u8);
}

/// The number of the round that is being run.
pub(crate) fn round_number(state: &mut State, asked: &Asked)
    requires sound { IsSound state.old }
    requires asked { AreAsked state.old asked.now }
    ensures goes_on { ActsQuietly round_number state.old asked.now Went state.new }
    ensures counted { IsCounted state.new }
    ensures round { StaysInRound state.old state.new }
{
    let round = state.round;
    reply(state, asked.thread, round);
}
