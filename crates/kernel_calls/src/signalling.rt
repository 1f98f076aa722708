// The services of signals.
ghost use Rattle.std.specs.Prelude.{◌≡◌, ◌<◌, ◌==◌, ◌||◌, not, if◌then◌else◌};
ghost use Rattle.dos_world.specs.World.{registers_by};
ghost use Rattle.dos_world.specs.SignalCalls.{is_action, is_signal, kill, refused_in_place};
ghost use Rattle.dos_world.specs.SignalCalls.{sig_handler, sig_mask, sig_return};
ghost use Rattle.proc_table.specs.Tables.{IsLiveThread, thread_by};
ghost use Rattle.kernel_calls.specs.Ending.{posted_in};
ghost use Rattle.kernel_calls.specs.StateWorld.{IsCounted, IsSound, StaysInRound};
ghost use Rattle.kernel_calls.specs.CallResults.{AreAsked, ActsQuietly};
ghost use Rattle.kernel_calls.specs.declared.state.Served.TheVariants.{Went};

use crate::answering::{refuse_call, reply};
use crate::state::{Asked, State};
use dos_world::errors::{EINVAL, ESRCH};
use proc_table::Table;

// the signal whose action can't be set, and the highest signal
const KILL: u32 = 9;

const LAST_SIGNAL: u32 = 31;

// what an action may be beside an address: to ignore the signal
const IGNORE: u32 = 1;

// how much an instruction's address is a multiple of, and where handlers may not stand
const CODE_UNIT: u32 = 2;

const CODE_END: u32 = 0xf000_0000;

/// The action of signal a0 becomes a1: 0 is the default, 1 to ignore it, else a handler's address.
/// Answers the former action. Refusals: 22 where a0 is no signal or 9, or a1 no action.
pub(crate) fn sig_handler(state: &mut State, asked: &Asked)
    requires sound { IsSound state.old }
    requires asked { AreAsked state.old asked.now }
    ensures goes_on { ActsQuietly sig_handler state.old asked.now Went state.new }
    ensures counted { IsCounted state.new }
    ensures round { StaysInRound state.old state.new }
{
    if is_fixed(asked.a0, asked.a1) {
        refuse_call(state, asked.thread, EINVAL);
        return;
    }
    let signal = asked.a0 as u8;
    let former = state.table.action(asked.process, signal);
    state.table.set_action(asked.process, signal, asked.a1);
    reply(state, asked.thread, former);
}

// Whether this action can't be set for this signal.
fn is_fixed(signal: u32, action: u32) -> bool
    ensures { result ≡ (not (is_signal signal) || (signal == 9) || not (is_action action)) }
{
    signal < 1 || signal > LAST_SIGNAL || signal == KILL || !is_action(action)
}

fn is_action(action: u32) -> bool
    ensures { result ≡ is_action action }
{
    action == IGNORE || (action % CODE_UNIT == 0 && action < CODE_END)
}

/// The caller's mask becomes a0, less bits 0 and 9. Answers the former mask.
pub(crate) fn sig_mask(state: &mut State, asked: &Asked)
    requires sound { IsSound state.old }
    requires asked { AreAsked state.old asked.now }
    ensures goes_on { ActsQuietly sig_mask state.old asked.now Went state.new }
    ensures counted { IsCounted state.new }
    ensures round { StaysInRound state.old state.new }
{
    let former = state.table.mask(asked.thread);
    state.table.set_mask(asked.thread, asked.a0);
    reply(state, asked.thread, former);
}

/// The registers and the mask that the caller saved last come back. Where nothing is saved, a0 is
/// -22, and pc stays at the ecall.
pub(crate) fn sig_return(state: &mut State, asked: &Asked)
    requires sound { IsSound state.old }
    requires asked { AreAsked state.old asked.now }
    ensures goes_on { ActsQuietly sig_return state.old asked.now Went state.new }
    ensures counted { IsCounted state.new }
    ensures round { StaysInRound state.old state.new }
{
    if !state.table.restore(asked.thread) {
        refuse_in_place(&mut state.table, asked.thread);
    }
}

fn refuse_in_place(table: &mut Table, tid: u32)
    requires { IsLiveThread table.old.threads tid }
    ensures { table.new ≡ thread_by (registers_by refused_in_place) table.old tid }
{
    let mut regs = *table.regs(tid);
    regs.set(10, 0u32.wrapping_sub(u32::from(EINVAL)));
    table.set_regs(tid, regs);
}

/// Signal a1 becomes pending at process a0's lowest live thread; signal 0 only tests whether a0
/// lives. Answers 0. Refusals: 22 where a1 is over 31, 3 where no such process lives.
pub(crate) fn kill(state: &mut State, asked: &Asked)
    requires sound { IsSound state.old }
    requires asked { AreAsked state.old asked.now }
    ensures goes_on { ActsQuietly kill state.old asked.now Went state.new }
    ensures counted { IsCounted state.new }
    ensures round { StaysInRound state.old state.new }
{
    if asked.a1 > LAST_SIGNAL {
        refuse_call(state, asked.thread, EINVAL);
        return;
    }
    if !state.table.is_live(asked.a0) {
        refuse_call(state, asked.thread, ESRCH);
        return;
    }
    post_some(&mut state.table, asked.a0, asked.a1 as u8);
    reply(state, asked.thread, 0);
}

// A signal is posted to a process; 0 is none.
fn post_some(table: &mut Table, pid: u32, signal: u8)
    requires { signal < 32 }
    ensures { table.new ≡ (if signal == 0 then table.old else posted_in table.old pid signal) }
{
    if signal != 0 {
        post_to(table, pid, signal);
    }
}

/// A signal is pending at a process's lowest live thread, where there is one. Any number of a
/// process.
pub(crate) fn post_to(table: &mut Table, pid: u32, signal: u8)
    requires { signal < 32 }
    ensures { table.new ≡ posted_in table.old pid signal }
{
    match table.first_thread(pid) {
        Some(tid) => table.post(tid, signal),
        None => {}
    }
}
