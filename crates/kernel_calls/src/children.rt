// The services of a process and its children: fork, wait.
ghost use Rattle.std.specs.Prelude.{◌≡◌, length, IfSome};
ghost use Rattle.dos_world.specs.Services.{fork, wait};
ghost use Rattle.proc_table.specs.Tables.{IsProcess, held_in};
ghost use Rattle.kernel_calls.specs.Children.{AreAdded, CanComeAgain, CanName, with_named};
ghost use Rattle.kernel_calls.specs.StateWorld.{IsCounted, IsSound, StaysInRound};
ghost use Rattle.kernel_calls.specs.CallResults.{AreAsked, ActsQuietly};
ghost use Rattle.kernel_calls.specs.declared.state.Served.TheVariants.{Went};

use crate::answering::{refuse_call, reply, reply_two};
use crate::descriptors::add_end;
use crate::state::{Asked, Served, State};
use dos_world::errors::ECHILD;
use dos_world::{End, ThreadState};
use kernel_mem::fork as copy_process;
use kernel_objects::Pipes;
use proc_table::{Collected, Table};

/// A copy of the process with one thread; its number. Refusals: 11 where no more processes can be
/// made, 12 where too few frames are Free.
pub(crate) fn fork(state: &mut State, asked: &Asked)
    requires sound { IsSound state.old }
    requires asked { AreAsked state.old asked.now }
    ensures goes_on { ActsQuietly fork state.old asked.now Went state.new }
    ensures counted { IsCounted state.new }
    ensures round { StaysInRound state.old state.new }
{
    match copy_process(&mut state.frames, &mut state.table, asked.thread) {
        Ok(child) => {
            add_ends(&mut state.pipes, &state.table, child);
            reply(state, asked.thread, child);
        }
        Err(number) => refuse_call(state, asked.thread, number),
    }
}

// All ends of pipes that the process's descriptors name come once more.
fn add_ends(pipes: &mut Pipes, table: &Table, pid: u32)
    requires live { IsProcess table.now.processes pid }
    requires count { IfSome (held_in table.now.processes pid) (λ h. length h.descriptors ≡ 32) }
    requires room { IfSome (held_in table.now.processes pid)
        (λ h. CanComeAgain h.descriptors pipes.old) }
    ensures { IfSome (held_in table.now.processes pid)
        (λ h. AreAdded h.descriptors pipes.old pipes.new) }
{
    for number in 0..32_u32 {
        add_named(pipes, table.descriptor(pid, number));
    }
}

// The end of a pipe that a descriptor names, where it names one.
fn add_named(pipes: &mut Pipes, end: Option<End>)
    requires { CanName end pipes.old }
    ensures { pipes.new ≡ with_named end pipes.old }
{
    match end {
        Some(end) => add_end(pipes, end),
        None => {}
    }
}

/// The lowest ended child that a0 names (0 names all) is collected: its number and its status.
/// Refusal 10 where there is no child. Where none has ended it waits.
pub(crate) fn wait(state: &mut State, asked: &Asked) -> Served
    requires sound { IsSound state.old }
    requires asked { AreAsked state.old asked.now }
    ensures goes_on { ActsQuietly wait state.old asked.now result state.new }
    ensures counted { IsCounted state.new }
    ensures round { StaysInRound state.old state.new }
{
    match state.table.collect(asked.process, asked.a0) {
        Collected::Got { pid, status } => {
            reply_two(state, asked.thread, pid, u32::from(status));
            Served::Went
        }
        Collected::Wait => {
            state.table.set_state(asked.thread, ThreadState::Retry);
            Served::Waits
        }
        Collected::NoChild => {
            refuse_call(state, asked.thread, ECHILD);
            Served::Went
        }
    }
}
