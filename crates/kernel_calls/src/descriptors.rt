// The services of descriptors that move no byte.
ghost use Rattle.std.specs.Prelude.{◌≡◌, ◌<◌, length, count_by, position, is_none, Some, IfSome};
ghost use Rattle.std.specs.Prelude.{if◌then◌else◌};
ghost use Rattle.dos_world.specs.DescriptorCalls.{close, dup, pipe, with_end};
ghost use Rattle.proc_table.specs.Tables.{IsProcess, held_by, held_in};
ghost use Rattle.kernel_calls.specs.Ends.{CanHave, with_end_more};
ghost use Rattle.kernel_calls.specs.StateWorld.{IsCounted, IsSound, StaysInRound};
ghost use Rattle.kernel_calls.specs.CallResults.{AreAsked, ActsQuietly};
ghost use Rattle.kernel_calls.specs.declared.state.Served.TheVariants.{Went};

use crate::answering::{refuse_call, reply, reply_two};
use crate::ending::drop_end;
use crate::state::{Asked, State};
use dos_world::End;
use dos_world::errors::{EBADF, EMFILE};
use kernel_objects::Pipes;
use proc_table::Table;

/// A new pipe: the two lowest free descriptors, the first of which reads and the second writes.
/// Refusal 24 where fewer than two are free or 64 pipes are open.
pub(crate) fn pipe(state: &mut State, asked: &Asked)
    requires sound { IsSound state.old }
    requires asked { AreAsked state.old asked.now }
    ensures goes_on { ActsQuietly pipe state.old asked.now Went state.new }
    ensures counted { IsCounted state.new }
    ensures round { StaysInRound state.old state.new }
{
    if free_descriptors(&state.table, asked.process) < 2 {
        refuse_call(state, asked.thread, EMFILE);
        return;
    }
    match state.pipes.open() {
        Some(pipe) => {
            let reading = open_free(&mut state.table, asked.process, End::PipeRead(pipe));
            let writing = open_free(&mut state.table, asked.process, End::PipeWrite(pipe));
            reply_two(state, asked.thread, reading, writing);
        }
        None => refuse_call(state, asked.thread, EMFILE),
    }
}

// How many descriptors of the process aren't open.
fn free_descriptors(table: &Table, pid: u32) -> u32
    requires live { IsProcess table.now.processes pid }
    requires count { IfSome (held_in table.now.processes pid) (λ h. length h.descriptors ≡ 32) }
    ensures { IfSome (held_in table.now.processes pid)
        (λ h. result ≡ count_by is_none h.descriptors) }
{
    let mut free = 0;
    for number in 0..32_u32 {
        free += one_if_free(table.descriptor(pid, number));
    }
    free
}

fn one_if_free(end: Option<End>) -> u32
    ensures { result ≡ (if is_none end then 1 else 0) }
{
    match end {
        Some(_) => 0,
        None => 1,
    }
}

// The lowest free descriptor, of which there is one, names this; its number.
fn open_free(table: &mut Table, pid: u32, end: End) -> u32
    requires live { IsProcess table.old.processes pid }
    requires some { IfSome (held_in table.old.processes pid)
        (λ h. 0 < count_by is_none h.descriptors) }
    ensures lowest { IfSome (held_in table.old.processes pid)
        (λ h. Some result ≡ position is_none h.descriptors) }
    ensures opens { table.new ≡ held_by (with_end result (Some end)) table.old pid }
{
    match table.open_lowest(pid, end) {
        Some(number) => number,
        None => unreachable!(),
    }
}

/// The lowest free descriptor names what a0 names; its number. Refusals: 9 where a0 isn't open, 24
/// where none is free.
pub(crate) fn dup(state: &mut State, asked: &Asked)
    requires sound { IsSound state.old }
    requires asked { AreAsked state.old asked.now }
    ensures goes_on { ActsQuietly dup state.old asked.now Went state.new }
    ensures counted { IsCounted state.new }
    ensures round { StaysInRound state.old state.new }
{
    match state.table.descriptor(asked.process, asked.a0) {
        Some(end) => match state.table.open_lowest(asked.process, end) {
            Some(number) => {
                add_end(&mut state.pipes, end);
                reply(state, asked.thread, number);
            }
            None => refuse_call(state, asked.thread, EMFILE),
        },
        None => refuse_call(state, asked.thread, EBADF),
    }
}

/// One end of a pipe more, where it is a pipe's.
pub(crate) fn add_end(pipes: &mut Pipes, end: End)
    requires { CanHave end pipes.old }
    ensures { pipes.new ≡ with_end_more end pipes.old }
{
    match end {
        End::PipeRead(pipe) => pipes.add_end(pipe, false),
        End::PipeWrite(pipe) => pipes.add_end(pipe, true),
        End::Input | End::Output | End::Error => {}
    }
}

/// Descriptor a0 is closed; 0. Refusal 9 where it isn't open. A pipe without ends is empty.
pub(crate) fn close(state: &mut State, asked: &Asked)
    requires sound { IsSound state.old }
    requires asked { AreAsked state.old asked.now }
    ensures goes_on { ActsQuietly close state.old asked.now Went state.new }
    ensures counted { IsCounted state.new }
    ensures round { StaysInRound state.old state.new }
{
    match state.table.descriptor(asked.process, asked.a0) {
        Some(end) => {
            state.table.close(asked.process, asked.a0);
            drop_end(&mut state.pipes, Some(end));
            reply(state, asked.thread, 0);
        }
        None => refuse_call(state, asked.thread, EBADF),
    }
}
