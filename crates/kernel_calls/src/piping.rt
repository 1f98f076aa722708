// The bytes of pipes: reading from one, and writing to one.
ghost use Rattle.std.specs.Prelude.{◌≡◌, ◌≢◌, ◌<◌, ◌≤◌, ◌-◌, ◌++◌, min, [], length, take, drop};
ghost use Rattle.std.specs.Prelude.{true, Some};
ghost use Rattle.dos_world.specs.World.{World};
ghost use Rattle.dos_world.specs.declared.Access.TheVariants.{Load, Store};
ghost use Rattle.dos_world.specs.declared.End.TheVariants.{PipeRead, PipeWrite};
ghost use Rattle.dos_world.specs.Kernel.{all_reach, copied_out};
ghost use Rattle.dos_world.specs.DescriptorCalls.{read_by, read_pipe, write_by, write_pipe};
ghost use Rattle.kernel_mem.specs.MemoryWorld.{in_world, NamesUsedFrames, IsCaller, HasAllHome};
ghost use Rattle.kernel_mem.specs.MemoryWorld.{KeepsOthers};
ghost use Rattle.kernel_objects.specs.Pipework.{bytes_at, ends_at, is_open_at, with_bytes};
ghost use Rattle.page_store.specs.Store.{Store as Held};
ghost use Rattle.kernel_calls.specs.StateWorld.{IsCounted, IsSound, StaysInRound};
ghost use Rattle.kernel_calls.specs.CallResults.{AreAsked, ActsQuietly, asked_count};

use crate::answering::{refuse_call, reply};
use crate::state::{Asked, Served, State};
use crate::writing::fill;
use dos_world::ThreadState;
use dos_world::errors::EPIPE;
use kernel_mem::{check, copy_out};
use kernel_objects::Pipes;
use page_store::Frames;
use proc_table::Table;

// how many bytes one call moves at most, and how many a pipe holds at most
const TRANSFER_LIMIT: u32 = 4096;

const PIPE_SIZE: u32 = 4096;

/// The first bytes of a pipe, as many as it holds and are asked for; how many. An empty pipe
/// answers 0 where it has no writer, and else the call waits. Refusal 14 where one of the bytes
/// isn't mapped with W.
pub(crate) fn read_pipe(state: &mut State, asked: &Asked, pipe: u8) -> Served
    requires sound { IsSound state.old }
    requires asked { AreAsked state.old asked.now }
    requires pipe { pipe < 64 }
    ensures goes_on { ActsQuietly (read_by (Some (PipeRead pipe))) state.old asked.now result
        state.new }
    ensures counted { IsCounted state.new }
    ensures round { StaysInRound state.old state.new }
{
    let count = asked.a2.min(TRANSFER_LIMIT);
    if count == 0 {
        reply(state, asked.thread, 0);
        return Served::Went;
    }
    match check(&state.table, asked.thread, asked.a1, count, true) {
        Ok(()) => take_some(state, asked, pipe, count),
        Err(number) => {
            refuse_call(state, asked.thread, number);
            Served::Went
        }
    }
}

// so many bytes are asked for, and all are mapped
fn take_some(state: &mut State, asked: &Asked, pipe: u8, count: u32) -> Served
    requires sound { IsSound state.old }
    requires asked { AreAsked state.old asked.now }
    requires pipe { pipe < 64 }
    requires count { count ≡ asked_count asked.now }
    requires some { 0 < count }
    requires reach { (w : World) (s : Held)
        → all_reach (in_world w s state.old.table) asked.now.thread asked.now.a1 count Store
        ≡ true }
    ensures goes_on { ActsQuietly (read_pipe pipe) state.old asked.now result state.new }
    ensures counted { IsCounted state.new }
    ensures round { StaysInRound state.old state.new }
{
    if state.pipes.len(pipe) == 0 {
        return read_empty(state, asked, pipe);
    }
    let moved = take_bytes(&mut state.pipes, pipe, &mut state.buffer, count);
    put_out(&mut state.frames, &state.table, asked, &state.buffer, moved);
    reply(state, asked.thread, moved);
    Served::Went
}

// An empty pipe is at its end where it has no writer.
fn read_empty(state: &mut State, asked: &Asked, pipe: u8) -> Served
    requires sound { IsSound state.old }
    requires asked { AreAsked state.old asked.now }
    requires pipe { pipe < 64 }
    requires empty { length (bytes_at state.old.pipes pipe) ≡ 0 }
    ensures goes_on { ActsQuietly (read_pipe pipe) state.old asked.now result state.new }
    ensures counted { IsCounted state.new }
    ensures round { StaysInRound state.old state.new }
{
    if state.pipes.ends(pipe, true) == 0 {
        reply(state, asked.thread, 0);
        return Served::Went;
    }
    state.table.set_state(asked.thread, ThreadState::Retry);
    Served::Waits
}

// The first bytes of a pipe, at most so many, into the buffer; how many.
fn take_bytes(pipes: &mut Pipes, pipe: u8, buffer: &mut [u8; 4096], count: u32) -> u32
    requires pipe { pipe < 64 }
    requires few { count ≤ 4096 }
    ensures count { result ≡ min count (length (bytes_at pipes.old pipe)) }
    ensures moved { take result buffer.new ≡ take result (bytes_at pipes.old pipe) }
    ensures left { pipes.new ≡ with_bytes pipes.old pipe (drop result (bytes_at pipes.old pipe)) }
{
    pipes.take(pipe, &mut buffer[..count as usize]) as u32
}

/// The first bytes of the buffer, to where a1 says.
pub(crate) fn put_out(
    frames: &mut Frames,
    table: &Table,
    asked: &Asked,
    buffer: &[u8; 4096],
    count: u32,
)
    requires caller { IsCaller table.now asked.now.thread }
    requires mapped { NamesUsedFrames table.now frames.old asked.now.thread }
    requires home { HasAllHome frames.old }
    requires few { count ≤ 4096 }
    requires reach { (w : World) (s : Held)
        → all_reach (in_world w s table.now) asked.now.thread asked.now.a1 count Store ≡ true }
    ensures copies { (w : World)
        → copied_out (in_world w frames.old table.now) asked.now.thread asked.now.a1
        (take count buffer.now) ≡ in_world w frames.new table.now }
    ensures stays { KeepsOthers asked.now.thread frames.old frames.new }
{
    copy_out(
        frames,
        table,
        asked.thread,
        asked.a1,
        &buffer[..count as usize],
    );
}

/// Bytes into a pipe, as many as there is room for; how many. A full pipe makes the call wait.
/// Refusals: 14 where one of the bytes isn't mapped, 32 where the pipe has no reader.
pub(crate) fn write_pipe(state: &mut State, asked: &Asked, pipe: u8) -> Served
    requires sound { IsSound state.old }
    requires asked { AreAsked state.old asked.now }
    requires pipe { pipe < 64 }
    ensures goes_on { ActsQuietly (write_by (Some (PipeWrite pipe))) state.old asked.now result
        state.new }
    ensures counted { IsCounted state.new }
    ensures round { StaysInRound state.old state.new }
{
    let count = asked.a2.min(TRANSFER_LIMIT);
    if count == 0 {
        reply(state, asked.thread, 0);
        return Served::Went;
    }
    match check(&state.table, asked.thread, asked.a1, count, false) {
        Ok(()) => give_some(state, asked, pipe, count),
        Err(number) => {
            refuse_call(state, asked.thread, number);
            Served::Went
        }
    }
}

// so many bytes are to go in, and all are mapped
fn give_some(state: &mut State, asked: &Asked, pipe: u8, count: u32) -> Served
    requires sound { IsSound state.old }
    requires asked { AreAsked state.old asked.now }
    requires pipe { pipe < 64 }
    requires count { count ≡ asked_count asked.now }
    requires some { 0 < count }
    requires reach { (w : World) (s : Held)
        → all_reach (in_world w s state.old.table) asked.now.thread asked.now.a1 count Load
        ≡ true }
    ensures goes_on { ActsQuietly (write_pipe pipe) state.old asked.now result state.new }
    ensures counted { IsCounted state.new }
    ensures round { StaysInRound state.old state.new }
{
    if state.pipes.ends(pipe, false) == 0 {
        refuse_call(state, asked.thread, EPIPE);
        return Served::Went;
    }
    let moved = count.min(PIPE_SIZE - state.pipes.len(pipe));
    if moved == 0 {
        state.table.set_state(asked.thread, ThreadState::Retry);
        return Served::Waits;
    }
    fill(
        &mut state.frames,
        &state.table,
        asked,
        &mut state.buffer,
        moved,
    );
    give_bytes(&mut state.pipes, pipe, &state.buffer, moved);
    reply(state, asked.thread, moved);
    Served::Went
}

// The first bytes of the buffer, for which there is room, into a pipe.
fn give_bytes(pipes: &mut Pipes, pipe: u8, buffer: &[u8; 4096], count: u32)
    requires pipe { pipe < 64 }
    requires open { is_open_at pipes.old pipe ≡ true }
    requires room { count ≤ 4096 - length (bytes_at pipes.old pipe) }
    ensures { pipes.new
        ≡ with_bytes pipes.old pipe (bytes_at pipes.old pipe ++ take count buffer.now) }
{
    pipes.give(pipe, &buffer[..count as usize]);
}
