// Writing.
ghost use Rattle.std.specs.Prelude.{◌≡◌, ◌≤◌, take, true, OnErr, OnOk};
ghost use Rattle.dos_world.specs.World.{World};
ghost use Rattle.dos_world.specs.declared.Access.TheVariants.{Load};
ghost use Rattle.dos_world.specs.Kernel.{all_reach, copied_in};
ghost use Rattle.dos_world.specs.Services.{transfers, write};
ghost use Rattle.kernel_mem.specs.MemoryWorld.{in_world, NamesUsedFrames, IsCaller, HasAllHome};
ghost use Rattle.kernel_mem.specs.MemoryWorld.{KeepsUses};
ghost use Rattle.page_store.specs.Store.{Store as Held};
ghost use Rattle.kernel_calls.specs.StateWorld.{IsCounted, IsSound, StandsButOwners, StaysInRound};
ghost use Rattle.kernel_calls.specs.Plays.{PlaysOnce, by_sink, stopper};
ghost use Rattle.kernel_calls.specs.CallResults.{AreAsked, are_readable, call_in, target_of};
ghost use Rattle.kernel_calls.specs.CallResults.{write_to};

use crate::answering::{refuse_call, reply};
use crate::piping::write_pipe;
use crate::state::{Asked, RunStop, Served, State};
use dos_io::{Border, SinkFault, Stream};
use dos_world::End;
use dos_world::errors::EBADF;
use kernel_mem::{check, copy_in};
use page_store::Frames;
use proc_table::Table;

/// Where a write goes.
#[derive(Clone, Copy)]
pub(crate) enum Target {
    To(Stream),
    Pipe(u8),
}

/// Bytes to output, error or a pipe: how many. A full pipe makes the call wait. Refusals: 9 where
/// a0 names none of them, 14 where one of the bytes isn't mapped, 32 where a pipe has no reader.
pub(crate) fn write<B: Border>(
    state: &mut State,
    asked: &Asked,
    border: &mut B,
) -> Result<Served, RunStop>
    requires sound { IsSound state.old }
    requires asked { AreAsked state.old asked.now }
    ensures plays { PlaysOnce (λ w. write (call_in w asked.now)) result
        state.old (B.state border.old) state.new (B.state border.new) }
    ensures counted { OnOk result (IsCounted state.new) }
    ensures stands { OnErr result (StandsButOwners state.old state.new) }
    ensures round { StaysInRound state.old state.new }
    ensures follows { B.follows border.old border.new }
{
    match target_of(state.table.descriptor(asked.process, asked.a0)) {
        Some(Target::To(stream)) => send(state, asked, border, stream),
        Some(Target::Pipe(pipe)) => Ok(write_pipe(state, asked, pipe)),
        None => {
            refuse_call(state, asked.thread, EBADF);
            Ok(Served::Went)
        }
    }
}

// Where a descriptor writes to: one of the group's own outputs, or a pipe.
fn target_of(end: Option<End>) -> Option<Target>
    ensures { result ≡ target_of end }
{
    match end {
        Some(End::Output) => Some(Target::To(Stream::Output)),
        Some(End::Error) => Some(Target::To(Stream::Error)),
        Some(End::PipeWrite(pipe)) => Some(Target::Pipe(pipe)),
        Some(End::Input) | Some(End::PipeRead(_)) | None => None,
    }
}

// The bytes to one stream, by one put. The run stops where that fails.
fn send<B: Border>(
    state: &mut State,
    asked: &Asked,
    border: &mut B,
    stream: Stream,
) -> Result<Served, RunStop>
    requires sound { IsSound state.old }
    requires asked { AreAsked state.old asked.now }
    ensures plays { PlaysOnce (λ w. transfers (write_to stream) (are_readable w asked.now)
        (call_in w asked.now)) result
        state.old (B.state border.old) state.new (B.state border.new) }
    ensures counted { OnOk result (IsCounted state.new) }
    ensures stands { OnErr result (StandsButOwners state.old state.new) }
    ensures round { StaysInRound state.old state.new }
    ensures follows { B.follows border.old border.new }
{
    let count = asked.a2.min(4096);
    if count == 0 {
        reply(state, asked.thread, 0);
        return Ok(Served::Went);
    }
    match check(&state.table, asked.thread, asked.a1, count, false) {
        Ok(()) => {
            take_in(state, asked, count);
            match border.put(stream, &state.buffer[..count as usize]) {
                Ok(()) => {
                    reply(state, asked.thread, count);
                    Ok(Served::Went)
                }
                Err(SinkFault) => Err(sink_stop(stream)),
            }
        }
        Err(number) => {
            refuse_call(state, asked.thread, number);
            Ok(Served::Went)
        }
    }
}

// Why the run can't go on, where a put to a stream fails.
fn sink_stop(stream: Stream) -> RunStop
    ensures { stopper result ≡ by_sink stream }
{
    match stream {
        Stream::Output => RunStop::OutFault,
        Stream::Error => RunStop::ErrFault,
    }
}

// The first bytes that a1 names, into the buffer.
fn take_in(state: &mut State, asked: &Asked, count: u32)
    requires sound { IsSound state.old }
    requires asked { AreAsked state.old asked.now }
    requires few { count ≤ 4096 }
    requires reach { (w : World) (s : Held)
        → all_reach (in_world w s state.old.table) asked.now.thread asked.now.a1 count Load
        ≡ true }
    ensures copies { (w : World)
        → copied_in (in_world w state.old.frames state.old.table) asked.now.thread asked.now.a1
        count ≡ (in_world w state.new.frames state.new.table, take count state.new.buffer) }
    ensures counted { IsCounted state.new }
    ensures stands { StandsButOwners state.old state.new }
    ensures round { StaysInRound state.old state.new }
{
    fill(
        &mut state.frames,
        &state.table,
        asked,
        &mut state.buffer,
        count,
    );
}

pub(crate) fn fill(
    frames: &mut Frames,
    table: &Table,
    asked: &Asked,
    buffer: &mut [u8; 4096],
    count: u32,
)
    requires caller { IsCaller table.now asked.now.thread }
    requires mapped { NamesUsedFrames table.now frames.old asked.now.thread }
    requires home { HasAllHome frames.old }
    requires few { count ≤ 4096 }
    requires reach { (w : World) (s : Held)
        → all_reach (in_world w s table.now) asked.now.thread asked.now.a1 count Load ≡ true }
    ensures copies { (w : World)
        → copied_in (in_world w frames.old table.now) asked.now.thread asked.now.a1 count
        ≡ (in_world w frames.new table.now, take count buffer.new) }
    ensures stays { KeepsUses frames.old frames.new }
{
    copy_in(
        frames,
        table,
        asked.thread,
        asked.a1,
        &mut buffer[..count as usize],
    );
}
