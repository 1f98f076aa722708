// Reading.
ghost use Rattle.std.specs.Prelude.{◌≡◌, ◌<◌, ◌≤◌, length, take, true, All, IfErr, IfOk, OnErr};
ghost use Rattle.std.specs.Prelude.{OnOk, Some};
ghost use Rattle.dos_world.specs.World.{World};
ghost use Rattle.dos_world.specs.declared.Access.TheVariants.{Store};
ghost use Rattle.dos_world.specs.declared.End.TheVariants.{Input};
ghost use Rattle.dos_world.specs.declared.Question.TheVariants.{Input as input_question};
ghost use Rattle.dos_world.specs.Kernel.{all_reach};
ghost use Rattle.dos_world.specs.Lawful.{IsByte};
ghost use Rattle.dos_world.specs.Services.{read, read_by, read_input};
ghost use Rattle.dos_io.specs.Shims.{HasNoEnd};
ghost use Rattle.dos_io.specs.Borders.{Crosses, StopsAt, exchanged};
ghost use Rattle.dos_io.specs.declared.exchange.Exchange.TheVariants.{Input as input_exchange};
ghost use Rattle.kernel_mem.specs.MemoryWorld.{in_world};
ghost use Rattle.page_store.specs.Store.{Store as Held};
ghost use Rattle.kernel_calls.specs.StateWorld.{IsCounted, IsSound, StandsButOwners, StaysInRound};
ghost use Rattle.kernel_calls.specs.Plays.{PlaysOnce};
ghost use Rattle.kernel_calls.specs.CallResults.{AreAsked, asked_count, call_in, source_of};

use crate::answering::{refuse_call, reply};
use crate::piping::{put_out, read_pipe};
use crate::state::{Asked, RunStop, Served, State, run_stop};
use dos_io::{Border, ShimStop};
use dos_world::End;
use dos_world::errors::EBADF;
use kernel_mem::check;

/// Where a read comes from.
#[derive(Clone, Copy)]
pub(crate) enum Source {
    Input,
    Pipe(u8),
}

/// Bytes of the input or of a pipe: how many. An empty pipe that has a writer makes the call wait.
/// Refusals: 9 where a0 names neither, 14 where one of the bytes isn't mapped with W.
pub(crate) fn read<B: Border>(
    state: &mut State,
    asked: &Asked,
    border: &mut B,
) -> Result<Served, RunStop>
    requires sound { IsSound state.old }
    requires asked { AreAsked state.old asked.now }
    requires told { HasNoEnd (B.state border.old).shim.told }
    ensures plays { PlaysOnce (λ w. read (call_in w asked.now)) result
        state.old (B.state border.old) state.new (B.state border.new) }
    ensures counted { OnOk result (IsCounted state.new) }
    ensures stands { OnErr result (StandsButOwners state.old state.new) }
    ensures round { StaysInRound state.old state.new }
    ensures follows { B.follows border.old border.new }
{
    match source_of(state.table.descriptor(asked.process, asked.a0)) {
        Some(Source::Input) => read_input(state, asked, border),
        Some(Source::Pipe(pipe)) => Ok(read_pipe(state, asked, pipe)),
        None => {
            refuse_call(state, asked.thread, EBADF);
            Ok(Served::Went)
        }
    }
}

// Where a descriptor reads from: the input, or a pipe.
fn source_of(end: Option<End>) -> Option<Source>
    ensures { result ≡ source_of end }
{
    match end {
        Some(End::Input) => Some(Source::Input),
        Some(End::PipeRead(pipe)) => Some(Source::Pipe(pipe)),
        Some(End::Output) | Some(End::Error) | Some(End::PipeWrite(_)) | None => None,
    }
}

// Bytes of the input.
fn read_input<B: Border>(
    state: &mut State,
    asked: &Asked,
    border: &mut B,
) -> Result<Served, RunStop>
    requires sound { IsSound state.old }
    requires asked { AreAsked state.old asked.now }
    requires told { HasNoEnd (B.state border.old).shim.told }
    ensures plays { PlaysOnce (λ w. read_by (Some Input) (call_in w asked.now)) result
        state.old (B.state border.old) state.new (B.state border.new) }
    ensures counted { OnOk result (IsCounted state.new) }
    ensures stands { OnErr result (StandsButOwners state.old state.new) }
    ensures round { StaysInRound state.old state.new }
    ensures follows { B.follows border.old border.new }
{
    let count = asked.a2.min(4096);
    if count == 0 {
        reply(state, asked.thread, 0);
        return Ok(Served::Went);
    }
    match check(&state.table, asked.thread, asked.a1, count, true) {
        Ok(()) => ask_input(state, asked, border, count),
        Err(number) => {
            refuse_call(state, asked.thread, number);
            Ok(Served::Went)
        }
    }
}

// so many bytes are asked for, and all are mapped
fn ask_input<B: Border>(
    state: &mut State,
    asked: &Asked,
    border: &mut B,
    count: u32,
) -> Result<Served, RunStop>
    requires sound { IsSound state.old }
    requires asked { AreAsked state.old asked.now }
    requires told { HasNoEnd (B.state border.old).shim.told }
    requires count { count ≡ asked_count asked.now }
    requires some { 0 < count }
    requires reach { (w : World) (s : Held)
        → all_reach (in_world w s state.old.table) asked.now.thread asked.now.a1 count Store
        ≡ true }
    ensures plays { PlaysOnce (λ w. read_input (call_in w asked.now)) result
        state.old (B.state border.old) state.new (B.state border.new) }
    ensures counted { OnOk result (IsCounted state.new) }
    ensures stands { OnErr result (StandsButOwners state.old state.new) }
    ensures round { StaysInRound state.old state.new }
    ensures follows { B.follows border.old border.new }
{
    match input_into(border, state.round, asked.thread, &mut state.buffer, count) {
        Ok(moved) => {
            put_out(&mut state.frames, &state.table, asked, &state.buffer, moved);
            reply(state, asked.thread, moved);
            Ok(Served::Went)
        }
        Err(stop) => Err(run_stop(stop)),
    }
}

// An input of at most so many bytes, to the front of the buffer; how many.
fn input_into<B: Border>(
    border: &mut B,
    round: u32,
    tid: u32,
    buffer: &mut [u8; 4096],
    count: u32,
) -> Result<u32, ShimStop>
    requires told { HasNoEnd (B.state border.old).shim.told }
    requires some { 0 < count }
    requires few { count ≤ 4096 }
    ensures within { IfOk result (λ k. k ≤ count) }
    ensures length { IfOk result (λ k. length (take k buffer.new) ≡ k) }
    ensures bytes { IfOk result (λ k. All IsByte (take k buffer.new)) }
    ensures ok { IfOk result (λ k. Crosses (B.state border.old)
        (exchanged (input_exchange round tid count (take k buffer.new))) (B.state border.new)) }
    ensures err { IfErr result (λ stop. StopsAt (B.state border.old)
        (input_question round tid count) stop (B.state border.new)) }
    ensures follows { B.follows border.old border.new }
{
    match border.input(round, tid, &mut buffer[..count as usize]) {
        Ok(moved) => {
            are_bytes(&buffer[..moved]);
            Ok(moved as u32)
        }
        Err(stop) => Err(stop),
    }
}

// They are bytes by their type; here it is said to contracts. Nothing runs.
fn are_bytes(bytes: &[u8])
    ensures { All IsByte bytes.now }
{}
