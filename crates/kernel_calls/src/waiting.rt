// Whether the service that a thread calls would wait.
ghost use Rattle.std.specs.Prelude.{◌≡◌, ◌<◌, ◌==◌, ◌&&◌, ℕ, List, length, not, true, false};
ghost use Rattle.std.specs.Prelude.{nat_le, nat_lt, Some, if◌then◌else◌};
ghost use Rattle.std.specs.List.{list_any};
ghost use Rattle.dos_world.specs.World.{World};
ghost use Rattle.dos_world.specs.Kernel.{all_reach};
ghost use Rattle.dos_world.specs.DescriptorCalls.{read, read_by, write, write_by};
ghost use Rattle.dos_world.specs.FutexCalls.{futex_wait};
ghost use Rattle.dos_world.specs.ProcessCalls.{wait};
ghost use Rattle.dos_world.specs.Services.{service_of};
ghost use Rattle.dos_world.specs.Signals.{would_wait};
ghost use Rattle.dos_world.specs.declared.Access.TheVariants.{Load, Store};
ghost use Rattle.dos_world.specs.declared.End.TheVariants.{PipeRead, PipeWrite};
ghost use Rattle.kernel_mem.specs.MemoryWorld.{in_world};
ghost use Rattle.kernel_objects.specs.Pipework.{bytes_at, ends_at};
ghost use Rattle.page_store.specs.Store.{Store as Held};
ghost use Rattle.proc_table.specs.Tables.{IsLiveThread};
ghost use Rattle.kernel_calls.specs.CallResults.{asked_count};
ghost use Rattle.kernel_calls.specs.StateWorld.{IsSound, sent, world_of};
ghost use Rattle.kernel_calls.specs.Waits.{IsCalling, TellsWait};

use crate::state::{Asked, State};
use dos_world::End;
use kernel_mem::{check, entry_at, word_at};
use kernel_objects::Pipes;
use proc_table::Collected;

// the services that can wait, by number
const WAIT: u32 = 5;

const READ: u32 = 7;

const WRITE: u32 = 8;

const FUTEX_WAIT: u32 = 11;

// how many bytes a word and a page have, how many one call moves at most, and how many a pipe holds
// at most
const WORD_SIZE: u32 = 4;

const PAGE_SIZE: u32 = 4096;

const TRANSFER_LIMIT: u32 = 4096;

const PIPE_SIZE: u32 = 4096;

/// Whether the service that a live thread's x17 names would wait now, whatever state the thread is
/// in. It only looks: no page is granted.
pub fn would_wait(state: &State, tid: u32) -> bool
    requires sound { IsSound state.now }
    requires live { IsLiveThread state.now.table.threads tid }
    ensures { (q : ℕ) (o e : List ℕ)
        → result ≡ would_wait (sent o e (world_of q state.now)) tid }
{
    let regs = *state.table.regs(tid);
    let asked = Asked {
        thread: tid,
        process: state.table.process_of(tid),
        a0: regs.get(10),
        a1: regs.get(11),
        a2: regs.get(12),
    };
    waits(state, regs.get(17), &asked)
}

// Whether the service of this number would wait.
fn waits(state: &State, number: u32, asked: &Asked) -> bool
    requires sound { IsSound state.now }
    requires calling { IsCalling state.now asked.now }
    ensures { TellsWait (service_of number) state.now asked.now result }
{
    if number == WAIT {
        return awaits_child(state, asked);
    }
    if number == READ {
        return awaits_bytes(state, asked);
    }
    if number == WRITE {
        return awaits_room(state, asked);
    }
    if number == FUTEX_WAIT {
        return awaits_waking(state, asked);
    }
    false
}

// wait, where there is a child and none has ended
fn awaits_child(state: &State, asked: &Asked) -> bool
    ensures { TellsWait wait state.now asked.now result }
{
    match state.table.child_ended(asked.process, asked.a0) {
        Collected::Wait => true,
        Collected::Got { .. } | Collected::NoChild => false,
    }
}

// futex_wait, where the word is the one that is expected
fn awaits_waking(state: &State, asked: &Asked) -> bool
    requires sound { IsSound state.now }
    requires calling { IsCalling state.now asked.now }
    ensures { TellsWait futex_wait state.now asked.now result }
{
    if asked.a0 % WORD_SIZE != 0 {
        return false;
    }
    match entry_at(&state.table, asked.thread, asked.a0) {
        Some(entry) => word_at(&state.frames, entry.frame, asked.a0 % PAGE_SIZE) == asked.a1,
        None => false,
    }
}

// read, where the pipe is empty and has a writer
fn awaits_bytes(state: &State, asked: &Asked) -> bool
    requires sound { IsSound state.now }
    requires calling { IsCalling state.now asked.now }
    ensures { TellsWait read state.now asked.now result }
{
    match state.table.descriptor(asked.process, asked.a0) {
        Some(End::PipeRead(pipe)) => awaits_writer(state, asked, pipe),
        Some(End::Input | End::Output | End::Error | End::PipeWrite(_)) => false,
        None => false,
    }
}

fn awaits_writer(state: &State, asked: &Asked, pipe: u8) -> bool
    requires sound { IsSound state.now }
    requires calling { IsCalling state.now asked.now }
    requires pipe { pipe < 64 }
    ensures { TellsWait (read_by (Some (PipeRead pipe))) state.now asked.now result }
{
    are_reached(state, asked, true) && is_dry(&state.pipes, pipe)
}

// write, where the pipe is full and has a reader
fn awaits_room(state: &State, asked: &Asked) -> bool
    requires sound { IsSound state.now }
    requires calling { IsCalling state.now asked.now }
    ensures { TellsWait write state.now asked.now result }
{
    match state.table.descriptor(asked.process, asked.a0) {
        Some(End::PipeWrite(pipe)) => awaits_reader(state, asked, pipe),
        Some(End::Input | End::Output | End::Error | End::PipeRead(_)) => false,
        None => false,
    }
}

fn awaits_reader(state: &State, asked: &Asked, pipe: u8) -> bool
    requires sound { IsSound state.now }
    requires calling { IsCalling state.now asked.now }
    requires pipe { pipe < 64 }
    ensures { TellsWait (write_by (Some (PipeWrite pipe))) state.now asked.now result }
{
    are_reached(state, asked, false) && is_full(&state.pipes, pipe)
}

// Whether bytes are asked for, and all of them are mapped; with `write` they can be written.
fn are_reached(state: &State, asked: &Asked, write: bool) -> bool
    requires sound { IsSound state.now }
    requires calling { IsCalling state.now asked.now }
    ensures { (w : World) (frames : Held) → result
        ≡ (not (asked_count asked.now == 0)
        && all_reach (in_world w frames state.now.table) asked.now.thread asked.now.a1
        (asked_count asked.now) (if write then Store else Load)) }
{
    let count = asked.a2.min(TRANSFER_LIMIT);
    count != 0 && check(&state.table, asked.thread, asked.a1, count, write).is_ok()
}

// whether the pipe is empty, and may get bytes yet
fn is_dry(pipes: &Pipes, pipe: u8) -> bool
    requires { pipe < 64 }
    ensures { result
        ≡ ((length (bytes_at pipes.now pipe) == 0) && nat_lt 0 (ends_at pipes.now pipe true)) }
{
    pipes.len(pipe) == 0 && pipes.ends(pipe, true) > 0
}

// whether the pipe has no room, and may get some yet
fn is_full(pipes: &Pipes, pipe: u8) -> bool
    requires { pipe < 64 }
    ensures { result ≡ (nat_lt 0 (ends_at pipes.now pipe false)
        && nat_le 4096 (length (bytes_at pipes.now pipe))) }
{
    pipes.ends(pipe, false) > 0 && pipes.len(pipe) >= PIPE_SIZE
}
