// The services of threads that sleep on words.
ghost use Rattle.std.specs.Prelude.{◌≡◌, ◌%◌, Some};
ghost use Rattle.dos_world.specs.FutexCalls.{futex_wait, futex_wait_at, futex_wake, futex_wake_at};
ghost use Rattle.kernel_mem.specs.MemoryWorld.{entry_in};
ghost use Rattle.kernel_calls.specs.StateWorld.{IsCounted, IsSound, StaysInRound};
ghost use Rattle.kernel_calls.specs.CallResults.{AreAsked, ActsQuietly};
ghost use Rattle.kernel_calls.specs.Queued.{AreQueued, AreWoken};
ghost use Rattle.kernel_calls.specs.declared.state.Served.TheVariants.{Went};

use crate::answering::{refuse_call, reply};
use crate::state::{Asked, Served, State};
use dos_world::errors::{EAGAIN, EFAULT, EINVAL};
use dos_world::{Entry, ThreadState};
use kernel_mem::{entry_at, grant_load, word_at};
use kernel_objects::FutexQueue;
use proc_table::Table;

// how many bytes a word has, and a page
const WORD_SIZE: u32 = 4;

const PAGE_SIZE: u32 = 4096;

/// The caller sleeps on the word at a0 as long as that is a1. Refusals: 22 where a0 is no place of
/// a word, 14 where it isn't mapped, 11 where the word isn't a1.
pub(crate) fn futex_wait(state: &mut State, asked: &Asked) -> Served
    requires sound { IsSound state.old }
    requires asked { AreAsked state.old asked.now }
    ensures goes_on { ActsQuietly futex_wait state.old asked.now result state.new }
    ensures counted { IsCounted state.new }
    ensures round { StaysInRound state.old state.new }
{
    if asked.a0 % WORD_SIZE != 0 {
        refuse_call(state, asked.thread, EINVAL);
        return Served::Went;
    }
    match entry_at(&state.table, asked.thread, asked.a0) {
        Some(entry) => wait_at(state, asked, entry),
        None => {
            refuse_call(state, asked.thread, EFAULT);
            Served::Went
        }
    }
}

// It sleeps on a word of this page, or is refused.
fn wait_at(state: &mut State, asked: &Asked, entry: Entry) -> Served
    requires sound { IsSound state.old }
    requires asked { AreAsked state.old asked.now }
    requires word { asked.now.a0 % 4 ≡ 0 }
    requires entry { entry_in state.old.table asked.now.thread asked.now.a0 ≡ Some entry }
    ensures goes_on { ActsQuietly (futex_wait_at entry) state.old asked.now result state.new }
    ensures counted { IsCounted state.new }
    ensures round { StaysInRound state.old state.new }
{
    grant_load(&mut state.frames, &state.table, asked.thread, asked.a0);
    let offset = asked.a0 % PAGE_SIZE;
    if word_at(&state.frames, entry.frame, offset) != asked.a1 {
        refuse_call(state, asked.thread, EAGAIN);
        return Served::Went;
    }
    state.table.set_state(asked.thread, ThreadState::Asleep);
    state.futexes.add(asked.thread, entry.frame, offset);
    Served::Waits
}

/// At most a1 of the threads that sleep on the word at a0 wake, each with 0, the one that came
/// first
/// first. Answers how many. Refusals: 22 where a0 is no place of a word, 14 where it isn't mapped.
pub(crate) fn futex_wake(state: &mut State, asked: &Asked)
    requires sound { IsSound state.old }
    requires asked { AreAsked state.old asked.now }
    ensures goes_on { ActsQuietly futex_wake state.old asked.now Went state.new }
    ensures counted { IsCounted state.new }
    ensures round { StaysInRound state.old state.new }
{
    if asked.a0 % WORD_SIZE != 0 {
        refuse_call(state, asked.thread, EINVAL);
        return;
    }
    match entry_at(&state.table, asked.thread, asked.a0) {
        Some(entry) => wake_at(state, asked, entry),
        None => refuse_call(state, asked.thread, EFAULT),
    }
}

// Those on a word of this page wake.
fn wake_at(state: &mut State, asked: &Asked, entry: Entry)
    requires sound { IsSound state.old }
    requires asked { AreAsked state.old asked.now }
    ensures goes_on { ActsQuietly (futex_wake_at entry) state.old asked.now Went state.new }
    ensures counted { IsCounted state.new }
    ensures round { StaysInRound state.old state.new }
{
    let offset = asked.a0 % PAGE_SIZE;
    let woken = wake_first(
        &mut state.futexes,
        &mut state.table,
        entry.frame,
        offset,
        asked.a1,
    );
    reply(state, asked.thread, woken);
}

// The first of those that sleep on a word, at most so many; how many.
fn wake_first(
    futexes: &mut FutexQueue,
    table: &mut Table,
    frame: u32,
    offset: u32,
    most: u32,
) -> u32
    requires queued { AreQueued table.old.threads futexes.old }
    ensures { AreWoken frame offset most table.old futexes.old result table.new futexes.new }
{
    for count in 0..most {
        match futexes.wake_one(frame, offset) {
            Some(tid) => table.wake(tid, 0),
            None => return count,
        }
    }
    most
}
