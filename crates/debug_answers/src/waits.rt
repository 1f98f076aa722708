// What a thread is about, in words.
ghost use Rattle.std.specs.Prelude.{◌≡◌, ◌==◌, ◌++◌, ℕ, OnOk, IsSome, find, option_map};
ghost use Rattle.dos_world.specs.Numbered.{numbered};
ghost use Rattle.dos_world.specs.World.{process_at};
ghost use Rattle.kernel_objects.specs.Queue.{sleeper_of};
ghost use Rattle.kernel_calls.specs.StateWorld.{world_of};
ghost use Rattle.debug_session.specs.Waits.{child_wait, wait_text, absence_text, what_text};
ghost use Rattle.debug_session.specs.Waits.{place_text, sleep_text, state_text};

use crate::texts::{put_text, put_word_digits, put_words};
use dos_world::{Regs, ThreadState};
use kernel_calls::State;
use kernel_objects::FutexQueue;
use std::alloc::AllocError;

// who waits for a child; 0 is any
fn put_child_wait(out: &mut Vec<u8>, which: u32) -> Result<(), AllocError>
    ensures { OnOk result (out.new.items ≡ out.old.items ++ child_wait which) }
{
    if which == 0 {
        return put_text(out, "waits for any child");
    }
    put_words(out, "waits for process ", which)
}

// by the service and what it names
fn put_wait(out: &mut Vec<u8>, number: u32, which: u32) -> Result<(), AllocError>
    ensures { OnOk result (out.new.items ≡ out.old.items ++ wait_text number which) }
{
    if number == 5 {
        return put_child_wait(out, which);
    }
    if number == 7 {
        return put_words(out, "waits to read descriptor ", which);
    }
    put_words(out, "waits to write descriptor ", which)
}

// of a thread of a process whose number was given, and which doesn't live
fn put_ended(out: &mut Vec<u8>, state: &State, process: u32) -> Result<(), AllocError>
    requires { IsSome (numbered state.now.table.processes process) }
    ensures { OnOk result (out.new.items
        ≡ out.old.items ++ absence_text (numbered state.now.table.processes process)) }
{
    match state.table.status(process) {
        None => Ok(()),
        Some(status) => put_words(out, "ended, status ", status),
    }
}

// of a thread that doesn't live, by its process
fn put_absence(out: &mut Vec<u8>, state: &State, process: u32) -> Result<(), AllocError>
    ensures { (q : ℕ) → OnOk result (out.new.items
        ≡ out.old.items ++ absence_text (process_at (world_of q state.now) process)) }
{
    if process == 0 {
        return put_text(out, "not born yet");
    }
    if process > state.table.processes() {
        return put_text(out, "not born yet");
    }
    put_ended(out, state, process)
}

// the place in the queue at which a thread sleeps: it, and the frame and the offset of its word
fn find_sleeper(queue: &FutexQueue, thread: u32) -> Option<(u32, u32, u32)>
    ensures { option_map sleeper_of result ≡ find (λ s. s.thread == thread) queue.now }
{
    for place in 0..queue.len() {
        let sleeper = queue.at(place);
        if sleeper.0 == thread {
            return Some(sleeper);
        }
    }
    None
}

// where a thread sleeps
fn put_place(out: &mut Vec<u8>, sleeper: Option<(u32, u32, u32)>) -> Result<(), AllocError>
    ensures { OnOk result (out.new.items
        ≡ out.old.items ++ place_text (option_map sleeper_of sleeper)) }
{
    match sleeper {
        None => Ok(()),
        Some((_, frame, offset)) => {
            put_words(out, ", frame ", frame)?;
            put_words(out, " offset ", offset)
        }
    }
}

// of a thread that sleeps on an address
fn put_sleep(
    out: &mut Vec<u8>,
    queue: &FutexQueue,
    thread: u32,
    address: u32,
) -> Result<(), AllocError>
    ensures { OnOk result (out.new.items ≡ out.old.items ++ sleep_text queue.now thread address) }
{
    put_text(out, "sleeps at ")?;
    put_word_digits(out, address)?;
    put_place(out, find_sleeper(queue, thread))
}

// of a thread that lives
fn put_state(
    out: &mut Vec<u8>,
    queue: &FutexQueue,
    thread: u32,
    budget: u32,
    regs: &Regs,
    state: ThreadState,
) -> Result<(), AllocError>
    ensures { OnOk result (out.new.items
        ≡ out.old.items ++ state_text queue.now thread budget regs.now state) }
{
    match state {
        ThreadState::Ready => {
            put_words(out, "ready, ", budget)?;
            put_text(out, " left")
        }
        ThreadState::Retry => put_wait(out, regs.get(17), regs.get(10)),
        ThreadState::Asleep => put_sleep(out, queue, thread, regs.get(10)),
    }
}

/// What a thread of a process is about. Any numbers.
pub(crate) fn put_what(
    out: &mut Vec<u8>,
    state: &State,
    process: u32,
    thread: u32,
) -> Result<(), AllocError>
    ensures { (q : ℕ) → OnOk result (out.new.items
        ≡ out.old.items ++ what_text (world_of q state.now) process thread) }
{
    if state.table.is_thread(thread) {
        let table = &state.table;
        return put_state(
            out,
            &state.futexes,
            thread,
            table.budget(thread),
            table.regs(thread),
            table.state(thread),
        );
    }
    put_absence(out, state, process)
}
