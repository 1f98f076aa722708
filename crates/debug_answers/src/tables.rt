// Threads, pipes, descriptors and sleepers in lines.
ghost use Rattle.std.specs.Prelude.{◌≡◌, ◌==◌, ◌+◌, ◌<◌, ◌++◌, ◌∷◌, [], ℕ, not, length};
ghost use Rattle.std.specs.Prelude.{Some, IfOk, OnOk, codes, decimal, flat_map};
ghost use Rattle.dos_world.specs.Numbered.{map_from};
ghost use Rattle.debug_session.specs.Where.{console_line};
ghost use Rattle.dos_world.specs.World.{live_process};
ghost use Rattle.kernel_objects.specs.Pipework.{bytes_at, vector_bytes};
ghost use Rattle.kernel_objects.specs.Queue.{sleeper_of};
ghost use Rattle.kernel_calls.specs.StateWorld.{world_of, IsSound};
ghost use Rattle.debug_session.specs.Tables.{word_part, saved_part, thread_parts, thread_line};
ghost use Rattle.debug_session.specs.Tables.{thread_lines, end_text, descriptor_line};
ghost use Rattle.debug_session.specs.Tables.{descriptor_lines, counted_line, pipe_line, pipe_lines};
ghost use Rattle.debug_session.specs.Tables.{sleeper_line, sleeper_lines};

use crate::lines::{lines_or, one_line};
use crate::texts::{put_text, put_word_digits, put_words};
use crate::waits::put_what;
use dos_world::End;
use kernel_calls::State;
use proc_table::{SignalState, Thread};
use std::alloc::{AllocError, Global};

// a word that isn't 0, behind its name
fn put_word_part(out: &mut Vec<u8>, name: &str, word: u32) -> Result<(), AllocError>
    ensures { OnOk result (out.new.items ≡ out.old.items ++ word_part name.now word) }
{
    if word == 0 {
        return Ok(());
    }
    put_text(out, ", ")?;
    put_text(out, name)?;
    put_text(out, " ")?;
    put_word_digits(out, word)
}

// how many registers and masks are saved, where any are
fn put_saved_part(out: &mut Vec<u8>, count: u32) -> Result<(), AllocError>
    ensures { OnOk result (out.new.items ≡ out.old.items ++ saved_part count) }
{
    if count == 0 {
        return Ok(());
    }
    put_words(out, ", ", count)?;
    put_text(out, " saved")
}

// the signals that are pending, where any are
fn put_pending(out: &mut Vec<u8>, signals: &SignalState) -> Result<(), AllocError>
    ensures { OnOk result (out.new.items
        ≡ out.old.items ++ word_part (codes "pending") signals.now.pending) }
{
    put_word_part(out, "pending", signals.pending())
}

// those that are masked
fn put_mask(out: &mut Vec<u8>, signals: &SignalState) -> Result<(), AllocError>
    ensures { OnOk result (out.new.items
        ≡ out.old.items ++ word_part (codes "mask") signals.now.mask) }
{
    put_word_part(out, "mask", signals.mask())
}

// how many registers and masks handlers have saved
fn put_saved(out: &mut Vec<u8>, signals: &SignalState) -> Result<(), AllocError>
    ensures { OnOk result (out.new.items
        ≡ out.old.items ++ saved_part (length signals.now.saved)) }
{
    put_saved_part(out, signals.depth())
}

// what a thread is about, and what of it isn't empty
fn put_thread_parts(
    out: &mut Vec<u8>,
    state: &State,
    number: u32,
    thread: &Thread,
) -> Result<(), AllocError>
    ensures { (q : ℕ) → OnOk result (out.new.items
        ≡ out.old.items ++ thread_parts (world_of q state.now) number thread.now) }
{
    put_what(out, state, thread.process, number)?;
    put_pending(out, &thread.signals)?;
    put_mask(out, &thread.signals)?;
    put_saved(out, &thread.signals)
}

fn thread_line(
    alloc: Global,
    state: &State,
    number: u32,
    thread: &Thread,
) -> Result<Vec<u8>, AllocError>
    ensures { IfOk result (λ line. (q : ℕ)
        → line.items ≡ thread_line (world_of q state.now) number thread.now) }
{
    let mut line = Vec::new(alloc);
    put_words(&mut line, "thread ", number)?;
    put_words(&mut line, " of process ", thread.process)?;
    put_text(&mut line, ": ")?;
    put_thread_parts(&mut line, state, number, thread)?;
    line.push(b'\n')?;
    Ok(line)
}

/// A line for each thread that lives, by rising number.
pub fn thread_lines(alloc: Global, state: &State) -> Result<Vec<Vec<u8>>, AllocError>
    ensures { IfOk result
        (λ lines. (q : ℕ) → vector_bytes lines.items ≡ thread_lines (world_of q state.now)) }
{
    let mut lines = Vec::new(alloc);
    for place in 0..state.table.live_threads() {
        let (number, thread) = state.table.live_thread(place);
        lines.push(thread_line(alloc, state, number, thread)?)?;
    }
    Ok(lines)
}

fn put_end(out: &mut Vec<u8>, end: End) -> Result<(), AllocError>
    ensures { OnOk result (out.new.items ≡ out.old.items ++ end_text end) }
{
    match end {
        End::Input => put_text(out, "input"),
        End::Output => put_text(out, "output"),
        End::Error => put_text(out, "error"),
        End::PipeRead(pipe) => put_words(out, "reads pipe ", pipe),
        End::PipeWrite(pipe) => put_words(out, "writes pipe ", pipe),
    }
}

// a descriptor that is open
fn open_line(alloc: Global, number: u32, end: End) -> Result<Vec<u8>, AllocError>
    ensures { IfOk result (λ line. line.items
        ≡ console_line (codes "descriptor " ++ decimal number ++ codes ": " ++ end_text end)) }
{
    let mut line = Vec::new(alloc);
    put_words(&mut line, "descriptor ", number)?;
    put_text(&mut line, ": ")?;
    put_end(&mut line, end)?;
    line.push(b'\n')?;
    Ok(line)
}

// the line of a descriptor, where it is open
fn add_descriptor(
    alloc: Global,
    lines: &mut Vec<Vec<u8>>,
    number: u32,
    end: Option<End>,
) -> Result<(), AllocError>
    ensures { OnOk result (vector_bytes lines.new.items
        ≡ vector_bytes lines.old.items ++ descriptor_line number end) }
{
    match end {
        None => Ok(()),
        Some(end) => Ok(lines.push(open_line(alloc, number, end)?)?),
    }
}

fn descriptor_lines(alloc: Global, ends: &[Option<End>; 32]) -> Result<Vec<Vec<u8>>, AllocError>
    ensures { IfOk result (λ lines. vector_bytes lines.items
        ≡ flat_map (λ x. x) (map_from 0 descriptor_line ends.now)) }
{
    let mut lines = Vec::new(alloc);
    for number in 0..32_u32 {
        add_descriptor(alloc, &mut lines, number, ends[number as usize])?;
    }
    Ok(lines)
}

/// A line for each descriptor of a process that is open; that there is no process, where it doesn't
/// live. Any number.
pub fn end_lines(alloc: Global, state: &State, process: u32) -> Result<Vec<Vec<u8>>, AllocError>
    ensures { IfOk result (λ lines. (q : ℕ) → vector_bytes lines.items
        ≡ descriptor_lines (live_process (world_of q state.now) process)) }
{
    if state.table.is_live(process) {
        return descriptor_lines(alloc, state.table.descriptors(process));
    }
    one_line(alloc, "no process")
}

// a pipe that has an end
fn counted_line(
    alloc: Global,
    pipe: u8,
    bytes: u32,
    readers: u32,
    writers: u32,
) -> Result<Vec<u8>, AllocError>
    ensures { IfOk result (λ line. line.items
        ≡ console_line (codes "pipe " ++ decimal pipe ++ codes ": " ++ decimal bytes
        ++ codes " bytes, " ++ decimal readers ++ codes " readers, " ++ decimal writers
        ++ codes " writers")) }
{
    let mut line = Vec::new(alloc);
    put_words(&mut line, "pipe ", pipe)?;
    put_words(&mut line, ": ", bytes)?;
    put_words(&mut line, " bytes, ", readers)?;
    put_words(&mut line, " readers, ", writers)?;
    put_text(&mut line, " writers")?;
    line.push(b'\n')?;
    Ok(line)
}

// the line of a pipe, where it has an end
fn add_pipe(
    alloc: Global,
    lines: &mut Vec<Vec<u8>>,
    pipe: u8,
    bytes: u32,
    readers: u32,
    writers: u32,
) -> Result<(), AllocError>
    ensures { OnOk result (vector_bytes lines.new.items
        ≡ vector_bytes lines.old.items ++ counted_line pipe bytes readers writers) }
{
    if u64::from(readers) + u64::from(writers) == 0 {
        return Ok(());
    }
    let line = counted_line(alloc, pipe, bytes, readers, writers)?;
    Ok(lines.push(line)?)
}

/// A line for each pipe that is open, or that none is.
pub fn pipe_lines(alloc: Global, state: &State) -> Result<Vec<Vec<u8>>, AllocError>
    requires { IsSound state.now }
    ensures { IfOk result
        (λ lines. (q : ℕ) → vector_bytes lines.items ≡ pipe_lines (world_of q state.now)) }
{
    let pipes = &state.pipes;
    let mut lines = Vec::new(alloc);
    for pipe in 0..64_u8 {
        let readers = pipes.ends(pipe, false);
        let writers = pipes.ends(pipe, true);
        add_pipe(alloc, &mut lines, pipe, pipes.len(pipe), readers, writers)?;
    }
    lines_or(alloc, lines, "no pipe is open")
}

fn sleeper_line(alloc: Global, sleeper: (u32, u32, u32)) -> Result<Vec<u8>, AllocError>
    ensures { IfOk result (λ line. line.items ≡ sleeper_line (sleeper_of sleeper)) }
{
    let mut line = Vec::new(alloc);
    put_words(&mut line, "thread ", sleeper.0)?;
    put_words(&mut line, " sleeps at frame ", sleeper.1)?;
    put_words(&mut line, " offset ", sleeper.2)?;
    line.push(b'\n')?;
    Ok(line)
}

/// A line for each thread that sleeps, in their order, or that nobody does.
pub fn sleeper_lines(alloc: Global, state: &State) -> Result<Vec<Vec<u8>>, AllocError>
    ensures { IfOk result
        (λ lines. (q : ℕ) → vector_bytes lines.items ≡ sleeper_lines (world_of q state.now)) }
{
    let mut lines = Vec::new(alloc);
    for place in 0..state.futexes.len() {
        lines.push(sleeper_line(alloc, state.futexes.at(place))?)?;
    }
    lines_or(alloc, lines, "nobody sleeps")
}
