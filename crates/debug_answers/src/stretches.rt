// Pages in stretches.
ghost use Rattle.std.specs.Prelude.{◌≡◌, ◌<◌, ◌^◌, ◌++◌, ◌∷◌, ℕ, List, All, IfOk, OnOk, length};
ghost use Rattle.std.specs.Prelude.{codes, decimal};
ghost use Rattle.dos_world.specs.Lawful.{IsPage};
ghost use Rattle.dos_world.specs.World.{live_process};
ghost use Rattle.dos_world.specs.declared.Entry.{Entry};
ghost use Rattle.kernel_objects.specs.Pipework.{vector_bytes};
ghost use Rattle.kernel_calls.specs.StateWorld.{world_of, IsSound};
ghost use Rattle.debug_session.specs.Pages.{is_same_owner, is_same_flag, is_alike, goes_on};
ghost use Rattle.debug_session.specs.Pages.{page_digits, stretch_line, stretches_from};
ghost use Rattle.debug_session.specs.Pages.{stretches_of, pages_lines_in};

use crate::lines::one_line;
use crate::pages::put_entry;
use crate::texts::{put_text, put_word_digits, put_words};
use dos_world::{Entry, Owner};
use kernel_calls::State;
use space_map::Space;
use std::alloc::{AllocError, Global};

fn is_same_owner(a: Owner, b: Owner) -> bool
    ensures { result ≡ is_same_owner a b }
{
    match a {
        Owner::Free => match b {
            Owner::Free => true,
            Owner::Shared => false,
            Owner::Of(_) => false,
        },
        Owner::Shared => match b {
            Owner::Free => false,
            Owner::Shared => true,
            Owner::Of(_) => false,
        },
        Owner::Of(first) => match b {
            Owner::Free => false,
            Owner::Shared => false,
            Owner::Of(second) => first == second,
        },
    }
}

fn is_same_flag(a: bool, b: bool) -> bool
    ensures { result ≡ is_same_flag a b }
{
    if a { b } else { !b }
}

// the same owner, rights and kind
fn is_alike(state: &State, a: Entry, b: Entry) -> bool
    requires first { a.frame < length state.now.frames.owners }
    requires second { b.frame < length state.now.frames.owners }
    ensures { (q : ℕ) → result ≡ is_alike (world_of q state.now) a b }
{
    if !is_same_owner(state.frames.owner(a.frame), state.frames.owner(b.frame)) {
        return false;
    }
    if !is_same_flag(a.write, b.write) {
        return false;
    }
    if !is_same_flag(a.exec, b.exec) {
        return false;
    }
    is_same_flag(a.shared, b.shared)
}

// the next page, with the next frame, and alike
fn goes_on(state: &State, last: (u32, Entry), next: (u32, Entry)) -> bool
    requires last { IsPage (length state.now.frames.owners) last }
    requires next { IsPage (length state.now.frames.owners) next }
    ensures { (q : ℕ) → result ≡ goes_on (world_of q state.now) last next }
{
    if next.0 != last.0 + 1 {
        return false;
    }
    if u64::from(next.1.frame) != u64::from(last.1.frame) + 1 {
        return false;
    }
    is_alike(state, last.1, next.1)
}

// from one page to another, both of the stretch
fn put_pages(out: &mut Vec<u8>, first: u32, last: u32) -> Result<(), AllocError>
    requires { (first < 2 ^ 20) × (last < 2 ^ 20) }
    ensures { OnOk result (out.new.items ≡ out.old.items
        ++ (codes "pages " ++ page_digits first ++ codes " to " ++ page_digits last)) }
{
    put_text(out, "pages ")?;
    put_word_digits(out, 4096 * first)?;
    put_text(out, " to ")?;
    put_word_digits(out, 4096 * last)
}

// the frames of the first and the last of its pages
fn put_frames(out: &mut Vec<u8>, first: u32, last: u32) -> Result<(), AllocError>
    ensures { OnOk result (out.new.items ≡ out.old.items
        ++ (codes ": frames " ++ decimal first ++ codes " to " ++ decimal last ++ codes ", ")) }
{
    put_words(out, ": frames ", first)?;
    put_words(out, " to ", last)?;
    put_text(out, ", ")
}

// a stretch from one page to another, both of it
fn stretch_line(
    alloc: Global,
    state: &State,
    first: (u32, Entry),
    last: (u32, Entry),
) -> Result<Vec<u8>, AllocError>
    requires first { IsPage (length state.now.frames.owners) first }
    requires last { IsPage (length state.now.frames.owners) last }
    ensures { IfOk result (λ line. (q : ℕ)
        → line.items ≡ stretch_line (world_of q state.now) first last) }
{
    let mut line = Vec::new(alloc);
    put_pages(&mut line, first.0, last.0)?;
    put_frames(&mut line, first.1.frame, last.1.frame)?;
    put_entry(&mut line, state, first.1)?;
    line.push(b'\n')?;
    Ok(line)
}

// The first page of the stretch of which the next is, where a stretch has come from one page to
// another; the line of that stretch, where it is over.
fn go_on(
    alloc: Global,
    lines: &mut Vec<Vec<u8>>,
    state: &State,
    first: (u32, Entry),
    last: (u32, Entry),
    next: (u32, Entry),
) -> Result<(u32, Entry), AllocError>
    requires first { IsPage (length state.now.frames.owners) first }
    requires last { IsPage (length state.now.frames.owners) last }
    requires next { IsPage (length state.now.frames.owners) next }
    ensures told { IfOk result (λ start. (q : ℕ) (rest : List (ℕ × Entry))
        → vector_bytes lines.new.items ++ stretches_from (world_of q state.now) start next rest
        ≡ vector_bytes lines.old.items
        ++ stretches_from (world_of q state.now) first last (next ∷ rest)) }
    ensures page { IfOk result (IsPage (length state.now.frames.owners)) }
{
    if goes_on(state, last, next) {
        return Ok(first);
    }
    lines.push(stretch_line(alloc, state, first, last)?)?;
    Ok(next)
}

// the stretches of a space that isn't empty
fn stretches_from(alloc: Global, state: &State, space: &Space) -> Result<Vec<Vec<u8>>, AllocError>
    requires some { 0 < length space.now.entries }
    requires pages { All (IsPage (length state.now.frames.owners)) space.now.entries }
    ensures { IfOk result (λ lines. (q : ℕ) → vector_bytes lines.items
        ≡ stretches_of (world_of q state.now) space.now.entries) }
{
    let mut lines = Vec::new(alloc);
    let mut first = space.at(0);
    let mut last = first;
    for place in 1..space.len() {
        let next = space.at(place);
        first = go_on(alloc, &mut lines, state, first, last, next)?;
        last = next;
    }
    lines.push(stretch_line(alloc, state, first, last)?)?;
    Ok(lines)
}

fn stretches_of(alloc: Global, state: &State, space: &Space) -> Result<Vec<Vec<u8>>, AllocError>
    requires { All (IsPage (length state.now.frames.owners)) space.now.entries }
    ensures { IfOk result (λ lines. (q : ℕ) → vector_bytes lines.items
        ≡ stretches_of (world_of q state.now) space.now.entries) }
{
    if space.len() == 0 {
        return Ok(Vec::new(alloc));
    }
    stretches_from(alloc, state, space)
}

/// A line for each stretch of pages of a process: its pages, its frames, whose they are, and their
/// rights; that there is no process, where it doesn't live. Any number.
pub fn pages_lines(alloc: Global, state: &State, process: u32) -> Result<Vec<Vec<u8>>, AllocError>
    requires { IsSound state.now }
    ensures { IfOk result (λ lines. (q : ℕ) → vector_bytes lines.items
        ≡ pages_lines_in (world_of q state.now) (live_process (world_of q state.now) process)) }
{
    if state.table.is_live(process) {
        return stretches_of(alloc, state, state.table.space(process));
    }
    one_line(alloc, "no process")
}
