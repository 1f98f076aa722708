// Processes in lines.
ghost use Rattle.std.specs.Prelude.{◌≡◌, ◌++◌, ℕ, IfOk, OnOk, IsSome, IfSome};
ghost use Rattle.dos_world.specs.Numbered.{numbered};
ghost use Rattle.dos_world.specs.World.{live_process};
ghost use Rattle.kernel_objects.specs.Pipework.{vector_bytes};
ghost use Rattle.kernel_calls.specs.StateWorld.{world_of};
ghost use Rattle.debug_session.specs.Pages.{life_words, process_told, processes_told};
ghost use Rattle.debug_answers.specs.Images.{name_by};

use crate::names::name_kept;
use crate::texts::{put_bytes, put_text, put_words};
use kernel_calls::State;
use std::alloc::{AllocError, Global};

// the name of the image of a process; nothing where none is kept
fn name_by<'n>(names: &'n [Vec<u8>], images: &[u32], process: u32) -> &'n [u8]
    ensures { result.now ≡ name_by (vector_bytes names.now) images.now process }
{
    match name_kept(names, images, process) {
        None => b"".as_slice(),
        Some(name) => name,
    }
}

/// A number that is asked about, or 0, which no process has, where it is greater than all of
/// theirs. Any number.
pub fn process_numbered(state: &State, asked: u64) -> u32
    ensures same { (q : ℕ) → live_process (world_of q state.now) result
        ≡ live_process (world_of q state.now) asked }
    ensures number { (q : ℕ) → IsSome (live_process (world_of q state.now) asked)
        → result ≡ asked }
{
    if asked > u64::from(state.table.processes()) {
        return 0;
    }
    asked as u32
}

// whether a process whose number was given lives, and what is told of it then
fn put_life(out: &mut Vec<u8>, state: &State, process: u32, name: &[u8]) -> Result<(), AllocError>
    requires { IsSome (numbered state.now.table.processes process) }
    ensures { IfSome (numbered state.now.table.processes process)
        (λ given. OnOk result (out.new.items ≡ out.old.items ++ life_words name.now given)) }
{
    match state.table.status(process) {
        None => {
            put_words(out, "live, parent ", state.table.parent(process))?;
            put_text(out, ", image ")?;
            put_bytes(out, name)
        }
        Some(status) => put_words(out, "status ", status),
    }
}

fn process_line(
    alloc: Global,
    state: &State,
    process: u32,
    name: &[u8],
) -> Result<Vec<u8>, AllocError>
    requires { IsSome (numbered state.now.table.processes process) }
    ensures { IfSome (numbered state.now.table.processes process)
        (λ given. IfOk result (λ line. line.items ≡ process_told name.now process given)) }
{
    let mut line = Vec::new(alloc);
    put_words(&mut line, "process ", process)?;
    put_text(&mut line, " ")?;
    put_life(&mut line, state, process, name)?;
    line.push(b'\n')?;
    Ok(line)
}

/// A line for each process whose number was given, with the names of the images and the number of
/// the image of each process, both in their order from 1.
pub fn process_lines(
    alloc: Global,
    state: &State,
    names: &[Vec<u8>],
    images: &[u32],
) -> Result<Vec<Vec<u8>>, AllocError>
    ensures { IfOk result (λ lines. (q : ℕ) → vector_bytes lines.items
        ≡ processes_told (name_by (vector_bytes names.now) images.now) (world_of q state.now)) }
{
    let mut lines = Vec::new(alloc);
    for place in 0..state.table.processes() {
        let process = place + 1;
        let name = name_by(names, images, process);
        lines.push(process_line(alloc, state, process, name)?)?;
    }
    Ok(lines)
}
