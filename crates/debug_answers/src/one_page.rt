// One page in lines.
ghost use Rattle.std.specs.Prelude.{◌≡◌, ◌/◌, ◌<◌, ◌^◌, ◌++◌, ◌∷◌, [], ℕ, Some, IfOk, length};
ghost use Rattle.std.specs.Prelude.{codes};
ghost use Rattle.dos_world.specs.World.{look, live_process, page_size};
ghost use Rattle.kernel_objects.specs.Pipework.{vector_bytes};
ghost use Rattle.proc_table.specs.Tables.{IsProcess};
ghost use Rattle.kernel_mem.specs.MemoryWorld.{space_in};
ghost use Rattle.kernel_calls.specs.StateWorld.{world_of, IsSound};
ghost use Rattle.debug_session.specs.Where.{console_line};
ghost use Rattle.debug_session.specs.Pages.{page_words, page_lines_of, page_lines_in};

use crate::lines::one_line;
use crate::others::{Shown, add_others};
use crate::pages::{mapped_line, unmapped_line};
use dos_world::Entry;
use kernel_calls::State;
use std::alloc::{AllocError, Global};

// of a page that is mapped: it, and the others with its frame
fn mapped_lines(
    alloc: Global,
    state: &State,
    process: u32,
    page: u32,
    entry: Entry,
) -> Result<Vec<Vec<u8>>, AllocError>
    requires sound { IsSound state.now }
    requires page { page < 2 ^ 20 }
    requires frame { entry.frame < length state.now.frames.owners }
    ensures { IfOk result (λ lines. (q : ℕ) → vector_bytes lines.items
        ≡ page_lines_of (world_of q state.now) process page (Some entry)) }
{
    let mut lines = Vec::new(alloc);
    lines.push(mapped_line(alloc, state, process, page, entry)?)?;
    let shown = Shown {
        process,
        page,
        frame: entry.frame,
    };
    add_others(alloc, &mut lines, state, shown)?;
    Ok(lines)
}

fn unmapped_lines(alloc: Global, process: u32, page: u32) -> Result<Vec<Vec<u8>>, AllocError>
    requires { page < 2 ^ 20 }
    ensures { IfOk result (λ lines. vector_bytes lines.items
        ≡ console_line (page_words process page ++ codes " isn't mapped") ∷ []) }
{
    let mut lines = Vec::new(alloc);
    lines.push(unmapped_line(alloc, process, page)?)?;
    Ok(lines)
}

// of a page of a process that lives
fn live_page_lines(
    alloc: Global,
    state: &State,
    process: u32,
    page: u32,
) -> Result<Vec<Vec<u8>>, AllocError>
    requires sound { IsSound state.now }
    requires live { IsProcess state.now.table.processes process }
    requires page { page < 2 ^ 20 }
    ensures { IfOk result (λ lines. (q : ℕ) → vector_bytes lines.items
        ≡ page_lines_of (world_of q state.now) process page
        (look (space_in state.now.table process) page)) }
{
    match state.table.space(process).look(page) {
        None => unmapped_lines(alloc, process, page),
        Some(entry) => mapped_lines(alloc, state, process, page, entry),
    }
}

/// The page of a process in which an address lies: whether it is mapped, its frame, whose that is,
/// its rights, and each other page with that frame; that there is no process, where it doesn't
/// live. Any numbers.
pub fn page_lines(
    alloc: Global,
    state: &State,
    process: u32,
    address: u32,
) -> Result<Vec<Vec<u8>>, AllocError>
    requires { IsSound state.now }
    ensures { IfOk result (λ lines. (q : ℕ) → vector_bytes lines.items
        ≡ page_lines_in (world_of q state.now) process (address / page_size)
        (live_process (world_of q state.now) process)) }
{
    if state.table.is_live(process) {
        return live_page_lines(alloc, state, process, address / 4096);
    }
    one_line(alloc, "no process")
}
