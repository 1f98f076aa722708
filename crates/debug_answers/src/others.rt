// The other pages with the frame of one.
ghost use Rattle.std.specs.Prelude.{◌≡◌, ◌<◌, ◌^◌, ◌++◌, ℕ, All, OnOk, IfOk, flat_map, codes};
ghost use Rattle.dos_world.specs.World.{live_process};
ghost use Rattle.kernel_objects.specs.Pipework.{vector_bytes};
ghost use Rattle.proc_table.specs.Tables.{held_in};
ghost use Rattle.kernel_calls.specs.StateWorld.{world_of, IsSound};
ghost use Rattle.debug_session.specs.Where.{console_line};
ghost use Rattle.debug_session.specs.Pages.{page_words, is_other_with, also_row, also_in};
ghost use Rattle.debug_session.specs.Pages.{also_lines};

use crate::pages::put_page;
use crate::texts::put_text;
use dos_world::Entry;
use kernel_calls::State;
use space_map::Space;
use std::alloc::{AllocError, Global};

// a page of a process, and its frame
#[derive(Clone, Copy)]
pub(crate) struct Shown {
    pub(crate) process: u32,
    pub(crate) page: u32,
    pub(crate) frame: u32,
}

fn is_other_with(shown: Shown, process: u32, entry: (u32, Entry)) -> bool
    ensures { result ≡ is_other_with shown.process shown.page shown.frame process entry }
{
    if entry.1.frame != shown.frame {
        return false;
    }
    if process != shown.process {
        return true;
    }
    entry.0 != shown.page
}

// another page with the same frame
fn also_line(alloc: Global, process: u32, page: u32) -> Result<Vec<u8>, AllocError>
    requires { page < 2 ^ 20 }
    ensures { IfOk result
        (λ line. line.items ≡ console_line (codes "also " ++ page_words process page)) }
{
    let mut line = Vec::new(alloc);
    put_text(&mut line, "also ")?;
    put_page(&mut line, process, page)?;
    line.push(b'\n')?;
    Ok(line)
}

// the line of an entry that is another with that frame
fn add_also(
    alloc: Global,
    lines: &mut Vec<Vec<u8>>,
    shown: Shown,
    process: u32,
    entry: (u32, Entry),
) -> Result<(), AllocError>
    requires { entry.0 < 2 ^ 20 }
    ensures { OnOk result (vector_bytes lines.new.items ≡ vector_bytes lines.old.items
        ++ also_row shown.process shown.page shown.frame process entry) }
{
    if is_other_with(shown, process, entry) {
        let line = also_line(alloc, process, entry.0)?;
        lines.push(line)?;
    }
    Ok(())
}

// those of a space
fn add_in_space(
    alloc: Global,
    lines: &mut Vec<Vec<u8>>,
    shown: Shown,
    process: u32,
    space: &Space,
) -> Result<(), AllocError>
    requires { All (λ e. e.0 < 2 ^ 20) space.now.entries }
    ensures { OnOk result (vector_bytes lines.new.items ≡ vector_bytes lines.old.items
        ++ flat_map (also_row shown.process shown.page shown.frame process) space.now.entries) }
{
    for place in 0..space.len() {
        add_also(alloc, lines, shown, process, space.at(place))?;
    }
    Ok(())
}

// those of a process, where it lives
fn add_in_process(
    alloc: Global,
    lines: &mut Vec<Vec<u8>>,
    state: &State,
    shown: Shown,
    process: u32,
) -> Result<(), AllocError>
    requires { IsSound state.now }
    ensures { OnOk result (vector_bytes lines.new.items ≡ vector_bytes lines.old.items
        ++ also_in shown.process shown.page shown.frame process
        (held_in state.now.table.processes process)) }
{
    if state.table.is_live(process) {
        return add_in_space(alloc, lines, shown, process, state.table.space(process));
    }
    Ok(())
}

/// The other pages with that frame, by rising process and page.
pub(crate) fn add_others(
    alloc: Global,
    lines: &mut Vec<Vec<u8>>,
    state: &State,
    shown: Shown,
) -> Result<(), AllocError>
    requires { IsSound state.now }
    ensures { (q : ℕ) → OnOk result (vector_bytes lines.new.items ≡ vector_bytes lines.old.items
        ++ also_lines (world_of q state.now) shown.process shown.page shown.frame) }
{
    for place in 0..state.table.processes() {
        add_in_process(alloc, lines, state, shown, place + 1)?;
    }
    Ok(())
}
