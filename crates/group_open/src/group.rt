//! A process and a thread for each image.

ghost use Rattle.std.specs.Prelude.{◌≡◌, ◌+◌, ◌<◌, ◌≤◌, ◌∷◌, ◌++◌, [], ℕ, List, None, IfSome};
ghost use Rattle.std.specs.Prelude.{length, replicate, false};
ghost use Rattle.dos_world.specs.ProcessCalls.{are_processes_full};
ghost use Rattle.elf_image.specs.Image.{Image as FlatImage};
ghost use Rattle.page_store.specs.Store.{unused_frames};
ghost use Rattle.proc_table.specs.Tables.{IsProcess, held_by, held_in, no_tables};
ghost use Rattle.group_open.specs.Group.{FitsMore, IsOpened, with_first_ends, with_process_opened};
ghost use Rattle.flat_machine.specs.Opening.{needed, opening_registers};

use crate::filling::{Opened, open_pages};
use dos_world::{End, Regs};
use elf_image::Image;
use page_store::Frames;
use proc_table::{SignalState, Table};

/// The register of the stack pointer.
const SP: u8 = 2;

/// The first value of the stack pointer, 16 below the end of the stack.
const STACK_POINTER: u32 = 0xefff_fff0;

fn first_regs(image: &Image) -> Regs
    ensures { result ≡ opening_registers image.now }
{
    let mut regs = Regs::new(image.entry());
    regs.set(SP, STACK_POINTER);
    regs
}

// opens the descriptors 0, 1 and 2 as input, output and error
fn open_ends(table: &mut Table, pid: u32)
    requires live { IsProcess table.old.processes pid }
    requires closed { IfSome (held_in table.old.processes pid)
        (λ h. h.descriptors ≡ replicate 32 None) }
    ensures { table.new ≡ held_by with_first_ends table.old pid }
{
    let _input = table.open_lowest(pid, End::Input);
    let _output = table.open_lowest(pid, End::Output);
    let _error = table.open_lowest(pid, End::Error);
}

// a process without a page, and its thread at the image's entry
fn open_process(table: &mut Table, image: &Image) -> Opened
    requires { are_processes_full table.old.processes table.old.threads ≡ false }
    ensures numbers { result
        ≡ record { pid = length table.old.processes + 1; tid = length table.old.threads + 1 } }
    ensures opens { table.new ≡ with_process_opened table.old image.now }
{
    match table.add_process(0, first_regs(image), SignalState::new(0)) {
        Ok((pid, tid)) => {
            open_ends(table, pid);
            Opened { pid, tid }
        }
        Err(_) => unreachable!(),
    }
}

// one image more
fn open_image(frames: &mut Frames, table: &mut Table, image: &Image)
    requires { FitsMore frames.old table.old image.now }
    ensures { (count : ℕ) (images : List FlatImage) → IsOpened count frames.old table.old images
        → IsOpened count frames.new table.new (images ++ image.now ∷ []) }
{
    let opened = open_process(table, image);
    open_pages(frames, table, opened, image);
}

/// All images, one after another.
pub(crate) fn open_images(frames: &mut Frames, table: &mut Table, images: &[Image])
    requires frames { frames.old ≡ unused_frames table.old.room }
    requires table { table.old ≡ no_tables table.old.room }
    requires few { length images.now ≤ 8 }
    requires fits { needed images.now ≤ table.old.room }
    ensures { IsOpened table.old.room frames.new table.new images.now }
{
    for image in images {
        open_image(frames, table, image);
    }
}
