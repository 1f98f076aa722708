//! Frames that are taken one after another, each mapped as a page of one process.

ghost use Rattle.std.specs.Prelude.{◌≡◌, ◌+◌, ◌<◌, ◌≤◌, ◌∷◌, [], ℕ, All, IfSome, IsSome, length};
ghost use Rattle.std.specs.Prelude.{map, position, replicate, slice_get, Some};
ghost use Rattle.dos_world.specs.Kernel.{zero_page};
ghost use Rattle.dos_world.specs.World.{is_free};
ghost use Rattle.dos_world.specs.Numbered.{map_from};
ghost use Rattle.page_store.specs.Store.{AreHome, with_home, with_owned, whole};
ghost use Rattle.proc_table.specs.Tables.{IsProcess, held_in};
ghost use Rattle.flat_machine.specs.Opening.{image_bytes, page_bytes, page_count, part_entry};
ghost use Rattle.flat_machine.specs.Opening.{part_pages, space_from, stack_entry, stack_pages};
ghost use Rattle.group_open.specs.Filling.{HasPlace, HasFrames, Opens, OpensImage, OpensParts};
ghost use Rattle.group_open.specs.Filling.{OpensStack, TakesFrame};

use crate::pages::{STACK_PAGES, entry_of, fill_page, next_page};
use dos_world::{Entry, Owner};
use elf_image::Image;
use page_store::Frames;
use proc_table::Table;

// The stack's lowest page, and the first page above it.
const STACK: u32 = 0xe_fff0;

const STACK_END: u32 = STACK + STACK_PAGES;

/// A process and its thread.
#[derive(Clone, Copy, Drop)]
pub(crate) struct Opened {
    pub(crate) pid: u32,
    pub(crate) tid: u32,
}

// the lowest Free frame, whose page is zero, becomes the thread's
fn take_frame(frames: &mut Frames, tid: u32) -> u32
    requires { HasFrames frames.old 1 }
    ensures lowest { position is_free frames.old.owners ≡ Some result }
    ensures becomes { frames.new ≡ with_owned frames.old result tid }
{
    match frames.fresh(tid) {
        Some(frame) => frame,
        None => unreachable!(),
    }
}

// the lowest Free frame becomes the thread's, with the bytes of a page of the image
fn take_filled(frames: &mut Frames, tid: u32, image: &Image, page: u32) -> u32
    requires room { HasFrames frames.old 1 }
    requires page { page < 0xF0000 }
    ensures { TakesFrame frames.old frames.new tid result (page_bytes image.now page) }
{
    let frame = take_frame(frames, tid);
    fill_page(image, page, frames.lend_mut(frame));
    frame
}

// the next frame, with the image's bytes of a page, is mapped as that page
fn open_page(frames: &mut Frames, table: &mut Table, opened: Opened, image: &Image, page: u32)
    requires room { HasFrames frames.old 1 }
    requires place { HasPlace table.old opened.pid page 1 }
    requires page { page < 0xF0000 }
    ensures { Opens frames.old frames.new table.old table.new opened.pid
        (λ n. part_entry image.now n page ∷ []) (page_bytes image.now page)
        (Owner.Of opened.tid ∷ []) }
{
    let frame = take_filled(frames, opened.tid, image, page);
    table.put_entry(opened.pid, page, entry_of(image, page, frame));
}

// the next frame, of zeros, is mapped as a page of the stack
fn open_stack_page(frames: &mut Frames, table: &mut Table, opened: Opened, page: u32)
    requires room { HasFrames frames.old 1 }
    requires place { HasPlace table.old opened.pid page 1 }
    ensures { Opens frames.old frames.new table.old table.new opened.pid
        (λ n. stack_entry n page ∷ []) zero_page (Owner.Of opened.tid ∷ []) }
{
    let frame = take_frame(frames, opened.tid);
    let entry = Entry {
        frame,
        write: true,
        exec: false,
        shared: false,
    };
    table.put_entry(opened.pid, page, entry);
}

// each page that a part of the image touches, in rising order
fn open_parts(frames: &mut Frames, table: &mut Table, opened: Opened, image: &Image)
    requires room { HasFrames frames.old (length (part_pages image.now)) }
    requires place { HasPlace table.old opened.pid 0 (length (part_pages image.now)) }
    ensures opens { OpensParts frames.old frames.new table.old table.new opened.pid opened.tid
        image.now (part_pages image.now) }
    ensures below { All (λ page. page < 0xEFFF0) (part_pages image.now) }
{
    let mut from = 0;
    while let Some(page) = next_page(image, from) {
        open_page(frames, table, opened, image, page);
        from = page + 1;
    }
}

// the pages of the stack
fn open_stack(frames: &mut Frames, table: &mut Table, opened: Opened)
    requires room { HasFrames frames.old 16 }
    requires place { HasPlace table.old opened.pid 0xEFFF0 16 }
    ensures { OpensStack frames.old frames.new table.old table.new opened.pid opened.tid
        stack_pages }
{
    for page in STACK..STACK_END {
        open_stack_page(frames, table, opened, page);
    }
}

/// All pages of the image, the stack's last, each in the next frame, which becomes the thread's.
pub(crate) fn open_pages(frames: &mut Frames, table: &mut Table, opened: Opened, image: &Image)
    requires room { HasFrames frames.old (page_count image.now) }
    requires place { HasPlace table.old opened.pid 0 (page_count image.now) }
    ensures { OpensImage frames.old frames.new table.old table.new opened.pid opened.tid image.now }
{
    open_parts(frames, table, opened, image);
    open_stack(frames, table, opened);
}
