ghost use Rattle.std.specs.Prelude.{◌≤◌, ◌<◌, length};

use crate::checks::{same, same_at};
use dos_world::{Config, End, Entry, Owner, Scheme, Size};
use elf_image::{Image, read_image};
use group_open::{OpenError, entry_of, fill_page, needed, next_page, open_state, page_count};
use kernel_calls::State;
use page_store::{Frames, Page};
use proc_table::Table;
use std::alloc::Global;
use std::process::Abort;

/// Three parts: code in page 0x10 that may be executed, data from the end of that page into the
/// next that may be written, and one zero in page 5 with no right but to be read.
const PARTS: [u8; 160] = [
    0x7F, 0x45, 0x4C, 0x46, 1, 1, 1, 0, 0, 0, 0, 0, 0, 0, 0, 0, // e_ident
    2, 0, 243, 0, 1, 0, 0, 0, 4, 0, 1, 0, 52, 0, 0, 0, // e_type to e_phoff, entered at 0x10004
    0, 0, 0, 0, 0, 0, 0, 0, 52, 0, 32, 0, 3, 0, 0, 0, 0, 0, 0, 0, // e_shoff to e_shstrndx
    1, 0, 0, 0, 148, 0, 0, 0, 0, 0, 1, 0, 0, 0, 1, 0, // 8 bytes at 0x10000
    8, 0, 0, 0, 8, 0, 0, 0, 5, 0, 0, 0, 0, 0x10, 0, 0, //
    1, 0, 0, 0, 156, 0, 0, 0, 0xFE, 0x0F, 1, 0, 0xFE, 0x0F, 1, 0, // 4 bytes at 0x10FFE, of 6
    4, 0, 0, 0, 6, 0, 0, 0, 6, 0, 0, 0, 0, 0x10, 0, 0, //
    1, 0, 0, 0, 0, 0, 0, 0, 0, 0x50, 0, 0, 0, 0x50, 0, 0, // none at 0x5000, of 1
    0, 0, 0, 0, 1, 0, 0, 0, 4, 0, 0, 0, 0, 0x10, 0, 0, //
    0x73, 0, 0, 0, 0x6F, 0, 0, 0, // at 148: ecall; j 0
    1, 2, 3, 4, // at 156
];

// Of what the helpers give nothing is said: the tests look.

fn read(rt: &impl Abort, alloc: Global, file: &[u8]) -> Image {
    read_image(alloc, file).expect(rt, "an image")
}

fn image(rt: &impl Abort, alloc: Global) -> Image {
    read(rt, alloc, &PARTS)
}

fn check_pages(rt: &impl Abort, image: &Image, rows: &[(u32, Option<u32>)]) {
    for &(from, page) in rows {
        same_at(rt, next_page(image, from), page, from);
    }
}

#[test]
fn pages_come_in_rising_order(rt: HostRuntime) {
    let images = [image(&rt, rt.alloc())];
    let rows = [
        (0, Some(5)),
        (5, Some(5)),
        (6, Some(0x10)),
        (0x11, Some(0x11)),
        (0x12, None),
    ];
    check_pages(&rt, &images[0], &rows);
    same(&rt, page_count(&images[0]), 19);
    same(&rt, needed(&images), 19);
    drop(images);
}

/// An entry with these rights that isn't shared.
fn entry(frame: u32, write: bool, exec: bool) -> Entry {
    Entry {
        frame,
        write,
        exec,
        shared: false,
    }
}

fn check_rights(rt: &impl Abort, image: &Image, rows: &[(u32, bool, bool)]) {
    for &(page, write, exec) in rows {
        same_at(rt, entry_of(image, page, 7), entry(7, write, exec), page);
    }
}

#[test]
fn a_page_has_the_rights_of_all_its_parts(rt: HostRuntime) {
    let image = image(&rt, rt.alloc());
    let rows = [
        (5, false, false),
        (0x10, true, true),
        (0x11, true, false),
        (0x12, false, false),
    ];
    check_rights(&rt, &image, &rows);
    drop(image);
}

/// The image's page with this number, below that of the stack's end.
fn filled(rt: &impl Abort, alloc: Global, image: &Image, number: u32) -> Page
    requires { number < 0xF0000 }
{
    let mut page = Page::new(alloc).expect(rt, "memory");
    fill_page(image, number, &mut page);
    page
}

#[test]
fn a_part_goes_on_in_the_next_page(rt: HostRuntime) {
    let image = image(&rt, rt.alloc());
    let first = filled(&rt, rt.alloc(), &image, 0x10);
    same(&rt, first.read(0, Size::Word), 0x73);
    same(&rt, first.read(4, Size::Word), 0x6F);
    same(&rt, first.read(8, Size::Byte), 0);
    same(&rt, first.read(4093, Size::Byte), 0);
    same(&rt, first.read(4094, Size::Half), 0x0201);
    drop(first);
    let second = filled(&rt, rt.alloc(), &image, 0x11);
    same(&rt, second.read(0, Size::Word), 0x0403);
    drop(second);
    drop(image);
}

/// Why these images aren't opened with so many frames.
fn refusal(alloc: Global, images: &[Image], frames: u32) -> Option<OpenError>
    requires some { 1 ≤ length images.now }
    requires few { length images.now ≤ 8 }
    requires least { 16 ≤ frames }
    requires most { frames ≤ 16384 }
{
    let config = Config {
        quantum: 16,
        rounds: 1,
        frames,
        scheme: Scheme::Ownership,
    };
    open_state(alloc, images, &config).err()
}

fn check_refusal(
    rt: &impl Abort,
    alloc: Global,
    images: &[Image],
    frames: u32,
    wanted: Option<OpenError>,
)
    requires some { 1 ≤ length images.now }
    requires few { length images.now ≤ 8 }
    requires least { 16 ≤ frames }
    requires most { frames ≤ 16384 }
{
    same_at(rt, refusal(alloc, images, frames), wanted, frames);
}

fn no_room(needed: u64, frames: u32) -> Option<OpenError> {
    Some(OpenError::NoRoom { needed, frames })
}

#[test]
fn images_that_need_more_frames_are_refused(rt: HostRuntime) {
    let alloc = rt.alloc();
    let one = [image(&rt, alloc)];
    check_refusal(&rt, alloc, &one, 18, no_room(19, 18));
    check_refusal(&rt, alloc, &one, 19, None);
    drop(one);
    let two = [image(&rt, alloc), image(&rt, alloc)];
    check_refusal(&rt, alloc, &two, 37, no_room(38, 37));
    check_refusal(&rt, alloc, &two, 38, None);
    drop(two);
}

/// The state of a group of two such images, before its first round.
fn opened(rt: &impl Abort, alloc: Global) -> State {
    let images = [image(rt, alloc), image(rt, alloc)];
    let config = Config {
        quantum: 16,
        rounds: 1,
        frames: 40,
        scheme: Scheme::Ownership,
    };
    let state = open_state(alloc, &images, &config).expect(rt, "room");
    drop(images);
    state
}

/// Where a thread lives, its process, its pc and its stack pointer.
fn thread(table: &Table, tid: u32) -> Option<(u32, u32, u32)> {
    if !table.is_thread(tid) {
        return None;
    }
    let regs = table.regs(tid);
    Some((table.process_of(tid), regs.pc(), regs.get(2)))
}

fn end_of(table: &Table, pid: u32, number: u32) -> Option<End> {
    if !table.is_live(pid) {
        return None;
    }
    table.descriptor(pid, number)
}

fn check_ends(rt: &impl Abort, table: &Table, pid: u32, rows: &[(u32, Option<End>)]) {
    for &(number, end) in rows {
        same_at(rt, end_of(table, pid, number), end, number);
    }
}

#[test]
fn each_image_has_a_process_and_a_thread(rt: HostRuntime) {
    let state = opened(&rt, rt.alloc());
    same(&rt, (state.round, state.table.processes()), (1, 2));
    let wanted = Some((2, 0x10004, 0xefff_fff0));
    same(&rt, thread(&state.table, 2), wanted);
    same(&rt, state.table.is_live(2), true);
    let rows = [
        (0, Some(End::Input)),
        (1, Some(End::Output)),
        (2, Some(End::Error)),
        (3, None),
    ];
    check_ends(&rt, &state.table, 2, &rows);
    drop(state);
}

/// A frame's owner and its uses.
fn frame(frames: &Frames, frame: u32) -> Option<(Owner, u32)> {
    if frame >= frames.count() {
        return None;
    }
    Some((frames.owner(frame), frames.uses(frame)))
}

/// The word at an offset of a frame's page.
pub fn word_at(frames: &Frames, frame: u32, offset: u32) -> Option<u32> {
    if frame >= frames.count() || offset > 4092 {
        return None;
    }
    if !frames.is_home(frame) {
        return None;
    }
    Some(frames.lend(frame).read(offset, Size::Word))
}

fn check_frames(rt: &impl Abort, frames: &Frames, rows: &[(u32, Owner, u32)]) {
    for &(number, owner, uses) in rows {
        same_at(rt, frame(frames, number), Some((owner, uses)), number);
    }
}

#[test]
fn frames_are_taken_in_order(rt: HostRuntime) {
    let state = opened(&rt, rt.alloc());
    same(&rt, state.frames.count(), 40);
    let rows = [
        (18, Owner::Of(1), 1),
        (19, Owner::Of(2), 1),
        (37, Owner::Of(2), 1),
        (38, Owner::Free, 0),
    ];
    check_frames(&rt, &state.frames, &rows);
    same(&rt, word_at(&state.frames, 20, 4092), Some(0x0201_0000));
    same(&rt, word_at(&state.frames, 21, 0), Some(0x0403));
    drop(state);
}

/// How many pages a process has.
fn pages(table: &Table, pid: u32) -> Option<u32> {
    if !table.is_live(pid) {
        return None;
    }
    Some(table.space(pid).len())
}

/// The page at a place of a process's space, and its entry.
fn page_at(table: &Table, pid: u32, place: u32) -> Option<(u32, Entry)> {
    if !table.is_live(pid) {
        return None;
    }
    let space = table.space(pid);
    if place >= space.len() {
        return None;
    }
    Some(space.at(place))
}

fn check_space(rt: &impl Abort, table: &Table, pid: u32, rows: &[(u32, u32, Entry)]) {
    for &(place, page, entry) in rows {
        same_at(rt, page_at(table, pid, place), Some((page, entry)), page);
    }
}

#[test]
fn the_stack_lies_above_the_parts(rt: HostRuntime) {
    let state = opened(&rt, rt.alloc());
    same(&rt, pages(&state.table, 2), Some(19));
    let rows = [
        (0, 5, entry(19, false, false)),
        (1, 0x10, entry(20, true, true)),
        (2, 0x11, entry(21, true, false)),
        (3, 0xe_fff0, entry(22, true, false)),
        (18, 0xe_ffff, entry(37, true, false)),
    ];
    check_space(&rt, &state.table, 2, &rows);
    drop(state);
}
