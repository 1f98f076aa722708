// What services do to the memory of process 1, whose first thread calls. The helpers ask first.
ghost use Rattle.std.specs.Prelude.{◌≡◌, IfOk, MatchBool, true, false};
ghost use Rattle.kernel_mem.specs.MemoryWorld.{IsCaller, HasAllHome};

use crate::checks::{same, same_at};
use dos_world::{Entry, Owner, Regs, Size};
use kernel_mem::{map_pages, share};
use page_store::Frames;
use proc_table::{SignalState, Table};
use std::alloc::{AllocError, Global};
use std::process::Abort;

// a table with process 1 and its thread 1, and room for 4 pages
fn one_process(alloc: Global) -> Result<Table, AllocError>
    ensures { IfOk result (λ t. t.room ≡ 4) }
{
    let mut table = Table::reserve(alloc, 4)?;
    match table.add_process(0, Regs::new(0x1_0000), SignalState::new(0)) {
        Ok(_) => {}
        Err(_) => unreachable!(),
    }
    Ok(table)
}

fn four_frames(alloc: Global) -> Result<Frames, AllocError>
    ensures { IfOk result (λ f. HasAllHome f) }
{
    Frames::reserve(alloc, 4)
}

// Whether the thread lives, and so does its process.
fn is_caller(table: &Table, tid: u32) -> bool
    ensures { MatchBool result (IsCaller table.now tid) (Unit {0}) }
{
    if !table.is_thread(tid) {
        return false;
    }
    table.is_live(table.process_of(tid))
}

// Maps writable pages for thread 1. None where it doesn't live, or its space could become full.
fn map(frames: &mut Frames, table: &mut Table, address: u32, pages: u32) -> Option<Result<(), u8>>
    requires home { HasAllHome frames.old }
    requires room { table.old.room ≡ 4 }
    ensures home { HasAllHome frames.new }
    ensures room { table.new.room ≡ 4 }
{
    if !is_caller(table, 1) {
        return None;
    }
    let mapped = table.space(table.process_of(1)).len();
    if frames.free_count() > 4 - mapped {
        return None;
    }
    Some(map_pages(frames, table, 1, address, pages, 6))
}

// None where thread 1 doesn't live.
fn share_pages(table: &mut Table, address: u32, pages: u32) -> Option<Result<(), u8>>
    ensures { table.new.room ≡ table.old.room }
{
    if !is_caller(table, 1) {
        return None;
    }
    Some(share(table, 1, address, pages))
}

fn check_map(
    rt: &impl Abort,
    frames: &mut Frames,
    table: &mut Table,
    range: (u32, u32),
    wanted: Result<(), u8>,
)
    requires home { HasAllHome frames.old }
    requires room { table.old.room ≡ 4 }
    ensures home { HasAllHome frames.new }
    ensures room { table.new.room ≡ 4 }
{
    let (address, pages) = range;
    same_at(
        rt,
        map(frames, table, address, pages),
        Some(wanted),
        "address",
        address,
    );
}

fn check_share(
    rt: &impl Abort,
    table: &mut Table,
    address: u32,
    pages: u32,
    wanted: Result<(), u8>,
) {
    same_at(
        rt,
        share_pages(table, address, pages),
        Some(wanted),
        "address",
        address,
    );
}

// A process's entry of a page.
fn entry(table: &Table, pid: u32, page: u32) -> Option<Entry> {
    if !table.is_live(pid) {
        return None;
    }
    table.space(pid).look(page)
}

// A frame's owner and uses, and the word that its page begins with.
fn frame(frames: &Frames, frame: u32) -> Option<(Owner, u32, u32)> {
    if frame >= frames.count() {
        return None;
    }
    if !frames.is_home(frame) {
        return None;
    }
    Some((
        frames.owner(frame),
        frames.uses(frame),
        frames.lend(frame).read(0, Size::Word),
    ))
}

pub(crate) fn writable(frame: u32, shared: bool) -> Entry
    ensures { result ≡ record { frame = frame; write = true; exec = false; shared = shared } }
{
    Entry {
        frame,
        write: true,
        exec: false,
        shared,
    }
}

// The frames of these pages of a process, and whether they are shared. None is for an entry that
// isn't there.
pub(crate) fn check_entries(
    rt: &impl Abort,
    table: &Table,
    pid: u32,
    rows: &[(u32, Option<(u32, bool)>)],
) {
    for &(page, want) in rows {
        let wanted = match want {
            Some((frame, shared)) => Some(writable(frame, shared)),
            None => None,
        };
        same_at(rt, entry(table, pid, page), wanted, "page", page);
    }
}

// Of these frames the owner, the uses and the first word.
pub(crate) fn check_frames(rt: &impl Abort, frames: &Frames, rows: &[(u32, Owner, u32, u32)]) {
    for &(number, owner, uses, word) in rows {
        same_at(
            rt,
            frame(frames, number),
            Some((owner, uses, word)),
            "frame",
            number,
        );
    }
}

pub(crate) fn check_free(rt: &impl Abort, frames: &Frames, wanted: u32) {
    same(rt, frames.free_count(), wanted);
}

#[test]
fn pages_are_mapped_in_fresh_frames(rt: HostRuntime) {
    let mut frames = four_frames(rt.alloc()).expect(&rt, "memory");
    let mut table = one_process(rt.alloc()).expect(&rt, "memory");
    check_map(&rt, &mut frames, &mut table, (0x1_0001, 1), Err(22));
    check_map(&rt, &mut frames, &mut table, (0x1_0000, 2), Ok(()));
    let rows = [(0x10, Some((0, false))), (0x11, Some((1, false)))];
    check_entries(&rt, &table, 1, &rows);
    let rows = [(0, Owner::Of(1), 1, 0), (1, Owner::Of(1), 1, 0)];
    check_frames(&rt, &frames, &rows);
    drop(table);
    drop(frames);
}

#[test]
fn mapped_pages_and_too_many_are_refused(rt: HostRuntime) {
    let mut frames = four_frames(rt.alloc()).expect(&rt, "memory");
    let mut table = one_process(rt.alloc()).expect(&rt, "memory");
    check_map(&rt, &mut frames, &mut table, (0x1_0000, 2), Ok(()));
    check_map(&rt, &mut frames, &mut table, (0xf000, 2), Err(22));
    check_map(&rt, &mut frames, &mut table, (0x2_0000, 3), Err(12));
    check_entries(&rt, &table, 1, &[(0x20, None)]);
    check_free(&rt, &frames, 2);
    drop(table);
    drop(frames);
}

#[test]
fn a_range_is_shared_where_all_of_it_is_mapped(rt: HostRuntime) {
    let mut frames = four_frames(rt.alloc()).expect(&rt, "memory");
    let mut table = one_process(rt.alloc()).expect(&rt, "memory");
    check_map(&rt, &mut frames, &mut table, (0x1_0000, 2), Ok(()));
    check_share(&rt, &mut table, 0x1_1000, 2, Err(22));
    check_entries(&rt, &table, 1, &[(0x11, Some((1, false)))]);
    check_share(&rt, &mut table, 0x1_1000, 1, Ok(()));
    let rows = [(0x10, Some((0, false))), (0x11, Some((1, true)))];
    check_entries(&rt, &table, 1, &rows);
    drop(table);
    drop(frames);
}

// Shares those of a run of pages that process 1 maps.
fn share_run(table: &mut Table, page: u32, count: u32) {
    if table.is_live(1) {
        table.share_run(1, page, count);
    }
}

// Unmaps those of a run of pages that process 1 maps.
fn remove_run(table: &mut Table, page: u32, count: u32) {
    if table.is_live(1) {
        table.remove_run(1, page, count);
    }
}

#[test]
fn a_run_is_shared_and_unmapped_where_it_is_mapped(rt: HostRuntime) {
    let mut frames = four_frames(rt.alloc()).expect(&rt, "memory");
    let mut table = one_process(rt.alloc()).expect(&rt, "memory");
    check_map(&rt, &mut frames, &mut table, (0x1_0000, 3), Ok(()));
    share_run(&mut table, 0xf, 2);
    remove_run(&mut table, 0x12, 2);
    let rows = [
        (0x10, Some((0, true))),
        (0x11, Some((1, false))),
        (0x12, None),
    ];
    check_entries(&rt, &table, 1, &rows);
    drop(table);
    drop(frames);
}
