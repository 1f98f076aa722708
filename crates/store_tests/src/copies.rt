// Bytes that go out to memory, and a fork: both of a process with two pages, the second shared.
ghost use Rattle.std.specs.Prelude.{◌≡◌, ◌∷◌, [], length, IfOk};
ghost use Rattle.kernel_mem.specs.MemoryWorld.{IsCaller, HasAllHome};
ghost use Rattle.page_store.specs.Store.{AreHome, unused_frames, with_owned};
ghost use Rattle.store_tests.specs.Memory.{HasTwoPages, two_owners};

use crate::checks::{same, same_at};
use crate::memory::{check_entries, check_frames, check_free, writable};
use dos_world::{Owner, Regs, Size};
use kernel_mem::{check, copy_out, fork};
use page_store::Frames;
use proc_table::{SignalState, Table};
use std::alloc::{AllocError, Global};
use std::process::Abort;

// Four frames, of which the first is thread 1's.
fn one_frame(alloc: Global) -> Result<Frames, AllocError>
    ensures { IfOk result (λ f. f ≡ with_owned (unused_frames 4) 0 1) }
{
    let mut frames = Frames::reserve(alloc, 4)?;
    let _ = frames.fresh(1);
    Ok(frames)
}

// Four frames, of which two are thread 1's; the first begins with the word 0x64636261.
fn two_frames(alloc: Global) -> Result<Frames, AllocError>
    ensures home { IfOk result (λ f. HasAllHome f) }
    ensures owners { IfOk result (λ f. f.owners ≡ two_owners) }
    ensures uses { IfOk result (λ f. f.uses ≡ 1 ∷ 1 ∷ 0 ∷ 0 ∷ []) }
{
    let mut frames = one_frame(alloc)?;
    let _ = frames.fresh(1);
    write_word(&mut frames);
    Ok(frames)
}

fn write_word(frames: &mut Frames)
    requires home { AreHome frames.old }
    requires count { length frames.old.pages ≡ 4 }
    ensures home { AreHome frames.new }
    ensures count { length frames.new.pages ≡ 4 }
    ensures owners { frames.new.owners ≡ frames.old.owners }
    ensures uses { frames.new.uses ≡ frames.old.uses }
{
    frames.lend_mut(0).write(0, Size::Word, 0x6463_6261);
}

// Process 1, its thread 1, and its pages 0x10 and 0x11, which is shared.
fn two_pages(alloc: Global) -> Result<Table, AllocError>
    ensures caller { IfOk result (λ t. IsCaller t 1) }
    ensures pages { IfOk result (λ t. HasTwoPages t) }
{
    let mut table = Table::reserve(alloc, 4)?;
    match table.add_process(0, Regs::new(0x1_0000), SignalState::new(0)) {
        Ok(_) => {}
        Err(_) => unreachable!(),
    }
    table.put_entry(1, 0x10, writable(0, false));
    table.put_entry(1, 0x11, writable(1, true));
    Ok(table)
}

// Writes bytes for thread 1, where it may. Whether it did.
fn write(frames: &mut Frames, table: &Table, address: u32, bytes: &[u8]) -> bool
    requires caller { IsCaller table.now 1 }
    requires pages { HasTwoPages table.now }
    requires home { HasAllHome frames.old }
    requires owners { frames.old.owners ≡ two_owners }
{
    if bytes.len() > 4096 {
        return false;
    }
    match check(table, 1, address, bytes.len() as u32, true) {
        Ok(()) => {
            copy_out(frames, table, 1, address, bytes);
            true
        }
        Err(_) => false,
    }
}

fn check_written(rt: &impl Abort, frames: &mut Frames, table: &Table, address: u32, bytes: &[u8])
    requires caller { IsCaller table.now 1 }
    requires pages { HasTwoPages table.now }
    requires home { HasAllHome frames.old }
    requires owners { frames.old.owners ≡ two_owners }
{
    assert!(rt; write(frames, table, address, bytes));
}

fn fork_first(frames: &mut Frames, table: &mut Table) -> Result<u32, u8>
    requires caller { IsCaller table.old 1 }
    requires pages { HasTwoPages table.old }
    requires home { HasAllHome frames.old }
    requires owners { frames.old.owners ≡ two_owners }
    requires uses { frames.old.uses ≡ 1 ∷ 1 ∷ 0 ∷ 0 ∷ [] }
{
    fork(frames, table, 1)
}

fn check_forked(rt: &impl Abort, frames: &mut Frames, table: &mut Table, wanted: Result<u32, u8>)
    requires caller { IsCaller table.old 1 }
    requires pages { HasTwoPages table.old }
    requires home { HasAllHome frames.old }
    requires owners { frames.old.owners ≡ two_owners }
    requires uses { frames.old.uses ≡ 1 ∷ 1 ∷ 0 ∷ 0 ∷ [] }
{
    same(rt, fork_first(frames, table), wanted);
}

// The word at an offset of a frame's page.
fn word_at(frames: &Frames, frame: u32, offset: u32) -> Option<u32> {
    if frame >= frames.count() || offset > 4092 {
        return None;
    }
    if !frames.is_home(frame) {
        return None;
    }
    Some(frames.lend(frame).read(offset, Size::Word))
}

// The words at these offsets of frames' pages.
pub(crate) fn check_words(rt: &impl Abort, frames: &Frames, rows: &[(u32, u32, u32)]) {
    for &(frame, offset, want) in rows {
        same_at(
            rt,
            word_at(frames, frame, offset),
            Some(want),
            "frame",
            frame,
        );
    }
}

#[test]
fn bytes_go_out_over_the_end_of_a_page(rt: HostRuntime) {
    let mut frames = two_frames(rt.alloc()).expect(&rt, "memory");
    let table = two_pages(rt.alloc()).expect(&rt, "memory");
    check_written(&rt, &mut frames, &table, 0x1_0fff, &[1, 2, 3]);
    check_words(&rt, &frames, &[(0, 4092, 0x0100_0000), (1, 0, 0x0302)]);
    drop(table);
    drop(frames);
}

#[test]
fn a_child_has_copies_of_private_pages_and_the_shared_ones(rt: HostRuntime) {
    let mut frames = two_frames(rt.alloc()).expect(&rt, "memory");
    let mut table = two_pages(rt.alloc()).expect(&rt, "memory");
    check_forked(&rt, &mut frames, &mut table, Ok(2));
    let rows = [(0x10, Some((2, false))), (0x11, Some((1, true)))];
    check_entries(&rt, &table, 2, &rows);
    let rows = [
        (0, Owner::Of(1), 1, 0x6463_6261),
        (1, Owner::Of(1), 2, 0),
        (2, Owner::Of(2), 1, 0x6463_6261),
    ];
    check_frames(&rt, &frames, &rows);
    check_free(&rt, &frames, 1);
    drop(table);
    drop(frames);
}
