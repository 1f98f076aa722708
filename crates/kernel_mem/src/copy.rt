// The bytes that a service reads from its caller's memory or writes to it.
ghost use Rattle.std.specs.Prelude.{◌≡◌, ◌<◌, ◌≤◌, ◌+◌, ◌%◌, ◌^◌, true, false, ℕ, is_ok};
ghost use Rattle.std.specs.Prelude.{length, OnErr, Err, if◌then◌else◌};
ghost use Rattle.dos_world.specs.World.{World};
ghost use Rattle.dos_world.specs.Kernel.{all_reach, copied_in, copied_out};
ghost use Rattle.kernel_mem.specs.MemoryWorld.{in_world, entry_in, is_allowed, with_open, IsCaller};
ghost use Rattle.kernel_mem.specs.MemoryWorld.{HasAllHome, HasFrame, NamesUsedFrames};
ghost use Rattle.kernel_mem.specs.MemoryWorld.{KeepsUses, KeepsOthers};
ghost use Rattle.page_store.specs.Store.{Store as Held};

use dos_world::errors::EFAULT;
use dos_world::{Access, Entry};
use page_store::Frames;
use proc_table::Table;

/// Whether `tid` may read each of `length` bytes from `address` on, or with `write` may write each.
/// `Err(14)` exactly where one of them isn't mapped, or for `write` its page has no W. Addresses
/// don't wrap at 2^32.
pub fn check(table: &Table, tid: u32, address: u32, length: u32, write: bool) -> Result<(), u8>
    requires caller { IsCaller table.now tid }
    ensures reach { (w : World) (s : Held)
        → is_ok result ≡ all_reach (in_world w s table.now) tid address length
        (if write then Access.Store else Access.Load) }
    ensures refusal { OnErr result (result ≡ Err 14) }
{
    let access = access_for(write);
    let end = address as u64 + length as u64;
    let mut next = address as u64;
    'pages: while next < end {
        let part = (4096 - next % 4096).min(end - next) as u32;
        if !is_stretch_reached(table, tid, next, part, access) {
            return Err(EFAULT);
        }
        next += part as u64;
    }
    Ok(())
}

/// The bytes from `address` on, into `buffer`. Each page of them that is foreign to `tid` is
/// granted for a load.
pub fn copy_in(frames: &mut Frames, table: &Table, tid: u32, address: u32, buffer: &mut [u8])
    requires caller { IsCaller table.now tid }
    requires few { length buffer.old ≤ 4096 }
    requires home { HasAllHome frames.old }
    requires mapped { NamesUsedFrames table.now frames.old tid }
    requires checked { (w : World)
        → all_reach (in_world w frames.old table.now) tid address
        (length buffer.old) Access.Load ≡ true }
    ensures copies { (w : World)
        → copied_in (in_world w frames.old table.now) tid address (length buffer.old)
        ≡ (in_world w frames.new table.now, buffer.new) }
    ensures stays { KeepsUses frames.old frames.new }
{
    let first = (4096 - address as usize % 4096).min(buffer.len());
    let start = address as u64;
    let (front, back) = buffer.split_at_mut(first);
    read_stretch(frames, table, tid, start, front);
    read_stretch(frames, table, tid, start + first as u64, back);
}

/// Writes the bytes from `address` on. Each page of them that is foreign to `tid` is granted for a
/// store.
pub fn copy_out(frames: &mut Frames, table: &Table, tid: u32, address: u32, bytes: &[u8])
    requires caller { IsCaller table.now tid }
    requires few { length bytes.now ≤ 4096 }
    requires home { HasAllHome frames.old }
    requires mapped { NamesUsedFrames table.now frames.old tid }
    requires checked { (w : World)
        → all_reach (in_world w frames.old table.now) tid address
        (length bytes.now) Access.Store ≡ true }
    ensures copies { (w : World)
        → copied_out (in_world w frames.old table.now) tid address bytes.now
        ≡ in_world w frames.new table.now }
    ensures stays { KeepsOthers tid frames.old frames.new }
{
    let first = (4096 - address as usize % 4096).min(bytes.len());
    let start = address as u64;
    let (front, back) = bytes.split_at(first);
    write_stretch(frames, table, tid, start, front);
    write_stretch(frames, table, tid, start + first as u64, back);
}

fn access_for(write: bool) -> Access
    ensures { result ≡ (if write then Access.Store else Access.Load) }
{
    if write { Access::Store } else { Access::Load }
}

// Whether an access reaches each of these bytes, at least one, which lie in one page.
fn is_stretch_reached(table: &Table, tid: u32, address: u64, length: u32, access: Access) -> bool
    requires caller { IsCaller table.now tid }
    requires address { address < 2 ^ 33 }
    requires within { address % 4096 + length ≤ 4096 }
    requires some { 0 < length }
    ensures { (w : World) (s : Held)
        → result ≡ all_reach (in_world w s table.now) tid address length access }
{
    match entry_of(table, tid, address) {
        Some(entry) => entry.has_right(access),
        None => false,
    }
}

// These bytes, which are mapped and lie in one page.
fn read_stretch(frames: &mut Frames, table: &Table, tid: u32, address: u64, part: &mut [u8])
    requires caller { IsCaller table.now tid }
    requires address { address < 2 ^ 33 }
    requires within { address % 4096 + length part.old ≤ 4096 }
    requires home { HasAllHome frames.old }
    requires mapped { NamesUsedFrames table.now frames.old tid }
    requires checked { (w : World)
        → all_reach (in_world w frames.old table.now) tid address (length part.old) Access.Load
        ≡ true }
    ensures copies { (w : World)
        → copied_in (in_world w frames.old table.now) tid address (length part.old)
        ≡ (in_world w frames.new table.now, part.new) }
    ensures stays { KeepsUses frames.old frames.new }
{
    if part.is_empty() {
        return;
    }
    let frame = open(frames, table, tid, address, Access::Load);
    let offset = (address % 4096) as usize;
    part.copy_from_slice(&frames.lend(frame).bytes()[offset..offset + part.len()]);
}

// These bytes, whose places may be written and lie in one page.
fn write_stretch(frames: &mut Frames, table: &Table, tid: u32, address: u64, part: &[u8])
    requires caller { IsCaller table.now tid }
    requires address { address < 2 ^ 33 }
    requires within { address % 4096 + length part.now ≤ 4096 }
    requires home { HasAllHome frames.old }
    requires mapped { NamesUsedFrames table.now frames.old tid }
    requires checked { (w : World)
        → all_reach (in_world w frames.old table.now) tid address (length part.now) Access.Store
        ≡ true }
    ensures copies { (w : World)
        → copied_out (in_world w frames.old table.now) tid address part.now
        ≡ in_world w frames.new table.now }
    ensures stays { KeepsOthers tid frames.old frames.new }
{
    if part.is_empty() {
        return;
    }
    let frame = open(frames, table, tid, address, Access::Store);
    let offset = (address % 4096) as u32;
    frames.lend_mut(frame).copy_from(offset, part);
}

// The frame of the page that the address lies in, granted where it was foreign.
pub(crate) fn open(
    frames: &mut Frames,
    table: &Table,
    tid: u32,
    address: u64,
    access: Access,
) -> u32
    requires caller { IsCaller table.now tid }
    requires address { address < 2 ^ 33 }
    requires mapped { NamesUsedFrames table.now frames.old tid }
    requires allowed { is_allowed access (entry_in table.now tid address) ≡ true }
    ensures has { HasFrame table.now frames.old tid address access result }
    ensures opens { frames.new ≡ with_open frames.old result tid access }
{
    match entry_of(table, tid, address) {
        Some(entry) => {
            if frames.owner(entry.frame).is_foreign(tid, access) {
                frames.grant(entry.frame, tid, access);
            }
            entry.frame
        }
        None => unreachable!(),
    }
}

pub(crate) fn entry_of(table: &Table, tid: u32, address: u64) -> Option<Entry>
    requires caller { IsCaller table.now tid }
    requires address { address < 2 ^ 33 }
    ensures { result ≡ entry_in table.now tid address }
{
    let pid = table.process_of(tid);
    table.space(pid).look((address / 4096) as u32)
}
