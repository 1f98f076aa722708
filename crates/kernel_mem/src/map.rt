// Fresh pages.
ghost use Rattle.std.specs.Prelude.{◌≡◌, ◌≢◌, ◌<◌, ◌≤◌, ◌+◌, ◌/◌, ◌^◌, ℕ, false, None, Some};
ghost use Rattle.std.specs.Prelude.{IfSome, OnErr, OnOk, length, position};
ghost use Rattle.dos_world.specs.Numbered.{run_of};
ghost use Rattle.dos_world.specs.World.{World, is_free};
ghost use Rattle.dos_world.specs.MemoryCalls.{mapped, mapped_fresh, private_entry};
ghost use Rattle.page_store.specs.Store.{IsUnused, KeepsFrames, free_count, uses_at, with_owned};
ghost use Rattle.proc_table.specs.Tables.{IsProcess, entry_replaced, held_by, thread_in};
ghost use Rattle.space_map.specs.Mapping.{IsMapped};
ghost use Rattle.kernel_mem.specs.MemoryWorld.{space_in, in_world, IsCaller, HasAllHome};
ghost use Rattle.kernel_mem.specs.Memory.{HasUsesOf};
ghost use Rattle.kernel_mem.specs.Forking.{with_space};
ghost use Rattle.kernel_mem.specs.Ranges.{maps_any, range_call, result_in};

use crate::ranges::{any_mapped, is_range};
use dos_world::Entry;
use dos_world::errors::{EINVAL, ENOMEM};
use page_store::Frames;
use proc_table::Table;

/// Maps `pages` private pages from `address` on for `tid`'s process, with these rights (1 is X, 2
/// is W, 4 is R), in the lowest Free frames, which become `tid`'s; their bytes stay, and were zero
/// where the world is lawful. `Err(22)` exactly where they are no range, the rights are over 7 or
/// one of them is mapped, and else `Err(12)` exactly where too few frames are Free; nothing changes
/// then.
pub fn map_pages(
    frames: &mut Frames,
    table: &mut Table,
    tid: u32,
    address: u32,
    pages: u32,
    rights: u32,
) -> Result<(), u8>
    requires caller { IsCaller table.old tid }
    requires home { HasAllHome frames.old }
    requires room { IfSome (thread_in table.old.threads tid)
        (λ thread.
        length
        (space_in table.old thread.process) + free_count frames.old ≤ table.old.room) }
    ensures maps { IfSome (thread_in table.old.threads tid) (λ thread. (w : World)
        → mapped (range_call
        (in_world w frames.old table.old) tid thread.process address pages rights)
        ≡ result_in result (in_world w frames.new table.new)) }
    ensures uses { IfSome (thread_in table.old.threads tid)
        (λ thread. HasUsesOf (space_in table.old thread.process) frames.old
        (space_in table.new thread.process) frames.new) }
    ensures table { OnOk result (IfSome (thread_in table.old.threads tid)
        (λ thread. table.new ≡ held_by (with_space (space_in table.new thread.process)) table.old
        thread.process)) }
    ensures stays { OnErr result ((frames.new ≡ frames.old) × (table.new ≡ table.old)) }
    ensures home { HasAllHome frames.new }
    ensures room { table.new.room ≡ table.old.room }
    ensures frames { KeepsFrames frames.old frames.new }
{
    if !is_range(address, pages) {
        return Err(EINVAL);
    }
    if rights > 7 {
        return Err(EINVAL);
    }
    let pid = table.process_of(tid);
    if any_mapped(table.space(pid), address / 4096, pages) {
        return Err(EINVAL);
    }
    if frames.free_count() < pages {
        return Err(ENOMEM);
    }
    map_run(frames, table, tid, pid, address / 4096, pages, rights);
    Ok(())
}

// So many pages from this one on, none of which is mapped. Their entries come in at once, and then
// each gets its frame.
fn map_run(
    frames: &mut Frames,
    table: &mut Table,
    tid: u32,
    pid: u32,
    page: u32,
    count: u32,
    rights: u32,
)
    requires home { HasAllHome frames.old }
    requires live { IsProcess table.old.processes pid }
    requires unmapped { maps_any (space_in table.old pid) page count ≡ false }
    requires room { length (space_in table.old pid) + count ≤ table.old.room }
    requires free { count ≤ free_count frames.old }
    requires fits { page + count < 2 ^ 32 }
    ensures maps { (w : World) (address pages : ℕ)
        → mapped_fresh
        (range_call (in_world w frames.old table.old) tid pid address pages rights)
        (in_world w frames.old table.old) (run_of page count)
        ≡ in_world w frames.new table.new }
    ensures uses { HasUsesOf (space_in table.old pid) frames.old
        (space_in table.new pid) frames.new }
    ensures table { table.new ≡ held_by (with_space (space_in table.new pid)) table.old pid }
    ensures home { HasAllHome frames.new }
    ensures room { table.new.room ≡ table.old.room }
    ensures frames { KeepsFrames frames.old frames.new }
{
    table.put_run(pid, page, count, private_entry(0, rights));
    for index in 0..count {
        fill_page(frames, table, tid, pid, page + index, rights);
    }
}

// The lowest Free frame becomes `tid`'s and that of a page that the process maps, with these
// rights. Answers the frame.
fn fill_page(
    frames: &mut Frames,
    table: &mut Table,
    tid: u32,
    pid: u32,
    page: u32,
    rights: u32,
) -> u32
    requires home { HasAllHome frames.old }
    requires live { IsProcess table.old.processes pid }
    requires mapped { IsMapped (space_in table.old pid) page }
    requires free { position is_free frames.old.owners ≢ None }
    ensures frame { position is_free frames.old.owners ≡ Some result }
    ensures frames { frames.new ≡ with_owned frames.old result tid }
    ensures table { table.new
        ≡ held_by (entry_replaced page (private_entry result rights)) table.old pid }
    ensures home { HasAllHome frames.new }
    ensures unused { IsUnused frames.old result }
{
    match frames.fresh(tid) {
        Some(frame) => {
            table.replace_entry(pid, page, private_entry(frame, rights));
            frame
        }
        None => unreachable!(),
    }
}

fn private_entry(frame: u32, rights: u32) -> Entry
    ensures { result ≡ private_entry frame rights }
{
    Entry {
        frame,
        write: rights / 2 % 2 == 1,
        exec: rights % 2 == 1,
        shared: false,
    }
}
