// The end of a space, and of some of its pages.
ghost use Rattle.std.specs.Prelude.{◌≡◌, ◌/◌, filter, IfSome, OnErr, OnOk};
ghost use Rattle.dos_world.specs.Kernel.{without_entries};
ghost use Rattle.dos_world.specs.MemoryCalls.{where_mapped};
ghost use Rattle.dos_world.specs.World.{World};
ghost use Rattle.page_store.specs.Store.{Store as Held};
ghost use Rattle.proc_table.specs.Tables.{IsProcess, held_by, run_unmapped, thread_in};
ghost use Rattle.space_map.specs.Mapping.{in_run};
ghost use Rattle.kernel_mem.specs.MemoryWorld.{in_world, space_in, IsCaller};
ghost use Rattle.kernel_mem.specs.Memory.{AreUsed, IsDropped};
ghost use Rattle.kernel_mem.specs.Ranges.{range_call, result_in};

use crate::ranges::is_mapped_range;
use dos_world::Entry;
use dos_world::errors::EINVAL;
use page_store::Frames;
use proc_table::Table;
use space_map::Space;

/// Unmaps all pages of a live process: each of its entries is one use less of its frame, and a
/// frame without uses is Free and zero.
pub fn drop_space(frames: &mut Frames, table: &mut Table, pid: u32)
    requires live { IsProcess table.old.processes pid }
    requires used { AreUsed (space_in table.old pid) frames.old }
    ensures frames { IsDropped (space_in table.old pid) frames.old frames.new }
    ensures table { table.new ≡ held_by without_entries table.old pid }
{
    drop_uses(frames, table.space(pid));
    table.clear_space(pid);
}

fn drop_uses(frames: &mut Frames, space: &Space)
    requires { AreUsed space.now.entries frames.old }
    ensures { IsDropped space.now.entries frames.old frames.new }
{
    for index in 0..space.len() {
        frames.use_less(space.at(index).1.frame);
    }
}

/// Unmaps `pages` pages from `address` on for `tid`'s process: each is one use less of its frame,
/// and a frame without uses is Free and zero. `Err(22)` exactly where they are no range or one of
/// them isn't mapped; nothing changes then.
pub fn unmap(
    frames: &mut Frames,
    table: &mut Table,
    tid: u32,
    address: u32,
    pages: u32,
) -> Result<(), u8>
    requires caller { IsCaller table.old tid }
    requires used { IfSome (thread_in table.old.threads tid)
        (λ thread. AreUsed (space_in table.old thread.process) frames.old) }
    ensures tests { IfSome (thread_in table.old.threads tid) (λ thread. (w v : World) (s : Held)
        → where_mapped (range_call (in_world w s table.old) tid thread.process address pages 0) v
        ≡ result_in result v) }
    ensures frames { OnOk result (IfSome (thread_in table.old.threads tid)
        (λ thread. IsDropped (filter (in_run (address / 4096) pages)
        (space_in table.old thread.process)) frames.old frames.new)) }
    ensures table { OnOk result (IfSome (thread_in table.old.threads tid)
        (λ thread. table.new
        ≡ held_by (run_unmapped (address / 4096) pages) table.old thread.process)) }
    ensures stays { OnErr result ((frames.new ≡ frames.old) × (table.new ≡ table.old)) }
{
    let pid = table.process_of(tid);
    if !is_mapped_range(table, pid, address, pages) {
        return Err(EINVAL);
    }
    drop_run(frames, table.space(pid), address / 4096, pages);
    table.remove_run(pid, address / 4096, pages);
    Ok(())
}

// The uses of those of so many pages from this one on that are mapped, which stand together.
fn drop_run(frames: &mut Frames, space: &Space, page: u32, count: u32)
    requires { AreUsed space.now.entries frames.old }
    ensures { IsDropped (filter (in_run page count) space.now.entries) frames.old frames.new }
{
    for place in space.first_from(page)..space.len() {
        let mapped = space.at(place);
        if !is_in_run(mapped, page, count) {
            return;
        }
        frames.use_less(mapped.1.frame);
    }
}

fn is_in_run(mapped: (u32, Entry), page: u32, count: u32) -> bool
    ensures { result ≡ in_run page count mapped }
{
    mapped.0 >= page && mapped.0 - page < count
}
