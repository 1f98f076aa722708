// Runs of pages: which are mapped, and sharing.
ghost use Rattle.std.specs.Prelude.{◌≡◌, ◌<◌, ◌≤◌, ◌+◌, ◌/◌, ◌&&◌, ◌^◌, ℕ, IfSome, OnErr, OnOk};
ghost use Rattle.dos_world.specs.World.{World};
ghost use Rattle.dos_world.specs.MemoryCalls.{shared};
ghost use Rattle.page_store.specs.Store.{Store as Held};
ghost use Rattle.proc_table.specs.Tables.{IsProcess, held_by, run_shared, thread_in};
ghost use Rattle.kernel_mem.specs.MemoryWorld.{in_world, space_in, IsCaller};
ghost use Rattle.kernel_mem.specs.Ranges.{are_range, maps_all, maps_any, range_call, result_in};

use dos_world::errors::EINVAL;
use proc_table::Table;
use space_map::Space;

/// A fork gives a child the same frames for `pages` pages from `address` on. `Err(22)` exactly
/// where they are no range or one of them isn't mapped; nothing changes then.
pub fn share(table: &mut Table, tid: u32, address: u32, pages: u32) -> Result<(), u8>
    requires caller { IsCaller table.old tid }
    ensures shares { IfSome (thread_in table.old.threads tid) (λ thread. (w : World) (s : Held)
        → shared (range_call (in_world w s table.old) tid thread.process address pages 0)
        ≡ result_in result (in_world w s table.new)) }
    ensures table { OnOk result (IfSome (thread_in table.old.threads tid)
        (λ thread. table.new
        ≡ held_by (run_shared (address / 4096) pages) table.old thread.process)) }
    ensures stays { OnErr result (table.new ≡ table.old) }
    ensures room { table.new.room ≡ table.old.room }
{
    let pid = table.process_of(tid);
    if !is_mapped_range(table, pid, address, pages) {
        return Err(EINVAL);
    }
    table.share_run(pid, address / 4096, pages);
    Ok(())
}

// Whether they are a range, and each of its pages is mapped.
pub(crate) fn is_mapped_range(table: &Table, pid: u32, address: u32, pages: u32) -> bool
    requires { IsProcess table.now.processes pid }
    ensures { result ≡ (are_range address pages
        && maps_all (space_in table.now pid) (address / 4096) pages) }
{
    if !is_range(address, pages) {
        return false;
    }
    all_mapped(table.space(pid), address / 4096, pages)
}

// Whether an address begins a page, there is a page, and all of them lie within 0x1000 to
// 0xEFFFFFFF.
pub(crate) fn is_range(address: u32, pages: u32) -> bool
    ensures { result ≡ are_range address pages }
{
    address % 4096 == 0
        && pages > 0
        && address >= 0x1000
        && u64::from(address) + 4096 * u64::from(pages) <= 0xf000_0000
}

fn all_mapped(space: &Space, page: u32, count: u32) -> bool
    requires { page + count < 2 ^ 32 }
    ensures { result ≡ maps_all space.now.entries page count }
{
    for index in 0..count {
        if space.look(page + index).is_none() {
            return false;
        }
    }
    true
}

// Whether one of so many pages from this one on is mapped.
pub(crate) fn any_mapped(space: &Space, page: u32, count: u32) -> bool
    ensures { result ≡ maps_any space.now.entries page count }
{
    space.has_any(page, count)
}
