// A copy of a process.
ghost use Rattle.std.specs.Prelude.{◌≡◌, ◌≢◌, ◌<◌, ◌≤◌, ◌+◌, ◌-◌, ◌^◌, ℕ, [], length, false, true};
ghost use Rattle.std.specs.Prelude.{IfSome, IfOk, OnErr, if◌then◌else◌};
ghost use Rattle.dos_world.specs.World.{World};
ghost use Rattle.dos_world.specs.Kernel.{answered};
ghost use Rattle.dos_world.specs.World.{released};
ghost use Rattle.dos_world.specs.ProcessCalls.{are_processes_full, copied_space, forked};
ghost use Rattle.dos_world.specs.ProcessCalls.{private_entries};
ghost use Rattle.page_store.specs.Store.{KeepsFrames, free_count, owner_at, uses_at};
ghost use Rattle.dos_world.specs.World.{is_free};
ghost use Rattle.proc_table.specs.Tables.{IsProcess, Tables, held_by, held_in, process_added};
ghost use Rattle.proc_table.specs.Tables.{thread_in};
ghost use Rattle.kernel_mem.specs.MemoryWorld.{in_world, space_in, IsCaller, HasAllHome};
ghost use Rattle.kernel_mem.specs.Memory.{entries_of};
ghost use Rattle.kernel_mem.specs.Forking.{AreTaken, IsUsedMore, child_begun, child_without};
ghost use Rattle.kernel_mem.specs.Forking.{entry_copied, fork_call, fork_result, taken_by};
ghost use Rattle.kernel_mem.specs.Forking.{with_space};

use dos_world::errors::{EAGAIN, ENOMEM};
use dos_world::{Entry, Regs};
use page_store::Frames;
use proc_table::Table;
use space_map::Space;

/// The number of the child, or the refusal: 11 where no more processes can be made, 12 where too
/// few frames are free. A refusal changes nothing.
pub fn fork(frames: &mut Frames, table: &mut Table, tid: u32) -> Result<u32, u8>
    requires caller { IsCaller table.old tid }
    requires home { HasAllHome frames.old }
    requires taken { IfSome (thread_in table.old.threads tid)
        (λ thread. AreTaken (space_in table.old thread.process) frames.old) }
    requires few { IfSome (thread_in table.old.threads tid) (λ thread. (frame : ℕ)
        → uses_at frames.old frame + length
        (space_in table.old thread.process) < 2 ^ 32 - 1) }
    ensures forks { IfSome (thread_in table.old.threads tid) (λ thread. (w : World)
        → forked (fork_call (in_world w frames.old table.old) tid thread.process)
        ≡ fork_result result (in_world w frames.new table.new)) }
    ensures number { IfOk result (λ child. child ≡ length table.old.processes + 1) }
    ensures stays { OnErr result ((frames.new ≡ frames.old) × (table.new ≡ table.old)) }
    ensures home { HasAllHome frames.new }
    ensures frames { KeepsFrames frames.old frames.new }
    ensures room { table.new.room ≡ table.old.room }
    ensures uses { IfOk result (λ child. (frame : ℕ)
        → uses_at frames.new frame ≡ uses_at frames.old frame + entries_of
        (space_in table.new child) frame) }
{
    if table.is_full() {
        return Err(EAGAIN);
    }
    let pid = table.process_of(tid);
    if frames.free_count() < private_entries(table.space(pid)) {
        return Err(ENOMEM);
    }
    let (child, child_tid) = add_child(table, tid, pid);
    copy_space(frames, table, pid, child, child_tid);
    Ok(child)
}

// A child with one thread and without pages.
fn add_child(table: &mut Table, tid: u32, pid: u32) -> (u32, u32)
    requires caller { IsCaller table.old tid }
    requires process { IfSome (thread_in table.old.threads tid) (λ thread. pid ≡ thread.process) }
    requires room { are_processes_full table.old.processes table.old.threads ≡ false }
    ensures numbers { result ≡ (length table.old.processes + 1, length table.old.threads + 1) }
    ensures begins { IfSome (held_in table.old.processes pid)
        (λ h. IfSome (thread_in table.old.threads tid)
        (λ thread. table.new ≡ process_added table.old (child_without pid h)
        (child_begun (length table.old.processes + 1) thread))) }
{
    let regs = child_regs(*table.regs(tid));
    let signals = *table.signals(tid);
    match table.add_process(pid, regs, signals) {
        Ok((child, child_tid)) => {
            table.copy_held(pid, child);
            (child, child_tid)
        }
        Err(_) => unreachable!(),
    }
}

// Those of the caller, with 0 as the answer, and no reservation.
fn child_regs(regs: Regs) -> Regs
    ensures { result ≡ released (answered 0 regs) }
{
    let mut begun = regs;
    begun.set(10, 0);
    let next = begun.pc().wrapping_add(4);
    begun.set_pc(next);
    begun.set_held(None);
    begun
}

fn private_entries(space: &Space) -> u32
    ensures { result ≡ private_entries space.now.entries }
{
    let mut count = 0;
    for index in 0..space.len() {
        count += taken_by(space.at(index).1);
    }
    count
}

// how many frames a copy of an entry takes
fn taken_by(entry: Entry) -> u32
    ensures { result ≡ taken_by entry }
{
    if entry.shared { 0 } else { 1 }
}

// The pages of one process, in rising order, for another that has none.
fn copy_space(frames: &mut Frames, table: &mut Table, pid: u32, child: u32, tid: u32)
    requires live { IsProcess table.old.processes pid }
    requires child { IsProcess table.old.processes child }
    requires apart { pid ≢ child }
    requires empty { space_in table.old child ≡ [] }
    requires home { HasAllHome frames.old }
    requires taken { AreTaken (space_in table.old pid) frames.old }
    requires few { (frame : ℕ)
        → uses_at frames.old frame + length (space_in table.old pid) < 2 ^ 32 - 1 }
    requires free { private_entries (space_in table.old pid) ≤ free_count frames.old }
    ensures copies { (w : World) (T : Tables)
        → copied_space (in_world w frames.old T) tid (space_in table.old pid)
        ≡ (in_world w frames.new T, space_in table.new child) }
    ensures table { table.new ≡ held_by (with_space (space_in table.new child)) table.old child }
    ensures home { HasAllHome frames.new }
    ensures frames { KeepsFrames frames.old frames.new }
    ensures uses { (frame : ℕ)
        → uses_at frames.new frame ≡ uses_at frames.old frame + entries_of
        (space_in table.new child) frame }
{
    for index in 0..table.space(pid).len() {
        let (page, entry) = table.space(pid).at(index);
        let copy = copy_entry(frames, tid, entry);
        table.put_entry(child, page, copy);
    }
}

// A private entry's copy has a fresh frame with the same bytes; a shared entry is used once more.
fn copy_entry(frames: &mut Frames, tid: u32, entry: Entry) -> Entry
    requires home { HasAllHome frames.old }
    requires taken { is_free (owner_at frames.old entry.frame) ≡ false }
    requires few { uses_at frames.old entry.frame < 2 ^ 32 - 1 }
    requires free { taken_by entry ≤ free_count frames.old }
    ensures copies { (w : World) (T : Tables)
        → entry_copied (in_world w frames.old T) tid entry ≡ (in_world w frames.new T, result) }
    ensures more { IsUsedMore frames.old result.frame frames.new }
    ensures free { free_count frames.new + taken_by entry ≡ free_count frames.old }
{
    if entry.shared {
        frames.use_more(entry.frame);
        return entry;
    }
    match frames.fresh_copy(tid, entry.frame) {
        Some(frame) => Entry { frame, ..entry },
        None => unreachable!(),
    }
}
