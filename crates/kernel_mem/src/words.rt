// The words that threads sleep on.
ghost use Rattle.std.specs.Prelude.{◌≡◌, ◌<◌, ◌≤◌, ◌+◌, ◌*◌, ℕ, length, IsSome};
ghost use Rattle.dos_world.specs.Bytes.{loaded};
ghost use Rattle.dos_world.specs.World.{World};
ghost use Rattle.dos_world.specs.Kernel.{opened};
ghost use Rattle.dos_world.specs.declared.Access.TheVariants.{Load};
ghost use Rattle.proc_table.specs.Tables.{Tables};
ghost use Rattle.kernel_mem.specs.MemoryWorld.{in_world, entry_in, IsCaller, HasAllHome};
ghost use Rattle.kernel_mem.specs.MemoryWorld.{NamesUsedFrames, KeepsUses};

use crate::copy::{entry_of, open};
use dos_world::{Access, Entry, Size};
use page_store::Frames;
use proc_table::Table;

/// The caller's entry of the page that an address lies in.
pub fn entry_at(table: &Table, tid: u32, address: u32) -> Option<Entry>
    requires { IsCaller table.now tid }
    ensures { result ≡ entry_in table.now tid address }
{
    entry_of(table, tid, address as u64)
}

/// The word of 32 bits at an offset of a frame. Nothing is granted.
pub fn word_at(frames: &Frames, frame: u32, offset: u32) -> u32
    requires home { HasAllHome frames.now }
    requires frame { frame < length frames.now.owners }
    requires offset { offset + 4 ≤ 4096 }
    ensures { (w : World) (T : Tables)
        → loaded (in_world w frames.now T) (4096 * frame + offset) 4 ≡ result }
{
    frames.lend(frame).read(offset, Size::Word)
}

/// The page that an address lies in, which is mapped, is granted for a load, where it is foreign to
/// the caller.
pub fn grant_load(frames: &mut Frames, table: &Table, tid: u32, address: u32)
    requires caller { IsCaller table.now tid }
    requires mapped { NamesUsedFrames table.now frames.old tid }
    requires entry { IsSome (entry_in table.now tid address) }
    ensures opens { (w : World)
        → opened (in_world w frames.old table.now) tid address Load
        ≡ in_world w frames.new table.now }
    ensures stays { KeepsUses frames.old frames.new }
{
    open(frames, table, tid, address as u64, Access::Load);
}
