// How many entries have each frame. Counts stop at 2^32 - 1.
ghost use Rattle.std.specs.Prelude.{◌≡◌, length, replicate, All, IfOk};
ghost use Rattle.lawful_groups.specs.Counts.{HasFrameBelow, HaveFrames, counted_all, counted_space};

use dos_world::Entry;
use group_text::ProcessRecord;
use std::alloc::{AllocError, Global};

// one use more for the frame of each of these pages
fn count_space(uses: &mut Vec<u32>, pages: &[(u32, Entry)])
    requires { All (HasFrameBelow (length uses.old.items)) pages.now }
    ensures items { uses.new.items ≡ counted_space uses.old.items pages.now }
    ensures len { length uses.new.items ≡ length uses.old.items }
{
    for i in 0..pages.len() {
        let frame = pages[i].1.frame as usize;
        uses[frame] = uses[frame].saturating_add(1);
    }
}

// one use more for the frame of each page of the processes that live
fn count_all(uses: &mut Vec<u32>, processes: &[ProcessRecord])
    requires { All (HaveFrames (length uses.old.items)) processes.now }
    ensures items { uses.new.items ≡ counted_all uses.old.items processes.now }
    ensures len { length uses.new.items ≡ length uses.old.items }
{
    for i in 0..processes.len() {
        if processes[i].status.is_none() {
            count_space(uses, &processes[i].pages);
        }
    }
}

/// How many entries of the processes that live have each frame; counts stop at 2^32 - 1.
pub fn count_uses(
    alloc: Global,
    frames: u32,
    processes: &[ProcessRecord],
) -> Result<Vec<u32>, AllocError>
    requires { All (HaveFrames frames) processes.now }
    ensures { IfOk result (λ uses. uses.items ≡ counted_all (replicate frames 0) processes.now) }
{
    let mut uses = vec![in alloc; 0; frames as usize]?;
    count_all(&mut uses, processes);
    Ok(uses)
}
