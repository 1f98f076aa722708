// Whether no space has a frame twice. For each frame the last process is kept that had it.
ghost use Rattle.std.specs.Prelude.{◌≡◌, ◌≤◌, ◌&&◌, length, replicate, All, IfOk};
ghost use Rattle.lawful_groups.specs.Counts.{HasFrameBelow, HaveFrames};
ghost use Rattle.lawful_groups.specs.Apart.{are_apart, are_all_apart, marked_space};

use dos_world::Entry;
use group_text::ProcessRecord;
use std::alloc::{AllocError, Global};

fn both(first: bool, second: bool) -> bool
    ensures { result ≡ (first && second) }
{
    first && second
}

// Whether none of these pages has a frame that the process of this number has had; it has had them
// all then.
fn mark_space(last: &mut Vec<u32>, pid: u32, pages: &[(u32, Entry)]) -> bool
    requires { All (HasFrameBelow (length last.old.items)) pages.now }
    ensures value { result ≡ are_apart last.old.items pid pages.now }
    ensures items { last.new.items ≡ marked_space last.old.items pid pages.now }
    ensures len { length last.new.items ≡ length last.old.items }
{
    let mut apart = true;
    for i in 0..pages.len() {
        let frame = pages[i].1.frame as usize;
        apart = both(apart, last[frame] != pid);
        last[frame] = pid;
    }
    apart
}

fn mark_all(last: &mut Vec<u32>, processes: &[ProcessRecord]) -> bool
    requires frames { All (HaveFrames (length last.old.items)) processes.now }
    requires few { length processes.now ≤ 65535 }
    ensures { result ≡ are_all_apart last.old.items 1 processes.now }
{
    let mut apart = true;
    for i in 0..processes.len() {
        if processes[i].status.is_none() {
            let marked = mark_space(last, i as u32 + 1, &processes[i].pages);
            apart = apart && marked;
        }
    }
    apart
}

/// Whether no live process has a frame twice.
pub(crate) fn have_apart(
    alloc: Global,
    frames: u32,
    processes: &[ProcessRecord],
) -> Result<bool, AllocError>
    requires frames { All (HaveFrames frames) processes.now }
    requires few { length processes.now ≤ 65535 }
    ensures { IfOk result (λ b. b ≡ are_all_apart (replicate frames 0) 1 processes.now) }
{
    let mut last = vec![in alloc; 0; frames as usize]?;
    Ok(mark_all(&mut last, processes))
}
