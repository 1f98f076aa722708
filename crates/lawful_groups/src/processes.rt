// Whether processes agree with what they use.
ghost use Rattle.std.specs.Prelude.{◌≡◌, ◌≤◌, ℕ, List, length, map, All, true};
ghost use Rattle.std.specs.List.{list_all, list_any};
ghost use Rattle.lawful_groups.specs.Counts.{HasFrameBelow, HaveFrames};
ghost use Rattle.lawful_groups.specs.Agreeing.{frees_match, is_alone_by, are_alone};
ghost use Rattle.lawful_groups.specs.Agreeing.{living_processes};
ghost use Rattle.lawful_groups.specs.Agreeing.{parents_below, has_thread_in, all_populated};
ghost use Rattle.lawful_groups.specs.Agreeing.{is_end_of, has_end_of, pipes_match};
ghost use Rattle.dos_world.specs.World.{is_free};

use dos_world::{End, Entry, Owner};
use group_text::{ProcessRecord, ThreadRecord};

// whether each frame is Free exactly where it has no use
pub(crate) fn frees_match(owners: &[Owner], uses: &[u32]) -> bool
    requires { length owners.now ≡ length uses.now }
    ensures { result ≡ frees_match owners.now uses.now }
{
    let mut all = true;
    for i in 0..owners.len() {
        let matches = is_free(owners[i]) == (uses[i] == 0);
        all = all && matches;
    }
    all
}

fn is_free(owner: Owner) -> bool
    ensures { result ≡ is_free owner }
{
    match owner {
        Owner::Free => true,
        Owner::Shared => false,
        Owner::Of(_) => false,
    }
}

// whether each private entry of a space is the only one of its frame
fn space_alone(uses: &[u32], pages: &[(u32, Entry)]) -> bool
    requires { All (HasFrameBelow (length uses.now)) pages.now }
    ensures { result ≡ list_all (is_alone_by uses.now) pages.now }
{
    let mut all = true;
    for i in 0..pages.len() {
        let entry = pages[i].1;
        let alone = entry.shared || uses[entry.frame as usize] == 1;
        all = all && alone;
    }
    all
}

// whether each private entry of the processes that live is the only one of its frame
pub(crate) fn all_alone(uses: &[u32], processes: &[ProcessRecord]) -> bool
    requires { All (HaveFrames (length uses.now)) processes.now }
    ensures { result ≡ list_all (are_alone uses.now) processes.now }
{
    let mut all = true;
    for i in 0..processes.len() {
        let alone = processes[i].status.is_some() || space_alone(uses, &processes[i].pages);
        all = all && alone;
    }
    all
}

// how many processes live
pub(crate) fn count_live(processes: &[ProcessRecord]) -> usize
    ensures { result ≡ living_processes processes.now }
{
    let mut count = 0;
    for i in 0..processes.len() {
        if processes[i].status.is_none() {
            count += 1;
        }
    }
    count
}

// whether each parent's number is below its child's
pub(crate) fn parents_below(processes: &[ProcessRecord]) -> bool
    ensures { result ≡ parents_below 1 processes.now }
{
    let mut all = true;
    for i in 0..processes.len() {
        let below = processes[i].parent as usize <= i;
        all = all && below;
    }
    all
}

fn has_thread(threads: &[ThreadRecord], pid: u32) -> bool
    ensures { result ≡ has_thread_in threads.now pid }
{
    threads.iter().any(|thread| thread.pid == pid)
}

// whether each process that lives has a thread
pub(crate) fn all_populated(processes: &[ProcessRecord], threads: &[ThreadRecord]) -> bool
    requires { length processes.now ≤ 65535 }
    ensures { result ≡ all_populated threads.now 1 processes.now }
{
    let mut all = true;
    for i in 0..processes.len() {
        let populated = processes[i].status.is_some() || has_thread(threads, i as u32 + 1);
        all = all && populated;
    }
    all
}

fn is_end_of(end: Option<End>, pipe: u8) -> bool
    ensures { result ≡ is_end_of pipe end }
{
    match end {
        Some(End::PipeRead(number)) => number == pipe,
        Some(End::PipeWrite(number)) => number == pipe,
        _ => false,
    }
}

fn any_end_of(ends: &[Option<End>], pipe: u8) -> bool
    ensures { result ≡ list_any (is_end_of pipe) ends.now }
{
    ends.iter().any(|end| is_end_of(*end, pipe))
}

fn has_end_of(process: &ProcessRecord, pipe: u8) -> bool
    ensures { result ≡ has_end_of pipe process.now }
{
    process.status.is_none() && any_end_of(&process.ends, pipe)
}

fn any_has_end(processes: &[ProcessRecord], pipe: u8) -> bool
    ensures { result ≡ list_any (has_end_of pipe) processes.now }
{
    processes.iter().any(|process| has_end_of(process, pipe))
}

// whether each pipe is empty or has an end
pub(crate) fn pipes_match(pipes: &[Vec<u8>], processes: &[ProcessRecord]) -> bool
    requires { length pipes.now ≡ 64 }
    ensures { result ≡ pipes_match processes.now 0 (map (λ p. p.items) pipes.now) }
{
    let mut all = true;
    for i in 0..pipes.len() {
        let matches = pipes[i].is_empty() || any_has_end(processes, i as u8);
        all = all && matches;
    }
    all
}
