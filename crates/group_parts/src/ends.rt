// How many ends each pipe has, counted from the descriptors of the processes that live.
ghost use Rattle.std.specs.Prelude.{◌≡◌, ◌<◌, ◌≤◌, ◌^◌, ℕ, length, map, count_by, slice_index};
ghost use Rattle.std.specs.Prelude.{All};
ghost use Rattle.group_parts.specs.PipeEnds.{HasFewEnds, all_ends, end_test, own_ends};

use dos_world::End;
use group_text::ProcessRecord;

// whether a descriptor is an end of this pipe, of one kind
fn is_end(end: Option<End>, pipe: u8, writer: bool) -> bool
    ensures { result ≡ end_test writer pipe end }
{
    match end {
        Some(End::PipeRead(number)) => !writer && number == pipe,
        Some(End::PipeWrite(number)) => writer && number == pipe,
        _ => false,
    }
}

fn count_in(ends: &[Option<End>], pipe: u8, writer: bool) -> u32
    requires { length ends.now ≤ 32 }
    ensures { result ≡ count_by (end_test writer pipe) ends.now }
{
    ends.iter()
        .filter(|end| is_end(**end, pipe, writer))
        .count() as u32
}

// how many a process has, where it lives
fn count_own(process: &ProcessRecord, pipe: u8, writer: bool) -> u32
    requires { HasFewEnds process.now }
    ensures { result ≡ own_ends (end_test writer pipe) process.now }
{
    if process.status.is_some() {
        return 0;
    }
    count_in(&process.ends, pipe, writer)
}

fn count_all(processes: &[ProcessRecord], pipe: u8, writer: bool) -> u32
    requires each { All HasFewEnds processes.now }
    requires few { all_ends (end_test writer pipe) processes.now < 2 ^ 32 }
    ensures { result ≡ all_ends (end_test writer pipe) processes.now }
{
    let mut count = 0;
    for i in 0..processes.len() {
        count += count_own(&processes[i], pipe, writer);
    }
    count
}

/// How many ends of one kind each pipe has.
pub(crate) fn count_ends(processes: &[ProcessRecord], writer: bool) -> [u32; 64]
    requires each { All HasFewEnds processes.now }
    requires few { (pipe : ℕ) → all_ends (end_test writer pipe) processes.now < 2 ^ 32 }
    ensures count { length result ≡ 64 }
    ensures ends { (pipe : ℕ) → pipe < 64
        → slice_index result pipe ≡ all_ends (end_test writer pipe) processes.now }
{
    let mut counts = [0; 64];
    for pipe in 0..64_u8 {
        counts[pipe as usize] = count_all(processes, pipe, writer);
    }
    counts
}
