// The parts of a group that was read, and whether they agree.
ghost use Rattle.std.specs.Prelude.{◌≡◌, ◌≤◌, ◌+◌, ◌↔◌, length, map, replicate, All, IfOk, true};
ghost use Rattle.group_text.specs.Records.{thread_of_record};
ghost use Rattle.proc_table.specs.Spread.{AreRising};
ghost use Rattle.lawful_groups.specs.Counts.{HaveFrames, counted_all};
ghost use Rattle.lawful_groups.specs.Agreeing.{PartsAgree, agree_test, world_of_parts};

use crate::apart::have_apart;
use crate::processes::{
    all_alone, all_populated, count_live, frees_match, parents_below, pipes_match,
};
use crate::threads::{all_live, all_sleep_once, all_threads};
use dos_world::Owner;
use group_text::{ProcessRecord, SleeperRecord, ThreadRecord};
use std::alloc::{AllocError, Global};

// the tests one after another
fn test_parts(
    alloc: Global,
    owners: &[Owner],
    uses: &[u32],
    processes: &[ProcessRecord],
    given: u32,
    threads: &[ThreadRecord],
    pipes: &[Vec<u8>],
    sleepers: &[SleeperRecord],
) -> Result<bool, AllocError>
    requires frames { All (HaveFrames (length owners.now)) processes.now }
    requires count { length owners.now ≤ 16384 }
    requires uses { length uses.now ≡ length owners.now }
    requires few { length processes.now ≤ 65535 }
    requires pipes { length pipes.now ≡ 64 }
    ensures { IfOk result (λ b. b ≡ agree_test owners.now uses.now processes.now given threads.now
        (map (λ p. p.items) pipes.now) sleepers.now) }
{
    let apart = have_apart(alloc, owners.len() as u32, processes)?;
    let numbers = processes.len() <= given as usize;
    let few = count_live(processes) <= 32;
    let parents = parents_below(processes);
    let populated = all_populated(processes, threads);
    let living = all_live(processes, threads);
    let once = all_sleep_once(sleepers, threads);
    let known = all_threads(threads, sleepers);
    let free = frees_match(owners, uses);
    let alone = all_alone(uses, processes);
    let closed = pipes_match(pipes, processes);
    Ok(
        numbers
            && few
            && parents
            && populated
            && living
            && once
            && known
            && apart
            && free
            && alone
            && closed,
    )
}

/// Whether the parts of a group that was read agree, as those of a lawful world do. The error is
/// want of memory.
pub fn agrees(
    alloc: Global,
    owners: &[Owner],
    uses: &[u32],
    processes: &[ProcessRecord],
    given: u32,
    threads: &[ThreadRecord],
    pipes: &[Vec<u8>],
    sleepers: &[SleeperRecord],
) -> Result<bool, AllocError>
    requires frames { All (HaveFrames (length owners.now)) processes.now }
    requires count { length owners.now ≤ 16384 }
    requires uses { uses.now ≡ counted_all (replicate (length owners.now) 0) processes.now }
    requires few { length processes.now ≤ 65535 }
    requires rising { AreRising 1 (given + 1) (map thread_of_record threads.now) }
    requires pipes { length pipes.now ≡ 64 }
    ensures { IfOk result (λ b. (b ≡ true) ↔ PartsAgree (world_of_parts owners.now processes.now
        given threads.now (map (λ p. p.items) pipes.now) sleepers.now)) }
{
    test_parts(
        alloc, owners, uses, processes, given, threads, pipes, sleepers,
    )
}
