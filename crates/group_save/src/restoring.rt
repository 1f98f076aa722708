// A kernel's state, built again.
ghost use Rattle.std.specs.Prelude.{◌≡◌, ◌+◌, IfOk, length, map};
ghost use Rattle.dos_world.specs.Lawful.{Lawful};
ghost use Rattle.kernel_calls.specs.StateWorld.{IsSound, world_of};
ghost use Rattle.group_text.specs.GroupText.{group_row};
ghost use Rattle.group_text.specs.Groups.{world_in};
ghost use Rattle.group_text.specs.Records.{group_of_record, sleeper_of_record};
ghost use Rattle.group_save.specs.Restored.{AreSavedFrames, ArePipesOf, IsLawfulRecord};
ghost use Rattle.group_save.specs.Restored.{table_of_record};

use group_parts::{restore_frames, restore_pipes, restore_sleepers, restore_table};
use group_text::GroupRecord;
use kernel_calls::State;
use kernel_objects::{FutexQueue, Pipes};
use lawful_groups::count_uses;
use page_store::Frames;
use proc_table::Table;
use std::alloc::{AllocError, Global};

// the pipes, with the ends that the processes have
fn pipes_of(alloc: Global, group: &GroupRecord) -> Result<Pipes, AllocError>
    requires { IsLawfulRecord group.now }
    ensures { IfOk result (ArePipesOf group.now) }
{
    restore_pipes(alloc, &group.pipes, &group.processes)
}

fn table_of(alloc: Global, group: &GroupRecord) -> Result<Table, AllocError>
    requires { IsLawfulRecord group.now }
    ensures { IfOk result (λ t. t ≡ table_of_record group.now) }
{
    restore_table(
        alloc,
        group.config.frames,
        group.given,
        &group.threads,
        &group.processes,
    )
}

// the frames, with the uses that the processes' pages are
fn frames_of(alloc: Global, group: GroupRecord) -> Result<Frames, AllocError>
    requires { IsLawfulRecord group }
    ensures { IfOk result (AreSavedFrames group) }
{
    let uses = count_uses(alloc, group.frames.len() as u32, &group.processes)?;
    restore_frames(alloc, group.frames, uses)
}

// pipes, queue and table
fn objects_of(alloc: Global, group: &GroupRecord) -> Result<(Pipes, FutexQueue, Table), AllocError>
    requires { IsLawfulRecord group.now }
    ensures pipes { IfOk result (λ x. ArePipesOf group.now x.0) }
    ensures futexes { IfOk result (λ x. x.1 ≡ map sleeper_of_record group.now.sleepers.items) }
    ensures table { IfOk result (λ x. x.2 ≡ table_of_record group.now) }
{
    let pipes = pipes_of(alloc, group)?;
    let futexes = restore_sleepers(alloc, &group.sleepers)?;
    let table = table_of(alloc, group)?;
    Ok((pipes, futexes, table))
}

// the state of these, before a round
fn state_of(frames: Frames, objects: (Pipes, FutexQueue, Table), round: u32) -> State
    ensures frames { result.frames ≡ frames }
    ensures pipes { result.pipes ≡ objects.0 }
    ensures futexes { result.futexes ≡ objects.1 }
    ensures table { result.table ≡ objects.2 }
    ensures round { result.round ≡ round }
{
    let (pipes, futexes, table) = objects;
    State {
        frames,
        table,
        pipes,
        futexes,
        round,
        buffer: [0; 4096],
    }
}

/// The state of a saved group, the fields of which are in their ranges, in a lawful world: before
/// its next round. Pages are moved, and never copied. The error is want of memory.
pub fn restore_group(alloc: Global, group: GroupRecord) -> Result<State, AllocError>
    requires fits { group_row.Fits (group_of_record group) }
    requires lawful { Lawful (world_in (group_of_record group)) }
    ensures world { IfOk result (λ s.
        world_of group.config.quantum s ≡ world_in (group_of_record group)) }
    ensures sound { IfOk result IsSound }
    ensures round { IfOk result (λ s. s.round ≡ group.rounds + 1) }
    ensures frames { IfOk result (λ s. length s.frames.owners ≡ group.config.frames) }
{
    let round = group.rounds + 1;
    let objects = objects_of(alloc, &group)?;
    match frames_of(alloc, group) {
        Ok(frames) => Ok(state_of(frames, objects, round)),
        Err(why) => {
            drop(objects);
            Err(why)
        }
    }
}
