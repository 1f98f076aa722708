// A kernel's state, read out.
ghost use Rattle.std.specs.Prelude.{◌≡◌, ◌+◌, ◌≤◌, ◌<◌, All, IfOk, length};
ghost use Rattle.dos_world.specs.Lawful.{IsConfig, Lawful};
ghost use Rattle.dos_world.specs.declared.Scheme.TheVariants.{Ownership};
ghost use Rattle.kernel_calls.specs.StateWorld.{IsSound, world_of};
ghost use Rattle.text_fields.specs.Formats.{AreBytes};
ghost use Rattle.group_text.specs.GroupText.{group_row};
ghost use Rattle.group_text.specs.Groups.{group_of, world_in};
ghost use Rattle.group_text.specs.Records.{group_of_record};
ghost use Rattle.group_save.specs.Recording.{IsKernelOf};

use dos_world::Config;
use group_parts::{record_frames, record_processes, record_sleepers, record_threads};
use group_text::{FrameRecord, GroupRecord};
use kernel_calls::State;
use page_store::Frames;
use std::alloc::{AllocError, Global};

// They are bytes by their type; here it is said to contracts. Nothing runs.
fn are_bytes(digest: &[u8])
    ensures { AreBytes digest.now }
{}

// all of a state but its frames
fn record_kernel(
    alloc: Global,
    state: &State,
    config: Config,
    used: u32,
    digest: [u8; 32],
) -> Result<GroupRecord, AllocError>
    requires sleepers { All (λ s. s.offset < 4096) state.now.futexes }
    requires given { length state.now.table.threads ≤ 65535 }
    requires round { 1 ≤ state.now.round }
    ensures { IfOk result (IsKernelOf digest used config state.now) }
{
    are_bytes(&digest);
    let processes = record_processes(alloc, &state.table)?;
    let threads = record_threads(alloc, &state.table)?;
    let pipes = state.pipes.copy_bytes(alloc)?;
    let sleepers = record_sleepers(alloc, &state.futexes)?;
    Ok(GroupRecord {
        digest,
        used,
        config,
        rounds: state.round - 1,
        given: state.table.threads() as u16,
        processes,
        threads,
        pipes,
        sleepers,
        frames: Vec::new(alloc),
    })
}

// a state's frames; the rest of it is let go
fn frames_of(state: State) -> Frames
    ensures { result ≡ state.frames }
{
    state.frames
}

fn with_frames(group: GroupRecord, frames: Vec<FrameRecord>) -> GroupRecord
    ensures { result ≡ record group { frames = frames } }
{
    GroupRecord { frames, ..group }
}

/// The saved group of a state: of a run in the ownership scheme that was given this, by a log of
/// this digest, of which so many entries were used. It stands for the state's world, which is
/// lawful. Pages are moved, and never copied. The error is want of memory.
pub fn record_group(
    alloc: Global,
    state: State,
    config: Config,
    used: u32,
    digest: [u8; 32],
) -> Result<GroupRecord, AllocError>
    requires sound { IsSound state }
    requires config { IsConfig config }
    requires scheme { config.scheme ≡ Ownership }
    requires frames { length state.frames.owners ≡ config.frames }
    requires rounds { state.round ≤ config.rounds + 1 }
    ensures is { IfOk result
        (λ g. group_of_record g ≡ group_of digest used config (world_of config.quantum state)) }
    ensures fits { IfOk result (λ g. group_row.Fits (group_of_record g)) }
    ensures world { IfOk result
        (λ g. world_in (group_of_record g) ≡ world_of config.quantum state) }
    ensures lawful { IfOk result (λ g. Lawful (world_in (group_of_record g))) }
{
    match record_kernel(alloc, &state, config, used, digest) {
        Ok(group) => {
            let frames = record_frames(alloc, frames_of(state))?;
            Ok(with_frames(group, frames))
        }
        Err(why) => {
            drop(state);
            Err(why)
        }
    }
}
