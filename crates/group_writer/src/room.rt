// How long the text of a saved group becomes.
ghost use Rattle.std.specs.Prelude.{◌≡◌, ◌+◌, length};
ghost use Rattle.std.specs.List.{sum_by};
ghost use Rattle.group_writer.specs.Room.{capped, frame_room, process_room, room_of};
ghost use Rattle.group_writer.specs.Room.{owner_room, thread_room};

use dos_world::Owner;
use group_text::{FrameRecord, GroupRecord, ProcessRecord, ThreadRecord};

fn process_room(process: &ProcessRecord) -> usize
    ensures { result ≡ capped (process_room process.now) }
{
    if process.status.is_some() {
        return 6;
    }
    process.pages.len().saturating_mul(10).saturating_add(198)
}

fn processes_room(processes: &[ProcessRecord]) -> usize
    ensures { result ≡ capped (sum_by process_room processes.now) }
{
    let mut room: usize = 0;
    for i in 0..processes.len() {
        room = room.saturating_add(process_room(&processes[i]));
    }
    room
}

fn threads_room(threads: &[ThreadRecord]) -> usize
    ensures { result ≡ capped (sum_by thread_room threads.now) }
{
    let mut room: usize = 0;
    for i in 0..threads.len() {
        let saved = threads[i].saved.len().saturating_mul(137);
        room = room.saturating_add(saved.saturating_add(155));
    }
    room
}

fn pipes_room(pipes: &[Vec<u8>]) -> usize
    ensures { result ≡ capped (sum_by (λ p. length p.items + 2) pipes.now) }
{
    let mut room: usize = 0;
    for i in 0..pipes.len() {
        room = room.saturating_add(pipes[i].len().saturating_add(2));
    }
    room
}

fn frame_room(owner: Owner) -> usize
    ensures { result ≡ owner_room owner }
{
    match owner {
        Owner::Free => 5,
        Owner::Shared => 4101,
        Owner::Of(_) => 4101,
    }
}

fn frames_room(frames: &[FrameRecord]) -> usize
    ensures { result ≡ capped (sum_by frame_room frames.now) }
{
    let mut room: usize = 0;
    for i in 0..frames.len() {
        room = room.saturating_add(frame_room(frames[i].owner));
    }
    room
}

/// The length of the text of a saved group.
pub(crate) fn room_for(group: &GroupRecord) -> usize
    ensures { result ≡ capped (room_of group.now) }
{
    processes_room(&group.processes)
        .saturating_add(threads_room(&group.threads))
        .saturating_add(pipes_room(&group.pipes))
        .saturating_add(group.sleepers.len().saturating_mul(10))
        .saturating_add(frames_room(&group.frames))
        .saturating_add(68)
}
