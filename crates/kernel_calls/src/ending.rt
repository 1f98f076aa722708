// The end of a process.
ghost use Rattle.std.specs.Prelude.{◌≡◌, ◌<◌, ℕ, List, length, IfSome};
ghost use Rattle.dos_world.specs.Kernel.{process_ended};
ghost use Rattle.proc_table.specs.Tables.{IsProcess, held_in};
ghost use Rattle.kernel_calls.specs.Ending.{AreDropped, AreNamed, IsNamed, posted_in, without_end};
ghost use Rattle.kernel_calls.specs.StateWorld.{IsSound, sent, world_of, StaysInRound};

use crate::signalling::post_to;
use crate::state::State;
use dos_world::End;
use kernel_mem::drop_space;
use kernel_objects::Pipes;
use proc_table::Table;

/// A live process ends with this status: its threads are gone, sleepers too, its descriptors are
/// closed, its pages unmapped. Its children have no parent, and its parent, if that lives, gets
/// signal 17.
pub fn end_process(state: &mut State, pid: u32, status: u8)
    requires sound { IsSound state.old }
    requires live { IsProcess state.old.table.processes pid }
    ensures ends { (q : ℕ) (o e : List ℕ)
        → process_ended (sent o e (world_of q state.old)) pid status
        ≡ sent o e (world_of q state.new) }
    ensures sound { IsSound state.new }
    ensures round { StaysInRound state.old state.new }
{
    let parent = state.table.parent(pid);
    drop_ends(&mut state.pipes, &state.table, pid);
    let threads = state.table.numbers_of(pid);
    state.futexes.remove_all(&threads);
    drop_space(&mut state.frames, &mut state.table, pid);
    state.table.end_process(pid, status);
    post_ended(&mut state.table, parent);
}

// A process is told that a child of it has ended. Any number.
fn post_ended(table: &mut Table, pid: u32)
    ensures { table.new ≡ posted_in table.old pid 17 }
{
    post_to(table, pid, 17);
}

// All ends of pipes that the process's descriptors name.
fn drop_ends(pipes: &mut Pipes, table: &Table, pid: u32)
    requires live { IsProcess table.now.processes pid }
    requires count { IfSome (held_in table.now.processes pid) (λ h. length h.descriptors ≡ 32) }
    requires named { IfSome (held_in table.now.processes pid)
        (λ h. AreNamed h.descriptors pipes.old) }
    ensures { IfSome (held_in table.now.processes pid)
        (λ h. AreDropped h.descriptors pipes.old pipes.new) }
{
    for number in 0..32_u32 {
        drop_end(pipes, table.descriptor(pid, number));
    }
}

/// The end of a pipe that a descriptor names, where it names one.
pub(crate) fn drop_end(pipes: &mut Pipes, end: Option<End>)
    requires { IsNamed end pipes.old }
    ensures { pipes.new ≡ without_end end pipes.old }
{
    match end {
        Some(End::PipeRead(pipe)) => pipes.drop_end(pipe, false),
        Some(End::PipeWrite(pipe)) => pipes.drop_end(pipe, true),
        Some(End::Input | End::Output | End::Error) => {}
        None => {}
    }
}
