// What the services work on, and how they end.
ghost use Rattle.std.specs.Prelude.{◌≡◌, ◌+◌, ◌≤◌, Some, replicate};
ghost use Rattle.kernel_calls.specs.StateWorld.{IsSound, shim_stop};

use dos_io::ShimStop;
use dos_world::Misfit;
use kernel_objects::{FutexQueue, Pipes};
use page_store::Frames;
use proc_table::Table;

/// The kernel's state: what a group is between two instructions.
#[derive(Drop)]
pub struct State {
    /// The frames, all home.
    pub frames: Frames,
    /// The processes and threads.
    pub table: Table,
    /// The pipes.
    pub pipes: Pipes,
    /// The threads that sleep on words.
    pub futexes: FutexQueue,
    /// The round that is being run, or is to be run next, from 1.
    pub round: u32,
    /// Where the bytes of one call lie on their way. Nothing rests on what is left there.
    pub buffer: [u8; 4096],
}

/// A service's thread and process, and what it is asked with: x10, x11 and x12 of the thread.
#[derive(Clone, Copy)]
pub(crate) struct Asked {
    pub(crate) thread: u32,
    pub(crate) process: u32,
    pub(crate) a0: u32,
    pub(crate) a1: u32,
    pub(crate) a2: u32,
}

/// How a service leaves its thread.
#[derive(Clone, Copy)]
pub enum Served {
    /// It goes on.
    Went,
    /// It waits: its ecall runs again in a later round.
    Waits,
    /// Its part in this round is over.
    Yields,
    /// It is gone.
    Gone,
}

/// Why a run can't go on.
#[derive(Clone, Copy, Debug, PartialEq, Eq)]
pub enum RunStop {
    /// The shim's host failed.
    HostFault,
    /// The shim's log has no room for what a question may bring.
    LogFull,
    /// The log's next entry is of another question.
    Misfit(Misfit),
    /// The sink of the output failed.
    OutFault,
    /// The sink of the error output failed.
    ErrFault,
    /// Want of memory.
    Memory,
}

/// Why the run can't go on, where the shim doesn't answer.
pub fn run_stop(stop: ShimStop) -> RunStop
    ensures { shim_stop result ≡ Some stop }
{
    match stop {
        ShimStop::HostFault => RunStop::HostFault,
        ShimStop::LogFull => RunStop::LogFull,
        ShimStop::Misfit(misfit) => RunStop::Misfit(misfit),
        ShimStop::Memory => RunStop::Memory,
    }
}

/// These frames, this table, these pipes and this queue, before the first round.
pub fn new_state(frames: Frames, table: Table, pipes: Pipes, futexes: FutexQueue) -> State
    ensures { result ≡ record {
      frames = frames;
      table = table;
      pipes = pipes;
      futexes = futexes;
      round = 1;
      buffer = replicate 4096 0;
    } }
{
    State {
        frames,
        table,
        pipes,
        futexes,
        round: 1,
        buffer: [0; 4096],
    }
}

/// A round has been run.
pub fn count_round(state: &mut State)
    requires sound { IsSound state.old }
    requires limit { state.old.round ≤ 1000000 }
    ensures counted { state.new ≡ record state.old { round = state.old.round + 1 } }
    ensures sound { IsSound state.new }
{
    state.round += 1;
}
