// The services of memory: map, unmap, share.
ghost use Rattle.std.specs.Prelude.{◌≡◌, ◌<◌, IfErr};
ghost use Rattle.dos_world.specs.World.{registers_by};
ghost use Rattle.dos_world.specs.Kernel.{answered};
ghost use Rattle.dos_world.specs.Services.{map_pages, share, unmap};
ghost use Rattle.proc_table.specs.Tables.{IsLiveThread, thread_by};
ghost use Rattle.kernel_calls.specs.Memory.{answer_by};
ghost use Rattle.kernel_calls.specs.StateWorld.{IsCounted, IsSound, StaysInRound};
ghost use Rattle.kernel_calls.specs.CallResults.{AreAsked, ActsQuietly};
ghost use Rattle.kernel_calls.specs.declared.state.Served.TheVariants.{Went};

use crate::answering::{refuse_call, reply};
use crate::state::{Asked, State};
use kernel_mem::{map_pages, share as share_pages, unmap as unmap_pages};

/// a1 new pages from a0 on, with the rights a2; 0. Refusals: 22 where they are no range, the rights
/// are over 7 or a page is mapped, 12 where too few frames are Free.
pub(crate) fn map(state: &mut State, asked: &Asked)
    requires sound { IsSound state.old }
    requires asked { AreAsked state.old asked.now }
    ensures goes_on { ActsQuietly map_pages state.old asked.now Went state.new }
    ensures counted { IsCounted state.new }
    ensures round { StaysInRound state.old state.new }
{
    let mapped = map_pages(
        &mut state.frames,
        &mut state.table,
        asked.thread,
        asked.a0,
        asked.a1,
        asked.a2,
    );
    conclude(state, asked.thread, mapped);
}

/// a1 pages from a0 on are unmapped, and each of their frames has one use less; 0. Refusal 22 where
/// they are no range or one of them isn't mapped.
pub(crate) fn unmap(state: &mut State, asked: &Asked)
    requires sound { IsSound state.old }
    requires asked { AreAsked state.old asked.now }
    ensures goes_on { ActsQuietly unmap state.old asked.now Went state.new }
    ensures counted { IsCounted state.new }
    ensures round { StaysInRound state.old state.new }
{
    let unmapped = unmap_pages(
        &mut state.frames,
        &mut state.table,
        asked.thread,
        asked.a0,
        asked.a1,
    );
    conclude(state, asked.thread, unmapped);
}

/// A fork gives a child the same frames for a1 pages from a0 on; 0. Refusal 22 where they are no
/// range or one of them isn't mapped.
pub(crate) fn share(state: &mut State, asked: &Asked)
    requires sound { IsSound state.old }
    requires asked { AreAsked state.old asked.now }
    ensures goes_on { ActsQuietly share state.old asked.now Went state.new }
    ensures counted { IsCounted state.new }
    ensures round { StaysInRound state.old state.new }
{
    let shared = share_pages(&mut state.table, asked.thread, asked.a0, asked.a1);
    conclude(state, asked.thread, shared);
}

// The thread goes on with 0, or with the refusal.
fn conclude(state: &mut State, tid: u32, outcome: Result<(), u8>)
    requires live { IsLiveThread state.old.table.threads tid }
    requires number { IfErr outcome (λ number. 0 < number) }
    ensures { state.new
        ≡ record state.old {
          table =
              thread_by (registers_by (answered (answer_by outcome))) state.old.table tid;
        } }
{
    match outcome {
        Ok(()) => reply(state, tid, 0),
        Err(number) => refuse_call(state, tid, number),
    }
}
