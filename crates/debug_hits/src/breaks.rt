// Breakpoints that are hit.
ghost use Rattle.std.specs.Prelude.{◌≡◌, ℕ, List};
ghost use Rattle.dos_world.specs.World.{thread_at};
ghost use Rattle.kernel_calls.specs.StateWorld.{sent, world_of};
ghost use Rattle.debug_session.specs.Points.{is_broken_at};
ghost use Rattle.debug_session.specs.Sessions.{Session};
ghost use Rattle.debug_session.specs.Hits.{is_thread_broken};

use debug_session::Breakpoint;
use kernel_calls::State;

/// Whether a breakpoint stands at an address of a process.
pub fn is_broken_at(breakpoints: &[Breakpoint], process: u32, pc: u32) -> bool
    ensures { result ≡ is_broken_at breakpoints.now process pc }
{
    for b in breakpoints {
        if b.process == process && b.address == pc {
            return true;
        }
    }
    false
}

/// Whether a thread lives and stands at a breakpoint. Any number.
pub fn is_thread_broken(breakpoints: &[Breakpoint], state: &State, thread: u32) -> bool
    ensures { (q : ℕ) (o e : List ℕ) (s : Session) → s.breakpoints ≡ breakpoints.now
        → result ≡ is_thread_broken s (thread_at (sent o e (world_of q state.now)) thread) }
{
    let table = &state.table;
    if !table.is_thread(thread) {
        return false;
    }
    is_broken_at(
        breakpoints,
        table.process_of(thread),
        table.regs(thread).pc(),
    )
}
