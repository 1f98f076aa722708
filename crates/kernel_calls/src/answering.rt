// How a service answers: a0 has the answer, and pc is past the ecall.
ghost use Rattle.std.specs.Prelude.{◌≡◌, ◌<◌};
ghost use Rattle.dos_world.specs.World.{registers_by};
ghost use Rattle.dos_world.specs.Kernel.{answered, answered_two, minus};
ghost use Rattle.proc_table.specs.Tables.{IsLiveThread, thread_by};
ghost use Rattle.kernel_calls.specs.StateWorld.{IsCounted};

use crate::state::State;
use proc_table::Table;

/// The thread goes on with this answer.
pub(crate) fn reply(state: &mut State, tid: u32, value: u32)
    requires live { IsLiveThread state.old.table.threads tid }
    ensures answers { state.new
        ≡ record state.old {
          table =
              thread_by (registers_by (answered value)) state.old.table tid;
        } }
    ensures counted { IsCounted state.old → IsCounted state.new }
{
    answer_in(&mut state.table, tid, value);
}

/// The thread goes on with these answers, in a0 and a1.
pub(crate) fn reply_two(state: &mut State, tid: u32, first: u32, second: u32)
    requires live { IsLiveThread state.old.table.threads tid }
    ensures answers { state.new
        ≡ record state.old {
          table =
              thread_by (registers_by (answered_two first second)) state.old.table tid;
        } }
    ensures counted { IsCounted state.old → IsCounted state.new }
{
    answer_two_in(&mut state.table, tid, first, second);
}

/// The thread goes on with this refusal.
pub(crate) fn refuse_call(state: &mut State, tid: u32, number: u8)
    requires live { IsLiveThread state.old.table.threads tid }
    requires number { 0 < number }
    ensures answers { state.new
        ≡ record state.old {
          table =
              thread_by (registers_by (answered (minus number))) state.old.table tid;
        } }
    ensures counted { IsCounted state.old → IsCounted state.new }
{
    reply(state, tid, 0u32.wrapping_sub(u32::from(number)));
}

fn answer_in(table: &mut Table, tid: u32, value: u32)
    requires { IsLiveThread table.old.threads tid }
    ensures { table.new ≡ thread_by (registers_by (answered value)) table.old tid }
{
    let mut regs = *table.regs(tid);
    regs.set(10, value);
    let next = regs.pc().wrapping_add(4);
    regs.set_pc(next);
    table.set_regs(tid, regs);
}

fn answer_two_in(table: &mut Table, tid: u32, first: u32, second: u32)
    requires { IsLiveThread table.old.threads tid }
    ensures { table.new ≡ thread_by (registers_by (answered_two first second)) table.old tid }
{
    answer_in(table, tid, first);
    let mut regs = *table.regs(tid);
    regs.set(11, second);
    table.set_regs(tid, regs);
}
