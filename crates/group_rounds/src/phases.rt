// The phases of a round, over its starters.
ghost use Rattle.std.specs.Prelude.{◌≡◌, ◌≤◌, ◌+◌, ◌++◌, ◌∷◌, [], ℕ, List, filter, is_some};
ghost use Rattle.std.specs.Prelude.{length, OnOk};
ghost use Rattle.std.specs.Vec.{vec_capacity};
ghost use Rattle.dos_world.specs.Numbered.{numbers_of};
ghost use Rattle.dos_io.specs.Shims.{HasNoEnd};
ghost use Rattle.dos_laws.specs.Standing.{IsAwake};
ghost use Rattle.flat_machine.specs.Rest.{rest_if_live, serial_of};
ghost use Rattle.flat_machine.specs.Round.{with_budgets};
ghost use Rattle.proc_table.specs.Tables.{IsLiveThread};
ghost use Rattle.kernel_calls.specs.StateWorld.{HaveParts, IsSound, sent, world_of, StaysInRound};
ghost use Rattle.group_rounds.specs.Parts.{KeepsCount};
ghost use Rattle.group_rounds.specs.Phases.{AreLive, is_ready, ready_in};
ghost use Rattle.group_rounds.specs.Outcomes.{Serves};

use crate::part::finish;
use dos_io::Border;
use dos_world::ThreadState;
use kernel_calls::{RunStop, State};
use proc_table::Table;

/// One more number, for which there is room.
pub(crate) fn add(found: &mut Vec<u32>, tid: u32)
    requires { length found.old.items + 1 ≤ vec_capacity found.old }
    ensures items { found.new.items ≡ found.old.items ++ tid ∷ [] }
    ensures room { vec_capacity found.old ≤ vec_capacity found.new }
{
    match found.push(tid) {
        Ok(()) => {}
        Err(_) => unreachable!(),
    }
}

// one more starter, for which there is room, if its thread is ready
fn add_if_ready(table: &Table, starters: &mut Vec<u32>, tid: u32)
    requires live { IsLiveThread table.now.threads tid }
    requires room { length starters.old.items + 1 ≤ vec_capacity starters.old }
    ensures items { starters.new.items ≡ starters.old.items
        ++ filter (is_ready table.now.threads) (tid ∷ []) }
    ensures room { vec_capacity starters.old ≤ vec_capacity starters.new }
{
    if table.state(tid) != ThreadState::Ready {
        return;
    }
    add(starters, tid);
}

/// The numbers of the live threads, in rising order.
pub(crate) fn gather_live(table: &Table, found: &mut Vec<u32>)
    requires few { length (numbers_of is_some table.now.threads) ≤ 64 }
    requires room { 64 ≤ vec_capacity found.old }
    ensures live { found.new.items ≡ numbers_of is_some table.now.threads }
    ensures room { 64 ≤ vec_capacity found.new }
{
    found.clear();
    let mut last = 0;
    while let Some(tid) = table.next_thread(last) {
        add(found, tid);
        last = tid;
    }
}

/// The numbers of the ready threads, in rising order.
pub(crate) fn gather(table: &Table, starters: &mut Vec<u32>)
    requires few { length (numbers_of is_some table.now.threads) ≤ 64 }
    requires room { 64 ≤ vec_capacity starters.old }
    ensures ready { starters.new.items ≡ ready_in table.now.threads }
    ensures few { length starters.new.items ≤ 64 }
    ensures room { 64 ≤ vec_capacity starters.new }
{
    starters.clear();
    let mut last = 0;
    while let Some(tid) = table.next_thread(last) {
        add_if_ready(table, starters, tid);
        last = tid;
    }
}

/// Each starter gets the quantum as its budget.
pub fn set_budgets(state: &mut State, starters: &[u32], quantum: u32)
    requires sound { IsSound state.old }
    requires live { AreLive state.old.table.threads starters.now }
    ensures sets { (o e : List ℕ)
        → with_budgets (sent o e (world_of quantum state.old)) starters.now
        ≡ sent o e (world_of quantum state.new) }
    ensures sound { IsSound state.new }
    ensures parts { (ts : List ℕ) → HaveParts ts state.old → HaveParts ts state.new }
    ensures round { StaysInRound state.old state.new }
    ensures count { KeepsCount state.old state.new }
    ensures live { AreLive state.new.table.threads starters.now }
{
    for &tid in starters {
        state.table.set_budget(tid, quantum);
    }
}

// the rest of a starter, if it still lives
fn finish_if_live<B: Border>(state: &mut State, tid: u32, border: &mut B) -> Result<(), RunStop>
    requires sound { IsSound state.old }
    requires awake { IsAwake (world_of 0 state.old) tid }
    requires told { HasNoEnd (B.state border.old).shim.told }
    ensures serves { Serves (λ w. rest_if_live w tid) result
        state.old (B.state border.old) state.new (B.state border.new) }
    ensures parts { OnOk result ((ts : List ℕ) → HaveParts (tid ∷ ts) state.old
        → HaveParts ts state.new) }
    ensures follows { B.follows border.old border.new }
{
    if !state.table.is_thread(tid) {
        return Ok(());
    }
    finish(state, tid, border)
}

/// The serial phase: the rest of each starter that still lives, one after another.
pub(crate) fn run_serial<B: Border>(
    state: &mut State,
    starters: &[u32],
    border: &mut B,
) -> Result<(), RunStop>
    requires sound { IsSound state.old }
    requires parts { HaveParts starters.now state.old }
    requires told { HasNoEnd (B.state border.old).shim.told }
    ensures serves { Serves (λ w. serial_of w starters.now) result
        state.old (B.state border.old) state.new (B.state border.new) }
    ensures follows { B.follows border.old border.new }
{
    for &tid in starters {
        finish_if_live(state, tid, border)?;
    }
    Ok(())
}

/// The serial phase of the threads that are ready, gathered into `starters`.
pub(crate) fn run_ready<B: Border>(
    state: &mut State,
    starters: &mut Vec<u32>,
    border: &mut B,
) -> Result<(), RunStop>
    requires sound { IsSound state.old }
    requires room { 64 ≤ vec_capacity starters.old }
    requires told { HasNoEnd (B.state border.old).shim.told }
    ensures serves { Serves (λ w. serial_of w (ready_in state.old.table.threads)) result
        state.old (B.state border.old) state.new (B.state border.new) }
    ensures starters { starters.new.items ≡ ready_in state.old.table.threads }
    ensures room { 64 ≤ vec_capacity starters.new }
    ensures follows { B.follows border.old border.new }
{
    gather(&state.table, starters);
    run_serial(state, starters.as_slice(), border)
}
