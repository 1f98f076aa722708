// Threads that wait no longer become ready.
ghost use Rattle.std.specs.Prelude.{◌≡◌, ◌≤◌, ◌+◌, ◌++◌, ◌∷◌, [], ℕ, List, filter, length};
ghost use Rattle.std.specs.Vec.{vec_capacity};
ghost use Rattle.dos_world.specs.Signals.{made_ready, ripen};
ghost use Rattle.proc_table.specs.Tables.{IsLiveThread};
ghost use Rattle.kernel_calls.specs.StateWorld.{IsCounted, IsSound, sent, world_of, StaysInRound};
ghost use Rattle.group_rounds.specs.Parts.{KeepsCount};
ghost use Rattle.group_rounds.specs.Phases.{AreLive, is_ripe, ripe_in};

use crate::phases::add;
use dos_world::ThreadState;
use kernel_calls::{State, would_wait};

// whether the thread waits, and its service would not wait any more
fn is_ripe(state: &State, tid: u32) -> bool
    requires sound { IsSound state.now }
    requires live { IsLiveThread state.now.table.threads tid }
    ensures { (q : ℕ) (o e : List ℕ)
        → result ≡ is_ripe (sent o e (world_of q state.now)) tid }
{
    state.table.state(tid) == ThreadState::Retry && !would_wait(state, tid)
}

// one more, for which there is room, if its thread is ripe
fn add_if_ripe(state: &State, found: &mut Vec<u32>, tid: u32)
    requires sound { IsSound state.now }
    requires live { IsLiveThread state.now.table.threads tid }
    requires room { length found.old.items + 1 ≤ vec_capacity found.old }
    ensures items { (q : ℕ) (o e : List ℕ)
        → found.new.items ≡ found.old.items
        ++ filter (is_ripe (sent o e (world_of q state.now))) (tid ∷ []) }
    ensures room { vec_capacity found.old ≤ vec_capacity found.new }
{
    if is_ripe(state, tid) {
        add(found, tid);
    }
}

// the numbers of those threads, in rising order
fn gather_ripe(state: &State, found: &mut Vec<u32>)
    requires sound { IsSound state.now }
    requires room { 64 ≤ vec_capacity found.old }
    ensures ripe { (q : ℕ) (o e : List ℕ)
        → found.new.items ≡ ripe_in (sent o e (world_of q state.now)) }
    ensures live { AreLive state.now.table.threads found.new.items }
    ensures room { 64 ≤ vec_capacity found.new }
{
    found.clear();
    let mut last = 0;
    while let Some(tid) = state.table.next_thread(last) {
        add_if_ripe(state, found, tid);
        last = tid;
    }
}

// these threads become ready
fn set_ready(state: &mut State, threads: &[u32])
    requires live { AreLive state.old.table.threads threads.now }
    ensures sets { (q : ℕ) (o e : List ℕ)
        → made_ready (sent o e (world_of q state.old)) threads.now
        ≡ sent o e (world_of q state.new) }
    ensures counted { IsCounted state.old → IsCounted state.new }
    ensures round { StaysInRound state.old state.new }
    ensures count { KeepsCount state.old state.new }
{
    for &tid in threads {
        state.table.set_state(tid, ThreadState::Ready);
    }
}

/// Each thread whose service would not wait any more becomes ready. All of them look at the one
/// state before any of them changes.
pub(crate) fn ripen(state: &mut State, scratch: &mut Vec<u32>)
    requires sound { IsSound state.old }
    requires room { 64 ≤ vec_capacity scratch.old }
    ensures ripens { (q : ℕ) (o e : List ℕ)
        → ripen (sent o e (world_of q state.old)) ≡ sent o e (world_of q state.new) }
    ensures sound { IsSound state.new }
    ensures room { 64 ≤ vec_capacity scratch.new }
    ensures round { StaysInRound state.old state.new }
    ensures count { KeepsCount state.old state.new }
{
    gather_ripe(state, scratch);
    set_ready(state, scratch.as_slice());
}
