// What happens without a move: who has no move left in a phase is left behind.
ghost use Rattle.std.specs.Prelude.{◌≡◌, ◌≤◌, ◌∷◌, ℕ, List, drop, false, true};
ghost use Rattle.group_moves.specs.Places.{is_part_over, is_rest_over, to_parts, to_rests};
ghost use Rattle.group_moves.specs.Places.{within_rest};
ghost use Rattle.kernel_calls.specs.StateWorld.{HaveParts, IsSound, sent, world_of};
ghost use Rattle.proc_table.specs.Tables.{IsLiveThread};
ghost use Rattle.group_rounds.specs.Parts.{KeepsCount};
ghost use Rattle.group_rounds.specs.Phases.{AreLive};
ghost use Rattle.group_walk.specs.Places.{part_scene, place_at, rest_scene};
ghost use Rattle.group_walk.specs.Walks.{AreThere, ComesTo};

use crate::Phase;
use crate::stops::why_stops;
use group_rounds::part::begin;
use kernel_calls::{State, count_round};

/// Whether the thread's part of the parallel phase is over.
pub(crate) fn is_part_over(state: &State, tid: u32) -> bool
    requires sound { IsSound state.now }
    requires live { IsLiveThread state.now.table.threads tid }
    ensures { (q : ℕ) (o e : List ℕ)
        → is_part_over (sent o e (world_of q state.now)) tid ≡ result }
{
    if state.table.budget(tid) == 0 {
        return true;
    }
    match why_stops(state, tid, false) {
        Some(_) => true,
        None => false,
    }
}

/// Whether the thread's part of the serial phase is over.
pub(crate) fn is_rest_over(state: &State, tid: u32) -> bool
    ensures { (q : ℕ) (o e : List ℕ)
        → is_rest_over (sent o e (world_of q state.now)) tid ≡ result }
{
    if !state.table.is_thread(tid) {
        return true;
    }
    state.table.budget(tid) == 0
}

// The thread comes to the front of the serial phase, where it lives: whether it has a turn.
fn comes_to_rest(state: &mut State, tid: u32) -> bool
    requires sound { IsSound state.old }
    ensures comes { (q : ℕ) (o e : List ℕ) (starters ts : List ℕ)
        → to_rests (sent o e (world_of q state.old)) starters (tid ∷ ts)
        ≡ rest_scene result starters tid ts (sent o e (world_of q state.new)) }
    ensures there { result ≡ true → (starters ts : List ℕ) → HaveParts (tid ∷ ts) state.old
        → AreThere state.new (within_rest starters tid ts) }
    ensures parts { (ts : List ℕ) → HaveParts (tid ∷ ts) state.old → HaveParts ts state.new }
    ensures sound { IsSound state.new }
    ensures round { state.new.round ≡ state.old.round }
    ensures count { KeepsCount state.old state.new }
{
    if !state.table.is_thread(tid) {
        return false;
    }
    begin(state, tid);
    !is_rest_over(state, tid)
}

// The thread comes to the front of the parallel phase: whether it has an instruction.
fn comes_to_part(state: &mut State, tid: u32) -> bool
    requires sound { IsSound state.old }
    requires live { IsLiveThread state.old.table.threads tid }
    ensures comes { (q : ℕ) (o e : List ℕ) (starters ts : List ℕ)
        → to_parts (sent o e (world_of q state.old)) starters (tid ∷ ts)
        ≡ part_scene result starters tid ts (sent o e (world_of q state.new)) }
    ensures there { result ≡ true → (q : ℕ) (o e : List ℕ)
        → is_part_over (sent o e (world_of q state.new)) tid ≡ false }
    ensures live { (t : ℕ) → IsLiveThread state.old.table.threads t
        → IsLiveThread state.new.table.threads t }
    ensures parts { (ts : List ℕ) → HaveParts ts state.old → HaveParts ts state.new }
    ensures sound { IsSound state.new }
    ensures round { state.new.round ≡ state.old.round }
    ensures count { KeepsCount state.old state.new }
{
    begin(state, tid);
    !is_part_over(state, tid)
}

/// In the serial phase, from the starter at an index on: who has a turn next; behind the last the
/// round is counted.
pub(crate) fn pass_rests(state: &mut State, starters: &[u32], from: usize) -> (Phase, usize)
    requires sound { IsSound state.old }
    requires parts { HaveParts (drop from starters.now) state.old }
    requires limit { state.old.round ≤ 1000000 }
    ensures passes { (q : ℕ) (o e : List ℕ)
        → to_rests (sent o e (world_of q state.old)) starters.now (drop from starters.now)
        ≡ (sent o e (world_of q state.new), place_at result.0 starters.now result.1) }
    ensures comes { ComesTo state.old state.new (place_at result.0 starters.now result.1) }
{
    let mut index = from;
    while index < starters.len() {
        if comes_to_rest(state, starters[index]) {
            return (Phase::Serial, index);
        }
        index += 1;
    }
    count_round(state);
    (Phase::Between, 0)
}

/// In the parallel phase, from the starter at an index on: who has an instruction next; behind the
/// last the serial phase begins.
pub(crate) fn pass_parts(state: &mut State, starters: &[u32], from: usize) -> (Phase, usize)
    requires sound { IsSound state.old }
    requires live { AreLive state.old.table.threads (drop from starters.now) }
    requires parts { HaveParts starters.now state.old }
    requires limit { state.old.round ≤ 1000000 }
    ensures passes { (q : ℕ) (o e : List ℕ)
        → to_parts (sent o e (world_of q state.old)) starters.now (drop from starters.now)
        ≡ (sent o e (world_of q state.new), place_at result.0 starters.now result.1) }
    ensures comes { ComesTo state.old state.new (place_at result.0 starters.now result.1) }
{
    let mut index = from;
    while index < starters.len() {
        if comes_to_part(state, starters[index]) {
            return (Phase::Parallel, index);
        }
        index += 1;
    }
    pass_rests(state, starters, 0)
}
