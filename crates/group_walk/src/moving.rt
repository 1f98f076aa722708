// The moves at each place, and what happens without a move behind them.
ghost use Rattle.std.specs.Prelude.{◌≡◌, ◌≤◌, ◌<◌, ◌+◌, ℕ, List, true, drop, length, IfOk};
ghost use Rattle.std.specs.Prelude.{slice_index, if◌then◌else◌};
ghost use Rattle.std.specs.Vec.{vec_capacity};
ghost use Rattle.dos_world.specs.Play.{done};
ghost use Rattle.dos_io.specs.Shims.{HasNoEnd};
ghost use Rattle.flat_machine.specs.Rest.{settled};
ghost use Rattle.group_moves.specs.Moments.{moment_at, settled_scene};
ghost use Rattle.group_moves.specs.Moves.{begun_scene, kind_by, rest_turn};
ghost use Rattle.group_moves.specs.Places.{between_rounds};
ghost use Rattle.kernel_calls.specs.Plays.{Plays};
ghost use Rattle.kernel_calls.specs.StateWorld.{HaveParts, IsSound, sent, world_of};
ghost use Rattle.proc_table.specs.Tables.{IsLiveThread};
ghost use Rattle.group_rounds.specs.Phases.{ready_in};
ghost use Rattle.group_walk.specs.Places.{HasMove, at_part, at_rest, place_at};
ghost use Rattle.group_walk.specs.Plays.{settled_move, turn_in, world_of_scene};
ghost use Rattle.group_walk.specs.Stretches.{GoesManyOn};
ghost use Rattle.group_walk.specs.Walks.{AreThere, ComesTo, kind_named};

use crate::passing::{is_part_over, is_rest_over, pass_parts, pass_rests};
use crate::stops::why_stops;
use crate::turns::{step_on_keeping, step_once, take_turn};
use crate::{MoveKind, Phase};
use dos_io::Border;
use dos_world::{Ending, Reason};
use group_rounds::phases::set_budgets;
use group_rounds::round::open_round;
use kernel_calls::{RunStop, State};

/// What a thread does next in the serial phase.
pub(crate) fn serial_kind(state: &State, tid: u32) -> MoveKind
    requires sound { IsSound state.now }
    requires live { IsLiveThread state.now.table.threads tid }
    ensures { (q : ℕ) (o e : List ℕ)
        → kind_by tid (settled 3 (sent o e (world_of q state.now)) tid).1 ≡ kind_named result }
{
    match why_stops(state, tid, true) {
        None => MoveKind::Runs { thread: tid },
        Some(Reason::Fault(number)) => MoveKind::Faults {
            thread: tid,
            number,
        },
        Some(Reason::Page { .. }) => MoveKind::IsServed { thread: tid },
        Some(Reason::Service) => MoveKind::IsServed { thread: tid },
    }
}

// what follows the signal point of a round
fn begun(state: &mut State, starters: &[u32], quantum: u32) -> (Phase, usize)
    requires sound { IsSound state.old }
    requires ready { starters.now ≡ ready_in state.old.table.threads }
    requires limit { state.old.round ≤ 1000000 }
    ensures begins { (o e : List ℕ)
        → settled_scene (begun_scene (sent o e (world_of quantum state.old)))
        ≡ (sent o e (world_of quantum state.new), place_at result.0 starters.now result.1) }
    ensures comes { ComesTo state.old state.new (place_at result.0 starters.now result.1) }
{
    if state.table.live_threads() == 0 {
        return (Phase::Ended(Ending::Done), 0);
    }
    if starters.is_empty() {
        return (Phase::Ended(Ending::Stalled), 0);
    }
    set_budgets(state, starters, quantum);
    pass_parts(state, starters, 0)
}

/// A round begins: who has a move next then.
pub(crate) fn begin_round<B: Border>(
    state: &mut State,
    starters: &mut Vec<u32>,
    quantum: u32,
    border: &mut B,
) -> Result<(Phase, usize), RunStop>
    requires sound { IsSound state.old }
    requires room { 64 ≤ vec_capacity starters.old }
    requires limit { state.old.round ≤ 1000000 }
    requires told { HasNoEnd (B.state border.old).shim.told }
    ensures plays { Plays quantum world_of_scene (settled_move between_rounds)
        (λ x w. done (w, place_at x.0 starters.new.items x.1)) result
        state.old (B.state border.old) state.new (B.state border.new) }
    ensures comes { IfOk result (λ x. ComesTo state.old state.new
        (place_at x.0 starters.new.items x.1)) }
    ensures room { 64 ≤ vec_capacity starters.new }
    ensures follows { B.follows border.old border.new }
{
    match open_round(state, starters, border) {
        Ok(()) => Ok(begun(state, starters.as_slice(), quantum)),
        Err(stop) => Err(stop),
    }
}

/// An instruction of the starter at an index, in the parallel phase: who has a move next then.
pub(crate) fn run_next(state: &mut State, starters: &[u32], index: usize) -> (Phase, usize)
    requires sound { IsSound state.old }
    requires there { AreThere state.old (at_part starters.now (drop index starters.now)) }
    requires limit { state.old.round ≤ 1000000 }
    ensures moves { (q : ℕ) (o e : List ℕ)
        → settled_move (at_part starters.now (drop index starters.now))
        (sent o e (world_of q state.old))
        ≡ done (sent o e (world_of q state.new), place_at result.0 starters.now result.1) }
    ensures comes { ComesTo state.old state.new (place_at result.0 starters.now result.1) }
{
    let tid = starters[index];
    step_once(state, tid);
    if is_part_over(state, tid) {
        return pass_parts(state, starters, index + 1);
    }
    (Phase::Parallel, index)
}

/// Instructions of the starter at an index in the parallel phase, at most so many, before each of
/// which it is at none of these addresses, and which change no byte of these frames: how many, and
/// who has a move next then.
pub(crate) fn run_part(
    state: &mut State,
    starters: &[u32],
    index: usize,
    most: u32,
    stops: &[u32],
    kept: &[u32],
) -> (u32, Phase, usize)
    requires sound { IsSound state.old }
    requires there { AreThere state.old (at_part starters.now (drop index starters.now)) }
    requires limit { state.old.round ≤ 1000000 }
    ensures most { result.0 ≤ most }
    ensures runs { (q limit begun made : ℕ) (o e : List ℕ) → GoesManyOn stops.now kept.now result.0
        limit (slice_index starters.now index)
        (moment_at begun made (
          sent o e (world_of q state.old),
          at_part starters.now (drop index starters.now),
        ))
        (moment_at begun (made + result.0) (
          sent o e (world_of q state.new),
          place_at result.1 starters.now result.2,
        )) }
    ensures comes { ComesTo state.old state.new (place_at result.1 starters.now result.2) }
{
    let tid = starters[index];
    let steps = step_on_keeping(state, tid, most, stops, kept);
    if steps == 0 {
        return (0, Phase::Parallel, index);
    }
    if is_part_over(state, tid) {
        let (phase, index) = pass_parts(state, starters, index + 1);
        return (steps, phase, index);
    }
    (steps, Phase::Parallel, index)
}

// who has a turn next behind one of the starter at an index
fn pass_turn(state: &mut State, starters: &[u32], index: usize, goes_on: bool) -> (Phase, usize)
    requires sound { IsSound state.old }
    requires within { index < length starters.now }
    requires live { goes_on ≡ true
        → IsLiveThread state.old.table.threads (slice_index starters.now index) }
    requires parts { HaveParts (if goes_on then drop index starters.now else
        drop (index + 1) starters.now) state.old }
    requires limit { state.old.round ≤ 1000000 }
    ensures passes { (q : ℕ) (o e : List ℕ)
        → settled_scene (rest_turn starters.now (slice_index starters.now index)
        (drop (index + 1) starters.now) (turn_in goes_on (sent o e (world_of q state.old))))
        ≡ (sent o e (world_of q state.new), place_at result.0 starters.now result.1) }
    ensures comes { ComesTo state.old state.new (place_at result.0 starters.now result.1) }
{
    if !goes_on {
        return pass_rests(state, starters, index + 1);
    }
    if is_rest_over(state, starters[index]) {
        return pass_rests(state, starters, index + 1);
    }
    (Phase::Serial, index)
}

/// A turn of the starter at an index, in the serial phase: who has a move next then.
pub(crate) fn turn_next<B: Border>(
    state: &mut State,
    starters: &[u32],
    index: usize,
    border: &mut B,
) -> Result<(Phase, usize), RunStop>
    requires sound { IsSound state.old }
    requires there { AreThere state.old (at_rest starters.now (drop index starters.now)) }
    requires limit { state.old.round ≤ 1000000 }
    requires told { HasNoEnd (B.state border.old).shim.told }
    ensures plays { (q : ℕ) → Plays q world_of_scene
        (settled_move (at_rest starters.now (drop index starters.now)))
        (λ x w. done (w, place_at x.0 starters.now x.1)) result
        state.old (B.state border.old) state.new (B.state border.new) }
    ensures comes { IfOk result (λ x. ComesTo state.old state.new
        (place_at x.0 starters.now x.1)) }
    ensures follows { B.follows border.old border.new }
{
    match take_turn(state, starters[index], border) {
        Ok(goes_on) => Ok(pass_turn(state, starters, index, goes_on)),
        Err(stop) => Err(stop),
    }
}

/// The same in the serial phase, where the first of them needs no grant.
pub(crate) fn run_rest(
    state: &mut State,
    starters: &[u32],
    index: usize,
    most: u32,
    stops: &[u32],
    kept: &[u32],
) -> (u32, Phase, usize)
    requires sound { IsSound state.old }
    requires there { AreThere state.old (at_rest starters.now (drop index starters.now)) }
    requires limit { state.old.round ≤ 1000000 }
    ensures most { result.0 ≤ most }
    ensures runs { (q limit begun made : ℕ) (o e : List ℕ) → GoesManyOn stops.now kept.now result.0
        limit (slice_index starters.now index)
        (moment_at begun made (
          sent o e (world_of q state.old),
          at_rest starters.now (drop index starters.now),
        ))
        (moment_at begun (made + result.0) (
          sent o e (world_of q state.new),
          place_at result.1 starters.now result.2,
        )) }
    ensures comes { ComesTo state.old state.new (place_at result.1 starters.now result.2) }
{
    let steps = step_on_keeping(state, starters[index], most, stops, kept);
    if steps == 0 {
        return (0, Phase::Serial, index);
    }
    let (phase, index) = pass_turn(state, starters, index, true);
    (steps, phase, index)
}

/// The move that is next in a phase, with the starter at an index at its part: who has a move next
/// then.
pub(crate) fn reach_next<B: Border>(
    state: &mut State,
    starters: &mut Vec<u32>,
    quantum: u32,
    phase: Phase,
    index: usize,
    border: &mut B,
) -> Result<(Phase, usize), RunStop>
    requires sound { IsSound state.old }
    requires room { 64 ≤ vec_capacity starters.old }
    requires there { AreThere state.old (place_at phase starters.old.items index) }
    requires goes_on { HasMove phase }
    requires limit { state.old.round ≤ 1000000 }
    requires told { HasNoEnd (B.state border.old).shim.told }
    ensures plays { Plays quantum world_of_scene
        (settled_move (place_at phase starters.old.items index))
        (λ x w. done (w, place_at x.0 starters.new.items x.1)) result
        state.old (B.state border.old) state.new (B.state border.new) }
    ensures comes { IfOk result (λ x. ComesTo state.old state.new
        (place_at x.0 starters.new.items x.1)) }
    ensures room { 64 ≤ vec_capacity starters.new }
    ensures follows { B.follows border.old border.new }
{
    match phase {
        Phase::Between => begin_round(state, starters, quantum, border),
        Phase::Parallel => Ok(run_next(state, starters.as_slice(), index)),
        Phase::Serial => turn_next(state, starters.as_slice(), index, border),
        Phase::Ended(_) => unreachable!(),
    }
}
