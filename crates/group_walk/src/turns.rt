// One instruction of a thread, and one turn of it in the serial phase.
ghost use Rattle.std.specs.Prelude.{◌≡◌, ◌≢◌, ◌≤◌, ◌+◌, ◌<◌, ℕ, List, [], ◌∷◌, true, None, Ok};
ghost use Rattle.std.specs.Prelude.{IfOk, OnOk, false};
ghost use Rattle.std.specs.Prelude.{if◌then◌else◌};
ghost use Rattle.dos_world.specs.Play.{done};
ghost use Rattle.dos_world.specs.World.{owner_of};
ghost use Rattle.dos_world.specs.declared.Owner.TheVariants.{Of};
ghost use Rattle.dos_io.specs.Shims.{HasNoEnd};
ghost use Rattle.flat_machine.specs.Rest.{settled, turn};
ghost use Rattle.flat_machine.specs.Step.{step};
ghost use Rattle.kernel_calls.specs.Plays.{Plays};
ghost use Rattle.kernel_calls.specs.StateWorld.{HaveParts, IsReady, IsSound, sent, world_of};
ghost use Rattle.proc_table.specs.Tables.{IsLiveThread, thread_in};
ghost use Rattle.group_rounds.specs.Parts.{KeepsCount, budget_in};
ghost use Rattle.group_walk.specs.Needs.{reason_of};
ghost use Rattle.group_walk.specs.Plays.{turn_in, world_turned};
ghost use Rattle.group_walk.specs.Stretches.{IsElsewhere, StepsOn};

use crate::stops::why_stops;
use dos_io::Border;
use dos_world::{Access, Owner, Reason};
use group_rounds::part::{end_by_fault, goes_on_after, grant, run, run_until_address};
use kernel_calls::{RunStop, State, serve};

/// The thread's next instruction, which doesn't stop, for one of its budget.
pub(crate) fn step_once(state: &mut State, tid: u32)
    requires sound { IsSound state.old }
    requires live { IsLiveThread state.old.table.threads tid }
    requires budget { 0 < budget_in state.old tid }
    requires goes_on { (q : ℕ) (o e : List ℕ)
        → reason_of (step (sent o e (world_of q state.old)) tid) ≡ None }
    ensures steps { (q : ℕ) (o e : List ℕ)
        → step (sent o e (world_of q state.old)) tid ≡ Ok (sent o e (world_of q state.new)) }
    ensures sound { IsSound state.new }
    ensures parts { (ts : List ℕ) → HaveParts ts state.old → HaveParts ts state.new }
    ensures live { (t : ℕ) → IsLiveThread state.old.table.threads t
        → IsLiveThread state.new.table.threads t }
    ensures round { state.new.round ≡ state.old.round }
    ensures count { KeepsCount state.old state.new }
{
    let budget = state.table.budget(tid);
    state.table.set_budget(tid, 1);
    let _stop = run(state, tid);
    state.table.set_budget(tid, budget - 1);
}

/// The thread's next instructions, each for one of its budget, until one would stop, they are so
/// many or the thread is at one of these addresses: how many.
pub(crate) fn step_on(state: &mut State, tid: u32, most: u32, stops: &[u32]) -> u32
    requires sound { IsSound state.old }
    requires live { IsLiveThread state.old.table.threads tid }
    ensures most { result ≤ most }
    ensures some { 0 < most → 0 < budget_in state.old tid
        → IsElsewhere stops.now (thread_in state.old.table.threads tid)
        → ((q : ℕ) (o e : List ℕ) → reason_of (step (sent o e (world_of q state.old)) tid) ≡ None)
        → 0 < result }
    ensures paid { budget_in state.old tid ≡ result + budget_in state.new tid }
    ensures steps { (q : ℕ) (o e : List ℕ) → StepsOn stops.now [] result
        (sent o e (world_of q state.old)) tid (sent o e (world_of q state.new)) }
    ensures sound { IsSound state.new }
    ensures parts { (ts : List ℕ) → HaveParts ts state.old → HaveParts ts state.new }
    ensures live { (t : ℕ) → IsLiveThread state.old.table.threads t
        → IsLiveThread state.new.table.threads t }
    ensures round { state.new.round ≡ state.old.round }
    ensures count { KeepsCount state.old state.new }
{
    let budget = state.table.budget(tid);
    let part = budget.min(most);
    state.table.set_budget(tid, part);
    let _stop = run_until_address(state, tid, stops);
    let steps = part - state.table.budget(tid);
    state.table.set_budget(tid, budget - steps);
    steps
}

// whether the frame is there and this thread's
fn is_owned(state: &State, frame: u32, tid: u32) -> bool
    requires sound { IsSound state.now }
    ensures owned { (q : ℕ) (o e : List ℕ) → result ≡ true
        → owner_of (sent o e (world_of q state.now)) frame ≡ Of tid }
    ensures other { (q : ℕ) (o e : List ℕ) → result ≡ false
        → owner_of (sent o e (world_of q state.now)) frame ≢ Of tid }
{
    if frame >= state.frames.count() {
        return false;
    }
    state.frames.owner(frame) == Owner::Of(tid)
}

/// The same, and none of them changes a byte of these frames: a store there would stop.
pub(crate) fn step_on_keeping(
    state: &mut State,
    tid: u32,
    most: u32,
    stops: &[u32],
    kept: &[u32],
) -> u32
    requires sound { IsSound state.old }
    requires live { IsLiveThread state.old.table.threads tid }
    ensures most { result ≤ most }
    ensures paid { budget_in state.old tid ≡ result + budget_in state.new tid }
    ensures steps { (q : ℕ) (o e : List ℕ) → StepsOn stops.now kept.now result
        (sent o e (world_of q state.old)) tid (sent o e (world_of q state.new)) }
    ensures sound { IsSound state.new }
    ensures parts { (ts : List ℕ) → HaveParts ts state.old → HaveParts ts state.new }
    ensures live { (t : ℕ) → IsLiveThread state.old.table.threads t
        → IsLiveThread state.new.table.threads t }
    ensures round { state.new.round ≡ state.old.round }
    ensures count { KeepsCount state.old state.new }
{
    let Some((frame, others)) = kept.split_first() else {
        return step_on(state, tid, most, stops);
    };
    if !is_owned(state, *frame, tid) {
        return step_on_keeping(state, tid, most, stops, others);
    }
    state.frames.grant(*frame, tid, Access::Load);
    let steps = step_on_keeping(state, tid, most, stops, others);
    state.frames.grant(*frame, tid, Access::Store);
    steps
}

/// Grants the pages for which the thread's next instruction stops: why it stops then.
pub(crate) fn settle(state: &mut State, tid: u32) -> Option<Reason>
    requires sound { IsSound state.old }
    requires live { IsLiveThread state.old.table.threads tid }
    ensures settles { (q : ℕ) (o e : List ℕ)
        → settled 3 (sent o e (world_of q state.old)) tid
        ≡ (sent o e (world_of q state.new), step (sent o e (world_of q state.new)) tid) }
    ensures why { (q : ℕ) (o e : List ℕ)
        → reason_of (step (sent o e (world_of q state.new)) tid) ≡ result }
    ensures table { state.new.table ≡ state.old.table }
    ensures sound { IsSound state.new }
    ensures parts { (ts : List ℕ) → HaveParts ts state.old → HaveParts ts state.new }
    ensures round { state.new.round ≡ state.old.round }
    ensures count { KeepsCount state.old state.new }
{
    let mut left = 3u32;
    while left > 0 {
        match why_stops(state, tid, false) {
            Some(Reason::Page { address, access }) => grant(state, tid, address, access),
            Some(Reason::Fault(number)) => return Some(Reason::Fault(number)),
            Some(Reason::Service) => return Some(Reason::Service),
            None => return None,
        }
        left -= 1;
    }
    why_stops(state, tid, false)
}

/// The thread's next turn in the serial phase: whether its part goes on.
pub(crate) fn take_turn<B: Border>(
    state: &mut State,
    tid: u32,
    border: &mut B,
) -> Result<bool, RunStop>
    requires sound { IsSound state.old }
    requires live { IsLiveThread state.old.table.threads tid }
    requires ready { IsReady state.old.table.threads tid }
    requires budget { 0 < budget_in state.old tid }
    requires told { HasNoEnd (B.state border.old).shim.told }
    ensures plays { (q : ℕ) → Plays q world_turned (λ w. turn w tid)
        (λ goes_on w. done (turn_in goes_on w)) result
        state.old (B.state border.old) state.new (B.state border.new) }
    ensures live { IfOk result (λ goes_on. goes_on ≡ true
        → IsLiveThread state.new.table.threads tid) }
    ensures sound { OnOk result (IsSound state.new) }
    ensures parts { IfOk result (λ goes_on. (ts : List ℕ) → HaveParts (tid ∷ ts) state.old
        → HaveParts (if goes_on then tid ∷ ts else ts) state.new) }
    ensures round { state.new.round ≡ state.old.round }
    ensures count { OnOk result (KeepsCount state.old state.new) }
    ensures follows { B.follows border.old border.new }
{
    match settle(state, tid) {
        None => {
            step_once(state, tid);
            Ok(true)
        }
        Some(Reason::Page { .. }) => Ok(false),
        Some(Reason::Fault(number)) => {
            end_by_fault(state, tid, number);
            Ok(false)
        }
        Some(Reason::Service) => match serve(state, tid, border) {
            Ok(way) => Ok(goes_on_after(way)),
            Err(stop) => Err(stop),
        },
    }
}
