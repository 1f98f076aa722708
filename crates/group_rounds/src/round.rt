// One round.
ghost use Rattle.std.specs.Prelude.{◌≡◌, ◌≤◌, ℕ, List, length, IfErr, IfOk, OnOk};
ghost use Rattle.std.specs.Vec.{vec_capacity};
ghost use Rattle.dos_world.specs.Play.{done};
ghost use Rattle.dos_world.specs.Signals.{ripen, signalled};
ghost use Rattle.dos_world.specs.declared.Question.TheVariants.{Signals as signals_question};
ghost use Rattle.dos_io.specs.Borders.{Crosses, exchanged};
ghost use Rattle.dos_io.specs.Shims.{HasNoEnd};
ghost use Rattle.dos_io.specs.declared.exchange.Exchange.TheVariants.{Signals as signals_exchange};
ghost use Rattle.dos_laws.specs.Plays.{world_ended};
ghost use Rattle.flat_machine.specs.Round.{begun, round_of};
ghost use Rattle.kernel_calls.specs.Plays.{Plays};
ghost use Rattle.kernel_calls.specs.StateWorld.{HaveParts, IsSound, sent, world_of, StaysInRound};
ghost use Rattle.group_rounds.specs.Parts.{KeepsCount};
ghost use Rattle.group_rounds.specs.Phases.{ready_in};
ghost use Rattle.group_rounds.specs.Rounds.{AreStarters, HasOpened, KeepsRound, PlaysRound};
ghost use Rattle.group_rounds.specs.Rounds.{StopsRun, begun_work, end_in, phase_work};
ghost use Rattle.group_rounds.specs.Rounds.{rest_of_round};
ghost use Rattle.group_rounds.specs.declared.round.RoundEnd.TheVariants.{Went};

use crate::packs::Packs;
use crate::phases::{gather, run_serial, set_budgets};
use crate::ripening::ripen;
use crate::signals::signal_point;
use dos_io::{Border, SignalList};
use kernel_calls::{RunStop, State, count_round, run_stop};
use worker_pool::Workers;

/// How a round ended.
#[derive(Clone, Copy, Debug, PartialEq, Eq)]
pub enum RoundEnd {
    /// It was run.
    Went,
    /// No thread lived.
    Done,
    /// Threads lived, and none of them was ready.
    Stalled,
}

// the shim is asked for the signals of a round
fn ask_signals<B: Border>(round: u32, list: &mut SignalList, border: &mut B) -> Result<(), RunStop>
    requires { HasNoEnd (B.state border.old).shim.told }
    ensures answered { OnOk result (Crosses (B.state border.old)
        (exchanged (signals_exchange round list.new)) (B.state border.new)) }
    ensures stopped { IfErr result
        (λ stop. StopsRun stop (B.state border.old) (signals_question round)
        (B.state border.new)) }
    ensures follows { B.follows border.old border.new }
{
    match border.signals(round, list) {
        Ok(()) => Ok(()),
        Err(stop) => Err(run_stop(stop)),
    }
}

// The signal point, and who waits no longer is ready. The starters are the threads that are ready
// then.
fn begin_round(state: &mut State, starters: &mut Vec<u32>, list: &SignalList)
    requires sound { IsSound state.old }
    requires room { 64 ≤ vec_capacity starters.old }
    ensures begins { (q : ℕ) (o e : List ℕ)
        → ripen (signalled (sent o e (world_of q state.old)) list.now)
        ≡ sent o e (world_of q state.new) }
    ensures sound { IsSound state.new }
    ensures starters { starters.new.items ≡ ready_in state.new.table.threads }
    ensures few { length starters.new.items ≤ 64 }
    ensures room { 64 ≤ vec_capacity starters.new }
    ensures round { StaysInRound state.old state.new }
    ensures count { KeepsCount state.old state.new }
{
    signal_point(state, starters, list);
    ripen(state, starters);
    gather(&state.table, starters);
}

/// The shim is asked for the signals of a round, and the round begins with what it answers.
///
/// After an `Err` nothing is said of the state but its round, and how many frames there are.
pub fn open_round<B: Border>(
    state: &mut State,
    starters: &mut Vec<u32>,
    border: &mut B,
) -> Result<(), RunStop>
    requires sound { IsSound state.old }
    requires room { 64 ≤ vec_capacity starters.old }
    requires told { HasNoEnd (B.state border.old).shim.told }
    ensures opened { OnOk result
        (HasOpened state.old (B.state border.old) state.new (B.state border.new)) }
    ensures stopped { IfErr result
        (λ stop. StopsRun stop (B.state border.old) (signals_question state.old.round)
        (B.state border.new)) }
    ensures sound { OnOk result (IsSound state.new) }
    ensures starters { OnOk result (starters.new.items ≡ ready_in state.new.table.threads) }
    ensures few { OnOk result (length starters.new.items ≤ 64) }
    ensures room { 64 ≤ vec_capacity starters.new }
    ensures round { StaysInRound state.old state.new }
    ensures count { KeepsCount state.old state.new }
    ensures follows { B.follows border.old border.new }
{
    let mut list = SignalList::new();
    match ask_signals(state.round, &mut list, border) {
        Ok(()) => {
            begin_round(state, starters, &list);
            Ok(())
        }
        Err(stop) => Err(stop),
    }
}

// The serial phase of a round, and then the round is counted.
fn finish_round<B: Border>(
    state: &mut State,
    starters: &[u32],
    border: &mut B,
) -> Result<RoundEnd, RunStop>
    requires sound { IsSound state.old }
    requires parts { HaveParts starters.now state.old }
    requires limit { state.old.round ≤ 1000000 }
    requires told { HasNoEnd (B.state border.old).shim.told }
    ensures plays { (q work : ℕ) → Plays q world_ended (λ w. rest_of_round work w starters.now)
        (λ end w. done (end_in end work w)) result
        state.old (B.state border.old) state.new (B.state border.new) }
    ensures end { IfOk result (λ end. end ≡ Went) }
    ensures keeps { KeepsRound result state.old state.new }
    ensures follows { B.follows border.old border.new }
{
    match run_serial(state, starters, border) {
        Ok(()) => {
            count_round(state);
            Ok(RoundEnd::Went)
        }
        Err(stop) => Err(stop),
    }
}

// what follows the signal point, with these starters: the phases, and the round counted
fn play_begun<B: Border, W: Workers>(
    state: &mut State,
    starters: &[u32],
    packs: &mut Packs,
    quantum: u32,
    border: &mut B,
    workers: &mut W,
) -> Result<RoundEnd, RunStop>
    requires sound { IsSound state.old }
    requires level { packs.old.frames ≡ length state.old.frames.owners }
    requires few { length starters.now ≤ 64 }
    requires ready { starters.now ≡ ready_in state.old.table.threads }
    requires limit { state.old.round ≤ 1000000 }
    requires told { HasNoEnd (B.state border.old).shim.told }
    ensures plays { PlaysRound quantum (λ w. begun packs.old.scheme w)
        (λ w answers. phase_work packs.old.scheme w) result
        state.old (B.state border.old) state.new (B.state border.new)
        (W.tally workers.old) (W.tally workers.new) }
    ensures packs { packs.new ≡ packs.old }
    ensures keeps { KeepsRound result state.old state.new }
    ensures follows { B.follows border.old border.new }
    ensures fixed { W.fixed workers.new ≡ W.fixed workers.old }
{
    if state.table.live_threads() == 0 {
        return Ok(RoundEnd::Done);
    }
    if starters.is_empty() {
        return Ok(RoundEnd::Stalled);
    }
    set_budgets(state, starters, quantum);
    packs.run(state, starters, workers);
    finish_round(state, starters, border)
}

/// One round over the state under a quantum, its starters gathered into `starters`.
///
/// After an `Err` nothing is said of the state but that the round isn't counted.
pub(crate) fn play_round<B: Border, W: Workers>(
    state: &mut State,
    starters: &mut Vec<u32>,
    packs: &mut Packs,
    quantum: u32,
    border: &mut B,
    workers: &mut W,
) -> Result<RoundEnd, RunStop>
    requires sound { IsSound state.old }
    requires level { packs.old.frames ≡ length state.old.frames.owners }
    requires room { 64 ≤ vec_capacity starters.old }
    requires limit { state.old.round ≤ 1000000 }
    requires told { HasNoEnd (B.state border.old).shim.told }
    ensures plays { PlaysRound quantum (λ w. round_of packs.old.scheme w)
        (λ w answers. begun_work packs.old.scheme w answers) result
        state.old (B.state border.old) state.new (B.state border.new)
        (W.tally workers.old) (W.tally workers.new) }
    ensures starters { OnOk result
        (AreStarters state.old (B.state border.old).shim.told (B.state border.new).shim.told
        starters.old.items starters.new.items) }
    ensures room { 64 ≤ vec_capacity starters.new }
    ensures packs { packs.new ≡ packs.old }
    ensures keeps { KeepsRound result state.old state.new }
    ensures follows { B.follows border.old border.new }
    ensures fixed { W.fixed workers.new ≡ W.fixed workers.old }
{
    if state.table.live_threads() == 0 {
        return Ok(RoundEnd::Done);
    }
    match open_round(state, starters, border) {
        Ok(()) => play_begun(state, starters.as_slice(), packs, quantum, border, workers),
        Err(stop) => Err(stop),
    }
}
