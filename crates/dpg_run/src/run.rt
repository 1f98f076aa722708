// A whole run.
ghost use Rattle.std.specs.Prelude.{ℕ, ◌≡◌, ◌≢◌, ◌≤◌, ◌<◌, ◌+◌, ◌-◌, ◌==◌, ◌++◌, List, length};
ghost use Rattle.std.specs.Prelude.{false, if◌then◌else◌, is_err, is_some, MatchBool};
ghost use Rattle.std.specs.Prelude.{Ok, Err, IfOk, IfErr, OnErr, OnOk, OnSome};
ghost use Rattle.dos_world.specs.Numbered.{numbers_of};
ghost use Rattle.dos_io.specs.Shims.{HasNoEnd};
ghost use Rattle.kernel_calls.specs.StateWorld.{shim_stop, world_of};
ghost use Rattle.worker_pool.specs.Ran.{GrewBy};
ghost use Rattle.group_rounds.specs.Rounds.{answers_since, next_round};
ghost use Rattle.group_rounds.specs.StatePlays.{telling};
ghost use Rattle.group_rounds.specs.Outside.{HaveCauses};
ghost use Rattle.dos_io.specs.Borders.{BorderState};
ghost use Rattle.dos_io.specs.declared.exchange.Exchange.{Exchange};
ghost use Rattle.dos_world.specs.declared.Config.{Config};
ghost use Rattle.kernel_calls.specs.declared.state.State.{State};
ghost use Rattle.dpg_run.specs.GroupRuns.{AreEnded, CutGroup, IsCountedIn, PlaysNext, PlaysRounds};
ghost use Rattle.dpg_run.specs.GroupRuns.{PlaysSome, RanGroup, RunsGroup, StoppedGroup, end_by};
ghost use Rattle.dpg_run.specs.GroupRuns.{ending_by, has_failed, limited_by};
ghost use Rattle.dpg_run.specs.Reaching.{HasRunOn};
ghost use Rattle.dpg_run.specs.Work.{work_from};
ghost use Rattle.group_rounds.specs.Kernels.{IsBetweenRounds};

use dos_io::{Border, GroupBorder, Shim, Sink};
use dos_world::Ending;
use group_rounds::{Kernel, RoundEnd, run_round};
use kernel_calls::{RunStop, run_stop};
use worker_pool::Workers;

/// How a run ends where no round is left.
pub fn limit_ending(kernel: &Kernel) -> Ending
    ensures ending { result
        ≡ (if length (numbers_of is_some kernel.now.state.table.threads) == 0 then
        Ending.Done else Ending.Limit) }
    ensures sound { kernel.now.failed ≡ false → IsBetweenRounds kernel.now.state kernel.now.config }
{
    if kernel.state().table.live_threads() == 0 {
        Ending::Done
    } else {
        Ending::Limit
    }
}

// how a run ends with a round that ended so, if it does
fn ending_after(end: RoundEnd) -> Option<Ending>
    ensures { result ≡ ending_by end }
{
    match end {
        RoundEnd::Went => None,
        RoundEnd::Done => Some(Ending::Done),
        RoundEnd::Stalled => Some(Ending::Stalled),
    }
}

/// Runs one round, of those that the configuration leaves, and answers how the run ends with it, if
/// it does. After an `Err` the kernel has failed.
pub fn run_next<B: Border, W: Workers>(
    kernel: &mut Kernel,
    border: &mut B,
    workers: &mut W,
) -> Result<Option<Ending>, RunStop>
    requires running { kernel.old.failed ≡ false }
    requires limit { kernel.old.state.round ≤ kernel.old.config.rounds }
    requires told { HasNoEnd (B.state border.old).shim.told }
    ensures plays { PlaysNext kernel.old.config result
        kernel.old.state (B.state border.old) kernel.new.state (B.state border.new) }
    ensures some { PlaysSome kernel.old.config result
        kernel.old.state (B.state border.old) kernel.new.state (B.state border.new)
        (W.tally workers.old) (W.tally workers.new) }
    // so it does under any limit that leaves this round
    ensures limited { (limit : ℕ) → kernel.old.state.round ≤ limit
        → PlaysSome (record kernel.old.config { rounds = limit }) result
        kernel.old.state (B.state border.old) kernel.new.state (B.state border.new)
        (W.tally workers.old) (W.tally workers.new) }
    ensures round { IfOk result
        (λ ended. kernel.new.state.round ≡ next_round (end_by ended) kernel.old.state.round) }
    ensures uncounted { OnErr result (kernel.new.state.round ≡ kernel.old.state.round) }
    ensures marked { kernel.new.state.frames.marked ≡ kernel.old.state.frames.marked }
    ensures told { OnOk result (HasNoEnd (B.state border.new).shim.told) }
    ensures sound { kernel.new.failed ≡ false → IsBetweenRounds kernel.new.state kernel.new.config }
    ensures config { kernel.new.config ≡ kernel.old.config }
    ensures failed { kernel.new.failed ≡ is_err result }
    ensures follows { B.follows border.old border.new }
    ensures fixed { W.fixed workers.new ≡ W.fixed workers.old }
{
    let _state = kernel.state();
    match run_round(kernel, border, workers) {
        Ok(end) => Ok(ending_after(end)),
        Err(stop) => Err(stop),
    }
}

// whether the configuration leaves no round
fn is_over(kernel: &Kernel) -> bool
    ensures { MatchBool result (kernel.now.config.rounds ≤ kernel.now.state.round - 1)
        (kernel.now.state.round - 1 < kernel.now.config.rounds) }
{
    kernel.rounds() >= kernel.config().rounds
}

/// Runs so many rounds, or fewer where the run ends before that: then it answers how, and else
/// None. After an `Err` the kernel has failed.
pub fn run_some<B: Border, W: Workers>(
    kernel: &mut Kernel,
    border: &mut B,
    workers: &mut W,
    rounds: u32,
) -> Result<Option<Ending>, RunStop>
    requires running { kernel.old.failed ≡ false }
    requires told { HasNoEnd (B.state border.old).shim.told }
    ensures some { PlaysSome kernel.old.config result
        kernel.old.state (B.state border.old) kernel.new.state (B.state border.new)
        (W.tally workers.old) (W.tally workers.new) }
    // so it does under a limit of these rounds
    ensures limited { PlaysSome
        (limited_by (kernel.old.state.round - 1 + rounds) kernel.old.config) result
        kernel.old.state (B.state border.old) kernel.new.state (B.state border.new)
        (W.tally workers.old) (W.tally workers.new) }
    ensures counted { IfOk result
        (λ ended. IsCountedIn ended rounds kernel.old.state.round kernel.new.state.round) }
    ensures on { IfOk result (λ ended. HasRunOn ended kernel.old.config rounds
        kernel.old.state (B.state border.old) kernel.new.state (B.state border.new)) }
    ensures marked { kernel.new.state.frames.marked ≡ kernel.old.state.frames.marked }
    ensures told { OnOk result (HasNoEnd (B.state border.new).shim.told) }
    ensures sound { kernel.new.failed ≡ false → IsBetweenRounds kernel.new.state kernel.new.config }
    ensures config { kernel.new.config ≡ kernel.old.config }
    ensures failed { kernel.new.failed ≡ is_err result }
    ensures follows { B.follows border.old border.new }
    ensures fixed { W.fixed workers.new ≡ W.fixed workers.old }
{
    let _state = kernel.state();
    for _round in 0..rounds {
        if is_over(kernel) {
            return Ok(Some(limit_ending(kernel)));
        }
        if let Some(ending) = run_next(kernel, border, workers)? {
            return Ok(Some(ending));
        }
    }
    Ok(None)
}

/// Tells the shim the end of a run whose rounds have ended so.
pub fn tell_end<B: Border>(
    kernel: &Kernel,
    border: &mut B,
    ending: Ending,
) -> Result<Ending, RunStop>
    requires { HasNoEnd (B.state border.old).shim.told }
    // from wherever the rounds began
    ensures runs { (config : Config) (old : State) (before : BorderState) (tally tally_after : ℕ)
        → kernel.now.failed ≡ false
        → PlaysRounds config (Ok ending) old before kernel.now.state (B.state border.old) tally
        tally_after
        → RunsGroup config result old before kernel.now.state (B.state border.new)
        kernel.now.failed tally tally_after }
    ensures more { (exchanges : List Exchange)
        × ((B.state border.new).shim.told ≡ (B.state border.old).shim.told ++ exchanges) }
    ensures follows { B.follows border.old border.new }
{
    match border.end(ending, kernel.rounds()) {
        Ok(()) => Ok(ending),
        Err(stop) => Err(run_stop(stop)),
    }
}

// as many rounds as the configuration leaves, and the shim is told the end
fn run_over<B: Border, W: Workers>(
    kernel: &mut Kernel,
    border: &mut B,
    workers: &mut W,
) -> Result<Ending, RunStop>
    requires running { kernel.old.failed ≡ false }
    requires told { HasNoEnd (B.state border.old).shim.told }
    ensures runs { RunsGroup kernel.old.config result
        kernel.old.state (B.state border.old) kernel.new.state (B.state border.new)
        kernel.new.failed (W.tally workers.old) (W.tally workers.new) }
    ensures sound { kernel.new.failed ≡ false → IsBetweenRounds kernel.new.state kernel.new.config }
    ensures limit { OnOk result (kernel.new.state.round - 1 ≤ kernel.old.config.rounds) }
    ensures config { kernel.new.config ≡ kernel.old.config }
    ensures follows { B.follows border.old border.new }
    ensures fixed { W.fixed workers.new ≡ W.fixed workers.old }
{
    let _state = kernel.state();
    let rounds = kernel.config().rounds;
    match run_some(kernel, border, workers, rounds) {
        Ok(Some(ending)) => tell_end(kernel, border, ending),
        Ok(None) => {
            let ending = limit_ending(kernel);
            tell_end(kernel, border, ending)
        }
        Err(stop) => Err(stop),
    }
}

/// Runs a group to its end, from wherever it stands between two rounds, and tells the shim the end.
/// The workers' tally grows by the run's work, the instructions of all parallel phases, and where
/// the run stops by those of the rounds until then, the stopped one's with them.
///
/// After a stop at the end the kernel hasn't failed; after any other it has, and nothing more is
/// said of it. After any stop each sink holds a front of what the machine sends to it; after the
/// shim's, all that it has sent by then.
pub fn run_group<S: Shim, O: Sink, E: Sink, W: Workers>(
    kernel: &mut Kernel,
    shim: &mut S,
    out: &mut O,
    err: &mut E,
    workers: &mut W,
) -> Result<Ending, RunStop>
    requires running { kernel.old.failed ≡ false }
    requires told { HasNoEnd (S.state shim.old).told }
    ensures runs { IfOk result
        (λ ending. (work : ℕ) × RanGroup kernel.old.config kernel.old.state
        (telling (S.state shim.old).told (O.told out.old) (E.told err.old)) ending
        kernel.new.state
        (telling (S.state shim.new).told (O.told out.new) (E.told err.new)) work
        × GrewBy (W.tally workers.old) (W.tally workers.new) work) }
    ensures sound { kernel.new.failed ≡ false → IsBetweenRounds kernel.new.state kernel.new.config }
    ensures limit { OnOk result (kernel.new.state.round - 1 ≤ kernel.old.config.rounds) }
    ensures asks { IfErr result
        (λ stop. OnSome (shim_stop stop)
        (StoppedGroup kernel.old.config kernel.old.state
        (telling (S.state shim.old).told (O.told out.old) (E.told err.old))
        (telling (S.state shim.new).told (O.told out.new) (E.told err.new))
        (S.state shim.new).asked)) }
    ensures cut { OnErr result
        (CutGroup kernel.old.config kernel.old.state
        (telling (S.state shim.old).told (O.told out.old) (E.told err.old))
        (telling (S.state shim.new).told (O.told out.new) (E.told err.new))) }
    ensures grew { OnErr result (GrewBy (W.tally workers.old) (W.tally workers.new)
        (work_from (world_of kernel.old.config.quantum kernel.old.state) kernel.old.config
        (answers_since (S.state shim.old).told (S.state shim.new).told))) }
    ensures told_end { IfOk result
        (λ ending. AreEnded ending (kernel.new.state.round - 1) (S.state shim.new).told) }
    ensures config { kernel.new.config ≡ kernel.old.config }
    ensures failed { kernel.new.failed ≡ has_failed result (S.state shim.new).asked }
    ensures causes { HaveCauses result (S.state shim.old) (S.state shim.new) (O.faults out.old)
        (O.faults out.new) (E.faults err.old) (E.faults err.new) }
    ensures out_steady { result ≢ Err RunStop.OutFault → O.faults out.new ≡ O.faults out.old }
    ensures err_steady { result ≢ Err RunStop.ErrFault → E.faults err.new ≡ E.faults err.old }
    ensures follows { S.follows shim.old shim.new }
    ensures fixed { W.fixed workers.new ≡ W.fixed workers.old }
{
    let mut border = GroupBorder { shim, out, err };
    run_over(kernel, &mut border, workers)
}
