//! Laws of the definitions, as contracts of functions that do nothing.

ghost use Rattle.dpg_run.specs.QuietRuns.{QuietRunsAreOne};
ghost use Rattle.dpg_run.specs.Laws.{FitsHaveNoMisfit, GroupsEndLawful, MisfitsAreFirst, RunIsKept};
ghost use Rattle.dpg_run.specs.Laws.{RunOwes, RunsEndLawful, RunsJoin, RunsKeepTheirLimit};

/// An invariant of a run: for each count of rounds, what holds in each world of the next one.
pub trait RunInvariant {
    ghost use Rattle.std.specs.Prelude.{ℕ};
    ghost use Rattle.round_core.specs.Protocol.{Protocol};
    ghost use Rattle.round_core.specs.Invariants.{Holds};

    /// What may be asked, and what may be answered.
    ghost protocol: { Protocol };

    /// How many rounds there may be.
    ghost limit: { ℕ };

    /// What holds after so many rounds.
    ghost holds: { ℕ → Holds };
}

/// What every change of a round, the buffered phase and the count of rounds keep, a run of either
/// scheme keeps.
pub fn run_invariants_are_kept<I: RunInvariant>()
    requires { RunOwes I.protocol I.limit I.holds }
    ensures { RunIsKept I.protocol I.limit I.holds }
{}

/// As many rounds of either scheme as there may be lead from a lawful world to a lawful world, over
/// all answers that fit.
pub fn runs_end_lawful()
    ensures { RunsEndLawful }
{}

/// The run of 1 to 8 images of accepted files that fit the frames ends in a lawful world, in the
/// scheme of its configuration, over all answers that fit.
pub fn groups_end_lawful()
    ensures { GroupsEndLawful }
{}

/// A run has at most as many rounds as its configuration allows, in either scheme, whatever images
/// it runs and whatever the shim answers, signals too.
pub fn runs_keep_their_limit()
    ensures { RunsKeepTheirLimit }
{}

/// What is seen of a run that nothing reaches from outside is determined by the images and the
/// configuration, which names the scheme: one whose questions bring no signal, no byte of input and
/// a clock that stands at 0.
pub fn quiet_runs_are_one()
    ensures { QuietRunsAreOne }
{}

/// The misfit of a log is the first of its entries that is of another question than the run asks;
/// a log that fits has none.
pub fn misfits_are_first()
    ensures first { MisfitsAreFirst }
    ensures none { FitsHaveNoMisfit }
{}

/// A run as far as a round, and from there to its end in the same scheme, is the run.
pub fn runs_join()
    ensures { RunsJoin }
{}
