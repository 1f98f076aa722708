//! Laws of recorded and replayed runs, as contracts of functions that do nothing.
ghost use Rattle.logged_runs.specs.Laws.{FullRunsNeverEnd, RecordedRunsAreOne, RecordingsReplay};
ghost use Rattle.logged_runs.specs.Laws.{ReplaysJoin};

/// The log of a recorded run fits its images, and its replay in the scheme of that run shows what
/// the run showed.
pub fn recordings_replay()
    ensures { RecordingsReplay }
{}

/// Where the host tells, the plan and what the host tells determine the whole log of a run, and all
/// that is seen of it.
pub fn recorded_runs_are_one()
    ensures { RecordedRunsAreOne }
{}

/// A run that stopped since its log had no room can't be recorded whole, over a host that tells the
/// same before.
pub fn full_runs_never_end()
    ensures { FullRunsNeverEnd }
{}

/// A replay as far as a round, and from there by what is left of the log to its end or its misfit,
/// is the replay: it shows the same, once one has shown what the other shows behind it. So it is in
/// each scheme.
pub fn replays_join()
    ensures { ReplaysJoin }
{}
