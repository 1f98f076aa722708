// Laws of the definitions, as contracts of functions that do nothing.
ghost use Rattle.dos_laws.specs.Laws.{BufferedPhasesKeep, PartsAreInRange};
ghost use Rattle.dos_laws.specs.Laws.{PartsKeep};
ghost use Rattle.dos_laws.specs.Laws.{EntriesAreTaken, ForksKeep, LawfulnessIsKept};
ghost use Rattle.dos_laws.specs.Laws.{NewPagesAreZero};
ghost use Rattle.dos_laws.specs.Laws.{NoPageIsLeft};
ghost use Rattle.dos_laws.specs.Laws.{ParallelPhasesKeep, ProcessEndsKeep, RipeningKeeps};
ghost use Rattle.dos_laws.specs.Laws.{RoundsKeep, SerialPhasesKeep, ServicesKeep, SignalPointsKeep};
ghost use Rattle.dos_laws.specs.Laws.{StepsKeepLawful, ThreadEndsKeep, ThreadsHaveProcesses};

// ---- what holds in a lawful world

/// In a lawful world the process of a live thread lives.
pub fn threads_have_processes()
    ensures { ThreadsHaveProcesses }
{}

/// In a lawful world the frame of each entry of a live thread is there, and isn't Free.
pub fn entries_are_taken()
    ensures { EntriesAreTaken }
{}

/// In a lawful world with a free frame, a page that `map` gives is zero.
pub fn new_pages_are_zero()
    ensures { NewPagesAreZero }
{}

/// In a lawful world no instruction stops at a page after three grants.
pub fn no_page_is_left()
    ensures { NoPageIsLeft }
{}

/// In a lawful world a thread's part in the buffered scheme leaves registers in range, and words of
/// frames that aren't Free.
pub fn parts_are_in_range()
    ensures { PartsAreInRange }
{}

// ---- what leaves every lawful world lawful

/// Lawfulness is an invariant of the machine: all that a round does keeps it, over all answers
/// that fit.
pub fn lawfulness_is_kept()
    ensures { LawfulnessIsKept }
{}

/// An instruction leaves every lawful world lawful.
pub fn steps_keep()
    ensures { StepsKeepLawful }
{}

/// The parallel phase of either scheme leaves every lawful world lawful.
pub fn parallel_phases_keep()
    ensures { ParallelPhasesKeep }
{}

/// The end of a process leaves every lawful world lawful: with pipes, sleepers, signals, children
/// and a parent.
pub fn process_ends_keep()
    ensures { ProcessEndsKeep }
{}

/// The end of a thread that is ready leaves every lawful world lawful.
pub fn thread_ends_keep()
    ensures { ThreadEndsKeep }
{}

/// A fork of a ready caller that isn't refused leaves every lawful world lawful.
pub fn forks_keep()
    ensures { ForksKeep }
{}

/// What is served for a ready thread leaves every lawful world lawful, over all answers that
/// fit.
pub fn services_keep()
    ensures { ServicesKeep }
{}

/// The serial phase of ready threads, each once, leaves every lawful world lawful, over all answers
/// that fit.
pub fn serial_phases_keep()
    ensures { SerialPhasesKeep }
{}

/// The signal point leaves every lawful world lawful, where signals from 1 to 31 are posted.
pub fn signal_points_keep()
    ensures { SignalPointsKeep }
{}

/// The ripening of waiting threads leaves every lawful world lawful.
pub fn ripening_keeps()
    ensures { RipeningKeeps }
{}

/// A round of either scheme leaves every lawful world lawful, over all answers that fit, where
/// fewer than 1000000 rounds were run.
pub fn rounds_keep()
    ensures { RoundsKeep }
{}

// ---- what the buffered scheme puts in

/// A part with registers in range and words of frames that aren't Free, put in, leaves every lawful
/// world lawful.
pub fn parts_keep()
    ensures { PartsKeep }
{}

/// The parallel phase of the buffered scheme leaves every lawful world lawful, and those threads
/// ready that were.
pub fn buffered_phases_keep()
    ensures { BufferedPhasesKeep }
{}
