// Laws of the definitions, as contracts of functions that do nothing.
ghost use Rattle.quantum_run.specs.Shows.{Pack as pack_value, View as view_value};
ghost use Rattle.quantum_run.specs.Laws.{EndsAreUnderWay, PacksUnderWayAreAMix, PartsAreAMix};
ghost use Rattle.quantum_run.specs.Laws.{BufferedRunsAreParts, RunsAreEmptied, RunsAreParts};
ghost use Rattle.quantum_run.specs.Laws.{SlicesAddUp};

/// What `run_until_stop` runs over is the same after the reservation is emptied.
pub fn runs_are_emptied()
    ensures { RunsAreEmptied }
{}

/// What `run_until_stop` promises of a thread without a reservation is its parallel part.
pub fn runs_are_parts()
    ensures { RunsAreParts }
{}

/// What a run over a thread's own words says is its part in the buffered scheme.
pub fn buffered_runs_are_parts()
    ensures { BufferedRunsAreParts }
{}

/// Where some packs are finished and the others unbegun, they show a mix of instructions of the
/// finished ones' threads.
pub fn parts_are_a_mix()
    ensures { PartsAreAMix }
{}

/// A pack whose part has run for some instructions, and isn't at its end, shows what the
/// instructions of all threads lead to in whatever order names its thread so often. Finished packs
/// and packs that have only begun are cases of it.
pub fn packs_under_way_are_a_mix()
    ensures mix { PacksUnderWayAreAMix }
    ensures slices { SlicesAddUp }
    ensures ends { (p q : pack_value) (v : view_value) → EndsAreUnderWay p q v }
{}
