// Laws of the definitions, as contracts of functions that do nothing.
ghost use Rattle.flat_machine.specs.Laws.{PartsChangeTheirOwn, StepsAreOneOverTheWorld};
ghost use Rattle.flat_machine.specs.Laws.{StepsCommute, StepsGoOn, StepsKeep, StepsStay};
ghost use Rattle.flat_machine.specs.Laws.{StopsEndSteps, StopsStay};
ghost use Rattle.round_core.specs.Invariants.{IsInvariant, Keeps};
ghost use Rattle.round_core.specs.Laws.{OnlyReadAndClockAsk, QuantaCommute};
ghost use Rattle.round_core.specs.Laws.{RunsStaySame, ThreeGrantsAreEnough};

/// An instruction changes no owner of a frame, and no byte of a frame that isn't its thread's.
pub fn steps_keep()
    ensures { StepsKeep }
{}

/// A step of a thread that lives is one instruction over the flat world as its memory, and one of
/// its budget.
pub fn steps_are_one_over_the_world()
    ensures { StepsAreOneOverTheWorld }
{}

/// A thread that stops goes on to stop, for the same reason, after a step of another thread.
pub fn stops_stay()
    ensures { StopsStay }
{}

/// Instructions of two threads, of which neither stops, lead to the same world in either order.
pub fn steps_commute()
    ensures { StepsCommute }
{}

/// What a thread does is the same in worlds that it can't tell apart.
pub fn steps_stay()
    ensures { StepsStay }
{}

/// The parallel part of a thread changes at most its registers, its budget and the bytes of frames
/// that are its own.
pub fn parts_change_their_own()
    ensures { PartsChangeTheirOwn }
{}

/// After some instructions of a thread, none of which stopped, the rest of its part goes on from
/// there.
pub fn steps_go_on()
    ensures { StepsGoOn }
{}

/// A thread that stops runs no further in its part.
pub fn stops_end_steps()
    ensures { StopsEndSteps }
{}

/// No instruction needs more than three grants: after three it stops at no page.
pub fn three_grants_are_enough()
    ensures { ThreeGrantsAreEnough }
{}

/// In whatever full order the instructions of the ready threads come, they lead to the world of the
/// parallel phase.
pub fn quanta_commute()
    ensures { QuantaCommute }
{}

/// An invariant of the machine: what holds in each world of a round, over the answers of a
/// protocol.
pub trait Invariant {
    ghost use Rattle.round_core.specs.Protocol.{Protocol};
    ghost use Rattle.round_core.specs.Invariants.{Holds};

    /// What may be asked, and what may be answered.
    ghost protocol: { Protocol };

    /// What holds of a world and of the threads that still have a serial part in its round.
    ghost holds: { Holds };
}

/// What every change of a round keeps, the whole round keeps: where an instruction, a grant, each
/// service, the end of a process and the signal point keep an invariant, so do the parallel phase,
/// the serial phase and the round, also a round with another parallel phase that keeps it.
pub fn invariants_are_kept<I: Invariant>()
    requires { Keeps I.protocol I.holds }
    ensures { IsInvariant I.protocol I.holds }
{}

/// All of a round but its last step leaves the quantum and the count of rounds, in every world and
/// over all answers.
pub fn runs_stay_same()
    ensures { RunsStaySame }
{}

/// Only read and clock ask the shim: no other service does, nor a number without one.
pub fn only_read_and_clock_ask()
    ensures { OnlyReadAndClockAsk }
{}
