// Laws of the definitions, as contracts of functions that do nothing.
ghost use Rattle.dos_world.specs.Laws.{MoreAnswersGoOn, OneThenAnother, TheLastQuestionIsAsked};
ghost use Rattle.dos_world.specs.Laws.{TestedIsLawful, RefusedCallsChangeRegistersAlone};
ghost use Rattle.dos_world.specs.Laws.{OnlyTheseAreRefused, UnknownServicesAreRefused};

/// More answers of the shim go on where the first ran out.
pub fn more_answers_go_on<A>()
    ensures { MoreAnswersGoOn A }
{}

/// First one thing and then another, over all answers, is the other from where the first was done.
pub fn one_then_another<A, B>()
    ensures { OneThenAnother A B }
{}

/// The question at which the answers run out is the last of the questions.
pub fn the_last_question_is_asked<A>()
    ensures { TheLastQuestionIsAsked A }
{}

/// A world that the test `is_lawful` passes is lawful.
pub fn tested_is_lawful()
    ensures { TestedIsLawful }
{}

/// A call that is refused, by whichever service, goes on with minus the error's number in a0 and
/// changes the registers of its thread and nothing else, but for what every call pays: one of the
/// budget, and the reservation. `refusals` is the table of what is refused and with which number.
/// Two rows differ: `futex_wait`'s 11 comes after its page has been granted, which makes one frame
/// Shared, and `sig_return`'s 22 leaves pc at the ecall.
pub fn refused_calls_change_registers_alone()
    ensures { RefusedCallsChangeRegistersAlone }
{}

/// In a lawful world a call for which `refusals` has no number isn't refused: what it comes to is
/// not what a refusal with an error's number, 1 to 63, would come to.
pub fn only_these_are_refused()
    ensures { OnlyTheseAreRefused }
{}

/// A service number that is 0 or over 24 is refused with 38.
pub fn unknown_services_are_refused()
    ensures { UnknownServicesAreRefused }
{}
