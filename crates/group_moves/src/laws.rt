// Laws of the definitions, as contracts of functions that do nothing.
ghost use Rattle.group_moves.specs.Laws.{HistoriesFoldToTheMachine, InstructionsCostOne};
ghost use Rattle.group_moves.specs.Laws.{PartsAreInstructions, PartsAreTheParallelPhase};
ghost use Rattle.group_moves.specs.Laws.{PlacesAreSettled, RestsAreTheSerialPhase, RestsAreTurns};
ghost use Rattle.group_moves.specs.Laws.{RoundsAreTheirMoves, RunsAreTheirMoves};
ghost use Rattle.group_moves.specs.Laws.{TurnsCostOne, WalksEndHistories, WalksGoOn};

// ---- moves

/// What happens without a move happens at once: nothing of it is left to happen.
pub fn places_are_settled()
    ensures { PlacesAreSettled }
{}

/// An instruction costs its thread one of its budget.
pub fn instructions_cost_one()
    ensures { InstructionsCostOne }
{}

/// A turn of the serial phase behind which the part goes on costs its thread one of its budget.
pub fn turns_cost_one()
    ensures { TurnsCostOne }
{}

// ---- the phases

/// The moves of a thread's part of the parallel phase are its instructions.
pub fn parts_are_instructions()
    ensures { PartsAreInstructions }
{}

/// The moves of the parallel phase are all its threads' parts, one after another.
pub fn parts_are_the_parallel_phase()
    ensures { PartsAreTheParallelPhase }
{}

/// The moves of a thread's part of the serial phase are its turns.
pub fn rests_are_turns()
    ensures { RestsAreTurns }
{}

/// The moves of the serial phase are that phase, over all answers.
pub fn rests_are_the_serial_phase()
    ensures { RestsAreTheSerialPhase }
{}

// ---- rounds and runs

/// Where a round begins next, its moves lead to where the machine's round does, over all answers.
pub fn rounds_are_their_moves()
    ensures { RoundsAreTheirMoves }
{}

/// The moves of a run in the ownership scheme are the machine's run, over all answers.
pub fn runs_are_their_moves()
    ensures { RunsAreTheirMoves }
{}

/// A walk leads to the last moment of the history of as many moves, or to the question that this
/// moment's move would ask.
pub fn walks_end_histories()
    ensures { WalksEndHistories }
{}

/// So many moves and then more are one walk.
pub fn walks_go_on()
    ensures { WalksGoOn }
{}

/// The history of images in the ownership scheme folds to the machine: behind some number of moves
/// no move is left where the machine ends, and the last moment's world is the one in which it has
/// ended; where it needs an answer that isn't there, the last moment's move would ask for it.
pub fn histories_fold_to_the_machine()
    ensures { HistoriesFoldToTheMachine }
{}
