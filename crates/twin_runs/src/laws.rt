//! Laws of two runs of which one has told a front of what the other has. The functions do nothing;
//! their contracts are the laws.
ghost use Rattle.twin_runs.specs.Laws.{WholeRunsAreOne, AsksNextOfWhole, NoEndBeforeAQuestion};
ghost use Rattle.twin_runs.specs.Laws.{QuestionsAreNext};

/// Where both came to their end, both were told the same, and the same is seen of them.
pub fn whole_runs_are_one()
    ensures { WholeRunsAreOne }
{}

/// Where the one came to its end and the other to a question, what the one was told next answers
/// that question; where the one came to a question, the other hasn't come to its end; and where
/// both came to a question, either it is the same one, and so are the bytes that were sent, or what
/// the one was told next answers the other's.
pub fn questions_are_next()
    ensures whole { AsksNextOfWhole }
    ensures no_end { NoEndBeforeAQuestion }
    ensures both { QuestionsAreNext }
{}
