// What a host was asked, for clauses alone.
ghost use Rattle.std.specs.Prelude.{◌≡◌, List, [], ◌∷◌, ◌++◌};
ghost use Rattle.std.specs.Borrow.{ftrue};
ghost use Rattle.dos_io.specs.declared.host_question.HostQuestion.{HostQuestion};

use crate::host_question::HostQuestion;
use std::marker::Model;

/// The questions to a host so far, in order. It takes no memory: only clauses read it.
#[derive(Drop)]
pub struct HostTrail {
    pub ghost questions: { List HostQuestion },
}

impl Model for HostTrail {
    ghost also_owns = { λ _. ftrue };
}

impl HostTrail {
    /// No questions.
    pub fn new() -> HostTrail
        ensures { result.questions ≡ [] }
    {
        HostTrail {}
    }

    /// The questions of the trail, and then one more.
    pub fn then(_before: &HostTrail, _question: &HostQuestion) -> HostTrail
        ensures { result.questions ≡ _before.now.questions ++ _question.now ∷ [] }
    {
        HostTrail {}
    }
}
