//! What is asked.
ghost use Rattle.std.specs.Prelude.{◌≤◌, ◌<◌};

use crate::questions::{ANSWER, Question};
use dos_io::ClockRule;

/// What is asked, and how it is answered.
#[derive(Clone, Copy)]
pub enum Kind {
    /// Signals of a round that has no posts, the same again and again, so that none goes on with
    /// the one before it.
    Signals,
    /// Signals of one round behind the other, none of which has posts.
    Rounds,
    /// An input of 64 bytes.
    Input,
    /// An input of 4096 bytes, the most that there may be.
    Page,
    /// A reading of the host's clock.
    HostClock,
    /// A reading of a counted clock.
    CountedClock,
}

impl Kind {
    /// The question.
    pub fn question(self) -> Question {
        match self {
            Kind::Signals => Question::Signals,
            Kind::Rounds => Question::Rounds,
            Kind::Input | Kind::Page => Question::Input,
            Kind::HostClock | Kind::CountedClock => Question::Clock,
        }
    }

    /// The rule of the clock. A counted one stands still, so that each reading is the same.
    pub fn rule(self) -> ClockRule {
        match self {
            Kind::CountedClock => ClockRule::Counted {
                from: u64::from(ANSWER),
                step: 0,
            },
            _ => ClockRule::FromHost,
        }
    }

    /// The bytes of the buffer that an input is read into; the other kinds don't use it.
    pub fn len(self) -> usize
        ensures some { 0 < result }
        ensures few { result ≤ 4096 }
    {
        match self {
            Kind::Page => 4096,
            _ => 64,
        }
    }

    /// The bytes of input and the readings that so many questions take from the host.
    pub fn takes(self, count: u32) -> (usize, usize) {
        let count = count as usize;
        match self {
            Kind::Input | Kind::Page => (self.len() * count, 0),
            Kind::HostClock => (0, count),
            Kind::Signals | Kind::Rounds | Kind::CountedClock => (0, 0),
        }
    }
}
