// An entry of a log, as it is read.
ghost use Rattle.std.specs.Prelude.{◌≡◌};
ghost use Rattle.dos_io.specs.Exchanges.{question_of};
ghost use Rattle.log_text.specs.Views.{exchange_of, ending_of};

use dos_world::{Ending, Question};

/// An entry as it is read: the bytes of its posts and of its input are those of the text.
#[derive(Drop)]
pub enum Entry<'a> {
    /// The signals of a round.
    Signals {
        /// The round.
        round: u32,
        /// The posts, in their order, as the text spells them.
        posts: &'a [u8],
    },
    /// A thread's read.
    Input {
        /// The round.
        round: u32,
        /// The thread that reads.
        tid: u32,
        /// How many bytes were asked for.
        max: u16,
        /// The bytes that came.
        bytes: &'a [u8],
    },
    /// A thread's look at the clock.
    Clock {
        /// The round.
        round: u32,
        /// The thread that looks.
        tid: u32,
        /// What it saw.
        reading: u64,
    },
    /// The end of the run.
    End {
        /// How the run ended.
        ending: Ending,
        /// How many rounds were run.
        rounds: u32,
    },
}

impl<'a> Entry<'a> {
    /// What it answers.
    pub fn question(&self) -> Question
        ensures { result ≡ question_of (exchange_of self.now) }
    {
        match self {
            Entry::Signals { round, .. } => Question::Signals { round: *round },
            Entry::Input {
                round,
                tid,
                max,
                ..
            } => Question::Input {
                round: *round,
                tid: *tid,
                max: u32::from(*max),
            },
            Entry::Clock { round, tid, .. } => Question::Clock {
                round: *round,
                tid: *tid,
            },
            Entry::End { ending, rounds } => Question::End {
                ending: *ending,
                rounds: *rounds,
            },
        }
    }

    /// How the run ended, and after how many rounds, where it is the end.
    pub(crate) fn end(&self) -> Option<(Ending, u32)>
        ensures { result ≡ ending_of (exchange_of self.now) }
    {
        match self {
            Entry::End { ending, rounds } => Some((*ending, *rounds)),
            Entry::Signals { .. } => None,
            Entry::Input { .. } => None,
            Entry::Clock { .. } => None,
        }
    }
}
