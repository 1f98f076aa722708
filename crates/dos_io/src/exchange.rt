// What crosses the border of a group: a question, and the answer that came.
ghost use Rattle.std.specs.Prelude.{◌≡◌};
ghost use Rattle.dos_io.specs.Exchanges.{question_of};

use crate::signal_list::SignalList;
use dos_world::{Ending, Question};
use std::marker::Model;

/// The bytes of an input. Contracts see them as a list.
#[derive(Drop)]
pub struct Piece {
    bytes: Vec<u8>,
}

impl Model for Piece {
    ghost use Rattle.std.specs.Prelude.{List, ℕ};

    ghost Value = { List ℕ };

    ghost view = { λ piece. piece.bytes.items };
}

impl Piece {
    /// The piece of these bytes.
    pub fn of(bytes: Vec<u8>) -> Piece
        ensures { result ≡ bytes.items }
    {
        Piece { bytes }
    }

    /// Its bytes.
    pub fn bytes(&self) -> &[u8]
        ensures { result.now ≡ self.now }
    {
        self.bytes.as_slice()
    }
}

/// A question of a group and its answer, as a log keeps them.
#[derive(Drop)]
pub enum Exchange {
    /// The signals of a round, asked at its start.
    Signals {
        /// The round, from 1.
        round: u32,
        /// The posts, in their order.
        list: SignalList,
    },
    /// A thread's read.
    Input {
        /// The round, from 1.
        round: u32,
        /// The thread that reads.
        tid: u32,
        /// How many bytes were asked for: 1 to 4096.
        max: u32,
        /// The bytes that came, at most `max`.
        bytes: Piece,
    },
    /// A thread's look at the clock.
    Clock {
        /// The round, from 1.
        round: u32,
        /// The thread that looks.
        tid: u32,
        /// What it saw.
        reading: u64,
    },
    /// The end of the run, which has no answer of its own.
    End {
        /// How the run ended.
        ending: Ending,
        /// How many rounds were run.
        rounds: u32,
    },
}

impl Exchange {
    /// What it answers.
    pub fn question(&self) -> Question
        ensures { result ≡ question_of self.now }
    {
        match self {
            Exchange::Signals { round, .. } => Question::Signals { round: *round },
            Exchange::Input {
                round,
                tid,
                max,
                ..
            } => Question::Input {
                round: *round,
                tid: *tid,
                max: *max,
            },
            Exchange::Clock { round, tid, .. } => Question::Clock {
                round: *round,
                tid: *tid,
            },
            Exchange::End { ending, rounds } => Question::End {
                ending: *ending,
                rounds: *rounds,
            },
        }
    }
}

/// Where the readings of a clock come from.
#[derive(Clone, Copy)]
pub enum ClockRule {
    /// Each reading is the host's.
    FromHost,
    /// Reading k, counted from 0, is `from + k * step` modulo 2^64, and the host isn't asked.
    Counted {
        /// The first reading.
        from: u64,
        /// What it goes on by.
        step: u64,
    },
}
