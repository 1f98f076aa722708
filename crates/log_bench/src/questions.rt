//! Questions to a shim whose end wasn't told. They don't tell it.
ghost use Rattle.std.specs.Prelude.{◌≡◌, ◌≤◌, ◌<◌, length};
ghost use Rattle.dos_io.specs.Shims.{HasNoEnd};

use dos_io::{Shim, SignalList};

/// Each byte of an input, and each reading of the clock.
pub const ANSWER: u8 = 7;

/// What is asked, always for thread 1 in round 1, but for the signals of one round behind the
/// other.
#[derive(Clone, Copy)]
pub enum Question {
    /// The signals of the round, of which none comes.
    Signals,
    /// The signals of the next round, of which none comes.
    Rounds,
    /// An input of as many bytes as the buffer has.
    Input,
    /// A reading of the clock.
    Clock,
}

/// The signals of a round are asked, and none comes.
fn signals<S: Shim>(shim: &mut S, round: u32, list: &mut SignalList) -> bool
    requires { HasNoEnd (S.state shim.old).told }
    ensures { HasNoEnd (S.state shim.new).told }
{
    let answered = shim.signals(round, list) == Ok(());
    answered & (list.len() == 0)
}

/// An input is asked, and fills the buffer.
fn input<S: Shim>(shim: &mut S, buf: &mut [u8]) -> bool
    requires told { HasNoEnd (S.state shim.old).told }
    requires some { 0 < length buf.old }
    requires few { length buf.old ≤ 4096 }
    ensures told { HasNoEnd (S.state shim.new).told }
    ensures len { length buf.new ≡ length buf.old }
{
    let len = buf.len();
    let answered = shim.input(1, 1, buf) == Ok(len);
    answered & (buf[0] == ANSWER)
}

/// A reading is asked, and comes.
fn clock<S: Shim>(shim: &mut S) -> bool
    requires { HasNoEnd (S.state shim.old).told }
    ensures { HasNoEnd (S.state shim.new).told }
{
    shim.clock(1, 1) == Ok(u64::from(ANSWER))
}

/// One question is asked, and the answer is the one that is wanted.
fn ask<S: Shim>(
    shim: &mut S,
    question: Question,
    round: u32,
    list: &mut SignalList,
    buf: &mut [u8],
) -> bool
    requires told { HasNoEnd (S.state shim.old).told }
    requires some { 0 < length buf.old }
    requires few { length buf.old ≤ 4096 }
    ensures told { HasNoEnd (S.state shim.new).told }
    ensures len { length buf.new ≡ length buf.old }
{
    match question {
        Question::Signals => signals(shim, 1, list),
        Question::Rounds => signals(shim, round, list),
        Question::Input => input(shim, buf),
        Question::Clock => clock(shim),
    }
}

/// How many of so many questions had the answer that is wanted.
pub fn ask_all<S: Shim>(shim: &mut S, question: Question, buf: &mut [u8], count: u32) -> u32
    requires told { HasNoEnd (S.state shim.old).told }
    requires some { 0 < length buf.old }
    requires few { length buf.old ≤ 4096 }
    ensures told { HasNoEnd (S.state shim.new).told }
{
    let mut list = SignalList::new();
    let mut answered = 0u32;
    for round in 0..count {
        if ask(shim, question, round, &mut list, buf) {
            answered = answered.saturating_add(1);
        }
    }
    answered
}
