// A shim that nothing reaches.
ghost use Rattle.std.specs.Prelude.{◌≡◌, ◌++◌, ◌∷◌, [], None, Some, OnOk, IfErr, IfSome};
ghost use Rattle.dos_io.specs.Outside.{counted_to_limit};
ghost use Rattle.dos_io.specs.Quiet.{shown_by};

use crate::{Shim, ShimStop, SignalList};
use dos_world::{Ending, Question};
use std::alloc::Global;
use std::marker::Model;

/// Answers each question for signals by the empty list, for input by 0 bytes, and for the clock by
/// 0. It stops only for want of memory, where it can't keep what it was asked.
///
/// It keeps the questions, since these answers have no more in them.
#[derive(Drop)]
pub struct Quiet {
    questions: Vec<Question>,
    stops: u64,
    asked: Option<Question>,
}

impl Model for Quiet {
    ghost use Rattle.dos_io.specs.Quiet.{Quietness};

    ghost Value = { Quietness };

    ghost view = { λ q. record {
      questions = q.questions.items;
      stops = q.stops;
      asked =
          q.asked;
    } };
}

impl Quiet {
    /// A shim that was asked nothing yet, and keeps what it is asked in memory of `alloc`.
    pub fn new(alloc: Global) -> Quiet
        ensures questions { result ≡ record { questions = []; stops = 0; asked = None } }
        ensures state { ⟦<Quiet as Shim>⟧.state result ≡ record {
          told = [];
          stops = 0;
          last = None;
          asked = None;
        } }
    {
        Quiet {
            questions: Vec::new(alloc),
            stops: 0,
            asked: None,
        }
    }

    // Keeps a question as answered, where there is memory for it.
    fn keep(&mut self, question: Question) -> Result<(), ShimStop>
        ensures ok { OnOk result (self.new ≡ record self.old {
          questions = self.old.questions ++ question ∷ [];
          asked = None;
        }) }
        ensures err { IfErr result (λ stop. (stop ≡ ShimStop.Memory)
            × (self.new ≡ record self.old {
              stops = counted_to_limit self.old.stops;
              asked = Some question;
            })) }
    {
        if self.questions.push(question).is_err() {
            self.stops = self.stops.saturating_add(1);
            self.asked = Some(question);
            return Err(ShimStop::Memory);
        }
        self.asked = None;
        Ok(())
    }
}

impl Shim for Quiet {
    ghost use Rattle.dos_io.specs.Quiet.{shown_by, FollowsQuietly};
    ghost use Rattle.dos_io.specs.QuietLaws.{follows_itself, follows_on};

    ghost state = { shown_by };

    ghost follows = { λ s t. FollowsQuietly (shown_by s) (shown_by t) };

    fn signals(&mut self, round: u32, list: &mut SignalList) -> Result<(), ShimStop> {
        self.keep(Question::Signals { round })?;
        list.clear();
        Ok(())
    }

    fn input(&mut self, round: u32, tid: u32, buf: &mut [u8]) -> Result<usize, ShimStop> {
        let max = buf.len() as u32;
        self.keep(Question::Input { round, tid, max })?;
        Ok(0)
    }

    fn clock(&mut self, round: u32, tid: u32) -> Result<u64, ShimStop> {
        self.keep(Question::Clock { round, tid })?;
        Ok(0)
    }

    fn end(&mut self, ending: Ending, rounds: u32) -> Result<(), ShimStop> {
        self.keep(Question::End { ending, rounds })?;
        Ok(())
    }

    ghost reflexive = { λ s. follows_itself (shown_by s) };

    ghost transitive = { λ s t u p q. follows_on (shown_by s) (shown_by t) (shown_by u) p q };
}
