// A shim that answers out of a log.
ghost use Rattle.std.specs.Prelude.{◌≡◌, ◌≤◌, ◌<◌, ◌+◌, length, drop, [], ◌∷◌, slice_get, Some};
ghost use Rattle.std.specs.Prelude.{None, IfErr, IfOk};
ghost use Rattle.dos_io.specs.Exchanges.{question_of};
ghost use Rattle.dos_io.specs.Posts.{ArePosts};
ghost use Rattle.dos_io.specs.Shims.{HasNoEnd};
ghost use Rattle.dos_io.specs.declared.exchange.Exchange.TheVariants as Exchange;
ghost use Rattle.log_text.specs.LogText.{exchanges, exchanges_from};
ghost use Rattle.log_text.specs.Ranges.{InRange};
ghost use Rattle.log_text.specs.Views.{posts_in_text, exchange_of};
ghost use Rattle.log_text.specs.Places.{StandsAt};
ghost use Rattle.shim_log.specs.Replay.{IsReplay, IsMisfitOf};
ghost use Rattle.shim_log.specs.Replay.{entries_used, replay_stopped, replay_advanced};
ghost use Rattle.shim_log.specs.Replay.{replayer_state};

use dos_io::{Shim, ShimStop, SignalList};
use dos_world::{Ending, Misfit, Question};
use log_text::{Entry, Log, exchange_at, fill, place_behind};
use std::marker::Model;

/// Answers each question by the next entry of a log, and stops where that entry is of another
/// question. It goes through a stretch of rounds without a signal in place, and takes no memory.
#[derive(Drop)]
pub struct Replayer {
    log: Log,
    start: u32,
    place: usize,
    within: u32,
    answered: u32,
    stops: u64,
    last: Option<ShimStop>,
    asked: Option<Question>,
}

impl Model for Replayer {
    ghost use Rattle.log_text.specs.Places.{StandsAt};
    ghost use Rattle.shim_log.specs.Replay.{ReplayState, IsReplay};
    ghost use Rattle.std.specs.Prelude.{◌+◌};

    ghost Value = { ReplayState };

    ghost view = { λ s. record {
      log = s.log;
      start = s.start;
      answered = s.answered;
      stops = s.stops;
      last = s.last;
      asked = s.asked;
    } };

    ghost invariant = { λ s. IsReplay (record {
      log = s.log;
      start = s.start;
      answered = s.answered;
      stops = s.stops;
      last = s.last;
      asked = s.asked;
    })
        × StandsAt s.log (s.answered + s.start) s.place s.within };
}

impl Replayer {
    /// A replayer that was asked nothing yet.
    pub fn new(log: Log) -> Replayer
        ensures { result ≡ record {
          log = log;
          start = 0;
          answered = 0;
          stops = 0;
          last = None;
          asked =
              None;
        } }
    {
        Replayer::resume(log, 0)
    }

    /// A replayer that was asked nothing yet, and answers from behind so many exchanges of the log
    /// on. It takes a time that grows with these.
    pub fn resume(log: Log, used: u32) -> Replayer
        requires { used < length (exchanges log) }
        ensures { result ≡ record {
          log = log;
          start = used;
          answered = 0;
          stops = 0;
          last = None;
          asked =
              None;
        } }
    {
        let (place, within) = place_behind(&log, used);
        Replayer {
            log,
            start: used,
            place,
            within,
            answered: 0,
            stops: 0,
            last: None,
            asked: None,
        }
    }

    /// Answers from its start on again, as if it was asked nothing yet.
    pub fn restart(&mut self)
        ensures { self.new ≡ record self.old {
          answered = 0;
          stops = 0;
          last = None;
          asked = None;
        } }
    {
        let _len = self.log.len();
        let (place, within) = place_behind(&self.log, self.start);
        self.place = place;
        self.within = within;
        self.answered = 0;
        self.stops = 0;
        self.last = None;
        self.asked = None;
    }

    /// How many of the log's exchanges are used up: those in front of its start, and those by which
    /// it answered.
    pub fn used(&self) -> u32
        ensures { result ≡ entries_used self.now }
    {
        let _len = self.log.len();
        self.answered + self.start
    }

    /// What it kept all along: where its last call stopped, it stopped by the misfit of the next
    /// entry and the question that was asked, which differ.
    pub fn look(&self)
        ensures { IsReplay self.now }
    {
        let _answered = self.answered;
    }

    // The next exchange, and where the one behind it stands: the place of its entry in the text,
    // and how many of that entry's rounds are in front of it.
    fn next(&self) -> (Entry<'_>, usize, u32)
        requires { HasNoEnd (replayer_state self.now).told }
        ensures more { entries_used self.now ≤ length self.now.log.entries }
        ensures entry { slice_get (exchanges_from self.now.start self.now.log) self.now.answered
            ≡ Some (exchange_of result.0) }
        ensures fits { InRange (exchange_of result.0) }
        ensures behind { StandsAt self.now.log (entries_used self.now + 1) result.1 result.2 }
    {
        let used = self.used();
        exchange_at(&self.log, used, self.place, self.within)
    }

    // The next exchange, which is of this question, and where the one behind it stands; or the
    // misfit.
    fn fit(&self, asked: Question) -> Result<(Entry<'_>, usize, u32), Misfit>
        requires { HasNoEnd (replayer_state self.now).told }
        ensures more { IfOk result (λ _. entries_used self.now ≤ length self.now.log.entries) }
        ensures entry { IfOk result
            (λ x. slice_get (exchanges_from self.now.start self.now.log) self.now.answered
            ≡ Some (exchange_of x.0)) }
        ensures asked { IfOk result (λ x. question_of (exchange_of x.0) ≡ asked) }
        ensures fits { IfOk result (λ x. InRange (exchange_of x.0)) }
        ensures behind { IfOk result
            (λ x. StandsAt self.now.log (entries_used self.now + 1) x.1 x.2) }
        ensures misfit { IfErr result
            (λ misfit. IsMisfitOf self.now asked (ShimStop.Misfit misfit)) }
        ensures question { IfErr result (λ misfit. misfit.asked ≡ asked) }
    {
        let (entry, place, within) = self.next();
        let kept = entry.question();
        if kept == asked {
            return Ok((entry, place, within));
        }
        Err(Misfit {
            entry: self.used(),
            kept,
            asked,
        })
    }

    // Stops by this misfit.
    fn stop(&mut self, misfit: Misfit) -> ShimStop
        requires { IsMisfitOf self.old misfit.asked (ShimStop.Misfit misfit) }
        ensures stop { result ≡ ShimStop.Misfit misfit }
        ensures after { self.new ≡ replay_stopped self.old misfit.asked result }
    {
        let stop = ShimStop::Misfit(misfit);
        self.stops = self.stops.saturating_add(1);
        self.last = Some(stop);
        self.asked = Some(misfit.asked);
        stop
    }

    // Goes on behind the next exchange.
    fn advance(&mut self, place: usize, within: u32)
        requires more { entries_used self.old ≤ length self.old.log.entries }
        requires behind { StandsAt self.old.log (entries_used self.old + 1) place within }
        ensures { self.new ≡ replay_advanced self.old }
    {
        let _len = self.log.len();
        self.place = place;
        self.within = within;
        self.answered += 1;
        self.asked = None;
    }
}

impl Shim for Replayer {
    ghost use Rattle.shim_log.specs.Replay.{FollowsLog};
    ghost use Rattle.shim_log.specs.ReplayerFollows.{log_itself, log_on};

    ghost state = { replayer_state };

    ghost follows = { λ s t. FollowsLog s t };

    fn signals(&mut self, round: u32, list: &mut SignalList) -> Result<(), ShimStop> {
        match self.fit(Question::Signals { round }) {
            Ok((entry, place, within)) => {
                match entry {
                    Entry::Signals { posts, .. } => fill(list, posts),
                    _ => unreachable!(),
                }
                self.advance(place, within);
                Ok(())
            }
            Err(misfit) => Err(self.stop(misfit)),
        }
    }

    fn input(&mut self, round: u32, tid: u32, buf: &mut [u8]) -> Result<usize, ShimStop> {
        match self.fit(Question::Input {
            round,
            tid,
            max: buf.len() as u32,
        }) {
            Ok((entry, place, within)) => {
                let count = match entry {
                    Entry::Input { bytes, .. } => {
                        buf[..bytes.len()].copy_from_slice(bytes);
                        bytes.len()
                    }
                    _ => unreachable!(),
                };
                self.advance(place, within);
                Ok(count)
            }
            Err(misfit) => Err(self.stop(misfit)),
        }
    }

    fn clock(&mut self, round: u32, tid: u32) -> Result<u64, ShimStop> {
        match self.fit(Question::Clock { round, tid }) {
            Ok((entry, place, within)) => {
                let reading = match entry {
                    Entry::Clock { reading, .. } => reading,
                    _ => unreachable!(),
                };
                self.advance(place, within);
                Ok(reading)
            }
            Err(misfit) => Err(self.stop(misfit)),
        }
    }

    fn end(&mut self, ending: Ending, rounds: u32) -> Result<(), ShimStop> {
        match self.fit(Question::End { ending, rounds }) {
            Ok((_, place, within)) => {
                self.advance(place, within);
                Ok(())
            }
            Err(misfit) => Err(self.stop(misfit)),
        }
    }

    ghost reflexive = { log_itself };

    ghost transitive = { log_on };
}
