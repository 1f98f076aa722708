// A shim that asks a host, and keeps what it answered.
ghost use Rattle.std.specs.Prelude.{◌≡◌, ◌≤◌, ◌<◌, ℕ, List, [], length, None, IfOk, IfSome};
ghost use Rattle.dos_io.specs.Shims.{HasNoEnd};
ghost use Rattle.log_text.specs.LogText.{exchanges, logtext};
ghost use Rattle.log_text.specs.Ranges.{FitsHeader};
ghost use Rattle.shim_log.specs.Ledger.{LedgerState, IsLedger, ArePlanned, recorder_state};
ghost use Rattle.shim_log.specs.Ledger.{empty_ledger, RecorderFollows};

use crate::ledger::Ledger;
use dos_io::{ClockRule, Host, Shim, ShimStop, SignalList};
use dos_world::{Ending, Post, Question};
use log_text::{Log, LogHeader, LogVersion};
use std::alloc::{AllocError, Global};

// The bytes of an entry: of an input without its bytes, and of a reading.
const INPUT_BYTES: usize = 13;

const CLOCK_BYTES: usize = 17;

/// Answers signals by the posts of the words, input by its host, and the clock by the host or by
/// counting, and keeps each answer in a log of version 2. A round without a signal that follows
/// another is counted up in place.
///
/// The log's room is looked at and its memory is taken before the host is asked, so nothing that
/// the host gave is lost.
#[derive(Drop)]
pub struct Recorder<'h, H> {
    host: &'h mut H,
    ledger: Ledger,
}

impl<'h, H: Host> Shim for Recorder<'h, H> {
    ghost use Rattle.std.specs.Prelude.{◌≡◌};
    ghost use Rattle.std.proofs.Common.{rules, refl, ◌∙◌};
    ghost use Rattle.shim_log.specs.Ledger.{recorder_state, RecorderFollows};
    ghost use Rattle.shim_log.specs.RecorderFollows.{follows_itself, follows_on};
    ghost use Rattle.shim_log.specs.Asking.{RecorderAsks};
    ghost use Rattle.shim_log.specs.AskingLaws.{asks_nothing, asks_on};

    ghost state = { λ s. recorder_state s.ledger };

    ghost follows = { λ s t. (t.host.ghost_name ≡ s.host.ghost_name)
        × RecorderFollows s.ledger t.ledger (H.told s.host.now) (H.told t.host.now)
        (H.faults s.host.now) (H.faults t.host.now)
        × RecorderAsks s.ledger t.ledger (H.asked s.host.now) (H.asked t.host.now)
        (H.faults s.host.now) (H.faults t.host.now) };

    fn signals(&mut self, round: u32, list: &mut SignalList) -> Result<(), ShimStop> {
        self.ledger.posts_of(round, list);
        let bytes = self.ledger.signals_bytes(round, list);
        self.ledger.make_room(Question::Signals { round }, bytes)?;
        self.ledger.add_signals(round, list);
        Ok(())
    }

    fn input(&mut self, round: u32, tid: u32, buf: &mut [u8]) -> Result<usize, ShimStop> {
        let max = buf.len() as u16;
        let question = Question::Input {
            round,
            tid,
            max: u32::from(max),
        };
        self.ledger
            .make_room(question, INPUT_BYTES + usize::from(max))?;
        match self.host.input(buf) {
            Ok(count) => {
                self.ledger.add_input(round, tid, max, &buf[..count]);
                Ok(count)
            }
            Err(_) => Err(self.ledger.stop(question, ShimStop::HostFault)),
        }
    }

    fn clock(&mut self, round: u32, tid: u32) -> Result<u64, ShimStop> {
        let question = Question::Clock { round, tid };
        self.ledger.make_room(question, CLOCK_BYTES)?;
        match self.ledger.counted() {
            Some(reading) => {
                self.ledger.add_clock(round, tid, reading);
                Ok(reading)
            }
            None => match self.host.clock() {
                Ok(reading) => {
                    self.ledger.add_clock(round, tid, reading);
                    Ok(reading)
                }
                Err(_) => Err(self.ledger.stop(question, ShimStop::HostFault)),
            },
        }
    }

    fn end(&mut self, ending: Ending, rounds: u32) -> Result<(), ShimStop> {
        self.ledger.close(ending, rounds);
        Ok(())
    }

    ghost reflexive = { λ s. (
      refl,
      follows_itself s.ledger (H.told s.host.now) (H.faults s.host.now),
      asks_nothing s.ledger (H.asked s.host.now) (H.faults s.host.now),
    ) };

    ghost transitive = { λ s t u p q. (
      q.0 ∙ p.0,
      follows_on s.ledger t.ledger u.ledger (H.told s.host.now)
          (H.told t.host.now) (H.told u.host.now) (H.faults s.host.now) (H.faults t.host.now)
          (H.faults u.host.now) p.1 q.1,
      asks_on s.ledger t.ledger u.ledger (H.asked s.host.now) (H.asked t.host.now)
          (H.asked u.host.now) (H.faults s.host.now) (H.faults t.host.now)
          (H.faults u.host.now) p.2 q.2,
    ) };
}

impl<'h, H: Host> Recorder<'h, H> {
    /// A recorder over this host, which goes on in this ledger. It can't fail: what takes memory is
    /// `Ledger::new`, before the host is lent.
    pub fn of(host: &'h mut H, ledger: Ledger) -> Recorder<'h, H>
        ensures ledger { result.ledger ≡ ledger }
        ensures host { result.host.ghost_name ≡ host.entry.ghost_name }
        ensures value { result.host.now ≡ host.entry.now }
    {
        Recorder { host, ledger }
    }

    /// A recorder that was asked nothing yet: of its host, and of the ledger that `Ledger::new`
    /// makes of the rest.
    pub fn new(
        alloc: Global,
        host: &'h mut H,
        posts: &[(u32, Post)],
        clock: ClockRule,
        header: LogHeader,
    ) -> Result<Recorder<'h, H>, AllocError>
        requires few { length posts.now ≤ 32 }
        requires planned { ArePlanned posts.now }
        requires header { FitsHeader header }
        ensures ledger { IfOk result (λ shim. shim.ledger ≡ empty_ledger posts.now clock header
            shim.ledger.room) }
        ensures host { IfOk result (λ shim. shim.host.ghost_name ≡ host.entry.ghost_name) }
        ensures value { IfOk result (λ shim. shim.host.now ≡ host.entry.now) }
    {
        Ok(Recorder {
            host,
            ledger: Ledger::new(alloc, posts, clock, header)?,
        })
    }

    /// What it kept all along: the entries had room and are in their ranges, the log with its end
    /// is no longer than a log may be, and a stop is of the kinds that its question allows.
    pub fn look(&self)
        ensures { IsLedger self.now.ledger }
    {
        self.ledger.look();
    }

    /// The host, and the log, whose text is no longer than a log may be. The end must have been
    /// told.
    pub fn into_parts(self) -> (&'h mut H, Log)
        requires ended { HasNoEnd (recorder_state self.ledger).told → ⊥ }
        ensures same { result.0.ghost_name ≡ self.entry.host.ghost_name }
        ensures value { result.0.now ≡ self.entry.host.now }
        ensures version { result.1.version ≡ LogVersion.Two }
        ensures header { result.1.header ≡ self.entry.ledger.header }
        ensures log { exchanges result.1 ≡ (recorder_state self.entry.ledger).told }
        ensures small { length (logtext result.1) ≤ 67108864 }
    {
        let Recorder { host, ledger } = self;
        (host, ledger.into_log())
    }

    /// The host alone, where the run stopped.
    pub fn into_host(self) -> &'h mut H
        ensures same { result.ghost_name ≡ self.entry.host.ghost_name }
        ensures value { result.now ≡ self.entry.host.now }
    {
        let Recorder { host, .. } = self;
        host
    }
}
