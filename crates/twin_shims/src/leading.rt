// A shim that asks a host, and hands each exchange on.
ghost use Rattle.std.specs.Prelude.{◌≡◌, ◌≤◌, length, vec_len, vec_capacity};
ghost use Rattle.std.specs.Prelude.{IfSome};
ghost use Rattle.twin_shims.specs.Leader.{IsLeaderStop};
ghost use Rattle.twin_shims.specs.Notes.{exchanges_in, IsClosed};

use crate::pushed::Sent;
use crate::teller::Teller;
use dos_io::{Exchange, Host, Piece, Shim, ShimStop, SignalList};
use dos_world::{Ending, Question};
use std::alloc::Global;
use std::sync::Wait;

/// Answers signals by none, and input and the clock by its host, and pushes a note for each answer.
///
/// A note's memory is taken before the host is asked, so nothing that the host gave is lost.
#[derive(Drop)]
pub struct Leading<'a, 'h, R, H> {
    rt: &'a R,
    alloc: Global,
    host: &'h mut H,
    teller: Teller<'a>,
}

// The piece of these bytes, in room that was taken for them.
fn piece_in(mut room: Vec<u8>, bytes: &[u8]) -> Piece
    requires empty { vec_len room ≡ 0 }
    requires room { length bytes.now ≤ vec_capacity room }
    ensures { result ≡ bytes.now }
{
    if room.extend_from_slice(bytes).is_err() {
        unreachable!();
    }
    Piece::of(room)
}

impl<'a, 'h, R: Wait, H: Host> Shim for Leading<'a, 'h, R, H> {
    ghost use Rattle.std.specs.Prelude.{◌≡◌};
    ghost use Rattle.std.proofs.Common.{refl, ◌∙◌};
    ghost use Rattle.twin_shims.specs.Leader.{leader_state, FollowsLeader};
    ghost use Rattle.twin_shims.specs.LeaderLaws.{leads_itself, leads_on};

    ghost state = { λ s. leader_state s.teller };

    ghost follows = { λ s t. (t.host.ghost_name ≡ s.host.ghost_name)
        × FollowsLeader s.teller t.teller (H.told s.host.now) (H.told t.host.now)
        (H.faults s.host.now) (H.faults t.host.now) };

    fn signals(&mut self, round: u32, list: &mut SignalList) -> Result<(), ShimStop> {
        list.clear();
        let list = SignalList::new();
        self.teller.tell(self.rt, Exchange::Signals { round, list });
        Ok(())
    }

    fn input(&mut self, round: u32, tid: u32, buf: &mut [u8]) -> Result<usize, ShimStop> {
        let max = buf.len() as u32;
        let question = Question::Input { round, tid, max };
        let Ok(room) = Vec::with_capacity(self.alloc, buf.len()) else {
            return Err(self.teller.stop(question, ShimStop::Memory));
        };
        match self.host.input(buf) {
            Ok(count) => {
                let bytes = piece_in(room, &buf[..count]);
                self.teller.tell(
                    self.rt,
                    Exchange::Input {
                        round,
                        tid,
                        max,
                        bytes,
                    },
                );
                Ok(count)
            }
            Err(_) => Err(self.teller.stop(question, ShimStop::HostFault)),
        }
    }

    fn clock(&mut self, round: u32, tid: u32) -> Result<u64, ShimStop> {
        match self.host.clock() {
            Ok(reading) => {
                self.teller.tell(
                    self.rt,
                    Exchange::Clock {
                        round,
                        tid,
                        reading,
                    },
                );
                Ok(reading)
            }
            Err(_) => {
                let question = Question::Clock { round, tid };
                Err(self.teller.stop(question, ShimStop::HostFault))
            }
        }
    }

    fn end(&mut self, ending: Ending, rounds: u32) -> Result<(), ShimStop> {
        self.teller.tell(self.rt, Exchange::End { ending, rounds });
        Ok(())
    }

    ghost reflexive = { λ s. (
      refl,
      leads_itself s.teller (H.told s.host.now)
          (H.faults s.host.now),
    ) };

    ghost transitive = { λ s t u p q. (
      q.0 ∙ p.0,
      leads_on s.teller t.teller u.teller (H.told s.host.now) (H.told t.host.now)
          (H.told u.host.now) (H.faults s.host.now) (H.faults t.host.now) (H.faults u.host.now)
          p.1 q.1,
    ) };
}

impl<'a, 'h, R: Wait, H: Host> Leading<'a, 'h, R, H> {
    /// A leader over this host, which goes on with this teller, and takes memory of `alloc`.
    pub fn of(
        rt: &'a R,
        alloc: Global,
        host: &'h mut H,
        teller: Teller<'a>,
    ) -> Leading<'a, 'h, R, H>
        ensures teller { result.teller ≡ teller.entry }
        ensures host { result.host.ghost_name ≡ host.entry.ghost_name }
        ensures value { result.host.now ≡ host.entry.now }
    {
        Leading {
            rt,
            alloc,
            host,
            teller,
        }
    }

    /// Its last stop, where it has one, is the host's fault or want of memory.
    pub fn look(&self)
        ensures { IfSome self.now.teller.last IsLeaderStop }
    {
        self.teller.look();
    }

    /// The host, and all that was pushed, where nothing more is told: where the end wasn't told,
    /// the follower is told that the run has stopped.
    pub fn finish(self) -> (&'h mut H, Sent<'a>)
        ensures same { result.0.ghost_name ≡ self.entry.host.ghost_name }
        ensures value { result.0.now ≡ self.entry.host.now }
        ensures line { result.1.line ≡ self.entry.teller.line }
        ensures told { exchanges_in result.1.notes ≡ self.entry.teller.told }
        ensures closed { IsClosed result.1.notes }
    {
        let Leading {
            rt,
            alloc: _,
            host,
            teller,
        } = self;
        (host, teller.finish(rt))
    }
}
