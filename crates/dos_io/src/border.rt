// The border of a group: its shim, its output and its error as one.
ghost use Rattle.std.specs.Prelude.{◌≡◌, ◌≤◌, ◌<◌, length, take, drop, OnOk, OnErr, IfOk, IfErr};
ghost use Rattle.dos_world.specs.declared.Question.TheVariants.{Signals as signals_question};
ghost use Rattle.dos_world.specs.declared.Question.TheVariants.{Input as input_question};
ghost use Rattle.dos_world.specs.declared.Question.TheVariants.{Clock as clock_question};
ghost use Rattle.dos_world.specs.declared.Question.TheVariants.{End as end_question};
ghost use Rattle.dos_io.specs.declared.exchange.Exchange.TheVariants.{Signals as signals_exchange};
ghost use Rattle.dos_io.specs.declared.exchange.Exchange.TheVariants.{Input as input_exchange};
ghost use Rattle.dos_io.specs.declared.exchange.Exchange.TheVariants.{Clock as clock_exchange};
ghost use Rattle.dos_io.specs.declared.exchange.Exchange.TheVariants.{End as end_exchange};

use crate::shim::{Shim, ShimStop};
use crate::signal_list::SignalList;
use crate::sink::{Sink, SinkFault};
use dos_world::Ending;

/// Where a group's bytes go.
#[derive(Clone, Copy, Debug, PartialEq, Eq)]
pub enum Stream {
    /// What it has to say.
    Output,
    /// What went wrong.
    Error,
}

/// What a group sees of the outside: who answers its questions, and two streams that take bytes.
///
/// Each call says what has crossed the border: an exchange, or bytes put to a stream, and that
/// nothing failed meanwhile; or what stopped it. After the end has been told nothing more is asked.
pub trait Border {
    ghost use Rattle.dos_io.specs.Shims.{HasNoEnd};
    ghost use Rattle.dos_io.specs.Borders.{BorderState, BreaksAt, Crosses, StopsAt, exchanged, put};

    /// What it shows.
    ghost state: { Self → BorderState };

    /// What any calls may make of a border: the first value, and a later one.
    ghost follows: { Self → Self → Type 0 };

    /// The signals of a round, into `list`.
    fn signals(&mut self, round: u32, list: &mut SignalList) -> Result<(), ShimStop>
        requires { HasNoEnd (state self.old).shim.told }
        ensures ok { OnOk result (Crosses (state self.old)
            (exchanged (signals_exchange round list.new)) (state self.new)) }
        ensures err { IfErr result (λ stop. StopsAt (state self.old) (signals_question round) stop
            (state self.new)) }
        ensures follows { follows self.old self.new };

    /// An input of at most `buf.len()` bytes, to the front of `buf`, as long as the answer says;
    /// the rest of `buf` stays.
    fn input(&mut self, round: u32, tid: u32, buf: &mut [u8]) -> Result<usize, ShimStop>
        requires told { HasNoEnd (state self.old).shim.told }
        requires some { 0 < length buf.old }
        requires few { length buf.old ≤ 4096 }
        ensures short { IfOk result (λ k. k ≤ length buf.old) }
        ensures rest { IfOk result (λ k. drop k buf.new ≡ drop k buf.old) }
        ensures ok { IfOk result (λ k. Crosses (state self.old)
            (exchanged (input_exchange round tid (length buf.old) (take k buf.new)))
            (state self.new)) }
        ensures err { IfErr result (λ stop. StopsAt (state self.old)
            (input_question round tid (length buf.old)) stop (state self.new)) }
        ensures follows { follows self.old self.new };

    /// A reading of the clock.
    fn clock(&mut self, round: u32, tid: u32) -> Result<u64, ShimStop>
        requires { HasNoEnd (state self.old).shim.told }
        ensures ok { IfOk result (λ n. Crosses (state self.old)
            (exchanged (clock_exchange round tid n)) (state self.new)) }
        ensures err { IfErr result (λ stop. StopsAt (state self.old) (clock_question round tid) stop
            (state self.new)) }
        ensures follows { follows self.old self.new };

    /// The end of the run, which is told last.
    fn end(&mut self, ending: Ending, rounds: u32) -> Result<(), ShimStop>
        requires { HasNoEnd (state self.old).shim.told }
        ensures ok { OnOk result (Crosses (state self.old)
            (exchanged (end_exchange ending rounds)) (state self.new)) }
        ensures err { IfErr result (λ stop. StopsAt (state self.old) (end_question ending rounds)
            stop (state self.new)) }
        ensures follows { follows self.old self.new };

    /// Puts the piece behind a stream's bytes so far.
    fn put(&mut self, stream: Stream, piece: &[u8]) -> Result<(), SinkFault>
        ensures ok { OnOk result
            (Crosses (state self.old) (put stream piece.now) (state self.new)) }
        ensures err { OnErr result
            (BreaksAt (state self.old) stream piece.now (state self.new)) }
        ensures follows { follows self.old self.new };

    ghost reflexive: { (b : Self) → follows b b };

    ghost transitive: { (a b c : Self) → follows a b → follows b c → follows a c };
}

/// A shim and two sinks as a border.
#[derive(Drop)]
pub struct GroupBorder<'s, 'o, 'e, S, O, E> {
    /// Who answers its questions.
    pub shim: &'s mut S,
    /// Where its output goes.
    pub out: &'o mut O,
    /// Where its error goes.
    pub err: &'e mut E,
}

impl<'s, 'o, 'e, S: Shim, O: Sink, E: Sink> Border for GroupBorder<'s, 'o, 'e, S, O, E> {
    ghost use Rattle.std.specs.Prelude.{◌≡◌};
    ghost use Rattle.std.proofs.Common.{refl, ◌∙◌};

    ghost state = { λ b. record {
      shim = S.state b.shim.now;
      output = O.told b.out.now;
      error = E.told b.err.now;
      out_faults = O.faults b.out.now;
      err_faults = E.faults b.err.now;
    } };

    ghost follows = { λ b c. (c.shim.ghost_name ≡ b.shim.ghost_name)
        × (c.out.ghost_name ≡ b.out.ghost_name) × (c.err.ghost_name ≡ b.err.ghost_name)
        × S.follows b.shim.now c.shim.now };

    fn signals(&mut self, round: u32, list: &mut SignalList) -> Result<(), ShimStop> {
        self.shim.signals(round, list)
    }

    fn input(&mut self, round: u32, tid: u32, buf: &mut [u8]) -> Result<usize, ShimStop> {
        self.shim.input(round, tid, buf)
    }

    fn clock(&mut self, round: u32, tid: u32) -> Result<u64, ShimStop> {
        self.shim.clock(round, tid)
    }

    fn end(&mut self, ending: Ending, rounds: u32) -> Result<(), ShimStop> {
        self.shim.end(ending, rounds)
    }

    fn put(&mut self, stream: Stream, piece: &[u8]) -> Result<(), SinkFault> {
        match stream {
            Stream::Output => self.out.put(piece),
            Stream::Error => self.err.put(piece),
        }
    }

    ghost reflexive = { λ b. (refl, refl, refl, S.reflexive b.shim.now) };

    ghost transitive = { λ a b c p q. (
      q.0 ∙ p.0,
      q.1 ∙ p.1,
      q.2 ∙ p.2,
      S.transitive a.shim.now b.shim.now c.shim.now p.3 q.3,
    ) };
}
