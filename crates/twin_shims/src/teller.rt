// What a leader keeps beside its host.
ghost use Rattle.std.specs.Prelude.{◌≡◌, ◌∷◌, ◌++◌, [], true, false, IfSome};
ghost use Rattle.crossbeam_queue.specs.Passes.{view as pass_view, IsPassOf};
ghost use Rattle.dos_io.specs.Shims.{HasNoEnd};
ghost use Rattle.twin_shims.specs.Leader.{TellerState, IsLeaderStop, teller_told, teller_stopped};
ghost use Rattle.twin_shims.specs.Leader.{new_teller};
ghost use Rattle.twin_shims.specs.declared.note.Note.TheVariants.{Told as told_note};
ghost use Rattle.twin_shims.specs.Notes.{exchanges_in, IsClosed, IsWithinMax};
ghost use Rattle.twin_shims.specs.Line.{line_id};
ghost use Rattle.twin_shims.specs.Order.{hand};

use crate::line::{Line, Pass};
use crate::note::Note;
use crate::pushed::Sent;
use dos_io::{Exchange, ShimStop};
use dos_world::Question;
use std::marker::Model;
use std::sync::Wait;

/// What a leader has told its follower, and its stops.
#[derive(Drop)]
pub struct Teller<'l> {
    line: &'l Line,
    pass: Pass,
    closed: bool,
    stops: u64,
    last: Option<ShimStop>,
    asked: Option<Question>,
}

impl<'l> Model for Teller<'l> {
    ghost use Rattle.std.specs.Prelude.{◌≡◌, true, false, []};
    ghost use Rattle.crossbeam_queue.specs.Passes.{view as pass_view, IsPassOf};
    ghost use Rattle.twin_shims.specs.Leader.{TellerState, IsTeller};
    ghost use Rattle.twin_shims.specs.Notes.{exchanges_in};
    ghost use Rattle.twin_shims.specs.Order.{hand};

    ghost Value = { TellerState };

    ghost view = { λ t. record {
      line = t.pass.table_id;
      told = exchanges_in (pass_view t.pass).pushed;
      stops = t.stops;
      last = t.last;
      asked = t.asked;
    } };

    ghost invariant = { λ t. IsPassOf t.line.now.queue t.pass
        × (pass_view t.pass ≡ hand true false (pass_view t.pass).pushed [])
        × IsTeller t.closed (pass_view t.pass).pushed t.last };
}

impl<'l> Teller<'l> {
    /// A teller that was told nothing yet.
    pub fn of(line: &'l Line, pass: Pass) -> Teller<'l>
        requires pass { IsPassOf line.now.queue pass }
        requires fresh { pass_view pass ≡ hand true false [] [] }
        ensures { result ≡ new_teller (line_id line.now) }
    {
        Teller {
            line,
            pass,
            closed: false,
            stops: 0,
            last: None,
            asked: None,
        }
    }

    /// Pushes the note of an exchange that it was told, and waits for a place.
    pub(crate) fn tell<R: Wait>(&mut self, rt: &R, exchange: Exchange)
        requires running { HasNoEnd self.old.told }
        requires fits { IsWithinMax (told_note exchange) }
        ensures { self.new ≡ teller_told self.old exchange }
    {
        let note = Note::Told(exchange);
        let closed = note.closes();
        self.line.push(rt, &mut self.pass, note);
        self.closed = closed;
        self.asked = None;
    }

    /// Stops, so, at this question.
    pub(crate) fn stop(&mut self, question: Question, stop: ShimStop) -> ShimStop
        requires { IsLeaderStop stop }
        ensures result { result ≡ stop }
        ensures after { self.new ≡ teller_stopped self.old question stop }
    {
        self.stops = self.stops.saturating_add(1);
        self.last = Some(stop);
        self.asked = Some(question);
        stop
    }

    /// Its last stop, where it has one, is the host's fault or want of memory.
    pub fn look(&self)
        ensures { IfSome self.now.last IsLeaderStop }
    {
        let _closed = self.closed;
    }

    /// What it pushed, where nothing more is told: where the end wasn't told, the follower is told
    /// that the run has stopped.
    pub(crate) fn finish<R: Wait>(self, rt: &R) -> Sent<'l>
        ensures line { result.line ≡ self.entry.line }
        ensures told { exchanges_in result.notes ≡ self.entry.told }
        ensures closed { IsClosed result.notes }
    {
        let Teller {
            line,
            mut pass,
            closed,
            ..
        } = self;
        if closed {
            return Sent::of(line, pass);
        }
        line.push(rt, &mut pass, Note::Stopped);
        Sent::of(line, pass)
    }
}
