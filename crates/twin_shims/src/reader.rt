// What a follower keeps.
ghost use Rattle.std.specs.Prelude.{◌≡◌, ◌≢◌, ◌∷◌, ◌++◌, [], true, false, List, IfOk, IfErr};
ghost use Rattle.std.specs.Prelude.{IfSome};
ghost use Rattle.std.specs.Prelude.{Some, None};
ghost use Rattle.crossbeam_queue.specs.Passes.{view as pass_view, IsPassOf};
ghost use Rattle.dos_io.specs.Exchanges.{question_of};
ghost use Rattle.dos_io.specs.Shims.{HasNoEnd, shim_answered, Stopped};
ghost use Rattle.twin_shims.specs.declared.note.Note.{Note};
ghost use Rattle.twin_shims.specs.declared.note.Note.TheVariants.{Told as told_note};
ghost use Rattle.twin_shims.specs.declared.note.Note.TheVariants.{Stopped as stopped_note};
ghost use Rattle.twin_shims.specs.Follower.{ReaderState, IsReader, StopsReader, FollowsReader};
ghost use Rattle.twin_shims.specs.Follower.{new_reader, reader_told, follower_state, reader_took};
ghost use Rattle.twin_shims.specs.Follower.{reader_answered, reader_stopped, question_of_note};
ghost use Rattle.twin_shims.specs.Follower.{IsFollowerStop, front};
ghost use Rattle.twin_shims.specs.Notes.{IsClosed, IsWithinMax};
ghost use Rattle.twin_shims.specs.Line.{line_id};
ghost use Rattle.twin_shims.specs.Order.{hand};

use crate::line::{Line, Pass};
use crate::note::Note;
use crate::pushed::Taken;
use dos_io::{Exchange, ShimStop};
use dos_world::{Misfit, Question};
use std::marker::Model;
use std::sync::Wait;

/// What a follower was told, the note on which it stopped, and its stops.
#[derive(Drop)]
pub struct Reader<'l> {
    line: &'l Line,
    pass: Pass,
    next: Option<Note>,
    closed: bool,
    answered: u32,
    stops: u64,
    last: Option<ShimStop>,
    asked: Option<Question>,
}

impl<'l> Model for Reader<'l> {
    ghost use Rattle.std.specs.Prelude.{◌≡◌, true, false, []};
    ghost use Rattle.crossbeam_queue.specs.Passes.{view as pass_view, IsPassOf};
    ghost use Rattle.twin_shims.specs.Follower.{ReaderState, IsReader};
    ghost use Rattle.twin_shims.specs.Order.{hand};

    ghost Value = { ReaderState };

    ghost view = { λ r. record {
      line = r.pass.table_id;
      taken = (pass_view r.pass).popped;
      next = r.next;
      answered = r.answered;
      stops = r.stops;
      last = r.last;
      asked = r.asked;
    } };

    ghost invariant = { λ r. IsPassOf r.line.now.queue r.pass
        × (pass_view r.pass ≡ hand false true [] (pass_view r.pass).popped)
        × IsReader r.closed (record {
          line = r.pass.table_id;
          taken = (pass_view r.pass).popped;
          next = r.next;
          answered = r.answered;
          stops = r.stops;
          last = r.last;
          asked = r.asked;
        }) };
}

impl<'l> Reader<'l> {
    /// A reader that was told nothing yet.
    pub fn of(line: &'l Line, pass: Pass) -> Reader<'l>
        requires pass { IsPassOf line.now.queue pass }
        requires fresh { pass_view pass ≡ hand false true [] [] }
        ensures { result ≡ new_reader (line_id line.now) }
    {
        Reader {
            line,
            pass,
            next: None,
            closed: false,
            answered: 0,
            stops: 0,
            last: None,
            asked: None,
        }
    }

    // Takes the next note and waits for it, where it has none.
    fn pop_next<R: Wait>(&mut self, rt: &R)
        requires told { HasNoEnd (reader_told self.old) }
        requires none { self.old.next ≡ None }
        requires asked { self.old.asked ≡ None }
        ensures { (note : Note) × (self.new ≡ reader_took self.old note) }
    {
        let note = self.line.pop(rt, &mut self.pass);
        self.closed = note.closes();
        self.next = Some(note);
    }

    // A call has begun.
    fn clear(&mut self)
        ensures { self.new ≡ record self.old { asked = None } }
    {
        self.asked = None;
    }

    // Has a next note, which is waited for.
    fn take_next<R: Wait>(&mut self, rt: &R)
        requires { HasNoEnd (reader_told self.old) }
        ensures next { (note : Note) × (self.new.next ≡ Some note) }
        ensures told { follower_state self.new
            ≡ record (follower_state self.old) { asked = None } }
        ensures follows { FollowsReader self.old self.new }
    {
        self.clear();
        if self.next.is_none() {
            self.pop_next(rt);
        }
    }

    // The question of the next note, if it is of an exchange.
    fn kept(&self) -> Option<Question>
        ensures { result ≡ question_of_note self.now.next }
    {
        match &self.next {
            Some(Note::Told(exchange)) => Some(exchange.question()),
            Some(Note::Stopped) => None,
            None => None,
        }
    }

    // Answers by the next note.
    fn answer(&mut self) -> Exchange
        requires { (exchange : _) × (self.old.next ≡ Some (told_note exchange)) }
        ensures next { self.old.next ≡ Some (told_note result) }
        ensures fits { IsWithinMax (told_note result) }
        ensures told { follower_state self.new ≡ shim_answered (follower_state self.old) result }
        ensures follows { FollowsReader self.old self.new }
    {
        match self.next.take() {
            Some(Note::Told(exchange)) => {
                self.answered = self.answered.saturating_add(1);
                self.asked = None;
                exchange
            }
            _ => unreachable!(),
        }
    }

    // Stops, so, at this question.
    fn stop(&mut self, question: Question, stop: ShimStop) -> ShimStop
        requires { StopsReader self.old question stop }
        ensures result { result ≡ stop }
        ensures after { self.new ≡ reader_stopped self.old question stop }
    {
        self.stops = self.stops.saturating_add(1);
        self.last = Some(stop);
        self.asked = Some(question);
        stop
    }

    /// The exchange of the next note, if it is of this question. Else it stops, and that note stays
    /// the next.
    pub(crate) fn fit<R: Wait>(&mut self, rt: &R, asked: Question) -> Result<Exchange, ShimStop>
        requires { HasNoEnd (reader_told self.old) }
        ensures question { IfOk result (λ exchange. question_of exchange ≡ asked) }
        ensures fits { IfOk result (λ exchange. IsWithinMax (told_note exchange)) }
        ensures ok { IfOk result (λ exchange.
            follower_state self.new ≡ shim_answered (follower_state self.old) exchange) }
        ensures err { IfErr result (λ stop.
            Stopped (follower_state self.old) asked stop (follower_state self.new)) }
        ensures follows { FollowsReader self.old self.new }
    {
        self.take_next(rt);
        match self.kept() {
            Some(kept) => {
                if kept == asked {
                    return Ok(self.answer());
                }
                let misfit = Misfit {
                    entry: self.answered,
                    kept,
                    asked,
                };
                Err(self.stop(asked, ShimStop::Misfit(misfit)))
            }
            None => Err(self.stop(asked, ShimStop::HostFault)),
        }
    }

    /// What it kept all along: where its last call stopped, it stopped by its next note.
    pub fn look(&self)
        ensures next { IfSome self.now.next
            (λ note. self.now.taken ≡ front self.now.taken ++ note ∷ []) }
        ensures stop { IfSome self.now.asked (λ q. IfSome self.now.last (StopsReader self.now q)) }
        ensures never { IfSome self.now.last IsFollowerStop }
    {
        let _answered = self.answered;
    }

    /// All notes, up to the one that closes, which are waited for.
    pub(crate) fn finish<R: Wait>(self, rt: &R) -> Taken<'l>
        ensures line { result.line ≡ self.entry.line }
        ensures more { (more : List Note) × (result.notes ≡ self.entry.taken ++ more) }
        ensures closed { IsClosed result.notes }
    {
        let Reader {
            line,
            mut pass,
            mut closed,
            ..
        } = self;
        for _ in rt.forever() {
            if closed {
                return Taken::of(line, pass);
            }
            closed = line.pop(rt, &mut pass).closes();
        }
        unreachable!()
    }
}
