// What a packet that resumes comes to: what was put by the way, and a stop.
ghost use Rattle.std.specs.Prelude.{◌≡◌, ◌≤◌, ◌++◌, ◌∷◌, [], IfOk, IfSome, OnOk, false, true, map};
ghost use Rattle.std.specs.Prelude.{filter};
ghost use Rattle.debug_session.specs.Actions.{is_stepping, is_stopping};
ghost use Rattle.debug_session.specs.Halts.{puts_from};
ghost use Rattle.debug_session.specs.Resuming.{console, halt_of, puts_told};
ghost use Rattle.debug_session.specs.Positions.{Position, position_after};
ghost use Rattle.debug_session.specs.Sessions.{Session as Told};
ghost use Rattle.debug_session.specs.Stops.{console_text};
ghost use Rattle.debug_connection.specs.Keeping.{texts_of};
ghost use Rattle.recorded_walk.specs.Playbacks.{IsStartOf};
ghost use Rattle.debug_client.specs.Births.{BirthTables, has_process, knows_named};
ghost use Rattle.debugger.specs.Halting.{goes, halt_meant, knows_direction, puts_before};
ghost use Rattle.debugger.specs.Halting.{resumed_by};
ghost use Rattle.debugger.specs.Standing.{HasAnswered, IsAsked, IsSame, here};

use crate::forwards::Put;
use crate::halts::Halt;
use crate::session::Session;
use debug_answers::put_console;
use debug_session::Cause;
use gdb_packets::resumptions::{Action, Resumption};
use std::alloc::AllocError;

/// A step, or steps within a range.
pub(crate) fn is_stepping(action: Action) -> bool
    ensures { result ≡ is_stepping action }
{
    match action {
        Action::Continue => false,
        Action::ContinueSignal(_) => false,
        Action::Step => true,
        Action::StepSignal(_) => true,
        Action::Range { .. } => true,
    }
}

/// Behind a move that led to this pc the thread stops: by a step always, in a range where the pc
/// has
/// left it.
pub(crate) fn is_stopping(pc: u32, action: Action) -> bool
    ensures { result ≡ is_stopping pc action }
{
    match action {
        Action::Continue => false,
        Action::ContinueSignal(_) => false,
        Action::Step => true,
        Action::StepSignal(_) => true,
        Action::Range { low, high } => {
            if pc < low {
                return true;
            }
            high <= pc
        }
    }
}

/// Which way a resumption goes.
#[derive(Clone, Copy)]
pub(crate) enum Direction {
    Forwards,
    /// Backwards, with a step of this thread.
    Backwards(Option<u32>),
}

impl Session {
    /// Where the actions lead that way, and what was put by the way.
    fn halt_by(
        &mut self,
        resumptions: &[Resumption],
        direction: Direction,
        puts: &mut Vec<Put>,
    ) -> Result<Halt, AllocError>
        requires running { self.old.failed ≡ false }
        requires named { knows_named self.old.births resumptions.now ≡ true }
        requires known { knows_direction self.old.births direction ≡ true }
        requires none { puts.old.items ≡ [] }
        ensures halt { IfOk result (λ halt. (start : Position) (s : Told)
            → IsStartOf self.old.playback start → IsAsked self.old start s
            → s.position ≡ here self.old start
            → (goes s resumptions.now direction ≡ halt_meant s resumptions.now start halt)
            × (puts_before halt.moves puts.new.items
            ≡ puts_from s.position (position_after halt.moves start))) }
        ensures there { IfOk result (λ halt. halt.moves ≤ self.new.furthest) }
        ensures born { IfOk result
            (λ halt. IfSome halt.born (λ p. has_process self.new.births p ≡ true)) }
        ensures same { IsSame self.old self.new }
        ensures failed { OnOk result (self.new.failed ≡ false) }
    {
        match direction {
            Direction::Forwards => Ok(self.forwards(resumptions, puts)?),
            Direction::Backwards(stepped) => Ok(self.backwards(resumptions, stepped)?),
        }
    }

    /// Where the actions lead, to a moment that a person wants to go to first.
    fn halt_of(
        &mut self,
        resumptions: &[Resumption],
        direction: Direction,
        puts: &mut Vec<Put>,
    ) -> Result<Halt, AllocError>
        requires running { self.old.failed ≡ false }
        requires named { knows_named self.old.births resumptions.now ≡ true }
        requires known { knows_direction self.old.births direction ≡ true }
        requires none { puts.old.items ≡ [] }
        ensures halt { IfOk result (λ halt. (start : Position) (s : Told)
            → IsStartOf self.old.playback start → IsAsked self.old start s
            → s.position ≡ here self.old start
            → (halt_of s resumptions.now (goes s resumptions.now direction)
            ≡ halt_meant s resumptions.now start halt)
            × (map console (puts_before halt.moves puts.new.items)
            ≡ puts_told s (halt_meant s resumptions.now start halt))) }
        ensures there { IfOk result (λ halt. halt.moves ≤ self.new.furthest) }
        ensures born { IfOk result
            (λ halt. IfSome halt.born (λ p. has_process self.new.births p ≡ true)) }
        ensures same { IsSame self.old self.new }
        ensures failed { OnOk result (self.new.failed ≡ false) }
    {
        if let Some((round, made)) = self.client.goal() {
            return Ok(self.halt_gone(round, made)?);
        }
        if let Some(thread) = self.client.owed_to(resumptions) {
            let moves = self.playback.moves();
            let whose = Some(self.home_pair(thread));
            return Ok(Halt::at(moves, whose, Cause::Plainly));
        }
        Ok(self.halt_by(resumptions, direction, puts)?)
    }

    /// Resumes: what was put by the moves that were made and not gone back on, and the stop.
    pub(crate) fn resume(
        &mut self,
        resumptions: &[Resumption],
        direction: Direction,
        replies: &mut Vec<Vec<u8>>,
    ) -> Result<(), AllocError>
        requires running { self.old.failed ≡ false }
        requires named { (births : BirthTables) → knows_named births resumptions.now ≡ true
            → knows_direction births direction ≡ true }
        ensures running { OnOk result (self.new.failed ≡ false) }
        ensures answers { OnOk result (HasAnswered self.old self.new (texts_of replies.old.items)
            (texts_of replies.new.items) (λ s. resumed_by s resumptions.now direction)) }
    {
        self.know_named(resumptions)?;
        let mut puts = Vec::new(self.alloc);
        let halt = self.halt_of(resumptions, direction, &mut puts)?;
        self.tell_puts(&puts, halt.moves, replies)?;
        let stop = self.halt(resumptions, halt)?;
        replies.push(stop)?;
        Ok(())
    }

    /// A put for the person's console, where its move is in front of this one.
    fn tell_put(&self, put: &Put, moves: u64, replies: &mut Vec<Vec<u8>>) -> Result<(), AllocError>
        ensures { OnOk result (texts_of replies.new.items
            ≡ texts_of replies.old.items ++ map console_text (puts_before moves (put.now ∷ []))) }
    {
        if moves <= put.moves {
            return Ok(());
        }
        let mut text = Vec::new(self.alloc);
        put_console(&mut text, &put.bytes)?;
        replies.push(text)?;
        Ok(())
    }

    /// The puts of the moves in front of this one, for the person's console.
    pub(crate) fn tell_puts(
        &self,
        puts: &[Put],
        moves: u64,
        replies: &mut Vec<Vec<u8>>,
    ) -> Result<(), AllocError>
        ensures { OnOk result (texts_of replies.new.items
            ≡ texts_of replies.old.items ++ map console_text (puts_before moves puts.now)) }
    {
        for put in puts {
            self.tell_put(put, moves, replies)?;
        }
        Ok(())
    }
}
