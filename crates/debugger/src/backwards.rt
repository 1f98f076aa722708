// Where a resumption backwards stops: by each move in front of where it begins, from the first on.
ghost use Rattle.std.specs.Prelude.{◌≡◌, ◌≤◌, ◌<◌, ◌+◌, ◌||◌, IfOk, OnOk, false, true, option_map};
ghost use Rattle.std.specs.Prelude.{IfSome, List, Some, None, length};
ghost use Rattle.group_walk.specs.Walks.{kind_named};
ghost use Rattle.gdb_packets.specs.declared.resumptions.Resumption.{Resumption};
ghost use Rattle.debug_session.specs.Backwards.{backwards, halt_back, halt_broken_back, halt_start};
ghost use Rattle.debug_session.specs.Backwards.{halt_stepped_back, is_there, was_ever_there};
ghost use Rattle.debug_session.specs.Positions.{Position, first_kind, mover_of};
ghost use Rattle.debug_session.specs.Positions.{position_after};
ghost use Rattle.debug_session.specs.Sessions.{Session as Told};
ghost use Rattle.recorded_walk.specs.Playbacks.{IsStartOf};
ghost use Rattle.debug_client.specs.Births.{has_home, knows_named};
ghost use Rattle.debug_hits.specs.Kept.{HasLooked};
ghost use Rattle.debugger.specs.Halting.{WasSeen, backwards_from, halt_meant, knows_stepped};
ghost use Rattle.debugger.specs.Standing.{IsAsked, IsSame, StillKnows, here};

use crate::halts::Halt;
use crate::moving::{Before, mover_of};
use crate::session::Session;
use debug_session::Cause;
use gdb_packets::resumptions::Resumption;
use std::alloc::AllocError;

impl Session {
    /// The thread whose step it is lives here; without a step, somebody is there.
    fn is_there(&self, resumptions: &[Resumption], stepped: Option<u32>) -> bool
        requires running { self.now.failed ≡ false }
        requires named { knows_named self.now.births resumptions.now ≡ true }
        ensures { (start : Position) (s : Told) → IsStartOf self.now.playback start
            → IsAsked self.now start s
            → result ≡ is_there s resumptions.now stepped (here self.now start).moment.world }
    {
        match stepped {
            Some(thread) => self.playback.state().table.is_thread(thread),
            None => self.is_anybody_there(resumptions),
        }
    }

    /// Whether somebody was there before, or is here.
    fn was_there_by(
        &self,
        resumptions: &[Resumption],
        stepped: Option<u32>,
        was_there: bool,
    ) -> bool
        requires running { self.now.failed ≡ false }
        requires named { knows_named self.now.births resumptions.now ≡ true }
        ensures { (start : Position) (s : Told) → IsStartOf self.now.playback start
            → IsAsked self.now start s
            → result ≡ (is_there s resumptions.now stepped (here self.now start).moment.world
            || was_there) }
    {
        if was_there {
            return true;
        }
        self.is_there(resumptions, stepped)
    }

    /// This is the first moment, or nobody was there before it.
    fn halt_start(&self, resumptions: &[Resumption], stepped: Option<u32>) -> Halt
        requires running { self.now.failed ≡ false }
        requires known { knows_stepped self.now.births stepped ≡ true }
        ensures halt { (start : Position) (s : Told) → IsStartOf self.now.playback start
            → IsAsked self.now start s
            → halt_meant s resumptions.now start result
            ≡ halt_start s resumptions.now stepped (here self.now start) }
        ensures there { result.moves ≡ self.now.playback.moves }
        ensures born { result.born ≡ None }
    {
        let whose = self.pair_of(stepped);
        Halt::at(self.playback.moves(), whose, Cause::ReachedStart)
    }

    /// The move was that of the thread whose step it is.
    fn halt_stepped_back(&self, stepped: Option<u32>, before: &Before) -> Option<Halt>
        requires running { self.now.failed ≡ false }
        requires known { knows_stepped self.now.births stepped ≡ true }
        ensures halt { (rs : List Resumption) (start : Position) (s : Told)
            → IsStartOf self.now.playback start → IsAsked self.now start s
            → option_map (halt_meant s rs start) result
            ≡ halt_stepped_back s (position_after before.now.moves start) stepped
            (mover_of (kind_named before.now.kind)) }
        ensures there { IfSome result (λ halt. halt.moves ≡ before.now.moves) }
        ensures born { IfSome result (λ halt. halt.born ≡ None) }
    {
        let Some(thread) = stepped else {
            return None;
        };
        let Some(mover) = mover_of(before.kind) else {
            return None;
        };
        if mover != thread {
            return None;
        }
        let whose = Some(self.home_pair(thread));
        Some(Halt::at(before.moves, whose, Cause::Plainly))
    }

    /// A breakpoint at the moment before the move.
    fn halt_broken_back(&self, before: &Before) -> Option<Halt>
        requires running { self.now.failed ≡ false }
        requires known { IfSome before.now.mover (λ t. has_home self.now.births t ≡ true) }
        ensures halt { (rs : List Resumption) (start : Position) (s : Told)
            → IsStartOf self.now.playback start → IsAsked self.now start s
            → WasSeen before.now s rs (position_after before.now.moves start).moment.world
            → option_map (halt_meant s rs start) result
            ≡ halt_broken_back s rs (position_after before.now.moves start)
            (mover_of (kind_named before.now.kind)) }
        ensures there { IfSome result (λ halt. halt.moves ≡ before.now.moves) }
        ensures born { IfSome result (λ halt. halt.born ≡ None) }
    {
        let Some(thread) = before.mover else {
            return None;
        };
        if !before.is_broken {
            return None;
        }
        let whose = Some(self.home_pair(thread));
        Some(Halt::at(before.moves, whose, Cause::Broke))
    }

    /// What the move that was made is hit by, backwards.
    fn halt_back(
        &self,
        resumptions: &[Resumption],
        stepped: Option<u32>,
        before: &Before,
    ) -> Result<Option<Halt>, AllocError>
        requires running { self.now.failed ≡ false }
        requires known { knows_stepped self.now.births stepped ≡ true }
        requires mover { IfSome before.now.mover (λ t. has_home self.now.births t ≡ true) }
        requires moves { before.now.moves + 1 ≡ self.now.playback.moves }
        requires count { length before.now.watching.items ≡ length self.now.client.watchpoints }
        requires looked { length before.now.watching.items ≡ length self.now.watched }
        ensures halt { IfOk result (λ found. (start : Position) (s : Told)
            → IsStartOf self.now.playback start → IsAsked self.now start s
            → WasSeen before.now s resumptions.now
            (position_after before.now.moves start).moment.world
            → HasLooked (position_after before.now.moves start).moment.world
            (kind_named before.now.kind) s.watchpoints self.now.watched
            → option_map (halt_meant s resumptions.now start) found
            ≡ halt_back s resumptions.now stepped (here self.now start)
            (kind_named before.now.kind) (position_after before.now.moves start)) }
        ensures there { IfOk result (λ found. IfSome found
            (λ halt. halt.moves ≤ self.now.playback.moves)) }
        ensures born { IfOk result (λ found. IfSome found (λ halt. halt.born ≡ None)) }
    {
        let moves = self.playback.moves();
        if let Some(halt) = self.halt_watched(resumptions, before, moves, before.moves)? {
            return Ok(Some(halt));
        }
        if let Some(halt) = self.halt_broken_back(before) {
            return Ok(Some(halt));
        }
        Ok(self.halt_stepped_back(stepped, before))
    }

    /// Looks at this moment, and makes the move that is next.
    fn pass(&mut self, resumptions: &[Resumption]) -> Result<Before, AllocError>
        requires running { self.old.failed ≡ false }
        requires named { knows_named self.old.births resumptions.now ≡ true }
        ensures moves { IfOk result (λ before. before.moves ≡ self.old.playback.moves) }
        ensures next { IfOk result (λ before. self.new.playback.moves ≡ before.moves + 1) }
        ensures ahead { IfOk result (λ before. (start : Position)
            → IsStartOf self.old.playback start
            → first_kind (position_after before.moves start).future
            ≡ Some (kind_named before.kind)) }
        ensures seen { IfOk result (λ before. (start : Position) (s : Told)
            → IsStartOf self.old.playback start → IsAsked self.old start s
            → WasSeen before s resumptions.now (position_after before.moves start).moment.world
            × HasLooked (position_after before.moves start).moment.world
            (kind_named before.kind) s.watchpoints self.new.watched) }
        ensures count { IfOk result (λ before. length before.watching.items
            ≡ length self.new.client.watchpoints) }
        ensures looked { IfOk result
            (λ before. length before.watching.items ≡ length self.new.watched) }
        ensures mover { IfOk result (λ before. IfSome before.mover
            (λ t. has_home self.new.births t ≡ true)) }
        ensures same { IsSame self.old self.new }
        ensures known { OnOk result (StillKnows self.old self.new) }
        ensures furthest { OnOk result (self.old.furthest ≤ self.new.furthest) }
        ensures failed { OnOk result (self.new.failed ≡ false) }
    {
        let Some(kind) = self.playback.kind() else {
            return Err(AllocError);
        };
        let before = self.look(resumptions, kind)?;
        let made = self.advance()?;
        if made.is_none() {
            return Err(AllocError);
        }
        Ok(before)
    }

    /// One move on; where a resumption backwards from there stops, by where one from here does, and
    /// whether somebody was there by now.
    fn halt_behind(
        &mut self,
        resumptions: &[Resumption],
        stepped: Option<u32>,
        was_there: bool,
        halt: Halt,
    ) -> Result<Halt, AllocError>
        requires running { self.old.failed ≡ false }
        requires named { knows_named self.old.births resumptions.now ≡ true }
        requires known { knows_stepped self.old.births stepped ≡ true }
        requires here { self.old.playback.moves < self.old.furthest }
        requires there { halt.moves ≤ self.old.playback.moves }
        requires born { halt.born ≡ None }
        ensures halt { IfOk result (λ behind. (start : Position) (s : Told)
            → IsStartOf self.old.playback start → IsAsked self.old start s
            → halt_meant s resumptions.now start halt
            ≡ backwards_from s resumptions.now stepped (here self.old start)
            → was_there ≡ (is_there s resumptions.now stepped (here self.old start).moment.world
            || was_ever_there s resumptions.now stepped (here self.old start).past)
            → halt_meant s resumptions.now start behind
            ≡ backwards_from s resumptions.now stepped (here self.new start)) }
        ensures was { IfOk result (λ _. (start : Position) (s : Told)
            → IsStartOf self.old.playback start → IsAsked self.old start s
            → was_ever_there s resumptions.now stepped (here self.new start).past
            ≡ (is_there s resumptions.now stepped (here self.old start).moment.world
            || was_ever_there s resumptions.now stepped (here self.old start).past)) }
        ensures moves { OnOk result (self.new.playback.moves ≡ self.old.playback.moves + 1) }
        ensures there { IfOk result (λ behind. behind.moves ≤ self.new.playback.moves) }
        ensures born { IfOk result (λ behind. behind.born ≡ None) }
        ensures same { IsSame self.old self.new }
        ensures known { OnOk result (StillKnows self.old self.new) }
        ensures furthest { OnOk result (self.old.furthest ≤ self.new.furthest) }
        ensures failed { OnOk result (self.new.failed ≡ false) }
    {
        let before = self.pass(resumptions)?;
        if let Some(found) = self.halt_back(resumptions, stepped, &before)? {
            return Ok(found);
        }
        if was_there {
            return Ok(halt);
        }
        Ok(self.halt_start(resumptions, stepped))
    }

    /// Where the actions lead backwards from this moment, with a step of this thread.
    pub(crate) fn backwards(
        &mut self,
        resumptions: &[Resumption],
        stepped: Option<u32>,
    ) -> Result<Halt, AllocError>
        requires running { self.old.failed ≡ false }
        requires named { knows_named self.old.births resumptions.now ≡ true }
        requires known { knows_stepped self.old.births stepped ≡ true }
        ensures halt { IfOk result (λ halt. (start : Position) (s : Told)
            → IsStartOf self.old.playback start → IsAsked self.old start s
            → s.position ≡ here self.old start
            → backwards s resumptions.now stepped ≡ halt_meant s resumptions.now start halt) }
        ensures there { IfOk result (λ halt. halt.moves ≤ self.new.furthest) }
        ensures back { IfOk result (λ halt. halt.moves ≤ self.old.playback.moves) }
        ensures born { IfOk result (λ halt. halt.born ≡ None) }
        ensures same { IsSame self.old self.new }
        ensures known { OnOk result (StillKnows self.old self.new) }
        ensures failed { OnOk result (self.new.failed ≡ false) }
    {
        let moves = self.playback.moves();
        self.go_to(0)?;
        let mut halt = self.halt_start(resumptions, stepped);
        let mut was_there = false;
        let quiet = self.quiet_stops()?;
        while self.playback.moves() < moves {
            was_there = self.was_there_by(resumptions, stepped, was_there);
            halt = self.halt_behind(resumptions, stepped, was_there, halt)?;
            if !was_there {
                continue;
            }
            if let Some(stops) = &quiet {
                halt = self.pass_backwards(moves, stepped, stops, halt)?;
            }
        }
        Ok(halt)
    }
}
