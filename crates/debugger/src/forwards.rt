// Where a resumption forwards stops.
ghost use Rattle.std.specs.Prelude.{◌≡◌, ◌≤◌, ◌<◌, ◌+◌, ◌&&◌, ◌||◌, ◌++◌, [], ℕ, map, not, nat_lt};
ghost use Rattle.std.specs.Prelude.{IfOk, IfSome, IsSome, MatchOption, OnOk, false, true};
ghost use Rattle.std.specs.Prelude.{List, Some, None, option_map, length};
ghost use Rattle.std.specs.List.{list_any};
ghost use Rattle.dos_world.specs.World.{World, thread_at};
ghost use Rattle.group_walk.specs.Walks.{kind_named};
ghost use Rattle.gdb_packets.specs.declared.resumptions.Resumption.{Resumption};
ghost use Rattle.debug_session.specs.Actions.{is_stepping, is_stopping};
ghost use Rattle.debug_session.specs.Forwards.{forwards, halt_before, halt_born, halt_deserted};
ghost use Rattle.debug_session.specs.Forwards.{halt_moving, halt_stepped, halt_unstepped};
ghost use Rattle.debug_session.specs.Forwards.{born_between, is_stepping_nobody};
ghost use Rattle.debug_session.specs.Forwards.{step_pair, steps_nobody};
ghost use Rattle.debug_session.specs.Halts.{puts_from, some_bytes};
ghost use Rattle.debug_session.specs.Positions.{Position, first_kind, mover_of, position_after};
ghost use Rattle.debug_session.specs.Sessions.{Session as Told, is_among, is_anybody_there};
ghost use Rattle.recorded_walk.specs.Playbacks.{IsStartOf};
ghost use Rattle.debug_client.specs.Births.{has_home, has_process, knows_named};
ghost use Rattle.debug_hits.specs.Kept.{HasLooked};
ghost use Rattle.debugger.specs.Halting.{HasKept, IsNoted, IsPassing, WasSeen, fault_named};
ghost use Rattle.debugger.specs.Halting.{forwards_from, halt_meant, halt_unless, puts_before};
ghost use Rattle.debugger.specs.Halting.{puts_kept, whose_stop};
ghost use Rattle.debugger.specs.Standing.{IsAsked, IsSame, StillKnows, here};

use crate::halts::Halt;
use crate::moving::Before;
use crate::resuming::{is_stepping, is_stopping};
use crate::session::Session;
use debug_answers::fault_signal;
use debug_client::thread_named;
use debug_session::Cause;
use gdb_packets::ids::ThreadId;
use gdb_packets::resumptions::{Action, Resumption};
use group_walk::MoveKind;
use std::alloc::AllocError;

/// What was put by the way: the bytes of a move to output or to error, and how many moves led to
/// it.
#[derive(Drop)]
pub(crate) struct Put {
    pub(crate) moves: u64,
    pub(crate) bytes: Vec<u8>,
}

/// How far a resumption forwards has come.
#[derive(Clone, Copy)]
pub(crate) struct Way {
    /// This is where it began.
    pub(crate) is_first: bool,
    /// Somebody who belongs was there by now.
    pub(crate) was_there: bool,
    /// How many moves lead to the last moment at which somebody was.
    pub(crate) last: u64,
}

/// The signal of a fault.
fn fault_of(kind: MoveKind) -> Option<u8>
    ensures { result ≡ fault_named (kind_named kind) }
{
    match kind {
        MoveKind::Begins => None,
        MoveKind::Runs { .. } => None,
        MoveKind::IsServed { .. } => None,
        MoveKind::Faults { number, .. } => Some(fault_signal(number)),
    }
}

/// Some action steps.
pub(crate) fn is_any_stepping(resumptions: &[Resumption]) -> bool
    ensures { result ≡ list_any (λ (r : Resumption). is_stepping r.action) resumptions.now }
{
    resumptions
        .iter()
        .any(|resumption| is_stepping(resumption.action))
}

impl Session {
    /// Whether some process that belongs lives here.
    pub(crate) fn is_anybody_there(&self, resumptions: &[Resumption]) -> bool
        requires running { self.now.failed ≡ false }
        requires named { knows_named self.now.births resumptions.now ≡ true }
        ensures { (start : Position) (s : Told) → IsStartOf self.now.playback start
            → IsAsked self.now start s
            → result ≡ is_anybody_there s resumptions.now (here self.now start).moment.world }
    {
        self.client
            .is_anybody_there(&self.births, resumptions, self.playback.state())
    }

    /// What this moment halts by, where the move that was seen is next: a breakpoint, or a fault.
    fn found_before(&self, before: &Before) -> Option<Halt>
        requires running { self.now.failed ≡ false }
        requires moves { before.now.moves ≡ self.now.playback.moves }
        requires known { IfSome before.now.mover (λ t. has_home self.now.births t ≡ true) }
        ensures halt { (rs : List Resumption) (start : Position) (s : Told)
            → IsStartOf self.now.playback start → IsAsked self.now start s
            → WasSeen before.now s rs (here self.now start).moment.world
            → first_kind (here self.now start).future ≡ Some (kind_named before.now.kind)
            → option_map (halt_meant s rs start) result ≡ halt_before s rs (here self.now start) }
        ensures there { IfSome result (λ halt. halt.moves ≡ self.now.playback.moves) }
        ensures born { IfSome result (λ halt. halt.born ≡ None) }
    {
        let Some(thread) = before.mover else {
            return None;
        };
        let whose = Some(self.home_pair(thread));
        if before.is_broken {
            return Some(Halt::at(before.moves, whose, Cause::Broke));
        }
        let Some(signal) = fault_of(before.kind) else {
            return None;
        };
        let mut halt = Halt::at(before.moves, whose, Cause::Plainly);
        halt.signal = signal;
        Some(halt)
    }

    /// At this moment, before the move that is next: a breakpoint, or a fault.
    fn halt_before(&mut self, before: &Before) -> Result<Option<Halt>, AllocError>
        requires running { self.old.failed ≡ false }
        requires moves { before.now.moves ≡ self.old.playback.moves }
        requires known { IfSome before.now.mover (λ t. has_home self.old.births t ≡ true) }
        ensures halt { IfOk result (λ found. (rs : List Resumption) (start : Position) (s : Told)
            → IsStartOf self.old.playback start → IsAsked self.old start s
            → WasSeen before.now s rs (here self.old start).moment.world
            → first_kind (here self.old start).future ≡ Some (kind_named before.now.kind)
            → option_map (halt_meant s rs start) found ≡ halt_before s rs (here self.old start)) }
        ensures next { IfOk result (λ found. IfSome found (λ halt. (start : Position)
            → IsStartOf self.old.playback start
            → IsSome (first_kind (here self.old start).future))) }
        ensures there { IfOk result (λ found. IfSome found
            (λ halt. halt.moves ≡ self.old.playback.moves)) }
        ensures born { IfOk result (λ found. IfSome found (λ halt. halt.born ≡ None)) }
        ensures moves { OnOk result (self.new.playback.moves ≡ self.old.playback.moves) }
        ensures same { IsSame self.old self.new }
        ensures births { self.new.births ≡ self.old.births }
        ensures watched { self.new.watched ≡ self.old.watched }
        ensures furthest { self.new.furthest ≡ self.old.furthest }
        ensures failed { OnOk result (self.new.failed ≡ false) }
    {
        let Some(halt) = self.found_before(before) else {
            return Ok(None);
        };
        match self.next()? {
            Some(_) => Ok(Some(halt)),
            None => Ok(None),
        }
    }

    /// Somebody was there, and nobody is now.
    fn halt_deserted(&self, resumptions: &[Resumption], way: &Way) -> Option<Halt>
        requires running { self.now.failed ≡ false }
        requires named { knows_named self.now.births resumptions.now ≡ true }
        ensures halt { (start : Position) (s : Told) → IsStartOf self.now.playback start
            → IsAsked self.now start s
            → option_map (halt_meant s resumptions.now start) result
            ≡ halt_deserted s resumptions.now way.now.was_there (position_after way.now.last start)
            (here self.now start) }
        ensures there { IfSome result (λ halt. halt.moves ≡ way.now.last) }
        ensures born { IfSome result (λ halt. halt.born ≡ None) }
    {
        if !way.was_there {
            return None;
        }
        if self.is_anybody_there(resumptions) {
            return None;
        }
        Some(Halt::at(way.last, None, Cause::ReachedEnd))
    }

    /// Forks are told, and the child isn't told of yet; at most 256 processes are.
    fn is_child_told(&self, child: u32) -> bool
        requires { self.now.failed ≡ false }
        ensures { (start : Position) (s : Told) → IsAsked self.now start s
            → result ≡ (s.is_told_forks && not (is_among child s.told)
            && nat_lt (length s.told) 256) }
    {
        if !self.client.is_told_forks() {
            return false;
        }
        let told = self.client.told();
        if told.contains(&child) {
            return false;
        }
        told.len() < 256
    }

    /// The move bore a process, which is told.
    fn halt_born(&self, resumptions: &[Resumption], before: &Before) -> Option<Halt>
        requires running { self.now.failed ≡ false }
        requires moves { before.now.moves + 1 ≡ self.now.playback.moves }
        requires known { IfSome before.now.mover (λ t. has_home self.now.births t ≡ true) }
        ensures halt { (start : Position) (s : Told) (w : World)
            → IsStartOf self.now.playback start → IsAsked self.now start s
            → WasSeen before.now s resumptions.now w
            → option_map (halt_meant s resumptions.now start) result
            ≡ halt_born s resumptions.now w (mover_of (kind_named before.now.kind))
            (here self.now start) (born_between w (here self.now start).moment.world) }
        ensures there { IfSome result (λ halt. halt.moves ≡ self.now.playback.moves) }
        ensures born { IfSome result
            (λ halt. IfSome halt.born (λ p. has_process self.now.births p ≡ true)) }
    {
        let Some(thread) = before.mover else {
            return None;
        };
        let child = self.playback.state().table.processes();
        if child <= before.processes {
            return None;
        }
        if !self.is_child_told(child) {
            return None;
        }
        let Some(first) = self.playback.state().table.first_thread(child) else {
            return None;
        };
        let cause = Cause::Bore {
            process: child,
            thread: first,
        };
        let mut halt = Halt::at(self.playback.moves(), Some(self.home_pair(thread)), cause);
        halt.born = Some(child);
        Some(halt)
    }

    /// Where the thread's pc has come, what it does ends; where it is gone, a step or a range does.
    fn is_step_over(&self, action: Action, thread: u32) -> bool
        requires { self.now.failed ≡ false }
        ensures { (start : Position) → IsStartOf self.now.playback start
            → result ≡ elim (thread_at (here self.now start).moment.world thread) [
              | None ↦ is_stepping action
              | Some later ↦ is_stopping later.registers.pc action
            ] }
    {
        let table = &self.playback.state().table;
        if !table.is_thread(thread) {
            return is_stepping(action);
        }
        is_stopping(table.regs(thread).pc(), action)
    }

    /// The thread whose action has ended, where it lives.
    fn stepped_pair(&self, thread: u32) -> Option<(u32, u32)>
        requires running { self.now.failed ≡ false }
        requires known { has_home self.now.births thread ≡ true }
        ensures { (rs : List Resumption) (start : Position) (s : Told)
            → IsStartOf self.now.playback start → IsAsked self.now start s
            → whose_stop s rs (here self.now start) result
            ≡ step_pair s rs (here self.now start) thread }
    {
        if self.playback.state().table.is_thread(thread) {
            return Some(self.home_pair(thread));
        }
        None
    }

    /// The mover's action ended with the move.
    fn halt_stepped(&self, resumptions: &[Resumption], before: &Before) -> Option<Halt>
        requires running { self.now.failed ≡ false }
        requires moves { before.now.moves + 1 ≡ self.now.playback.moves }
        requires known { IfSome before.now.mover (λ t. has_home self.now.births t ≡ true) }
        ensures halt { (start : Position) (s : Told) (w : World)
            → IsStartOf self.now.playback start → IsAsked self.now start s
            → WasSeen before.now s resumptions.now w
            → option_map (halt_meant s resumptions.now start) result
            ≡ halt_stepped s resumptions.now w (mover_of (kind_named before.now.kind))
            (here self.now start) }
        ensures there { IfSome result (λ halt. halt.moves ≡ self.now.playback.moves) }
        ensures born { IfSome result (λ halt. halt.born ≡ None) }
    {
        let Some(thread) = before.mover else {
            return None;
        };
        let Some(action) = before.action else {
            return None;
        };
        if !self.is_step_over(action, thread) {
            return None;
        }
        let moves = self.playback.moves();
        Some(Halt::at(moves, self.stepped_pair(thread), Cause::Plainly))
    }

    /// The id names a thread that is gone.
    fn steps_nobody(&self, resumption: &Resumption) -> bool
        requires { self.now.failed ≡ false }
        ensures { (start : Position) → IsStartOf self.now.playback start
            → result ≡ steps_nobody (here self.now start).moment.world resumption.now }
    {
        match thread_named(resumption.threads) {
            None => false,
            Some(thread) => !self.playback.state().table.is_thread(thread),
        }
    }

    /// It is an action that steps, and doesn't name a thread that is gone.
    fn steps_somebody(&self, resumption: &Resumption) -> bool
        requires { self.now.failed ≡ false }
        ensures { (start : Position) → IsStartOf self.now.playback start
            → not result ≡ (not (is_stepping resumption.now.action)
            || steps_nobody (here self.now start).moment.world resumption.now) }
    {
        if is_stepping(resumption.action) {
            return !self.steps_nobody(resumption);
        }
        false
    }

    /// There are actions that step, and each names a thread that is gone.
    fn is_stepping_nobody(&self, resumptions: &[Resumption]) -> bool
        requires { self.now.failed ≡ false }
        ensures { (start : Position) → IsStartOf self.now.playback start
            → result ≡ is_stepping_nobody resumptions.now (here self.now start).moment.world }
    {
        if !is_any_stepping(resumptions) {
            return false;
        }
        for resumption in resumptions {
            if self.steps_somebody(resumption) {
                return false;
            }
        }
        true
    }

    fn halt_unstepped(&self, resumptions: &[Resumption]) -> Option<Halt>
        requires { self.now.failed ≡ false }
        ensures halt { (start : Position) (s : Told) → IsStartOf self.now.playback start
            → IsAsked self.now start s
            → option_map (halt_meant s resumptions.now start) result
            ≡ halt_unstepped s resumptions.now (here self.now start) }
        ensures there { IfSome result (λ halt. halt.moves ≡ self.now.playback.moves) }
        ensures born { IfSome result (λ halt. halt.born ≡ None) }
    {
        if !self.is_stepping_nobody(resumptions) {
            return None;
        }
        Some(Halt::at(self.playback.moves(), None, Cause::Plainly))
    }

    /// What the move that was made stops by.
    fn halt_moving(
        &self,
        resumptions: &[Resumption],
        way: &Way,
        before: &Before,
    ) -> Result<Option<Halt>, AllocError>
        requires running { self.now.failed ≡ false }
        requires named { knows_named self.now.births resumptions.now ≡ true }
        requires moves { before.now.moves + 1 ≡ self.now.playback.moves }
        requires known { IfSome before.now.mover (λ t. has_home self.now.births t ≡ true) }
        requires count { length before.now.watching.items ≡ length self.now.client.watchpoints }
        requires looked { length before.now.watching.items ≡ length self.now.watched }
        requires last { way.now.last ≤ before.now.moves }
        ensures halt { IfOk result (λ found. (start : Position) (s : Told)
            → IsStartOf self.now.playback start → IsAsked self.now start s
            → WasSeen before.now s resumptions.now
            (position_after before.now.moves start).moment.world
            → HasLooked (position_after before.now.moves start).moment.world
            (kind_named before.now.kind) s.watchpoints self.now.watched
            → option_map (halt_meant s resumptions.now start) found
            ≡ halt_moving s resumptions.now way.now.was_there (position_after way.now.last start)
            (position_after before.now.moves start) (kind_named before.now.kind)
            (here self.now start)) }
        ensures there { IfOk result (λ found. IfSome found
            (λ halt. (way.now.last ≤ halt.moves) × (halt.moves ≤ self.now.playback.moves))) }
        ensures within { IfOk result (λ found. IfSome found
            (λ halt. halt.moves ≤ self.now.furthest)) }
        ensures born { IfOk result (λ found. IfSome found
            (λ halt. IfSome halt.born (λ p. has_process self.now.births p ≡ true))) }
    {
        let moves = self.playback.moves();
        if let Some(halt) = self.halt_watched(resumptions, before, before.moves, moves)? {
            return Ok(Some(halt));
        }
        if let Some(halt) = self.halt_deserted(resumptions, way) {
            return Ok(Some(halt));
        }
        if let Some(halt) = self.halt_born(resumptions, before) {
            return Ok(Some(halt));
        }
        if let Some(halt) = self.halt_stepped(resumptions, before) {
            return Ok(Some(halt));
        }
        Ok(self.halt_unstepped(resumptions))
    }

    /// Keeps bytes that the move behind so many moves has put, where there are any.
    fn keep_bytes(&self, puts: &mut Vec<Put>, moves: u64, bytes: &[u8]) -> Result<(), AllocError>
        ensures { OnOk result (puts_kept puts.new.items
            ≡ puts_kept puts.old.items ++ map (λ b. (moves, b)) (some_bytes bytes.now)) }
    {
        if bytes.is_empty() {
            return Ok(());
        }
        let kept = Vec::from_slice(self.alloc, bytes)?;
        puts.push(Put { moves, bytes: kept })?;
        Ok(())
    }

    /// Keeps what the move that was made has put, behind so many moves.
    pub(crate) fn keep_puts(&self, puts: &mut Vec<Put>, moves: u64) -> Result<(), AllocError>
        ensures { OnOk result (puts_kept puts.new.items
            ≡ puts_kept puts.old.items ++ map (λ b. (moves, b))
            (some_bytes self.now.playback.output ++ some_bytes self.now.playback.error)) }
    {
        let (output, error) = self.playback.heard();
        self.keep_bytes(puts, moves, output)?;
        self.keep_bytes(puts, moves, error)?;
        Ok(())
    }

    /// Whether somebody is there at this moment is counted.
    pub(crate) fn with_here(&self, resumptions: &[Resumption], way: Way) -> Way
        requires running { self.now.failed ≡ false }
        requires named { knows_named self.now.births resumptions.now ≡ true }
        requires last { way.last ≤ self.now.playback.moves }
        ensures noted { (start : Position) (s : Told) → IsStartOf self.now.playback start
            → IsAsked self.now start s
            → IsNoted s resumptions.now start result (here self.now start) }
        ensures same { (start : Position) (s : Told) → IsStartOf self.now.playback start
            → IsAsked self.now start s
            → forwards_from s resumptions.now start way (here self.now start)
            ≡ forwards_from s resumptions.now start result (here self.now start) }
        ensures low { way.last ≤ result.last }
        ensures high { result.last ≤ self.now.playback.moves }
        ensures first { result.is_first ≡ way.is_first }
    {
        if self.is_anybody_there(resumptions) {
            return Way {
                is_first: way.is_first,
                was_there: true,
                last: self.playback.moves(),
            };
        }
        way
    }

    /// The same, but for the moment at which the resumption began.
    fn halt_unless_first(&mut self, way: &Way, before: &Before) -> Result<Option<Halt>, AllocError>
        requires running { self.old.failed ≡ false }
        requires moves { before.now.moves ≡ self.old.playback.moves }
        requires known { IfSome before.now.mover (λ t. has_home self.old.births t ≡ true) }
        ensures halt { IfOk result (λ found. (rs : List Resumption) (start : Position) (s : Told)
            → IsStartOf self.old.playback start → IsAsked self.old start s
            → WasSeen before.now s rs (here self.old start).moment.world
            → first_kind (here self.old start).future ≡ Some (kind_named before.now.kind)
            → option_map (halt_meant s rs start) found
            ≡ halt_unless way.now.is_first s rs (here self.old start)) }
        ensures next { IfOk result (λ found. IfSome found (λ halt. (start : Position)
            → IsStartOf self.old.playback start
            → IsSome (first_kind (here self.old start).future))) }
        ensures there { IfOk result (λ found. IfSome found
            (λ halt. halt.moves ≡ self.old.playback.moves)) }
        ensures born { IfOk result (λ found. IfSome found (λ halt. halt.born ≡ None)) }
        ensures moves { OnOk result (self.new.playback.moves ≡ self.old.playback.moves) }
        ensures same { IsSame self.old self.new }
        ensures births { self.new.births ≡ self.old.births }
        ensures watched { self.new.watched ≡ self.old.watched }
        ensures furthest { self.new.furthest ≡ self.old.furthest }
        ensures failed { OnOk result (self.new.failed ≡ false) }
    {
        if way.is_first {
            return Ok(None);
        }
        Ok(self.halt_before(before)?)
    }

    /// Somebody was there, and the move that is next ends the last process: nobody is there behind
    /// it, so it isn't made.
    fn halt_at_last_exit(&self, way: &Way) -> Option<Halt>
        requires running { self.now.failed ≡ false }
        ensures halt { IfSome result (λ halt. (rs : List Resumption) (start : Position) (s : Told)
            (b : Before) → IsStartOf self.now.playback start → IsAsked self.now start s
            → IsPassing b s rs way.now.is_first (here self.now start)
            → IsNoted s rs start way.now (here self.now start)
            → forwards_from s rs start way.now (here self.now start)
            ≡ halt_meant s rs start halt) }
        ensures there { IfSome result (λ halt. halt.moves ≡ way.now.last) }
        ensures born { IfSome result (λ halt. halt.born ≡ None) }
    {
        if !way.was_there {
            return None;
        }
        if !self.playback.is_last_exit() {
            return None;
        }
        Some(Halt::at(way.last, None, Cause::ReachedEnd))
    }

    /// The move is made that was seen, and what it puts is kept: where the resumption halts by it,
    /// or by that no move is next. The last process's exit isn't made.
    fn move_on(
        &mut self,
        resumptions: &[Resumption],
        way: &Way,
        before: &Before,
        puts: &mut Vec<Put>,
    ) -> Result<Option<Halt>, AllocError>
        requires running { self.old.failed ≡ false }
        requires named { knows_named self.old.births resumptions.now ≡ true }
        requires moves { before.now.moves ≡ self.old.playback.moves }
        requires known { IfSome before.now.mover (λ t. has_home self.old.births t ≡ true) }
        requires count { length before.now.watching.items ≡ length self.old.client.watchpoints }
        requires looked { length before.now.watching.items ≡ length self.old.watched }
        requires last { way.now.last ≤ self.old.playback.moves }
        requires within { self.old.playback.moves ≤ self.old.furthest }
        ensures halt { IfOk result (λ found. (start : Position) (s : Told)
            → IsStartOf self.old.playback start → IsAsked self.old start s
            → WasSeen before.now s resumptions.now (here self.old start).moment.world
            → HasLooked (here self.old start).moment.world (kind_named before.now.kind)
            s.watchpoints self.old.watched
            → IsPassing before.now s resumptions.now way.now.is_first (here self.old start)
            → IsNoted s resumptions.now start way.now (here self.old start)
            → MatchOption found
            (forwards_from s resumptions.now start way.now (here self.old start)
            ≡ forwards_from s resumptions.now start (record way.now { is_first = false })
            (here self.new start))
            (λ halt. forwards_from s resumptions.now start way.now (here self.old start)
            ≡ halt_meant s resumptions.now start halt)) }
        ensures moves { IfOk result (λ found. MatchOption found
            (self.new.playback.moves ≡ self.old.playback.moves + 1)
            (λ halt. (way.now.last ≤ halt.moves) × (halt.moves ≤ self.new.playback.moves)
            × (halt.moves ≤ self.new.furthest))) }
        ensures born { IfOk result (λ found. IfSome found
            (λ halt. IfSome halt.born (λ p. has_process self.new.births p ≡ true))) }
        ensures puts { OnOk result ((start : Position) (first : ℕ)
            → IsStartOf self.old.playback start → first ≤ self.old.playback.moves
            → HasKept start first self.old.playback.moves puts.old.items
            → HasKept start first self.new.playback.moves puts.new.items) }
        ensures same { IsSame self.old self.new }
        ensures known { OnOk result (StillKnows self.old self.new) }
        ensures furthest { self.old.furthest ≤ self.new.furthest }
        ensures failed { OnOk result (self.new.failed ≡ false) }
    {
        if let Some(halt) = self.halt_at_last_exit(way) {
            return Ok(Some(halt));
        }
        let Some(_) = self.advance()? else {
            return Ok(Some(Halt::at(way.last, None, Cause::ReachedEnd)));
        };
        self.keep_puts(puts, before.moves)?;
        Ok(self.halt_moving(resumptions, way, before)?)
    }

    /// One move on, from a moment at which the resumption goes on: where it halts, if it does.
    fn go_on(
        &mut self,
        resumptions: &[Resumption],
        way: &Way,
        puts: &mut Vec<Put>,
    ) -> Result<Option<Halt>, AllocError>
        requires running { self.old.failed ≡ false }
        requires named { knows_named self.old.births resumptions.now ≡ true }
        requires last { way.now.last ≤ self.old.playback.moves }
        ensures halt { IfOk result (λ found. (start : Position) (s : Told)
            → IsStartOf self.old.playback start → IsAsked self.old start s
            → IsNoted s resumptions.now start way.now (here self.old start)
            → MatchOption found
            (forwards_from s resumptions.now start way.now (here self.old start)
            ≡ forwards_from s resumptions.now start (record way.now { is_first = false })
            (here self.new start))
            (λ halt. forwards_from s resumptions.now start way.now (here self.old start)
            ≡ halt_meant s resumptions.now start halt)) }
        ensures moves { IfOk result (λ found. MatchOption found
            (self.new.playback.moves ≡ self.old.playback.moves + 1)
            (λ halt. (way.now.last ≤ halt.moves) × (halt.moves ≤ self.new.playback.moves)
            × (halt.moves ≤ self.new.furthest))) }
        ensures born { IfOk result (λ found. IfSome found
            (λ halt. IfSome halt.born (λ p. has_process self.new.births p ≡ true))) }
        ensures puts { OnOk result ((start : Position) (first : ℕ)
            → IsStartOf self.old.playback start → first ≤ self.old.playback.moves
            → HasKept start first self.old.playback.moves puts.old.items
            → HasKept start first self.new.playback.moves puts.new.items) }
        ensures same { IsSame self.old self.new }
        ensures known { OnOk result (StillKnows self.old self.new) }
        ensures failed { OnOk result (self.new.failed ≡ false) }
    {
        let Some(kind) = self.playback.kind() else {
            return Ok(Some(Halt::at(way.last, None, Cause::ReachedEnd)));
        };
        let before = self.look(resumptions, kind)?;
        if let Some(halt) = self.halt_unless_first(way, &before)? {
            return Ok(Some(halt));
        }
        Ok(self.move_on(resumptions, way, &before, puts)?)
    }

    /// Where the actions lead, and what was put by the way.
    pub(crate) fn forwards(
        &mut self,
        resumptions: &[Resumption],
        puts: &mut Vec<Put>,
    ) -> Result<Halt, AllocError>
        requires running { self.old.failed ≡ false }
        requires named { knows_named self.old.births resumptions.now ≡ true }
        requires none { puts.old.items ≡ [] }
        ensures halt { IfOk result (λ halt. (start : Position) (s : Told)
            → IsStartOf self.old.playback start → IsAsked self.old start s
            → s.position ≡ here self.old start
            → (forwards s resumptions.now ≡ halt_meant s resumptions.now start halt)
            × (puts_before halt.moves puts.new.items
            ≡ puts_from s.position (position_after halt.moves start))) }
        ensures there { IfOk result (λ halt. halt.moves ≤ self.new.furthest) }
        ensures born { IfOk result
            (λ halt. IfSome halt.born (λ p. has_process self.new.births p ≡ true)) }
        ensures same { IsSame self.old self.new }
        ensures known { OnOk result (StillKnows self.old self.new) }
        ensures failed { OnOk result (self.new.failed ≡ false) }
    {
        let mut way = Way {
            is_first: true,
            was_there: false,
            last: self.playback.moves(),
        };
        let stops = self.quiet_stops_forwards(resumptions)?;
        for _ in 0..u64::MAX {
            way = self.with_here(resumptions, way);
            if let Some(halt) = self.go_on(resumptions, &way, puts)? {
                return Ok(halt);
            }
            way.is_first = false;
            if let Some(stops) = &stops {
                way = self.pass_forwards(resumptions, way, stops)?;
            }
        }
        // no history is as long
        Err(AllocError)
    }
}
