// Where a resumption halts, and what the session is then.
ghost use Rattle.std.specs.Prelude.{◌≡◌, ◌≤◌, IfOk, IfSome, None, OnOk, false, true, is_err};
ghost use Rattle.std.specs.Prelude.{Some, if◌then◌else◌, option_and_then, option_map};
ghost use Rattle.group_walk.specs.Walks.{kinds_named};
ghost use Rattle.debug_session.specs.Halts.{halted_session};
ghost use Rattle.debug_session.specs.Positions.{Position, mover_of};
ghost use Rattle.debug_session.specs.Sessions.{Session as Told, chosen_at, home_pair};
ghost use Rattle.debug_session.specs.Stops.{stop_text};
ghost use Rattle.recorded_walk.specs.Playbacks.{IsStartOf};
ghost use Rattle.debug_client.specs.Births.{has_home, has_named, has_process};
ghost use Rattle.debugger.specs.Halting.{halt_meant, whose_stop};
ghost use Rattle.debugger.specs.Standing.{IsAsked, IsSame, IsSameRun, here, session_at};

use crate::moving::mover_of;
use crate::session::Session;
use debug_answers::put_stop;
use debug_session::{Cause, Stop};
use gdb_packets::resumptions::Resumption;
use group_walk::MoveKind;
use std::alloc::AllocError;

/// 5, by which gdb is told of all stops but faults and gone moments.
const TRAP: u8 = 5;

/// A moment by the moves that lead to it, and a stop; a process that is told of from now on;
/// whether its thread's step is owed.
#[derive(Clone, Copy, Debug, PartialEq, Eq)]
pub(crate) struct Halt {
    /// How many moves lead to its moment.
    pub(crate) moves: u64,
    /// The signal, by gdb's number.
    pub(crate) signal: u8,
    /// The process and the thread whose stop it is; None is the thread that is chosen there.
    pub(crate) whose: Option<(u32, u32)>,
    /// Why.
    pub(crate) cause: Cause,
    /// The process that is told of from now on.
    pub(crate) born: Option<u32>,
    /// Whether its thread's step is owed.
    pub(crate) is_owed: bool,
}

// the thread whose step is owed, where it is
fn owed_by(is_owed: bool, thread: u32) -> Option<u32>
    ensures { result ≡ (if is_owed then Some thread else None) }
{
    if is_owed {
        return Some(thread);
    }
    None
}

// the thread that makes the move that is next
fn next_mover(kind: Option<MoveKind>) -> Option<u32>
    ensures { result ≡ option_and_then mover_of (kinds_named kind) }
{
    match kind {
        Some(kind) => mover_of(kind),
        None => None,
    }
}

impl Halt {
    /// With 5, at the moment behind so many moves.
    pub(crate) fn at(moves: u64, whose: Option<(u32, u32)>, cause: Cause) -> Halt
        ensures { result ≡ record {
          moves = moves;
          signal = 5;
          whose = whose;
          cause = cause;
          born = None;
          is_owed = false;
        } }
    {
        Halt {
            moves,
            signal: TRAP,
            whose,
            cause,
            born: None,
            is_owed: false,
        }
    }
}

impl Session {
    /// The thread's process, and the thread.
    pub(crate) fn home_pair(&self, thread: u32) -> (u32, u32)
        requires running { self.now.failed ≡ false }
        requires known { has_home self.now.births thread ≡ true }
        ensures { (start : Position) (s : Told) → IsStartOf self.now.playback start
            → IsAsked self.now start s → result ≡ home_pair s thread }
    {
        self.client.home_pair(&self.births, thread)
    }

    /// The same, where there is a thread.
    pub(crate) fn pair_of(&self, thread: Option<u32>) -> Option<(u32, u32)>
        requires running { self.now.failed ≡ false }
        requires known { has_named self.now.births thread ≡ true }
        ensures { (start : Position) (s : Told) → IsStartOf self.now.playback start
            → IsAsked self.now start s → result ≡ option_map (home_pair s) thread }
    {
        match thread {
            Some(thread) => Some(self.home_pair(thread)),
            None => None,
        }
    }

    /// The thread that a stop names here which is nobody's in particular.
    fn chosen_here(&mut self, resumptions: &[Resumption]) -> Result<(u32, u32), AllocError>
        requires running { self.old.failed ≡ false }
        ensures chosen { IfOk result (λ pair. (start : Position) (s : Told)
            → IsStartOf self.old.playback start → IsAsked self.old start s
            → pair ≡ chosen_at s resumptions.now (here self.old start)) }
        ensures moves { OnOk result (self.new.playback.moves ≡ self.old.playback.moves) }
        ensures same { IsSame self.old self.new }
        ensures births { self.new.births ≡ self.old.births }
        ensures running { OnOk result (self.new.failed ≡ false) }
    {
        let mover = next_mover(self.next()?);
        self.client.chosen(
            self.alloc,
            &self.births,
            resumptions,
            self.playback.state(),
            mover,
        )
    }

    /// Whose stop it is here: of this pair, or of the thread that is chosen.
    fn whose_here(
        &mut self,
        resumptions: &[Resumption],
        whose: Option<(u32, u32)>,
    ) -> Result<(u32, u32), AllocError>
        requires running { self.old.failed ≡ false }
        ensures whose { IfOk result (λ pair. (start : Position) (s : Told)
            → IsStartOf self.old.playback start → IsAsked self.old start s
            → pair ≡ whose_stop s resumptions.now (here self.old start) whose) }
        ensures moves { OnOk result (self.new.playback.moves ≡ self.old.playback.moves) }
        ensures same { IsSame self.old self.new }
        ensures births { self.new.births ≡ self.old.births }
        ensures running { OnOk result (self.new.failed ≡ false) }
    {
        match whose {
            Some(pair) => Ok(pair),
            None => self.chosen_here(resumptions),
        }
    }

    /// Goes to a halt's moment, and is there what the halt makes of the session; the stop's text.
    pub(crate) fn halt(
        &mut self,
        resumptions: &[Resumption],
        halt: Halt,
    ) -> Result<Vec<u8>, AllocError>
        requires running { self.old.failed ≡ false }
        requires there { halt.moves ≤ self.old.furthest }
        requires born { IfSome halt.born (λ p. has_process self.old.births p ≡ true) }
        ensures halted { IfOk result (λ text. (start : Position) (s : Told)
            → IsStartOf self.old.playback start → IsAsked self.old start s
            → (session_at self.new (here self.new start)
            ≡ halted_session s (halt_meant s resumptions.now start halt))
            × (text.items ≡ stop_text (halt_meant s resumptions.now start halt).stop)) }
        ensures running { OnOk result (self.new.failed ≡ false) }
        ensures run { IsSameRun self.old self.new }
    {
        self.go_to(halt.moves)?;
        let whose = self.whose_here(resumptions, halt.whose)?;
        let owed = owed_by(halt.is_owed, whose.1);
        self.client.halt(whose, halt.born, owed)?;
        let mut text = Vec::new(self.alloc);
        put_stop(
            &mut text,
            Stop {
                signal: halt.signal,
                whose,
                cause: halt.cause,
            },
        )?;
        Ok(text)
    }
}
