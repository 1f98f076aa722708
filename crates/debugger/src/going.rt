// A moment that a person wants to go to, and all that was put up to a moment.
ghost use Rattle.std.specs.Prelude.{◌≡◌, ◌≤◌, [], IfOk, List, OnOk, false, None};
ghost use Rattle.debug_session.specs.Goals.{goal_position, halt_gone, is_moment_reached};
ghost use Rattle.debug_session.specs.Goals.{is_somebody_shown, rewound};
ghost use Rattle.debug_session.specs.Positions.{Position, position_after};
ghost use Rattle.debug_session.specs.Sessions.{Session as Told};
ghost use Rattle.gdb_packets.specs.declared.resumptions.Resumption.{Resumption};
ghost use Rattle.recorded_walk.specs.Playbacks.{IsStartOf};
ghost use Rattle.debugger.specs.Halting.{AreBefore, HasKept, halt_meant, peopled_at, reached_at};
ghost use Rattle.debugger.specs.Standing.{IsAsked, IsSame, StillKnows, here};

use crate::forwards::Put;
use crate::halts::Halt;
use crate::session::Session;
use debug_session::Cause;
use recorded_walk::at_most;
use std::alloc::AllocError;

/// 2, of a moment that was gone to.
const GONE: u8 = 2;

impl Session {
    /// The moment isn't before this round and move.
    fn is_reached(&self, round: u64, made: u64) -> bool
        requires { self.now.failed ≡ false }
        ensures { (start : Position) → IsStartOf self.now.playback start
            → result ≡ is_moment_reached round made (here self.now start).moment }
    {
        let begun = u64::from(self.playback.begun());
        if round < begun {
            return true;
        }
        if round != begun {
            return false;
        }
        made <= self.playback.made()
    }

    /// Whether some process that is shown lives here.
    fn is_somebody_shown(&self) -> bool
        requires { self.now.failed ≡ false }
        ensures { (start : Position) (s : Told) → IsStartOf self.now.playback start
            → IsAsked self.now start s
            → result ≡ is_somebody_shown s (here self.now start).moment.world }
    {
        self.client.is_somebody_shown(self.playback.state())
    }

    /// The last moment up to here at which a process that is shown lives, by the last one in front
    /// of
    /// this one.
    fn peopled_here(&self, peopled: u64) -> u64
        requires { self.now.failed ≡ false }
        ensures peopled { (start : Position) (s : Told) → IsStartOf self.now.playback start
            → IsAsked self.now start s
            → (is_somebody_shown s (here self.now start).moment.world ≡ false
            → position_after peopled start ≡ peopled_at s (here self.now start))
            → position_after result start ≡ peopled_at s (here self.now start) }
        ensures within { peopled ≤ self.now.furthest → result ≤ self.now.furthest }
    {
        if self.is_somebody_shown() {
            return self.playback.moves();
        }
        peopled
    }

    /// How many moves are made at once towards this round and move: none where it is reached.
    fn most_towards(&self, round: u64, made: u64) -> u32
        requires { self.now.failed ≡ false }
        ensures { (start : Position) → IsStartOf self.now.playback start
            → AreBefore round made result (here self.now start).moment }
    {
        let begun = u64::from(self.playback.begun());
        if begun < round {
            return u32::MAX;
        }
        if round < begun {
            return 0;
        }
        at_most(made.saturating_sub(self.playback.made()))
    }

    /// Instructions ahead, none of which is behind this round and move: the last moment up to
    /// there at which a process that is shown lives, by the last one in front of this one.
    fn pass_towards(&mut self, round: u64, made: u64, peopled: u64) -> u64
        requires running { self.old.failed ≡ false }
        requires within { peopled ≤ self.old.furthest }
        ensures reached { (start : Position) → IsStartOf self.old.playback start
            → reached_at round made (here self.old start)
            ≡ reached_at round made (here self.new start) }
        ensures peopled { (start : Position) (s : Told) → IsStartOf self.old.playback start
            → IsAsked self.old start s
            → (is_somebody_shown s (here self.old start).moment.world ≡ false
            → position_after peopled start ≡ peopled_at s (here self.old start))
            → position_after result start ≡ peopled_at s (here self.new start) }
        ensures within { result ≤ self.new.furthest }
        ensures same { IsSame self.old self.new }
        ensures known { StillKnows self.old self.new }
        ensures running { self.new.failed ≡ false }
    {
        let most = self.most_towards(round, made);
        let is_shown = self.is_somebody_shown();
        let _silent = self.run_on(most, &[], &[]);
        if is_shown {
            return self.playback.moves();
        }
        peopled
    }

    /// Goes from the start to the first moment that isn't before this round and move, or to the
    /// last
    /// one; how many moves lead to the last moment up to there at which a process that is shown
    /// lives, or to the first.
    fn find_peopled(&mut self, round: u64, made: u64) -> Result<u64, AllocError>
        requires running { self.old.failed ≡ false }
        requires first { self.old.playback.moves ≡ 0 }
        ensures peopled { IfOk result (λ moves. (start : Position) (s : Told)
            → IsStartOf self.old.playback start → IsAsked self.old start s
            → rewound s.position ≡ start
            → position_after moves start ≡ goal_position s round made) }
        ensures there { IfOk result (λ moves. moves ≤ self.new.furthest) }
        ensures same { IsSame self.old self.new }
        ensures known { OnOk result (StillKnows self.old self.new) }
        ensures failed { OnOk result (self.new.failed ≡ false) }
    {
        let mut peopled = 0;
        for _ in 0..u64::MAX {
            peopled = self.peopled_here(peopled);
            if self.is_reached(round, made) {
                return Ok(peopled);
            }
            if self.advance()?.is_none() {
                return Ok(peopled);
            }
            peopled = self.pass_towards(round, made, peopled);
        }
        // no history is as long
        Err(AllocError)
    }

    /// The halt of a session that goes to a moment.
    pub(crate) fn halt_gone(&mut self, round: u64, made: u64) -> Result<Halt, AllocError>
        requires { self.old.failed ≡ false }
        ensures halt { IfOk result (λ halt. (rs : List Resumption) (start : Position) (s : Told)
            → IsStartOf self.old.playback start → IsAsked self.old start s
            → s.position ≡ here self.old start
            → halt_gone s rs round made ≡ halt_meant s rs start halt) }
        ensures there { IfOk result (λ halt. halt.moves ≤ self.new.furthest) }
        ensures born { IfOk result (λ halt. halt.born ≡ None) }
        ensures same { IsSame self.old self.new }
        ensures known { OnOk result (StillKnows self.old self.new) }
        ensures failed { OnOk result (self.new.failed ≡ false) }
    {
        self.go_to(0)?;
        let moves = self.find_peopled(round, made)?;
        let mut halt = Halt::at(moves, None, Cause::Plainly);
        halt.signal = GONE;
        Ok(halt)
    }

    /// What all moves up to this moment have put.
    pub(crate) fn puts_so_far(&mut self, puts: &mut Vec<Put>) -> Result<(), AllocError>
        requires running { self.old.failed ≡ false }
        requires none { puts.old.items ≡ [] }
        ensures puts { OnOk result ((start : Position) → IsStartOf self.old.playback start
            → HasKept start 0 self.old.playback.moves puts.new.items) }
        ensures moves { OnOk result (self.new.playback.moves ≡ self.old.playback.moves) }
        ensures same { IsSame self.old self.new }
        ensures failed { OnOk result (self.new.failed ≡ false) }
    {
        let moves = self.playback.moves();
        self.go_to(0)?;
        while self.playback.moves() < moves {
            let before = self.playback.moves();
            let Some(_) = self.advance()? else {
                return Err(AllocError);
            };
            self.keep_puts(puts, before)?;
            let most = at_most(moves - self.playback.moves());
            let _silent = self.run_on(most, &[], &[]);
        }
        Ok(())
    }
}
