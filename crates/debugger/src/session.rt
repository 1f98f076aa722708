// A session, and one move on in its history.
ghost use Rattle.std.specs.Prelude.{◌≡◌, ◌≤◌, ◌+◌, [], IfOk, OnOk, false, is_err, true};
ghost use Rattle.debug_session.specs.Positions.{Position, first_kind};
ghost use Rattle.debug_session.specs.Recordings.{Recording};
ghost use Rattle.kernel_calls.specs.StateWorld.{IsSound};
ghost use Rattle.group_walk.specs.Walks.{kinds_named};
ghost use Rattle.recorded_walk.specs.Playbacks.{IsMisfitAt, IsStartOf, MovesSilently, moves_made};
ghost use Rattle.debug_client.specs.Births.{knows_named};
ghost use Rattle.debugger.specs.Standing.{Advances, IsSame, StillKnows, here};

use debug_client::{Births, Client};
use debug_hits::Watched;
use dos_world::Misfit;
use gdb_packets::resumptions::Resumption;
use group_walk::MoveKind;
use kernel_calls::State;
use recorded_walk::Playback;
use recorded_walk::laws::histories_start;
use std::alloc::{AllocError, Global};
use std::marker::Model;

/// A recorded run with where one stands in it; who was born at the moments that were come to; what
/// the client has named and set; the names and the bytes of the files that were run.
#[derive(Drop)]
pub struct Session {
    pub(crate) alloc: Global,
    pub(crate) playback: Playback,
    pub(crate) births: Births,
    // how many moves lead to the furthest moment that was come to
    pub(crate) furthest: u64,
    pub(crate) client: Client,
    pub(crate) watched: Watched,
    pub(crate) names: Vec<Vec<u8>>,
    pub(crate) files: Vec<Vec<u8>>,
    pub(crate) failed: bool,
}

impl Model for Session {
    ghost use Rattle.std.specs.Prelude.{◌≡◌, false};
    ghost use Rattle.debug_connection.specs.Keeping.{texts_of};
    ghost use Rattle.debugger.specs.Standing.{IsSessionReady, SessionView};

    ghost Value = { SessionView };

    ghost view = { λ s. record {
      playback = s.playback;
      births = s.births;
      furthest = s.furthest;
      client = s.client;
      watched = s.watched;
      names = texts_of s.names.items;
      files = texts_of s.files.items;
      failed = s.failed;
    } };

    ghost invariant = { λ s. s.failed ≡ false → IsSessionReady (record {
      playback = s.playback;
      births = s.births;
      furthest = s.furthest;
      client = s.client;
      watched = s.watched;
      names = texts_of s.names.items;
      files = texts_of s.files.items;
      failed = s.failed;
    }) };
}

impl Session {
    /// The kernel's state at this moment.
    pub(crate) fn state(&self) -> &State
        ensures state { result.now ≡ self.now.playback.walk.state }
        ensures sound { self.now.failed ≡ false → IsSound result.now }
    {
        self.playback.state()
    }

    /// One move on, and what it is; None where no move is next.
    pub(crate) fn advance(&mut self) -> Result<Option<MoveKind>, AllocError>
        requires { self.old.failed ≡ false }
        ensures moves { IfOk result (λ made. self.new.playback.moves
            ≡ self.old.playback.moves + moves_made made) }
        ensures advances { IfOk result (λ made. (start : Position)
            → IsStartOf self.old.playback start → Advances self.old self.new made start) }
        ensures same { IsSame self.old self.new }
        ensures known { OnOk result (StillKnows self.old self.new) }
        ensures watched { self.new.watched ≡ self.old.watched }
        ensures furthest { self.old.furthest ≤ self.new.furthest }
        ensures failed { self.new.failed ≡ is_err result }
    {
        histories_start();
        self.failed = true;
        let made = self.playback.advance()?;
        self.births.note(self.playback.state())?;
        self.furthest = self.furthest.max(self.playback.moves());
        self.failed = false;
        Ok(made)
    }

    /// The next moves at once, as far as they are instructions of the thread that is next, which is
    /// at none of these addresses before any of them, and change no byte of these frames; and at
    /// most so many. How many they are.
    pub(crate) fn run_on(&mut self, most: u32, stops: &[u32], kept: &[u32]) -> u32
        requires { self.old.failed ≡ false }
        ensures most { result ≤ most }
        ensures moves { self.new.playback.moves ≡ self.old.playback.moves + result }
        ensures silent { (start : Position) → IsStartOf self.old.playback start
            → MovesSilently stops.now kept.now result (here self.old start) }
        ensures same { IsSame self.old self.new }
        ensures births { self.new.births ≡ self.old.births }
        ensures watched { self.new.watched ≡ self.old.watched }
        ensures furthest { self.old.furthest ≤ self.new.furthest }
        ensures behind { self.new.playback.moves ≤ self.new.furthest }
        ensures running { self.new.failed ≡ false }
    {
        histories_start();
        self.failed = true;
        let count = self.playback.run_on(most, stops, kept);
        self.furthest = self.furthest.max(self.playback.moves());
        self.failed = false;
        count
    }

    /// To the moment behind so many moves, which was come to before.
    pub(crate) fn go_to(&mut self, moves: u64) -> Result<(), AllocError>
        requires running { self.old.failed ≡ false }
        requires furthest { moves ≤ self.old.furthest }
        ensures moves { OnOk result (self.new.playback.moves ≡ moves) }
        ensures same { IsSame self.old self.new }
        ensures births { OnOk result (self.new.births ≡ self.old.births) }
        ensures furthest { self.new.furthest ≡ self.old.furthest }
        ensures failed { self.new.failed ≡ is_err result }
    {
        histories_start();
        self.failed = true;
        self.playback.go_to(moves)?;
        self.births.note(self.playback.state())?;
        self.failed = false;
        Ok(())
    }

    /// What the next move is, without making it.
    pub(crate) fn next(&mut self) -> Result<Option<MoveKind>, AllocError>
        requires { self.old.failed ≡ false }
        ensures kind { IfOk result (λ kind. (start : Position)
            → IsStartOf self.old.playback start
            → first_kind (here self.old start).future ≡ kinds_named kind) }
        ensures moves { OnOk result (self.new.playback.moves ≡ self.old.playback.moves) }
        ensures same { IsSame self.old self.new }
        ensures births { self.new.births ≡ self.old.births }
        ensures watched { self.new.watched ≡ self.old.watched }
        ensures furthest { self.new.furthest ≡ self.old.furthest }
        ensures failed { self.new.failed ≡ is_err result }
    {
        histories_start();
        self.failed = true;
        let kind = self.playback.next()?;
        self.failed = false;
        Ok(kind)
    }

    /// What the log misfits by here, where it does.
    pub(crate) fn misfit(&mut self) -> Result<Option<Misfit>, AllocError>
        requires { self.old.failed ≡ false }
        ensures misfit { IfOk result (λ misfit. (start : Position) (r : Recording)
            → IsStartOf self.old.playback start → r.entries ≡ self.old.playback.entries
            → IsMisfitAt self.old.playback.config.rounds r (here self.old start) misfit) }
        ensures moves { OnOk result (self.new.playback.moves ≡ self.old.playback.moves) }
        ensures same { IsSame self.old self.new }
        ensures births { self.new.births ≡ self.old.births }
        ensures watched { self.new.watched ≡ self.old.watched }
        ensures furthest { self.new.furthest ≡ self.old.furthest }
        ensures failed { self.new.failed ≡ is_err result }
    {
        histories_start();
        self.failed = true;
        let misfit = self.playback.misfit()?;
        self.failed = false;
        Ok(misfit)
    }

    /// All who are born in the run are known, where one of these resumptions names a thread that
    /// wasn't yet.
    pub(crate) fn know_named(&mut self, resumptions: &[Resumption]) -> Result<(), AllocError>
        requires { self.old.failed ≡ false }
        ensures known { OnOk result (knows_named self.new.births resumptions.now ≡ true) }
        ensures moves { OnOk result (self.new.playback.moves ≡ self.old.playback.moves) }
        ensures same { IsSame self.old self.new }
        ensures failed { self.new.failed ≡ is_err result }
    {
        if self.births.knows_named(resumptions) {
            return Ok(());
        }
        self.know_all()
    }

    /// To the last moment of the history.
    fn go_to_end(&mut self) -> Result<(), AllocError>
        requires { self.old.failed ≡ false }
        ensures end { OnOk result ((start : Position) → IsStartOf self.old.playback start
            → (here self.new start).future ≡ []) }
        ensures same { IsSame self.old self.new }
        ensures furthest { self.old.furthest ≤ self.new.furthest }
        ensures failed { self.new.failed ≡ is_err result }
    {
        for _ in 0..u64::MAX {
            if self.advance()?.is_none() {
                return Ok(());
            }
            let _silent = self.run_on(u32::MAX, &[], &[]);
        }
        // no history is as long
        self.failed = true;
        Err(AllocError)
    }

    /// All who are born in the run are known.
    pub(crate) fn know_all(&mut self) -> Result<(), AllocError>
        requires { self.old.failed ≡ false }
        ensures whole { OnOk result (self.new.births.is_whole ≡ true) }
        ensures moves { OnOk result (self.new.playback.moves ≡ self.old.playback.moves) }
        ensures same { IsSame self.old self.new }
        ensures failed { self.new.failed ≡ is_err result }
    {
        let moves = self.playback.moves();
        self.go_to_end()?;
        self.births.set_whole();
        self.go_to(moves)
    }
}
