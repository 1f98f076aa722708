// A recorded run that is walked.
ghost use Rattle.std.specs.Prelude.{◌≡◌, ◌≤◌, ◌+◌, ◌⊎◌, IfOk, IfErr, OnOk, Some, [], false};
ghost use Rattle.std.specs.Prelude.{is_err, length, true};
ghost use Rattle.debug_session.specs.Positions.{Position, first_kind, position_after};
ghost use Rattle.debug_session.specs.Recordings.{Recording};
ghost use Rattle.dos_world.specs.Lawful.{IsConfig};
ghost use Rattle.dos_world.specs.World.{World};
ghost use Rattle.dos_world.specs.declared.Scheme.TheVariants.{Ownership};
ghost use Rattle.flat_machine.specs.Opening.{needed};
ghost use Rattle.group_moves.specs.Moments.{ending_at, kind_at};
ghost use Rattle.group_moves.specs.Moves.{MoveKind as Move};
ghost use Rattle.group_moves.specs.Places.{between_rounds};
ghost use Rattle.group_rounds.specs.Kernels.{IsBetweenRounds};
ghost use Rattle.group_walk.specs.Places.{phase_at};
ghost use Rattle.group_walk.specs.Walks.{kinds_named};
ghost use Rattle.recorded_walk.specs.Following.{log_entries};
ghost use Rattle.recorded_walk.specs.Playbacks.{IsEndedAs, Heard, IsMisfitAt, IsOfSame, IsRefused};
ghost use Rattle.recorded_walk.specs.Playbacks.{IsLastExit, IsStartOf, MovesSilently, Stands};
ghost use Rattle.recorded_walk.specs.Playbacks.{ended_in, moves_made};

use crate::track::Track;
use dos_world::{Config, Ending, Misfit};
use elf_image::Image;
use group_open::OpenError;
use group_walk::{MoveKind, Phase};
use kernel_calls::{RunStop, State};
use log_text::Log;
use std::alloc::{AllocError, Global};
use std::marker::Model;

/// The history of a recorded run, and where one stands in it. Contracts see the run, how many of
/// its log's entries are used, the walk, how many moves were made, and whether a call has failed.
///
/// Backwards it opens the group anew and makes the moves again.
#[derive(Drop)]
pub struct Playback {
    alloc: Global,
    images: Vec<Image>,
    config: Config,
    track: Track,
    reached: u64,
    // behind so many moves no move is next: the log doesn't answer it
    last: Option<u64>,
    // what it asks there and what the log has
    misfit: Option<Misfit>,
    // how many entries the log has
    entries: u64,
    failed: bool,
}

impl Model for Playback {
    ghost use Rattle.std.specs.Prelude.{◌≡◌, ◌≤◌, false, length};
    ghost use Rattle.flat_machine.specs.Opening.{opening};
    ghost use Rattle.group_moves.specs.Moments.{first_moment};
    ghost use Rattle.recorded_walk.specs.Following.{log_entries};
    ghost use Rattle.recorded_walk.specs.Playbacks.{KnowsMisfit, HasMoves, HasNoMore, IsOpenable};
    ghost use Rattle.recorded_walk.specs.Playbacks.{Played};
    ghost use Rattle.recorded_walk.specs.Tracks.{HasCome, IsOnTrack};
    ghost use Rattle.shim_log.specs.Replay.{entries_used};

    ghost Value = { Played };

    ghost view = { λ p. record {
      images = p.images.items;
      config = p.config;
      entries = log_entries p.track.shim.log;
      used = entries_used p.track.shim;
      walk = p.track.walker;
      moves = p.track.moves;
      reached = p.reached;
      output = p.track.out.bytes.items;
      error = p.track.err.bytes.items;
      failed = p.failed;
    } };

    ghost invariant = { λ p. IsOpenable p.images.items p.config
        × (p.track.shim.start ≡ 0)
        × HasMoves p.images.items p.config (log_entries p.track.shim.log) p.reached
        × HasNoMore p.images.items p.config (log_entries p.track.shim.log) p.last
        × KnowsMisfit p.images.items p.config (log_entries p.track.shim.log) p.last p.misfit
        × (length (log_entries p.track.shim.log) ≡ p.entries)
        × (p.failed ≡ false → IsOnTrack p.track
        × HasCome (first_moment (opening p.images.items p.config)) p.track
        × (p.track.walker.config ≡ p.config) × (p.track.moves ≤ p.reached)) };
}

// the greater of two numbers of moves
fn furthest(a: u64, b: u64) -> u64
    ensures one { (result ≡ a) ⊎ (result ≡ b) }
    ensures first { a ≤ result }
    ensures second { b ≤ result }
{
    if a < b {
        return b;
    }
    a
}

// the ending that a phase has
fn ended_in(phase: Phase) -> Option<Ending>
    ensures { result ≡ ended_in phase }
{
    match phase {
        Phase::Between | Phase::Parallel | Phase::Serial => None,
        Phase::Ended(ending) => Some(ending),
    }
}

// how a run ends that doesn't stall
fn ending_of(state: &State) -> Ending
    ensures { (w : World) → w.threads ≡ state.now.table.threads
        → ending_at w between_rounds ≡ result }
{
    if state.table.live_threads() == 0 {
        return Ending::Done;
    }
    Ending::Limit
}

impl Playback {
    /// At the start of the history of these images over a log, in the ownership scheme.
    pub fn open(
        alloc: Global,
        images: Vec<Image>,
        config: Config,
        log: Log,
    ) -> Result<Playback, OpenError>
        requires some { 1 ≤ length images.items }
        requires few { length images.items ≤ 8 }
        requires config { IsConfig config }
        requires scheme { config.scheme ≡ Ownership }
        ensures images { IfOk result (λ p. p.images ≡ images.items) }
        ensures config { IfOk result (λ p. p.config ≡ config) }
        ensures entries { IfOk result (λ p. p.entries ≡ log_entries log) }
        ensures start { IfOk result (λ p. p.moves ≡ 0) }
        ensures running { IfOk result (λ p. p.failed ≡ false) }
        ensures stands { IfOk result Stands }
        ensures room { IfOk result (λ _. needed images.items ≤ config.frames) }
        ensures refused { IfErr result (IsRefused images.items config) }
    {
        let entries = u64::from(log.len());
        match Track::begin(alloc, &images, config, log) {
            Ok(track) => Ok(Playback {
                alloc,
                images,
                config,
                track,
                reached: 0,
                last: None,
                misfit: None,
                entries,
                failed: false,
            }),
            Err(error) => {
                drop(images);
                Err(error)
            }
        }
    }

    /// The state, with all frames home: that of the moment behind the moves so far.
    pub fn state(&self) -> &State
        ensures state { result.now ≡ self.now.walk.state }
        ensures stands { self.now.failed ≡ false → Stands self.now }
        ensures sound { self.now.failed ≡ false → IsBetweenRounds result.now self.now.config }
    {
        self.track.walker.state()
    }

    /// What the run was given.
    pub fn config(&self) -> Config
        ensures { result ≡ self.now.config }
    {
        self.config
    }

    /// The phase in which the next move is made.
    pub fn phase(&self) -> Phase
        ensures { phase_at self.now.walk.place ≡ result }
    {
        self.track.walker.phase()
    }

    /// What the next move would be, whether the log answers it or not; None where the run has
    /// ended.
    pub fn kind(&self) -> Option<MoveKind>
        requires { self.now.failed ≡ false }
        ensures kind { (start : Position) → IsStartOf self.now start
            → kind_at self.now.config.rounds (position_after self.now.moves start).moment
            ≡ kinds_named result }
        ensures ahead { (start : Position) (made : Move) → IsStartOf self.now start
            → first_kind (position_after self.now.moves start).future ≡ Some made
            → kinds_named result ≡ Some made }
    {
        self.track.walker.next()
    }

    /// Whether the next move ends the only process that lives, without making it; it asks the log
    /// nothing. No more is said where it answers false.
    pub fn is_last_exit(&self) -> bool
        requires { self.now.failed ≡ false }
        ensures { result ≡ true → (start : Position) → IsStartOf self.now start
            → IsLastExit (position_after self.now.moves start) }
    {
        self.track.walker.is_last_exit()
    }

    /// How the run has ended, where it has: no move is next, whatever the log holds.
    pub fn ending(&self) -> Option<Ending>
        requires { self.now.failed ≡ false }
        ensures { (start : Position) → IsStartOf self.now start
            → IsEndedAs self.now.config.rounds (position_after self.now.moves start).moment result }
    {
        if self.track.walker.next().is_some() {
            return None;
        }
        match ended_in(self.track.walker.phase()) {
            Some(ending) => Some(ending),
            None => Some(ending_of(self.track.walker.state())),
        }
    }

    /// How many entries the log has, its end too.
    pub fn entries(&self) -> u64
        ensures { length self.now.entries ≡ result }
    {
        self.entries
    }

    /// How many rounds have begun.
    pub fn begun(&self) -> u32
        ensures { result ≡ self.now.walk.begun_rounds }
    {
        self.track.walker.begun()
    }

    /// How many moves were made since the last round began.
    pub fn made(&self) -> u64
        ensures { result ≡ self.now.walk.made }
    {
        self.track.walker.made()
    }

    /// How many moves were made since the start.
    pub fn moves(&self) -> u64
        ensures moves { result ≡ self.now.moves }
        ensures reached { self.now.failed ≡ false → result ≤ self.now.reached }
    {
        self.track.moves
    }

    /// The greatest number of moves since the start so far.
    pub fn reached(&self) -> u64
        ensures { result ≡ self.now.reached }
    {
        self.reached
    }

    /// How many entries of the log the moves so far have used.
    pub fn used(&self) -> u32
        ensures { result ≡ self.now.used }
    {
        self.track.shim.used()
    }

    /// What the last move put to output and to error.
    pub fn heard(&self) -> (&[u8], &[u8])
        ensures output { result.0.now ≡ self.now.output }
        ensures error { result.1.now ≡ self.now.error }
    {
        (&self.track.out.bytes, &self.track.err.bytes)
    }

    /// Whether a call has failed: nothing more is said of the state then.
    pub fn is_failed(&self) -> bool
        ensures { result ≡ self.now.failed }
    {
        self.failed
    }

    // At the start again, and then behind so many moves.
    fn come_again(&mut self, moves: u64) -> Result<(), AllocError>
        requires { moves ≤ self.old.reached }
        ensures moves { OnOk result (self.new.moves ≡ moves) }
        ensures stands { OnOk result (Stands self.new) }
        ensures failed { self.new.failed ≡ is_err result }
        ensures same { IsOfSame self.old self.new }
        ensures reached { self.new.reached ≡ self.old.reached }
    {
        self.failed = true;
        self.track
            .begin_again(self.alloc, &self.images, self.config)?;
        self.track.go_on(moves)?;
        self.failed = false;
        Ok(())
    }

    // Comes back from a move that the log doesn't answer: no move is next.
    fn come_back(&mut self, moves: u64) -> Result<(), AllocError>
        requires { moves ≤ self.old.reached }
        ensures moves { OnOk result (self.new.moves ≡ moves) }
        ensures stands { OnOk result (Stands self.new) }
        ensures failed { self.new.failed ≡ is_err result }
        ensures same { IsOfSame self.old self.new }
        ensures reached { self.new.reached ≡ self.old.reached }
        ensures output { self.new.output ≡ [] }
        ensures error { self.new.error ≡ [] }
    {
        let came = self.come_again(moves);
        self.track.hear_nothing();
        came
    }

    // One move on, and what it is. None where no move is next, with what the log misfits by there.
    fn make_next(&mut self) -> Result<(Option<MoveKind>, Option<Misfit>), AllocError>
        requires { self.old.failed ≡ false }
        ensures kind { IfOk result (λ made. (start : Position) → IsStartOf self.old start
            → first_kind (position_after self.old.moves start).future ≡ kinds_named made.0) }
        ensures misfit { IfOk result (λ made. (start : Position) (r : Recording)
            → IsStartOf self.old start → r.entries ≡ self.old.entries
            → IsMisfitAt self.old.config.rounds r (position_after self.old.moves start) made.1) }
        ensures moves { IfOk result (λ made. self.new.moves
            ≡ self.old.moves + moves_made made.0) }
        ensures stands { OnOk result (Stands self.new) }
        ensures heard { OnOk result ((start : Position) → IsStartOf self.old start
            → Heard self.new (position_after self.old.moves start).moment.world
            (position_after self.new.moves start).moment.world) }
        ensures failed { self.new.failed ≡ is_err result }
        ensures same { IsOfSame self.old self.new }
        ensures reached { self.old.reached ≤ self.new.reached }
    {
        if self.last == Some(self.track.moves) {
            self.track.hear_nothing();
            return Ok((None, self.misfit));
        }
        let moves = self.track.moves;
        match self.track.step() {
            Ok(kind) => {
                self.reached = furthest(self.reached, self.track.moves);
                Ok((kind, None))
            }
            Err(RunStop::Misfit(found)) => {
                self.failed = true;
                self.last = Some(moves);
                self.misfit = Some(found);
                self.come_back(moves)?;
                Ok((None, Some(found)))
            }
            Err(_) => {
                self.failed = true;
                Err(AllocError)
            }
        }
    }

    /// One move on, and what it is. None exactly where no move is next, since the run is over or
    /// the log doesn't answer it, and then it stands where it stood. What the move puts is kept.
    ///
    /// After an `Err`, for want of memory, it has failed, and nothing more is said of the state.
    pub fn advance(&mut self) -> Result<Option<MoveKind>, AllocError>
        requires { self.old.failed ≡ false }
        ensures kind { IfOk result (λ kind. (start : Position) → IsStartOf self.old start
            → first_kind (position_after self.old.moves start).future ≡ kinds_named kind) }
        ensures moves { IfOk result (λ kind. self.new.moves ≡ self.old.moves + moves_made kind) }
        ensures stands { OnOk result (Stands self.new) }
        ensures heard { OnOk result ((start : Position) → IsStartOf self.old start
            → Heard self.new (position_after self.old.moves start).moment.world
            (position_after self.new.moves start).moment.world) }
        ensures failed { self.new.failed ≡ is_err result }
        ensures same { IsOfSame self.old self.new }
        ensures reached { self.old.reached ≤ self.new.reached }
    {
        let made = self.make_next()?;
        Ok(made.0)
    }

    /// The next moves at once, as far as they are instructions of the thread that is next, which is
    /// at none of these addresses before any of them, and change no byte of these frames; and at
    /// most so many. How many they are. They put nothing.
    pub fn run_on(&mut self, most: u32, stops: &[u32], kept: &[u32]) -> u32
        requires { self.old.failed ≡ false }
        ensures most { result ≤ most }
        ensures silent { (start : Position) → IsStartOf self.old start
            → MovesSilently stops.now kept.now result (position_after self.old.moves start) }
        ensures moves { self.new.moves ≡ self.old.moves + result }
        ensures stands { Stands self.new }
        ensures output { self.new.output ≡ [] }
        ensures error { self.new.error ≡ [] }
        ensures running { self.new.failed ≡ false }
        ensures same { IsOfSame self.old self.new }
        ensures reached { self.old.reached ≤ self.new.reached }
    {
        let count = self.track.run_on(most, stops, kept);
        self.reached = furthest(self.reached, self.track.moves);
        count
    }

    // What the next move is, and where none is next, what the log misfits by there.
    fn look_on(&mut self) -> Result<(Option<MoveKind>, Option<Misfit>), AllocError>
        requires { self.old.failed ≡ false }
        ensures kind { IfOk result (λ seen. (start : Position) → IsStartOf self.old start
            → first_kind (position_after self.old.moves start).future ≡ kinds_named seen.0) }
        ensures misfit { IfOk result (λ seen. (start : Position) (r : Recording)
            → IsStartOf self.old start → r.entries ≡ self.old.entries
            → IsMisfitAt self.old.config.rounds r (position_after self.old.moves start) seen.1) }
        ensures moves { OnOk result (self.new.moves ≡ self.old.moves) }
        ensures stands { OnOk result (Stands self.new) }
        ensures failed { self.new.failed ≡ is_err result }
        ensures same { IsOfSame self.old self.new }
        ensures reached { self.old.reached ≤ self.new.reached }
    {
        if self.track.moves < self.reached {
            return Ok((self.track.walker.next(), None));
        }
        match self.track.walker.next() {
            Some(MoveKind::Runs { thread }) => Ok((Some(MoveKind::Runs { thread }), None)),
            Some(MoveKind::Faults { thread, number }) => {
                Ok((Some(MoveKind::Faults { thread, number }), None))
            }
            Some(kind) => {
                if self.track.walker.is_last_exit() {
                    return Ok((Some(kind), None));
                }
                self.try_next()
            }
            None => Ok((None, None)),
        }
    }

    // The same by a try.
    fn try_next(&mut self) -> Result<(Option<MoveKind>, Option<Misfit>), AllocError>
        requires { self.old.failed ≡ false }
        ensures kind { IfOk result (λ seen. (start : Position) → IsStartOf self.old start
            → first_kind (position_after self.old.moves start).future ≡ kinds_named seen.0) }
        ensures misfit { IfOk result (λ seen. (start : Position) (r : Recording)
            → IsStartOf self.old start → r.entries ≡ self.old.entries
            → IsMisfitAt self.old.config.rounds r (position_after self.old.moves start) seen.1) }
        ensures moves { OnOk result (self.new.moves ≡ self.old.moves) }
        ensures stands { OnOk result (Stands self.new) }
        ensures failed { self.new.failed ≡ is_err result }
        ensures same { IsOfSame self.old self.new }
        ensures reached { self.old.reached ≤ self.new.reached }
    {
        let moves = self.track.moves;
        match self.make_next()? {
            (Some(kind), misfit) => {
                self.come_again(moves)?;
                Ok((Some(kind), misfit))
            }
            (None, misfit) => Ok((None, misfit)),
        }
    }

    /// What the next move is, and it stands where it stood. A round's begin and a service are tried
    /// where it hasn't been further yet, and gone back on; but not the last process's exit.
    ///
    /// After an `Err`, for want of memory, it has failed, and nothing more is said of the state.
    pub fn next(&mut self) -> Result<Option<MoveKind>, AllocError>
        requires { self.old.failed ≡ false }
        ensures kind { IfOk result (λ kind. (start : Position) → IsStartOf self.old start
            → first_kind (position_after self.old.moves start).future ≡ kinds_named kind) }
        ensures moves { OnOk result (self.new.moves ≡ self.old.moves) }
        ensures stands { OnOk result (Stands self.new) }
        ensures failed { self.new.failed ≡ is_err result }
        ensures same { IsOfSame self.old self.new }
        ensures reached { self.old.reached ≤ self.new.reached }
    {
        let seen = self.look_on()?;
        Ok(seen.0)
    }

    /// The next entry of the log and what the next move would ask in its place, where that isn't
    /// the entry's question; None where a move is next, or the run has ended.
    ///
    /// After an `Err`, for want of memory, it has failed, and nothing more is said of the state.
    pub fn misfit(&mut self) -> Result<Option<Misfit>, AllocError>
        requires { self.old.failed ≡ false }
        ensures misfit { IfOk result (λ misfit. (start : Position) (r : Recording)
            → IsStartOf self.old start → r.entries ≡ self.old.entries
            → IsMisfitAt self.old.config.rounds r (position_after self.old.moves start) misfit) }
        ensures moves { OnOk result (self.new.moves ≡ self.old.moves) }
        ensures stands { OnOk result (Stands self.new) }
        ensures failed { self.new.failed ≡ is_err result }
        ensures same { IsOfSame self.old self.new }
        ensures reached { self.old.reached ≤ self.new.reached }
    {
        let seen = self.look_on()?;
        Ok(seen.1)
    }

    /// To the place behind so many moves, which the history has.
    ///
    /// After an `Err`, for want of memory, it has failed, and nothing more is said of the state.
    pub fn go_to(&mut self, moves: u64) -> Result<(), AllocError>
        requires running { self.old.failed ≡ false }
        requires reached { moves ≤ self.old.reached }
        ensures moves { OnOk result (self.new.moves ≡ moves) }
        ensures stands { OnOk result (Stands self.new) }
        ensures failed { self.new.failed ≡ is_err result }
        ensures same { IsOfSame self.old self.new }
        ensures reached { self.new.reached ≡ self.old.reached }
    {
        if moves < self.track.moves {
            return self.come_again(moves);
        }
        self.failed = true;
        self.track.go_on(moves)?;
        self.failed = false;
        Ok(())
    }
}
