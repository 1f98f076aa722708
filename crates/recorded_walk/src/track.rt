// A walk by the answers of a log, and how many moves were made.
ghost use Rattle.std.specs.Prelude.{◌≡◌, ◌≤◌, ◌<◌, ◌+◌, [], IfOk, IfErr, IsErrOf, OnOk, length};
ghost use Rattle.dos_world.specs.Lawful.{IsConfig};
ghost use Rattle.dos_world.specs.declared.Misfit.{Misfit};
ghost use Rattle.dos_world.specs.declared.Scheme.TheVariants.{Ownership};
ghost use Rattle.flat_machine.specs.Opening.{needed, opening};
ghost use Rattle.group_moves.specs.Moments.{Moment, first_moment};
ghost use Rattle.kernel_calls.specs.declared.state.RunStop.TheVariants as stops;
ghost use Rattle.group_walk.specs.Stretches.{HasGoneOn};
ghost use Rattle.recorded_walk.specs.Playbacks.{IsRefused};
ghost use Rattle.recorded_walk.specs.Tracks.{HasCome, HasStepped, IsOfSameRun, IsOnTrack};
ghost use Rattle.recorded_walk.specs.Tracks.{MisfitsBy, MovesNowhere};

use crate::making::make_by_log;
use crate::puts::Puts;
use dos_world::Config;
use dpg_run::open_group;
use elf_image::Image;
use group_open::OpenError;
use group_walk::{MoveKind, Walker};
use kernel_calls::RunStop;
use log_text::Log;
use shim_log::Replayer;
use std::alloc::{AllocError, Global};
use std::mem;

/// A walk by the answers of a log, how many moves were made, and what the last of them put.
#[derive(Drop)]
pub(crate) struct Track {
    pub(crate) walker: Walker,
    pub(crate) shim: Replayer,
    pub(crate) out: Puts,
    pub(crate) err: Puts,
    pub(crate) moves: u64,
}

// So many moves and as many instructions as a call makes at once are still counted.
const MOST_MOVES: u64 = 18_446_744_069_414_584_320;

/// So many moves, or as many as a call makes at once.
pub fn at_most(moves: u64) -> u32
    ensures most { result ≤ moves }
    ensures some { 0 < moves → 0 < result }
{
    moves.min(u64::from(u32::MAX)) as u32
}

impl Track {
    /// At the start of the history of these images over a log.
    pub(crate) fn begin(
        alloc: Global,
        images: &[Image],
        config: Config,
        log: Log,
    ) -> Result<Track, OpenError>
        requires some { 1 ≤ length images.now }
        requires few { length images.now ≤ 8 }
        requires config { IsConfig config }
        requires scheme { config.scheme ≡ Ownership }
        ensures on_track { IfOk result IsOnTrack }
        ensures come { IfOk result (HasCome (first_moment (opening images.now config))) }
        ensures start { IfOk result (λ t. t.moves ≡ 0) }
        ensures config { IfOk result (λ t. t.walker.config ≡ config) }
        ensures log { IfOk result (λ t. t.shim.log ≡ log) }
        ensures whole { IfOk result (λ t. t.shim.start ≡ 0) }
        ensures nothing_out { IfOk result (λ t. t.out.bytes.items ≡ []) }
        ensures nothing_err { IfOk result (λ t. t.err.bytes.items ≡ []) }
        ensures room { IfOk result (λ _. needed images.now ≤ config.frames) }
        ensures refused { IfErr result (IsRefused images.now config) }
    {
        match open_group(alloc, images, config) {
            Ok(kernel) => Ok(Track {
                walker: Walker::begin(kernel),
                shim: Replayer::new(log),
                out: Puts::new(alloc),
                err: Puts::new(alloc),
                moves: 0,
            }),
            Err(error) => {
                drop(log);
                Err(error)
            }
        }
    }

    /// Back at the start, with the images of which it is.
    pub(crate) fn begin_again(
        &mut self,
        alloc: Global,
        images: &[Image],
        config: Config,
    ) -> Result<(), AllocError>
        requires some { 1 ≤ length images.now }
        requires few { length images.now ≤ 8 }
        requires config { IsConfig config }
        requires scheme { config.scheme ≡ Ownership }
        requires whole { self.old.shim.start ≡ 0 }
        ensures on_track { OnOk result (IsOnTrack self.new) }
        ensures come { OnOk result (HasCome (first_moment (opening images.now config)) self.new) }
        ensures start { OnOk result (self.new.moves ≡ 0) }
        ensures config { OnOk result (self.new.walker.config ≡ config) }
        ensures log { self.new.shim.log ≡ self.old.shim.log }
        ensures whole { self.new.shim.start ≡ 0 }
    {
        match open_group(alloc, images, config) {
            Ok(kernel) => {
                drop(mem::replace(&mut self.walker, Walker::begin(kernel)));
                self.shim.restart();
                self.moves = 0;
                Ok(())
            }
            Err(_) => Err(AllocError),
        }
    }

    /// Nothing was put.
    pub(crate) fn hear_nothing(&mut self)
        ensures out { self.new.out.bytes.items ≡ [] }
        ensures err { self.new.err.bytes.items ≡ [] }
        ensures walker { self.new.walker ≡ self.old.walker }
        ensures shim { self.new.shim ≡ self.old.shim }
        ensures moves { self.new.moves ≡ self.old.moves }
    {
        self.out.clear();
        self.err.clear();
    }

    /// One move on, and what it is; None where no move is next. Where it stops by a misfit, the log
    /// doesn't answer the move; else it stops for want of memory.
    pub(crate) fn step(&mut self) -> Result<Option<MoveKind>, RunStop>
        requires { IsOnTrack self.old }
        ensures steps { IfOk result (λ kind. HasStepped kind self.old self.new) }
        ensures misfit { (found : Misfit) → IsErrOf result (stops.Misfit found)
            → MovesNowhere self.old.walker self.old.shim }
        ensures found { (found : Misfit) → IsErrOf result (stops.Misfit found)
            → MisfitsBy found self.old.walker self.old.shim }
        ensures on_track { OnOk result (IsOnTrack self.new) }
        ensures same { IsOfSameRun self.old self.new }
    {
        self.hear_nothing();
        let kind = match self.walker.next() {
            Some(kind) => kind,
            None => return Ok(None),
        };
        // no run has so many
        if self.moves >= u64::MAX - 1 {
            return Err(RunStop::Memory);
        }
        make_by_log(
            &mut self.walker,
            &mut self.shim,
            &mut self.out,
            &mut self.err,
        )?;
        self.moves += 1;
        Ok(Some(kind))
    }

    /// The next moves at once, as far as they are instructions of the thread that is next, which is
    /// at none of these addresses before any of them, and change no byte of these frames; and at
    /// most so many. How many they are.
    pub(crate) fn run_on(&mut self, most: u32, stops: &[u32], kept: &[u32]) -> u32
        requires { IsOnTrack self.old }
        ensures most { result ≤ most }
        ensures moves { self.new.moves ≡ self.old.moves + result }
        ensures runs { HasGoneOn stops.now kept.now result self.old.walker self.new.walker }
        ensures shim { self.new.shim ≡ self.old.shim }
        ensures out { self.new.out.bytes.items ≡ [] }
        ensures err { self.new.err.bytes.items ≡ [] }
        ensures come { (first : Moment) → HasCome first self.old → HasCome first self.new }
        ensures on_track { IsOnTrack self.new }
        ensures same { IsOfSameRun self.old self.new }
    {
        self.hear_nothing();
        // no run has so many
        if self.moves >= MOST_MOVES {
            return 0;
        }
        let count = self.walker.run_on(most, stops, kept);
        self.moves += u64::from(count);
        count
    }

    /// So many moves on, where the history has them.
    pub(crate) fn go_on(&mut self, moves: u64) -> Result<(), AllocError>
        requires on_track { IsOnTrack self.old }
        requires later { self.old.moves ≤ moves }
        ensures moves { OnOk result (self.new.moves ≡ moves) }
        ensures come { OnOk result ((first : Moment) → HasCome first self.old
            → HasCome first self.new) }
        ensures on_track { OnOk result (IsOnTrack self.new) }
        ensures same { IsOfSameRun self.old self.new }
    {
        while self.moves < moves {
            if self.run_on(at_most(moves - self.moves), &[], &[]) == 0 {
                match self.step() {
                    Ok(Some(_)) => {}
                    Ok(None) | Err(_) => return Err(AllocError),
                }
            }
        }
        Ok(())
    }
}
