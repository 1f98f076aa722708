// Moves made at once, by which nothing is told: instructions that change nothing that is watched.
ghost use Rattle.std.specs.Prelude.{◌≡◌, ◌≤◌, ◌<◌, ◌++◌, All, IfOk, IfSome, List, true, false};
ghost use Rattle.std.specs.Prelude.{OnOk, map, option_to_list, ℕ};
ghost use Rattle.debug_session.specs.Backwards.{was_ever_there};
ghost use Rattle.debug_session.specs.declared.points.Breakpoint.{Breakpoint as Broken};
ghost use Rattle.debug_session.specs.declared.points.WatchKind.TheVariants.{Changes};
ghost use Rattle.debug_session.specs.Positions.{Position};
ghost use Rattle.debug_session.specs.Sessions.{Session as Told};
ghost use Rattle.gdb_packets.specs.declared.resumptions.Resumption.{Resumption};
ghost use Rattle.recorded_walk.specs.Playbacks.{IsStartOf};
ghost use Rattle.debug_client.specs.Births.{knows_named};
ghost use Rattle.debugger.specs.Halting.{HasKept, backwards_from, forwards_from, halt_meant};
ghost use Rattle.debugger.specs.Halting.{knows_stepped};
ghost use Rattle.debugger.specs.Quiet.{AreWatchedIn, IsForChanges, StopsAtAddresses, frame_at};
ghost use Rattle.debugger.specs.Quiet.{frames_watched, is_nobody_stepping};
ghost use Rattle.debugger.specs.Standing.{IsAsked, IsSame, StillKnows, here};

use crate::forwards::{Put, Way, is_any_stepping};
use crate::halts::Halt;
use crate::moving::are_short;
use crate::session::Session;
use debug_session::{Breakpoint, Cause, WatchKind, Watchpoint};
use gdb_packets::resumptions::Resumption;
use group_walk::MoveKind;
use recorded_walk::at_most;
use std::alloc::{AllocError, Global};

// whether it is that of a watchpoint that is hit by changes alone
fn is_for_changes(kind: WatchKind) -> bool
    ensures { result ≡ true → kind ≡ Changes }
{
    match kind {
        WatchKind::Changes => true,
        WatchKind::Reads => false,
        WatchKind::Accesses => false,
    }
}

// whether each is hit by changes alone
fn are_for_changes(points: &[Watchpoint]) -> bool
    ensures { result ≡ true → All IsForChanges points.now }
{
    for point in points {
        if !is_for_changes(point.kind) {
            return false;
        }
    }
    true
}

// where breakpoints are
fn addresses_of(alloc: Global, points: &[Breakpoint]) -> Result<Vec<u32>, AllocError>
    ensures { IfOk result
        (λ stops. stops.items ≡ map (λ (point : Broken). point.address) points.now) }
{
    let mut stops = Vec::new(alloc);
    for point in points {
        stops.push(point.address)?;
    }
    Ok(stops)
}

impl Session {
    /// The addresses of all breakpoints, where all watchpoints are hit by changes alone; else None.
    pub(crate) fn quiet_stops(&self) -> Result<Option<Vec<u32>>, AllocError>
        ensures { IfOk result (λ found. IfSome found (λ stops. (start : Position) (s : Told)
            → IsAsked self.now start s → StopsAtAddresses s stops.items)) }
    {
        if !are_for_changes(self.client.watchpoints()) {
            return Ok(None);
        }
        let stops = addresses_of(self.alloc, self.client.breakpoints())?;
        Ok(Some(stops))
    }

    /// The same, where nobody steps either.
    pub(crate) fn quiet_stops_forwards(
        &self,
        resumptions: &[Resumption],
    ) -> Result<Option<Vec<u32>>, AllocError>
        ensures { IfOk result (λ found. IfSome found (λ stops. (start : Position) (s : Told)
            → IsAsked self.now start s
            → StopsAtAddresses s stops.items × (is_nobody_stepping resumptions.now ≡ true))) }
    {
        if is_any_stepping(resumptions) {
            return Ok(None);
        }
        self.quiet_stops()
    }

    /// The frame of a page of a process, where it is mapped.
    fn frame_at(&self, process: u32, page: u32) -> Option<u32>
        requires { self.now.failed ≡ false }
        ensures { (start : Position) → IsStartOf self.now.playback start
            → result ≡ frame_at (here self.now start).moment.world process page }
    {
        let table = &self.playback.state().table;
        if !table.is_live(process) {
            return None;
        }
        match table.space(process).look(page) {
            None => None,
            Some(entry) => Some(entry.frame),
        }
    }

    /// Keeps it.
    fn keep_frame(&self, frames: &mut Vec<u32>, process: u32, page: u32) -> Result<(), AllocError>
        requires { self.now.failed ≡ false }
        ensures { OnOk result ((start : Position) → IsStartOf self.now.playback start
            → frames.new.items ≡ frames.old.items
            ++ option_to_list (frame_at (here self.now start).moment.world process page)) }
    {
        let Some(frame) = self.frame_at(process, page) else {
            return Ok(());
        };
        frames.push(frame)?;
        Ok(())
    }

    /// Keeps the frames of the pages of a watchpoint's first and last byte.
    fn keep_frames(&self, frames: &mut Vec<u32>, point: Watchpoint) -> Result<(), AllocError>
        requires { self.now.failed ≡ false }
        ensures { OnOk result ((start : Position) → IsStartOf self.now.playback start
            → frames.new.items ≡ frames.old.items
            ++ frames_watched (here self.now start).moment.world point) }
    {
        self.keep_frame(frames, point.process, point.address / 4096)?;
        let last = u64::from(point.address) + u64::from(point.length.saturating_sub(1));
        self.keep_frame(frames, point.process, (last / 4096) as u32)
    }

    /// The frames in which the watched bytes lie.
    pub(crate) fn watched_frames(&self) -> Result<Vec<u32>, AllocError>
        requires { self.now.failed ≡ false }
        ensures { IfOk result (λ frames. (start : Position) (s : Told)
            → IsStartOf self.now.playback start → IsAsked self.now start s
            → AreWatchedIn (here self.now start).moment.world frames.items s.watchpoints) }
    {
        let points = self.client.watchpoints();
        if !are_short(points) {
            return Err(AllocError);
        }
        let mut frames = Vec::new(self.alloc);
        for index in 0..points.len() {
            let point = self.point_at(index);
            self.keep_frames(&mut frames, point)?;
        }
        Ok(frames)
    }

    /// Instructions ahead, by which no resumption forwards stops that has come here.
    pub(crate) fn pass_forwards(
        &mut self,
        resumptions: &[Resumption],
        way: Way,
        stops: &[u32],
    ) -> Result<Way, AllocError>
        requires running { self.old.failed ≡ false }
        requires named { knows_named self.old.births resumptions.now ≡ true }
        requires later { way.is_first ≡ false }
        requires last { way.last ≤ self.old.playback.moves }
        ensures passes { IfOk result (λ behind. (start : Position) (s : Told)
            → IsStartOf self.old.playback start → IsAsked self.old start s
            → StopsAtAddresses s stops.now → is_nobody_stepping resumptions.now ≡ true
            → forwards_from s resumptions.now start way (here self.old start)
            ≡ forwards_from s resumptions.now start behind (here self.new start)) }
        ensures later { IfOk result (λ behind. behind.is_first ≡ false) }
        ensures low { IfOk result (λ behind. way.last ≤ behind.last) }
        ensures last { IfOk result (λ behind. behind.last ≤ self.new.playback.moves) }
        ensures moves { self.old.playback.moves ≤ self.new.playback.moves }
        ensures puts { (start : Position) (first : ℕ) (puts : List Put)
            → IsStartOf self.old.playback start → first ≤ self.old.playback.moves
            → HasKept start first self.old.playback.moves puts
            → HasKept start first self.new.playback.moves puts }
        ensures same { IsSame self.old self.new }
        ensures known { StillKnows self.old self.new }
        ensures running { self.new.failed ≡ false }
    {
        let mut way = self.with_here(resumptions, way);
        let is_there = self.is_anybody_there(resumptions);
        if is_there != way.was_there {
            return Ok(way);
        }
        let kept = self.watched_frames()?;
        let _silent = self.run_on(u32::MAX, stops, &kept);
        if is_there {
            way.last = self.playback.moves();
        }
        Ok(way)
    }

    /// Instructions ahead, up to this number of moves since the start, by which a resumption
    /// backwards doesn't stop but by a step of their thread: where it stops that comes from behind
    /// them, by where the one from here does. Somebody was there before.
    pub(crate) fn pass_backwards(
        &mut self,
        moves: u64,
        stepped: Option<u32>,
        stops: &[u32],
        halt: Halt,
    ) -> Result<Halt, AllocError>
        requires running { self.old.failed ≡ false }
        requires known { knows_stepped self.old.births stepped ≡ true }
        requires within { self.old.playback.moves ≤ moves }
        requires there { halt.moves ≤ self.old.playback.moves }
        requires born { halt.born ≡ None }
        ensures halt { IfOk result (λ behind. (start : Position) (s : Told) (rs : List Resumption)
            → IsStartOf self.old.playback start → IsAsked self.old start s
            → StopsAtAddresses s stops.now
            → was_ever_there s rs stepped (here self.old start).past ≡ true
            → halt_meant s rs start halt ≡ backwards_from s rs stepped (here self.old start)
            → halt_meant s rs start behind ≡ backwards_from s rs stepped (here self.new start)) }
        ensures was { (start : Position) (s : Told) (rs : List Resumption)
            → IsStartOf self.old.playback start → IsAsked self.old start s
            → was_ever_there s rs stepped (here self.old start).past ≡ true
            → was_ever_there s rs stepped (here self.new start).past ≡ true }
        ensures moves { self.old.playback.moves ≤ self.new.playback.moves }
        ensures within { self.new.playback.moves ≤ moves }
        ensures there { IfOk result (λ behind. behind.moves ≤ self.new.playback.moves) }
        ensures born { IfOk result (λ behind. behind.born ≡ None) }
        ensures same { IsSame self.old self.new }
        ensures known { StillKnows self.old self.new }
        ensures furthest { self.old.furthest ≤ self.new.furthest }
        ensures running { self.new.failed ≡ false }
    {
        let Some(MoveKind::Runs { thread }) = self.playback.kind() else {
            return Ok(halt);
        };
        let kept = self.watched_frames()?;
        let most = at_most(moves - self.playback.moves());
        let count = self.run_on(most, stops, &kept);
        if count == 0 {
            return Ok(halt);
        }
        if stepped != Some(thread) {
            return Ok(halt);
        }
        let whose = Some(self.home_pair(thread));
        Ok(Halt::at(self.playback.moves() - 1, whose, Cause::Plainly))
    }
}
