// What a move hits, from what was seen before it and what is there behind it.
ghost use Rattle.std.specs.Prelude.{◌≡◌, ◌&&◌, ◌⊎◌, All, List, IfOk, IfSome, OnOk, false, true};
ghost use Rattle.std.specs.Prelude.{◌<◌, length, slice_get, Some, None, map, option_and_then};
ghost use Rattle.std.specs.Prelude.{option_map};
ghost use Rattle.std.specs.Option.{option_map_or};
ghost use Rattle.dos_world.specs.World.{World, thread_at};
ghost use Rattle.group_walk.specs.Walks.{kind_named};
ghost use Rattle.gdb_packets.specs.declared.resumptions.Resumption.{Resumption};
ghost use Rattle.debug_session.specs.Forwards.{halt_watched};
ghost use Rattle.debug_session.specs.Hits.{hit_by, is_thread_broken, is_watcher, lowest_watcher};
ghost use Rattle.debug_session.specs.Hits.{watching_mover};
ghost use Rattle.debug_session.specs.declared.points.Watchpoint.{Watchpoint as Point};
ghost use Rattle.debug_session.specs.Positions.{Position, mover_of, position_after};
ghost use Rattle.debug_session.specs.Sessions.{Session as Told, is_belonging, is_process_live};
ghost use Rattle.debug_session.specs.Sessions.{is_told_of};
ghost use Rattle.recorded_walk.specs.Playbacks.{IsStartOf};
ghost use Rattle.debug_client.specs.Births.{has_home, has_named, knows_named};
ghost use Rattle.debug_hits.specs.Kept.{FitsPage, HasLooked};
ghost use Rattle.debugger.specs.Halting.{WasSeen, action_at, halt_meant, mover_told};
ghost use Rattle.debugger.specs.Standing.{IsAsked, IsSame, here};

use crate::halts::Halt;
use crate::session::Session;
use debug_client::action_of_thread;
use debug_hits::is_thread_broken;
use debug_session::{Cause, Watchpoint};
use gdb_packets::resumptions::{Action, Resumption};
use group_walk::MoveKind;
use std::alloc::AllocError;

/// What is seen before a move.
#[derive(Drop)]
pub(crate) struct Before {
    /// How many moves lead to it.
    pub(crate) moves: u64,
    /// Its kind.
    pub(crate) kind: MoveKind,
    /// The mover that is told of.
    pub(crate) mover: Option<u32>,
    /// What that one does.
    pub(crate) action: Option<Action>,
    /// It stands at a breakpoint.
    pub(crate) is_broken: bool,
    /// How many processes there are.
    pub(crate) processes: u32,
    /// Of each watchpoint whether its process belongs and lives.
    pub(crate) watching: Vec<bool>,
}

// at most a page each
pub(crate) fn are_short(points: &[Watchpoint]) -> bool
    ensures { result ≡ true → All FitsPage points.now }
{
    for point in points {
        if point.length > 4096 {
            return false;
        }
    }
    true
}

/// The thread that makes a move; the begin of a round is nobody's.
pub(crate) fn mover_of(kind: MoveKind) -> Option<u32>
    ensures { result ≡ mover_of (kind_named kind) }
{
    match kind {
        MoveKind::Begins => None,
        MoveKind::Runs { thread } => Some(thread),
        MoveKind::IsServed { thread } => Some(thread),
        MoveKind::Faults { thread, .. } => Some(thread),
    }
}

impl Session {
    /// Whether a thread is told of here.
    fn is_told_of(&self, resumptions: &[Resumption], thread: u32) -> bool
        requires { self.now.failed ≡ false }
        ensures told { (start : Position) (s : Told) → IsStartOf self.now.playback start
            → IsAsked self.now start s
            → result ≡ is_told_of s resumptions.now (here self.now start).moment.world thread }
        ensures known { result ≡ true → has_home self.now.births thread ≡ true }
    {
        self.client
            .is_told_of(resumptions, self.playback.state(), thread)
    }

    /// The mover that is told of, where there is one.
    fn told_mover(&self, resumptions: &[Resumption], kind: MoveKind) -> Option<u32>
        requires { self.now.failed ≡ false }
        ensures told { (start : Position) (s : Told) → IsStartOf self.now.playback start
            → IsAsked self.now start s
            → result ≡ mover_told s resumptions.now (here self.now start).moment.world
            (kind_named kind) }
        ensures known { IfSome result (λ t. has_home self.now.births t ≡ true) }
    {
        let Some(thread) = mover_of(kind) else {
            return None;
        };
        if self.is_told_of(resumptions, thread) {
            Some(thread)
        } else {
            None
        }
    }

    /// What a thread does, where it lives.
    fn action_here(&self, resumptions: &[Resumption], thread: u32) -> Option<Action>
        requires { self.now.failed ≡ false }
        ensures { (start : Position) → IsStartOf self.now.playback start
            → result ≡ action_at resumptions.now (here self.now start).moment.world thread }
    {
        let table = &self.playback.state().table;
        if !table.is_thread(thread) {
            return None;
        }
        action_of_thread(resumptions, table.process_of(thread), thread)
    }

    /// What the mover does that is told of.
    fn mover_action(&self, resumptions: &[Resumption], mover: Option<u32>) -> Option<Action>
        requires { self.now.failed ≡ false }
        ensures { (start : Position) → IsStartOf self.now.playback start
            → result ≡ option_and_then
            (action_at resumptions.now (here self.now start).moment.world) mover }
    {
        match mover {
            None => None,
            Some(thread) => self.action_here(resumptions, thread),
        }
    }

    /// Whether the mover that is told of stands at a breakpoint.
    fn is_mover_broken(&self, mover: Option<u32>) -> bool
        requires { self.now.failed ≡ false }
        ensures { (start : Position) (s : Told) → IsStartOf self.now.playback start
            → IsAsked self.now start s → result ≡ option_map_or
            (λ t. is_thread_broken s (thread_at (here self.now start).moment.world t)) mover
            false }
    {
        match mover {
            None => false,
            Some(thread) => {
                is_thread_broken(self.client.breakpoints(), self.playback.state(), thread)
            }
        }
    }

    /// Whether a process belongs and lives here.
    fn is_watching(&self, resumptions: &[Resumption], process: u32) -> bool
        requires running { self.now.failed ≡ false }
        requires named { knows_named self.now.births resumptions.now ≡ true }
        ensures { (start : Position) (s : Told) → IsStartOf self.now.playback start
            → IsAsked self.now start s
            → result ≡ (is_belonging s resumptions.now (here self.now start).moment.world process
            && is_process_live (here self.now start).moment.world process) }
    {
        if self
            .client
            .is_belonging(&self.births, resumptions, self.playback.state(), process)
        {
            return self.playback.state().table.is_live(process);
        }
        false
    }

    // the watchpoint at this place in their order
    pub(crate) fn point_at(&self, index: usize) -> Watchpoint
        requires { index < length self.now.client.watchpoints }
        ensures { slice_get self.now.client.watchpoints index ≡ Some result }
    {
        self.client.watchpoints()[index]
    }

    /// The same of each watchpoint's process.
    fn watching(&self, resumptions: &[Resumption]) -> Result<Vec<bool>, AllocError>
        requires running { self.now.failed ≡ false }
        requires named { knows_named self.now.births resumptions.now ≡ true }
        ensures watching { IfOk result (λ watching. (start : Position) (s : Told)
            → IsStartOf self.now.playback start → IsAsked self.now start s
            → watching.items ≡ map (λ (point : Point). is_belonging s resumptions.now
            (here self.now start).moment.world point.process
            && is_process_live (here self.now start).moment.world point.process)
            s.watchpoints) }
        ensures count { IfOk result
            (λ watching. length watching.items ≡ length self.now.client.watchpoints) }
    {
        let mut watching = Vec::new(self.alloc);
        for index in 0..self.client.watchpoints().len() {
            let point = self.point_at(index);
            watching.push(self.is_watching(resumptions, point.process))?;
        }
        Ok(watching)
    }

    /// Keeps what is watched, before a move of this kind.
    fn watch(&mut self, kind: MoveKind) -> Result<(), AllocError>
        requires { self.old.failed ≡ false }
        ensures looked { OnOk result ((start : Position) → IsStartOf self.old.playback start
            → HasLooked (here self.old start).moment.world (kind_named kind)
            self.old.client.watchpoints self.new.watched) }
        ensures count { OnOk result
            (length self.new.watched ≡ length self.old.client.watchpoints) }
        ensures rest { OnOk result (self.new ≡ record self.old { watched = self.new.watched }) }
        ensures same { IsSame self.old self.new }
    {
        let points = self.client.watchpoints();
        if !are_short(points) {
            return Err(AllocError);
        }
        self.watched.look(self.playback.state(), kind, points)
    }

    /// How many processes there are here.
    fn processes(&self) -> u32
        requires { self.now.failed ≡ false }
        ensures { (start : Position) → IsStartOf self.now.playback start
            → result ≡ length (here self.now start).moment.world.processes }
    {
        self.playback.state().table.processes()
    }

    /// Looks at this moment before the move that is next, of this kind.
    pub(crate) fn look(
        &mut self,
        resumptions: &[Resumption],
        kind: MoveKind,
    ) -> Result<Before, AllocError>
        requires running { self.old.failed ≡ false }
        requires named { knows_named self.old.births resumptions.now ≡ true }
        ensures kind { IfOk result (λ before. before.kind ≡ kind) }
        ensures moves { IfOk result (λ before. before.moves ≡ self.old.playback.moves) }
        ensures count { IfOk result (λ before. length before.watching.items
            ≡ length self.new.client.watchpoints) }
        ensures looked { IfOk result
            (λ before. length before.watching.items ≡ length self.new.watched) }
        ensures seen { IfOk result (λ before. (start : Position) (s : Told)
            → IsStartOf self.old.playback start → IsAsked self.old start s
            → WasSeen before s resumptions.now (here self.old start).moment.world
            × HasLooked (here self.old start).moment.world (kind_named kind) s.watchpoints
            self.new.watched) }
        ensures known { IfOk result (λ before. IfSome before.mover
            (λ t. has_home self.new.births t ≡ true)) }
        ensures rest { OnOk result (self.new ≡ record self.old { watched = self.new.watched }) }
        ensures same { IsSame self.old self.new }
        ensures failed { OnOk result (self.new.failed ≡ false) }
    {
        self.watch(kind)?;
        let watching = self.watching(resumptions)?;
        let mover = self.told_mover(resumptions, kind);
        Ok(Before {
            moves: self.playback.moves(),
            kind,
            mover,
            action: self.mover_action(resumptions, mover),
            is_broken: self.is_mover_broken(mover),
            processes: self.processes(),
            watching,
        })
    }

    /// Whether a process that belonged and lived before the move lives here, too.
    fn is_still_watching(&self, was_watching: bool, process: u32) -> bool
        requires { self.now.failed ≡ false }
        ensures { (start : Position) → IsStartOf self.now.playback start
            → result ≡ (was_watching
            && is_process_live (here self.now start).moment.world process) }
    {
        let state = self.playback.state();
        if was_watching {
            return state.table.is_live(process);
        }
        false
    }

    /// Of each watchpoint whether its process belonged and lived before the move, and lives here.
    fn still_watching(&self, before: &Before) -> Result<Vec<bool>, AllocError>
        requires running { self.now.failed ≡ false }
        requires count { length before.now.watching.items ≡ length self.now.client.watchpoints }
        ensures watching { IfOk result (λ watching. (start : Position) (s : Told)
            (rs : List Resumption) (w : World) → IsStartOf self.now.playback start
            → IsAsked self.now start s → WasSeen before.now s rs w
            → watching.items ≡ map
            (λ (point : Point). (is_belonging s rs w point.process
            && is_process_live w point.process)
            && is_process_live (here self.now start).moment.world point.process)
            s.watchpoints) }
        ensures count { IfOk result
            (λ watching. length watching.items ≡ length before.now.watching.items) }
    {
        let mut watching = Vec::new(self.alloc);
        for index in 0..before.watching.len() {
            let point = self.point_at(index);
            let was_watching = before.watching[index];
            watching.push(self.is_still_watching(was_watching, point.process))?;
        }
        Ok(watching)
    }

    /// The first watchpoint that the move has hit.
    fn hit_point(&self, before: &Before) -> Result<Option<Watchpoint>, AllocError>
        requires running { self.now.failed ≡ false }
        requires count { length before.now.watching.items ≡ length self.now.client.watchpoints }
        requires looked { length before.now.watching.items ≡ length self.now.watched }
        ensures { IfOk result (λ found. (start : Position) (s : Told) (rs : List Resumption)
            (w : World) → IsStartOf self.now.playback start → IsAsked self.now start s
            → WasSeen before.now s rs w
            → HasLooked w (kind_named before.now.kind) s.watchpoints self.now.watched
            → found ≡ hit_by s rs w (kind_named before.now.kind)
            (here self.now start).moment.world) }
    {
        let watching = self.still_watching(before)?;
        Ok(self.watched.first_hit(self.playback.state(), &watching))
    }

    /// Whether a thread of the watching process is told of here.
    fn is_watcher(&self, resumptions: &[Resumption], point: Watchpoint, thread: u32) -> bool
        requires { self.now.failed ≡ false }
        ensures watcher { (start : Position) (s : Told) → IsStartOf self.now.playback start
            → IsAsked self.now start s
            → result ≡ is_watcher s resumptions.now (here self.now start).moment.world point
            thread }
        ensures known { result ≡ true → has_home self.now.births thread ≡ true }
    {
        if !self.is_told_of(resumptions, thread) {
            return false;
        }
        let table = &self.playback.state().table;
        if table.is_thread(thread) {
            return table.process_of(thread) == point.process;
        }
        false
    }

    /// The mover, where it is behind the move such a thread.
    fn watching_mover(
        &self,
        resumptions: &[Resumption],
        kind: MoveKind,
        point: Watchpoint,
    ) -> Option<u32>
        requires { self.now.failed ≡ false }
        ensures mover { (start : Position) (s : Told) → IsStartOf self.now.playback start
            → IsAsked self.now start s
            → result ≡ watching_mover s resumptions.now (kind_named kind)
            (here self.now start).moment.world point }
        ensures known { IfSome result (λ t. has_home self.now.births t ≡ true) }
    {
        let Some(thread) = mover_of(kind) else {
            return None;
        };
        if self.is_watcher(resumptions, point, thread) {
            Some(thread)
        } else {
            None
        }
    }

    /// The lowest such thread.
    fn lowest_watcher(&self, resumptions: &[Resumption], point: Watchpoint) -> Option<u32>
        requires { self.now.failed ≡ false }
        ensures lowest { (start : Position) (s : Told) → IsStartOf self.now.playback start
            → IsAsked self.now start s
            → result ≡ lowest_watcher s resumptions.now (here self.now start).moment.world point }
        ensures known { has_named self.now.births result ≡ true }
    {
        let table = &self.playback.state().table;
        for place in 0..table.live_threads() {
            let (thread, _) = table.live_thread(place);
            if self.is_watcher(resumptions, point, thread) {
                return Some(thread);
            }
        }
        None
    }

    /// The halt by a watchpoint: at one moment where the mover itself watches, else at the other,
    /// and the step of its thread is owed.
    fn halt_by_point(
        &self,
        resumptions: &[Resumption],
        kind: MoveKind,
        point: Watchpoint,
        first: u64,
        other: u64,
    ) -> Halt
        requires { self.now.failed ≡ false }
        ensures halt { (start : Position) (s : Told) → IsStartOf self.now.playback start
            → IsAsked self.now start s
            → Some (halt_meant s resumptions.now start result)
            ≡ halt_watched s resumptions.now (kind_named kind) (here self.now start).moment.world
            (position_after first start) (position_after other start) (Some point) }
        ensures there { (result.moves ≡ first) ⊎ (result.moves ≡ other) }
        ensures born { result.born ≡ None }
    {
        if let Some(thread) = self.watching_mover(resumptions, kind, point) {
            return Halt::at(first, Some(self.home_pair(thread)), Cause::Watched(point));
        }
        let lowest = self.lowest_watcher(resumptions, point);
        let mut halt = Halt::at(other, self.pair_of(lowest), Cause::Watched(point));
        halt.is_owed = true;
        halt
    }

    /// The watchpoint that the move has hit, told at one moment where the mover itself watches,
    /// else
    /// at the other.
    pub(crate) fn halt_watched(
        &self,
        resumptions: &[Resumption],
        before: &Before,
        first: u64,
        other: u64,
    ) -> Result<Option<Halt>, AllocError>
        requires running { self.now.failed ≡ false }
        requires count { length before.now.watching.items ≡ length self.now.client.watchpoints }
        requires looked { length before.now.watching.items ≡ length self.now.watched }
        ensures halt { IfOk result (λ found. (start : Position) (s : Told) (w : World)
            → IsStartOf self.now.playback start → IsAsked self.now start s
            → WasSeen before.now s resumptions.now w
            → HasLooked w (kind_named before.now.kind) s.watchpoints self.now.watched
            → option_map (halt_meant s resumptions.now start) found
            ≡ halt_watched s resumptions.now (kind_named before.now.kind)
            (here self.now start).moment.world (position_after first start)
            (position_after other start) (hit_by s resumptions.now w (kind_named before.now.kind)
            (here self.now start).moment.world)) }
        ensures there { IfOk result (λ found. IfSome found
            (λ halt. (halt.moves ≡ first) ⊎ (halt.moves ≡ other))) }
        ensures born { IfOk result (λ found. IfSome found (λ halt. halt.born ≡ None)) }
    {
        match self.hit_point(before)? {
            None => Ok(None),
            Some(point) => Ok(Some(self.halt_by_point(
                resumptions,
                before.kind,
                point,
                first,
                other,
            ))),
        }
    }
}
