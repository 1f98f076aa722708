// What a watch keeps before a move, and what is hit behind it.
ghost use Rattle.std.specs.Prelude.{◌≡◌, ◌++◌, ◌∷◌, ◌&&◌, ◌<◌, ℕ, Bool, List, [], All, IfSome};
ghost use Rattle.std.specs.Prelude.{OnOk, find, length, map, slice_get};
ghost use Rattle.std.specs.Str.{bytes_eq};
ghost use Rattle.dos_world.specs.World.{World};
ghost use Rattle.group_moves.specs.Moves.{MoveKind as Move};
ghost use Rattle.group_walk.specs.Walks.{kind_named};
ghost use Rattle.kernel_calls.specs.StateWorld.{IsSound, sent, world_of};
ghost use Rattle.debug_session.specs.declared.points.Watchpoint.{Watchpoint};
ghost use Rattle.debug_session.specs.Hits.{is_changed, is_hit_as};
ghost use Rattle.debug_hits.specs.Kept.{HasLooked, FitsPage, front_count, is_other_now};
ghost use Rattle.debug_hits.specs.Kept.{is_touched_as, kept_of};

use crate::pages::bytes_in_page;
use crate::touches::is_touched_as;
use debug_session::{WatchKind, Watchpoint};
use group_walk::MoveKind;
use kernel_calls::State;
use std::alloc::{AllocError, Global};
use std::marker::Model;

/// A watchpoint, and where its bytes are kept.
#[derive(Clone, Copy, Debug, PartialEq, Eq)]
pub(crate) struct Mark {
    pub(crate) point: Watchpoint,
    // those in the page of the first one from here to the middle, and those in the next page from
    // the middle to here
    pub(crate) from: usize,
    pub(crate) middle: usize,
    pub(crate) to: usize,
    pub(crate) is_touched: bool,
}

/// What is kept of the watchpoints before a move: their bytes, and which of them the move touches.
/// Contracts see that as a list, in the order of the watchpoints.
#[derive(Drop)]
pub struct Watched {
    marks: Vec<Mark>,
    bytes: Vec<u8>,
}

impl Model for Watched {
    ghost use Rattle.std.specs.Prelude.{All, List, map};
    ghost use Rattle.debug_hits.specs.Kept.{IsKeptWithin, Kept, kept_in};

    ghost Value = { List Kept };

    ghost view = { λ w. map (kept_in w.bytes.items) w.marks.items };

    ghost invariant = { λ w. All (IsKeptWithin w.bytes.items) w.marks.items };
}

// whether they are the same bytes
fn is_same(one: &[u8], other: &[u8]) -> bool
    ensures { result ≡ bytes_eq one.now other.now }
{
    one == other
}

// how many bytes lie in the page of the first one
pub(crate) fn front_count(point: &Watchpoint) -> u32
    ensures { result ≡ front_count point.now }
{
    (4096 - point.address % 4096).min(point.length)
}

// whether a watchpoint's bytes are others than these
fn is_other_now(state: &State, point: Watchpoint, front: &[u8], back: &[u8]) -> bool
    requires sound { IsSound state.now }
    requires short { FitsPage point }
    ensures { (q : ℕ) (o e : List ℕ)
        → is_other_now front.now back.now (sent o e (world_of q state.now)) point ≡ result }
{
    let count = front_count(&point);
    let start = u64::from(point.address);
    if !is_same(front, bytes_in_page(state, point.process, start, count)) {
        return true;
    }
    let next = start + u64::from(count);
    let left = point.length - count;
    !is_same(back, bytes_in_page(state, point.process, next, left))
}

impl Watched {
    /// Nothing is kept.
    pub fn new(alloc: Global) -> Watched
        ensures { result ≡ [] }
    {
        Watched {
            marks: Vec::new(alloc),
            bytes: Vec::new(alloc),
        }
    }

    /// How many watchpoints were looked at.
    pub fn count(&self) -> usize
        ensures { result ≡ length self.now }
    {
        self.marks.len()
    }

    // one watchpoint more
    fn keep(&mut self, state: &State, point: Watchpoint, is_touched: bool) -> Result<(), AllocError>
        requires sound { IsSound state.now }
        requires short { FitsPage point }
        ensures { (q : ℕ) (o e : List ℕ) (kind : Move)
            → is_touched_as point.kind (sent o e (world_of q state.now)) kind point ≡ is_touched
            → OnOk result (self.new
            ≡ self.old ++ kept_of (sent o e (world_of q state.now)) kind point ∷ []) }
    {
        let count = front_count(&point);
        let start = u64::from(point.address);
        let from = self.bytes.len();
        let front = bytes_in_page(state, point.process, start, count);
        self.bytes.extend_from_slice(front)?;
        let middle = self.bytes.len();
        let next = start + u64::from(count);
        let back = bytes_in_page(state, point.process, next, point.length - count);
        self.bytes.extend_from_slice(back)?;
        let to = self.bytes.len();
        self.marks.push(Mark {
            point,
            from,
            middle,
            to,
            is_touched,
        })?;
        Ok(())
    }

    /// Looks at these watchpoints, in this order, before a move of this kind. Memory that was taken
    /// for that before serves again. After an `Err` nothing is said of what is kept.
    pub fn look(
        &mut self,
        state: &State,
        kind: MoveKind,
        points: &[Watchpoint],
    ) -> Result<(), AllocError>
        requires sound { IsSound state.now }
        requires short { All FitsPage points.now }
        ensures { (q : ℕ) (o e : List ℕ) → OnOk result
            (HasLooked (sent o e (world_of q state.now)) (kind_named kind) points.now self.new) }
    {
        self.marks.clear();
        self.bytes.clear();
        for i in 0..points.len() {
            let point = points[i];
            let is_touched = is_touched_as(state, kind, &point);
            self.keep(state, point, is_touched)?;
        }
        Ok(())
    }

    /// Whether a byte of a watchpoint is another behind the move, or is mapped before and not
    /// behind, or the other way.
    pub fn is_changed(&self, index: usize, behind: &State) -> bool
        requires sound { IsSound behind.now }
        requires there { index < length self.now }
        ensures { (before : World) (kind : Move) (points : List Watchpoint) (q : ℕ) (o e : List ℕ)
            → HasLooked before kind points self.now
            → IfSome (slice_get points index)
            (λ point. is_changed before (sent o e (world_of q behind.now)) point ≡ result) }
    {
        let mark = self.marks[index];
        let front = &self.bytes[mark.from..mark.middle];
        let back = &self.bytes[mark.middle..mark.to];
        is_other_now(behind, mark.point, front, back)
    }

    /// Whether the move hits a watchpoint.
    pub fn is_hit(&self, index: usize, behind: &State) -> bool
        requires sound { IsSound behind.now }
        requires there { index < length self.now }
        ensures { (before : World) (kind : Move) (points : List Watchpoint) (q : ℕ) (o e : List ℕ)
            → HasLooked before kind points self.now
            → IfSome (slice_get points index)
            (λ point. is_hit_as point.kind before kind (sent o e (world_of q behind.now)) point
            ≡ result) }
    {
        let mark = self.marks[index];
        match mark.point.kind {
            WatchKind::Changes => self.is_changed(index, behind),
            WatchKind::Reads => mark.is_touched,
            WatchKind::Accesses => mark.is_touched || self.is_changed(index, behind),
        }
    }

    // whether the move hits a watchpoint, and that is one that watches
    fn is_hit_while(&self, index: usize, behind: &State, is_watching: bool) -> bool
        requires sound { IsSound behind.now }
        requires there { index < length self.now }
        ensures { (before : World) (kind : Move) (points : List Watchpoint) (q : ℕ) (o e : List ℕ)
            → HasLooked before kind points self.now
            → IfSome (slice_get points index) (λ point. (is_watching
            && is_hit_as point.kind before kind (sent o e (world_of q behind.now)) point)
            ≡ result) }
    {
        is_watching && self.is_hit(index, behind)
    }

    /// The first watchpoint that the move hits, of those at which `watching` says so.
    pub fn first_hit(&self, behind: &State, watching: &[bool]) -> Option<Watchpoint>
        requires sound { IsSound behind.now }
        requires each { length watching.now ≡ length self.now }
        ensures { (before : World) (kind : Move) (points : List Watchpoint) (q : ℕ) (o e : List ℕ)
            (test : Watchpoint → Bool)
            → HasLooked before kind points self.now → watching.now ≡ map test points
            → find (λ point. test point
            && is_hit_as point.kind before kind (sent o e (world_of q behind.now)) point) points
            ≡ result }
    {
        for index in 0..watching.len() {
            if self.is_hit_while(index, behind, watching[index]) {
                return Some(self.marks[index].point);
            }
        }
        None
    }
}
