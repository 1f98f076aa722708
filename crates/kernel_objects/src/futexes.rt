// The threads that sleep on words, in the order in which they came.
ghost use Rattle.std.specs.Prelude.{◌≡◌, ◌==◌, ◌<◌, ◌≤◌, [], ◌∷◌, ◌++◌, length, filter, find};
ghost use Rattle.std.specs.Prelude.{option_map, not, None, Some, IfOk, IfSome, slice_get};
ghost use Rattle.std.specs.List.{list_any};
ghost use Rattle.dos_world.specs.Kernel.{is_none_of_these, is_other};
ghost use Rattle.kernel_objects.specs.Queue.{first_on, sleeper_of, sleeps_on};

use std::alloc::{AllocError, Global};
use std::marker::Model;

// how many threads may sleep
const MOST_SLEEPERS: usize = 64;

// Contracts see the sleeper of the flat world.
#[derive(Drop)]
struct Sleeper {
    thread: u32,
    frame: u32,
    offset: u32,
}

impl Model for Sleeper {
    ghost use Rattle.dos_world.specs.World.{Sleeper as Flat};

    ghost Value = { Flat };

    ghost view = { λ s. record { thread = s.thread; frame = s.frame; offset = s.offset } };
}

/// The threads that sleep, each on a word: a frame and an offset in it. Contracts see the flat
/// world's list of sleepers.
#[derive(Drop)]
pub struct FutexQueue {
    sleepers: Vec<Sleeper>,
}

impl Model for FutexQueue {
    ghost use Rattle.std.specs.Prelude.{List};
    ghost use Rattle.std.specs.Vec.{vec_capacity};
    ghost use Rattle.dos_world.specs.World.{Sleeper as Flat};
    ghost use Rattle.kernel_objects.specs.Queue.{IsQueueTaken};

    ghost Value = { List Flat };

    ghost view = { λ q. q.sleepers.items };

    ghost invariant = { λ q. IsQueueTaken q.sleepers.items (vec_capacity q.sleepers) };
}

impl FutexQueue {
    /// Nobody sleeps. All memory for 64 sleepers is taken here.
    pub fn reserve(alloc: Global) -> Result<FutexQueue, AllocError>
        ensures { IfOk result (λ q. q ≡ []) }
    {
        Ok(FutexQueue {
            sleepers: Vec::with_capacity(alloc, MOST_SLEEPERS)?,
        })
    }

    /// How many threads sleep, at most 64.
    pub fn len(&self) -> u32
        ensures count { result ≡ length self.now }
        ensures few { result ≤ 64 }
    {
        self.sleepers.len() as u32
    }

    /// The sleeper at this place in the queue: its thread, and the frame and the offset of its
    /// word.
    pub fn at(&self, place: u32) -> (u32, u32, u32)
        requires { place < length self.now }
        ensures { slice_get self.now place ≡ Some (sleeper_of result) }
    {
        let sleeper = &self.sleepers[place as usize];
        (sleeper.thread, sleeper.frame, sleeper.offset)
    }

    /// The thread sleeps on this word, last in the queue.
    pub fn add(&mut self, tid: u32, frame: u32, offset: u32)
        requires room { length self.old < 64 }
        ensures { self.new ≡ self.old ++ record { thread = tid; frame = frame; offset = offset }
            ∷ [] }
    {
        let sleeper = Sleeper {
            thread: tid,
            frame,
            offset,
        };
        match self.sleepers.push(sleeper) {
            Ok(()) => {}
            Err(_) => unreachable!(),
        }
    }

    /// Takes out the first that sleeps on this word; its thread. None exactly where nobody does;
    /// nothing changes then.
    pub fn wake_one(&mut self, frame: u32, offset: u32) -> Option<u32>
        ensures first { result ≡ first_on self.old frame offset }
        ensures none { result ≡ None → self.new ≡ self.old }
        ensures out { IfSome result (λ tid. self.new ≡ filter (is_other tid) self.old) }
    {
        let tid = first_on(&self.sleepers, frame, offset)?;
        self.remove(tid);
        Some(tid)
    }

    /// The thread no longer sleeps, where it did.
    pub fn remove(&mut self, tid: u32)
        ensures { self.new ≡ filter (is_other tid) self.old }
    {
        self.sleepers.retain(|sleeper| is_other(sleeper, tid));
    }

    /// None of these threads sleeps any longer.
    pub fn remove_all(&mut self, tids: &[u32])
        ensures { self.new ≡ filter (is_none_of_these tids.now) self.old }
    {
        self.sleepers
            .retain(|sleeper| is_none_of_these(sleeper, tids));
    }
}

fn is_none_of_these(sleeper: &Sleeper, tids: &[u32]) -> bool
    ensures { result ≡ is_none_of_these tids.now sleeper.now }
{
    !is_among(tids, sleeper.thread)
}

fn is_among(tids: &[u32], thread: u32) -> bool
    ensures { result ≡ list_any (λ tid. tid == thread) tids.now }
{
    tids.iter().any(|tid| *tid == thread)
}

fn is_other(sleeper: &Sleeper, tid: u32) -> bool
    ensures { result ≡ is_other tid sleeper.now }
{
    sleeper.thread != tid
}

fn sleeps_on(sleeper: &Sleeper, frame: u32, offset: u32) -> bool
    ensures { result ≡ sleeps_on frame offset sleeper.now }
{
    sleeper.frame == frame && sleeper.offset == offset
}

fn first_on(sleepers: &[Sleeper], frame: u32, offset: u32) -> Option<u32>
    ensures { result ≡ first_on sleepers.now frame offset }
{
    match sleepers
        .iter()
        .find(|sleeper| sleeps_on(sleeper, frame, offset))
    {
        Some(sleeper) => Some(sleeper.thread),
        None => None,
    }
}
