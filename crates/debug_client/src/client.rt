//! A debugger's client.
ghost use Rattle.std.specs.Prelude.{◌≡◌, ◌∷◌, ◌++◌, [], ℕ, List, length, Some, None, OnOk, IfOk};
ghost use Rattle.std.specs.Prelude.{is_ok, option_to_list, OnErr, if◌then◌else◌, unwrap_or};
ghost use Rattle.debug_session.specs.Positions.{Position};
ghost use Rattle.debug_session.specs.Recordings.{Recording};
ghost use Rattle.debug_session.specs.Sessions.{opening_session, listed, is_among};
ghost use Rattle.debug_session.specs.Answers.{means, process_let_go};
ghost use Rattle.debug_session.specs.Halts.{Halt, halted_session};
ghost use Rattle.debug_session.specs.Resuming.{continue_actions, step_actions, thread_stepped};
ghost use Rattle.debug_session.specs.Resuming.{owed_to};
ghost use Rattle.debug_session.specs.Setting.{inserts, inserts_kind, removed_kind};
ghost use Rattle.debug_session.specs.Setting.{breaks_at, watches, unbroken, unwatched};
ghost use Rattle.debug_session.specs.Actions.{thread_named};
ghost use Rattle.debug_client.specs.Clients.{session_of, opening_client, answered_so};
ghost use Rattle.debug_client.specs.Clients.{watchpoint_in, is_refused};

use crate::actions::{owed_to, thread_named};
use crate::numbers::{remove_number, run_of};
use crate::points::{remove_breakpoint, remove_watchpoint, with_breakpoint, with_watchpoint};
use debug_session::{Breakpoint, WatchKind, Watchpoint};
use gdb_packets::ids::{ThreadId, Which};
use gdb_packets::packets::{Point, PointKind};
use gdb_packets::resumptions::{Action, Resumption};
use std::alloc::{AllocError, Global};
use std::marker::Model;

/// How many breakpoints and watchpoints may be set, and how many bytes be watched by one.
const MOST_BREAKPOINTS: usize = 256;

const MOST_WATCHPOINTS: usize = 16;

const MOST_WATCHED: u32 = 4096;

// too many watchpoints, or one of no bytes or of too many
fn is_refused(count: usize, length: u32) -> bool
    ensures { result ≡ is_refused count length }
{
    if count > MOST_WATCHPOINTS {
        return true;
    }
    if length < 1 {
        return true;
    }
    length > MOST_WATCHED
}

/// What a client has named, set and was told of. Contracts see its view, of which a recording and a
/// position make a session.
#[derive(Drop)]
pub struct Client {
    process: u32,
    thread: u32,
    meant: u32,
    resumed: ThreadId,
    told: Vec<u32>,
    let_go: Vec<u32>,
    is_told_forks: bool,
    breakpoints: Vec<Breakpoint>,
    watchpoints: Vec<Watchpoint>,
    owed: Option<u32>,
    goal: Option<(u64, u64)>,
}

impl Model for Client {
    ghost use Rattle.debug_client.specs.Clients.{ClientView};

    ghost Value = { ClientView };

    ghost view = { λ c. record {
      process = c.process;
      thread = c.thread;
      meant = c.meant;
      resumed = c.resumed;
      told = c.told.items;
      let_go = c.let_go.items;
      is_told_forks = c.is_told_forks;
      breakpoints = c.breakpoints.items;
      watchpoints = c.watchpoints.items;
      owed = c.owed;
      goal = c.goal;
    } };
}

impl Client {
    /// A client that is told of the processes of so many images, whose first thread is current.
    pub fn new(alloc: Global, images: u32) -> Result<Client, AllocError>
        ensures is { IfOk result (λ client. client ≡ opening_client images) }
        ensures opens { IfOk result (λ client. (r : Recording) (at : Position)
            → length r.names ≡ images → session_of client r at ≡ opening_session r at) }
    {
        Ok(Client {
            process: 1,
            thread: 1,
            meant: 1,
            resumed: ThreadId::ThreadAlone(Which::All),
            told: run_of(alloc, images)?,
            let_go: Vec::new(alloc),
            is_told_forks: false,
            breakpoints: Vec::new(alloc),
            watchpoints: Vec::new(alloc),
            owed: None,
            goal: None,
        })
    }

    /// The current process.
    pub fn process(&self) -> u32
        ensures { result ≡ self.now.process }
    {
        self.process
    }

    /// The current thread.
    pub fn thread(&self) -> u32
        ensures { result ≡ self.now.thread }
    {
        self.thread
    }

    /// The thread that is meant where none is named.
    pub fn meant(&self) -> u32
        ensures { result ≡ self.now.meant }
    {
        self.meant
    }

    /// What the last `Hc` named.
    pub fn resumed(&self) -> ThreadId
        ensures { result ≡ self.now.resumed }
    {
        self.resumed
    }

    /// The processes that were told of.
    pub fn told(&self) -> &[u32]
        ensures { result.now ≡ self.now.told }
    {
        &self.told
    }

    /// The processes that were let go.
    pub fn released(&self) -> &[u32]
        ensures { result.now ≡ self.now.let_go }
    {
        &self.let_go
    }

    /// Whether the client is told of forks.
    pub fn is_told_forks(&self) -> bool
        ensures { result ≡ self.now.is_told_forks }
    {
        self.is_told_forks
    }

    /// The breakpoints that are set.
    pub fn breakpoints(&self) -> &[Breakpoint]
        ensures { result.now ≡ self.now.breakpoints }
    {
        &self.breakpoints
    }

    /// The watchpoints that are set, in their order.
    pub fn watchpoints(&self) -> &[Watchpoint]
        ensures { result.now ≡ self.now.watchpoints }
    {
        &self.watchpoints
    }

    /// The thread whose step is owed.
    pub fn owed(&self) -> Option<u32>
        ensures { result ≡ self.now.owed }
    {
        self.owed
    }

    /// The moment, as a round and a move, to go to.
    pub fn goal(&self) -> Option<(u64, u64)>
        ensures { result ≡ self.now.goal }
    {
        self.goal
    }

    /// The client is told of forks, or isn't.
    pub fn set_told_forks(&mut self, is_told_forks: bool)
        ensures { self.new ≡ record self.old { is_told_forks = is_told_forks } }
    {
        self.is_told_forks = is_told_forks;
    }

    /// What `Hc` names.
    pub fn set_resumed(&mut self, id: ThreadId)
        ensures { self.new ≡ record self.old { resumed = id } }
    {
        self.resumed = id;
    }

    /// The moment, as a round and a move, to go to.
    pub fn set_goal(&mut self, round: u64, made: u64)
        ensures { self.new ≡ record self.old { goal = Some (round, made) } }
    {
        self.goal = Some((round, made));
    }

    /// The current process.
    pub(crate) fn set_process(&mut self, process: u32)
        ensures { self.new ≡ record self.old { process = process } }
    {
        self.process = process;
    }

    /// The current process and thread.
    pub(crate) fn set_current(&mut self, process: u32, thread: u32)
        ensures { self.new ≡ record self.old { process = process; thread = thread } }
    {
        self.process = process;
        self.thread = thread;
    }

    /// A thread that is listed is meant from now on, as `T` asks; false where it isn't.
    pub fn mean(&mut self, thread: Option<u32>, is_listed: bool) -> bool
        ensures { (r : Recording) (at : Position)
            → ((t : ℕ) → thread ≡ Some t
            → is_listed ≡ is_among t (listed (session_of self.old r at)))
            → answered_so (session_of self.new r at) result
            ≡ means (session_of self.old r at) thread }
    {
        let Some(thread) = thread else {
            return false;
        };
        if is_listed {
            self.meant = thread;
        }
        is_listed
    }

    /// A process is let go, where one is named. When memory runs out nothing changes.
    pub fn let_go(&mut self, process: Option<u32>) -> Result<(), AllocError>
        ensures { (r : Recording) (at : Position) → session_of self.new r at
            ≡ (if is_ok result then process_let_go (session_of self.old r at) process
            else session_of self.old r at) }
    {
        let Some(process) = process else {
            return Ok(());
        };
        self.let_go.insert(0, process)?;
        remove_number(&mut self.told, process);
        Ok(())
    }

    /// A halt makes its thread and process the current ones, and tells of a process that is born.
    /// When memory runs out nothing changes.
    pub fn halt(
        &mut self,
        whose: (u32, u32),
        born: Option<u32>,
        owed: Option<u32>,
    ) -> Result<(), AllocError>
        ensures ok { (r : Recording) (at : Position) (halt : Halt) → halt.stop.whose ≡ whose
            → halt.born ≡ option_to_list born → halt.owed ≡ owed
            → OnOk result (session_of self.new r halt.position
            ≡ halted_session (session_of self.old r at) halt) }
        ensures err { OnErr result (self.new ≡ self.old) }
    {
        if let Some(born) = born {
            self.told.push(born)?;
        }
        self.process = whose.0;
        self.thread = whose.1;
        self.meant = whose.1;
        self.owed = owed;
        self.goal = None;
        Ok(())
    }

    // a watchpoint of the current process
    fn watchpoint_of(&self, kind: WatchKind, point: Point) -> Watchpoint
        ensures { result ≡ watchpoint_in self.now kind point }
    {
        Watchpoint {
            process: self.process,
            address: point.at.from,
            length: point.at.length,
            kind,
        }
    }

    // a breakpoint of the current process; false where there are too many
    fn set_breakpoint(&mut self, alloc: Global, point: Point) -> Result<bool, AllocError>
        ensures ok { IfOk result (λ done. (r : Recording) (at : Position)
            → answered_so (session_of self.new r at) done
            ≡ breaks_at (session_of self.old r at) point) }
        ensures err { OnErr result (self.new ≡ self.old) }
    {
        let more = with_breakpoint(alloc, &self.breakpoints, self.process, point.at.from)?;
        if more.len() > MOST_BREAKPOINTS {
            return Ok(false);
        }
        self.breakpoints = more;
        Ok(true)
    }

    // a watchpoint of the current process; false where there are too many, or it can't be one
    fn set_watchpoint(
        &mut self,
        alloc: Global,
        kind: WatchKind,
        point: Point,
    ) -> Result<bool, AllocError>
        ensures ok { IfOk result (λ done. (r : Recording) (at : Position)
            → answered_so (session_of self.new r at) done
            ≡ watches (session_of self.old r at) kind point) }
        ensures err { OnErr result (self.new ≡ self.old) }
    {
        let watchpoint = self.watchpoint_of(kind, point);
        let more = with_watchpoint(alloc, &self.watchpoints, watchpoint)?;
        if is_refused(more.len(), point.at.length) {
            return Ok(false);
        }
        self.watchpoints = more;
        Ok(true)
    }

    /// A point is set in the current process, as `Z` asks; false where it can't be. When memory
    /// runs out nothing changes.
    pub fn insert(&mut self, alloc: Global, point: Point) -> Result<bool, AllocError>
        ensures ok { IfOk result (λ done. (r : Recording) (at : Position)
            → answered_so (session_of self.new r at) done
            ≡ inserts (session_of self.old r at) point) }
        ensures err { OnErr result (self.new ≡ self.old) }
    {
        match point.kind {
            PointKind::SoftwareBreakpoint => self.set_breakpoint(alloc, point),
            PointKind::HardwareBreakpoint => self.set_breakpoint(alloc, point),
            PointKind::WriteWatchpoint => self.set_watchpoint(alloc, WatchKind::Changes, point),
            PointKind::ReadWatchpoint => self.set_watchpoint(alloc, WatchKind::Reads, point),
            PointKind::AccessWatchpoint => self.set_watchpoint(alloc, WatchKind::Accesses, point),
        }
    }

    // a breakpoint of the current process is taken away
    fn unset_breakpoint(&mut self, point: Point)
        ensures { (r : Recording) (at : Position) → session_of self.new r at
            ≡ unbroken (session_of self.old r at) point }
    {
        remove_breakpoint(&mut self.breakpoints, self.process, point.at.from);
    }

    // a watchpoint of the current process is taken away
    fn unset_watchpoint(&mut self, kind: WatchKind, point: Point)
        ensures { (r : Recording) (at : Position) → session_of self.new r at
            ≡ unwatched (session_of self.old r at) kind point }
    {
        let watchpoint = self.watchpoint_of(kind, point);
        remove_watchpoint(&mut self.watchpoints, watchpoint);
    }

    /// A point of the current process is taken away, as `z` asks.
    pub fn remove(&mut self, point: Point)
        ensures { (r : Recording) (at : Position) → session_of self.new r at
            ≡ removed_kind (session_of self.old r at) point.kind point }
    {
        match point.kind {
            PointKind::SoftwareBreakpoint => self.unset_breakpoint(point),
            PointKind::HardwareBreakpoint => self.unset_breakpoint(point),
            PointKind::WriteWatchpoint => self.unset_watchpoint(WatchKind::Changes, point),
            PointKind::ReadWatchpoint => self.unset_watchpoint(WatchKind::Reads, point),
            PointKind::AccessWatchpoint => self.unset_watchpoint(WatchKind::Accesses, point),
        }
    }

    /// An action for the threads that the last `Hc` named.
    pub fn continue_actions(&self) -> [Resumption; 1]
        ensures { (r : Recording) (at : Position)
            → result ≡ continue_actions (session_of self.now r at) }
    {
        [Resumption {
            action: Action::Continue,
            threads: self.resumed,
        }]
    }

    /// The thread that a step means.
    pub fn thread_stepped(&self) -> u32
        ensures named { result ≡ unwrap_or (thread_named self.now.resumed) self.now.meant }
        ensures stepped { (r : Recording) (at : Position)
            → result ≡ thread_stepped (session_of self.now r at) }
    {
        match thread_named(self.resumed) {
            None => self.meant,
            Some(thread) => thread,
        }
    }

    /// A step, and the others go on.
    pub fn step_actions(&self) -> [Resumption; 2]
        ensures { (r : Recording) (at : Position)
            → result ≡ step_actions (session_of self.now r at) }
    {
        [
            Resumption {
                action: Action::Step,
                threads: ThreadId::ThreadAlone(Which::Only(self.thread_stepped())),
            },
            Resumption {
                action: Action::Continue,
                threads: self.resumed,
            },
        ]
    }

    /// The thread whose step is owed, where the first of these resumptions is a step of it.
    pub fn owed_to(&self, resumptions: &[Resumption]) -> Option<u32>
        ensures { result ≡ owed_to self.now.owed resumptions.now }
    {
        owed_to(self.owed, resumptions)
    }
}
