//! How the current process and thread are named.
ghost use Rattle.std.specs.Prelude.{◌≡◌, ◌||◌, ℕ, List, true, is_some};
ghost use Rattle.dos_world.specs.World.{process_at};
ghost use Rattle.gdb_packets.specs.declared.ids.Which.{Which};
ghost use Rattle.kernel_calls.specs.StateWorld.{world_of, sent};
ghost use Rattle.debug_session.specs.Positions.{Position, all_moments};
ghost use Rattle.debug_session.specs.Recordings.{Recording};
ghost use Rattle.debug_session.specs.Sessions.{is_shown};
ghost use Rattle.debug_session.specs.Current.{absent_thread, standing_thread, with_process};
ghost use Rattle.debug_session.specs.Current.{with_current, named_alone, named_process, named_both};
ghost use Rattle.debug_session.specs.Current.{named_current};
ghost use Rattle.debug_client.specs.Births.{AreBirthsKnown, HasNoted, has_processes, has_home};
ghost use Rattle.debug_client.specs.Births.{has_which, knows_id};
ghost use Rattle.debug_client.specs.Clients.{session_of};

use crate::births::Births;
use crate::client::Client;
use crate::numbers::is_some_number;
use gdb_packets::ids::{ThreadId, Which};
use kernel_calls::State;

// whether the number of a process was given
fn is_given(state: &State, process: u32) -> bool
    ensures { (q : ℕ) (output error : List ℕ)
        → result ≡ is_some (process_at (sent output error (world_of q state.now)) process) }
{
    if process == 0 {
        return false;
    }
    process <= state.table.processes()
}

impl Client {
    // whether a process is shown or was born
    fn is_standing(&self, state: &State, process: u32) -> bool
        ensures { (r : Recording) (at : Position) (q : ℕ) (output error : List ℕ)
            → result ≡ (is_shown (session_of self.now r at)
            (sent output error (world_of q state.now)) process
            || is_some (process_at (sent output error (world_of q state.now)) process)) }
    {
        if self.is_shown(state, process) {
            return true;
        }
        is_given(state, process)
    }

    // the thread that a process was born with, where that is told
    fn absent_thread(&self, births: &Births, state: &State, process: u32) -> u32
        requires told { has_processes births.now self.now.told ≡ true }
        requires noted { HasNoted births.now state.now }
        ensures { (r : Recording) (at : Position) (q : ℕ) (output error : List ℕ)
            → AreBirthsKnown births.now (all_moments at)
            → result ≡ absent_thread (session_of self.now r at)
            (sent output error (world_of q state.now)) process }
    {
        if self.is_standing(state, process) {
            return births.first_thread(process).unwrap_or(0);
        }
        0
    }

    // the thread that stands for a process
    fn standing_thread(&self, births: &Births, state: &State, process: u32) -> u32
        requires told { has_processes births.now self.now.told ≡ true }
        requires noted { HasNoted births.now state.now }
        ensures { (r : Recording) (at : Position) (q : ℕ) (output error : List ℕ)
            → AreBirthsKnown births.now (all_moments at)
            → at.moment.world ≡ sent output error (world_of q state.now)
            → result ≡ standing_thread (session_of self.now r at) process }
    {
        match state.table.first_thread(process) {
            None => self.absent_thread(births, state, process),
            Some(thread) => thread,
        }
    }

    // this process is the current one, and the thread where it is the process's
    fn name_process(&mut self, births: &Births, state: &State, process: u32)
        requires told { has_processes births.now self.old.told ≡ true }
        requires noted { HasNoted births.now state.now }
        requires current { has_home births.now self.old.thread ≡ true }
        ensures { (r : Recording) (at : Position) (q : ℕ) (output error : List ℕ)
            → AreBirthsKnown births.now (all_moments at)
            → at.moment.world ≡ sent output error (world_of q state.now)
            → session_of self.new r at ≡ with_process (session_of self.old r at) process }
    {
        if is_some_number(process, births.home(self.thread())) {
            self.set_process(process);
            return;
        }
        let thread = self.standing_thread(births, state, process);
        self.set_current(process, thread);
    }

    // this thread is the current one, with its own process
    fn name_thread(&mut self, births: &Births, thread: u32)
        requires { has_home births.now thread ≡ true }
        ensures { (r : Recording) (at : Position) → AreBirthsKnown births.now (all_moments at)
            → session_of self.new r at ≡ with_current (session_of self.old r at) thread }
    {
        let process = births.home(thread).unwrap_or(self.process());
        self.set_current(process, thread);
    }

    fn name_alone(&mut self, births: &Births, state: &State, thread: Which)
        requires told { has_processes births.now self.old.told ≡ true }
        requires noted { HasNoted births.now state.now }
        requires current { has_home births.now self.old.thread ≡ true }
        requires named { has_which births.now thread ≡ true }
        ensures { (r : Recording) (at : Position) (q : ℕ) (output error : List ℕ)
            → AreBirthsKnown births.now (all_moments at)
            → at.moment.world ≡ sent output error (world_of q state.now)
            → session_of self.new r at ≡ named_alone (session_of self.old r at) thread }
    {
        match thread {
            Which::Only(thread) => self.name_thread(births, thread),
            Which::All => self.name_process(births, state, self.process()),
            Which::Any => self.name_process(births, state, self.process()),
        }
    }

    fn name_process_alone(&mut self, births: &Births, state: &State, process: Which)
        requires told { has_processes births.now self.old.told ≡ true }
        requires noted { HasNoted births.now state.now }
        requires current { has_home births.now self.old.thread ≡ true }
        ensures { (r : Recording) (at : Position) (q : ℕ) (output error : List ℕ)
            → AreBirthsKnown births.now (all_moments at)
            → at.moment.world ≡ sent output error (world_of q state.now)
            → session_of self.new r at ≡ named_process (session_of self.old r at) process }
    {
        match process {
            Which::Only(process) => self.name_process(births, state, process),
            Which::All => self.name_process(births, state, self.process()),
            Which::Any => self.name_process(births, state, self.process()),
        }
    }

    fn name_of_process(&mut self, births: &Births, state: &State, process: u32, thread: Which)
        requires told { has_processes births.now self.old.told ≡ true }
        requires noted { HasNoted births.now state.now }
        requires current { has_home births.now self.old.thread ≡ true }
        ensures { (r : Recording) (at : Position) (q : ℕ) (output error : List ℕ)
            → AreBirthsKnown births.now (all_moments at)
            → at.moment.world ≡ sent output error (world_of q state.now)
            → session_of self.new r at
            ≡ named_both (session_of self.old r at) (Which.Only process) thread }
    {
        match thread {
            Which::Only(thread) => self.set_current(process, thread),
            Which::All => self.name_process(births, state, process),
            Which::Any => self.name_process(births, state, process),
        }
    }

    fn name_both(&mut self, births: &Births, state: &State, process: Which, thread: Which)
        requires told { has_processes births.now self.old.told ≡ true }
        requires noted { HasNoted births.now state.now }
        requires current { has_home births.now self.old.thread ≡ true }
        requires named { has_which births.now thread ≡ true }
        ensures { (r : Recording) (at : Position) (q : ℕ) (output error : List ℕ)
            → AreBirthsKnown births.now (all_moments at)
            → at.moment.world ≡ sent output error (world_of q state.now)
            → session_of self.new r at
            ≡ named_both (session_of self.old r at) process thread }
    {
        match process {
            Which::Only(process) => self.name_of_process(births, state, process, thread),
            Which::All => self.name_alone(births, state, thread),
            Which::Any => self.name_alone(births, state, thread),
        }
    }

    /// The current process and thread, as `Hg` names them. The births of the current thread and of
    /// the one that is named are known, those of the processes that were told of, and those in the
    /// state.
    pub fn name_current(&mut self, births: &Births, state: &State, id: ThreadId)
        requires told { has_processes births.now self.old.told ≡ true }
        requires noted { HasNoted births.now state.now }
        requires current { has_home births.now self.old.thread ≡ true }
        requires named { knows_id births.now id ≡ true }
        ensures { (r : Recording) (at : Position) (q : ℕ) (output error : List ℕ)
            → AreBirthsKnown births.now (all_moments at)
            → at.moment.world ≡ sent output error (world_of q state.now)
            → session_of self.new r at ≡ named_current (session_of self.old r at) id }
    {
        match id {
            ThreadId::Both { process, thread } => self.name_both(births, state, process, thread),
            ThreadId::ProcessAlone(process) => self.name_process_alone(births, state, process),
            ThreadId::ThreadAlone(thread) => self.name_alone(births, state, thread),
        }
    }
}
