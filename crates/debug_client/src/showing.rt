//! Which processes are shown at a moment, and which threads are told of.
ghost use Rattle.std.specs.Prelude.{◌≡◌, ◌&&◌, ℕ, List, Bool, true};
ghost use Rattle.kernel_calls.specs.StateWorld.{world_of, sent};
ghost use Rattle.debug_session.specs.Positions.{Position, all_moments};
ghost use Rattle.debug_session.specs.Recordings.{Recording};
ghost use Rattle.debug_session.specs.Sessions.{is_shown, is_acting, is_told_of, is_belonging};
ghost use Rattle.debug_session.specs.Sessions.{is_anybody_there, is_process_live, is_thread_shown};
ghost use Rattle.debug_session.specs.Goals.{is_somebody_shown};
ghost use Rattle.debug_client.specs.Births.{AreBirthsKnown, knows_named};
ghost use Rattle.debug_client.specs.Clients.{session_of};

use crate::actions::{action_of_thread, are_for};
use crate::births::Births;
use crate::client::Client;
use crate::numbers::is_among;
use gdb_packets::resumptions::Resumption;
use kernel_calls::State;

impl Client {
    /// Whether a process is shown. Any number.
    pub fn is_shown(&self, state: &State, process: u32) -> bool
        ensures { (r : Recording) (at : Position) (q : ℕ) (output error : List ℕ)
            → result ≡ is_shown (session_of self.now r at)
            (sent output error (world_of q state.now)) process }
    {
        if is_among(process, self.told()) {
            return true;
        }
        if self.is_told_forks() {
            return false;
        }
        if is_among(process, self.released()) {
            return false;
        }
        state.table.is_live(process)
    }

    /// Whether a thread lives and its process is shown. Any number.
    pub(crate) fn is_thread_shown(&self, state: &State, thread: u32) -> bool
        ensures { (r : Recording) (at : Position) (q : ℕ) (output error : List ℕ)
            → result ≡ is_thread_shown (session_of self.now r at)
            (sent output error (world_of q state.now)) thread }
    {
        if state.table.is_thread(thread) {
            return self.is_shown(state, state.table.process_of(thread));
        }
        false
    }

    /// Whether a thread lives, its process is shown, and it has an action. Any number.
    pub fn is_told_of(&self, resumptions: &[Resumption], state: &State, thread: u32) -> bool
        ensures { (r : Recording) (at : Position) (q : ℕ) (output error : List ℕ)
            → result ≡ is_told_of (session_of self.now r at) resumptions.now
            (sent output error (world_of q state.now)) thread }
    {
        if !state.table.is_thread(thread) {
            return false;
        }
        let process = state.table.process_of(thread);
        if self.is_shown(state, process) {
            return action_of_thread(resumptions, process, thread).is_some();
        }
        false
    }

    /// Whether a process is shown, and an action is for it or for a thread of it. Any number.
    pub fn is_belonging(
        &self,
        births: &Births,
        resumptions: &[Resumption],
        state: &State,
        process: u32,
    ) -> bool
        requires { knows_named births.now resumptions.now ≡ true }
        ensures { (r : Recording) (at : Position) (q : ℕ) (output error : List ℕ)
            → AreBirthsKnown births.now (all_moments at)
            → result ≡ is_belonging (session_of self.now r at) resumptions.now
            (sent output error (world_of q state.now)) process }
    {
        if self.is_shown(state, process) {
            return are_for(births, resumptions, process);
        }
        false
    }

    // whether a process that belongs lives
    fn is_there(
        &self,
        births: &Births,
        resumptions: &[Resumption],
        state: &State,
        process: u32,
    ) -> bool
        requires { knows_named births.now resumptions.now ≡ true }
        ensures { (r : Recording) (at : Position) (q : ℕ) (output error : List ℕ)
            → AreBirthsKnown births.now (all_moments at)
            → result ≡ (is_process_live (sent output error (world_of q state.now)) process
            && is_belonging (session_of self.now r at) resumptions.now
            (sent output error (world_of q state.now)) process) }
    {
        if state.table.is_live(process) {
            return self.is_belonging(births, resumptions, state, process);
        }
        false
    }

    /// Whether some process that belongs lives.
    pub fn is_anybody_there(
        &self,
        births: &Births,
        resumptions: &[Resumption],
        state: &State,
    ) -> bool
        requires { knows_named births.now resumptions.now ≡ true }
        ensures { (r : Recording) (at : Position) (q : ℕ) (output error : List ℕ)
            → AreBirthsKnown births.now (all_moments at)
            → result ≡ is_anybody_there (session_of self.now r at) resumptions.now
            (sent output error (world_of q state.now)) }
    {
        for place in 0..state.table.processes() {
            if self.is_there(births, resumptions, state, place + 1) {
                return true;
            }
        }
        false
    }

    // whether a process that is shown lives
    fn is_shown_there(&self, state: &State, process: u32) -> bool
        ensures { (r : Recording) (at : Position) (q : ℕ) (output error : List ℕ)
            → result ≡ (is_process_live (sent output error (world_of q state.now)) process
            && is_shown (session_of self.now r at)
            (sent output error (world_of q state.now)) process) }
    {
        if state.table.is_live(process) {
            return self.is_shown(state, process);
        }
        false
    }

    /// Whether some process that is shown lives.
    pub fn is_somebody_shown(&self, state: &State) -> bool
        ensures { (r : Recording) (at : Position) (q : ℕ) (output error : List ℕ)
            → result ≡ is_somebody_shown (session_of self.now r at)
            (sent output error (world_of q state.now)) }
    {
        for place in 0..state.table.processes() {
            if self.is_shown_there(state, place + 1) {
                return true;
            }
        }
        false
    }
}
