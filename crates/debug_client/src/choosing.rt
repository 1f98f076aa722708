//! The thread that a stop names which is nobody's in particular.
ghost use Rattle.std.specs.Prelude.{◌≡◌, ◌++◌, ◌∷◌, [], ◌==◌, ℕ, List, true, IfOk, find, filter};
ghost use Rattle.std.specs.Prelude.{option_to_list};
ghost use Rattle.dos_world.specs.World.{live_threads, first_of};
ghost use Rattle.kernel_calls.specs.StateWorld.{world_of, sent};
ghost use Rattle.debug_session.specs.Positions.{Position, all_moments, mover_at};
ghost use Rattle.debug_session.specs.Recordings.{Recording};
ghost use Rattle.debug_session.specs.Homes.{is_some_number};
ghost use Rattle.debug_session.specs.Sessions.{is_told_of, is_among, chosen_at, home_in};
ghost use Rattle.debug_client.specs.Births.{AreBirthsKnown, HasNoted, has_processes, has_homes};
ghost use Rattle.debug_client.specs.Clients.{session_of};

use crate::births::Births;
use crate::client::Client;
use crate::numbers::{is_among, is_some_number};
use gdb_packets::resumptions::Resumption;
use kernel_calls::State;
use std::alloc::{AllocError, Global};

impl Client {
    // the lowest thread that is told of
    fn lowest_told(&self, resumptions: &[Resumption], state: &State) -> Option<u32>
        ensures { (r : Recording) (at : Position) (q : ℕ) (output error : List ℕ)
            → result ≡ find (is_told_of (session_of self.now r at) resumptions.now
            (sent output error (world_of q state.now)))
            (live_threads (sent output error (world_of q state.now))) }
    {
        for place in 0..state.table.live_threads() {
            let (number, _) = state.table.live_thread(place);
            if self.is_told_of(resumptions, state, number) {
                return Some(number);
            }
        }
        None
    }

    // the current thread, where it is told of, or the lowest
    fn current_told(&self, resumptions: &[Resumption], state: &State) -> Option<u32>
        ensures { (r : Recording) (at : Position) (q : ℕ) (output error : List ℕ)
            → result ≡ find (is_told_of (session_of self.now r at) resumptions.now
            (sent output error (world_of q state.now)))
            (self.now.thread ∷ live_threads (sent output error (world_of q state.now))) }
    {
        if self.is_told_of(resumptions, state, self.thread()) {
            return Some(self.thread());
        }
        self.lowest_told(resumptions, state)
    }

    // the first that is told of: the mover, the current thread, the lowest
    fn first_told(
        &self,
        resumptions: &[Resumption],
        state: &State,
        mover: Option<u32>,
    ) -> Option<u32>
        ensures { (r : Recording) (at : Position) (q : ℕ) (output error : List ℕ)
            → result ≡ first_of (filter (is_told_of (session_of self.now r at) resumptions.now
            (sent output error (world_of q state.now)))
            (option_to_list mover
            ++ self.now.thread ∷ live_threads (sent output error (world_of q state.now)))) }
    {
        let Some(mover) = mover else {
            return self.current_told(resumptions, state);
        };
        if self.is_told_of(resumptions, state, mover) {
            return Some(mover);
        }
        self.current_told(resumptions, state)
    }

    // the lowest listed thread of the current process
    fn lowest_of_process(&self, births: &Births, listed: &[u32]) -> Option<u32>
        ensures { (r : Recording) (at : Position) → AreBirthsKnown births.now (all_moments at)
            → has_homes births.now listed.now ≡ true
            → result ≡ find (λ t. is_some_number self.now.process
            (home_in (session_of self.now r at) t)) listed.now }
    {
        for thread in listed {
            if is_some_number(self.process(), births.home(*thread)) {
                return Some(*thread);
            }
        }
        None
    }

    // of the listed ones: the current thread, the lowest of its process, the lowest
    fn first_listed(&self, births: &Births, listed: &[u32]) -> Option<u32>
        ensures { (r : Recording) (at : Position) → AreBirthsKnown births.now (all_moments at)
            → has_homes births.now listed.now ≡ true
            → result ≡ first_of (filter (λ t. is_among t listed.now) (self.now.thread ∷ [])
            ++ filter (λ t. is_some_number self.now.process
            (home_in (session_of self.now r at) t)) listed.now ++ listed.now) }
    {
        if is_among(self.thread(), listed) {
            return Some(self.thread());
        }
        if let Some(thread) = self.lowest_of_process(births, listed) {
            return Some(thread);
        }
        match listed {
            [] => None,
            [first, ..] => Some(*first),
        }
    }

    /// The thread of the first that there is, with its process: the mover, the current thread and
    /// the lowest that is told of; then the current thread, the lowest of its process and the
    /// lowest that is listed. The births of the processes that were told of are known, and those in
    /// the state.
    pub fn chosen(
        &self,
        alloc: Global,
        births: &Births,
        resumptions: &[Resumption],
        state: &State,
        mover: Option<u32>,
    ) -> Result<(u32, u32), AllocError>
        requires told { has_processes births.now self.now.told ≡ true }
        requires noted { HasNoted births.now state.now }
        ensures { IfOk result (λ pair. (r : Recording) (from at : Position) (q : ℕ)
            (output error : List ℕ) → AreBirthsKnown births.now (all_moments from)
            → at.moment.world ≡ sent output error (world_of q state.now)
            → mover_at at ≡ mover
            → pair ≡ chosen_at (session_of self.now r from) resumptions.now at) }
    {
        if let Some(thread) = self.first_told(resumptions, state, mover) {
            return Ok(self.home_pair(births, thread));
        }
        let listed = self.listed_threads(alloc, births, state)?;
        match self.first_listed(births, &listed) {
            None => Ok((self.process(), self.thread())),
            Some(thread) => Ok(self.home_pair(births, thread)),
        }
    }
}
