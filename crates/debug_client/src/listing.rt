//! Which threads are listed at a moment.
ghost use Rattle.std.specs.Prelude.{◌≡◌, ◌++◌, ℕ, List, true, IfOk, OnOk, map, filter, filter_map};
ghost use Rattle.std.specs.Prelude.{◌∷◌, [], is_none};
ghost use Rattle.dos_world.specs.World.{live_threads, live_process};
ghost use Rattle.kernel_calls.specs.StateWorld.{world_of, sent};
ghost use Rattle.debug_session.specs.Positions.{Position, all_moments};
ghost use Rattle.debug_session.specs.Recordings.{Recording};
ghost use Rattle.debug_session.specs.Sessions.{is_thread_shown, absent_threads, listed_at};
ghost use Rattle.debug_session.specs.Homes.{birth_thread};
ghost use Rattle.debug_session.specs.Sessions.{home_pair};
ghost use Rattle.debug_session.specs.Lists.{listed_pairs};
ghost use Rattle.debug_client.specs.Births.{AreBirthsKnown, HasNoted, has_processes, has_home};
ghost use Rattle.debug_client.specs.Births.{has_process, has_homes};
ghost use Rattle.debug_client.specs.Clients.{session_of};

use crate::births::Births;
use crate::client::Client;
use crate::numbers::rising;
use kernel_calls::State;
use std::alloc::{AllocError, Global};

impl Client {
    // a thread, where its process is shown
    fn put_if_shown(
        &self,
        numbers: &mut Vec<u32>,
        state: &State,
        number: u32,
    ) -> Result<(), AllocError>
        ensures { (r : Recording) (at : Position) (q : ℕ) (output error : List ℕ)
            → OnOk result (numbers.new.items ≡ numbers.old.items
            ++ filter (is_thread_shown (session_of self.now r at)
            (sent output error (world_of q state.now))) (number ∷ [])) }
    {
        if !self.is_thread_shown(state, number) {
            return Ok(());
        }
        numbers.push(number)?;
        Ok(())
    }

    // the live threads of the shown processes
    fn put_shown(&self, numbers: &mut Vec<u32>, state: &State) -> Result<(), AllocError>
        ensures { (r : Recording) (at : Position) (q : ℕ) (output error : List ℕ)
            → OnOk result (numbers.new.items ≡ numbers.old.items
            ++ filter (is_thread_shown (session_of self.now r at)
            (sent output error (world_of q state.now)))
            (live_threads (sent output error (world_of q state.now)))) }
    {
        for place in 0..state.table.live_threads() {
            let (number, _) = state.table.live_thread(place);
            self.put_if_shown(numbers, state, number)?;
        }
        Ok(())
    }

    // of a process that was told of and doesn't live the thread that it was born with
    fn put_absent_thread(
        &self,
        numbers: &mut Vec<u32>,
        births: &Births,
        state: &State,
        process: u32,
    ) -> Result<(), AllocError>
        requires { has_process births.now process ≡ true }
        ensures { (r : Recording) (at : Position) (q : ℕ) (output error : List ℕ)
            → AreBirthsKnown births.now (all_moments at)
            → OnOk result (numbers.new.items ≡ numbers.old.items
            ++ filter_map (birth_thread (all_moments at))
            (filter (λ p. is_none (live_process (sent output error (world_of q state.now)) p))
            (process ∷ []))) }
    {
        if state.table.is_live(process) {
            return Ok(());
        }
        match births.first_thread(process) {
            None => Ok(()),
            Some(thread) => {
                numbers.push(thread)?;
                Ok(())
            }
        }
    }

    // the threads of processes that were told of and don't live
    fn put_absent(
        &self,
        numbers: &mut Vec<u32>,
        births: &Births,
        state: &State,
    ) -> Result<(), AllocError>
        requires { has_processes births.now self.now.told ≡ true }
        ensures { (r : Recording) (at : Position) (q : ℕ) (output error : List ℕ)
            → AreBirthsKnown births.now (all_moments at)
            → OnOk result (numbers.new.items ≡ numbers.old.items
            ++ absent_threads (session_of self.now r at)
            (sent output error (world_of q state.now))) }
    {
        let told = self.told();
        for process in told {
            self.put_absent_thread(numbers, births, state, *process)?;
        }
        Ok(())
    }

    /// The numbers of the threads that are listed. The births of the processes that were told of
    /// are known.
    pub fn listed_threads(
        &self,
        alloc: Global,
        births: &Births,
        state: &State,
    ) -> Result<Vec<u32>, AllocError>
        requires { has_processes births.now self.now.told ≡ true }
        ensures { IfOk result (λ numbers. (r : Recording) (at : Position) (q : ℕ)
            (output error : List ℕ) → AreBirthsKnown births.now (all_moments at)
            → numbers.items ≡ listed_at (session_of self.now r at)
            (sent output error (world_of q state.now))) }
    {
        let mut numbers = Vec::new(alloc);
        self.put_shown(&mut numbers, state)?;
        self.put_absent(&mut numbers, births, state)?;
        rising(alloc, &numbers)
    }

    /// A thread with its process, where its birth is known.
    pub fn home_pair(&self, births: &Births, thread: u32) -> (u32, u32)
        ensures { (r : Recording) (at : Position) → AreBirthsKnown births.now (all_moments at)
            → has_home births.now thread ≡ true
            → result ≡ home_pair (session_of self.now r at) thread }
    {
        match births.home(thread) {
            None => (self.process(), thread),
            Some(process) => (process, thread),
        }
    }

    // each with its process
    fn pairs(
        &self,
        alloc: Global,
        births: &Births,
        numbers: &[u32],
    ) -> Result<Vec<(u32, u32)>, AllocError>
        ensures { IfOk result (λ pairs. (r : Recording) (at : Position)
            → AreBirthsKnown births.now (all_moments at)
            → has_homes births.now numbers.now ≡ true
            → pairs.items ≡ map (home_pair (session_of self.now r at)) numbers.now) }
    {
        let mut pairs = Vec::new(alloc);
        for number in numbers {
            pairs.push(self.home_pair(births, *number))?;
        }
        Ok(pairs)
    }

    /// The threads that are listed, each with its process, by rising thread. The births of the
    /// processes that were told of are known, and those in the state.
    pub fn listed(
        &self,
        alloc: Global,
        births: &Births,
        state: &State,
    ) -> Result<Vec<(u32, u32)>, AllocError>
        requires told { has_processes births.now self.now.told ≡ true }
        requires noted { HasNoted births.now state.now }
        ensures { IfOk result (λ pairs. (r : Recording) (at : Position) (q : ℕ)
            (output error : List ℕ) → AreBirthsKnown births.now (all_moments at)
            → at.moment.world ≡ sent output error (world_of q state.now)
            → pairs.items ≡ listed_pairs (session_of self.now r at)) }
    {
        let numbers = self.listed_threads(alloc, births, state)?;
        self.pairs(alloc, births, &numbers)
    }
}
