// The walk.
ghost use Rattle.std.specs.Prelude.{◌≡◌, ◌+◌, ◌-◌, ◌^◌, ◌<◌, ◌≤◌, ℕ, List, false, is_err, is_none};
ghost use Rattle.std.specs.Prelude.{IsSome, OnOk, true};
ghost use Rattle.dos_world.specs.Play.{done};
ghost use Rattle.dos_world.specs.declared.Scheme.TheVariants.{Ownership};
ghost use Rattle.dos_io.specs.Shims.{HasNoEnd};
ghost use Rattle.group_moves.specs.Moments.{Moment, first_moment, kind_at};
ghost use Rattle.group_moves.specs.Places.{between_rounds};
ghost use Rattle.kernel_calls.specs.Plays.{Plays};
ghost use Rattle.group_rounds.specs.Kernels.{IsBetweenRounds, kernel_world};
ghost use Rattle.group_walk.specs.Exits.{LeavesNobody};
ghost use Rattle.group_walk.specs.Places.{numbers_behind, phase_at};
ghost use Rattle.group_walk.specs.Walks.{HasWalked, kinds_named, moment_in, moment_of};
ghost use Rattle.group_walk.specs.Walks.{world_there};
ghost use Rattle.group_walk.specs.Plays.{moved, walked};
ghost use Rattle.group_walk.specs.Stretches.{HasGoneOn};

use crate::exits::is_last_exit;
use crate::moving::{reach_next, run_part, run_rest, serial_kind};
use dos_io::Border;
use dos_world::{Config, Ending};
use group_rounds::{Kernel, SparePacks, put_together, take_apart};
use kernel_calls::{RunStop, State};
use std::marker::Model;

/// What a move is.
#[derive(Clone, Copy, Debug, PartialEq, Eq)]
pub enum MoveKind {
    /// A round begins.
    Begins,
    /// A thread runs an instruction.
    Runs {
        /// Its number.
        thread: u32,
    },
    /// A thread is served.
    IsServed {
        /// Its number.
        thread: u32,
    },
    /// A thread faults.
    Faults {
        /// Its number.
        thread: u32,
        /// The fault's.
        number: u8,
    },
}

/// Where a walk stands in its round.
#[derive(Clone, Copy, Debug, PartialEq, Eq)]
pub enum Phase {
    /// No round runs.
    Between,
    /// A starter is at its part of the parallel phase.
    Parallel,
    /// A starter is at its part of the serial phase.
    Serial,
    /// The run has ended.
    Ended(Ending),
}

/// A walk over a kernel of the ownership scheme. Contracts see its state, its configuration, its
/// place, how many rounds have begun and how many moves were made since, and whether a move has
/// failed.
#[derive(Drop)]
pub struct Walker {
    state: State,
    config: Config,
    starters: Vec<u32>,
    packs: SparePacks,
    phase: Phase,
    // which starter is at its part
    index: usize,
    begun: u32,
    made: u64,
    failed: bool,
}

impl Model for Walker {
    ghost use Rattle.std.specs.Prelude.{◌≡◌, ◌≤◌, false};
    ghost use Rattle.std.specs.Vec.{vec_capacity};
    ghost use Rattle.dos_world.specs.declared.Scheme.TheVariants.{Ownership};
    ghost use Rattle.group_rounds.specs.Handing.{packs_for};
    ghost use Rattle.group_walk.specs.Places.{place_at};
    ghost use Rattle.group_walk.specs.Walks.{IsWalking, Walk};

    ghost Value = { Walk };

    ghost view = { λ w. record {
      state = w.state;
      config = w.config;
      place = place_at w.phase w.starters.items w.index;
      begun_rounds = w.begun;
      made = w.made;
      failed = w.failed;
    } };

    ghost invariant = { λ w. (64 ≤ vec_capacity w.starters) × (w.packs ≡ packs_for w.config)
        × (w.config.scheme ≡ Ownership) × (w.failed ≡ false → IsWalking (record {
          state = w.state;
          config = w.config;
          place = place_at w.phase w.starters.items w.index;
          begun_rounds = w.begun;
          made = w.made;
          failed = w.failed;
        })) };
}

// how many rounds have begun, and how many moves were made since, behind a move in this phase
fn numbers_behind(phase: Phase, begun: u32, made: u64) -> (u32, u64)
    requires begun { begun < 2 ^ 32 - 1 }
    requires made { made < 2 ^ 64 - 1 }
    ensures { result ≡ numbers_behind phase begun made }
{
    match phase {
        Phase::Between => (begun + 1, 0),
        Phase::Parallel | Phase::Serial | Phase::Ended(_) => (begun, made + 1),
    }
}

impl Walker {
    /// A walk from the moment at which a kernel of the ownership scheme stands between two rounds.
    pub fn begin(kernel: Kernel) -> Walker
        requires running { kernel.failed ≡ false }
        requires scheme { kernel.config.scheme ≡ Ownership }
        ensures begins { result ≡ record {
          state = kernel.state;
          config = kernel.config;
          place = between_rounds;
          begun_rounds = kernel.state.round - 1;
          made = 0;
          failed = false;
        } }
        ensures first { moment_of result ≡ first_moment (kernel_world kernel) }
    {
        let (state, config, starters, packs) = take_apart(kernel);
        let begun = state.round - 1;
        Walker {
            state,
            config,
            starters,
            packs,
            phase: Phase::Between,
            index: 0,
            begun,
            made: 0,
            failed: false,
        }
    }

    /// The kernel again, between two rounds.
    pub fn into_kernel(self) -> Kernel
        requires running { self.failed ≡ false }
        requires between { self.place ≡ between_rounds }
        ensures state { result.state ≡ self.state }
        ensures config { result.config ≡ self.config }
        ensures running { result.failed ≡ false }
    {
        let Walker {
            state,
            config,
            starters,
            packs,
            ..
        } = self;
        put_together(state, config, starters, packs)
    }

    /// The state, with all frames home.
    pub fn state(&self) -> &State
        ensures state { result.now ≡ self.now.state }
        ensures sound { self.now.failed ≡ false → IsBetweenRounds result.now self.now.config }
    {
        &self.state
    }

    /// What the run was given.
    pub fn config(&self) -> Config
        ensures config { result ≡ self.now.config }
        ensures scheme { result.scheme ≡ Ownership }
    {
        self.config
    }

    /// The phase in which the next move is made.
    pub fn phase(&self) -> Phase
        ensures phase { phase_at self.now.place ≡ result }
        ensures between { result ≡ Phase.Between → self.now.place ≡ between_rounds }
    {
        self.phase
    }

    /// How many rounds have begun.
    pub fn begun(&self) -> u32
        ensures { result ≡ self.now.begun_rounds }
    {
        self.begun
    }

    /// How many moves were made since the last round began.
    pub fn made(&self) -> u64
        ensures { result ≡ self.now.made }
    {
        self.made
    }

    /// Whether a move has failed: nothing more is said of the state then.
    pub fn is_failed(&self) -> bool
        ensures { result ≡ self.now.failed }
    {
        self.failed
    }

    /// What the next move is, without making it; None exactly where no move is next.
    pub fn next(&self) -> Option<MoveKind>
        requires { self.now.failed ≡ false }
        ensures { (o e : List ℕ)
            → kind_at self.now.config.rounds (moment_in self.now (world_there self.now o e))
            ≡ kinds_named result }
    {
        match self.phase {
            Phase::Between => {
                if self.state.table.live_threads() == 0 {
                    return None;
                }
                if self.config.rounds <= self.begun {
                    return None;
                }
                Some(MoveKind::Begins)
            }
            Phase::Parallel => Some(MoveKind::Runs {
                thread: self.starters[self.index],
            }),
            Phase::Serial => Some(serial_kind(&self.state, self.starters[self.index])),
            Phase::Ended(_) => None,
        }
    }

    /// Whether the next move ends the only process that lives, without making it. No more is said
    /// where it answers false.
    pub fn is_last_exit(&self) -> bool
        requires { self.now.failed ≡ false }
        ensures { result ≡ true → (o e : List ℕ)
            → LeavesNobody self.now.config.rounds
            (moment_in self.now (world_there self.now o e)) }
    {
        match self.phase {
            Phase::Serial => is_last_exit(&self.state, self.starters[self.index]),
            Phase::Between | Phase::Parallel | Phase::Ended(_) => false,
        }
    }

    /// Makes the next move, and what happens without a move behind it.
    ///
    /// After an `Err` the walk has failed, and nothing more is said of its state.
    pub fn make<B: Border>(&mut self, border: &mut B) -> Result<(), RunStop>
        requires running { self.old.failed ≡ false }
        requires next { IsSome (kind_at self.old.config.rounds (moment_of self.old)) }
        requires few { self.old.made < 2 ^ 64 - 1 }
        requires told { HasNoEnd (B.state border.old).shim.told }
        ensures plays { Plays self.old.config.quantum (λ (m : Moment). m.world)
            (λ w. moved self.old.config.rounds (moment_in self.old w))
            (λ _ w. done (moment_in self.new w)) result
            self.old.state (B.state border.old) self.new.state (B.state border.new) }
        ensures walked { OnOk result
            (HasWalked 1 self.old self.new (B.state border.old) (B.state border.new)) }
        ensures told { OnOk result (HasNoEnd (B.state border.new).shim.told) }
        ensures failed { self.new.failed ≡ is_err result }
        ensures config { self.new.config ≡ self.old.config }
        ensures made { self.new.made ≤ self.old.made + 1 }
        ensures follows { B.follows border.old border.new }
    {
        let (begun, made) = numbers_behind(self.phase, self.begun, self.made);
        match reach_next(
            &mut self.state,
            &mut self.starters,
            self.config.quantum,
            self.phase,
            self.index,
            border,
        ) {
            Ok((phase, index)) => {
                self.phase = phase;
                self.index = index;
                self.begun = begun;
                self.made = made;
                Ok(())
            }
            Err(stop) => {
                self.failed = true;
                Err(stop)
            }
        }
    }

    /// The next moves at once, as far as they are instructions of the thread that is next, which is
    /// at none of these addresses before any of them, and change no byte of these frames; and at
    /// most so many. How many they are.
    pub fn run_on(&mut self, most: u32, stops: &[u32], kept: &[u32]) -> u32
        requires running { self.old.failed ≡ false }
        requires few { self.old.made + most < 2 ^ 64 }
        ensures most { result ≤ most }
        ensures runs { HasGoneOn stops.now kept.now result self.old self.new }
        ensures config { self.new.config ≡ self.old.config }
        ensures made { self.new.made ≡ self.old.made + result }
        ensures running { self.new.failed ≡ false }
    {
        let at = self.index;
        let (count, phase, index) = match self.phase {
            Phase::Parallel => run_part(&mut self.state, &self.starters, at, most, stops, kept),
            Phase::Serial => run_rest(&mut self.state, &self.starters, at, most, stops, kept),
            Phase::Between | Phase::Ended(_) => return 0,
        };
        self.phase = phase;
        self.index = index;
        self.made += u64::from(count);
        count
    }

    /// Makes so many moves, or fewer where no move is next.
    ///
    /// After an `Err` the walk has failed, and nothing more is said of its state.
    pub fn walk<B: Border>(&mut self, moves: u32, border: &mut B) -> Result<(), RunStop>
        requires running { self.old.failed ≡ false }
        requires few { self.old.made + moves < 2 ^ 64 }
        requires told { HasNoEnd (B.state border.old).shim.told }
        ensures plays { Plays self.old.config.quantum (λ (m : Moment). m.world)
            (λ w. walked moves self.old.config.rounds (moment_in self.old w))
            (λ _ w. done (moment_in self.new w)) result
            self.old.state (B.state border.old) self.new.state (B.state border.new) }
        ensures walked { OnOk result
            (HasWalked moves self.old self.new (B.state border.old) (B.state border.new)) }
        ensures told { OnOk result (HasNoEnd (B.state border.new).shim.told) }
        ensures failed { self.new.failed ≡ is_err result }
        ensures config { self.new.config ≡ self.old.config }
        ensures made { self.new.made ≤ self.old.made + moves }
        ensures follows { B.follows border.old border.new }
    {
        let mut left = moves;
        while left > 0 {
            match self.next() {
                Some(_) => {}
                None => return Ok(()),
            }
            self.make(border)?;
            left -= 1;
        }
        Ok(())
    }
}
