// The kernel: the state, what the run was given, and who starts a round.
ghost use Rattle.std.specs.Prelude.{ℕ, ◌≡◌, ◌<◌, ◌≤◌, ◌-◌, [], false, is_err, length, IfOk};
ghost use Rattle.std.specs.Prelude.{IfSome, IsSome, OnErr, OnOk, slice_set};
ghost use Rattle.std.specs.Vec.{vec_capacity};
ghost use Rattle.dos_world.specs.Numbered.{numbered};
ghost use Rattle.dos_world.specs.Play.{done};
ghost use Rattle.dos_io.specs.Shims.{HasNoEnd};
ghost use Rattle.flat_machine.specs.Rest.{serial_of};
ghost use Rattle.flat_machine.specs.Round.{round_of};
ghost use Rattle.page_store.specs.Store.{owner_at};
ghost use Rattle.proc_table.specs.Tables.{last_status};
ghost use Rattle.kernel_calls.specs.Plays.{Plays};
ghost use Rattle.kernel_calls.specs.StateWorld.{StaysInRound};
ghost use Rattle.group_rounds.specs.Handing.{packs_for};
ghost use Rattle.group_rounds.specs.Kernels.{IsBetweenRounds, kernel_marked};
ghost use Rattle.group_rounds.specs.Phases.{ready_in};
ghost use Rattle.group_rounds.specs.Rounds.{AreStarters, PlaysRound, begun_work, next_round};

use crate::RoundEnd;
use crate::packs::Packs;
use crate::phases::run_ready;
use crate::round::play_round;
use dos_io::Border;
use dos_world::Config;
use kernel_calls::{RunStop, State};
use std::alloc::{AllocError, Global};
use std::marker::Model;
use worker_pool::Workers;

// at most so many threads live
const THREADS: usize = 64;

/// A group between two rounds. Contracts see its state, its configuration, the threads that were
/// ready as the last phases began, and whether a round has failed.
#[derive(Drop)]
pub struct Kernel {
    pub(crate) state: State,
    pub(crate) config: Config,
    pub(crate) starters: Vec<u32>,
    pub(crate) packs: Packs,
    pub(crate) failed: bool,
}

impl Model for Kernel {
    ghost use Rattle.std.specs.Prelude.{◌≡◌, ◌≤◌, false};
    ghost use Rattle.std.specs.Vec.{vec_capacity};
    ghost use Rattle.group_rounds.specs.Handing.{packs_for};
    ghost use Rattle.group_rounds.specs.Kernels.{Held, IsBetweenRounds};

    ghost Value = { Held };

    ghost view = { λ k. record {
      state = k.state;
      config = k.config;
      starters = k.starters.items;
      failed = k.failed;
    } };

    ghost invariant = { λ k. (64 ≤ vec_capacity k.starters) × (1 ≤ k.state.round)
        × (k.packs ≡ packs_for k.config) × (k.failed ≡ false → IsBetweenRounds k.state k.config) };
}

// room for the starters of a round, and the packs of a kernel with this configuration
fn reserve(alloc: Global, config: &Config) -> Result<(Vec<u32>, Packs), AllocError>
    ensures { IfOk result (λ kept. (kept.0.items ≡ []) × (64 ≤ vec_capacity kept.0)
        × (kept.1 ≡ packs_for config.now)) }
{
    let starters = Vec::with_capacity(alloc, THREADS)?;
    Ok((
        starters,
        Packs::reserve(alloc, config.frames, config.scheme)?,
    ))
}

impl Kernel {
    /// A kernel with this state.
    pub fn new(alloc: Global, state: State, config: Config) -> Result<Kernel, AllocError>
        requires { IsBetweenRounds state config }
        ensures { IfOk result
            (λ k. k ≡ record {
              state = state;
              config = config;
              starters = [];
              failed =
                  false;
            }) }
    {
        match reserve(alloc, &config) {
            Ok((starters, packs)) => Ok(Kernel {
                state,
                config,
                starters,
                packs,
                failed: false,
            }),
            Err(error) => {
                drop(state);
                Err(error)
            }
        }
    }

    /// Whether a round has failed: nothing more is said of it then.
    pub fn is_failed(&self) -> bool
        ensures { result ≡ self.now.failed }
    {
        self.failed
    }

    /// The state, of which the kernel is no more.
    pub fn into_state(self) -> State
        ensures state { result ≡ self.state }
        ensures sound { self.failed ≡ false → IsBetweenRounds result self.config }
    {
        let Kernel {
            state,
            config: _,
            starters,
            packs,
            failed: _,
        } = self;
        drop(starters);
        drop(packs);
        state
    }

    /// What the run was given.
    pub fn config(&self) -> Config
        ensures { result ≡ self.now.config }
    {
        self.config
    }

    /// How many numbers of processes were given. They are given from 1.
    pub fn processes(&self) -> u32
        ensures { result ≡ length self.now.state.table.processes }
    {
        self.state.table.processes()
    }

    /// The status of a process whose number was given. None exactly where it lives.
    pub fn status(&self, pid: u32) -> Option<u8>
        requires given { IsSome (numbered self.now.state.table.processes pid) }
        ensures { IfSome (numbered self.now.state.table.processes pid)
            (λ process. result ≡ last_status process) }
    {
        self.state.table.status(pid)
    }

    /// The state. Where no round has failed it is one that may stand between two rounds.
    pub fn state(&self) -> &State
        ensures state { result.now ≡ self.now.state }
        ensures sound { self.now.failed ≡ false → IsBetweenRounds result.now self.now.config }
    {
        &self.state
    }

    /// Marks the owners of all frames as they are. The memory for it is taken here.
    pub fn mark(&mut self, alloc: Global) -> Result<(), AllocError>
        ensures ok { OnOk result
            (self.new ≡ kernel_marked self.old self.old.state.frames.owners) }
        ensures err { OnErr result (self.new ≡ self.old) }
    {
        self.state.frames.mark(alloc)
    }

    /// Marks the owner of a frame anew.
    pub fn settle(&mut self, frame: u32)
        requires { frame < length self.old.state.frames.marked }
        ensures { self.new ≡ kernel_marked self.old (slice_set self.old.state.frames.marked frame
            (owner_at self.old.state.frames frame)) }
    {
        self.state.frames.settle(frame)
    }

    /// How many rounds have been run. One that has failed isn't counted.
    pub fn rounds(&self) -> u32
        ensures { result ≡ self.now.state.round - 1 }
    {
        self.state.round - 1
    }
}

/// Runs one round: the workers run its parallel phase, and their tally grows by the instructions of
/// it, also where the round then stops. After an `Err` the kernel has failed, the round isn't
/// counted, and nothing more is said of its state.
pub fn run_round<B: Border, W: Workers>(
    kernel: &mut Kernel,
    border: &mut B,
    workers: &mut W,
) -> Result<RoundEnd, RunStop>
    requires running { kernel.old.failed ≡ false }
    requires limit { kernel.old.state.round ≤ kernel.old.config.rounds }
    requires told { HasNoEnd (B.state border.old).shim.told }
    ensures plays { PlaysRound kernel.old.config.quantum (λ w. round_of kernel.old.config.scheme w)
        (λ w answers. begun_work kernel.old.config.scheme w answers) result
        kernel.old.state (B.state border.old) kernel.new.state (B.state border.new)
        (W.tally workers.old) (W.tally workers.new) }
    ensures round { IfOk result
        (λ end. kernel.new.state.round ≡ next_round end kernel.old.state.round) }
    ensures starters { OnOk result
        (AreStarters kernel.old.state (B.state border.old).shim.told (B.state border.new).shim.told
        kernel.old.starters kernel.new.starters) }
    ensures uncounted { OnErr result (kernel.new.state.round ≡ kernel.old.state.round) }
    ensures marked { kernel.new.state.frames.marked ≡ kernel.old.state.frames.marked }
    ensures sound { kernel.new.failed ≡ false → IsBetweenRounds kernel.new.state kernel.new.config }
    ensures config { kernel.new.config ≡ kernel.old.config }
    ensures failed { kernel.new.failed ≡ is_err result }
    ensures follows { B.follows border.old border.new }
    ensures fixed { W.fixed workers.new ≡ W.fixed workers.old }
{
    let quantum = kernel.config.quantum;
    let result = play_round(
        &mut kernel.state,
        &mut kernel.starters,
        &mut kernel.packs,
        quantum,
        border,
        workers,
    );
    kernel.failed = result.is_err();
    result
}

/// The serial phase by itself: the rest of each thread that is ready, one after another, each under
/// what is left of its budget.
///
/// `run_round` has it as its last step, over the round's starters. After an `Err` the kernel has
/// failed, and nothing more is said of its state.
pub fn serial_phase<B: Border>(kernel: &mut Kernel, border: &mut B) -> Result<(), RunStop>
    requires running { kernel.old.failed ≡ false }
    requires told { HasNoEnd (B.state border.old).shim.told }
    ensures plays { Plays kernel.old.config.quantum (λ w. w)
        (λ w. serial_of w (ready_in kernel.old.state.table.threads)) (λ _ w. done w) result
        kernel.old.state (B.state border.old) kernel.new.state (B.state border.new) }
    ensures starters { kernel.new.starters ≡ ready_in kernel.old.state.table.threads }
    ensures round { StaysInRound kernel.old.state kernel.new.state }
    ensures sound { kernel.new.failed ≡ false → IsBetweenRounds kernel.new.state kernel.new.config }
    ensures config { kernel.new.config ≡ kernel.old.config }
    ensures failed { kernel.new.failed ≡ is_err result }
    ensures follows { B.follows border.old border.new }
{
    let served = run_ready(&mut kernel.state, &mut kernel.starters, border);
    kernel.failed = served.is_err();
    served
}
