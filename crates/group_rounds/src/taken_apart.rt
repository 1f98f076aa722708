// A kernel in its parts, for a caller that runs a round in steps of its own.
ghost use Rattle.std.specs.Prelude.{◌≡◌, ◌≤◌, false};
ghost use Rattle.std.specs.Vec.{vec_capacity};
ghost use Rattle.group_rounds.specs.Handing.{packs_for};
ghost use Rattle.group_rounds.specs.Kernels.{IsBetweenRounds};

use crate::kernel::Kernel;
use crate::packs::Packs;
use dos_world::Config;
use kernel_calls::State;
use std::marker::Model;

/// The packs of a kernel that is taken apart. Contracts see for how many frames and which scheme
/// they are.
#[derive(Drop)]
pub struct SparePacks {
    packs: Packs,
}

impl Model for SparePacks {
    ghost use Rattle.group_rounds.specs.Handing.{PacksFor};

    ghost Value = { PacksFor };

    ghost view = { λ s. s.packs };
}

/// The kernel's state, its configuration, room for the starters of a round, and its packs. No round
/// is run over the state by `run_round` until they are put together again.
pub fn take_apart(kernel: Kernel) -> (State, Config, Vec<u32>, SparePacks)
    requires { kernel.failed ≡ false }
    ensures state { result.0 ≡ kernel.state }
    ensures config { result.1 ≡ kernel.config }
    ensures between { IsBetweenRounds result.0 result.1 }
    ensures room { 64 ≤ vec_capacity result.2 }
    ensures packs { result.3 ≡ packs_for result.1 }
{
    let Kernel {
        state,
        config,
        starters,
        packs,
        failed: _,
    } = kernel;
    (state, config, starters, SparePacks { packs })
}

/// A kernel of these parts, with a state that may stand between two rounds.
pub fn put_together(state: State, config: Config, starters: Vec<u32>, packs: SparePacks) -> Kernel
    requires between { IsBetweenRounds state config }
    requires room { 64 ≤ vec_capacity starters }
    requires packs { packs ≡ packs_for config }
    ensures { result ≡ record {
      state = state;
      config = config;
      starters = starters.items;
      failed = false;
    } }
{
    let SparePacks { packs } = packs;
    Kernel {
        state,
        config,
        starters,
        packs,
        failed: false,
    }
}
