// The parallel phase in three steps: the pages go out, the packs run, and all comes back.
ghost use Rattle.std.specs.Prelude.{ℕ, ◌≡◌, ◌-◌, false};
ghost use Rattle.dos_world.specs.declared.Scheme.TheVariants.{Ownership};
ghost use Rattle.worker_pool.specs.Ran.{GrewBy, budgets_left};
ghost use Rattle.group_rounds.specs.Away.{Away, HaveRun, IsHandedOut, IsParallelOf};
ghost use Rattle.group_rounds.specs.Kernels.{Held};

use crate::kernel::Kernel;
use crate::packs;
use crate::packs::Packs;
use crate::phases::{gather, set_budgets};
use dos_world::{Config, Scheme};
use kernel_calls::State;
use quantum_run::{Pack, Shared};
use std::marker::Model;
use worker_pool::Workers;

/// A kernel that is handed out: the pages of its ready threads are with packs, one for each thread.
/// No round can be run over it until all has come back.
#[derive(Drop)]
pub struct HandedOut {
    state: State,
    config: Config,
    starters: Vec<u32>,
    frames: u32,
    spare: Vec<Pack>,
    out: Vec<Pack>,
    stand_in: Shared,
}

impl Model for HandedOut {
    ghost use Rattle.std.specs.Vec.{vec_capacity};
    ghost use Rattle.kernel_calls.specs.declared.state.State.{State as state_type};
    ghost use Rattle.group_rounds.specs.Away.{Away, HasRoomToComeBack, WentOut};

    ghost Value = { Away };

    ghost view = { λ h. record {
      state = h.state;
      config = h.config;
      starters = h.starters.items;
      packs = h.out.items;
    } };

    ghost invariant = { λ h. ((before : state_type) × WentOut before (record {
      state = h.state;
      config = h.config;
      starters = h.starters.items;
      packs = h.out.items;
    })) × HasRoomToComeBack h.frames h.config (vec_capacity h.starters) h.spare.items h.out.items
        (vec_capacity h.spare) (vec_capacity h.out) };
}

/// A kernel that is handed out, and whose packs have run.
#[derive(Drop)]
pub struct PartsRun {
    state: State,
    config: Config,
    starters: Vec<u32>,
    frames: u32,
    spare: Vec<Pack>,
    out: Vec<Pack>,
    stand_in: Shared,
}

impl Model for PartsRun {
    ghost use Rattle.std.specs.Prelude.{List};
    ghost use Rattle.std.specs.Vec.{vec_capacity};
    ghost use Rattle.quantum_run.specs.Shows.{Pack as pack_value};
    ghost use Rattle.worker_pool.specs.Ran.{AllRan};
    ghost use Rattle.kernel_calls.specs.declared.state.State.{State as state_type};
    ghost use Rattle.group_rounds.specs.Away.{Away, HasRoomToComeBack, WentOut};
    ghost use Rattle.group_rounds.specs.Handing.{view_of};

    ghost Value = { Away };

    ghost view = { λ h. record {
      state = h.state;
      config = h.config;
      starters = h.starters.items;
      packs = h.out.items;
    } };

    ghost invariant = { λ h. ((before : state_type) × (packs : List pack_value)
        × WentOut before (record {
          state = h.state;
          config = h.config;
          starters = h.starters.items;
          packs = packs;
        }) × AllRan (view_of h.state.frames h.state.table) packs h.out.items)
        × HasRoomToComeBack h.frames h.config (vec_capacity h.starters) h.spare.items h.out.items
        (vec_capacity h.spare) (vec_capacity h.out) };
}

/// Each ready thread has the quantum as its budget, and a pack with its registers and its pages, in
/// a kernel of the ownership scheme.
pub fn hand_out(kernel: Kernel) -> HandedOut
    requires running { kernel.failed ≡ false }
    requires scheme { kernel.config.scheme ≡ Ownership }
    ensures { IsHandedOut kernel result }
{
    let Kernel {
        mut state,
        config,
        mut starters,
        packs,
        failed: _,
    } = kernel;
    let Packs {
        frames,
        scheme: _,
        mut spare,
        mut out,
        stand_in,
    } = packs;
    let Some(stand_in) = stand_in else {
        unreachable!()
    };
    gather(&state.table, &mut starters);
    set_budgets(&mut state, starters.as_slice(), config.quantum);
    packs::hand_out(&mut state, starters.as_slice(), &mut spare, &mut out);
    HandedOut {
        state,
        config,
        starters,
        frames,
        spare,
        out,
        stand_in,
    }
}

/// Each pack runs on the workers, who have the frames and the table meanwhile. Their tally grows by
/// the instructions of the packs, each for one of a budget.
pub fn run_parts<W: Workers>(handed: HandedOut, workers: &mut W) -> PartsRun
    ensures runs { HaveRun handed result }
    ensures tally { GrewBy (W.tally workers.old) (W.tally workers.new)
        (budgets_left handed.packs - budgets_left result.packs) }
    ensures fixed { W.fixed workers.new ≡ W.fixed workers.old }
{
    let HandedOut {
        mut state,
        config,
        starters,
        frames,
        spare,
        mut out,
        stand_in,
    } = handed;
    let stand_in = packs::run_parts(&mut state, stand_in, &mut out, workers);
    PartsRun {
        state,
        config,
        starters,
        frames,
        spare,
        out,
        stand_in,
    }
}

/// All pages, registers and budgets come back. What became of the kernel that was handed out is the
/// parallel phase of its world, with the budgets set.
pub fn take_in(ran: PartsRun) -> Kernel
    ensures { (k : Held) (a : Away) → IsHandedOut k a → HaveRun a ran
        → IsParallelOf k (budgets_left a.packs - budgets_left ran.packs) result }
{
    let PartsRun {
        mut state,
        config,
        starters,
        frames,
        mut spare,
        mut out,
        stand_in,
    } = ran;
    packs::take_in(&mut state, &mut out, &mut spare);
    Kernel {
        state,
        config,
        starters,
        packs: Packs {
            frames,
            scheme: Scheme::Ownership,
            spare,
            out,
            stand_in: Some(stand_in),
        },
        failed: false,
    }
}

/// The parallel phase by itself, by these three steps one after another: the kernel's world, with
/// the budgets set, goes to the definition's, and the tally grows by the instructions of the phase.
pub fn parallel_phase<W: Workers>(kernel: Kernel, workers: &mut W) -> Kernel
    requires running { kernel.failed ≡ false }
    requires scheme { kernel.config.scheme ≡ Ownership }
    ensures runs { (work : ℕ) × IsParallelOf kernel work result
        × GrewBy (W.tally workers.old) (W.tally workers.new) work }
    ensures fixed { W.fixed workers.new ≡ W.fixed workers.old }
{
    let handed = hand_out(kernel);
    let ran = run_parts(handed, workers);
    take_in(ran)
}
