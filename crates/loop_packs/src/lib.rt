//! Packs that jump on the spot until their budget is 0: what the tests and the bench of workers let
//! them run. Beside them there is one page, which is shared, and one process. And a gate at which
//! tests see who ran what, with the workers that stay at it.
#![tactic(auto)]

mod gate;
mod staying;

ghost use Rattle.std.specs.Prelude.{◌≡◌, ◌∷◌, [], All, IfOk, Some, ◌<◌, ◌^◌, length, map, vec_len};
ghost use Rattle.page_store.specs.Store.{AreHome};
ghost use Rattle.quantum_run.specs.Packs.{space_held};
ghost use Rattle.loop_packs.specs.Loops.{HasOneShared, IsLoop, page_of_code};

use dos_world::{Access, Entry, Regs, Size};
pub use gate::Holding;
use page_store::Frames;
use proc_table::{SignalState, Table};
use quantum_run::{Pack, Shared};
pub use staying::{HiredHeld, StayingHeld};
use std::alloc::{AllocError, Global};
use worker_pool::Workers;

/// What is run: so many packs, as often as this. The first has one budget each time, all others
/// another, in instructions.
#[derive(Clone, Copy)]
pub struct Load {
    pub packs: u32,
    pub first: u32,
    pub others: u32,
    pub calls: u32,
}

const JUMP: u32 = 0x0000_006f; // jal x0, 0

// a jump to itself at the start of the one page
fn write_jump(frames: &mut Frames)
    requires home { AreHome frames.old }
    requires count { length frames.old.pages ≡ 1 }
    ensures home { AreHome frames.new }
    ensures count { length frames.new.pages ≡ 1 }
    ensures owners { frames.new.owners ≡ frames.old.owners }
{
    frames.lend_mut(0).write(0, Size::Word, JUMP);
}

fn one_frame(alloc: Global) -> Result<Frames, AllocError>
    ensures { IfOk result (λ f. HasOneShared f) }
{
    let mut frames = Frames::reserve(alloc, 1)?;
    let _ = frames.fresh(1);
    frames.grant(0, 1, Access::Load);
    write_jump(&mut frames);
    Ok(frames)
}

fn one_process(alloc: Global) -> Result<Table, AllocError>
    ensures { IfOk result (λ t. map space_held t.processes ≡ Some page_of_code ∷ []) }
{
    let mut table = Table::reserve(alloc, 1)?;
    match table.add_process(0, Regs::new(0x10000), SignalState::new(0)) {
        Ok(_) => {}
        Err(_) => unreachable!(),
    }
    let entry = Entry {
        frame: 0,
        write: false,
        exec: true,
        shared: false,
    };
    table.put_entry(1, 0x10, entry);
    Ok(table)
}

// what the packs are lent
fn lent(alloc: Global) -> Result<Shared, AllocError>
    ensures frames { IfOk result (λ s. HasOneShared s.frames) }
    ensures table { IfOk result (λ s. map space_held s.table.processes ≡ Some page_of_code ∷ []) }
{
    let table = one_process(alloc)?;
    let frames = one_frame(alloc)?;
    Ok(Shared { frames, table })
}

// a pack of a thread that jumps on the spot
fn looping(alloc: Global, number: u32) -> Result<Pack, AllocError>
    ensures { IfOk result (λ p. IsLoop p) }
{
    let mut pack = Pack::reserve(alloc, 1)?;
    pack.fill(number % 64 + 1, 1, Regs::new(0x10000), 0);
    Ok(pack)
}

fn packs(alloc: Global, count: u32) -> Result<Vec<Pack>, AllocError>
    ensures count { IfOk result (λ v. vec_len v ≡ count) }
    ensures loops { IfOk result (λ v. All IsLoop v.items) }
{
    let mut packs = Vec::new(alloc);
    for place in 0..count {
        packs.push(looping(alloc, place)?)?;
    }
    Ok(packs)
}

fn refill_one(pack: &mut Pack, number: u32, budget: u32)
    requires { IsLoop pack.old }
    ensures { IsLoop pack.new }
{
    pack.fill(number % 64 + 1, 1, Regs::new(0x10000), budget);
}

// The first has one budget, all others another.
fn refill(packs: &mut Vec<Pack>, first: u32, others: u32)
    requires count { vec_len packs.old < 2 ^ 32 }
    requires loops { All IsLoop packs.old.items }
    ensures count { vec_len packs.new ≡ vec_len packs.old }
    ensures loops { All IsLoop packs.new.items }
{
    for place in 0..packs.len() {
        let budget = if place == 0 { first } else { others };
        refill_one(&mut packs[place], place as u32, budget);
    }
}

// as often as this
fn repeat<W: Workers>(workers: &mut W, packs: &mut Vec<Pack>, mut shared: Shared, load: Load)
    requires count { vec_len packs.old < 2 ^ 32 }
    requires loops { All IsLoop packs.old.items }
    requires frames { HasOneShared shared.frames }
    requires table { map space_held shared.table.processes ≡ Some page_of_code ∷ [] }
{
    for _ in 0..load.calls {
        refill(packs, load.first, load.others);
        shared = workers.run_all(packs, shared);
    }
}

// these packs, with what they are lent
fn run_packs<W: Workers>(
    alloc: Global,
    workers: &mut W,
    packs: &mut Vec<Pack>,
    load: Load,
) -> Result<(), AllocError>
    requires count { vec_len packs.old < 2 ^ 32 }
    requires loops { All IsLoop packs.old.items }
{
    let shared = lent(alloc)?;
    repeat(workers, packs, shared, load);
    Ok(())
}

/// The workers run a load, with packs of its own.
pub fn run<W: Workers>(alloc: Global, workers: &mut W, load: Load) -> Result<(), AllocError> {
    let mut packs = packs(alloc, load.packs)?;
    let ran = run_packs(alloc, workers, &mut packs, load);
    drop(packs);
    ran
}
