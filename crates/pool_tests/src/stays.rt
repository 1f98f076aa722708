// Workers that stay over several calls.
ghost use Rattle.std.specs.Prelude.{◌<◌, ◌≤◌};

use crate::gates::{check_seen, fail_held};
use crate::pools::{BUDGET, check_count, evenly};
use loop_packs::{Holding, Load, StayingHeld, run};
use staying_workers::Kept;
use std::alloc::{AllocError, Global};
use std::process::Abort;
use std::sync::Arc;
use std::test::*;
use std::thread::Threads;
use worker_pool::{Tally, Workers};

// packs that are each run in one slice
fn short(packs: u32) -> Load {
    evenly(packs, BUDGET)
}

// three times
fn rounds<W: Workers>(alloc: Global, workers: &mut W, load: Load) -> Result<(), AllocError> {
    run(alloc, workers, load)?;
    run(alloc, workers, load)?;
    run(alloc, workers, load)
}

// by so many workers, which have ended when this returns
fn stay<R: Threads + Sync + Abort>(
    rt: &R,
    alloc: Global,
    gate: &Arc<Holding, Global>,
    tally: &mut Tally,
    workers: u32,
    load: Load,
)
    requires { (0 < workers) × (workers ≤ 32) }
{
    let kept = Kept::new(alloc);
    let mut pool = StayingHeld::new(rt, alloc, gate, &kept, tally);
    pool.hire(workers);
    rounds(alloc, &mut pool, load).expect(rt, "memory");
    pool.finish();
    kept.dismiss(rt, alloc);
}

// a gate that threads share
fn gate(rt: &impl Abort, alloc: Global, wanted: u64) -> Arc<Holding, Global> {
    Arc::new(alloc, Holding::until(wanted))
        .map_err(|_| AllocError)
        .expect(rt, "memory")
}

// How often it is tried that number 0 isn't held in vain. An order that no worker has begun is
// taken back, so where the system is long in running a worker's thread, the caller runs all packs.
const TRIES: u32 = 8;

// Two workers run this at a gate with these wanted: so many packs pass, and these numbers, and so
// many instructions are run. How many were held in vain.
fn held_in_vain<R: Threads + Sync + Abort>(
    rt: &R,
    alloc: Global,
    wanted: u64,
    load: Load,
    passed: (u64, u64),
    count: u64,
) -> u64 {
    let gate = gate(rt, alloc, wanted);
    let mut tally = Tally::new();
    stay(rt, alloc, &gate, &mut tally, 2, load);
    let (_, _, missed) = gate.seen();
    check_seen(rt, &gate, (passed.0, passed.1, missed));
    check_count(rt, &tally, count);
    missed
}

// The same, and none is held in vain at one of the tries.
fn check_held<R: Threads + Sync + Abort>(
    rt: &R,
    alloc: Global,
    wanted: u64,
    load: Load,
    passed: (u64, u64),
    count: u64,
) {
    for _ in 0..TRIES {
        if held_in_vain(rt, alloc, wanted, load, passed, count) == 0 {
            return;
        }
    }
    fail_held(rt);
}

// 0 is held until 1 has entered, at the first call; both are in later
#[test]
fn two_at_once_staying(rt: HostRuntime) {
    check_held(&rt, rt.alloc(), 2, short(2), (6, 3), 42);
}

// 0 is held until 1, 2 and 3 have entered: the other worker runs all three
#[test]
fn one_goes_round_staying(rt: HostRuntime) {
    check_held(&rt, rt.alloc(), 14, short(4), (12, 15), 84);
}

#[test]
fn each_number_passes_once_staying(rt: HostRuntime) {
    let gate = gate(&rt, rt.alloc(), 0);
    let mut tally = Tally::new();
    stay(&rt, rt.alloc(), &gate, &mut tally, 32, short(64));
    check_seen(&rt, &gate, (192, u64::MAX, 0));
    check_count(&rt, &tally, 1344);
}

// nobody is hired: the caller runs all
#[test]
fn one_alone_staying(rt: HostRuntime) {
    let gate = gate(&rt, rt.alloc(), 0);
    let mut tally = Tally::new();
    stay(&rt, rt.alloc(), &gate, &mut tally, 1, short(3));
    check_seen(&rt, &gate, (9, 7, 0));
    check_count(&rt, &tally, 63);
}

// each pack is run in four slices, and passes the gate once
#[test]
fn packs_run_in_slices_staying(rt: HostRuntime) {
    check_held(&rt, rt.alloc(), 2, evenly(4, 50_000), (12, 15), 600_000);
}
