// Workers of each kind, over threads. The helpers make workers of a kind and take the tally back.
ghost use Rattle.std.specs.Prelude.{◌<◌, ◌≤◌};

use crate::gates::check_seen;
use loop_packs::{Holding, Load, run};
use std::alloc::Global;
use std::process::Abort;
use std::test::*;
use std::thread::Threads;
use worker_pool::{Boarded, Gate, OpenGate, Serial, Spread, Stealing, Tally, Workers};

// The budget of each pack, which it uses up, where none is given.
pub(crate) const BUDGET: u32 = 7;

// So many packs, each for so many instructions.
pub(crate) fn evenly(packs: u32, budget: u32) -> Load {
    Load {
        packs,
        first: budget,
        others: budget,
        calls: 1,
    }
}

// The tally is at so many instructions.
pub(crate) fn check_count(rt: &impl Abort, tally: &Tally, wanted: u64) {
    assert_eq!(rt; tally.count(), wanted);
}

// So many packs are run.
fn run_packs<W: Workers>(rt: &impl Abort, alloc: Global, workers: &mut W, packs: u32) {
    run(alloc, workers, evenly(packs, BUDGET)).expect(rt, "memory");
}

fn serial<R: Threads + Sync + Abort>(rt: &R, alloc: Global, tally: &mut Tally, packs: u32) {
    let mut pool: Serial<'_, R> = Serial::new(tally);
    run_packs(rt, alloc, &mut pool, packs);
    pool.finish();
}

fn spread<R: Threads + Sync + Abort, G: Gate + Sync>(
    rt: &R,
    alloc: Global,
    gate: &G,
    tally: &mut Tally,
    workers: u32,
    packs: u32,
)
    requires { (0 < workers) × (workers ≤ 32) }
{
    let mut pool = Spread::new(rt, workers, gate, tally);
    run_packs(rt, alloc, &mut pool, packs);
    pool.finish();
}

fn boarded<R: Threads + Sync + Abort, G: Gate + Sync>(
    rt: &R,
    alloc: Global,
    gate: &G,
    tally: &mut Tally,
    workers: u32,
    packs: u32,
)
    requires { (0 < workers) × (workers ≤ 32) }
{
    let mut pool = Boarded::new(rt, alloc, workers, gate, tally);
    run_packs(rt, alloc, &mut pool, packs);
    pool.finish();
}

fn stealing<R: Threads + Sync + Abort, G: Gate + Sync>(
    rt: &R,
    alloc: Global,
    gate: &G,
    tally: &mut Tally,
    workers: u32,
    packs: u32,
)
    requires { (0 < workers) × (workers ≤ 32) }
{
    let mut pool = Stealing::new(rt, alloc, workers, gate, tally);
    run_packs(rt, alloc, &mut pool, packs);
    pool.finish();
}

// The same workers run no packs first.
fn stealing_none_first<R: Threads + Sync + Abort, G: Gate + Sync>(
    rt: &R,
    alloc: Global,
    gate: &G,
    tally: &mut Tally,
    workers: u32,
    packs: u32,
)
    requires { (0 < workers) × (workers ≤ 32) }
{
    let mut pool = Stealing::new(rt, alloc, workers, gate, tally);
    run_packs(rt, alloc, &mut pool, 0);
    run_packs(rt, alloc, &mut pool, packs);
    pool.finish();
}

#[test]
fn the_tally_grows_by_the_instructions(rt: HostRuntime) {
    let gate = OpenGate::new();
    let mut tally = Tally::new();
    serial(&rt, rt.alloc(), &mut tally, 3);
    check_count(&rt, &tally, 21);
    spread(&rt, rt.alloc(), &gate, &mut tally, 4, 3);
    check_count(&rt, &tally, 42);
    boarded(&rt, rt.alloc(), &gate, &mut tally, 4, 3);
    check_count(&rt, &tally, 63);
    stealing_none_first(&rt, rt.alloc(), &gate, &mut tally, 4, 3);
    check_count(&rt, &tally, 84);
}

// 0 is held until 1 has entered
#[test]
fn two_at_once_spread(rt: HostRuntime) {
    let gate = Holding::until(2);
    let mut tally = Tally::new();
    spread(&rt, rt.alloc(), &gate, &mut tally, 2, 2);
    check_seen(&rt, &gate, (2, 3, 0));
}

#[test]
fn two_at_once_boarded(rt: HostRuntime) {
    let gate = Holding::until(2);
    let mut tally = Tally::new();
    boarded(&rt, rt.alloc(), &gate, &mut tally, 2, 2);
    check_seen(&rt, &gate, (2, 3, 0));
}

#[test]
fn two_at_once_stealing(rt: HostRuntime) {
    let gate = Holding::until(2);
    let mut tally = Tally::new();
    stealing(&rt, rt.alloc(), &gate, &mut tally, 2, 2);
    check_seen(&rt, &gate, (2, 3, 0));
}

// 0 is held until 1, 2 and 3 have entered: the other worker runs all three, whoever was to have 2
#[test]
fn one_goes_round_boarded(rt: HostRuntime) {
    let gate = Holding::until(14);
    let mut tally = Tally::new();
    boarded(&rt, rt.alloc(), &gate, &mut tally, 2, 4);
    check_seen(&rt, &gate, (4, 15, 0));
}

#[test]
fn one_goes_round_stealing(rt: HostRuntime) {
    let gate = Holding::until(14);
    let mut tally = Tally::new();
    stealing(&rt, rt.alloc(), &gate, &mut tally, 2, 4);
    check_seen(&rt, &gate, (4, 15, 0));
}

#[test]
fn each_number_passes_once(rt: HostRuntime) {
    let gate = Holding::until(0);
    let mut tally = Tally::new();
    stealing(&rt, rt.alloc(), &gate, &mut tally, 32, 64);
    check_seen(&rt, &gate, (64, u64::MAX, 0));
    check_count(&rt, &tally, 448);
}

// one worker until a second is hired, and then two packs
fn hire_a_second<W: Workers>(rt: &impl Abort, alloc: Global, workers: &mut W) {
    workers.hire(2);
    run_packs(rt, alloc, workers, 2);
}

// 0 is held until 1 has entered, which takes the second worker
#[test]
fn a_second_is_hired_spread(rt: HostRuntime) {
    let gate = Holding::until(2);
    let mut tally = Tally::new();
    let mut workers = Spread::new(&rt, 1, &gate, &mut tally);
    hire_a_second(&rt, rt.alloc(), &mut workers);
    workers.finish();
    check_seen(&rt, &gate, (2, 3, 0));
}

#[test]
fn a_second_is_hired_boarded(rt: HostRuntime) {
    let gate = Holding::until(2);
    let mut tally = Tally::new();
    let mut workers = Boarded::new(&rt, rt.alloc(), 1, &gate, &mut tally);
    hire_a_second(&rt, rt.alloc(), &mut workers);
    workers.finish();
    check_seen(&rt, &gate, (2, 3, 0));
}

#[test]
fn a_second_is_hired_stealing(rt: HostRuntime) {
    let gate = Holding::until(2);
    let mut tally = Tally::new();
    let mut workers = Stealing::new(&rt, rt.alloc(), 1, &gate, &mut tally);
    hire_a_second(&rt, rt.alloc(), &mut workers);
    workers.finish();
    check_seen(&rt, &gate, (2, 3, 0));
}
