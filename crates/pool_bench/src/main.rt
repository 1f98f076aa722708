//! A program in which workers run packs of loops, as often as it is told, so that it can be timed
//! from outside. It reads no clock, and prints the same at each run.
//!
//! Its words come in sixes: the pool, how many workers, how many packs, the budget of the first and
//! that of all others, and how often. For each six it prints how many instructions were run.
#![tactic(auto)]

ghost use Rattle.std.specs.Prelude.{◌≡◌, ◌<◌, ◌≤◌};

use loop_packs::{Load, run};
use staying_workers::{Kept, Staying};
use std::alloc::{AllocError, Global};
use std::io::ErrorKind;
use std::sync::Arc;
use std::thread::Threads;
use std::{env, io};
use worker_pool::{Boarded, OpenGate, Serial, Spread, Stealing, Tally, Workers};

/// The pools.
#[derive(Clone, Copy)]
enum Pool {
    Serial,
    Spread,
    Boarded,
    Stealing,
    Staying,
}

fn play_staying<R: Threads + Sync>(
    rt: &R,
    alloc: Global,
    hired: u32,
    load: Load,
    tally: &mut Tally,
) -> Result<(), AllocError>
    requires { (0 < hired) × (hired ≤ 32) }
{
    let Ok(gate) = Arc::new(alloc, OpenGate::new()) else {
        return Err(AllocError);
    };
    let kept = Kept::new(alloc);
    let mut workers = Staying::new(rt, alloc, &gate, &kept, tally);
    workers.hire(hired);
    let played = run(alloc, &mut workers, load);
    workers.finish();
    kept.dismiss(rt, alloc);
    played
}

// how many instructions were run
fn measure<R: Threads + Sync>(
    rt: &R,
    alloc: Global,
    pool: Pool,
    hired: u32,
    load: Load,
) -> Result<u64, AllocError>
    requires { (0 < hired) × (hired ≤ 32) }
{
    let gate = OpenGate::new();
    let mut tally = Tally::new();
    let played = match pool {
        Pool::Serial => {
            let mut workers: Serial<'_, R> = Serial::new(&mut tally);
            run(alloc, &mut workers, load)
        }
        Pool::Spread => run(alloc, &mut Spread::new(rt, hired, &gate, &mut tally), load),
        Pool::Boarded => {
            let mut workers = Boarded::new(rt, alloc, hired, &gate, &mut tally);
            run(alloc, &mut workers, load)
        }
        Pool::Stealing => {
            let mut workers = Stealing::new(rt, alloc, hired, &gate, &mut tally);
            run(alloc, &mut workers, load)
        }
        Pool::Staying => play_staying(rt, alloc, hired, load, &mut tally),
    };
    played?;
    Ok(tally.count())
}

fn number(word: &str) -> io::Result<u32> {
    match word.parse() {
        Ok(number) => Ok(number),
        Err(_) => Err(ErrorKind::InvalidInput.into()),
    }
}

fn pool_named(word: &str) -> io::Result<Pool> {
    match word {
        "serial" => Ok(Pool::Serial),
        "spread" => Ok(Pool::Spread),
        "boarded" => Ok(Pool::Boarded),
        "stealing" => Ok(Pool::Stealing),
        "staying" => Ok(Pool::Staying),
        _ => Err(ErrorKind::InvalidInput.into()),
    }
}

/// The words behind the program's name.
fn words(rt: &HostRuntime) -> io::Result<Vec<String>> {
    let mut words = Vec::new(rt.alloc());
    for word in env::args(rt)?.skip(1) {
        words.push(word)?;
    }
    Ok(words)
}

fn load_of(packs: &str, first: &str, others: &str, calls: &str) -> io::Result<Load> {
    Ok(Load {
        packs: number(packs)?,
        first: number(first)?,
        others: number(others)?,
        calls: number(calls)?,
    })
}

// how many instructions the pool of this name ran
fn measure_named<R: Threads + Sync>(
    rt: &R,
    alloc: Global,
    pool: &str,
    workers: u32,
    load: Load,
) -> io::Result<u64>
    requires { (0 < workers) × (workers ≤ 32) }
{
    Ok(measure(rt, alloc, pool_named(pool)?, workers, load)?)
}

fn print_ran(rt: &impl Print, pool: &str, workers: u32, load: Load, ran: u64) -> io::Result<()> {
    let Load {
        packs,
        first,
        others,
        calls,
    } = load;
    println!(rt; "{pool} {workers} {packs} {first} {others} {calls}: {ran}")
}

/// Runs what six words say, and prints how many instructions that were.
fn run_six<R: Threads + Sync + Print>(rt: &R, alloc: Global, six: &[String]) -> io::Result<()> {
    let [pool, hired, packs, first, others, calls] = six else {
        return Err(ErrorKind::InvalidInput.into());
    };
    let load = load_of(packs, first, others, calls)?;
    let workers = number(hired)?.max(1).min(32);
    let ran = measure_named(rt, alloc, pool, workers, load)?;
    print_ran(rt, pool, workers, load, ran)
}

fn run_all<R: Threads + Sync + Print>(rt: &R, alloc: Global, words: &[String]) -> io::Result<()> {
    for six in words.chunks(6) {
        run_six(rt, alloc, six)?;
    }
    Ok(())
}

fn main(rt: HostRuntime) -> io::Result<()> {
    let words = words(&rt)?;
    let ran = run_all(&rt, rt.alloc(), &words);
    drop(words);
    ran
}
