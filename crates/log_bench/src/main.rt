//! A program that does one kind of work with a log, as often as it is told, so that it can be timed
//! from outside. It reads no clock, and prints the same at each run.
//!
//! Its words come in fours: what is asked, how often, the work, how often. For each four it makes
//! a log of these questions, does the work, and prints what that came to: questions answered, bytes
//! written, or exchanges read.
#![tactic(auto)]

mod bench;
mod kind;
mod questions;
mod recording;

use bench::{Bench, Work};
use kind::Kind;
use std::io::ErrorKind;
use std::{env, io};

/// The words behind the program's name.
fn words(rt: &HostRuntime) -> io::Result<Vec<String>> {
    let mut words = Vec::new(rt.alloc());
    for word in env::args(rt)?.skip(1) {
        words.push(word)?;
    }
    Ok(words)
}

fn number(word: &str) -> io::Result<u32> {
    match word.parse() {
        Ok(number) => Ok(number),
        Err(_) => Err(ErrorKind::InvalidInput.into()),
    }
}

fn kind_named(word: &str) -> io::Result<Kind> {
    match word {
        "signals" => Ok(Kind::Signals),
        "rounds" => Ok(Kind::Rounds),
        "input" => Ok(Kind::Input),
        "page" => Ok(Kind::Page),
        "clock" => Ok(Kind::HostClock),
        "counted" => Ok(Kind::CountedClock),
        _ => Err(ErrorKind::InvalidInput.into()),
    }
}

fn work_named(word: &str) -> io::Result<Work> {
    match word {
        "prepare" => Ok(Work::Prepare),
        "record" => Ok(Work::Record),
        "write" => Ok(Work::Write),
        "read" => Ok(Work::Read),
        "replay" => Ok(Work::Replay),
        _ => Err(ErrorKind::InvalidInput.into()),
    }
}

fn run_task(bench: &Bench, task: &str, times: &str) -> io::Result<u64> {
    Ok(bench.run(work_named(task)?, number(times)?)?)
}

/// Does what four words say, and prints how much that was.
fn run_four(rt: &HostRuntime, four: &[String]) -> io::Result<()> {
    let [asked, count, task, times] = four else {
        return Err(ErrorKind::InvalidInput.into());
    };
    let bench = Bench::new(rt.alloc(), kind_named(asked)?, number(count)?)?;
    let done = run_task(&bench, task, times);
    drop(bench);
    let done = done?;
    println!(rt; "{asked} {count} {task} {times}: {done}")
}

fn run_all(rt: &HostRuntime, words: &[String]) -> io::Result<()> {
    for four in words.chunks(4) {
        run_four(rt, four)?;
    }
    Ok(())
}

fn main(rt: HostRuntime) -> io::Result<()> {
    let words = words(&rt)?;
    let ran = run_all(&rt, &words);
    drop(words);
    ran
}
