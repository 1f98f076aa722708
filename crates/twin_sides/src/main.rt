//! A program for `checks/sides`: what a leader puts to both of its outputs goes to standard output,
//! its report with it, and what its follower puts to standard error.
#![tactic(auto)]

use dos_io::{StdErr, StdFiles, StdHost, StdOut};
use dos_texts::{Refusal, put_refusal};
use dos_twin::twin_main;
use std::env;
use std::io::ErrorKind;
use std::process::ExitCode;
use std::sync::Wait;
use std::thread::Threads;
use worker_pool::{OpenGate, Stealing, Tally};

/// The words behind the program's name. Words that are no text are refused.
fn words(rt: &HostRuntime) -> Result<Vec<String>, Refusal> {
    let args = match env::args(rt) {
        Ok(args) => args,
        Err(error) => {
            return Err(match error.kind() {
                ErrorKind::OutOfMemory => Refusal::Memory,
                _ => Refusal::Words,
            });
        }
    };
    let mut words = Vec::new(rt.alloc());
    for word in args.skip(1) {
        words.push(word).map_err(|_| Refusal::Memory)?;
    }
    Ok(words)
}

/// What the words ask for, with the real files and clock, and a stream for each side.
fn work<R: Threads + Wait + Sync>(rt: &HostRuntime, threads: &R, words: &[String]) -> u8 {
    let alloc = rt.alloc();
    let gate = OpenGate::new();
    let mut files = StdFiles::new(rt, alloc);
    let mut host = StdHost::new(rt.stdin(), rt);
    let mut out = StdOut::new(rt.stdout());
    let mut err = StdOut::new(rt.stdout());
    let mut second_out = StdErr::new(rt.stderr());
    let mut second_err = StdErr::new(rt.stderr());
    let mut tally = Tally::new();
    let mut workers = Stealing::new(threads, alloc, 2, &gate, &mut tally);
    twin_main(
        threads,
        alloc,
        words,
        &mut files,
        &mut host,
        &mut out,
        &mut err,
        &mut second_out,
        &mut second_err,
        &mut workers,
    )
}

fn run(rt: &HostRuntime, threads: &(impl Threads + Wait + Sync)) -> u8 {
    match words(rt) {
        Ok(words) => work(rt, threads, &words),
        Err(refusal) => put_refusal(refusal, &mut StdOut::new(rt.stdout())),
    }
}

fn main(rt: HostRuntime) -> ExitCode {
    ExitCode::from(run(&rt, &rt))
}
