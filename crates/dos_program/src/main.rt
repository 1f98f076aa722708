//! The program `dos`: the top call over the real files, streams and clock.
#![tactic(auto)]

use dos_cmd::dos_main;
use dos_io::{StdErr, StdFiles, StdHost, StdOut};
use dos_texts::{Refusal, put_refusal};
use staying_workers::{Kept, Staying};
use std::alloc::Global;
use std::env;
use std::io::ErrorKind;
use std::process::ExitCode;
use std::sync::Arc;
use std::thread::Threads;
use worker_pool::{OpenGate, Serial, Tally, Workers};

/// The words behind the program's name. Words that are no text are refused.
fn words(rt: &HostRuntime) -> Result<Vec<String>, Refusal> {
    let args = match env::args(rt) {
        Ok(args) => args,
        Err(error) => {
            return Err(match error.kind() {
                ErrorKind::OutOfMemory => Refusal::Memory,
                _ => Refusal::Words,
            });
        }
    };
    let mut words = Vec::new(rt.alloc());
    for word in args.skip(1) {
        words.push(word).map_err(|_| Refusal::Memory)?;
    }
    Ok(words)
}

/// What the words ask for is done, with the real files, streams and clock.
fn work(rt: &HostRuntime, words: &[String], workers: &mut impl Workers) -> u8 {
    let alloc = rt.alloc();
    let mut files = StdFiles::new(rt, alloc);
    let mut host = StdHost::new(rt.stdin(), rt);
    let mut out = StdOut::new(rt.stdout());
    let mut err = StdErr::new(rt.stderr());
    dos_main(
        alloc, words, &mut files, &mut host, &mut out, &mut err, workers,
    )
}

/// The same by workers that stay until it is done. `threads` is the same runtime, which starts
/// them.
fn work_beside<R: Threads + Sync>(
    rt: &HostRuntime,
    threads: &R,
    gate: &Arc<OpenGate, Global>,
    words: &[String],
) -> u8 {
    let mut tally = Tally::new();
    let kept = Kept::new(rt.alloc());
    let mut workers = Staying::new(threads, rt.alloc(), gate, &kept, &mut tally);
    let status = work(rt, words, &mut workers);
    drop(workers);
    kept.dismiss(threads, rt.alloc());
    status
}

/// The same where there is no memory for workers: the caller alone.
fn work_alone<R: Threads + Sync>(rt: &HostRuntime, _threads: &R, words: &[String]) -> u8 {
    let mut tally = Tally::new();
    let mut workers: Serial<'_, R> = Serial::new(&mut tally);
    work(rt, words, &mut workers)
}

/// The gate that workers pass, where there is memory for it.
fn new_gate(alloc: Global) -> Option<Arc<OpenGate, Global>> {
    Arc::new(alloc, OpenGate::new()).ok()
}

fn run<R: Threads + Sync>(rt: &HostRuntime, threads: &R) -> u8 {
    let words = match words(rt) {
        Ok(words) => words,
        Err(refusal) => return put_refusal(refusal, &mut StdErr::new(rt.stderr())),
    };
    match new_gate(rt.alloc()) {
        Some(gate) => work_beside(rt, threads, &gate, &words),
        None => work_alone(rt, threads, &words),
    }
}

fn main(rt: HostRuntime) -> ExitCode {
    ExitCode::from(run(&rt, &rt))
}
