//! Packs of a round are under way at once, and a worker takes what another was dealt: shown through
//! the top call, by a gate that holds the first pack of a round until others have begun.
ghost use Rattle.std.specs.Prelude.{◌<◌, ◌≤◌};

use crate::calls::{NOTHING, call_by, check_left};
use crate::checks::same;
use crate::files::usual_files;
use crate::guests::{ENDLESS, add_guest};
use dos_io::MemoryFiles;
use loop_packs::{Holding, StayingHeld};
use staying_workers::Kept;
use std::alloc::{AllocError, Global};
use std::process::Abort;
use std::sync::Arc;
use std::thread::Threads;
use worker_pool::{Boarded, Spread, Stealing, Tally, Workers};

// Two rounds of two endless images, and of four, with two workers each.

const TWO: [&str; 7] = [
    "run",
    "--workers",
    "2",
    "--rounds",
    "2",
    "endless",
    "endless",
];

// The same in the scheme in which each thread has words of its own.
const TWO_BUFFERED: [&str; 9] = [
    "run",
    "--scheme",
    "buffered",
    "--workers",
    "2",
    "--rounds",
    "2",
    "endless",
    "endless",
];

const FOUR: [&str; 9] = [
    "run",
    "--workers",
    "2",
    "--rounds",
    "2",
    "endless",
    "endless",
    "endless",
    "endless",
];

const TWO_LIVE: &str = "process 1 live\nprocess 2 live\nrounds 2 limit\n";

const FOUR_LIVE: &str =
    "process 1 live\nprocess 2 live\nprocess 3 live\nprocess 4 live\nrounds 2 limit\n";

fn endless_files(rt: &impl Abort, alloc: Global) -> MemoryFiles {
    let mut files = usual_files(rt, alloc);
    add_guest(rt, alloc, &mut files, "endless", &ENDLESS, b"", 0);
    files
}

// These words leave what is wanted, by these workers.
fn check_words<W: Workers>(
    rt: &impl Abort,
    alloc: Global,
    words: &[&str],
    err: &str,
    workers: &mut W,
) {
    let mut files = endless_files(rt, alloc);
    let left = call_by(rt, alloc, &mut files, words, &NOTHING, workers);
    check_left(rt, &left, words, (7, "", err));
    drop(left);
    drop(files);
}

// How many packs passed, which numbers did, and that number 0 was never held in vain.
fn check_gate(rt: &impl Abort, gate: &Holding, passes: u64, entered: u64) {
    same(rt, gate.seen(), (passes, entered, 0));
}

// The pools, each with two images and with four.

fn spread<R: Threads + Sync + Abort>(
    rt: &R,
    alloc: Global,
    gate: &Holding,
    words: &[&str],
    err: &str,
) {
    let mut tally = Tally::new();
    let mut workers = Spread::new(rt, 1, gate, &mut tally);
    check_words(rt, alloc, words, err, &mut workers);
    workers.finish();
}

fn boarded<R: Threads + Sync + Abort>(
    rt: &R,
    alloc: Global,
    gate: &Holding,
    words: &[&str],
    err: &str,
) {
    let mut tally = Tally::new();
    let mut workers = Boarded::new(rt, alloc, 1, gate, &mut tally);
    check_words(rt, alloc, words, err, &mut workers);
    workers.finish();
}

fn stealing<R: Threads + Sync + Abort>(
    rt: &R,
    alloc: Global,
    gate: &Holding,
    words: &[&str],
    err: &str,
) {
    let mut tally = Tally::new();
    let mut workers = Stealing::new(rt, alloc, 1, gate, &mut tally);
    check_words(rt, alloc, words, err, &mut workers);
    workers.finish();
}

fn staying<R: Threads + Sync + Abort>(
    rt: &R,
    alloc: Global,
    gate: &Arc<Holding, Global>,
    words: &[&str],
    err: &str,
) {
    let mut tally = Tally::new();
    let kept = Kept::new(alloc);
    let mut workers = StayingHeld::new(rt, alloc, gate, &kept, &mut tally);
    check_words(rt, alloc, words, err, &mut workers);
    workers.finish();
    kept.dismiss(rt, alloc);
}

// How often it is tried with workers that stay. An order that no worker has begun is taken back, so
// where the system is long in running a worker's thread, the caller runs all packs.
const TRIES: u32 = 8;

// These words leave what is wanted at each try, where so many packs pass in the first round or in
// both, since a worker that was late leaves the second round to the caller, and these numbers; and
// in one of the tries number 0 isn't held in vain.
fn check_staying<R: Threads + Sync + Abort>(
    rt: &R,
    alloc: Global,
    words: &[&str],
    err: &str,
    wanted: u64,
    [first, both]: [u64; 2],
    numbers: u64,
) {
    for _ in 0..TRIES {
        let gate = shared_gate(rt, alloc, wanted);
        staying(rt, alloc, &gate, words, err);
        let (passes, entered, missed) = gate.seen();
        same(rt, entered, numbers);
        same(rt, passes == first || passes == both, true);
        if missed == 0 {
            return;
        }
    }
    same(rt, "no worker took a pack", "");
}

// a gate that threads own by count
fn shared_gate(rt: &impl Abort, alloc: Global, wanted: u64) -> Arc<Holding, Global> {
    Arc::new(alloc, Holding::until(wanted))
        .map_err(|_| AllocError)
        .expect(rt, "memory")
}

// 0 is held until 1 has begun
#[test]
fn two_at_once_spread(rt: HostRuntime) {
    let gate = Holding::until(2);
    spread(&rt, rt.alloc(), &gate, &TWO, TWO_LIVE);
    check_gate(&rt, &gate, 4, 3);
}

#[test]
fn two_at_once_spread_buffered(rt: HostRuntime) {
    let gate = Holding::until(2);
    spread(&rt, rt.alloc(), &gate, &TWO_BUFFERED, TWO_LIVE);
    check_gate(&rt, &gate, 4, 3);
}

#[test]
fn two_at_once_boarded(rt: HostRuntime) {
    let gate = Holding::until(2);
    boarded(&rt, rt.alloc(), &gate, &TWO, TWO_LIVE);
    check_gate(&rt, &gate, 4, 3);
}

#[test]
fn two_at_once_boarded_buffered(rt: HostRuntime) {
    let gate = Holding::until(2);
    boarded(&rt, rt.alloc(), &gate, &TWO_BUFFERED, TWO_LIVE);
    check_gate(&rt, &gate, 4, 3);
}

#[test]
fn two_at_once_stealing(rt: HostRuntime) {
    let gate = Holding::until(2);
    stealing(&rt, rt.alloc(), &gate, &TWO, TWO_LIVE);
    check_gate(&rt, &gate, 4, 3);
}

#[test]
fn two_at_once_stealing_buffered(rt: HostRuntime) {
    let gate = Holding::until(2);
    stealing(&rt, rt.alloc(), &gate, &TWO_BUFFERED, TWO_LIVE);
    check_gate(&rt, &gate, 4, 3);
}

#[test]
fn two_at_once_staying(rt: HostRuntime) {
    check_staying(&rt, rt.alloc(), &TWO, TWO_LIVE, 2, [2, 4], 3);
}

#[test]
fn two_at_once_staying_buffered(rt: HostRuntime) {
    check_staying(&rt, rt.alloc(), &TWO_BUFFERED, TWO_LIVE, 2, [2, 4], 3);
}

// Each thread has a half: 0 is held until 2 has begun.
#[test]
fn two_of_four_at_once_spread(rt: HostRuntime) {
    let gate = Holding::until(4);
    spread(&rt, rt.alloc(), &gate, &FOUR, FOUR_LIVE);
    check_gate(&rt, &gate, 8, 15);
}

// 0 is held until 1, 2 and 3 have begun: the other worker runs all three, whoever was to have them
#[test]
fn one_goes_round_boarded(rt: HostRuntime) {
    let gate = Holding::until(14);
    boarded(&rt, rt.alloc(), &gate, &FOUR, FOUR_LIVE);
    check_gate(&rt, &gate, 8, 15);
}

#[test]
fn one_goes_round_stealing(rt: HostRuntime) {
    let gate = Holding::until(14);
    stealing(&rt, rt.alloc(), &gate, &FOUR, FOUR_LIVE);
    check_gate(&rt, &gate, 8, 15);
}

#[test]
fn one_goes_round_staying(rt: HostRuntime) {
    check_staying(&rt, rt.alloc(), &FOUR, FOUR_LIVE, 14, [4, 8], 15);
}
