ghost use Rattle.std.specs.Prelude.{◌≡◌, ◌≤◌, false, is_err, length, IfOk, OnOk};
ghost use Rattle.dos_world.specs.Lawful.{IsConfig};
ghost use Rattle.dos_world.specs.declared.Scheme.TheVariants.{Ownership};
ghost use Rattle.dos_io.specs.Quiet.{shown_by};
ghost use Rattle.dos_io.specs.Shims.{HasNoEnd};
ghost use Rattle.group_rounds.specs.Kernels.{IsFresh};

use crate::checks::same;
use crate::guests::{ENDS_WITH_7, WRITES_HI, YIELDS, file};
use dos_io::{GroupBorder, MemorySink, Quiet, Shim, Sink};
use dos_world::{Config, Scheme};
use elf_image::{Image, read_image};
use group_open::open_state;
use group_rounds::{
    Kernel, RoundEnd, hand_out, parallel_phase, run_parts, run_round, serial_phase, take_in,
};
use kernel_calls::RunStop;
use rv_isa::Instr;
use std::alloc::Global;
use std::process::Abort;
use std::thread::Threads;
use worker_pool::{Serial, Tally, Workers};

const CONFIG: Config = Config {
    quantum: 1000,
    rounds: 100,
    frames: 40,
    scheme: Scheme::Ownership,
};

// a guest with the code of these parts
fn guest(rt: &impl Abort, alloc: Global, parts: &[&[Instr]]) -> Image {
    let bytes = file(rt, alloc, parts);
    let image = read_image(alloc, &bytes).expect(rt, "an image");
    drop(bytes);
    image
}

// these images as a group, which has run no round
pub fn opened(rt: &impl Abort, alloc: Global, images: &[Image], config: Config) -> Kernel
    requires some { 1 ≤ length images.now }
    requires few { length images.now ≤ 8 }
    requires range { IsConfig config }
    ensures { IsFresh result config }
{
    let state = open_state(alloc, images, &config).expect(rt, "room");
    Kernel::new(alloc, state, config).expect(rt, "memory")
}

// a guest that ends with 7, and one that writes, as one group
fn group(rt: &impl Abort, alloc: Global) -> Kernel
    ensures { IsFresh result CONFIG }
{
    let images = [
        guest(rt, alloc, &[&ENDS_WITH_7]),
        guest(rt, alloc, &[&WRITES_HI]),
    ];
    let kernel = opened(rt, alloc, &images, CONFIG);
    drop(images);
    kernel
}

// a guest that yields, and then writes
fn yielding(rt: &impl Abort, alloc: Global) -> Kernel
    ensures { IsFresh result CONFIG }
{
    let images = [guest(rt, alloc, &[&YIELDS, &WRITES_HI])];
    let kernel = opened(rt, alloc, &images, CONFIG);
    drop(images);
    kernel
}

// the status of the process at a place, counted from 0; None too where there is none
fn status_at(kernel: &Kernel, place: u32) -> Option<u8> {
    if place < kernel.processes() {
        return kernel.status(place + 1);
    }
    None
}

// Of a round and its phases no more is said than what a next phase needs: the tests look.

pub fn round_over<S: Shim, O: Sink, E: Sink, W: Workers>(
    kernel: &mut Kernel,
    shim: &mut S,
    out: &mut O,
    err: &mut E,
    workers: &mut W,
) -> Result<RoundEnd, RunStop>
    requires running { kernel.old.failed ≡ false }
    requires limit { kernel.old.state.round ≤ kernel.old.config.rounds }
    requires told { HasNoEnd (S.state shim.old).told }
    ensures failed { kernel.new.failed ≡ is_err result }
    ensures told { OnOk result (HasNoEnd (S.state shim.new).told) }
{
    let mut border = GroupBorder { shim, out, err };
    run_round(kernel, &mut border, workers)
}

fn serial_over<S: Shim, O: Sink, E: Sink>(
    kernel: &mut Kernel,
    shim: &mut S,
    out: &mut O,
    err: &mut E,
) -> Result<(), RunStop>
    requires running { kernel.old.failed ≡ false }
    requires told { HasNoEnd (S.state shim.old).told }
{
    let mut border = GroupBorder { shim, out, err };
    serial_phase(kernel, &mut border)
}

// The phase in its three steps, and how many instructions it ran.
fn in_steps<R: Threads + Sync>(kernel: Kernel) -> (Kernel, u64)
    requires running { kernel.failed ≡ false }
    requires scheme { kernel.config.scheme ≡ Ownership }
{
    let mut tally = Tally::new();
    let mut workers: Serial<'_, R> = Serial::new(&mut tally);
    let handed = hand_out(kernel);
    let ran = run_parts(handed, &mut workers);
    workers.finish();
    (take_in(ran), tally.count())
}

// The phase by itself, and how many instructions it ran.
fn at_once<R: Threads + Sync>(kernel: Kernel) -> (Kernel, u64)
    requires running { kernel.failed ≡ false }
    requires scheme { kernel.config.scheme ≡ Ownership }
{
    let mut tally = Tally::new();
    let mut workers: Serial<'_, R> = Serial::new(&mut tally);
    let kernel = parallel_phase(kernel, &mut workers);
    workers.finish();
    (kernel, tally.count())
}

/// A shim that is asked, and two sinks.
#[derive(Drop)]
pub struct Outside {
    pub shim: Quiet,
    pub out: MemorySink,
    pub err: MemorySink,
}

impl Outside {
    // The sinks have room for 8 bytes each. The puts to output of these numbers fail.
    pub fn new(rt: &impl Abort, alloc: Global, out_failing: &[u32]) -> Outside
        ensures { HasNoEnd (shown_by result.shim).told }
    {
        let shim = Quiet::new(alloc);
        let out = MemorySink::new(alloc, 8, out_failing).expect(rt, "memory");
        let err = MemorySink::new(alloc, 8, &[]).expect(rt, "memory");
        Outside { shim, out, err }
    }
}

// a round on one worker
fn round<R: Threads + Sync>(kernel: &mut Kernel, outside: &mut Outside) -> Result<RoundEnd, RunStop>
    requires running { kernel.old.failed ≡ false }
    requires limit { kernel.old.state.round ≤ kernel.old.config.rounds }
    requires told { HasNoEnd (shown_by outside.old.shim).told }
    ensures failed { kernel.new.failed ≡ is_err result }
    ensures told { OnOk result (HasNoEnd (shown_by outside.new.shim).told) }
{
    let Outside { shim, out, err } = outside;
    let mut tally = Tally::new();
    let mut workers: Serial<'_, R> = Serial::new(&mut tally);
    round_over(kernel, shim, out, err, &mut workers)
}

// the serial phase by itself
fn serial(kernel: &mut Kernel, outside: &mut Outside) -> Result<(), RunStop>
    requires running { kernel.old.failed ≡ false }
    requires told { HasNoEnd (shown_by outside.old.shim).told }
{
    let Outside { shim, out, err } = outside;
    serial_over(kernel, shim, out, err)
}

// The serial phase behind a round that ended so. There is none behind one that failed.
fn serial_behind(
    end: Result<RoundEnd, RunStop>,
    kernel: &mut Kernel,
    outside: &mut Outside,
) -> Result<(), RunStop>
    requires running { kernel.old.failed ≡ is_err end }
    requires told { OnOk end (HasNoEnd (shown_by outside.old.shim).told) }
{
    match end {
        Ok(_) => serial(kernel, outside),
        Err(stop) => Err(stop),
    }
}

/// What a kernel shows.
#[derive(Clone, Copy, Debug, PartialEq)]
struct Seen {
    failed: bool,
    rounds: u32,
    processes: u32,
    live_threads: u32,
    statuses: [Option<u8>; 2],
}

// The kernel is dropped here and nowhere else, and by a call: at the end of a scope its drop is
// long to prove.
fn last_of(kernel: Kernel) -> Seen {
    let seen = Seen {
        failed: kernel.is_failed(),
        rounds: kernel.rounds(),
        processes: kernel.processes(),
        live_threads: kernel.state().table.live_threads(),
        statuses: [status_at(&kernel, 0), status_at(&kernel, 1)],
    };
    drop(kernel);
    seen
}

// What was put to output and to error.
fn check_put(rt: &impl Abort, outside: &Outside, wanted: (&str, &str)) {
    let (out, err) = wanted;
    let seen = (outside.out.bytes(), outside.err.bytes());
    same(rt, seen, (out.as_bytes(), err.as_bytes()));
}

#[test]
fn two_processes_end_in_one_round(rt: HostRuntime) {
    let mut outside = Outside::new(&rt, rt.alloc(), &[]);
    let mut kernel = group(&rt, rt.alloc());
    let end = round::<HostRuntime>(&mut kernel, &mut outside);
    same(&rt, end, Ok(RoundEnd::Went));
    check_put(&rt, &outside, ("Hi\n", ""));
    same(&rt, kernel.config(), CONFIG);
    let wanted = Seen {
        failed: false,
        rounds: 1,
        processes: 2,
        live_threads: 0,
        statuses: [Some(7), Some(0)],
    };
    same(&rt, last_of(kernel), wanted);
    drop(outside);
}

#[test]
fn a_serial_phase_goes_on_where_a_thread_yielded(rt: HostRuntime) {
    let mut outside = Outside::new(&rt, rt.alloc(), &[]);
    let mut kernel = yielding(&rt, rt.alloc());
    let end = round::<HostRuntime>(&mut kernel, &mut outside);
    same(&rt, end, Ok(RoundEnd::Went));
    check_put(&rt, &outside, ("", ""));
    same(&rt, serial_behind(end, &mut kernel, &mut outside), Ok(()));
    check_put(&rt, &outside, ("Hi\n", ""));
    same(&rt, last_of(kernel).rounds, 1);
    drop(outside);
}

#[test]
fn a_sink_that_fails_stops_the_round(rt: HostRuntime) {
    let mut outside = Outside::new(&rt, rt.alloc(), &[1]);
    let mut kernel = group(&rt, rt.alloc());
    let end = round::<HostRuntime>(&mut kernel, &mut outside);
    let last = last_of(kernel);
    same(&rt, end, Err(RunStop::OutFault));
    same(&rt, (last.failed, last.rounds), (true, 0));
    drop(outside);
}

// The kernel hasn't failed, and its serial phase goes well.
fn check_serial(rt: &impl Abort, kernel: &mut Kernel, outside: &mut Outside)
    requires { HasNoEnd (shown_by outside.old.shim).told }
{
    assert!(rt; !kernel.is_failed());
    assert_eq!(rt; serial(kernel, outside), Ok(()));
}

#[test]
fn a_parallel_phase_in_three_steps(rt: HostRuntime) {
    let mut outside = Outside::new(&rt, rt.alloc(), &[]);
    let (mut kernel, ran) = in_steps::<HostRuntime>(group(&rt, rt.alloc()));
    // two instructions of one process and five of the other, each before its first service
    same(&rt, ran, 7);
    same(&rt, kernel.rounds(), 0);
    check_serial(&rt, &mut kernel, &mut outside);
    check_put(&rt, &outside, ("Hi\n", ""));
    same(&rt, last_of(kernel).statuses, [Some(7), Some(0)]);
    drop(outside);
}

#[test]
fn a_parallel_phase_stops_at_a_service(rt: HostRuntime) {
    let (kernel, ran) = at_once::<HostRuntime>(yielding(&rt, rt.alloc()));
    let last = last_of(kernel);
    same(&rt, ran, 1);
    same(&rt, (last.failed, last.live_threads), (false, 1));
}
