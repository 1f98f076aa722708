//! Walks over small groups, move by move.
ghost use Rattle.std.specs.Prelude.{◌≡◌, ◌≤◌, ◌+◌, ◌-◌, ◌^◌, ◌<◌, ℕ, false, length};
ghost use Rattle.dos_io.specs.Shims.{HasNoEnd};
ghost use Rattle.group_rounds.specs.Kernels.{IsFresh};

use dos_io::{Border, GroupBorder, MemorySink, Quiet};
use dos_world::{Config, Scheme};
use elf_image::{Image, read_image};
use group_open::open_state;
use group_rounds::Kernel;
use group_walk::{MoveKind, Walker};
use rv_asm::Builder;
use std::alloc::Global;
use std::process::Abort;

/// Where the code begins.
const CODE: u32 = 0x10000;

const CONFIG: Config = Config {
    quantum: 1000,
    rounds: 100,
    frames: 40,
    scheme: Scheme::Ownership,
};

/// Ends with status 7.
const ENDS: &[u32] = &[0x0020_0893, 0x0070_0513, 0x0000_0073];

/// An ebreak.
const BREAKS: &[u32] = &[0x0010_0073];

/// Two threads read a word of one page, yield, and store it with one added: they race for the page.
const RACES: &[u32] = &[
    0x0030_0893,
    0x0000_0517,
    0x0145_0513,
    0x0000_0073,
    0x0170_0893,
    0x0000_0073,
    0x0000_0417,
    0x0384_2283,
    0x0170_0893,
    0x0000_0073,
    0x0012_8293,
    0x0254_2C23,
    0x0000_0073,
    0x0080_0893,
    0x0010_0513,
    0x0384_0593,
    0x0010_0613,
    0x0000_0073,
    0x0010_0893,
    0x0000_0073,
    0x0000_0030,
];

const BEGIN: MoveKind = MoveKind::Begins;

const RUN_1: MoveKind = MoveKind::Runs { thread: 1 };

const RUN_2: MoveKind = MoveKind::Runs { thread: 2 };

const SERVE_1: MoveKind = MoveKind::IsServed { thread: 1 };

const SERVE_2: MoveKind = MoveKind::IsServed { thread: 2 };

const BREAK_1: MoveKind = MoveKind::Faults {
    thread: 1,
    number: 5,
};

/// The second thread's first fetch is of a page that is the first thread's, so all of its moves in
/// its first round are in the serial phase.
const RACE: &[MoveKind] = &[
    BEGIN, RUN_1, RUN_1, RUN_1, SERVE_1, RUN_1, SERVE_1, BEGIN, RUN_1, RUN_1, RUN_1, SERVE_1,
    RUN_2, RUN_2, RUN_2, SERVE_2, BEGIN, RUN_1, RUN_2, RUN_1, SERVE_1, RUN_2, SERVE_2, BEGIN,
    RUN_2, RUN_2, RUN_2, RUN_2, RUN_1, RUN_1, RUN_1, RUN_1, SERVE_1, RUN_1, SERVE_1, SERVE_2,
    RUN_2, SERVE_2,
];

fn word(rt: &impl Abort, builder: &mut Builder, word: u32) {
    builder.word(word).expect(rt, "memory");
}

fn image(rt: &impl Abort, alloc: Global, words: &[u32]) -> Image {
    let mut builder = Builder::new(alloc, CODE, true).expect(rt, "memory");
    for one in words {
        word(rt, &mut builder, *one);
    }
    let bytes = builder.finish().expect(rt, "an image");
    let image = read_image(alloc, &bytes).expect(rt, "an image");
    drop(bytes);
    image
}

fn opened(rt: &impl Abort, alloc: Global, words: &[u32]) -> Kernel
    ensures { IsFresh result CONFIG }
{
    let images = [image(rt, alloc, words)];
    let state = open_state(alloc, &images, &CONFIG).expect(rt, "room");
    drop(images);
    Kernel::new(alloc, state, CONFIG).expect(rt, "memory")
}

/// The next move is of this kind, and is made.
fn step<B: Border>(rt: &impl Abort, walker: &mut Walker, border: &mut B, wanted: MoveKind)
    requires running { walker.old.failed ≡ false }
    requires few { walker.old.made < 2 ^ 64 - 1 }
    requires told { HasNoEnd (B.state border.old).shim.told }
    ensures running { walker.new.failed ≡ false }
    ensures made { walker.new.made ≤ walker.old.made + 1 }
    ensures told { HasNoEnd (B.state border.new).shim.told }
{
    let kind = walker.next().expect(rt, "a move is next");
    assert_eq!(rt; kind, wanted);
    walker.make(border).expect(rt, "nothing stops");
}

/// The moves are of these kinds.
fn follow<B: Border>(rt: &impl Abort, walker: &mut Walker, border: &mut B, moves: &[MoveKind])
    requires running { walker.old.failed ≡ false }
    requires begun { walker.old.made ≡ 0 }
    requires few { length moves.now ≤ 1000 }
    requires told { HasNoEnd (B.state border.old).shim.told }
    ensures running { walker.new.failed ≡ false }
{
    for wanted in moves {
        step(rt, walker, border, *wanted);
    }
}

/// The moves of a group, to its end, and what it puts to its output.
fn check(rt: &impl Abort, alloc: Global, words: &[u32], moves: &[MoveKind], wanted: &[u8])
    requires { length moves.now ≤ 1000 }
{
    let mut shim = Quiet::new(alloc);
    let mut out = MemorySink::new(alloc, 4096, &[]).expect(rt, "memory");
    let mut err = MemorySink::new(alloc, 4096, &[]).expect(rt, "memory");
    let mut border = GroupBorder {
        shim: &mut shim,
        out: &mut out,
        err: &mut err,
    };
    let mut walker = Walker::begin(opened(rt, alloc, words));
    follow(rt, &mut walker, &mut border, moves);
    assert_eq!(rt; walker.next(), None);
    drop(walker);
    assert_eq!(rt; out.bytes(), wanted);
    drop(out);
    drop(err);
}

#[test]
fn a_service_ends_the_group(rt: HostRuntime) {
    check(&rt, rt.alloc(), ENDS, &[BEGIN, RUN_1, RUN_1, SERVE_1], b"");
}

#[test]
fn a_fault_ends_the_group(rt: HostRuntime) {
    check(&rt, rt.alloc(), BREAKS, &[BEGIN, BREAK_1], b"");
}

#[test]
fn two_threads_race(rt: HostRuntime) {
    check(&rt, rt.alloc(), RACES, RACE, b"11");
}
