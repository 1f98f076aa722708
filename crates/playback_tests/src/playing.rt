//! A small group's moves over logs, on and back.
ghost use Rattle.std.specs.Prelude.{◌≡◌, ◌≤◌, false, length};

use dos_world::{Config, Scheme};
use elf_image::{Image, read_image};
use group_walk::MoveKind;
use log_text::read_log;
use recorded_walk::Playback;
use rv_asm::Builder;
use std::alloc::Global;
use std::process::Abort;

/// Where the code begins.
const CODE: u32 = 0x10000;

const CONFIG: Config = Config {
    quantum: 1000,
    rounds: 100,
    frames: 40,
    scheme: Scheme::Ownership,
};

/// Two threads read a word of one page, yield, and store it with one added: they race for the page.
const RACES: &[u32] = &[
    0x0030_0893,
    0x0000_0517,
    0x0145_0513,
    0x0000_0073,
    0x0170_0893,
    0x0000_0073,
    0x0000_0417,
    0x0384_2283,
    0x0170_0893,
    0x0000_0073,
    0x0012_8293,
    0x0254_2C23,
    0x0000_0073,
    0x0080_0893,
    0x0010_0513,
    0x0384_0593,
    0x0010_0613,
    0x0000_0073,
    0x0010_0893,
    0x0000_0073,
    0x0000_0030,
];

/// A process exits, with status 7.
const EXITS: &[u32] = &[0x0020_0893, 0x0070_0513, 0x0000_0073];

const BEGIN: MoveKind = MoveKind::Begins;

const RUN_1: MoveKind = MoveKind::Runs { thread: 1 };

const RUN_2: MoveKind = MoveKind::Runs { thread: 2 };

const SERVE_1: MoveKind = MoveKind::IsServed { thread: 1 };

const SERVE_2: MoveKind = MoveKind::IsServed { thread: 2 };

/// The moves of the run.
const RACE: &[MoveKind] = &[
    BEGIN, RUN_1, RUN_1, RUN_1, SERVE_1, RUN_1, SERVE_1, BEGIN, RUN_1, RUN_1, RUN_1, SERVE_1,
    RUN_2, RUN_2, RUN_2, SERVE_2, BEGIN, RUN_1, RUN_2, RUN_1, SERVE_1, RUN_2, SERVE_2, BEGIN,
    RUN_2, RUN_2, RUN_2, RUN_2, RUN_1, RUN_1, RUN_1, RUN_1, SERVE_1, RUN_1, SERVE_1, SERVE_2,
    RUN_2, SERVE_2,
];

/// The log of the run, without a signal: its four rounds, and its end.
const WHOLE: &[u8] = &[
    68, 80, 71, 76, 1, 0, 1, 0, 232, 3, 0, 0, 100, 0, 0, 0, 40, 0, 0, 0, 0, 0, 0, 0, 0, 0, 0, 0, 0,
    0, 0, 0, 0, 0, 0, 0, 0, 0, 0, 0, 0, 0, 0, 0, 0, 0, 0, 0, 0, 0, 0, 0, 1, 1, 0, 0, 0, 0, 1, 2, 0,
    0, 0, 0, 1, 3, 0, 0, 0, 0, 1, 4, 0, 0, 0, 0, 0, 0, 4, 0, 0, 0,
];

/// The same log, but that the third round's entry is of the fourth.
const BROKEN: &[u8] = &[
    68, 80, 71, 76, 1, 0, 1, 0, 232, 3, 0, 0, 100, 0, 0, 0, 40, 0, 0, 0, 0, 0, 0, 0, 0, 0, 0, 0, 0,
    0, 0, 0, 0, 0, 0, 0, 0, 0, 0, 0, 0, 0, 0, 0, 0, 0, 0, 0, 0, 0, 0, 0, 1, 1, 0, 0, 0, 0, 1, 2, 0,
    0, 0, 0, 1, 4, 0, 0, 0, 0, 0, 0, 4, 0, 0, 0,
];

/// The log of the exit: a round without a signal, and its end.
const EXITED: &[u8] = &[
    68, 80, 71, 76, 1, 0, 1, 0, 232, 3, 0, 0, 100, 0, 0, 0, 40, 0, 0, 0, 0, 0, 0, 0, 0, 0, 0, 0, 0,
    0, 0, 0, 0, 0, 0, 0, 0, 0, 0, 0, 0, 0, 0, 0, 0, 0, 0, 0, 0, 0, 0, 0, 1, 1, 0, 0, 0, 0, 0, 0, 1,
    0, 0, 0,
];

fn word(rt: &impl Abort, builder: &mut Builder, word: u32) {
    builder.word(word).expect(rt, "memory");
}

fn image(rt: &impl Abort, alloc: Global, words: &[u32]) -> Image {
    let mut builder = Builder::new(alloc, CODE, true).expect(rt, "memory");
    for one in words {
        word(rt, &mut builder, *one);
    }
    let bytes = builder.finish().expect(rt, "an image");
    let image = read_image(alloc, &bytes).expect(rt, "an image");
    drop(bytes);
    image
}

fn opened(rt: &impl Abort, alloc: Global, words: &[u32], bytes: &[u8]) -> Playback
    requires { length bytes.now ≤ 1000 }
    ensures { result.failed ≡ false }
{
    let log = read_log(alloc, bytes).expect(rt, "a log");
    let images = Vec::from_array(alloc, [image(rt, alloc, words)]).expect(rt, "memory");
    Playback::open(alloc, images, CONFIG, log).expect(rt, "room")
}

/// The next move is of this kind, or there is none.
fn ahead(rt: &impl Abort, play: &mut Playback, wanted: Option<MoveKind>)
    requires { play.old.failed ≡ false }
    ensures running { play.new.failed ≡ false }
    ensures further { play.old.reached ≤ play.new.reached }
{
    let kind = play.next().expect(rt, "memory");
    assert_eq!(rt; kind, wanted);
}

/// It is made, and puts so many bytes to output.
fn on(rt: &impl Abort, play: &mut Playback, wanted: Option<MoveKind>) -> usize
    requires { play.old.failed ≡ false }
    ensures running { play.new.failed ≡ false }
    ensures further { play.old.reached ≤ play.new.reached }
{
    let kind = play.advance().expect(rt, "memory");
    assert_eq!(rt; kind, wanted);
    let (out, err) = play.heard();
    assert!(rt; err.is_empty());
    out.len()
}

/// These moves are made, of which so many put a byte.
fn follow(rt: &impl Abort, play: &mut Playback, moves: &[MoveKind], puts: usize)
    requires { play.old.failed ≡ false }
    ensures running { play.new.failed ≡ false }
    ensures further { play.old.reached ≤ play.new.reached }
{
    let mut count = 0usize;
    for wanted in moves {
        count = count.saturating_add(on(rt, play, Some(*wanted)));
    }
    assert_eq!(rt; count, puts);
}

/// No move is next, however often it is asked.
fn rests(rt: &impl Abort, play: &mut Playback, moves: u64, used: u32)
    requires { play.old.failed ≡ false }
    ensures running { play.new.failed ≡ false }
    ensures further { play.old.reached ≤ play.new.reached }
{
    ahead(rt, play, None);
    assert_eq!(rt; on(rt, play, None), 0);
    ahead(rt, play, None);
    assert_eq!(rt; on(rt, play, None), 0);
    assert_eq!(rt; play.moves(), moves);
    assert_eq!(rt; play.used(), used);
}

/// There and back.
fn again(rt: &impl Abort, play: &mut Playback, moves: u64, used: u32, wanted: Option<MoveKind>)
    requires running { play.old.failed ≡ false }
    requires reached { moves ≤ play.old.reached }
    ensures running { play.new.failed ≡ false }
    ensures further { play.old.reached ≤ play.new.reached }
{
    play.go_to(moves).expect(rt, "memory");
    assert_eq!(rt; play.moves(), moves);
    assert_eq!(rt; play.used(), used);
    ahead(rt, play, wanted);
}

/// So many of the moves ahead are made at once, at most so many, and none from one of these
/// addresses.
fn at_once(rt: &impl Abort, play: &mut Playback, most: u32, stops: &[u32], wanted: u32)
    requires { play.old.failed ≡ false }
    ensures running { play.new.failed ≡ false }
    ensures further { play.old.reached ≤ play.new.reached }
{
    let count = play.run_on(most, stops, &[]);
    assert_eq!(rt; count, wanted);
}

/// A move, or as many instructions as are made at once.
#[derive(Clone, Copy)]
enum Stride {
    One(MoveKind),
    Many(u32),
}

/// The run in strides. Instructions of one thread in one phase are made at once, but that the first
/// in the serial phase is none of them where it needs a grant: of the page that both share.
const STRIDES: &[Stride] = &[
    Stride::Many(0),
    Stride::One(BEGIN),
    Stride::Many(3),
    Stride::Many(0),
    Stride::One(SERVE_1),
    Stride::Many(1),
    Stride::One(SERVE_1),
    Stride::One(BEGIN),
    Stride::Many(3),
    Stride::One(SERVE_1),
    Stride::Many(0),
    Stride::One(RUN_2),
    Stride::Many(2),
    Stride::One(SERVE_2),
    Stride::One(BEGIN),
    Stride::Many(1),
    Stride::Many(1),
    Stride::Many(0),
    Stride::One(RUN_1),
    Stride::Many(0),
    Stride::One(SERVE_1),
    Stride::Many(0),
    Stride::One(RUN_2),
    Stride::One(SERVE_2),
    Stride::One(BEGIN),
    Stride::Many(4),
    Stride::Many(0),
    Stride::One(RUN_1),
    Stride::Many(3),
    Stride::One(SERVE_1),
    Stride::Many(1),
    Stride::One(SERVE_1),
    Stride::One(SERVE_2),
    Stride::Many(1),
    Stride::One(SERVE_2),
];

/// One of them; how many bytes it puts.
fn take_stride(rt: &impl Abort, play: &mut Playback, wanted: Stride) -> usize
    requires { play.old.failed ≡ false }
    ensures running { play.new.failed ≡ false }
    ensures further { play.old.reached ≤ play.new.reached }
{
    match wanted {
        Stride::One(kind) => on(rt, play, Some(kind)),
        Stride::Many(count) => {
            at_once(rt, play, u32::MAX, &[], count);
            0
        }
    }
}

/// These strides are taken, of which so many put a byte.
fn take_strides(rt: &impl Abort, play: &mut Playback, strides: &[Stride], puts: usize)
    requires { play.old.failed ≡ false }
    ensures running { play.new.failed ≡ false }
    ensures further { play.old.reached ≤ play.new.reached }
{
    let mut count = 0usize;
    for wanted in strides {
        count = count.saturating_add(take_stride(rt, play, *wanted));
    }
    assert_eq!(rt; count, puts);
}

#[test]
fn instructions_are_made_at_once(rt: HostRuntime) {
    let mut play = opened(&rt, rt.alloc(), RACES, WHOLE);
    let start = play.moves();
    take_strides(&rt, &mut play, STRIDES, 2);
    rests(&rt, &mut play, 38, 4);
    again(&rt, &mut play, start, 0, Some(BEGIN));
    on(&rt, &mut play, Some(BEGIN));
    at_once(&rt, &mut play, 1, &[], 1);
    at_once(&rt, &mut play, u32::MAX, &[CODE + 32, CODE + 8], 1);
    at_once(&rt, &mut play, u32::MAX, &[CODE + 8], 0);
    at_once(&rt, &mut play, u32::MAX, &[CODE + 4, CODE + 32], 1);
    on(&rt, &mut play, Some(SERVE_1));
    assert_eq!(rt; play.moves(), 5);
    drop(play);
}

/// The move is made, behind whether it is seen to be the last process's exit.
fn exits_by(rt: &impl Abort, play: &mut Playback, is_exit: bool, wanted: MoveKind)
    requires { play.old.failed ≡ false }
    ensures running { play.new.failed ≡ false }
    ensures further { play.old.reached ≤ play.new.reached }
{
    assert_eq!(rt; play.is_last_exit(), is_exit);
    on(rt, play, Some(wanted));
}

#[test]
fn the_last_exit_is_seen_before_it_is_made(rt: HostRuntime) {
    let mut play = opened(&rt, rt.alloc(), EXITS, EXITED);
    exits_by(&rt, &mut play, false, BEGIN);
    exits_by(&rt, &mut play, false, RUN_1);
    exits_by(&rt, &mut play, false, RUN_1);
    exits_by(&rt, &mut play, true, SERVE_1);
    rests(&rt, &mut play, 4, 1);
    drop(play);
}

#[test]
fn a_run_is_walked_to_its_end_and_back(rt: HostRuntime) {
    let mut play = opened(&rt, rt.alloc(), RACES, WHOLE);
    let start = play.moves();
    ahead(&rt, &mut play, Some(BEGIN));
    follow(&rt, &mut play, &RACE[..7], 0);
    let second = play.moves();
    ahead(&rt, &mut play, Some(BEGIN));
    follow(&rt, &mut play, &RACE[7..], 2);
    let end = play.moves();
    rests(&rt, &mut play, 38, 4);
    again(&rt, &mut play, second, 1, Some(BEGIN));
    again(&rt, &mut play, end, 4, None);
    again(&rt, &mut play, start, 0, Some(BEGIN));
    follow(&rt, &mut play, RACE, 2);
    rests(&rt, &mut play, 38, 4);
    drop(play);
}

#[test]
fn a_move_that_the_log_does_not_answer_is_not_made(rt: HostRuntime) {
    let mut play = opened(&rt, rt.alloc(), RACES, BROKEN);
    follow(&rt, &mut play, &RACE[..16], 0);
    let end = play.moves();
    rests(&rt, &mut play, 16, 2);
    let start = play.moves();
    again(&rt, &mut play, start, 2, None);
    again(&rt, &mut play, end, 2, None);
    drop(play);
}
