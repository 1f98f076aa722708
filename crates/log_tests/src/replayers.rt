//! The replayer.
ghost use Rattle.std.specs.Prelude.{IfOk, ◌≤◌, length};
ghost use Rattle.dos_io.specs.Shims.{HasNoEnd};
ghost use Rattle.shim_log.specs.Replay.{replayer_state};

use crate::shims::{answers_clock, answers_input, answers_signals, came, takes_end};
use crate::texts::{EACH_KIND, SMALLEST, SMALLEST_ONE, STRETCHES, are, is_written};
use dos_io::{ShimStop, SignalList};
use dos_world::{Ending, Misfit, Question};
use log_text::{ReadError, read_log};
use shim_log::Replayer;
use std::alloc::Global;
use std::process::Abort;

/// A replayer of the log with this text.
fn replayer(alloc: Global, text: &[u8]) -> Result<Replayer, ReadError>
    requires { length text.now ≤ 67108864 }
    ensures { IfOk result (λ shim. HasNoEnd (replayer_state shim).told) }
{
    let log = read_log(alloc, text)?;
    Ok(Replayer::new(log))
}

#[test]
fn a_replayer_answers_what_was_kept(rt: HostRuntime) {
    let mut shim = replayer(rt.alloc(), &EACH_KIND).expect(&rt, "a log");
    let mut list = SignalList::new();
    let mut buf = [b'.'; 3];
    answers_signals(&rt, &mut shim, 1, &mut list, Ok(()));
    came(&rt, &list, 1);
    answers_input(&rt, &mut shim, &mut buf, Ok(2));
    are(&rt, &buf, b"ab.");
    answers_clock(&rt, &mut shim, Ok(5));
    takes_end(&rt, &mut shim, Ending::Done, 2);
    drop(shim);
}

#[test]
fn a_replayer_goes_through_stretches(rt: HostRuntime) {
    let mut shim = replayer(rt.alloc(), &STRETCHES).expect(&rt, "a log");
    let mut list = SignalList::new();
    answers_signals(&rt, &mut shim, 1, &mut list, Ok(()));
    answers_signals(&rt, &mut shim, 2, &mut list, Ok(()));
    answers_signals(&rt, &mut shim, 3, &mut list, Ok(()));
    came(&rt, &list, 0);
    answers_clock(&rt, &mut shim, Ok(7));
    answers_signals(&rt, &mut shim, 4, &mut list, Ok(()));
    answers_signals(&rt, &mut shim, 6, &mut list, Ok(()));
    answers_signals(&rt, &mut shim, 7, &mut list, Ok(()));
    came(&rt, &list, 1);
    takes_end(&rt, &mut shim, Ending::Done, 7);
    drop(shim);
}

// In the midst of a stretch a misfit counts exchanges, and the stretch goes on behind it.
#[test]
fn a_misfit_in_a_stretch_is_of_its_exchange(rt: HostRuntime) {
    let mut shim = replayer(rt.alloc(), &STRETCHES).expect(&rt, "a log");
    let mut list = SignalList::new();
    answers_signals(&rt, &mut shim, 1, &mut list, Ok(()));
    let stop = ShimStop::Misfit(Misfit {
        entry: 1,
        kept: Question::Signals { round: 2 },
        asked: Question::Clock { round: 1, tid: 1 },
    });
    answers_clock(&rt, &mut shim, Err(stop));
    answers_signals(&rt, &mut shim, 2, &mut list, Ok(()));
    drop(shim);
}

// The log is asked this where it has the signals of round 1.
fn misfit(asked: Question) -> ShimStop {
    ShimStop::Misfit(Misfit {
        entry: 0,
        kept: Question::Signals { round: 1 },
        asked,
    })
}

#[test]
fn another_question_is_a_misfit_and_nothing_is_taken(rt: HostRuntime) {
    let mut shim = replayer(rt.alloc(), &EACH_KIND).expect(&rt, "a log");
    let mut list = SignalList::new();
    let stop = misfit(Question::Clock { round: 1, tid: 1 });
    answers_clock(&rt, &mut shim, Err(stop));
    let stop = misfit(Question::Signals { round: 2 });
    answers_signals(&rt, &mut shim, 2, &mut list, Err(stop));
    answers_signals(&rt, &mut shim, 1, &mut list, Ok(()));
    drop(shim);
}

// What is read of this text is written as the same.
fn is_written_again(rt: &impl Abort, alloc: Global, text: &[u8])
    requires { length text.now ≤ 67108864 }
{
    let log = read_log(alloc, text).expect(rt, "a log");
    is_written(rt, alloc, &log, text);
    drop(log);
}

#[test]
fn what_is_read_is_written_again(rt: HostRuntime) {
    is_written_again(&rt, rt.alloc(), &SMALLEST);
    is_written_again(&rt, rt.alloc(), &SMALLEST_ONE);
    is_written_again(&rt, rt.alloc(), &STRETCHES);
    is_written_again(&rt, rt.alloc(), &EACH_KIND);
}
