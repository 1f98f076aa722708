//! Questions to a shim whose end wasn't told. They don't tell it.
ghost use Rattle.std.specs.Prelude.{◌≡◌, ◌≤◌, ◌<◌, length};
ghost use Rattle.dos_io.specs.Shims.{HasNoEnd};

use dos_io::{Shim, ShimStop, SignalList};
use dos_world::Ending;
use std::process::Abort;

/// The signals of a round.
pub fn signals<S: Shim>(shim: &mut S, round: u32, list: &mut SignalList) -> Result<(), ShimStop>
    requires { HasNoEnd (S.state shim.old).told }
    ensures { HasNoEnd (S.state shim.new).told }
{
    shim.signals(round, list)
}

/// An input of thread 1 in round 1, of as many bytes as the buffer has.
pub fn input<S: Shim>(shim: &mut S, buf: &mut [u8]) -> Result<usize, ShimStop>
    requires told { HasNoEnd (S.state shim.old).told }
    requires some { 0 < length buf.old }
    requires few { length buf.old ≤ 4096 }
    ensures told { HasNoEnd (S.state shim.new).told }
    ensures len { length buf.new ≡ length buf.old }
{
    shim.input(1, 1, buf)
}

/// A reading for thread 1 in round 1.
pub fn clock<S: Shim>(shim: &mut S) -> Result<u64, ShimStop>
    requires { HasNoEnd (S.state shim.old).told }
    ensures { HasNoEnd (S.state shim.new).told }
{
    shim.clock(1, 1)
}

/// How many of so many inputs filled the buffer.
pub fn full_inputs<S: Shim>(shim: &mut S, buf: &mut [u8], count: u32) -> u32
    requires told { HasNoEnd (S.state shim.old).told }
    requires some { 0 < length buf.old }
    requires few { length buf.old ≤ 4096 }
    ensures told { HasNoEnd (S.state shim.new).told }
{
    let len = buf.len();
    let mut full = 0u32;
    for _ in 0..count {
        if input(shim, buf) == Ok(len) {
            full = full.saturating_add(1);
        }
    }
    full
}

/// The shim's answer to a question for the signals of a round.
pub fn answers_signals<S: Shim>(
    rt: &impl Abort,
    shim: &mut S,
    round: u32,
    list: &mut SignalList,
    answer: Result<(), ShimStop>,
)
    requires { HasNoEnd (S.state shim.old).told }
    ensures { HasNoEnd (S.state shim.new).told }
{
    assert_eq!(rt; signals(shim, round, list), answer);
}

/// So many signals came.
pub fn came(rt: &impl Abort, list: &SignalList, count: usize) {
    assert_eq!(rt; list.len(), count);
}

/// The shim's answer to a question for input.
pub fn answers_input<S: Shim>(
    rt: &impl Abort,
    shim: &mut S,
    buf: &mut [u8],
    answer: Result<usize, ShimStop>,
)
    requires told { HasNoEnd (S.state shim.old).told }
    requires some { 0 < length buf.old }
    requires few { length buf.old ≤ 4096 }
    ensures { HasNoEnd (S.state shim.new).told }
{
    assert_eq!(rt; input(shim, buf), answer);
}

/// So many inputs fill the buffer, each of them.
pub fn fills<S: Shim>(rt: &impl Abort, shim: &mut S, buf: &mut [u8], count: u32)
    requires told { HasNoEnd (S.state shim.old).told }
    requires some { 0 < length buf.old }
    requires few { length buf.old ≤ 4096 }
    ensures { HasNoEnd (S.state shim.new).told }
{
    assert_eq!(rt; full_inputs(shim, buf, count), count);
}

/// The shim's answer to a question for a reading.
pub fn answers_clock<S: Shim>(rt: &impl Abort, shim: &mut S, answer: Result<u64, ShimStop>)
    requires { HasNoEnd (S.state shim.old).told }
    ensures { HasNoEnd (S.state shim.new).told }
{
    assert_eq!(rt; clock(shim), answer);
}

/// The shim takes the end.
pub fn takes_end<S: Shim>(rt: &impl Abort, shim: &mut S, ending: Ending, rounds: u32)
    requires { HasNoEnd (S.state shim.old).told }
{
    assert_eq!(rt; shim.end(ending, rounds), Ok(()));
}

#[cfg(test)]
mod tests {
    use super::*;
    use crate::texts::are;
    use dos_io::Quiet;
    use dos_world::Post;

    #[test]
    fn no_signal_comes_to_a_quiet_group(rt: HostRuntime) {
        let mut shim = Quiet::new(rt.alloc());
        let mut list = SignalList::new();
        list.push(Post { pid: 1, signal: 9 });
        answers_signals(&rt, &mut shim, 1, &mut list, Ok(()));
        came(&rt, &list, 0);
        drop(shim);
    }

    #[test]
    fn the_input_of_a_quiet_group_is_at_its_end(rt: HostRuntime) {
        let mut shim = Quiet::new(rt.alloc());
        let mut buf = [7; 4];
        answers_input(&rt, &mut shim, &mut buf, Ok(0));
        are(&rt, &buf, &[7; 4]);
        drop(shim);
    }

    #[test]
    fn the_clock_of_a_quiet_group_stands_still(rt: HostRuntime) {
        let mut shim = Quiet::new(rt.alloc());
        answers_clock(&rt, &mut shim, Ok(0));
        answers_clock(&rt, &mut shim, Ok(0));
        takes_end(&rt, &mut shim, Ending::Done, 3);
        drop(shim);
    }
}
