//! Hosts in memory and over std.
ghost use Rattle.std.specs.Prelude.{◌<◌, length};

use crate::texts::are;
use dos_io::{Host, HostFault, MemoryHost, StdHost};
use std::io;
use std::io::Read;
use std::process::Abort;

/// The host's answer to a question for input.
pub fn brings(
    rt: &impl Abort,
    host: &mut impl Host,
    buf: &mut [u8],
    answer: Result<usize, HostFault>,
)
    requires { 0 < length buf.old }
{
    assert_eq!(rt; host.input(buf), answer);
}

// The host's answer to a question for a reading.
fn reads(rt: &impl Abort, host: &mut impl Host, answer: Result<u64, HostFault>) {
    assert_eq!(rt; host.clock(), answer);
}

#[test]
fn a_host_gives_its_pieces_and_its_readings(rt: HostRuntime) {
    let mut host = MemoryHost::new(rt.alloc(), b"01234567", 5, &[7], &[2]).expect(&rt, "memory");
    let mut buf = [b'.'; 4];
    brings(&rt, &mut host, &mut buf, Ok(4));
    are(&rt, &buf, b"0123");
    brings(&rt, &mut host, &mut buf, Err(HostFault {}));
    brings(&rt, &mut host, &mut buf, Ok(1));
    are(&rt, &buf, b"4123");
    reads(&rt, &mut host, Ok(7));
    reads(&rt, &mut host, Err(HostFault {}));
    brings(&rt, &mut host, &mut buf, Ok(3));
    brings(&rt, &mut host, &mut buf, Ok(0));
    drop(host);
}

#[test]
fn the_host_over_std_gives_what_its_reader_gives(rt: HostRuntime) {
    let mut host = StdHost::new(b"0123456".as_slice(), &rt);
    let mut buf = [b'.'; 4];
    brings(&rt, &mut host, &mut buf, Ok(4));
    are(&rt, &buf, b"0123");
    brings(&rt, &mut host, &mut buf, Ok(3));
    are(&rt, &buf, b"4563");
    brings(&rt, &mut host, &mut buf, Ok(0));
    are(&rt, &buf, b"4563");
}

/// A reader that fails at its second call, and gives one byte at each other.
#[derive(Drop)]
struct Failing {
    calls: u8,
}

impl Read for Failing {
    fn read(&mut self, buf: &mut [u8]) -> io::Result<usize> {
        self.calls = self.calls.saturating_add(1);
        if self.calls == 2 {
            return Err(io::ErrorKind::BrokenPipe.into());
        }
        if let [first, ..] = buf {
            *first = self.calls;
            return Ok(1);
        }
        Ok(0)
    }
}

#[test]
fn a_reader_that_fails_is_a_fault_and_may_go_on(rt: HostRuntime) {
    let mut host = StdHost::new(Failing { calls: 0 }, &rt);
    let mut buf = [b'.'; 4];
    brings(&rt, &mut host, &mut buf, Ok(1));
    brings(&rt, &mut host, &mut buf, Err(HostFault {}));
    brings(&rt, &mut host, &mut buf, Ok(1));
    are(&rt, &buf, &[3, b'.', b'.', b'.']);
}

#[test]
fn the_systems_clock_reads_a_time_after_2020(rt: HostRuntime) {
    let mut host = StdHost::new(rt.stdin(), &rt);
    let Ok(reading) = host.clock() else {
        panic!(rt; "no reading");
    };
    assert!(rt; reading > 1_577_836_800_000_000_000);
}
