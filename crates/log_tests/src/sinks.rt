//! Sinks in memory and over std.
use crate::texts::are;
use dos_io::{MemorySink, Sink, SinkFault, StdErr, StdOut};
use std::io;
use std::io::Write;
use std::process::Abort;

// The sink's answer to a piece.
fn puts(rt: &impl Abort, sink: &mut impl Sink, piece: &[u8], answer: Result<(), SinkFault>) {
    assert_eq!(rt; sink.put(piece), answer);
}

#[test]
fn a_sink_fails_where_it_is_told_to_and_where_it_is_full(rt: HostRuntime) {
    let mut sink = MemorySink::new(rt.alloc(), 5, &[2]).expect(&rt, "memory");
    puts(&rt, &mut sink, b"abc", Ok(()));
    puts(&rt, &mut sink, b"d", Err(SinkFault));
    puts(&rt, &mut sink, b"def", Err(SinkFault));
    puts(&rt, &mut sink, b"de", Ok(()));
    are(&rt, sink.bytes(), b"abcde");
    drop(sink);
}

/// A writer that takes `room` bytes, and refuses the next.
#[derive(Drop)]
struct Full {
    room: usize,
}

impl Write for Full {
    fn write(&mut self, piece: &[u8]) -> io::Result<usize> {
        if self.room == 0 {
            return Err(io::ErrorKind::StorageFull.into());
        }
        let count = piece.len().min(self.room);
        self.room -= count;
        Ok(count)
    }

    fn flush(&mut self) -> io::Result<()> {
        Ok(())
    }
}

#[test]
fn the_standard_sinks_take_bytes(rt: HostRuntime) {
    puts(&rt, &mut StdOut::new(rt.stdout()), b"out\xff\n", Ok(()));
    puts(&rt, &mut StdErr::new(rt.stderr()), b"err\xff\n", Ok(()));
}

#[test]
fn a_writer_that_is_full_is_a_fault(rt: HostRuntime) {
    let mut sink = StdErr::new(Full { room: 3 });
    puts(&rt, &mut sink, b"ab", Ok(()));
    puts(&rt, &mut sink, b"cd", Err(SinkFault));
}
