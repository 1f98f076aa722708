// The host over std: a reader, and the system's clock.
ghost use Rattle.std.specs.Prelude.{◌≡◌, ◌≤◌, ◌<◌, ◌++◌, ◌∷◌, [], None, take, drop, length};
ghost use Rattle.std.specs.Prelude.{IfOk, OnOk, OnErr};
ghost use Rattle.std.specs.Io.KnownBytes.{Consumes, IsAtEnd, Keeps};
ghost use Rattle.dos_io.specs.Outside.{HasCause, Rose, counted_to_limit};
ghost use Rattle.dos_io.specs.System.{unread};

use crate::host_trail::HostTrail;
use crate::{Host, HostFault, HostQuestion};
use std::io::{self, Read};
use std::time::{Clock, SystemTime, UNIX_EPOCH};

/// The most bytes that one question for input takes.
const MOST: usize = 4096;

/// The host of a real run: input from a reader, which is `rt.stdin()`, and the system's clock.
///
/// It tells nothing of what it will give, since nobody knows what a terminal will. What its reader
/// gave stands in the clauses of `input`; std's clock says nothing of what it reads.
#[derive(Drop)]
pub struct StdHost<'a, R: Clock, I: Read> {
    clock: &'a R,
    reader: I,
    faults: u64,
    asked: HostTrail,
}

impl<'a, R: Clock, I: Read> StdHost<'a, R, I> {
    /// A host over a reader and a clock, with no fault so far.
    pub fn new(reader: I, clock: &'a R) -> StdHost<'a, R, I>
        ensures reader { unread I.remaining result ≡ I.remaining reader }
        ensures faults { ⟦<StdHost<'a, R, I> as Host>⟧.faults result ≡ 0 }
        ensures asked { ⟦<StdHost<'a, R, I> as Host>⟧.asked result ≡ [] }
    {
        StdHost {
            clock,
            reader,
            faults: 0,
            asked: HostTrail::new(),
        }
    }

    // Counts a fault and answers it.
    fn fault(&mut self) -> HostFault
        ensures count { self.new.faults ≡ counted_to_limit self.old.faults }
        ensures later { self.old.faults ≤ self.new.faults }
        ensures rose { Rose self.old.faults self.new.faults }
        ensures reader { self.new.reader ≡ self.old.reader }
        ensures asked { self.new.asked ≡ self.old.asked }
    {
        self.faults = self.faults.saturating_add(1);
        HostFault {}
    }
}

// Nanoseconds since 1970 by this clock; none before 1970, from 2^64 nanoseconds on, and where the
// clock can't be read.
fn nanoseconds(clock: &impl Clock) -> Option<u64> {
    let now = SystemTime::now(clock).ok()?;
    let since = now.duration_since(UNIX_EPOCH).ok()?;
    u64::try_from(since.as_nanos()).ok()
}

// So many bytes go into the front of `buf`, whose rest stays.
fn copy_front(buf: &mut [u8], bytes: &[u8], count: usize)
    requires room { count ≤ length buf.old }
    requires bytes { count ≤ length bytes.now }
    ensures front { take count buf.new ≡ take count bytes.now }
    ensures rest { drop count buf.new ≡ drop count buf.old }
{
    buf[..count].copy_from_slice(&bytes[..count]);
}

// One read of a reader, for as many bytes as `buf` has, and `MOST` at most, into its front.
fn read_front<I: Read>(reader: &mut I, buf: &mut [u8]) -> io::Result<usize>
    requires { 0 < length buf.old }
    ensures gave { IfOk result (λ k. Consumes (I.remaining reader.old) (I.remaining reader.new)
        (take k buf.new)) }
    ensures end { IfOk result (λ k. k ≡ 0 → IsAtEnd (I.remaining reader.new)) }
    ensures kept { OnErr result (Keeps (I.remaining reader.old) (I.remaining reader.new)) }
    ensures short { IfOk result (λ k. k ≤ length buf.old) }
    ensures rest { IfOk result (λ k. drop k buf.new ≡ drop k buf.old) }
{
    let mut piece = [0; MOST];
    let wanted = buf.len().min(MOST);
    let count = reader.read(&mut piece[..wanted])?;
    copy_front(buf, &piece, count);
    Ok(count)
}

impl<'a, R: Clock, I: Read> Host for StdHost<'a, R, I> {
    // A reader of which nothing is known may come to be known at any call, so it is no host that
    // tells.
    ghost told = { λ _. None };

    ghost asked = { λ s. s.asked.questions };

    ghost faults = { λ s. s.faults };

    /// One read of the reader, for as many bytes as `buf` has, and 4096 at most: so a piece of the
    /// input is what the system gives at once. The count of faults rises by one at a fault, and at
    /// no other answer.
    fn input(&mut self, buf: &mut [u8]) -> Result<usize, HostFault>
        requires { 0 < length buf.old }

        // Where it is known what the reader has left, its front went into `buf`, and an answer of 0
        // means that nothing is left; a fault takes nothing.
        ensures gave { IfOk result (λ k. Consumes (unread I.remaining self.old)
            (unread I.remaining self.new)
            (take k buf.new)) }
        ensures end { IfOk result (λ k. k ≡ 0 → IsAtEnd (unread I.remaining self.new)) }
        ensures kept { OnErr result (Keeps (unread I.remaining self.old)
            (unread I.remaining self.new)) }

        ensures steady { OnOk result (self.new.faults ≡ self.old.faults) }
        ensures counted { OnErr result (self.new.faults ≡ counted_to_limit self.old.faults) }

        // As of every host.
        ensures short { IfOk result (λ k. k ≤ length buf.old) }
        ensures rest { IfOk result (λ k. drop k buf.new ≡ drop k buf.old) }
        ensures asked { self.new.asked.questions
            ≡ self.old.asked.questions ++ HostQuestion.Bytes (length buf.old) ∷ [] }
        ensures cause { HasCause self.old.faults self.new.faults result }
    {
        self.asked = HostTrail::then(&self.asked, &HostQuestion::Bytes { most: buf.len() });
        match read_front(&mut self.reader, buf) {
            Ok(count) => Ok(count),
            Err(_) => Err(self.fault()),
        }
    }

    /// Nanoseconds since 1970. It is a fault where the clock can't be read, before 1970, and from
    /// 2^64 nanoseconds on. The count of faults rises by one at a fault, and at no other answer.
    fn clock(&mut self) -> Result<u64, HostFault>
        ensures reader { unread I.remaining self.new ≡ unread I.remaining self.old }
        ensures steady { OnOk result (self.new.faults ≡ self.old.faults) }
        ensures counted { OnErr result (self.new.faults ≡ counted_to_limit self.old.faults) }

        // As of every host.
        ensures asked { self.new.asked.questions
            ≡ self.old.asked.questions ++ HostQuestion.Reading ∷ [] }
        ensures cause { HasCause self.old.faults self.new.faults result }
    {
        self.asked = HostTrail::then(&self.asked, &HostQuestion::Reading);
        match nanoseconds(self.clock) {
            Some(reading) => Ok(reading),
            None => Err(self.fault()),
        }
    }

    ghost filled = { λ _. tt };
}
