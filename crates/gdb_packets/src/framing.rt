//! Packets on the wire, byte by byte.
ghost use Rattle.std.specs.Prelude.{◌≡◌, ◌≤◌, ◌+◌, ◌++◌, [], ◌∷◌, length};
ghost use Rattle.arrayvec.specs.ArrayVec.{array_vec_len};
ghost use Rattle.gdb_packets.specs.Framing.{framing_begun, framing_step, outside_step, inside_step};
ghost use Rattle.gdb_packets.specs.Framing.{with_body_byte, ended_packet, frame, checksum};
ghost use Rattle.gdb_packets.specs.Framer.{framing_of};

use crate::hexadecimal::{nibbles_value, push_byte};
use arrayvec::ArrayVec;

/// A packet has at most so many bytes between `$` and `#`.
pub const PACKET_LIMIT: usize = 16384;

/// One byte over the limit is kept.
const KEPT: usize = 16385;

/// Where the reading stands.
#[derive(Clone, Copy, Debug, PartialEq, Eq)]
pub enum Place {
    Outside,
    Inside,
    BeforeSum,
    WithinSum(u8),
}

/// What a byte brought to its end.
#[derive(Clone, Copy, Debug, PartialEq, Eq)]
pub enum Event {
    /// `-` outside a packet
    Again,
    /// a packet; whether the two digits are the sum of its bytes
    Packet { is_sound: bool },
    /// the same, of a packet over the limit
    TooLong { is_sound: bool },
}

/// Reads packets from bytes in any pieces.
#[derive(Drop)]
pub struct Framer {
    place: Place,
    body: ArrayVec<u8, KEPT>,
    running: u8,
}

impl Framer {
    /// Outside a packet.
    pub fn new() -> Self
        ensures { framing_of result ≡ framing_begun }
    {
        Framer {
            place: Place::Outside,
            body: ArrayVec::new(),
            running: 0,
        }
    }

    /// The bytes of the packet that was read last, or that is being read.
    pub fn body(&self) -> &[u8]
        ensures { result.now ≡ (framing_of self.now).body }
    {
        self.body.as_slice()
    }

    /// Takes one byte more.
    pub fn take(&mut self, byte: u8) -> Option<Event>
        ensures framing { framing_of self.new ≡ (framing_step (framing_of self.old) byte).0 }
        ensures event { result ≡ (framing_step (framing_of self.old) byte).1 }
    {
        match self.place {
            Place::Outside => self.take_outside(byte),
            Place::Inside => {
                self.take_inside(byte);
                None
            }
            Place::BeforeSum => {
                self.place = Place::WithinSum(byte);
                None
            }
            Place::WithinSum(digit) => {
                self.place = Place::Outside;
                Some(self.ended_packet(digit, byte))
            }
        }
    }

    fn take_outside(&mut self, byte: u8) -> Option<Event>
        ensures framing { framing_of self.new ≡ (outside_step (framing_of self.old) byte).0 }
        ensures event { result ≡ (outside_step (framing_of self.old) byte).1 }
    {
        if byte == b'$' {
            self.place = Place::Inside;
            self.body.clear();
            self.running = 0;
            return None;
        }
        if byte == b'-' {
            return Some(Event::Again);
        }
        None
    }

    fn take_inside(&mut self, byte: u8)
        ensures { framing_of self.new ≡ (inside_step (framing_of self.old) byte).0 }
    {
        if byte == b'#' {
            self.place = Place::BeforeSum;
            return;
        }
        self.keep(byte);
        self.running = ((u16::from(self.running) + u16::from(byte)) % 256) as u8;
    }

    /// Keeps a byte of the packet, up to one over the limit.
    fn keep(&mut self, byte: u8)
        ensures { framing_of self.new ≡ record (framing_of self.old) {
          body = with_body_byte (framing_of self.old).body byte;
        } }
    {
        if self.body.len() <= PACKET_LIMIT {
            self.body.push(byte);
        }
    }

    fn ended_packet(&self, first: u8, second: u8) -> Event
        ensures { result ≡ ended_packet (framing_of self.now) (first ∷ second ∷ []) }
    {
        let is_sound = match nibbles_value(&[first, second]) {
            None => false,
            Some(sum) => sum == u32::from(self.running),
        };
        if self.body.len() <= PACKET_LIMIT {
            Event::Packet { is_sound }
        } else {
            Event::TooLong { is_sound }
        }
    }
}

/// Writes a packet. There must be room for four bytes more than it has.
pub fn push_frame<const N: usize>(to: &mut ArrayVec<u8, N>, body: &[u8])
    requires { array_vec_len to.old + length body.now + 4 ≤ N }
    ensures items { to.new.items ≡ to.old.items ++ frame body.now }
    ensures len { array_vec_len to.new ≡ array_vec_len to.old + length body.now + 4 }
{
    to.push(b'$');
    let sum = push_summed(to, body);
    to.push(b'#');
    push_byte(to, sum);
}

/// Writes bytes, and gives their sum.
fn push_summed<const N: usize>(to: &mut ArrayVec<u8, N>, body: &[u8]) -> u8
    requires { array_vec_len to.old + length body.now ≤ N }
    ensures items { to.new.items ≡ to.old.items ++ body.now }
    ensures len { array_vec_len to.new ≡ array_vec_len to.old + length body.now }
    ensures sum { result ≡ checksum body.now }
{
    let mut running: u8 = 0;
    for byte in body {
        to.push(*byte);
        running = ((u16::from(running) + u16::from(*byte)) % 256) as u8;
    }
    running
}
