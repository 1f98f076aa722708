// What is kept of a connection between two events.
ghost use Rattle.std.specs.Prelude.{◌≡◌, ◌≤◌, ◌++◌, ◌∷◌, [], codes, length, OnOk, OnErr};
ghost use Rattle.dos_io.specs.Outside.{GrewByFront, HasCause, grown};
ghost use Rattle.gdb_packets.specs.Framer.{framing_of};
ghost use Rattle.gdb_packets.specs.Framing.{frame, framing_behind};
ghost use Rattle.gdb_packets.specs.Packets.{packet_from};
ghost use Rattle.debug_session.specs.Sessions.{Session};
ghost use Rattle.debug_session.specs.Halts.{some_bytes};
ghost use Rattle.debug_session.specs.Connections.{acknowledgement, answers_packet, hears};
ghost use Rattle.debug_session.specs.Connections.{ends_acknowledging, last_or, opening_connection};
ghost use Rattle.debug_connection.specs.Keeping.{all_of, connection_of, texts_of};
ghost use Rattle.debug_connection.specs.Speaking.{ArePut, FaultsBy, FitsEvent, HasHeard, HasSpoken};
ghost use Rattle.debug_connection.specs.Speaking.{byte_spoken};

use crate::answering::Answering;
use crate::frames::{framed_all, framed_empty, put_frames};
use crate::stops::HearStop;
use dos_io::{Sink, SinkFault};
use gdb_packets::duties::{Duty, duty_of};
use gdb_packets::framing::{Event, Framer};
use gdb_packets::openings::Plain;
use gdb_packets::packets::{Packet, read_packet};
use std::alloc::Global;
use std::marker::Model;

/// Whether packets are acknowledged, and the packet that was framed last, none at first.
#[derive(Drop)]
pub struct Connection {
    is_acknowledging: bool,
    last: Vec<u8>,
}

impl Model for Connection {
    ghost use Rattle.debug_connection.specs.Keeping.{Wire};

    ghost Value = { Wire };

    ghost view = { λ c. record { is_acknowledging = c.is_acknowledging; last = c.last.items } };
}

// This packet asks that none is acknowledged behind it.
fn ends_acknowledging(text: &[u8]) -> bool
    requires { length text.now ≤ 16384 }
    ensures { result ≡ ends_acknowledging (packet_from text.now) }
{
    match read_packet(text) {
        Packet::Alone(Plain::NoAcknowledgement) => true,
        _ => false,
    }
}

// Refuses a packet.
fn refuse<O: Sink>(out: &mut O) -> Result<(), HearStop>
    ensures put { ArePut result (codes "-" ∷ []) (O.told out.old) (O.told out.new) }
    ensures faults { FaultsBy result (O.faults out.old) (O.faults out.new) }
{
    out.put("-".as_bytes())?;
    Ok(())
}

impl Connection {
    /// A connection over which nothing was sent yet.
    pub fn new(alloc: Global) -> Connection
        ensures { (s : Session) → connection_of result s ≡ opening_connection s }
    {
        Connection {
            is_acknowledging: true,
            last: Vec::new(alloc),
        }
    }

    // Keeps the last of these, if there is one.
    fn keep_last(&mut self, mut frames: Vec<Vec<u8>>)
        ensures acknowledging { self.new.is_acknowledging ≡ self.old.is_acknowledging }
        ensures last { self.new.last ≡ last_or self.old.last (texts_of frames.items) }
    {
        if let Some(text) = frames.pop() {
            self.last = text;
        }
    }

    // Puts an answer's frames, behind a `+` where its packet is acknowledged, and keeps the last.
    fn put<O: Sink>(
        &mut self,
        out: &mut O,
        acknowledges: bool,
        frames: Vec<Vec<u8>>,
    ) -> Result<(), SinkFault>
        ensures acknowledging { OnOk result
            (self.new.is_acknowledging ≡ self.old.is_acknowledging) }
        ensures last { OnOk result
            (self.new.last ≡ last_or self.old.last (texts_of frames.items)) }
        ensures ok { OnOk result (O.told out.new ≡ grown (O.told out.old)
            (all_of (acknowledgement acknowledges ++ texts_of frames.items))) }
        ensures err { OnErr result (GrewByFront (O.told out.old) (O.told out.new)
            (all_of (acknowledgement acknowledges ++ texts_of frames.items))) }
        ensures cause { HasCause (O.faults out.old) (O.faults out.new) result }
        ensures steady { OnOk result (O.faults out.new ≡ O.faults out.old) }
    {
        put_frames(out, acknowledges, &frames)?;
        self.keep_last(frames);
        Ok(())
    }

    // Asks the session, frames what it answers, and only then puts it.
    fn answer<S: Answering, O: Sink>(
        &mut self,
        alloc: Global,
        server: &mut S,
        out: &mut O,
        acknowledges: bool,
        text: &[u8],
    ) -> Result<(), HearStop>
        requires { length text.now ≤ 16384 }
        ensures spoken { (s : Session) → S.shows server.old s
            → HasSpoken (S.shows server.new) self.new result
            (answers_packet (connection_of self.old s) acknowledges text.now)
            (O.told out.old) (O.told out.new) }
        ensures faults { FaultsBy result (O.faults out.old) (O.faults out.new) }
    {
        let replies = server.answer(text)?;
        let frames = framed_all(alloc, &replies)?;
        self.is_acknowledging = self.is_acknowledging && !ends_acknowledging(text);
        self.put(out, acknowledges, frames)?;
        Ok(())
    }

    // Answers a packet that is too long.
    fn answer_empty<O: Sink>(
        &mut self,
        alloc: Global,
        out: &mut O,
        acknowledges: bool,
    ) -> Result<(), HearStop>
        ensures acknowledging { OnOk result
            (self.new.is_acknowledging ≡ self.old.is_acknowledging) }
        ensures last { OnOk result (self.new.last ≡ frame []) }
        ensures put { ArePut result (acknowledgement acknowledges ++ frame [] ∷ [])
            (O.told out.old) (O.told out.new) }
        ensures faults { FaultsBy result (O.faults out.old) (O.faults out.new) }
    {
        let frames = framed_empty(alloc)?;
        self.put(out, acknowledges, frames)?;
        Ok(())
    }

    // Puts the last packet again, if there is one.
    fn send_again<O: Sink>(&self, out: &mut O) -> Result<(), HearStop>
        ensures put { ArePut result (some_bytes self.now.last) (O.told out.old) (O.told out.new) }
        ensures faults { FaultsBy result (O.faults out.old) (O.faults out.new) }
    {
        if !self.last.is_empty() {
            out.put(&self.last)?;
        }
        Ok(())
    }

    /// Hears an event, of a packet with this text, and puts what it asks.
    pub fn hear<S: Answering, O: Sink>(
        &mut self,
        alloc: Global,
        server: &mut S,
        out: &mut O,
        event: Event,
        text: &[u8],
    ) -> Result<(), HearStop>
        requires { FitsEvent event text.now }
        ensures spoken { (s : Session) → S.shows server.old s
            → HasSpoken (S.shows server.new) self.new result
            (hears (connection_of self.old s) (event, text.now)) (O.told out.old) (O.told out.new) }
        ensures faults { FaultsBy result (O.faults out.old) (O.faults out.new) }
    {
        match duty_of(self.is_acknowledging, event) {
            Duty::Nothing => Ok(()),
            Duty::SendAgain => self.send_again(out),
            Duty::Refuse => refuse(out),
            Duty::Answer { acknowledges } => self.answer(alloc, server, out, acknowledges, text),
            Duty::AnswerEmpty { acknowledges } => self.answer_empty(alloc, out, acknowledges),
        }
    }

    // Hears a byte.
    fn hear_byte<S: Answering, O: Sink>(
        &mut self,
        alloc: Global,
        framer: &mut Framer,
        server: &mut S,
        out: &mut O,
        byte: u8,
    ) -> Result<(), HearStop>
        ensures framing { framing_of framer.new
            ≡ framing_behind (framing_of framer.old) (byte ∷ []) }
        ensures spoken { (s : Session) → S.shows server.old s
            → HasSpoken (S.shows server.new) self.new result
            (byte_spoken (connection_of self.old s) (framing_of framer.old) byte)
            (O.told out.old) (O.told out.new) }
        ensures faults { FaultsBy result (O.faults out.old) (O.faults out.new) }
    {
        match framer.take(byte) {
            None => Ok(()),
            Some(event) => self.hear(alloc, server, out, event, framer.body()),
        }
    }

    /// Hears bytes, behind those that the framer has read, and puts what they ask.
    pub fn hear_bytes<S: Answering, O: Sink>(
        &mut self,
        alloc: Global,
        framer: &mut Framer,
        server: &mut S,
        out: &mut O,
        bytes: &[u8],
    ) -> Result<(), HearStop>
        ensures framing { OnOk result (framing_of framer.new
            ≡ framing_behind (framing_of framer.old) bytes.now) }
        ensures heard { (s : Session) → S.shows server.old s
            → HasHeard (S.shows server.new) self.new result (connection_of self.old s)
            (framing_of framer.old) bytes.now (O.told out.old) (O.told out.new) }
        ensures faults { FaultsBy result (O.faults out.old) (O.faults out.new) }
    {
        for byte in bytes {
            self.hear_byte(alloc, framer, server, out, *byte)?;
        }
        Ok(())
    }
}
