//! A server of two packets, which answers as acknowledgements go.
use arrayvec::ArrayVec;
use gdb_packets::duties::{Duty, duty_of};
use gdb_packets::framing::{Framer, push_frame};
use gdb_packets::openings::Plain;
use gdb_packets::packets::{Packet, read_packet};

/// What it sends, as far as there is room.
pub type Sent = ArrayVec<u8, 256>;

fn send_byte(sent: &mut Sent, byte: u8) {
    if !sent.is_full() {
        sent.push(byte);
    }
}

fn send(sent: &mut Sent, answer: &str) {
    let body = answer.as_bytes();
    if body.len() < 200 && sent.len() < 40 {
        push_frame(sent, body);
    }
}

/// How it stands.
#[derive(Drop)]
pub struct Stub {
    framer: Framer,
    acknowledges: bool,
    last: &'static str,
    sent: Sent,
}

fn answer_of(packet: Packet) -> &'static str {
    match packet {
        Packet::Alone(Plain::StopReason) => "T05thread:p1.1;",
        Packet::Alone(Plain::NoAcknowledgement) => "OK",
        _ => "",
    }
}

fn asked(body: &[u8]) -> Packet {
    if body.len() > 16384 {
        return Packet::Unknown;
    }
    read_packet(body)
}

impl Stub {
    pub fn new() -> Self {
        Stub {
            framer: Framer::new(),
            acknowledges: true,
            last: "",
            sent: ArrayVec::new(),
        }
    }

    fn answer(&mut self, packet: Packet, acknowledges: bool) {
        if acknowledges {
            send_byte(&mut self.sent, b'+');
        }
        if packet == Packet::Alone(Plain::NoAcknowledgement) {
            self.acknowledges = false;
        }
        self.last = answer_of(packet);
        send(&mut self.sent, self.last);
    }

    pub fn take(&mut self, byte: u8) {
        let Some(event) = self.framer.take(byte) else {
            return;
        };
        match duty_of(self.acknowledges, event) {
            Duty::Nothing => {}
            Duty::SendAgain => send(&mut self.sent, self.last),
            Duty::Refuse => send_byte(&mut self.sent, b'-'),
            Duty::Answer { acknowledges } => {
                let packet = asked(self.framer.body());
                self.answer(packet, acknowledges);
            }
            Duty::AnswerEmpty { acknowledges } => self.answer(Packet::Unknown, acknowledges),
        }
    }

    pub fn sent(&self) -> &[u8] {
        self.sent.as_slice()
    }
}
