//! What an event asks of a server, with acknowledgements or without.
ghost use Rattle.std.specs.Prelude.{◌≡◌};
ghost use Rattle.gdb_packets.specs.Duties.{duty_of};

use crate::framing::Event;

/// What is to be done at an event.
#[derive(Clone, Copy, Debug, PartialEq, Eq)]
pub enum Duty {
    Nothing,
    /// The last packet is sent again.
    SendAgain,
    /// `-` is sent, and the packet has no other effect.
    Refuse,
    /// The packet is answered, behind a `+` where it is acknowledged.
    Answer { acknowledges: bool },
    /// The empty answer is sent, behind a `+` where the packet is acknowledged.
    AnswerEmpty { acknowledges: bool },
}

/// What an event asks.
pub fn duty_of(acknowledges: bool, event: Event) -> Duty
    ensures { result ≡ duty_of acknowledges event }
{
    match event {
        Event::Again => {
            if acknowledges {
                Duty::SendAgain
            } else {
                Duty::Nothing
            }
        }
        Event::Packet { is_sound } => {
            if acknowledges && !is_sound {
                Duty::Refuse
            } else {
                Duty::Answer { acknowledges }
            }
        }
        Event::TooLong { is_sound } => {
            if acknowledges && !is_sound {
                Duty::Refuse
            } else {
                Duty::AnswerEmpty { acknowledges }
            }
        }
    }
}
