// A sink of bytes.
ghost use Rattle.std.specs.Prelude.{◌≡◌, List, ℕ, Option, OnOk, OnErr};
ghost use Rattle.dos_io.specs.Outside.{grown, GrewByFront, HasCause};

use thiserror::Error;

/// A sink did not take the whole of a piece.
#[derive(Clone, Copy, Debug, PartialEq, Eq, Error)]
#[error("the write failed")]
pub struct SinkFault;

/// Takes bytes, piece after piece, as standard output does.
pub trait Sink {
    /// The bytes put so far, where the sink tells them.
    ghost told: { Self → Option (List ℕ) };

    /// How often a put has failed. It never falls, and stands still at 2^64 - 1.
    ghost faults: { Self → ℕ };

    /// Puts the piece behind the bytes so far. After a fault a front of it may have been put, of
    /// any length.
    fn put(&mut self, piece: &[u8]) -> Result<(), SinkFault>
        ensures ok { OnOk result (told self.new ≡ grown (told self.old) piece.now) }
        ensures err { OnErr result (GrewByFront (told self.old) (told self.new) piece.now) }
        ensures cause { HasCause (faults self.old) (faults self.new) result }
        ensures steady { OnOk result (faults self.new ≡ faults self.old) };
}
