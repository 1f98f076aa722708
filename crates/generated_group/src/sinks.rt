//! Sinks that keep none of their bytes.

ghost use Rattle.std.specs.Prelude.{◌≡◌, ◌^◌, ◌-◌, [], length, min, None, Some, IsOk, OnOk, OnErr};
ghost use Rattle.sha2.specs.Sha256.{sha256};
ghost use Rattle.dos_io.specs.Outside.{grown, GrewByFront, HasCause};

use crate::trail::Trail;
use dos_io::{Sink, SinkFault};
use sha2::{Digest, Sha256};
use std::marker::Model;

/// A sink that counts its bytes and digests them. It never fails. Contracts see the bytes.
#[derive(Drop)]
pub struct DigestSink {
    hasher: Sha256,
    count: u64,
    trail: Trail,
}

impl Model for DigestSink {
    ghost use Rattle.std.specs.Prelude.{◌≡◌, ℕ, List, length, min, ◌^◌, ◌-◌};
    ghost use Rattle.sha2.specs.Hashers.{Holds256};

    ghost Value = { List ℕ };

    ghost view = { λ s. s.trail.bytes };

    ghost invariant = { λ s. Holds256 s.hasher s.trail.bytes
        × (s.count ≡ min (length s.trail.bytes) (2 ^ 64 - 1)) };
}

impl DigestSink {
    /// A sink with no bytes.
    pub fn new() -> DigestSink
        ensures { result ≡ [] }
    {
        DigestSink {
            hasher: Sha256::new(),
            count: 0,
            trail: Trail::new(),
        }
    }

    /// The number of the bytes, which stands still at 2^64 - 1, and their SHA-256 digest.
    pub fn finish(self) -> (u64, [u8; 32])
        ensures count { result.0 ≡ min (length self) (2 ^ 64 - 1) }
        ensures digest { result.1 ≡ sha256 self }
    {
        (self.count, self.hasher.finalize())
    }
}

impl Sink for DigestSink {
    ghost told = { λ s. Some s };

    ghost faults = { λ _. 0 };

    fn put(&mut self, piece: &[u8]) -> Result<(), SinkFault>
        ensures fine { IsOk result }

        // As of every sink.
        ensures ok { OnOk result (Some self.new ≡ grown (Some self.old) piece.now) }
        ensures err { OnErr result (GrewByFront (Some self.old) (Some self.new) piece.now) }
        ensures cause { HasCause 0 0 result }
        ensures steady { OnOk result (⟦<DigestSink as Sink>⟧.faults self.new
            ≡ ⟦<DigestSink as Sink>⟧.faults self.old) }
    {
        self.hasher.update(piece);
        self.count = self.count.saturating_add(piece.len() as u64);
        self.trail = Trail::then(&self.trail, piece);
        Ok(())
    }
}

/// A sink that drops its bytes. It never fails, and tells nothing.
#[derive(Drop)]
pub struct DropSink;

impl Sink for DropSink {
    ghost told = { λ _. None };

    ghost faults = { λ _. 0 };

    fn put(&mut self, _piece: &[u8]) -> Result<(), SinkFault>
        ensures fine { IsOk result }

        // As of every sink.
        ensures cause { HasCause 0 0 result }
        ensures steady { OnOk result (⟦<DropSink as Sink>⟧.faults self.new
            ≡ ⟦<DropSink as Sink>⟧.faults self.old) }
    {
        Ok(())
    }
}
