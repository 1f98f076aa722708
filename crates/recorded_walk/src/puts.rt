// What a move puts to output or to error.
ghost use Rattle.std.specs.Prelude.{◌≡◌, []};

use dos_io::{Sink, SinkFault};
use std::alloc::Global;

/// Keeps the bytes that are put. A put fails only for want of memory, and leaves them as they were.
#[derive(Drop)]
pub(crate) struct Puts {
    pub(crate) bytes: Vec<u8>,
    pub(crate) faults: u64,
}

impl Puts {
    /// Nothing was put yet.
    pub(crate) fn new(alloc: Global) -> Puts
        ensures { result.bytes.items ≡ [] }
    {
        Puts {
            bytes: Vec::new(alloc),
            faults: 0,
        }
    }

    /// Nothing was put since.
    pub(crate) fn clear(&mut self)
        ensures { self.new.bytes.items ≡ [] }
    {
        self.bytes.clear();
    }
}

impl Sink for Puts {
    ghost use Rattle.std.specs.Prelude.{Some};

    ghost told = { λ s. Some s.bytes.items };

    ghost faults = { λ s. s.faults };

    fn put(&mut self, piece: &[u8]) -> Result<(), SinkFault> {
        match self.bytes.extend_from_slice(piece) {
            Ok(()) => Ok(()),
            Err(_) => {
                self.faults = self.faults.saturating_add(1);
                Err(SinkFault)
            }
        }
    }
}
