//! Why a connection stops.

use dos_io::{HostFault, SinkFault};
use std::alloc::AllocError;

/// Why an event wasn't answered.
#[derive(Clone, Copy, Debug, PartialEq, Eq)]
pub enum HearStop {
    /// A put failed.
    SinkFault,
    /// Want of memory.
    Memory,
}

/// Why a session ended before its input did.
#[derive(Clone, Copy, Debug, PartialEq, Eq)]
pub enum ServeStop {
    /// A read failed.
    HostFault,
    /// A put failed.
    SinkFault,
    /// Want of memory.
    Memory,
}

impl From<AllocError> for HearStop {
    ghost use Rattle.std.specs.Prelude.{◌≡◌};
    ghost use Rattle.debug_connection.specs.declared.stops.HearStop.{HearStop};

    ghost from_gives = { λ _ stop. stop ≡ HearStop.Memory };

    fn from(_: AllocError) -> HearStop {
        HearStop::Memory
    }
}

impl From<SinkFault> for HearStop {
    ghost use Rattle.std.specs.Prelude.{◌≡◌};
    ghost use Rattle.debug_connection.specs.declared.stops.HearStop.{HearStop};

    ghost from_gives = { λ _ stop. stop ≡ HearStop.SinkFault };

    fn from(_: SinkFault) -> HearStop {
        HearStop::SinkFault
    }
}

impl From<HostFault> for ServeStop {
    ghost use Rattle.std.specs.Prelude.{◌≡◌};
    ghost use Rattle.debug_connection.specs.declared.stops.ServeStop.{ServeStop};

    ghost from_gives = { λ _ stop. stop ≡ ServeStop.HostFault };

    fn from(_: HostFault) -> ServeStop {
        ServeStop::HostFault
    }
}

impl From<HearStop> for ServeStop {
    ghost use Rattle.std.specs.Prelude.{◌≡◌};
    ghost use Rattle.debug_connection.specs.Stopping.{serve_stop};

    ghost from_gives = { λ stop why. why ≡ serve_stop stop };

    fn from(stop: HearStop) -> ServeStop {
        match stop {
            HearStop::SinkFault => ServeStop::SinkFault,
            HearStop::Memory => ServeStop::Memory,
        }
    }
}
