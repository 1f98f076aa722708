//! Why a run that is traced comes to no ending.
use kernel_calls::RunStop;
use std::alloc::AllocError;

/// Why a run that is traced comes to no ending.
#[derive(Clone, Copy, Debug, PartialEq, Eq)]
pub enum TraceStop {
    /// The run stopped.
    Run(RunStop),
    /// The sink of the lines failed.
    LineFault,
    /// Want of memory, before the first round.
    Memory,
}

impl From<AllocError> for TraceStop {
    ghost use Rattle.std.specs.Prelude.{◌≡◌};
    ghost use Rattle.page_trace.specs.declared.stop.TraceStop.TheVariants.{Memory};

    ghost from_gives = { λ _ e. e ≡ Memory };

    fn from(_e: AllocError) -> TraceStop {
        TraceStop::Memory
    }
}
