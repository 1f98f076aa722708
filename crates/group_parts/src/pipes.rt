// Pipes of a saved group.
ghost use Rattle.std.specs.Prelude.{◌≡◌, ◌<◌, ◌≤◌, ◌^◌, ℕ, All, IfOk, length};
ghost use Rattle.kernel_objects.specs.Pipework.{FitsPipe, vector_bytes};
ghost use Rattle.group_parts.specs.PipeEnds.{AreShut, HasFewEnds, HaveEnds, HaveFewEnds};

use crate::ends::count_ends;
use group_text::ProcessRecord;
use kernel_objects::Pipes;
use std::alloc::{AllocError, Global};

/// Pipes of these bytes, with the ends that the processes have.
pub fn restore_pipes(
    alloc: Global,
    pipes: &[Vec<u8>],
    processes: &[ProcessRecord],
) -> Result<Pipes, AllocError>
    requires count { length pipes.now ≡ 64 }
    requires fits { All FitsPipe pipes.now }
    requires each { All HasFewEnds processes.now }
    requires few { HaveFewEnds processes.now }
    requires closed { AreShut processes.now (vector_bytes pipes.now) }
    ensures bytes { IfOk result (λ p. p.bytes ≡ vector_bytes pipes.now) }
    ensures ends { IfOk result (λ p. HaveEnds processes.now p.readers p.writers) }
{
    let readers = count_ends(processes, false);
    let writers = count_ends(processes, true);
    Pipes::restore(alloc, pipes, readers, writers)
}
