// A follower's run.
ghost use Rattle.std.specs.Prelude.{◌≡◌, ◌≢◌, ◌≤◌, Err, false, IfErr};
ghost use Rattle.kernel_calls.specs.StateWorld.{HasSinkCause};
ghost use Rattle.twin_shims.specs.Follower.{new_reader};
ghost use Rattle.twin_shims.specs.Notes.{IsClosed};
ghost use Rattle.twin_runs.specs.Twins.{Followed};

use dos_io::Sink;
use dos_world::Ending;
use dpg_run::run_group;
use group_rounds::Kernel;
use kernel_calls::RunStop;
use std::sync::Wait;
use twin_shims::{Following, Reader, Taken};
use worker_pool::Workers;

/// Runs a group that was opened by the notes of its leader. Where it comes to no end the other
/// notes are taken too, so that the leader isn't held up.
///
/// It stops where the leader has stopped, where a note is of another question, or where an output
/// fails; it takes no memory.
pub fn follow_group<'a, R: Wait, O: Sink, E: Sink, W: Workers>(
    rt: &'a R,
    kernel: &mut Kernel,
    reader: Reader<'a>,
    out: &mut O,
    err: &mut E,
    workers: &mut W,
) -> (Result<Ending, RunStop>, Taken<'a>)
    requires running { kernel.old.failed ≡ false }
    requires fresh { kernel.old.state.round ≡ 1 }
    requires begins { reader ≡ new_reader reader.line }
    ensures line { result.1.line ≡ reader.entry.line }
    ensures closed { IsClosed result.1.notes }
    ensures followed { Followed kernel.old kernel.new result.0 result.1.notes
        (O.told out.old) (E.told err.old) (O.told out.new) (E.told err.new)
        (W.tally workers.old) (W.tally workers.new) }
    ensures sinks { IfErr result.0 (λ stop. HasSinkCause stop (O.faults out.old) (O.faults out.new)
        (E.faults err.old) (E.faults err.new)) }
    ensures out_steady { result.0 ≢ Err RunStop.OutFault → O.faults out.new ≡ O.faults out.old }
    ensures err_steady { result.0 ≢ Err RunStop.ErrFault → E.faults err.new ≡ E.faults err.old }
    ensures out_later { O.faults out.old ≤ O.faults out.new }
    ensures err_later { E.faults err.old ≤ E.faults err.new }
    ensures fixed { W.fixed workers.new ≡ W.fixed workers.old }
{
    let mut shim = Following::of(rt, reader);
    let result = run_group(kernel, &mut shim, out, err, workers);
    shim.look();
    let taken = shim.finish();
    (result, taken)
}
