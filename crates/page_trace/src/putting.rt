//! The lines of the frames whose owners have changed since they were marked.
ghost use Rattle.std.specs.Prelude.{◌≡◌, OnOk, OnErr};
ghost use Rattle.dos_io.specs.Outside.{grown, GrewByFront, HasCause};
ghost use Rattle.page_store.specs.Store.{AreMarked, IsFirstChanged, marked_at, owner_at};
ghost use Rattle.group_rounds.specs.Kernels.{kernel_marked};
ghost use Rattle.page_trace.specs.Lines.{change_lines};
ghost use Rattle.page_trace.specs.Trace.{change_at, changes};

use crate::lines::change_line;
use dos_io::{Sink, SinkFault};
use group_rounds::Kernel;
use page_store::Frames;

// Puts the line of a frame whose owner has changed.
fn put_change<T: Sink>(
    round: u32,
    frame: u32,
    frames: &Frames,
    lines: &mut T,
) -> Result<(), SinkFault>
    requires marked { AreMarked frames.now }
    requires changed { IsFirstChanged frames.now.marked frames.now.owners frame }
    ensures ok { OnOk result (T.told lines.new ≡ grown (T.told lines.old) (change_lines
        (change_at round frame (marked_at frames.now frame) (owner_at frames.now frame)))) }
    ensures err { OnErr result (GrewByFront (T.told lines.old) (T.told lines.new) (change_lines
        (change_at round frame (marked_at frames.now frame) (owner_at frames.now frame)))) }
    ensures cause { HasCause (T.faults lines.old) (T.faults lines.new) result }
    ensures steady { OnOk result (T.faults lines.new ≡ T.faults lines.old) }
{
    let before = frames.marked_owner(frame);
    let after = frames.owner(frame);
    lines.put(change_line(round, frame, before, after).as_str().as_bytes())
}

/// Puts a line for each frame whose owner isn't the one that was marked, in rising order, and marks
/// the owners as they are now. The cost goes by what has changed. After a fault a front of the
/// lines was put.
pub fn put_changes<T: Sink>(kernel: &mut Kernel, round: u32, lines: &mut T) -> Result<(), SinkFault>
    requires { AreMarked kernel.old.state.frames }
    ensures kernel { kernel.new ≡ kernel_marked kernel.old kernel.new.state.frames.marked }
    ensures marked { OnOk result (kernel.new.state.frames.marked
        ≡ kernel.new.state.frames.owners) }
    ensures ok { OnOk result (T.told lines.new ≡ grown (T.told lines.old) (change_lines (changes
        round kernel.old.state.frames.marked kernel.old.state.frames.owners))) }
    ensures err { OnErr result (GrewByFront (T.told lines.old) (T.told lines.new) (change_lines
        (changes round kernel.old.state.frames.marked kernel.old.state.frames.owners))) }
    ensures cause { HasCause (T.faults lines.old) (T.faults lines.new) result }
    ensures steady { OnOk result (T.faults lines.new ≡ T.faults lines.old) }
{
    while let Some(frame) = kernel.state().frames.changed() {
        put_change(round, frame, &kernel.state().frames, lines)?;
        kernel.settle(frame);
    }
    Ok(())
}
