// A move that is made by the answers of a log.
ghost use Rattle.std.specs.Prelude.{◌≡◌, ◌+◌, ◌-◌, ◌^◌, ◌<◌, ◌≤◌, ℕ, List, false, is_err};
ghost use Rattle.std.specs.Prelude.{IsErrOf, IsSome, OnOk, length};
ghost use Rattle.dos_io.specs.Shims.{HasNoEnd};
ghost use Rattle.dos_world.specs.declared.Misfit.{Misfit};
ghost use Rattle.group_moves.specs.Moments.{kind_at};
ghost use Rattle.kernel_calls.specs.declared.state.RunStop.TheVariants as stops;
ghost use Rattle.shim_log.specs.Replay.{FollowsLog, entries_used, replayer_state};
ghost use Rattle.recorded_walk.specs.Following.{log_entries};
ghost use Rattle.recorded_walk.specs.Tracks.{MisfitsBy, MovesNowhere, MovesOnTo, moment_sent};

use crate::puts::Puts;
use dos_io::GroupBorder;
use group_walk::Walker;
use kernel_calls::RunStop;
use shim_log::Replayer;

/// Makes the next move of a walk by the answers of a log, and keeps what it puts. Where it stops by
/// a misfit, the log doesn't answer the move; else it stops for want of memory.
pub(crate) fn make_by_log(
    walker: &mut Walker,
    shim: &mut Replayer,
    out: &mut Puts,
    err: &mut Puts,
) -> Result<(), RunStop>
    requires running { walker.old.failed ≡ false }
    requires next { (o e : List ℕ)
        → IsSome (kind_at walker.old.config.rounds (moment_sent walker.old o e)) }
    requires few { walker.old.made < 2 ^ 64 - 1 }
    requires told { HasNoEnd (replayer_state shim.old).told }
    ensures goes { OnOk result (MovesOnTo walker.old shim.old walker.new shim.new
        out.new.bytes.items err.new.bytes.items) }
    ensures misfit { (found : Misfit) → IsErrOf result (stops.Misfit found)
        → MovesNowhere walker.old shim.old }
    ensures found { (found : Misfit) → IsErrOf result (stops.Misfit found)
        → MisfitsBy found walker.old shim.old }
    ensures told { OnOk result (HasNoEnd (replayer_state shim.new).told) }
    ensures used { OnOk result (entries_used shim.new ≤ length (log_entries shim.new.log)) }
    ensures failed { walker.new.failed ≡ is_err result }
    ensures config { walker.new.config ≡ walker.old.config }
    ensures made { walker.new.made ≤ walker.old.made + 1 }
    ensures follows { FollowsLog shim.old shim.new }
{
    out.clear();
    err.clear();
    let mut border = GroupBorder { shim, out, err };
    match walker.make(&mut border) {
        Ok(()) => {
            shim.look();
            Ok(())
        }
        Err(stop) => {
            shim.look();
            Err(stop)
        }
    }
}
