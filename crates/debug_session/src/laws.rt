// Laws of the definitions, as contracts of functions that do nothing.
ghost use Rattle.debug_session.specs.Recordings.{HistoriesEnd};

use group_moves::laws::runs_are_their_moves;

/// Each history over a log is over behind some number of moves.
pub fn histories_end()
    ensures { HistoriesEnd }
{
    runs_are_their_moves();
}
