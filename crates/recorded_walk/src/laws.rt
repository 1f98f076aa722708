// Laws of the definitions, as contracts of functions that do nothing.
ghost use Rattle.recorded_walk.specs.Laws.{HistoriesStart};

use group_moves::laws::runs_are_their_moves;

/// A history ends, whatever its images and its entries are: it has a start.
pub fn histories_start()
    ensures { HistoriesStart }
{
    runs_are_their_moves();
}
