// Laws of the definitions, as contracts of functions that do nothing.
ghost use Rattle.group_walk.specs.Plays.{WalksAreTheMachine, WalksArePlays};

use group_moves::laws::runs_are_their_moves;

/// Over all answers the moves of a walk lead to where the definition's walk does.
pub fn walks_are_plays()
    ensures { WalksArePlays }
{}

/// The walk from the first moment is the machine's run in the ownership scheme, over all answers.
pub fn walks_are_the_machine()
    ensures { WalksAreTheMachine }
{
    runs_are_their_moves();
}
