//! Laws of the rule of a board, which every step keeps. The functions do nothing; their contracts
//! are the laws.
ghost use Rattle.std.specs.Prelude.{ℕ, List, Option};
ghost use Rattle.atomic_table.specs.Table.{State};
ghost use Rattle.hand_board.specs.declared.rule.Knows.{Knows as Known};
ghost use Rattle.hand_board.specs.Placed.{IsUnderWay};
ghost use Rattle.hand_board.specs.Places.{AreApart, InOnePlace};
ghost use Rattle.hand_board.specs.Rule.{Holds};

use crate::rule::Part;

/// No two seats have one number in hand.
pub fn hands_are_apart<T: Part>()
    ensures { (opened : List T) (s : State (Option T) (Known T))
        → Holds T.finished (IsUnderWay T.ready T.ends T.finished) opened s → AreApart s.views }
{}

/// The pack of each number is in one hand; or it is in none, and lies at home as it opened,
/// finished, or put back under way.
pub fn each_pack_is_in_one_place<T: Part>()
    ensures { (opened : List T) (s : State (Option T) (Known T))
        → Holds T.finished (IsUnderWay T.ready T.ends T.finished) opened s
        → (i : ℕ) → InOnePlace T.finished (IsUnderWay T.ready T.ends T.finished) opened s.homes
        s.views i }
{}
