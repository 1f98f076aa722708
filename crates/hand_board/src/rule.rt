// What is always true of a board, and what its kinds of step tell the seat that takes them.
ghost use Rattle.std.specs.Prelude.{◌≡◌};

use atomic_table::{Join, Play, Split, TableRule};
use std::collections::LinkedList;
use std::marker::PhantomData;
use std::snapshot::Snapshot;

/// A value that can be worked on until it is finished: what threads take from a board and give
/// back.
pub trait Part {
    // What a value needs to be worked on.
    ghost ready: { Self → Type 0 };

    // Of a value and of a later one: the later one is where work on the earlier one ends.
    ghost ends: { Self → Self → Type 0 };

    // Of a value as the board opened, and of a later value: the later one is finished from it.
    ghost finished: { Self → Self → Type 0 };

    /// Works on it until its end.
    fn finish(&mut self)
        requires { ready self.old }
        ensures { Self.ends self.old self.new };
}

/// What a seat knows: the packs as the board opened, its share, the numbers in its hand, and those
/// that it has found begun. No value of this type is ever made: it is what contracts see of a seat.
pub struct Knows<T> {
    pub opened: LinkedList<T>,
    pub share: u64,
    pub hand: LinkedList<u32>,
    pub found: LinkedList<u32>,
}

/// The rule of a board.
pub struct Once<T> {
    part: PhantomData<T>,
}

impl<T: Part> TableRule<Option<T>, Knows<T>, Snapshot<Vec<T>>> for Once<T> {
    ghost use Rattle.hand_board.specs.Placed.{IsUnderWay, first_view};
    ghost use Rattle.hand_board.specs.Rule.{Holds};

    ghost holds = { λ key. Holds T.finished (IsUnderWay T.ready T.ends T.finished)
        key.value.items };

    ghost first = { λ key. first_view key.value.items };
}

/// The word of a number goes from 0 to 1, if it is 0. Either way the number is found.
pub(crate) struct Claim;

impl<T> Play<Option<T>, Knows<T>> for Claim {
    ghost use Rattle.hand_board.specs.Rule.{Claimed};

    ghost then = { Claimed };
}

/// The word of a number goes from 3 to 1, if it is 3: the pack that was put back is in hand again.
pub(crate) struct Resume<T> {
    part: PhantomData<T>,
}

impl<T: Part> Play<Option<T>, Knows<T>> for Resume<T> {
    ghost use Rattle.hand_board.specs.Placed.{IsUnderWay};
    ghost use Rattle.hand_board.specs.Rule.{Resumed};

    ghost then = { Resumed (IsUnderWay T.ready T.ends T.finished) };
}

/// The slot of a number in hand becomes the one that the seat's next exchange is with.
pub(crate) struct Bring;

impl<T> Play<Option<T>, Knows<T>> for Bring {
    ghost use Rattle.hand_board.specs.Rule.{Brought};

    ghost then = { Brought };
}

/// The word of the number at the front of the hand becomes 2 or 3, and the number leaves the hand.
pub(crate) struct Give;

impl<T> Play<Option<T>, Knows<T>> for Give {
    ghost use Rattle.hand_board.specs.Rule.{Given};

    ghost then = { Given };
}

/// A look at the rule: no share is above the whole.
pub(crate) struct Weigh;

impl<T> Play<Option<T>, Knows<T>> for Weigh {
    ghost use Rattle.hand_board.specs.Rule.{Weighed};

    ghost then = { Weighed };
}

/// The share is divided; the hand stays with the first seat.
pub(crate) struct Halve;

impl<T> Split<Knows<T>> for Halve {
    ghost use Rattle.hand_board.specs.Placed.{left_half, right_half};

    ghost left = { left_half };

    ghost right = { right_half };
}

/// The shares are added, and what both have found is put together.
pub(crate) struct Merge;

impl<T> Join<Knows<T>> for Merge {
    ghost use Rattle.hand_board.specs.Placed.{spent_view};
    ghost use Rattle.hand_board.specs.Rule.{joined};

    ghost both = { joined };

    ghost spent = { spent_view };
}
