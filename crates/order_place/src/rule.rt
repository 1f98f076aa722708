// What is always true of a place for orders, and what its kinds of step tell the seat that takes
// them.
use atomic_table::{Join, Play, Split, TableRule};
use std::collections::LinkedList;
use std::marker::PhantomData;

/// What is handed over, and comes back.
pub trait Errand {
    // Of an order that was laid and of a later one: the later one is the same order.
    ghost same: { Self → Self → Type 0 };
}

/// What a seat knows: which end it is, the order that it has laid and not got back, and the order
/// that it has taken and not put back. No value of this type is ever made: it is what contracts see
/// of a seat.
pub struct Knows<T> {
    pub end: u64,
    pub out: LinkedList<T>,
    pub hand: LinkedList<T>,
}

/// The rule of a place.
pub struct OneOrder<T> {
    of: PhantomData<T>,
}

impl<T: Errand> TableRule<Option<T>, Knows<T>, u64> for OneOrder<T> {
    ghost use Rattle.order_place.specs.Rule.{Holds, alone};

    ghost holds = { λ _. Holds T.same };

    ghost first = { λ _. alone 0 };
}

/// The empty slot goes to the only seat.
pub(crate) struct Open;

impl<T> Play<Option<T>, Knows<T>> for Open {
    ghost use Rattle.order_place.specs.Rule.{Opened};

    ghost then = { Opened };
}

/// The order in the slot lies there.
pub(crate) struct Lay;

impl<T> Play<Option<T>, Knows<T>> for Lay {
    ghost use Rattle.order_place.specs.Rule.{Laid};

    ghost then = { Laid };
}

/// Where an order lies there, the worker has it.
pub(crate) struct Take;

impl<T> Play<Option<T>, Knows<T>> for Take {
    ghost use Rattle.order_place.specs.Rule.{Taken};

    ghost then = { Taken };
}

/// The order in the slot lies there, carried out.
pub(crate) struct PutBack;

impl<T> Play<Option<T>, Knows<T>> for PutBack {
    ghost use Rattle.order_place.specs.Rule.{HasPutBack};

    ghost then = { HasPutBack };
}

/// Where the word is as told, the caller has its order again.
pub(crate) struct Fetch<T> {
    of: PhantomData<T>,
}

impl<T: Errand> Play<Option<T>, Knows<T>> for Fetch<T> {
    ghost use Rattle.order_place.specs.Rule.{Fetched};

    ghost then = { Fetched T.same };
}

/// The caller has its order again, wherever it lay.
pub(crate) struct Settle<T> {
    of: PhantomData<T>,
}

impl<T: Errand> Play<Option<T>, Knows<T>> for Settle<T> {
    ghost use Rattle.order_place.specs.Rule.{Settled};

    ghost then = { Settled T.same };
}

/// One seat becomes the caller's and the worker's.
pub(crate) struct Divide;

impl<T> Split<Knows<T>> for Divide {
    ghost use Rattle.std.specs.Prelude.{[]};
    ghost use Rattle.order_place.specs.Rule.{giver, taker};

    ghost left = { λ _. giver [] };

    ghost right = { λ _. taker [] };
}

/// The caller has both seats again.
pub(crate) struct Unite;

impl<T> Join<Knows<T>> for Unite {
    ghost use Rattle.order_place.specs.Rule.{alone, with_both};

    ghost both = { λ v _. with_both v };

    ghost spent = { alone 4 };
}
