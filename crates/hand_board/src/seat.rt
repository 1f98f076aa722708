// A thread's place at a board, and what it has in hand.
ghost use Rattle.std.specs.Prelude.{◌≡◌};

use crate::rule::Knows;
use atomic_table::Seat;
use std::marker::Model;

/// A thread's place at a board. Contracts see which board it is, the packs as it opened, the share,
/// the numbers found begun, those in the hand, from which number on `draw` searches, and whether it
/// has ended.
#[derive(Drop)]
pub struct BoardSeat<T> {
    pub(crate) seat: Seat<Option<T>, Knows<T>>,
    pub(crate) share: u64,
    pub(crate) next: u32,
    pub(crate) ended: bool,
}

impl<T> Model for BoardSeat<T> {
    ghost use Rattle.hand_board.specs.Seating.{Seating, Sits, seating};

    ghost Value = { Seating T };

    ghost view = { λ s. seating s.seat.table_id s.seat.me s.share s.next s.ended };

    ghost invariant = { λ s. Sits s.seat.table_id s.seat.me s.share s.next s.ended };
}

impl<T> BoardSeat<T> {
    /// The share, from 1 to 2^32: how often the seat can be split, and all of it when the seat is
    /// the only one.
    pub fn share(&self) -> u64
        ensures { result ≡ self.now.share }
    {
        self.share
    }

    /// Whether a draw of this seat, or of one that it came from, has found no pack left.
    pub fn is_ended(&self) -> bool
        ensures { result ≡ self.now.ended }
    {
        self.ended
    }
}

/// A pack in hand, with its number.
#[derive(Drop)]
pub struct Job<T> {
    pub(crate) number: u32,
    pub(crate) pack: T,
}

impl<T> Job<T> {
    ghost use Rattle.std.specs.Borrow.{sem, Lends};
    ghost use Rattle.hand_board.specs.contracts.seat.Job.{the_row};

    /// The number of the pack, from 0, by which `Board::give` knows where it goes.
    pub fn number(&self) -> u32
        ensures { result ≡ self.now.number }
    {
        self.number
    }

    /// The pack, to be worked on.
    pub fn pack_mut(&mut self) -> &mut T
        ensures* writes_back { sem 𝓛 (Lends (the_row T.row) T.row self.entry result
            (λ w. record self.old { pack = w })) }
        ensures value { result.now ≡ self.old.pack }
    {
        &mut self.pack
    }
}
