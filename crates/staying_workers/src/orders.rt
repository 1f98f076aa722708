// What a worker that stays is told to do.
ghost use Rattle.std.specs.Prelude.{◌≡◌, []};
ghost use Rattle.worker_pool.specs.Parts.{AreReady};
ghost use Rattle.staying_workers.specs.Lending.{MayRunHeld};

use crate::held::Held;
use counted_loans::Loan;
use hand_board::{Board, BoardSeat};
use order_place::{Errand, Order};
use std::alloc::Global;
use std::sync::Arc;
use worker_pool::{Gate, share_from};

/// Run packs of this board in slices, from this number on and then those before it, until none lies
/// at home that isn't finished.
#[derive(Drop)]
pub struct PackOrder<G> {
    pub board: Loan<Board<Held>>,
    pub seat: BoardSeat<Held>,
    pub gate: Arc<G, Global>,
    pub first: u32,
    ghost seated: { (seat.board ≡ board.value.id) × (seat.hand ≡ [])
        × AreReady MayRunHeld seat.opened },
}

impl<G> Errand for PackOrder<G> {
    ghost use Rattle.std.specs.Prelude.{◌≡◌};
    ghost use Rattle.worker_pool.specs.Parts.{IsSameSeat};

    ghost same = { λ x y. IsSameSeat x.seat y.seat × (y.board ≡ x.board) };
}

impl<G: Gate> Order for PackOrder<G> {
    fn carry_out(self) -> PackOrder<G> {
        let PackOrder {
            board,
            seat,
            gate,
            first,
        } = self;
        let at = board.get();
        let door: &G = &gate;
        let seat = share_from(at, seat, door, first);
        PackOrder {
            board,
            seat,
            gate,
            first,
        }
    }
}
