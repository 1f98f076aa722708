// A pack with a loan of what it shares, and how packs become such and come back.
ghost use Rattle.std.specs.Prelude.{◌≡◌, ◌<◌, ◌≤◌, ◌^◌, vec_len, vec_capacity};
ghost use Rattle.staying_workers.specs.Lending.{AreOfTerm, Share, packs_held};

use counted_loans::{Lender, Loan};
use hand_board::Part;
use quantum_run::{Pack, Shared, run_out, run_slice};
use std::alloc::Global;
use worker_pool::{SLICE, Task};

/// A pack, and a loan of what all packs of the call share.
#[derive(Drop)]
pub struct Held {
    /// The thread with its own pages.
    pub pack: Pack,
    /// The frames and the table.
    pub shared: Loan<Shared>,
}

impl Part for Held {
    ghost use Rattle.staying_workers.specs.Lending.{IsHeldFinished, MayRunHeld, IsHeldRunOut};

    ghost ready = { MayRunHeld };

    ghost ends = { IsHeldRunOut };

    ghost finished = { IsHeldFinished };

    fn finish(&mut self) {
        let shared = self.shared.get();
        run_out(&mut self.pack, &shared.view());
    }
}

impl Task for Held {
    fn begin(&mut self) {
        self.pack.begin();
    }

    fn go_on(&mut self) -> bool {
        let shared = self.shared.get();
        run_slice(&mut self.pack, &shared.view(), SLICE)
    }
}

/// The packs go out, each with a loan, in order.
pub(crate) fn lend(
    packs: &mut Vec<Pack>,
    mut lender: Lender<Shared, Global>,
    held: &mut Vec<Held>,
) -> Lender<Shared, Global>
    requires none { lender.out ≡ 0 }
    requires count { vec_len packs.old < 2 ^ 32 }
    requires room { (vec_len held.old ≡ 0) × (vec_len packs.old ≤ vec_capacity held.old) }
    ensures packs { packs_held held.new.items ≡ packs.old.items }
    ensures share { Share lender.value held.new.items }
    ensures term { AreOfTerm lender.term held.new.items }
    ensures lender { (result.value ≡ lender.value) × (result.term ≡ lender.term)
        × (result.out ≡ vec_len held.new) }
    ensures len { vec_len held.new ≡ vec_len packs.old }
    ensures empty { vec_len packs.new ≡ 0 }
    ensures capacity { vec_capacity packs.new ≡ vec_capacity packs.old }
{
    packs.reverse();
    while let Some(pack) = packs.pop() {
        let (rest, shared) = lender.lend();
        lender = rest;
        held.push_reserved(Held { pack, shared });
    }
    lender
}

/// The packs come back, in order, and their loans.
pub(crate) fn take_back(
    mut held: Vec<Held>,
    packs: &mut Vec<Pack>,
    mut lender: Lender<Shared, Global>,
) -> Lender<Shared, Global>
    requires room { (vec_len packs.old ≡ 0) × (vec_len held ≤ vec_capacity packs.old) }
    requires term { AreOfTerm lender.term held.items }
    requires out { (lender.out ≡ vec_len held) × (vec_len held < 2 ^ 32) }
    ensures packs { packs.new.items ≡ packs_held held.items }
    ensures capacity { vec_capacity packs.new ≡ vec_capacity packs.old }
    ensures lender { (result.value ≡ lender.value) × (result.out ≡ 0) }
{
    held.reverse();
    while let Some(one) = held.pop() {
        let Held { pack, shared } = one;
        packs.push_reserved(pack);
        lender = lender.take_back(shared);
    }
    lender
}
