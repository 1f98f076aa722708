// A pack with the view that is lent to it, and how packs become such and come back.
ghost use Rattle.std.specs.Prelude.{◌≡◌, ◌≤◌, vec_len, vec_capacity};
ghost use Rattle.quantum_run.specs.Packs.{seen_by_view};
ghost use Rattle.worker_pool.specs.Lending.{See, packs_of};

use crate::crew::Task;
use crate::slices::SLICE;
use hand_board::Part;
use quantum_run::{Pack, View, run_out, run_slice};

/// A pack, and the view that is lent to it: what the pack becomes depends on both.
#[derive(Drop)]
pub struct Lent<'a> {
    /// The thread with its own pages.
    pub pack: Pack,
    /// The frames and the spaces, which all packs are lent.
    pub view: &'a View<'a>,
}

impl<'a> Part for Lent<'a> {
    ghost use Rattle.worker_pool.specs.Lending.{IsFinished, MayRunPack, IsRunOut};

    ghost ready = { MayRunPack };

    ghost ends = { IsRunOut };

    ghost finished = { IsFinished };

    fn finish(&mut self) {
        run_out(&mut self.pack, self.view);
    }
}

impl<'a> Task for Lent<'a> {
    fn begin(&mut self) {
        self.pack.begin();
    }

    fn go_on(&mut self) -> bool {
        run_slice(&mut self.pack, self.view, SLICE)
    }
}

/// The packs go out, each with the view, in order.
pub(crate) fn lend<'a>(packs: &mut Vec<Pack>, view: &'a View<'a>, lent: &mut Vec<Lent<'a>>)
    requires { (vec_len lent.old ≡ 0) × (vec_len packs.old ≤ vec_capacity lent.old) }
    ensures packs { packs_of lent.new.items ≡ packs.old.items }
    ensures views { See (seen_by_view view.now) lent.new.items }
    ensures len { vec_len lent.new ≡ vec_len packs.old }
    ensures empty { vec_len packs.new ≡ 0 }
    ensures capacity { vec_capacity packs.new ≡ vec_capacity packs.old }
{
    packs.reverse();
    while let Some(pack) = packs.pop() {
        lent.push_reserved(Lent { pack, view });
    }
}

/// The packs come back, in order.
pub(crate) fn take_back<'a>(mut lent: Vec<Lent<'a>>, packs: &mut Vec<Pack>)
    requires { (vec_len packs.old ≡ 0) × (vec_len lent ≤ vec_capacity packs.old) }
    ensures packs { packs.new.items ≡ packs_of lent.entry.items }
    ensures capacity { vec_capacity packs.new ≡ vec_capacity packs.old }
{
    lent.reverse();
    while let Some(Lent { pack, view: _ }) = lent.pop() {
        packs.push_reserved(pack);
    }
}
