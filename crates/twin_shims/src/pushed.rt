// What went over a line, once no more comes.
ghost use Rattle.std.specs.Prelude.{◌≡◌, [], true, false};
ghost use Rattle.crossbeam_queue.specs.Passes.{view as pass_view, IsPassOf};
ghost use Rattle.twin_shims.specs.Notes.{IsClosed};
ghost use Rattle.twin_shims.specs.Order.{hand};

use crate::line::{Line, Pass};
use std::marker::Model;

/// All that a leader pushed: the last note closes.
#[derive(Drop)]
pub struct Sent<'l> {
    line: &'l Line,
    pass: Pass,
}

impl<'l> Model for Sent<'l> {
    ghost use Rattle.std.specs.Prelude.{◌≡◌, true, false, []};
    ghost use Rattle.crossbeam_queue.specs.Passes.{view as pass_view, IsPassOf};
    ghost use Rattle.twin_shims.specs.Notes.{LineState, IsClosed};
    ghost use Rattle.twin_shims.specs.Order.{hand};

    ghost Value = { LineState };

    ghost view = { λ s. record { line = s.pass.table_id; notes = (pass_view s.pass).pushed } };

    ghost invariant = { λ s. IsPassOf s.line.now.queue s.pass
        × (pass_view s.pass ≡ hand true false (pass_view s.pass).pushed [])
        × IsClosed (pass_view s.pass).pushed };
}

impl<'l> Sent<'l> {
    pub(crate) fn of(line: &'l Line, pass: Pass) -> Sent<'l>
        requires pass { IsPassOf line.now.queue pass }
        requires pushes { pass_view pass ≡ hand true false (pass_view pass).pushed [] }
        requires closed { IsClosed (pass_view pass).pushed }
        ensures { result ≡ record { line = pass.table_id; notes = (pass_view pass).pushed } }
    {
        Sent { line, pass }
    }

    /// A follower of the same line took all that was pushed.
    pub fn compare(self, taken: Taken<'_>)
        requires { taken.line ≡ self.line }
        ensures { taken.entry.notes ≡ self.entry.notes }
    {
        let Sent { line, pass } = self;
        let Taken {
            line: _,
            pass: other,
        } = taken;
        line.compare(pass, other);
    }
}

/// All that a follower took: the last note closes.
#[derive(Drop)]
pub struct Taken<'l> {
    line: &'l Line,
    pass: Pass,
}

impl<'l> Model for Taken<'l> {
    ghost use Rattle.std.specs.Prelude.{◌≡◌, true, false, []};
    ghost use Rattle.crossbeam_queue.specs.Passes.{view as pass_view, IsPassOf};
    ghost use Rattle.twin_shims.specs.Notes.{LineState, IsClosed};
    ghost use Rattle.twin_shims.specs.Order.{hand};

    ghost Value = { LineState };

    ghost view = { λ s. record { line = s.pass.table_id; notes = (pass_view s.pass).popped } };

    ghost invariant = { λ s. IsPassOf s.line.now.queue s.pass
        × (pass_view s.pass ≡ hand false true [] (pass_view s.pass).popped)
        × IsClosed (pass_view s.pass).popped };
}

impl<'l> Taken<'l> {
    pub(crate) fn of(line: &'l Line, pass: Pass) -> Taken<'l>
        requires pass { IsPassOf line.now.queue pass }
        requires pops { pass_view pass ≡ hand false true [] (pass_view pass).popped }
        requires closed { IsClosed (pass_view pass).popped }
        ensures { result ≡ record { line = pass.table_id; notes = (pass_view pass).popped } }
    {
        Taken { line, pass }
    }
}
