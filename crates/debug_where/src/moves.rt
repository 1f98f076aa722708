// Moves and phases in words.
ghost use Rattle.std.specs.Prelude.{◌≡◌, ◌++◌, OnOk, codes};
ghost use Rattle.debug_session.specs.Where.{move_text, last_text, ending_text};
ghost use Rattle.group_walk.specs.Walks.{kind_named, kinds_named};
ghost use Rattle.debug_where.specs.Places.{phase_words};

use debug_answers::{put_text, put_words};
use dos_world::Ending;
use group_walk::{MoveKind, Phase};
use std::alloc::AllocError;

/// The phase in which the next move is made.
pub(crate) fn phase_words(phase: Phase) -> &'static str
    ensures { result.now ≡ phase_words phase }
{
    match phase {
        Phase::Between => "between rounds",
        Phase::Parallel => "parallel phase",
        Phase::Serial => "serial phase",
        Phase::Ended(_) => "between rounds",
    }
}

/// A move.
pub(crate) fn put_move(out: &mut Vec<u8>, kind: MoveKind) -> Result<(), AllocError>
    ensures { OnOk result (out.new.items ≡ out.old.items ++ move_text (kind_named kind)) }
{
    match kind {
        MoveKind::Begins => put_text(out, "a round begins"),
        MoveKind::Runs { thread } => {
            put_words(out, "thread ", thread)?;
            put_text(out, " runs an instruction")
        }
        MoveKind::IsServed { thread } => {
            put_words(out, "thread ", thread)?;
            put_text(out, " is served")
        }
        MoveKind::Faults { thread, number } => {
            put_words(out, "thread ", thread)?;
            put_words(out, " faults with ", number)
        }
    }
}

/// The move that led here, where one did.
pub(crate) fn put_last(out: &mut Vec<u8>, last: Option<MoveKind>) -> Result<(), AllocError>
    ensures { OnOk result (out.new.items ≡ out.old.items ++ last_text (kinds_named last)) }
{
    match last {
        None => put_text(out, "none"),
        Some(kind) => put_move(out, kind),
    }
}

fn ending_text(ending: Ending) -> &'static str
    ensures { result.now ≡ ending_text ending }
{
    match ending {
        Ending::Done => "done",
        Ending::Stalled => "stalled",
        Ending::Limit => "at its limit",
    }
}

/// That the run has ended so.
pub(crate) fn put_ended(out: &mut Vec<u8>, ending: Ending) -> Result<(), AllocError>
    ensures { OnOk result (out.new.items
        ≡ out.old.items ++ (codes "none, the group is " ++ ending_text ending)) }
{
    put_text(out, "none, the group is ")?;
    put_text(out, ending_text(ending))
}
