// Where a session stands, in lines.
ghost use Rattle.std.specs.Prelude.{◌≡◌, ◌++◌, IfOk, OnOk};
ghost use Rattle.kernel_objects.specs.Pipework.{vector_bytes};
ghost use Rattle.debug_session.specs.Positions.{Position};
ghost use Rattle.debug_session.specs.Recordings.{Recording};
ghost use Rattle.debug_session.specs.Where.{where_lines};
ghost use Rattle.debug_where.specs.Places.{next_words, moment_words, last_words, next_line};
ghost use Rattle.debug_where.specs.Places.{used_words, lines_here, IsHere};

use crate::moves::{phase_words, put_ended, put_last, put_move};
use crate::questions::put_misfits;
use debug_answers::{put_text, put_words};
use dos_world::{Ending, Misfit};
use group_walk::{MoveKind, Phase};
use std::alloc::{AllocError, Global};

/// What comes next.
#[derive(Clone, Copy)]
pub enum Next {
    /// This move.
    Follows(MoveKind),
    /// Nothing: the run has ended so.
    HasEnded(Ending),
    /// Nothing: the move would ask another question than the log's next entry is of.
    Misfits(Option<Misfit>),
}

/// Where a session stands.
#[derive(Clone, Copy)]
pub struct Here {
    /// How many rounds have begun.
    pub begun: u32,
    /// How many moves were made since the last of them did.
    pub made: u64,
    /// The phase in which the next move is made.
    pub phase: Phase,
    /// The move that led here, where one did.
    pub last: Option<MoveKind>,
    /// What comes next.
    pub next: Next,
    /// How many of the log's entries were used.
    pub used: u32,
    /// How many it has.
    pub entries: u64,
}

fn put_next(out: &mut Vec<u8>, next: Next) -> Result<(), AllocError>
    ensures { OnOk result (out.new.items ≡ out.old.items ++ next_words next) }
{
    match next {
        Next::Follows(kind) => put_move(out, kind),
        Next::HasEnded(ending) => put_ended(out, ending),
        Next::Misfits(found) => put_misfits(out, found),
    }
}

fn moment_line(alloc: Global, begun: u32, made: u64, phase: Phase) -> Result<Vec<u8>, AllocError>
    ensures { IfOk result (λ line. line.items ≡ moment_words begun made phase) }
{
    let mut line = Vec::new(alloc);
    put_words(&mut line, "round ", begun)?;
    put_words(&mut line, " move ", made)?;
    put_text(&mut line, ", ")?;
    put_text(&mut line, phase_words(phase))?;
    line.push(b'\n')?;
    Ok(line)
}

fn last_line(alloc: Global, last: Option<MoveKind>) -> Result<Vec<u8>, AllocError>
    ensures { IfOk result (λ line. line.items ≡ last_words last) }
{
    let mut line = Vec::new(alloc);
    put_text(&mut line, "last: ")?;
    put_last(&mut line, last)?;
    line.push(b'\n')?;
    Ok(line)
}

fn next_line(alloc: Global, next: Next) -> Result<Vec<u8>, AllocError>
    ensures { IfOk result (λ line. line.items ≡ next_line next) }
{
    let mut line = Vec::new(alloc);
    put_text(&mut line, "next: ")?;
    put_next(&mut line, next)?;
    line.push(b'\n')?;
    Ok(line)
}

fn log_line(alloc: Global, used: u32, entries: u64) -> Result<Vec<u8>, AllocError>
    ensures { IfOk result (λ line. line.items ≡ used_words used entries) }
{
    let mut line = Vec::new(alloc);
    put_words(&mut line, "log entry ", used)?;
    put_words(&mut line, " of ", entries)?;
    line.push(b'\n')?;
    Ok(line)
}

// the four lines
fn lines_here(alloc: Global, here: &Here) -> Result<Vec<Vec<u8>>, AllocError>
    ensures { IfOk result (λ lines. vector_bytes lines.items ≡ lines_here here.now) }
{
    let mut lines = Vec::new(alloc);
    lines.push(moment_line(alloc, here.begun, here.made, here.phase)?)?;
    lines.push(last_line(alloc, here.last)?)?;
    lines.push(next_line(alloc, here.next)?)?;
    lines.push(log_line(alloc, here.used, here.entries)?)?;
    Ok(lines)
}

/// The lines of a session that stands here.
pub fn where_lines(alloc: Global, here: &Here) -> Result<Vec<Vec<u8>>, AllocError>
    ensures { IfOk result (λ lines. (r : Recording) (at : Position) → IsHere here.now r at
        → vector_bytes lines.items ≡ where_lines r at) }
{
    lines_here(alloc, here)
}
