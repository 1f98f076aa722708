// Questions in words.
ghost use Rattle.std.specs.Prelude.{◌≡◌, ◌++◌, OnOk, codes, decimal};
ghost use Rattle.dos_texts.specs.Report.{ending_word};
ghost use Rattle.dos_texts.specs.Lines.{question_text};
ghost use Rattle.debug_session.specs.Where.{misfit_text};

use debug_answers::{put_text, put_words};
use dos_texts::ending_word;
use dos_world::{Ending, Misfit, Question};
use std::alloc::AllocError;

fn put_input(out: &mut Vec<u8>, round: u32, tid: u32, max: u32) -> Result<(), AllocError>
    ensures { OnOk result (out.new.items ≡ out.old.items ++ (codes "input round " ++ decimal round
        ++ codes " thread " ++ decimal tid ++ codes " max " ++ decimal max)) }
{
    put_words(out, "input round ", round)?;
    put_words(out, " thread ", tid)?;
    put_words(out, " max ", max)
}

fn put_clock(out: &mut Vec<u8>, round: u32, tid: u32) -> Result<(), AllocError>
    ensures { OnOk result (out.new.items ≡ out.old.items
        ++ (codes "clock round " ++ decimal round ++ codes " thread " ++ decimal tid)) }
{
    put_words(out, "clock round ", round)?;
    put_words(out, " thread ", tid)
}

fn put_end(out: &mut Vec<u8>, ending: Ending, rounds: u32) -> Result<(), AllocError>
    ensures { OnOk result (out.new.items ≡ out.old.items
        ++ (codes "end " ++ ending_word ending ++ codes " rounds " ++ decimal rounds)) }
{
    put_text(out, "end ")?;
    put_text(out, ending_word(ending))?;
    put_words(out, " rounds ", rounds)
}

fn put_question(out: &mut Vec<u8>, question: Question) -> Result<(), AllocError>
    ensures { OnOk result (out.new.items ≡ out.old.items ++ question_text question) }
{
    match question {
        Question::Signals { round } => put_words(out, "signals round ", round),
        Question::Input { round, tid, max } => put_input(out, round, tid, max),
        Question::Clock { round, tid } => put_clock(out, round, tid),
        Question::End { ending, rounds } => put_end(out, ending, rounds),
    }
}

// an entry of a log, and the question that is asked in its place
fn put_misfit(out: &mut Vec<u8>, found: Misfit) -> Result<(), AllocError>
    ensures { OnOk result (out.new.items ≡ out.old.items ++ (codes "none, log entry "
        ++ decimal found.entry ++ codes " is " ++ question_text found.kept ++ codes ", asked "
        ++ question_text found.asked)) }
{
    put_words(out, "none, log entry ", found.entry)?;
    put_text(out, " is ")?;
    put_question(out, found.kept)?;
    put_text(out, ", asked ")?;
    put_question(out, found.asked)
}

/// The log's next entry and what the next move would ask, where they differ.
pub(crate) fn put_misfits(out: &mut Vec<u8>, found: Option<Misfit>) -> Result<(), AllocError>
    ensures { OnOk result (out.new.items ≡ out.old.items ++ misfit_text found) }
{
    match found {
        None => put_text(out, "none"),
        Some(found) => put_misfit(out, found),
    }
}
