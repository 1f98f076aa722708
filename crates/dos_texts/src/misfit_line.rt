//! The line of a run that asks another question than its log has next.

ghost use Rattle.std.specs.Prelude.{◌≡◌, ◌+◌, ◌≤◌, ◌++◌, decimal, length};
ghost use Rattle.arrayvec.specs.ArrayString.{array_string_len};
ghost use Rattle.dos_texts.specs.Exit.{line};
ghost use Rattle.dos_texts.specs.Lines.{misfit, question_text};

use crate::line::LINE;
use crate::report::ending_word;
use arrayvec::ArrayString;
use dos_world::{Misfit, Question};
use itoa::Buffer;

/// Writes these words and a number behind them. There must be room.
fn push_number(line: &mut ArrayString<LINE>, words: &str, value: u32)
    requires { array_string_len line.old + length words.now + 10 ≤ 192 }
    ensures bytes { line.new.bytes ≡ line.old.bytes ++ words.now ++ decimal value }
    ensures room { array_string_len line.new ≤ array_string_len line.old + length words.now + 10 }
{
    let mut number = Buffer::new();
    line.push_str(words);
    line.push_str(number.format(value));
}

/// Writes a question. There must be room.
fn push_question(line: &mut ArrayString<LINE>, question: Question)
    requires { array_string_len line.old + 55 ≤ 192 }
    ensures bytes { line.new.bytes ≡ line.old.bytes ++ question_text question }
    ensures room { array_string_len line.new ≤ array_string_len line.old + 55 }
{
    match question {
        Question::Signals { round } => push_number(line, "signals round ", round),
        Question::Input { round, tid, max } => {
            push_number(line, "input round ", round);
            push_number(line, " thread ", tid);
            push_number(line, " max ", max);
        }
        Question::Clock { round, tid } => {
            push_number(line, "clock round ", round);
            push_number(line, " thread ", tid);
        }
        Question::End { ending, rounds } => {
            line.push_str("end ");
            line.push_str(ending_word(ending));
            push_number(line, " rounds ", rounds);
        }
    }
}

/// The line of this misfit.
pub(crate) fn misfit_line(found: Misfit) -> ArrayString<LINE>
    ensures { result.bytes ≡ line (misfit found.entry found.kept found.asked) }
{
    let mut line = ArrayString::new();
    push_number(&mut line, "dos: log entry ", found.entry);
    line.push_str(" is ");
    push_question(&mut line, found.kept);
    line.push_str(", asked ");
    push_question(&mut line, found.asked);
    line.push_str("\n");
    line
}
