//! The lines of a report.

ghost use Rattle.std.specs.Prelude.{◌≡◌};
ghost use Rattle.dos_texts.specs.Report.{ending_word, process_line, rounds_line};

use crate::line::LINE;
use arrayvec::ArrayString;
use dos_world::Ending;
use itoa::Buffer;

/// The line of the process of this number, which has ended with this status or lives.
pub fn process_line(number: u32, status: Option<u8>) -> ArrayString<LINE>
    ensures { result.bytes ≡ process_line number status }
{
    let mut digits = Buffer::new();
    let mut line = ArrayString::new();
    line.push_str("process ");
    line.push_str(digits.format(number));
    line.push_str(" ");
    match status {
        Some(status) => {
            line.push_str("status ");
            line.push_str(digits.format(status));
        }
        None => line.push_str("live"),
    }
    line.push_str("\n");
    line
}

/// The word of an ending.
pub fn ending_word(ending: Ending) -> &'static str
    ensures { result.now ≡ ending_word ending }
{
    match ending {
        Ending::Done => "done",
        Ending::Limit => "limit",
        Ending::Stalled => "stalled",
    }
}

/// The line of a run that has ended so, after this many rounds.
pub fn rounds_line(rounds: u32, ending: Ending) -> ArrayString<LINE>
    ensures { result.bytes ≡ rounds_line rounds ending }
{
    let mut digits = Buffer::new();
    let mut line = ArrayString::new();
    line.push_str("rounds ");
    line.push_str(digits.format(rounds));
    line.push_str(" ");
    line.push_str(ending_word(ending));
    line.push_str("\n");
    line
}
