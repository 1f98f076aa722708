//! The lines of logs that aren't replayed.

ghost use Rattle.std.specs.Prelude.{◌≡◌, ◌≤◌, ◌++◌, decimal, length};
ghost use Rattle.arrayvec.specs.ArrayString.{array_string_len};
ghost use Rattle.dos_texts.specs.Exit.{line, log_message};
ghost use Rattle.dos_texts.specs.Lines.{log_refused, images_differ, digests_differ, refusal_text};

use crate::line::{LINE, push_digest, push_place, text_line};
use arrayvec::ArrayString;
use itoa::Buffer;
use log_files::LogRefusal;
use log_text::LogError;

/// Writes what is wrong with a log.
fn push_error(line: &mut ArrayString<LINE>, error: LogError)
    requires { array_string_len line.old ≤ 32 }
    ensures bytes { line.new.bytes ≡ line.old.bytes ++ refusal_text error }
    ensures room { array_string_len line.new ≤ 96 }
{
    match error {
        LogError::Short(place) => push_place(line, "short at ", place),
        LogError::Magic => line.push_str("magic"),
        LogError::Version(version) => push_place(line, "version ", u64::from(version)),
        LogError::Header(place) => push_place(line, "header at ", place),
        LogError::Entry(place) => push_place(line, "entry at ", place),
        LogError::AfterEnd(place) => push_place(line, "after end at ", place),
    }
}

/// The line of a file that is no log.
fn refused_line(error: LogError) -> ArrayString<LINE>
    ensures { result.bytes ≡ line (log_refused error) }
{
    let mut line = ArrayString::new();
    line.push_str("dos: log refused: ");
    push_error(&mut line, error);
    line.push_str("\n");
    line
}

/// The line of a log of another number of images than are given.
fn images_line(logged: u32, given: u32) -> ArrayString<LINE>
    ensures { result.bytes ≡ line (images_differ logged given) }
{
    let mut number = Buffer::new();
    let mut line = ArrayString::new();
    line.push_str("dos: log has ");
    line.push_str(number.format(logged));
    line.push_str(" images, given ");
    line.push_str(number.format(given));
    line.push_str("\n");
    line
}

/// The line of an image with another digest than the log has.
fn digest_line(image: u32, digest: &[u8; 32], logged: &[u8; 32]) -> ArrayString<LINE>
    ensures { result.bytes ≡ line (digests_differ image digest.now logged.now) }
{
    let mut number = Buffer::new();
    let mut line = ArrayString::new();
    line.push_str("dos: image ");
    line.push_str(number.format(image));
    line.push_str(" has digest ");
    push_digest(&mut line, digest);
    line.push_str(", log has ");
    push_digest(&mut line, logged);
    line.push_str("\n");
    line
}

/// The line of a log that isn't replayed.
pub(crate) fn log_line(why: LogRefusal) -> ArrayString<LINE>
    ensures { result.bytes ≡ line (log_message why) }
{
    match why {
        LogRefusal::TooLong => text_line("dos: log too long\n"),
        LogRefusal::Refused(error) => refused_line(error),
        LogRefusal::Images(logged, given) => images_line(logged, given),
        LogRefusal::Digest(image, digest, logged) => digest_line(image, &digest, &logged),
    }
}
