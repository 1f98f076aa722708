//! How a call ends: its status, and the line that says so.

ghost use Rattle.std.specs.Prelude.{◌≡◌, ◌≢◌, ◌≤◌, ◌⊎◌};
ghost use Rattle.dos_io.specs.Outside.{GrewByFront, Rose, grown};
ghost use Rattle.dos_texts.specs.Exit.{IsStatus, ending_status, line_of, refusal_status};

use crate::group_lines::group_line;
use crate::image_lines::{long_line, refused_line, room_line};
use crate::line::{LINE, text_line};
use crate::log_lines::log_line;
use crate::misfit_line::misfit_line;
use arrayvec::ArrayString;
use dos_io::Sink;
use dos_world::{Ending, Misfit};
use elf_image::ImageError;
use group_files::SavedRefusal;
use log_files::LogRefusal;
use std::alloc::AllocFailed;

/// The exit status of a call whose run ended so. An inspected image is done.
pub fn ending_status(ending: Ending) -> u8
    ensures { result ≡ ending_status ending }
{
    match ending {
        Ending::Done => 0,
        Ending::Limit => 7,
        Ending::Stalled => 8,
    }
}

/// Why a call came to no report. Images are counted from 1, in the order of the words.
#[derive(Clone, Copy, PartialEq, Eq)]
pub enum Refusal {
    /// The words ask for nothing.
    Words,
    /// The file of this image is too long.
    TooLong(u32),
    /// The file of this image is refused for this, which is never want of memory.
    Image(u32, ImageError),
    /// The images need so many frames, and there are so many.
    NoRoom(u64, u32),
    /// The log isn't replayed with the images, for this.
    Log(LogRefusal),
    /// The run isn't gone on with from the saved group, for this.
    Group(SavedRefusal),
    /// The run asks another question than the log has next.
    Misfit(Misfit),
    /// A file couldn't be read or written.
    Files,
    /// The host failed.
    Host,
    /// A put to output or error failed.
    Sink,
    /// The log has no room for what a question may bring.
    LogFull,
    /// Memory ran out.
    Memory,
}

impl<T: Drop> From<AllocFailed<T>> for Refusal {
    ghost use Rattle.std.specs.Prelude.{◌≡◌};
    ghost use Rattle.dos_texts.specs.declared.refusal.Refusal.TheVariants.{Memory};

    ghost from_gives = { λ _ e. e ≡ Memory };

    fn from(_failed: AllocFailed<T>) -> Refusal {
        Refusal::Memory
    }
}

impl Refusal {
    /// The exit status then.
    #[tactic(auto, unfolding(crate::specs::Exit::refusal_status))]
    pub fn status(self) -> u8
        ensures { result ≡ refusal_status self }
    {
        match self {
            Refusal::Words => 2,
            Refusal::TooLong(_) => 3,
            Refusal::Image(_, _) => 3,
            Refusal::NoRoom(_, _) => 3,
            Refusal::Log(_) => 4,
            Refusal::Group(_) => 11,
            Refusal::Misfit(_) => 4,
            Refusal::Files => 5,
            Refusal::Host => 5,
            Refusal::Sink => 6,
            Refusal::LogFull => 10,
            Refusal::Memory => 9,
        }
    }

    /// The line that says so. Where a sink failed there is none, since nothing more is written.
    #[tactic(auto, unfolding(crate::specs::Exit::line_of))]
    pub fn line(self) -> ArrayString<LINE>
        ensures { result.bytes ≡ line_of self }
    {
        match self {
            Refusal::Words => text_line("dos: words refused\n"),
            Refusal::TooLong(image) => long_line(image),
            Refusal::Image(image, error) => refused_line(image, error),
            Refusal::NoRoom(needed, frames) => room_line(needed, frames),
            Refusal::Log(why) => log_line(why),
            Refusal::Group(why) => group_line(why),
            Refusal::Misfit(found) => misfit_line(found),
            Refusal::Files => text_line("dos: file fault\n"),
            Refusal::Host => text_line("dos: host fault\n"),
            Refusal::Sink => text_line(""),
            Refusal::LogFull => text_line("dos: log full\n"),
            Refusal::Memory => text_line("dos: out of memory\n"),
        }
    }
}

/// Puts a refusal's line to `err` by one put, and answers the exit status. Where a sink has failed
/// already, or this put fails, that is 6; of the line a front was put then, of any length. With any
/// other status no put has failed.
#[tactic(auto, using(crate::proofs::Statuses::sink), unfolding(crate::specs::Exit::refusal_status))]
pub fn put_refusal<E: Sink>(refusal: Refusal, err: &mut E) -> u8
    ensures told { result ≢ 6 → (refusal ≢ Refusal.Sink) × (result ≡ refusal_status refusal)
        × (E.told err.new ≡ grown (E.told err.old) (line_of refusal)) }
    ensures sink { result ≡ 6 → (refusal ≡ Refusal.Sink)
        ⊎ Rose (E.faults err.old) (E.faults err.new) }
    ensures front { result ≡ 6 → GrewByFront (E.told err.old) (E.told err.new) (line_of refusal) }
    ensures statuses { IsStatus result }
    ensures later { E.faults err.old ≤ E.faults err.new }
    ensures steady { result ≢ 6 → E.faults err.new ≡ E.faults err.old }
{
    if refusal == Refusal::Sink {
        return Refusal::Sink.status();
    }
    match err.put(refusal.line().as_str().as_bytes()) {
        Ok(()) => refusal.status(),
        Err(_) => Refusal::Sink.status(),
    }
}
