// A log in memory.
ghost use Rattle.std.specs.Prelude.{◌≡◌, ◌+◌, ◌≤◌, length};

use crate::entries::Entries;
use crate::header::LogHeader;
use crate::version::LogVersion;
use dos_world::Ending;
use std::marker::Model;

/// A log: what its run is of, the exchanges, and how it ended. Contracts see the plain log; it is
/// in its ranges.
///
/// It keeps the exchanges as their text in its version.
#[derive(Drop)]
pub struct Log {
    pub(crate) header: LogHeader,
    pub(crate) entries: Entries,
    pub(crate) ending: Ending,
    pub(crate) rounds: u32,
}

impl Model for Log {
    ghost use Rattle.log_text.specs.LogText.{Log as LogValue};
    ghost use Rattle.log_text.specs.Ranges.{FitsLog};

    ghost Value = { LogValue };

    ghost view = { λ s. record {
      version = s.entries.version;
      header = s.header;
      entries = s.entries.list;
      ending = s.ending;
      rounds = s.rounds;
    } };

    ghost invariant = { λ s. FitsLog (record {
      version = s.entries.version;
      header = s.header;
      entries = s.entries.list;
      ending = s.ending;
      rounds = s.rounds;
    }) };
}

impl Log {
    ghost use Rattle.log_text.specs.LogText.{exchanges, entries_text, logtext};
    ghost use Rattle.log_text.specs.Ranges.{FitsLog, AreEntries};

    /// What the run is of.
    pub fn header(&self) -> &LogHeader
        ensures { result.now ≡ self.now.header }
    {
        &self.header
    }

    /// The version of its text: the one that it was read from, or 2 where a recorder kept it.
    pub fn version(&self) -> LogVersion
        ensures { result ≡ self.now.version }
    {
        self.entries.version()
    }

    /// How many exchanges it has, with the end: 1 to 16777217.
    pub fn len(&self) -> u32
        ensures value { result ≡ length (exchanges self.now) }
        ensures fits { FitsLog self.now }
    {
        self.entries.len() + 1
    }

    /// How long its text is.
    pub fn bytes(&self) -> usize
        ensures { result ≡ length (logtext self.now) }
    {
        let _len = self.len();
        26 + 32 * self.header().digests.len() + self.text().len()
    }

    // The exchanges but the end, as their text.
    pub(crate) fn text(&self) -> &[u8]
        ensures text { result.now ≡ entries_text self.now.version self.now.entries }
        ensures fits { AreEntries self.now.entries }
    {
        self.entries.text()
    }

    // How many these are.
    pub(crate) fn count(&self) -> u32
        ensures { result ≡ length self.now.entries }
    {
        self.entries.len()
    }

    // How the run ended.
    pub(crate) fn ending(&self) -> Ending
        ensures { result ≡ self.now.ending }
    {
        self.ending
    }

    // How many rounds were run.
    pub(crate) fn rounds(&self) -> u32
        ensures { result ≡ self.now.rounds }
    {
        self.rounds
    }
}
