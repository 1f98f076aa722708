// Entries, kept as their text.

ghost use Rattle.std.specs.Prelude.{◌≡◌, ◌≤◌, ℕ, List, length, IfOk};
ghost use Rattle.log_text.specs.EntriesText.{entries_in_text, IsEntriesText};
ghost use Rattle.log_text.specs.LogText.{entries_text};
ghost use Rattle.log_text.specs.Ranges.{AreEntries};

use crate::version::LogVersion;
use std::alloc::{AllocError, Global};
use std::marker::Model;

/// The entries of a log but the end, as their text in its version. Contracts see the exchanges that
/// they stand for: at most 16777216.
#[derive(Drop)]
pub struct Entries {
    version: LogVersion,
    text: Vec<u8>,
    count: u32,
}

impl Model for Entries {
    ghost use Rattle.log_text.specs.EntriesText.{entries_in_text, IsEntriesText, EntriesState};

    ghost Value = { EntriesState };

    ghost view = { λ s. record {
      version = s.version;
      list = entries_in_text s.version s.text.items;
    } };

    ghost invariant = { λ s. IsEntriesText s.version s.text.items s.count };
}

impl Entries {
    // The entries that a text spells, which stand for so many exchanges.
    pub(crate) fn of(version: LogVersion, text: Vec<u8>, count: u32) -> Entries
        requires { IsEntriesText version text.items count }
        ensures version { result.version ≡ version }
        ensures list { result.list ≡ entries_in_text version text.items }
    {
        Entries {
            version,
            text,
            count,
        }
    }

    // The same, of a text that is copied.
    pub(crate) fn from_text(
        alloc: Global,
        version: LogVersion,
        text: &[u8],
        count: u32,
    ) -> Result<Entries, AllocError>
        requires { IsEntriesText version text.now count }
        ensures version { IfOk result (λ entries. entries.version ≡ version) }
        ensures list { IfOk result (λ entries. entries.list ≡ entries_in_text version text.now) }
    {
        Ok(Entries::of(version, Vec::from_slice(alloc, text)?, count))
    }

    /// The version of their text.
    pub fn version(&self) -> LogVersion
        ensures { result ≡ self.now.version }
    {
        self.version
    }

    /// How many exchanges they stand for.
    pub fn len(&self) -> u32
        ensures value { result ≡ length self.now.list }
        ensures fits { AreEntries self.now.list }
        ensures few { result ≤ 16777216 }
    {
        self.count
    }

    /// Their text.
    pub fn text(&self) -> &[u8]
        ensures { result.now ≡ entries_text self.now.version self.now.list }
    {
        self.text.as_slice()
    }
}
