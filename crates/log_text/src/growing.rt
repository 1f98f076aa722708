// Entries of version 2, while a recorder adds to them.

ghost use Rattle.std.specs.Prelude.{◌≡◌, ◌≤◌, ◌<◌, ◌+◌, ◌*◌, ◌-◌, ◌++◌, ◌∷◌, [], ℕ, List, length};
ghost use Rattle.std.specs.Prelude.{OnOk, IfSome, vec_len, vec_capacity};
ghost use Rattle.dos_io.specs.declared.exchange.Exchange.TheVariants.{Signals as signals};
ghost use Rattle.dos_io.specs.declared.exchange.Exchange.TheVariants.{Input as input};
ghost use Rattle.dos_io.specs.declared.exchange.Exchange.TheVariants.{Clock as clock};
ghost use Rattle.log_text.specs.declared.version.LogVersion.TheVariants.{Two};
ghost use Rattle.log_text.specs.EntriesText.{stretch_items, counted_up};
ghost use Rattle.log_text.specs.LogText.{entries_text, items_text};
ghost use Rattle.log_text.specs.Ranges.{FitsHeader};
ghost use Rattle.log_text.specs.EntriesText.{GrowsBy};

use crate::entries::Entries;
use crate::entry_writing::{put_clock, put_input, put_quiet, put_signals};
use crate::header::LogHeader;
use crate::log::Log;
use crate::version::LogVersion;
use dos_io::SignalList;
use dos_world::Ending;
use std::alloc::{AllocError, Global};
use std::marker::Model;

// The bytes of a quiet entry, for which memory is taken while it is kept out of the text.
const QUIET_BYTES: usize = 9;

/// Entries of version 2 to which others are added. The last quiet stretch is kept out of the text
/// and counted up in place, so a round without a signal that goes on with it costs no memory.
/// Contracts see the exchanges, and for how many more bytes memory is taken.
#[derive(Drop)]
pub struct GrowingEntries {
    text: Vec<u8>,
    count: u32,
    stretch: Option<(u32, u32)>,
}

impl Model for GrowingEntries {
    ghost use Rattle.std.specs.Prelude.{List, length, vec_len, vec_capacity, ◌-◌, ◌+◌, ◌≤◌};
    ghost use Rattle.log_text.specs.Items.{exchanges_of_items};
    ghost use Rattle.log_text.specs.LogText.{items_text};
    ghost use Rattle.log_text.specs.EntriesText.{GrowingState, IsGrowing, grown_items};
    ghost use Rattle.log_text.specs.EntriesText.{stretch_items};

    ghost Value = { GrowingState };

    ghost view = { λ s. record {
      list = exchanges_of_items (grown_items s.text.items s.stretch);
      room = vec_capacity s.text - (vec_len s.text + length (items_text (stretch_items s.stretch)));
    } };

    ghost invariant = { λ s. IsGrowing s.text.items s.stretch s.count
        × (vec_len s.text + length (items_text (stretch_items s.stretch)) ≤ vec_capacity s.text) };
}

// The bytes of a stretch that is kept out of the text.
fn stretch_bytes(stretch: Option<(u32, u32)>) -> usize
    ensures value { result ≡ length (items_text (stretch_items stretch)) }
    ensures few { result ≤ 9 }
{
    match stretch {
        Some(_) => QUIET_BYTES,
        None => 0,
    }
}

// Puts a stretch that was kept out of a text behind it.
fn put_stretch(text: &mut Vec<u8>, stretch: Option<(u32, u32)>)
    requires { vec_len text.old + length (items_text (stretch_items stretch)) ≤ vec_capacity
        text.old }
    ensures items { text.new.items ≡ text.old.items ++ items_text (stretch_items stretch) }
    ensures len { vec_len text.new
        ≡ vec_len text.old + length (items_text (stretch_items stretch)) }
    ensures room { vec_capacity text.old ≤ vec_capacity text.new }
{
    match stretch {
        Some((round, count)) => put_quiet(text, round, count),
        None => {}
    }
}

// A stretch with one round more, where this round goes on with it.
fn counted_up(stretch: Option<(u32, u32)>, round: u32) -> Option<(u32, u32)>
    requires { IfSome stretch (λ s. s.1 ≤ 16777216) }
    ensures { result ≡ counted_up stretch round }
{
    match stretch {
        Some((first, count)) => {
            if u64::from(first) + u64::from(count) == u64::from(round) {
                return Some((first, count + 1));
            }
            None
        }
        None => None,
    }
}

impl GrowingEntries {
    /// No entries. What is added later goes into memory of `alloc`.
    pub fn new(alloc: Global) -> GrowingEntries
        ensures { result.list ≡ [] }
    {
        GrowingEntries {
            text: Vec::new(alloc),
            count: 0,
            stretch: None,
        }
    }

    /// How many exchanges they stand for.
    pub fn len(&self) -> u32
        ensures value { result ≡ length self.now.list }
        ensures few { result ≤ 16777216 }
    {
        self.count
    }

    /// How long their text is.
    pub fn bytes(&self) -> usize
        ensures { result ≡ length (entries_text Two self.now.list) }
    {
        self.text.len() + stretch_bytes(self.stretch)
    }

    /// How many bytes their text grows by with signals of a round.
    pub fn signals_bytes(&self, round: u32, list: &SignalList) -> usize
        ensures value { GrowsBy self.now.list (signals round list.now) result }
        ensures few { result ≤ 166 }
    {
        let posts = list.len();
        if posts != 0 {
            return 6 + 5 * posts;
        }
        match counted_up(self.stretch, round) {
            Some(_) => 0,
            None => QUIET_BYTES,
        }
    }

    /// Takes memory for so many bytes more.
    pub fn reserve(&mut self, bytes: usize) -> Result<(), AllocError>
        requires few { bytes ≤ 8192 }
        ensures list { self.new.list ≡ self.old.list }
        ensures room { OnOk result (bytes ≤ self.new.room) }
    {
        self.text.reserve(stretch_bytes(self.stretch) + bytes)
    }

    /// Adds a reading of the clock as the last exchange, for which memory was taken.
    pub fn push_clock(&mut self, round: u32, tid: u32, reading: u64)
        requires few { length self.old.list < 16777216 }
        requires room { 17 ≤ self.old.room }
        ensures { self.new.list ≡ self.old.list ++ clock round tid reading ∷ [] }
    {
        put_stretch(&mut self.text, self.stretch);
        put_clock(&mut self.text, round, tid, reading);
        self.stretch = None;
        self.count += 1;
    }

    /// Adds an input as the last exchange, for which memory was taken.
    pub fn push_input(&mut self, round: u32, tid: u32, max: u16, bytes: &[u8])
        requires few { length self.old.list < 16777216 }
        requires low { 1 ≤ max }
        requires high { max ≤ 4096 }
        requires short { length bytes.now ≤ max }
        requires room { 13 + length bytes.now ≤ self.old.room }
        ensures { self.new.list ≡ self.old.list ++ input round tid max bytes.now ∷ [] }
    {
        put_stretch(&mut self.text, self.stretch);
        put_input(&mut self.text, round, tid, max, bytes);
        self.stretch = None;
        self.count += 1;
    }

    // Adds a round without a signal.
    fn push_quiet(&mut self, round: u32)
        requires few { length self.old.list < 16777216 }
        requires room { length (entries_text Two (self.old.list ++ signals round [] ∷ []))
            ≤ length (entries_text Two self.old.list) + self.old.room }
        ensures { self.new.list ≡ self.old.list ++ signals round [] ∷ [] }
    {
        self.count += 1;
        match counted_up(self.stretch, round) {
            Some(more) => self.stretch = Some(more),
            None => {
                put_stretch(&mut self.text, self.stretch);
                self.stretch = Some((round, 1));
            }
        }
    }

    // Adds a round with signals.
    fn push_loud(&mut self, round: u32, list: &SignalList)
        requires few { length self.old.list < 16777216 }
        requires loud { 1 ≤ length list.now }
        requires room { 6 + 5 * length list.now ≤ self.old.room }
        ensures { self.new.list ≡ self.old.list ++ signals round list.now ∷ [] }
    {
        let _len = list.len();
        put_stretch(&mut self.text, self.stretch);
        put_signals(&mut self.text, round, list);
        self.stretch = None;
        self.count += 1;
    }

    /// Adds signals of a round as the last exchange, for which memory was taken.
    pub fn push_signals(&mut self, round: u32, list: &SignalList)
        requires few { length self.old.list < 16777216 }
        requires room { length (entries_text Two (self.old.list ++ signals round list.now ∷ []))
            ≤ length (entries_text Two self.old.list) + self.old.room }
        ensures { self.new.list ≡ self.old.list ++ signals round list.now ∷ [] }
    {
        if list.len() == 0 {
            self.push_quiet(round);
        } else {
            self.push_loud(round, list);
        }
    }

    // The entries, all of them in the text.
    pub(crate) fn close(self) -> Entries
        ensures version { result.version ≡ Two }
        ensures list { result.list ≡ self.list }
    {
        let GrowingEntries {
            mut text,
            count,
            stretch,
        } = self;
        put_stretch(&mut text, stretch);
        Entries::of(LogVersion::Two, text, count)
    }

    /// The log of these entries. It takes no memory.
    pub fn into_log(self, header: LogHeader, ending: Ending, rounds: u32) -> Log
        requires { FitsHeader header }
        ensures { result ≡ record {
          version = Two;
          header = header;
          entries = self.list;
          ending = ending;
          rounds = rounds;
        } }
    {
        let entries = self.close();
        let _count = entries.len();
        Log {
            header,
            entries,
            ending,
            rounds,
        }
    }
}
