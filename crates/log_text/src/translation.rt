// The entries of a log in the other version.
ghost use Rattle.std.specs.Prelude.{◌≡◌, ◌≤◌, ◌<◌, ◌++◌, ◌∷◌, [], length, IfOk, OnOk};
ghost use Rattle.dos_io.specs.Posts.{ArePosts};
ghost use Rattle.dos_io.specs.declared.exchange.Exchange.TheVariants.{Signals as signals};
ghost use Rattle.dos_io.specs.declared.exchange.Exchange.TheVariants.{Input as input};
ghost use Rattle.dos_io.specs.declared.exchange.Exchange.TheVariants.{Clock as clock};
ghost use Rattle.log_text.specs.declared.version.LogVersion.TheVariants.{One, Two};
ghost use Rattle.log_text.specs.LogText.{entry_text, entries_text};
ghost use Rattle.log_text.specs.Ranges.{InRange, NotEnd};
ghost use Rattle.log_text.specs.Views.{exchange_of, posts_in_text};

use crate::entries::Entries;
use crate::entry::Entry;
use crate::entry_writing::{put_clock, put_input, put_signals};
use crate::growing::GrowingEntries;
use crate::log::Log;
use crate::log_walk::entry_at;
use crate::posts::fill;
use dos_io::SignalList;
use std::alloc::{AllocError, Global};

// The bytes of an entry: of signals without its posts, of a post, of an input without its bytes,
// and of a reading.
const SIGNALS_BYTES: usize = 6;

const POST_BYTES: usize = 5;

const INPUT_BYTES: usize = 13;

const CLOCK_BYTES: usize = 17;

// The posts that these bytes spell.
fn signals_of(posts: &[u8]) -> SignalList
    requires few { length (posts_in_text posts.now) ≤ 32 }
    requires fits { ArePosts (posts_in_text posts.now) }
    ensures { result ≡ posts_in_text posts.now }
{
    let mut list = SignalList::new();
    fill(&mut list, posts);
    list
}

// ---- version 2

// Adds signals of a round as the last exchange, and takes memory for them.
fn add_signals(entries: &mut GrowingEntries, round: u32, posts: &[u8]) -> Result<(), AllocError>
    requires few { length entries.old.list < 16777216 }
    requires few_posts { length (posts_in_text posts.now) ≤ 32 }
    requires fits { ArePosts (posts_in_text posts.now) }
    ensures { OnOk result (entries.new.list
        ≡ entries.old.list ++ signals round (posts_in_text posts.now) ∷ []) }
{
    let list = signals_of(posts);
    let bytes = entries.signals_bytes(round, &list);
    entries.reserve(bytes)?;
    entries.push_signals(round, &list);
    Ok(())
}

// The same of an input.
fn add_input(
    entries: &mut GrowingEntries,
    round: u32,
    tid: u32,
    max: u16,
    bytes: &[u8],
) -> Result<(), AllocError>
    requires few { length entries.old.list < 16777216 }
    requires low { 1 ≤ max }
    requires high { max ≤ 4096 }
    requires short { length bytes.now ≤ max }
    ensures { OnOk result (entries.new.list
        ≡ entries.old.list ++ input round tid max bytes.now ∷ []) }
{
    entries.reserve(INPUT_BYTES + bytes.len())?;
    entries.push_input(round, tid, max, bytes);
    Ok(())
}

// The same of a reading of the clock.
fn add_clock(
    entries: &mut GrowingEntries,
    round: u32,
    tid: u32,
    reading: u64,
) -> Result<(), AllocError>
    requires { length entries.old.list < 16777216 }
    ensures { OnOk result (entries.new.list ≡ entries.old.list ++ clock round tid reading ∷ []) }
{
    entries.reserve(CLOCK_BYTES)?;
    entries.push_clock(round, tid, reading);
    Ok(())
}

// The same of any exchange but the end.
fn add(entries: &mut GrowingEntries, kept: Entry<'_>) -> Result<(), AllocError>
    requires few { length entries.old.list < 16777216 }
    requires fits { InRange (exchange_of kept) }
    requires no_end { NotEnd (exchange_of kept) }
    ensures { OnOk result (entries.new.list ≡ entries.old.list ++ exchange_of kept.entry ∷ []) }
{
    match kept {
        Entry::Signals { round, posts } => add_signals(entries, round, posts),
        Entry::Input {
            round,
            tid,
            max,
            bytes,
        } => add_input(entries, round, tid, max, bytes),
        Entry::Clock {
            round,
            tid,
            reading,
        } => add_clock(entries, round, tid, reading),
        Entry::End { .. } => unreachable!(),
    }
}

/// The entries of a log in version 2.
pub(crate) fn joined_entries(alloc: Global, log: &Log) -> Result<Entries, AllocError>
    ensures version { IfOk result (λ entries. entries.version ≡ Two) }
    ensures list { IfOk result (λ entries. entries.list ≡ log.now.entries) }
{
    let _len = log.len();
    let mut entries = GrowingEntries::new(alloc);
    let mut place = 0;
    let mut within = 0;
    for i in 0..log.count() {
        let (entry, after, passed) = entry_at(log, i, place, within);
        add(&mut entries, entry)?;
        place = after;
        within = passed;
    }
    Ok(entries.close())
}

// ---- version 1

// Puts signals of a round as an entry of their own.
fn put_round(out: &mut Vec<u8>, round: u32, posts: &[u8]) -> Result<(), AllocError>
    requires few { length (posts_in_text posts.now) ≤ 32 }
    requires fits { ArePosts (posts_in_text posts.now) }
    ensures { OnOk result (out.new.items
        ≡ out.old.items ++ entry_text (signals round (posts_in_text posts.now))) }
{
    let list = signals_of(posts);
    out.reserve(SIGNALS_BYTES + POST_BYTES * list.len())?;
    put_signals(out, round, &list);
    Ok(())
}

// Puts an exchange, which isn't the end, as an entry of its own.
fn put_entry(out: &mut Vec<u8>, kept: Entry<'_>) -> Result<(), AllocError>
    requires fits { InRange (exchange_of kept) }
    requires no_end { NotEnd (exchange_of kept) }
    ensures { OnOk result (out.new.items ≡ out.old.items ++ entry_text (exchange_of kept.entry)) }
{
    match kept {
        Entry::Signals { round, posts } => put_round(out, round, posts),
        Entry::Input {
            round,
            tid,
            max,
            bytes,
        } => {
            out.reserve(INPUT_BYTES + bytes.len())?;
            put_input(out, round, tid, max, bytes);
            Ok(())
        }
        Entry::Clock {
            round,
            tid,
            reading,
        } => {
            out.reserve(CLOCK_BYTES)?;
            put_clock(out, round, tid, reading);
            Ok(())
        }
        Entry::End { .. } => unreachable!(),
    }
}

/// Puts the entries of a log in version 1.
pub(crate) fn put_each(out: &mut Vec<u8>, log: &Log) -> Result<(), AllocError>
    ensures { OnOk result (out.new.items ≡ out.old.items ++ entries_text One log.now.entries) }
{
    let _len = log.len();
    let mut place = 0;
    let mut within = 0;
    for i in 0..log.count() {
        let (entry, after, passed) = entry_at(log, i, place, within);
        put_entry(out, entry)?;
        place = after;
        within = passed;
    }
    Ok(())
}
