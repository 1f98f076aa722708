// What a recorder keeps, beside its host.
ghost use Rattle.std.specs.Prelude.{◌≡◌, ◌≤◌, ◌<◌, ◌+◌, ◌*◌, ◌↔◌, ◌++◌, ◌∷◌, [], ℕ, List, length};
ghost use Rattle.std.specs.Prelude.{IsTrue, slice_get, Some, None, IfOk, OnOk, IfErr, IsErrOf, ◌≢◌};
ghost use Rattle.std.specs.Prelude.{IfSome};
ghost use Rattle.dos_io.specs.declared.exchange.Exchange.TheVariants.{Signals as signals};
ghost use Rattle.dos_io.specs.declared.exchange.Exchange.TheVariants.{Input as input};
ghost use Rattle.dos_io.specs.declared.exchange.Exchange.TheVariants.{Clock as clock_exchange};
ghost use Rattle.dos_io.specs.Given.{readings, posts_in};
ghost use Rattle.dos_io.specs.Shims.{HasNoEnd};
ghost use Rattle.log_text.specs.declared.version.LogVersion.TheVariants.{Two};
ghost use Rattle.log_text.specs.LogText.{entries_text, exchanges, logtext};
ghost use Rattle.log_text.specs.Ranges.{FitsHeader};
ghost use Rattle.log_text.specs.EntriesText.{GrowsBy};
ghost use Rattle.shim_log.specs.Room.{IsLogFull, NoRoom, longest};
ghost use Rattle.shim_log.specs.Ledger.{LedgerState, IsLedger, recorder_state, ArePlanned};
ghost use Rattle.shim_log.specs.Ledger.{AddsEntry, MayStop, stopped, added, ledger_closed};
ghost use Rattle.shim_log.specs.Ledger.{empty_ledger};
ghost use Rattle.shim_log.specs.Ledger.{next_reading};

use dos_io::{ClockRule, ShimStop, SignalList};
use dos_world::{Ending, Post, Question};
use log_text::{GrowingEntries, Log, LogHeader};
use std::alloc::{AllocError, Global};
use std::marker::Model;

/// What a recorder keeps beside its host: the log so far, what the words say of its run, and the
/// stops.
#[derive(Drop)]
pub struct Ledger {
    posts: Vec<(u32, Post)>,
    clock: ClockRule,
    header: LogHeader,
    head: usize,
    entries: GrowingEntries,
    ended: Option<(Ending, u32)>,
    counted: u64,
    stops: u64,
    last: Option<ShimStop>,
    asked: Option<Question>,
}

impl Model for Ledger {
    ghost use Rattle.std.specs.Prelude.{◌≡◌, ◌≤◌, ◌<◌, ◌^◌, length, IfSome};
    ghost use Rattle.dos_io.specs.Given.{readings};
    ghost use Rattle.log_text.specs.declared.version.LogVersion.TheVariants.{Two};
    ghost use Rattle.log_text.specs.LogText.{header_text};
    ghost use Rattle.shim_log.specs.Ledger.{LedgerState, IsLedger};

    ghost Value = { LedgerState };

    ghost view = { λ s. record {
      posts = s.posts.items;
      clock = s.clock;
      header = s.header;
      entries = s.entries.list;
      ended = s.ended;
      stops = s.stops;
      last = s.last;
      asked = s.asked;
      room = s.entries.room;
    } };

    ghost invariant = { λ s. IsLedger (record {
      posts = s.posts.items;
      clock = s.clock;
      header = s.header;
      entries = s.entries.list;
      ended = s.ended;
      stops = s.stops;
      last = s.last;
      asked = s.asked;
      room = s.entries.room;
    })
        × (s.head ≡ length (header_text Two s.header))
        × (s.counted ≡ length (readings s.entries.list)) };
}

// The posts of a round, in their order.
fn posts_of(posts: &[(u32, Post)], round: u32, list: &mut SignalList)
    requires few { length posts.now ≤ 32 }
    requires planned { ArePlanned posts.now }
    ensures { list.new ≡ posts_in posts.now round }
{
    list.clear();
    for i in 0..posts.len() {
        let (at, post) = post_at(posts, i);
        if at == round {
            list.push(post);
        }
    }
}

fn post_at(posts: &[(u32, Post)], index: usize) -> (u32, Post)
    requires index { index < length posts.now }
    requires planned { ArePlanned posts.now }
    ensures value { slice_get posts.now index ≡ Some result }
    ensures low { 1 ≤ result.1.signal }
    ensures high { result.1.signal ≤ 31 }
{
    posts[index]
}

impl Ledger {
    /// The ledger of a run that was asked nothing yet: at most 32 posts, each with its round and
    /// each of a signal from 1 to 31; the rule of the clock; and a header in its ranges. The posts
    /// are copied; the error is want of memory.
    pub fn new(
        alloc: Global,
        posts: &[(u32, Post)],
        clock: ClockRule,
        header: LogHeader,
    ) -> Result<Ledger, AllocError>
        requires few { length posts.now ≤ 32 }
        requires planned { ArePlanned posts.now }
        requires header { FitsHeader header }
        ensures { IfOk result (λ ledger. ledger ≡ empty_ledger posts.now clock header ledger.room) }
    {
        let head = 20 + 32 * header.digests.len();
        Ok(Ledger {
            posts: Vec::from_slice(alloc, posts)?,
            clock,
            header,
            head,
            entries: GrowingEntries::new(alloc),
            ended: None,
            counted: 0,
            stops: 0,
            last: None,
            asked: None,
        })
    }

    /// The posts of a round, into `list`.
    pub(crate) fn posts_of(&self, round: u32, list: &mut SignalList)
        ensures { list.new ≡ posts_in self.now.posts round }
    {
        posts_of(&self.posts, round, list);
    }

    // With so many bytes more the log would have no room for its end; or it has as many exchanges
    // as it may have.
    #[tactic(auto, unfolding(crate::specs::Room::IsLogFull))]
    fn is_full(&self, bytes: usize) -> bool
        requires { bytes ≤ 8192 }
        ensures full { IsTrue result → IsLogFull self.now.header self.now.entries bytes }
        ensures free { IsLogFull self.now.header self.now.entries bytes → IsTrue result }
    {
        if self.entries.len() == 16777216 {
            return true;
        }
        67108864 < self.head + self.entries.bytes() + bytes + 6
    }

    // Whether there is no room for an answer to this question, where its longest one makes the text
    // longer by so many bytes.
    fn has_no_room(&self, question: Question, bytes: usize) -> bool
        requires few { bytes ≤ 8192 }
        requires adds { AddsEntry question }
        requires grows { GrowsBy self.now.entries (longest self.now.posts question) bytes }
        ensures { IsTrue result
            ↔ NoRoom self.now.header self.now.posts self.now.entries question }
    {
        let _question = question;
        self.is_full(bytes)
    }

    /// Stops, so, at this question.
    pub(crate) fn stop(&mut self, question: Question, stop: ShimStop) -> ShimStop
        requires { MayStop self.old question stop }
        ensures result { result ≡ stop }
        ensures after { self.new ≡ stopped self.old question stop }
    {
        self.stops = self.stops.saturating_add(1);
        self.last = Some(stop);
        self.asked = Some(question);
        stop
    }

    // Takes memory for so many bytes more.
    fn reserve(&mut self, bytes: usize) -> bool
        requires { bytes ≤ 8192 }
        ensures same { self.new ≡ record self.old { room = self.new.room } }
        ensures room { IsTrue result → bytes ≤ self.new.room }
    {
        self.entries.reserve(bytes).is_ok()
    }

    /// How many bytes the text grows by with signals of a round.
    pub(crate) fn signals_bytes(&self, round: u32, list: &SignalList) -> usize
        ensures value { GrowsBy self.now.entries (signals round list.now) result }
        ensures few { result ≤ 166 }
    {
        self.entries.signals_bytes(round, list)
    }

    /// Room in the log, and memory, for the so many bytes by which the text grows with the longest
    /// answer to this question. Else it stops, before anything is asked of the host.
    pub(crate) fn make_room(&mut self, question: Question, bytes: usize) -> Result<(), ShimStop>
        requires few { bytes ≤ 8192 }
        requires adds { AddsEntry question }
        requires grows { GrowsBy self.old.entries (longest self.old.posts question) bytes }
        ensures full { IsErrOf result ShimStop.LogFull
            ↔ NoRoom self.old.header self.old.posts self.old.entries question }
        ensures err { IfErr result (λ stop. (stop ≢ ShimStop.HostFault)
            × (self.new ≡ stopped (record self.old { room = self.new.room }) question stop)) }
        ensures same { OnOk result (self.new ≡ record self.old { room = self.new.room }) }
        ensures room { OnOk result (bytes ≤ self.new.room) }
        ensures not_full { OnOk result
            (NoRoom self.new.header self.new.posts self.new.entries question → ⊥) }
    {
        if self.has_no_room(question, bytes) {
            return Err(self.stop(question, ShimStop::LogFull));
        }
        if !self.reserve(bytes) {
            return Err(self.stop(question, ShimStop::Memory));
        }
        Ok(())
    }

    /// The next reading of a counted clock.
    pub(crate) fn counted(&self) -> Option<u64>
        ensures { result ≡ next_reading self.now.clock (length (readings self.now.entries)) }
    {
        match self.clock {
            ClockRule::FromHost => None,
            ClockRule::Counted { from, step } => {
                Some(from.wrapping_add(self.counted.wrapping_mul(step)))
            }
        }
    }

    /// Keeps a round's signals, as answered.
    pub(crate) fn add_signals(&mut self, round: u32, list: &SignalList)
        requires posts { list.now ≡ posts_in self.old.posts round }
        requires room { NoRoom self.old.header self.old.posts self.old.entries
            (Question.Signals round) → ⊥ }
        requires memory { length (entries_text Two (self.old.entries ++ signals round list.now ∷
            []))
            ≤ length (entries_text Two self.old.entries) + self.old.room }
        ensures { self.new ≡ record (added self.old (signals round list.now))
            { room = self.new.room } }
    {
        let _len = list.len();
        self.entries.push_signals(round, list);
        self.asked = None;
    }

    /// Keeps an input, as answered.
    pub(crate) fn add_input(&mut self, round: u32, tid: u32, max: u16, bytes: &[u8])
        requires low { 1 ≤ max }
        requires high { max ≤ 4096 }
        requires short { length bytes.now ≤ max }
        requires room { NoRoom self.old.header self.old.posts self.old.entries
            (Question.Input round tid max) → ⊥ }
        requires memory { 13 + max ≤ self.old.room }
        ensures { self.new ≡ record (added self.old (input round tid max bytes.now))
            { room = self.new.room } }
    {
        self.entries.push_input(round, tid, max, bytes);
        self.asked = None;
    }

    /// Keeps a reading, as answered.
    pub(crate) fn add_clock(&mut self, round: u32, tid: u32, reading: u64)
        requires room { NoRoom self.old.header self.old.posts self.old.entries
            (Question.Clock round tid) → ⊥ }
        requires memory { 17 ≤ self.old.room }
        ensures { self.new ≡ record (added self.old (clock_exchange round tid reading))
            { room = self.new.room } }
    {
        self.entries.push_clock(round, tid, reading);
        self.counted += 1;
        self.asked = None;
    }

    /// Keeps the end.
    pub(crate) fn close(&mut self, ending: Ending, rounds: u32)
        ensures { self.new ≡ ledger_closed self.old ending rounds }
    {
        self.ended = Some((ending, rounds));
        self.asked = None;
    }

    /// What it kept all along.
    pub(crate) fn look(&self)
        ensures { IsLedger self.now }
    {
        let _posts = self.posts.len();
    }

    /// The log, where its end was told.
    pub(crate) fn into_log(self) -> Log
        requires { HasNoEnd (recorder_state self).told → ⊥ }
        ensures version { result.version ≡ Two }
        ensures header { result.header ≡ self.header }
        ensures log { exchanges result ≡ (recorder_state self).told }
        ensures small { length (logtext result) ≤ 67108864 }
    {
        let Ledger {
            header,
            entries,
            ended,
            ..
        } = self;
        match ended {
            Some((ending, rounds)) => entries.into_log(header, ending, rounds),
            None => unreachable!(),
        }
    }
}
