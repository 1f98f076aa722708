// The pages of a process, in rising order.
ghost use Rattle.std.specs.Prelude.{◌≡◌, ◌<◌, ◌≤◌, ◌+◌, ◌^◌, ◌++◌, length, map, take, drop, false};
ghost use Rattle.std.specs.Prelude.{None, Some, [], slice_get, IfOk, IfErr, IfSome};
ghost use Rattle.dos_world.specs.World.{look};
ghost use Rattle.dos_world.specs.Kernel.{put};
ghost use Rattle.dos_world.specs.Numbered.{run_of};
ghost use Rattle.space_map.specs.Mapping.{IsAt, IsFirstFrom, IsGapFor, IsMapped, IsRun, IsRising};
ghost use Rattle.space_map.specs.Mapping.{empty, in_run, put_run, shared_in_run, with_replaced};
ghost use Rattle.space_map.specs.Mapping.{with_page_shared, with_shared_run, all_but};
ghost use Rattle.space_map.specs.Mapping.{without_run};
ghost use Rattle.std.specs.List.{insert_slice, list_any, remove_range, slice_range};
ghost use Rattle.std.specs.Vec.{vec_capacity};

use dos_world::Entry;
use std::alloc::{AllocError, Global};
use std::marker::Model;

/// Pages with their entries. Contracts see the list of (page, entry) in strictly rising page, and
/// the room for it.
#[derive(Drop)]
pub struct Space {
    entries: Vec<(u32, Entry)>,
    room: u32,
}

impl Model for Space {
    ghost use Rattle.std.specs.Vec.{vec_capacity};
    ghost use Rattle.space_map.specs.Mapping.{IsKept, Mapping};

    ghost Value = { Mapping };

    ghost view = { λ s. record { entries = s.entries.items; room = s.room } };

    ghost invariant = { λ s. IsKept s.entries.items s.room (vec_capacity s.entries) };
}

impl Space {
    /// No page, with room for `entries` of them. All the memory of the space is taken here.
    pub fn reserve(alloc: Global, entries: u32) -> Result<Space, AllocError>
        ensures { IfOk result (λ s. s ≡ empty entries) }
    {
        Ok(Space {
            entries: Vec::with_capacity(alloc, entries as usize)?,
            room: entries,
        })
    }

    /// How many pages are mapped.
    pub fn len(&self) -> u32
        ensures count { result ≡ length self.now.entries }
        ensures room { length self.now.entries ≤ self.now.room }
        ensures rising { IsRising self.now.entries }
    {
        self.entries.len() as u32
    }

    /// The page with this place in the rising order, and its entry.
    pub fn at(&self, index: u32) -> (u32, Entry)
        requires { index < length self.now.entries }
        ensures { slice_get self.now.entries index ≡ Some result }
    {
        self.entries[index as usize]
    }

    /// The page's entry, by a binary search. None exactly where the page isn't mapped.
    pub fn look(&self, page: u32) -> Option<Entry>
        ensures { result ≡ look self.now.entries page }
    {
        match self.search(page) {
            Ok(place) => Some(self.entries[place].1),
            Err(_) => None,
        }
    }

    /// The page's entry, as `look` gives it. It is looked for first at the place of the hint, which
    /// may be any number, and the hint is its place then.
    #[inline]
    pub fn look_near(&self, page: u32, hint: &mut u32) -> Option<Entry>
        ensures entry { result ≡ look self.now.entries page }
        ensures near { IfSome result (λ entry. IsAt self.now.entries page hint.new) }
    {
        let place = *hint as usize;
        if place < self.entries.len() {
            let (number, entry) = self.entries[place];
            if number == page {
                return Some(entry);
            }
        }
        self.look_far(page, hint)
    }

    // the same by a binary search
    #[cold]
    #[inline(never)]
    fn look_far(&self, page: u32, hint: &mut u32) -> Option<Entry>
        ensures entry { result ≡ look self.now.entries page }
        ensures near { IfSome result (λ entry. IsAt self.now.entries page hint.new) }
    {
        // how many places there are is known of the entries
        let _entries = &self.entries;
        match self.search(page) {
            Ok(place) => {
                *hint = place as u32;
                Some(self.entries[place].1)
            }
            Err(_) => None,
        }
    }

    /// Maps a page, without taking memory.
    pub fn put(&mut self, page: u32, entry: Entry)
        requires unmapped { look self.old.entries page ≡ None }
        requires room { length self.old.entries < self.old.room }
        ensures { self.new ≡ record self.old { entries = put page entry self.old.entries } }
    {
        match self.search(page) {
            Ok(_) => unreachable!(),
            Err(place) => match self.entries.insert(place, (page, entry)) {
                Ok(()) => {}
                Err(_) => unreachable!(),
            },
        }
    }

    /// Maps `count` pages from this one on, none of which was mapped, each with this entry. No
    /// memory is taken, and the entries behind them move once.
    pub fn put_run(&mut self, page: u32, count: u32, entry: Entry)
        requires unmapped { list_any (in_run page count) self.old.entries ≡ false }
        requires room { length self.old.entries + count ≤ self.old.room }
        requires fits { page + count ≤ 2 ^ 32 }
        ensures { self.new
            ≡ record self.old { entries = put_run page count entry self.old.entries } }
    {
        let first = self.first_from(page) as usize;
        insert_run(&mut self.entries, first, page, count, entry);
    }

    /// Unmaps a page and gives its entry. The other pages stay.
    pub fn remove(&mut self, page: u32) -> Entry
        requires { IsMapped self.old.entries page }
        ensures entry { look self.old.entries page ≡ Some result }
        ensures others { self.new ≡ record self.old { entries = all_but page self.old.entries } }
    {
        match self.search(page) {
            Ok(place) => self.entries.remove(place).1,
            Err(_) => unreachable!(),
        }
    }

    /// A mapped page gets this entry. Nothing else changes.
    pub fn replace(&mut self, page: u32, entry: Entry)
        requires { IsMapped self.old.entries page }
        ensures { self.new
            ≡ record self.old { entries = with_replaced page entry self.old.entries } }
    {
        match self.search(page) {
            Ok(place) => self.entries[place] = (page, entry),
            Err(_) => unreachable!(),
        }
    }

    /// Makes a page's entry shared. Nothing else changes.
    pub fn mark_shared(&mut self, page: u32)
        requires { IsMapped self.old.entries page }
        ensures { self.new ≡ record self.old { entries = with_page_shared page self.old.entries } }
    {
        match self.search(page) {
            Ok(place) => {
                let entry = self.entries[place].1;
                let shared = Entry {
                    shared: true,
                    ..entry
                };
                self.entries[place] = (page, shared);
            }
            Err(_) => unreachable!(),
        }
    }

    /// Unmaps all pages. The room stays.
    pub fn clear(&mut self)
        ensures { self.new ≡ record self.old { entries = [] } }
    {
        self.entries.clear();
    }

    /// The place of the first page that isn't below this one, by a binary search; the count of
    /// pages where all are.
    pub fn first_from(&self, page: u32) -> u32
        ensures { IsFirstFrom self.now.entries page result }
    {
        // how many places there are is known of the entries
        let _entries = &self.entries;
        match self.search(page) {
            Ok(place) => place as u32,
            Err(place) => place as u32,
        }
    }

    /// Whether one of `count` pages from this one on is mapped.
    pub fn has_any(&self, page: u32, count: u32) -> bool
        ensures { result ≡ list_any (in_run page count) self.now.entries }
    {
        let first = self.first_from(page) as usize;
        if first < self.entries.len() {
            return is_in_run(&self.entries[first], page, count);
        }
        false
    }

    /// Unmaps those of `count` pages from this one on that are mapped. The other pages stay.
    pub fn remove_run(&mut self, page: u32, count: u32)
        ensures { self.new ≡ record self.old { entries = without_run page count self.old.entries } }
    {
        let first = self.first_from(page) as usize;
        let end = end_of_run(&self.entries, first, page, count);
        cut(&mut self.entries, first, end);
    }

    /// Makes the entries shared of those of `count` pages from this one on that are mapped. Nothing
    /// else changes.
    pub fn share_run(&mut self, page: u32, count: u32)
        ensures { self.new
            ≡ record self.old { entries = with_shared_run page count self.old.entries } }
    {
        let first = self.first_from(page) as usize;
        let end = end_of_run(&self.entries, first, page, count);
        share_part(&mut self.entries, first, end, page, count);
    }

    // where the page stands, or where it would
    fn search(&self, page: u32) -> Result<usize, usize>
        ensures found { IfOk result (IsAt self.now.entries page) }
        ensures gap { IfErr result (IsGapFor self.now.entries page) }
    {
        self.entries
            .binary_search_by_key(&page, |&(number, _)| number)
    }
}

fn is_in_run(entry: &(u32, Entry), page: u32, count: u32) -> bool
    ensures { result ≡ in_run page count entry.now }
{
    page <= entry.0 && u64::from(entry.0) < u64::from(page) + u64::from(count)
}

// behind the last page of the run, of which the first one stands at `first`
fn end_of_run(entries: &[(u32, Entry)], first: usize, page: u32, count: u32) -> usize
    requires { first ≤ length entries.now }
    ensures { IsRun entries.now page count first result }
{
    for place in first..entries.len() {
        if !is_in_run(&entries[place], page, count) {
            return place;
        }
    }
    entries.len()
}

// `count` entries of pages that follow one another come in at a place
fn insert_run(entries: &mut Vec<(u32, Entry)>, place: usize, page: u32, count: u32, entry: Entry)
    requires place { place ≤ length entries.old.items }
    requires room { length entries.old.items + count ≤ vec_capacity entries.old }
    requires fits { page + count ≤ 2 ^ 32 }
    ensures items { entries.new.items
        ≡ insert_slice entries.old.items place (map (λ p. (p, entry)) (run_of page count)) }
    ensures capacity { vec_capacity entries.old ≤ vec_capacity entries.new }
{
    push_run(entries, page, count, entry);
    entries[place..].rotate_right(count as usize);
}

fn push_run(entries: &mut Vec<(u32, Entry)>, page: u32, count: u32, entry: Entry)
    requires room { length entries.old.items + count ≤ vec_capacity entries.old }
    requires fits { page + count ≤ 2 ^ 32 }
    ensures items { entries.new.items
        ≡ entries.old.items ++ map (λ p. (p, entry)) (run_of page count) }
    ensures capacity { vec_capacity entries.old ≤ vec_capacity entries.new }
{
    for index in 0..count {
        match entries.push((page + index, entry)) {
            Ok(()) => {}
            Err(_) => unreachable!(),
        }
    }
}

fn cut(entries: &mut Vec<(u32, Entry)>, first: usize, end: usize)
    requires { (first ≤ end) × (end ≤ length entries.old.items) }
    ensures items { entries.new.items ≡ remove_range entries.old.items first end }
    ensures capacity { vec_capacity entries.new ≡ vec_capacity entries.old }
{
    let _gone = entries.drain(first..end);
}

fn share_part(entries: &mut Vec<(u32, Entry)>, first: usize, end: usize, page: u32, count: u32)
    requires { (first ≤ end) × (end ≤ length entries.old.items) }
    ensures items { entries.new.items
        ≡ take first entries.old.items
        ++ with_shared_run page count (slice_range entries.old.items first end)
        ++ drop end entries.old.items }
    ensures capacity { vec_capacity entries.new ≡ vec_capacity entries.old }
{
    share_each(&mut entries[first..end], page, count);
}

fn share_each(entries: &mut [(u32, Entry)], page: u32, count: u32)
    ensures { entries.new ≡ with_shared_run page count entries.old }
{
    for entry in entries.iter_mut() {
        *entry = shared(*entry, page, count);
    }
}

fn shared(entry: (u32, Entry), page: u32, count: u32) -> (u32, Entry)
    ensures { result ≡ shared_in_run page count entry }
{
    if is_in_run(&entry, page, count) {
        let shared = Entry {
            shared: true,
            ..entry.1
        };
        return (entry.0, shared);
    }
    entry
}
