// The record of each number that was given, and the children of each process.
ghost use Rattle.std.specs.Prelude.{◌≡◌, ◌<◌, ◌≤◌, ◌+◌, ◌-◌, [], ◌∷◌, ◌++◌, length, map, None};
ghost use Rattle.std.specs.Prelude.{Some, true, false, position, slice_get, unwrap_or, IfOk};
ghost use Rattle.std.specs.Prelude.{IsSome, IfSome};
ghost use Rattle.dos_world.specs.Numbered.{changed, numbered};
ghost use Rattle.std.specs.Vec.{vec_capacity};
ghost use Rattle.proc_table.specs.declared.record.Kept.TheVariants.{Live, Ended};
ghost use Rattle.proc_table.specs.Places.{first_child, has_come, is_child_record, is_collected};
ghost use Rattle.proc_table.specs.Places.{kept_as, orphan_record, place_in};
ghost use Rattle.proc_table.specs.Links.{IsLinkable, IsWalkable, childless, next_in, no_links};
ghost use Rattle.proc_table.specs.Links.{passes_at, previous_in, with_child_linked, with_link};
ghost use Rattle.proc_table.specs.Links.{with_next};
ghost use Rattle.proc_table.specs.Links.{with_previous};

use crate::record::{Kept, Links, Record};
use std::alloc::{AllocError, Global};
use std::marker::Model;

// the last number that is given
const LAST_NUMBER: u32 = 65535;

// what stands for no child after another: above every number
const NO_MORE: u32 = 65536;

// The records, and beside each its links: the children of a process that weren't collected are a
// list in rising number. Contracts see the list of records.
#[derive(Drop)]
pub(crate) struct Records {
    records: Vec<Record>,
    links: Vec<Links>,
}

impl Model for Records {
    ghost use Rattle.std.specs.Prelude.{List};
    ghost use Rattle.std.specs.Vec.{vec_capacity};
    ghost use Rattle.proc_table.specs.declared.record.Record.{Record};
    ghost use Rattle.proc_table.specs.Links.{AreStored};

    ghost Value = { List Record };

    ghost view = { λ r. r.records.items };

    ghost invariant = { λ r.
        AreStored r.records.items r.links.items (vec_capacity r.records) (vec_capacity r.links) };
}

impl Records {
    // No record. All memory for records is taken here.
    pub(crate) fn reserve(alloc: Global) -> Result<Records, AllocError>
        ensures { IfOk result (λ r. r ≡ []) }
    {
        Ok(Records {
            records: Vec::with_capacity(alloc, LAST_NUMBER as usize)?,
            links: Vec::with_capacity(alloc, LAST_NUMBER as usize)?,
        })
    }

    // how many numbers were given
    pub(crate) fn len(&self) -> u32
        ensures { result ≡ length self.now }
    {
        self.records.len() as u32
    }

    pub(crate) fn get(&self, number: u32) -> &Record
        requires { IsSome (numbered self.now number) }
        ensures { numbered self.now number ≡ Some result.now }
    {
        &self.records[(number - 1) as usize]
    }

    // the place of a process, where it lives
    pub(crate) fn place_in(&self, pid: u32) -> Option<u32>
        ensures { result ≡ place_in self.now pid }
    {
        place_in(&self.records, pid)
    }

    // the place of a process that lives
    pub(crate) fn place_of(&self, pid: u32) -> usize
        requires { IsSome (place_in self.now pid) }
        ensures { place_in self.now pid ≡ Some result }
    {
        match self.place_in(pid) {
            Some(place) => place as usize,
            None => unreachable!(),
        }
    }

    // The record of the next number, which wasn't collected: the last child of its parent, where
    // that isn't 0.
    pub(crate) fn add(&mut self, parent: u32, kept: Kept)
        requires numbers { length self.old < 65535 }
        requires parent { parent ≤ length self.old }
        requires uncollected { is_collected kept ≡ false }
        ensures { self.new ≡ self.old ++ record { parent = parent; kept = kept } ∷ [] }
    {
        let number = self.records.len() as u32 + 1;
        add_links(&mut self.links, parent, number);
        let record = Record { parent, kept };
        match self.records.push(record) {
            Ok(()) => (),
            Err(_) => unreachable!(),
        }
    }

    // The record of the next number, of a process that has ended and that its parent has collected.
    pub(crate) fn add_collected(&mut self, parent: u32, status: u8)
        requires numbers { length self.old < 65535 }
        requires parent { parent ≤ length self.old }
        ensures { self.new
            ≡ self.old ++ record { parent = parent; kept = Ended status true } ∷ [] }
    {
        let number = self.len() + 1;
        let ended = Kept::Ended {
            status,
            collected: false,
        };
        self.add(parent, ended);
        self.collect(parent, number, status);
    }

    // The process has ended, and its children have no parent.
    pub(crate) fn end(&mut self, pid: u32, status: u8)
        requires { IsSome (place_in self.old pid) }
        ensures { self.new
            ≡ map (orphan_record pid) (changed (kept_as (Ended status false)) self.old pid) }
    {
        let ended = Kept::Ended {
            status,
            collected: false,
        };
        set_kept(&mut self.records, pid, ended);
        orphan_all(&mut self.records, &self.links, pid);
        clear_children(&mut self.links, pid);
    }

    // The lowest child of a process that `which` names, where 0 names all, and that has ended where
    // that is asked.
    pub(crate) fn first_child(&self, parent: u32, which: u32, ended: bool) -> Option<u32>
        ensures { result ≡ first_child ended self.now parent which }
    {
        if which != 0 {
            return named_child(&self.records, parent, which, ended);
        }
        if parent == 0 {
            return lowest_child(&self.records, parent, ended);
        }
        if parent > self.len() {
            return lowest_child(&self.records, parent, ended);
        }
        first_linked(&self.records, &self.links, parent, ended)
    }

    // The parent has collected a child that had ended with this status.
    pub(crate) fn collect(&mut self, parent: u32, child: u32, status: u8)
        requires { passes_at (is_child_record true parent) self.old child ≡ true }
        ensures { self.new ≡ changed (kept_as (Ended status true)) self.old child }
    {
        unlink(&mut self.links, parent, child);
        let collected = Kept::Ended {
            status,
            collected: true,
        };
        set_kept(&mut self.records, child, collected);
    }
}

// the place of a process, where it lives
fn place_in(records: &[Record], pid: u32) -> Option<u32>
    ensures { result ≡ place_in records.now pid }
{
    if pid == 0 {
        return None;
    }
    match records.get((pid - 1) as usize) {
        Some(record) => match record.kept {
            Kept::Live(place) => Some(place),
            Kept::Ended { .. } => None,
        },
        None => None,
    }
}

fn set_kept(records: &mut Vec<Record>, number: u32, kept: Kept)
    requires { IsSome (numbered records.old.items number) }
    ensures items { records.new.items ≡ changed (kept_as kept) records.old.items number }
    ensures capacity { vec_capacity records.new ≡ vec_capacity records.old }
{
    records[(number - 1) as usize].kept = kept;
}

// ---- who is a child

// the child of that number, where it is one
fn named_child(records: &[Record], parent: u32, which: u32, ended: bool) -> Option<u32>
    requires { 0 < which }
    ensures { result ≡ first_child ended records.now parent which }
{
    match record_at(records, (which - 1) as usize) {
        Some(record) => {
            if is_child(&record, parent, ended) {
                Some(which)
            } else {
                None
            }
        }
        None => None,
    }
}

fn record_at(records: &[Record], place: usize) -> Option<Record>
    ensures { result ≡ slice_get records.now place }
{
    match records.get(place) {
        Some(record) => Some(*record),
        None => None,
    }
}

// the lowest child along the links
fn first_linked(records: &[Record], links: &[Links], parent: u32, ended: bool) -> Option<u32>
    requires { IsWalkable records.now links.now parent }
    ensures { result ≡ first_child ended records.now parent 0 }
{
    let mut child = links[(parent - 1) as usize].first;
    while child < NO_MORE {
        let place = (child - 1) as usize;
        if has_come(records[place].kept, ended) {
            return Some(child);
        }
        child = links[place].next;
    }
    None
}

// The lowest child among all records: of 0, whose children aren't linked, and of a number that
// wasn't given.
fn lowest_child(records: &[Record], parent: u32, ended: bool) -> Option<u32>
    requires { length records.now ≤ 65535 }
    ensures { result ≡ first_child ended records.now parent 0 }
{
    match child_place(records, parent, ended) {
        Some(place) => Some(place as u32 + 1),
        None => None,
    }
}

fn child_place(records: &[Record], parent: u32, ended: bool) -> Option<usize>
    ensures { result ≡ position (is_child_record ended parent) records.now }
{
    records
        .iter()
        .position(|record| is_child(record, parent, ended))
}

fn is_child(process: &Record, parent: u32, ended: bool) -> bool
    ensures { result ≡ is_child_record ended parent process.now }
{
    process.parent == parent && !was_collected(process.kept) && has_come(process.kept, ended)
}

fn was_collected(kept: Kept) -> bool
    ensures { result ≡ is_collected kept }
{
    match kept {
        Kept::Live(_) => false,
        Kept::Ended { collected, .. } => collected,
    }
}

// whether it has ended, where that is asked
fn has_come(kept: Kept, ended: bool) -> bool
    ensures { result ≡ has_come ended kept }
{
    match kept {
        Kept::Live(_) => !ended,
        Kept::Ended { .. } => true,
    }
}

// The children of a process have no parent.
fn orphan_all(records: &mut Vec<Record>, links: &[Links], parent: u32)
    requires { IsWalkable records.old.items links.now parent }
    ensures items { records.new.items ≡ map (orphan_record parent) records.old.items }
    ensures capacity { vec_capacity records.new ≡ vec_capacity records.old }
{
    let mut child = links[(parent - 1) as usize].first;
    while child < NO_MORE {
        let place = (child - 1) as usize;
        records[place].parent = 0;
        child = links[place].next;
    }
}

// ---- links

// The links of a new number, the last child of its parent, where that isn't 0.
fn add_links(links: &mut Vec<Links>, parent: u32, number: u32)
    requires parent { parent ≤ length links.old.items }
    requires number { number ≡ length links.old.items + 1 }
    requires few { length links.old.items < 65535 }
    requires last { previous_in links.old.items parent 65536 ≤ length links.old.items }
    requires room { length links.old.items < vec_capacity links.old }
    ensures items { links.new.items ≡ with_child_linked links.old.items parent number }
    ensures capacity { vec_capacity links.old ≤ vec_capacity links.new }
{
    let last = last_child(links, parent);
    push_unlinked(links);
    link(links, parent, last, number);
    link(links, parent, number, NO_MORE);
}

fn push_unlinked(links: &mut Vec<Links>)
    requires { length links.old.items < vec_capacity links.old }
    ensures items { links.new.items ≡ links.old.items ++ no_links ∷ [] }
    ensures capacity { vec_capacity links.old ≤ vec_capacity links.new }
{
    let unlinked = Links {
        first: NO_MORE,
        last: 0,
        previous: 0,
        next: NO_MORE,
    };
    match links.push(unlinked) {
        Ok(()) => (),
        Err(_) => unreachable!(),
    }
}

fn last_child(links: &[Links], parent: u32) -> u32
    requires { parent ≤ length links.now }
    ensures { result ≡ previous_in links.now parent 65536 }
{
    if parent == 0 {
        return 0;
    }
    links[(parent - 1) as usize].last
}

// The child stands between no others any more.
fn unlink(links: &mut Vec<Links>, parent: u32, child: u32)
    requires child { (0 < child) × (child ≤ length links.old.items) × (child < 65536) }
    requires others { IsLinkable (length links.old.items) parent
        (previous_in links.old.items parent child) (next_in links.old.items parent child) }
    ensures items { links.new.items ≡ with_link links.old.items parent
        (previous_in links.old.items parent child) (next_in links.old.items parent child) }
    ensures capacity { vec_capacity links.new ≡ vec_capacity links.old }
{
    let own = links[(child - 1) as usize];
    link(links, parent, own.previous, own.next);
}

// The process has no child.
fn clear_children(links: &mut Vec<Links>, pid: u32)
    requires { (0 < pid) × (pid ≤ length links.old.items) }
    ensures items { links.new.items ≡ changed childless links.old.items pid }
    ensures capacity { vec_capacity links.new ≡ vec_capacity links.old }
{
    let own = &mut links[(pid - 1) as usize];
    own.first = NO_MORE;
    own.last = 0;
}

// One child of the parent follows another. 0 has no children that are linked.
fn link(links: &mut Vec<Links>, parent: u32, before: u32, after: u32)
    requires { IsLinkable (length links.old.items) parent before after }
    ensures items { links.new.items ≡ with_link links.old.items parent before after }
    ensures capacity { vec_capacity links.new ≡ vec_capacity links.old }
{
    if parent == 0 {
        return;
    }
    set_next(links, parent, before, after);
    set_previous(links, parent, after, before);
}

fn set_next(links: &mut Vec<Links>, parent: u32, child: u32, next: u32)
    requires parent { (0 < parent) × (parent ≤ length links.old.items) }
    requires child { child ≤ length links.old.items }
    ensures items { links.new.items ≡ with_next links.old.items parent child next }
    ensures capacity { vec_capacity links.new ≡ vec_capacity links.old }
{
    if child == 0 {
        links[(parent - 1) as usize].first = next;
    } else {
        links[(child - 1) as usize].next = next;
    }
}

fn set_previous(links: &mut Vec<Links>, parent: u32, child: u32, previous: u32)
    requires parent { (0 < parent) × (parent ≤ length links.old.items) }
    requires child { (0 < child) × (child ≤ 65536) }
    requires within { child < 65536 → child ≤ length links.old.items }
    ensures items { links.new.items ≡ with_previous links.old.items parent child previous }
    ensures capacity { vec_capacity links.new ≡ vec_capacity links.old }
{
    if child == NO_MORE {
        links[(parent - 1) as usize].last = previous;
    } else {
        links[(child - 1) as usize].previous = previous;
    }
}
