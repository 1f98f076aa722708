// The processes by number, and the places of those that live.
ghost use Rattle.std.specs.Prelude.{◌≡◌, ◌<◌, ◌≤◌, ◌+◌, ◌-◌, ◌^◌, [], ◌∷◌, ◌++◌, length, map};
ghost use Rattle.std.specs.Prelude.{option_and_then, None, Some, true, false, is_some, is_none};
ghost use Rattle.std.specs.Prelude.{nat_le, position, slice_get, slice_index, slice_set, unwrap_or};
ghost use Rattle.std.specs.Prelude.{replicate, IfOk, IsSome, IfSome};
ghost use Rattle.std.specs.List.{list_any};
ghost use Rattle.dos_world.specs.Numbered.{changed, numbered};
ghost use Rattle.dos_world.specs.World.{all_holdings, look, on_holdings, was_collected};
ghost use Rattle.dos_world.specs.Kernel.{ended_by, orphaned, with_entry, without_entries};
ghost use Rattle.dos_world.specs.DescriptorCalls.{with_end};
ghost use Rattle.dos_world.specs.SignalCalls.{is_signal, with_action};
ghost use Rattle.space_map.specs.Mapping.{IsMapped, empty, in_run};
ghost use Rattle.proc_table.specs.Tables.{IsParent, IsProcess, end_named, entry_replaced, held_as};
ghost use Rattle.proc_table.specs.Tables.{held_in, last_status, new_process, run_put, run_shared};
ghost use Rattle.proc_table.specs.Tables.{ended_process, living_process};
ghost use Rattle.proc_table.specs.Tables.{run_unmapped, without_ends};
ghost use Rattle.proc_table.specs.Children.{after_wait, outcome};
ghost use Rattle.proc_table.specs.Places.{first_belongings, holdings_by, status_or_0};

use crate::collected::Collected;
use crate::record::{Belongings, Kept};
use crate::records::Records;
use dos_world::{End, Entry};
use space_map::Space;
use std::alloc::{AllocError, Global};
use std::marker::Model;

// how many processes may live
const MOST_PROCESSES: u32 = 32;

// A record for each number that was given. A process that lives holds a place, and what it has
// stands there.
#[derive(Drop)]
pub(crate) struct Processes {
    records: Records,
    holders: [Option<u32>; 32],
    spaces: Vec<Space>,
    belongings: Vec<Belongings>,
    live: u32,
    room: u32,
}

impl Model for Processes {
    ghost use Rattle.proc_table.specs.Places.{ArePlaced, Group, group_shown};

    ghost Value = { Group };

    ghost view = { λ p. group_shown p.spaces.items p.belongings.items p.records p.room };

    ghost invariant = { λ p.
        ArePlaced p.records p.holders p.spaces.items p.belongings.items p.live p.room };
}

impl Processes {
    // No process. All memory for processes is taken here.
    pub(crate) fn reserve(alloc: Global, frames: u32) -> Result<Processes, AllocError>
        ensures { IfOk result (λ p. p ≡ record { processes = []; room = frames }) }
    {
        Ok(Processes {
            records: Records::reserve(alloc)?,
            holders: [None; 32],
            spaces: empty_spaces(alloc, frames)?,
            belongings: new_belongings(alloc)?,
            live: 0,
            room: frames,
        })
    }

    // how many numbers were given
    pub(crate) fn given(&self) -> u32
        ensures { result ≡ length self.now.processes }
    {
        self.records.len()
    }

    // how many processes live
    pub(crate) fn count(&self) -> u32
        ensures { result ≡ length (all_holdings self.now.processes) }
    {
        self.live
    }

    pub(crate) fn is_full(&self) -> bool
        ensures { result ≡ nat_le 32 (length (all_holdings self.now.processes)) }
    {
        self.live >= MOST_PROCESSES
    }

    // one process more; its number
    pub(crate) fn add(&mut self, parent: u32) -> u32
        requires room { nat_le 32 (length (all_holdings self.old.processes)) ≡ false }
        requires numbers { length self.old.processes < 65535 }
        requires parent { IsParent self.old.processes parent }
        ensures number { result ≡ length self.old.processes + 1 }
        ensures begins { self.new
            ≡ record self.old { processes = self.old.processes ++ new_process parent ∷ [] } }
    {
        let place = match first_none(&self.holders) {
            Some(place) => place,
            None => unreachable!(),
        };
        let number = self.records.len() + 1;
        self.holders[place] = Some(number);
        self.spaces[place].clear();
        self.belongings[place] = first_belongings();
        self.live += 1;
        self.records.add(parent, Kept::Live(place as u32));
        number
    }

    // one process more, which lives and has these belongings and pages
    pub(crate) fn restore_living(&mut self, parent: u32, belongings: Belongings, space: Space)
        requires room { nat_le 32 (length (all_holdings self.old.processes)) ≡ false }
        requires numbers { length self.old.processes < 65535 }
        requires parent { parent ≤ length self.old.processes }
        requires space { space.room ≡ self.old.room }
        ensures { self.new
            ≡ record self.old {
              processes =
                  self.old.processes ++ living_process parent (holdings_by belongings space.entries)
                  ∷ [];
            } }
    {
        let place = match first_none(&self.holders) {
            Some(place) => place,
            None => unreachable!(),
        };
        let number = self.records.len() + 1;
        self.holders[place] = Some(number);
        self.spaces[place] = space;
        self.belongings[place] = belongings;
        self.live += 1;
        self.records.add(parent, Kept::Live(place as u32));
    }

    // one process more, which has ended with this status and wasn't collected
    pub(crate) fn restore_ended(&mut self, parent: u32, status: u8)
        requires numbers { length self.old.processes < 65535 }
        requires parent { parent ≤ length self.old.processes }
        ensures { self.new
            ≡ record self.old {
              processes =
                  self.old.processes ++ ended_process parent status false ∷ [];
            } }
    {
        let ended = Kept::Ended {
            status,
            collected: false,
        };
        self.records.add(parent, ended);
    }

    // one process more, which has ended with this status and was collected
    pub(crate) fn restore_collected(&mut self, parent: u32, status: u8)
        requires numbers { length self.old.processes < 65535 }
        requires parent { parent ≤ length self.old.processes }
        ensures { self.new
            ≡ record self.old {
              processes =
                  self.old.processes ++ ended_process parent status true ∷ [];
            } }
    {
        self.records.add_collected(parent, status);
    }

    // The process has ended, and its children have no parent.
    pub(crate) fn end(&mut self, pid: u32, status: u8)
        requires { IsProcess self.old.processes pid }
        ensures { self.new
            ≡ record self.old {
              processes =
                  map (orphaned pid) (changed (ended_by status) self.old.processes pid);
            } }
    {
        let place = self.records.place_of(pid);
        self.holders[place] = None;
        self.live -= 1;
        self.records.end(pid, status);
    }

    pub(crate) fn is_live(&self, pid: u32) -> bool
        ensures { result ≡ is_some (held_in self.now.processes pid) }
    {
        self.records.place_in(pid).is_some()
    }

    pub(crate) fn status(&self, pid: u32) -> Option<u8>
        requires { IsSome (numbered self.now.processes pid) }
        ensures { IfSome (numbered self.now.processes pid)
            (λ process. result ≡ last_status process) }
    {
        match self.records.get(pid).kept {
            Kept::Live(_) => None,
            Kept::Ended { status, .. } => Some(status),
        }
    }

    pub(crate) fn was_collected(&self, pid: u32) -> bool
        requires { IsSome (numbered self.now.processes pid) }
        ensures { IfSome (numbered self.now.processes pid)
            (λ process. result ≡ was_collected process) }
    {
        match self.records.get(pid).kept {
            Kept::Live(_) => false,
            Kept::Ended { collected, .. } => collected,
        }
    }

    pub(crate) fn parent(&self, pid: u32) -> u32
        requires { IsSome (numbered self.now.processes pid) }
        ensures { IfSome (numbered self.now.processes pid) (λ process. result ≡ process.parent) }
    {
        self.records.get(pid).parent
    }

    // what a wait of this process for a child comes to
    pub(crate) fn outcome(&self, parent: u32, which: u32) -> Collected
        ensures { result ≡ outcome self.now.processes parent which }
    {
        if self.records.first_child(parent, which, false).is_none() {
            return Collected::NoChild;
        }
        match self.records.first_child(parent, which, true) {
            Some(pid) => Collected::Got {
                pid,
                status: status_of(self.records.get(pid).kept),
            },
            None => Collected::Wait,
        }
    }

    // the same, and the child is collected
    pub(crate) fn collect(&mut self, parent: u32, which: u32) -> Collected
        ensures is { result ≡ outcome self.old.processes parent which }
        ensures collects { self.new
            ≡ record self.old { processes = after_wait result self.old.processes } }
    {
        let found = self.outcome(parent, which);
        match found {
            Collected::Got { pid, status } => {
                self.records.collect(parent, pid, status);
                found
            }
            Collected::Wait => found,
            Collected::NoChild => found,
        }
    }

    pub(crate) fn space(&self, pid: u32) -> &Space
        requires { IsProcess self.now.processes pid }
        ensures entries { IfSome (held_in self.now.processes pid)
            (λ h. result.now.entries ≡ h.space) }
        ensures room { result.now.room ≡ self.now.room }
    {
        &self.spaces[self.records.place_of(pid)]
    }

    pub(crate) fn put_entry(&mut self, pid: u32, page: u32, entry: Entry)
        requires live { IsProcess self.old.processes pid }
        requires unmapped { IfSome (held_in self.old.processes pid)
            (λ h. look h.space page ≡ None) }
        requires room { IfSome (held_in self.old.processes pid)
            (λ h. length h.space < self.old.room) }
        ensures { self.new
            ≡ record self.old {
              processes =
                  changed (on_holdings (with_entry page entry)) self.old.processes pid;
            } }
    {
        let place = self.records.place_of(pid);
        self.spaces[place].put(page, entry);
    }

    pub(crate) fn put_run(&mut self, pid: u32, page: u32, count: u32, entry: Entry)
        requires live { IsProcess self.old.processes pid }
        requires unmapped { IfSome (held_in self.old.processes pid)
            (λ h. list_any (in_run page count) h.space ≡ false) }
        requires room { IfSome (held_in self.old.processes pid)
            (λ h. length h.space + count ≤ self.old.room) }
        requires fits { page + count ≤ 2 ^ 32 }
        ensures { self.new
            ≡ record self.old {
              processes =
                  changed (on_holdings (run_put page count entry)) self.old.processes pid;
            } }
    {
        let place = self.records.place_of(pid);
        self.spaces[place].put_run(page, count, entry);
    }

    pub(crate) fn replace_entry(&mut self, pid: u32, page: u32, entry: Entry)
        requires live { IsProcess self.old.processes pid }
        requires mapped { IfSome (held_in self.old.processes pid) (λ h. IsMapped h.space page) }
        ensures { self.new
            ≡ record self.old {
              processes =
                  changed (on_holdings (entry_replaced page entry)) self.old.processes pid;
            } }
    {
        let place = self.records.place_of(pid);
        self.spaces[place].replace(page, entry);
    }

    pub(crate) fn clear_space(&mut self, pid: u32)
        requires { IsProcess self.old.processes pid }
        ensures { self.new
            ≡ record self.old {
              processes =
                  changed (on_holdings without_entries) self.old.processes pid;
            } }
    {
        let place = self.records.place_of(pid);
        self.spaces[place].clear();
    }

    pub(crate) fn remove_run(&mut self, pid: u32, page: u32, count: u32)
        requires { IsProcess self.old.processes pid }
        ensures { self.new
            ≡ record self.old {
              processes =
                  changed (on_holdings (run_unmapped page count)) self.old.processes pid;
            } }
    {
        let place = self.records.place_of(pid);
        self.spaces[place].remove_run(page, count);
    }

    pub(crate) fn share_run(&mut self, pid: u32, page: u32, count: u32)
        requires { IsProcess self.old.processes pid }
        ensures { self.new
            ≡ record self.old {
              processes =
                  changed (on_holdings (run_shared page count)) self.old.processes pid;
            } }
    {
        let place = self.records.place_of(pid);
        self.spaces[place].share_run(page, count);
    }

    pub(crate) fn descriptors(&self, pid: u32) -> &[Option<End>; 32]
        requires { IsProcess self.now.processes pid }
        ensures { IfSome (held_in self.now.processes pid) (λ h. result.now ≡ h.descriptors) }
    {
        &self.belongings[self.records.place_of(pid)].descriptors
    }

    pub(crate) fn actions(&self, pid: u32) -> &[u32; 31]
        requires { IsProcess self.now.processes pid }
        ensures { IfSome (held_in self.now.processes pid) (λ h. result.now ≡ h.actions) }
    {
        &self.belongings[self.records.place_of(pid)].actions
    }

    pub(crate) fn descriptor(&self, pid: u32, number: u32) -> Option<End>
        requires { IsProcess self.now.processes pid }
        ensures { IfSome (held_in self.now.processes pid) (λ h. result ≡ end_named h number) }
    {
        end_at(
            &self.belongings[self.records.place_of(pid)].descriptors,
            number,
        )
    }

    // the lowest descriptor that isn't open
    pub(crate) fn lowest_closed(&self, pid: u32) -> Option<u32>
        requires { IsProcess self.now.processes pid }
        ensures { IfSome (held_in self.now.processes pid)
            (λ h. result ≡ position is_none h.descriptors) }
    {
        lowest_none(&self.belongings[self.records.place_of(pid)].descriptors)
    }

    pub(crate) fn set_descriptor(&mut self, pid: u32, number: u32, end: Option<End>)
        requires { IsProcess self.old.processes pid }
        ensures { self.new
            ≡ record self.old {
              processes =
                  changed (on_holdings (with_end number end)) self.old.processes pid;
            } }
    {
        let place = self.records.place_of(pid);
        set_end(&mut self.belongings[place].descriptors, number, end);
    }

    pub(crate) fn close_all(&mut self, pid: u32)
        requires { IsProcess self.old.processes pid }
        ensures { self.new
            ≡ record self.old {
              processes =
                  changed (on_holdings without_ends) self.old.processes pid;
            } }
    {
        let place = self.records.place_of(pid);
        self.belongings[place].descriptors = [None; 32];
    }

    // the action of a signal from 1 to 31
    pub(crate) fn action(&self, pid: u32, signal: u8) -> u32
        requires live { IsProcess self.now.processes pid }
        requires signal { is_signal signal ≡ true }
        ensures { IfSome (held_in self.now.processes pid)
            (λ h. result ≡ slice_index h.actions (signal - 1)) }
    {
        action_at(&self.belongings[self.records.place_of(pid)].actions, signal)
    }

    pub(crate) fn set_action(&mut self, pid: u32, signal: u8, action: u32)
        requires live { IsProcess self.old.processes pid }
        requires signal { is_signal signal ≡ true }
        ensures { self.new
            ≡ record self.old {
              processes =
                  changed (on_holdings (with_action signal action)) self.old.processes pid;
            } }
    {
        let place = self.records.place_of(pid);
        set_action_at(&mut self.belongings[place].actions, signal, action);
    }

    // One process gets the actions and descriptors of another.
    pub(crate) fn copy_held(&mut self, from: u32, to: u32)
        requires from { IsProcess self.old.processes from }
        requires to { IsProcess self.old.processes to }
        ensures { IfSome (held_in self.old.processes from)
            (λ h. self.new
            ≡ record self.old {
              processes =
                  changed (on_holdings (held_as h)) self.old.processes to;
            }) }
    {
        let source = self.records.place_of(from);
        let place = self.records.place_of(to);
        let belongings = self.belongings[source];
        self.belongings[place] = belongings;
    }
}

fn empty_spaces(alloc: Global, frames: u32) -> Result<Vec<Space>, AllocError>
    ensures { IfOk result (λ spaces. spaces.items ≡ replicate 32 (empty frames)) }
{
    let mut spaces = Vec::with_capacity(alloc, MOST_PROCESSES as usize)?;
    for _place in 0..MOST_PROCESSES {
        spaces.push(Space::reserve(alloc, frames)?)?;
    }
    Ok(spaces)
}

fn new_belongings(alloc: Global) -> Result<Vec<Belongings>, AllocError>
    ensures { IfOk result (λ all. all.items ≡ replicate 32 first_belongings) }
{
    vec![in alloc; first_belongings(); MOST_PROCESSES as usize]
}

// no descriptor open, and all actions default
fn first_belongings() -> Belongings
    ensures { result ≡ first_belongings }
{
    Belongings {
        descriptors: [None; 32],
        actions: [0; 31],
    }
}

// these actions and descriptors
pub(crate) fn belongings_of(actions: &[u32], ends: &[Option<End>]) -> Belongings
    requires actions { length actions.now ≡ 31 }
    requires ends { length ends.now ≡ 32 }
    ensures { result ≡ record { descriptors = ends.now; actions = actions.now } }
{
    let mut belongings = first_belongings();
    belongings.actions.copy_from_slice(actions);
    belongings.descriptors.copy_from_slice(ends);
    belongings
}

// the place of the first that is None
pub(crate) fn first_none<T>(options: &[Option<T>]) -> Option<usize>
    ensures { result ≡ position is_none options.now }
{
    options.iter().position(|option| option.is_none())
}

fn end_at(ends: &[Option<End>; 32], number: u32) -> Option<End>
    ensures { result ≡ unwrap_or (slice_get ends.now number) None }
{
    match ends.get(number as usize) {
        Some(end) => *end,
        None => None,
    }
}

fn lowest_none(ends: &[Option<End>; 32]) -> Option<u32>
    ensures { result ≡ position is_none ends.now }
{
    match first_none(ends) {
        Some(number) => Some(number as u32),
        None => None,
    }
}

// a number above 31 is no descriptor's
fn set_end(ends: &mut [Option<End>; 32], number: u32, end: Option<End>)
    ensures { ends.new ≡ slice_set ends.old number end }
{
    if number < 32 {
        ends[number as usize] = end;
    }
}

fn action_at(actions: &[u32; 31], signal: u8) -> u32
    requires { is_signal signal ≡ true }
    ensures { result ≡ slice_index actions.now (signal - 1) }
{
    actions[(signal - 1) as usize]
}

fn set_action_at(actions: &mut [u32; 31], signal: u8, action: u32)
    requires { is_signal signal ≡ true }
    ensures { actions.new ≡ slice_set actions.old (signal - 1) action }
{
    actions[(signal - 1) as usize] = action;
}

fn status_of(kept: Kept) -> u8
    ensures { result ≡ status_or_0 kept }
{
    match kept {
        Kept::Live(_) => 0,
        Kept::Ended { status, .. } => status,
    }
}
