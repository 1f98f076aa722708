// The table of processes and threads.
ghost use Rattle.std.specs.Prelude.{◌≡◌, ◌<◌, ◌≤◌, ◌+◌, ◌-◌, ◌^◌, length, slice_index, None, Some};
ghost use Rattle.std.specs.Prelude.{[], IfOk, IfErr, IsSome, IfSome, is_some, is_none, position};
ghost use Rattle.std.specs.Prelude.{slice_get};
ghost use Rattle.std.specs.Prelude.{true, false};
ghost use Rattle.std.specs.List.{list_any};
ghost use Rattle.dos_world.specs.Numbered.{numbered, changed, numbers_of};
ghost use Rattle.dos_world.specs.World.{all_holdings, belongs_to, first_of, in_state, look};
ghost use Rattle.dos_world.specs.World.{none_of, registers_by, was_collected};
ghost use Rattle.dos_world.specs.Kernel.{awake, pending_with, with_entry, without_entries};
ghost use Rattle.dos_world.specs.Calls.{charged};
ghost use Rattle.dos_world.specs.ThreadCalls.{are_threads_full, ready_thread};
ghost use Rattle.dos_world.specs.ProcessCalls.{are_processes_full};
ghost use Rattle.dos_world.specs.DescriptorCalls.{with_end};
ghost use Rattle.dos_world.specs.SignalCalls.{is_signal, masked, with_action};
ghost use Rattle.dos_world.specs.Signals.{chosen, cleared, handling};
ghost use Rattle.space_map.specs.Mapping.{IsMapped, in_run};
ghost use Rattle.proc_table.specs.Children.{after_wait, outcome};
ghost use Rattle.proc_table.specs.Tables.{are_any, restored_in, IsParent, IsProcess, IsLiveThread};
ghost use Rattle.proc_table.specs.Tables.{end_named, entry_replaced, held_as, held_by, held_in};
ghost use Rattle.proc_table.specs.Tables.{last_status, new_process, next_in, no_tables, ran};
ghost use Rattle.proc_table.specs.Tables.{thread_by, thread_in, with_budget, with_ended};
ghost use Rattle.proc_table.specs.Tables.{process_added, run_put, run_shared, run_unmapped};
ghost use Rattle.proc_table.specs.Tables.{thread_added, without_ends};
ghost use Rattle.proc_table.specs.Tables.{ended_process, living_process, process_restored};
ghost use Rattle.proc_table.specs.Spread.{AreRising, living_from, spread};
ghost use Rattle.std.specs.Vec.{vec_capacity};

use crate::processes::{Processes, belongings_of};
use crate::thread::Thread;
use crate::threads::Threads;
use crate::{Collected, SignalState};
use arrayvec::ArrayVec;
use dos_world::errors::EAGAIN;
use dos_world::{End, Entry, Regs, ThreadState};
use space_map::Space;
use std::alloc::{AllocError, Global};
use std::marker::Model;

/// Processes and threads, numbered from 1; a number isn't given again. Contracts see the record
/// `Tables`.
#[derive(Drop)]
pub struct Table {
    processes: Processes,
    threads: Threads,
}

impl Model for Table {
    ghost use Rattle.std.specs.Prelude.{◌≤◌, length};
    ghost use Rattle.proc_table.specs.Tables.{Tables};

    ghost Value = { Tables };

    ghost view = { λ t. record {
      processes = t.processes.processes;
      threads = t.threads;
      room =
          t.processes.room;
    } };

    ghost invariant = { λ t. length t.processes.processes ≤ length t.threads };
}

impl Table {
    /// No process and no thread; each space will have room for `frames` entries. All memory of the
    /// table is taken here.
    pub fn reserve(alloc: Global, frames: u32) -> Result<Table, AllocError>
        ensures { IfOk result (λ t. t ≡ no_tables frames) }
    {
        Ok(Table {
            processes: Processes::reserve(alloc, frames)?,
            threads: Threads::reserve(alloc)?,
        })
    }

    /// No process, and these threads with their numbers, where so many numbers were given; each
    /// space will have room for `frames` entries. All memory of the table is taken here.
    pub fn with_threads(
        alloc: Global,
        frames: u32,
        live: Vec<(u32, Thread)>,
        given: u32,
    ) -> Result<Table, AllocError>
        requires rising { AreRising 1 (given + 1) live.items }
        requires few { length live.items ≤ 64 }
        requires numbers { given ≤ 65535 }
        requires taken { 64 ≤ vec_capacity live }
        ensures { IfOk result (λ t. t
            ≡ record { processes = []; threads = spread live.items given; room = frames }) }
    {
        let processes = Processes::reserve(alloc, frames)?;
        Ok(Table {
            processes,
            threads: Threads::restore(live, given),
        })
    }

    /// The process of the next number lives: it has this parent, these actions of the signals 1 to
    /// 31, these 32 descriptors and these pages. Fewer processes than threads were given a number.
    pub fn restore_living(
        &mut self,
        parent: u32,
        actions: &[u32],
        ends: &[Option<End>],
        space: Space,
    )
        requires room { length (all_holdings self.old.processes) < 32 }
        requires numbers { length self.old.processes < length self.old.threads }
        requires given { length self.old.processes < 65535 }
        requires parent { parent ≤ length self.old.processes }
        requires actions { length actions.now ≡ 31 }
        requires ends { length ends.now ≡ 32 }
        requires space { space.room ≡ self.old.room }
        ensures { self.new ≡ process_restored self.old (living_process parent (record {
          actions = actions.now;
          descriptors = ends.now;
          space =
              space.entries;
        })) }
    {
        self.processes
            .restore_living(parent, belongings_of(actions, ends), space);
    }

    /// The process of the next number has ended with this status, and was collected by its parent
    /// or wasn't. Fewer processes than threads were given a number.
    pub fn restore_ended(&mut self, parent: u32, status: u8, collected: bool)
        requires numbers { length self.old.processes < length self.old.threads }
        requires given { length self.old.processes < 65535 }
        requires parent { parent ≤ length self.old.processes }
        ensures { self.new ≡ process_restored self.old (ended_process parent status collected) }
    {
        if collected {
            self.processes.restore_collected(parent, status);
        } else {
            self.processes.restore_ended(parent, status);
        }
    }

    /// A new process with one ready thread: their numbers, or 11 exactly where 32 processes or 64
    /// threads live, or thread number 65535 was given. It has no page, no descriptor is open, and
    /// all actions are default. Parent 0 is none. Of `signals` the thread gets the mask and what is
    /// saved; nothing is pending.
    pub fn add_process(
        &mut self,
        parent: u32,
        regs: Regs,
        signals: SignalState,
    ) -> Result<(u32, u32), u8>
        requires { IsParent self.old.processes parent }
        ensures full { IfErr result
            (λ code. (are_processes_full self.old.processes self.old.threads ≡ true)
            × (code ≡ 11) × (self.new ≡ self.old)) }
        ensures room { IfOk result
            (λ _. are_processes_full self.old.processes self.old.threads ≡ false) }
        ensures numbers { IfOk result
            (λ given. given ≡ (length self.old.processes + 1, length self.old.threads + 1)) }
        ensures begins { IfOk result
            (λ _. self.new ≡ process_added self.old (new_process parent)
            (ready_thread
            (length self.old.processes + 1) regs signals.mask signals.saved)) }
    {
        if self.processes.is_full() {
            return Err(EAGAIN);
        }
        if self.threads.is_full() {
            return Err(EAGAIN);
        }
        let pid = self.processes.add(parent);
        let tid = self.threads.add(ready_thread(pid, regs, signals));
        Ok((pid, tid))
    }

    /// A new ready thread of a process: its number, or 11 exactly where 64 threads live or number
    /// 65535 was given. Its budget is 0, and nothing is pending or saved.
    pub fn add_thread(&mut self, pid: u32, regs: Regs, mask: u32) -> Result<u32, u8>
        requires { IsProcess self.old.processes pid }
        ensures full { IfErr result (λ code. (are_threads_full self.old.threads ≡ true)
            × (code ≡ 11) × (self.new ≡ self.old)) }
        ensures room { IfOk result (λ _. are_threads_full self.old.threads ≡ false) }
        ensures number { IfOk result (λ tid. tid ≡ length self.old.threads + 1) }
        ensures begins { IfOk result
            (λ _. self.new ≡ thread_added self.old (ready_thread pid regs mask [])) }
    {
        if self.threads.is_full() {
            return Err(EAGAIN);
        }
        Ok(
            self.threads
                .add(ready_thread(pid, regs, SignalState::masked(mask))),
        )
    }

    /// Whether no more processes can be made: 32 processes or 64 threads live, or thread number
    /// 65535 was given.
    pub fn is_full(&self) -> bool
        ensures { result ≡ are_processes_full self.now.processes self.now.threads }
    {
        if self.processes.is_full() {
            return true;
        }
        self.threads.is_full()
    }

    /// The thread is gone; its number isn't given again.
    #[tactic(auto, using(crate::proofs::Lengths::lengths))]
    pub fn end_thread(&mut self, tid: u32)
        requires { IsLiveThread self.old.threads tid }
        ensures { self.new ≡ record self.old { threads = changed none_of self.old.threads tid } }
    {
        self.threads.remove(tid);
    }

    /// The process has ended with this status: its threads are gone, and its children have no
    /// parent.
    #[tactic(auto, using(crate::proofs::Lengths::lengths))]
    pub fn end_process(&mut self, pid: u32, status: u8)
        requires { IsProcess self.old.processes pid }
        ensures { self.new ≡ with_ended self.old pid status }
    {
        self.processes.end(pid, status);
        self.threads.remove_of(pid);
    }

    /// How many numbers of processes were given.
    pub fn processes(&self) -> u32
        ensures { result ≡ length self.now.processes }
    {
        self.processes.given()
    }

    /// How many numbers of threads were given.
    pub fn threads(&self) -> u32
        ensures { result ≡ length self.now.threads }
    {
        self.threads.given()
    }

    /// The live thread at this place in rising number, with its number.
    pub fn live_thread(&self, place: u32) -> (u32, &Thread)
        requires { place < length (living_from 1 self.now.threads) }
        ensures { slice_get (living_from 1 self.now.threads) place
            ≡ Some (result.0, result.1.now) }
    {
        self.threads.at(place)
    }

    /// How many threads live.
    pub fn live_threads(&self) -> u32
        ensures { result ≡ length (numbers_of is_some self.now.threads) }
    {
        self.threads.count()
    }

    /// How many processes live.
    pub fn live_processes(&self) -> u32
        ensures { result ≡ length (all_holdings self.now.processes) }
    {
        self.processes.count()
    }

    /// Whether the process of this number lives. Any number.
    pub fn is_live(&self, pid: u32) -> bool
        ensures { result ≡ is_some (held_in self.now.processes pid) }
    {
        self.processes.is_live(pid)
    }

    /// The status of a process whose number was given. None exactly where it lives.
    pub fn status(&self, pid: u32) -> Option<u8>
        requires { IsSome (numbered self.now.processes pid) }
        ensures { IfSome (numbered self.now.processes pid)
            (λ process. result ≡ last_status process) }
    {
        self.processes.status(pid)
    }

    /// Whether a process whose number was given has ended and its parent has collected it.
    pub fn was_collected(&self, pid: u32) -> bool
        requires { IsSome (numbered self.now.processes pid) }
        ensures { IfSome (numbered self.now.processes pid)
            (λ process. result ≡ was_collected process) }
    {
        self.processes.was_collected(pid)
    }

    /// The number of the parent, 0 where there is none, of a process whose number was given.
    pub fn parent(&self, pid: u32) -> u32
        requires { IsSome (numbered self.now.processes pid) }
        ensures { IfSome (numbered self.now.processes pid) (λ process. result ≡ process.parent) }
    {
        self.processes.parent(pid)
    }

    /// What a wait of the process for its children comes to: of those that `which` names, where 0
    /// names all, the lowest that has ended, with its status. Any numbers.
    pub fn child_ended(&self, pid: u32, which: u32) -> Collected
        ensures { result ≡ outcome self.now.processes pid which }
    {
        self.processes.outcome(pid, which)
    }

    /// The same, and the child that has ended is collected: it isn't found again.
    #[tactic(auto, using(crate::proofs::Lengths::lengths))]
    pub fn collect(&mut self, pid: u32, which: u32) -> Collected
        ensures is { result ≡ outcome self.old.processes pid which }
        ensures collects { self.new
            ≡ record self.old { processes = after_wait result self.old.processes } }
    {
        self.processes.collect(pid, which)
    }

    /// Whether the thread of this number lives. Any number.
    pub fn is_thread(&self, tid: u32) -> bool
        ensures { result ≡ is_some (thread_in self.now.threads tid) }
    {
        self.threads.is_thread(tid)
    }

    /// The thread's process.
    pub fn process_of(&self, tid: u32) -> u32
        requires { IsLiveThread self.now.threads tid }
        ensures { IfSome (thread_in self.now.threads tid) (λ thread. result ≡ thread.process) }
    {
        self.threads.get(tid).process
    }

    /// The process's lowest live thread. Any number.
    pub fn first_thread(&self, pid: u32) -> Option<u32>
        ensures { result ≡ first_of (numbers_of (belongs_to pid) self.now.threads) }
    {
        self.threads.first_of(pid)
    }

    /// The lowest live thread above a number. Any number.
    pub fn next_thread(&self, after: u32) -> Option<u32>
        ensures { result ≡ next_in self.now.threads after }
    {
        self.threads.next(after)
    }

    /// The numbers of the process's live threads, in rising order. Any number.
    pub fn numbers_of(&self, pid: u32) -> ArrayVec<u32, 64>
        ensures { result.items ≡ numbers_of (belongs_to pid) self.now.threads }
    {
        self.threads.numbers_of(pid)
    }

    /// How many threads of the process live. Any number.
    pub fn threads_of(&self, pid: u32) -> u32
        ensures { result ≡ length (numbers_of (belongs_to pid) self.now.threads) }
    {
        self.threads.count_of(pid)
    }

    /// The thread's registers.
    pub fn regs(&self, tid: u32) -> &Regs
        requires { IsLiveThread self.now.threads tid }
        ensures { IfSome (thread_in self.now.threads tid)
            (λ thread. result.now ≡ thread.registers) }
    {
        &self.threads.get(tid).regs
    }

    /// Sets the thread's registers.
    #[tactic(auto, using(crate::proofs::Lengths::lengths))]
    pub fn set_regs(&mut self, tid: u32, regs: Regs)
        requires { IsLiveThread self.old.threads tid }
        ensures { self.new ≡ thread_by (registers_by (λ _. regs)) self.old tid }
    {
        let thread = self.threads.get_mut(tid);
        thread.regs = regs;
    }

    /// The thread's budget: how many units of work it may still do in this round.
    pub fn budget(&self, tid: u32) -> u32
        requires { IsLiveThread self.now.threads tid }
        ensures { IfSome (thread_in self.now.threads tid) (λ thread. result ≡ thread.budget) }
    {
        self.threads.get(tid).budget
    }

    /// Sets the thread's budget.
    #[tactic(auto, using(crate::proofs::Lengths::lengths))]
    pub fn set_budget(&mut self, tid: u32, budget: u32)
        requires { IsLiveThread self.old.threads tid }
        ensures { self.new ≡ thread_by (with_budget budget) self.old tid }
    {
        let thread = self.threads.get_mut(tid);
        thread.budget = budget;
    }

    /// Sets the thread's registers and its budget, as they are after a run.
    #[tactic(auto, using(crate::proofs::Lengths::lengths))]
    pub fn set_run(&mut self, tid: u32, regs: Regs, budget: u32)
        requires { IsLiveThread self.old.threads tid }
        ensures { self.new ≡ thread_by (ran regs budget) self.old tid }
    {
        let thread = self.threads.get_mut(tid);
        thread.regs = regs;
        thread.budget = budget;
    }

    /// Whether the thread runs or waits.
    pub fn state(&self, tid: u32) -> ThreadState
        requires { IsLiveThread self.now.threads tid }
        ensures { IfSome (thread_in self.now.threads tid) (λ thread. result ≡ thread.state) }
    {
        self.threads.get(tid).state
    }

    /// Sets whether the thread runs or waits.
    #[tactic(auto, using(crate::proofs::Lengths::lengths))]
    pub fn set_state(&mut self, tid: u32, state: ThreadState)
        requires { IsLiveThread self.old.threads tid }
        ensures { self.new ≡ thread_by (in_state state) self.old tid }
    {
        let thread = self.threads.get_mut(tid);
        thread.state = state;
    }

    /// The thread is ready with this answer: it is in a0, and pc is past the ecall.
    #[tactic(auto, using(crate::proofs::Lengths::lengths))]
    pub fn wake(&mut self, tid: u32, value: u32)
        requires { IsLiveThread self.old.threads tid }
        ensures { self.new ≡ thread_by (awake value) self.old tid }
    {
        let thread = self.threads.get_mut(tid);
        let next = thread.regs.pc().wrapping_add(4);
        thread.regs.set(10, value);
        thread.regs.set_pc(next);
        thread.state = ThreadState::Ready;
    }

    /// The thread's mask, a set of bits: bit k for signal k.
    pub fn mask(&self, tid: u32) -> u32
        requires { IsLiveThread self.now.threads tid }
        ensures { IfSome (thread_in self.now.threads tid) (λ thread. result ≡ thread.mask) }
    {
        self.threads.get(tid).signals.mask()
    }

    /// The thread's signals.
    pub fn signals(&self, tid: u32) -> &SignalState
        requires { IsLiveThread self.now.threads tid }
        ensures mask { IfSome (thread_in self.now.threads tid)
            (λ thread. result.now.mask ≡ thread.mask) }
        ensures saved { IfSome (thread_in self.now.threads tid)
            (λ thread. result.now.saved ≡ thread.saved) }
    {
        &self.threads.get(tid).signals
    }

    /// The signal is pending at the thread.
    #[tactic(auto, using(crate::proofs::Lengths::lengths))]
    pub fn post(&mut self, tid: u32, signal: u8)
        requires live { IsLiveThread self.old.threads tid }
        requires signal { signal < 32 }
        ensures { self.new ≡ thread_by (pending_with signal) self.old tid }
    {
        let thread = self.threads.get_mut(tid);
        thread.signals.post(signal);
    }

    /// The signal that comes to the thread: 9 where it is pending, else the lowest pending one that
    /// isn't masked. None exactly where there is neither.
    pub fn first_signal(&self, tid: u32) -> Option<u8>
        requires { IsLiveThread self.now.threads tid }
        ensures { IfSome (thread_in self.now.threads tid) (λ thread. result ≡ chosen thread) }
    {
        self.threads.get(tid).signals.first()
    }

    /// How many registers and masks of the thread are saved, at most 4.
    pub fn depth(&self, tid: u32) -> u32
        requires { IsLiveThread self.now.threads tid }
        ensures { IfSome (thread_in self.now.threads tid) (λ thread. result ≡ length thread.saved) }
    {
        self.threads.get(tid).signals.depth()
    }

    /// The signal isn't pending at the thread any more.
    #[tactic(auto, using(crate::proofs::Lengths::lengths))]
    pub fn clear_signal(&mut self, tid: u32, signal: u8)
        requires live { IsLiveThread self.old.threads tid }
        requires signal { signal < 32 }
        ensures { self.new ≡ thread_by (cleared signal) self.old tid }
    {
        let thread = self.threads.get_mut(tid);
        thread.signals.clear(signal);
    }

    /// Sets the thread's mask, less bits 0 and 9.
    #[tactic(auto, using(crate::proofs::Lengths::lengths))]
    pub fn set_mask(&mut self, tid: u32, mask: u32)
        requires { IsLiveThread self.old.threads tid }
        ensures { self.new ≡ thread_by (masked mask) self.old tid }
    {
        let thread = self.threads.get_mut(tid);
        thread.signals.set_mask(mask);
    }

    /// A handler of the signal begins at the thread: registers and mask are saved, the signal is
    /// masked and not pending any more, and the thread goes on at `handler` with the signal in a0.
    #[tactic(auto, using(crate::proofs::Lengths::lengths))]
    pub fn begin_handler(&mut self, tid: u32, signal: u8, handler: u32)
        requires live { IsLiveThread self.old.threads tid }
        requires signal { signal < 32 }
        requires room { IfSome (thread_in self.old.threads tid)
            (λ thread. length thread.saved < 4) }
        ensures { self.new ≡ thread_by (handling signal handler) self.old tid }
    {
        let thread = self.threads.get_mut(tid);
        let regs = thread.regs;
        thread.signals.handle(signal, regs);
        thread.regs.set(10, u32::from(signal));
        thread.regs.set_pc(handler);
    }

    /// The registers and mask that were saved last come back to the thread, without the
    /// reservation. False exactly where nothing is saved; nothing changes then.
    #[tactic(auto, using(crate::proofs::Lengths::lengths))]
    pub fn restore(&mut self, tid: u32) -> bool
        requires { IsLiveThread self.old.threads tid }
        ensures found { IfSome (thread_in self.old.threads tid)
            (λ thread. result ≡ are_any thread.saved) }
        ensures restores { IfSome (thread_in self.old.threads tid)
            (λ thread. self.new ≡ restored_in thread.saved self.old tid) }
    {
        if self.threads.get(tid).signals.depth() == 0 {
            return false;
        }
        let thread = self.threads.get_mut(tid);
        match thread.signals.restore() {
            Some(regs) => {
                thread.regs = regs;
                thread.regs.set_held(None);
                true
            }
            None => unreachable!(),
        }
    }

    /// Takes one unit of the thread's budget for a service, and its reservation.
    #[tactic(auto, using(crate::proofs::Lengths::lengths))]
    pub fn charge(&mut self, tid: u32)
        requires live { IsLiveThread self.old.threads tid }
        requires budget { IfSome (thread_in self.old.threads tid) (λ thread. 0 < thread.budget) }
        ensures { self.new ≡ thread_by charged self.old tid }
    {
        self.threads.charge(tid);
    }

    /// The process's space.
    pub fn space(&self, pid: u32) -> &Space
        requires { IsProcess self.now.processes pid }
        ensures entries { IfSome (held_in self.now.processes pid)
            (λ h. result.now.entries ≡ h.space) }
        ensures room { result.now.room ≡ self.now.room }
    {
        self.processes.space(pid)
    }

    /// Maps a page in the process's space.
    #[tactic(auto, using(crate::proofs::Lengths::lengths))]
    pub fn put_entry(&mut self, pid: u32, page: u32, entry: Entry)
        requires live { IsProcess self.old.processes pid }
        requires unmapped { IfSome (held_in self.old.processes pid)
            (λ h. look h.space page ≡ None) }
        requires room { IfSome (held_in self.old.processes pid)
            (λ h. length h.space < self.old.room) }
        ensures { self.new ≡ held_by (with_entry page entry) self.old pid }
    {
        self.processes.put_entry(pid, page, entry);
    }

    /// Maps `count` pages from this one on in the process's space, each with this entry.
    #[tactic(auto, using(crate::proofs::Lengths::lengths))]
    pub fn put_run(&mut self, pid: u32, page: u32, count: u32, entry: Entry)
        requires live { IsProcess self.old.processes pid }
        requires unmapped { IfSome (held_in self.old.processes pid)
            (λ h. list_any (in_run page count) h.space ≡ false) }
        requires room { IfSome (held_in self.old.processes pid)
            (λ h. length h.space + count ≤ self.old.room) }
        requires fits { page + count ≤ 2 ^ 32 }
        ensures { self.new ≡ held_by (run_put page count entry) self.old pid }
    {
        self.processes.put_run(pid, page, count, entry);
    }

    /// A page that the process maps gets this entry.
    #[tactic(auto, using(crate::proofs::Lengths::lengths))]
    pub fn replace_entry(&mut self, pid: u32, page: u32, entry: Entry)
        requires live { IsProcess self.old.processes pid }
        requires mapped { IfSome (held_in self.old.processes pid) (λ h. IsMapped h.space page) }
        ensures { self.new ≡ held_by (entry_replaced page entry) self.old pid }
    {
        self.processes.replace_entry(pid, page, entry);
    }

    /// Unmaps all pages of the process.
    #[tactic(auto, using(crate::proofs::Lengths::lengths))]
    pub fn clear_space(&mut self, pid: u32)
        requires { IsProcess self.old.processes pid }
        ensures { self.new ≡ held_by without_entries self.old pid }
    {
        self.processes.clear_space(pid);
    }

    /// Unmaps those of `count` pages from this one on that the process maps. Its other pages stay.
    #[tactic(auto, using(crate::proofs::Lengths::lengths))]
    pub fn remove_run(&mut self, pid: u32, page: u32, count: u32)
        requires { IsProcess self.old.processes pid }
        ensures { self.new ≡ held_by (run_unmapped page count) self.old pid }
    {
        self.processes.remove_run(pid, page, count);
    }

    /// Makes the entries shared of those of `count` pages from this one on that the process maps.
    #[tactic(auto, using(crate::proofs::Lengths::lengths))]
    pub fn share_run(&mut self, pid: u32, page: u32, count: u32)
        requires { IsProcess self.old.processes pid }
        ensures { self.new ≡ held_by (run_shared page count) self.old pid }
    {
        self.processes.share_run(pid, page, count);
    }

    /// What each of the process's 32 descriptors names, None where it isn't open.
    pub fn descriptors(&self, pid: u32) -> &[Option<End>; 32]
        requires { IsProcess self.now.processes pid }
        ensures { IfSome (held_in self.now.processes pid) (λ h. result.now ≡ h.descriptors) }
    {
        self.processes.descriptors(pid)
    }

    /// The process's actions of the signals 1 to 31.
    pub fn actions(&self, pid: u32) -> &[u32; 31]
        requires { IsProcess self.now.processes pid }
        ensures { IfSome (held_in self.now.processes pid) (λ h. result.now ≡ h.actions) }
    {
        self.processes.actions(pid)
    }

    /// What the process's descriptor names. None exactly where it isn't open. Any number of a
    /// descriptor.
    pub fn descriptor(&self, pid: u32, number: u32) -> Option<End>
        requires { IsProcess self.now.processes pid }
        ensures { IfSome (held_in self.now.processes pid) (λ h. result ≡ end_named h number) }
    {
        self.processes.descriptor(pid, number)
    }

    /// Opens the lowest descriptor of the process that isn't open; its number. None exactly where
    /// all 32 are open; nothing changes then.
    #[tactic(auto, using(crate::proofs::Lengths::lengths))]
    pub fn open_lowest(&mut self, pid: u32, end: End) -> Option<u32>
        requires { IsProcess self.old.processes pid }
        ensures lowest { IfSome (held_in self.old.processes pid)
            (λ h. result ≡ position is_none h.descriptors) }
        ensures none { result ≡ None → self.new ≡ self.old }
        ensures opens { IfSome result
            (λ number. self.new ≡ held_by (with_end number (Some end)) self.old pid) }
    {
        let number = self.processes.lowest_closed(pid)?;
        self.processes.set_descriptor(pid, number, Some(end));
        Some(number)
    }

    /// Closes the process's descriptor; what it named. None exactly where it wasn't open. Any
    /// number of a descriptor.
    #[tactic(auto, using(crate::proofs::Lengths::lengths))]
    pub fn close(&mut self, pid: u32, number: u32) -> Option<End>
        requires { IsProcess self.old.processes pid }
        ensures was { IfSome (held_in self.old.processes pid) (λ h. result ≡ end_named h number) }
        ensures closes { self.new ≡ held_by (with_end number None) self.old pid }
    {
        let end = self.processes.descriptor(pid, number);
        self.processes.set_descriptor(pid, number, None);
        end
    }

    /// Closes all descriptors of the process.
    #[tactic(auto, using(crate::proofs::Lengths::lengths))]
    pub fn close_all(&mut self, pid: u32)
        requires { IsProcess self.old.processes pid }
        ensures { self.new ≡ held_by without_ends self.old pid }
    {
        self.processes.close_all(pid);
    }

    /// The process's action of a signal from 1 to 31: 0 default, 1 ignore, or the address of a
    /// handler.
    pub fn action(&self, pid: u32, signal: u8) -> u32
        requires live { IsProcess self.now.processes pid }
        requires signal { is_signal signal ≡ true }
        ensures { IfSome (held_in self.now.processes pid)
            (λ h. result ≡ slice_index h.actions (signal - 1)) }
    {
        self.processes.action(pid, signal)
    }

    /// Sets the process's action of a signal from 1 to 31.
    #[tactic(auto, using(crate::proofs::Lengths::lengths))]
    pub fn set_action(&mut self, pid: u32, signal: u8, action: u32)
        requires live { IsProcess self.old.processes pid }
        requires signal { is_signal signal ≡ true }
        ensures { self.new ≡ held_by (with_action signal action) self.old pid }
    {
        self.processes.set_action(pid, signal, action);
    }

    /// One process gets the actions and descriptors of another. Its pages stay.
    #[tactic(auto, using(crate::proofs::Lengths::lengths))]
    pub fn copy_held(&mut self, from: u32, to: u32)
        requires from { IsProcess self.old.processes from }
        requires to { IsProcess self.old.processes to }
        ensures { IfSome (held_in self.old.processes from)
            (λ h. self.new ≡ held_by (held_as h) self.old to) }
    {
        self.processes.copy_held(from, to);
    }
}

// a thread that begins: ready, with no budget and nothing pending
fn ready_thread(pid: u32, regs: Regs, signals: SignalState) -> Thread
    ensures { result ≡ ready_thread pid regs signals.mask signals.saved }
{
    Thread {
        process: pid,
        regs,
        budget: 0,
        state: ThreadState::Ready,
        signals: signals.begun(),
    }
}
