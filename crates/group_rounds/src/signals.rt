// The signal point of a round: the posts, then a turn of each live thread.
ghost use Rattle.std.specs.Prelude.{◌≡◌, ◌+◌, ◌≤◌, ◌<◌, ◌==◌, ◌||◌, ℕ, List, length, true};
ghost use Rattle.std.specs.Prelude.{IfSome};
ghost use Rattle.std.specs.Vec.{vec_capacity};
ghost use Rattle.dos_world.specs.SignalCalls.{is_signal};
ghost use Rattle.dos_world.specs.Signals.{all_posted, default_action, delivered, handler_action};
ghost use Rattle.dos_world.specs.Signals.{interrupted, signal_turn, signal_turns, signalled};
ghost use Rattle.proc_table.specs.Tables.{IsLiveThread, thread_in};
ghost use Rattle.kernel_calls.specs.Ending.{posted_in};
ghost use Rattle.kernel_calls.specs.StateWorld.{IsCounted, IsSound, sent, world_of, StaysInRound};
ghost use Rattle.group_rounds.specs.Parts.{KeepsCount};

use crate::phases::gather_live;
use dos_io::SignalList;
use dos_world::ThreadState;
use dos_world::errors::EINTR;
use kernel_calls::{State, end_process};
use proc_table::Table;

// so many registers and masks may be saved
const MOST_SAVED: u32 = 4;

// a signal is posted to a process. Any number
fn post(table: &mut Table, pid: u32, signal: u8)
    requires signal { signal < 32 }
    ensures { table.new ≡ posted_in table.old pid signal }
{
    match table.first_thread(pid) {
        Some(tid) => table.post(tid, signal),
        None => {}
    }
}

// each post, one after another
fn post_all(state: &mut State, list: &SignalList)
    requires sound { IsSound state.old }
    ensures posts { (q : ℕ) (o e : List ℕ)
        → all_posted (sent o e (world_of q state.old)) list.now
        ≡ sent o e (world_of q state.new) }
    ensures sound { IsSound state.new }
    ensures round { StaysInRound state.old state.new }
    ensures count { KeepsCount state.old state.new }
{
    for index in 0..list.len() {
        let next = list.at(index);
        post(&mut state.table, next.pid, next.signal);
    }
}

// the default action: 17 is dropped, any other signal ends the process
fn act_by_default(state: &mut State, tid: u32, signal: u8)
    requires sound { IsSound state.old }
    requires live { IsLiveThread state.old.table.threads tid }
    requires signal { is_signal signal ≡ true }
    ensures acts { IfSome (thread_in state.old.table.threads tid)
        (λ thread. (q : ℕ) (o e : List ℕ)
        → default_action (sent o e (world_of q state.old)) tid thread signal
        ≡ sent o e (world_of q state.new)) }
    ensures counted { IsCounted state.new }
    ensures round { StaysInRound state.old state.new }
    ensures count { KeepsCount state.old state.new }
{
    if signal == 17 {
        state.table.clear_signal(tid, signal);
        return;
    }
    let pid = state.table.process_of(tid);
    end_process(state, pid, 128 + signal);
}

// a thread that waits or sleeps goes on with -4 in a0
fn interrupt(state: &mut State, tid: u32)
    requires live { IsLiveThread state.old.table.threads tid }
    ensures interrupts { IfSome (thread_in state.old.table.threads tid)
        (λ thread. (q : ℕ) (o e : List ℕ)
        → interrupted (sent o e (world_of q state.old)) tid thread
        ≡ sent o e (world_of q state.new)) }
    ensures room { IfSome (thread_in state.old.table.threads tid)
        (λ thread. length thread.saved < 4)
        → IfSome (thread_in state.new.table.threads tid) (λ thread. length thread.saved < 4) }
    ensures live { IsLiveThread state.new.table.threads tid }
    ensures counted { IsCounted state.old → IsCounted state.new }
    ensures round { StaysInRound state.old state.new }
    ensures count { KeepsCount state.old state.new }
{
    if state.table.state(tid) == ThreadState::Ready {
        return;
    }
    state.table.wake(tid, 0u32.wrapping_sub(u32::from(EINTR)));
    state.futexes.remove(tid);
}

// the handler begins; where four are saved already, the signal stays pending
fn act_by_handler(state: &mut State, tid: u32, signal: u8, handler: u32)
    requires live { IsLiveThread state.old.table.threads tid }
    requires counted { IsCounted state.old }
    requires signal { is_signal signal ≡ true }
    ensures acts { IfSome (thread_in state.old.table.threads tid)
        (λ thread. (q : ℕ) (o e : List ℕ)
        → handler_action (sent o e (world_of q state.old)) tid thread signal handler
        ≡ sent o e (world_of q state.new)) }
    ensures counted { IsCounted state.new }
    ensures round { StaysInRound state.old state.new }
    ensures count { KeepsCount state.old state.new }
{
    if state.table.depth(tid) >= MOST_SAVED {
        return;
    }
    interrupt(state, tid);
    state.table.begin_handler(tid, signal, handler);
}

// whether the default action is taken: of signal 9 it is, whatever was set
fn is_default(action: u32, signal: u8) -> bool
    ensures { result ≡ (action == 0) || (signal == 9) }
{
    action == 0 || signal == 9
}

// a signal comes to a thread
fn deliver(state: &mut State, tid: u32, signal: u8)
    requires sound { IsSound state.old }
    requires live { IsLiveThread state.old.table.threads tid }
    requires signal { is_signal signal ≡ true }
    ensures delivers { IfSome (thread_in state.old.table.threads tid)
        (λ thread. (q : ℕ) (o e : List ℕ)
        → delivered (sent o e (world_of q state.old)) tid thread signal
        ≡ sent o e (world_of q state.new)) }
    ensures counted { IsCounted state.new }
    ensures round { StaysInRound state.old state.new }
    ensures count { KeepsCount state.old state.new }
{
    let pid = state.table.process_of(tid);
    let action = state.table.action(pid, signal);
    if is_default(action, signal) {
        act_by_default(state, tid, signal);
    } else if action == 1 {
        state.table.clear_signal(tid, signal);
    } else {
        act_by_handler(state, tid, signal, action);
    }
}

// a thread's turn, if it still lives
fn take_signal(state: &mut State, tid: u32)
    requires sound { IsSound state.old }
    ensures takes { (q : ℕ) (o e : List ℕ)
        → signal_turn (sent o e (world_of q state.old)) tid
        ≡ sent o e (world_of q state.new) }
    ensures sound { IsSound state.new }
    ensures round { StaysInRound state.old state.new }
    ensures count { KeepsCount state.old state.new }
{
    if !state.table.is_thread(tid) {
        return;
    }
    match state.table.first_signal(tid) {
        Some(signal) => deliver(state, tid, signal),
        None => {}
    }
}

// the turns of these threads, one after another
fn take_signals(state: &mut State, threads: &[u32])
    requires sound { IsSound state.old }
    ensures takes { (q : ℕ) (o e : List ℕ)
        → signal_turns (sent o e (world_of q state.old)) threads.now
        ≡ sent o e (world_of q state.new) }
    ensures sound { IsSound state.new }
    ensures round { StaysInRound state.old state.new }
    ensures count { KeepsCount state.old state.new }
{
    for &tid in threads {
        take_signal(state, tid);
    }
}

/// The signal point: the posts of a list, then the turns of the threads that live now, in rising
/// number. A thread that is gone by its turn is passed over.
pub(crate) fn signal_point(state: &mut State, scratch: &mut Vec<u32>, list: &SignalList)
    requires sound { IsSound state.old }
    requires room { 64 ≤ vec_capacity scratch.old }
    ensures signals { (q : ℕ) (o e : List ℕ)
        → signalled (sent o e (world_of q state.old)) list.now
        ≡ sent o e (world_of q state.new) }
    ensures sound { IsSound state.new }
    ensures room { 64 ≤ vec_capacity scratch.new }
    ensures round { StaysInRound state.old state.new }
    ensures count { KeepsCount state.old state.new }
{
    post_all(state, list);
    gather_live(&state.table, scratch);
    take_signals(state, scratch.as_slice());
}
