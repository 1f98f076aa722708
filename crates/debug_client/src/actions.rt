//! Which threads resumptions are for, and what each of them does.
ghost use Rattle.std.specs.Prelude.{◌≡◌, ℕ, List, Bool, true, find};
ghost use Rattle.std.specs.List.{list_any};
ghost use Rattle.group_moves.specs.Moments.{Moment};
ghost use Rattle.debug_session.specs.Actions.{which_fits, id_fits, which_is_of, id_names};
ghost use Rattle.debug_session.specs.Actions.{which_only, thread_named, is_range_action};
ghost use Rattle.debug_session.specs.Actions.{range_action, action_of_thread, are_for};
ghost use Rattle.debug_session.specs.Resuming.{is_step, owed_to};
ghost use Rattle.debug_client.specs.Births.{AreBirthsKnown, has_which, knows_id, knows_named};
ghost use Rattle.debug_client.specs.Clients.{is_step_of};

use crate::births::Births;
use crate::numbers::is_some_number;
use gdb_packets::ids::{ThreadId, Which};
use gdb_packets::resumptions::{Action, Resumption};

fn which_fits(which: Which, number: u32) -> bool
    ensures { result ≡ which_fits which number }
{
    match which {
        Which::All => true,
        Which::Any => true,
        Which::Only(other) => other == number,
    }
}

// an id fits this process's thread
fn id_fits(id: ThreadId, process: u32, thread: u32) -> bool
    ensures { result ≡ id_fits id process thread }
{
    match id {
        ThreadId::Both {
            process: processes,
            thread: threads,
        } => both_fit(processes, threads, process, thread),
        ThreadId::ProcessAlone(processes) => which_fits(processes, process),
        ThreadId::ThreadAlone(threads) => which_fits(threads, thread),
    }
}

fn both_fit(processes: Which, threads: Which, process: u32, thread: u32) -> bool
    ensures { result ≡ id_fits (ThreadId.Both processes threads) process thread }
{
    if which_fits(processes, process) {
        return which_fits(threads, thread);
    }
    false
}

fn which_only(which: Which) -> Option<u32>
    ensures { result ≡ which_only which }
{
    match which {
        Which::All => None,
        Which::Any => None,
        Which::Only(number) => Some(number),
    }
}

/// The one thread that an id names.
pub fn thread_named(id: ThreadId) -> Option<u32>
    ensures { result ≡ thread_named id }
{
    match id {
        ThreadId::Both { thread, .. } => which_only(thread),
        ThreadId::ProcessAlone(_) => None,
        ThreadId::ThreadAlone(thread) => which_only(thread),
    }
}

fn is_range_action(action: Action) -> bool
    ensures { result ≡ is_range_action action }
{
    match action {
        Action::Range { .. } => true,
        Action::Continue => false,
        Action::ContinueSignal(_) => false,
        Action::Step => false,
        Action::StepSignal(_) => false,
    }
}

// the first range of these resumptions
fn first_range(resumptions: &[Resumption], other: Action) -> Action
    requires { is_range_action other ≡ true }
    ensures { result ≡ range_action resumptions.now other }
{
    for resumption in resumptions {
        if is_range_action(resumption.action) {
            return resumption.action;
        }
    }
    other
}

fn range_action(resumptions: &[Resumption], action: Action) -> Action
    ensures { result ≡ range_action resumptions.now action }
{
    if is_range_action(action) {
        return first_range(resumptions, action);
    }
    action
}

/// The action of a process's thread: that of the first resumption that fits it.
pub fn action_of_thread(resumptions: &[Resumption], process: u32, thread: u32) -> Option<Action>
    ensures { result ≡ action_of_thread resumptions.now process thread }
{
    for resumption in resumptions {
        if id_fits(resumption.threads, process, thread) {
            return Some(range_action(resumptions, resumption.action));
        }
    }
    None
}

// a part of an id fits a thread that this process has at some moment
fn which_is_of(births: &Births, which: Which, process: u32) -> bool
    requires { has_which births.now which ≡ true }
    ensures { (moments : List Moment) → AreBirthsKnown births.now moments
        → result ≡ which_is_of moments which process }
{
    match which {
        Which::All => true,
        Which::Any => true,
        Which::Only(thread) => is_some_number(process, births.home(thread)),
    }
}

fn both_name(births: &Births, processes: Which, threads: Which, process: u32) -> bool
    requires { has_which births.now threads ≡ true }
    ensures { (moments : List Moment) → AreBirthsKnown births.now moments
        → result ≡ id_names moments (ThreadId.Both processes threads) process }
{
    if which_fits(processes, process) {
        return which_is_of(births, threads, process);
    }
    false
}

// an id fits a process or a thread of it
fn id_names(births: &Births, id: ThreadId, process: u32) -> bool
    requires { knows_id births.now id ≡ true }
    ensures { (moments : List Moment) → AreBirthsKnown births.now moments
        → result ≡ id_names moments id process }
{
    match id {
        ThreadId::Both {
            process: processes,
            thread: threads,
        } => both_name(births, processes, threads, process),
        ThreadId::ProcessAlone(processes) => which_fits(processes, process),
        ThreadId::ThreadAlone(threads) => which_is_of(births, threads, process),
    }
}

/// Whether some action is for a process, or for a thread of it.
pub(crate) fn are_for(births: &Births, resumptions: &[Resumption], process: u32) -> bool
    requires { knows_named births.now resumptions.now ≡ true }
    ensures { (moments : List Moment) → AreBirthsKnown births.now moments
        → result ≡ are_for moments resumptions.now process }
{
    for resumption in resumptions {
        if id_names(births, resumption.threads, process) {
            return true;
        }
    }
    false
}

fn is_step(action: Action) -> bool
    ensures { result ≡ is_step action }
{
    match action {
        Action::Step => true,
        Action::StepSignal(_) => true,
        Action::Continue => false,
        Action::ContinueSignal(_) => false,
        Action::Range { .. } => false,
    }
}

// a step of this thread
fn is_step_of(resumption: Resumption, thread: u32) -> bool
    ensures { result ≡ is_step_of resumption thread }
{
    if is_step(resumption.action) {
        return is_some_number(thread, thread_named(resumption.threads));
    }
    false
}

/// The thread whose step is owed, where the first of these resumptions is a step of it.
pub(crate) fn owed_to(owed: Option<u32>, resumptions: &[Resumption]) -> Option<u32>
    ensures { result ≡ owed_to owed resumptions.now }
{
    let thread = owed?;
    match resumptions {
        [] => None,
        [first, ..] => {
            if is_step_of(*first, thread) {
                return Some(thread);
            }
            None
        }
    }
}
