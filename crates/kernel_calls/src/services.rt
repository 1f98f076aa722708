// The services by number.
ghost use Rattle.std.specs.Prelude.{◌≡◌, ◌<◌, ℕ, List, ◌∷◌, IfSome, IfOk, OnErr, OnOk};
ghost use Rattle.dos_world.specs.Services.{service};
ghost use Rattle.dos_io.specs.Shims.{HasNoEnd};
ghost use Rattle.proc_table.specs.Tables.{IsLiveThread, ran, thread_by, thread_in};
ghost use Rattle.kernel_calls.specs.StateWorld.{HaveParts, IsCounted, IsReady, IsSound};
ghost use Rattle.kernel_calls.specs.StateWorld.{StandsButOwners};
ghost use Rattle.kernel_calls.specs.StateWorld.{left_after, sent, world_of, StaysInRound};
ghost use Rattle.kernel_calls.specs.Plays.{PlaysOnce};
ghost use Rattle.kernel_calls.specs.Built.{definition_by, definition_of, quiet_definition_of};
ghost use Rattle.kernel_calls.specs.CallResults.{AreAsked, ActsQuietly, call_in, paid_state};

use crate::answering::{refuse_call, reply};
use crate::children::{fork, wait};
use crate::clock::clock;
use crate::descriptors::{close, dup, pipe};
use crate::memory::{map, share, unmap};
use crate::naming::{QuietService, Service, service_named};
use crate::reading::read;
use crate::signalling::{kill, sig_handler, sig_mask, sig_return};
use crate::sleeping::{futex_wait, futex_wake};
use crate::state::{Asked, RunStop, Served, State};
use crate::threads::{process_exit, round_number, thread_exit, thread_new};
use crate::writing::write;
use dos_io::Border;
use dos_world::Regs;
use dos_world::errors::ENOSYS;

/// Serves a live thread that is ready and has a budget: the service that its x17 names, which costs
/// one of the budget.
///
/// After an `Err` the run is over, and nothing is served or paid for: each process and thread is as
/// before the call, this thread's registers and budget too. Of the frames owners alone may differ:
/// a page whose bytes were read before a put failed may be shared now. Then a front of the bytes
/// that the service sends has crossed the border, and nothing else; where the shim stops, nothing.
pub fn serve<B: Border>(state: &mut State, tid: u32, border: &mut B) -> Result<Served, RunStop>
    requires sound { IsSound state.old }
    requires live { IsLiveThread state.old.table.threads tid }
    requires ready { IsReady state.old.table.threads tid }
    requires budget { IfSome (thread_in state.old.table.threads tid) (λ thread. 0 < thread.budget) }
    requires told { HasNoEnd (B.state border.old).shim.told }
    ensures plays { PlaysOnce (λ w. service w tid) result
        state.old (B.state border.old) state.new (B.state border.new) }
    ensures sound { IsSound state.new }
    ensures parts { IfOk result
        (λ way. (ts : List ℕ) → HaveParts (tid ∷ ts) state.old
        → HaveParts (left_after way tid ts) state.new) }
    ensures stands { OnErr result (StandsButOwners state.old state.new) }
    ensures round { StaysInRound state.old state.new }
    ensures follows { B.follows border.old border.new }
{
    let regs = *state.table.regs(tid);
    let budget = state.table.budget(tid);
    let (service, asked) = call_by(state, tid);
    charge(state, tid);
    match dispatch(state, service, &asked, border) {
        Ok(way) => Ok(way),
        Err(stop) => {
            restore(state, tid, regs, budget);
            Err(stop)
        }
    }
}

// The service that the thread's registers name, where there is one, and what they ask it.
fn call_by(state: &State, tid: u32) -> (Option<Service>, Asked)
    requires live { IsLiveThread state.now.table.threads tid }
    requires ready { IsReady state.now.table.threads tid }
    ensures asked { AreAsked (paid_state state.now tid) result.1 }
    ensures calls { (q : ℕ) (o e : List ℕ)
        → service (sent o e (world_of q state.now)) tid
        ≡ definition_by result.0
        (call_in (sent o e (world_of q (paid_state state.now tid))) result.1) }
{
    let regs = *state.table.regs(tid);
    let asked = Asked {
        thread: tid,
        process: state.table.process_of(tid),
        a0: regs.get(10),
        a1: regs.get(11),
        a2: regs.get(12),
    };
    (service_named(regs.get(17)), asked)
}

// One of the thread's budget goes, and its reservation.
fn charge(state: &mut State, tid: u32)
    requires sound { IsSound state.old }
    requires live { IsLiveThread state.old.table.threads tid }
    requires budget { IfSome (thread_in state.old.table.threads tid) (λ thread. 0 < thread.budget) }
    ensures charges { state.new ≡ paid_state state.old tid }
    ensures sound { IsSound state.new }
{
    state.table.charge(tid);
}

// The thread's registers and budget are these again.
fn restore(state: &mut State, tid: u32, regs: Regs, budget: u32)
    requires { IsLiveThread state.old.table.threads tid }
    ensures { state.new
        ≡ record state.old { table = thread_by (ran regs budget) state.old.table tid } }
{
    state.table.set_run(tid, regs, budget);
}

// The service, once it is paid for.
fn dispatch<B: Border>(
    state: &mut State,
    service: Option<Service>,
    asked: &Asked,
    border: &mut B,
) -> Result<Served, RunStop>
    requires sound { IsSound state.old }
    requires asked { AreAsked state.old asked.now }
    requires told { HasNoEnd (B.state border.old).shim.told }
    ensures plays { PlaysOnce (λ w. definition_by service (call_in w asked.now)) result
        state.old (B.state border.old) state.new (B.state border.new) }
    ensures counted { OnOk result (IsCounted state.new) }
    ensures stands { OnErr result (StandsButOwners state.old state.new) }
    ensures round { StaysInRound state.old state.new }
    ensures follows { B.follows border.old border.new }
{
    match service {
        Some(service) => perform(state, service, asked, border),
        None => {
            refuse_call(state, asked.thread, ENOSYS);
            Ok(Served::Went)
        }
    }
}

fn perform<B: Border>(
    state: &mut State,
    service: Service,
    asked: &Asked,
    border: &mut B,
) -> Result<Served, RunStop>
    requires sound { IsSound state.old }
    requires asked { AreAsked state.old asked.now }
    requires told { HasNoEnd (B.state border.old).shim.told }
    ensures plays { PlaysOnce (λ w. definition_of service (call_in w asked.now)) result
        state.old (B.state border.old) state.new (B.state border.new) }
    ensures counted { OnOk result (IsCounted state.new) }
    ensures stands { OnErr result (StandsButOwners state.old state.new) }
    ensures round { StaysInRound state.old state.new }
    ensures follows { B.follows border.old border.new }
{
    match service {
        Service::Quiet(service) => Ok(perform_quietly(state, service, asked)),
        Service::Read => read(state, asked, border),
        Service::Write => write(state, asked, border),
        Service::Clock => clock(state, asked, border),
    }
}

// A service that asks nothing and sends nothing.
fn perform_quietly(state: &mut State, service: QuietService, asked: &Asked) -> Served
    requires sound { IsSound state.old }
    requires asked { AreAsked state.old asked.now }
    ensures goes_on { ActsQuietly (quiet_definition_of service) state.old asked.now result
        state.new }
    ensures counted { IsCounted state.new }
    ensures round { StaysInRound state.old state.new }
{
    match service {
        QuietService::ThreadExit => {
            thread_exit(state, asked);
            Served::Gone
        }
        QuietService::ProcessExit => {
            process_exit(state, asked);
            Served::Gone
        }
        QuietService::ThreadNew => {
            thread_new(state, asked);
            Served::Went
        }
        QuietService::Fork => {
            fork(state, asked);
            Served::Went
        }
        QuietService::Wait => wait(state, asked),
        QuietService::Pipe => {
            pipe(state, asked);
            Served::Went
        }
        QuietService::Close => {
            close(state, asked);
            Served::Went
        }
        QuietService::Dup => {
            dup(state, asked);
            Served::Went
        }
        QuietService::FutexWait => futex_wait(state, asked),
        QuietService::FutexWake => {
            futex_wake(state, asked);
            Served::Went
        }
        QuietService::MapPages => {
            map(state, asked);
            Served::Went
        }
        QuietService::Unmap => {
            unmap(state, asked);
            Served::Went
        }
        QuietService::Share => {
            share(state, asked);
            Served::Went
        }
        QuietService::SigHandler => {
            sig_handler(state, asked);
            Served::Went
        }
        QuietService::SigMask => {
            sig_mask(state, asked);
            Served::Went
        }
        QuietService::SigReturn => {
            sig_return(state, asked);
            Served::Went
        }
        QuietService::Kill => {
            kill(state, asked);
            Served::Went
        }
        QuietService::GetPid => {
            reply(state, asked.thread, asked.process);
            Served::Went
        }
        QuietService::GetTid => {
            reply(state, asked.thread, asked.thread);
            Served::Went
        }
        QuietService::Yield => {
            reply(state, asked.thread, 0);
            Served::Yields
        }
        QuietService::RoundNumber => {
            round_number(state, asked);
            Served::Went
        }
    }
}
