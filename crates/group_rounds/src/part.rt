// One thread's part in a round.
ghost use Rattle.std.specs.Prelude.{◌≡◌, ◌+◌, ◌≤◌, ◌<◌, ◌∷◌, ℕ, List, true, IfOk};
ghost use Rattle.std.specs.Prelude.{OnOk, Err, if◌then◌else◌};
ghost use Rattle.dos_world.specs.Kernel.{process_ended};
ghost use Rattle.dos_world.specs.World.{registers_by, released};
ghost use Rattle.dos_world.specs.declared.Reason.TheVariants.{Page, Fault};
ghost use Rattle.dos_io.specs.Shims.{HasNoEnd};
ghost use Rattle.flat_machine.specs.Step.{step};
ghost use Rattle.flat_machine.specs.Alone.{alone, emptied};
ghost use Rattle.flat_machine.specs.Rest.{page_granted, process_of, rest_of};
ghost use Rattle.proc_table.specs.Tables.{IsLiveThread, thread_by};
ghost use Rattle.kernel_calls.specs.StateWorld.{HaveParts, IsReady, IsSound, sent, world_of};
ghost use Rattle.kernel_calls.specs.StateWorld.{StaysInRound};
ghost use Rattle.kernel_calls.specs.Plays.{Plays};
ghost use Rattle.group_rounds.specs.Parts.{KeepsCount, RanPart, RanUpTo, budget_in};
ghost use Rattle.group_rounds.specs.Parts.{goes_on_after};
ghost use Rattle.group_rounds.specs.Parts.{part_left, part_measure, turns_left};
ghost use Rattle.group_rounds.specs.Outcomes.{Serves};

use dos_io::Border;
use dos_world::{Access, Reason};
use kernel_calls::{RunStop, Served, State, end_process, serve};
use proc_table::Table;

// no reservation
fn empty_reservation(table: &mut Table, tid: u32)
    requires live { IsLiveThread table.old.threads tid }
    ensures { table.new ≡ thread_by (registers_by released) table.old tid }
{
    let mut regs = *table.regs(tid);
    regs.set_held(None);
    table.set_regs(tid, regs);
}

/// A part of the thread begins: with no reservation.
pub fn begin(state: &mut State, tid: u32)
    requires sound { IsSound state.old }
    requires live { IsLiveThread state.old.table.threads tid }
    ensures empties { (q : ℕ) (o e : List ℕ)
        → emptied (sent o e (world_of q state.old)) tid ≡ sent o e (world_of q state.new) }
    ensures budget { budget_in state.new tid ≡ budget_in state.old tid }
    ensures sound { IsSound state.new }
    ensures parts { (ts : List ℕ) → HaveParts ts state.old → HaveParts ts state.new }
    ensures round { StaysInRound state.old state.new }
    ensures count { KeepsCount state.old state.new }
    ensures live { IsLiveThread state.new.table.threads tid }
{
    empty_reservation(&mut state.table, tid);
}

/// Runs the thread in place until its next instruction stops, its budget is 0 or it is at one of
/// the addresses `stops`: why it stops, or else None.
pub fn run_until_address(state: &mut State, tid: u32, stops: &[u32]) -> Option<Reason>
    requires sound { IsSound state.old }
    requires live { IsLiveThread state.old.table.threads tid }
    ensures ran { RanUpTo stops.now state.old tid state.new result }
    ensures sound { IsSound state.new }
    ensures parts { (ts : List ℕ) → HaveParts ts state.old → HaveParts ts state.new }
    ensures round { StaysInRound state.old state.new }
    ensures count { KeepsCount state.old state.new }
    ensures live { IsLiveThread state.new.table.threads tid }
{
    let mut budget = state.table.budget(tid);
    if budget == 0 {
        return None;
    }
    let pid = state.table.process_of(tid);
    let mut regs = *state.table.regs(tid);
    let space = state.table.space(pid);
    let frames = &mut state.frames;
    let reason = quantum_run::run_until_address(frames, space, tid, &mut regs, &mut budget, stops);
    // that each page has an owner is known of the frames themselves
    let _count = state.frames.count();
    state.table.set_run(tid, regs, budget);
    reason
}

/// Runs the thread in place until its next instruction stops or its budget is 0: why it stops, or
/// None exactly where the budget is 0.
pub fn run(state: &mut State, tid: u32) -> Option<Reason>
    requires sound { IsSound state.old }
    requires live { IsLiveThread state.old.table.threads tid }
    ensures ran { RanPart state.old tid state.new result }
    ensures sound { IsSound state.new }
    ensures parts { (ts : List ℕ) → HaveParts ts state.old → HaveParts ts state.new }
    ensures round { StaysInRound state.old state.new }
    ensures count { KeepsCount state.old state.new }
    ensures live { IsLiveThread state.new.table.threads tid }
{
    run_until_address(state, tid, &[])
}

/// The thread's parallel part, in place: how many instructions it did, each for one of its budget.
pub(crate) fn run_alone(state: &mut State, tid: u32) -> u32
    requires sound { IsSound state.old }
    requires live { IsLiveThread state.old.table.threads tid }
    ensures runs { (q : ℕ) (o e : List ℕ)
        → alone (sent o e (world_of q state.old)) tid ≡ sent o e (world_of q state.new) }
    ensures paid { budget_in state.old tid ≡ result + budget_in state.new tid }
    ensures sound { IsSound state.new }
    ensures round { StaysInRound state.old state.new }
    ensures count { KeepsCount state.old state.new }
{
    let budget = state.table.budget(tid);
    begin(state, tid);
    let _stop = run(state, tid);
    budget - state.table.budget(tid)
}

/// The page at an address is granted.
pub fn grant(state: &mut State, tid: u32, address: u32, access: Access)
    requires sound { IsSound state.old }
    requires live { IsLiveThread state.old.table.threads tid }
    ensures grants { (q : ℕ) (o e : List ℕ)
        → page_granted (sent o e (world_of q state.old)) tid address access
        ≡ sent o e (world_of q state.new) }
    ensures sound { IsSound state.new }
    ensures parts { (ts : List ℕ) → HaveParts ts state.old → HaveParts ts state.new }
    ensures table { state.new.table ≡ state.old.table }
    ensures round { StaysInRound state.old state.new }
    ensures count { KeepsCount state.old state.new }
{
    let pid = state.table.process_of(tid);
    if let Some(entry) = state.table.space(pid).look(address / 4096) {
        state.frames.grant(entry.frame, tid, access);
    }
}

/// The thread's process ends, with 128 plus the number of its fault.
pub fn end_by_fault(state: &mut State, tid: u32, number: u8)
    requires sound { IsSound state.old }
    requires live { IsLiveThread state.old.table.threads tid }
    requires small { number ≤ 11 }
    ensures ends { (q : ℕ) (o e : List ℕ)
        → process_ended (sent o e (world_of q state.old))
        (process_of (sent o e (world_of q state.old)) tid) (128 + number)
        ≡ sent o e (world_of q state.new) }
    ensures sound { IsSound state.new }
    ensures parts { (ts : List ℕ) → HaveParts (tid ∷ ts) state.old → HaveParts ts state.new }
    ensures round { StaysInRound state.old state.new }
    ensures count { KeepsCount state.old state.new }
{
    let pid = state.table.process_of(tid);
    end_process(state, pid, 128 + number);
}

/// Whether the thread's part goes on.
pub fn goes_on_after(way: Served) -> bool
    ensures { result ≡ goes_on_after way }
{
    match way {
        Served::Went => true,
        Served::Waits | Served::Yields | Served::Gone => false,
    }
}

// what follows a stop: the page is granted, or the process ends, or the ecall is served; whether
// the part goes on
fn take_turn<B: Border>(
    state: &mut State,
    tid: u32,
    reason: Reason,
    border: &mut B,
) -> Result<bool, RunStop>
    requires sound { IsSound state.old }
    requires live { IsLiveThread state.old.table.threads tid }
    requires ready { IsReady state.old.table.threads tid }
    requires budget { 0 < budget_in state.old tid }
    requires stops { (q : ℕ) (o e : List ℕ)
        → step (sent o e (world_of q state.old)) tid ≡ Err reason }
    requires told { HasNoEnd (B.state border.old).shim.told }
    ensures plays { (q : ℕ) → Plays q (λ w. w) (turns_left tid) (part_left tid) result
        state.old (B.state border.old) state.new (B.state border.new) }
    ensures less { IfOk result (λ on. on ≡ true
        → part_measure state.new tid < part_measure state.old tid) }
    ensures live { IfOk result (λ on. on ≡ true → IsLiveThread state.new.table.threads tid) }
    ensures sound { OnOk result (IsSound state.new) }
    ensures parts { IfOk result (λ on. (ts : List ℕ) → HaveParts (tid ∷ ts) state.old
        → HaveParts (if on then tid ∷ ts else ts) state.new) }
    ensures round { StaysInRound state.old state.new }
    ensures count { OnOk result (KeepsCount state.old state.new) }
    ensures follows { B.follows border.old border.new }
{
    match reason {
        Reason::Page { address, access } => {
            grant(state, tid, address, access);
            Ok(true)
        }
        Reason::Fault(number) => {
            end_by_fault(state, tid, number);
            Ok(false)
        }
        Reason::Service => {
            match serve(state, tid, border) {
                Ok(way) => Ok(goes_on_after(way)),
                Err(stop) => Err(stop),
            }
        }
    }
}

/// The thread's serial part: until its budget is 0 or it waits, yields or is gone.
///
/// After an `Err` nothing is said of the state but its round.
pub(crate) fn finish<B: Border>(state: &mut State, tid: u32, border: &mut B) -> Result<(), RunStop>
    requires sound { IsSound state.old }
    requires live { IsLiveThread state.old.table.threads tid }
    requires ready { IsReady state.old.table.threads tid }
    requires told { HasNoEnd (B.state border.old).shim.told }
    ensures serves { Serves (λ w. rest_of w tid) result
        state.old (B.state border.old) state.new (B.state border.new) }
    ensures parts { OnOk result ((ts : List ℕ) → HaveParts (tid ∷ ts) state.old
        → HaveParts ts state.new) }
    ensures follows { B.follows border.old border.new }
{
    begin(state, tid);
    while let Some(reason) = run(state, tid) {
        if !take_turn(state, tid, reason, border)? {
            break;
        }
    }
    Ok(())
}
