// The parallel phase in the buffered scheme: the packs run over memory as it is, with words of
// their own, and what each has written is put in memory in thread order. Where there is one pack,
// its words are put in memory as they are written.
ghost use Rattle.std.specs.Prelude.{◌≡◌, ◌≤◌, ◌<◌, ◌+◌, ◌-◌, ◌^◌, [], ℕ, List, All, IsSome, Some};
ghost use Rattle.std.specs.Prelude.{length, true};
ghost use Rattle.std.specs.Vec.{vec_capacity};
ghost use Rattle.dos_laws.specs.Taken.{IsPartIn};
ghost use Rattle.flat_machine.specs.Buffered.{with_part};
ghost use Rattle.kernel_calls.specs.StateWorld.{IsSound, StaysInRound, sent, world_of};
ghost use Rattle.proc_table.specs.Tables.{IsLiveThread};
ghost use Rattle.quantum_run.specs.Packs.{empty_writing};
ghost use Rattle.quantum_run.specs.Shows.{CanRun, Pack as pack_value};
ghost use Rattle.worker_pool.specs.Ran.{AllCanRun, AllRan, GrewBy, HasRun, budgets_left};
ghost use Rattle.group_rounds.specs.Buffers.{CanBePut, HaveNoWords, part_in, parts_put};
ghost use Rattle.group_rounds.specs.Handing.{AreOnce, AreSpare, view_of};
ghost use Rattle.group_rounds.specs.Parts.{KeepsCount, work_between};
ghost use Rattle.group_rounds.specs.Phases.{AreLive, HavePutParts};

use crate::in_place::is_callers;
use crate::packs::{fill_each, keep, run_out};
use kernel_calls::{State, commit};
use quantum_run::{Pack, Shared, run_pack_through};
use worker_pool::Workers;

// a thread's part, as its pack has left it, is put into the state
fn put_part(state: &mut State, pack: &Pack)
    requires sound { IsSound state.old }
    requires part { CanBePut state.old pack.now }
    ensures puts { (q : ℕ) (o e : List ℕ)
        → with_part (sent o e (world_of q state.old)) pack.now.thread (part_in pack.now)
        ≡ sent o e (world_of q state.new) }
    ensures sound { IsSound state.new }
    ensures round { StaysInRound state.old state.new }
{
    commit(state, pack.tid(), *pack.regs(), pack.budget(), pack.words());
}

// the parts of all packs, one after another
fn put_parts(state: &mut State, packs: &[Pack])
    requires sound { IsSound state.old }
    requires parts { All (CanBePut state.old) packs.now }
    ensures puts { (q : ℕ) (o e : List ℕ)
        → parts_put (sent o e (world_of q state.old)) packs.now ≡ sent o e (world_of q state.new) }
    ensures sound { IsSound state.new }
    ensures round { StaysInRound state.old state.new }
    ensures count { KeepsCount state.old state.new }
{
    for place in 0..packs.len() {
        put_part(state, &packs[place]);
    }
}

// the part of the only pack, whose words are put in memory as they are written: how many
// instructions it did
fn run_through(state: &mut State, pack: &mut Pack) -> u32
    requires sound { IsSound state.old }
    requires words { pack.old.words ≡ Some [] }
    requires can { CanRun pack.old (view_of state.old.frames state.old.table) }
    requires part { (after : pack_value)
        → HasRun (view_of state.old.frames state.old.table) pack.old after
        → CanBePut state.old after }
    ensures runs { HasRun (view_of state.old.frames state.old.table) pack.old pack.new }
    ensures puts { (q : ℕ) (o e : List ℕ)
        → with_part (sent o e (world_of q state.old)) pack.new.thread (part_in pack.new)
        ≡ sent o e (world_of q state.new) }
    ensures sound { IsSound state.new }
    ensures round { StaysInRound state.old state.new }
    ensures paid { pack.old.budget ≡ result + pack.new.budget }
{
    let budget = pack.budget();
    run_pack_through(pack, &mut state.frames, &state.table);
    // that each page has an owner is known of the frames themselves
    let _count = state.frames.count();
    state.table.set_run(pack.tid(), *pack.regs(), pack.budget());
    budget - pack.budget()
}

// the parts of all packs, of which there is one
fn run_only<W: Workers>(state: &mut State, packs: &mut Vec<Pack>, workers: &mut W)
    requires one { length packs.old.items ≡ 1 }
    requires sound { IsSound state.old }
    requires words { HaveNoWords packs.old.items }
    requires can { AllCanRun (view_of state.old.frames state.old.table) packs.old.items }
    requires parts { (after : List pack_value)
        → AllRan (view_of state.old.frames state.old.table) packs.old.items after
        → All (CanBePut state.old) after }
    ensures runs { AllRan (view_of state.old.frames state.old.table) packs.old.items
        packs.new.items }
    ensures puts { (q : ℕ) (o e : List ℕ)
        → parts_put (sent o e (world_of q state.old)) packs.new.items
        ≡ sent o e (world_of q state.new) }
    ensures sound { IsSound state.new }
    ensures round { StaysInRound state.old state.new }
    ensures count { KeepsCount state.old state.new }
    ensures room { vec_capacity packs.old ≤ vec_capacity packs.new }
    ensures tally { GrewBy (W.tally workers.old) (W.tally workers.new)
        (budgets_left packs.old.items - budgets_left packs.new.items) }
    ensures fixed { W.fixed workers.new ≡ W.fixed workers.old }
{
    let work = run_through(state, &mut packs[0]);
    workers.add(u64::from(work));
}

// whether there is one pack, which the caller's own thread would run
fn is_only<W: Workers>(workers: &W, packs: usize) -> bool
    ensures { result ≡ true → packs ≡ 1 }
{
    if packs != 1 {
        return false;
    }
    is_callers(workers, packs)
}

// each pack runs, and what each has written is put in, in their order
fn run_and_put<W: Workers>(
    state: &mut State,
    stand_in: &mut Option<Shared>,
    packs: &mut Vec<Pack>,
    workers: &mut W,
)
    requires count { length packs.old.items < 2 ^ 32 }
    requires sound { IsSound state.old }
    requires words { HaveNoWords packs.old.items }
    requires can { AllCanRun (view_of state.old.frames state.old.table) packs.old.items }
    requires parts { (after : List pack_value)
        → AllRan (view_of state.old.frames state.old.table) packs.old.items after
        → All (CanBePut state.old) after }
    requires stand_in { IsSome stand_in.old }
    ensures runs { AllRan (view_of state.old.frames state.old.table) packs.old.items
        packs.new.items }
    ensures puts { (q : ℕ) (o e : List ℕ)
        → parts_put (sent o e (world_of q state.old)) packs.new.items
        ≡ sent o e (world_of q state.new) }
    ensures sound { IsSound state.new }
    ensures round { StaysInRound state.old state.new }
    ensures count { KeepsCount state.old state.new }
    ensures stand_in { IsSome stand_in.new }
    ensures room { vec_capacity packs.old ≤ vec_capacity packs.new }
    ensures tally { GrewBy (W.tally workers.old) (W.tally workers.new)
        (budgets_left packs.old.items - budgets_left packs.new.items) }
    ensures fixed { W.fixed workers.new ≡ W.fixed workers.old }
{
    if is_only(workers, packs.len()) {
        run_only(state, packs, workers);
        return;
    }
    run_out(state, stand_in, packs, workers);
    put_parts(state, packs.as_slice());
}

// the packs are spare
fn keep_each(packs: &mut Vec<Pack>, spare: &mut Vec<Pack>)
    requires room { length spare.old.items + length packs.old.items ≤ vec_capacity spare.old }
    requires packs { AreSpare empty_writing packs.old.items }
    requires spare { AreSpare empty_writing spare.old.items }
    ensures packs { packs.new.items ≡ [] }
    ensures spare { AreSpare empty_writing spare.new.items }
    ensures count { length spare.new.items ≡ length spare.old.items + length packs.old.items }
    ensures spare_room { vec_capacity spare.old ≤ vec_capacity spare.new }
    ensures packs_room { vec_capacity packs.new ≡ vec_capacity packs.old }
{
    while let Some(pack) = packs.pop() {
        keep(spare, pack);
    }
}

/// The parallel phase: each starter over memory as the phase began, and then what each has written
/// put in, in their order.
pub(crate) fn buffered_packs<W: Workers>(
    state: &mut State,
    starters: &[u32],
    spare: &mut Vec<Pack>,
    packs: &mut Vec<Pack>,
    stand_in: &mut Option<Shared>,
    workers: &mut W,
)
    requires sound { IsSound state.old }
    requires live { AreLive state.old.table.threads starters.now }
    requires apart { AreOnce starters.now }
    requires few { length starters.now ≤ 64 }
    requires stand_in { IsSome stand_in.old }
    requires none { packs.old.items ≡ [] }
    requires room { length starters.now ≤ vec_capacity packs.old }
    requires enough { length starters.now ≤ length spare.old.items }
    requires spare { AreSpare empty_writing spare.old.items }
    requires spare_room { length spare.old.items ≤ vec_capacity spare.old }
    ensures parts { HavePutParts starters.now state.old state.new }
    ensures tally { GrewBy (W.tally workers.old) (W.tally workers.new)
        (work_between state.old state.new starters.now) }
    ensures fixed { W.fixed workers.new ≡ W.fixed workers.old }
    ensures none { packs.new.items ≡ [] }
    ensures room { vec_capacity packs.old ≤ vec_capacity packs.new }
    ensures enough { length spare.new.items ≡ length spare.old.items }
    ensures spare { AreSpare empty_writing spare.new.items }
    ensures spare_room { vec_capacity spare.old ≤ vec_capacity spare.new }
    ensures stand_in { IsSome stand_in.new }
{
    fill_each(&state.table, starters, spare, packs);
    run_and_put(state, stand_in, packs, workers);
    keep_each(packs, spare);
}
