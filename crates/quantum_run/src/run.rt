// The loop, over any memory and in place.
ghost use Rattle.std.specs.Prelude.{◌≡◌, ◌<◌, ◌≤◌, ◌+◌, ◌-◌, ◌⊎◌, ℕ, List, Some, Err, MatchOption};
ghost use Rattle.std.specs.Prelude.{Option, [], length, map, is_some, true};
ghost use Rattle.std.specs.Borrow.{GName};
ghost use Rattle.dos_world.specs.World.{World};
ghost use Rattle.page_store.specs.Store.{AreHome, joined};
ghost use Rattle.rv_exec.specs.Runs.{GoesTo};
ghost use Rattle.flat_machine.specs.Over.{one_in};
ghost use Rattle.flat_machine.specs.Step.{step};
ghost use Rattle.code_pages.specs.Lines.{bytes_of_pages};
ghost use Rattle.written_words.specs.declared.Written.{Written};
ghost use Rattle.written_words.specs.Words.{words_put};
ghost use Rattle.quantum_run.specs.Buffering.{HasWritten, RanOver};
ghost use Rattle.quantum_run.specs.Pages.{AreOwn, AreReached, AreWithin, is_here, overlay};
ghost use Rattle.quantum_run.specs.ThreadRuns.{AreElsewhere, AreMapped, Goes, IsRunOf};
ghost use Rattle.quantum_run.specs.ThreadRuns.{StartsElsewhere, is_stop_at, run_to};
ghost use Rattle.flat_machine.specs.Laws.{after_steps};
ghost use Rattle.quantum_run.specs.ThreadRuns.{store_of};
ghost use Rattle.quantum_run.specs.Knowing.{AreRight};
ghost use Rattle.quantum_run.specs.Answering.{Still, run_answers, still};

use crate::buffered::Buffered;
use crate::flight::{fly, fly_between};
use crate::lent::Lent;
use crate::page_places::{Places, write_out};
use crate::pages::{InPlace, Pages};
use crate::slowly::{learns, slowly};
use crate::thread_memory::Running;
use crate::through::Through;
use code_pages::CodePages;
use dos_world::{Reason, Regs};
use page_store::{Compared, Frames, Page};
use rv_exec::Memory;
use space_map::Space;
use std::mem;
use written_words::WrittenWords;

/// Whether it is one of these addresses.
fn is_stop_at(stops: &[u32], pc: u32) -> bool
    ensures { result ≡ is_stop_at stops.now pc }
{
    stops.contains(&pc)
}

/// Instructions on a memory, each for one of the budget, until one stops or the budget has come
/// down to the floor: by the lines that are known where they are, and else one by one. Where none
/// is known one is learnt, and the next turn goes on by it. While they run, pc stands beside the
/// registers.
#[inline(always)]
fn go<P: Pages>(
    regs: &mut Regs,
    memory: &mut Running<'_, P>,
    code: &mut CodePages,
    budget: &mut u32,
    floor: u32,
) -> Option<Reason>
    requires floor { floor ≤ budget.old }
    ensures runs { (f : Still × (P.Fixed × GName)) (m : P.State)
        → ⟦<Running<'static, P> as Memory>⟧.shows memory.old (f, bytes_of_pages code.old) m
        → Goes (run_answers f.0 (P.places f.1.0))
        (⟦<Running<'static, P> as Memory>⟧.shows memory.new (f, bytes_of_pages code.new))
        regs.old m regs.new (budget.old - budget.new) result }
    ensures stop { MatchOption result (budget.new ≡ floor) (λ reason. 0 < budget.new) }
    ensures within { budget.new ≤ budget.old }
{
    let mut pc = regs.pc();
    let mut left = *budget - floor;
    let mut why = Reason::Service;
    let mut has_learnt = false;
    while left > 0 {
        let flown = fly(regs, memory, code, pc, left);
        let is_wanted = flown.left < left || !has_learnt;
        pc = flown.pc;
        left = flown.left;
        if left == 0 {
            break;
        }
        has_learnt = learns(memory, code, pc, flown.at, is_wanted);
        if has_learnt {
            continue;
        }
        match slowly(regs, memory, code, pc, flown.at, &mut why) {
            Some(next) => {
                pc = next;
                left -= 1;
            }
            None => {
                regs.set_pc(pc);
                *budget = floor + left;
                return Some(why);
            }
        }
    }
    regs.set_pc(pc);
    *budget = floor;
    None
}

/// The same until the budget is 0, or the next instruction is at one of these addresses: by lines
/// in pages of none of them, and else one by one.
#[inline(always)]
fn go_up_to<P: Pages>(
    regs: &mut Regs,
    memory: &mut Running<'_, P>,
    code: &mut CodePages,
    budget: &mut u32,
    stops: &[u32],
) -> Option<Reason>
    ensures runs { (f : Still × (P.Fixed × GName)) (m : P.State)
        → ⟦<Running<'static, P> as Memory>⟧.shows memory.old (f, bytes_of_pages code.old) m
        → Goes (run_answers f.0 (P.places f.1.0))
        (⟦<Running<'static, P> as Memory>⟧.shows memory.new (f, bytes_of_pages code.new))
        regs.old m regs.new (budget.old - budget.new) result }
    ensures stop { MatchOption result
        ((budget.new ≡ 0) ⊎ (is_stop_at stops.now regs.new.pc ≡ true)) (λ reason. 0 < budget.new) }
    ensures within { budget.new ≤ budget.old }
    ensures elsewhere { (f : Still × (P.Fixed × GName)) (m : P.State)
        → ⟦<Running<'static, P> as Memory>⟧.shows memory.old (f, bytes_of_pages code.old) m
        → AreElsewhere (run_answers f.0 (P.places f.1.0)) stops.now (budget.old - budget.new)
        regs.old m }
{
    let mut pc = regs.pc();
    let mut left = *budget;
    let mut why = Reason::Service;
    while left > 0 {
        let flown = fly_between(regs, memory, code, pc, left, stops);
        pc = flown.pc;
        left = flown.left;
        if left == 0 {
            break;
        }
        if is_stop_at(stops, pc) {
            regs.set_pc(pc);
            *budget = left;
            return None;
        }
        match slowly(regs, memory, code, pc, 0, &mut why) {
            Some(next) => {
                pc = next;
                left -= 1;
            }
            None => {
                regs.set_pc(pc);
                *budget = left;
                return Some(why);
            }
        }
    }
    regs.set_pc(pc);
    *budget = 0;
    None
}

/// The run of the thread whose memory this is, until its budget has come down to the floor.
#[inline(never)]
pub(crate) fn run<P: Pages>(
    memory: &mut Running<'_, P>,
    code: &mut CodePages,
    regs: &mut Regs,
    budget: &mut u32,
    floor: u32,
) -> Option<Reason>
    requires right { AreRight memory.old.compared.now.slots memory.old.compared.now.blocks
        (P.pages memory.old.pages) (bytes_of_pages code.old) }
    requires floor { floor ≤ budget.old }
    ensures runs { GoesTo (run_answers
        (still memory.old.tid (P.owners memory.old.pages) memory.old.space.now.entries)
        (P.places (P.fixed memory.old.pages))) (budget.old - budget.new) regs.old
        (P.state memory.old.pages) regs.new (P.state memory.new.pages) }
    ensures stop { MatchOption result (budget.new ≡ floor) (λ reason. (0 < budget.new)
        × (one_in (run_answers
        (still memory.old.tid (P.owners memory.old.pages) memory.old.space.now.entries)
        (P.places (P.fixed memory.old.pages))) regs.new (P.state memory.new.pages) ≡ Err reason)) }
    ensures within { budget.new ≤ budget.old }
    ensures right { AreRight memory.new.compared.now.slots memory.new.compared.now.blocks
        (P.pages memory.new.pages) (bytes_of_pages code.new) }
    ensures name { memory.new.compared.ghost_name ≡ memory.old.compared.ghost_name }
    ensures owners { P.owners memory.new.pages ≡ P.owners memory.old.pages }
    ensures fixed { P.fixed memory.new.pages ≡ P.fixed memory.old.pages }
{
    let mut own = *regs;
    let stop = go(&mut own, memory, code, budget, floor);
    *regs = own;
    stop
}

/// The same until its budget is 0, or it is at one of these addresses.
#[inline(never)]
fn run_up_to<P: Pages>(
    memory: &mut Running<'_, P>,
    code: &mut CodePages,
    regs: &mut Regs,
    budget: &mut u32,
    stops: &[u32],
) -> Option<Reason>
    requires right { AreRight memory.old.compared.now.slots memory.old.compared.now.blocks
        (P.pages memory.old.pages) (bytes_of_pages code.old) }
    ensures runs { GoesTo (run_answers
        (still memory.old.tid (P.owners memory.old.pages) memory.old.space.now.entries)
        (P.places (P.fixed memory.old.pages))) (budget.old - budget.new) regs.old
        (P.state memory.old.pages) regs.new (P.state memory.new.pages) }
    ensures stop { MatchOption result
        ((budget.new ≡ 0) ⊎ (is_stop_at stops.now regs.new.pc ≡ true)) (λ reason. (0 < budget.new)
        × (one_in (run_answers
        (still memory.old.tid (P.owners memory.old.pages) memory.old.space.now.entries)
        (P.places (P.fixed memory.old.pages))) regs.new (P.state memory.new.pages) ≡ Err reason)) }
    ensures elsewhere { AreElsewhere (run_answers
        (still memory.old.tid (P.owners memory.old.pages) memory.old.space.now.entries)
        (P.places (P.fixed memory.old.pages))) stops.now (budget.old - budget.new) regs.old
        (P.state memory.old.pages) }
    ensures within { budget.new ≤ budget.old }
    ensures right { AreRight memory.new.compared.now.slots memory.new.compared.now.blocks
        (P.pages memory.new.pages) (bytes_of_pages code.new) }
    ensures name { memory.new.compared.ghost_name ≡ memory.old.compared.ghost_name }
    ensures owners { P.owners memory.new.pages ≡ P.owners memory.old.pages }
    ensures fixed { P.fixed memory.new.pages ≡ P.fixed memory.old.pages }
{
    let mut own = *regs;
    let stop = go_up_to(&mut own, memory, code, budget, stops);
    *regs = own;
    stop
}

/// The run of a thread over pages of its own, with the frames lent, until its budget has come down
/// to the floor.
pub(crate) fn run_lent(
    own: &mut Places,
    frames: &Frames,
    space: &Space,
    tid: u32,
    code: &mut CodePages,
    regs: &mut Regs,
    budget: &mut u32,
    floor: u32,
) -> Option<Reason>
    requires level { length own.old ≡ length frames.now.pages }
    requires reached { AreReached tid frames.now.owners space.now.entries
        (overlay own.old frames.now.pages) }
    requires own { AreOwn tid frames.now.owners space.now.entries (is_here own.old) }
    requires within { AreWithin frames.now.owners space.now.entries }
    requires floor { floor ≤ budget.old }
    ensures runs { (w : World)
        → IsRunOf w (store_of frames.now.owners (overlay own.old frames.now.pages))
        space.now.entries tid regs.old budget.old
        → after_steps (budget.old - budget.new) w tid
        ≡ Some (run_to w tid (overlay own.new frames.now.pages) regs.new budget.new) }
    ensures stop { MatchOption result (budget.new ≡ floor)
        (λ reason. (0 < budget.new)
        × ((w : World)
        → IsRunOf w
        (store_of frames.now.owners (overlay own.old frames.now.pages))
        space.now.entries tid regs.old budget.old
        → step
        (run_to w tid (overlay own.new frames.now.pages) regs.new budget.new)
        tid ≡ Err reason)) }
    ensures within { budget.new ≤ budget.old }
    ensures here { map is_some own.new ≡ map is_some own.old }
{
    write_out(&mut own.pages, own.count);
    let mut compared = Compared::nothing();
    run_written(
        &mut own.pages,
        frames,
        space,
        tid,
        code,
        &mut compared,
        regs,
        budget,
        floor,
    )
}

/// The same where each place is written.
#[inline(always)]
fn run_written<'a>(
    own: &mut Vec<Option<Page>>,
    frames: &'a Frames,
    space: &'a Space,
    tid: u32,
    code: &mut CodePages,
    compared: &'a mut Compared,
    regs: &mut Regs,
    budget: &mut u32,
    floor: u32,
) -> Option<Reason>
    requires level { length own.old.items ≡ length frames.now.pages }
    requires reached { AreReached tid frames.now.owners space.now.entries
        (overlay own.old.items frames.now.pages) }
    requires own { AreOwn tid frames.now.owners space.now.entries (is_here own.old.items) }
    requires within { AreWithin frames.now.owners space.now.entries }
    requires floor { floor ≤ budget.old }
    requires right { (pages known : List (Option (List ℕ)))
        → AreRight compared.old.slots compared.old.blocks pages known }
    ensures runs { (w : World)
        → IsRunOf w (store_of frames.now.owners (overlay own.old.items frames.now.pages))
        space.now.entries tid regs.old budget.old
        → after_steps (budget.old - budget.new) w tid
        ≡ Some (run_to w tid (overlay own.new.items frames.now.pages) regs.new budget.new) }
    ensures stop { MatchOption result (budget.new ≡ floor)
        (λ reason. (0 < budget.new)
        × ((w : World)
        → IsRunOf w
        (store_of frames.now.owners (overlay own.old.items frames.now.pages))
        space.now.entries tid regs.old budget.old
        → step
        (run_to w tid (overlay own.new.items frames.now.pages) regs.new budget.new)
        tid ≡ Err reason)) }
    ensures within { budget.new ≤ budget.old }
    ensures here { map is_some own.new.items ≡ map is_some own.old.items }
{
    let alloc = *own.allocator();
    let pages = Lent {
        own: mem::replace(own, Vec::new(alloc)),
        lent: frames.pages(),
        frames,
    };
    let mut memory = Running::new(pages, space, compared, tid, code.hints());
    let stop = run(&mut memory, code, regs, budget, floor);
    code.keep_hints(memory.hints);
    let pages = memory.pages;
    *own = pages.own;
    stop
}

/// The run of a thread over the frames, all home, and words of its own, until its budget has come
/// down to the floor.
pub(crate) fn run_over(
    frames: &Frames,
    space: &Space,
    tid: u32,
    code: &mut CodePages,
    words: &mut Option<WrittenWords>,
    regs: &mut Regs,
    budget: &mut u32,
    floor: u32,
) -> Option<Reason>
    requires words { is_some words.old ≡ true }
    requires home { AreHome frames.now }
    requires mapped { AreMapped frames.now space.now.entries }
    requires floor { floor ≤ budget.old }
    ensures { HasWritten frames.now space.now.entries tid regs.old regs.new words.old words.new
        budget.old budget.new floor result }
{
    let mut compared = Compared::nothing();
    run_beside(
        frames,
        space,
        tid,
        code,
        &mut compared,
        words,
        regs,
        budget,
        floor,
    )
}

/// The same where nothing is compared.
#[inline(always)]
fn run_beside<'a>(
    frames: &'a Frames,
    space: &'a Space,
    tid: u32,
    code: &mut CodePages,
    compared: &'a mut Compared,
    words: &mut Option<WrittenWords>,
    regs: &mut Regs,
    budget: &mut u32,
    floor: u32,
) -> Option<Reason>
    requires words { is_some words.old ≡ true }
    requires home { AreHome frames.now }
    requires mapped { AreMapped frames.now space.now.entries }
    requires floor { floor ≤ budget.old }
    requires right { (pages known : List (Option (List ℕ)))
        → AreRight compared.old.slots compared.old.blocks pages known }
    ensures { HasWritten frames.now space.now.entries tid regs.old regs.new words.old words.new
        budget.old budget.new floor result }
{
    let own = match words.take() {
        Some(own) => own,
        None => unreachable!(),
    };
    let pages = Buffered {
        frames,
        words: own,
        tid,
    };
    let mut memory = Running::new(pages, space, compared, tid, code.hints());
    let stop = run(&mut memory, code, regs, budget, floor);
    code.keep_hints(memory.hints);
    let pages = memory.pages;
    *words = Some(pages.words);
    stop
}

/// The run of a thread in the frames, up to one of these addresses.
fn run_in_place(
    frames: &mut Frames,
    space: &Space,
    tid: u32,
    code: &mut CodePages,
    compared: &mut Compared,
    regs: &mut Regs,
    budget: &mut u32,
    stops: &[u32],
) -> Option<Reason>
    requires home { AreHome frames.old }
    requires mapped { AreMapped frames.old space.now.entries }
    requires right { AreRight compared.old.slots compared.old.blocks frames.old.pages
        (bytes_of_pages code.old) }
    ensures right { AreRight compared.new.slots compared.new.blocks frames.new.pages
        (bytes_of_pages code.new) }
    ensures runs { (w : World) → IsRunOf w frames.old space.now.entries tid regs.old budget.old
        → after_steps (budget.old - budget.new) w tid
        ≡ Some (run_to w tid frames.new.pages regs.new budget.new) }
    ensures stop { MatchOption result
        ((budget.new ≡ 0) ⊎ (is_stop_at stops.now regs.new.pc ≡ true))
        (λ reason. (0 < budget.new)
        × ((w : World) → IsRunOf w frames.old space.now.entries tid regs.old budget.old
        → step (run_to w tid frames.new.pages regs.new budget.new) tid ≡ Err reason)) }
    ensures elsewhere { (w : World)
        → IsRunOf w frames.old space.now.entries tid regs.old budget.old
        → StartsElsewhere stops.now (budget.old - budget.new) w tid }
    ensures within { budget.new ≤ budget.old }
    ensures owners { frames.new.owners ≡ frames.old.owners }
    ensures uses { frames.new.uses ≡ frames.old.uses }
    ensures marked { frames.new.marked ≡ frames.old.marked }
    ensures home { AreHome frames.new }
{
    if stops.is_empty() {
        let mut memory = Running::new(InPlace { frames }, space, compared, tid, code.hints());
        let stop = run(&mut memory, code, regs, budget, 0);
        code.keep_hints(memory.hints);
        return stop;
    }
    let mut memory = Running::new(InPlace { frames }, space, compared, tid, code.hints());
    let stop = run_up_to(&mut memory, code, regs, budget, stops);
    code.keep_hints(memory.hints);
    stop
}

/// Runs instructions of thread `tid` in the frames, each for one of the budget, until one stops,
/// the budget is 0 or the next is at one of the addresses `stops`: why it stops, with the budget
/// above 0, or else None. The registers, the budget and the pages are then as the instructions left
/// them that were done, each of which was at another address; the one that stops changes nothing.
/// Owners, uses and marks stay. Each page is home, and each entry of the space names a frame that
/// isn't Free.
///
/// `runs`, `stop` and `elsewhere` say it of every world whose bytes, owners, space and thread these
/// are. A part begins without a reservation, which the caller empties: see `laws::runs_are_parts`.
pub fn run_until_address(
    frames: &mut Frames,
    space: &Space,
    tid: u32,
    regs: &mut Regs,
    budget: &mut u32,
    stops: &[u32],
) -> Option<Reason>
    requires home { AreHome frames.old }
    requires mapped { AreMapped frames.old space.now.entries }
    ensures runs { (w : World) → IsRunOf w frames.old space.now.entries tid regs.old budget.old
        → after_steps (budget.old - budget.new) w tid
        ≡ Some (run_to w tid frames.new.pages regs.new budget.new) }
    ensures stop { MatchOption result
        ((budget.new ≡ 0) ⊎ (is_stop_at stops.now regs.new.pc ≡ true))
        (λ reason. (0 < budget.new)
        × ((w : World) → IsRunOf w frames.old space.now.entries tid regs.old budget.old
        → step (run_to w tid frames.new.pages regs.new budget.new) tid ≡ Err reason)) }
    ensures elsewhere { (w : World)
        → IsRunOf w frames.old space.now.entries tid regs.old budget.old
        → StartsElsewhere stops.now (budget.old - budget.new) w tid }
    ensures within { budget.new ≤ budget.old }
    ensures owners { frames.new.owners ≡ frames.old.owners }
    ensures uses { frames.new.uses ≡ frames.old.uses }
    ensures marked { frames.new.marked ≡ frames.old.marked }
    ensures home { AreHome frames.new }
{
    match frames.take_known() {
        Some((mut code, mut compared)) => {
            let stop = run_in_place(
                frames,
                space,
                tid,
                &mut code,
                &mut compared,
                regs,
                budget,
                stops,
            );
            frames.keep_known(code, compared);
            stop
        }
        None => {
            let mut code = CodePages::empty(frames.allocator());
            let mut compared = Compared::nothing();
            run_in_place(
                frames,
                space,
                tid,
                &mut code,
                &mut compared,
                regs,
                budget,
                stops,
            )
        }
    }
}

/// The same until one stops or the budget is 0: why it stops, or None where the budget is 0.
pub fn run_until_stop(
    frames: &mut Frames,
    space: &Space,
    tid: u32,
    regs: &mut Regs,
    budget: &mut u32,
) -> Option<Reason>
    requires home { AreHome frames.old }
    requires mapped { AreMapped frames.old space.now.entries }
    ensures runs { (w : World) → IsRunOf w frames.old space.now.entries tid regs.old budget.old
        → after_steps (budget.old - budget.new) w tid
        ≡ Some (run_to w tid frames.new.pages regs.new budget.new) }
    ensures stop { MatchOption result (budget.new ≡ 0)
        (λ reason. (0 < budget.new)
        × ((w : World) → IsRunOf w frames.old space.now.entries tid regs.old budget.old
        → step (run_to w tid frames.new.pages regs.new budget.new) tid ≡ Err reason)) }
    ensures within { budget.new ≤ budget.old }
    ensures owners { frames.new.owners ≡ frames.old.owners }
    ensures uses { frames.new.uses ≡ frames.old.uses }
    ensures marked { frames.new.marked ≡ frames.old.marked }
    ensures home { AreHome frames.new }
{
    run_until_address(frames, space, tid, regs, budget, &[])
}

/// The run of a thread over the frames, with words of its own, none yet, each of which is put in
/// memory as it is written.
fn run_known(
    frames: &mut Frames,
    space: &Space,
    tid: u32,
    code: &mut CodePages,
    compared: &mut Compared,
    words: &mut Option<WrittenWords>,
    regs: &mut Regs,
    budget: &mut u32,
) -> Option<Reason>
    requires words { words.old ≡ Some [] }
    requires home { AreHome frames.old }
    requires mapped { AreMapped frames.old space.now.entries }
    requires right { AreRight compared.old.slots compared.old.blocks frames.old.pages
        (bytes_of_pages code.old) }
    ensures right { AreRight compared.new.slots compared.new.blocks frames.new.pages
        (bytes_of_pages code.new) }
    ensures written { HasWritten frames.old space.now.entries tid regs.old regs.new words.old
        words.new budget.old budget.new 0 result }
    ensures puts { (now : List Written) → words.new ≡ Some now
        → joined frames.new.pages ≡ words_put (joined frames.old.pages) now }
    ensures owners { frames.new.owners ≡ frames.old.owners }
    ensures uses { frames.new.uses ≡ frames.old.uses }
    ensures marked { frames.new.marked ≡ frames.old.marked }
    ensures home { AreHome frames.new }
{
    match words {
        Some(own) => run_with(frames, space, tid, code, compared, own, regs, budget),
        None => unreachable!(),
    }
}

/// The same with these words.
#[inline(always)]
fn run_with<'a>(
    frames: &'a mut Frames,
    space: &Space,
    tid: u32,
    code: &mut CodePages,
    compared: &'a mut Compared,
    words: &'a mut WrittenWords,
    regs: &mut Regs,
    budget: &mut u32,
) -> Option<Reason>
    requires words { words.old ≡ [] }
    requires home { AreHome frames.old }
    requires mapped { AreMapped frames.old space.now.entries }
    requires right { AreRight compared.old.slots compared.old.blocks frames.old.pages
        (bytes_of_pages code.old) }
    ensures right { AreRight compared.new.slots compared.new.blocks frames.new.pages
        (bytes_of_pages code.new) }
    ensures written { RanOver frames.old space.now.entries tid regs.old regs.new [] words.new
        budget.old budget.new 0 result }
    ensures puts { (now : List Written) → words.new ≡ now
        → joined frames.new.pages ≡ words_put (joined frames.old.pages) now }
    ensures owners { frames.new.owners ≡ frames.old.owners }
    ensures uses { frames.new.uses ≡ frames.old.uses }
    ensures marked { frames.new.marked ≡ frames.old.marked }
    ensures home { AreHome frames.new }
{
    let pages = Through {
        place: InPlace { frames },
        words,
        tid,
    };
    let mut memory = Running::new(pages, space, compared, tid, code.hints());
    let stop = run(&mut memory, code, regs, budget, 0);
    code.keep_hints(memory.hints);
    stop
}

/// The run of a thread over the frames, all home, until its budget is 0, with words of its own,
/// none yet, each of which is put in memory as it is written: so the frames are left as they were
/// with all of them put in.
pub(crate) fn run_through(
    frames: &mut Frames,
    space: &Space,
    tid: u32,
    words: &mut Option<WrittenWords>,
    regs: &mut Regs,
    budget: &mut u32,
) -> Option<Reason>
    requires words { words.old ≡ Some [] }
    requires home { AreHome frames.old }
    requires mapped { AreMapped frames.old space.now.entries }
    ensures written { HasWritten frames.old space.now.entries tid regs.old regs.new words.old
        words.new budget.old budget.new 0 result }
    ensures puts { (now : List Written) → words.new ≡ Some now
        → joined frames.new.pages ≡ words_put (joined frames.old.pages) now }
    ensures owners { frames.new.owners ≡ frames.old.owners }
    ensures uses { frames.new.uses ≡ frames.old.uses }
    ensures marked { frames.new.marked ≡ frames.old.marked }
    ensures home { AreHome frames.new }
{
    match frames.take_known() {
        Some((mut code, mut compared)) => {
            let stop = run_known(
                frames,
                space,
                tid,
                &mut code,
                &mut compared,
                words,
                regs,
                budget,
            );
            frames.keep_known(code, compared);
            stop
        }
        None => {
            let mut code = CodePages::empty(frames.allocator());
            let mut compared = Compared::nothing();
            run_known(
                frames,
                space,
                tid,
                &mut code,
                &mut compared,
                words,
                regs,
                budget,
            )
        }
    }
}
