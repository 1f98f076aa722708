// Instructions of a page of code, from landing to landing.
ghost use Rattle.std.specs.Prelude.{◌≡◌, ◌+◌, ◌-◌, ◌<◌, ◌≤◌, ◌/◌, ◌%◌, ◌^◌, ◌⊎◌, ◌==◌, true};
ghost use Rattle.std.specs.List.{list_any};
ghost use Rattle.std.specs.Borrow.{GName};
ghost use Rattle.dos_world.specs.World.{with_pc};
ghost use Rattle.code_pages.specs.Lines.{AreKnownPages, AreStartsOf, Known, bytes_of_pages};
ghost use Rattle.quantum_run.specs.Finding.{page_start};
ghost use Rattle.quantum_run.specs.Flying.{IsLineOf};
ghost use Rattle.quantum_run.specs.Knowing.{code_place, slot_of};
ghost use Rattle.quantum_run.specs.Answering.{Still, run_answers};
ghost use Rattle.quantum_run.specs.ThreadRuns.{AreElsewhere, Reaches, ReachesIn};

use crate::extent::{Between, Extent, Whole};
use crate::lines::{follow, line_in, part_of_run};
use crate::pages::Pages;
use crate::slots::{code_place, slot_place};
use crate::thread_memory::Running;
use code_pages::{CodePages, line_from};
use dos_world::Regs;
use rv_exec::Memory;

/// Where instructions led, what is left of the budget, and the line there, which needs a search or
/// stops; 0 where none is known or told.
#[derive(Drop)]
pub struct Flown {
    pub pc: u32,
    pub left: u32,
    pub at: usize,
}

/// The same for the lines of one page, and whether lines may lead on from there.
#[derive(Drop)]
struct Leg {
    pc: u32,
    left: u32,
    goes_on: bool,
    at: usize,
}

/// Whether an offset is that of a halfword of a page.
#[inline(always)]
fn is_place(to: u32) -> bool
    ensures { result ≡ true → (to < 4096) × (to % 2 ≡ 0) }
{
    to < 4096 && to % 2 == 0
}

/// The line to land at, of the code at an offset of a page that a fetch has found and of which this
/// is where its lines begin: 0 where its block hasn't been compared, or where it isn't known.
#[inline(always)]
fn landing<P: Pages>(memory: &Running<'_, P>, starts: &[u16; 2048], base: u32, to: u32) -> usize
    requires found { (slot_of memory.now.shown base).start ≡ base }
    requires base { base % 4096 ≡ 0 }
    requires inside { to < 4096 }
    requires even { to % 2 ≡ 0 }
    ensures { (code : Known) → AreKnownPages code → AreStartsOf code (code_place base) starts.now
        → (result ≡ 0) ⊎ IsLineOf memory.now.shown memory.now.compared.now.blocks code code.lines
        base ((base + to) % 2 ^ 32) result }
{
    let block = 16 * slot_place(base) + (to / 256) as usize;
    if !memory.compared.is_compared(block) {
        return 0;
    }
    line_from(starts, to)
}

/// Instructions by the lines of one page, as many as are known and need no search, where a fetch
/// has found the page; each for one of the budget.
#[inline(always)]
fn fly_in_page<P: Pages, E: Extent>(
    regs: &mut Regs,
    memory: &mut Running<'_, P>,
    code: &CodePages,
    pc: u32,
    budget: u32,
) -> Leg
    ensures reaches { (f : Still × (P.Fixed × GName)) (m : P.State)
        → ⟦<Running<'static, P> as Memory>⟧.shows memory.old (f, bytes_of_pages code.now) m
        → ReachesIn (page_start pc) (run_answers f.0 (P.places f.1.0))
        (⟦<Running<'static, P> as Memory>⟧.shows memory.new (f, bytes_of_pages code.now))
        (with_pc regs.old pc) m (with_pc regs.new result.pc) (budget - result.left) }
    ensures within { result.left ≤ budget }
    ensures on { result.goes_on ≡ true → result.left < budget }
    ensures line { (result.at ≡ 0) ⊎ IsLineOf memory.new.shown memory.new.compared.now.blocks
        code.now
        code.now.lines (page_start result.pc) result.pc result.at }
{
    if !memory.is_shown_at(pc) {
        return Leg {
            pc,
            left: budget,
            goes_on: false,
            at: 0,
        };
    }
    let base = pc / 4096 * 4096;
    let Some(starts) = code.starts(code_place(base)) else {
        return Leg {
            pc,
            left: budget,
            goes_on: false,
            at: 0,
        };
    };
    let lines = code.lines();
    let mut to = pc % 4096;
    let mut left = budget;
    loop {
        let at = landing(memory, starts, base, to);
        if at == 0 {
            return Leg {
                pc: base.wrapping_add(to),
                left,
                goes_on: false,
                at: 0,
            };
        }
        if left <= u32::from(line_in(lines, at).run) {
            let gone = part_of_run(regs, memory, lines, base, at, left);
            if gone.left == left {
                return Leg {
                    pc: base.wrapping_add(gone.to),
                    left,
                    goes_on: false,
                    at,
                };
            }
            return Leg {
                pc: base.wrapping_add(gone.to),
                left: gone.left,
                goes_on: true,
                at: 0,
            };
        }
        let gone = follow::<P, E>(regs, memory, lines, base, at, left);
        if gone.left == left {
            return Leg {
                pc: base.wrapping_add(gone.to),
                left,
                goes_on: false,
                at,
            };
        }
        left = gone.left;
        to = gone.to;
        if !is_place(to) {
            return Leg {
                pc: base.wrapping_add(to),
                left,
                goes_on: true,
                at: 0,
            };
        }
    }
}

/// Instructions by lines, as many as are known and need no search; each for one of the budget.
#[inline(always)]
pub fn fly<P: Pages>(
    regs: &mut Regs,
    memory: &mut Running<'_, P>,
    code: &CodePages,
    pc: u32,
    budget: u32,
) -> Flown
    ensures reaches { (f : Still × (P.Fixed × GName)) (m : P.State)
        → ⟦<Running<'static, P> as Memory>⟧.shows memory.old (f, bytes_of_pages code.now) m
        → Reaches (run_answers f.0 (P.places f.1.0))
        (⟦<Running<'static, P> as Memory>⟧.shows memory.new (f, bytes_of_pages code.now))
        (with_pc regs.old pc) m (with_pc regs.new result.pc) (budget - result.left) }
    ensures within { result.left ≤ budget }
    ensures line { (result.at ≡ 0) ⊎ IsLineOf memory.new.shown memory.new.compared.now.blocks
        code.now
        code.now.lines (page_start result.pc) result.pc result.at }
{
    let mut pc = pc;
    let mut left = budget;
    loop {
        let leg = fly_in_page::<P, Whole>(regs, memory, code, pc, left);
        pc = leg.pc;
        left = leg.left;
        if !leg.goes_on {
            return Flown {
                pc,
                left,
                at: leg.at,
            };
        }
    }
}

/// Whether one of these addresses is in the page of this one.
fn has_stop_in_page(stops: &[u32], pc: u32) -> bool
    ensures { result ≡ list_any (λ stop. stop / 4096 == pc / 4096) stops.now }
{
    stops.iter().any(|&stop| stop / 4096 == pc / 4096)
}

/// Instructions by lines, as many as are known and need no search, of pages in which none of these
/// addresses is; each for one of the budget. The line there isn't told.
#[inline(always)]
pub fn fly_between<P: Pages>(
    regs: &mut Regs,
    memory: &mut Running<'_, P>,
    code: &CodePages,
    pc: u32,
    budget: u32,
    stops: &[u32],
) -> Flown
    ensures reaches { (f : Still × (P.Fixed × GName)) (m : P.State)
        → ⟦<Running<'static, P> as Memory>⟧.shows memory.old (f, bytes_of_pages code.now) m
        → Reaches (run_answers f.0 (P.places f.1.0))
        (⟦<Running<'static, P> as Memory>⟧.shows memory.new (f, bytes_of_pages code.now))
        (with_pc regs.old pc) m (with_pc regs.new result.pc) (budget - result.left) }
    ensures elsewhere { (f : Still × (P.Fixed × GName)) (m : P.State)
        → ⟦<Running<'static, P> as Memory>⟧.shows memory.old (f, bytes_of_pages code.now) m
        → AreElsewhere (run_answers f.0 (P.places f.1.0)) stops.now (budget - result.left)
        (with_pc regs.old pc) m }
    ensures within { result.left ≤ budget }
{
    let mut pc = pc;
    let mut left = budget;
    while left > 0 && !has_stop_in_page(stops, pc) {
        let leg = fly_in_page::<P, Between>(regs, memory, code, pc, left);
        pc = leg.pc;
        left = leg.left;
        if !leg.goes_on {
            break;
        }
    }
    Flown { pc, left, at: 0 }
}
