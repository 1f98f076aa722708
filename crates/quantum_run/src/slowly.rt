// One instruction, with pc beside the registers.
ghost use Rattle.std.specs.Prelude.{◌≡◌, ◌<◌, ◌⊎◌, ◌%◌, true, unwrap_or};
ghost use Rattle.std.specs.Borrow.{GName};
ghost use Rattle.dos_world.specs.World.{Registers as registers_of_thread, with_pc};
ghost use Rattle.dos_world.specs.declared.Reason.{Reason as reason};
ghost use Rattle.rv_exec.specs.Arrivals.{arrived, went};
ghost use Rattle.rv_exec.specs.Follows.{Follows};
ghost use Rattle.flat_machine.specs.Over.{one_in};
ghost use Rattle.code_pages.specs.Lines.{IsLiveAt, bytes_of_pages};
ghost use Rattle.quantum_run.specs.Finding.{page_start};
ghost use Rattle.quantum_run.specs.Flying.{IsLineOf, went_on};
ghost use Rattle.quantum_run.specs.Knowing.{AreRight, IsLineFor};
ghost use Rattle.quantum_run.specs.Answering.{Still, run_answers, still};

use crate::lines::line_in;
use crate::pages::Pages;
use crate::thread_memory::Running;
use code_pages::CodePages;
use dos_world::{Reason, Regs};
use rv_exec::{Memory, Next, Went, one, one_known};

/// Where an instruction at pc leads; None where it leads nowhere.
#[inline(always)]
fn behind(pc: u32, next: Next) -> Option<u32>
    ensures registers { (r : registers_of_thread)
        → with_pc r (unwrap_or result pc) ≡ arrived r pc next }
    ensures went { (why : reason) → went_on result why ≡ went next why }
{
    match next {
        Next::On => Some(pc.wrapping_add(4)),
        Next::Short => Some(pc.wrapping_add(2)),
        Next::To(target) => Some(target),
        Next::Not => None,
    }
}

/// One instruction at pc, by a fetch: where it leads, or None, for this reason.
fn by_fetch<M: Memory>(regs: &mut Regs, memory: &mut M, pc: u32, why: &mut Reason) -> Option<u32>
    ensures { (f : M.Fixed) (m : M.State) → M.shows memory.old f m
        → Follows (M.shows memory.new f) m (with_pc regs.old pc)
        (with_pc regs.new (unwrap_or result pc)) (went_on result why.new)
        (one_in (M.answers f) (with_pc regs.old pc) m) }
{
    regs.set_pc(pc);
    match one(regs, memory) {
        Went::Step => Some(regs.pc()),
        Went::Stop(reason) => {
            *why = reason;
            None
        }
    }
}

/// Whether the line of the code at pc is known from now on, where none is and it's wanted. `at` is
/// the line there, or 0.
#[inline(always)]
pub fn learns<P: Pages>(
    memory: &mut Running<'_, P>,
    code: &mut CodePages,
    pc: u32,
    at: usize,
    is_wanted: bool,
) -> bool
    ensures shows { (f : Still × (P.Fixed × GName)) (m : P.State)
        → ⟦<Running<'static, P> as Memory>⟧.shows memory.old (f, bytes_of_pages code.old) m
        → ⟦<Running<'static, P> as Memory>⟧.shows memory.new (f, bytes_of_pages code.new) m }
    ensures wanted { result ≡ true → is_wanted ≡ true }
    ensures known { 0 < at → (memory.new ≡ memory.old) × (code.new ≡ code.old) }
{
    if at != 0 {
        return false;
    }
    is_wanted && memory.line_to_perform(code, pc) != 0
}

/// The line of the code at pc from now on, where it can be known: `at`, unless it is 0 or stale.
#[inline(always)]
fn line_here<P: Pages>(
    memory: &mut Running<'_, P>,
    code: &mut CodePages,
    pc: u32,
    at: usize,
) -> usize
    requires { (at ≡ 0) ⊎ IsLineOf memory.old.shown memory.old.compared.now.blocks code.old
        code.old.lines
        (page_start pc) pc at }
    ensures line { (result ≡ 0)
        ⊎ IsLineFor memory.new.shown memory.new.compared.now.blocks code.new pc result }
    ensures live { (result ≡ 0) ⊎ IsLiveAt code.new.lines result }
    ensures even { (result ≡ 0) ⊎ (pc % 2 ≡ 0) }
    ensures right { AreRight memory.old.compared.now.slots memory.old.compared.now.blocks
        (P.pages memory.old.pages)
        (bytes_of_pages code.old)
        → AreRight memory.new.compared.now.slots memory.new.compared.now.blocks
        (P.pages memory.new.pages)
        (bytes_of_pages code.new) }
    ensures name { memory.new.compared.ghost_name ≡ memory.old.compared.ghost_name }
    ensures still { still memory.new.tid (P.owners memory.new.pages) memory.new.space.now.entries
        ≡ still memory.old.tid (P.owners memory.old.pages) memory.old.space.now.entries }
    ensures pages { memory.new.pages ≡ memory.old.pages }
{
    if at == 0 {
        return memory.line_to_perform(code, pc);
    }
    if line_in(code.lines(), at).size == 0 {
        return memory.line_to_perform(code, pc);
    }
    at
}

/// One instruction at pc, by its line where that can be known: where it leads, or None, for this
/// reason, where it stops and changes nothing. `at` is that line, or 0.
#[inline(never)]
pub fn slowly<P: Pages>(
    regs: &mut Regs,
    memory: &mut Running<'_, P>,
    code: &mut CodePages,
    pc: u32,
    at: usize,
    why: &mut Reason,
) -> Option<u32>
    requires { (at ≡ 0) ⊎ IsLineOf memory.old.shown memory.old.compared.now.blocks code.old
        code.old.lines
        (page_start pc) pc at }
    ensures { (f : Still × (P.Fixed × GName)) (m : P.State)
        → ⟦<Running<'static, P> as Memory>⟧.shows memory.old (f, bytes_of_pages code.old) m
        → Follows (⟦<Running<'static, P> as Memory>⟧.shows memory.new (f, bytes_of_pages code.new))
        m (with_pc regs.old pc)
        (with_pc regs.new (unwrap_or result pc)) (went_on result why.new)
        (one_in (run_answers f.0 (P.places f.1.0)) (with_pc regs.old pc) m) }
{
    let at = line_here(memory, code, pc, at);
    if at == 0 {
        return by_fetch(regs, memory, pc, why);
    }
    let line = line_in(code.lines(), at);
    let next = one_known(regs, memory, &line.form, pc, why);
    behind(pc, next)
}
