// What the instructions that touch the registers alone do, by their forms, with pc beside the
// registers.
ghost use Rattle.std.specs.Prelude.{◌≡◌, ◌+◌, ◌%◌, ◌^◌, ◌<◌, ℕ, true, false};
ghost use Rattle.dos_world.specs.declared.Reason.{Reason};
ghost use Rattle.dos_world.specs.World.{Registers, get, set, with_pc};
ghost use Rattle.rv_isa.specs.declared.Instr.TheVariants.{Upper, Jal, Jalr, Branch, Imm, Shift};
ghost use Rattle.rv_isa.specs.declared.Instr.TheVariants.{Reg};
ghost use Rattle.flat_machine.specs.Effect as effects;
ghost use Rattle.flat_machine.specs.Effect.{effect};
ghost use Rattle.rv_exec.specs.Arrivals.{SettlesBy};

use crate::Next;
use crate::next::fault;
use crate::numbers::{immediate_result, is_taken, register_result, shift_result};
use dos_world::{Reason, Regs};
use rv_form::Form;
use rv_isa::{BranchOp, ImmOp, RegOp, ShiftOp};

/// The register that is read first.
#[inline(always)]
pub fn first(regs: &Regs, form: &Form) -> u32
    ensures { result ≡ get regs.now form.now.rs1 }
{
    regs.get(form.rs1)
}

/// The register that is read second.
#[inline(always)]
pub fn second(regs: &Regs, form: &Form) -> u32
    ensures { result ≡ get regs.now form.now.rs2 }
{
    regs.get(form.rs2)
}

/// A value for the register that is written.
#[inline(always)]
#[tactic(auto, using(crate::proofs::PcBeside::set_beside))]
pub fn put(regs: &mut Regs, form: &Form, value: u32)
    ensures { (p : ℕ) → with_pc regs.new p ≡ set (with_pc regs.old p) form.now.rd value }
{
    regs.set(form.rd, value);
}

/// A jump that leaves the address of the next instruction in the register that is written.
#[inline(always)]
#[tactic(auto, using(crate::proofs::PcBeside::set_beside))]
fn jump_and_link(
    regs: &mut Regs,
    form: &Form,
    pc: u32,
    size: u32,
    target: u32,
    why: &mut Reason,
) -> Next
    ensures { SettlesBy size pc result why.new regs.old regs.new (λ r. effects.jumps target
        (set r form.now.rd (effects.next_address size r))) }
{
    if target % 2 == 0 {
        put(regs, form, pc.wrapping_add(size));
        Next::To(target)
    } else {
        fault(why, 7)
    }
}

/// The immediate, for the register that is written.
#[inline(always)]
#[tactic(auto, unfolding(flat_machine::specs::Effect::effect))]
pub fn lui(regs: &mut Regs, form: &Form) -> Next
    ensures { (size pc : ℕ) (why : Reason) → SettlesBy size pc result why regs.old regs.new
        (effect (Upper false form.now.rd (effects.unsigned form.now.imm)) size) }
{
    put(regs, form, form.imm.cast_unsigned());
    Next::On
}

/// pc and the immediate, added.
#[inline(always)]
#[tactic(auto, unfolding(flat_machine::specs::Effect::effect))]
pub fn auipc(regs: &mut Regs, form: &Form, pc: u32) -> Next
    ensures { (size : ℕ) (why : Reason) → SettlesBy size pc result why regs.old regs.new
        (effect (Upper true form.now.rd (effects.unsigned form.now.imm)) size) }
{
    put(regs, form, pc.wrapping_add(form.imm.cast_unsigned()));
    Next::On
}

/// A jump by an offset from pc.
#[inline(always)]
#[tactic(auto, unfolding(flat_machine::specs::Effect::effect))]
pub fn jal(regs: &mut Regs, form: &Form, pc: u32, size: u32, why: &mut Reason) -> Next
    ensures { SettlesBy size pc result why.new regs.old regs.new
        (effect (Jal form.now.rd form.now.imm) size) }
{
    jump_and_link(regs, form, pc, size, pc.wrapping_add_signed(form.imm), why)
}

/// A jump to a register and an offset, with bit 0 cleared.
#[inline(always)]
#[tactic(auto, unfolding(flat_machine::specs::Effect::effect))]
pub fn jalr(regs: &mut Regs, form: &Form, pc: u32, size: u32, why: &mut Reason) -> Next
    ensures { SettlesBy size pc result why.new regs.old regs.new
        (effect (Jalr form.now.rd form.now.rs1 form.now.imm) size) }
{
    let target = first(regs, form).wrapping_add_signed(form.imm) / 2 * 2;
    jump_and_link(regs, form, pc, size, target, why)
}

/// A jump by an offset from pc, where a comparison of two registers holds.
#[inline(always)]
#[tactic(auto, unfolding(flat_machine::specs::Effect::effect))]
pub fn branch(regs: &Regs, form: &Form, pc: u32, op: BranchOp, why: &mut Reason) -> Next
    ensures { (size : ℕ) → SettlesBy size pc result why.new regs.now regs.now
        (effect (Branch op form.now.rs1 form.now.rs2 form.now.imm) size) }
{
    if is_taken(op, first(regs, form), second(regs, form)) {
        let target = pc.wrapping_add_signed(form.imm);
        if target % 2 == 0 {
            Next::To(target)
        } else {
            fault(why, 7)
        }
    } else {
        Next::On
    }
}

/// An operation on a register and a signed immediate.
#[inline(always)]
#[tactic(auto, unfolding(flat_machine::specs::Effect::effect))]
pub fn immediate(regs: &mut Regs, form: &Form, op: ImmOp) -> Next
    ensures { (size pc : ℕ) (why : Reason) → SettlesBy size pc result why regs.old regs.new
        (effect (Imm op form.now.rd form.now.rs1 form.now.imm) size) }
{
    let value = immediate_result(op, first(regs, form), form.imm);
    put(regs, form, value);
    Next::On
}

/// A shift by a constant.
#[inline(always)]
#[tactic(auto, unfolding(flat_machine::specs::Effect::effect))]
pub fn shift(regs: &mut Regs, form: &Form, op: ShiftOp) -> Next
    ensures { (size pc : ℕ) (why : Reason) → SettlesBy size pc result why regs.old regs.new
        (effect (Shift op form.now.rd form.now.rs1 form.now.rs2) size) }
{
    let value = shift_result(op, first(regs, form), form.rs2);
    put(regs, form, value);
    Next::On
}

/// An operation on two registers.
#[inline(always)]
#[tactic(auto, unfolding(flat_machine::specs::Effect::effect))]
pub fn register(regs: &mut Regs, form: &Form, op: RegOp) -> Next
    ensures { (size pc : ℕ) (why : Reason) → SettlesBy size pc result why regs.old regs.new
        (effect (Reg op form.now.rd form.now.rs1 form.now.rs2) size) }
{
    let value = register_result(op, first(regs, form), second(regs, form));
    put(regs, form, value);
    Next::On
}
