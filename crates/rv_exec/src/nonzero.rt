// What instructions do that write a register other than x0, by their forms, with pc beside the
// registers: the same as for any register, without a test for x0.
ghost use Rattle.std.specs.Prelude.{◌≡◌, ◌≢◌, ℕ};
ghost use Rattle.dos_world.specs.declared.Reason.{Reason};
ghost use Rattle.dos_world.specs.World.{set, with_pc};
ghost use Rattle.rv_isa.specs.declared.Instr.TheVariants.{Imm, Reg, Shift};
ghost use Rattle.flat_machine.specs.Effect.{effect};
ghost use Rattle.rv_exec.specs.Arrivals.{SettlesBy};

use crate::Next;
use crate::numbers::{immediate_result, register_result, shift_result};
use crate::on_registers::{first, second};
use dos_world::Regs;
use rv_form::Form;
use rv_isa::{ImmOp, RegOp, ShiftOp};

/// A value for the register that is written.
#[inline(always)]
#[tactic(auto, using(crate::proofs::PcBeside::set_beside))]
pub fn put(regs: &mut Regs, form: &Form, value: u32)
    requires { form.now.rd ≢ 0 }
    ensures { (p : ℕ) → with_pc regs.new p ≡ set (with_pc regs.old p) form.now.rd value }
{
    regs.set_nonzero(form.rd, value);
}

/// An operation on a register and a signed immediate.
#[inline(always)]
#[tactic(auto, unfolding(flat_machine::specs::Effect::effect))]
pub fn immediate(regs: &mut Regs, form: &Form, op: ImmOp) -> Next
    requires { form.now.rd ≢ 0 }
    ensures { (size pc : ℕ) (why : Reason) → SettlesBy size pc result why regs.old regs.new
        (effect (Imm op form.now.rd form.now.rs1 form.now.imm) size) }
{
    let value = immediate_result(op, first(regs, form), form.imm);
    put(regs, form, value);
    Next::On
}

/// A shift by a constant.
#[inline(always)]
#[tactic(auto, unfolding(flat_machine::specs::Effect::effect))]
pub fn shift(regs: &mut Regs, form: &Form, op: ShiftOp) -> Next
    requires { form.now.rd ≢ 0 }
    ensures { (size pc : ℕ) (why : Reason) → SettlesBy size pc result why regs.old regs.new
        (effect (Shift op form.now.rd form.now.rs1 form.now.rs2) size) }
{
    let value = shift_result(op, first(regs, form), form.rs2);
    put(regs, form, value);
    Next::On
}

/// An operation on two registers.
#[inline(always)]
#[tactic(auto, unfolding(flat_machine::specs::Effect::effect))]
pub fn register(regs: &mut Regs, form: &Form, op: RegOp) -> Next
    requires { form.now.rd ≢ 0 }
    ensures { (size pc : ℕ) (why : Reason) → SettlesBy size pc result why regs.old regs.new
        (effect (Reg op form.now.rd form.now.rs1 form.now.rs2) size) }
{
    let value = register_result(op, first(regs, form), second(regs, form));
    put(regs, form, value);
    Next::On
}
