// The instructions of two bytes by their forms.
ghost use Rattle.std.specs.Prelude.{◌≡◌, ℕ};
ghost use Rattle.rv_exec.specs.Instruction.{effect_of_form};
ghost use Rattle.rv_exec.specs.Arrivals.{PerformsAt, SettlesAt};
ghost use Rattle.rv_exec.specs.Kinds.{IsShortAccess, IsShortImmediate, IsShortJump};
ghost use Rattle.rv_exec.specs.Kinds.{IsShortRegister};
ghost use Rattle.dos_world.specs.declared.Reason.{Reason};

use crate::next::behind_short;
use crate::on_memory::{load, store};
use crate::on_registers::{branch, immediate, jal, jalr, lui, register, shift};
use crate::{Memory, Next};
use dos_world::{Reason, Regs};
use rv_form::{Form, Op};
use rv_isa::{BranchOp, ImmOp, LoadOp, RegOp, ShiftOp, StoreOp};

/// A jump or branch by its form.
#[inline(always)]
#[tactic(auto, unfolding(flat_machine::specs::Effect::effect, rv_form::specs::Forms::instr_of))]
pub fn short_jump_by_form(regs: &mut Regs, form: &Form, pc: u32, why: &mut Reason) -> Next
    requires { IsShortJump form.now.op }
    ensures { SettlesAt pc result why.new regs.old regs.new (effect_of_form form.now) }
{
    match form.op {
        Op::ShortJal => behind_short(jal(regs, form, pc, 2, why)),
        Op::ShortJalr => behind_short(jalr(regs, form, pc, 2, why)),
        Op::ShortBeq => behind_short(branch(regs, form, pc, BranchOp::Beq, why)),
        Op::ShortBne => behind_short(branch(regs, form, pc, BranchOp::Bne, why)),
        _ => unreachable!(),
    }
}

/// A load or store of a word by its form.
#[inline(always)]
#[tactic(auto, unfolding(flat_machine::specs::Effect::effect, rv_form::specs::Forms::instr_of))]
pub fn short_access_by_form<M: Memory>(
    regs: &mut Regs,
    memory: &mut M,
    form: &Form,
    why: &mut Reason,
) -> Next
    requires { IsShortAccess form.now.op }
    ensures { (pc : ℕ) → PerformsAt M.answers (M.shows memory.old) (M.shows memory.new) pc
        regs.old regs.new result why.new (effect_of_form form.now) }
{
    match form.op {
        Op::ShortLw => behind_short(load(regs, memory, form, LoadOp::Lw, why)),
        Op::ShortSw => behind_short(store(regs, memory, form, StoreOp::Sw, why)),
        _ => unreachable!(),
    }
}

/// An operation on a register and a constant by its form.
#[inline(always)]
#[tactic(auto, unfolding(flat_machine::specs::Effect::effect, rv_form::specs::Forms::instr_of))]
pub fn short_immediate_by_form(regs: &mut Regs, form: &Form) -> Next
    requires { IsShortImmediate form.now.op }
    ensures { (pc : ℕ) (why : Reason) → SettlesAt pc result why regs.old regs.new
        (effect_of_form form.now) }
{
    match form.op {
        Op::ShortLui => behind_short(lui(regs, form)),
        Op::ShortAddi => behind_short(immediate(regs, form, ImmOp::Addi)),
        Op::ShortAndi => behind_short(immediate(regs, form, ImmOp::Andi)),
        Op::ShortSlli => behind_short(shift(regs, form, ShiftOp::Slli)),
        Op::ShortSrli => behind_short(shift(regs, form, ShiftOp::Srli)),
        Op::ShortSrai => behind_short(shift(regs, form, ShiftOp::Srai)),
        _ => unreachable!(),
    }
}

/// An operation on two registers by its form.
#[inline(always)]
#[tactic(auto, unfolding(flat_machine::specs::Effect::effect, rv_form::specs::Forms::instr_of))]
pub fn short_register_by_form(regs: &mut Regs, form: &Form) -> Next
    requires { IsShortRegister form.now.op }
    ensures { (pc : ℕ) (why : Reason) → SettlesAt pc result why regs.old regs.new
        (effect_of_form form.now) }
{
    match form.op {
        Op::ShortAdd => behind_short(register(regs, form, RegOp::Add)),
        Op::ShortSub => behind_short(register(regs, form, RegOp::Sub)),
        Op::ShortXor => behind_short(register(regs, form, RegOp::Xor)),
        Op::ShortOr => behind_short(register(regs, form, RegOp::Or)),
        Op::ShortAnd => behind_short(register(regs, form, RegOp::And)),
        _ => unreachable!(),
    }
}
