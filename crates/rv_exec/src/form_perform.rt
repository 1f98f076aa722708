// An instruction by its form.
ghost use Rattle.std.specs.Prelude.{ℕ};
ghost use Rattle.rv_exec.specs.Instruction.{effect_of_form};
ghost use Rattle.rv_exec.specs.Arrivals.{PerformsAt, SettlesAt, arrived, went};
ghost use Rattle.rv_exec.specs.Kinds.{IsAccess, IsAmo, IsOnImmediate, IsMultiplication};
ghost use Rattle.rv_exec.specs.Kinds.{IsOnRegisters};
ghost use Rattle.dos_world.specs.declared.Reason.{Reason};
ghost use Rattle.std.specs.Prelude.{◌≡◌};

use crate::next::{fault, service};
use crate::on_memory::{atomic, load, store};
use crate::on_registers::{auipc, branch, immediate, jal, jalr, lui, register, shift};
use crate::short_perform::{
    short_access_by_form, short_immediate_by_form, short_jump_by_form, short_register_by_form,
};
use crate::{Memory, Next, Went};
use dos_world::{Reason, Regs};
use rv_form::{Form, Op};
use rv_isa::{AmoOp, BranchOp, ImmOp, LoadOp, RegOp, ShiftOp, StoreOp};

/// A load or store by its form.
#[inline(always)]
#[tactic(auto, unfolding(flat_machine::specs::Effect::effect, rv_form::specs::Forms::instr_of))]
fn access_by_form<M: Memory>(regs: &mut Regs, memory: &mut M, form: &Form, why: &mut Reason) -> Next
    requires { IsAccess form.now.op }
    ensures { (pc : ℕ) → PerformsAt M.answers (M.shows memory.old) (M.shows memory.new) pc
        regs.old regs.new result why.new (effect_of_form form.now) }
{
    match form.op {
        Op::Lb => load(regs, memory, form, LoadOp::Lb, why),
        Op::Lh => load(regs, memory, form, LoadOp::Lh, why),
        Op::Lw => load(regs, memory, form, LoadOp::Lw, why),
        Op::Lbu => load(regs, memory, form, LoadOp::Lbu, why),
        Op::Lhu => load(regs, memory, form, LoadOp::Lhu, why),
        Op::Sb => store(regs, memory, form, StoreOp::Sb, why),
        Op::Sh => store(regs, memory, form, StoreOp::Sh, why),
        Op::Sw => store(regs, memory, form, StoreOp::Sw, why),
        _ => unreachable!(),
    }
}

/// An AMO by its form.
#[inline(always)]
#[tactic(auto, unfolding(flat_machine::specs::Effect::effect, rv_form::specs::Forms::instr_of))]
fn amo_by_form<M: Memory>(regs: &mut Regs, memory: &mut M, form: &Form, why: &mut Reason) -> Next
    requires { IsAmo form.now.op }
    ensures { (pc : ℕ) → PerformsAt M.answers (M.shows memory.old) (M.shows memory.new) pc
        regs.old regs.new result why.new (effect_of_form form.now) }
{
    match form.op {
        Op::AmoswapW => atomic(regs, memory, form, AmoOp::AmoswapW, why),
        Op::AmoaddW => atomic(regs, memory, form, AmoOp::AmoaddW, why),
        Op::AmoxorW => atomic(regs, memory, form, AmoOp::AmoxorW, why),
        Op::AmoandW => atomic(regs, memory, form, AmoOp::AmoandW, why),
        Op::AmoorW => atomic(regs, memory, form, AmoOp::AmoorW, why),
        Op::AmominW => atomic(regs, memory, form, AmoOp::AmominW, why),
        Op::AmomaxW => atomic(regs, memory, form, AmoOp::AmomaxW, why),
        Op::AmominuW => atomic(regs, memory, form, AmoOp::AmominuW, why),
        Op::AmomaxuW => atomic(regs, memory, form, AmoOp::AmomaxuW, why),
        _ => unreachable!(),
    }
}

/// An operation on a register and a constant by its form.
#[inline(always)]
#[tactic(auto, unfolding(flat_machine::specs::Effect::effect, rv_form::specs::Forms::instr_of))]
fn immediate_by_form(regs: &mut Regs, form: &Form) -> Next
    requires { IsOnImmediate form.now.op }
    ensures { (pc : ℕ) (why : Reason) → SettlesAt pc result why regs.old regs.new
        (effect_of_form form.now) }
{
    match form.op {
        Op::Addi => immediate(regs, form, ImmOp::Addi),
        Op::Slti => immediate(regs, form, ImmOp::Slti),
        Op::Sltiu => immediate(regs, form, ImmOp::Sltiu),
        Op::Xori => immediate(regs, form, ImmOp::Xori),
        Op::Ori => immediate(regs, form, ImmOp::Ori),
        Op::Andi => immediate(regs, form, ImmOp::Andi),
        Op::Slli => shift(regs, form, ShiftOp::Slli),
        Op::Srli => shift(regs, form, ShiftOp::Srli),
        Op::Srai => shift(regs, form, ShiftOp::Srai),
        _ => unreachable!(),
    }
}

/// An operation on two registers by its form.
#[inline(always)]
#[tactic(auto, unfolding(flat_machine::specs::Effect::effect, rv_form::specs::Forms::instr_of))]
fn register_by_form(regs: &mut Regs, form: &Form) -> Next
    requires { IsOnRegisters form.now.op }
    ensures { (pc : ℕ) (why : Reason) → SettlesAt pc result why regs.old regs.new
        (effect_of_form form.now) }
{
    match form.op {
        Op::Add => register(regs, form, RegOp::Add),
        Op::Sub => register(regs, form, RegOp::Sub),
        Op::Sll => register(regs, form, RegOp::Sll),
        Op::Slt => register(regs, form, RegOp::Slt),
        Op::Sltu => register(regs, form, RegOp::Sltu),
        Op::Xor => register(regs, form, RegOp::Xor),
        Op::Srl => register(regs, form, RegOp::Srl),
        Op::Sra => register(regs, form, RegOp::Sra),
        Op::Or => register(regs, form, RegOp::Or),
        Op::And => register(regs, form, RegOp::And),
        _ => unreachable!(),
    }
}

/// A multiplication or division by its form.
#[inline(always)]
#[tactic(auto, unfolding(flat_machine::specs::Effect::effect, rv_form::specs::Forms::instr_of))]
fn multiply_by_form(regs: &mut Regs, form: &Form) -> Next
    requires { IsMultiplication form.now.op }
    ensures { (pc : ℕ) (why : Reason) → SettlesAt pc result why regs.old regs.new
        (effect_of_form form.now) }
{
    match form.op {
        Op::Mul => register(regs, form, RegOp::Mul),
        Op::Mulh => register(regs, form, RegOp::Mulh),
        Op::Mulhsu => register(regs, form, RegOp::Mulhsu),
        Op::Mulhu => register(regs, form, RegOp::Mulhu),
        Op::Div => register(regs, form, RegOp::Div),
        Op::Divu => register(regs, form, RegOp::Divu),
        Op::Rem => register(regs, form, RegOp::Rem),
        Op::Remu => register(regs, form, RegOp::Remu),
        _ => unreachable!(),
    }
}

/// The instruction of a form, at pc: what it does to the registers but pc and to memory, and where
/// it leads. Where it leads nowhere, `why` is the reason.
#[inline(always)]
#[tactic(auto, unfolding(flat_machine::specs::Effect::effect, rv_form::specs::Forms::instr_of))]
pub fn perform_form<M: Memory>(
    regs: &mut Regs,
    memory: &mut M,
    form: &Form,
    pc: u32,
    why: &mut Reason,
) -> Next
    ensures { PerformsAt M.answers (M.shows memory.old) (M.shows memory.new) pc regs.old regs.new
        result why.new (effect_of_form form.now) }
{
    match form.op {
        Op::Illegal => fault(why, 4),
        Op::Lui => lui(regs, form),
        Op::Auipc => auipc(regs, form, pc),
        Op::Jal => jal(regs, form, pc, 4, why),
        Op::Jalr => jalr(regs, form, pc, 4, why),
        Op::Beq => branch(regs, form, pc, BranchOp::Beq, why),
        Op::Bne => branch(regs, form, pc, BranchOp::Bne, why),
        Op::Blt => branch(regs, form, pc, BranchOp::Blt, why),
        Op::Bge => branch(regs, form, pc, BranchOp::Bge, why),
        Op::Bltu => branch(regs, form, pc, BranchOp::Bltu, why),
        Op::Bgeu => branch(regs, form, pc, BranchOp::Bgeu, why),
        Op::Lb | Op::Lh | Op::Lw | Op::Lbu | Op::Lhu | Op::Sb | Op::Sh | Op::Sw => {
            access_by_form(regs, memory, form, why)
        }
        Op::Addi
        | Op::Slti
        | Op::Sltiu
        | Op::Xori
        | Op::Ori
        | Op::Andi
        | Op::Slli
        | Op::Srli
        | Op::Srai => immediate_by_form(regs, form),
        Op::Add
        | Op::Sub
        | Op::Sll
        | Op::Slt
        | Op::Sltu
        | Op::Xor
        | Op::Srl
        | Op::Sra
        | Op::Or
        | Op::And => register_by_form(regs, form),
        Op::Mul | Op::Mulh | Op::Mulhsu | Op::Mulhu | Op::Div | Op::Divu | Op::Rem | Op::Remu =>
            multiply_by_form(regs, form),
        Op::Fence => Next::On,
        Op::Ecall => service(why),
        Op::Ebreak => fault(why, 5),
        Op::LrW => atomic(regs, memory, form, AmoOp::LrW, why),
        Op::ScW => atomic(regs, memory, form, AmoOp::ScW, why),
        Op::AmoswapW
        | Op::AmoaddW
        | Op::AmoxorW
        | Op::AmoandW
        | Op::AmoorW
        | Op::AmominW
        | Op::AmomaxW
        | Op::AmominuW
        | Op::AmomaxuW => amo_by_form(regs, memory, form, why),
        Op::ShortJal | Op::ShortJalr | Op::ShortBeq | Op::ShortBne => {
            short_jump_by_form(regs, form, pc, why)
        }
        Op::ShortLw | Op::ShortSw => short_access_by_form(regs, memory, form, why),
        Op::ShortLui
        | Op::ShortAddi
        | Op::ShortAndi
        | Op::ShortSlli
        | Op::ShortSrli
        | Op::ShortSrai => short_immediate_by_form(regs, form),
        Op::ShortAdd | Op::ShortSub | Op::ShortXor | Op::ShortOr | Op::ShortAnd => {
            short_register_by_form(regs, form)
        }
        Op::ShortEbreak => fault(why, 5),
    }
}

/// pc goes where an instruction at pc leads; `why` is the reason where it leads nowhere.
#[inline(always)]
pub fn arrive(regs: &mut Regs, pc: u32, next: Next, why: Reason) -> Went
    ensures registers { regs.new ≡ arrived regs.old pc next }
    ensures went { result ≡ went next why }
{
    match next {
        Next::On => {
            regs.set_pc(pc.wrapping_add(4));
            Went::Step
        }
        Next::Short => {
            regs.set_pc(pc.wrapping_add(2));
            Went::Step
        }
        Next::To(target) => {
            regs.set_pc(target);
            Went::Step
        }
        Next::Not => {
            regs.set_pc(pc);
            Went::Stop(why)
        }
    }
}
