// Instructions of a page of code, by the lines that are known of it.
ghost use Rattle.std.specs.Prelude.{◌≡◌, ◌≢◌, ◌+◌, ◌-◌, ◌<◌, ◌≤◌, ◌%◌, ◌^◌, ℕ};
ghost use Rattle.std.specs.Prelude.{Some, false, length, slice_get, true};
ghost use Rattle.std.specs.Borrow.{GName};
ghost use Rattle.dos_world.specs.World.{Registers, get, set, with_pc};
ghost use Rattle.dos_world.specs.declared.Reason.{Reason};
ghost use Rattle.rv_isa.specs.declared.Instr.{Instr};
ghost use Rattle.rv_isa.specs.declared.Instr.TheVariants.{Branch, Jal, Jalr, Load, Store};
ghost use Rattle.rv_isa.specs.declared.BranchOp.{BranchOp as branch_op};
ghost use Rattle.rv_form.specs.Forms.{instr_of_form};
ghost use Rattle.flat_machine.specs.Effect as effects;
ghost use Rattle.flat_machine.specs.Effect.{effect};
ghost use Rattle.rv_exec.specs.Arrivals.{SettlesBy};
ghost use Rattle.rv_exec.specs.Instruction.{effect_of_form};
ghost use Rattle.code_pages.specs.Kinds.{ends};
ghost use Rattle.code_pages.specs.declared.kind.Kind.TheVariants.{Below, End, Equal, Less};
ghost use Rattle.code_pages.specs.Lines.{AreRuns, Known, bytes_of_pages};
ghost use Rattle.code_pages.specs.declared.line.Line.{Line as line_type};
ghost use Rattle.quantum_run.specs.Flying.{DoneOrNot, HasLine, IsLineOf, IsRunWithin};
ghost use Rattle.quantum_run.specs.Answering.{Still, run_answers};
ghost use Rattle.quantum_run.specs.ThreadRuns.{ReachesIn};

use crate::extent::{Extent, Part};
use crate::pages::Pages;
use crate::thread_memory::Running;
use code_pages::{Kind, Line};
use dos_world::Regs;
use rv_exec::numbers::{load_result, load_size, store_size};
use rv_exec::on_registers::{auipc, first, immediate, lui, put, register, second, shift};
use rv_exec::{Memory, Next, nonzero};
use rv_form::{Form, Op};
use rv_isa::{ImmOp, LoadOp, RegOp, ShiftOp, StoreOp};

/// The address of a load or store.
#[inline(always)]
fn address_of(regs: &Regs, form: &Form) -> u32
    ensures { result ≡ effects.plus (get regs.now form.now.rs1) form.now.imm }
{
    first(regs, form).wrapping_add_signed(form.imm)
}

/// A value for the register that is written, without a test for x0 where it is known not to be x0.
#[inline(always)]
fn write(regs: &mut Regs, form: &Form, value: u32, nonzero: bool)
    requires { nonzero ≡ true → form.now.rd ≢ 0 }
    ensures { (p : ℕ) → with_pc regs.new p ≡ set (with_pc regs.old p) form.now.rd value }
{
    if nonzero {
        nonzero::put(regs, form, value);
    } else {
        put(regs, form, value);
    }
}

/// A load that finds its page without a search; nothing is done where it doesn't.
#[inline(always)]
#[tactic(auto, unfolding(flat_machine::specs::Effect::effect))]
fn load_quickly<P: Pages>(
    regs: &mut Regs,
    memory: &Running<'_, P>,
    form: &Form,
    op: LoadOp,
    nonzero: bool,
) -> Next
    requires { nonzero ≡ true → form.now.rd ≢ 0 }
    ensures { (size pc : ℕ)
        → DoneOrNot ⟦<Running<'static, P> as Memory>⟧.answers
        (⟦<Running<'static, P> as Memory>⟧.shows memory.now)
        (⟦<Running<'static, P> as Memory>⟧.shows memory.now) size pc regs.old regs.new result
        (effect (Load op form.now.rd form.now.rs1 form.now.imm) size) }
{
    let address = address_of(regs, form);
    match memory.quick_load(address, load_size(op)) {
        Some(number) => {
            write(regs, form, load_result(op, number), nonzero);
            Next::On
        }
        None => Next::Not,
    }
}

/// A store that finds its page without a search; nothing is done where it doesn't.
#[inline(always)]
#[tactic(auto, unfolding(flat_machine::specs::Effect::effect))]
fn store_quickly<P: Pages>(
    regs: &Regs,
    memory: &mut Running<'_, P>,
    form: &Form,
    op: StoreOp,
) -> Next
    ensures done { (size pc : ℕ)
        → DoneOrNot ⟦<Running<'static, P> as Memory>⟧.answers
        (⟦<Running<'static, P> as Memory>⟧.shows memory.old)
        (⟦<Running<'static, P> as Memory>⟧.shows memory.new) size pc regs.now regs.now result
        (effect (Store op form.now.rs1 form.now.rs2 form.now.imm) size) }
    ensures same { (memory.new.shown ≡ memory.old.shown)
        × (memory.new.compared ≡ memory.old.compared) }
{
    let address = address_of(regs, form);
    let value = second(regs, form);
    if memory.quick_store(address, store_size(op), value) {
        Next::On
    } else {
        Next::Not
    }
}

/// A branch that is taken or isn't.
#[inline(always)]
#[tactic(auto, unfolding(flat_machine::specs::Effect::effect))]
fn jump_where(taken: bool, form: &Form, pc: u32) -> Next
    ensures { (size : ℕ) (op : branch_op) (r : Registers)
        → taken ≡ effects.is_taken op (get r form.now.rs1) (get r form.now.rs2)
        → SettlesBy size pc result (Reason.Fault 7) r r
        (effect (Branch op form.now.rs1 form.now.rs2 form.now.imm) size) }
{
    if taken {
        let target = pc.wrapping_add_signed(form.imm);
        if target % 2 == 0 {
            Next::To(target)
        } else {
            Next::Not
        }
    } else {
        Next::On
    }
}

/// beq, or bne where it is turned.
#[inline(always)]
fn equal(regs: &Regs, line: &Line, pc: u32) -> Next
    requires { line.now.kind ≡ Equal }
    ensures { SettlesBy line.now.size pc result (Reason.Fault 7) regs.now regs.now
        (effect_of_form line.now.form) }
{
    let form = &line.form;
    let taken = (first(regs, form) == second(regs, form)) != line.turned;
    jump_where(taken, form, pc)
}

/// bltu, or bgeu where it is turned.
#[inline(always)]
fn below(regs: &Regs, line: &Line, pc: u32) -> Next
    requires { line.now.kind ≡ Below }
    ensures { SettlesBy line.now.size pc result (Reason.Fault 7) regs.now regs.now
        (effect_of_form line.now.form) }
{
    let form = &line.form;
    let taken = (first(regs, form) < second(regs, form)) != line.turned;
    jump_where(taken, form, pc)
}

/// blt, or bge where it is turned.
#[inline(always)]
fn less(regs: &Regs, line: &Line, pc: u32) -> Next
    requires { line.now.kind ≡ Less }
    ensures { SettlesBy line.now.size pc result (Reason.Fault 7) regs.now regs.now
        (effect_of_form line.now.form) }
{
    let form = &line.form;
    let a = first(regs, form).cast_signed();
    let b = second(regs, form).cast_signed();
    jump_where((a < b) != line.turned, form, pc)
}

/// A jump that leaves the address of the next instruction in the register that is written. Nothing
/// is done where its target is odd, and no reason is given: its place would be written by each
/// instruction.
#[inline(always)]
#[tactic(auto, using(rv_exec::proofs::PcBeside::set_beside))]
fn jump_and_link(regs: &mut Regs, line: &Line, pc: u32, target: u32) -> Next
    ensures settles { SettlesBy line.now.size pc result (Reason.Fault 7) regs.old regs.new
        (λ r. effects.jumps target
        (set r line.now.form.rd (effects.next_address line.now.size r))) }
    ensures away { result ≢ Next.On }
{
    if target % 2 == 0 {
        put(regs, &line.form, pc.wrapping_add(u32::from(line.size)));
        Next::To(target)
    } else {
        Next::Not
    }
}

/// A jump by an offset from pc.
#[inline(always)]
#[tactic(auto, unfolding(flat_machine::specs::Effect::effect))]
fn jal(regs: &mut Regs, line: &Line, pc: u32) -> Next
    ensures settles { SettlesBy line.now.size pc result (Reason.Fault 7) regs.old regs.new
        (effect (Jal line.now.form.rd line.now.form.imm) line.now.size) }
    ensures away { result ≢ Next.On }
{
    jump_and_link(regs, line, pc, pc.wrapping_add_signed(line.form.imm))
}

/// A jump to a register and an offset, with bit 0 cleared.
#[inline(always)]
#[tactic(auto, unfolding(flat_machine::specs::Effect::effect))]
fn jalr(regs: &mut Regs, line: &Line, pc: u32) -> Next
    ensures settles { SettlesBy line.now.size pc result (Reason.Fault 7) regs.old regs.new
        (effect (Jalr line.now.form.rd line.now.form.rs1 line.now.form.imm) line.now.size) }
    ensures away { result ≢ Next.On }
{
    let form = &line.form;
    let target = first(regs, form).wrapping_add_signed(form.imm) / 2 * 2;
    jump_and_link(regs, line, pc, target)
}

/// One of the instructions that have no kind of their own, or that write x0: nothing is done where
/// it isn't one of these.
#[inline(always)]
fn other<P: Pages, E: Extent>(
    regs: &mut Regs,
    memory: &mut Running<'_, P>,
    form: &Form,
    pc: u32,
) -> Next
    ensures done { (instr : Instr) (size : ℕ)
        → instr_of_form form.now ≡ Some (instr, size)
        → DoneOrNot ⟦<Running<'static, P> as Memory>⟧.answers
        (⟦<Running<'static, P> as Memory>⟧.shows memory.old)
        (⟦<Running<'static, P> as Memory>⟧.shows memory.new) size pc regs.old regs.new result
        (effect instr size) }
    ensures same { (memory.new.shown ≡ memory.old.shown)
        × (memory.new.compared ≡ memory.old.compared) }
{
    match form.op {
        Op::Lui => lui(regs, form),
        Op::ShortLui => lui(regs, form),
        Op::Auipc => auipc(regs, form, pc),
        Op::Addi => immediate(regs, form, ImmOp::Addi),
        Op::ShortAddi => immediate(regs, form, ImmOp::Addi),
        Op::Slti => immediate(regs, form, ImmOp::Slti),
        Op::Sltiu => immediate(regs, form, ImmOp::Sltiu),
        Op::Xori => immediate(regs, form, ImmOp::Xori),
        Op::Ori => immediate(regs, form, ImmOp::Ori),
        Op::Andi => immediate(regs, form, ImmOp::Andi),
        Op::ShortAndi => immediate(regs, form, ImmOp::Andi),
        Op::Srai => shift(regs, form, ShiftOp::Srai),
        Op::ShortSrai => shift(regs, form, ShiftOp::Srai),
        Op::Sub => register(regs, form, RegOp::Sub),
        Op::ShortSub => register(regs, form, RegOp::Sub),
        Op::Sll => register(regs, form, RegOp::Sll),
        Op::Slt => register(regs, form, RegOp::Slt),
        Op::Sltu => register(regs, form, RegOp::Sltu),
        Op::Srl => register(regs, form, RegOp::Srl),
        Op::Sra => register(regs, form, RegOp::Sra),
        Op::Or => register(regs, form, RegOp::Or),
        Op::ShortOr => register(regs, form, RegOp::Or),
        Op::Mul => register(regs, form, RegOp::Mul),
        Op::Mulh => register(regs, form, RegOp::Mulh),
        Op::Mulhsu => register(regs, form, RegOp::Mulhsu),
        Op::Mulhu => register(regs, form, RegOp::Mulhu),
        Op::Div => register(regs, form, RegOp::Div),
        Op::Divu => register(regs, form, RegOp::Divu),
        Op::Rem => register(regs, form, RegOp::Rem),
        Op::Remu => register(regs, form, RegOp::Remu),
        Op::Lb => load_quickly(regs, memory, form, LoadOp::Lb, false),
        Op::Lh => load_quickly(regs, memory, form, LoadOp::Lh, false),
        Op::Lhu => load_quickly(regs, memory, form, LoadOp::Lhu, false),
        Op::Sb => store_quickly(regs, memory, form, StoreOp::Sb),
        Op::Sh => store_quickly(regs, memory, form, StoreOp::Sh),
        Op::Fence => Next::On,
        _ => Next::Not,
    }
}

/// Where the instruction of a line of a page stands, which begins at this address.
#[inline(always)]
fn pc_at(base: u32, line: &Line) -> u32
    ensures { result ≡ (base + line.now.offset) % 2 ^ 32 }
{
    base.wrapping_add(u32::from(line.offset))
}

/// The instruction of a line of a page that begins at this address: what it does to the registers
/// but pc and to memory, and where it leads. Nothing is done where it needs a search or stops.
/// Where it stands is computed where it is needed alone, since each instruction would pay for it.
#[inline(always)]
fn perform_line<P: Pages, E: Extent>(
    regs: &mut Regs,
    memory: &mut Running<'_, P>,
    line: &Line,
    base: u32,
) -> Next
    ensures done { DoneOrNot ⟦<Running<'static, P> as Memory>⟧.answers
        (⟦<Running<'static, P> as Memory>⟧.shows memory.old)
        (⟦<Running<'static, P> as Memory>⟧.shows memory.new) line.now.size
        ((base + line.now.offset) % 2 ^ 32) regs.old regs.new result
        (effect_of_form line.now.form) }
    ensures same { (memory.new.shown ≡ memory.old.shown)
        × (memory.new.compared ≡ memory.old.compared) }
    ensures on { result ≡ Next.On → ends line.now.kind ≡ false }
    ensures end { line.now.kind ≡ End → result ≡ Next.Not }
{
    let form = &line.form;
    match line.kind {
        Kind::Addi => nonzero::immediate(regs, form, ImmOp::Addi),
        Kind::Lw => load_quickly(regs, memory, form, LoadOp::Lw, true),
        Kind::Sw => store_quickly(regs, memory, form, StoreOp::Sw),
        Kind::Lbu => load_quickly(regs, memory, form, LoadOp::Lbu, true),
        Kind::Equal => equal(regs, line, pc_at(base, line)),
        Kind::Below => below(regs, line, pc_at(base, line)),
        Kind::Less => less(regs, line, pc_at(base, line)),
        Kind::Add => nonzero::register(regs, form, RegOp::Add),
        Kind::Slli => nonzero::shift(regs, form, ShiftOp::Slli),
        Kind::Srli => nonzero::shift(regs, form, ShiftOp::Srli),
        Kind::Xor => nonzero::register(regs, form, RegOp::Xor),
        Kind::And => nonzero::register(regs, form, RegOp::And),
        Kind::Jal => jal(regs, line, pc_at(base, line)),
        Kind::Jalr => jalr(regs, line, pc_at(base, line)),
        Kind::Other => other::<P, E>(regs, memory, form, pc_at(base, line)),
        Kind::End => Next::Not,
    }
}

/// The line at a place.
#[inline(always)]
pub fn line_in(lines: &[Line], at: usize) -> &Line
    requires { at < length lines.now }
    ensures { slice_get lines.now at ≡ Some result.now }
{
    &lines[at]
}

/// How far an address lies behind another one.
#[inline(always)]
fn distance(from: u32, to: u32) -> u32
    ensures { (from + result) % 2 ^ 32 ≡ to }
{
    to.wrapping_sub(from)
}

/// Where the instructions of a run of lines led, as an offset from the page's first address, and
/// what is left of the budget.
#[derive(Drop)]
pub struct Gone {
    pub to: u32,
    pub left: u32,
}

/// Whether the budget is used up, which pays for the lines before `end`. Where it is known to be
/// enough for a run there is nothing to look at.
#[inline(always)]
fn is_over<E: Extent>(at: usize, end: usize, line: &Line) -> bool
    requires within { at ≤ end }
    requires enough { E.whole ≡ true → line.now.run < end - at }
    ensures over { result ≡ true → at ≡ end }
    ensures more { result ≡ false → at < end }
{
    !E::is_whole() && at == end
}

/// Instructions by a run of lines from this one on, up to one that jumps or isn't done: for each
/// one of the budget. Where the budget is known to be enough, which is more than the lines that
/// follow, no test stands between the end of an instruction and the next, of the budget or of where
/// the lines end.
#[inline(always)]
pub fn follow<P: Pages, E: Extent>(
    regs: &mut Regs,
    memory: &mut Running<'_, P>,
    lines: &[Line],
    base: u32,
    from: usize,
    budget: u32,
) -> Gone
    requires runs { AreRuns lines.now }
    requires some { 0 < from }
    requires there { HasLine lines.now from }
    requires enough { E.whole ≡ true → IsRunWithin lines.now from budget }
    ensures reaches { (known : Known) (address : ℕ) (f : Still × (P.Fixed × GName)) (m : P.State)
        → IsLineOf memory.old.shown memory.old.compared.now.blocks known lines.now base address from
        → ⟦<Running<'static, P> as Memory>⟧.shows memory.old (f, bytes_of_pages known) m
        → ReachesIn base (run_answers f.0 (P.places f.1.0))
        (⟦<Running<'static, P> as Memory>⟧.shows memory.new (f, bytes_of_pages known))
        (with_pc regs.old address) m
        (with_pc regs.new ((base + result.to) % 2 ^ 32)) (budget - result.left) }
    ensures within { result.left ≤ budget }
    ensures stays { (line : line_type) → slice_get lines.now from ≡ Some line
        → result.left ≡ budget → result.to ≡ line.offset }
    ensures same { (memory.new.shown ≡ memory.old.shown)
        × (memory.new.compared ≡ memory.old.compared) }
{
    let mut at = from;
    let end = from + budget as usize;
    loop {
        let line = &lines[at];
        if is_over::<E>(at, end, line) {
            return Gone {
                to: u32::from(line.offset),
                left: 0,
            };
        }
        match perform_line::<P, E>(regs, memory, line, base) {
            Next::On => at += 1,
            Next::Short => {
                return Gone {
                    to: u32::from(line.offset).wrapping_add(2),
                    left: (end - at - 1) as u32,
                };
            }
            Next::To(target) => {
                return Gone {
                    to: distance(base, target),
                    left: (end - at - 1) as u32,
                };
            }
            Next::Not => {
                return Gone {
                    to: u32::from(line.offset),
                    left: (end - at) as u32,
                };
            }
        }
    }
}

/// The same where the budget may not be enough.
#[inline(never)]
pub fn part_of_run<P: Pages>(
    regs: &mut Regs,
    memory: &mut Running<'_, P>,
    lines: &[Line],
    base: u32,
    from: usize,
    budget: u32,
) -> Gone
    requires runs { AreRuns lines.now }
    requires some { 0 < from }
    requires there { HasLine lines.now from }
    ensures reaches { (known : Known) (address : ℕ) (f : Still × (P.Fixed × GName)) (m : P.State)
        → IsLineOf memory.old.shown memory.old.compared.now.blocks known lines.now base address from
        → ⟦<Running<'static, P> as Memory>⟧.shows memory.old (f, bytes_of_pages known) m
        → ReachesIn base (run_answers f.0 (P.places f.1.0))
        (⟦<Running<'static, P> as Memory>⟧.shows memory.new (f, bytes_of_pages known))
        (with_pc regs.old address) m
        (with_pc regs.new ((base + result.to) % 2 ^ 32)) (budget - result.left) }
    ensures within { result.left ≤ budget }
    ensures stays { (line : line_type) → slice_get lines.now from ≡ Some line
        → result.left ≡ budget → result.to ≡ line.offset }
    ensures same { (memory.new.shown ≡ memory.old.shown)
        × (memory.new.compared ≡ memory.old.compared) }
{
    follow::<P, Part>(regs, memory, lines, base, from, budget)
}
