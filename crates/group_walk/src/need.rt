// What an instruction needs before it does anything.
ghost use Rattle.std.specs.Prelude.{◌≡◌, ℕ};
ghost use Rattle.flat_machine.specs.Arithmetic as arithmetic;
ghost use Rattle.flat_machine.specs.Effect as effects;
ghost use Rattle.flat_machine.specs.Effect.{effect};
ghost use Rattle.rv_isa.specs.Valid.{IsValid};
ghost use Rattle.group_walk.specs.Needs.{need_of};

use dos_world::{Access, Reason, Regs, Size};
use rv_isa::{BranchOp, Instr, LoadOp, StoreOp};

/// What an instruction needs before it does anything. Where it has that, it is done.
#[derive(Clone, Copy)]
pub enum Need {
    /// Nothing.
    Nothing,
    /// That an access reaches its place.
    Reach {
        /// The first address.
        address: u32,
        /// How much the access takes.
        size: Size,
        /// What is wanted.
        access: Access,
    },
    /// What can't be had: it stops for this reason, whatever memory is.
    Stop(Reason),
}

// a jump to a target where no instruction may stand stops
fn need_of_jump(target: u32) -> Need
    ensures { (r : _) → need_of (effects.jumps target r) ≡ result }
{
    if target % 2 == 0 {
        Need::Nothing
    } else {
        Need::Stop(Reason::Fault(7))
    }
}

// whether a branch with this comparison is taken
fn is_taken(op: BranchOp, a: u32, b: u32) -> bool
    ensures { result ≡ arithmetic.is_taken op a b }
{
    match op {
        BranchOp::Beq => a == b,
        BranchOp::Bne => a != b,
        BranchOp::Blt => a.cast_signed() < b.cast_signed(),
        BranchOp::Bge => a.cast_signed() >= b.cast_signed(),
        BranchOp::Bltu => a < b,
        BranchOp::Bgeu => a >= b,
    }
}

// how much a load takes
fn load_size(op: LoadOp) -> Size
    ensures { result ≡ arithmetic.load_size op }
{
    match op {
        LoadOp::Lb | LoadOp::Lbu => Size::Byte,
        LoadOp::Lh | LoadOp::Lhu => Size::Half,
        LoadOp::Lw => Size::Word,
    }
}

// how much a store takes
fn store_size(op: StoreOp) -> Size
    ensures { result ≡ arithmetic.store_size op }
{
    match op {
        StoreOp::Sb => Size::Byte,
        StoreOp::Sh => Size::Half,
        StoreOp::Sw => Size::Word,
    }
}

/// What an instruction needs in these registers.
#[tactic(auto, unfolding(flat_machine::specs::Effect::effect))]
pub fn need_of(instr: &Instr, regs: &Regs) -> Need
    requires { IsValid instr.now }
    ensures { (size : ℕ) → need_of (effect instr.now size regs.now) ≡ result }
{
    match *instr {
        Instr::Upper { .. }
        | Instr::Imm { .. }
        | Instr::Shift { .. }
        | Instr::Reg { .. }
        | Instr::Fence { .. } => Need::Nothing,
        Instr::Jal { offset, .. } => need_of_jump(regs.pc().wrapping_add_signed(offset)),
        Instr::Jalr { rs1, offset, .. } => {
            need_of_jump(regs.get(rs1).wrapping_add_signed(offset) / 2 * 2)
        }
        Instr::Branch {
            op,
            rs1,
            rs2,
            offset,
        } => {
            if is_taken(op, regs.get(rs1), regs.get(rs2)) {
                need_of_jump(regs.pc().wrapping_add_signed(offset))
            } else {
                Need::Nothing
            }
        }
        Instr::Load {
            op,
            rs1,
            offset,
            ..
        } => Need::Reach {
            address: regs.get(rs1).wrapping_add_signed(offset),
            size: load_size(op),
            access: Access::Load,
        },
        Instr::Store {
            op,
            rs1,
            offset,
            ..
        } => Need::Reach {
            address: regs.get(rs1).wrapping_add_signed(offset),
            size: store_size(op),
            access: Access::Store,
        },
        Instr::Amo { rs1, .. } => Need::Reach {
            address: regs.get(rs1),
            size: Size::Word,
            access: Access::Claim,
        },
        Instr::Ecall => Need::Stop(Reason::Service),
        Instr::Ebreak => Need::Stop(Reason::Fault(5)),
    }
}
