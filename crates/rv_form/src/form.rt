// An instruction with its fields, as one number of eight bytes: what may be remembered of a word.
ghost use Rattle.std.specs.Prelude.{◌≡◌, ◌<◌};

/// What an instruction does, over all opcodes, and whether it has two bytes or four.
#[derive(Clone, Copy)]
pub enum Op {
    /// No instruction.
    Illegal,
    Lui,
    Auipc,
    Jal,
    Jalr,
    Beq,
    Bne,
    Blt,
    Bge,
    Bltu,
    Bgeu,
    Lb,
    Lh,
    Lw,
    Lbu,
    Lhu,
    Sb,
    Sh,
    Sw,
    Addi,
    Slti,
    Sltiu,
    Xori,
    Ori,
    Andi,
    Slli,
    Srli,
    Srai,
    Add,
    Sub,
    Sll,
    Slt,
    Sltu,
    Xor,
    Srl,
    Sra,
    Or,
    And,
    Mul,
    Mulh,
    Mulhsu,
    Mulhu,
    Div,
    Divu,
    Rem,
    Remu,
    Fence,
    Ecall,
    Ebreak,
    LrW,
    ScW,
    AmoswapW,
    AmoaddW,
    AmoxorW,
    AmoandW,
    AmoorW,
    AmominW,
    AmomaxW,
    AmominuW,
    AmomaxuW,
    // the operations that an instruction of two bytes may have
    ShortLui,
    ShortJal,
    ShortJalr,
    ShortBeq,
    ShortBne,
    ShortLw,
    ShortSw,
    ShortAddi,
    ShortAndi,
    ShortSlli,
    ShortSrli,
    ShortSrai,
    ShortAdd,
    ShortSub,
    ShortXor,
    ShortOr,
    ShortAnd,
    ShortEbreak,
}

/// An instruction with the fields of its word. A field that the operation doesn't use is any
/// number.
#[derive(Clone, Copy)]
pub struct Form {
    pub op: Op,
    pub rd: u8,
    pub rs1: u8,
    /// The second register, or the amount of a shift by a constant.
    pub rs2: u8,
    /// The immediate; of lui and auipc as a signed number.
    pub imm: i32,
    ghost rd_is: { rd < 32 },
    ghost rs1_is: { rs1 < 32 },
    ghost rs2_is: { rs2 < 32 },
}

impl Form {
    /// The form of no instruction.
    #[inline]
    pub fn unknown() -> Form
        ensures { result.op ≡ Op.Illegal }
    {
        Form {
            op: Op::Illegal,
            rd: 0,
            rs1: 0,
            rs2: 0,
            imm: 0,
        }
    }
}
