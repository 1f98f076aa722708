// Which of the commonest instructions one is.
ghost use Rattle.std.specs.Prelude.{◌≡◌};
ghost use Rattle.code_pages.specs.Kinds.{ends, writes};
ghost use Rattle.code_pages.specs.KindTable.{kind_of_op};

use rv_form::Op;

/// The commonest instructions by themselves, and the others in two kinds: those that go on behind
/// them and touch registers and memory alone, and those at which a run ends. One of the commonest
/// that names x0 for its result is among the others, unless it is a jump.
#[derive(Clone, Copy, PartialEq, Eq)]
pub enum Kind {
    Addi,
    Lw,
    Sw,
    Lbu,
    /// beq, and bne where it is taken where the comparison doesn't hold.
    Equal,
    /// bltu, and bgeu.
    Below,
    /// blt, and bge.
    Less,
    Add,
    Slli,
    Srli,
    Xor,
    And,
    Jal,
    Jalr,
    /// One of the others that go on.
    Other,
    /// Nothing, or none that is done here.
    End,
}

/// The kind of an operation, and whether a branch of it is taken where the comparison of its kind
/// doesn't hold.
pub(crate) fn kind_of(op: Op) -> (Kind, bool)
    ensures { result ≡ kind_of_op op }
{
    match op {
        Op::Illegal => (Kind::End, false),
        Op::Lui => (Kind::Other, false),
        Op::Auipc => (Kind::Other, false),
        Op::Jal => (Kind::Jal, false),
        Op::Jalr => (Kind::Jalr, false),
        Op::Beq => (Kind::Equal, false),
        Op::Bne => (Kind::Equal, true),
        Op::Blt => (Kind::Less, false),
        Op::Bge => (Kind::Less, true),
        Op::Bltu => (Kind::Below, false),
        Op::Bgeu => (Kind::Below, true),
        Op::Lb => (Kind::Other, false),
        Op::Lh => (Kind::Other, false),
        Op::Lw => (Kind::Lw, false),
        Op::Lbu => (Kind::Lbu, false),
        Op::Lhu => (Kind::Other, false),
        Op::Sb => (Kind::Other, false),
        Op::Sh => (Kind::Other, false),
        Op::Sw => (Kind::Sw, false),
        Op::Addi => (Kind::Addi, false),
        Op::Slti => (Kind::Other, false),
        Op::Sltiu => (Kind::Other, false),
        Op::Xori => (Kind::Other, false),
        Op::Ori => (Kind::Other, false),
        Op::Andi => (Kind::Other, false),
        Op::Slli => (Kind::Slli, false),
        Op::Srli => (Kind::Srli, false),
        Op::Srai => (Kind::Other, false),
        Op::Add => (Kind::Add, false),
        Op::Sub => (Kind::Other, false),
        Op::Sll => (Kind::Other, false),
        Op::Slt => (Kind::Other, false),
        Op::Sltu => (Kind::Other, false),
        Op::Xor => (Kind::Xor, false),
        Op::Srl => (Kind::Other, false),
        Op::Sra => (Kind::Other, false),
        Op::Or => (Kind::Other, false),
        Op::And => (Kind::And, false),
        Op::Mul => (Kind::Other, false),
        Op::Mulh => (Kind::Other, false),
        Op::Mulhsu => (Kind::Other, false),
        Op::Mulhu => (Kind::Other, false),
        Op::Div => (Kind::Other, false),
        Op::Divu => (Kind::Other, false),
        Op::Rem => (Kind::Other, false),
        Op::Remu => (Kind::Other, false),
        Op::Fence => (Kind::Other, false),
        Op::Ecall => (Kind::End, false),
        Op::Ebreak => (Kind::End, false),
        Op::LrW => (Kind::End, false),
        Op::ScW => (Kind::End, false),
        Op::AmoswapW => (Kind::End, false),
        Op::AmoaddW => (Kind::End, false),
        Op::AmoxorW => (Kind::End, false),
        Op::AmoandW => (Kind::End, false),
        Op::AmoorW => (Kind::End, false),
        Op::AmominW => (Kind::End, false),
        Op::AmomaxW => (Kind::End, false),
        Op::AmominuW => (Kind::End, false),
        Op::AmomaxuW => (Kind::End, false),
        Op::ShortLui => (Kind::Other, false),
        Op::ShortJal => (Kind::Jal, false),
        Op::ShortJalr => (Kind::Jalr, false),
        Op::ShortBeq => (Kind::Equal, false),
        Op::ShortBne => (Kind::Equal, true),
        Op::ShortLw => (Kind::Lw, false),
        Op::ShortSw => (Kind::Sw, false),
        Op::ShortAddi => (Kind::Addi, false),
        Op::ShortAndi => (Kind::Other, false),
        Op::ShortSlli => (Kind::Slli, false),
        Op::ShortSrli => (Kind::Srli, false),
        Op::ShortSrai => (Kind::Other, false),
        Op::ShortAdd => (Kind::Add, false),
        Op::ShortSub => (Kind::Other, false),
        Op::ShortXor => (Kind::Xor, false),
        Op::ShortOr => (Kind::Other, false),
        Op::ShortAnd => (Kind::And, false),
        Op::ShortEbreak => (Kind::End, false),
    }
}

impl Kind {
    /// Whether each instruction of it writes a register other than x0.
    pub(crate) fn writes(self) -> bool
        ensures { result ≡ writes self }
    {
        match self {
            Kind::Addi | Kind::Lw | Kind::Lbu | Kind::Add => true,
            Kind::Slli | Kind::Srli | Kind::Xor | Kind::And => true,
            _ => false,
        }
    }

    /// Whether nothing goes on behind it.
    pub(crate) fn ends(self) -> bool
        ensures { result ≡ ends self }
    {
        match self {
            Kind::Jal | Kind::Jalr | Kind::End => true,
            _ => false,
        }
    }
}
