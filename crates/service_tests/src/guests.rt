//! Guests, step by step, and the files of their images.
use rv_asm::Builder;
use rv_isa::{BranchOp, ImmOp, Instr, LoadOp, StoreOp};
use std::alloc::Global;
use std::process::Abort;

/// Where the code begins. Its page may be written too.
pub const CODE: u32 = 0x1_0000;

/// Where the first of the stack's 16 pages lies.
pub const STACK: u32 = 0xefff_0000;

/// Where a guest's second piece of code begins: of its other threads, or of a handler.
pub const OTHER: u32 = 0x1_0800;

/// A word of the code's page that holds 0.
pub const FUTEX: u32 = 0x1_0f00;

// Registers by the names that the calling convention gives them.
pub const ZERO: u8 = 0;

pub const SP: u8 = 2;

pub const TEMP0: u8 = 5;

pub const TEMP1: u8 = 6;

pub const TEMP2: u8 = 7;

pub const S0: u8 = 8;

pub const S1: u8 = 9;

pub const A0: u8 = 10;

pub const A1: u8 = 11;

pub const A2: u8 = 12;

pub const A7: u8 = 17;

// Numbers of services.
pub const THREAD_EXIT: u32 = 1;

pub const PROCESS_EXIT: u32 = 2;

pub const THREAD_NEW: u32 = 3;

pub const FORK: u32 = 4;

pub const WAIT: u32 = 5;

pub const PIPE: u32 = 6;

pub const READ: u32 = 7;

pub const WRITE: u32 = 8;

pub const CLOSE: u32 = 9;

pub const DUP: u32 = 10;

pub const FUTEX_WAIT: u32 = 11;

pub const FUTEX_WAKE: u32 = 12;

pub const MAP: u32 = 13;

pub const UNMAP: u32 = 14;

pub const SHARE: u32 = 15;

pub const SIG_HANDLER: u32 = 16;

pub const SIG_MASK: u32 = 17;

pub const SIG_RETURN: u32 = 18;

pub const KILL: u32 = 19;

pub const GET_TID: u32 = 21;

pub const CLOCK: u32 = 22;

pub const YIELD: u32 = 23;

pub const ROUND: u32 = 24;

/// A step of a guest.
#[derive(Clone, Copy)]
pub enum Step {
    /// These words, of code or of data.
    Words(&'static [u32]),
    /// A number goes into a register.
    Put(u8, u32),
    /// The first register becomes the sum of the second and the number.
    Add(u8, u8, i32),
    /// The first register becomes the word at the address in the second.
    Load(u8, u8),
    /// The word in the first register goes to the address in the second.
    Store(u8, u8),
    /// A service is called with these arguments, in a0, a1 and a2.
    Call(u32, u32, u32, u32),
    /// The service in a7 is called with the arguments that stand.
    Ecall,
    /// The word in a0 goes to output.
    Tell,
    /// The words in a0 and a1 go to output.
    TellBoth,
    /// A call with these arguments, and a `Tell`.
    Ask(u32, u32, u32, u32),
    /// A call with these arguments, and a `TellBoth`.
    AskBoth(u32, u32, u32, u32),
    /// The process ends with this status.
    End(u32),
    /// The next step stands at this address, behind zeros.
    At(u32),
    /// It goes on at this address.
    GoTo(u32),
    /// Where this holds of the two registers, it goes on at this address.
    If(BranchOp, u8, u8, u32),
}

// The code so far, and the address of its next word.
#[derive(Drop)]
struct Code {
    builder: Builder,
    next: u32,
}

impl Code {
    fn word(&mut self, rt: &impl Abort, word: u32) {
        self.builder.word(word).expect(rt, "memory");
        self.next = self.next.wrapping_add(4);
    }

    fn push(&mut self, rt: &impl Abort, instr: Instr) {
        assert!(rt;
            instr.is_valid(),
            "a field of an instruction is out of its range"
        );
        self.builder.push(&instr).expect(rt, "memory");
        self.next = self.next.wrapping_add(4);
    }

    fn add(&mut self, rt: &impl Abort, rd: u8, rs1: u8, imm: i32) {
        let op = ImmOp::Addi;
        self.push(rt, Instr::Imm { op, rd, rs1, imm });
    }

    fn put(&mut self, rt: &impl Abort, rd: u8, value: u32) {
        let low = (value << 20).cast_signed() >> 20;
        let imm = value.wrapping_sub(low.cast_unsigned());
        let auipc = false;
        self.push(rt, Instr::Upper { auipc, rd, imm });
        self.add(rt, rd, rd, low);
    }

    fn load(&mut self, rt: &impl Abort, rd: u8, rs1: u8) {
        let (op, offset) = (LoadOp::Lw, 0);
        self.push(
            rt,
            Instr::Load {
                op,
                rd,
                rs1,
                offset,
            },
        );
    }

    fn store(&mut self, rt: &impl Abort, rs2: u8, offset: i32, rs1: u8) {
        let op = StoreOp::Sw;
        self.push(
            rt,
            Instr::Store {
                op,
                rs1,
                rs2,
                offset,
            },
        );
    }

    fn go_to(&mut self, rt: &impl Abort, address: u32) {
        let (rd, offset) = (ZERO, self.offset_to(address));
        self.push(rt, Instr::Jal { rd, offset });
    }

    fn branch(&mut self, rt: &impl Abort, op: BranchOp, rs1: u8, rs2: u8, address: u32) {
        let offset = self.offset_to(address);
        self.push(
            rt,
            Instr::Branch {
                op,
                rs1,
                rs2,
                offset,
            },
        );
    }

    fn call(&mut self, rt: &impl Abort, number: u32, arguments: [u32; 3]) {
        let [a0, a1, a2] = arguments;
        self.put(rt, A7, number);
        self.put(rt, A0, a0);
        self.put(rt, A1, a1);
        self.put(rt, A2, a2);
        self.push(rt, Instr::Ecall);
    }

    // so many bytes of a0 and a1 go to output, by way of the stack
    fn tell(&mut self, rt: &impl Abort, count: u32) {
        self.store(rt, A0, 0, SP);
        self.store(rt, A1, 4, SP);
        self.put(rt, A7, WRITE);
        self.put(rt, A0, 1);
        self.add(rt, A1, SP, 0);
        self.put(rt, A2, count);
        self.push(rt, Instr::Ecall);
    }

    // a call, whose answer of so many bytes goes to output
    fn ask(&mut self, rt: &impl Abort, number: u32, arguments: [u32; 3], count: u32) {
        self.call(rt, number, arguments);
        self.tell(rt, count);
    }

    fn words(&mut self, rt: &impl Abort, words: &[u32]) {
        for word in words {
            self.word(rt, *word);
        }
    }

    fn zeros_until(&mut self, rt: &impl Abort, address: u32) {
        assert!(rt; self.next <= address, "a step stands behind its address");
        for _ in 0..(address - self.next) / 4 {
            self.word(rt, 0);
        }
    }

    fn offset_to(&self, address: u32) -> i32 {
        address.wrapping_sub(self.next).cast_signed()
    }

    fn step(&mut self, rt: &impl Abort, step: &Step) {
        match *step {
            Step::Words(words) => self.words(rt, words),
            Step::Put(rd, value) => self.put(rt, rd, value),
            Step::Add(rd, rs1, imm) => self.add(rt, rd, rs1, imm),
            Step::Load(rd, rs1) => self.load(rt, rd, rs1),
            Step::Store(rs2, rs1) => self.store(rt, rs2, 0, rs1),
            Step::Call(number, a0, a1, a2) => self.call(rt, number, [a0, a1, a2]),
            Step::Ecall => self.push(rt, Instr::Ecall),
            Step::Tell => self.tell(rt, 4),
            Step::TellBoth => self.tell(rt, 8),
            Step::Ask(number, a0, a1, a2) => self.ask(rt, number, [a0, a1, a2], 4),
            Step::AskBoth(number, a0, a1, a2) => self.ask(rt, number, [a0, a1, a2], 8),
            Step::End(status) => self.call(rt, PROCESS_EXIT, [status, 0, 0]),
            Step::At(address) => self.zeros_until(rt, address),
            Step::GoTo(address) => self.go_to(rt, address),
            Step::If(op, rs1, rs2, address) => self.branch(rt, op, rs1, rs2, address),
        }
    }

    fn steps(&mut self, rt: &impl Abort, steps: &[Step]) {
        for step in steps {
            self.step(rt, step);
        }
    }
}

/// The file of an image with the code of these steps, part after part.
pub fn file(rt: &impl Abort, alloc: Global, parts: &[&[Step]]) -> Vec<u8> {
    let mut code = Code {
        builder: Builder::new(alloc, CODE, true).expect(rt, "memory"),
        next: CODE,
    };
    for part in parts {
        code.steps(rt, part);
    }
    code.builder.finish().expect(rt, "an image")
}
