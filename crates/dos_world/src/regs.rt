// The registers of a thread.
ghost use Rattle.std.specs.Prelude.{◌≡◌, ◌≢◌, ◌<◌};
ghost use Rattle.dos_world.specs.World.{get, set, with_pc, with_held, blank};

use std::marker::Model;

/// The registers of a thread: pc, x0 to x31, and the word's address that lr.w reserved. Contracts
/// see them as the record `Registers` of the flat world.
#[derive(Clone, Copy)]
pub struct Regs {
    pc: u32,
    numbers: [u32; 32],
    held: Option<u32>,
}

impl Model for Regs {
    ghost use Rattle.dos_world.specs.World.{Registers};

    ghost Value = { Registers };

    ghost view = { λ r. record { pc = r.pc; numbers = r.numbers; held = r.held } };

    ghost inverse = { λ r. record { pc = r.pc; numbers = r.numbers; held = r.held } };
}

impl Regs {
    /// Registers with this pc. All else is 0, and nothing is reserved.
    pub fn new(pc: u32) -> Regs
        ensures { result ≡ blank pc }
    {
        Regs {
            pc,
            numbers: [0; 32],
            held: None,
        }
    }

    /// The value of x0 to x31.
    #[inline(always)]
    pub fn get(&self, index: u8) -> u32
        requires { index < 32 }
        ensures { result ≡ get self.now index }
    {
        self.numbers[index as usize]
    }

    /// Sets x1 to x31. A write to x0, which is always 0, is dropped (RISC-V unprivileged manual,
    /// edition 20191213, section 2.1).
    #[inline(always)]
    pub fn set(&mut self, index: u8, value: u32)
        requires { index < 32 }
        ensures { self.new ≡ set self.old index value }
    {
        if index != 0 {
            self.numbers[index as usize] = value;
        }
    }

    /// Sets x1 to x31, as `set` does, without a test for x0.
    #[inline(always)]
    pub fn set_nonzero(&mut self, index: u8, value: u32)
        requires small { index < 32 }
        requires nonzero { index ≢ 0 }
        ensures { self.new ≡ set self.old index value }
    {
        self.numbers[index as usize] = value;
    }

    /// The address of the next instruction.
    #[inline(always)]
    pub fn pc(&self) -> u32
        ensures { result ≡ self.now.pc }
    {
        self.pc
    }

    /// Sets pc.
    #[inline(always)]
    pub fn set_pc(&mut self, pc: u32)
        ensures { self.new ≡ with_pc self.old pc }
    {
        self.pc = pc;
    }

    /// The address of the reserved word.
    #[inline(always)]
    pub fn held(&self) -> Option<u32>
        ensures { result ≡ self.now.held }
    {
        self.held
    }

    /// Sets the reservation.
    #[inline(always)]
    pub fn set_held(&mut self, word: Option<u32>)
        ensures { self.new ≡ with_held self.old word }
    {
        self.held = word;
    }
}
