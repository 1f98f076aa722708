//! What code is made of.

use rv_isa::BranchOp;

/// A place in the code, by its number among the labels of its builder, which counts from 0.
#[derive(Clone, Copy)]
pub struct Label {
    pub number: u32,
}

/// What code is made of. Labels go by their numbers, and registers are below 32.
#[derive(Clone, Copy)]
pub enum Item {
    /// The halfword itself.
    Half(u16),
    /// The word itself.
    Word(u32),
    /// A jal to the label.
    Jump {
        rd: u8,
        label: u32,
    },
    /// A branch to the label.
    Branch {
        op: BranchOp,
        rs1: u8,
        rs2: u8,
        label: u32,
    },
}
