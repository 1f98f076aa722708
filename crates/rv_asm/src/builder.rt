//! The builder.

ghost use Rattle.std.specs.Prelude.{◌≡◌, ◌%◌, ◌^◌, ◌<◌, length, IfOk, OnOk, OnErr, is_some, IsNone};
ghost use Rattle.rv_isa.specs.Valid.{IsValid};
ghost use Rattle.rv_isa.specs.Encoding.{encoding};
ghost use Rattle.rv_asm.specs.Source.{empty_at, place_of_label, with_item, HasRegisters};
ghost use Rattle.rv_asm.specs.Source.{with_label};
ghost use Rattle.rv_asm.specs.Source.{with_here, with_data};

mod finish;

use crate::item::{Item, Label};
use crate::words::halves_in;
use rv_isa::{BranchOp, Instr, encode};
use std::alloc::{AllocError, Global};
use std::marker::Model;

/// How many items fit before a builder takes more memory.
const FIRST_ITEMS: usize = 64;

/// A file in the making. Contracts see what it was told: the base, the right to write, the items,
/// for each label the place that it stands before, and the data part.
#[derive(Drop)]
pub struct Builder {
    alloc: Global,
    base: u32,
    write: bool,
    items: Vec<Item>,
    // how many halfwords they have
    count: usize,
    labels: Vec<Option<usize>>,
    address: u32,
    bytes: Vec<u8>,
    zeros: u32,
}

impl Model for Builder {
    ghost use Rattle.rv_asm.specs.Source.{IsSource, Source};

    ghost Value = { Source };

    ghost view = { λ b. record {
      base = b.base;
      write = b.write;
      items = b.items.items;
      labels =
          b.labels.items;
      data_part =
          record { address = b.address; bytes = b.bytes.items; zeros = b.zeros };
    } };

    ghost invariant = { λ b. IsSource b.base b.items.items b.count };
}

impl Builder {
    /// Nothing yet, for code from `base` on, a multiple of 4096, that may be executed and, where
    /// `write`, written.
    pub fn new(alloc: Global, base: u32, write: bool) -> Result<Builder, AllocError>
        requires { base % 4096 ≡ 0 }
        ensures { IfOk result (λ builder. builder ≡ empty_at base write) }
    {
        Ok(Builder {
            alloc,
            base,
            write,
            items: Vec::with_capacity(alloc, FIRST_ITEMS)?,
            count: 0,
            labels: Vec::new(alloc),
            address: 0,
            bytes: Vec::new(alloc),
            zeros: 0,
        })
    }

    /// A new label, unset. It has the next number.
    pub fn label(&mut self) -> Result<Label, AllocError>
        requires { length self.old.labels < 2 ^ 32 }
        ensures number { IfOk result (λ label. label.number ≡ length self.old.labels) }
        ensures ok { OnOk result (self.new ≡ with_label self.old) }
        ensures err { OnErr result (self.new ≡ self.old) }
    {
        let number = self.labels.len() as u32;
        self.labels.push(None)?;
        Ok(Label { number })
    }

    /// Whether the label of this builder stands somewhere.
    pub fn is_set(&self, label: Label) -> bool
        requires { label.number < length self.now.labels }
        ensures { result ≡ is_some (place_of_label self.now.labels label.number) }
    {
        self.labels[label.number as usize].is_some()
    }

    /// The unset label of this builder stands before the next halfword.
    pub fn here(&mut self, label: Label)
        requires made { label.number < length self.old.labels }
        requires unset { IsNone (place_of_label self.old.labels label.number) }
        ensures { self.new ≡ with_here self.old label.number }
    {
        self.labels[label.number as usize] = Some(self.count);
    }

    // One item more.
    fn add(&mut self, item: Item) -> Result<(), AllocError>
        requires { HasRegisters item }
        ensures ok { OnOk result (self.new ≡ with_item self.old item) }
        ensures err { OnErr result (self.new ≡ self.old) }
    {
        self.items.push(item)?;
        self.count += halves_in(&item);
        Ok(())
    }

    /// The halfword goes last.
    pub fn half(&mut self, value: u16) -> Result<(), AllocError>
        ensures ok { OnOk result (self.new ≡ with_item self.old (Item.Half value)) }
        ensures err { OnErr result (self.new ≡ self.old) }
    {
        self.add(Item::Half(value))
    }

    /// The word of a valid instruction goes last.
    pub fn push(&mut self, instr: &Instr) -> Result<(), AllocError>
        requires { IsValid instr.now }
        ensures ok { OnOk result (self.new ≡ with_item self.old (Item.Word (encoding instr.now))) }
        ensures err { OnErr result (self.new ≡ self.old) }
    {
        self.add(Item::Word(encode(instr)))
    }

    /// The word goes last.
    pub fn word(&mut self, value: u32) -> Result<(), AllocError>
        ensures ok { OnOk result (self.new ≡ with_item self.old (Item.Word value)) }
        ensures err { OnErr result (self.new ≡ self.old) }
    {
        self.add(Item::Word(value))
    }

    /// A jal to the label goes last, with `rd` below 32.
    pub fn jump(&mut self, rd: u8, label: Label) -> Result<(), AllocError>
        requires { rd < 32 }
        ensures ok { OnOk result (self.new ≡ with_item self.old (Item.Jump rd label.number)) }
        ensures err { OnErr result (self.new ≡ self.old) }
    {
        self.add(Item::Jump {
            rd,
            label: label.number,
        })
    }

    /// A branch to the label goes last, with both registers below 32.
    pub fn branch(&mut self, op: BranchOp, rs1: u8, rs2: u8, label: Label) -> Result<(), AllocError>
        requires rs1 { rs1 < 32 }
        requires rs2 { rs2 < 32 }
        ensures ok { OnOk result
            (self.new ≡ with_item self.old (Item.Branch op rs1 rs2 label.number)) }
        ensures err { OnErr result (self.new ≡ self.old) }
    {
        self.add(Item::Branch {
            op,
            rs1,
            rs2,
            label: label.number,
        })
    }

    /// The data part is these bytes at the address and then so many zeros, in place of an earlier
    /// one. No bytes and no zeros mean that there is none.
    pub fn data(&mut self, address: u32, bytes: &[u8], zeros: u32) -> Result<(), AllocError>
        ensures ok { OnOk result (self.new ≡ with_data self.old address bytes.now zeros) }
        ensures err { OnErr result (self.new ≡ self.old) }
    {
        let bytes = Vec::from_slice(self.alloc, bytes)?;
        self.address = address;
        self.bytes = bytes;
        self.zeros = zeros;
        Ok(())
    }
}
