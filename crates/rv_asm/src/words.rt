//! The code of a builder.

ghost use Rattle.std.specs.Prelude.{◌≡◌, ◌≢◌, ◌<◌, ◌≤◌, ◌*◌, ◌^◌, ◌↔◌, Ok, Err, All, length, ◌++◌};
ghost use Rattle.std.specs.Prelude.{◌∷◌, [], OnOk, IfOk, IfErr, IfSome, IfNone, true, false};
ghost use Rattle.rv_isa.specs.Valid.{IsRegister, IsBranchOffset, IsJumpOffset};
ghost use Rattle.rv_asm.specs.Source.{HasRegisters, halfwords_of, halves_in, is_half};
ghost use Rattle.rv_asm.specs.Source.{place_of_label};
ghost use Rattle.rv_asm.specs.Words.{branch_by, branch_limit, bytes_between, fits_signed, jump_by};
ghost use Rattle.rv_asm.specs.Words.{jump_limit};
ghost use Rattle.rv_asm.specs.Words.{bytes_by, code_from, word_of};

use crate::error::AsmError;
use crate::item::Item;
use rv_isa::{BranchOp, Instr, encode};
use std::alloc::{AllocError, Global};

/// How many halfwords a branch reaches back, and one more than it reaches ahead.
const BRANCH_HALVES: usize = 2048;

/// The same of a jump.
const JUMP_HALVES: usize = 0x8_0000;

/// How many halfwords an item has.
pub fn halves_in(item: &Item) -> usize
    ensures value { result ≡ halves_in item.now }
    ensures range { result ≤ 2 }
{
    match item {
        Item::Half(_) => 1,
        Item::Word(_) => 2,
        Item::Jump { .. } => 2,
        Item::Branch { .. } => 2,
    }
}

/// Whether an item is a halfword.
pub fn is_half(item: &Item) -> bool
    ensures { result ≡ is_half item.now }
{
    match item {
        Item::Half(_) => true,
        Item::Word(_) => false,
        Item::Jump { .. } => false,
        Item::Branch { .. } => false,
    }
}

// The bytes from one place to another, if that is at most so many halfwords back and fewer ahead.
fn offset(place: usize, target: usize, halves: usize) -> Option<i32>
    requires { halves ≤ 2 ^ 19 }
    ensures near { IfSome result (λ offset. offset ≡ bytes_between place target) }
    ensures fits { IfSome result
        (λ offset. fits_signed (2 * halves) (bytes_between place target) ≡ true) }
    ensures far { IfNone result (fits_signed (2 * halves) (bytes_between place target) ≡ false) }
{
    if target >= place {
        let ahead = target - place;
        if ahead < halves {
            Some(2 * ahead as i32)
        } else {
            None
        }
    } else {
        let back = place - target;
        if back <= halves {
            Some(-2 * back as i32)
        } else {
            None
        }
    }
}

fn jump_word(place: u32, rd: u8, target: usize) -> Result<u32, AsmError>
    requires { rd < 32 }
    ensures { result ≡ jump_by place rd (bytes_between place target) }
{
    match offset(place as usize, target, JUMP_HALVES) {
        Some(offset) => Ok(encode(&Instr::Jal { rd, offset })),
        None => Err(AsmError::Reach(place)),
    }
}

fn branch_word(place: u32, op: BranchOp, rs1: u8, rs2: u8, target: usize) -> Result<u32, AsmError>
    requires rs1 { rs1 < 32 }
    requires rs2 { rs2 < 32 }
    ensures { result ≡ branch_by place op rs1 rs2 (bytes_between place target) }
{
    match offset(place as usize, target, BRANCH_HALVES) {
        Some(offset) => Ok(encode(&Instr::Branch {
            op,
            rs1,
            rs2,
            offset,
        })),
        None => Err(AsmError::Reach(place)),
    }
}

// The place that a label stands before.
fn place_of(labels: &[Option<usize>], label: u32) -> Option<usize>
    ensures { result ≡ place_of_label labels.now label }
{
    match labels.get(label as usize) {
        Some(place) => *place,
        None => None,
    }
}

// The number of the item at this place.
fn word_of(labels: &[Option<usize>], place: u32, item: &Item) -> Result<u32, AsmError>
    requires { HasRegisters item.now }
    ensures { result ≡ word_of labels.now place item.now }
{
    match *item {
        Item::Half(value) => Ok(u32::from(value)),
        Item::Word(value) => Ok(value),
        Item::Jump { rd, label } => match place_of(labels, label) {
            Some(target) => jump_word(place, rd, target),
            None => Err(AsmError::Unset(label)),
        },
        Item::Branch {
            op,
            rs1,
            rs2,
            label,
        } => match place_of(labels, label) {
            Some(target) => branch_word(place, op, rs1, rs2, target),
            None => Err(AsmError::Unset(label)),
        },
    }
}

// The bytes of one item more, by its number: its low half, or all of it, so that std's four bytes
// serve both.
fn add(code: &mut Vec<u8>, item: &Item, number: u32) -> Result<(), AllocError>
    ensures { OnOk result (code.new.items ≡ code.old.items ++ bytes_by item.now number) }
{
    let [first, second, third, fourth] = number.to_le_bytes();
    match item {
        Item::Half(_) => code.extend_from_slice(&[first, second]),
        Item::Word(_) => code.extend_from_slice(&[first, second, third, fourth]),
        Item::Jump { .. } => code.extend_from_slice(&[first, second, third, fourth]),
        Item::Branch { .. } => code.extend_from_slice(&[first, second, third, fourth]),
    }
}

/// The bytes of the items, the first at place 0.
pub fn code_of(alloc: Global, labels: &[Option<usize>], items: &[Item]) -> Result<Vec<u8>, AsmError>
    requires few { halfwords_of items.now < 2 ^ 32 }
    requires registers { All HasRegisters items.now }
    ensures ok { IfOk result (λ code. code_from labels.now 0 items.now ≡ Ok code.items) }
    ensures refused { IfErr result (λ error. error ≢ AsmError.Memory
        → code_from labels.now 0 items.now ≡ Err error) }
{
    let mut code = Vec::new(alloc);
    let mut place = 0;
    for item in items {
        let number = word_of(labels, place, item)?;
        add(&mut code, item, number)?;
        place += halves_in(item) as u32;
    }
    Ok(code)
}
