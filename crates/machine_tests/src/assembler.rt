ghost use Rattle.std.specs.Prelude.{◌≡◌, ◌%◌, OnOk, OnErr};

use crate::checks::{same, same_at};
use crate::images::{SMALLEST, Wanted, check_file};
use elf_image::read_image;
use rv_asm::{AsmError, Builder, Label};
use rv_isa::{BranchOp, ImmOp, Instr};
use std::alloc::{AllocError, Global};
use std::process::Abort;

/// `addi x17, x0, 2`, `addi x10, x0, 7` and `ecall`.
fn three_instructions(alloc: Global, write: bool) -> Result<Builder, AllocError> {
    let mut builder = Builder::new(alloc, 0x1_0000, write)?;
    for (rd, imm) in [(17, 2), (10, 7)] {
        builder.push(&Instr::Imm {
            op: ImmOp::Addi,
            rd,
            rs1: 0,
            imm,
        })?;
    }
    builder.push(&Instr::Ecall)?;
    Ok(builder)
}

/// The file of a builder. Of what is in it nothing is said: the tests look.
fn finished(builder: Builder) -> Result<Vec<u8>, AsmError> {
    builder.finish()
}

/// The file of three instructions.
fn smallest(alloc: Global, write: bool) -> Result<Vec<u8>, AsmError> {
    finished(three_instructions(alloc, write)?)
}

/// A file is so long, and so it goes on at a place.
fn check_bytes(rt: &impl Abort, file: &[u8], len: usize, place: usize, bytes: &[u8]) {
    let is_there = file
        .get(place..)
        .is_some_and(|rest| rest.starts_with(bytes));
    same(rt, (file.len(), is_there), (len, true));
}

#[test]
fn the_smallest_file(rt: HostRuntime) {
    let file = smallest(rt.alloc(), true).expect(&rt, "a file");
    check_bytes(&rt, &file, 96, 0, &SMALLEST);
    drop(file);
}

#[test]
fn the_smallest_file_may_not_be_written(rt: HostRuntime) {
    let file = smallest(rt.alloc(), false).expect(&rt, "a file");
    let part = Wanted {
        address: 0x1_0000,
        zeros: 0,
        index: 0,
        write: false,
        exec: true,
        bytes: &SMALLEST[84..],
    };
    check_file(&rt, rt.alloc(), &file, 0x1_0000, &[part]);
    drop(file);
}

/// `c.li x17, 2`, `c.li x10, 7`, `ecall`, and a jump to the second.
fn two_halves(alloc: Global) -> Result<Vec<u8>, AsmError> {
    let mut builder = Builder::new(alloc, 0x1_0000, false)?;
    builder.half(0x4889)?;
    let label = builder.label()?;
    builder.here(label);
    builder.half(0x451d)?;
    builder.push(&Instr::Ecall)?;
    builder.jump(0, label)?;
    finished(builder)
}

#[test]
fn halfwords_have_a_flag(rt: HostRuntime) {
    let file = two_halves(rt.alloc()).expect(&rt, "a file");
    check_bytes(&rt, &file, 96, 36, &[1, 0, 0, 0]);
    // jal x0, -6
    let code = [
        0x89, 0x48, 0x1D, 0x45, 0x73, 0, 0, 0, 0x6F, 0xF0, 0xBF, 0xFF,
    ];
    check_bytes(&rt, &file, 96, 84, &code);
    drop(file);
}

/// Adds so many words that are 0.
fn fill(builder: &mut Builder, count: u32) -> Result<(), AllocError>
    ensures { OnOk result (builder.new.labels ≡ builder.old.labels) }
{
    for _ in 0..count {
        builder.word(0)?;
    }
    Ok(())
}

/// A branch to a label with so many words between.
fn branch_ahead(alloc: Global, between: u32) -> Result<Vec<u8>, AsmError> {
    let mut builder = Builder::new(alloc, 0x1_0000, false)?;
    let label = builder.label()?;
    builder.branch(BranchOp::Bne, 1, 2, label)?;
    fill(&mut builder, between)?;
    builder.here(label);
    finished(builder)
}

/// A label with so many words behind it, and then a branch to it.
fn branch_back(alloc: Global, between: u32) -> Result<Vec<u8>, AsmError> {
    let mut builder = Builder::new(alloc, 0x1_0000, false)?;
    let label = builder.label()?;
    builder.here(label);
    fill(&mut builder, between)?;
    builder.branch(BranchOp::Bne, 1, 2, label)?;
    finished(builder)
}

#[test]
fn branches_reach_so_far(rt: HostRuntime) {
    // offset 4096: the label is before word 1024
    let too_far = branch_ahead(rt.alloc(), 1023).err();
    same(&rt, too_far, Some(AsmError::Reach(0)));
    // offset 4092: bne x1, x2, +4092
    let file = branch_ahead(rt.alloc(), 1022).expect(&rt, "a file");
    check_bytes(&rt, &file, 4176, 84, &[0xE3, 0x9E, 0x20, 0x7E]);
    drop(file);
    // offset -4100, and -4096
    let too_far = branch_back(rt.alloc(), 1025).err();
    same(&rt, too_far, Some(AsmError::Reach(2050)));
    same(&rt, branch_back(rt.alloc(), 1024).err(), None);
}

/// A builder with one word, and a label behind it. Whether the label was set before, and is now.
fn with_label(alloc: Global) -> Result<(Builder, Label, (bool, bool)), AllocError> {
    let mut builder = Builder::new(alloc, 0x1_0000, false)?;
    builder.word(0)?;
    let label = builder.label()?;
    let before = builder.is_set(label);
    builder.here(label);
    let now = builder.is_set(label);
    Ok((builder, label, (before, now)))
}

/// A jump and a branch to a label behind the first word. Whether it was set before, and is now.
fn going_back(alloc: Global) -> Result<(Vec<u8>, (bool, bool)), AsmError> {
    let (mut builder, label, is_set) = with_label(alloc)?;
    builder.word(0x1122_3344)?;
    builder.jump(1, label)?;
    builder.branch(BranchOp::Bne, 10, 0, label)?;
    Ok((finished(builder)?, is_set))
}

#[test]
fn jumps_and_branches_go_back(rt: HostRuntime) {
    let (file, is_set) = going_back(rt.alloc()).expect(&rt, "a file");
    let words = [
        0, 0, 0, 0, //
        0x44, 0x33, 0x22, 0x11, //
        0xEF, 0xF0, 0xDF, 0xFF, // jal x1, -4
        0xE3, 0x1C, 0x05, 0xFE, // bne x10, x0, -8
    ];
    check_bytes(&rt, &file, 100, 84, &words);
    drop(file);
    same(&rt, is_set, (false, true));
}

/// A jump to a label that isn't set.
fn unset(alloc: Global) -> Result<Builder, AllocError> {
    let mut builder = Builder::new(alloc, 0x1_0000, false)?;
    let unset = builder.label()?;
    builder.jump(0, unset)?;
    Ok(builder)
}

/// A builder with the label 0 before its first word, and the label 1, which isn't set.
fn two_labels(alloc: Global) -> Result<(Builder, Label, Label), AllocError> {
    let mut builder = Builder::new(alloc, 0x1_0000, false)?;
    let start = builder.label()?;
    let unset = builder.label()?;
    builder.here(start);
    Ok((builder, start, unset))
}

/// Word 1 names the unset label 1, and word 1026 goes too far.
fn two_refusals(alloc: Global) -> Result<Builder, AllocError> {
    let (mut builder, start, unset) = two_labels(alloc)?;
    builder.word(0)?;
    builder.jump(0, unset)?;
    fill(&mut builder, 1024)?;
    builder.branch(BranchOp::Beq, 0, 0, start)?;
    Ok(builder)
}

/// Why there is no file.
fn check_refusal(rt: &impl Abort, builder: Result<Builder, AllocError>, wanted: AsmError) {
    let builder = builder.expect(rt, "memory");
    same(rt, builder.finish().err(), Some(wanted));
}

#[test]
fn the_first_word_without_a_meaning_is_told(rt: HostRuntime) {
    let empty = Builder::new(rt.alloc(), 0x1_0000, true);
    check_refusal(&rt, empty, AsmError::Range);
    check_refusal(&rt, unset(rt.alloc()), AsmError::Unset(0));
    check_refusal(&rt, two_refusals(rt.alloc()), AsmError::Unset(1));
}

/// Data in place of what there was.
fn set_data(
    builder: &mut Builder,
    address: u32,
    bytes: &[u8],
    zeros: u32,
) -> Result<(), AllocError> {
    builder.data(address, bytes, zeros)
}

/// One word at 0x00010000, and data.
fn with_data(alloc: Global, address: u32, bytes: &[u8], zeros: u32) -> Result<Vec<u8>, AsmError> {
    let mut builder = Builder::new(alloc, 0x1_0000, false)?;
    set_data(&mut builder, 0x1_0000, b"of no use", 9)?;
    builder.word(0x73)?;
    set_data(&mut builder, address, bytes, zeros)?;
    finished(builder)
}

/// Where data lies, its zeros, and the refusal.
type DataRow = (u32, u32, Option<AsmError>);

fn check_data(rt: &impl Abort, alloc: Global, rows: &[DataRow]) {
    for &(address, zeros, refusal) in rows {
        let seen = with_data(alloc, address, b"abc", zeros).err();
        same_at(rt, seen, refusal, (address, zeros));
    }
}

#[test]
fn data_is_apart_and_below_the_stack(rt: HostRuntime) {
    let rows = [
        (0xFFF, 0, Some(AsmError::Range)),
        (0x1000, 0, None),
        (0xFFFD, 0, None),
        (0xFFFE, 0, Some(AsmError::Range)),
        (0x1_0003, 0, Some(AsmError::Range)),
        (0x1_0004, 0, None),
        (0xEFFE_FFFC, 1, None),
        (0xEFFE_FFFC, 2, Some(AsmError::Range)),
        (0x1_1000, 0xFFFF_FFFF, Some(AsmError::Range)),
    ];
    check_data(&rt, rt.alloc(), &rows);
}

/// One word, at this address.
fn one_word(alloc: Global, base: u32) -> Result<Builder, AllocError>
    requires { base % 4096 ≡ 0 }
{
    let mut builder = Builder::new(alloc, base, false)?;
    builder.word(0x73)?;
    Ok(builder)
}

#[test]
fn code_is_below_the_stack(rt: HostRuntime) {
    for base in [0, 0xEFFF_0000] {
        check_refusal(&rt, one_word(rt.alloc(), base), AsmError::Range);
    }
}

#[test]
fn data_reads_back(rt: HostRuntime) {
    let file = with_data(rt.alloc(), 0x2_0002, b"abc", 5).expect(&rt, "a file");
    let code = Wanted {
        address: 0x1_0000,
        zeros: 0,
        index: 0,
        write: false,
        exec: true,
        bytes: &[0x73, 0, 0, 0],
    };
    let data = Wanted {
        address: 0x2_0002,
        zeros: 5,
        index: 1,
        write: true,
        exec: false,
        bytes: b"abc",
    };
    check_file(&rt, rt.alloc(), &file, 0x1_0000, &[code, data]);
    drop(file);
}

/// How many parts the image of a file has.
fn part_count(rt: &impl Abort, alloc: Global, file: &[u8]) -> usize {
    let image = read_image(alloc, file).expect(rt, "an image");
    image.parts().len()
}

#[test]
fn no_data_is_no_part(rt: HostRuntime) {
    let file = with_data(rt.alloc(), 0x2_0002, b"", 0).expect(&rt, "a file");
    let parts = part_count(&rt, rt.alloc(), &file);
    same(&rt, (file.len(), parts), (88, 1));
    drop(file);
}
