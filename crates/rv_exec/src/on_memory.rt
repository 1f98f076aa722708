// What the instructions that read or write memory do, by their forms, with pc beside the registers.
ghost use Rattle.std.specs.Prelude.{◌≡◌, ◌≢◌, ◌<◌, ℕ, Some, None, false};
ghost use Rattle.dos_world.specs.World.{get, set, with_pc, with_held};
ghost use Rattle.rv_isa.specs.declared.Instr.TheVariants.{Load, Store, Amo};
ghost use Rattle.rv_isa.specs.declared.AmoOp.TheVariants.{LrW, ScW};
ghost use Rattle.flat_machine.specs.Effect as effects;
ghost use Rattle.flat_machine.specs.Effect.{effect, combined, onward};
ghost use Rattle.flat_machine.specs.Over.{effect_in};
ghost use Rattle.rv_exec.specs.Follows.{Follows};
ghost use Rattle.rv_exec.specs.Arrivals.{PerformsAt, PerformsBy};

use crate::numbers::{greater, lesser, load_result, load_size, store_size};
use crate::on_registers::{first, put, second};
use crate::{Memory, Next};
use dos_world::{Reason, Regs, Size};
use rv_form::Form;
use rv_isa::{AmoOp, LoadOp, StoreOp};

/// The address of a load or store.
#[inline(always)]
fn address_of(regs: &Regs, form: &Form) -> u32
    ensures { result ≡ effects.plus (get regs.now form.now.rs1) form.now.imm }
{
    first(regs, form).wrapping_add_signed(form.imm)
}

/// A load, sign-extended for lb and lh.
#[inline(always)]
#[tactic(auto, unfolding(flat_machine::specs::Effect::effect))]
pub fn load<M: Memory>(
    regs: &mut Regs,
    memory: &mut M,
    form: &Form,
    op: LoadOp,
    why: &mut Reason,
) -> Next
    ensures { (size pc : ℕ) → PerformsBy M.answers (M.shows memory.old) (M.shows memory.new) size pc
        regs.old regs.new result why.new
        (effect (Load op form.now.rd form.now.rs1 form.now.imm) size) }
{
    let address = address_of(regs, form);
    match memory.load(address, load_size(op)) {
        Ok(number) => {
            put(regs, form, load_result(op, number));
            Next::On
        }
        Err(reason) => {
            *why = reason;
            Next::Not
        }
    }
}

/// A store of the low bytes of a register.
#[inline(always)]
pub fn store<M: Memory>(
    regs: &Regs,
    memory: &mut M,
    form: &Form,
    op: StoreOp,
    why: &mut Reason,
) -> Next
    ensures { (size pc : ℕ) → PerformsBy M.answers (M.shows memory.old) (M.shows memory.new) size pc
        regs.now regs.now result why.new
        (λ r. effects.stores (effects.plus (get r form.now.rs1) form.now.imm)
        (effects.store_size op) (get r form.now.rs2) (onward size r)) }
{
    let address = address_of(regs, form);
    let value = second(regs, form);
    match memory.store(address, store_size(op), value) {
        Ok(()) => Next::On,
        Err(reason) => {
            *why = reason;
            Next::Not
        }
    }
}

/// A number for the register that is written, and the reservation.
#[inline(always)]
fn put_and_hold(regs: &mut Regs, form: &Form, number: u32, held: Option<u32>)
    ensures { (p : ℕ) → with_pc regs.new p
        ≡ with_held (set (with_pc regs.old p) form.now.rd number) held }
{
    put(regs, form, number);
    regs.set_held(held);
}

/// lr.w: the word is claimed, and its address is the reservation.
#[inline(always)]
fn load_reserved<M: Memory>(
    regs: &mut Regs,
    memory: &mut M,
    form: &Form,
    address: u32,
    why: &mut Reason,
) -> Next
    ensures { (pc : ℕ) → PerformsAt M.answers (M.shows memory.old) (M.shows memory.new) pc
        regs.old regs.new result why.new (λ r. effects.link form.now.rd address (onward 4 r)) }
{
    let claimed = memory.claim(address);
    match claimed {
        Ok(number) => {
            put_and_hold(regs, form, number, Some(address));
            Next::On
        }
        Err(reason) => {
            *why = reason;
            Next::Not
        }
    }
}

/// Whether the reservation is this address.
#[inline(always)]
fn is_held(regs: &Regs, address: u32) -> bool
    ensures { result ≡ effects.is_held regs.now.held address }
{
    match regs.held() {
        Some(word) => word == address,
        None => false,
    }
}

/// sc.w: the word is claimed, also where nothing is stored; the reservation is emptied.
#[inline(always)]
fn store_conditional<M: Memory>(
    regs: &mut Regs,
    memory: &mut M,
    form: &Form,
    address: u32,
    value: u32,
    why: &mut Reason,
) -> Next
    ensures { (pc : ℕ) → PerformsAt M.answers (M.shows memory.old) (M.shows memory.new) pc
        regs.old regs.new result why.new (λ r. effects.conditional form.now.rd address value
        (effects.is_held r.held address) (onward 4 r)) }
{
    match memory.claim(address) {
        Err(reason) => {
            *why = reason;
            Next::Not
        }
        Ok(_) => {
            if !is_held(regs, address) {
                put_and_hold(regs, form, 1, None);
                return Next::On;
            }
            match memory.store(address, Size::Word, value) {
                Ok(()) => {
                    put_and_hold(regs, form, 0, None);
                    Next::On
                }
                Err(reason) => {
                    *why = reason;
                    Next::Not
                }
            }
        }
    }
}

/// What an AMO stores, by the old word and the second register.
#[inline(always)]
fn new_word(op: AmoOp, old: u32, value: u32) -> u32
    ensures { result ≡ combined op old value }
{
    match op {
        AmoOp::LrW => old,
        AmoOp::ScW => old,
        AmoOp::AmoswapW => value,
        AmoOp::AmoaddW => old.wrapping_add(value),
        AmoOp::AmoxorW => old ^ value,
        AmoOp::AmoandW => old & value,
        AmoOp::AmoorW => old | value,
        AmoOp::AmominW => lesser(old, value),
        AmoOp::AmomaxW => greater(old, value),
        AmoOp::AmominuW => old.min(value),
        AmoOp::AmomaxuW => old.max(value),
    }
}

/// An AMO: the word is claimed, and the new word stored.
#[inline(always)]
fn exchange<M: Memory>(
    regs: &mut Regs,
    memory: &mut M,
    form: &Form,
    op: AmoOp,
    address: u32,
    value: u32,
    why: &mut Reason,
) -> Next
    ensures { (pc : ℕ) → PerformsAt M.answers (M.shows memory.old) (M.shows memory.new) pc
        regs.old regs.new result why.new (λ r. effects.exchange form.now.rd address
        (λ old. combined op old value) (onward 4 r)) }
{
    match memory.claim(address) {
        Err(reason) => {
            *why = reason;
            Next::Not
        }
        Ok(old) => match memory.store(address, Size::Word, new_word(op, old, value)) {
            Ok(()) => {
                put(regs, form, old);
                Next::On
            }
            Err(reason) => {
                *why = reason;
                Next::Not
            }
        },
    }
}

/// lr.w, sc.w and the nine AMOs.
#[inline(always)]
pub fn atomic<M: Memory>(
    regs: &mut Regs,
    memory: &mut M,
    form: &Form,
    op: AmoOp,
    why: &mut Reason,
) -> Next
    ensures { (pc : ℕ) → PerformsAt M.answers (M.shows memory.old) (M.shows memory.new) pc
        regs.old regs.new result why.new (λ r. effects.atomic op form.now.rd (get r form.now.rs1)
        (get r form.now.rs2)
        (onward 4 r)) }
{
    let address = first(regs, form);
    let value = second(regs, form);
    match op {
        AmoOp::LrW => load_reserved(regs, memory, form, address, why),
        AmoOp::ScW => store_conditional(regs, memory, form, address, value, why),
        _ => exchange(regs, memory, form, op, address, value, why),
    }
}
