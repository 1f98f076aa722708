// What an instruction touches.
ghost use Rattle.std.specs.Prelude.{◌≡◌, ◌+◌, ◌%◌, ◌^◌, ◌<◌, ◌≤◌, ℕ, Bool, IfSome, List};
ghost use Rattle.std.specs.Prelude.{option_map};
ghost use Rattle.std.specs.List.{list_any};
ghost use Rattle.dos_world.specs.Numbered.{run_of};
ghost use Rattle.dos_world.specs.Reach.{width};
ghost use Rattle.dos_world.specs.World.{World, Registers};
ghost use Rattle.rv_isa.specs.Valid.{IsValid};
ghost use Rattle.flat_machine.specs.Arithmetic as arithmetic;
ghost use Rattle.flat_machine.specs.Effect.{atomic, effect, is_held};
ghost use Rattle.group_walk.specs.Walks.{kind_named};
ghost use Rattle.kernel_calls.specs.StateWorld.{IsSound, sent, world_of};
ghost use Rattle.proc_table.specs.Tables.{IsLiveThread};
ghost use Rattle.debug_session.specs.Told.{place_of_address};
ghost use Rattle.debug_session.specs.Accesses.{touch_by, touch_of};
ghost use Rattle.debug_session.specs.Hits as hits;
ghost use Rattle.debug_hits.specs.Kept.{FitsPage, is_touched_as};
ghost use Rattle.debug_hits.specs.Touching.{counts, is_between, touch_named};

use crate::pages::place_of;
use crate::watched::front_count;
use debug_session::{WatchKind, Watchpoint};
use dos_world::Regs;
use group_walk::{MoveKind, instruction_of};
use kernel_calls::State;
use rv_isa::{AmoOp, Instr, LoadOp, StoreOp};

/// A stretch of a process's addresses, and whether an instruction loads from it and stores to it.
#[derive(Clone, Copy, Debug, PartialEq, Eq)]
pub struct Touch {
    /// The first address.
    pub address: u32,
    /// How many bytes.
    pub count: u32,
    /// It loads from there.
    pub is_read: bool,
    /// It stores there.
    pub is_written: bool,
}

// how many bytes a load takes
fn load_count(op: LoadOp) -> u32
    ensures { result ≡ width (arithmetic.load_size op) }
{
    match op {
        LoadOp::Lb | LoadOp::Lbu => 1,
        LoadOp::Lh | LoadOp::Lhu => 2,
        LoadOp::Lw => 4,
    }
}

// how many bytes a store takes
fn store_count(op: StoreOp) -> u32
    ensures { result ≡ width (arithmetic.store_size op) }
{
    match op {
        StoreOp::Sb => 1,
        StoreOp::Sh => 2,
        StoreOp::Sw => 4,
    }
}

// whether this address is reserved
fn is_held(held: Option<u32>, address: u32) -> bool
    ensures { result ≡ is_held held address }
{
    match held {
        None => false,
        Some(word) => word == address,
    }
}

// of an atomic instruction on the word at this address
fn atomic_touch(op: AmoOp, address: u32, held: Option<u32>) -> Touch
    ensures { (w : World) (p rd rs1 rs2 b : ℕ) (aq rl : Bool) (r : Registers) → r.held ≡ held
        → touch_by w p (Instr.Amo op rd rs1 rs2 aq rl) (atomic op rd address b r)
        ≡ Some (touch_named result) }
{
    let (is_read, is_written) = match op {
        AmoOp::LrW => (true, false),
        AmoOp::ScW => (false, is_held(held, address)),
        AmoOp::AmoswapW
        | AmoOp::AmoaddW
        | AmoOp::AmoxorW
        | AmoOp::AmoandW
        | AmoOp::AmoorW
        | AmoOp::AmominW
        | AmoOp::AmomaxW
        | AmoOp::AmominuW
        | AmoOp::AmomaxuW => (true, true),
    };
    Touch {
        address,
        count: 4,
        is_read,
        is_written,
    }
}

// of an instruction in these registers
#[tactic(auto, unfolding(flat_machine::specs::Effect::effect))]
fn touch_by(instr: &Instr, regs: &Regs) -> Option<Touch>
    requires { IsValid instr.now }
    ensures { (w : World) (p size : ℕ) → touch_by w p instr.now (effect instr.now size regs.now)
        ≡ option_map touch_named result }
{
    match *instr {
        Instr::Upper { .. }
        | Instr::Jal { .. }
        | Instr::Jalr { .. }
        | Instr::Branch { .. }
        | Instr::Imm { .. }
        | Instr::Shift { .. }
        | Instr::Reg { .. }
        | Instr::Fence { .. }
        | Instr::Ecall
        | Instr::Ebreak => None,
        Instr::Load {
            op,
            rs1,
            offset,
            ..
        } => Some(Touch {
            address: regs.get(rs1).wrapping_add_signed(offset),
            count: load_count(op),
            is_read: true,
            is_written: false,
        }),
        Instr::Store {
            op,
            rs1,
            offset,
            ..
        } => Some(Touch {
            address: regs.get(rs1).wrapping_add_signed(offset),
            count: store_count(op),
            is_read: false,
            is_written: true,
        }),
        Instr::Amo { op, rs1, .. } => Some(atomic_touch(op, regs.get(rs1), regs.held())),
    }
}

/// What the instruction of a thread touches that is next, as if its pages were granted. Any number.
pub fn touch_of(state: &State, thread: u32) -> Option<Touch>
    requires { IsSound state.now }
    ensures touches { (q : ℕ) (o e : List ℕ)
        → touch_of (sent o e (world_of q state.now)) thread ≡ option_map touch_named result }
    ensures live { IfSome result (λ _. IsLiveThread state.now.table.threads thread) }
{
    if !state.table.is_thread(thread) {
        return None;
    }
    let regs = state.table.regs(thread);
    match instruction_of(state, thread, regs.pc(), true) {
        Err(_) => None,
        Ok(None) => None,
        Ok(Some(instr)) => touch_by(&instr, regs),
    }
}

// whether so many bytes from an address on, which lie in one page, have one of so many from a place
// on
fn is_part_touched(
    state: &State,
    first: u64,
    touched: u32,
    process: u32,
    address: u64,
    count: u32,
) -> bool
    requires sound { IsSound state.now }
    requires first { first < 2 ^ 45 }
    requires address { address < 2 ^ 33 }
    requires within { address % 4096 + count ≤ 4096 }
    ensures { (q : ℕ) (o e : List ℕ) → list_any
        (λ a. is_between first touched
        (place_of_address (sent o e (world_of q state.now)) process a))
        (run_of address count) ≡ result }
{
    match place_of(state, process, address) {
        None => false,
        Some(place) => {
            let low = first.max(place);
            let high = (first + u64::from(touched)).min(place + u64::from(count));
            low < high
        }
    }
}

// whether a watchpoint has a byte of a stretch that a thread of a process touches
fn is_touched(state: &State, process: u32, touch: &Touch, point: &Watchpoint) -> bool
    requires sound { IsSound state.now }
    requires short { FitsPage point.now }
    ensures { (q : ℕ) (o e : List ℕ) → hits.is_touched (sent o e (world_of q state.now)) process
        (touch_named touch.now) point.now ≡ result }
{
    match place_of(state, process, u64::from(touch.address)) {
        None => false,
        Some(first) => {
            let count = front_count(point);
            let start = u64::from(point.address);
            if is_part_touched(state, first, touch.count, point.process, start, count) {
                return true;
            }
            let next = start + u64::from(count);
            let left = point.length - count;
            is_part_touched(state, first, touch.count, point.process, next, left)
        }
    }
}

// whether it reads, or where writes count, too, writes
fn counts(touch: &Touch, may_write: bool) -> bool
    ensures { result ≡ counts may_write (touch_named touch.now) }
{
    touch.is_read || may_write && touch.is_written
}

// whether a thread reads bytes of a watchpoint, or where writes count, too, writes them
fn is_touched_by(state: &State, thread: u32, point: &Watchpoint, may_write: bool) -> bool
    requires sound { IsSound state.now }
    requires short { FitsPage point.now }
    ensures { (q : ℕ) (o e : List ℕ) → hits.is_touched_by (counts may_write)
        (sent o e (world_of q state.now)) thread point.now
        (touch_of (sent o e (world_of q state.now)) thread) ≡ result }
{
    match touch_of(state, thread) {
        None => false,
        Some(touch) => {
            if !counts(&touch, may_write) {
                return false;
            }
            is_touched(state, state.table.process_of(thread), &touch, point)
        }
    }
}

// so of a move, which touches nothing where it is no instruction
fn is_touched_so(state: &State, kind: MoveKind, point: &Watchpoint, may_write: bool) -> bool
    requires sound { IsSound state.now }
    requires short { FitsPage point.now }
    ensures { (q : ℕ) (o e : List ℕ) → hits.is_touched_so (counts may_write)
        (sent o e (world_of q state.now)) (kind_named kind) point.now ≡ result }
{
    match kind {
        MoveKind::Runs { thread } => is_touched_by(state, thread, point, may_write),
        MoveKind::Begins => false,
        MoveKind::IsServed { .. } => false,
        MoveKind::Faults { .. } => false,
    }
}

/// Whether a move touches the bytes of a watchpoint as that is hit by.
pub fn is_touched_as(state: &State, kind: MoveKind, point: &Watchpoint) -> bool
    requires sound { IsSound state.now }
    requires short { FitsPage point.now }
    ensures { (q : ℕ) (o e : List ℕ) → is_touched_as point.now.kind
        (sent o e (world_of q state.now)) (kind_named kind) point.now ≡ result }
{
    match point.kind {
        WatchKind::Changes => false,
        WatchKind::Reads => is_touched_so(state, kind, point, false),
        WatchKind::Accesses => is_touched_so(state, kind, point, true),
    }
}
