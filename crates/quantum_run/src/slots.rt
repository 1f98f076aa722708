// Slots for pages that were found.
ghost use Rattle.std.specs.Prelude.{◌≡◌, ◌<◌, ◌+◌, ◌==◌, ◌/◌, ◌%◌, ◌⊎◌, false, replicate, true};
ghost use Rattle.std.specs.Prelude.{slice_set};
ghost use Rattle.std.specs.List.{list_any};
ghost use Rattle.dos_world.specs.Reach.{width};
ghost use Rattle.quantum_run.specs.Finding.{page_start};
ghost use Rattle.quantum_run.specs.Knowing.{SlotsAreMarked, IsNoCode};
ghost use Rattle.quantum_run.specs.Knowing.{code_place};
ghost use Rattle.quantum_run.specs.Knowing.{empty_slot};

use dos_world::Size;
use page_store::Slot;

/// The start of a slot that has found nothing: no page begins there.
pub const NO_START: u32 = 0xffff_ffff;

/// A slot that has found nothing.
pub const NO_SLOT: Slot = Slot {
    start: NO_START,
    frame: NO_START,
};

/// Whether two slots have found the same page.
#[inline(always)]
pub fn is_same(a: Slot, b: Slot) -> bool
    ensures { result ≡ true → a ≡ b }
{
    a.start == b.start && a.frame == b.frame
}

/// No slot has found anything.
#[inline]
pub fn nothing_found() -> [Slot; 64]
    ensures { result ≡ replicate 64 empty_slot }
{
    [Slot {
        start: NO_START,
        frame: NO_START,
    }; 64]
}

/// Which slot of 64 a page is remembered in, by its address.
#[inline(always)]
pub fn slot_place(address: u32) -> usize
    ensures place { result ≡ address / 4096 % 64 }
    ensures small { result < 64 }
{
    (address / 4096 % 64) as usize
}

/// The first address of an address's page.
#[inline(always)]
pub fn start_of(address: u32) -> u32
    ensures { result ≡ page_start address }
{
    address / 4096 * 4096
}

/// The first address of an aligned address's page, and no page's first address for any other. One
/// comparison with it tests both.
#[inline(always)]
pub fn aligned_start(address: u32, size: Size) -> u32
    ensures { result ≡ page_start address + address % width size }
{
    match size {
        Size::Byte => address / 4096 * 4096,
        Size::Half => address / 4096 * 4096 + address % 2,
        Size::Word => address / 4096 * 4096 + address % 4,
    }
}

/// The offset in its page of an aligned address, spelled so that a compiler knows it to be aligned:
/// then it loads the bytes there at once, and else one by one.
#[inline(always)]
pub fn aligned_offset(address: u32, size: Size) -> u32
    requires { address % width size ≡ 0 }
    ensures { result ≡ address % 4096 }
{
    match size {
        Size::Byte => address % 4096,
        Size::Half => address % 4096 / 2 * 2,
        Size::Word => address % 4096 / 4 * 4,
    }
}

/// Whether a slot has this frame.
pub fn has_frame(slots: &[Slot; 64], frame: u32) -> bool
    ensures { result ≡ list_any (λ slot. slot.frame == frame) slots.now }
{
    let mut found = false;
    for slot in slots {
        found |= slot.frame == frame;
    }
    found
}

/// Which of 64 marks says whether a slot may have a frame.
#[inline(always)]
pub fn mark_place(frame: u32) -> usize
    ensures place { result ≡ frame % 64 }
    ensures small { result < 64 }
{
    (frame % 64) as usize
}

/// Whether a slot has this frame, which none has whose mark isn't set.
#[inline(always)]
pub fn finds_frame(slots: &[Slot; 64], marks: &[bool; 64], frame: u32) -> bool
    requires { SlotsAreMarked slots.now marks.now }
    ensures { result ≡ false → IsNoCode slots.now frame }
{
    marks[mark_place(frame)] && has_frame(slots, frame)
}

/// The slot of an address's page has this frame from now on.
#[inline(always)]
pub fn keep_frame(slots: &mut [Slot; 64], address: u32, frame: u32)
    ensures { slots.new ≡ slice_set slots.old (address / 4096 % 64)
        (record { start = page_start address; frame = frame }) }
{
    slots[slot_place(address)] = Slot {
        start: start_of(address),
        frame,
    };
}

/// No slot has this frame from now on: where one had, none has found anything.
pub fn forget_frame(slots: &mut [Slot; 64], marks: &[bool; 64], frame: u32)
    requires { SlotsAreMarked slots.old marks.now }
    ensures { ((slots.new ≡ slots.old) × IsNoCode slots.old frame)
        ⊎ (slots.new ≡ replicate 64 empty_slot) }
{
    if finds_frame(slots, marks, frame) {
        *slots = nothing_found();
    }
}

/// At which of 256 places an address's page of code is known.
#[inline(always)]
pub fn code_place(address: u32) -> usize
    ensures place { result ≡ code_place address }
    ensures small { result < 256 }
{
    (address / 4096 % 256) as usize
}
