// The signals of a thread.
ghost use Rattle.std.specs.Prelude.{◌≡◌, ◌<◌, ◌≤◌, [], ◌∷◌, length, None, Some, IfNone, IfSome};
ghost use Rattle.std.specs.Prelude.{find, slice_get};
ghost use Rattle.dos_world.specs.World.{flat};
ghost use Rattle.dos_world.specs.SignalSet.{allowed_mask, has_bit, with_bit, without_bit};
ghost use Rattle.proc_table.specs.Saved.{first_signal, handled, is_deliverable, lowest_open};

use crate::processes::first_none;
use dos_world::Regs;
use std::marker::Model;

// every bit but 0, which is no signal, and 9, which can't be masked
const MASKABLE: u32 = 0xffff_fdfe;

// the signal that nothing keeps off
const KILL: u8 = 9;

// how many registers and masks may be saved
const MOST_SAVED: u32 = 4;

/// The signals of a thread as sets of bits, bit k for signal k: those that are pending, and its
/// mask; and at most four saved registers and masks. Contracts see the record `Signals`, in which
/// the last saved stands first.
#[derive(Clone, Copy, Drop)]
pub struct SignalState {
    pending: u32,
    mask: u32,
    saved: [Option<(Regs, u32)>; 4],
}

impl Model for SignalState {
    ghost use Rattle.std.specs.Prelude.{◌≡◌};
    ghost use Rattle.std.proofs.Common.{sym};
    ghost use Rattle.proc_table.specs.Tables.{Signals};
    ghost use Rattle.proc_table.specs.Saved.{kept_slots, slots_of};

    ghost Value = { Signals };

    ghost view = { λ s. record { pending = s.pending; mask = s.mask; saved = kept_slots s.saved } };

    ghost invariant = { λ s. s.saved ≡ slots_of 4 (kept_slots s.saved) };

    ghost inverse = { λ s.
        record { pending = s.pending; mask = s.mask; saved = slots_of 4 s.saved } };
}

impl SignalState {
    /// Nothing pending or saved. Bits 0 and 9 of the mask are dropped.
    pub fn new(mask: u32) -> SignalState
        ensures { result ≡ record { pending = 0; mask = allowed_mask mask; saved = [] } }
    {
        SignalState::masked(mask & MASKABLE)
    }

    /// These signals pending, this mask, and these registers and masks saved, the last saved
    /// first.
    pub fn from_parts(pending: u32, mask: u32, saved: &[(Regs, u32)]) -> SignalState
        requires { length saved.now ≤ 4 }
        ensures { result ≡ record { pending = pending; mask = mask; saved = saved.now } }
    {
        let slots = [
            slot(saved, 0),
            slot(saved, 1),
            slot(saved, 2),
            slot(saved, 3),
        ];
        SignalState {
            pending,
            mask,
            saved: slots,
        }
    }

    /// The signals that are pending, a set of bits.
    pub fn pending(&self) -> u32
        ensures { result ≡ self.now.pending }
    {
        self.pending
    }

    /// The registers and the mask that were saved at this place, where 0 is the last saved.
    pub fn saved(&self, place: u32) -> (Regs, u32)
        requires { place < length self.now.saved }
        ensures { slice_get self.now.saved place ≡ Some result }
    {
        match slot_at(&self.saved, place) {
            Some(saved) => saved,
            None => unreachable!(),
        }
    }

    /// The signal is pending.
    pub fn post(&mut self, signal: u8)
        requires { signal < 32 }
        ensures { self.new ≡ record self.old { pending = with_bit self.old.pending signal } }
    {
        self.pending |= 1 << signal;
    }

    /// The signal isn't pending any more.
    pub fn clear(&mut self, signal: u8)
        requires { signal < 32 }
        ensures { self.new ≡ record self.old { pending = without_bit self.old.pending signal } }
    {
        self.pending = without(self.pending, signal);
    }

    /// The mask, a set of bits.
    pub fn mask(&self) -> u32
        ensures { result ≡ self.now.mask }
    {
        self.mask
    }

    /// Sets the mask, less bits 0 and 9.
    pub fn set_mask(&mut self, mask: u32)
        ensures { self.new ≡ record self.old { mask = allowed_mask mask } }
    {
        self.mask = mask & MASKABLE;
    }

    /// How many registers and masks are saved, at most 4.
    pub fn depth(&self) -> u32
        ensures { result ≡ length self.now.saved }
    {
        match first_none(&self.saved) {
            Some(place) => place as u32,
            None => MOST_SAVED,
        }
    }

    /// The signal that comes: 9 where it is pending, else the lowest pending one that isn't masked.
    /// None exactly where there is neither.
    pub fn first(&self) -> Option<u8>
        ensures { result ≡ first_signal self.now.pending self.now.mask }
    {
        if has(self.pending, KILL) {
            return Some(KILL);
        }
        lowest_open(self.pending, self.mask)
    }

    /// Saves these registers and the mask, as the last.
    pub fn save(&mut self, regs: Regs)
        requires { length self.old.saved < 4 }
        ensures { self.new ≡ record self.old { saved = (regs, self.old.mask) ∷ self.old.saved } }
    {
        let [first, second, third, _] = self.saved;
        let saved = [Some((regs, self.mask)), first, second, third];
        self.saved = saved;
    }

    /// Takes back the mask that was saved last; the registers saved with it. None exactly where
    /// nothing is saved; nothing changes then.
    pub fn restore(&mut self) -> Option<Regs>
        ensures none { IfNone result (self.old.saved ≡ []) }
        ensures stays { IfNone result (self.new ≡ self.old) }
        ensures last { IfSome result
            (λ regs. self.old.saved ≡ (regs, self.new.mask) ∷ self.new.saved) }
        ensures pending { self.new.pending ≡ self.old.pending }
    {
        let [last, second, third, fourth] = self.saved;
        let (regs, mask) = last?;
        self.mask = mask;
        let others = [second, third, fourth, None];
        self.saved = others;
        Some(regs)
    }

    /// A handler of the signal begins: these registers and the mask are saved, the signal isn't
    /// pending any more, and it is masked.
    pub fn handle(&mut self, signal: u8, regs: Regs)
        requires signal { signal < 32 }
        requires room { length self.old.saved < 4 }
        ensures { self.new ≡ handled self.old signal regs }
    {
        self.save(regs);
        self.clear(signal);
        self.mask |= 1 << signal;
    }

    // Nothing pending or saved, and exactly this mask.
    pub(crate) fn masked(mask: u32) -> SignalState
        ensures { result ≡ record { pending = 0; mask = mask; saved = [] } }
    {
        SignalState {
            pending: 0,
            mask,
            saved: [None; 4],
        }
    }

    // The same with nothing pending.
    pub(crate) fn begun(self) -> SignalState
        ensures { result ≡ record self { pending = 0 } }
    {
        SignalState { pending: 0, ..self }
    }
}

// what is saved at this place, where anything is
fn slot(saved: &[(Regs, u32)], place: usize) -> Option<(Regs, u32)>
    ensures { result ≡ slice_get saved.now place }
{
    match saved.get(place) {
        Some(saved) => Some(*saved),
        None => None,
    }
}

// what is in the slot of this place
fn slot_at(slots: &[Option<(Regs, u32)>; 4], place: u32) -> Option<(Regs, u32)>
    ensures { result ≡ flat (slice_get slots.now place) }
{
    match slots.get(place as usize) {
        Some(slot) => *slot,
        None => None,
    }
}

// The lowest signal that is pending and not masked.
fn lowest_open(pending: u32, mask: u32) -> Option<u8>
    ensures { result ≡ lowest_open pending mask }
{
    for signal in 1..32 {
        if has(pending, signal) && !has(mask, signal) {
            return Some(signal);
        }
    }
    None
}

fn without(set: u32, signal: u8) -> u32
    requires { signal < 32 }
    ensures { result ≡ without_bit set signal }
{
    if has(set, signal) {
        return set - (1 << signal);
    }
    set
}

fn has(set: u32, signal: u8) -> bool
    requires { signal < 32 }
    ensures { result ≡ has_bit set signal }
{
    set >> signal & 1 == 1
}
