// The memory of one thread over any pages.
ghost use Rattle.std.specs.Prelude.{◌≡◌, ◌⊎◌, ◌+◌, ◌/◌, ◌%◌, ◌^◌, ◌<◌, ℕ, List, Option};
ghost use Rattle.std.specs.Prelude.{Some, None, Ok, Err, IfSome, false, slice_index_or, true};
ghost use Rattle.std.specs.Borrow.{GName};
ghost use Rattle.std.specs.Option.{ok_or, option_map};
ghost use Rattle.dos_world.specs.Reach.{bytes_of, width};
ghost use Rattle.dos_world.specs.World.{look};
ghost use Rattle.dos_world.specs.declared.Access.TheVariants.{Fetch, Load, Store};
ghost use Rattle.page_store.specs.Store.{joined, number_at};
ghost use Rattle.code_pages.specs.Lines.{IsLiveAt, bytes_of_pages};
ghost use Rattle.quantum_run.specs.Answering.{Still, still};
ghost use Rattle.quantum_run.specs.Showing.{ShowsKnown, StoresOrNot, answers_of, beside_name};
ghost use Rattle.quantum_run.specs.Finding.{AreFramesOf, IsWriting, flat_place};
ghost use Rattle.quantum_run.specs.Finding.{frame_for, frame_for_size, frame_of, page_start};
ghost use Rattle.quantum_run.specs.Knowing.{AreAmong, AreRight, FetchesAreApart, SlotsAreMarked};
ghost use Rattle.quantum_run.specs.Knowing.{IsCompared};
ghost use Rattle.quantum_run.specs.Knowing.{IsLineFor, empty_slot};
ghost use Rattle.quantum_run.specs.Knowing.{IsNoCode};
ghost use Rattle.quantum_run.specs.Knowing.{KeepsRight, slot_of};
ghost use Rattle.quantum_run.specs.Pages.{AreReached, AreOwn, AreWithin, IsPageHere};

use crate::pages::Pages;
use crate::slots::{
    NO_SLOT, NO_START, aligned_offset, aligned_start, code_place, forget_frame, is_same,
    keep_frame, mark_place, nothing_found, slot_place, start_of,
};
use code_pages::CodePages;
use dos_world::{Access, Entry, Reason, Size};
use page_store::{Compared, Slot};
use rv_exec::Memory;
use space_map::Space;

/// Pages and a space, as the memory of thread `tid`. Of fetches, of loads, and of stores or claims
/// the page that was found last in each of 64 slots is found again without a search: owners and
/// entries stand still while the thread runs.
///
/// Pages of code are known beside it, each by a copy of its bytes that was made in some part
/// before. A block of 256 bytes of such a page is compared with the copy, once, before what is
/// known of it is used: `compared` says of which, and outlives the part. What a fetch has found in
/// this part, in `shown`, is among what was found there. Only the thread itself writes while it
/// runs. A frame of which code was compared, in this part or before it, is no frame of a slot for
/// stores, so that a store there is searched for, and then nothing of it is compared any more: so
/// what was compared is right whichever page it was written through.
///
/// What is refused is rare. A search answers None then and leaves the reason in `refused`, so that
/// all it gives back to the loop of instructions fits registers.
#[derive(Drop)]
pub struct Running<'a, P: Pages> {
    pub pages: P,
    pub space: &'a Space,
    pub compared: &'a mut Compared,
    pub tid: u32,
    pub shown: [Slot; 64],
    pub loaded: [Slot; 64],
    pub stored: [Slot; 64],
    pub stored_marks: [bool; 64],
    pub hints: [u32; 64],
    pub refused: Reason,
    ghost reached: { AreReached tid (P.owners pages) space.now.entries (P.pages pages) },
    ghost own: { AreOwn tid (P.owners pages) space.now.entries (P.is_own pages) },
    ghost within: { AreWithin (P.owners pages) space.now.entries },
    ghost shown_are: { AreFramesOf tid (P.owners pages) space.now.entries Fetch shown },
    ghost loaded_are: { AreFramesOf tid (P.owners pages) space.now.entries Load loaded },
    ghost stored_are: { AreFramesOf tid (P.owners pages) space.now.entries Store stored },
    ghost kept: { AreAmong compared.now.slots shown },
    ghost apart: { FetchesAreApart compared.now.slots stored },
    ghost stored_marked: { SlotsAreMarked stored stored_marks },
}

impl<'a, P: Pages> Running<'a, P> {
    /// The memory before anything is found.
    pub fn new(
        pages: P,
        space: &'a Space,
        compared: &'a mut Compared,
        tid: u32,
        hints: [u32; 64],
    ) -> Running<'a, P>
        requires reached { AreReached tid (P.owners pages) space.now.entries (P.pages pages) }
        requires own { AreOwn tid (P.owners pages) space.now.entries (P.is_own pages) }
        requires within { AreWithin (P.owners pages) space.now.entries }
        ensures pages { result.pages ≡ pages }
        ensures space { result.space.now ≡ space.now }
        ensures thread { result.tid ≡ tid }
        ensures compared { result.compared ≡ compared.entry }
    {
        Running {
            pages,
            space,
            compared,
            tid,
            shown: nothing_found(),
            loaded: nothing_found(),
            stored: nothing_found(),
            stored_marks: [false; 64],
            hints,
            refused: Reason::Fault(11),
        }
    }

    /// No answer, for this reason.
    fn refuse<T>(&mut self, reason: Reason) -> Option<T>
        ensures none { ok_or result self.new.refused ≡ Err reason }
        ensures still { still self.new.tid (P.owners self.new.pages) self.new.space.now.entries
            ≡ still self.old.tid (P.owners self.old.pages) self.old.space.now.entries }
        ensures pages { self.new.pages ≡ self.old.pages }
        ensures same { (self.new.shown ≡ self.old.shown) × (self.new.compared ≡ self.old.compared) }
    {
        self.refused = reason;
        None
    }

    /// The entry of an address's page, which is looked for first where one stood last.
    #[inline]
    fn entry_of(&mut self, address: u32) -> Option<Entry>
        ensures entry { result ≡ look self.old.space.now.entries (address / 4096) }
        ensures still { still self.new.tid (P.owners self.new.pages) self.new.space.now.entries
            ≡ still self.old.tid (P.owners self.old.pages) self.old.space.now.entries }
        ensures pages { self.new.pages ≡ self.old.pages }
        ensures same { (self.new.shown ≡ self.old.shown) × (self.new.compared ≡ self.old.compared) }
    {
        let place = slot_place(address);
        self.space.look_near(address / 4096, &mut self.hints[place])
    }

    /// The entry of an address's page, by a search; None where the access is refused.
    #[inline]
    fn find(&mut self, address: u32, access: Access) -> Option<Entry>
        ensures value { ok_or (option_map frame_of result) self.new.refused
            ≡ frame_for self.old.tid
            (P.owners self.old.pages) self.old.space.now.entries access address }
        ensures entry { IfSome result
            (λ entry. look self.old.space.now.entries (address / 4096) ≡ Some entry) }
        ensures still { still self.new.tid (P.owners self.new.pages) self.new.space.now.entries
            ≡ still self.old.tid (P.owners self.old.pages) self.old.space.now.entries }
        ensures pages { self.new.pages ≡ self.old.pages }
        ensures same { (self.new.shown ≡ self.old.shown) × (self.new.compared ≡ self.old.compared) }
    {
        let Some(entry) = self.entry_of(address) else {
            return self.refuse(Reason::Fault(11));
        };
        if !entry.has_right(access) {
            return self.refuse(Reason::Fault(11));
        }
        if self.pages.owner(entry.frame).is_foreign(self.tid, access) {
            return self.refuse(Reason::Page { address, access });
        }
        Some(entry)
    }

    /// The frame of an address's page for a load, by a search; None where it is refused.
    #[cold]
    #[inline(never)]
    fn find_to_load(&mut self, address: u32, size: Size) -> Option<u32>
        ensures value { ok_or result self.new.refused
            ≡ frame_for_size self.old.tid
            (P.owners self.old.pages) self.old.space.now.entries Load size address }
        ensures aligned { IfSome result (λ frame. address % width size ≡ 0) }
        ensures home { IfSome result (λ frame. IsPageHere (P.pages self.new.pages) frame) }
        ensures still { still self.new.tid (P.owners self.new.pages) self.new.space.now.entries
            ≡ still self.old.tid (P.owners self.old.pages) self.old.space.now.entries }
        ensures pages { self.new.pages ≡ self.old.pages }
        ensures same { (self.new.shown ≡ self.old.shown) × (self.new.compared ≡ self.old.compared) }
    {
        if !size.is_aligned(address) {
            return self.refuse(Reason::Fault(7));
        }
        let Some(entry) = self.find(address, Access::Load) else {
            return None;
        };
        self.load_again(address, entry.frame);
        self.store_too(address, entry);
        Some(entry.frame)
    }

    /// A load finds this frame from now on.
    #[inline(always)]
    fn load_again(&mut self, address: u32, frame: u32)
        requires { frame_for self.old.tid (P.owners self.old.pages) self.old.space.now.entries
            Load address ≡ Ok frame }
        ensures still { still self.new.tid (P.owners self.new.pages) self.new.space.now.entries
            ≡ still self.old.tid (P.owners self.old.pages) self.old.space.now.entries }
        ensures pages { self.new.pages ≡ self.old.pages }
        ensures same { (self.new.shown ≡ self.old.shown) × (self.new.compared ≡ self.old.compared)
            × (self.new.refused ≡ self.old.refused) }
    {
        keep_frame(&mut self.loaded, address, frame);
    }

    /// A store finds the frame of this entry too from now on, where the thread may store into the
    /// address's page, which is the entry's, and no fetch has found the frame.
    #[inline(always)]
    fn store_too(&mut self, address: u32, entry: Entry)
        requires { look self.old.space.now.entries (address / 4096) ≡ Some entry }
        ensures still { still self.new.tid (P.owners self.new.pages) self.new.space.now.entries
            ≡ still self.old.tid (P.owners self.old.pages) self.old.space.now.entries }
        ensures pages { self.new.pages ≡ self.old.pages }
        ensures same { (self.new.shown ≡ self.old.shown) × (self.new.compared ≡ self.old.compared)
            × (self.new.refused ≡ self.old.refused) }
    {
        if !entry.has_right(Access::Store) {
            return;
        }
        if self
            .pages
            .owner(entry.frame)
            .is_foreign(self.tid, Access::Store)
        {
            return;
        }
        if self.compared.has(entry.frame) {
            return;
        }
        keep_frame(&mut self.stored, address, entry.frame);
        self.stored_marks[mark_place(entry.frame)] = true;
    }

    /// A load finds this frame too from now on, of an address's page that was found for a store or
    /// claim, unless loads find another page in its slot.
    #[inline(always)]
    fn load_too(&mut self, address: u32, access: Access, frame: u32)
        requires writing { IsWriting access }
        requires frame { frame_for self.old.tid (P.owners self.old.pages)
            self.old.space.now.entries access address ≡ Ok frame }
        ensures still { still self.new.tid (P.owners self.new.pages) self.new.space.now.entries
            ≡ still self.old.tid (P.owners self.old.pages) self.old.space.now.entries }
        ensures pages { self.new.pages ≡ self.old.pages }
        ensures same { (self.new.shown ≡ self.old.shown) × (self.new.compared ≡ self.old.compared)
            × (self.new.refused ≡ self.old.refused) }
    {
        if self.loaded[slot_place(address)].start == NO_START {
            self.load_again(address, frame);
        }
    }

    /// The frame of an address's page for a load; None where it is refused.
    #[inline]
    fn frame_to_load(&mut self, address: u32, size: Size) -> Option<u32>
        ensures value { ok_or result self.new.refused
            ≡ frame_for_size self.old.tid
            (P.owners self.old.pages) self.old.space.now.entries Load size address }
        ensures aligned { IfSome result (λ frame. address % width size ≡ 0) }
        ensures home { IfSome result (λ frame. IsPageHere (P.pages self.new.pages) frame) }
        ensures still { still self.new.tid (P.owners self.new.pages) self.new.space.now.entries
            ≡ still self.old.tid (P.owners self.old.pages) self.old.space.now.entries }
        ensures pages { self.new.pages ≡ self.old.pages }
        ensures same { (self.new.shown ≡ self.old.shown) × (self.new.compared ≡ self.old.compared) }
    {
        let slot = self.loaded[slot_place(address)];
        if slot.start == aligned_start(address, size) {
            return Some(slot.frame);
        }
        self.find_to_load(address, size)
    }

    /// Whether a fetch has found the page of this address, which is even.
    #[inline(always)]
    pub fn is_shown_at(&self, address: u32) -> bool
        ensures found { result ≡ true
            → (slot_of self.now.shown address).start ≡ page_start address }
        ensures even { result ≡ true → address % 2 ≡ 0 }
    {
        self.shown[slot_place(address)].start == aligned_start(address, Size::Half)
    }

    /// The slot of a page is this one from now on. Where it was another, none of its blocks has
    /// been compared, and no store finds its frame without a search.
    fn fill_slot(&mut self, place: usize, slot: Slot)
        requires { place < 64 }
        ensures filled { slice_index_or self.new.compared.now.slots place empty_slot ≡ slot }
        ensures right { KeepsRight self.old.compared.now.slots self.old.compared.now.blocks
            (P.pages self.old.pages) self.new.compared.now.slots self.new.compared.now.blocks
            (P.pages self.new.pages) }
        ensures name { self.new.compared.ghost_name ≡ self.old.compared.ghost_name }
        ensures still { still self.new.tid (P.owners self.new.pages) self.new.space.now.entries
            ≡ still self.old.tid (P.owners self.old.pages) self.old.space.now.entries }
        ensures pages { self.new.pages ≡ self.old.pages }
    {
        if is_same(self.compared.slot(place), slot) {
            return;
        }
        forget_frame(&mut self.stored, &self.stored_marks, slot.frame);
        let other = self.compared.find(place, slot);
        self.shown[other] = NO_SLOT;
        self.shown[place] = NO_SLOT;
    }

    /// A fetch finds this frame from now on, of an address's page. What was compared of it stays
    /// so, where the slot had it.
    fn show(&mut self, address: u32, frame: u32)
        requires { frame_for self.old.tid (P.owners self.old.pages) self.old.space.now.entries
            Fetch address ≡ Ok frame }
        ensures found { (slot_of self.new.shown address).start ≡ page_start address }
        ensures right { KeepsRight self.old.compared.now.slots self.old.compared.now.blocks
            (P.pages self.old.pages) self.new.compared.now.slots self.new.compared.now.blocks
            (P.pages self.new.pages) }
        ensures name { self.new.compared.ghost_name ≡ self.old.compared.ghost_name }
        ensures still { still self.new.tid (P.owners self.new.pages) self.new.space.now.entries
            ≡ still self.old.tid (P.owners self.old.pages) self.old.space.now.entries }
        ensures pages { self.new.pages ≡ self.old.pages }
    {
        let place = slot_place(address);
        let slot = Slot {
            start: start_of(address),
            frame,
        };
        self.fill_slot(place, slot);
        self.shown[place] = slot;
    }

    /// Whether a fetch finds the page of this address, by a search where none has.
    fn find_code(&mut self, address: u32) -> bool
        ensures found { result ≡ true
            → (slot_of self.new.shown address).start ≡ page_start address }
        ensures right { KeepsRight self.old.compared.now.slots self.old.compared.now.blocks
            (P.pages self.old.pages)
            self.new.compared.now.slots self.new.compared.now.blocks (P.pages self.new.pages) }
        ensures name { self.new.compared.ghost_name ≡ self.old.compared.ghost_name }
        ensures still { still self.new.tid (P.owners self.new.pages) self.new.space.now.entries
            ≡ still self.old.tid (P.owners self.old.pages) self.old.space.now.entries }
        ensures pages { self.new.pages ≡ self.old.pages }
    {
        if self.shown[slot_place(address)].start == start_of(address) {
            return true;
        }
        match self.find(address, Access::Fetch) {
            Some(entry) => {
                self.show(address, entry.frame);
                true
            }
            None => false,
        }
    }

    /// Whether the block of this address has been compared from now on, whose page a fetch has
    /// found; false where there is no memory for what is known of it.
    #[inline]
    fn compare(&mut self, code: &mut CodePages, address: u32) -> bool
        requires found { (slot_of self.old.shown address).start ≡ page_start address }
        ensures compared { result ≡ true
            → IsCompared self.new.shown self.new.compared.now.blocks address }
        ensures right { AreRight self.old.compared.now.slots self.old.compared.now.blocks
            (P.pages self.old.pages)
            (bytes_of_pages code.old)
            → AreRight self.new.compared.now.slots self.new.compared.now.blocks
            (P.pages self.new.pages)
            (bytes_of_pages code.new) }
        ensures name { self.new.compared.ghost_name ≡ self.old.compared.ghost_name }
        ensures still { still self.new.tid (P.owners self.new.pages) self.new.space.now.entries
            ≡ still self.old.tid (P.owners self.old.pages) self.old.space.now.entries }
        ensures pages { self.new.pages ≡ self.old.pages }
    {
        let slot = slot_place(address);
        let block = (address % 4096 / 256) as usize;
        if self.compared.is_compared(16 * slot + block) {
            return true;
        }
        let frame = self.shown[slot].frame;
        if !self.pages.check(frame, code, code_place(address), block) {
            return false;
        }
        self.compared.mark(16 * slot + block);
        true
    }

    /// The line of the code at an address from now on, whose block is compared and which is learnt
    /// where it isn't known yet; 0 where its fetch is refused, where it doesn't lie in one page, or
    /// where there is no memory for it.
    #[inline(never)]
    pub fn line_to_perform(&mut self, code: &mut CodePages, address: u32) -> usize
        ensures line { (result ≡ 0)
            ⊎ IsLineFor self.new.shown self.new.compared.now.blocks code.new address result }
        ensures live { (result ≡ 0) ⊎ IsLiveAt code.new.lines result }
        ensures even { (result ≡ 0) ⊎ (address % 2 ≡ 0) }
        ensures right { AreRight self.old.compared.now.slots self.old.compared.now.blocks
            (P.pages self.old.pages)
            (bytes_of_pages code.old)
            → AreRight self.new.compared.now.slots self.new.compared.now.blocks
            (P.pages self.new.pages)
            (bytes_of_pages code.new) }
        ensures name { self.new.compared.ghost_name ≡ self.old.compared.ghost_name }
        ensures still { still self.new.tid (P.owners self.new.pages) self.new.space.now.entries
            ≡ still self.old.tid (P.owners self.old.pages) self.old.space.now.entries }
        ensures pages { self.new.pages ≡ self.old.pages }
    {
        if address % 2 != 0 {
            return 0;
        }
        if !self.find_code(address) {
            return 0;
        }
        if !self.compare(code, address) {
            return 0;
        }
        code.line(code_place(address), address % 4096)
    }

    /// The number at an address, where a load finds its page without a search and it is aligned.
    #[inline(always)]
    pub fn quick_load(&self, address: u32, size: Size) -> Option<u32>
        ensures number { IfSome result (λ number.
            (fixed : (Still × (P.Fixed × GName)) × List (Option (List ℕ))) (m : P.State)
            → ⟦<Running<'static, P> as Memory>⟧.shows self.now fixed m
            → (⟦<Running<'static, P> as Memory>⟧.answers fixed).load m address size ≡ Ok number) }
    {
        let slot = self.loaded[slot_place(address)];
        if slot.start != aligned_start(address, size) {
            return None;
        }
        Some(self.read_aligned(slot.frame, address, size))
    }

    /// Whether the low bytes of a value are stored at an address, where a store finds its page
    /// without a search, it is aligned and there is room. Nothing is changed where they aren't.
    #[inline(always)]
    pub fn quick_store(&mut self, address: u32, size: Size, value: u32) -> bool
        ensures stored { (fixed : (Still × (P.Fixed × GName)) × List (Option (List ℕ)))
            (m : P.State)
            → ⟦<Running<'static, P> as Memory>⟧.shows self.old fixed m
            → StoresOrNot result
            ((⟦<Running<'static, P> as Memory>⟧.answers fixed).store m address size value) m
            (⟦<Running<'static, P> as Memory>⟧.shows self.new fixed) }
        ensures same { (self.new.shown ≡ self.old.shown) × (self.new.compared ≡ self.old.compared) }
    {
        let slot = self.stored[slot_place(address)];
        if slot.start != aligned_start(address, size) {
            return false;
        }
        self.write(slot.frame, address, size, value)
    }

    /// No fetch has found this frame any more; whether one had. Mostly it was that of this address.
    #[inline(always)]
    fn hide(&mut self, frame: u32) -> bool
        ensures free { IsNoCode self.new.compared.now.slots frame }
        ensures right { KeepsRight self.old.compared.now.slots self.old.compared.now.blocks
            (P.pages self.old.pages)
            self.new.compared.now.slots self.new.compared.now.blocks (P.pages self.new.pages) }
        ensures name { self.new.compared.ghost_name ≡ self.old.compared.ghost_name }
        ensures still { still self.new.tid (P.owners self.new.pages) self.new.space.now.entries
            ≡ still self.old.tid (P.owners self.old.pages) self.old.space.now.entries }
        ensures pages { self.new.pages ≡ self.old.pages }
        ensures same { (self.new.refused ≡ self.old.refused)
            × (self.new.stored_marks ≡ self.old.stored_marks) }
    {
        if !self.compared.has(frame) {
            return false;
        }
        let place = self.compared.place_of(frame);
        self.compared.hide(place);
        self.shown[place] = NO_SLOT;
        true
    }

    /// A store finds this frame from now on, unless a fetch has found it: none has any more then.
    #[inline(always)]
    fn store_again(&mut self, address: u32, access: Access, frame: u32)
        requires writing { IsWriting access }
        requires frame { frame_for self.old.tid (P.owners self.old.pages)
            self.old.space.now.entries access address ≡ Ok frame }
        ensures free { IsNoCode self.new.compared.now.slots frame }
        ensures right { KeepsRight self.old.compared.now.slots self.old.compared.now.blocks
            (P.pages self.old.pages)
            self.new.compared.now.slots self.new.compared.now.blocks (P.pages self.new.pages) }
        ensures name { self.new.compared.ghost_name ≡ self.old.compared.ghost_name }
        ensures still { still self.new.tid (P.owners self.new.pages) self.new.space.now.entries
            ≡ still self.old.tid (P.owners self.old.pages) self.old.space.now.entries }
        ensures pages { self.new.pages ≡ self.old.pages }
        ensures refused { self.new.refused ≡ self.old.refused }
    {
        if self.hide(frame) {
            return;
        }
        keep_frame(&mut self.stored, address, frame);
        self.stored_marks[mark_place(frame)] = true;
    }

    /// The frame of an address's page for a store or claim, by a search; None where it is refused.
    /// No fetch has found it any more.
    #[cold]
    #[inline(never)]
    fn find_to_write(&mut self, address: u32, size: Size, access: Access) -> Option<u32>
        requires { IsWriting access }
        ensures value { ok_or result self.new.refused
            ≡ frame_for_size self.old.tid
            (P.owners self.old.pages) self.old.space.now.entries access size address }
        ensures aligned { IfSome result (λ frame. address % width size ≡ 0) }
        ensures free { IfSome result
            (λ frame. IsNoCode self.new.compared.now.slots frame) }
        ensures right { KeepsRight self.old.compared.now.slots self.old.compared.now.blocks
            (P.pages self.old.pages)
            self.new.compared.now.slots self.new.compared.now.blocks (P.pages self.new.pages) }
        ensures name { self.new.compared.ghost_name ≡ self.old.compared.ghost_name }
        ensures still { still self.new.tid (P.owners self.new.pages) self.new.space.now.entries
            ≡ still self.old.tid (P.owners self.old.pages) self.old.space.now.entries }
        ensures pages { self.new.pages ≡ self.old.pages }
    {
        if !size.is_aligned(address) {
            return self.refuse(Reason::Fault(7));
        }
        let Some(entry) = self.find(address, access) else {
            return None;
        };
        self.store_again(address, access, entry.frame);
        self.load_too(address, access, entry.frame);
        Some(entry.frame)
    }

    /// The frame of an address's page for a store or claim; None where it is refused.
    #[inline(always)]
    fn frame_to_write(&mut self, address: u32, size: Size, access: Access) -> Option<u32>
        requires { IsWriting access }
        ensures value { ok_or result self.new.refused
            ≡ frame_for_size self.old.tid
            (P.owners self.old.pages) self.old.space.now.entries access size address }
        ensures aligned { IfSome result (λ frame. address % width size ≡ 0) }
        ensures home { IfSome result (λ frame. IsPageHere (P.pages self.new.pages) frame) }
        ensures own { IfSome result (λ frame. P.is_own self.new.pages frame ≡ true) }
        ensures free { IfSome result
            (λ frame. IsNoCode self.new.compared.now.slots frame) }
        ensures right { KeepsRight self.old.compared.now.slots self.old.compared.now.blocks
            (P.pages self.old.pages)
            self.new.compared.now.slots self.new.compared.now.blocks (P.pages self.new.pages) }
        ensures name { self.new.compared.ghost_name ≡ self.old.compared.ghost_name }
        ensures still { still self.new.tid (P.owners self.new.pages) self.new.space.now.entries
            ≡ still self.old.tid (P.owners self.old.pages) self.old.space.now.entries }
        ensures pages { self.new.pages ≡ self.old.pages }
    {
        let slot = self.stored[slot_place(address)];
        if slot.start == aligned_start(address, size) {
            return Some(slot.frame);
        }
        self.find_to_write(address, size, access)
    }

    /// The number at an aligned address whose page is this frame's.
    #[inline(always)]
    fn read(&self, frame: u32, address: u32, size: Size) -> u32
        requires home { IsPageHere (P.pages self.now.pages) frame }
        requires aligned { address % width size ≡ 0 }
        ensures value { result ≡ number_at (joined (P.pages self.now.pages))
            (flat_place frame address) size }
        ensures range { result < 256 ^ width size }
    {
        self.pages.read(frame, address % 4096, size)
    }

    /// The same, spelled so that it is one machine load.
    #[inline(always)]
    fn read_aligned(&self, frame: u32, address: u32, size: Size) -> u32
        requires home { IsPageHere (P.pages self.now.pages) frame }
        requires aligned { address % width size ≡ 0 }
        ensures value { result ≡ number_at (joined (P.pages self.now.pages))
            (flat_place frame address) size }
        ensures range { result < 256 ^ width size }
    {
        let offset = aligned_offset(address, size);
        self.pages.read(frame, offset, size)
    }

    /// Writes the low bytes of a number at an aligned address whose page is this frame's; false
    /// where there is no room for it, and nothing is changed then.
    #[inline(always)]
    fn write(&mut self, frame: u32, address: u32, size: Size, value: u32) -> bool
        requires own { P.is_own self.old.pages frame ≡ true }
        requires free { IsNoCode self.old.compared.now.slots frame }
        requires aligned { address % width size ≡ 0 }
        ensures stored { result ≡ true
            → (P.places (P.fixed self.old.pages)).write (P.state self.old.pages)
            (flat_place frame address) (bytes_of (width size) value)
            ≡ Some (P.state self.new.pages) }
        ensures full { result ≡ false
            → (P.places (P.fixed self.old.pages)).write (P.state self.old.pages)
            (flat_place frame address) (bytes_of (width size) value) ≡ None }
        ensures state { result ≡ false → P.state self.new.pages ≡ P.state self.old.pages }
        ensures right { KeepsRight self.old.compared.now.slots self.old.compared.now.blocks
            (P.pages self.old.pages)
            self.new.compared.now.slots self.new.compared.now.blocks (P.pages self.new.pages) }
        ensures name { self.new.compared.ghost_name ≡ self.old.compared.ghost_name }
        ensures still { still self.new.tid (P.owners self.new.pages) self.new.space.now.entries
            ≡ still self.old.tid (P.owners self.old.pages) self.old.space.now.entries }
        ensures fixed { P.fixed self.new.pages ≡ P.fixed self.old.pages }
        ensures same { (self.new.shown ≡ self.old.shown) × (self.new.compared ≡ self.old.compared) }
    {
        self.pages.write(frame, address % 4096, size, value)
    }
}

impl<'a, P: Pages> Memory for Running<'a, P> {
    ghost use Rattle.std.specs.Prelude.{List, Option, ℕ};
    ghost use Rattle.std.specs.Borrow.{GName};

    ghost Fixed = { (Still × (P.Fixed × GName)) × List (Option (List ℕ)) };

    ghost State = { P.State };

    ghost answers = { answers_of (beside_name P.places) };

    ghost shows = { λ m. ShowsKnown (still m.tid (P.owners m.pages) m.space.now.entries)
        (P.fixed m.pages, m.compared.ghost_name) (P.state m.pages) (P.pages m.pages)
        m.compared.now.slots m.compared.now.blocks };

    fn fetch_half(&mut self, address: u32) -> Result<u16, Reason> {
        if !Size::Half.is_aligned(address) {
            return Err(Reason::Fault(7));
        }
        match self.find(address, Access::Fetch) {
            Some(entry) => Ok(self.read(entry.frame, address, Size::Half) as u16),
            None => Err(self.refused),
        }
    }

    #[inline(always)]
    fn load(&mut self, address: u32, size: Size) -> Result<u32, Reason> {
        match self.frame_to_load(address, size) {
            Some(frame) => Ok(self.read_aligned(frame, address, size)),
            None => Err(self.refused),
        }
    }

    #[inline(always)]
    fn store(&mut self, address: u32, size: Size, value: u32) -> Result<(), Reason> {
        match self.frame_to_write(address, size, Access::Store) {
            Some(frame) => {
                if self.write(frame, address, size, value) {
                    return Ok(());
                }
                Err(Reason::Page {
                    address,
                    access: Access::Store,
                })
            }
            None => Err(self.refused),
        }
    }

    #[inline(always)]
    fn claim(&mut self, address: u32) -> Result<u32, Reason> {
        match self.frame_to_write(address, Size::Word, Access::Claim) {
            Some(frame) => {
                if self.pages.claims() {
                    return Ok(self.read_aligned(frame, address, Size::Word));
                }
                Err(Reason::Page {
                    address,
                    access: Access::Claim,
                })
            }
            None => Err(self.refused),
        }
    }
}
