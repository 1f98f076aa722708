// Which pages of code were compared with what is known of them.
ghost use Rattle.std.specs.Prelude.{◌≡◌, ◌<◌, ◌%◌, ℕ, List, Option, replicate, false, true};
ghost use Rattle.std.specs.Prelude.{slice_get, slice_index_or, slice_set, Some};
ghost use Rattle.page_store.specs.Compared.{AreFewer, AreRight, HasAlone, IsNoCode, SlotsArePlaced};
ghost use Rattle.page_store.specs.Compared.{IsUncompared, empty_slot};

/// A page that was found, by its first address.
#[derive(Clone, Copy)]
pub struct Slot {
    pub start: u32,
    pub frame: u32,
}

/// Of pages of code that were found, one in each of 64 slots, which of the 16 blocks of 256 bytes
/// were compared with what is known of the page. A frame is in one slot at most, which is found by
/// its number.
#[derive(Drop)]
pub struct Compared {
    pub slots: [Slot; 64],
    pub blocks: [bool; 1024],
    // in which slot a frame may be, by the low byte of its number
    places: [u8; 256],
    ghost placed: { SlotsArePlaced slots places },
}

// the start of a slot that has found nothing: no page begins there
const NO_START: u32 = 0xffff_ffff;

// a slot that has found nothing
const NO_SLOT: Slot = Slot {
    start: NO_START,
    frame: NO_START,
};

// the low byte of a frame's number
#[inline(always)]
fn low_byte(frame: u32) -> usize
    ensures is { result ≡ frame % 256 }
    ensures small { result < 256 }
{
    (frame % 256) as usize
}

// no block of a slot has been compared from now on; the others are the same
fn forget_blocks(blocks: &mut [bool; 1024], slot: usize)
    requires { slot < 64 }
    ensures none { IsUncompared blocks.new slot }
    ensures others { AreFewer blocks.old blocks.new }
{
    for block in 16 * slot..16 * slot + 16 {
        blocks[block] = false;
    }
}

// no slot has found anything
#[inline]
fn nothing_found() -> [Slot; 64]
    ensures { result ≡ replicate 64 empty_slot }
{
    [Slot {
        start: NO_START,
        frame: NO_START,
    }; 64]
}

impl Compared {
    /// Nothing is compared.
    #[inline]
    pub fn nothing() -> Compared
        ensures none { result.slots ≡ replicate 64 empty_slot }
        ensures unmarked { result.blocks ≡ replicate 1024 false }
        ensures right { (pages known : List (Option (List ℕ)))
            → AreRight result.slots result.blocks pages known }
    {
        Compared {
            slots: nothing_found(),
            blocks: [false; 1024],
            places: [0; 256],
        }
    }

    /// The slot that has this frame, where one has.
    #[inline(always)]
    pub fn place_of(&self, frame: u32) -> usize
        ensures small { result < 64 }
        ensures alone { HasAlone self.now.slots result frame }
    {
        (self.places[low_byte(frame)] % 64) as usize
    }

    /// Whether a slot has this frame.
    #[inline(always)]
    pub fn has(&self, frame: u32) -> bool
        ensures { result ≡ false → IsNoCode self.now.slots frame }
    {
        self.slots[self.place_of(frame)].frame == frame
    }

    /// Whether a block was compared, of the 16 of each slot.
    #[inline(always)]
    pub fn is_compared(&self, block: usize) -> bool
        requires { block < 1024 }
        ensures { result ≡ true → slice_get self.now.blocks block ≡ Some true }
    {
        self.blocks[block]
    }

    /// A block was compared, from now on.
    #[inline(always)]
    pub fn mark(&mut self, block: usize)
        requires { block < 1024 }
        ensures blocks { self.new.blocks ≡ slice_set self.old.blocks block true }
        ensures slots { self.new.slots ≡ self.old.slots }
        ensures is { slice_get self.new.blocks block ≡ Some true }
    {
        self.blocks[block] = true;
    }

    /// What a slot has found.
    #[inline(always)]
    pub fn slot(&self, place: usize) -> Slot
        requires { place < 64 }
        ensures { result ≡ slice_index_or self.now.slots place empty_slot }
    {
        self.slots[place]
    }

    /// A slot has found nothing any more.
    #[inline(always)]
    pub fn hide(&mut self, place: usize)
        requires { place < 64 }
        ensures slots { self.new.slots ≡ slice_set self.old.slots place empty_slot }
        ensures blocks { self.new.blocks ≡ self.old.blocks }
    {
        self.slots[place] = NO_SLOT;
    }

    /// A slot has found this page from now on, and none of its blocks is compared. Which slot, this
    /// or another, has found nothing before that.
    pub fn find(&mut self, place: usize, slot: Slot) -> usize
        requires { place < 64 }
        ensures small { result < 64 }
        ensures slots { self.new.slots
            ≡ slice_set (slice_set self.old.slots result empty_slot) place slot }
        ensures found { slice_index_or self.new.slots place empty_slot ≡ slot }
        ensures none { IsUncompared self.new.blocks place }
        ensures others { AreFewer self.old.blocks self.new.blocks }
    {
        let other = self.other_place(place, slot.frame);
        self.slots[other] = NO_SLOT;
        self.slots[place] = slot;
        self.places[low_byte(slot.frame)] = place as u8;
        forget_blocks(&mut self.blocks, place);
        other
    }

    // the slot of a frame with the same low byte, or else this one
    fn other_place(&self, place: usize, frame: u32) -> usize
        requires { place < 64 }
        ensures small { result < 64 }
        ensures alone { HasAlone self.now.slots result frame }
    {
        let other = self.place_of(frame);
        if low_byte(self.slots[other].frame) == low_byte(frame) {
            return other;
        }
        place
    }

    /// Nothing is compared any more: no slot has found anything, whatever stands of its blocks.
    #[inline]
    pub fn forget(&mut self)
        ensures none { self.new.slots ≡ replicate 64 empty_slot }
        ensures right { (pages known : List (Option (List ℕ)))
            → AreRight self.new.slots self.new.blocks pages known }
    {
        self.slots = nothing_found();
    }
}

/// What was compared, forgotten unless it is right for what it was compared with.
pub fn right_again(compared: Box<Compared>, is_right: bool) -> Box<Compared>
    ensures { (pages known : List (Option (List ℕ)))
        → (is_right ≡ true
        → AreRight compared.value.slots compared.value.blocks pages known)
        → AreRight result.value.slots result.value.blocks pages known }
{
    if is_right {
        return compared;
    }
    let mut compared = compared;
    compared.forget();
    compared
}
