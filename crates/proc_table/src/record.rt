use dos_world::End;

// What is kept of a process by its number.
#[derive(Clone, Copy, Drop)]
pub(crate) enum Kept {
    // It lives, and has this place.
    Live(u32),
    // Its status, and whether its parent has collected it.
    Ended { status: u8, collected: bool },
}

// A process; parent 0 is none.
#[derive(Clone, Copy, Drop)]
pub(crate) struct Record {
    pub(crate) parent: u32,
    pub(crate) kept: Kept,
}

// What a live process has beside its pages: its descriptors, and the actions of the signals 1 to
// 31.
#[derive(Clone, Copy, Drop)]
pub(crate) struct Belongings {
    pub(crate) descriptors: [Option<End>; 32],
    pub(crate) actions: [u32; 31],
}

// The children of a process that weren't collected, by number: its own first and last, and those
// of its parent before and after it. 0 is before the first, 65536 after the last.
#[derive(Clone, Copy, Drop)]
pub(crate) struct Links {
    pub(crate) first: u32,
    pub(crate) last: u32,
    pub(crate) previous: u32,
    pub(crate) next: u32,
}
