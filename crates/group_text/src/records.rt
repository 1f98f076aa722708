// A saved group as plain data.
use dos_world::{Config, End, Entry, Owner, Regs, ThreadState};
use page_store::Page;

/// A process: its parent, 0 for none, and its status, where it has ended, and whether its parent
/// has collected it. Where it lives, the actions of its signals 1 to 31, its 32 descriptors and its
/// pages in rising order; else these are empty.
#[derive(Drop)]
pub struct ProcessRecord {
    pub parent: u32,
    pub status: Option<u8>,
    pub collected: bool,
    pub actions: Vec<u32>,
    pub ends: Vec<Option<End>>,
    pub pages: Vec<(u32, Entry)>,
}

/// A live thread: its number, its process, registers, budget and state, its signals as sets of
/// bits, and the registers and masks that handlers have saved, the last saved first.
#[derive(Drop)]
pub struct ThreadRecord {
    pub tid: u32,
    pub pid: u32,
    pub regs: Regs,
    pub budget: u32,
    pub state: ThreadState,
    pub pending: u32,
    pub mask: u32,
    pub saved: Vec<(Regs, u32)>,
}

/// Which thread sleeps on which word: a frame and an offset in it.
#[derive(Clone, Copy, Drop)]
pub struct SleeperRecord {
    pub tid: u32,
    pub frame: u32,
    pub offset: u16,
}

/// A frame: its owner, and its page, which says nothing where it is Free.
#[derive(Drop)]
pub struct FrameRecord {
    pub owner: Owner,
    pub page: Page,
}

/// A saved group: the digest of its log's file and how many of its entries were used, what the run
/// was given, the rounds run and the thread numbers given; the processes by number, the live
/// threads in rising number, the pipes by number, the sleepers in their order, and the frames.
#[derive(Drop)]
pub struct GroupRecord {
    pub digest: [u8; 32],
    pub used: u32,
    pub config: Config,
    pub rounds: u32,
    pub given: u16,
    pub processes: Vec<ProcessRecord>,
    pub threads: Vec<ThreadRecord>,
    pub pipes: Vec<Vec<u8>>,
    pub sleepers: Vec<SleeperRecord>,
    pub frames: Vec<FrameRecord>,
}
