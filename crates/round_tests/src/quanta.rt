// Small programs, assembled by hand, over four pages; what they leave is worked out from the
// manual.
ghost use Rattle.std.specs.Prelude.{◌≡◌, ◌∷◌, [], false, true, length, IfOk, IfSome};
ghost use Rattle.std.specs.List.{position};
ghost use Rattle.dos_world.specs.declared.Owner.TheVariants.{Of, Shared};
ghost use Rattle.dos_world.specs.World.{is_free};
ghost use Rattle.page_store.specs.Store.{AreHome, with_owned};
ghost use Rattle.quantum_run.specs.ThreadRuns.{AreMapped};

use crate::checks::same_at;
use dos_world::{Access, Entry, Reason, Regs, Size};
use page_store::Frames;
use quantum_run::run_until_stop;
use space_map::Space;
use std::alloc::{AllocError, Global};
use std::process::Abort;

/// The lowest free frame becomes the thread's.
fn take(frames: &mut Frames, tid: u32)
    requires { AreHome frames.old }
    ensures home { AreHome frames.new }
    ensures owned { IfSome (position is_free frames.old.owners)
        (λ frame. frames.new ≡ with_owned frames.old frame tid) }
{
    let _ = frames.fresh(tid);
}

/// Frames 0 and 1 of thread 1, frame 2 of thread 2, and frame 3, which is shared.
fn four_frames(alloc: Global) -> Result<Frames, AllocError>
    ensures home { IfOk result (λ f. AreHome f) }
    ensures count { IfOk result (λ f. length f.pages ≡ 4) }
    ensures owners { IfOk result (λ f. f.owners ≡ Of 1 ∷ Of 1 ∷ Of 2 ∷ Shared ∷ []) }
{
    let mut frames = Frames::reserve(alloc, 4)?;
    take(&mut frames, 1);
    take(&mut frames, 1);
    take(&mut frames, 2);
    take(&mut frames, 1);
    frames.grant(3, 1, Access::Load);
    Ok(frames)
}

fn entry(frame: u32, exec: bool) -> Entry
    ensures { result ≡ record { frame = frame; write = true; exec = exec; shared = false } }
{
    Entry {
        frame,
        write: true,
        exec,
        shared: false,
    }
}

/// The pages from 0x10 on, by frame; the last can't be executed.
fn four_pages(alloc: Global) -> Result<Space, AllocError>
    ensures { IfOk result (λ s. s.entries ≡
        (0x10, record { frame = 0; write = true; exec = true; shared = false }) ∷
        (0x11, record { frame = 1; write = true; exec = true; shared = false }) ∷
        (0x12, record { frame = 2; write = true; exec = true; shared = false }) ∷
        (0x13, record { frame = 3; write = true; exec = false; shared = false }) ∷ []) }
{
    let mut space = Space::reserve(alloc, 4)?;
    space.put(0x10, entry(0, true));
    space.put(0x11, entry(1, true));
    space.put(0x12, entry(2, true));
    space.put(0x13, entry(3, false));
    Ok(space)
}

/// Words at addresses of the pages 0x10 and 0x11.
fn write_words(frames: &mut Frames, words: &[(u32, u32)])
    requires home { AreHome frames.old }
    requires count { length frames.old.pages ≡ 4 }
    ensures home { AreHome frames.new }
    ensures count { length frames.new.pages ≡ 4 }
    ensures owners { frames.new.owners ≡ frames.old.owners }
{
    for (address, word) in words {
        let frame = address / 4096 % 2;
        let offset = address % 4096 / 4 * 4;
        frames.lend_mut(frame).write(offset, Size::Word, *word);
    }
}

/// The frames with a program in them, and the space.
fn loaded(rt: &impl Abort, alloc: Global, words: &[(u32, u32)]) -> (Frames, Space)
    ensures home { AreHome result.0 }
    ensures mapped { AreMapped result.0 result.1.entries }
{
    let mut frames = four_frames(alloc).expect(rt, "memory");
    write_words(&mut frames, words);
    (frames, four_pages(alloc).expect(rt, "memory"))
}

/// The word at an address of one of the pages.
fn word_at(frames: &Frames, address: u32) -> Option<u32> {
    let frame = address / 4096 % 16;
    if frame < frames.count() && frames.is_home(frame) {
        return Some(frames.lend(frame).read(address % 4096 / 4 * 4, Size::Word));
    }
    None
}

/// The registers of a thread at pc: x5, x6 and x8 are the pages 0x11, 0x12 and 0x13, x10 is 0x10,
/// and x11 isn't mapped.
fn registers(pc: u32, x7: u32) -> Regs {
    let mut regs = Regs::new(pc);
    for (index, value) in [
        (5, 0x11000),
        (6, 0x12000),
        (7, x7),
        (8, 0x13000),
        (9, 9),
        (10, 0x10000),
        (11, 0x14000),
    ] {
        regs.set(index, value);
    }
    regs
}

/// A run of thread 1 from pc with a budget of 10: why it stops, and what is left: of the budget,
/// pc, and x9.
#[derive(Clone, Copy)]
struct Run {
    name: &'static str,
    words: &'static [(u32, u32)],
    x7: u32,
    pc: u32,
    stop: Reason,
    left: [u32; 3],
}

/// A run from 0x10000 on, with 0 in x7, of words that each row gives.
const PLAIN: Run = Run {
    name: "",
    words: &[],
    x7: 0,
    pc: 0x10000,
    stop: Reason::Service,
    left: [10, 0x10000, 9],
};

/// An access that the page at this address refuses.
macro_rules! page {
    ($address:expr, $access:ident) => {
        Reason::Page {
            address: $address,
            access: Access::$access,
        }
    };
}

/// Words that are stored, loaded and run.
const STORED: [Run; 6] = [
    Run {
        name: "what is stored is loaded",
        words: &[
            (0x10000, 0x0072_a423), // sw x7, 8(x5)
            (0x10004, 0x0082_a483), // lw x9, 8(x5)
            (0x10008, 0x0000_0073), // ecall
        ],
        x7: 42,
        stop: Reason::Service,
        left: [8, 0x10008, 42],
        ..PLAIN
    },
    Run {
        name: "a halfword is stored beside another",
        words: &[
            (0x10000, 0x0072_9323), // sh x7, 6(x5)
            (0x10004, 0x0042_a483), // lw x9, 4(x5)
            (0x10008, 0x0000_0073), // ecall
            (0x11004, 0x1122_3344),
        ],
        x7: 0xaaaa_5566,
        stop: Reason::Service,
        left: [8, 0x10008, 0x5566_3344],
        ..PLAIN
    },
    Run {
        name: "an instruction that was stored is run",
        words: &[
            (0x10000, 0x0075_2423), // sw x7, 8(x10)
            (0x10004, 0x0000_0013), // nop
            (0x10008, 0x0000_0073), // ecall, over which addi x9, x0, 7 is stored
            (0x1000c, 0x0010_0073), // ebreak
        ],
        x7: 0x0070_0493,
        stop: Reason::Fault(5),
        left: [7, 0x1000c, 7],
        ..PLAIN
    },
    Run {
        name: "an instruction that lies on two pages",
        words: &[
            (0x10ffc, 0x0493_0000), // addi x9, x0, 42, its lower half
            (0x11000, 0x0000_02a0), // and its upper half; then a halfword that is none
        ],
        pc: 0x10ffe,
        stop: Reason::Fault(4),
        left: [9, 0x11002, 42],
        ..PLAIN
    },
    Run {
        name: "code that stores into its own page, over a word that was done before",
        words: &[
            (0x10000, 0x0014_8493), // addi x9, x9, 1
            (0x10004, 0x0075_2023), // sw x7, 0(x10)
            (0x10008, 0xff9f_f06f), // jal x0, -8
        ],
        x7: 0x0000_0073, // ecall
        stop: Reason::Service,
        left: [7, 0x10000, 10],
        ..PLAIN
    },
    Run {
        name: "code that stores into another page, over a word that was done before",
        words: &[
            (0x11000, 0x0014_8493), // addi x9, x9, 1
            (0x11004, 0x0005_0067), // jalr x0, 0(x10)
            (0x10000, 0x0072_a023), // sw x7, 0(x5)
            (0x10004, 0x0002_8067), // jalr x0, 0(x5)
        ],
        x7: 0x0000_0073, // ecall
        pc: 0x11000,
        stop: Reason::Service,
        left: [6, 0x11000, 10],
    },
];

/// Pages that are another's, that are shared or not mapped, or that can't be executed.
const REFUSED: [Run; 6] = [
    Run {
        name: "an instruction whose upper half is on another's page",
        words: &[(0x11ffc, 0x0493_0000)],
        pc: 0x11ffe,
        stop: page!(0x12000, Fetch),
        left: [10, 0x11ffe, 9],
        ..PLAIN
    },
    Run {
        name: "a load from another's page",
        words: &[
            (0x10000, 0x0002_a483), // lw x9, 0(x5)
            (0x10004, 0x0003_2483), // lw x9, 0(x6)
        ],
        stop: page!(0x12000, Load),
        left: [9, 0x10004, 0],
        ..PLAIN
    },
    Run {
        name: "a shared page is loaded from and not stored to",
        words: &[
            (0x10000, 0x0004_2483), // lw x9, 0(x8)
            (0x10004, 0x0074_2023), // sw x7, 0(x8)
        ],
        x7: 1,
        stop: page!(0x13000, Store),
        left: [9, 0x10004, 0],
        ..PLAIN
    },
    Run {
        name: "its own word is claimed, and a shared one isn't",
        words: &[
            (0x10000, 0x0072_a4af), // amoadd.w x9, x7, (x5)
            (0x10004, 0x0072_a4af), // amoadd.w x9, x7, (x5)
            (0x10008, 0x0074_24af), // amoadd.w x9, x7, (x8)
        ],
        x7: 3,
        stop: page!(0x13000, Claim),
        left: [8, 0x10008, 3],
        ..PLAIN
    },
    Run {
        name: "a page that isn't mapped",
        words: &[(0x10000, 0x0005_a483)], // lw x9, 0(x11)
        stop: Reason::Fault(11),
        left: [10, 0x10000, 9],
        ..PLAIN
    },
    Run {
        name: "a page that can't be executed",
        words: &[],
        pc: 0x13000,
        stop: Reason::Fault(11),
        left: [10, 0x13000, 9],
        ..PLAIN
    },
];

fn check_run(rt: &impl Abort, alloc: Global, run: &Run) {
    let (mut frames, space) = loaded(rt, alloc, run.words);
    let mut regs = registers(run.pc, run.x7);
    let mut budget = 10;
    let stop = run_until_stop(&mut frames, &space, 1, &mut regs, &mut budget);
    let left = [budget, regs.pc(), regs.get(9)];
    same_at(rt, (stop, left), (Some(run.stop), run.left), run.name);
    drop(frames);
    drop(space);
}

#[test]
fn what_is_stored_is_loaded_and_run(rt: HostRuntime) {
    for run in &STORED {
        check_run(&rt, rt.alloc(), run);
    }
}

#[test]
fn runs_stop_at_pages(rt: HostRuntime) {
    for run in &REFUSED {
        check_run(&rt, rt.alloc(), run);
    }
}

/// A loop that stores x7 and adds 7 to it.
const LOOP: [(u32, u32); 3] = [
    (0x10000, 0x0072_a023), // sw x7, 0(x5)
    (0x10004, 0x0073_8393), // addi x7, x7, 7
    (0x10008, 0xff9f_f06f), // jal x0, -8
];

/// Budgets that are used up; then pc, x7 and the word that was stored last.
const BUDGETS: [(u32, [u32; 3]); 4] = [
    (0, [0x10000, 1, 0]),
    (1, [0x10004, 1, 1]),
    (3, [0x10000, 8, 1]),
    (300, [0x10000, 701, 694]),
];

fn check_budget(rt: &impl Abort, alloc: Global, given: u32, left: [u32; 3]) {
    let (mut frames, space) = loaded(rt, alloc, &LOOP);
    let mut regs = registers(0x10000, 1);
    let mut budget = given;
    let stop = run_until_stop(&mut frames, &space, 1, &mut regs, &mut budget);
    let [pc, x7, stored] = left;
    let seen = (
        stop,
        budget,
        regs.pc(),
        regs.get(7),
        word_at(&frames, 0x11000),
    );
    same_at(rt, seen, (None, 0, pc, x7, Some(stored)), given);
    drop(frames);
    drop(space);
}

#[test]
fn a_budget_is_used_up(rt: HostRuntime) {
    for &(given, left) in &BUDGETS {
        check_budget(&rt, rt.alloc(), given, left);
    }
}
