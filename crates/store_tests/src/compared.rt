// What was compared with pages of code, which frames keep for as long as no page changes.
ghost use Rattle.std.specs.Prelude.{ℕ, List, Option, IfOk};
ghost use Rattle.page_store.specs.Compared.{AreRight};

use crate::checks::same_at;
use crate::pages::{check_away, two_frames};
use dos_world::Size;
use page_store::{Compared, Frames, Slot};
use std::alloc::{AllocError, Global};
use std::process::Abort;

// The page at 0x1000 was found in frame 0, and no block of it is compared.
fn found(alloc: Global) -> Result<Box<Compared>, AllocError>
    ensures { IfOk result (λ compared. (pages known : List (Option (List ℕ)))
        → AreRight compared.value.slots compared.value.blocks pages known) }
{
    let mut compared = Compared::nothing();
    let page = Slot {
        start: 0x1000,
        frame: 0,
    };
    let _ = compared.find(1, page);
    Ok(Box::new(alloc, compared)?)
}

// Keeps this beside the pages of code, where they are here.
fn keep(frames: &mut Frames, compared: Box<Compared>)
    requires { (pages known : List (Option (List ℕ)))
        → AreRight compared.value.slots compared.value.blocks pages known }
{
    match frames.take_known() {
        Some((code, _)) => frames.keep_known(code, compared),
        None => {}
    }
}

fn keep_found(rt: &impl Abort, alloc: Global, frames: &mut Frames) {
    let compared = found(alloc).expect(rt, "memory");
    keep(frames, compared);
}

// Which page is found in the second slot, by its first address; it stays kept. None where the
// pages of code are away.
fn kept(frames: &mut Frames) -> Option<u32> {
    match frames.take_known() {
        Some((code, compared)) => {
            let start = compared.slots[1].start;
            frames.keep_known(code, compared);
            Some(start)
        }
        None => None,
    }
}

fn check_kept(rt: &impl Abort, frames: &mut Frames, when: &str, wanted: u32) {
    same_at(rt, kept(frames), Some(wanted), "when", when);
}

// Writes the first byte of frame 1, where it is home.
fn write_first(frames: &mut Frames) {
    if frames.count() < 2 || !frames.is_home(1) {
        return;
    }
    frames.lend_mut(1).write(0, Size::Byte, 9);
}

// A use of frame 0 less, where it has one.
fn give_back(frames: &mut Frames) {
    if frames.count() == 0 || frames.uses(0) == 0 {
        return;
    }
    frames.use_less(0);
}

#[test]
fn what_was_compared_is_kept_until_a_page_changes(rt: HostRuntime) {
    let mut frames = two_frames(rt.alloc()).expect(&rt, "memory");
    check_kept(&rt, &mut frames, "at first", 0xffff_ffff);
    keep_found(&rt, rt.alloc(), &mut frames);
    check_kept(&rt, &mut frames, "once", 0x1000);
    check_kept(&rt, &mut frames, "twice", 0x1000);
    write_first(&mut frames);
    check_kept(&rt, &mut frames, "written", 0xffff_ffff);
    keep_found(&rt, rt.alloc(), &mut frames);
    check_away(&rt, &mut frames);
    check_kept(&rt, &mut frames, "taken and put back", 0xffff_ffff);
    keep_found(&rt, rt.alloc(), &mut frames);
    let _ = frames.fresh(7);
    check_kept(&rt, &mut frames, "given to a thread", 0x1000);
    give_back(&mut frames);
    check_kept(&rt, &mut frames, "freed", 0xffff_ffff);
    drop(frames);
}
