ghost use Rattle.std.specs.Prelude.{◌≡◌, IfOk};

use crate::checks::{same, same_at};
use dos_world::Entry;
use space_map::Space;
use std::alloc::{AllocError, Global};
use std::process::Abort;

fn entry(frame: u32) -> Entry {
    Entry {
        frame,
        write: true,
        exec: false,
        shared: false,
    }
}

// Maps a page, where it isn't mapped and a space with room for 3 isn't full; whether it did.
fn put(space: &mut Space, page: u32, frame: u32) -> bool
    requires { space.old.room ≡ 3 }
    ensures { space.new.room ≡ 3 }
{
    if space.look(page).is_some() {
        return false;
    }
    if space.len() >= 3 {
        return false;
    }
    space.put(page, entry(frame));
    true
}

// a space with room for 3 pages
fn three_pages(alloc: Global) -> Result<Space, AllocError>
    ensures { IfOk result (λ space. space.room ≡ 3) }
{
    Space::reserve(alloc, 3)
}

fn check_put(rt: &impl Abort, space: &mut Space, page: u32, frame: u32)
    requires { space.old.room ≡ 3 }
    ensures { space.new.room ≡ 3 }
{
    same_at(rt, put(space, page, frame), true, "page", page);
}

fn check_looks(rt: &impl Abort, space: &Space, rows: &[(u32, Option<Entry>)]) {
    for &(page, want) in rows {
        same_at(rt, space.look(page), want, "page", page);
    }
}

// The page at a place, and its frame.
fn page_at(space: &Space, place: u32) -> Option<(u32, u32)> {
    if place >= space.len() {
        return None;
    }
    let (page, entry) = space.at(place);
    Some((page, entry.frame))
}

// The frame of a page that was mapped, and is not any more.
fn removed(space: &mut Space, page: u32) -> Option<u32> {
    if space.look(page).is_none() {
        return None;
    }
    Some(space.remove(page).frame)
}

// Marks a page as shared, where it is mapped.
fn share(space: &mut Space, page: u32) {
    if space.look(page).is_some() {
        space.mark_shared(page);
    }
}

fn check_removed(rt: &impl Abort, space: &mut Space, page: u32, wanted: Option<u32>) {
    same_at(rt, removed(space, page), wanted, "page", page);
}

// The pages at these places, and their frames.
fn check_places(rt: &impl Abort, space: &Space, rows: &[(u32, Option<(u32, u32)>)]) {
    for &(place, want) in rows {
        same_at(rt, page_at(space, place), want, "place", place);
    }
}

fn check_count(rt: &impl Abort, space: &Space, wanted: u32) {
    same(rt, space.len(), wanted);
}

#[test]
fn pages_stand_in_rising_order(rt: HostRuntime) {
    let mut space = three_pages(rt.alloc()).expect(&rt, "memory");
    check_put(&rt, &mut space, 0x10, 7);
    check_put(&rt, &mut space, 0xf_ffff, 8);
    check_put(&rt, &mut space, 0x1, 9);
    let rows = [
        (0, Some((0x1, 9))),
        (1, Some((0x10, 7))),
        (2, Some((0xf_ffff, 8))),
        (3, None),
    ];
    check_places(&rt, &space, &rows);
    check_looks(&rt, &space, &[(0x11, None), (0, None)]);
    drop(space);
}

#[test]
fn a_page_is_shared_and_goes(rt: HostRuntime) {
    let mut space = three_pages(rt.alloc()).expect(&rt, "memory");
    check_put(&rt, &mut space, 4, 1);
    check_put(&rt, &mut space, 5, 2);
    share(&mut space, 4);
    let shared = Entry {
        shared: true,
        ..entry(1)
    };
    let rows = [(4, Some(shared)), (5, Some(entry(2)))];
    check_looks(&rt, &space, &rows);
    check_removed(&rt, &mut space, 4, Some(1));
    check_removed(&rt, &mut space, 4, None);
    check_looks(&rt, &space, &[(5, Some(entry(2)))]);
    space.clear();
    check_count(&rt, &space, 0);
    drop(space);
}
