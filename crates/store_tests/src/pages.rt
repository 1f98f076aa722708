ghost use Rattle.std.specs.Prelude.{◌+◌, ◌≤◌, length, IfOk};
ghost use Rattle.dos_world.specs.Reach.{width};
ghost use Rattle.page_store.specs.Store.{AreHome};

use crate::checks::{same, same_at};
use crate::copies::check_words;
use dos_world::{Owner, Size};
use page_store::{Frames, Page};
use std::alloc::{AllocError, Global};
use std::process::Abort;

// Of what the helpers do to a page nothing is said: the tests look.

fn blank(alloc: Global) -> Result<Page, AllocError> {
    Page::new(alloc)
}

fn write(page: &mut Page, offset: u32, size: Size, value: u32)
    requires { offset + width size ≤ 4096 }
{
    page.write(offset, size, value);
}

fn copy(page: &mut Page, offset: u32, bytes: &[u8])
    requires { offset + length bytes.now ≤ 4096 }
{
    page.copy_from(offset, bytes);
}

fn clear(page: &mut Page) {
    page.clear();
}

fn check_read(rt: &impl Abort, page: &Page, offset: u32, size: Size, wanted: u32)
    requires { offset + width size ≤ 4096 }
{
    same_at(rt, page.read(offset, size), wanted, "offset", offset);
}

fn check_last(rt: &impl Abort, page: &Page, wanted: &[u8]) {
    assert_eq!(rt; &page.bytes()[4091..], wanted);
}

#[test]
fn numbers_are_little_endian_up_to_the_last_byte(rt: HostRuntime) {
    let mut page = blank(rt.alloc()).expect(&rt, "memory");
    write(&mut page, 4092, Size::Word, 0x1122_3344);
    check_last(&rt, &page, &[0, 0x44, 0x33, 0x22, 0x11]);
    check_read(&rt, &page, 4092, Size::Word, 0x1122_3344);
    check_read(&rt, &page, 4094, Size::Half, 0x1122);
    check_read(&rt, &page, 4095, Size::Byte, 0x11);
    write(&mut page, 4094, Size::Half, 0xaaaa_5566);
    check_last(&rt, &page, &[0, 0x44, 0x33, 0x66, 0x55]);
    write(&mut page, 4095, Size::Byte, 0xaaaa_aa77);
    check_read(&rt, &page, 4092, Size::Word, 0x7766_3344);
    copy(&mut page, 1, b"dos");
    check_read(&rt, &page, 0, Size::Word, 0x736f_6400);
    clear(&mut page);
    check_read(&rt, &page, 4092, Size::Word, 0);
    drop(page);
}

fn one_frame(alloc: Global) -> Result<Frames, AllocError>
    ensures { IfOk result (λ frames. AreHome frames) }
{
    Frames::reserve(alloc, 1)
}

fn check_fresh(rt: &impl Abort, frames: &mut Frames, tid: u32, wanted: Option<u32>)
    requires { AreHome frames.old }
    ensures { AreHome frames.new }
{
    same_at(rt, frames.fresh(tid), wanted, "thread", tid);
}

// Writes the last word of frame 0's page, where it is home.
fn write_last(frames: &mut Frames, value: u32)
    requires { AreHome frames.old }
    ensures { AreHome frames.new }
{
    if frames.count() == 0 || !frames.is_home(0) {
        return;
    }
    frames.lend_mut(0).write(4092, Size::Word, value);
}

// One use of frame 0 less, where it has one.
fn use_less(frames: &mut Frames)
    requires { AreHome frames.old }
    ensures { AreHome frames.new }
{
    if frames.count() == 0 || frames.uses(0) == 0 {
        return;
    }
    frames.use_less(0);
}

// Frame 0's owner, how many frames are Free, and the last word of the frame's page. None where
// that is away.
fn last(frames: &Frames) -> Option<(Owner, u32, u32)> {
    if frames.count() == 0 || !frames.is_home(0) {
        return None;
    }
    let word = frames.lend(0).read(4092, Size::Word);
    Some((frames.owner(0), frames.free_count(), word))
}

fn check_frame(rt: &impl Abort, frames: &Frames, wanted: (Owner, u32, u32)) {
    same(rt, last(frames), Some(wanted));
}

#[test]
fn a_freed_frame_is_zero(rt: HostRuntime) {
    let mut frames = one_frame(rt.alloc()).expect(&rt, "memory");
    check_fresh(&rt, &mut frames, 7, Some(0));
    check_frame(&rt, &frames, (Owner::Of(7), 0, 0));
    write_last(&mut frames, 5);
    check_frame(&rt, &frames, (Owner::Of(7), 0, 5));
    check_fresh(&rt, &mut frames, 8, None);
    use_less(&mut frames);
    check_frame(&rt, &frames, (Owner::Free, 1, 0));
    check_fresh(&rt, &mut frames, 8, Some(0));
    check_frame(&rt, &frames, (Owner::Of(8), 0, 0));
    drop(frames);
}

pub(crate) fn two_frames(alloc: Global) -> Result<Frames, AllocError> {
    Frames::reserve(alloc, 2)
}

// Gives frame 1's page away, and takes it back with a 9 as its first byte. Whether it was home
// meanwhile; None where it was away before.
fn written_away(frames: &mut Frames) -> Option<bool> {
    if frames.count() < 2 || !frames.is_home(1) {
        return None;
    }
    let mut page = frames.take(1);
    let is_home = frames.is_home(1);
    page.write(0, Size::Byte, 9);
    frames.put_back(1, page);
    Some(is_home)
}

pub(crate) fn check_away(rt: &impl Abort, frames: &mut Frames) {
    same(rt, written_away(frames), Some(false));
}

#[test]
fn a_page_goes_and_comes_back(rt: HostRuntime) {
    let mut frames = two_frames(rt.alloc()).expect(&rt, "memory");
    check_words(&rt, &frames, &[(1, 0, 0)]);
    check_away(&rt, &mut frames);
    check_words(&rt, &frames, &[(1, 0, 9), (0, 0, 0)]);
    drop(frames);
}
