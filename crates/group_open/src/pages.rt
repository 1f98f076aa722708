//! The pages of an image: which there are, and what is in them.

ghost use Rattle.std.specs.Prelude.{◌≡◌, ◌≢◌, ◌+◌, ◌-◌, ◌*◌, ◌/◌, ◌<◌, ◌≤◌, ◌&&◌, ◌||◌, ℕ, All};
ghost use Rattle.std.specs.Prelude.{IfSome, find, length, nat_le, slice_index};
ghost use Rattle.dos_world.specs.Kernel.{zero_page};
ghost use Rattle.dos_world.specs.Lawful.{IsByte};
ghost use Rattle.elf_image.specs.Image.{IsPlaced, IsSoundImage, size_of};
ghost use Rattle.page_store.specs.Store.{whole};
ghost use Rattle.flat_machine.specs.Opening.{needed, page_bytes, page_count, pages_touched};
ghost use Rattle.flat_machine.specs.Opening.{part_entry, part_pages, touches};
ghost use Rattle.group_open.specs.Laws.{HasBytes, IsAccepted};
ghost use Rattle.group_open.specs.Pages.{laid_over, least_from, lower_of};

use dos_world::Entry;
use elf_image::{Image, Part};
use page_store::Page;

/// How many bytes a page has.
pub const PAGE: u32 = 4096;

/// How many pages the stack has.
pub const STACK_PAGES: u32 = 16;

fn size_of(part: &Part) -> u32
    requires { IsPlaced part.now }
    ensures { result ≡ size_of part.now }
{
    part.bytes.len() as u32 + part.zeros
}

// What a part has of its file are bytes by their type; here it is said to contracts. Nothing runs.
fn are_bytes(bytes: &[u8])
    ensures { All IsByte bytes.now }
{}

fn has_bytes(part: &Part)
    ensures { HasBytes part.now }
{
    are_bytes(part.bytes.as_slice());
}

fn have_bytes(parts: &[Part])
    ensures { All HasBytes parts.now }
{
    for part in parts {
        has_bytes(part);
    }
}

fn first_page(part: &Part) -> u32
    ensures { result ≡ part.now.address / 4096 }
{
    part.address / PAGE
}

fn last_page(part: &Part) -> u32
    requires { IsPlaced part.now }
    ensures { result ≡ (part.now.address + size_of part.now - 1) / 4096 }
{
    (part.address + size_of(part) - 1) / PAGE
}

fn touches(part: &Part, page: u32) -> bool
    requires { IsPlaced part.now }
    ensures { result ≡ touches page part.now }
{
    first_page(part) <= page && page <= last_page(part)
}

// the least page of the part that isn't below `from`
fn touched_from(part: &Part, from: u32) -> Option<u32>
    requires { IsPlaced part.now }
    ensures { result ≡ least_from from (pages_touched part.now) }
{
    let page = first_page(part).max(from);
    if page <= last_page(part) {
        Some(page)
    } else {
        None
    }
}

fn lower_of(first: Option<u32>, second: Option<u32>) -> Option<u32>
    ensures { result ≡ lower_of first second }
{
    match (first, second) {
        (Some(a), Some(b)) => Some(a.min(b)),
        (Some(a), None) => Some(a),
        (None, second) => second,
    }
}

/// The least page from `from` on that a part of the image touches.
pub fn next_page(image: &Image, from: u32) -> Option<u32>
    ensures page { result ≡ find (nat_le from) (part_pages image.now) }
    ensures within { IfSome result (λ page. (from ≤ page) × (page < 0xEFFF0)) }
    ensures sound { IsSoundImage image.now }
{
    let mut next = None;
    for part in image.parts() {
        next = lower_of(next, touched_from(part, from));
    }
    next
}

/// How many pages the image needs, with the stack's.
pub fn page_count(image: &Image) -> u32
    ensures count { result ≡ page_count image.now }
    ensures accepted { IsAccepted image.now }
{
    have_bytes(image.parts());
    let mut count = STACK_PAGES;
    let mut from = 0;
    while let Some(page) = next_page(image, from) {
        count += 1;
        from = page + 1;
    }
    count
}

/// How many frames the images need.
pub fn needed(images: &[Image]) -> u64
    requires { length images.now ≤ 8 }
    ensures count { result ≡ needed images.now }
    ensures accepted { All IsAccepted images.now }
{
    let mut total = 0;
    for image in images {
        total += u64::from(page_count(image));
    }
    total
}

// what may be done with a page
#[derive(Clone, Copy, Drop)]
struct Rights {
    write: bool,
    exec: bool,
}

// the rights, and the part's where it touches the page
fn joined(rights: Rights, part: &Part, page: u32) -> Rights
    requires { IsPlaced part.now }
    ensures write { result.write ≡ (rights.write || (touches page part.now && part.now.write)) }
    ensures exec { result.exec ≡ (rights.exec || (touches page part.now && part.now.exec)) }
{
    if !touches(part, page) {
        return rights;
    }
    Rights {
        write: rights.write || part.write,
        exec: rights.exec || part.exec,
    }
}

/// The entry of a page in a frame: it has the rights of all the parts that touch it.
pub fn entry_of(image: &Image, page: u32, frame: u32) -> Entry
    ensures { part_entry image.now frame page ≡ (page, result) }
{
    let mut rights = Rights {
        write: false,
        exec: false,
    };
    for part in image.parts() {
        rights = joined(rights, part, page);
    }
    Entry {
        frame,
        write: rights.write,
        exec: rights.exec,
        shared: false,
    }
}

// lays the part's bytes in the file over the page
fn fill_part(part: &Part, page: u32, target: &mut Page)
    requires placed { IsPlaced part.now }
    requires page { page < 0xF0000 }
    ensures { (k : ℕ) → k < 4096
        → slice_index (whole target.new) k ≡ laid_over part.now (4096 * page + k)
        (slice_index (whole target.old) k) }
{
    let base = PAGE * page;
    let start = part.address.max(base);
    let end = (part.address + part.bytes.len() as u32).min(base + PAGE);
    if start < end {
        let from = (start - part.address) as usize;
        let to = (end - part.address) as usize;
        target.copy_from(start - base, &part.bytes.as_slice()[from..to]);
    }
}

/// Fills a page of zeros with the image's bytes.
pub fn fill_page(image: &Image, page: u32, target: &mut Page)
    requires zero { whole target.old ≡ zero_page }
    requires page { page < 0xF0000 }
    ensures { whole target.new ≡ page_bytes image.now page }
{
    for part in image.parts() {
        fill_part(part, page, target);
    }
}
