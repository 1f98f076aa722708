// Frames as plain data, and frames of these. Pages are moved, and never copied.
ghost use Rattle.std.specs.Prelude.{◌≡◌, ◌≤◌, ◌<◌, ◌^◌, ◌≢◌, All, IfOk, IsSome, Some, None};
ghost use Rattle.std.specs.Prelude.{length, map, slice_index_or, slice_set};
ghost use Rattle.group_text.specs.Records.{frame_of_record};
ghost use Rattle.page_store.specs.Store.{AreParts, store_from};
ghost use Rattle.group_parts.specs.FrameLists.{framed, kept_page, page_of_record};

use dos_world::Owner;
use group_text::FrameRecord;
use page_store::{Frames, Page};
use std::alloc::{AllocError, Global};

fn take_page(pages: &mut Vec<Option<Page>>, frame: usize) -> Page
    requires within { frame < length pages.old.items }
    requires home { slice_index_or pages.old.items frame None ≢ None }
    ensures page { slice_index_or pages.old.items frame None ≡ Some result }
    ensures others { pages.new.items ≡ slice_set pages.old.items frame None }
{
    match pages[frame].take() {
        Some(page) => page,
        None => unreachable!(),
    }
}

fn record_pages(
    alloc: Global,
    mut pages: Vec<Option<Page>>,
    owners: &[Owner],
) -> Result<Vec<FrameRecord>, AllocError>
    requires home { All IsSome pages.items }
    requires each { length owners.now ≡ length pages.items }
    ensures { IfOk result (λ v. map frame_of_record v.items ≡ framed pages.items owners.now) }
{
    let mut records = Vec::with_capacity(alloc, owners.len())?;
    for frame in 0..owners.len() {
        let page = take_page(&mut pages, frame);
        records.push(FrameRecord {
            owner: owners[frame],
            page,
        })?;
    }
    Ok(records)
}

/// Each frame, with its page.
pub fn record_frames(alloc: Global, frames: Frames) -> Result<Vec<FrameRecord>, AllocError>
    requires home { All IsSome frames.pages }
    requires each { length frames.owners ≡ length frames.pages }
    ensures { IfOk result (λ v. map frame_of_record v.items ≡ framed frames.pages frames.owners) }
{
    let (pages, owners) = frames.into_parts();
    record_pages(alloc, pages, &owners)
}

// the page of a frame, cleared where it is Free
fn kept_page(frame: FrameRecord) -> Page
    ensures { result ≡ kept_page frame }
{
    let mut page = frame.page;
    match frame.owner {
        Owner::Free => {
            page.clear();
            page
        }
        Owner::Shared => page,
        Owner::Of(_) => page,
    }
}

fn owners_of(alloc: Global, frames: &[FrameRecord]) -> Result<Vec<Owner>, AllocError>
    ensures { IfOk result (λ owners. owners.items ≡ map (λ f. f.owner) frames.now) }
{
    let mut owners = Vec::with_capacity(alloc, frames.len())?;
    for i in 0..frames.len() {
        owners.push(frames[i].owner)?;
    }
    Ok(owners)
}

fn pages_of(alloc: Global, frames: Vec<FrameRecord>) -> Result<Vec<Option<Page>>, AllocError>
    ensures { IfOk result (λ pages. pages.items ≡ map page_of_record frames.items) }
{
    frames
        .into_iter()
        .map(|frame| Some(kept_page(frame)))
        .collect(alloc)
}

/// These frames with so many uses each, where a frame is Free exactly where it has none.
pub fn restore_frames(
    alloc: Global,
    frames: Vec<FrameRecord>,
    uses: Vec<u32>,
) -> Result<Frames, AllocError>
    requires { AreParts (map page_of_record frames.items) (map (λ f. f.owner) frames.items)
        uses.items }
    ensures { IfOk result (λ f. f
        ≡ store_from (map page_of_record frames.items) (map (λ f. f.owner) frames.items)
        uses.items) }
{
    let owners = owners_of(alloc, &frames)?;
    let pages = pages_of(alloc, frames)?;
    Frames::from_parts(alloc, pages, owners, uses)
}
