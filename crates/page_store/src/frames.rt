// Frames, each with a page at home or away, an owner and a number of uses.
ghost use Rattle.std.specs.Prelude.{◌≡◌, ◌≢◌, ◌+◌, ◌-◌, ◌^◌, ◌<◌, ◌≤◌, ℕ, List, length, slice_get};
ghost use Rattle.std.specs.Prelude.{Some, None, IfOk, IfSome, IsSome, MatchBool, position};
ghost use Rattle.std.specs.Prelude.{replicate, false, OnErr, OnOk};
ghost use Rattle.std.specs.Borrow.{sem};
ghost use Rattle.dos_world.specs.World.{is_free};
ghost use Rattle.dos_world.specs.Kernel.{zero_page};
ghost use Rattle.dos_world.specs.Reach.{granted};
ghost use Rattle.page_store.specs.Store.{AreFreeFrom, AreHome, IsAway, IsCopied, IsHome, IsHomeIn};
ghost use Rattle.page_store.specs.Store.{AreMarked, AreParts, IsFirstChanged, marked_at};
ghost use Rattle.page_store.specs.Store.{store_from, with_marks, with_settled};
ghost use Rattle.page_store.specs.Store.{IsOwned, IsPageCopied, IsUnused, free_count, owner_at};
ghost use Rattle.page_store.specs.Store.{zeroed, unused_frames, uses_at, with_away, with_owned};
ghost use Rattle.page_store.specs.Store.{with_grant, with_home, with_less, with_use_more};
ghost use Rattle.page_store.specs.Lending.{LendsPage, LendsSlot};
ghost use Rattle.page_store.specs.Compared.{AreRight};
ghost use Rattle.code_pages.specs.Lines.{bytes_of_pages};

use crate::Page;
use crate::changes::{Changes, first_changed, note};
use crate::compared::{Compared, right_again};
use crate::tally::{free_frames, free_in, high_of};
use code_pages::CodePages;
use dos_world::{Access, Owner};
use hierarchical_bitmap::Bitmap;
use std::alloc::{AllocError, Global};
use std::marker::Model;

/// Frames, numbered from 0. Contracts see four lists, by frame: pages (None while away), owners,
/// uses, and the owners as they were when marked, which is empty where nothing is marked.
#[derive(Drop)]
pub struct Frames {
    pages: Vec<Option<Page>>,
    owners: Vec<Owner>,
    uses: Vec<u32>,
    free: u32,
    // which frames are Free
    free_frames: Bitmap,
    high: u32,
    // the pages of code that are known, for the thread that runs in place
    code: Option<Box<CodePages>>,
    // what was compared with them
    compared: Option<Box<Compared>>,
    // whether no page has changed since
    unchanged: bool,
    // the marked owners, in a run that is traced
    changes: Option<Changes>,
}

impl Model for Frames {
    ghost use Rattle.std.specs.Prelude.{◌≤◌, ◌≡◌, length, true, IfSome};
    ghost use Rattle.code_pages.specs.Lines.{bytes_of_pages};
    ghost use Rattle.page_store.specs.Compared.{AreRight};
    ghost use Rattle.page_store.specs.Marks.{AreNotedIn, marked_in};
    ghost use Rattle.page_store.specs.Store.{AreFreeFrom, AreTallied, Store};

    ghost Value = { Store };

    ghost view = { λ f. record {
      pages = f.pages.items;
      owners = f.owners.items;
      uses = f.uses.items;
      marked = marked_in f.changes;
    } };

    ghost invariant = { λ f.
        AreTallied (length f.pages.items) f.owners.items f.uses.items f.free f.free_frames
        × AreFreeFrom f.owners.items f.high × (f.high ≤ length f.pages.items)
        × AreNotedIn f.owners.items f.changes
        × (f.unchanged ≡ true → IfSome f.code (λ code. IfSome f.compared (λ compared.
        AreRight compared.value.slots compared.value.blocks f.pages.items
        (bytes_of_pages code.value)))) };
}

// no page of code is known
fn no_code(alloc: Global) -> Result<Box<CodePages>, AllocError> {
    Ok(Box::new(alloc, CodePages::reserve(alloc)?)?)
}

// nothing is compared
fn none_compared(alloc: Global) -> Result<Box<Compared>, AllocError> {
    Ok(Box::new(alloc, Compared::nothing())?)
}

impl Frames {
    /// `count` frames: all home, zero, Free and without uses. All their memory is taken here.
    pub fn reserve(alloc: Global, count: u32) -> Result<Frames, AllocError>
        ensures { IfOk result (λ f. f ≡ unused_frames count) }
    {
        Ok(Frames {
            pages: zero_pages(alloc, count)?,
            owners: free_owners(alloc, count)?,
            uses: no_uses(alloc, count)?,
            free: count,
            free_frames: Bitmap::full(alloc, count)?,
            high: 0,
            code: Some(no_code(alloc)?),
            compared: Some(none_compared(alloc)?),
            unchanged: false,
            changes: None,
        })
    }

    /// Frames of these pages, owners and uses, nothing marked.
    pub fn from_parts(
        alloc: Global,
        pages: Vec<Option<Page>>,
        owners: Vec<Owner>,
        uses: Vec<u32>,
    ) -> Result<Frames, AllocError>
        requires { AreParts pages.items owners.items uses.items }
        ensures { IfOk result (λ f. f ≡ store_from pages.items owners.items uses.items) }
    {
        let free = free_in(&owners);
        let free_frames = free_frames(alloc, &owners)?;
        let high = high_of(&owners);
        Ok(Frames {
            pages,
            owners,
            uses,
            free,
            free_frames,
            high,
            code: Some(no_code(alloc)?),
            compared: Some(none_compared(alloc)?),
            unchanged: false,
            changes: None,
        })
    }

    /// The pages and the owners.
    pub fn into_parts(self) -> (Vec<Option<Page>>, Vec<Owner>)
        ensures pages { result.0.items ≡ self.pages }
        ensures owners { result.1.items ≡ self.owners }
    {
        (self.pages, self.owners)
    }

    /// How many frames there are.
    pub fn count(&self) -> u32
        ensures pages { result ≡ length self.now.pages }
        ensures owners { result ≡ length self.now.owners }
        ensures uses { result ≡ length self.now.uses }
    {
        self.pages.len() as u32
    }

    /// How many frames are Free, a count that is kept.
    pub fn free_count(&self) -> u32
        ensures { result ≡ free_count self.now }
    {
        self.free
    }

    /// From which frame on all are Free: no frame from it on was ever in use.
    pub fn high(&self) -> u32
        ensures free { AreFreeFrom self.now.owners result }
        ensures within { result ≤ length self.now.pages }
    {
        self.high
    }

    /// Who the frame belongs to.
    pub fn owner(&self, frame: u32) -> Owner
        requires { frame < length self.now.owners }
        ensures { result ≡ owner_at self.now frame }
    {
        self.owners[frame as usize]
    }

    /// How many entries map the frame.
    pub fn uses(&self, frame: u32) -> u32
        requires { frame < length self.now.owners }
        ensures { result ≡ uses_at self.now frame }
    {
        self.uses[frame as usize]
    }

    /// Whether the frame's page is here.
    pub fn is_home(&self, frame: u32) -> bool
        requires { frame < length self.now.owners }
        ensures { MatchBool result (IsHome self.now frame) (IsAway self.now frame) }
    {
        match &self.pages[frame as usize] {
            Some(_) => true,
            None => false,
        }
    }

    /// Gives the page away. Nothing else changes.
    pub fn take(&mut self, frame: u32) -> Page
        requires { IsHome self.old frame }
        ensures page { slice_get self.old.pages frame ≡ Some (Some result) }
        ensures away { self.new ≡ with_away self.old frame }
    {
        self.unchanged = false;
        match self.pages[frame as usize].take() {
            Some(page) => page,
            None => unreachable!(),
        }
    }

    /// Takes a page in for a frame whose page is away. Nothing else changes.
    pub fn put_back(&mut self, frame: u32, page: Page)
        requires { IsAway self.old frame }
        ensures { self.new ≡ with_home self.old frame page }
    {
        self.unchanged = false;
        self.pages[frame as usize] = Some(page);
    }

    /// The pages by frame, None where one is away.
    pub fn pages(&self) -> &[Option<Page>]
        ensures { result.now ≡ self.now.pages }
    {
        self.pages.as_slice()
    }

    /// The frame's page.
    pub fn lend(&self, frame: u32) -> &Page
        requires { IsHome self.now frame }
        ensures { slice_get self.now.pages frame ≡ Some (Some result.now) }
    {
        match &self.pages[frame as usize] {
            Some(page) => page,
            None => unreachable!(),
        }
    }

    /// The frame's page, to be written. Afterwards the frames are as before, with this page as it
    /// was left.
    pub fn lend_mut(&mut self, frame: u32) -> &mut Page
        requires { IsHome self.old frame }
        ensures page { slice_get self.old.pages frame ≡ Some (Some result.now) }
        ensures* writes_back { sem 𝓛 (LendsPage self.entry frame result) }
    {
        self.unchanged = false;
        page_mut(&mut self.pages[frame as usize])
    }

    /// Where their memory is from.
    pub fn allocator(&self) -> Global {
        *self.pages.allocator()
    }

    /// Gives away the pages of code that are known, and what was compared with them: nothing where
    /// a page has changed since they were kept. None where they are away.
    pub fn take_known(&mut self) -> Option<(Box<CodePages>, Box<Compared>)>
        ensures same { self.new ≡ self.old }
        ensures right { IfSome result (λ known.
            AreRight known.1.value.slots known.1.value.blocks self.new.pages
            (bytes_of_pages known.0.value)) }
    {
        if self.compared.is_none() {
            return None;
        }
        let is_right = self.unchanged;
        self.unchanged = false;
        let code = self.code.take()?;
        let compared = self.compared.take()?;
        Some((code, right_again(compared, is_right)))
    }

    /// Keeps the pages of code that are known, and what was compared with them, for as long as no
    /// page changes.
    pub fn keep_known(&mut self, code: Box<CodePages>, compared: Box<Compared>)
        requires { AreRight compared.value.slots compared.value.blocks self.old.pages
            (bytes_of_pages code.value) }
        ensures { self.new ≡ self.old }
    {
        self.code = Some(code);
        self.compared = Some(compared);
        self.unchanged = true;
    }

    /// The owner becomes Shared for a fetch or load, and `tid` for a store or claim. Nothing else
    /// changes.
    pub fn grant(&mut self, frame: u32, tid: u32, access: Access)
        requires { IsOwned self.old frame }
        ensures { self.new ≡ with_grant self.old frame tid access }
    {
        let owner = granted(tid, access);
        self.owners[frame as usize] = owner;
        note(&mut self.changes, frame, owner);
    }

    /// The lowest Free frame, which becomes `tid`'s, with one use. Its page stays as it is, zero
    /// where the frame was cleared at its last use. None exactly where no frame is Free; nothing
    /// changes then.
    pub fn fresh(&mut self, tid: u32) -> Option<u32>
        ensures found { result ≡ position is_free self.old.owners }
        ensures none { result ≡ None → self.new ≡ self.old }
        ensures one { IfSome result (λ frame. self.new ≡ with_owned self.old frame tid) }
        ensures unused { IfSome result (λ frame. IsUnused self.old frame) }
    {
        match self.free_frames.lowest() {
            None => None,
            Some(frame) => {
                let place = frame as usize;
                self.owners[place] = Owner::Of(tid);
                note(&mut self.changes, frame, Owner::Of(tid));
                self.uses[place] = 1;
                self.free -= 1;
                self.free_frames.clear(frame);
                self.high = self.high.max(frame + 1);
                Some(frame)
            }
        }
    }

    /// The lowest Free frame, which becomes `tid`'s, with the bytes of the page of `from` and one
    /// use. None exactly where no frame is Free; nothing changes then.
    pub fn fresh_copy(&mut self, tid: u32, from: u32) -> Option<u32>
        requires home { AreHome self.old }
        requires owned { IsOwned self.old from }
        ensures found { result ≡ position is_free self.old.owners }
        ensures none { result ≡ None → self.new ≡ self.old }
        ensures one { IfSome result (λ frame. IsCopied self.old from frame tid self.new) }
    {
        match self.fresh(tid) {
            None => None,
            Some(frame) => {
                self.unchanged = false;
                copy_page(&mut self.pages, from as usize, frame as usize);
                Some(frame)
            }
        }
    }

    /// One use more. Nothing else changes.
    pub fn use_more(&mut self, frame: u32)
        requires owned { IsOwned self.old frame }
        requires few { uses_at self.old frame < 2 ^ 32 - 1 }
        ensures one { self.new ≡ with_use_more self.old frame }
        ensures within { frame < length self.old.uses }
    {
        self.uses[frame as usize] += 1;
    }

    /// One use less. At no use the frame is Free, and its page, where it is home, becomes zero.
    pub fn use_less(&mut self, frame: u32)
        requires { 0 < uses_at self.old frame }
        ensures { self.new ≡ with_less self.old frame }
    {
        let place = frame as usize;
        if self.uses[place] == 1 {
            self.owners[place] = Owner::Free;
            note(&mut self.changes, frame, Owner::Free);
            self.uses[place] = 0;
            self.free += 1;
            self.free_frames.set(frame);
            self.unchanged = false;
            clear_home(&mut self.pages[place]);
        } else {
            self.uses[place] -= 1;
        }
    }

    /// Marks the owners as they are. The memory for it is taken here.
    pub fn mark(&mut self, alloc: Global) -> Result<(), AllocError>
        ensures ok { OnOk result (self.new ≡ with_marks self.old) }
        ensures err { OnErr result (self.new ≡ self.old) }
    {
        let _count = self.count();
        self.changes = Some(Changes::of(alloc, &self.owners)?);
        Ok(())
    }

    /// The lowest frame whose owner isn't the one that was marked, found without looking at the
    /// others. None exactly where all are as marked.
    pub fn changed(&self) -> Option<u32>
        requires { AreMarked self.now }
        ensures none { result ≡ None → self.now.marked ≡ self.now.owners }
        ensures some { IfSome result (IsFirstChanged self.now.marked self.now.owners) }
    {
        first_changed(&self.changes)
    }

    /// Whom the frame belonged to when it was marked.
    pub fn marked_owner(&self, frame: u32) -> Owner
        requires { frame < length self.now.marked }
        ensures { result ≡ marked_at self.now frame }
    {
        match &self.changes {
            Some(changes) => changes.owners[frame as usize],
            None => unreachable!(),
        }
    }

    /// Marks the frame's owner anew. Nothing else changes.
    pub fn settle(&mut self, frame: u32)
        requires { frame < length self.old.marked }
        ensures { self.new ≡ with_settled self.old frame }
    {
        match &mut self.changes {
            Some(changes) => changes.settle(frame, self.owners[frame as usize]),
            None => unreachable!(),
        }
    }
}

// a page that is home becomes zero
fn clear_home(slot: &mut Option<Page>)
    ensures { slot.new ≡ zeroed slot.old }
{
    match slot {
        Some(page) => page.clear(),
        None => {}
    }
}

// the page at one place becomes a copy of that at another
fn copy_page(pages: &mut Vec<Option<Page>>, from: usize, to: usize)
    requires apart { from ≢ to }
    requires source { IsHomeIn pages.old.items from }
    requires target { IsHomeIn pages.old.items to }
    ensures { IsPageCopied pages.old.items from to pages.new.items }
{
    match pages[to].take() {
        Some(mut page) => {
            match &pages[from] {
                Some(source) => page.copy_from(0, source.bytes()),
                None => unreachable!(),
            }
            pages[to] = Some(page);
        }
        None => unreachable!(),
    }
}

fn zero_pages(alloc: Global, count: u32) -> Result<Vec<Option<Page>>, AllocError>
    ensures { IfOk result (λ pages. pages.items ≡ replicate count (Some zero_page)) }
{
    let mut pages = Vec::with_capacity(alloc, count as usize)?;
    for _place in 0..count {
        pages.push(Some(Page::new(alloc)?))?;
    }
    Ok(pages)
}

fn free_owners(alloc: Global, count: u32) -> Result<Vec<Owner>, AllocError>
    ensures { IfOk result (λ owners. owners.items ≡ replicate count Owner.Free) }
{
    let mut owners = Vec::with_capacity(alloc, count as usize)?;
    for _place in 0..count {
        owners.push(Owner::Free)?;
    }
    Ok(owners)
}

fn no_uses(alloc: Global, count: u32) -> Result<Vec<u32>, AllocError>
    ensures { IfOk result (λ uses. uses.items ≡ replicate count 0) }
{
    vec![in alloc; 0; count as usize]
}

fn granted(tid: u32, access: Access) -> Owner
    ensures value { result ≡ granted tid access }
    ensures used { is_free result ≡ false }
{
    match access {
        Access::Fetch | Access::Load => Owner::Shared,
        Access::Store | Access::Claim => Owner::Of(tid),
    }
}

fn page_mut(slot: &mut Option<Page>) -> &mut Page
    requires { IsSome slot.old }
    ensures value { slot.old ≡ Some result.now }
    ensures* writes_back { sem 𝓛 (LendsSlot slot.entry result) }
{
    match slot {
        Some(page) => page,
        None => unreachable!(),
    }
}
