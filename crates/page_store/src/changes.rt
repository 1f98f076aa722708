// The owners as they were when marked, and which are others now.
ghost use Rattle.std.specs.Prelude.{◌≡◌, ◌^◌, ◌<◌, List, length, slice_set, slice_index_or};
ghost use Rattle.std.specs.Prelude.{IfOk, IfSome, None, Some};
ghost use Rattle.dos_world.specs.declared.Owner.{Owner};
ghost use Rattle.dos_world.specs.declared.Owner.TheVariants.{Free};
ghost use Rattle.page_store.specs.Marks.{AreNoted, AreNotedIn, marked_in};
ghost use Rattle.page_store.specs.Store.{IsFirstChanged};

use dos_world::Owner;
use hierarchical_bitmap::Bitmap;
use std::alloc::{AllocError, Global};

/// The owners as they were when marked, by frame, and a bit for each frame whose owner isn't that
/// one now.
#[derive(Drop)]
pub struct Changes {
    pub owners: Vec<Owner>,
    pub noted: Bitmap,
}

impl Changes {
    /// These owners, marked.
    pub fn of(alloc: Global, owners: &[Owner]) -> Result<Changes, AllocError>
        requires { length owners.now < 2 ^ 32 }
        ensures marked { IfOk result (λ changes. changes.owners.items ≡ owners.now) }
        ensures noted { IfOk result (λ changes. AreNoted owners.now owners.now changes.noted) }
    {
        Ok(Changes {
            owners: Vec::from_slice(alloc, owners)?,
            noted: Bitmap::empty(alloc, owners.len() as u32)?,
        })
    }

    /// Notes what is a frame's owner now.
    pub fn note(&mut self, frame: u32, owner: Owner)
        requires marked { frame < length self.old.owners.items }
        requires noted { frame < length self.old.noted }
        ensures marked { self.new.owners ≡ self.old.owners }
        ensures noted { (owners : List Owner)
            → AreNoted owners self.old.owners.items self.old.noted
            → AreNoted (slice_set owners frame owner) self.new.owners.items self.new.noted }
    {
        if self.owners[frame as usize] == owner {
            self.noted.clear(frame);
        } else {
            self.noted.set(frame);
        }
    }

    /// Marks a frame's owner, which is this one now.
    pub fn settle(&mut self, frame: u32, owner: Owner)
        requires marked { frame < length self.old.owners.items }
        requires noted { frame < length self.old.noted }
        ensures marked { self.new.owners.items ≡ slice_set self.old.owners.items frame owner }
        ensures noted { (owners : List Owner) → slice_index_or owners frame Free ≡ owner
            → AreNoted owners self.old.owners.items self.old.noted
            → AreNoted owners self.new.owners.items self.new.noted }
    {
        self.owners[frame as usize] = owner;
        self.noted.clear(frame);
    }
}

/// Notes what is a frame's owner now, where owners are marked.
pub fn note(changes: &mut Option<Changes>, frame: u32, owner: Owner)
    requires marked { IfSome changes.old (λ c. frame < length c.owners.items) }
    requires noted { IfSome changes.old (λ c. frame < length c.noted) }
    ensures marked { marked_in changes.new ≡ marked_in changes.old }
    ensures noted { (owners : List Owner) → AreNotedIn owners changes.old
        → AreNotedIn (slice_set owners frame owner) changes.new }
{
    match changes {
        None => {}
        Some(changes) => changes.note(frame, owner),
    }
}

/// The lowest frame whose owner isn't the one that was marked.
pub fn first_changed(changes: &Option<Changes>) -> Option<u32>
    ensures none { (owners : List Owner) → AreNotedIn owners changes.now
        → length (marked_in changes.now) ≡ length owners → result ≡ None
        → marked_in changes.now ≡ owners }
    ensures some { (owners : List Owner) → AreNotedIn owners changes.now
        → IfSome result (λ frame. IsFirstChanged (marked_in changes.now) owners frame) }
{
    match changes {
        None => None,
        Some(changes) => changes.noted.lowest(),
    }
}
