// What the frames keep beside their lists, computed from the owners.
ghost use Rattle.std.specs.Prelude.{◌≡◌, ◌^◌, ◌<◌, ◌≤◌, length, map, count_by, IfOk};
ghost use Rattle.dos_world.specs.World.{is_free};
ghost use Rattle.page_store.specs.Store.{AreFreeFrom};

use dos_world::Owner;
use hierarchical_bitmap::Bitmap;
use std::alloc::{AllocError, Global};

fn is_free(owner: Owner) -> bool
    ensures { result ≡ is_free owner }
{
    match owner {
        Owner::Free => true,
        Owner::Shared | Owner::Of(_) => false,
    }
}

/// How many are Free.
pub fn free_in(owners: &[Owner]) -> u32
    requires { length owners.now < 2 ^ 32 }
    ensures { result ≡ count_by is_free owners.now }
{
    owners.iter().filter(|owner| is_free(**owner)).count() as u32
}

/// Which are Free.
pub fn free_frames(alloc: Global, owners: &[Owner]) -> Result<Bitmap, AllocError>
    requires { length owners.now < 2 ^ 32 }
    ensures { IfOk result (λ frames. frames ≡ map is_free owners.now) }
{
    let mut frames = Bitmap::empty(alloc, owners.len() as u32)?;
    for frame in 0..owners.len() {
        if is_free(owners[frame]) {
            frames.set(frame as u32);
        }
    }
    Ok(frames)
}

/// From which one on all are Free.
pub fn high_of(owners: &[Owner]) -> u32
    requires { length owners.now < 2 ^ 32 }
    ensures free { AreFreeFrom owners.now result }
    ensures within { result ≤ length owners.now }
{
    let mut high = owners.len();
    'frames: while high > 0 {
        if !is_free(owners[high - 1]) {
            return high as u32;
        }
        high -= 1;
    }
    0
}
