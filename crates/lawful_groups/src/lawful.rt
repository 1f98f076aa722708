// Whether a saved group is in a lawful world.
ghost use Rattle.std.specs.Prelude.{◌≡◌, ◌↔◌, length, map, true, IfOk};
ghost use Rattle.dos_world.specs.Lawful.{Lawful};
ghost use Rattle.group_text.specs.Groups.{world_in};
ghost use Rattle.group_text.specs.GroupText.{group_row};
ghost use Rattle.group_text.specs.Records.{group_of_record};

use crate::counts::count_uses;
use crate::parts::agrees;
use dos_world::Owner;
use group_text::{FrameRecord, GroupRecord};
use std::alloc::{AllocError, Global};

// the owner of each frame
fn owners_of(alloc: Global, frames: &[FrameRecord]) -> Result<Vec<Owner>, AllocError>
    ensures { IfOk result (λ owners. owners.items ≡ map (λ f. f.owner) frames.now) }
{
    let mut owners = Vec::new(alloc);
    for i in 0..frames.len() {
        owners.push(frames[i].owner)?;
    }
    Ok(owners)
}

/// Whether a saved group, the fields of which are in their ranges, is in a lawful world. The error
/// is want of memory.
pub fn is_lawful(alloc: Global, group: &GroupRecord) -> Result<bool, AllocError>
    requires { group_row.Fits (group_of_record group.now) }
    ensures { IfOk result (λ b. (b ≡ true) ↔ Lawful (world_in (group_of_record group.now))) }
{
    let owners = owners_of(alloc, &group.frames)?;
    let uses = count_uses(alloc, owners.len() as u32, &group.processes)?;
    agrees(
        alloc,
        &owners,
        &uses,
        &group.processes,
        u32::from(group.given),
        &group.threads,
        &group.pipes,
        &group.sleepers,
    )
}
