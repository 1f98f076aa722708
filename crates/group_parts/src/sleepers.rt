// Sleepers: the queue's as plain data, and a queue of these.
ghost use Rattle.std.specs.Prelude.{◌≡◌, ◌<◌, ◌≤◌, All, IfOk, OnOk, length, map};
ghost use Rattle.group_text.specs.Records.{sleeper_of_record};

use group_text::SleeperRecord;
use kernel_objects::FutexQueue;
use std::alloc::{AllocError, Global};

/// Who sleeps, in order.
pub fn record_sleepers(
    alloc: Global,
    futexes: &FutexQueue,
) -> Result<Vec<SleeperRecord>, AllocError>
    requires { All (λ s. s.offset < 4096) futexes.now }
    ensures sleepers { IfOk result (λ v. map sleeper_of_record v.items ≡ futexes.now) }
    ensures few { OnOk result (length futexes.now ≤ 64) }
{
    let mut sleepers = Vec::with_capacity(alloc, 64)?;
    for place in 0..futexes.len() {
        let (tid, frame, offset) = futexes.at(place);
        sleepers.push(SleeperRecord {
            tid,
            frame,
            offset: offset as u16,
        })?;
    }
    Ok(sleepers)
}

/// A queue of these, in order.
pub fn restore_sleepers(alloc: Global, sleepers: &[SleeperRecord]) -> Result<FutexQueue, AllocError>
    requires { length sleepers.now ≤ 64 }
    ensures { IfOk result (λ q. q ≡ map sleeper_of_record sleepers.now) }
{
    let mut futexes = FutexQueue::reserve(alloc)?;
    for i in 0..sleepers.len() {
        let sleeper = sleepers[i];
        futexes.add(sleeper.tid, sleeper.frame, u32::from(sleeper.offset));
    }
    Ok(futexes)
}
