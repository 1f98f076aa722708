//! The state that a group begins with.

ghost use Rattle.std.specs.Prelude.{◌≡◌, ◌≢◌, ◌+◌, ◌<◌, ◌≤◌, ℕ, Err, IfErr, IfOk, [], length};
ghost use Rattle.dos_world.specs.Lawful.{IsConfig};
ghost use Rattle.kernel_calls.specs.StateWorld.{IsSound, world_of};
ghost use Rattle.kernel_objects.specs.Pipework.{none_open};
ghost use Rattle.group_open.specs.Group.{IsOpened, IsStateOf};
ghost use Rattle.flat_machine.specs.Opening.{needed, opening};

use crate::OpenError;
use crate::group::open_images;
use crate::pages::needed;
use dos_world::Config;
use elf_image::Image;
use kernel_calls::{State, new_state};
use kernel_objects::{FutexQueue, Pipes};
use page_store::Frames;
use proc_table::Table;
use std::alloc::{AllocError, Global};

// pipes of which none is open, and a queue of nobody
fn reserve_objects(alloc: Global) -> Result<(Pipes, FutexQueue), AllocError>
    ensures pipes { IfOk result (λ x. x.0 ≡ none_open) }
    ensures futexes { IfOk result (λ x. x.1 ≡ []) }
{
    let pipes = Pipes::reserve(alloc)?;
    match FutexQueue::reserve(alloc) {
        Ok(futexes) => Ok((pipes, futexes)),
        Err(why) => {
            drop(pipes);
            Err(why)
        }
    }
}

// these images, opened in frames that they fit
fn open_all(alloc: Global, images: &[Image], frames: u32) -> Result<(Frames, Table), AllocError>
    requires few { length images.now ≤ 8 }
    requires fits { needed images.now ≤ frames }
    ensures { IfOk result (λ x. IsOpened frames x.0 x.1 images.now) }
{
    let mut store = Frames::reserve(alloc, frames)?;
    match Table::reserve(alloc, frames) {
        Ok(mut table) => {
            open_images(&mut store, &mut table, images);
            Ok((store, table))
        }
        Err(why) => {
            drop(store);
            Err(why)
        }
    }
}

// the state of these images, in frames that they fit
fn state_of(alloc: Global, images: &[Image], frames: u32) -> Result<State, AllocError>
    requires few { length images.now ≤ 8 }
    requires fits { needed images.now ≤ frames }
    ensures { IfOk result (λ state. IsStateOf frames images.now state) }
{
    let (pipes, futexes) = reserve_objects(alloc)?;
    match open_all(alloc, images, frames) {
        Ok((store, table)) => Ok(new_state(store, table, pipes, futexes)),
        Err(why) => {
            drop(pipes);
            drop(futexes);
            Err(why)
        }
    }
}

/// The state before the first round of a group of 1 to 8 images: image i, counted from 1, is
/// process i with thread i. Its world is the opening that `specs/Opening` defines.
///
/// `NoRoom` is answered exactly where the images need more frames than there are, before any memory
/// is taken.
pub fn open_state(alloc: Global, images: &[Image], config: &Config) -> Result<State, OpenError>
    requires some { 1 ≤ length images.now }
    requires few { length images.now ≤ 8 }
    requires config { IsConfig config.now }
    ensures room { IfOk result (λ _. needed images.now ≤ config.now.frames) }
    ensures opens { IfOk result
        (λ state. world_of config.now.quantum state ≡ opening images.now config.now) }
    ensures sound { IfOk result IsSound }
    ensures round { IfOk result (λ state. state.round ≡ 1) }
    ensures frames { IfOk result (λ state. length state.frames.owners ≡ config.now.frames) }
    ensures full { IfErr result (λ error. error ≢ OpenError.Memory
        → (error ≡ OpenError.NoRoom (needed images.now) config.now.frames)
        × (config.now.frames < needed images.now)) }
    ensures certain { config.now.frames < needed images.now
        → result ≡ Err (OpenError.NoRoom (needed images.now) config.now.frames) }
{
    let needed = needed(images);
    if needed > u64::from(config.frames) {
        return Err(OpenError::NoRoom {
            needed,
            frames: config.frames,
        });
    }
    Ok(state_of(alloc, images, config.frames)?)
}
