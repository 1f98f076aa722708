//! The opening of a group.

ghost use Rattle.std.specs.Prelude.{◌≡◌, ◌≢◌, ◌<◌, ◌≤◌, Err, IfErr, IfOk, false, length};
ghost use Rattle.dos_world.specs.Lawful.{IsConfig};
ghost use Rattle.flat_machine.specs.Opening.{needed, opening};
ghost use Rattle.group_rounds.specs.Kernels.{kernel_world};
ghost use Rattle.kernel_calls.specs.StateWorld.{IsSound};

use dos_world::Config;
use elf_image::Image;
use group_open::{OpenError, open_state};
use group_rounds::Kernel;
use std::alloc::Global;

/// The kernel before the first round of a group of 1 to 8 images: image i, counted from 1, is
/// process i with thread i.
///
/// `NoRoom` is answered exactly where the images need more frames than there are, before any memory
/// is taken.
pub fn open_group(alloc: Global, images: &[Image], config: Config) -> Result<Kernel, OpenError>
    requires some { 1 ≤ length images.now }
    requires few { length images.now ≤ 8 }
    requires config { IsConfig config }
    ensures opens { IfOk result (λ kernel. kernel_world kernel ≡ opening images.now config) }
    ensures config { IfOk result (λ kernel. kernel.config ≡ config) }
    ensures sound { IfOk result (λ kernel. IsSound kernel.state) }
    ensures ready { IfOk result (λ kernel. kernel.failed ≡ false) }
    ensures fresh { IfOk result (λ kernel. kernel.state.round ≡ 1) }
    ensures room { IfOk result (λ _. needed images.now ≤ config.frames) }
    ensures full { IfErr result (λ error. error ≢ OpenError.Memory
        → (error ≡ OpenError.NoRoom (needed images.now) config.frames)
        × (config.frames < needed images.now)) }
    ensures certain { config.frames < needed images.now
        → result ≡ Err (OpenError.NoRoom (needed images.now) config.frames) }
{
    let state = open_state(alloc, images, &config)?;
    Ok(Kernel::new(alloc, state, config)?)
}
