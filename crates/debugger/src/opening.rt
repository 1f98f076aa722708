// A session at the start of a recorded run.
ghost use Rattle.std.specs.Prelude.{◌≡◌, ◌≤◌, IfErr, IfOk, length};
ghost use Rattle.dos_world.specs.Lawful.{IsConfig};
ghost use Rattle.dos_world.specs.declared.Scheme.TheVariants.{Ownership};
ghost use Rattle.flat_machine.specs.Opening.{needed};
ghost use Rattle.debug_session.specs.Positions.{Position};
ghost use Rattle.debug_session.specs.Sessions.{opening_session};
ghost use Rattle.debug_connection.specs.Keeping.{texts_of};
ghost use Rattle.logged_runs.specs.Replaying.{config_of};
ghost use Rattle.recorded_walk.specs.Following.{log_entries};
ghost use Rattle.recorded_walk.specs.Playbacks.{IsRefused, IsStart};
ghost use Rattle.debugger.specs.Debugging.{recording_of};
ghost use Rattle.debugger.specs.Standing.{IsSessionOf};

use crate::session::Session;
use debug_client::{Births, Client};
use debug_hits::Watched;
use dos_world::Config;
use elf_image::Image;
use group_open::OpenError;
use log_text::Log;
use recorded_walk::Playback;
use recorded_walk::laws::histories_start;
use std::alloc::Global;

/// A session at the start of the run of these images by this log.
pub(crate) fn open_session(
    alloc: Global,
    images: Vec<Image>,
    config: Config,
    log: Log,
    names: Vec<Vec<u8>>,
    files: Vec<Vec<u8>>,
) -> Result<Session, OpenError>
    requires some { 1 ≤ length images.items }
    requires few { length images.items ≤ 8 }
    requires range { IsConfig config }
    requires given { config ≡ config_of Ownership log.header }
    requires names { length names.items ≡ length images.items }
    ensures shows { IfOk result (λ session. (start : Position)
        → IsStart images.items config (log_entries log) start
        → IsSessionOf session
        (opening_session (recording_of (texts_of names.items) (texts_of files.items) log) start)) }
    ensures room { IfOk result (λ _. needed images.items ≤ config.frames) }
    ensures refused { IfErr result (IsRefused images.items config) }
{
    histories_start();
    let count = images.len() as u32;
    let playback = match Playback::open(alloc, images, config, log) {
        Ok(playback) => playback,
        Err(error) => {
            drop(names);
            drop(files);
            return Err(error);
        }
    };
    let Ok(client) = Client::new(alloc, count) else {
        return Err(OpenError::Memory);
    };
    let mut births = Births::new(alloc, count);
    let Ok(()) = births.note(playback.state()) else {
        return Err(OpenError::Memory);
    };
    Ok(Session {
        alloc,
        playback,
        births,
        furthest: 0,
        client,
        watched: Watched::new(alloc),
        names,
        files,
        failed: false,
    })
}
