//! Logs made by a recorder over a host in memory, and replayed.
ghost use Rattle.std.specs.Prelude.{◌≡◌, IfOk};
ghost use Rattle.dos_io.specs.Shims.{HasNoEnd};
ghost use Rattle.shim_log.specs.Ledger.{recorder_state};
ghost use Rattle.log_text.specs.Ranges.{FitsHeader};
ghost use Rattle.shim_log.specs.Replay.{replayer_state};

use crate::kind::Kind;
use crate::questions::{ANSWER, ask_all};
use dos_io::{ClockRule, MemoryHost, Shim, ShimStop};
use dos_world::Ending;
use log_text::{Digests, Log, LogHeader, read_log};
use shim_log::{Recorder, Replayer};
use std::alloc::{AllocError, Global};
use std::io;
use std::io::ErrorKind;

/// The longest text of a log, in bytes.
const MOST: usize = 67_108_864;

/// The usual numbers, and one digest.
fn header(digest: [u8; 32]) -> LogHeader
    ensures { FitsHeader result }
{
    let mut digests = Digests::new();
    digests.push(digest);
    LogHeader {
        quantum: 1000,
        rounds: 100_000,
        frames: 4096,
        digests,
    }
}

/// A host that has what so many questions take.
pub fn host(alloc: Global, kind: Kind, count: u32) -> Result<MemoryHost, AllocError> {
    let (bytes, readings) = kind.takes(count);
    let input = vec![in alloc; ANSWER; bytes]?;
    let clocks = vec![in alloc; u64::from(ANSWER); readings]?;
    MemoryHost::new(alloc, &input, 4096, &clocks, &[])
}

/// A recorder that was asked nothing yet, of a run without posts.
fn recorder<'h>(
    alloc: Global,
    host: &'h mut MemoryHost,
    clock: ClockRule,
) -> Result<Recorder<'h, MemoryHost>, AllocError>
    ensures { IfOk result (λ shim. HasNoEnd (recorder_state shim.ledger).told) }
{
    Recorder::new(alloc, host, &[], clock, header([ANSWER; 32]))
}

/// The log, where the run is done after one round.
fn finished(mut shim: Recorder<'_, MemoryHost>) -> Result<Log, ShimStop>
    requires { HasNoEnd (recorder_state shim.ledger).told }
{
    shim.end(Ending::Done, 1)?;
    let (_, log) = shim.into_parts();
    Ok(log)
}

/// The log of so many questions to a recorder, and how many were answered.
pub fn record(alloc: Global, kind: Kind, count: u32) -> io::Result<(Log, u32)> {
    let mut host = host(alloc, kind, count)?;
    let mut shim = recorder(alloc, &mut host, kind.rule())?;
    let mut buf = [0; 4096];
    let answered = ask_all(&mut shim, kind.question(), &mut buf[..kind.len()], count);
    match finished(shim) {
        Ok(log) => Ok((log, answered)),
        Err(_) => Err(ErrorKind::Other.into()),
    }
}

/// The log with this text.
pub fn read(alloc: Global, text: &[u8]) -> io::Result<Log> {
    if MOST < text.len() {
        return Err(ErrorKind::InvalidData.into());
    }
    match read_log(alloc, text) {
        Ok(log) => Ok(log),
        Err(_) => Err(ErrorKind::InvalidData.into()),
    }
}

/// A replayer that was asked nothing yet.
fn replayer(log: Log) -> Replayer
    ensures { HasNoEnd (replayer_state result).told }
{
    Replayer::new(log)
}

/// How many of so many questions a replayer of the log with this text answers.
pub fn replay(alloc: Global, text: &[u8], kind: Kind, count: u32) -> io::Result<u32> {
    let mut shim = replayer(read(alloc, text)?);
    let mut buf = [0; 4096];
    Ok(ask_all(&mut shim, kind.question(), &mut buf[..kind.len()], count))
}
