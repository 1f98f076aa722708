// The one text of a log. Its numbers are std's `to_le_bytes`: byteorder writes numbers through
// `io::Write`, whose errors don't say that memory ran out.
ghost use Rattle.std.specs.Prelude.{◌≡◌, ◌++◌, length, IfOk, OnOk};
ghost use Rattle.std.specs.Int.{w16, w32, to_le_bytes};
ghost use Rattle.std.specs.List.{concat};
ghost use Rattle.log_text.specs.LogText.{log_magic, version_number, header_text, ending_code};
ghost use Rattle.log_text.specs.LogText.{entry_text, entries_text};
ghost use Rattle.log_text.specs.LogText.{logtext};
ghost use Rattle.dos_io.specs.declared.exchange.Exchange.TheVariants.{End as end};

use crate::header::{Digests, LogHeader};
use crate::log::Log;
use crate::translation::{joined_entries, put_each};
use crate::version::LogVersion;
use dos_world::Ending;
use std::alloc::{AllocError, Global};

fn put_numbers(out: &mut Vec<u8>, header: &LogHeader) -> Result<(), AllocError>
    ensures { OnOk result (out.new.items ≡ out.old.items
        ++ (to_le_bytes w32 header.now.quantum ++ to_le_bytes w32
        header.now.rounds ++ to_le_bytes w32 header.now.frames)) }
{
    out.extend_from_slice(&header.quantum.to_le_bytes())?;
    out.extend_from_slice(&header.rounds.to_le_bytes())?;
    out.extend_from_slice(&header.frames.to_le_bytes())?;
    Ok(())
}

fn put_start(out: &mut Vec<u8>, version: LogVersion, images: u16) -> Result<(), AllocError>
    ensures { OnOk result (out.new.items ≡ out.old.items
        ++ (log_magic ++ to_le_bytes w16 (version_number version) ++ to_le_bytes w16 images)) }
{
    out.extend_from_slice(b"DPGL".as_slice())?;
    out.extend_from_slice(&version.number().to_le_bytes())?;
    out.extend_from_slice(&images.to_le_bytes())?;
    Ok(())
}

fn put_digests(out: &mut Vec<u8>, digests: &Digests) -> Result<(), AllocError>
    ensures { OnOk result (out.new.items ≡ out.old.items ++ concat digests.now) }
{
    for i in 0..digests.len() {
        let digest = digests.at(i);
        out.extend_from_slice(&digest)?;
    }
    Ok(())
}

fn put_header(out: &mut Vec<u8>, version: LogVersion, header: &LogHeader) -> Result<(), AllocError>
    ensures { OnOk result (out.new.items ≡ out.old.items ++ header_text version header.now) }
{
    let images = header.digests.len();
    put_start(out, version, images as u16)?;
    put_numbers(out, header)?;
    put_digests(out, &header.digests)?;
    Ok(())
}

fn code_of(ending: Ending) -> u8
    ensures { result ≡ ending_code ending }
{
    match ending {
        Ending::Done => 0,
        Ending::Limit => 1,
        Ending::Stalled => 2,
    }
}

fn put_end(out: &mut Vec<u8>, ending: Ending, rounds: u32) -> Result<(), AllocError>
    ensures { OnOk result (out.new.items ≡ out.old.items ++ entry_text (end ending rounds)) }
{
    out.push(0)?;
    out.push(code_of(ending))?;
    out.extend_from_slice(&rounds.to_le_bytes())?;
    Ok(())
}

// Puts the entries of a log in this version.
fn put_entries(
    alloc: Global,
    out: &mut Vec<u8>,
    log: &Log,
    version: LogVersion,
) -> Result<(), AllocError>
    ensures { OnOk result (out.new.items ≡ out.old.items ++ entries_text version log.now.entries) }
{
    if log.version() == version {
        return out.extend_from_slice(log.text());
    }
    match version {
        LogVersion::One => put_each(out, log),
        LogVersion::Two => out.extend_from_slice(joined_entries(alloc, log)?.text()),
    }
}

/// The one text of the log in this version; in its own it is copied. In the other one it may be
/// longer than a log may be. The error is want of memory.
pub fn write_log(alloc: Global, log: &Log, version: LogVersion) -> Result<Vec<u8>, AllocError>
    ensures { IfOk result (λ v. v.items ≡ logtext (record log.now { version = version })) }
{
    let mut out = Vec::new(alloc);
    put_header(&mut out, version, &log.header)?;
    put_entries(alloc, &mut out, log, version)?;
    put_end(&mut out, log.ending(), log.rounds())?;
    Ok(out)
}
