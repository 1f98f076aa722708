// A saved group, from its first byte to its last.
ghost use Rattle.std.specs.Prelude.{◌≡◌, ◌<◌, ◌^◌, ◌++◌, ℕ, length, All, IfOk, OnOk};
ghost use Rattle.std.specs.Int.{w16, to_le_bytes};
ghost use Rattle.group_text.specs.GroupText.{config_row, group_magic, group_row, group_version};
ghost use Rattle.group_text.specs.GroupText.{grouptext, header_in, header_row};
ghost use Rattle.group_text.specs.Records.{group_of_record};

use crate::fields::{put_u16, put_u32};
use crate::parts::{put_frames, put_pipes, put_sleepers};
use crate::processes::put_processes;
use crate::room::room_for;
use crate::threads::put_threads;
use dos_world::Config;
use group_text::GroupRecord;
use std::alloc::{AllocError, Global};

// the magic and the version
fn put_start(out: &mut Vec<u8>) -> Result<(), AllocError>
    ensures { OnOk result (out.new.items
        ≡ out.old.items ++ (group_magic ++ to_le_bytes w16 group_version)) }
{
    out.extend_from_slice(b"DPGS".as_slice())?;
    put_u16(out, 1)
}

// the quantum, the limit of rounds and the frames
fn put_config(out: &mut Vec<u8>, config: Config) -> Result<(), AllocError>
    ensures { OnOk result (out.new.items ≡ out.old.items ++ config_row.text config) }
{
    put_u32(out, config.quantum)?;
    put_u32(out, config.rounds)?;
    put_u32(out, config.frames)
}

// what stands in front of the parts
fn put_header(out: &mut Vec<u8>, group: &GroupRecord) -> Result<(), AllocError>
    requires { length group.now.processes.items < 2 ^ 32 }
    ensures { OnOk result (out.new.items
        ≡ out.old.items ++ header_row.text (header_in (group_of_record group.now))) }
{
    out.extend_from_slice(&group.digest)?;
    put_u32(out, group.used)?;
    put_config(out, group.config)?;
    put_u32(out, group.rounds)?;
    put_u32(out, u32::from(group.given))?;
    put_u32(out, group.processes.len() as u32)?;
    Ok(())
}

// the header and the parts behind it
fn put_group(out: &mut Vec<u8>, group: &GroupRecord) -> Result<(), AllocError>
    requires { group_row.Fits (group_of_record group.now) }
    ensures { OnOk result (out.new.items
        ≡ out.old.items ++ group_row.text (group_of_record group.now)) }
{
    put_header(out, group)?;
    put_processes(out, &group.processes)?;
    put_threads(out, &group.threads)?;
    put_pipes(out, &group.pipes)?;
    put_sleepers(out, &group.sleepers)?;
    put_frames(out, &group.frames)?;
    Ok(())
}

/// The text of a saved group that is in its ranges. Its room is reserved once. The error is want of
/// memory.
pub fn write_group(alloc: Global, group: &GroupRecord) -> Result<Vec<u8>, AllocError>
    requires { group_row.Fits (group_of_record group.now) }
    ensures { IfOk result (λ bytes. bytes.items ≡ grouptext (group_of_record group.now)) }
{
    let mut out = Vec::with_capacity(alloc, room_for(group))?;
    put_start(&mut out)?;
    put_group(&mut out, group)?;
    Ok(out)
}
