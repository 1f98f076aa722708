// Pipes, sleepers and frames.
ghost use Rattle.std.specs.Prelude.{◌≡◌, ◌<◌, ◌^◌, ◌++◌, ◌∷◌, [], ℕ, length, map, All, OnOk};
ghost use Rattle.text_fields.specs.Formats.{many};
ghost use Rattle.group_text.specs.GroupText.{frame_row, pipe_row, sleeper_row, sleeper_rows};
ghost use Rattle.group_text.specs.Records.{frame_of_record, sleeper_of_record};

use crate::fields::{put_byte, put_u16, put_u32};
use dos_world::Owner;
use group_text::{FrameRecord, SleeperRecord};
use std::alloc::AllocError;

// how many bytes a pipe holds, and these
fn put_pipe(out: &mut Vec<u8>, held: &[u8]) -> Result<(), AllocError>
    requires { length held.now < 2 ^ 16 }
    ensures { OnOk result (out.new.items ≡ out.old.items ++ pipe_row.text held.now) }
{
    put_u16(out, held.len() as u16)?;
    out.extend_from_slice(held)
}

/// Each of these pipes.
pub(crate) fn put_pipes(out: &mut Vec<u8>, pipes: &[Vec<u8>]) -> Result<(), AllocError>
    requires { All (λ p. length p.items < 2 ^ 16) pipes.now }
    ensures { OnOk result (out.new.items
        ≡ out.old.items ++ (many 64 pipe_row).text (map (λ p. p.items) pipes.now)) }
{
    for i in 0..pipes.len() {
        put_pipe(out, &pipes[i])?;
    }
    Ok(())
}

// a thread, and the word on which it sleeps
fn put_sleeper(out: &mut Vec<u8>, sleeper: SleeperRecord) -> Result<(), AllocError>
    ensures { OnOk result (out.new.items
        ≡ out.old.items ++ (sleeper_row 0 0).text (sleeper_of_record sleeper)) }
{
    put_u32(out, sleeper.tid)?;
    put_u32(out, sleeper.frame)?;
    put_u16(out, sleeper.offset)
}

// each of these
fn put_each_sleeper(out: &mut Vec<u8>, sleepers: &[SleeperRecord]) -> Result<(), AllocError>
    ensures { OnOk result (out.new.items
        ≡ out.old.items ++ (many 0 (sleeper_row 0 0)).text (map sleeper_of_record sleepers.now)) }
{
    for i in 0..sleepers.len() {
        put_sleeper(out, sleepers[i])?;
    }
    Ok(())
}

/// How many sleep, and these in their order.
pub(crate) fn put_sleepers(out: &mut Vec<u8>, sleepers: &[SleeperRecord]) -> Result<(), AllocError>
    requires { length sleepers.now < 256 }
    ensures { OnOk result (out.new.items
        ≡ out.old.items ++ (sleeper_rows 0 0).text (map sleeper_of_record sleepers.now)) }
{
    put_byte(out, sleepers.len() as u8)?;
    put_each_sleeper(out, sleepers)
}

// a frame's owner, and its bytes where it isn't Free
fn put_frame(out: &mut Vec<u8>, frame: &FrameRecord) -> Result<(), AllocError>
    ensures { OnOk result (out.new.items
        ≡ out.old.items ++ (frame_row 0).text (frame_of_record frame.now)) }
{
    match frame.owner {
        Owner::Free => {
            put_byte(out, 0)?;
            put_u32(out, 0)
        }
        Owner::Shared => {
            put_byte(out, 1)?;
            put_u32(out, 0)?;
            out.extend_from_slice(frame.page.bytes())
        }
        Owner::Of(thread) => {
            put_byte(out, 2)?;
            put_u32(out, thread)?;
            out.extend_from_slice(frame.page.bytes())
        }
    }
}

/// Each of these frames.
pub(crate) fn put_frames(out: &mut Vec<u8>, frames: &[FrameRecord]) -> Result<(), AllocError>
    ensures { OnOk result (out.new.items
        ≡ out.old.items ++ (many 0 (frame_row 0)).text (map frame_of_record frames.now)) }
{
    for i in 0..frames.len() {
        put_frame(out, &frames[i])?;
    }
    Ok(())
}
