// Parts of texts as they are told.
ghost use Rattle.std.specs.Prelude.{◌≡◌, ◌++◌, ◌≤◌, OnOk, length};
ghost use Rattle.gdb_packets.specs.Escapes.{escaped};
ghost use Rattle.debug_session.specs.Lists.{part_told};

use crate::texts::put_text;
use arrayvec::ArrayVec;
use gdb_packets::escapes::push_escaped;
use gdb_packets::packets::Stretch;
use std::alloc::AllocError;

// how many bytes of a text are told at once, and the same with escapes
const MOST: u32 = 4096;

const ROOM: usize = 8192;

/// At most 4096 bytes, with their escapes.
pub(crate) fn put_escaped(out: &mut Vec<u8>, bytes: &[u8]) -> Result<(), AllocError>
    requires { length bytes.now ≤ 4096 }
    ensures { OnOk result (out.new.items ≡ out.old.items ++ escaped bytes.now) }
{
    let mut sent: ArrayVec<u8, ROOM> = ArrayVec::new();
    push_escaped(&mut sent, bytes);
    out.extend_from_slice(sent.as_slice())
}

/// A part of a text, as the packets of `qXfer` ask: behind `l` the last bytes, behind `m` others.
/// Any numbers.
pub fn put_part(out: &mut Vec<u8>, text: &[u8], part: Stretch) -> Result<(), AllocError>
    ensures { OnOk result (out.new.items ≡ out.old.items ++ part_told text.now part) }
{
    let most = part.length.min(MOST) as usize;
    let (_, rest) = text.split_at((part.from as usize).min(text.len()));
    if rest.len() <= most {
        put_text(out, "l")?;
        return put_escaped(out, rest);
    }
    let (front, _) = rest.split_at(most);
    put_text(out, "m")?;
    put_escaped(out, front)
}
