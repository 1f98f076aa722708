// Lines for a person.
ghost use Rattle.std.specs.Prelude.{◌≡◌, ◌++◌, ◌∷◌, [], IfOk, OnOk};
ghost use Rattle.kernel_objects.specs.Pipework.{vector_bytes};
ghost use Rattle.debug_session.specs.Where.{console_line};
ghost use Rattle.debug_session.specs.Tables.{lines_or};

use crate::texts::put_text;
use std::alloc::{AllocError, Global};

/// A line of this text.
pub(crate) fn line_of(alloc: Global, text: &str) -> Result<Vec<u8>, AllocError>
    ensures { IfOk result (λ line. line.items ≡ console_line text.now) }
{
    let mut line = Vec::from_slice(alloc, text.as_bytes())?;
    line.push(b'\n')?;
    Ok(line)
}

/// One line alone.
pub(crate) fn one_line(alloc: Global, text: &str) -> Result<Vec<Vec<u8>>, AllocError>
    ensures { IfOk result (λ lines. vector_bytes lines.items ≡ console_line text.now ∷ []) }
{
    let mut lines = Vec::new(alloc);
    lines.push(line_of(alloc, text)?)?;
    Ok(lines)
}

/// These lines, or where there are none, one of this text.
pub(crate) fn lines_or(
    alloc: Global,
    lines: Vec<Vec<u8>>,
    other: &str,
) -> Result<Vec<Vec<u8>>, AllocError>
    ensures { IfOk result
        (λ all. vector_bytes all.items ≡ lines_or other.now (vector_bytes lines.items)) }
{
    if lines.is_empty() {
        return one_line(alloc, other);
    }
    Ok(lines)
}
