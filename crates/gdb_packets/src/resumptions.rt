//! What a packet `vCont` resumes.
ghost use Rattle.std.specs.Prelude.{◌≡◌, ◌∷◌, [], IfOk, MatchOption, Some, None, is_some};
ghost use Rattle.std.specs.Option.{option_map_or};
ghost use Rattle.gdb_packets.specs.Around.{between_marks};
ghost use Rattle.gdb_packets.specs.Resumptions.{if_at_end, signal_from, range_from, action_from};
ghost use Rattle.gdb_packets.specs.Resumptions.{resumption_of_threads, resumption_from};
ghost use Rattle.gdb_packets.specs.Resumptions.{resumptions_in, resumptions_from};

use crate::around::{around, first_part};
use crate::hexadecimal::{nibbles_value, read_number};
use crate::ids::{ThreadId, Which, read_id};
use std::alloc::{AllocError, Global};

/// What a thread does when it is resumed.
#[derive(Clone, Copy, Debug, PartialEq, Eq)]
pub enum Action {
    Continue,
    ContinueSignal(u8),
    Step,
    StepSignal(u8),
    /// steps while the program counter is from `low` up to `high` - 1
    Range { low: u32, high: u32 },
}

/// An action, and for which threads it is.
#[derive(Clone, Copy, Debug, PartialEq, Eq)]
pub struct Resumption {
    pub action: Action,
    pub threads: ThreadId,
}

/// Two digits.
fn read_signal(text: &[u8]) -> Option<u8>
    ensures { result ≡ signal_from text.now }
{
    if text.len() != 2 {
        return None;
    }
    match nibbles_value(text) {
        None => None,
        Some(signal) => Some(signal as u8),
    }
}

fn read_range(text: &[u8]) -> Option<Action>
    ensures { result ≡ range_from text.now }
{
    let Some((low, high)) = around(text, b',') else {
        return None;
    };
    let Some(low) = read_number(low) else {
        return None;
    };
    let Some(high) = read_number(high) else {
        return None;
    };
    Some(Action::Range { low, high })
}

fn if_at_end(action: Action, rest: &[u8]) -> Option<Action>
    ensures { result ≡ if_at_end action rest.now }
{
    if rest.is_empty() { Some(action) } else { None }
}

/// `c`, `Chh`, `s`, `Shh` or `rA,B`.
fn read_action(text: &[u8]) -> Option<Action>
    ensures { result ≡ action_from text.now }
{
    let [name, rest @ ..] = text else {
        return None;
    };
    match *name {
        b'c' => if_at_end(Action::Continue, rest),
        b'C' => match read_signal(rest) {
            None => None,
            Some(signal) => Some(Action::ContinueSignal(signal)),
        },
        b's' => if_at_end(Action::Step, rest),
        b'S' => match read_signal(rest) {
            None => None,
            Some(signal) => Some(Action::StepSignal(signal)),
        },
        b'r' => read_range(rest),
        _ => None,
    }
}

/// An action, and its threads where they are named.
fn read_resumption(text: &[u8]) -> Option<Resumption>
    ensures { result ≡ resumption_from text.now }
{
    let Some((action, threads)) = around(text, b':') else {
        return match read_action(text) {
            None => None,
            Some(action) => Some(Resumption {
                action,
                threads: ThreadId::ThreadAlone(Which::All),
            }),
        };
    };
    let Some(action) = read_action(action) else {
        return None;
    };
    let Some(threads) = read_id(threads) else {
        return None;
    };
    Some(Resumption { action, threads })
}

/// Whether each part between semicolons is a resumption.
fn are_parts(text: &[u8]) -> bool
    ensures { result ≡ is_some (resumptions_in (between_marks 59 text.now)) }
{
    let mut rest = Some(text);
    while let Some(parts) = rest {
        let (part, others) = first_part(parts, b';');
        if read_resumption(part).is_none() {
            return false;
        }
        rest = others;
    }
    true
}

/// Whether what stands behind `vCont` is one or more resumptions, each behind a semicolon.
pub(crate) fn are_resumptions(text: &[u8]) -> bool
    ensures { result ≡ is_some (resumptions_from text.now) }
{
    match text {
        [b';', parts @ ..] => are_parts(parts),
        _ => false,
    }
}

/// The resumptions of the parts between semicolons.
fn read_parts(alloc: Global, text: &[u8]) -> Result<Option<Vec<Resumption>>, AllocError>
    ensures { IfOk result (λ read. MatchOption read
        (resumptions_in (between_marks 59 text.now) ≡ None)
        (λ v. resumptions_in (between_marks 59 text.now) ≡ Some v.items)) }
{
    let mut resumptions = Vec::new(alloc);
    let mut rest = Some(text);
    while let Some(parts) = rest {
        let (part, others) = first_part(parts, b';');
        let Some(resumption) = read_resumption(part) else {
            return Ok(None);
        };
        resumptions.push(resumption)?;
        rest = others;
    }
    Ok(Some(resumptions))
}

/// The resumptions that stand behind `vCont`, unless memory runs out.
pub fn read_resumptions(alloc: Global, text: &[u8]) -> Result<Option<Vec<Resumption>>, AllocError>
    ensures { IfOk result (λ read. MatchOption read (resumptions_from text.now ≡ None)
        (λ v. resumptions_from text.now ≡ Some v.items)) }
{
    match text {
        [b';', parts @ ..] => read_parts(alloc, parts),
        _ => Ok(None),
    }
}
