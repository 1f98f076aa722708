// Why the run stopped, as it is told.
ghost use Rattle.std.specs.Prelude.{◌≡◌, ◌++◌, OnOk, codes};
ghost use Rattle.gdb_packets.specs.Hexadecimal.{number_digits};
ghost use Rattle.debug_session.specs.Stops.{fault_signal, watch_word, pair_text, cause_text};
ghost use Rattle.debug_session.specs.Stops.{stop_text, console_text, trap_signal};
ghost use Rattle.debug_session.specs.declared.stops.Cause.TheVariants.{Plainly};

use crate::texts::{put_byte_digits, put_bytes_digits, put_number, put_pair, put_text};
use debug_session::{Cause, Stop, WatchKind, Watchpoint};
use std::alloc::AllocError;

/// The signal of a fault, by gdb's numbers. Any number.
pub fn fault_signal(number: u8) -> u8
    ensures { result ≡ fault_signal number }
{
    if number == 4 {
        return 4;
    }
    if number == 7 {
        return 10;
    }
    if number == 11 {
        return 11;
    }
    5
}

fn watch_word(kind: WatchKind) -> &'static str
    ensures { result.now ≡ watch_word kind }
{
    match kind {
        WatchKind::Changes => "watch:",
        WatchKind::Reads => "rwatch:",
        WatchKind::Accesses => "awatch:",
    }
}

// a watchpoint that was hit
fn put_watched(out: &mut Vec<u8>, point: Watchpoint) -> Result<(), AllocError>
    ensures { OnOk result (out.new.items ≡ out.old.items
        ++ (watch_word point.kind ++ number_digits point.address ++ codes ";")) }
{
    put_text(out, watch_word(point.kind))?;
    put_number(out, point.address)?;
    put_text(out, ";")
}

// a process that was born, with its thread
fn put_born(out: &mut Vec<u8>, pair: (u32, u32)) -> Result<(), AllocError>
    ensures { OnOk result (out.new.items
        ≡ out.old.items ++ (codes "fork:" ++ pair_text pair ++ codes ";")) }
{
    put_text(out, "fork:")?;
    put_pair(out, pair)?;
    put_text(out, ";")
}

fn put_cause(out: &mut Vec<u8>, cause: Cause) -> Result<(), AllocError>
    ensures { OnOk result (out.new.items ≡ out.old.items ++ cause_text cause) }
{
    match cause {
        Cause::Broke => put_text(out, "swbreak:;"),
        Cause::Watched(point) => put_watched(out, point),
        Cause::Bore { process, thread } => put_born(out, (process, thread)),
        Cause::ReachedEnd => put_text(out, "replaylog:end;"),
        Cause::ReachedStart => put_text(out, "replaylog:begin;"),
        Cause::Plainly => Ok(()),
    }
}

/// That the run has stopped: by which signal, in which thread, and why.
pub fn put_stop(out: &mut Vec<u8>, stop: Stop) -> Result<(), AllocError>
    ensures { OnOk result (out.new.items ≡ out.old.items ++ stop_text stop) }
{
    put_text(out, "T")?;
    put_byte_digits(out, stop.signal)?;
    put_text(out, "thread:")?;
    put_pair(out, stop.whose)?;
    put_text(out, ";")?;
    put_cause(out, stop.cause)
}

/// That the current thread has stopped, as `?` asks.
pub fn put_stopped(out: &mut Vec<u8>, pair: (u32, u32)) -> Result<(), AllocError>
    ensures { OnOk result (out.new.items ≡ out.old.items ++ stop_text (record {
      signal = trap_signal;
      whose = pair;
      cause = Plainly;
    })) }
{
    put_stop(
        out,
        Stop {
            signal: 5,
            whose: pair,
            cause: Cause::Plainly,
        },
    )
}

/// Bytes for the person's console. Any number of them.
pub fn put_console(out: &mut Vec<u8>, bytes: &[u8]) -> Result<(), AllocError>
    ensures { OnOk result (out.new.items ≡ out.old.items ++ console_text bytes.now) }
{
    put_text(out, "O")?;
    put_bytes_digits(out, bytes)
}
