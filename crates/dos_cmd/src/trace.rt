// The command `trace`. It is lent no host, and the guests' bytes are dropped.
ghost use Rattle.std.specs.Prelude.{◌≡◌, ◌≢◌, ◌≤◌, ℕ, Bool, List, Option, [], length, IfOk};
ghost use Rattle.std.specs.Prelude.{IfErr, OnOk, Err};
ghost use Rattle.logged_runs.specs.Recording.{HostSeen};
ghost use Rattle.flat_machine.specs.Opening.{needed};
ghost use Rattle.dos_texts.specs.Exit.{ending_status};
ghost use Rattle.dos_words.specs.declared.request.Request.TheVariants as requests;
ghost use Rattle.dos_cmd.specs.Asking.{Asks, named_by};
ghost use Rattle.dos_cmd.specs.Outside.{outside, faults};
ghost use Rattle.dos_cmd.specs.Results.{Begun, Did, Leaves};
ghost use Rattle.dos_cmd.specs.TraceLeaves.{DidTrace, LeavesTrace, trace_refusal};

use crate::replay::{config_of, take};
use crate::run::{open, report};
use crate::stops::refusal_by;
use dos_io::{Files, Sink};
use dos_texts::Refusal;
use dos_words::{Names, Text};
use dos_world::{Ending, Scheme};
use elf_image::Image;
use log_text::Log;
use page_trace::TraceStop;
use std::alloc::Global;
use traced_logs::trace_log;
use worker_pool::Workers;

/// Why a traced run came to no ending, as the reason for which a call comes to no report.
fn trace_refusal(stop: TraceStop) -> Refusal
    ensures { result ≡ trace_refusal stop }
{
    match stop {
        TraceStop::Run(stop) => refusal_by(stop),
        TraceStop::LineFault => Refusal::Sink,
        TraceStop::Memory => Refusal::Memory,
    }
}

/// Replays a log with these images, puts the lines of its trace, and then the report.
fn trace_taken<O: Sink, E: Sink, W: Workers>(
    alloc: Global,
    log: Log,
    images: &[Image],
    out: &mut O,
    err: &mut E,
    workers: &mut W,
) -> Result<Ending, Refusal>
    requires some { 1 ≤ length images.now }
    requires few { length images.now ≤ 8 }
    // whatever files and a host tell, where they stay
    ensures did { IfOk result (λ ending. (tells : Bool) (f f' : List ℕ → Option (List ℕ))
        (h : HostSeen) → ((n : List ℕ) → f' n ≡ f n)
        → DidTrace log images.now (ending_status ending)
        (outside tells f f' h h (O.told out.old) (O.told out.new) (E.told err.old) (E.told err.new)
        (W.tally workers.old) (W.tally workers.new))) }
    ensures room { OnOk result (needed images.now ≤ log.header.frames) }
    ensures leaves { IfErr result (λ why. (tells : Bool) (f f' : List ℕ → Option (List ℕ))
        (h : HostSeen) (k k' m : ℕ) → ((n : List ℕ) → f' n ≡ f n)
        → LeavesTrace log images.now
        (outside tells f f' h h (O.told out.old) (O.told out.new) (E.told err.old) (E.told err.new)
        (W.tally workers.old) (W.tally workers.new))
        (faults k k' m m (O.faults out.old) (O.faults out.new) (E.faults err.old)
        (E.faults err.new)) why) }
    ensures out_later { O.faults out.old ≤ O.faults out.new }
    ensures err_later { E.faults err.old ≤ E.faults err.new }
    ensures out_steady { result ≢ Err Refusal.Sink → O.faults out.new ≡ O.faults out.old }
    ensures err_steady { result ≢ Err Refusal.Sink → E.faults err.new ≡ E.faults err.old }
    ensures fixed { W.fixed workers.new ≡ W.fixed workers.old }
{
    let mut kernel = open(alloc, images, config_of(Scheme::Ownership, &log))?;
    match trace_log(alloc, &mut kernel, log, out, workers) {
        Ok(ending) => {
            let ended = report(&kernel, ending, err);
            drop(kernel);
            ended
        }
        Err(stop) => {
            drop(kernel);
            Err(trace_refusal(stop))
        }
    }
}

/// Does what `trace` is asked for.
pub(crate) fn trace<F: Files, O: Sink, E: Sink, W: Workers>(
    alloc: Global,
    log: &Text,
    names: &Names,
    files: &mut F,
    out: &mut O,
    err: &mut E,
    workers: &mut W,
) -> Result<Ending, Refusal>
    requires { length names.now ≤ 8 }
    // whatever a host tells, and however often it failed
    ensures did { (n : ℕ) (h : HostSeen) → IfOk result (λ ending.
        Begun (requests.Trace n log.now names.now)
        (outside (F.tells files.old) (F.content files.old) (F.content files.new) h h
        (O.told out.old) (O.told out.new) (E.told err.old) (E.told err.new)
        (W.tally workers.old) (W.tally workers.new))
        (λ taken. Did (requests.Trace n log.now names.now) taken (ending_status ending)
        (outside (F.tells files.old) (F.content files.old) (F.content files.new) h h
        (O.told out.old) (O.told out.new) (E.told err.old) (E.told err.new)
        (W.tally workers.old) (W.tally workers.new)))) }
    ensures leaves { (n : ℕ) (h : HostSeen) (m : ℕ) → IfErr result (λ why.
        Leaves (requests.Trace n log.now names.now)
        (outside (F.tells files.old) (F.content files.old) (F.content files.new) h h
        (O.told out.old) (O.told out.new) (E.told err.old) (E.told err.new)
        (W.tally workers.old) (W.tally workers.new))
        (faults (F.faults files.old) (F.faults files.new) m m (O.faults out.old) (O.faults out.new)
        (E.faults err.old) (E.faults err.new)) why []) }
    ensures asked { (n : ℕ) → Asks (named_by (requests.Trace n log.now names.now)) result
        (F.asked files.old) (F.asked files.new) }
    ensures files_later { F.faults files.old ≤ F.faults files.new }
    ensures out_later { O.faults out.old ≤ O.faults out.new }
    ensures err_later { E.faults err.old ≤ E.faults err.new }
    ensures out_steady { result ≢ Err Refusal.Sink → O.faults out.new ≡ O.faults out.old }
    ensures err_steady { result ≢ Err Refusal.Sink → E.faults err.new ≡ E.faults err.old }
    ensures fixed { W.fixed workers.new ≡ W.fixed workers.old }
{
    let (log, images, contents) = take(alloc, files, log, names)?;
    drop(contents);
    trace_taken(alloc, log, &images, out, err, workers)
}
