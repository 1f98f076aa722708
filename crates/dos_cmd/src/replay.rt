// The command `replay`. It is lent no host.
ghost use Rattle.std.specs.Prelude.{◌≡◌, ◌≢◌, ◌≤◌, ℕ, Bool, List, Option, [], length, map, IfOk};
ghost use Rattle.std.specs.Prelude.{IfErr, IfSome, IsErrOf, OnOk, Ok, Err, None, ◌∷◌, ◌++◌};
ghost use Rattle.dos_io.specs.FileCalls.{getting};
ghost use Rattle.dos_world.specs.Lawful.{IsConfig};
ghost use Rattle.logged_runs.specs.Recording.{HostSeen};
ghost use Rattle.dos_io.specs.Outside.{Rose};
ghost use Rattle.flat_machine.specs.Opening.{needed};
ghost use Rattle.log_files.specs.Judging.{IsOfFile, log_verdict};
ghost use Rattle.logged_runs.specs.Replaying.{config_of};
ghost use Rattle.log_text.specs.LogText.{logtext};
ghost use Rattle.log_text.specs.Ranges.{FitsLog};
ghost use Rattle.dos_texts.specs.Exit.{ending_status};
ghost use Rattle.dos_words.specs.declared.request.Request.TheVariants as requests;
ghost use Rattle.dos_cmd.specs.Asking.{Asks, files_named, named_by};
ghost use Rattle.debug_connection.specs.Keeping.{texts_of};
ghost use Rattle.dos_cmd.specs.Judging.{agreed, contents_of, replay_judgement};
ghost use Rattle.dos_cmd.specs.Outside.{outside, faults};
ghost use Rattle.dos_cmd.specs.ReplayLeaves.{DidReplay, LeavesTaken, OfLogFile, OfReading};
ghost use Rattle.dos_cmd.specs.Results.{Begun, Did, Leaves};

use crate::images::load_all;
use crate::run::{open, report};
use crate::stops::refusal_by;
use dos_io::{Files, Sink};
use dos_texts::Refusal;
use dos_words::{Names, Text};
use dos_world::{Config, Ending, Scheme};
use elf_image::Image;
use log_files::{LoadError, agree, load_log};
use log_text::Log;
use logged_runs::replay_group;
use std::alloc::Global;
use worker_pool::Workers;

/// Reads the log.
pub(crate) fn read<F: Files>(alloc: Global, files: &mut F, name: &Text) -> Result<Log, Refusal>
    ensures accepted { IfOk result (λ log. IfSome (F.content files.old name.now)
        (λ file. log_verdict file ≡ Ok log)) }
    ensures found { IfOk result (λ log. IfSome (F.content files.old name.now)
        (λ file. (file ≡ logtext log) × FitsLog log)) }
    ensures refused { IfErr result (λ why. OfLogFile why (λ found. IfSome
        (F.content files.old name.now) (λ file. log_verdict file ≡ Err found))) }
    ensures of_file { IfErr result (λ why. OfLogFile why IsOfFile) }
    ensures fault { IsErrOf result Refusal.Files → Rose (F.faults files.old) (F.faults files.new) }
    ensures asked { F.asked files.new ≡ F.asked files.old ++ getting name.now ∷ [] }
    ensures later { F.faults files.old ≤ F.faults files.new }
    ensures stays { (n : List ℕ) → F.content files.new n ≡ F.content files.old n }
    ensures tells { F.tells files.new ≡ F.tells files.old }
{
    match load_log(alloc, files, name.as_str()) {
        Ok(log) => Ok(log),
        Err(LoadError::Log(why)) => Err(Refusal::Log(why)),
        Err(LoadError::Fault) => Err(Refusal::Files),
        Err(LoadError::Memory) => Err(Refusal::Memory),
    }
}

/// What a log's run is given, by this scheme.
pub(crate) fn config_of(scheme: Scheme, log: &Log) -> Config
    ensures config { result ≡ config_of scheme log.now.header }
    ensures range { IsConfig result }
{
    let _len = log.len();
    let header = log.header();
    Config {
        quantum: header.quantum,
        rounds: header.rounds,
        frames: header.frames,
        scheme,
    }
}

/// Reads a log and the images that it is to be of, and agrees them; beside them the bytes of the
/// images' files.
pub(crate) fn take<F: Files>(
    alloc: Global,
    files: &mut F,
    log: &Text,
    names: &Names,
) -> Result<(Log, Vec<Image>, Vec<Vec<u8>>), Refusal>
    requires { length names.now ≤ 8 }
    // but for room, which isn't tried yet
    ensures taken { IfOk result (λ x. IfSome (replay_judgement (F.content files.old log.now)
        (map (F.content files.old) names.now)) (λ j. j ≡ agreed x.0 x.1.items None)) }
    ensures contents { IfOk result (λ x. IfSome
        (contents_of (map (F.content files.old) names.now))
        (λ contents. texts_of x.2.items ≡ contents)) }
    ensures some { IfOk result (λ x. 1 ≤ length x.1.items) }
    ensures few { IfOk result (λ x. length x.1.items ≤ 8) }
    ensures count { IfOk result (λ x. length x.1.items ≡ length names.now) }
    ensures refused { IfErr result (λ why. OfReading why (λ why. IfSome (replay_judgement
        (F.content files.old log.now) (map (F.content files.old) names.now)) (λ j. j ≡ Err why))) }
    ensures fault { IsErrOf result Refusal.Files → Rose (F.faults files.old) (F.faults files.new) }
    ensures asked { Asks (files_named (log.now ∷ []) names.now []) result (F.asked files.old)
        (F.asked files.new) }
    ensures later { F.faults files.old ≤ F.faults files.new }
    ensures stays { (n : List ℕ) → F.content files.new n ≡ F.content files.old n }
    ensures tells { F.tells files.new ≡ F.tells files.old }
{
    let log = read(alloc, files, log)?;
    let (images, digests, contents) = load_all(alloc, files, names)?;
    let _len = log.len();
    match agree(&digests, &log.header().digests) {
        Ok(()) => Ok((log, images, contents)),
        Err(why) => Err(Refusal::Log(why)),
    }
}

/// Replays a log with these images, and puts the report.
fn replay_taken<O: Sink, E: Sink, W: Workers>(
    alloc: Global,
    scheme: Scheme,
    log: Log,
    images: &[Image],
    out: &mut O,
    err: &mut E,
    workers: &mut W,
) -> Result<Ending, Refusal>
    requires some { 1 ≤ length images.now }
    requires few { length images.now ≤ 8 }
    // whatever files and a host tell, where they stay
    ensures did { IfOk result (λ ending. (tells : Bool) (f f' : List ℕ → Option (List ℕ))
        (h : HostSeen) → ((n : List ℕ) → f' n ≡ f n)
        → DidReplay scheme log images.now (ending_status ending)
        (outside tells f f' h h (O.told out.old) (O.told out.new) (E.told err.old) (E.told err.new)
        (W.tally workers.old) (W.tally workers.new))) }
    ensures room { OnOk result (needed images.now ≤ log.header.frames) }
    ensures leaves { IfErr result (λ why. (tells : Bool) (f f' : List ℕ → Option (List ℕ))
        (h : HostSeen) (k k' m : ℕ) → ((n : List ℕ) → f' n ≡ f n)
        → LeavesTaken scheme log images.now
        (outside tells f f' h h (O.told out.old) (O.told out.new) (E.told err.old) (E.told err.new)
        (W.tally workers.old) (W.tally workers.new))
        (faults k k' m m (O.faults out.old) (O.faults out.new) (E.faults err.old)
        (E.faults err.new)) why) }
    ensures out_later { O.faults out.old ≤ O.faults out.new }
    ensures err_later { E.faults err.old ≤ E.faults err.new }
    ensures out_steady { result ≢ Err Refusal.Sink → O.faults out.new ≡ O.faults out.old }
    ensures err_steady { result ≢ Err Refusal.Sink → E.faults err.new ≡ E.faults err.old }
    ensures fixed { W.fixed workers.new ≡ W.fixed workers.old }
{
    let mut kernel = open(alloc, images, config_of(scheme, &log))?;
    match replay_group(&mut kernel, log, out, err, workers) {
        Ok(ending) => {
            let ended = report(&kernel, ending, err);
            drop(kernel);
            ended
        }
        Err(stop) => {
            drop(kernel);
            Err(refusal_by(stop))
        }
    }
}

/// Does what `replay` is asked for.
pub(crate) fn replay<F: Files, O: Sink, E: Sink, W: Workers>(
    alloc: Global,
    scheme: Scheme,
    log: &Text,
    names: &Names,
    files: &mut F,
    out: &mut O,
    err: &mut E,
    workers: &mut W,
) -> Result<Ending, Refusal>
    requires { length names.now ≤ 8 }
    // whatever a host tells, and however often it failed
    ensures did { (n : ℕ) (h : HostSeen) → IfOk result (λ ending.
        Begun (requests.Replay n scheme log.now names.now)
        (outside (F.tells files.old) (F.content files.old) (F.content files.new) h h
        (O.told out.old) (O.told out.new) (E.told err.old) (E.told err.new)
        (W.tally workers.old) (W.tally workers.new))
        (λ taken. Did (requests.Replay n scheme log.now names.now) taken (ending_status ending)
        (outside (F.tells files.old) (F.content files.old) (F.content files.new) h h
        (O.told out.old) (O.told out.new) (E.told err.old) (E.told err.new)
        (W.tally workers.old) (W.tally workers.new)))) }
    ensures leaves { (n : ℕ) (h : HostSeen) (m : ℕ) → IfErr result (λ why.
        Leaves (requests.Replay n scheme log.now names.now)
        (outside (F.tells files.old) (F.content files.old) (F.content files.new) h h
        (O.told out.old) (O.told out.new) (E.told err.old) (E.told err.new)
        (W.tally workers.old) (W.tally workers.new))
        (faults (F.faults files.old) (F.faults files.new) m m (O.faults out.old) (O.faults out.new)
        (E.faults err.old) (E.faults err.new)) why []) }
    ensures asked { (n : ℕ)
        → Asks (named_by (requests.Replay n scheme log.now names.now)) result (F.asked files.old)
        (F.asked files.new) }
    ensures files_later { F.faults files.old ≤ F.faults files.new }
    ensures out_later { O.faults out.old ≤ O.faults out.new }
    ensures err_later { E.faults err.old ≤ E.faults err.new }
    ensures out_steady { result ≢ Err Refusal.Sink → O.faults out.new ≡ O.faults out.old }
    ensures err_steady { result ≢ Err Refusal.Sink → E.faults err.new ≡ E.faults err.old }
    ensures fixed { W.fixed workers.new ≡ W.fixed workers.old }
{
    let (log, images, contents) = take(alloc, files, log, names)?;
    drop(contents);
    replay_taken(alloc, scheme, log, &images, out, err, workers)
}
