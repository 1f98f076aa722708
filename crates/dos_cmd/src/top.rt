//! The top call: from the words to the exit status.
ghost use Rattle.std.specs.Prelude.{◌≡◌, ◌≢◌, ◌≤◌, ◌⊎◌, [], None, Some, Ok, Err, IfOk, IfErr};
ghost use Rattle.std.specs.Prelude.{ℕ, List, map, string_bytes, ◌++◌};
ghost use Rattle.logged_runs.specs.Recording.{host_seen};
ghost use Rattle.dos_words.specs.declared.request.Request.{Request as Asked};
ghost use Rattle.dos_words.specs.Ranges.{FitsRequest};
ghost use Rattle.dos_words.specs.Numbers.{Text};
ghost use Rattle.dos_words.specs.Request.{request};
ghost use Rattle.dos_texts.specs.Exit.{IsStatus, ending_status, refusal_status};
ghost use Rattle.dos_cmd.specs.Asking.{Asks, HasAsked, named_by, named_in};
ghost use Rattle.elf_image.specs.Image.{Image};
ghost use Rattle.log_text.specs.LogText.{Log};
ghost use Rattle.dos_cmd.specs.Joining.{HasReplayed, IsResumeOf, ShowTogether};
ghost use Rattle.dos_cmd.specs.Judging.{Taken, judgement};
ghost use Rattle.dos_cmd.specs.Outside.{Outside, outside, faults};
ghost use Rattle.dos_cmd.specs.Repeating.{IsReplayOf, ShowTheSame};
ghost use Rattle.dos_cmd.specs.Results.{Begun, CutShort, Did, Fails, WasDone, Leaves, MustDo};
ghost use Rattle.dos_cmd.specs.Results.{Refused};
ghost use Rattle.dos_cmd.specs.SaveLeaves.{SavedRun};

use crate::debug::debug;
use crate::generate::generate;
use crate::inspect::inspect;
use crate::migrate::migrate;
use crate::replay::replay;
use crate::resume::resume;
use crate::run::{RunRequest, run};
use crate::save::save;
use crate::trace::trace;
use crate::words::read_request;
use dos_io::{Files, Host, Sink};
use dos_texts::{Refusal, ending_status, put_refusal};
use dos_words::Request;
use dos_world::{Config, Ending};
use std::alloc::Global;
use worker_pool::Workers;

// Hires as many workers as are asked for, where packs are to be run.
fn hire<W: Workers>(request: &Request, workers: &mut W)
    requires { FitsRequest request.now }
    ensures tally { W.tally workers.new ≡ W.tally workers.old }
    ensures fixed { W.fixed workers.new ≡ W.fixed workers.old }
{
    match request {
        Request::Run { workers: hired, .. } => workers.hire(*hired),
        Request::Replay { workers: hired, .. } => workers.hire(*hired),
        Request::Inspect { .. } => {}
        Request::Gen { workers: hired, .. } => workers.hire(*hired),
        Request::Migrate { .. } => {}
        Request::Trace { workers: hired, .. } => workers.hire(*hired),
        Request::Save { workers: hired, .. } => workers.hire(*hired),
        Request::Resume { workers: hired, .. } => workers.hire(*hired),
        Request::Debug { .. } => {}
    }
}

/// Does what is asked for, with the workers that are hired.
fn execute<F: Files, H: Host, O: Sink, E: Sink, W: Workers>(
    alloc: Global,
    request: &Request,
    files: &mut F,
    host: &mut H,
    out: &mut O,
    err: &mut E,
    workers: &mut W,
) -> Result<Ending, Refusal>
    requires { FitsRequest request.now }
    ensures did { IfOk result (λ ending. Begun request.now
        (outside (F.tells files.old) (F.content files.old) (F.content files.new)
        (host_seen (H.told host.old) (H.asked host.old))
        (host_seen (H.told host.new) (H.asked host.new)) (O.told out.old) (O.told out.new)
        (E.told err.old) (E.told err.new)
        (W.tally workers.old) (W.tally workers.new))
        (λ taken. Did request.now taken (ending_status ending)
        (outside (F.tells files.old) (F.content files.old) (F.content files.new)
        (host_seen (H.told host.old) (H.asked host.old))
        (host_seen (H.told host.new) (H.asked host.new)) (O.told out.old) (O.told out.new)
        (E.told err.old) (E.told err.new)
        (W.tally workers.old) (W.tally workers.new)))) }
    ensures leaves { IfErr result (λ why. Leaves request.now
        (outside (F.tells files.old) (F.content files.old) (F.content files.new)
        (host_seen (H.told host.old) (H.asked host.old))
        (host_seen (H.told host.new) (H.asked host.new)) (O.told out.old) (O.told out.new)
        (E.told err.old) (E.told err.new)
        (W.tally workers.old) (W.tally workers.new))
        (faults (F.faults files.old) (F.faults files.new) (H.faults host.old) (H.faults host.new)
        (O.faults out.old) (O.faults out.new) (E.faults err.old) (E.faults err.new)) why []) }
    ensures asked { Asks (named_by request.now) result (F.asked files.old) (F.asked files.new) }
    ensures files_later { F.faults files.old ≤ F.faults files.new }
    ensures host_later { H.faults host.old ≤ H.faults host.new }
    ensures host_steady { result ≢ Err Refusal.Host → H.faults host.new ≡ H.faults host.old }
    ensures out_later { O.faults out.old ≤ O.faults out.new }
    ensures err_later { E.faults err.old ≤ E.faults err.new }
    ensures out_steady { result ≢ Err Refusal.Sink → O.faults out.new ≡ O.faults out.old }
    ensures err_steady { result ≢ Err Refusal.Sink → E.faults err.new ≡ E.faults err.old }
    ensures fixed { W.fixed workers.new ≡ W.fixed workers.old }
{
    match request {
        Request::Run {
            quantum,
            rounds,
            frames,
            scheme,
            posts,
            clock_from,
            clock_step,
            log,
            names,
            ..
        } => {
            let asked = RunRequest {
                config: Config {
                    quantum: *quantum,
                    rounds: *rounds,
                    frames: *frames,
                    scheme: *scheme,
                },
                posts,
                clock_from: *clock_from,
                clock_step: *clock_step,
                log,
                names,
            };
            run(alloc, &asked, files, host, out, err, workers)
        }
        Request::Replay {
            scheme,
            log,
            names,
            ..
        } => replay(alloc, *scheme, log, names, files, out, err, workers),
        Request::Inspect { name } => inspect(alloc, name.as_str(), files, out),
        Request::Gen {
            number,
            threads,
            ..
        } => generate(alloc, *number, *threads, out, workers),
        Request::Migrate { log, to } => migrate(alloc, log, to, files, out),
        Request::Trace { log, names, .. } => trace(alloc, log, names, files, out, err, workers),
        Request::Save {
            log,
            round,
            to,
            names,
            ..
        } => save(alloc, log, *round, to, names, files, out, err, workers),
        Request::Resume { log, from, .. } => { resume(alloc, log, from, files, out, err, workers) }
        Request::Debug { log, names, .. } => debug(alloc, log, names, files, host, out),
    }
}

/// Does what the words ask for, with as many workers as they say.
fn command<F: Files, H: Host, O: Sink, E: Sink, W: Workers>(
    alloc: Global,
    words: &[String],
    files: &mut F,
    host: &mut H,
    out: &mut O,
    err: &mut E,
    workers: &mut W,
) -> Result<Ending, Refusal>
    ensures finished { IfOk result (λ ending. WasDone (map string_bytes words.now)
        (ending_status ending)
        (outside (F.tells files.old) (F.content files.old) (F.content files.new)
        (host_seen (H.told host.old) (H.asked host.old))
        (host_seen (H.told host.new) (H.asked host.new)) (O.told out.old) (O.told out.new)
        (E.told err.old) (E.told err.new)
        (W.tally workers.old) (W.tally workers.new))) }
    ensures fails { IfErr result (λ why. Fails (map string_bytes words.now)
        (outside (F.tells files.old) (F.content files.old) (F.content files.new)
        (host_seen (H.told host.old) (H.asked host.old))
        (host_seen (H.told host.new) (H.asked host.new)) (O.told out.old) (O.told out.new)
        (E.told err.old) (E.told err.new)
        (W.tally workers.old) (W.tally workers.new))
        (faults (F.faults files.old) (F.faults files.new) (H.faults host.old) (H.faults host.new)
        (O.faults out.old) (O.faults out.new) (E.faults err.old) (E.faults err.new)) why []) }
    ensures asked { Asks (named_in (request (map string_bytes words.now))) result
        (F.asked files.old) (F.asked files.new) }
    ensures files_later { F.faults files.old ≤ F.faults files.new }
    ensures host_later { H.faults host.old ≤ H.faults host.new }
    ensures host_steady { result ≢ Err Refusal.Host → H.faults host.new ≡ H.faults host.old }
    ensures out_later { O.faults out.old ≤ O.faults out.new }
    ensures err_later { E.faults err.old ≤ E.faults err.new }
    ensures out_steady { result ≢ Err Refusal.Sink → O.faults out.new ≡ O.faults out.old }
    ensures err_steady { result ≢ Err Refusal.Sink → E.faults err.new ≡ E.faults err.old }
    ensures fixed { W.fixed workers.new ≡ W.fixed workers.old }
{
    let request = read_request(alloc, words)?;
    hire(&request, workers);
    let ended = execute(alloc, &request, files, host, out, err, workers);
    drop(request);
    ended
}

/// Does what the words ask for, and answers the exit status.
///
/// The words are those behind the program's name: a command, its options, and names of files.
///
/// - `run --log LOG [--quantum N] [--rounds N] [--frames N] [--workers N] [--scheme S] [--signals
///   ROUND:PROCESS:SIGNAL,..] [--clock-from N] [--clock-step N] NAME ..` reads 1 to 8 images and
///   runs them as one group: signals come from the words, input from `host`, the clock from `host`
///   or, where it is counted, from the words. Each answer is recorded; the log is written to the
///   file LOG, and then the report is put to `err`.
/// - `replay --log LOG [--workers N] [--scheme S] NAME ..` runs the same images by the answers of a
///   log.
/// - `inspect NAME` prints an image's entry and parts to `out`.
/// - `gen --number N --threads N [--workers N]` runs an image that is made from a number, with
///   nothing from outside, and prints how it ended, how many bytes it wrote, and their digest.
/// - `migrate --log OLD --to NEW` reads the log OLD, writes its text of version 2 to the file NEW,
///   which may be OLD, and prints the version and the length of both texts to `out`.
/// - `trace --log LOG [--workers N] NAME ..` replays a log, drops what the guests print, and prints
///   to `out`, after each round, a line for each frame whose owner has changed in it.
///
/// - `save --log LOG --round R --to GROUP [--workers N] NAME ..` replays a log until R rounds have
///   been run, writes the whole group to the file GROUP, and says so on `err`; a run that ends
///   before is a whole replay, and no file is written.
/// - `resume --log LOG --from GROUP [--workers N]` goes on with a saved group by what was left of
///   the log.
/// - `debug --log LOG [--workers N] NAME ..` shows the run of a log, as far as the log fits it, to
///   a debugger that speaks GDB's remote serial protocol: it reads `host` to the end of its input,
///   and puts what is answered to `out`. No worker is hired, and there is no report.
///
/// A run and a replay go by the scheme S: `ownership`, by which all other commands go, or
/// `buffered`. A log doesn't keep its run's; a replay by the other one is the run of that scheme by
/// the same answers, as far as it asks for these.
///
/// For `run`, `replay`, `gen`, `trace`, `save` and `resume` `workers` are hired, as many as the
/// words say: at most so many threads run a round's packs, the caller's among them. What the call
/// does is the same with any number of them. Their tally grows by the instructions that the packs
/// run.
///
/// | Status | Comes |
/// |---|---|
/// | 0 | no process lives any more, or the image was inspected, or the log was written anew, or the
/// group was saved, or the debugger's input has ended |
/// | 2 | exactly where the words ask for nothing |
/// | 3 | exactly where an image is longer than 4194304 bytes or refused, or there is no room |
/// | 4 | exactly where a log is longer than 67108864 bytes or refused, isn't of these images, or,
/// but in `debug`, isn't of their run |
/// | 5 | only where the count of `files` or of `host` rose |
/// | 6 | exactly where a put failed: the count of `out` or `err` rose, and else both stand |
/// | 7 | exactly where processes live after as many rounds as there may be |
/// | 8 | exactly where processes live, and none of their threads can go on |
/// | 9 | only for want of memory |
/// | 10 | exactly where the log has no room for what a question may bring, or for its text of
/// version 2 |
/// | 11 | exactly where a saved group is longer than 83886080 bytes or refused, or isn't of the
/// log |
///
/// A put that fails gives 6 in place of any other status, and nothing is put after it. Each
/// "exactly" yields to 5, 6 and 9. With 2, 3, 4, 5, 9, 10 and 11 `err` grows by one line behind
/// what the run has put by then, and there is no report. The log's file is written only where the
/// run came to its ending. In a replay, traced or not, want of memory comes only before the run.
pub fn dos_main<F: Files, H: Host, O: Sink, E: Sink, W: Workers>(
    alloc: Global,
    words: &[String],
    files: &mut F,
    host: &mut H,
    out: &mut O,
    err: &mut E,
    workers: &mut W,
) -> u8
    ensures statuses { IsStatus result }

    // What the words ask for is done, with images, and a log, that the files are.
    ensures finished { (result ≡ 0) ⊎ (result ≡ 7) ⊎ (result ≡ 8)
        → WasDone (map string_bytes words.now) result
        (outside (F.tells files.old) (F.content files.old) (F.content files.new)
        (host_seen (H.told host.old) (H.asked host.old))
        (host_seen (H.told host.new) (H.asked host.new)) (O.told out.old) (O.told out.new)
        (E.told err.old) (E.told err.new)
        (W.tally workers.old) (W.tally workers.new)) }

    // Each file that they name is asked for once then, in order, and none besides; but one that
    // isn't to be written.
    ensures asked { (result ≡ 0) ⊎ (result ≡ 7) ⊎ (result ≡ 8)
        → HasAsked (named_in (request (map string_bytes words.now))) (F.asked files.old)
        (F.asked files.new) }

    // It isn't, for a reason that the status and the one line tell.
    ensures refused { result ≢ 0 → result ≢ 6 → result ≢ 7 → result ≢ 8
        → Refused (map string_bytes words.now) result
        (outside (F.tells files.old) (F.content files.old) (F.content files.new)
        (host_seen (H.told host.old) (H.asked host.old))
        (host_seen (H.told host.new) (H.asked host.new)) (O.told out.old) (O.told out.new)
        (E.told err.old) (E.told err.new)
        (W.tally workers.old) (W.tally workers.new))
        (faults (F.faults files.old) (F.faults files.new) (H.faults host.old) (H.faults host.new)
        (O.faults out.old) (O.faults out.new) (E.faults err.old) (E.faults err.new))
        (F.asked files.old) (F.asked files.new) }

    // An output failed.
    ensures six { result ≡ 6 → CutShort (map string_bytes words.now)
        (outside (F.tells files.old) (F.content files.old) (F.content files.new)
        (host_seen (H.told host.old) (H.asked host.old))
        (host_seen (H.told host.new) (H.asked host.new)) (O.told out.old) (O.told out.new)
        (E.told err.old) (E.told err.new)
        (W.tally workers.old) (W.tally workers.new))
        (faults (F.faults files.old) (F.faults files.new) (H.faults host.old) (H.faults host.new)
        (O.faults out.old) (O.faults out.new) (E.faults err.old) (E.faults err.new))
        (F.asked files.old) (F.asked files.new) }

    // What must come, where nothing fails and memory is there.
    ensures words_refused { request (map string_bytes words.now) ≡ None → result ≢ 6 → result ≢ 9
        → result ≡ 2 }
    ensures files_refused { (asked : Asked) (why : Refusal)
        → request (map string_bytes words.now) ≡ Some asked
        → judgement (F.content files.old) asked ≡ Some (Err why)
        → result ≢ 5 → result ≢ 6 → result ≢ 9 → result ≡ refusal_status why }
    ensures done { (asked : Asked) (taken : Taken)
        → request (map string_bytes words.now) ≡ Some asked
        → judgement (F.content files.old) asked ≡ Some (Ok taken)
        → result ≢ 5 → result ≢ 6 → result ≢ 9
        → MustDo asked taken result
        (outside (F.tells files.old) (F.content files.old) (F.content files.new)
        (host_seen (H.told host.old) (H.asked host.old))
        (host_seen (H.told host.new) (H.asked host.new)) (O.told out.old) (O.told out.new)
        (E.told err.old) (E.told err.new)
        (W.tally workers.old) (W.tally workers.new)) }

    // A replay of a run that was done shows what the run showed.
    ensures replays { (earlier : List Text) (status : ℕ) (run : Outside)
        → WasDone earlier status run → IsReplayOf earlier run (map string_bytes words.now)
        (outside (F.tells files.old) (F.content files.old) (F.content files.new)
        (host_seen (H.told host.old) (H.asked host.old))
        (host_seen (H.told host.new) (H.asked host.new)) (O.told out.old) (O.told out.new)
        (E.told err.old) (E.told err.new)
        (W.tally workers.old) (W.tally workers.new))
        → result ≢ 5 → result ≢ 6 → result ≢ 9
        → ShowTheSame status run result
        (outside (F.tells files.old) (F.content files.old) (F.content files.new)
        (host_seen (H.told host.old) (H.asked host.old))
        (host_seen (H.told host.new) (H.asked host.new)) (O.told out.old) (O.told out.new)
        (E.told err.old) (E.told err.new)
        (W.tally workers.old) (W.tally workers.new)) }

    // A group that was saved, and is gone on with here by its log: both calls show together what a
    // replay of that log with those images showed.
    ensures joins { (log : Log) (images : List Image) (round status : ℕ) (to : Text)
        (save whole : Outside) → SavedRun log images round to save
        → HasReplayed log images status whole
        → IsResumeOf log to save (map string_bytes words.now)
        (outside (F.tells files.old) (F.content files.old) (F.content files.new)
        (host_seen (H.told host.old) (H.asked host.old))
        (host_seen (H.told host.new) (H.asked host.new)) (O.told out.old) (O.told out.new)
        (E.told err.old) (E.told err.new)
        (W.tally workers.old) (W.tally workers.new))
        → result ≢ 5 → result ≢ 6 → result ≢ 9
        → ShowTogether round status save whole result
        (outside (F.tells files.old) (F.content files.old) (F.content files.new)
        (host_seen (H.told host.old) (H.asked host.old))
        (host_seen (H.told host.new) (H.asked host.new)) (O.told out.old) (O.told out.new)
        (E.told err.old) (E.told err.new)
        (W.tally workers.old) (W.tally workers.new)) }

    ensures files_later { F.faults files.old ≤ F.faults files.new }
    ensures host_later { H.faults host.old ≤ H.faults host.new }
    ensures host_steady { result ≢ 5 → result ≢ 6 → H.faults host.new ≡ H.faults host.old }
    ensures out_later { O.faults out.old ≤ O.faults out.new }
    ensures err_later { E.faults err.old ≤ E.faults err.new }
    ensures out_steady { result ≢ 6 → O.faults out.new ≡ O.faults out.old }
    ensures err_steady { result ≢ 6 → E.faults err.new ≡ E.faults err.old }
    ensures fixed { W.fixed workers.new ≡ W.fixed workers.old }
{
    match command(alloc, words, files, host, out, err, workers) {
        Ok(ending) => ending_status(ending),
        Err(refusal) => put_refusal(refusal, err),
    }
}
