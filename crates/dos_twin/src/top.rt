//! The top call: from the words to the exit status.
ghost use Rattle.std.specs.Prelude.{◌≡◌, ◌≢◌, ◌≤◌, ◌⊎◌, [], None, Some, Ok, Err, IfOk, IfErr};
ghost use Rattle.std.specs.Prelude.{List, map, string_bytes};
ghost use Rattle.dos_texts.specs.Exit.{IsStatus, ending_status, refusal_status};
ghost use Rattle.dos_words.specs.Canonical.{names_alone};
ghost use Rattle.dos_words.specs.Numbers.{Text};
ghost use Rattle.elf_image.specs.Image.{Image};
ghost use Rattle.dos_twin.specs.TwinImages.{twin_images};
ghost use Rattle.dos_twin.specs.TwinLeaves.{DidTwin, TwinCutShort, TwinDone, TwinFails};
ghost use Rattle.dos_twin.specs.TwinLeaves.{TwinRefused};
ghost use Rattle.dos_twin.specs.TwinOutside.{twin_faults, twin_outside};

use crate::opening::{open_named, read};
use crate::running::run_opened;
use dos_io::{Files, Host, Sink};
use dos_texts::{Refusal, ending_status, put_refusal};
use dos_world::Ending;
use std::alloc::Global;
use std::sync::Wait;
use std::thread::Threads;
use worker_pool::Workers;

/// How many threads of a leader run its packs.
const WORKERS: u32 = 2;

// does what the words ask for
fn twin<
    R: Threads + Wait + Sync,
    F: Files,
    H: Host,
    O: Sink,
    E: Sink,
    P: Sink + Send,
    Q: Sink + Send,
    W: Workers,
>(
    rt: &R,
    alloc: Global,
    words: &[String],
    files: &mut F,
    host: &mut H,
    out: &mut O,
    err: &mut E,
    second_out: &mut P,
    second_err: &mut Q,
    workers: &mut W,
) -> Result<Ending, Refusal>
    ensures finished { IfOk result (λ ending. TwinDone (map string_bytes words.now)
        (ending_status ending)
        (twin_outside (F.content files.old) (F.content files.new) (H.told host.old)
        (H.told host.new) (O.told out.old) (O.told out.new) (E.told err.old) (E.told err.new)
        (P.told second_out.old) (P.told second_out.new) (Q.told second_err.old)
        (Q.told second_err.new) (W.tally workers.old) (W.tally workers.new))) }
    ensures fails { IfErr result (λ why. TwinFails (map string_bytes words.now)
        (twin_outside (F.content files.old) (F.content files.new) (H.told host.old)
        (H.told host.new) (O.told out.old) (O.told out.new) (E.told err.old) (E.told err.new)
        (P.told second_out.old) (P.told second_out.new) (Q.told second_err.old)
        (Q.told second_err.new) (W.tally workers.old) (W.tally workers.new))
        (twin_faults (F.faults files.old) (F.faults files.new) (H.faults host.old)
        (H.faults host.new) (O.faults out.old) (O.faults out.new) (E.faults err.old)
        (E.faults err.new) (P.faults second_out.old) (P.faults second_out.new)
        (Q.faults second_err.old) (Q.faults second_err.new)) why []) }
    ensures files_later { F.faults files.old ≤ F.faults files.new }
    ensures host_later { H.faults host.old ≤ H.faults host.new }
    ensures out_later { O.faults out.old ≤ O.faults out.new }
    ensures err_later { E.faults err.old ≤ E.faults err.new }
    ensures second_out_later { P.faults second_out.old ≤ P.faults second_out.new }
    ensures second_err_later { Q.faults second_err.old ≤ Q.faults second_err.new }
    ensures out_steady { result ≢ Err Refusal.Sink → O.faults out.new ≡ O.faults out.old }
    ensures err_steady { result ≢ Err Refusal.Sink → E.faults err.new ≡ E.faults err.old }
    ensures second_out_steady { result ≢ Err Refusal.Sink
        → P.faults second_out.new ≡ P.faults second_out.old }
    ensures second_err_steady { result ≢ Err Refusal.Sink
        → Q.faults second_err.new ≡ Q.faults second_err.old }
    ensures files_stay { (name : Text) → F.content files.new name ≡ F.content files.old name }
    ensures fixed { W.fixed workers.new ≡ W.fixed workers.old }
{
    let names = read(alloc, words)?;
    let (first, second) = open_named(alloc, &names, files)?;
    drop(names);
    workers.hire(WORKERS);
    run_opened(
        rt, alloc, first, second, host, out, err, second_out, second_err, workers,
    )
}

/// Runs the images of 1 to 8 files over a host, and beside that, in a thread of its own, the same
/// images by what the first run is told; puts the first one's report to `err`, and answers the exit
/// status.
///
/// The words are the names alone. Both sides run with a quantum of 1000, 100000 rounds, 4096
/// frames, no signals and the host's clock; each has two workers. Before they start it is tried
/// whether a thread can be had: without one the leader would wait for ever.
///
/// | Status | Comes |
/// |---|---|
/// | 0, 7, 8 | as of a run: both sides came to this end and put the same bytes |
/// | 2 | exactly where the words aren't one to eight names |
/// | 3 | exactly where an image is longer than 4194304 bytes or refused, or there is no room |
/// | 5 | only where the count of `files` or of `host` rose |
/// | 6 | exactly where a put to one of the four outputs failed |
/// | 9 | only for want of memory, or where no thread can be started |
///
/// A put that fails gives 6 in place of any other status. Each "exactly" yields to 5, 6 and 9. With
/// 2, 3, 5 and 9 `err` grows by one line behind what the run has put by then, without a report.
/// Each side waits for the other, so the clauses say what holds where the call returns.
pub fn twin_main<
    R: Threads + Wait + Sync,
    F: Files,
    H: Host,
    O: Sink,
    E: Sink,
    P: Sink + Send,
    Q: Sink + Send,
    W: Workers,
>(
    rt: &R,
    alloc: Global,
    words: &[String],
    files: &mut F,
    host: &mut H,
    out: &mut O,
    err: &mut E,
    second_out: &mut P,
    second_err: &mut Q,
    workers: &mut W,
) -> u8
    ensures statuses { IsStatus result }
    ensures never { (result ≢ 4) × (result ≢ 10) }

    // Both sides ran the images that the files are, to the same end, and put the same bytes.
    ensures finished { (result ≡ 0) ⊎ (result ≡ 7) ⊎ (result ≡ 8)
        → TwinDone (map string_bytes words.now) result
        (twin_outside (F.content files.old) (F.content files.new) (H.told host.old)
        (H.told host.new) (O.told out.old) (O.told out.new) (E.told err.old) (E.told err.new)
        (P.told second_out.old) (P.told second_out.new) (Q.told second_err.old)
        (Q.told second_err.new) (W.tally workers.old) (W.tally workers.new)) }

    // They didn't, for a reason that the status and the one line tell.
    ensures refused { result ≢ 0 → result ≢ 6 → result ≢ 7 → result ≢ 8
        → TwinRefused (map string_bytes words.now) result
        (twin_outside (F.content files.old) (F.content files.new) (H.told host.old)
        (H.told host.new) (O.told out.old) (O.told out.new) (E.told err.old) (E.told err.new)
        (P.told second_out.old) (P.told second_out.new) (Q.told second_err.old)
        (Q.told second_err.new) (W.tally workers.old) (W.tally workers.new))
        (twin_faults (F.faults files.old) (F.faults files.new) (H.faults host.old)
        (H.faults host.new) (O.faults out.old) (O.faults out.new) (E.faults err.old)
        (E.faults err.new) (P.faults second_out.old) (P.faults second_out.new)
        (Q.faults second_err.old) (Q.faults second_err.new)) }

    // One of the four outputs failed.
    ensures six { result ≡ 6 → TwinCutShort (map string_bytes words.now)
        (twin_outside (F.content files.old) (F.content files.new) (H.told host.old)
        (H.told host.new) (O.told out.old) (O.told out.new) (E.told err.old) (E.told err.new)
        (P.told second_out.old) (P.told second_out.new) (Q.told second_err.old)
        (Q.told second_err.new) (W.tally workers.old) (W.tally workers.new))
        (twin_faults (F.faults files.old) (F.faults files.new) (H.faults host.old)
        (H.faults host.new) (O.faults out.old) (O.faults out.new) (E.faults err.old)
        (E.faults err.new) (P.faults second_out.old) (P.faults second_out.new)
        (Q.faults second_err.old) (Q.faults second_err.new)) }

    // What must come, where nothing fails and memory is there.
    ensures words_refused { names_alone (map string_bytes words.now) ≡ None → result ≢ 6
        → result ≢ 9 → result ≡ 2 }
    ensures files_refused { (names : List Text) (why : Refusal)
        → names_alone (map string_bytes words.now) ≡ Some names
        → twin_images (F.content files.old) names ≡ Some (Err why)
        → result ≢ 5 → result ≢ 6 → result ≢ 9 → result ≡ refusal_status why }
    ensures done { (names : List Text) (images : List Image)
        → names_alone (map string_bytes words.now) ≡ Some names
        → twin_images (F.content files.old) names ≡ Some (Ok images)
        → result ≢ 5 → result ≢ 6 → result ≢ 9 → DidTwin images result
        (twin_outside (F.content files.old) (F.content files.new) (H.told host.old)
        (H.told host.new) (O.told out.old) (O.told out.new) (E.told err.old) (E.told err.new)
        (P.told second_out.old) (P.told second_out.new) (Q.told second_err.old)
        (Q.told second_err.new) (W.tally workers.old) (W.tally workers.new)) }

    ensures files_later { F.faults files.old ≤ F.faults files.new }
    ensures host_later { H.faults host.old ≤ H.faults host.new }
    ensures out_later { O.faults out.old ≤ O.faults out.new }
    ensures err_later { E.faults err.old ≤ E.faults err.new }
    ensures second_out_later { P.faults second_out.old ≤ P.faults second_out.new }
    ensures second_err_later { Q.faults second_err.old ≤ Q.faults second_err.new }
    ensures out_steady { result ≢ 6 → O.faults out.new ≡ O.faults out.old }
    ensures err_steady { result ≢ 6 → E.faults err.new ≡ E.faults err.old }
    ensures second_out_steady { result ≢ 6
        → P.faults second_out.new ≡ P.faults second_out.old }
    ensures second_err_steady { result ≢ 6
        → Q.faults second_err.new ≡ Q.faults second_err.old }
    ensures files_stay { (name : Text) → F.content files.new name ≡ F.content files.old name }
    ensures fixed { W.fixed workers.new ≡ W.fixed workers.old }
{
    match twin(
        rt, alloc, words, files, host, out, err, second_out, second_err, workers,
    ) {
        Ok(ending) => ending_status(ending),
        Err(refusal) => put_refusal(refusal, err),
    }
}
