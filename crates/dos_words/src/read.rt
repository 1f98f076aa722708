//! The words read: what `clap` finds in them, by the program's own ranges.
ghost use Rattle.std.specs.Prelude.{◌≡◌, ◌≢◌, List, map, length, nat_lt, option_map};
ghost use Rattle.std.specs.Prelude.{option_and_then};
ghost use Rattle.std.specs.Prelude.{string_bytes, codes};
ghost use Rattle.clap.specs.Words.{app_of, kind_of, rows_of, found_of, subcommand_rows_of};
ghost use Rattle.dos_words.specs.Numbers.{number_within};
ghost use Rattle.dos_words.specs.Asked.{most_u64, number_or, number_if_given, posts_or_none};
ghost use Rattle.dos_words.specs.Asked.{images_of, run_asked, replay_asked, inspect_asked};
ghost use Rattle.dos_words.specs.Asked.{gen_asked, migrate_asked, resume_asked, save_asked};
ghost use Rattle.dos_words.specs.Asked.{debug_asked, trace_asked, scheme_named, scheme_of};
ghost use Rattle.dos_words.specs.Clap.{words_app, asked_by, clap_request};
ghost use Rattle.dos_words.specs.Request.{request};
ghost use Rattle.dos_words.specs.Reads.{Reads, Takes, values_found, names_given, names_found};
ghost use Rattle.dos_words.specs.RunParts.{limits_asked, clock_asked, files_asked};

use crate::command::words_command;
use crate::error::WordsError;
use crate::number::{number_within, small_within};
use crate::posts::read_posts;
use crate::request::{Names, Posts, Request, Text};
use clap::error::ErrorKind;
use clap::{ArgMatches, Command, Error};
use dos_world::Scheme;
use std::alloc::Global;

/// The value of an option, if it is given.
fn value_of<'a>(matches: &ArgMatches<'a>, name: &str) -> Option<&'a str>
    ensures { option_map (λ s. s.now) result ≡ values_found matches.now name.now }
{
    matches.get_str(name)
}

/// The names behind the options, if there are any.
fn names_of<'m>(matches: &'m ArgMatches<'_>) -> Option<&'m [&'m str]>
    ensures { option_map (λ names. map (λ s. s.now) names.now) result ≡ names_given matches.now }
{
    matches.get_raw("names")
}

/// An option's number in its range, or the default where it isn't given.
fn number_of(matches: &ArgMatches<'_>, name: &str, low: u32, high: u32, default: u32) -> Option<u32>
    ensures { result ≡ number_or (values_found matches.now name.now) low high default }
{
    match value_of(matches, name) {
        None => Some(default),
        Some(text) => small_within(low, high, text),
    }
}

/// The scheme of this name.
fn scheme_named(name: &str) -> Option<Scheme>
    ensures { result ≡ scheme_named name.now }
{
    if name == "ownership" {
        return Some(Scheme::Ownership);
    }
    if name == "buffered" {
        return Some(Scheme::Buffered);
    }
    None
}

/// The scheme that is named, or that of ownership where none is.
fn scheme_of(matches: &ArgMatches<'_>) -> Option<Scheme>
    ensures { result ≡ scheme_of (values_found matches.now) }
{
    match value_of(matches, "scheme") {
        None => Some(Scheme::Ownership),
        Some(name) => scheme_named(name),
    }
}

/// What a counted clock goes on by.
fn clock_step_of(matches: &ArgMatches<'_>) -> Option<u64>
    ensures { result ≡ number_or (values_found matches.now (codes "clock-step")) 0 most_u64 1 }
{
    match value_of(matches, "clock-step") {
        None => Some(1),
        Some(text) => number_within(0, u64::MAX, text),
    }
}

/// The first reading of a counted clock, if it is given.
fn clock_from_of(matches: &ArgMatches<'_>) -> Option<Option<u64>>
    ensures { result
        ≡ number_if_given (values_found matches.now (codes "clock-from")) 0 most_u64 }
{
    match value_of(matches, "clock-from") {
        None => Some(None),
        Some(text) => match number_within(0, u64::MAX, text) {
            None => None,
            Some(number) => Some(Some(number)),
        },
    }
}

/// The posts, or none where they aren't given.
fn posts_of(alloc: Global, matches: &ArgMatches<'_>) -> Result<Posts, WordsError>
    ensures { Reads result (posts_or_none (values_found matches.now (codes "signals"))) }
{
    match value_of(matches, "signals") {
        None => Ok(Posts::none(alloc)),
        Some(text) => read_posts(alloc, text),
    }
}

/// The names of one to eight images.
fn images_of(alloc: Global, matches: &ArgMatches<'_>) -> Result<Names, WordsError>
    ensures { Reads result (images_of (names_found matches.now)) }
{
    let Some(names) = names_of(matches) else {
        return Err(WordsError::Refused);
    };
    if names.is_empty() {
        return Err(WordsError::Refused);
    }
    if names.len() > 8 {
        return Err(WordsError::Refused);
    }
    let images = Names::copy_of(alloc, names)?;
    Ok(images)
}

/// The text of an option that must be given.
fn text_of(alloc: Global, matches: &ArgMatches<'_>, name: &str) -> Result<Text, WordsError>
    ensures { Reads result (values_found matches.now name.now) }
{
    match value_of(matches, name) {
        None => Err(WordsError::Refused),
        Some(text) => {
            let text = Text::copy_of(alloc, text)?;
            Ok(text)
        }
    }
}

/// How far a run goes, each number in its range.
#[derive(Clone, Copy)]
struct Limits {
    quantum: u32,
    rounds: u32,
    frames: u32,
    workers: u32,
}

/// The limits of a run.
fn limits_of(matches: &ArgMatches<'_>) -> Option<Limits>
    ensures { result ≡ limits_asked (values_found matches.now) }
{
    let Some(quantum) = number_of(matches, "quantum", 16, 65536, 1000) else {
        return None;
    };
    let Some(rounds) = number_of(matches, "rounds", 1, 1000000, 100000) else {
        return None;
    };
    let Some(frames) = number_of(matches, "frames", 16, 16384, 4096) else {
        return None;
    };
    let Some(workers) = number_of(matches, "workers", 1, 32, 4) else {
        return None;
    };
    Some(Limits {
        quantum,
        rounds,
        frames,
        workers,
    })
}

/// The first reading of a counted clock, if it is given, and what the clock goes on by.
fn clock_of(matches: &ArgMatches<'_>) -> Option<(Option<u64>, u64)>
    ensures { result ≡ clock_asked (values_found matches.now) }
{
    let Some(from) = clock_from_of(matches) else {
        return None;
    };
    let Some(step) = clock_step_of(matches) else {
        return None;
    };
    Some((from, step))
}

/// The file of the log, and those of the images.
fn files_of(alloc: Global, matches: &ArgMatches<'_>) -> Result<(Text, Names), WordsError>
    ensures { Reads result (files_asked (values_found matches.now) (names_found matches.now)) }
{
    let log = text_of(alloc, matches, "log")?;
    let names = images_of(alloc, matches)?;
    Ok((log, names))
}

/// What `run` asks for.
fn read_run(alloc: Global, matches: &ArgMatches<'_>) -> Result<Request, WordsError>
    ensures { Reads result (run_asked (values_found matches.now) (names_found matches.now)) }
{
    let Some(limits) = limits_of(matches) else {
        return Err(WordsError::Refused);
    };
    let Some(scheme) = scheme_of(matches) else {
        return Err(WordsError::Refused);
    };
    let Some((clock_from, clock_step)) = clock_of(matches) else {
        return Err(WordsError::Refused);
    };
    let posts = posts_of(alloc, matches)?;
    let (log, names) = files_of(alloc, matches)?;
    Ok(Request::Run {
        quantum: limits.quantum,
        rounds: limits.rounds,
        frames: limits.frames,
        workers: limits.workers,
        scheme,
        posts,
        clock_from,
        clock_step,
        log,
        names,
    })
}

/// What `replay` asks for.
fn read_replay(alloc: Global, matches: &ArgMatches<'_>) -> Result<Request, WordsError>
    ensures { Reads result (replay_asked (values_found matches.now) (names_found matches.now)) }
{
    let Some(workers) = number_of(matches, "workers", 1, 32, 4) else {
        return Err(WordsError::Refused);
    };
    let Some(scheme) = scheme_of(matches) else {
        return Err(WordsError::Refused);
    };
    let (log, names) = files_of(alloc, matches)?;
    Ok(Request::Replay {
        workers,
        scheme,
        log,
        names,
    })
}

/// What `trace` asks for.
fn read_trace(alloc: Global, matches: &ArgMatches<'_>) -> Result<Request, WordsError>
    ensures { Reads result (trace_asked (values_found matches.now) (names_found matches.now)) }
{
    let Some(workers) = number_of(matches, "workers", 1, 32, 4) else {
        return Err(WordsError::Refused);
    };
    let (log, names) = files_of(alloc, matches)?;
    Ok(Request::Trace {
        workers,
        log,
        names,
    })
}

/// What `debug` asks for.
fn read_debug(alloc: Global, matches: &ArgMatches<'_>) -> Result<Request, WordsError>
    ensures { Reads result (debug_asked (values_found matches.now) (names_found matches.now)) }
{
    let Some(workers) = number_of(matches, "workers", 1, 32, 4) else {
        return Err(WordsError::Refused);
    };
    let (log, names) = files_of(alloc, matches)?;
    Ok(Request::Debug {
        workers,
        log,
        names,
    })
}

/// What `inspect` asks for.
fn read_inspect(alloc: Global, matches: &ArgMatches<'_>) -> Result<Request, WordsError>
    ensures { Reads result (inspect_asked (values_found matches.now) (names_found matches.now)) }
{
    let Some(names) = names_of(matches) else {
        return Err(WordsError::Refused);
    };
    match names {
        [name] => {
            let name = Text::copy_of(alloc, name)?;
            Ok(Request::Inspect { name })
        }
        [] => Err(WordsError::Refused),
        [_, _, ..] => Err(WordsError::Refused),
    }
}

/// A number that must be given.
fn needed_number(matches: &ArgMatches<'_>, name: &str, low: u32, high: u32) -> Option<u32>
    ensures { result
        ≡ option_and_then (number_within low high) (values_found matches.now name.now) }
{
    match value_of(matches, name) {
        None => None,
        Some(text) => small_within(low, high, text),
    }
}

/// Whether names stand behind the options.
fn has_names(matches: &ArgMatches<'_>) -> bool
    ensures { result ≡ nat_lt 0 (length (names_found matches.now)) }
{
    match names_of(matches) {
        None => false,
        Some(names) => !names.is_empty(),
    }
}

/// What `gen` asks for.
fn read_gen(matches: &ArgMatches<'_>) -> Result<Request, WordsError>
    ensures { Reads result (gen_asked (values_found matches.now) (names_found matches.now)) }
{
    if has_names(matches) {
        return Err(WordsError::Refused);
    }
    let Some(number) = needed_number(matches, "number", 0, 4294967295) else {
        return Err(WordsError::Refused);
    };
    let Some(threads) = needed_number(matches, "threads", 1, 32) else {
        return Err(WordsError::Refused);
    };
    let Some(workers) = number_of(matches, "workers", 1, 32, 4) else {
        return Err(WordsError::Refused);
    };
    Ok(Request::Gen {
        number,
        threads,
        workers,
    })
}

/// What `migrate` asks for.
fn read_migrate(alloc: Global, matches: &ArgMatches<'_>) -> Result<Request, WordsError>
    ensures { Reads result (migrate_asked (values_found matches.now) (names_found matches.now)) }
{
    if has_names(matches) {
        return Err(WordsError::Refused);
    }
    let log = text_of(alloc, matches, "log")?;
    let to = text_of(alloc, matches, "to")?;
    Ok(Request::Migrate { log, to })
}

/// What `save` asks for.
fn read_save(alloc: Global, matches: &ArgMatches<'_>) -> Result<Request, WordsError>
    ensures { Reads result (save_asked (values_found matches.now) (names_found matches.now)) }
{
    let Some(workers) = number_of(matches, "workers", 1, 32, 4) else {
        return Err(WordsError::Refused);
    };
    let log = text_of(alloc, matches, "log")?;
    let Some(round) = needed_number(matches, "round", 1, 1000000) else {
        return Err(WordsError::Refused);
    };
    let to = text_of(alloc, matches, "to")?;
    let names = images_of(alloc, matches)?;
    Ok(Request::Save {
        workers,
        log,
        round,
        to,
        names,
    })
}

/// What `resume` asks for.
fn read_resume(alloc: Global, matches: &ArgMatches<'_>) -> Result<Request, WordsError>
    ensures { Reads result (resume_asked (values_found matches.now) (names_found matches.now)) }
{
    if has_names(matches) {
        return Err(WordsError::Refused);
    }
    let Some(workers) = number_of(matches, "workers", 1, 32, 4) else {
        return Err(WordsError::Refused);
    };
    let log = text_of(alloc, matches, "log")?;
    let from = text_of(alloc, matches, "from")?;
    Ok(Request::Resume { workers, log, from })
}

/// What the command asks for, by its name.
fn read_command(alloc: Global, name: &str, matches: &ArgMatches<'_>) -> Result<Request, WordsError>
    ensures { Reads result (asked_by (name.now, rows_of (found_of matches.now))) }
{
    if name == "run" {
        return read_run(alloc, matches);
    }
    if name == "replay" {
        return read_replay(alloc, matches);
    }
    if name == "inspect" {
        return read_inspect(alloc, matches);
    }
    if name == "gen" {
        return read_gen(matches);
    }
    if name == "migrate" {
        return read_migrate(alloc, matches);
    }
    if name == "trace" {
        return read_trace(alloc, matches);
    }
    if name == "save" {
        return read_save(alloc, matches);
    }
    if name == "resume" {
        return read_resume(alloc, matches);
    }
    if name == "debug" {
        return read_debug(alloc, matches);
    }
    Err(WordsError::Refused)
}

/// What the command asks for that `clap` entered, if it entered one.
fn read_found(alloc: Global, matches: &ArgMatches<'_>) -> Result<Request, WordsError>
    ensures { Reads result (option_and_then asked_by (subcommand_rows_of matches.now)) }
{
    match matches.subcommand() {
        None => Err(WordsError::Refused),
        Some((name, found)) => read_command(alloc, name, found),
    }
}

/// Why there is no request where `clap` has this error.
fn refusal_of(e: Error) -> WordsError
    ensures { result ≡ WordsError.Refused → kind_of e ≢ ErrorKind.OutOfMemory }
{
    match e.kind() {
        ErrorKind::OutOfMemory => WordsError::Memory,
        _ => WordsError::Refused,
    }
}

/// What `clap` finds in the words by these commands, or why it takes none of them.
fn taken<'a>(command: Command<'a>, words: &'a [String]) -> Result<ArgMatches<'a>, WordsError>
    ensures { app_of command.entry ≡ words_app → Takes result (map string_bytes words.now) }
{
    match command.try_get_matches_from(words) {
        Err(e) => Err(refusal_of(e)),
        Ok(matches) => Ok(matches),
    }
}

/// What `clap` takes of the words by these commands.
fn read_taken<'a>(
    alloc: Global,
    command: Command<'a>,
    words: &'a [String],
) -> Result<Request, WordsError>
    ensures { app_of command.entry ≡ words_app
        → Reads result (clap_request (map string_bytes words.now)) }
{
    match taken(command, words) {
        Err(error) => Err(error),
        Ok(matches) => read_found(alloc, &matches),
    }
}

/// What `clap` takes of the words.
fn read_by_clap(alloc: Global, words: &[String]) -> Result<Request, WordsError>
    ensures { Reads result (clap_request (map string_bytes words.now)) }
{
    let command = words_command(alloc)?;
    read_taken(alloc, command, words)
}

/// What the words ask for. They are without the program's name.
///
/// Canonical words are a command, then its options in any order, each at most once as the two
/// words `--name value`, and then the names; no value or name is empty or begins with `-`. Other
/// words mean what `clap` makes of the same commands. The ranges are those of `Request`.
///
/// # Errors
///
/// `Refused` where the words ask for nothing, help and version among them. `Memory` for want of
/// memory; nothing is said of the words then.
pub fn read_words(alloc: Global, words: &[String]) -> Result<Request, WordsError>
    ensures { Reads result (request (map string_bytes words.now)) }
{
    read_by_clap(alloc, words)
}
