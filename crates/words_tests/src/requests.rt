//! Requests of words.
use crate::checks::same_at;
use dos_words::{Names, Request, WordsError, read_words};
use std::alloc::{AllocError, Global};
use std::process::Abort;

fn words_of(alloc: Global, texts: &[&str]) -> Result<Vec<String>, AllocError> {
    let mut words = Vec::new(alloc);
    for text in texts {
        words.push(String::from_str(alloc, text)?)?;
    }
    Ok(words)
}

/// What these words ask for.
pub fn asked(alloc: Global, texts: &[&str]) -> Result<Request, WordsError> {
    let words = words_of(alloc, texts)?;
    read_words(alloc, &words)
}

/// These words ask for nothing.
pub fn check_refused(rt: &impl Abort, alloc: Global, texts: &[&str]) {
    same_at(
        rt,
        asked(alloc, texts).err(),
        Some(WordsError::Refused),
        texts,
    );
}

/// In place of the first reading of a clock that isn't given.
pub const NO_CLOCK: u64 = 77;

/// The quantum, the rounds, the frames, the workers, the clock's step and its first reading where
/// no option gives them.
pub const DEFAULTS: [u64; 6] = [1000, 100000, 4096, 4, 1, NO_CLOCK];

/// The same numbers of a run, else none.
pub fn numbers(request: &Request) -> Option<[u64; 6]> {
    match request {
        Request::Run {
            quantum,
            rounds,
            frames,
            workers,
            clock_from,
            clock_step,
            ..
        } => Some([
            u64::from(*quantum),
            u64::from(*rounds),
            u64::from(*frames),
            u64::from(*workers),
            *clock_step,
            clock_from.unwrap_or(NO_CLOCK),
        ]),
        _ => None,
    }
}

/// Whether these are the names.
pub fn are_names(names: &Names, wanted: &[&str]) -> bool {
    for index in 0..names.len() {
        if wanted.get(index) != Some(&names.at(index)) {
            return false;
        }
    }
    names.len() == wanted.len()
}

/// Whether a run has this log and these names.
pub fn has_names(request: &Request, log_wanted: &str, names_wanted: &[&str]) -> bool {
    match request {
        Request::Run { log, names, .. } => {
            log.as_str() == log_wanted && are_names(names, names_wanted)
        }
        _ => false,
    }
}

/// Whether these words ask for a run with this log and these names.
pub fn runs(alloc: Global, texts: &[&str], log: &str, names: &[&str]) -> bool {
    match asked(alloc, texts) {
        Ok(request) => has_names(&request, log, names),
        Err(_) => false,
    }
}
