//! Words that are names alone.
ghost use Rattle.std.specs.Prelude.{◌≡◌, map, string_bytes};
ghost use Rattle.std.specs.List.{list_all};
ghost use Rattle.dos_words.specs.Canonical.{is_plain, names_alone};
ghost use Rattle.dos_words.specs.Reads.{Reads};

use crate::error::WordsError;
use crate::request::Names;
use std::alloc::Global;

/// Whether a word may be a name: it isn't empty, and doesn't begin with `-`.
fn is_name(word: &str) -> bool
    ensures { result ≡ is_plain word.now }
{
    match word.as_bytes().first() {
        None => false,
        Some(first) => *first != b'-',
    }
}

/// Whether each of them may be a name.
fn are_names(words: &[String]) -> bool
    ensures { result ≡ list_all is_plain (map string_bytes words.now) }
{
    for word in words {
        if !is_name(word.as_str()) {
            return false;
        }
    }
    true
}

/// The names that the words are, where they are one to eight names and nothing else.
pub fn read_names(alloc: Global, words: &[String]) -> Result<Names, WordsError>
    ensures { Reads result (names_alone (map string_bytes words.now)) }
{
    if !are_names(words) {
        return Err(WordsError::Refused);
    }
    if words.is_empty() {
        return Err(WordsError::Refused);
    }
    if words.len() > 8 {
        return Err(WordsError::Refused);
    }
    let names = Names::of_words(alloc, words)?;
    Ok(names)
}
