// What the words ask for, or that they are refused.
ghost use Rattle.std.specs.Prelude.{◌≡◌, ◌⊎◌, IfOk, IfErr, IsErrOf, map, None, Some, string_bytes};
ghost use Rattle.dos_words.specs.Ranges.{FitsRequest};
ghost use Rattle.dos_words.specs.Request.{request};

use dos_texts::Refusal;
use dos_words::{Request, WordsError, read_words};
use std::alloc::Global;

/// What the words ask for. Its numbers are in range.
pub(crate) fn read_request(alloc: Global, words: &[String]) -> Result<Request, Refusal>
    ensures asked { IfOk result (λ asked. request (map string_bytes words.now) ≡ Some asked) }
    ensures range { IfOk result FitsRequest }
    ensures refused { IsErrOf result Refusal.Words
        → request (map string_bytes words.now) ≡ None }
    ensures only { IfErr result (λ why. (why ≡ Refusal.Words) ⊎ (why ≡ Refusal.Memory)) }
{
    match read_words(alloc, words) {
        Ok(request) => Ok(request),
        Err(WordsError::Refused) => Err(Refusal::Words),
        Err(WordsError::Memory) => Err(Refusal::Memory),
    }
}
