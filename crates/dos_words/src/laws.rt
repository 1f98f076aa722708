//! Laws of the words. The functions do nothing; their contracts are the laws.
ghost use Rattle.std.specs.Prelude.{◌≡◌, List, Some};
ghost use Rattle.dos_words.specs.declared.request.Request.{Request as Asked};
ghost use Rattle.dos_words.specs.Numbers.{Text};
ghost use Rattle.dos_words.specs.Request.{request};
ghost use Rattle.dos_words.specs.Ranges.{FitsRequest};

/// Whatever the words ask for is in its ranges.
pub fn requests_are_in_range()
    ensures { (words : List Text) (asked : Asked) → request words ≡ Some asked → FitsRequest asked }
{}
