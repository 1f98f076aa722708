// One level: words of 64 bits. Bit k of a level is bit k % 64 of word k / 64.
ghost use Rattle.std.specs.Prelude.{◌≡◌, ◌/◌, ◌^◌, ◌<◌, ◌==◌, length, position, slice_index};
ghost use Rattle.std.specs.Prelude.{IfSome};
ghost use Rattle.hierarchical_bitmap.specs.Levels.{is_set, AreZeroBelow, IsLowest, with_place};
ghost use Rattle.hierarchical_bitmap.specs.Levels.{without_place};

pub fn set_bit(words: &mut Vec<u64>, place: usize)
    requires { place / 64 < length words.old.items }
    ensures { words.new.items ≡ with_place words.old.items place }
{
    words[place / 64] |= 1 << (place % 64);
}

/// Clears the bit, and says whether its word is 0 now.
pub fn clear_bit(words: &mut Vec<u64>, place: usize) -> bool
    requires { place / 64 < length words.old.items }
    ensures cleared { words.new.items ≡ without_place words.old.items place }
    ensures zero { result ≡ (slice_index words.new.items (place / 64) == 0) }
{
    words[place / 64] &= !(1 << (place % 64));
    words[place / 64] == 0
}

/// The lowest bit that is set, in the first word that isn't 0.
pub fn lowest_in(words: &[u64], index: usize) -> usize
    requires few { index < 2 ^ 32 }
    requires some { 0 < slice_index words.now index }
    requires below { AreZeroBelow words.now index }
    ensures { IsLowest words.now result }
{
    index * 64 + words[index].trailing_zeros() as usize
}

/// The first word that isn't 0.
pub fn first_word(words: &[u64]) -> Option<usize>
    ensures { result ≡ position is_set words.now }
{
    words.iter().position(is_set)
}

fn is_set(word: &u64) -> bool
    ensures { result ≡ is_set word.now }
{
    *word != 0
}
