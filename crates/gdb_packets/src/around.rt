//! What stands around a separator.
ghost use Rattle.std.specs.Prelude.{◌≡◌, position, MatchOption, Some, None, [], ◌∷◌};
ghost use Rattle.gdb_packets.specs.Around.{around, is_mark, between_marks};
ghost use Rattle.std.specs.Option.{option_map_or};

/// Where the first mark stands.
fn place_of(text: &[u8], mark: u8) -> Option<usize>
    ensures { result ≡ position (is_mark mark) text.now }
{
    text.iter().position(|byte| *byte == mark)
}

/// What stands before the first mark, and what behind it.
pub fn around(text: &[u8], mark: u8) -> Option<(&[u8], &[u8])>
    ensures { MatchOption result (around mark text.now ≡ None)
        (λ x. around mark text.now ≡ Some (x.0.now, x.1.now)) }
{
    let Some(place) = place_of(text, mark) else {
        return None;
    };
    Some((&text[..place], &text[place + 1..]))
}

/// The part before the first mark, and what is behind it.
pub(crate) fn first_part(text: &[u8], mark: u8) -> (&[u8], Option<&[u8]>)
    ensures { between_marks mark text.now ≡ result.0.now
        ∷ option_map_or (λ rest. between_marks mark rest.now) result.1 [] }
{
    match around(text, mark) {
        None => (text, None),
        Some((part, rest)) => (part, Some(rest)),
    }
}
