//! Bytes of a file or a text in an answer.
ghost use Rattle.std.specs.Prelude.{◌≡◌, ◌≤◌, ◌<◌, ◌+◌, ◌*◌, ◌++◌, length, MatchOption, Some, None};
ghost use Rattle.std.specs.Prelude.{IfSome, ◌∷◌};
ghost use Rattle.arrayvec.specs.ArrayVec.{array_vec_len};
ghost use Rattle.gdb_packets.specs.Escapes.{must_escape, escaped_byte, escaped, in_front_of};
ghost use Rattle.gdb_packets.specs.Escapes.{unescaped};

use arrayvec::ArrayVec;

fn must_escape(byte: u8) -> bool
    ensures { result ≡ must_escape byte }
{
    matches!(byte, b'#' | b'$' | b'*' | b'}')
}

fn push_escaped_byte<const N: usize>(to: &mut ArrayVec<u8, N>, byte: u8)
    requires { array_vec_len to.old + 2 ≤ N }
    ensures items { to.new.items ≡ to.old.items ++ escaped_byte byte }
    ensures len { array_vec_len to.new ≤ array_vec_len to.old + 2 }
{
    if must_escape(byte) {
        to.push(b'}');
        to.push(byte ^ 32);
    } else {
        to.push(byte);
    }
}

/// Writes bytes with their escapes. There must be room for two for each.
pub fn push_escaped<const N: usize>(to: &mut ArrayVec<u8, N>, bytes: &[u8])
    requires { array_vec_len to.old + 2 * length bytes.now ≤ N }
    ensures items { to.new.items ≡ to.old.items ++ escaped bytes.now }
    ensures len { array_vec_len to.new ≤ array_vec_len to.old + 2 * length bytes.now }
{
    for byte in bytes {
        push_escaped_byte(to, *byte);
    }
}

/// The first byte, and what is sent behind it.
fn unescape_first(first: u8, rest: &[u8]) -> Option<(u8, &[u8])>
    ensures value { MatchOption result (unescaped (first ∷ rest.now) ≡ None)
        (λ x. unescaped (first ∷ rest.now) ≡ in_front_of x.0 (unescaped x.1.now)) }
    ensures len { IfSome result (λ x. length x.1.now ≤ length rest.now) }
{
    if first != b'}' {
        return Some((first, rest));
    }
    match rest {
        [] => None,
        [second, behind @ ..] => Some((*second ^ 32, behind)),
    }
}

/// The bytes that are sent with escapes. There must be room for all of them.
pub fn read_escaped<const N: usize>(text: &[u8]) -> Option<ArrayVec<u8, N>>
    requires { length text.now ≤ N }
    ensures { MatchOption result (unescaped text.now ≡ None)
        (λ v. unescaped text.now ≡ Some v.items) }
{
    let mut bytes = ArrayVec::new();
    let mut text = text;
    while let [first, rest @ ..] = text {
        let Some((byte, rest)) = unescape_first(*first, rest) else {
            return None;
        };
        bytes.push(byte);
        text = rest;
    }
    Some(bytes)
}
