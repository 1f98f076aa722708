//! Numbers and bytes in hexadecimal digits.
ghost use Rattle.std.specs.Prelude.{◌≡◌, ◌≤◌, ◌<◌, ◌+◌, ◌*◌, ◌^◌, ◌++◌, length, IfSome};
ghost use Rattle.std.specs.Prelude.{MatchOption, Some, None};
ghost use Rattle.arrayvec.specs.ArrayVec.{array_vec_len};
ghost use Rattle.gdb_packets.specs.Hexadecimal.{nibble_of, nibble_text, nibbles_behind};
ghost use Rattle.gdb_packets.specs.Hexadecimal.{number_from, nibbles, number_digits};
ghost use Rattle.gdb_packets.specs.Hexadecimal.{byte_digits, bytes_digits, bytes_from};

use arrayvec::ArrayVec;

/// What a digit of either case stands for.
fn nibble_of(c: u8) -> Option<u8>
    ensures value { result ≡ nibble_of c }
    ensures small { IfSome result (λ d. d < 16) }
{
    match c {
        b'0'..=b'9' => Some(c - 48),
        b'A'..=b'F' => Some(c - 55),
        b'a'..=b'f' => Some(c - 87),
        _ => None,
    }
}

/// What at most eight digits stand for.
pub(crate) fn nibbles_value(text: &[u8]) -> Option<u32>
    requires { length text.now ≤ 8 }
    ensures value { result ≡ nibbles_behind 0 text.now }
    ensures bound { IfSome result (λ n. n < 16 ^ length text.now) }
{
    let mut value: u32 = 0;
    for c in text {
        let Some(digit) = nibble_of(*c) else {
            return None;
        };
        value = value * 16 + u32::from(digit);
    }
    Some(value)
}

/// The number of one to eight digits.
pub fn read_number(text: &[u8]) -> Option<u32>
    ensures { result ≡ number_from text.now }
{
    if text.is_empty() {
        return None;
    }
    if text.len() > 8 {
        return None;
    }
    nibbles_value(text)
}

fn nibble_text(value: u32) -> u8
    requires { value < 16 }
    ensures { result ≡ nibble_text value }
{
    let value = value as u8;
    if value < 10 {
        b'0' + value
    } else {
        b'a' + (value - 10)
    }
}

#[tactic(auto, using(crate::proofs::Digits::nibbles_pushed))]
fn push_nibbles<const N: usize>(to: &mut ArrayVec<u8, N>, more: usize, value: u32)
    requires { array_vec_len to.old + more + 1 ≤ N }
    ensures items { to.new.items ≡ to.old.items ++ nibbles more value }
    ensures len { array_vec_len to.new ≤ array_vec_len to.old + more + 1 }
{
    if more == 0 {
        to.push(nibble_text(value % 16));
        return;
    }
    if value < 16 {
        to.push(nibble_text(value));
        return;
    }
    push_nibbles(to, more - 1, value / 16);
    to.push(nibble_text(value % 16));
}

/// Writes a number, without zeros in front. There must be room for eight digits.
#[tactic(auto, unfolding(crate::specs::Hexadecimal::number_digits))]
pub fn push_number<const N: usize>(to: &mut ArrayVec<u8, N>, value: u32)
    requires { array_vec_len to.old + 8 ≤ N }
    ensures items { to.new.items ≡ to.old.items ++ number_digits value }
    ensures len { array_vec_len to.new ≤ array_vec_len to.old + 8 }
{
    push_nibbles(to, 7, value);
}

/// Writes a byte, two digits. There must be room.
pub fn push_byte<const N: usize>(to: &mut ArrayVec<u8, N>, byte: u8)
    requires { array_vec_len to.old + 2 ≤ N }
    ensures items { to.new.items ≡ to.old.items ++ byte_digits byte }
    ensures len { array_vec_len to.new ≡ array_vec_len to.old + 2 }
{
    to.push(nibble_text(u32::from(byte / 16)));
    to.push(nibble_text(u32::from(byte % 16)));
}

/// Writes bytes, two digits each. There must be room.
pub fn push_bytes<const N: usize>(to: &mut ArrayVec<u8, N>, bytes: &[u8])
    requires { array_vec_len to.old + 2 * length bytes.now ≤ N }
    ensures items { to.new.items ≡ to.old.items ++ bytes_digits bytes.now }
    ensures len { array_vec_len to.new ≡ array_vec_len to.old + 2 * length bytes.now }
{
    for byte in bytes {
        push_byte(to, *byte);
    }
}

/// The bytes that digits stand for.
#[tactic(auto, using(crate::proofs::Digits::pairs))]
pub fn read_bytes<const N: usize>(text: &[u8]) -> Option<ArrayVec<u8, N>>
    requires { length text.now ≤ 2 * N }
    ensures { MatchOption result (bytes_from text.now ≡ None)
        (λ v. bytes_from text.now ≡ Some v.items) }
{
    let mut bytes = ArrayVec::new();
    let mut rest = text;
    while rest.len() >= 2 {
        let Some(high) = nibble_of(rest[0]) else {
            return None;
        };
        let Some(low) = nibble_of(rest[1]) else {
            return None;
        };
        bytes.push(high * 16 + low);
        let (_, others) = rest.split_at(2);
        rest = others;
    }
    if rest.is_empty() { Some(bytes) } else { None }
}
