//! Numbers in words.
ghost use Rattle.std.specs.Prelude.{◌≡◌, ◌≤◌, ◌<◌, ◌^◌, length};
ghost use Rattle.std.specs.Char.{is_ascii_digit};
ghost use Rattle.std.specs.List.{list_all};
ghost use Rattle.dos_words.specs.Numbers.{has_leading_zero, is_number, decimal_value};
ghost use Rattle.dos_words.specs.Numbers.{number_within};

fn are_digits(text: &[u8]) -> bool
    ensures { result ≡ list_all is_ascii_digit text.now }
{
    text.iter().all(|c| c.is_ascii_digit())
}

fn has_leading_zero(text: &[u8]) -> bool
    ensures { result ≡ has_leading_zero text.now }
{
    match text {
        [] => false,
        [_] => false,
        [first, _, ..] => *first == b'0',
    }
}

/// Whether it is one to twenty decimal digits, without a leading zero.
fn is_number(text: &[u8]) -> bool
    ensures { result ≡ is_number text.now }
{
    if text.is_empty() {
        return false;
    }
    if text.len() > 20 {
        return false;
    }
    if !are_digits(text) {
        return false;
    }
    !has_leading_zero(text)
}

/// What the digits come to.
fn decimal_value(text: &[u8]) -> u128
    requires { length text.now ≤ 20 }
    ensures { result ≡ decimal_value text.now }
{
    let mut value: u128 = 0;
    for digit in text {
        value = value * 10 + u128::from(digit.saturating_sub(b'0'));
    }
    value
}

/// The number that is spelled so, if it is from `low` to `high`.
pub fn number_within(low: u64, high: u64, text: &str) -> Option<u64>
    ensures { result ≡ number_within low high text.now }
{
    let digits = text.as_bytes();
    if !is_number(digits) {
        return None;
    }
    let number = decimal_value(digits);
    if number < u128::from(low) {
        return None;
    }
    if number > u128::from(high) {
        return None;
    }
    Some(number as u64)
}

/// The same, below 2^32.
pub fn small_within(low: u32, high: u32, text: &str) -> Option<u32>
    ensures { result ≡ number_within low high text.now }
{
    match number_within(u64::from(low), u64::from(high), text) {
        None => None,
        Some(number) => Some(number as u32),
    }
}
