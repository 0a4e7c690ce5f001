//! Reads numbers and bytes at a place of a text.
ghost use Rattle.std.specs.Prelude.{true, ◌≡◌, ◌≢◌, ◌+◌, ◌*◌, ◌%◌, ◌^◌, ◌<◌, ◌≤◌, ℕ, List, length, decimal, IfSome, IfNone, IfOk, MatchOption, SomeIff};
ghost use Rattle.std.specs.Char.{digit_value, is_ascii_digit};
ghost use Rattle.std.specs.List.{prefix_len, AllPass};
ghost use Rattle.std.specs.Str.Parse.{AllDigits, digits_value};
ghost use Rattle.hex.specs.Hex.{encode_lower, IsBytes};
ghost use Rattle.jn_text.specs.Read.{is_lower_hex_digit, IsHexAt, IsNumberAt};

use std::alloc::{AllocError, Global};

/// The number of at most `limit` whose digits begin at the index `at` of the text, and the index
/// after them. It has no sign and no leading zero. `None` where no such number stands there, as
/// where there is no digit, or where the digits up to the first other byte are of a larger number.
pub fn read_number(bytes: &[u8], at: usize, limit: u64) -> Option<(u64, usize)>
    requires { at ≤ length bytes.now }
    ensures found { IfSome result (λ r. IsNumberAt bytes.now at limit r.0 r.1) }
    ensures none { IfNone result ((n end : ℕ) → ¬ IsNumberAt bytes.now at limit n end) }
{
    let rest = &bytes[at..];
    let count = digit_count(rest);
    let number = number_of(&rest[..count], limit)?;
    Some((number, at + count))
}

/// At most one number stands at a place of a text.
pub fn one_number_stands_at_a_place()
    ensures { (bytes : List ℕ) → (at limit m n e f : ℕ) → limit < 2 ^ 64
        → IsNumberAt bytes at limit m e → IsNumberAt bytes at limit n f → (m ≡ n) × (e ≡ f) }
{}

/// How many decimal digits the bytes begin with.
fn digit_count(bytes: &[u8]) -> usize
    ensures { result ≡ prefix_len is_ascii_digit bytes.now }
{
    bytes.iter().take_while(|b| b.is_ascii_digit()).count()
}

/// The number that the digits spell, if it is at most `limit` and spelled with no leading zero.
fn number_of(digits: &[u8], limit: u64) -> Option<u64>
    requires { AllDigits 10 digits.now }
    ensures { MatchOption result
        ((n : ℕ) → n ≤ limit → digits.now ≢ decimal n)
        (λ n. (n ≤ limit) × (digits.now ≡ decimal n)) }
{
    if digits.is_empty() {
        return None;
    }
    if digits[0] == b'0' && digits.len() > 1 {
        return None;
    }
    let number = value_of(digits)?;
    if number <= limit { Some(number) } else { None }
}

/// The value of the digits, if it fits.
fn value_of(digits: &[u8]) -> Option<u64>
    requires { AllDigits 10 digits.now }
    ensures { SomeIff result (digits_value 10 digits.now < 2 ^ 64) (digits_value 10 digits.now) }
{
    let mut value: u64 = 0;
    for digit in digits {
        value = with_digit(value, *digit)?;
    }
    Some(value)
}

/// The value of the digits of a value and one more, if it fits.
fn with_digit(value: u64, digit: u8) -> Option<u64>
    requires { is_ascii_digit digit ≡ true }
    ensures { SomeIff result (value * 10 + digit_value digit < 2 ^ 64) (value * 10 + digit_value digit) }
{
    value.checked_mul(10)?.checked_add(u64::from(digit - b'0'))
}

/// The bytes that are spelled at the index `at` of the text, and the index after their spelling:
/// `-` for no bytes, or 1 to 448 bytes as pairs of lower-case hexadecimal digits, with another byte
/// or the end of the text behind them. `None` where no such spelling stands there.
pub fn read_hex(
    alloc: Global,
    bytes: &[u8],
    at: usize,
) -> Result<Option<(Vec<u8>, usize)>, AllocError>
    requires { at ≤ length bytes.now }
    ensures found { IfOk result (λ o. IfSome o (λ r. IsHexAt bytes.now at r.0.items r.1)) }
    ensures none { IfOk result (λ o.
        IfNone o ((content : List ℕ) → (end : ℕ) → ¬ IsHexAt bytes.now at content end)) }
{
    if at < bytes.len() && bytes[at] == b'-' {
        return Ok(Some((Vec::new(alloc), at + 1)));
    }
    let rest = &bytes[at..];
    let count = hex_digit_count(rest);
    if count == 0 || count > 2 * MAX_BYTES || count % 2 != 0 {
        return Ok(None);
    }
    let content = decoded(alloc, &rest[..count])?;
    Ok(Some((content, at + count)))
}

/// At most one spelling of bytes stands at a place of a text.
pub fn one_spelling_stands_at_a_place()
    ensures { (bytes : List ℕ) → (at : ℕ) → (c d : List ℕ) → (e f : ℕ)
        → IsHexAt bytes at c e → IsHexAt bytes at d f → (c ≡ d) × (e ≡ f) }
{}

/// The most bytes that are read: those of a block.
const MAX_BYTES: usize = 448;

/// How many lower-case hexadecimal digits the bytes begin with.
fn hex_digit_count(bytes: &[u8]) -> usize
    ensures { result ≡ prefix_len is_lower_hex_digit bytes.now }
{
    bytes
        .iter()
        .take_while(|b| matches!(**b, b'0'..=b'9' | b'a'..=b'f'))
        .count()
}

/// The bytes that the pairs of digits spell.
fn decoded(alloc: Global, digits: &[u8]) -> Result<Vec<u8>, AllocError>
    requires even { length digits.now % 2 ≡ 0 }
    requires lower { AllPass is_lower_hex_digit digits.now }
    ensures { IfOk result (λ v. (encode_lower v.items ≡ digits.now) × IsBytes v.items) }
{
    // Digits in pairs decode, so that memory alone can be lacking.
    hex::decode(alloc, digits).map_err(|_| AllocError)
}
