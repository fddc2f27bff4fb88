//! Numbers.

ghost use Rattle.std.specs.Prelude.{◌≡◌, ◌^◌, ◌&&◌, nat_le, nat_lt, length, if◌then◌else◌, true, ◌<◌, IfSome};
ghost use Rattle.std.specs.Str.Parse.{digits_value};
ghost use Rattle.rhd_syntax.specs.Bytes.{is_digits, is_signed_digits, fitting_int, num_of, int_of};
ghost use Rattle.rhd_syntax.specs.Reading.{num_at};
ghost use Rattle.rhd_syntax.specs.Answers.{Gives};

use crate::fault::Stop;
use crate::words::{all_digits, word_at};

fn is_digits(word: &[u8]) -> bool
    ensures { result ≡ is_digits word.now }
{
    !word.is_empty() && all_digits(word)
}

fn parse_u32(word: &[u8]) -> Option<u32>
    requires { is_digits word.now ≡ true }
    ensures { result ≡ (if nat_lt (digits_value 10 word.now) (2 ^ 32) then Some (digits_value 10 word.now) else None) }
{
    match str::from_utf8(word) {
        Ok(text) => text.parse::<u32>().ok(),
        Err(_) => None,
    }
}

fn parse_u64(word: &[u8]) -> Option<u64>
    requires { is_digits word.now ≡ true }
    ensures { result ≡ (if nat_lt (digits_value 10 word.now) (2 ^ 64) then Some (digits_value 10 word.now) else None) }
{
    match str::from_utf8(word) {
        Ok(text) => text.parse::<u64>().ok(),
        Err(_) => None,
    }
}

/// Whether a word is of 1 to 20 digits.
fn may_be_number(word: &[u8]) -> bool
    ensures { result ≡ (is_digits word.now && nat_le (length word.now) 20) }
{
    is_digits(word) && word.len() <= 20
}

/// The number of 32 bits that a word says.
#[tactic(auto, unfolding(crate::specs::Bytes::num_of))]
#[inline(always)]
pub fn num_of(word: &[u8]) -> Option<u32>
    ensures { result ≡ num_of 32 word.now }
{
    if let Some(number) = small_number(word) {
        if number <= u64::from(u32::MAX) && word.len() <= 20 {
            return Some(number as u32);
        }
    }
    if may_be_number(word) {
        parse_u32(word)
    } else {
        None
    }
}

/// The number of 64 bits that a word says.
#[tactic(auto, unfolding(crate::specs::Bytes::num_of))]
pub fn long_of(word: &[u8]) -> Option<u64>
    ensures { result ≡ num_of 64 word.now }
{
    if may_be_number(word) {
        parse_u64(word)
    } else {
        None
    }
}

/// A number of 32 bits, and the bytes after it.
#[tactic(auto, unfolding(crate::specs::Reading::num_at))]
pub fn num_at(bytes: &[u8]) -> Result<(u32, &[u8]), Stop>
    ensures { Gives (λ x. (x.0, x.1.now)) result (num_at 32 bytes.now) }
{
    let (word, rest) = word_at(bytes)?;
    let Some(number) = num_of(word) else {
        return Err(Stop::Bad);
    };
    Ok((number, rest))
}

/// A number of 64 bits, and the bytes after it.
#[tactic(auto, unfolding(crate::specs::Reading::num_at))]
pub fn long_at(bytes: &[u8]) -> Result<(u64, &[u8]), Stop>
    ensures { Gives (λ x. (x.0, x.1.now)) result (num_at 64 bytes.now) }
{
    let (word, rest) = word_at(bytes)?;
    let Some(number) = long_of(word) else {
        return Err(Stop::Bad);
    };
    Ok((number, rest))
}

fn parse_i64(word: &[u8]) -> Option<i64>
    requires { is_signed_digits word.now ≡ true }
    ensures { result ≡ fitting_int word.now }
{
    match str::from_utf8(word) {
        Ok(text) => text.parse::<i64>().ok(),
        Err(_) => None,
    }
}

fn is_signed_digits(word: &[u8]) -> bool
    ensures { result ≡ is_signed_digits word.now }
{
    match word {
        [b'-', digits @ ..] => is_digits(digits),
        _ => is_digits(word),
    }
}

/// A number below this has fewer than 64 bits with a digit more behind it.
const SMALL: u64 = 100_000_000_000_000_000;

/// The number that a word of digits says, where that is so small that no step can pass 64 bits.
fn small_number(word: &[u8]) -> Option<u64>
    ensures { IfSome result (λ n. (is_digits word.now ≡ true) × (n ≡ digits_value 10 word.now) × (n < 2 ^ 63)) }
{
    if word.is_empty() {
        return None;
    }
    let mut number = 0u64;
    for digit in word {
        if !digit.is_ascii_digit() || number >= SMALL {
            return None;
        }
        number = 10 * number + u64::from(*digit - b'0');
    }
    Some(number)
}

/// The integer that a word says.
#[tactic(auto, unfolding(crate::specs::Bytes::int_of))]
#[inline(always)]
pub fn int_of(word: &[u8]) -> Option<i64>
    ensures { result ≡ int_of word.now }
{
    if let Some(number) = small_number(word) {
        return Some(number as i64);
    }
    if is_signed_digits(word) {
        parse_i64(word)
    } else {
        None
    }
}
