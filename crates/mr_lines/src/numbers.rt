//! Numbers read in one pass.

ghost use Rattle.std.specs.Prelude.{◌≡◌, ◌<◌, ◌≤◌, Some, None, IfSome, MatchOption, fold};
ghost use Rattle.mr_lines.specs.Bytes.{behind, ends, digits_of, past_digits, begins_number, Gives};
ghost use Rattle.mr_lines.specs.Fields.{one};
ghost use Rattle.mr_lines.specs.Reading.{u8, u16, u32, u64};
ghost use Rattle.mr_words.specs.Numbers.{digit_on, number_of};
ghost use Rattle.mr_words.specs.Parts.{parts_of};

use crate::cursor::ends;
use mr_words::{behind_first, is_digit, with_digit};

/// Whether a number may begin here: a digit, and it is no zero before other digits.
#[inline(always)]
pub fn begins_number(bytes: &[u8]) -> bool
    ensures { result ≡ begins_number bytes.now }
{
    !bytes.is_empty()
        && is_digit(bytes[0])
        && (bytes[0] != b'0' || bytes.len() == 1 || !is_digit(bytes[1]))
}

/// The number that the digits here spell behind those of a first number, if it is at most `most`,
/// and the bytes behind them.
#[inline(always)]
fn digits(first: u64, bytes: &[u8], most: u64) -> Option<(u64, &[u8])>
    requires { first ≤ most }
    ensures { MatchOption result (most < fold digit_on first (digits_of bytes.now)) (λ x.
        (fold digit_on first (digits_of bytes.now) ≡ x.0)
        × (x.0 ≤ most) × (x.1.now ≡ past_digits bytes.now)) }
{
    let mut value = first;
    let mut left = bytes;
    'digits: while let [b, after @ ..] = left {
        if !is_digit(*b) {
            return Some((value, left));
        }
        match with_digit(value, *b, most) {
            Some(next) => value = next,
            None => return None,
        }
        left = after;
    }
    Some((value, left))
}

/// The number that begins here, if it is at most `most`, and the bytes behind its digits.
#[inline(always)]
pub fn leading_number(bytes: &[u8], most: u64) -> Option<(u64, &[u8])>
    ensures number { MatchOption result (number_of most (digits_of bytes.now) ≡ None) (λ x.
        (number_of most (digits_of bytes.now) ≡ Some x.0) × (x.1.now ≡ past_digits bytes.now)) }
    ensures within { IfSome result (λ x. x.0 ≤ most) }
{
    if !begins_number(bytes) {
        return None;
    }
    match with_digit(0, bytes[0], most) {
        None => None,
        Some(first) => match digits(first, behind_first(bytes), most) {
            None => None,
            Some((number, left)) => Some((number, left)),
        },
    }
}

/// The number that the first word spells, if it is at most `most`, and what is left behind it.
#[inline(always)]
pub fn first_number(bytes: &[u8], most: u64) -> Option<(u64, &[u8])>
    ensures number { Gives (λ r. r.now) result (one (number_of most) (parts_of 32 bytes.now)) }
    ensures within { IfSome result (λ x. x.0 ≤ most) }
{
    match leading_number(bytes, most) {
        None => None,
        Some((number, left)) => {
            if ends(left) {
                Some((number, left))
            } else {
                None
            }
        }
    }
}

/// The number that the next word of what is left spells, if it is at most `most`, and what is left
/// behind it.
#[inline(always)]
fn number_at(rest: &[u8], most: u64) -> Option<(u64, &[u8])>
    ensures number { Gives (λ r. r.now) result (one (number_of most) (behind rest.now)) }
    ensures within { IfSome result (λ x. x.0 ≤ most) }
{
    match rest {
        [] => None,
        [_, bytes @ ..] => first_number(bytes, most),
    }
}

/// The number that the first word spells, if it is one of 64 bits, and what is left behind it.
pub fn first_u64(bytes: &[u8]) -> Option<(u64, &[u8])>
    ensures { Gives (λ r. r.now) result (u64 (parts_of 32 bytes.now)) }
{
    first_number(bytes, u64::MAX)
}

/// A number of 64 bits.
pub fn u64_at(rest: &[u8]) -> Option<(u64, &[u8])>
    ensures { Gives (λ r. r.now) result (u64 (behind rest.now)) }
{
    number_at(rest, u64::MAX)
}

/// A number of 32 bits.
#[inline(always)]
pub fn u32_at(rest: &[u8]) -> Option<(u32, &[u8])>
    ensures { Gives (λ r. r.now) result (u32 (behind rest.now)) }
{
    let (number, left) = number_at(rest, u64::from(u32::MAX))?;
    Some((number as u32, left))
}

/// A number of 16 bits.
pub fn u16_at(rest: &[u8]) -> Option<(u16, &[u8])>
    ensures { Gives (λ r. r.now) result (u16 (behind rest.now)) }
{
    let (number, left) = number_at(rest, 65_535)?;
    Some((number as u16, left))
}

/// A number of 8 bits.
pub fn u8_at(rest: &[u8]) -> Option<(u8, &[u8])>
    ensures { Gives (λ r. r.now) result (u8 (behind rest.now)) }
{
    let (number, left) = number_at(rest, 255)?;
    Some((number as u8, left))
}
