//! Numbers and addresses that words spell.

ghost use Rattle.std.specs.Prelude.{◌≡◌, ◌≤◌, None, IfSome, MatchOption, SomeIff, [], ◌∷◌, fold};
ghost use Rattle.std.specs.List.{list_all};
ghost use Rattle.mr_words.specs.Parts.{parts_of};
ghost use Rattle.mr_words.specs.Numbers.{is_digit, leads_well, is_numeral, digit_on, number_of};
ghost use Rattle.mr_words.specs.Numbers.{four_parts, address_of};

use crate::parts::split_part;

pub fn is_digit(b: u8) -> bool
    ensures { result ≡ is_digit b }
{
    b'0' <= b && b <= b'9'
}

/// Whether a word has one byte, or several of which the first is no zero.
fn leads_well(word: &[u8]) -> bool
    ensures { result ≡ leads_well word.now }
{
    word.len() == 1 || word.len() > 1 && word[0] != b'0'
}

fn are_digits(word: &[u8]) -> bool
    ensures { result ≡ list_all is_digit word.now }
{
    word.iter().all(|b| is_digit(*b))
}

/// Whether a word is digits, with no zero in front of others.
fn is_numeral(word: &[u8]) -> bool
    ensures { result ≡ is_numeral word.now }
{
    leads_well(word) && are_digits(word)
}

/// A number with one more digit, if it is at most `most`.
#[inline(always)]
pub fn with_digit(value: u64, digit: u8, most: u64) -> Option<u64>
    ensures { SomeIff result (digit_on value digit ≤ most) (digit_on value digit) }
{
    let tens = value.checked_mul(10)?;
    let next = tens.checked_add(u64::from(digit.saturating_sub(b'0')))?;
    if next <= most { Some(next) } else { None }
}

/// The number that digits spell, if it is at most `most`.
fn value_of(word: &[u8], most: u64) -> Option<u64>
    ensures { SomeIff result (fold digit_on 0 word.now ≤ most) (fold digit_on 0 word.now) }
{
    let mut value = 0u64;
    for b in word {
        match with_digit(value, *b, most) {
            Some(next) => value = next,
            None => return None,
        }
    }
    Some(value)
}

/// The number of 64 bits that a word spells, if it is at most `most`.
pub fn long_number_of(word: &[u8], most: u64) -> Option<u64>
    ensures value { result ≡ number_of most word.now }
    ensures within { IfSome result (λ n. n ≤ most) }
{
    if !is_numeral(word) {
        return None;
    }
    value_of(word, most)
}

/// The number of 32 bits that a word spells, if it is at most `most`.
pub fn number_of(word: &[u8], most: u32) -> Option<u32>
    ensures value { result ≡ number_of most word.now }
    ensures within { IfSome result (λ n. n ≤ most) }
{
    match long_number_of(word, u64::from(most)) {
        Some(n) => Some(n as u32),
        None => None,
    }
}

/// The four parts of a word that three dots part.
fn four_parts(word: &[u8]) -> Option<(&[u8], &[u8], &[u8], &[u8])>
    ensures { MatchOption result (four_parts (parts_of 46 word.now) ≡ None) (λ x.
        parts_of 46 word.now ≡ x.0.now ∷ x.1.now ∷ x.2.now ∷ x.3.now ∷ []) }
{
    let (a, rest) = split_part(word, b'.');
    let (b, rest) = split_part(rest?, b'.');
    let (c, rest) = split_part(rest?, b'.');
    let (d, rest) = split_part(rest?, b'.');
    match rest {
        None => Some((a, b, c, d)),
        Some(_) => None,
    }
}

/// The address that a word spells, as a number.
pub fn address_of(word: &[u8]) -> Option<u32>
    ensures { result ≡ address_of word.now }
{
    let (a, b, c, d) = four_parts(word)?;
    let a = number_of(a, 255)?;
    let b = number_of(b, 255)?;
    let c = number_of(c, 255)?;
    let d = number_of(d, 255)?;
    Some(((a * 256 + b) * 256 + c) * 256 + d)
}
