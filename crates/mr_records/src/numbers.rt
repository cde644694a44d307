//! Numbers in front of a text.

ghost use Rattle.std.specs.Prelude.{◌≡◌, ◌+◌, ◌<◌, ◌≤◌, ◌++◌, ◌∷◌, [], IfSome, MatchOption};
ghost use Rattle.std.specs.Prelude.{decimal};
ghost use Rattle.mr_lines.specs.Bytes.{digits_of};

use mr_words::{behind_first, is_digit};

/// The digit with which a text begins, and the bytes behind it.
#[inline(always)]
pub fn digit(text: &[u8]) -> Option<(u32, &[u8])>
    ensures { MatchOption result (digits_of text.now ≡ []) (λ x.
        (x.0 ≤ 9) × (text.now ≡ (48 + x.0) ∷ x.1.now)) }
{
    if text.is_empty() || !is_digit(text[0]) {
        return None;
    }
    Some((u32::from(text[0] - b'0'), behind_first(text)))
}

/// A number that isn't 0 with the digits behind it, up to nine in all, and the bytes behind them.
#[inline(always)]
fn digits(first: u32, text: &[u8]) -> (u32, &[u8])
    requires { (0 < first) × (first ≤ 9) }
    ensures text { decimal first ++ text.now ≡ decimal result.0 ++ result.1.now }
    ensures all { result.0 < 100000000 → digits_of result.1.now ≡ [] }
{
    let mut value = first;
    let mut left = text;
    'digits: while value < 100_000_000 {
        match digit(left) {
            None => return (value, left),
            Some((next, after)) => {
                value = value * 10 + next;
                left = after;
            }
        }
    }
    (value, left)
}

/// The number with which a text begins, and the bytes behind it; `None` where no digit is first. It
/// has all digits that stand there, but no more than nine, and none behind a zero.
#[inline(always)]
pub fn short_number(text: &[u8]) -> Option<(u32, &[u8])>
    ensures text { MatchOption result (digits_of text.now ≡ []) (λ x.
        text.now ≡ decimal x.0 ++ x.1.now) }
    ensures all { IfSome result (λ x. 0 < x.0 → x.0 < 100000000 → digits_of x.1.now ≡ []) }
{
    let (first, rest) = digit(text)?;
    if first == 0 {
        return Some((0, rest));
    }
    Some(digits(first, rest))
}
