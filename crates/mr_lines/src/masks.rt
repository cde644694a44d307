//! Masks, read in one pass.

ghost use Rattle.std.specs.Prelude.{◌≡◌, ◌+◌, ◌^◌, ◌<◌, ◌≤◌, None, Some, IfSome, MatchOption, true};
ghost use Rattle.std.specs.Prelude.{false};
ghost use Rattle.mr_lines.specs.Bytes.{behind, ends, begins_comma, digits_of, past_digits, Gives};
ghost use Rattle.mr_lines.specs.Fields.{leaving};
ghost use Rattle.mr_lines.specs.Reading.{mask};
ghost use Rattle.mr_lines.specs.Words.{with_vifs};
ghost use Rattle.mr_words.specs.Numbers.{number_of};
ghost use Rattle.mr_words.specs.Parts.{before, parts_behind, parts_of};

use crate::cursor::ends;
use crate::fields::past_dash;
use crate::numbers::leading_number;
use mr_base::Mask;
use mr_words::behind_first;

/// A mask with one vif more, which is above those that it has.
#[inline(always)]
fn with_vif(mask: u32, vif: u32) -> u32
    requires vif { vif ≤ 31 }
    requires above { mask < 2 ^ vif }
    ensures value { result ≡ mask + 2 ^ vif }
    ensures below { result < 2 ^ (vif + 1) }
{
    mask + (1 << vif)
}

/// Whether a comma stands here.
#[inline(always)]
fn is_comma(bytes: &[u8]) -> bool
    ensures { result ≡ begins_comma bytes.now }
{
    !bytes.is_empty() && bytes[0] == b','
}

/// The vif whose number begins here, and the bytes behind its digits.
#[inline(always)]
fn leading_vif(bytes: &[u8]) -> Option<(u32, &[u8])>
    ensures number { MatchOption result (number_of 31 (digits_of bytes.now) ≡ None) (λ x.
        (number_of 31 (digits_of bytes.now) ≡ Some x.0) × (x.1.now ≡ past_digits bytes.now)) }
    ensures within { IfSome result (λ x. x.0 ≤ 31) }
{
    match leading_number(bytes, 31) {
        None => None,
        Some((vif, left)) => Some((vif as u32, left)),
    }
}

/// The mask of the first word, and what is left behind it.
#[inline(always)]
fn vifs(bytes: &[u8]) -> Option<(u32, &[u8])>
    ensures { Gives (λ r. r.now) result
        (leaving (parts_behind 32 bytes.now) (with_vifs 0 0 (parts_of 44 (before 32 bytes.now)))) }
{
    let mut mask = 0u32;
    let mut least = 0u32;
    let mut left = bytes;
    'vifs: loop {
        match leading_vif(left) {
            None => return None,
            Some((vif, after)) => {
                if vif < least {
                    return None;
                }
                mask = with_vif(mask, vif);
                if !is_comma(after) {
                    if ends(after) {
                        return Some((mask, after));
                    }
                    return None;
                }
                least = vif + 1;
                left = behind_first(after);
            }
        }
    }
}

/// The mask of the first word, and what is left behind it.
#[inline(always)]
fn first_mask(bytes: &[u8]) -> Option<(Mask, &[u8])>
    ensures { Gives (λ r. r.now) result (mask (parts_of 32 bytes.now)) }
{
    match past_dash(bytes) {
        Some(left) => Some((Mask(0), left)),
        None => {
            let (mask, left) = vifs(bytes)?;
            Some((Mask(mask), left))
        }
    }
}

/// A mask.
#[inline(always)]
pub fn mask_at(rest: &[u8]) -> Option<(Mask, &[u8])>
    ensures { Gives (λ r. r.now) result (mask (behind rest.now)) }
{
    match rest {
        [] => None,
        [_, bytes @ ..] => first_mask(bytes),
    }
}
