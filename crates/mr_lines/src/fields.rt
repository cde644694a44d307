//! Fields of one word, and of several.

ghost use Rattle.std.specs.Prelude.{◌≡◌, ◌∷◌, false, codes, bytes_eq, MatchOption};
ghost use Rattle.mr_lines.specs.Bytes.{behind, Gives};
ghost use Rattle.mr_lines.specs.Fields.{one};
ghost use Rattle.mr_lines.specs.Reading.{addr, lane, daemon, vif_or_none, route_totals, vif_totals};
ghost use Rattle.mr_lines.specs.Reading.{key};
ghost use Rattle.mr_lines.specs.Words.{name_of};
ghost use Rattle.mr_words.specs.Parts.{before, parts_of};

use crate::cursor::{ends, next_word};
use crate::numbers::{first_number, u16_at, u32_at, u64_at};
use crate::words::{addr_of, name_of};
use mr_base::{Addr, DaemonNo, FileName, LaneNo};
use mr_model::{MfcKey, RouteTotals, VifTotals};

/// An address.
pub fn addr_at(rest: &[u8]) -> Option<(Addr, &[u8])>
    ensures { Gives (λ r. r.now) result (addr (behind rest.now)) }
{
    let (word, left) = next_word(rest)?;
    let address = addr_of(word)?;
    Some((address, left))
}

/// The name of a vif.
pub fn name_at(rest: &[u8]) -> Option<(FileName, &[u8])>
    ensures { Gives (λ r. r.now) result (one name_of (behind rest.now)) }
{
    let (word, left) = next_word(rest)?;
    let name = name_of(word)?;
    Some((name, left))
}

/// A lane.
pub fn lane_at(rest: &[u8]) -> Option<(LaneNo, &[u8])>
    ensures { Gives (λ r. r.now) result (lane (behind rest.now)) }
{
    let (number, left) = u32_at(rest)?;
    Some((LaneNo(number), left))
}

/// A daemon.
pub fn daemon_at(rest: &[u8]) -> Option<(DaemonNo, &[u8])>
    ensures { Gives (λ r. r.now) result (daemon (behind rest.now)) }
{
    let (number, left) = u32_at(rest)?;
    Some((DaemonNo(number), left))
}

/// The totals of an entry.
pub fn route_totals_at(rest: &[u8]) -> Option<(RouteTotals, &[u8])>
    ensures { Gives (λ r. r.now) result (route_totals (behind rest.now)) }
{
    let (packets, rest) = u64_at(rest)?;
    let (bytes, rest) = u64_at(rest)?;
    let (wrong, rest) = u64_at(rest)?;
    Some((
        RouteTotals {
            packets,
            bytes,
            wrong,
        },
        rest,
    ))
}

/// The totals of a vif.
pub fn vif_totals_at(rest: &[u8]) -> Option<(VifTotals, &[u8])>
    ensures { Gives (λ r. r.now) result (vif_totals (behind rest.now)) }
{
    let (packets_in, rest) = u64_at(rest)?;
    let (packets_out, rest) = u64_at(rest)?;
    let (bytes_in, rest) = u64_at(rest)?;
    let (bytes_out, rest) = u64_at(rest)?;
    Some((
        VifTotals {
            packets_in,
            packets_out,
            bytes_in,
            bytes_out,
        },
        rest,
    ))
}

/// What names an entry.
pub fn key_at(rest: &[u8]) -> Option<(MfcKey, &[u8])>
    ensures { Gives (λ r. r.now) result (key (behind rest.now)) }
{
    let (src, rest) = addr_at(rest)?;
    let (dst, rest) = addr_at(rest)?;
    let (parent, rest) = u16_at(rest)?;
    Some((MfcKey { src, dst, parent }, rest))
}

/// What is left behind the word `-`, if it is the first.
#[inline(always)]
#[tactic(auto, using(crate::proofs::ByteLaws::dash_ends, crate::proofs::ByteLaws::dash_goes_on, crate::proofs::ByteLaws::no_dash))]
pub fn past_dash(bytes: &[u8]) -> Option<&[u8]>
    ensures { MatchOption result (bytes_eq (before 32 bytes.now) (codes "-") ≡ false) (λ x.
        parts_of 32 bytes.now ≡ codes "-" ∷ behind x.now) }
{
    match bytes {
        [b'-', left @ ..] => { if ends(left) { Some(left) } else { None } }
        _ => None,
    }
}

/// The first word as a vif, or `-`.
#[inline(always)]
fn first_vif(bytes: &[u8]) -> Option<(Option<u8>, &[u8])>
    ensures { Gives (λ r. r.now) result (vif_or_none (parts_of 32 bytes.now)) }
{
    match past_dash(bytes) {
        Some(left) => Some((None, left)),
        None => {
            let (number, left) = first_number(bytes, 255)?;
            Some((Some(number as u8), left))
        }
    }
}

/// A vif, or `-`.
#[inline(always)]
pub fn vif_or_none_at(rest: &[u8]) -> Option<(Option<u8>, &[u8])>
    ensures { Gives (λ r. r.now) result (vif_or_none (behind rest.now)) }
{
    match rest {
        [] => None,
        [_, bytes @ ..] => first_vif(bytes),
    }
}
