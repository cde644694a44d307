//! What became of packets: outcomes, records, reports and fates.

ghost use Rattle.std.specs.Prelude.{◌≡◌};
ghost use Rattle.mr_lines.specs.Bytes.{behind, Gives};
ghost use Rattle.mr_lines.specs.Fields.{by_word, mapped, one, both};
ghost use Rattle.mr_lines.specs.Reading.{u8, u32, lane, vif_or_none, mask, to_forward, to_register};
ghost use Rattle.mr_lines.specs.Reading.{to_wrong, outcome_at, happened, fate_at, to_message};
ghost use Rattle.mr_lines.specs.Reading.{message_of, message_at};
ghost use Rattle.mr_lines.specs.Words.{told_of, report_of, cause_of};
ghost use Rattle.mr_model.specs.declared.outcome.Outcome.TheVariants as outcome;

use crate::cursor::next_word;
use crate::fields::{lane_at, vif_or_none_at};
use crate::masks::mask_at;
use crate::numbers::{u8_at, u32_at};
use crate::words::{cause_of, kind_of, report_of, told_of};
use mr_model::{Fate, Kind, MessageId, Outcome};

fn forward_at(rest: &[u8]) -> Option<(Outcome, &[u8])>
    ensures { Gives (λ r. r.now) result
        (mapped to_forward (both u32 (both vif_or_none mask)) (behind rest.now)) }
{
    let (entry, rest) = u32_at(rest)?;
    let (input, rest) = vif_or_none_at(rest)?;
    let (outs, rest) = mask_at(rest)?;
    Some((Outcome::Forward { entry, input, outs }, rest))
}

fn register_at(rest: &[u8]) -> Option<(Outcome, &[u8])>
    ensures { Gives (λ r. r.now) result (mapped to_register
        (both u32 (both vif_or_none (both mask (one told_of)))) (behind rest.now)) }
{
    let (entry, rest) = u32_at(rest)?;
    let (input, rest) = vif_or_none_at(rest)?;
    let (outs, rest) = mask_at(rest)?;
    let (word, rest) = next_word(rest)?;
    let told = told_of(word)?;
    Some((
        Outcome::Register {
            entry,
            input,
            outs,
            told,
        },
        rest,
    ))
}

fn wrong_at(rest: &[u8]) -> Option<(Outcome, &[u8])>
    ensures { Gives (λ r. r.now) result
        (mapped to_wrong (both u32 (both vif_or_none (one report_of))) (behind rest.now)) }
{
    let (entry, rest) = u32_at(rest)?;
    let (vif, rest) = vif_or_none_at(rest)?;
    let (word, rest) = next_word(rest)?;
    let report = report_of(word)?;
    Some((Outcome::Wrong { entry, vif, report }, rest))
}

fn dropped_at(rest: &[u8]) -> Option<(Outcome, &[u8])>
    ensures { Gives (λ r. r.now) result (mapped outcome.Dropped (one cause_of) (behind rest.now)) }
{
    let (word, rest) = next_word(rest)?;
    let cause = cause_of(word)?;
    Some((Outcome::Dropped(cause), rest))
}

/// An outcome by its first word; the other words stand behind it.
fn outcome_by_word<'a>(word: &[u8], rest: &'a [u8]) -> Option<(Outcome, &'a [u8])>
    ensures { Gives (λ r. r.now) result (outcome_at word.now (behind rest.now)) }
{
    if word == b"fwd".as_slice() {
        forward_at(rest)
    } else if word == b"reg".as_slice() {
        register_at(rest)
    } else if word == b"wrong".as_slice() {
        wrong_at(rest)
    } else if word == b"parked".as_slice() {
        Some((Outcome::Parked, rest))
    } else if word == b"drop".as_slice() {
        dropped_at(rest)
    } else {
        None
    }
}

/// An outcome.
pub fn outcome_at(rest: &[u8]) -> Option<(Outcome, &[u8])>
    ensures { Gives (λ r. r.now) result (happened (behind rest.now)) }
{
    let (word, rest) = next_word(rest)?;
    outcome_by_word(word, rest)
}

/// The entry at which something happened, as a fate.
fn fate_by_word<'a>(word: &[u8], rest: &'a [u8]) -> Option<(Fate, &'a [u8])>
    ensures { Gives (λ r. r.now) result (fate_at word.now (behind rest.now)) }
{
    if word == b"released".as_slice() {
        let (number, rest) = u32_at(rest)?;
        Some((Fate::Released(number), rest))
    } else if word == b"expired".as_slice() {
        let (number, rest) = u32_at(rest)?;
        Some((Fate::Expired(number), rest))
    } else if word == b"flushed".as_slice() {
        let (number, rest) = u32_at(rest)?;
        Some((Fate::Flushed(number), rest))
    } else if word == b"waiting".as_slice() {
        Some((Fate::Waiting, rest))
    } else {
        None
    }
}

/// A fate.
pub fn fate_at(rest: &[u8]) -> Option<(Fate, &[u8])>
    ensures { Gives (λ r. r.now) result (by_word fate_at (behind rest.now)) }
{
    let (word, rest) = next_word(rest)?;
    fate_by_word(word, rest)
}

/// What names a report of a kind.
fn id_at(kind: Kind, rest: &[u8]) -> Option<(Option<MessageId>, &[u8])>
    ensures { Gives (λ r. r.now) result
        (mapped (to_message kind) (both u8 (both lane u32)) (behind rest.now)) }
{
    let (vif, rest) = u8_at(rest)?;
    let (lane, rest) = lane_at(rest)?;
    let (index, rest) = u32_at(rest)?;
    Some((
        Some(MessageId {
            kind,
            vif,
            lane,
            index,
        }),
        rest,
    ))
}

/// `none`, or a report.
pub fn message_at(rest: &[u8]) -> Option<(Option<MessageId>, &[u8])>
    ensures { Gives (λ r. r.now) result (by_word message_at (behind rest.now)) }
{
    let (word, rest) = next_word(rest)?;
    if word == b"none".as_slice() {
        Some((None, rest))
    } else {
        let kind = kind_of(word)?;
        id_at(kind, rest)
    }
}
