//! Lines, read from their bytes.

ghost use Rattle.std.specs.Prelude.{◌≡◌, ◌∷◌, codes, option_and_then};
ghost use Rattle.mr_lines.specs.Bytes.{behind, Gives};
ghost use Rattle.mr_lines.specs.Fields.{by_word, both, mapped, keyword, whole};
ghost use Rattle.mr_lines.specs.Reading.{u32, lane, daemon, vif_or_none, mask, skip, route, vif};
ghost use Rattle.mr_lines.specs.Reading.{fate_line, is_outcome, happened, to_released, record_of};
ghost use Rattle.mr_lines.specs.Reading.{record_fields, as_record, dash, to_call, to_slow};
ghost use Rattle.mr_lines.specs.Reading.{entry_at, numbered, line_at, line_of, asked, replied};
ghost use Rattle.mr_lines.specs.declared.line.Line.TheVariants as line;
ghost use Rattle.mr_words.specs.Parts.{parts_of};

use crate::cursor::{first_word, next_word};
use crate::fields::{
    addr_at, daemon_at, lane_at, name_at, past_dash, route_totals_at, vif_or_none_at, vif_totals_at,
};
use crate::line::Line;
use crate::masks::mask_at;
use crate::numbers::{first_u64, u8_at, u32_at, u64_at};
use crate::outcomes::{fate_at, message_at, outcome_at};
use crate::requests::{asked_at, reply_at};
use crate::skip::Skip;
use crate::tail::{RouteLine, VifLine};
use mr_base::LaneNo;
use mr_model::{FastRecord, FateLine, Flow, ReleasedId};

fn skip_at(rest: &[u8]) -> Option<(Skip, &[u8])>
    ensures { Gives (λ r. r.now) result (skip (behind rest.now)) }
{
    let (lane, rest) = lane_at(rest)?;
    let (index, rest) = u32_at(rest)?;
    let (cause, rest) = u8_at(rest)?;
    Some((Skip { lane, index, cause }, rest))
}

fn route_at(rest: &[u8]) -> Option<(RouteLine, &[u8])>
    ensures { Gives (λ r. r.now) result (route (behind rest.now)) }
{
    let (number, rest) = u32_at(rest)?;
    let (src, rest) = addr_at(rest)?;
    let (dst, rest) = addr_at(rest)?;
    let (parent, rest) = u8_at(rest)?;
    let (totals, rest) = route_totals_at(rest)?;
    Some((
        RouteLine {
            number,
            src,
            dst,
            parent,
            totals,
        },
        rest,
    ))
}

fn vif_at(rest: &[u8]) -> Option<(VifLine, &[u8])>
    ensures { Gives (λ r. r.now) result (vif (behind rest.now)) }
{
    let (vif, rest) = u8_at(rest)?;
    let (name, rest) = name_at(rest)?;
    let (totals, rest) = vif_totals_at(rest)?;
    Some((VifLine { vif, name, totals }, rest))
}

fn fate_line_at(rest: &[u8]) -> Option<(FateLine, &[u8])>
    ensures { Gives (λ r. r.now) result (fate_line (behind rest.now)) }
{
    let (lane, rest) = lane_at(rest)?;
    let (index, rest) = u32_at(rest)?;
    let (fate, rest) = fate_at(rest)?;
    Some((FateLine { lane, index, fate }, rest))
}

/// Whether a word begins an outcome.
fn is_outcome(word: &[u8]) -> bool
    ensures { result ≡ is_outcome word.now }
{
    word == b"fwd".as_slice()
        || word == b"reg".as_slice()
        || word == b"wrong".as_slice()
        || word == b"parked".as_slice()
        || word == b"drop".as_slice()
}

fn released_at(lane: u32, index: u32, rest: &[u8]) -> Option<(Line, &[u8])>
    ensures { Gives (λ r. r.now) result
        (mapped (to_released (lane, index)) happened (behind rest.now)) }
{
    let (outcome, rest) = outcome_at(rest)?;
    Some((
        Line::Released(ReleasedId {
            lane: LaneNo(lane),
            index,
            outcome,
        }),
        rest,
    ))
}

#[inline(always)]
fn record_at(index: u32, look: u32, rest: &[u8]) -> Option<(FastRecord, &[u8])>
    ensures { Gives (λ r. r.now) result
        (mapped (record_of (index, look)) (both u32 (both vif_or_none mask)) (behind rest.now)) }
{
    let (entry, rest) = u32_at(rest)?;
    let (input, rest) = vif_or_none_at(rest)?;
    let (outs, rest) = mask_at(rest)?;
    Some((
        FastRecord {
            index,
            look,
            entry,
            input,
            outs,
            flow: Flow::default(),
        },
        rest,
    ))
}

/// The fields of a record.
#[inline(always)]
fn record_fields(rest: &[u8]) -> Option<(FastRecord, &[u8])>
    ensures { Gives (λ r. r.now) result (record_fields (behind rest.now)) }
{
    let (index, rest) = u32_at(rest)?;
    let (look, rest) = u32_at(rest)?;
    record_at(index, look, rest)
}

/// The fields of a record, and nothing behind them.
#[inline(always)]
fn whole_record(rest: &[u8]) -> Option<FastRecord>
    ensures { result ≡ whole record_fields (behind rest.now) }
{
    let (record, rest) = record_fields(rest)?;
    if rest.is_empty() { Some(record) } else { None }
}

/// The record whose line bytes without a line feed spell, if they spell one. It is quicker than
/// `read_line`.
#[inline(always)]
pub fn read_record(line: &[u8]) -> Option<FastRecord>
    ensures { result ≡ option_and_then as_record (line_of (parts_of 32 line.now)) }
{
    match past_dash(line) {
        None => None,
        Some(left) => whole_record(left),
    }
}

/// A released packet or a record: what stands behind both numbers tells.
#[inline(never)]
fn dash_at(rest: &[u8]) -> Option<(Line, &[u8])>
    ensures { Gives (λ r. r.now) result (dash (behind rest.now)) }
{
    let (first, rest) = u32_at(rest)?;
    let (second, rest) = u32_at(rest)?;
    let (word, _) = next_word(rest)?;
    if is_outcome(word) {
        released_at(first, second, rest)
    } else {
        let (record, rest) = record_at(first, second, rest)?;
        Some((Line::Record(record), rest))
    }
}

fn call_at(number: u64, rest: &[u8]) -> Option<(Line, &[u8])>
    ensures { Gives (λ r. r.now) result
        (mapped (to_call number) (both daemon (both asked replied)) (behind rest.now)) }
{
    let (daemon, rest) = daemon_at(rest)?;
    let (request, rest) = asked_at(rest)?;
    let (reply, rest) = reply_at(rest)?;
    Some((
        Line::Call {
            number,
            daemon,
            request,
            reply,
        },
        rest,
    ))
}

fn slow_at(number: u64, rest: &[u8]) -> Option<(Line, &[u8])>
    ensures { Gives (λ r. r.now) result
        (mapped (to_slow number) (both lane (both u32 (both u32 happened))) (behind rest.now)) }
{
    let (lane, rest) = lane_at(rest)?;
    let (index, rest) = u32_at(rest)?;
    let (look, rest) = u32_at(rest)?;
    let (outcome, rest) = outcome_at(rest)?;
    Some((
        Line::Slow {
            number,
            lane,
            index,
            look,
            outcome,
        },
        rest,
    ))
}

/// The line of an entry by the word behind its number; the other words stand behind it.
fn entry_by_word<'a>(number: u64, word: &[u8], rest: &'a [u8]) -> Option<(Line, &'a [u8])>
    ensures { Gives (λ r. r.now) result (entry_at number word.now (behind rest.now)) }
{
    if word == b"call".as_slice() {
        call_at(number, rest)
    } else if word == b"slow".as_slice() {
        slow_at(number, rest)
    } else if word == b"settle".as_slice() {
        let (lane, rest) = lane_at(rest)?;
        let (count, rest) = u64_at(rest)?;
        Some((
            Line::Settle {
                number,
                lane,
                count,
            },
            rest,
        ))
    } else if word == b"tick".as_slice() {
        let (daemon, rest) = daemon_at(rest)?;
        let (ms, rest) = u32_at(rest)?;
        Some((Line::Tick { number, daemon, ms }, rest))
    } else if word == b"recv".as_slice() {
        let (daemon, rest) = daemon_at(rest)?;
        let (message, rest) = message_at(rest)?;
        Some((
            Line::Recv {
                number,
                daemon,
                message,
            },
            rest,
        ))
    } else if word == b"phase".as_slice() {
        Some((Line::Phase { number }, rest))
    } else {
        None
    }
}

/// The line of an entry, from its first byte.
fn entry_line(line: &[u8]) -> Option<(Line, &[u8])>
    ensures { Gives (λ r. r.now) result (by_word numbered (parts_of 32 line.now)) }
{
    let (number, rest) = first_u64(line)?;
    let (word, rest) = next_word(rest)?;
    entry_by_word(number, word, rest)
}

/// `history 1`: the words behind the first.
fn history_at(rest: &[u8]) -> Option<(Line, &[u8])>
    ensures { Gives (λ r. r.now) result (keyword (codes "1") line.History (behind rest.now)) }
{
    let (word, rest) = next_word(rest)?;
    if word == b"1".as_slice() {
        Some((Line::History, rest))
    } else {
        None
    }
}

/// A line by its first word; the other words stand behind it.
fn line_by_word<'a>(line: &'a [u8], word: &[u8], rest: &'a [u8]) -> Option<(Line, &'a [u8])>
    requires { parts_of 32 line.now ≡ word.now ∷ behind rest.now }
    ensures { Gives (λ r. r.now) result (line_at word.now (behind rest.now)) }
{
    if word == b"history".as_slice() {
        history_at(rest)
    } else if word == b"skip".as_slice() {
        let (skip, rest) = skip_at(rest)?;
        Some((Line::Skip(skip), rest))
    } else if word == b"-".as_slice() {
        dash_at(rest)
    } else if word == b"route".as_slice() {
        let (route, rest) = route_at(rest)?;
        Some((Line::Route(route), rest))
    } else if word == b"vif".as_slice() {
        let (vif, rest) = vif_at(rest)?;
        Some((Line::Vif(vif), rest))
    } else if word == b"fate".as_slice() {
        let (fate, rest) = fate_line_at(rest)?;
        Some((Line::Fate(fate), rest))
    } else if word == b"end".as_slice() {
        Some((Line::End, rest))
    } else {
        entry_line(line)
    }
}

/// The line that bytes without a line feed spell, if they spell one.
#[inline(never)]
pub fn read_line(line: &[u8]) -> Option<Line>
    ensures { result ≡ line_of (parts_of 32 line.now) }
{
    let (word, rest) = first_word(line);
    let (read, rest) = line_by_word(line, word, rest)?;
    if rest.is_empty() { Some(read) } else { None }
}
