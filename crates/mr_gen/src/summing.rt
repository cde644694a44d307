//! The sums of a history.

ghost use Rattle.std.specs.Prelude.{◌≡◌, ◌+◌, ◌*◌, ◌<◌, ◌≤◌, ◌^◌, count_ones, length, sum_by, take};
ghost use Rattle.mr_base.specs.declared.route.Route.{Route};
ghost use Rattle.mr_gen.specs.Sums.{busier, busiest_before, copies, fast, fast_in, nobody, slow};
ghost use Rattle.mr_gen.specs.Sums.{slow_in};
ghost use Rattle.mr_gen.specs.Adding.{copies_in, outs_in};
ghost use Rattle.mr_history.specs.Seen.{entry_seen};

use mr_base::{Mask, Route};
use mr_history::{EntryView, Journal, Records};
use mr_model::{FastRecord, Outcome, ReleasedId, RouteTotals};

/// What one pass over a history adds up. Sums have 128 bits, so that none can run over.
#[derive(Clone, Copy, Debug)]
pub(crate) struct Walked {
    pub fast: u128,
    pub slow: u128,
    pub copies: u128,
}

/// An (S,G) entry's number, and how many packets it counted.
#[derive(Clone, Copy, Debug)]
pub(crate) struct Busy {
    pub number: u32,
    pub packets: u64,
}

/// What a packet that was decided under the lock goes out on.
fn outs_of(outcome: &Outcome) -> Mask
    ensures { result ≡ outs_in outcome.now }
{
    match outcome {
        Outcome::Forward { outs, .. } | Outcome::Register { outs, .. } => *outs,
        _ => Mask(0),
    }
}

/// How many copies a released packet has.
fn copies_of(one: &ReleasedId) -> u32
    ensures ways { result ≡ count_ones (outs_in one.now.outcome).0 }
    ensures most { result ≤ 32 }
{
    outs_of(&one.outcome).0.count_ones()
}

/// How many copies packets that a call released have.
pub fn copies_released(released: &[ReleasedId]) -> u128
    ensures sum { result ≡ sum_by (λ r. count_ones (outs_in r.outcome).0) released.now }
    ensures most { result ≤ 32 * length released.now }
{
    let mut sum = 0;
    for one in released {
        sum += u128::from(copies_of(one));
    }
    sum
}

/// How many copies a packet of a settle has.
fn ways_of(one: &FastRecord) -> u32
    ensures ways { result ≡ count_ones one.now.outs.0 }
    ensures most { result ≤ 32 }
{
    one.outs.0.count_ones()
}

/// How many copies packets of a settle have.
fn copies_settled(records: &Records<'_>) -> u128
    ensures sum { result ≡ sum_by (λ r. count_ones r.outs.0) records.now }
    ensures most { result ≤ 32 * length records.now }
{
    let mut sum = 0;
    for place in 0..records.len() {
        sum += ways_of(&records.get(place)) as u128;
    }
    sum
}

/// What one entry adds.
fn added(entry: &EntryView<'_>) -> Walked
    ensures fast { result.fast ≡ fast_in (entry_seen entry.now) }
    ensures slow { result.slow ≡ slow_in (entry_seen entry.now) }
    ensures copies { result.copies ≡ copies_in (entry_seen entry.now) }
    ensures most_fast { result.fast < 2 ^ 64 }
    ensures most_slow { result.slow ≤ 1 }
    ensures most_copies { result.copies < 2 ^ 69 }
{
    let mut sums = Walked {
        fast: 0,
        slow: 0,
        copies: 0,
    };
    match entry {
        EntryView::Slow { outcome, .. } => {
            sums.slow = 1;
            sums.copies = u128::from(outs_of(outcome).0.count_ones());
        }
        EntryView::Settle { records, .. } => {
            sums.fast = records.len() as u128;
            sums.copies = copies_settled(records);
        }
        EntryView::Call { released, .. } => {
            sums.copies = copies_released(released);
        }
        _ => {}
    }
    sums
}

/// What a history adds up, in one pass over it.
pub(crate) fn walk(journal: &Journal) -> Walked
    ensures fast { result.fast ≡ fast journal.now.entries }
    ensures slow { result.slow ≡ slow journal.now.entries }
    ensures copies { result.copies ≡ copies journal.now.entries }
    ensures most { result.fast + result.slow < 2 ^ 128 }
{
    let mut sums = Walked {
        fast: 0,
        slow: 0,
        copies: 0,
    };
    for place in 0..journal.len() {
        let more = added(&journal.entry(place));
        sums.fast += more.fast;
        sums.slow += more.slow;
        sums.copies += more.copies;
    }
    sums
}

/// The bytes that (S,G) entries have counted.
pub(crate) fn bytes_of(routes: &[(Route, RouteTotals)]) -> u128
    ensures { result ≡ sum_by (λ r. r.1.bytes) routes.now }
{
    let mut sum = 0;
    for (_, totals) in routes {
        sum += u128::from(totals.bytes);
    }
    sum
}

/// Of an entry and one with a greater number the one that counted more, and the first among equals.
fn busier(one: &(Route, RouteTotals), other: Busy) -> Busy
    ensures { result ≡ busier one.now other }
{
    let (route, totals) = one;
    if other.packets <= totals.packets {
        Busy {
            number: route.number,
            packets: totals.packets,
        }
    } else {
        other
    }
}

/// The entry that counted most, of those with rising numbers: the first among equals. It is found
/// from the last one on.
pub(crate) fn busiest_of(routes: &[(Route, RouteTotals)]) -> Busy
    ensures { result ≡ busiest_before routes.now nobody }
{
    let mut busiest = Busy {
        number: 0,
        packets: 0,
    };
    let mut left = routes.len();
    while left > 0 {
        left -= 1;
        busiest = busier(&routes[left], busiest);
    }
    busiest
}
