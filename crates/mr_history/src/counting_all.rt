//! The packets of one entry, in the totals that are kept.

ghost use Rattle.std.specs.Prelude.{◌≡◌, ℕ, ◌<◌, ◌^◌, ◌++◌, List, length, map};
ghost use Rattle.std.specs.List.{AllByRecursion};
ghost use Rattle.mr_model.specs.Counts.{Met, met_by, met_fast};
ghost use Rattle.mr_history.specs.Totals.{AreFew, AreShort, AreTotals, SameKept, released_mets};

use crate::counting::count;
use crate::meeting::{met_by, met_fast};
use crate::totals::Totals;
use mr_model::{FastRecord, Outcome, ReleasedId};

/// Counts a packet that was decided at a place, if it met an entry.
pub(crate) fn count_outcome(totals: &mut Totals, place: u32, length: u16, outcome: &Outcome)
    ensures sums { (ms : List Met) → AreFew (ms ++ met_by place length outcome.now)
        → AreTotals totals.old ms → AreTotals totals.new (ms ++ met_by place length outcome.now) }
    ensures short { AreShort (met_by place length outcome.now) }
    ensures same { SameKept totals.old totals.new }
{
    if let Some(met) = met_by(place, length, outcome) {
        count(totals, &met);
    }
}

/// Counts the packets of a settle, each at its look.
pub(crate) fn count_fast(totals: &mut Totals, records: &[FastRecord])
    ensures sums { (ms : List Met) → AreFew (ms ++ map met_fast records.now)
        → AreTotals totals.old ms → AreTotals totals.new (ms ++ map met_fast records.now) }
    ensures short { AreShort (map met_fast records.now) }
    ensures same { SameKept totals.old totals.new }
{
    for fast in records {
        let met = met_fast(fast);
        count(totals, &met);
    }
}

/// Counts released packets with their lengths, at the place of their call.
pub(crate) fn count_released(
    totals: &mut Totals,
    place: u32,
    released: &[ReleasedId],
    lengths: &[u16],
)
    requires { length lengths.now ≡ length released.now }
    ensures sums { (ms : List Met) → AreFew (ms ++ released_mets place released.now lengths.now)
        → AreTotals totals.old ms
        → AreTotals totals.new (ms ++ released_mets place released.now lengths.now) }
    ensures short { AreShort (released_mets place released.now lengths.now) }
    ensures same { SameKept totals.old totals.new }
{
    for i in 0..released.len() {
        count_outcome(totals, place, lengths[i], &released[i].outcome);
    }
}
