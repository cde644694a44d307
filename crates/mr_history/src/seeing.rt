//! Kept entries, seen in place.

ghost use Rattle.std.specs.Prelude.{◌≡◌, ◌≤◌, ◌+◌, length, Some};
ghost use Rattle.mr_history.specs.Seen.{entry_seen};
ghost use Rattle.mr_history.specs.Small.{fast_of};
ghost use Rattle.mr_history.specs.Stores.{part, forward_of, slow_of};

use crate::small::{KeptRecord, fast_of};
use crate::store::KeptSlow;
use crate::view::EntryView;
use mr_base::LaneNo;
use mr_model::Outcome;

/// So many elements from a place on.
pub(crate) fn part<T>(items: &[T], first: u32, count: u32) -> &[T]
    requires { first + count ≤ length items.now }
    ensures items { result.now ≡ part items.now first count }
    ensures len { length result.now ≡ count }
{
    let first = first as usize;
    &items[first..first + count as usize]
}

/// The entry of a packet that was forwarded plainly under the lock.
pub(crate) fn forward_of<'a>(lane: LaneNo, kept: &KeptRecord) -> EntryView<'a>
    ensures { entry_seen result ≡ forward_of lane (Some (fast_of kept.now)) }
{
    let fast = fast_of(kept);
    EntryView::Slow {
        lane,
        index: fast.index,
        look: fast.look,
        flow: fast.flow,
        outcome: Outcome::Forward {
            entry: fast.entry,
            input: fast.input,
            outs: fast.outs,
        },
    }
}

/// The entry of a packet with another outcome.
pub(crate) fn slow_of<'a>(kept: &KeptSlow) -> EntryView<'a>
    ensures { entry_seen result ≡ slow_of (Some kept.now) }
{
    EntryView::Slow {
        lane: kept.lane,
        index: kept.index,
        look: kept.look,
        flow: kept.flow,
        outcome: kept.outcome,
    }
}
