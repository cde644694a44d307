//! Fast records among the entries.

ghost use Rattle.std.specs.Prelude.{◌≡◌, ◌+◌, ◌++◌, map, filter, flat_map, IfOk};
ghost use Rattle.mr_model.specs.Unfolded.{unfolded};
ghost use Rattle.mr_history.specs.Seen.{entry_seen};
ghost use Rattle.mr_history.specs.Merged.{lane_fast, step_of, is_at, AreSorted, AreFrom, SameFrom};

use crate::small::Records;
use crate::store::Store;
use crate::view::EntryView;
use crate::walking::copy_of;
use mr_base::LaneNo;
use mr_model::{FastRecord, Step};
use std::alloc::{AllocError, Global};

/// A fast record with its lane.
#[derive(Clone, Copy, Debug)]
pub(crate) struct LaneFast {
    pub lane: LaneNo,
    pub fast: FastRecord,
}

/// The records of one settle behind those before.
fn push_records(
    all: &mut Vec<LaneFast>,
    lane: LaneNo,
    records: &Records<'_>,
) -> Result<(), AllocError>
    ensures { IfOk result (λ _. all.new.items
        ≡ all.old.items ++ map (λ r. record { lane = lane; fast = r }) records.now) }
{
    for place in 0..records.len() {
        all.push(LaneFast {
            lane,
            fast: records.get(place),
        })?;
    }
    Ok(())
}

/// The records of one entry behind those before.
fn push_entry(all: &mut Vec<LaneFast>, seen: &EntryView<'_>) -> Result<(), AllocError>
    ensures { IfOk result (λ _. all.new.items ≡ all.old.items ++ lane_fast (entry_seen seen.now)) }
{
    if let EntryView::Settle { lane, records } = seen {
        push_records(all, *lane, records)?;
    }
    Ok(())
}

/// The fast records of all entries, in settle order.
pub(crate) fn fast_records(alloc: Global, store: &Store) -> Result<Vec<LaneFast>, AllocError>
    ensures { IfOk result (λ all. all.items ≡ flat_map lane_fast store.now.entries) }
{
    let mut all = Vec::new(alloc);
    for place in 0..store.len() {
        push_entry(&mut all, &store.entry(place))?;
    }
    Ok(all)
}

/// Moves the records with this look, which stand in front, behind the steps before.
fn push_seen<'a>(
    steps: &mut Vec<Step>,
    look: u32,
    sorted: &'a [LaneFast],
) -> Result<&'a [LaneFast], AllocError>
    requires sorted { AreSorted sorted.now }
    requires from { AreFrom look sorted.now }
    ensures steps { IfOk result (λ _. steps.new.items
        ≡ steps.old.items ++ map step_of (filter (is_at look) sorted.now)) }
    ensures sorted { IfOk result (λ rest. AreSorted rest.now) }
    ensures from { IfOk result (λ rest. AreFrom (look + 1) rest.now) }
    ensures same { IfOk result (λ rest. SameFrom (look + 1) rest.now sorted.now) }
{
    let mut rest = sorted;
    while let [next, after @ ..] = rest {
        if next.fast.look != look {
            return Ok(rest);
        }
        steps.push(Step::Fast {
            lane: next.lane,
            fast: next.fast,
        })?;
        rest = after;
    }
    Ok(rest)
}

/// The entries, each behind the records that saw all before it, and the rest of the records.
pub(crate) fn merge(
    alloc: Global,
    store: &Store,
    sorted: &[LaneFast],
) -> Result<Vec<Step>, AllocError>
    requires sorted { AreSorted sorted.now }
    requires same { SameFrom 0 sorted.now (flat_map lane_fast store.now.entries) }
    ensures { IfOk result (λ steps. steps.items ≡ unfolded store.now.entries) }
{
    let mut steps = Vec::with_capacity(alloc, sorted.len())?;
    let mut rest = sorted;
    for place in 0..store.len() {
        rest = push_seen(&mut steps, place, rest)?;
        steps.push(Step::Kept(copy_of(alloc, &store.entry(place))?))?;
    }
    push_seen(&mut steps, store.len(), rest)?;
    Ok(steps)
}
