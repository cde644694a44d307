//! The packets that were forwarded without the lock, by what their looks had seen.

ghost use Rattle.std.specs.Prelude.{◌≡◌, ◌++◌, map, flat_map, IfOk, OnOk};
ghost use Rattle.mr_egress.specs.FastOrder.{AreFastOf, fast_of, fast_sent};
ghost use Rattle.mr_history.specs.Seen.{entry_seen};

use mr_base::{LaneNo, Mask, Memory};
use mr_history::{EntryView, Journal, Records};
use std::alloc::{AllocError, Global};
use std::marker::Model;

/// A packet that was forwarded without the lock: where it stands, and on what it went out.
#[derive(Clone, Copy, Debug)]
pub struct FastSent {
    pub lane: LaneNo,
    pub index: u32,
    /// How many history entries the tables had seen by which it was decided.
    pub look: u32,
    pub outs: Mask,
}

/// The packets of a history that were forwarded without the lock, by their looks, and those with
/// one look in settle order. Contracts see them as a list.
#[derive(Debug, Drop)]
pub struct FastPackets(Vec<FastSent>);

impl Model for FastPackets {
    ghost use Rattle.std.specs.Prelude.{List};
    ghost use Rattle.mr_egress.specs.declared.fast.FastSent.{FastSent};

    ghost Value = { List FastSent };

    ghost view = { λ a. a.0.items };
}

/// The packets of one settle behind those before.
fn push_records(
    all: &mut Vec<FastSent>,
    lane: LaneNo,
    records: &Records<'_>,
) -> Result<(), AllocError>
    ensures { OnOk result (all.new.items ≡ all.old.items ++ map (fast_sent lane) records.now) }
{
    for place in 0..records.len() {
        let record = records.get(place);
        all.push(FastSent {
            lane,
            index: record.index,
            look: record.look,
            outs: record.outs,
        })?;
    }
    Ok(())
}

/// The packets of one entry behind those before.
fn push_entry(all: &mut Vec<FastSent>, seen: &EntryView<'_>) -> Result<(), AllocError>
    ensures { OnOk result (all.new.items ≡ all.old.items ++ fast_of (entry_seen seen.now)) }
{
    if let EntryView::Settle { lane, records } = seen {
        push_records(all, *lane, records)?;
    }
    Ok(())
}

/// The fast packets of a history, in settle order.
fn in_settle_order(alloc: Global, journal: &Journal) -> Result<Vec<FastSent>, AllocError>
    ensures { IfOk result (λ all. all.items ≡ flat_map fast_of journal.now.entries) }
{
    let mut all = Vec::new(alloc);
    for place in 0..journal.len() {
        push_entry(&mut all, &journal.entry(place))?;
    }
    Ok(all)
}

/// The fast packets of a history, by their looks.
fn by_looks(alloc: Global, journal: &Journal) -> Result<Vec<FastSent>, AllocError>
    ensures { IfOk result (λ all. AreFastOf all.items journal.now.entries) }
{
    let mut all = in_settle_order(alloc, journal)?;
    all.sort_by_key(|p| p.look)?;
    Ok(all)
}

impl FastPackets {
    /// Those of a journal's history: one pass over it, and one sort. A history without settles has
    /// none, and then it takes no memory.
    ///
    /// # Errors
    ///
    /// [`Memory`] where memory runs out.
    pub fn of(alloc: Global, journal: &Journal) -> Result<FastPackets, Memory>
        ensures { IfOk result (λ fast. AreFastOf fast journal.now.entries) }
    {
        match by_looks(alloc, journal) {
            Ok(all) => Ok(FastPackets(all)),
            Err(_) => Err(Memory),
        }
    }

    /// The packets in order.
    pub(crate) fn as_slice(&self) -> &[FastSent]
        ensures { result.now ≡ self.now }
    {
        self.0.as_slice()
    }
}
