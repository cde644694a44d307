//! What lanes and daemons have left of their limits, and each lane's last packet.

ghost use Rattle.std.specs.Prelude.{◌≡◌, ◌-◌, ◌≤◌, ◌++◌, ◌∷◌, [], List, length, fold, map};
ghost use Rattle.std.specs.Prelude.{slice_set, IfOk};
ghost use Rattle.mr_model.specs.declared.entry.Entry.{Entry};
ghost use Rattle.mr_model.specs.declared.limits.Limits.{Limits};
ghost use Rattle.mr_plain.specs.Following.{Follows};
ghost use Rattle.mr_plain.specs.Pasts.{IsPast, CanTake, fresh_lane, lane_at};

use mr_base::LaneNo;
use mr_model::{Entry, FastRecord};
use std::alloc::{AllocError, Global};

/// What a lane has left.
#[derive(Clone, Copy, Debug)]
pub(crate) struct LanePast {
    /// How many packets the limits leave it.
    pub(crate) left: u32,
    /// The index of its last packet, or 0.
    pub(crate) last: u32,
}

/// What is left of the limits.
#[derive(Debug, Drop)]
pub(crate) struct Past {
    /// Calls, ticks and receives.
    pub(crate) controls_left: u32,
    pub(crate) phases_left: u32,
    /// Lane 1 stands first.
    pub(crate) lanes: Vec<LanePast>,
}

/// The index of the last record; `before` where there is none.
fn last_of(before: u32, records: &[FastRecord]) -> u32
    ensures { result ≡ fold (λ b r. r.index) before records.now }
{
    let mut last = before;
    for r in records {
        last = r.index;
    }
    last
}

/// A lane's next packets, the last of which has this index.
fn go_on(lanes: &mut Vec<LanePast>, lane: LaneNo, packets: usize, last: u32)
    requires first { 1 ≤ lane.0 }
    requires last { lane.0 ≤ length lanes.old.items }
    requires left { packets ≤ (lane_at lanes.old.items lane).left }
    ensures { lanes.new.items ≡ slice_set lanes.old.items (lane.0 - 1)
        (record { left = (lane_at lanes.old.items lane).left - packets; last = last }) }
{
    let place = lane.0 as usize - 1;
    let left = lanes[place].left - packets as u32;
    lanes[place] = LanePast { left, last };
}

impl Past {
    /// What is left before the first entry.
    ///
    /// # Errors
    ///
    /// Where memory runs out.
    pub(crate) fn new(
        alloc: Global,
        controls_left: u32,
        phases_left: u32,
        packets: &[u32],
    ) -> Result<Past, AllocError>
        ensures controls { IfOk result (λ past. past.controls_left ≡ controls_left) }
        ensures phases { IfOk result (λ past. past.phases_left ≡ phases_left) }
        ensures lanes { IfOk result (λ past. past.lanes.items ≡ map fresh_lane packets.now) }
    {
        let mut lanes = Vec::with_capacity(alloc, packets.len())?;
        for &left in packets {
            lanes.push(LanePast { left, last: 0 })?;
        }
        Ok(Past {
            controls_left,
            phases_left,
            lanes,
        })
    }

    /// What is left behind an entry that follows.
    pub(crate) fn take(&mut self, entry: &Entry)
        requires { CanTake self.old entry.now }
        ensures { (limits : Limits) (h : List Entry) → IsPast limits h self.old →
            Follows limits h entry.now → IsPast limits (h ++ entry.now ∷ []) self.new }
    {
        match entry {
            Entry::Call { .. } | Entry::Tick { .. } | Entry::Recv { .. } => {
                self.controls_left -= 1;
            }
            Entry::Slow { lane, index, .. } => go_on(&mut self.lanes, *lane, 1, *index),
            Entry::Settle { lane, records } => {
                let records = records.0.as_slice();
                let last = last_of(self.lanes[lane.0 as usize - 1].last, records);
                go_on(&mut self.lanes, *lane, records.len(), last);
            }
            Entry::EndPhase => self.phases_left -= 1,
        }
    }
}
