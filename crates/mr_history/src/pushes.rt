//! One more entry.

ghost use Rattle.std.specs.Prelude.{◌≡◌, ◌<◌, ◌≤◌, ◌+◌, length, map};
ghost use Rattle.std.specs.List.{AllByRecursion};
ghost use Rattle.mr_model.specs.declared.entry.Entry.TheVariants.{Call, Slow, Settle, Tick, Recv};
ghost use Rattle.mr_model.specs.declared.entry.Entry.TheVariants.{EndPhase};
ghost use Rattle.mr_model.specs.Counts.{length_of};
ghost use Rattle.mr_model.specs.Past.{controls, packets, phases};
ghost use Rattle.mr_model.specs.Legal.{IsLane, packets_given};
ghost use Rattle.mr_history.specs.Journals.{with_entry, NamesUpTo};
ghost use Rattle.mr_history.specs.declared.most.TheConstants.{LAST_DEVICE, MOST_RECORDS};
ghost use Rattle.mr_history.specs.declared.most.TheConstants.{MOST_RELEASED};

use crate::counting_all::{count_fast, count_outcome, count_released};
use crate::journal::Journal;
use mr_base::{DaemonNo, LaneNo};
use mr_model::{FastRecord, Flow, MessageId, Outcome, ReleasedId, Reply, Request};

impl Journal {
    /// A call, its answer, and the packets that it released, at most
    /// [`MOST_RELEASED`](crate::MOST_RELEASED), with their total lengths in bytes. A control entry
    /// has to be left.
    pub fn push_call(
        &mut self,
        daemon: DaemonNo,
        request: &Request,
        reply: &Reply,
        released: &[ReleasedId],
        lengths: &[u16],
    )
        requires left { controls self.old.entries < self.old.limits.controls }
        requires few { length released.now ≤ MOST_RELEASED }
        requires lengths { lengths.now
            ≡ map (λ r. length_of self.old.entries r.lane r.index) released.now }
        requires named { AllByRecursion
            (λ r. NamesUpTo (length self.old.entries + 1) r.outcome) released.now }
        ensures { self.new ≡ with_entry self.old (Call daemon request.now reply.now released.now) }
    {
        let place = self.store.len() + 1;
        count_released(&mut self.totals, place, released, lengths);
        self.store.push_call(daemon, request, reply, released);
        self.controls_left -= 1;
    }

    /// A tick of so many milliseconds. A control entry has to be left.
    pub fn push_tick(&mut self, daemon: DaemonNo, ms: u32)
        requires { controls self.old.entries < self.old.limits.controls }
        ensures { self.new ≡ with_entry self.old (Tick daemon ms) }
    {
        self.store.push_tick(daemon, ms);
        self.controls_left -= 1;
    }

    /// A receive, and what it gave. A control entry has to be left.
    pub fn push_recv(&mut self, daemon: DaemonNo, message: Option<MessageId>)
        requires { controls self.old.entries < self.old.limits.controls }
        ensures { self.new ≡ with_entry self.old (Recv daemon message) }
    {
        self.store.push_recv(daemon, message);
        self.controls_left -= 1;
    }

    /// A packet that was decided under the lock. The lane has to have a packet left.
    pub fn push_slow(&mut self, lane: LaneNo, index: u32, look: u32, flow: &Flow, outcome: &Outcome)
        requires lane { IsLane self.old.limits lane }
        requires left { packets lane self.old.entries < packets_given self.old.limits lane }
        requires look { look ≤ length self.old.entries }
        requires device { flow.now.dev ≤ LAST_DEVICE }
        requires named { NamesUpTo (length self.old.entries + 1) outcome.now }
        ensures { self.new ≡ with_entry self.old (Slow lane index look flow.now outcome.now) }
    {
        let place = self.store.len();
        count_outcome(&mut self.totals, place, flow.length, outcome);
        self.store.push_slow(lane, index, look, flow, outcome);
        self.packets_left[lane.0 as usize - 1] -= 1;
    }

    /// A settle of 1 to [`MOST_RECORDS`](crate::MOST_RECORDS) records. The lane has to have so
    /// many packets left.
    pub fn push_settle(&mut self, lane: LaneNo, records: &[FastRecord])
        requires lane { IsLane self.old.limits lane }
        requires some { 1 ≤ length records.now }
        requires most { length records.now ≤ MOST_RECORDS }
        requires left { packets lane self.old.entries + length records.now
            ≤ packets_given self.old.limits lane }
        requires looks { AllByRecursion (λ r. r.look ≤ length self.old.entries) records.now }
        requires named { AllByRecursion (λ r. r.entry ≤ length self.old.entries) records.now }
        requires devices { AllByRecursion (λ r. r.flow.dev ≤ LAST_DEVICE) records.now }
        ensures { self.new ≡ with_entry self.old (Settle lane records.now) }
    {
        count_fast(&mut self.totals, records);
        self.store.push_settle(lane, records);
        self.packets_left[lane.0 as usize - 1] -= records.len() as u32;
    }

    /// The end of a phase. A phase has to be left.
    pub fn push_phase(&mut self)
        requires { phases self.old.entries < self.old.limits.phases }
        ensures { self.new ≡ with_entry self.old EndPhase }
    {
        self.store.push_phase();
        self.phases_left -= 1;
    }
}
