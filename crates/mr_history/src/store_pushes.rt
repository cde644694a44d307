//! One more entry among those that are kept.

ghost use Rattle.std.specs.Prelude.{◌≡◌, ◌≤◌, ◌+◌, ◌++◌, length, map};
ghost use Rattle.std.specs.List.{AllByRecursion};
ghost use Rattle.std.specs.Vec.{vec_capacity};
ghost use Rattle.mr_history.specs.declared.most.TheConstants.{LAST_DEVICE};
ghost use Rattle.mr_history.specs.Small.{fast_of};

use crate::small::{KeptRecord, keep};
use crate::store::{Kept, KeptCall, KeptSlow, Store};
use mr_base::{DaemonNo, LaneNo};
use mr_model::{FastRecord, Flow, MessageId, Outcome, ReleasedId, Reply, Request};

/// Puts records behind those that are kept, which have room for them.
fn keep_all(kept: &mut Vec<KeptRecord>, records: &[FastRecord])
    requires room { length kept.old.items + length records.now ≤ vec_capacity kept.old }
    requires devices { AllByRecursion (λ r. r.flow.dev ≤ LAST_DEVICE) records.now }
    ensures items { map fast_of kept.new.items ≡ map fast_of kept.old.items ++ records.now }
    ensures capacity { vec_capacity kept.new ≡ vec_capacity kept.old }
{
    for fast in records {
        kept.push_reserved(keep(fast));
    }
}

/// Puts released packets behind those that are kept, which have room for them.
fn release_all(kept: &mut Vec<ReleasedId>, released: &[ReleasedId])
    requires room { length kept.old.items + length released.now ≤ vec_capacity kept.old }
    ensures items { kept.new.items ≡ kept.old.items ++ released.now }
    ensures capacity { vec_capacity kept.new ≡ vec_capacity kept.old }
{
    for packet in released {
        kept.push_reserved(*packet);
    }
}

impl Store {
    ghost use Rattle.std.specs.Prelude.{◌≡◌, ◌≤◌, ◌∷◌, ◌++◌, [], length};
    ghost use Rattle.std.specs.List.{AllByRecursion};
    ghost use Rattle.mr_model.specs.declared.entry.Entry.TheVariants as entry;
    ghost use Rattle.mr_model.specs.declared.outcome.Outcome.TheVariants as outcome;
    ghost use Rattle.mr_history.specs.declared.most.TheConstants.{LAST_DEVICE, MOST_RELEASED};
    ghost use Rattle.mr_history.specs.StoreValues.{LeavesRoom};

    /// A call, its answer, and the packets that it released.
    pub(crate) fn push_call(
        &mut self,
        daemon: DaemonNo,
        request: &Request,
        reply: &Reply,
        released: &[ReleasedId],
    )
        requires entries { 1 ≤ self.old.spare.entries }
        requires calls { 1 ≤ self.old.spare.calls }
        requires released { length released.now ≤ self.old.spare.released }
        requires few { length released.now ≤ MOST_RELEASED }
        ensures entries { self.new.entries
            ≡ self.old.entries ++ entry.Call daemon request.now reply.now released.now ∷ [] }
        ensures room { LeavesRoom self.old.spare self.new.spare 1 0 1 (length released.now) }
    {
        let call = self.calls.as_slice().len() as u32;
        let first = self.released.as_slice().len() as u32;
        self.calls.push_reserved(KeptCall {
            daemon,
            request: *request,
            reply: *reply,
        });
        release_all(&mut self.released, released);
        self.kept.push_reserved(Kept::Call {
            call,
            first,
            count: released.len() as u32,
        });
    }

    /// A packet that was decided under the lock.
    pub(crate) fn push_slow(
        &mut self,
        lane: LaneNo,
        index: u32,
        look: u32,
        flow: &Flow,
        outcome: &Outcome,
    )
        requires entries { 1 ≤ self.old.spare.entries }
        requires packets { 1 ≤ self.old.spare.packets }
        requires device { flow.now.dev ≤ LAST_DEVICE }
        ensures entries { self.new.entries
            ≡ self.old.entries ++ entry.Slow lane index look flow.now outcome.now ∷ [] }
        ensures room { LeavesRoom self.old.spare self.new.spare 1 1 0 0 }
    {
        let flow = *flow;
        match *outcome {
            Outcome::Forward { entry, input, outs } => self.push_forward(
                lane,
                &FastRecord {
                    index,
                    look,
                    entry,
                    input,
                    outs,
                    flow,
                },
            ),
            outcome => self.push_other(KeptSlow {
                lane,
                index,
                look,
                flow,
                outcome,
            }),
        }
    }

    /// A packet that was forwarded plainly under the lock.
    fn push_forward(&mut self, lane: LaneNo, fast: &FastRecord)
        requires entries { 1 ≤ self.old.spare.entries }
        requires packets { 1 ≤ self.old.spare.packets }
        requires device { fast.now.flow.dev ≤ LAST_DEVICE }
        ensures entries { self.new.entries ≡ self.old.entries
            ++ entry.Slow lane fast.now.index fast.now.look fast.now.flow
            (outcome.Forward fast.now.entry fast.now.input fast.now.outs) ∷ [] }
        ensures room { LeavesRoom self.old.spare self.new.spare 1 1 0 0 }
    {
        let at = self.records.as_slice().len() as u32;
        self.records.push_reserved(keep(fast));
        self.kept.push_reserved(Kept::Forward { lane, at });
    }

    /// A packet with another outcome.
    fn push_other(&mut self, slow: KeptSlow)
        requires entries { 1 ≤ self.old.spare.entries }
        requires packets { 1 ≤ self.old.spare.packets }
        ensures entries { self.new.entries ≡ self.old.entries
            ++ entry.Slow slow.lane slow.index slow.look slow.flow slow.outcome ∷ [] }
        ensures room { LeavesRoom self.old.spare self.new.spare 1 1 0 0 }
    {
        let at = self.slows.as_slice().len() as u32;
        self.slows.push_reserved(slow);
        self.kept.push_reserved(Kept::Slow { slow: at });
    }

    /// The records of a settle.
    pub(crate) fn push_settle(&mut self, lane: LaneNo, records: &[FastRecord])
        requires entries { 1 ≤ self.old.spare.entries }
        requires packets { length records.now ≤ self.old.spare.packets }
        requires devices { AllByRecursion (λ r. r.flow.dev ≤ LAST_DEVICE) records.now }
        ensures entries { self.new.entries
            ≡ self.old.entries ++ entry.Settle lane records.now ∷ [] }
        ensures room { LeavesRoom self.old.spare self.new.spare 1 (length records.now) 0 0 }
    {
        let first = self.records.as_slice().len() as u32;
        keep_all(&mut self.records, records);
        self.kept.push_reserved(Kept::Settle {
            lane,
            first,
            count: records.len() as u32,
        });
    }

    pub(crate) fn push_tick(&mut self, daemon: DaemonNo, ms: u32)
        requires { 1 ≤ self.old.spare.entries }
        ensures entries { self.new.entries ≡ self.old.entries ++ entry.Tick daemon ms ∷ [] }
        ensures room { LeavesRoom self.old.spare self.new.spare 1 0 0 0 }
    {
        self.kept.push_reserved(Kept::Tick { daemon, ms });
    }

    pub(crate) fn push_recv(&mut self, daemon: DaemonNo, message: Option<MessageId>)
        requires { 1 ≤ self.old.spare.entries }
        ensures entries { self.new.entries ≡ self.old.entries ++ entry.Recv daemon message ∷ [] }
        ensures room { LeavesRoom self.old.spare self.new.spare 1 0 0 0 }
    {
        self.kept.push_reserved(Kept::Recv { daemon, message });
    }

    pub(crate) fn push_phase(&mut self)
        requires { 1 ≤ self.old.spare.entries }
        ensures entries { self.new.entries ≡ self.old.entries ++ entry.EndPhase ∷ [] }
        ensures room { LeavesRoom self.old.spare self.new.spare 1 0 0 0 }
    {
        self.kept.push_reserved(Kept::EndPhase);
    }
}
