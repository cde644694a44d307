//! Whether an entry may stand behind a history, whatever its looks are.

ghost use Rattle.std.specs.Prelude.{◌≡◌, ◌^◌, ◌≤◌, ◌<◌, ◌↔◌, IsTrue, IfSome, IfNone, List, length};
ghost use Rattle.std.specs.Prelude.{map};
ghost use Rattle.std.specs.List.{AllByRecursion};
ghost use Rattle.mr_model.specs.declared.entry.Entry.{Entry};
ghost use Rattle.mr_model.specs.declared.limits.Limits.{Limits};
ghost use Rattle.mr_base.specs.declared.limits.TheConstants.{MOST_DEVICES};
ghost use Rattle.mr_model.specs.Counts.{met};
ghost use Rattle.mr_model.specs.Legal.{IsLane, HasControl, message_for};
ghost use Rattle.mr_model.specs.State.{state};
ghost use Rattle.mr_plain.specs.Following.{IndexesRise, SlowFollows, SettleFollows, Follows};
ghost use Rattle.mr_plain.specs.Following.{IsAnswer};
ghost use Rattle.mr_plain_lists.specs.Knowing.{AreGroups, met_of, state_of};
ghost use Rattle.mr_plain.specs.Pasts.{IsPast, IsLanePast};

use crate::past::{LanePast, Past};
use crate::releasing::releases;
use mr_base::{DaemonNo, LaneNo, MOST_RECORDS};
use mr_model::{Entry, FastRecord, Flow, Limits, MessageId, Outcome, ReleasedId, Reply, Request};
use mr_plain_lists::{Known, Meeting, error_of, is_owner, outcome, reply};

/// Whether a daemon is one of the limits' and there is room for one more call, tick or receive.
fn has_control(limits: &Limits, past: &Past, daemon: DaemonNo) -> bool
    ensures { (h : List Entry) → IsPast limits.now h past.now →
        IsTrue result ↔ HasControl limits.now h daemon }
{
    1 <= daemon.0 && daemon.0 as usize <= limits.admins.0.as_slice().len() && 0 < past.controls_left
}

/// What a lane has done, if it is one of the limits'.
fn lane_of(past: &Past, lane: LaneNo) -> Option<LanePast>
    ensures some { (limits : Limits) (h : List Entry) → IsPast limits h past.now →
        IfSome result (λ l. IsLane limits lane × IsLanePast limits h lane l) }
    ensures none { (limits : Limits) (h : List Entry) → IsPast limits h past.now →
        IfNone result (IsLane limits lane → ⊥) }
{
    if lane.0 == 0 {
        return None;
    }
    let place = lane.0 as usize - 1;
    let lanes = past.lanes.as_slice();
    if place < lanes.len() {
        Some(lanes[place])
    } else {
        None
    }
}

/// Whether the indexes of records rise, all above this one.
fn indexes_rise(index: u32, records: &[FastRecord]) -> bool
    ensures { IsTrue result ↔ IndexesRise index records.now }
{
    let mut last = index;
    for r in records {
        if r.index <= last {
            return false;
        }
        last = r.index;
    }
    true
}

/// The message that a receive gives: the oldest unread report, for the owner alone.
fn message_for(known: &Known, daemon: DaemonNo) -> Option<MessageId>
    ensures { result ≡ message_for (state_of known.now) daemon }
{
    if !is_owner(known, daemon) {
        return None;
    }
    match known.unread.as_slice() {
        [] => None,
        [oldest, ..] => Some(*oldest),
    }
}

/// Whether a call's reply and the packets that it releases are the machine's.
fn call_follows(
    known: &Known,
    mets: &[Meeting],
    limits: &Limits,
    daemon: DaemonNo,
    request: &Request,
    reply_said: &Reply,
    released: &[ReleasedId],
) -> bool
    requires few { length mets.now < 2 ^ 32 }
    requires devices { length limits.now.devices ≤ MOST_DEVICES }
    requires vifs { AllByRecursion (λ v. v.vif < 32) known.now.vifs.items }
    requires groups { AreGroups known.now.waiting.items }
    requires room { known.now.count < 4294967295 }
    ensures { (g : List Entry) → met g ≡ map met_of mets.now → state limits.now g
        ≡ state_of known.now → IsTrue result ↔ IsAnswer limits.now g daemon request.now
        reply_said.now released.now }
{
    if !is_reply(reply_said, &reply(known, mets, limits, daemon, request)) {
        return false;
    }
    match error_of(known, limits, daemon, request) {
        Some(_) => released.is_empty(),
        None => releases(known, daemon, request, released),
    }
}

/// Whether two outcomes are the same.
fn is_outcome(said: &Outcome, outcome: &Outcome) -> bool
    ensures { IsTrue result ↔ (said.now ≡ outcome.now) }
{
    *said == *outcome
}

/// Whether two replies are the same.
fn is_reply(said: &Reply, reply: &Reply) -> bool
    ensures { IsTrue result ↔ (said.now ≡ reply.now) }
{
    *said == *reply
}

/// Whether a slow packet is its lane's next, and its outcome the machine's.
fn slow_follows(
    known: &Known,
    past: &Past,
    limits: &Limits,
    lane: LaneNo,
    index: u32,
    flow: &Flow,
    said: &Outcome,
) -> bool
    requires vifs { AllByRecursion (λ v. v.vif < 32) known.now.vifs.items }
    requires groups { AreGroups known.now.waiting.items }
    ensures { (g : List Entry) → IsPast limits.now g past.now → state limits.now g
        ≡ state_of known.now → IsTrue result
        ↔ SlowFollows limits.now g lane index flow.now said.now }
{
    match lane_of(past, lane) {
        None => false,
        Some(l) => {
            0 < l.left && l.last < index && is_outcome(said, &outcome(known, limits, flow))
        }
    }
}

/// Whether there are 1 to 64 records, which are the next packets of a lane that has done this.
fn lane_settles(l: &LanePast, records: &[FastRecord]) -> bool
    ensures { IsTrue result ↔ ((1 ≤ length records.now) × (length records.now ≤ 64)
        × (length records.now ≤ l.now.left) × IndexesRise l.now.last records.now) }
{
    let size = records.len();
    if size < 1 || MOST_RECORDS < size || (l.left as usize) < size {
        return false;
    }
    indexes_rise(l.last, records)
}

/// Whether a settle has 1 to 64 records, which are its lane's next packets.
fn settle_follows(past: &Past, lane: LaneNo, records: &[FastRecord]) -> bool
    ensures { (limits : Limits) (g : List Entry) → IsPast limits g past.now → IsTrue result
        ↔ SettleFollows limits g lane records.now }
{
    match lane_of(past, lane) {
        None => false,
        Some(l) => lane_settles(&l, records),
    }
}

/// Whether an entry may stand behind the history, whatever its looks are.
pub(crate) fn follows(
    known: &Known,
    mets: &[Meeting],
    past: &Past,
    limits: &Limits,
    entry: &Entry,
) -> bool
    requires few { length mets.now < 2 ^ 32 }
    requires devices { length limits.now.devices ≤ MOST_DEVICES }
    requires vifs { AllByRecursion (λ v. v.vif < 32) known.now.vifs.items }
    requires groups { AreGroups known.now.waiting.items }
    requires room { known.now.count < 4294967295 }
    ensures { (g : List Entry) → met g ≡ map met_of mets.now → state limits.now g
        ≡ state_of known.now → IsPast limits.now g past.now → IsTrue result
        ↔ Follows limits.now g entry.now }
{
    match entry {
        Entry::Call {
            daemon,
            request,
            reply,
            released,
        } => {
            let released = released.0.as_slice();
            has_control(limits, past, *daemon)
                && call_follows(known, mets, limits, *daemon, request, reply, released)
        }
        Entry::Slow {
            lane,
            index,
            flow,
            outcome,
            ..
        } => slow_follows(known, past, limits, *lane, *index, flow, outcome),
        Entry::Settle { lane, records } => settle_follows(past, *lane, records.0.as_slice()),
        Entry::Tick { daemon, .. } => has_control(limits, past, *daemon),
        Entry::Recv { daemon, message } => {
            has_control(limits, past, *daemon) && *message == message_for(known, *daemon)
        }
        Entry::EndPhase => 0 < past.phases_left,
    }
}
