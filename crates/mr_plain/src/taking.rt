//! What an entry that follows makes of the state.

ghost use Rattle.std.specs.Prelude.{◌≡◌, ◌+◌, ◌^◌, ◌<◌, ◌≤◌, ◌++◌, [], ◌∷◌, find, fold, length};
ghost use Rattle.std.specs.Prelude.{map};
ghost use Rattle.std.specs.Prelude.{option_to_list, IfSome};
ghost use Rattle.std.specs.List.{position};
ghost use Rattle.std.specs.Vec.{vec_len, vec_capacity};
ghost use Rattle.mr_base.specs.declared.limits.TheConstants.{MOST_DEVICES};
ghost use Rattle.mr_model.specs.declared.limits.Limits.{Limits};
ghost use Rattle.mr_model.specs.declared.outcome.Outcome.TheVariants.{Parked};
ghost use Rattle.mr_model.specs.declared.reply.Reply.TheVariants.{Good};
ghost use Rattle.mr_model.specs.Messages.{told_by, attempts_by};
ghost use Rattle.mr_model.specs.State.{granted, reported, after_released, arrived, ticked};
ghost use Rattle.mr_model.specs.State.{received, called, effect, step};
ghost use Rattle.mr_model.specs.State.{owner_by, waiting_by, unread_by};
ghost use Rattle.mr_model.specs.WaitingList.{is_awaiting, park, without_awaiting, unexpired};
ghost use Rattle.mr_plain_lists.specs.Finding.{HasPlace};
ghost use Rattle.mr_plain_lists.specs.Knowing.{IsGroup, AreGroups, waiter, awaiting, attempt};
ghost use Rattle.mr_plain_lists.specs.Knowing.{state_of};
ghost use Rattle.mr_plain_lists.specs.SmallRequests.{IsSmall};
ghost use Rattle.mr_plain.specs.Room.{IsSmallEntry, JoinsOne, HasRoom, size_of};

use crate::releasing::attempted;
use mr_base::{Addr, DaemonNo, Device, EXPIRY_MS, LaneNo, VifRecord};
use mr_model::{Entry, Flow, Kind, Limits, MessageId, Outcome, ReleasedId, Reply, Report, Request};
use mr_plain_lists::{
    Group, Held, Known, MOST_HELD, MRT_FLUSH_MFC, Tried, change, group_of, has_flag, has_named,
    is_owner, register_vif, vif_on, what_of,
};

/// The report that a decided packet pushes.
fn message_of(vifs: &[VifRecord], lane: LaneNo, index: u32, outcome: &Outcome) -> Option<MessageId>
    ensures { told_by vifs.now lane index outcome.now ≡ option_to_list result }
{
    let (kind, vif) = match *outcome {
        Outcome::Register { told: true, .. } => {
            (Kind::WholePkt, register_vif(vifs).unwrap_or(0))
        }
        Outcome::Wrong {
            vif,
            report: Report::Told,
            ..
        } => (Kind::WrongVif, vif.unwrap_or(0)),
        _ => return None,
    };
    Some(MessageId {
        kind,
        vif,
        lane,
        index,
    })
}

/// Pushes the report that a decided packet tells.
fn tell(known: &mut Known, lane: LaneNo, index: u32, outcome: &Outcome)
    requires { vec_len known.old.unread < vec_capacity known.old.unread }
    ensures unread { known.new.unread.items ≡ known.old.unread.items
        ++ told_by known.old.vifs.items lane index outcome.now }
    ensures len { vec_len known.new.unread ≤ vec_len known.old.unread + 1 }
    ensures room { vec_capacity known.new.unread ≡ vec_capacity known.old.unread }
    ensures rest { known.new ≡ record known.old { unread = known.new.unread } }
{
    if let Some(message) = message_of(known.vifs.as_slice(), lane, index, outcome) {
        known.unread.push_reserved(message);
    }
}

/// Keeps the attempt that a decided packet makes.
fn try_report(known: &mut Known, outcome: &Outcome)
    requires { vec_len known.old.attempts < vec_capacity known.old.attempts }
    ensures attempts { map attempt known.new.attempts.items
        ≡ attempts_by known.old.moment outcome.now ++ map attempt known.old.attempts.items }
    ensures len { vec_len known.new.attempts ≤ vec_len known.old.attempts + 1 }
    ensures room { vec_capacity known.new.attempts ≡ vec_capacity known.old.attempts }
    ensures rest { known.new ≡ record known.old { attempts = known.new.attempts } }
{
    if let Some(entry) = attempted(outcome) {
        let moment = known.moment;
        let _ = known.attempts.insert(0, Tried { entry, moment });
    }
}

/// What a decided packet tells and attempts.
fn report(known: &mut Known, lane: LaneNo, index: u32, outcome: &Outcome)
    requires unread { vec_len known.old.unread < vec_capacity known.old.unread }
    requires attempts { vec_len known.old.attempts < vec_capacity known.old.attempts }
    ensures state { state_of known.new ≡ reported (state_of known.old) lane index outcome.now }
    ensures len { vec_len known.new.unread ≤ vec_len known.old.unread + 1 }
    ensures room { vec_capacity known.new.unread ≡ vec_capacity known.old.unread }
    ensures len_tried { vec_len known.new.attempts ≤ vec_len known.old.attempts + 1 }
    ensures room_tried { vec_capacity known.new.attempts ≡ vec_capacity known.old.attempts }
    ensures waiting { known.new.waiting ≡ known.old.waiting }
    ensures moment { known.new.moment ≡ known.old.moment }
{
    tell(known, lane, index, outcome);
    try_report(known, outcome);
}

/// What released packets tell and attempt, one after another.
fn report_all(known: &mut Known, released: &[ReleasedId])
    requires unread { vec_len known.old.unread + length released.now
        ≤ vec_capacity known.old.unread }
    requires attempts { vec_len known.old.attempts + length released.now
        ≤ vec_capacity known.old.attempts }
    ensures state { state_of known.new ≡ fold after_released (state_of known.old) released.now }
    ensures waiting { known.new.waiting ≡ known.old.waiting }
    ensures moment { known.new.moment ≡ known.old.moment }
{
    for x in released {
        report(known, x.lane, x.index, &x.outcome);
    }
}

/// Whether the packets that wait are of this source and group.
fn is_group_of(group: &Group, src: Addr, dst: Addr) -> bool
    ensures { result ≡ is_awaiting src dst (awaiting group.now) }
{
    group.src.0 == src.0 && group.dst.0 == dst.0
}

/// The packets that wait, with one more.
fn joined(group: &Group, packet: Held) -> Group
    requires group { IsGroup group.now }
    requires room { group.now.count < 4 }
    ensures packets { awaiting result ≡ record (awaiting group.now) {
      packets = (awaiting group.now).packets ++ waiter packet ∷ [];
    } }
    ensures group { IsGroup result }
{
    let mut packets = group.packets;
    packets[group.count] = packet;
    Group {
        packets,
        count: group.count + 1,
        ..*group
    }
}

/// A packet that waits alone.
fn group_with(moment: u64, packet: Held) -> Group
    ensures packets { awaiting result ≡ record {
      src = packet.flow.src;
      dst = packet.flow.dst;
      since = moment;
      packets = waiter packet ∷ [];
    } }
    ensures group { IsGroup result }
{
    Group {
        src: packet.flow.src,
        dst: packet.flow.dst,
        since: moment,
        packets: [packet; MOST_HELD],
        count: 1,
    }
}

/// The place of the packets of this source and group.
fn place_of(waiting: &[Group], src: Addr, dst: Addr) -> Option<usize>
    ensures { result ≡ position (λ g. is_awaiting src dst (awaiting g)) waiting.now }
{
    waiting.iter().position(|g| is_group_of(g, src, dst))
}

/// A packet joins those of its source and group, or waits as the first of them.
fn park(waiting: &mut Vec<Group>, moment: u64, packet: Held)
    requires room { vec_len waiting.old < vec_capacity waiting.old }
    requires joins { IfSome (find (λ g. is_awaiting packet.flow.src packet.flow.dst (awaiting g))
        waiting.old.items) (λ g. g.count < 4) }
    requires groups { AreGroups waiting.old.items }
    ensures parked { map awaiting waiting.new.items
        ≡ park (map awaiting waiting.old.items) moment (waiter packet) }
    ensures few { AreGroups waiting.old.items → AreGroups waiting.new.items }
{
    let place = place_of(waiting.as_slice(), packet.flow.src, packet.flow.dst);
    match place {
        Some(at) => waiting[at] = joined(&waiting[at], packet),
        None => waiting.push_reserved(group_with(moment, packet)),
    }
}

/// A new entry takes the packets of its source and group.
fn remove_group(waiting: &mut Vec<Group>, src: Addr, dst: Addr)
    ensures left { map awaiting waiting.new.items
        ≡ without_awaiting (map awaiting waiting.old.items) src dst }
    ensures few { AreGroups waiting.old.items → AreGroups waiting.new.items }
{
    waiting.retain(|g| !is_group_of(g, src, dst));
}

/// Packets that have waited for ten seconds go.
fn expire(waiting: &mut Vec<Group>, moment: u64)
    ensures left { map awaiting waiting.new.items
        ≡ unexpired moment (map awaiting waiting.old.items) }
    ensures few { AreGroups waiting.old.items → AreGroups waiting.new.items }
{
    waiting.retain(|g| moment.saturating_sub(g.since) < EXPIRY_MS);
}

/// What a good call makes of the packets that wait, before it changes the tables.
fn drop_waiting(known: &mut Known, request: &Request)
    ensures left { map awaiting known.new.waiting.items
        ≡ waiting_by (state_of known.old) request.now }
    ensures few { AreGroups known.old.waiting.items → AreGroups known.new.waiting.items }
    ensures rest { known.new ≡ record known.old { waiting = known.new.waiting } }
{
    let routes = &known.routes;
    match request {
        Request::AddMfc(c) => {
            if !has_named(routes, c.src, c.dst, None) {
                remove_group(&mut known.waiting, c.src, c.dst);
            }
        }
        Request::AddProxy(c) => {
            if !has_named(routes, c.src, c.dst, Some(c.parent)) {
                remove_group(&mut known.waiting, c.src, c.dst);
            }
        }
        Request::Finish => known.waiting.clear(),
        Request::Flush(flags) => {
            if has_flag(*flags, MRT_FLUSH_MFC) {
                known.waiting.clear();
            }
        }
        _ => {}
    }
}

/// The owner that a good call leaves; MRT_DONE empties the unread reports.
fn set_owner(known: &mut Known, daemon: DaemonNo, request: &Request)
    ensures owner { known.new.owner ≡ owner_by known.old.owner daemon request.now }
    ensures unread { known.new.unread.items ≡ unread_by known.old.unread.items request.now }
    ensures len { vec_len known.new.unread ≤ vec_len known.old.unread }
    ensures room { vec_capacity known.old.unread ≤ vec_capacity known.new.unread }
    ensures rest { known.new
        ≡ record known.old { owner = known.new.owner; unread = known.new.unread } }
{
    match request {
        Request::Init => known.owner = Some(daemon),
        Request::Finish => {
            known.owner = None;
            known.unread.clear();
        }
        _ => {}
    }
}

/// What a good call changes.
fn grant(known: &mut Known, daemon: DaemonNo, devices: &[Device], request: &Request)
    requires small { IsSmall request.now }
    requires devices { length devices.now ≤ MOST_DEVICES }
    requires count { known.old.count < 4294967295 }
    requires vifs { vec_len known.old.vifs < vec_capacity known.old.vifs }
    requires routes { HasPlace known.old.routes }
    ensures state { (limits : Limits) → limits.devices ≡ devices.now →
        state_of known.new ≡ granted limits (state_of known.old) daemon request.now }
    ensures few { AreGroups known.old.waiting.items → AreGroups known.new.waiting.items }
    ensures moment { known.new.moment ≡ known.old.moment }
    ensures attempts { known.new.attempts ≡ known.old.attempts }
    ensures len { vec_len known.new.unread ≤ vec_len known.old.unread }
    ensures room { vec_capacity known.old.unread ≤ vec_capacity known.new.unread }
{
    let fixed = !is_owner(known, daemon);
    let number = known.count + 1;
    let what = what_of(known, devices, fixed, request);
    drop_waiting(known, request);
    if let Some(what) = what {
        change(known, number, &what);
    }
    set_owner(known, daemon, request);
}

/// A packet is parked; where none of its source and group waited, that is reported.
fn park_packet(known: &mut Known, packet: Held)
    requires unread { vec_len known.old.unread < vec_capacity known.old.unread }
    requires waiting { vec_len known.old.waiting < vec_capacity known.old.waiting }
    requires joins { IfSome (find (λ g. is_awaiting packet.flow.src packet.flow.dst (awaiting g))
        known.old.waiting.items) (λ g. g.count < 4) }
    requires groups { AreGroups known.old.waiting.items }
    ensures state { state_of known.new ≡ arrived (state_of known.old) packet.lane packet.index
        packet.flow Parked }
    ensures few { AreGroups known.old.waiting.items → AreGroups known.new.waiting.items }
{
    let Flow { dev, src, dst, .. } = packet.flow;
    if group_of(known.waiting.as_slice(), src, dst).is_none() {
        known.unread.push_reserved(MessageId {
            kind: Kind::NoCache,
            vif: vif_on(known.vifs.as_slice(), dev).unwrap_or(0),
            lane: packet.lane,
            index: packet.index,
        });
    }
    park(&mut known.waiting, known.moment, packet);
}

/// Time goes on, and what has waited for ten seconds goes.
fn tick(known: &mut Known, ms: u32)
    requires { known.old.moment + ms < 2 ^ 64 }
    ensures state { state_of known.new ≡ ticked (state_of known.old) ms }
    ensures few { AreGroups known.old.waiting.items → AreGroups known.new.waiting.items }
{
    known.moment += u64::from(ms);
    expire(&mut known.waiting, known.moment);
}

/// A receive takes the message that it gives from the front.
fn receive(known: &mut Known, message: Option<MessageId>)
    ensures state { state_of known.new ≡ received (state_of known.old) message }
    ensures few { AreGroups known.old.waiting.items → AreGroups known.new.waiting.items }
{
    if message.is_some() && !known.unread.as_slice().is_empty() {
        let _ = known.unread.remove(0);
    }
}

/// What a call changes, that of a good one which releases these packets.
fn call(
    known: &mut Known,
    daemon: DaemonNo,
    devices: &[Device],
    request: &Request,
    released: &[ReleasedId],
)
    requires small { IsSmall request.now }
    requires devices { length devices.now ≤ MOST_DEVICES }
    requires count { known.old.count < 4294967295 }
    requires vifs { vec_len known.old.vifs < vec_capacity known.old.vifs }
    requires routes { HasPlace known.old.routes }
    requires unread { vec_len known.old.unread + length released.now
        ≤ vec_capacity known.old.unread }
    requires attempts { vec_len known.old.attempts + length released.now
        ≤ vec_capacity known.old.attempts }
    ensures state { (limits : Limits) → limits.devices ≡ devices.now → state_of known.new
        ≡ called limits (state_of known.old) daemon request.now Good released.now }
    ensures few { AreGroups known.old.waiting.items → AreGroups known.new.waiting.items }
    ensures moment { known.new.moment ≡ known.old.moment }
{
    grant(known, daemon, devices, request);
    report_all(known, released);
}

/// What an entry does to the state, but for the count of entries.
fn apply(known: &mut Known, limits: &Limits, entry: &Entry)
    requires small { IsSmallEntry entry.now }
    requires joins { JoinsOne entry.now known.old.waiting.items }
    requires groups { AreGroups known.old.waiting.items }
    requires devices { length limits.now.devices ≤ MOST_DEVICES }
    requires count { known.old.count < 4294967295 }
    requires moment { known.old.moment + 4294967296 < 2 ^ 64 }
    requires room { HasRoom (size_of entry.now) known.old }
    ensures state { state_of known.new ≡ effect limits.now (state_of known.old) entry.now }
    ensures few { AreGroups known.old.waiting.items → AreGroups known.new.waiting.items }
    ensures moment { known.new.moment ≤ known.old.moment + 4294967296 }
{
    match entry {
        Entry::Call {
            daemon,
            request,
            reply: Reply::Good,
            released,
        } => {
            let devices = limits.devices.0.as_slice();
            call(known, *daemon, devices, request, released.0.as_slice());
        }
        Entry::Call { .. } => {}
        Entry::Slow {
            lane,
            index,
            flow,
            outcome: Outcome::Parked,
            ..
        } => {
            let (lane, index, flow) = (*lane, *index, *flow);
            park_packet(known, Held { lane, index, flow });
        }
        Entry::Slow {
            lane,
            index,
            outcome,
            ..
        } => report(known, *lane, *index, outcome),
        Entry::Settle { .. } => {}
        Entry::Tick { ms, .. } => tick(known, *ms),
        Entry::Recv { message, .. } => receive(known, *message),
        Entry::EndPhase => {}
    }
}

/// What an entry makes of the state.
pub fn take(known: &mut Known, limits: &Limits, entry: &Entry)
    requires small { IsSmallEntry entry.now }
    requires joins { JoinsOne entry.now known.old.waiting.items }
    requires groups { AreGroups known.old.waiting.items }
    requires devices { length limits.now.devices ≤ MOST_DEVICES }
    requires count { known.old.count < 4294967295 }
    requires moment { known.old.moment + 4294967296 < 2 ^ 64 }
    requires room { HasRoom (size_of entry.now) known.old }
    ensures state { state_of known.new ≡ step limits.now (state_of known.old) entry.now }
    ensures few { AreGroups known.old.waiting.items → AreGroups known.new.waiting.items }
    ensures moment { known.new.moment ≤ known.old.moment + 4294967296 }
{
    apply(known, limits, entry);
    known.count += 1;
}
