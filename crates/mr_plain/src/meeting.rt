//! The packets that met entries, one after another.

ghost use Rattle.std.specs.Prelude.{◌≡◌, ◌+◌, ◌<◌, ◌≤◌, ◌++◌, length, map, option_map};
ghost use Rattle.std.specs.Prelude.{option_to_list};
ghost use Rattle.std.specs.Vec.{vec_len, vec_capacity};
ghost use Rattle.mr_model.specs.Counts.{met_by, met_fast};
ghost use Rattle.mr_model.specs.Answer.{packets_of};
ghost use Rattle.mr_model.specs.WaitingList.{awaiting_of};
ghost use Rattle.mr_plain_lists.specs.Knowing.{AreGroups, waiter, awaiting, met_of};
ghost use Rattle.mr_plain.specs.Meets.{released_mets, waiting_for, mets_in};
ghost use Rattle.mr_plain.specs.Room.{size_of};

use mr_base::{Addr, Mask};
use mr_model::{Entry, FastRecord, Outcome, ReleasedId, Request};
use mr_plain_lists::{Group, Held, Meeting, group_of};

/// The meeting of an outcome; a packet that is parked or dropped met no entry.
fn met_by(place: u32, length: u16, outcome: &Outcome) -> Option<Meeting>
    ensures { met_by place length outcome.now ≡ option_to_list (option_map met_of result) }
{
    let (entry, input, outs, wrong) = match *outcome {
        Outcome::Forward { entry, input, outs } => (entry, input, outs, false),
        Outcome::Register {
            entry,
            input,
            outs,
            ..
        } => (entry, input, outs, false),
        Outcome::Wrong { entry, .. } => (entry, None, Mask(0), true),
        Outcome::Parked | Outcome::Dropped(_) => return None,
    };
    Some(Meeting {
        place,
        entry,
        input,
        outs,
        wrong,
        length,
    })
}

/// A decided packet.
fn meet(mets: &mut Vec<Meeting>, place: u32, length: u16, outcome: &Outcome)
    requires { vec_len mets.old + 1 ≤ vec_capacity mets.old }
    ensures met { map met_of mets.new.items
        ≡ map met_of mets.old.items ++ met_by place length outcome.now }
    ensures len { vec_len mets.new ≤ vec_len mets.old + 1 }
    ensures room { vec_capacity mets.new ≡ vec_capacity mets.old }
{
    if let Some(meeting) = met_by(place, length, outcome) {
        mets.push_reserved(meeting);
    }
}

/// Fast records, each at its look.
fn meet_fast(mets: &mut Vec<Meeting>, records: &[FastRecord])
    requires { vec_len mets.old + length records.now ≤ vec_capacity mets.old }
    ensures { map met_of mets.new.items
        ≡ map met_of mets.old.items ++ map met_fast records.now }
{
    for r in records {
        mets.push_reserved(Meeting {
            place: r.look,
            entry: r.entry,
            input: r.input,
            outs: r.outs,
            wrong: false,
            length: r.flow.length,
        });
    }
}

/// The packets that a call released.
fn meet_released(mets: &mut Vec<Meeting>, place: u32, packets: &[Held], released: &[ReleasedId])
    requires { vec_len mets.old + length released.now ≤ vec_capacity mets.old }
    ensures { map met_of mets.new.items ≡ map met_of mets.old.items
        ++ released_mets place released.now (map waiter packets.now) }
{
    let mut waiting = packets;
    for x in released {
        let [w, later @ ..] = waiting else {
            break;
        };
        meet(mets, place, w.flow.length, &x.outcome);
        waiting = later;
    }
}

/// The packets that wait of this source and group.
fn meet_group(
    mets: &mut Vec<Meeting>,
    place: u32,
    waiting: &[Group],
    src: Addr,
    dst: Addr,
    released: &[ReleasedId],
)
    requires room { vec_len mets.old + length released.now ≤ vec_capacity mets.old }
    requires few { AreGroups waiting.now }
    ensures { map met_of mets.new.items ≡ map met_of mets.old.items ++ released_mets place
        released.now (packets_of (awaiting_of (map awaiting waiting.now) src dst)) }
{
    if let Some(group) = group_of(waiting, src, dst) {
        let packets = &group.packets[..group.count];
        meet_released(mets, place, packets, released);
    }
}

/// The packets that a call released.
#[tactic(auto, using(crate::proofs::Meetings::none_met))]
fn meet_call(
    mets: &mut Vec<Meeting>,
    place: u32,
    waiting: &[Group],
    request: &Request,
    released: &[ReleasedId],
)
    requires room { vec_len mets.old + length released.now ≤ vec_capacity mets.old }
    requires few { AreGroups waiting.now }
    ensures { map met_of mets.new.items ≡ map met_of mets.old.items ++ released_mets place
        released.now (waiting_for (map awaiting waiting.now) request.now) }
{
    match request {
        Request::AddMfc(c) => meet_group(mets, place, waiting, c.src, c.dst, released),
        Request::AddProxy(c) => meet_group(mets, place, waiting, c.src, c.dst, released),
        _ => {}
    }
}

/// The packets that met entries in an entry, which stands behind `count` others.
pub(crate) fn take_mets(mets: &mut Vec<Meeting>, count: u32, waiting: &[Group], entry: &Entry)
    requires room { vec_len mets.old + size_of entry.now ≤ vec_capacity mets.old }
    requires few { AreGroups waiting.now }
    requires count { count < 4294967295 }
    ensures { map met_of mets.new.items ≡ map met_of mets.old.items
        ++ mets_in count (map awaiting waiting.now) entry.now }
{
    match entry {
        Entry::Call {
            request,
            released,
            ..
        } => meet_call(mets, count + 1, waiting, request, released.0.as_slice()),
        Entry::Slow { flow, outcome, .. } => meet(mets, count, flow.length, outcome),
        Entry::Settle { records, .. } => meet_fast(mets, records.0.as_slice()),
        Entry::Tick { .. } | Entry::Recv { .. } | Entry::EndPhase => {}
    }
}
