//! The fates of packets that had to wait, line by line.

ghost use Rattle.std.specs.Prelude.{◌≡◌, ◌+◌, ◌^◌, ◌<◌, ◌≤◌, ◌==◌, ◌&&◌, ◌++◌, map};
ghost use Rattle.std.specs.List.{list_any};
ghost use Rattle.std.specs.Vec.{vec_len, vec_capacity};
ghost use Rattle.mr_model.specs.Fate.{names};
ghost use Rattle.mr_model.specs.Laws.{fate_after};
ghost use Rattle.mr_model.specs.WaitingList.{is_waiting, unexpired};
ghost use Rattle.mr_plain.specs.Fates.{drops_all, fate_by, gives_fates, line_by, parked_lines};
ghost use Rattle.mr_plain_lists.specs.Knowing.{IsGroup, AreGroups, held, waiter, awaiting};
ghost use Rattle.mr_plain_lists.specs.Knowing.{state_of};

use mr_base::{EXPIRY_MS, LaneNo};
use mr_model::{Entry, Fate, FateLine, Outcome, ReleasedId, Reply, Request};
use mr_plain_lists::{Group, Held, Known, MRT_FLUSH_MFC, has_flag};

/// Whether a packet is among those released.
fn names(released: &[ReleasedId], lane: LaneNo, index: u32) -> bool
    ensures { result ≡ names released.now lane index }
{
    released
        .iter()
        .any(|r| r.lane.0 == lane.0 && r.index == index)
}

/// Whether a packet is one of these.
fn is_among(packets: &[Held], lane: LaneNo, index: u32) -> bool
    ensures { result ≡ list_any (λ w. w.lane.0 == lane.0 && w.index == index)
        (map waiter packets.now) }
{
    for w in packets {
        if w.lane.0 == lane.0 && w.index == index {
            return true;
        }
    }
    false
}

/// Whether a packet is one of a group.
fn holds(group: &Group, lane: LaneNo, index: u32) -> bool
    requires { IsGroup group.now }
    ensures { result ≡ list_any (λ w. w.lane.0 == lane.0 && w.index == index) (held group.now) }
{
    is_among(&group.packets[..group.count], lane, index)
}

/// Whether a packet waits.
fn waits(waiting: &[Group], lane: LaneNo, index: u32) -> bool
    requires { AreGroups waiting.now }
    ensures { result ≡ is_waiting (map awaiting waiting.now) lane index }
{
    for g in waiting {
        if holds(g, lane, index) {
            return true;
        }
    }
    false
}

/// Whether a packet waits that is not ten seconds old at this moment.
fn waits_on(waiting: &[Group], moment: u64, lane: LaneNo, index: u32) -> bool
    requires { AreGroups waiting.now }
    ensures { result ≡ is_waiting (unexpired moment (map awaiting waiting.now)) lane index }
{
    for g in waiting {
        if moment.saturating_sub(g.since) < EXPIRY_MS && holds(g, lane, index) {
            return true;
        }
    }
    false
}

/// Whether a request, where it is granted, drops all packets that wait.
fn drops_all(request: &Request) -> bool
    ensures { result ≡ drops_all request.now }
{
    match request {
        Request::Finish => true,
        Request::Flush(flags) => has_flag(*flags, MRT_FLUSH_MFC),
        _ => false,
    }
}

/// The fate that an entry gives to a packet, if it does.
fn fate_by(known: &Known, entry: &Entry, lane: LaneNo, index: u32) -> Option<Fate>
    requires groups { AreGroups known.now.waiting.items }
    requires count { known.now.count < 4294967295 }
    requires moment { known.now.moment + 4294967296 < 2 ^ 64 }
    ensures { result ≡ fate_by (state_of known.now) entry.now lane index }
{
    let number = known.count + 1;
    let waiting = known.waiting.as_slice();
    match entry {
        Entry::Call {
            request,
            reply: Reply::Good,
            released,
            ..
        } => {
            if names(released.0.as_slice(), lane, index) {
                Some(Fate::Released(number))
            } else if drops_all(request) && waits(waiting, lane, index) {
                Some(Fate::Flushed(number))
            } else {
                None
            }
        }
        Entry::Tick { ms, .. } => {
            let moment = known.moment + u64::from(*ms);
            if waits(waiting, lane, index) && !waits_on(waiting, moment, lane, index) {
                Some(Fate::Expired(number))
            } else {
                None
            }
        }
        _ => None,
    }
}

/// A packet that waited gets its fate.
fn fate_after(fate: Fate, next: Option<Fate>) -> Fate
    ensures { result ≡ fate_after fate next }
{
    match (fate, next) {
        (Fate::Waiting, Some(next)) => next,
        _ => fate,
    }
}

/// A line behind an entry: a packet that waited gets the fate that the entry gives it.
fn line_by(known: &Known, entry: &Entry, line: FateLine) -> FateLine
    requires groups { AreGroups known.now.waiting.items }
    requires count { known.now.count < 4294967295 }
    requires moment { known.now.moment + 4294967296 < 2 ^ 64 }
    ensures { result ≡ line_by (state_of known.now) entry.now line }
{
    let fate = fate_after(line.fate, fate_by(known, entry, line.lane, line.index));
    FateLine { fate, ..line }
}

/// Gives each packet that waited the fate that an entry gives it.
fn end_lines(lines: &mut Vec<FateLine>, known: &Known, entry: &Entry)
    requires groups { AreGroups known.now.waiting.items }
    requires count { known.now.count < 4294967295 }
    requires moment { known.now.moment + 4294967296 < 2 ^ 64 }
    ensures lines { lines.new.items ≡ map (line_by (state_of known.now) entry.now) lines.old.items }
    ensures len { vec_len lines.new ≡ vec_len lines.old }
    ensures room { vec_capacity lines.new ≡ vec_capacity lines.old }
{
    for i in 0..lines.as_slice().len() {
        lines[i] = line_by(known, entry, lines[i]);
    }
}

/// Whether an entry may give fates: calls and ticks do.
fn gives_fates(entry: &Entry) -> bool
    ensures { result ≡ gives_fates entry.now }
{
    match entry {
        Entry::Call { .. } | Entry::Tick { .. } => true,
        Entry::Slow { .. } | Entry::Settle { .. } | Entry::Recv { .. } | Entry::EndPhase => false,
    }
}

/// Gives each packet that waited the fate that an entry gives it, if it gives any.
#[tactic(auto, using(crate::proofs::Fating::kept))]
fn end_any(lines: &mut Vec<FateLine>, known: &Known, entry: &Entry)
    requires groups { AreGroups known.now.waiting.items }
    requires count { known.now.count < 4294967295 }
    requires moment { known.now.moment + 4294967296 < 2 ^ 64 }
    ensures lines { lines.new.items ≡ map (line_by (state_of known.now) entry.now) lines.old.items }
    ensures len { vec_len lines.new ≡ vec_len lines.old }
    ensures room { vec_capacity lines.new ≡ vec_capacity lines.old }
{
    if gives_fates(entry) {
        end_lines(lines, known, entry);
    }
}

/// The lines of fates behind an entry; the packet that it parks has the last one.
pub(crate) fn take_lines(lines: &mut Vec<FateLine>, known: &Known, entry: &Entry)
    requires groups { AreGroups known.now.waiting.items }
    requires count { known.now.count < 4294967295 }
    requires moment { known.now.moment + 4294967296 < 2 ^ 64 }
    requires room { vec_len lines.old < vec_capacity lines.old }
    ensures { lines.new.items ≡ map (line_by (state_of known.now) entry.now) lines.old.items
        ++ parked_lines entry.now }
{
    end_any(lines, known, entry);
    if let Entry::Slow {
        lane,
        index,
        outcome: Outcome::Parked,
        ..
    } = entry
    {
        lines.push_reserved(FateLine {
            lane: *lane,
            index: *index,
            fate: Fate::Waiting,
        });
    }
}
