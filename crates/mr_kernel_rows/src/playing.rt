//! Rows are made by the machine, and compared with what they have to come to.

ghost use Rattle.std.specs.Prelude.{◌≡◌, ◌+◌, IfOk};
ghost use Rattle.mr_history.specs.Fits.{FitsLimits};

use crate::OneLane;
use mr_base::{Addr, DaemonNo, Device, Head, LaneNo, List, Route, VifRecord};
use mr_history::EntryView;
use mr_ip::make_head;
use mr_model::{
    Ending, Fate, FateLine, Flow, Freed, Kind, Limits, MessageId, Outcome, ReleasedId, Reply,
    Request, RouteTotals, VifTotals,
};
use mr_upcall::Upcall;
use std::alloc::{AllocError, Global};

/// A step of a row, with what it has to come to.
#[derive(Clone, Copy, Debug)]
pub enum Step {
    /// A good control call of a daemon. It releases so many packets of the lane, from the
    /// first one on, each with this outcome.
    Call(u32, Request, u32, Outcome),
    /// A packet of 28 bytes and TTL 9 that comes in on a device, from the [`source`] of a number
    /// to the [`group`] of another.
    Packet(u32, u16, u8, Outcome),
    /// Daemon 1 lets the clock go on by so many milliseconds.
    Tick(u32),
    /// Daemon 1 receives a report: its kind, its vif and its packet's index.
    Recv(Option<(Kind, u8, u32)>),
    Phase,
}

/// A row. The history ends with the totals of (S,G) entries by number and of vifs by index, and
/// with the fates of packets by index.
#[derive(Clone, Copy, Debug)]
pub struct Row<'a> {
    pub steps: &'a [Step],
    pub routes: &'a [(u32, RouteTotals)],
    pub vifs: &'a [(u8, VifTotals)],
    pub fates: &'a [(u32, Fate)],
}

/// 10.0.X.Y, where the two bytes of `low` are X and Y.
pub fn source(low: u16) -> Addr
    ensures { result.0 ≡ 167772160 + low }
{
    Addr(0x0a00_0000 + u32::from(low))
}

/// 239.1.1.N.
pub fn group(n: u8) -> Addr
    ensures { result.0 ≡ 4009820416 + n }
{
    Addr(0xef01_0100 + u32::from(n))
}

/// Two devices, one lane, and two daemons that are admins.
fn limits(alloc: Global) -> Result<Limits, AllocError>
    ensures { IfOk result FitsLimits }
{
    let devices = [
        Device {
            addr: source(0x0001),
        },
        Device {
            addr: source(0x0101),
        },
    ];
    Ok(Limits {
        entries: 16,
        unresolved: 10,
        controls: 64,
        phases: 16,
        packets: List(Vec::from_slice(alloc, &[100])?),
        admins: List(Vec::from_slice(alloc, &[true, true])?),
        devices: List(Vec::from_slice(alloc, &devices)?),
    })
}

/// Whether these packets came out: the lane's first ones, each with this outcome.
fn are_first(freed: &[Freed], count: u32, outcome: Outcome) -> bool {
    let mut index = 0u32;
    for one in freed {
        index = index.saturating_add(1);
        if one.packet.index != index || one.outcome != outcome {
            return false;
        }
    }
    index == count
}

/// Whether the entry names these packets.
fn names_first(released: &[ReleasedId], count: u32, outcome: Outcome) -> bool {
    let mut index = 0u32;
    for one in released {
        index = index.saturating_add(1);
        if one.lane.0 != 1 || one.index != index || one.outcome != outcome {
            return false;
        }
    }
    index == count
}

/// The name of a report of the lane.
fn message(wanted: Option<(Kind, u8, u32)>) -> Option<MessageId> {
    let (kind, vif, index) = wanted?;
    Some(MessageId {
        kind,
        vif,
        lane: LaneNo(1),
        index,
    })
}

/// The name of a received report.
fn name_of(got: &Option<Upcall>) -> Option<MessageId> {
    match got {
        None => None,
        Some(upcall) => Some(upcall.id),
    }
}

/// The head of a packet of a row.
fn head(from: u16, to: u8) -> Head {
    make_head(0, 9, source(from), group(to), 28)
}

/// Makes a step; whether it came to what it has to.
fn make(run: &mut OneLane, step: &Step) -> bool {
    match *step {
        Step::Call(daemon, request, count, outcome) => {
            match run.call(DaemonNo(daemon), &request) {
                Some((Reply::Good, freed)) => are_first(freed.as_slice(), count, outcome),
                _ => false,
            }
        }
        Step::Packet(dev, from, to, outcome) => run.packet(dev, head(from, to)) == Some(outcome),
        Step::Tick(ms) => run.tick(DaemonNo(1), ms),
        Step::Recv(wanted) => match run.recv(DaemonNo(1)) {
            Some(got) => name_of(&got) == message(wanted),
            None => false,
        },
        Step::Phase => run.end_phase(),
    }
}

/// Whether an entry is that of a step, before which there are `look` entries.
fn is_entry(seen: &EntryView<'_>, look: u32, step: &Step) -> bool {
    match (seen, *step) {
        (
            EntryView::Call {
                daemon,
                request,
                reply,
                released,
            },
            Step::Call(caller, asked, count, outcome),
        ) => {
            daemon.0 == caller
                && **request == asked
                && *reply == Reply::Good
                && names_first(released, count, outcome)
        }
        (
            EntryView::Slow {
                lane,
                look: seen_look,
                flow,
                outcome,
                ..
            },
            Step::Packet(dev, from, to, wanted),
        ) => {
            let sent = Flow {
                dev,
                src: source(from),
                dst: group(to),
                ttl: 9,
                length: 28,
            };
            lane.0 == 1 && *seen_look == look && *flow == sent && *outcome == wanted
        }
        (EntryView::Tick { daemon, ms }, Step::Tick(wanted)) => daemon.0 == 1 && *ms == wanted,
        (
            EntryView::Recv {
                daemon,
                message: got,
            },
            Step::Recv(wanted),
        ) => { daemon.0 == 1 && *got == message(wanted) }
        (EntryView::EndPhase, Step::Phase) => true,
        _ => false,
    }
}

/// Whether the history is that of the steps.
fn is_history(run: &OneLane, steps: &[Step]) -> bool {
    let journal = run.kernel().journal();
    let mut look = 0u32;
    for step in steps {
        if journal.len() <= look || !is_entry(&journal.entry(look), look, step) {
            return false;
        }
        look += 1;
    }
    journal.len() == look
}

/// Whether these are the fates of the lane's packets.
fn are_fates(lines: &[FateLine], fates: &[(u32, Fate)]) -> bool {
    let mut left = fates;
    for line in lines {
        let [(index, fate), after @ ..] = left else {
            return false;
        };
        if line.lane.0 != 1 || line.index != *index || line.fate != *fate {
            return false;
        }
        left = after;
    }
    left.is_empty()
}

/// Whether these are the totals of the entries.
fn are_routes(lines: &[(Route, RouteTotals)], routes: &[(u32, RouteTotals)]) -> bool {
    let mut left = routes;
    for (route, totals) in lines {
        let [(number, counted), after @ ..] = left else {
            return false;
        };
        if route.number != *number || *totals != *counted {
            return false;
        }
        left = after;
    }
    left.is_empty()
}

/// Whether these are the totals of the vifs.
fn are_vifs(lines: &[(VifRecord, VifTotals)], vifs: &[(u8, VifTotals)]) -> bool {
    let mut left = vifs;
    for (vif, totals) in lines {
        let [(index, counted), after @ ..] = left else {
            return false;
        };
        if vif.vif != *index || *totals != *counted {
            return false;
        }
        left = after;
    }
    left.is_empty()
}

/// Makes the steps; whether each came to what it has to, and the history is theirs.
fn make_steps(run: &mut OneLane, steps: &[Step]) -> bool {
    for step in steps {
        if !make(run, step) {
            return false;
        }
    }
    is_history(run, steps)
}

/// Whether a history ends as a row says.
fn ends_so(ending: &Ending, row: &Row<'_>) -> bool {
    are_routes(ending.routes.0.as_slice(), row.routes)
        && are_vifs(ending.vifs.0.as_slice(), row.vifs)
        && are_fates(ending.fates.0.as_slice(), row.fates)
}

/// The machine with the limits of a row.
fn one_lane(alloc: Global) -> Option<OneLane> {
    let limits = limits(alloc).ok()?;
    OneLane::with(alloc, &limits).ok()
}

/// Makes a row; whether all that comes out is what the row says.
pub fn is_made(alloc: Global, row: &Row<'_>) -> bool {
    let Some(mut run) = one_lane(alloc) else {
        return false;
    };
    if !make_steps(&mut run, row.steps) {
        return false;
    }
    match run.kernel().ending(alloc) {
        Ok(ending) => ends_so(&ending, row),
        Err(_) => false,
    }
}
