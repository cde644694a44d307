//! A packet that is settled after one of its vifs was made again.

ghost use Rattle.std.specs.Prelude.{◌≡◌, ◌≤◌, ◌<◌, [], IfOk, IsTrue};
ghost use Rattle.mr_history.specs.Fits.{FitsLimits};

use super::*;
use mr_base::{Addr, DaemonNo, Device, LaneNo, List, Mask};
use mr_model::{
    Entry, FastRecord, Flow, Limits, MfcCtl, Reply, Request, RouteTotals, Step, VifCtl, VifTotals,
};
use std::alloc::{AllocError, Global};
use std::test::Fail;

/// 10.0.0.9 and 239.1.1.1.
const SOURCE: Addr = Addr(0x0a00_0009);

const GROUP: Addr = Addr(0xef01_0101);

/// `delvif 1`.
const DEL_VIF_1: Request = Request::DelVif(1);

/// `addvif VIF 8 @VIF+1`.
const fn add_vif(vif: u16) -> Request {
    Request::AddVif(VifCtl {
        vif,
        flags: 8,
        local: vif as u32 + 1,
    })
}

/// `addmfc 10.0.0.9 239.1.1.1 0 1:1`.
fn add_mfc() -> Request {
    let mut ttls = [0; 32];
    ttls[1] = 1;
    Request::AddMfc(MfcCtl {
        src: SOURCE,
        dst: GROUP,
        parent: 0,
        ttls,
    })
}

/// A packet of 28 bytes that came in on vif 0 and went out on vif 1, by the first four entries.
const LATE: FastRecord = FastRecord {
    index: 1,
    look: 4,
    entry: 4,
    input: Some(0),
    outs: Mask(2),
    flow: Flow {
        dev: 1,
        src: SOURCE,
        dst: GROUP,
        ttl: 9,
        length: 28,
    },
};

/// Two devices, one lane of one packet, and one daemon.
fn limits(alloc: Global) -> Result<Limits, AllocError>
    ensures { IfOk result FitsLimits }
{
    let devices = [
        Device {
            addr: Addr(0x0a00_0001),
        },
        Device {
            addr: Addr(0x0a00_0101),
        },
    ];
    Ok(Limits {
        entries: 4,
        unresolved: 1,
        controls: 8,
        phases: 1,
        packets: List(Vec::from_slice(alloc, &[1])?),
        admins: List(Vec::from_slice(alloc, &[true])?),
        devices: List(Vec::from_slice(alloc, &devices)?),
    })
}

/// A good call that released nothing, where there is room for it.
fn call(journal: &mut Journal, request: &Request)
    ensures { journal.new.routes ≡ journal.old.routes }
{
    if 0 < journal.controls_left() {
        journal.push_call(DaemonNo(1), request, &Reply::Good, &[], &[]);
    }
}

/// A call that makes a vif, where there is none.
fn make_vif(journal: &mut Journal, vif: u8)
    ensures { journal.new.routes ≡ journal.old.routes }
{
    if vif < 32 && journal.vif_totals(vif).is_none() {
        journal.facts();
        journal.born_vif(vif, journal.len() + 1);
        call(journal, &add_vif(u16::from(vif)));
    }
}

/// A call that removes vif 1, where there is one.
fn remove_vif(journal: &mut Journal) {
    if journal.vif_totals(1).is_some() {
        journal.gone_vif(1);
        call(journal, &DEL_VIF_1);
    }
}

/// A call that makes the first (S,G) entry.
fn make_route(journal: &mut Journal)
    requires { journal.old.routes ≡ [] }
{
    journal.facts();
    journal.born_route(journal.len() + 1);
    call(journal, &add_mfc());
}

/// Lane 1 settles the packet, where it has one left and the entries are there that it names.
fn settle_late(journal: &mut Journal) {
    let lane = LaneNo(1);
    if journal.limits().packets.0.as_slice().is_empty() || journal.len() < LATE.look {
        return;
    }
    if 0 < journal.packets_left(lane) {
        journal.push_settle(lane, &[LATE]);
    }
}

/// The first word of a step, and a number that tells it from others.
fn word_of(step: &Step) -> (&'static str, u32) {
    match step {
        Step::Fast { fast, .. } => ("fast", fast.index),
        Step::Kept(Entry::Call { request, .. }) => match *request {
            Request::Init => ("init", 0),
            Request::AddVif(ctl) => ("addvif", u32::from(ctl.vif)),
            Request::DelVif(vif) => ("delvif", u32::from(vif)),
            Request::AddMfc(ctl) => ("addmfc", u32::from(ctl.parent)),
            _ => ("call", 0),
        },
        Step::Kept(Entry::Settle { lane, .. }) => ("settle", lane.0),
        Step::Kept(_) => ("other", 0),
    }
}

/// What the journal comes to: the packet stands behind the entries that its look had seen.
const STEPS: [(&str, u32); 8] = [
    ("init", 0),
    ("addvif", 0),
    ("addvif", 1),
    ("addmfc", 0),
    ("fast", 1),
    ("delvif", 1),
    ("addvif", 1),
    ("settle", 1),
];

#[test]
fn late_packet_counts_for_what_it_met(rt: HostRuntime) -> Result<(), Fail> {
    let limits = limits(rt.alloc())?;
    let mut journal = Journal::with(rt.alloc(), &limits)?;
    call(&mut journal, &Request::Init);
    make_vif(&mut journal, 0);
    make_vif(&mut journal, 1);
    make_route(&mut journal);
    remove_vif(&mut journal);
    make_vif(&mut journal, 1);
    settle_late(&mut journal);

    let came_in = VifTotals {
        packets_in: 1,
        bytes_in: 28,
        packets_out: 0,
        bytes_out: 0,
    };
    let met = RouteTotals {
        packets: 1,
        bytes: 28,
        wrong: 0,
    };
    assert_eq!(rt; journal.vif_totals(0), Some(came_in));
    assert_eq!(rt; journal.vif_totals(1), Some(VifTotals::default()));
    assert_eq!(rt; journal.route_totals(4), Some(met));
    assert_eq!(rt; journal.entries(rt.alloc())?.as_slice().len(), 7);

    let steps = journal.unfold(rt.alloc())?;
    assert_eq!(rt; steps.as_slice().len(), STEPS.len());
    for (step, (word, number)) in steps.as_slice().iter().zip(STEPS.iter()) {
        assert_eq!(rt; word_of(step).0, *word);
        assert_eq!(rt; word_of(step).1, *number);
    }
    Ok(())
}
