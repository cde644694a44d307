ghost use Rattle.std.specs.Prelude.{◌≤◌, length};

use super::*;
use mr_base::{Addr, DaemonNo, Few, FileName, LaneNo, List, Mask};
use mr_lines::{RouteLine, Skip, Tail, VifLine};
use mr_model::{
    Entry, FastRecord, Fate, FateLine, Flow, Kind, MessageId, MfcCtl, Outcome, ReleasedId, Reply,
    Request, RouteTotals, VifCtl, VifTotals,
};
use std::alloc::{AllocError, Global};
use std::test::Fail;

/// A good call that released packets.
fn call(request: Request, released: &[ReleasedId]) -> Entry
    requires { length released.now ≤ 4 }
{
    Entry::Call {
        daemon: DaemonNo(1),
        request,
        reply: Reply::Good,
        released: Few::from_slice(released),
    }
}

fn vif(vif: u16) -> Request {
    Request::AddVif(VifCtl {
        vif,
        flags: 8,
        local: u32::from(vif) + 1,
    })
}

/// An entry from 10.0.S.7 or .9 to a group, with threshold 1 on the vifs of a list.
fn route(src: u32, dst: u32, parent: u16, outs: &[u8]) -> Request {
    let mut ttls = [0u8; 32];
    for out in outs {
        if let Some(ttl) = ttls.get_mut(usize::from(*out)) {
            *ttl = 1;
        }
    }
    Request::AddMfc(MfcCtl {
        src: Addr(src),
        dst: Addr(dst),
        parent,
        ttls,
    })
}

fn record(look: u32, entry: u32, outs: u32) -> FastRecord {
    FastRecord {
        index: 2,
        look,
        entry,
        input: Some(0),
        outs: Mask(outs),
        flow: Flow::default(),
    }
}

fn waiting() -> Entry {
    Entry::Slow {
        lane: LaneNo(2),
        index: 1,
        look: 6,
        flow: Flow::default(),
        outcome: Outcome::Parked,
    }
}

fn received(message: Option<MessageId>) -> Entry {
    Entry::Recv {
        daemon: DaemonNo(1),
        message,
    }
}

const MISSED: MessageId = MessageId {
    kind: Kind::NoCache,
    vif: 2,
    lane: LaneNo(2),
    index: 1,
};

const RELEASED: ReleasedId = ReleasedId {
    lane: LaneNo(2),
    index: 1,
    outcome: Outcome::Forward {
        entry: 11,
        input: Some(2),
        outs: Mask(2),
    },
};

/// Three vifs, a packet that goes to two of them, and one that waits for its entry.
fn entries(alloc: Global) -> Result<Vec<Entry>, AllocError> {
    let settle = Entry::Settle {
        lane: LaneNo(1),
        records: List(vec![in alloc; record(6, 5, 6)]?),
    };
    let mut entries = Vec::with_capacity(alloc, 13)?;
    for entry in [
        call(Request::Init, &[]),
        call(vif(0), &[]),
        call(vif(1), &[]),
        call(vif(2), &[]),
        call(route(0x0A00_0009, 0xEF01_0101, 0, &[1, 2]), &[]),
        Entry::EndPhase,
        settle,
        waiting(),
        Entry::EndPhase,
        received(Some(MISSED)),
        call(route(0x0A00_0207, 0xEF02_0304, 2, &[1]), &[RELEASED]),
        received(None),
        Entry::EndPhase,
    ] {
        entries.push(entry)?;
    }
    Ok(entries)
}

fn route_line(number: u32, src: u32, dst: u32, parent: u8) -> RouteLine {
    RouteLine {
        number,
        src: Addr(src),
        dst: Addr(dst),
        parent,
        totals: RouteTotals {
            packets: 1,
            bytes: 28,
            wrong: 0,
        },
    }
}

fn vif_line(vif: u8, name: &str, packets_in: u64, packets_out: u64) -> VifLine
    requires { length name.now ≤ 255 }
{
    VifLine {
        vif,
        name: FileName::new(name),
        totals: VifTotals {
            packets_in,
            packets_out,
            bytes_in: packets_in.saturating_mul(28),
            bytes_out: packets_out.saturating_mul(28),
        },
    }
}

fn tail(alloc: Global) -> Result<Tail, AllocError> {
    let fate = FateLine {
        lane: LaneNo(2),
        index: 1,
        fate: Fate::Released(11),
    };
    let first = route_line(5, 0x0A00_0009, 0xEF01_0101, 0);
    let second = route_line(11, 0x0A00_0207, 0xEF02_0304, 2);
    let mut vifs = Vec::with_capacity(alloc, 3)?;
    vifs.push(vif_line(0, "eth0", 1, 0))?;
    vifs.push(vif_line(1, "eth1", 0, 2))?;
    vifs.push(vif_line(2, "eth2", 1, 1))?;
    Ok(Tail {
        routes: List(vec![in alloc; first, second]?),
        vifs: List(vifs),
        fates: List(vec![in alloc; fate]?),
    })
}

const TEXT: &str = "history 1
skip 1 1 0
1 call 1 init = ok
2 call 1 addvif 0 8 @1 = ok
3 call 1 addvif 1 8 @2 = ok
4 call 1 addvif 2 8 @3 = ok
5 call 1 addmfc 10.0.0.9 239.1.1.1 0 1:1 2:1 = ok
6 phase
7 settle 1 1
- 2 6 5 0 1,2
8 slow 2 1 6 parked
9 phase
10 recv 1 nocache 2 2 1
11 call 1 addmfc 10.0.2.7 239.2.3.4 2 1:1 = ok
- 2 1 fwd 11 2 1
12 recv 1 none
13 phase
route 5 10.0.0.9 239.1.1.1 0 1 28 0
route 11 10.0.2.7 239.2.3.4 2 1 28 0
vif 0 eth0 1 0 28 0
vif 1 eth1 0 2 0 56
vif 2 eth2 1 1 28 28
fate 2 1 released 11
end
";

#[test]
fn a_history(rt: HostRuntime) -> Result<(), Fail> {
    let alloc = rt.alloc();
    let skips = [Skip {
        lane: LaneNo(1),
        index: 1,
        cause: 0,
    }];
    let entries = entries(alloc)?;
    let tail = tail(alloc)?;
    match write_history(alloc, &skips, entries.as_slice(), &tail) {
        Ok(bytes) => assert_eq!(rt; bytes.as_slice(), TEXT.as_bytes()),
        Err(_) => assert!(rt; false),
    }
    Ok(())
}

#[test]
fn an_empty_history(rt: HostRuntime) -> Result<(), Fail> {
    let alloc = rt.alloc();
    let tail = Tail {
        routes: List(Vec::new(alloc)),
        vifs: List(Vec::new(alloc)),
        fates: List(Vec::new(alloc)),
    };
    match write_history(alloc, &[], &[], &tail) {
        Ok(bytes) => assert_eq!(rt; bytes.as_slice(), b"history 1\nend\n".as_slice()),
        Err(_) => assert!(rt; false),
    }
    Ok(())
}
