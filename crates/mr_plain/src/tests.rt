//! Worked rows stepped through the plain machine, with near misses.

ghost use Rattle.std.specs.Prelude.{◌≤◌, IfOk};
ghost use Rattle.mr_plain.specs.Pasts.{AreSmall};

use crate::Plain;
use mr_base::{Addr, DaemonNo, Device, Few, LaneNo, List, Mask};
use mr_model::{
    Cause, Entry, Flow, Kind, Limits, MessageId, MfcCtl, MfcKey, Outcome, ReleasedId, Reply,
    Report, Request, RouteTotals, Verdict, VifCtl,
};
use std::alloc::Global;
use std::test::Fail;

const GROUP: Addr = Addr(0xEF01_0101);

const SENDER: Addr = Addr(0x0A00_0009);

/// The limits of a scenario with two devices, one lane and these daemons.
fn limits(alloc: Global, packets: u32, admins: &[bool]) -> Result<Limits, Fail>
    requires { packets ≤ 64 }
    ensures { IfOk result AreSmall }
{
    let eth0 = Device {
        addr: Addr(0x0A00_0001),
    };
    let eth1 = Device {
        addr: Addr(0x0A00_0101),
    };
    Ok(Limits {
        entries: 1024,
        unresolved: 10,
        controls: 64,
        phases: 20,
        packets: List(Vec::from_slice(alloc, &[packets])?),
        admins: List(Vec::from_slice(alloc, admins)?),
        devices: List(Vec::from_slice(alloc, &[eth0, eth1])?),
    })
}

/// An empty machine.
fn machine(limits: &Limits, alloc: Global) -> Result<Plain, Fail>
    requires { AreSmall limits.now }
{
    match Plain::new(alloc, limits) {
        Ok(plain) => Ok(plain),
        Err(_) => Err(Fail::from("memory")),
    }
}

/// An entry that is stepped through the machine.
#[derive(Clone, Copy)]
enum Step {
    /// A call of a daemon with this reply, which releases these packets.
    Call(u32, Request, Reply, &'static [ReleasedId]),
    /// A packet of lane 1 from 10.0.0.9 to 239.1.1.1 with TTL 9 and 28 bytes: its device, its
    /// index, its look and what became of it.
    Slow(u32, u32, u32, Outcome),
    /// `tick MS` of daemon 1.
    Tick(u32),
    /// A receive of daemon 1.
    Recv(Option<MessageId>),
    Phase,
}

/// A step, and whether it is taken.
type Row = (Step, bool);

const NOBODY: &[ReleasedId] = &[];

/// A packet on a device.
fn flow(dev: u32) -> Flow {
    Flow {
        dev,
        src: SENDER,
        dst: GROUP,
        ttl: 9,
        length: 28,
    }
}

/// The entry of a step.
fn entry_of(step: Step) -> Entry {
    match step {
        Step::Call(daemon, request, reply, released) => Entry::Call {
            daemon: DaemonNo(daemon),
            request,
            reply,
            released: if released.len() <= 4 {
                Few::from_slice(released)
            } else {
                Few::default()
            },
        },
        Step::Slow(dev, index, look, outcome) => Entry::Slow {
            lane: LaneNo(1),
            index,
            look,
            flow: flow(dev),
            outcome,
        },
        Step::Tick(ms) => Entry::Tick {
            daemon: DaemonNo(1),
            ms,
        },
        Step::Recv(message) => Entry::Recv {
            daemon: DaemonNo(1),
            message,
        },
        Step::Phase => Entry::EndPhase,
    }
}

/// Whether each step is taken or not, as its row says.
fn plays(plain: &mut Plain, rows: &[Row]) -> bool {
    for (step, taken) in rows {
        let entry = entry_of(*step);
        match plain.step(&entry) {
            Ok(answer) => {
                if answer != *taken {
                    return false;
                }
            }
            Err(_) => return false,
        }
    }
    true
}

const INIT: Row = (Step::Call(1, Request::Init, Reply::Good, NOBODY), true);

/// `addvif 0 8 @1`.
const VIF_0: Row = (
    Step::Call(
        1,
        Request::AddVif(VifCtl {
            vif: 0,
            flags: 8,
            local: 1,
        }),
        Reply::Good,
        NOBODY,
    ),
    true,
);

/// `addvif 1 8 @2`.
const VIF_1: Row = (
    Step::Call(
        1,
        Request::AddVif(VifCtl {
            vif: 1,
            flags: 8,
            local: 2,
        }),
        Reply::Good,
        NOBODY,
    ),
    true,
);

/// `addmfc 10.0.0.9 239.1.1.1 0 1:1`.
const ENTRY: Request = Request::AddMfc(MfcCtl {
    src: SENDER,
    dst: GROUP,
    parent: 0,
    ttls: [
        0, 1, 0, 0, 0, 0, 0, 0, 0, 0, 0, 0, 0, 0, 0, 0, 0, 0, 0, 0, 0, 0, 0, 0, 0, 0, 0, 0, 0, 0,
        0, 0,
    ],
});

const PHASE: Row = (Step::Phase, true);

/// The plain forward of the entry that call 13 made.
const FORWARD: Outcome = Outcome::Forward {
    entry: 13,
    input: Some(0),
    outs: Mask(2),
};

/// The packets that wait, as call 13 releases them.
const FOUR: &[ReleasedId] = &[
    ReleasedId {
        lane: LaneNo(1),
        index: 1,
        outcome: FORWARD,
    },
    ReleasedId {
        lane: LaneNo(1),
        index: 2,
        outcome: FORWARD,
    },
    ReleasedId {
        lane: LaneNo(1),
        index: 3,
        outcome: FORWARD,
    },
    ReleasedId {
        lane: LaneNo(1),
        index: 4,
        outcome: FORWARD,
    },
];

const THREE: &[ReleasedId] = &[
    ReleasedId {
        lane: LaneNo(1),
        index: 1,
        outcome: FORWARD,
    },
    ReleasedId {
        lane: LaneNo(1),
        index: 2,
        outcome: FORWARD,
    },
    ReleasedId {
        lane: LaneNo(1),
        index: 3,
        outcome: FORWARD,
    },
];

const FULL: Outcome = Outcome::Dropped(Cause::Packets);

/// The report of the first packet.
const MISSED: MessageId = MessageId {
    kind: Kind::NoCache,
    vif: 0,
    lane: LaneNo(1),
    index: 1,
};

/// Four packets wait and a fifth is dropped; a new entry releases the four.
const WAITING: &[Row] = &[
    INIT,
    VIF_0,
    VIF_1,
    PHASE,
    (Step::Slow(1, 1, 4, Outcome::Parked), true),
    (Step::Slow(1, 2, 5, Outcome::Parked), true),
    (Step::Slow(1, 3, 6, Outcome::Parked), true),
    (Step::Slow(1, 4, 7, Outcome::Parked), true),
    (Step::Slow(1, 5, 8, Outcome::Parked), false),
    (Step::Slow(1, 4, 8, FULL), false),
    (Step::Slow(1, 5, 8, FULL), true),
    (Step::Slow(1, 6, 9, FULL), false),
    PHASE,
    (Step::Recv(None), false),
    (Step::Recv(Some(MISSED)), true),
    (Step::Recv(None), true),
    (Step::Call(1, ENTRY, Reply::Good, THREE), false),
    (Step::Call(1, ENTRY, Reply::Good, FOUR), true),
    (
        Step::Call(
            1,
            Request::SgCount {
                src: SENDER,
                dst: GROUP,
            },
            Reply::Sg(RouteTotals {
                packets: 4,
                bytes: 112,
                wrong: 0,
            }),
            NOBODY,
        ),
        true,
    ),
];

/// A packet on a wrong interface of entry 5, which was reported.
const TOLD: Outcome = Outcome::Wrong {
    entry: 5,
    vif: Some(1),
    report: Report::Told,
};

/// One that was not.
const QUIET: Outcome = Outcome::Wrong {
    entry: 5,
    vif: Some(1),
    report: Report::Quiet,
};

/// A second report comes when more than three seconds have passed, and no sooner.
const WRONG: &[Row] = &[
    INIT,
    VIF_0,
    VIF_1,
    (Step::Call(1, Request::Assert(1), Reply::Good, NOBODY), true),
    (Step::Call(1, ENTRY, Reply::Good, NOBODY), true),
    PHASE,
    (Step::Slow(2, 1, 6, TOLD), true),
    PHASE,
    (Step::Tick(3000), true),
    PHASE,
    (Step::Slow(2, 2, 10, TOLD), false),
    (Step::Slow(2, 2, 10, QUIET), true),
    PHASE,
    (Step::Tick(1), true),
    PHASE,
    (Step::Slow(2, 3, 14, QUIET), false),
    (Step::Slow(2, 3, 14, TOLD), true),
];

/// There is no third daemon, and the second one is not the owner.
const LEAVING: &[Row] = &[
    INIT,
    VIF_0,
    VIF_1,
    PHASE,
    (Step::Call(3, ENTRY, Reply::Good, NOBODY), false),
    (Step::Call(2, ENTRY, Reply::Good, NOBODY), true),
    (Step::Call(2, Request::Finish, Reply::Good, NOBODY), false),
    (Step::Call(1, Request::Finish, Reply::Good, NOBODY), true),
];

/// `delmfc` of the entry.
const GONE: Request = Request::DelMfc(MfcKey {
    src: SENDER,
    dst: GROUP,
    parent: 0,
});

/// An entry goes and comes again, with the number of the call that makes it anew.
const AGAIN: &[Row] = &[
    INIT,
    VIF_0,
    VIF_1,
    (Step::Call(1, ENTRY, Reply::Good, NOBODY), true),
    (Step::Call(1, GONE, Reply::Good, NOBODY), true),
    (Step::Call(1, GONE, Reply::Good, NOBODY), false),
    (Step::Call(1, ENTRY, Reply::Good, NOBODY), true),
    (Step::Call(1, ENTRY, Reply::Good, NOBODY), true),
];

#[test]
fn waiting_packets(rt: HostRuntime) -> Result<(), Fail> {
    let limits = limits(rt.alloc(), 5, &[true])?;
    let mut plain = machine(&limits, rt.alloc())?;
    assert!(rt; plays(&mut plain, WAITING));
    assert!(rt; matches!(&plain.verdict(&flow(1)), Verdict::Forward { entry: 13, .. }));
    Ok(())
}

#[test]
fn wrong_interface(rt: HostRuntime) -> Result<(), Fail> {
    let limits = limits(rt.alloc(), 3, &[true])?;
    let mut plain = machine(&limits, rt.alloc())?;
    assert!(rt; plays(&mut plain, WRONG));
    Ok(())
}

#[test]
fn entry_comes_again(rt: HostRuntime) -> Result<(), Fail> {
    let limits = limits(rt.alloc(), 1, &[true])?;
    let mut plain = machine(&limits, rt.alloc())?;
    assert!(rt; plays(&mut plain, AGAIN));
    assert!(rt; matches!(&plain.verdict(&flow(1)), Verdict::Forward { entry: 6, .. }));
    Ok(())
}

#[test]
fn owner_leaves(rt: HostRuntime) -> Result<(), Fail> {
    let limits = limits(rt.alloc(), 1, &[true, true])?;
    let mut plain = machine(&limits, rt.alloc())?;
    assert!(rt; plays(&mut plain, LEAVING));
    assert!(rt;
        matches!(
            &plain.verdict(&flow(1)),
            Verdict::Wrong {
                entry: 5,
                vif: None
            }
        )
    );
    Ok(())
}
