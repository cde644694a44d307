//! Worked rows of the machine.

use crate::playing::{Row, Step, group, is_made, source};
use mr_base::{Addr, Mask};
use mr_model::{
    Cause, Fate, Kind, MfcCtl, Outcome, Report, Request, RouteTotals, VifCtl, VifTotals,
};
use std::test::Fail;

/// A good call of daemon 1 that releases nothing.
fn call(request: Request) -> Step {
    Step::Call(1, request, 0, Outcome::Parked)
}

const INIT: Step = Step::Call(1, Request::Init, 0, Outcome::Parked);

/// `addvif VIF FLAGS LOCAL`.
fn vif(vif: u16, flags: u8, local: u32) -> Step {
    call(Request::AddVif(VifCtl { vif, flags, local }))
}

/// `addmfc SRC DST PARENT 0:T 1:T 2:T`.
fn entry(src: Addr, dst: Addr, parent: u16, thresholds: [u8; 3]) -> Request {
    let mut ttls = [0; 32];
    ttls[0] = thresholds[0];
    ttls[1] = thresholds[1];
    ttls[2] = thresholds[2];
    Request::AddMfc(MfcCtl {
        src,
        dst,
        parent,
        ttls,
    })
}

/// `addmfc 10.0.0.9 239.1.1.1 0 1:1`.
fn first_entry() -> Request {
    entry(source(0x0009), group(1), 0, [0, 1, 0])
}

/// A packet from 10.0.0.9 to 239.1.1.1 on eth0.
fn packet(outcome: Outcome) -> Step {
    Step::Packet(1, 0x0009, 1, outcome)
}

/// A plain forward.
fn forward(entry: u32, input: u8, outs: u32) -> Outcome {
    Outcome::Forward {
        entry,
        input: Some(input),
        outs: Mask(outs),
    }
}

/// A copy to the register vif, `told` or lost.
fn register(entry: u32, input: u8, outs: u32, told: bool) -> Outcome {
    Outcome::Register {
        entry,
        input: Some(input),
        outs: Mask(outs),
        told,
    }
}

/// A packet from 10.0.0.9 to 239.1.1.1 on eth1, a wrong interface for entry 5.
fn wrong(report: Report) -> Step {
    Step::Packet(
        2,
        0x0009,
        1,
        Outcome::Wrong {
            entry: 5,
            vif: Some(1),
            report,
        },
    )
}

/// A packet from 10.0.0.HOST to 239.1.1.1 on eth0 that waits.
fn parked(host: u16) -> Step {
    Step::Packet(1, host, 1, Outcome::Parked)
}

fn route_totals(packets: u64, bytes: u64, wrong: u64) -> RouteTotals {
    RouteTotals {
        packets,
        bytes,
        wrong,
    }
}

/// The order is that of a history's text.
fn vif_totals(packets_in: u64, packets_out: u64, bytes_in: u64, bytes_out: u64) -> VifTotals {
    VifTotals {
        packets_in,
        packets_out,
        bytes_in,
        bytes_out,
    }
}

/// Of two vifs on one device the higher one is the input.
#[test]
fn two_vifs_of_a_device(rt: HostRuntime) -> Result<(), Fail> {
    let row = Row {
        steps: &[
            INIT,
            vif(0, 8, 1),
            vif(1, 8, 2),
            vif(2, 8, 1),
            call(entry(source(0x0109), group(1), 1, [1, 0, 1])),
            Step::Phase,
            Step::Packet(2, 0x0109, 1, forward(5, 1, 0b101)),
            Step::Packet(1, 0x0009, 2, Outcome::Parked),
            Step::Phase,
            Step::Recv(Some((Kind::NoCache, 2, 2))),
            Step::Phase,
        ],
        routes: &[(5, route_totals(1, 28, 0))],
        vifs: &[
            (0, vif_totals(0, 1, 0, 28)),
            (1, vif_totals(1, 0, 28, 0)),
            (2, vif_totals(0, 1, 0, 28)),
        ],
        fates: &[(2, Fate::Waiting)],
    };
    assert!(rt; is_made(rt.alloc(), &row));
    Ok(())
}

/// Four packets wait and a fifth is dropped; a new entry releases the four.
#[test]
fn released(rt: HostRuntime) -> Result<(), Fail> {
    let row = Row {
        steps: &[
            INIT,
            vif(0, 8, 1),
            vif(1, 8, 2),
            Step::Phase,
            parked(9),
            parked(9),
            parked(9),
            parked(9),
            packet(Outcome::Dropped(Cause::Packets)),
            Step::Phase,
            Step::Recv(Some((Kind::NoCache, 0, 1))),
            Step::Recv(None),
            Step::Call(1, first_entry(), 4, forward(13, 0, 0b10)),
            Step::Phase,
        ],
        routes: &[(13, route_totals(4, 112, 0))],
        vifs: &[(0, vif_totals(4, 0, 112, 0)), (1, vif_totals(0, 4, 0, 112))],
        fates: &[
            (1, Fate::Released(13)),
            (2, Fate::Released(13)),
            (3, Fate::Released(13)),
            (4, Fate::Released(13)),
        ],
    };
    assert!(rt; is_made(rt.alloc(), &row));
    Ok(())
}

/// Ten sources wait, and there is no room for an eleventh.
#[test]
fn eleventh_source(rt: HostRuntime) -> Result<(), Fail> {
    let row = Row {
        steps: &[
            INIT,
            vif(0, 8, 1),
            vif(1, 8, 2),
            Step::Phase,
            parked(11),
            parked(12),
            parked(13),
            parked(14),
            parked(15),
            parked(16),
            parked(17),
            parked(18),
            parked(19),
            parked(20),
            Step::Packet(1, 21, 1, Outcome::Dropped(Cause::Entries)),
            Step::Phase,
        ],
        routes: &[],
        vifs: &[(0, vif_totals(0, 0, 0, 0)), (1, vif_totals(0, 0, 0, 0))],
        fates: &[
            (1, Fate::Waiting),
            (2, Fate::Waiting),
            (3, Fate::Waiting),
            (4, Fate::Waiting),
            (5, Fate::Waiting),
            (6, Fate::Waiting),
            (7, Fate::Waiting),
            (8, Fate::Waiting),
            (9, Fate::Waiting),
            (10, Fate::Waiting),
        ],
    };
    assert!(rt; is_made(rt.alloc(), &row));
    Ok(())
}

/// A packet that misses where no daemon listens.
#[test]
fn no_daemon(rt: HostRuntime) -> Result<(), Fail> {
    let row = Row {
        steps: &[
            vif(0, 8, 1),
            Step::Phase,
            packet(Outcome::Dropped(Cause::NoDaemon)),
            Step::Phase,
        ],
        routes: &[],
        vifs: &[(0, vif_totals(0, 0, 0, 0))],
        fates: &[],
    };
    assert!(rt; is_made(rt.alloc(), &row));
    Ok(())
}

/// A packet expires when it has waited for ten seconds, and no sooner.
#[test]
fn expired(rt: HostRuntime) -> Result<(), Fail> {
    let row = Row {
        steps: &[
            INIT,
            vif(0, 8, 1),
            Step::Phase,
            parked(9),
            Step::Phase,
            Step::Tick(9_999),
            Step::Tick(1),
            Step::Phase,
        ],
        routes: &[],
        vifs: &[(0, vif_totals(0, 0, 0, 0))],
        fates: &[(1, Fate::Expired(7))],
    };
    assert!(rt; is_made(rt.alloc(), &row));
    Ok(())
}

/// A wrong interface is reported again after more than three seconds.
#[test]
fn wrong_interface(rt: HostRuntime) -> Result<(), Fail> {
    let row = Row {
        steps: &[
            INIT,
            vif(0, 8, 1),
            vif(1, 8, 2),
            call(Request::Assert(1)),
            call(first_entry()),
            Step::Phase,
            wrong(Report::Told),
            Step::Phase,
            Step::Tick(3_000),
            Step::Phase,
            wrong(Report::Quiet),
            Step::Phase,
            Step::Tick(1),
            Step::Phase,
            wrong(Report::Told),
            Step::Phase,
        ],
        routes: &[(5, route_totals(3, 84, 3))],
        vifs: &[(0, vif_totals(0, 0, 0, 0)), (1, vif_totals(0, 0, 0, 0))],
        fates: &[],
    };
    assert!(rt; is_made(rt.alloc(), &row));
    Ok(())
}

/// A copy goes to the register vif, and its report is received.
#[test]
fn registered(rt: HostRuntime) -> Result<(), Fail> {
    let row = Row {
        steps: &[
            INIT,
            vif(0, 8, 1),
            vif(1, 8, 2),
            vif(2, 4, 0),
            call(entry(source(0x0009), group(1), 0, [0, 1, 1])),
            Step::Phase,
            packet(register(5, 0, 0b110, true)),
            Step::Phase,
            Step::Recv(Some((Kind::WholePkt, 2, 1))),
            Step::Phase,
        ],
        routes: &[(5, route_totals(1, 28, 0))],
        vifs: &[
            (0, vif_totals(1, 0, 28, 0)),
            (1, vif_totals(0, 1, 0, 28)),
            (2, vif_totals(0, 1, 0, 28)),
        ],
        fates: &[],
    };
    assert!(rt; is_made(rt.alloc(), &row));
    Ok(())
}

/// What another daemon made is static, and stays when the owner is done; packets do not wait on.
#[test]
fn flushed(rt: HostRuntime) -> Result<(), Fail> {
    let row = Row {
        steps: &[
            INIT,
            vif(0, 8, 1),
            vif(1, 8, 2),
            Step::Phase,
            Step::Call(2, first_entry(), 0, Outcome::Parked),
            Step::Phase,
            call(entry(source(0x0009), group(2), 0, [0, 1, 0])),
            Step::Phase,
            parked(8),
            Step::Phase,
            call(Request::Finish),
            Step::Phase,
        ],
        routes: &[(5, route_totals(0, 0, 0))],
        vifs: &[],
        fates: &[(1, Fate::Flushed(11))],
    };
    assert!(rt; is_made(rt.alloc(), &row));
    Ok(())
}

/// An entry for every source releases nothing, and is met by the next packet.
#[test]
fn entry_behind(rt: HostRuntime) -> Result<(), Fail> {
    let row = Row {
        steps: &[
            INIT,
            vif(0, 8, 1),
            vif(1, 8, 2),
            Step::Phase,
            parked(9),
            Step::Phase,
            call(entry(Addr(0), group(1), 0, [1, 1, 0])),
            Step::Phase,
            packet(forward(7, 0, 0b10)),
            Step::Phase,
        ],
        routes: &[(7, route_totals(1, 28, 0))],
        vifs: &[(0, vif_totals(1, 0, 28, 0)), (1, vif_totals(0, 1, 0, 28))],
        fates: &[(1, Fate::Waiting)],
    };
    assert!(rt; is_made(rt.alloc(), &row));
    Ok(())
}

/// 64 reports are unread: a 65th is lost, and a packet that misses cannot wait.
#[test]
fn reports_full(rt: HostRuntime) -> Result<(), Fail> {
    let first = [
        INIT,
        vif(0, 8, 1),
        vif(1, 4, 0),
        call(first_entry()),
        Step::Phase,
    ];
    let missed = Step::Packet(1, 0x0008, 1, Outcome::Dropped(Cause::Upcall));
    let mut steps = [packet(register(4, 0, 0b10, true)); 73];
    steps[..5].copy_from_slice(&first);
    steps[69] = packet(register(4, 0, 0b10, false));
    steps[70] = missed;
    steps[71] = missed;
    steps[72] = Step::Phase;
    let row = Row {
        steps: &steps,
        routes: &[(4, route_totals(65, 1_820, 0))],
        vifs: &[
            (0, vif_totals(65, 0, 1_820, 0)),
            (1, vif_totals(0, 65, 0, 1_820)),
        ],
        fates: &[],
    };
    assert!(rt; is_made(rt.alloc(), &row));
    Ok(())
}
