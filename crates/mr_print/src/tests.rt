use super::*;
use mr_base::{Addr, DaemonNo, Errno, FileName, LaneNo, Mask};
use mr_lines::{RouteLine, Skip, VifLine};
use mr_model::{
    Cause, Fate, FateLine, Kind, MessageId, MfcCtl, MfcKey, Outcome, ReleasedId, Reply, Report,
    Request, RouteTotals, VifCtl, VifTotals,
};
use std::test::Fail;

const SRC: Addr = Addr(0x0A00_0009);

const DST: Addr = Addr(0xEF01_0101);

/// Thresholds 1 of vif 1 and 255 of vif 31.
fn thresholds() -> [u8; 32] {
    let mut ttls = [0u8; 32];
    ttls[1] = 1;
    ttls[31] = 255;
    ttls
}

fn route(parent: u16) -> MfcCtl {
    MfcCtl {
        src: SRC,
        dst: DST,
        parent,
        ttls: thresholds(),
    }
}

const KEY: MfcKey = MfcKey {
    src: SRC,
    dst: DST,
    parent: 65535,
};

fn vif(flags: u8, local: u32) -> Request {
    Request::AddVif(VifCtl {
        vif: 3,
        flags,
        local,
    })
}

#[test]
fn requests(rt: HostRuntime) -> Result<(), Fail> {
    let cases = [
        (Request::Init, "init"),
        (Request::Finish, "done"),
        (vif(8, 2), "addvif 3 8 @2"),
        (vif(0, 0x0A00_0001), "addvif 3 0 10.0.0.1"),
        (vif(4, 0), "addvif 3 4 0.0.0.0"),
        (Request::DelVif(31), "delvif 31"),
        (
            Request::AddMfc(route(0)),
            "addmfc 10.0.0.9 239.1.1.1 0 1:1 31:255",
        ),
        (Request::DelMfc(KEY), "delmfc 10.0.0.9 239.1.1.1 65535"),
        (
            Request::AddProxy(route(2)),
            "addproxy 10.0.0.9 239.1.1.1 2 1:1 31:255",
        ),
        (Request::DelProxy(KEY), "delproxy 10.0.0.9 239.1.1.1 65535"),
        (Request::Pim(1), "pim 1"),
        (Request::Assert(4294967295), "assert 4294967295"),
        (Request::Flush(15), "flush 15"),
        (Request::Unknown(213), "unknown 213"),
        (Request::BadLength(202), "badlength 202"),
        (Request::GetVersion, "version"),
        (Request::GetPim, "getpim"),
        (Request::GetAssert, "getassert"),
        (Request::VifCount(1), "vifcnt 1"),
        (
            Request::SgCount { src: SRC, dst: DST },
            "sgcnt 10.0.0.9 239.1.1.1",
        ),
    ];
    for (request, words) in cases {
        let mut out = Vec::new(rt.alloc());
        write_call(
            &mut out,
            18_446_744_073_709_551_615,
            DaemonNo(2),
            &request,
            &Reply::Good,
        )?;
        let want = format!(in rt.alloc(); "18446744073709551615 call 2 {words} = ok\n")?;
        assert_eq!(rt; out.as_slice(), want.as_bytes());
    }
    Ok(())
}

const ROUTE_TOTALS: RouteTotals = RouteTotals {
    packets: 3,
    bytes: 84,
    wrong: 1,
};

const VIF_TOTALS: VifTotals = VifTotals {
    packets_in: 1,
    packets_out: 2,
    bytes_in: 28,
    bytes_out: 56,
};

#[test]
fn replies(rt: HostRuntime) -> Result<(), Fail> {
    let cases = [
        (Reply::Good, "ok"),
        (Reply::Value(0), "ok 0"),
        (Reply::Sg(ROUTE_TOTALS), "sg 3 84 1"),
        (Reply::Vif(VIF_TOTALS), "vif 1 2 28 56"),
        (Reply::Refused(Errno::InUse), "err 98"),
    ];
    for (reply, words) in cases {
        let mut out = Vec::new(rt.alloc());
        write_call(&mut out, 1, DaemonNo(1), &Request::GetPim, &reply)?;
        let want = format!(in rt.alloc(); "1 call 1 getpim = {words}\n")?;
        assert_eq!(rt; out.as_slice(), want.as_bytes());
    }
    Ok(())
}

/// Whether an outcome stands so behind a slow packet and behind a released one.
fn writes(rt: &HostRuntime, outcome: Outcome, words: &str) -> Result<bool, Fail> {
    let released = ReleasedId {
        lane: LaneNo(2),
        index: 1,
        outcome,
    };
    let mut out = Vec::new(rt.alloc());
    write_slow(&mut out, 8, LaneNo(2), 1, 6, &outcome)?;
    write_released(&mut out, &released)?;
    let want = format!(in rt.alloc(); "8 slow 2 1 6 {words}\n- 2 1 {words}\n")?;
    Ok(out.as_slice() == want.as_bytes())
}

#[test]
fn outcomes_that_go_out(rt: HostRuntime) -> Result<(), Fail> {
    let outs = Mask(0x8000_0402);
    let cases = [
        (
            Outcome::Forward {
                entry: 11,
                input: Some(2),
                outs,
            },
            "fwd 11 2 1,10,31",
        ),
        (
            Outcome::Register {
                entry: 4,
                input: None,
                outs: Mask(0),
                told: true,
            },
            "reg 4 - - told",
        ),
        (
            Outcome::Register {
                entry: 4,
                input: Some(0),
                outs,
                told: false,
            },
            "reg 4 0 1,10,31 lost",
        ),
    ];
    for (outcome, words) in cases {
        assert!(rt; writes(&rt, outcome, words)?);
    }
    Ok(())
}

#[test]
fn outcomes_that_do_not(rt: HostRuntime) -> Result<(), Fail> {
    let cases = [
        (
            Outcome::Wrong {
                entry: 5,
                vif: None,
                report: Report::Quiet,
            },
            "wrong 5 - quiet",
        ),
        (
            Outcome::Wrong {
                entry: 5,
                vif: Some(31),
                report: Report::Told,
            },
            "wrong 5 31 told",
        ),
        (
            Outcome::Wrong {
                entry: 5,
                vif: Some(1),
                report: Report::Lost,
            },
            "wrong 5 1 lost",
        ),
        (Outcome::Parked, "parked"),
        (Outcome::Dropped(Cause::NoVif), "drop novif"),
        (Outcome::Dropped(Cause::NoDaemon), "drop nodaemon"),
        (Outcome::Dropped(Cause::Entries), "drop entries"),
        (Outcome::Dropped(Cause::Packets), "drop packets"),
        (Outcome::Dropped(Cause::Upcall), "drop upcall"),
    ];
    for (outcome, words) in cases {
        assert!(rt; writes(&rt, outcome, words)?);
    }
    Ok(())
}

fn message(kind: Kind) -> Option<MessageId> {
    Some(MessageId {
        kind,
        vif: 2,
        lane: LaneNo(3),
        index: 1,
    })
}

#[test]
fn settles_ticks_receives_and_phases(rt: HostRuntime) -> Result<(), Fail> {
    let mut out = Vec::new(rt.alloc());
    write_settle(&mut out, 7, LaneNo(1), 3)?;
    write_tick(&mut out, 9, DaemonNo(1), 1000)?;
    write_recv(&mut out, 10, DaemonNo(1), &None)?;
    write_recv(&mut out, 11, DaemonNo(1), &message(Kind::NoCache))?;
    write_recv(&mut out, 12, DaemonNo(1), &message(Kind::WrongVif))?;
    write_recv(&mut out, 13, DaemonNo(1), &message(Kind::WholePkt))?;
    write_phase(&mut out, 14)?;
    let want = "\
7 settle 1 3
9 tick 1 1000
10 recv 1 none
11 recv 1 nocache 2 3 1
12 recv 1 wrongvif 2 3 1
13 recv 1 wholepkt 2 3 1
14 phase
";
    assert_eq!(rt; out.as_slice(), want.as_bytes());
    Ok(())
}

fn fate(fate: Fate) -> FateLine {
    FateLine {
        lane: LaneNo(2),
        index: 1,
        fate,
    }
}

#[test]
fn ends(rt: HostRuntime) -> Result<(), Fail> {
    let skip = Skip {
        lane: LaneNo(1),
        index: 2,
        cause: 0,
    };
    let route = RouteLine {
        number: 4,
        src: SRC,
        dst: DST,
        parent: 0,
        totals: ROUTE_TOTALS,
    };
    let vif = VifLine {
        vif: 1,
        name: FileName::new("eth1"),
        totals: VIF_TOTALS,
    };
    let mut out = Vec::new(rt.alloc());
    write_first(&mut out)?;
    write_skip(&mut out, &skip)?;
    write_route(&mut out, &route)?;
    write_vif(&mut out, &vif)?;
    write_fate(&mut out, &fate(Fate::Released(11)))?;
    write_fate(&mut out, &fate(Fate::Expired(12)))?;
    write_fate(&mut out, &fate(Fate::Flushed(13)))?;
    write_fate(&mut out, &fate(Fate::Waiting))?;
    write_end(&mut out)?;
    let want = "\
history 1
skip 1 2 0
route 4 10.0.0.9 239.1.1.1 0 3 84 1
vif 1 eth1 1 2 28 56
fate 2 1 released 11
fate 2 1 expired 12
fate 2 1 flushed 13
fate 2 1 waiting
end
";
    assert_eq!(rt; out.as_slice(), want.as_bytes());
    Ok(())
}
