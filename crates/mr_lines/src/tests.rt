use super::*;
use mr_base::{Addr, DaemonNo, Errno, LaneNo, Mask};
use mr_model::{
    Cause, FastRecord, Fate, FateLine, Flow, Kind, MessageId, MfcCtl, MfcKey, Outcome, ReleasedId,
    Reply, Report, Request, RouteTotals, VifCtl, VifTotals,
};

fn is_call(line: &[u8], number: u64, daemon: u32, request: Request, reply: Reply) -> bool {
    match read_line(line) {
        Some(
            Line::Call {
                number: n,
                daemon: d,
                request: q,
                reply: r,
            },
        ) => n == number && d == DaemonNo(daemon) && q == request && r == reply,
        _ => false,
    }
}

fn asks(line: &[u8], request: Request) -> bool {
    is_call(line, 1, 2, request, Reply::Good)
}

fn replies(line: &[u8], reply: Reply) -> bool {
    is_call(line, 1, 2, Request::Init, reply)
}

fn is_slow(line: &[u8], outcome: Outcome) -> bool {
    match read_line(line) {
        Some(
            Line::Slow {
                number,
                lane,
                index,
                look,
                outcome: o,
            },
        ) => number == 9 && lane == LaneNo(1) && index == 2 && look == 3 && o == outcome,
        _ => false,
    }
}

fn is_recv(line: &[u8], message: Option<MessageId>) -> bool {
    match read_line(line) {
        Some(
            Line::Recv {
                number,
                daemon,
                message: m,
            },
        ) => number == 4 && daemon == DaemonNo(1) && m == message,
        _ => false,
    }
}

fn is_record(line: &[u8], record: FastRecord) -> bool {
    read_record(line) == Some(record)
        && matches!(read_line(line), Some(Line::Record(r)) if r == record)
}

fn is_none(line: &[u8]) -> bool {
    read_line(line).is_none() && read_record(line).is_none()
}

fn record(index: u32, look: u32, entry: u32, input: Option<u8>, outs: u32) -> FastRecord {
    FastRecord {
        index,
        look,
        entry,
        input,
        outs: Mask(outs),
        flow: Flow::default(),
    }
}

fn route(parent: u16, ttls: [u8; 32]) -> MfcCtl {
    MfcCtl {
        src: Addr(0x0A00_0001),
        dst: Addr(0xE001_0203),
        parent,
        ttls,
    }
}

#[test]
fn ends_and_skips(rt: HostRuntime) {
    assert!(rt; matches!(read_line(b"history 1"), Some(Line::History)));
    assert!(rt; is_none(b"history 2"));
    assert!(rt; is_none(b"history 1 "));
    assert!(rt; is_none(b"history"));
    assert!(rt; matches!(read_line(b"end"), Some(Line::End)));
    assert!(rt; is_none(b"end "));
    assert!(rt; is_none(b" end"));
    assert!(rt; is_none(b""));
    let skip = Skip {
        lane: LaneNo(4_294_967_295),
        index: 0,
        cause: 255,
    };
    assert!(rt; matches!(read_line(b"skip 4294967295 0 255"), Some(Line::Skip(s)) if s == skip));
    assert!(rt; is_none(b"skip 4294967296 0 255"));
    assert!(rt; is_none(b"skip 1 0 256"));
    assert!(rt; is_none(b"skip 1 00 1"));
    assert!(rt; is_none(b"skip 1  0 1"));
    assert!(rt; is_none(b"skip 1 0"));
}

#[test]
fn requests_of_vifs(rt: HostRuntime) {
    let device = VifCtl {
        vif: 65_535,
        flags: 8,
        local: 4_294_967_295,
    };
    assert!(rt;
        asks(
            b"1 call 2 addvif 65535 8 @4294967295 = ok",
            Request::AddVif(device)
        )
    );
    let register = VifCtl {
        vif: 0,
        flags: 4,
        local: 0,
    };
    assert!(rt;
        asks(
            b"1 call 2 addvif 0 4 0.0.0.0 = ok",
            Request::AddVif(register)
        )
    );
    assert!(rt; is_none(b"1 call 2 addvif 0 8 0.0.0.0 = ok"));
    assert!(rt; is_none(b"1 call 2 addvif 0 4 @0 = ok"));
    assert!(rt; is_none(b"1 call 2 addvif 0 256 0.0.0.0 = ok"));
    assert!(rt; is_none(b"1 call 2 addvif 65536 0 0.0.0.0 = ok"));
}

#[test]
fn requests_of_entries(rt: HostRuntime) {
    let mut ttls = [0u8; 32];
    assert!(rt;
        asks(
            b"1 call 2 addmfc 10.0.0.1 224.1.2.3 0 = ok",
            Request::AddMfc(route(0, ttls))
        )
    );
    ttls[0] = 1;
    ttls[31] = 255;
    assert!(rt;
        asks(
            b"1 call 2 addproxy 10.0.0.1 224.1.2.3 65535 0:1 31:255 = ok",
            Request::AddProxy(route(65_535, ttls))
        )
    );
    assert!(rt; is_none(b"1 call 2 addmfc 10.0.0.1 224.1.2.3 0 31:255 0:1 = ok"));
    assert!(rt; is_none(b"1 call 2 addmfc 10.0.0.1 224.1.2.3 0 0:0 = ok"));
    assert!(rt; is_none(b"1 call 2 addmfc 10.0.0.1 224.1.2.3 0 32:1 = ok"));
    assert!(rt; is_none(b"1 call 2 addmfc 10.0.0.1 224.1.2.3 0 0:256 = ok"));
    let key = MfcKey {
        src: Addr(0),
        dst: Addr(4_294_967_295),
        parent: 7,
    };
    assert!(rt;
        asks(
            b"1 call 2 delmfc 0.0.0.0 255.255.255.255 7 = ok",
            Request::DelMfc(key)
        )
    );
    assert!(rt;
        asks(
            b"1 call 2 delproxy 0.0.0.0 255.255.255.255 7 = ok",
            Request::DelProxy(key)
        )
    );
    assert!(rt; is_none(b"1 call 2 delmfc 0.0.0.0 255.255.255.256 7 = ok"));
}

#[test]
fn requests_of_few_words(rt: HostRuntime) {
    assert!(rt; asks(b"1 call 2 init = ok", Request::Init));
    assert!(rt; asks(b"1 call 2 done = ok", Request::Finish));
    assert!(rt; asks(b"1 call 2 delvif 3 = ok", Request::DelVif(3)));
    assert!(rt; asks(b"1 call 2 pim 4294967295 = ok", Request::Pim(4_294_967_295)));
    assert!(rt; asks(b"1 call 2 assert 0 = ok", Request::Assert(0)));
    assert!(rt; asks(b"1 call 2 flush 15 = ok", Request::Flush(15)));
    assert!(rt; asks(b"1 call 2 unknown 65535 = ok", Request::Unknown(65_535)));
    assert!(rt; asks(b"1 call 2 badlength 200 = ok", Request::BadLength(200)));
    assert!(rt; is_none(b"1 call 2 unknown 65536 = ok"));
    assert!(rt; asks(b"1 call 2 version = ok", Request::GetVersion));
    assert!(rt; asks(b"1 call 2 getpim = ok", Request::GetPim));
    assert!(rt; asks(b"1 call 2 getassert = ok", Request::GetAssert));
    assert!(rt; asks(b"1 call 2 vifcnt 31 = ok", Request::VifCount(31)));
    let count = Request::SgCount {
        src: Addr(1),
        dst: Addr(256),
    };
    assert!(rt; asks(b"1 call 2 sgcnt 0.0.0.1 0.0.1.0 = ok", count));
    assert!(rt; is_none(b"1 call 2 table 1 = ok"));
    assert!(rt; is_none(b"1 call 2 init ok"));
}

#[test]
fn replies_of_calls(rt: HostRuntime) {
    assert!(rt;
        is_call(
            b"18446744073709551615 call 4294967295 init = ok",
            18_446_744_073_709_551_615,
            4_294_967_295,
            Request::Init,
            Reply::Good
        )
    );
    assert!(rt; is_none(b"18446744073709551616 call 2 init = ok"));
    assert!(rt; is_none(b"1 call 4294967296 init = ok"));
    assert!(rt; is_none(b"01 call 2 init = ok"));
    assert!(rt;
        replies(
            b"1 call 2 init = ok 4294967295",
            Reply::Value(4_294_967_295)
        )
    );
    assert!(rt; is_none(b"1 call 2 init = ok 4294967296"));
    let totals = RouteTotals {
        packets: 0,
        bytes: 18_446_744_073_709_551_615,
        wrong: 1,
    };
    assert!(rt;
        replies(
            b"1 call 2 init = sg 0 18446744073709551615 1",
            Reply::Sg(totals)
        )
    );
    assert!(rt; is_none(b"1 call 2 init = sg 0 18446744073709551616 1"));
    assert!(rt; is_none(b"1 call 2 init = sg 0 1"));
    let totals = VifTotals {
        packets_in: 1,
        packets_out: 2,
        bytes_in: 3,
        bytes_out: 4,
    };
    assert!(rt; replies(b"1 call 2 init = vif 1 2 3 4", Reply::Vif(totals)));
    assert!(rt; replies(b"1 call 2 init = err 2", Reply::Refused(Errno::NoEntry)));
    assert!(rt; replies(b"1 call 2 init = err 105", Reply::Refused(Errno::NoBuffers)));
    assert!(rt; is_none(b"1 call 2 init = err 1"));
    assert!(rt; is_none(b"1 call 2 init ="));
}

#[test]
fn outcomes_and_entries(rt: HostRuntime) {
    let forward = Outcome::Forward {
        entry: 4_294_967_295,
        input: Some(255),
        outs: Mask(0x8000_0005),
    };
    assert!(rt; is_slow(b"9 slow 1 2 3 fwd 4294967295 255 0,2,31", forward));
    let register = Outcome::Register {
        entry: 1,
        input: None,
        outs: Mask(0),
        told: false,
    };
    assert!(rt; is_slow(b"9 slow 1 2 3 reg 1 - - lost", register));
    let wrong = Outcome::Wrong {
        entry: 1,
        vif: Some(0),
        report: Report::Quiet,
    };
    assert!(rt; is_slow(b"9 slow 1 2 3 wrong 1 0 quiet", wrong));
    assert!(rt; is_slow(b"9 slow 1 2 3 parked", Outcome::Parked));
    assert!(rt; is_slow(b"9 slow 1 2 3 drop upcall", Outcome::Dropped(Cause::Upcall)));
    assert!(rt; is_none(b"9 slow 1 2 3 drop"));
    assert!(rt; is_none(b"9 slow 1 2 3 reg 1 - - quiet"));
    assert!(rt; is_none(b"9 slow 1 2 3 fwd 1 256 0"));
    let id = MessageId {
        kind: Kind::WholePkt,
        vif: 255,
        lane: LaneNo(1),
        index: 4_294_967_295,
    };
    assert!(rt; is_recv(b"4 recv 1 wholepkt 255 1 4294967295", Some(id)));
    assert!(rt; is_recv(b"4 recv 1 none", None));
    assert!(rt; is_none(b"4 recv 1 none 1"));
    assert!(rt; is_none(b"4 recv 1 nocache 256 1 1"));
    assert!(rt;
        matches!(
            read_line(b"1 settle 2 18446744073709551615"),
            Some(Line::Settle { count, .. }) if count == 18_446_744_073_709_551_615
        )
    );
    assert!(rt;
        matches!(read_line(b"1 settle 2 0"), Some(Line::Settle { count, .. }) if count == 0)
    );
    assert!(rt;
        matches!(
            read_line(b"1 tick 2 4294967295"),
            Some(Line::Tick { ms, .. }) if ms == 4_294_967_295
        )
    );
    assert!(rt; is_none(b"1 tick 2 4294967296"));
    assert!(rt; matches!(read_line(b"7 phase"), Some(Line::Phase { number }) if number == 7));
    assert!(rt; is_none(b"7 phase 1"));
    assert!(rt; is_none(b"7"));
}

#[test]
fn records_and_released(rt: HostRuntime) {
    assert!(rt; is_record(b"- 1 2 3 4 5", record(1, 2, 3, Some(4), 32)));
    assert!(rt;
        is_record(
            b"- 4294967295 0 4294967295 - -",
            record(4_294_967_295, 0, 4_294_967_295, None, 0)
        )
    );
    assert!(rt;
        is_record(
            b"- 1 2 3 0 \
            0,1,2,3,4,5,6,7,8,9,10,11,12,13,14,15,16,17,18,19,20,21,22,23,24,25,26,27,28,29,30,31",
            record(1, 2, 3, Some(0), 4_294_967_295)
        )
    );
    assert!(rt; is_none(b"- 1 2 3 4 5,5"));
    assert!(rt; is_none(b"- 1 2 3 4 5,4"));
    assert!(rt; is_none(b"- 1 2 3 4 32"));
    assert!(rt; is_none(b"- 1 2 3 4 5,"));
    assert!(rt; is_none(b"- 1 2 3 4 ,5"));
    assert!(rt; is_none(b"- 1 2 3 4 05"));
    assert!(rt; is_none(b"- 1 2 3 4 -,5"));
    assert!(rt; is_none(b"- 1 2 3 4"));
    assert!(rt; is_none(b"- 1 2 3 4 5 6"));
    assert!(rt; is_none(b"- 4294967296 2 3 4 5"));
    assert!(rt; is_none(b"-1 2 3 4 5"));
    let released = ReleasedId {
        lane: LaneNo(1),
        index: 2,
        outcome: Outcome::Wrong {
            entry: 3,
            vif: None,
            report: Report::Told,
        },
    };
    assert!(rt;
        matches!(read_line(b"- 1 2 wrong 3 - told"), Some(Line::Released(r)) if r == released)
    );
    assert!(rt; read_record(b"- 1 2 wrong 3 - told").is_none());
    assert!(rt; is_none(b"- 1 2 wrong 3 - none"));
}

#[test]
fn tail_lines(rt: HostRuntime) {
    let route = RouteLine {
        number: 4_294_967_295,
        src: Addr(0x0A00_0001),
        dst: Addr(0xE000_0001),
        parent: 255,
        totals: RouteTotals {
            packets: 1,
            bytes: 2,
            wrong: 3,
        },
    };
    assert!(rt;
        matches!(
            read_line(b"route 4294967295 10.0.0.1 224.0.0.1 255 1 2 3"),
            Some(Line::Route(r)) if r == route
        )
    );
    assert!(rt; is_none(b"route 1 10.0.0.1 224.0.0.1 256 1 2 3"));
    assert!(rt; is_none(b"route 1 10.0.0.1 224.0.0.01 255 1 2 3"));
    assert!(rt;
        matches!(
            read_line(b"vif 255 pimreg 1 2 3 4"),
            Some(Line::Vif(v))
                if v.vif == 255
                    && v.name.as_str() == "pimreg"
                    && v.totals.bytes_out == 4
        )
    );
    assert!(rt;
        matches!(
            read_line(b"vif 0 a23456789012345 1 2 3 4"),
            Some(Line::Vif(v)) if v.name.as_str() == "a23456789012345"
        )
    );
    assert!(rt; is_none(b"vif 0 a234567890123456 1 2 3 4"));
    assert!(rt; is_none(b"vif 256 eth0 1 2 3 4"));
    assert!(rt; is_none(b"vif 0 0eth 1 2 3 4"));
    let fate = FateLine {
        lane: LaneNo(1),
        index: 2,
        fate: Fate::Expired(4_294_967_295),
    };
    assert!(rt;
        matches!(read_line(b"fate 1 2 expired 4294967295"), Some(Line::Fate(f)) if f == fate)
    );
    assert!(rt;
        matches!(read_line(b"fate 1 2 waiting"), Some(Line::Fate(f)) if f.fate == Fate::Waiting)
    );
    assert!(rt;
        matches!(
            read_line(b"fate 1 2 released 1"),
            Some(Line::Fate(f)) if f.fate == Fate::Released(1)
        )
    );
    assert!(rt;
        matches!(
            read_line(b"fate 1 2 flushed 1"),
            Some(Line::Fate(f)) if f.fate == Fate::Flushed(1)
        )
    );
    assert!(rt; is_none(b"fate 1 2 waiting 1"));
    assert!(rt; is_none(b"fate 1 2 flushed 4294967296"));
}
