use crate::tests::{SETUP, ran, told};
use mr_base::{FileName, MemSink, MemStore};
use mr_load::{Status, TraceCause};
use std::alloc::{AllocError, Global};
use std::process::Abort;
use std::sync::Wait;
use std::test::Fail;
use std::thread::Threads;

/// A packet of 28 bytes from 10.0.0.9 to 239.1.1.1 with TTL 2.
const PACKET: [u8; 28] = [
    0x45, 0, 0, 0x1c, 0, 1, 0, 0, 2, 0x11, 0xbe, 0xc5, 10, 0, 0, 9, 239, 1, 1, 1, 3, 0xe8, 3, 0xe9,
    0, 8, 0, 0,
];

/// The magic numbers as they stand in a file: microseconds and nanoseconds, little-endian and
/// big-endian.
const MICROS: [u8; 4] = [0xd4, 0xc3, 0xb2, 0xa1];

const NANOS: [u8; 4] = [0x4d, 0x3c, 0xb2, 0xa1];

const BIG_MICROS: [u8; 4] = [0xa1, 0xb2, 0xc3, 0xd4];

const BIG_NANOS: [u8; 4] = [0xa1, 0xb2, 0x3c, 0x4d];

/// A number of 16 bits in four bytes, in the order of a file whose magic number begins so.
fn four(first: u8, n: u16) -> [u8; 4] {
    let low = (n % 256) as u8;
    let high = (n / 256) as u8;
    if first == 0xa1 {
        [0, 0, high, low]
    } else {
        [low, high, 0, 0]
    }
}

/// A trace's header of 24 bytes.
fn header(alloc: Global, magic: [u8; 4], link: u16) -> Result<Vec<u8>, AllocError> {
    let mut file = Vec::new(alloc);
    file.extend_from_slice(&magic)?;
    file.extend_from_slice(&[0; 16])?;
    file.extend_from_slice(&four(magic[0], link))?;
    Ok(file)
}

/// One record more, of a front and the bytes behind it.
fn record(file: &mut Vec<u8>, first: u8, front: &[u8], bytes: &[u8]) -> Result<(), AllocError> {
    let length = four(first, (front.len() % 1024 + bytes.len() % 1024) as u16);
    file.extend_from_slice(&[0; 8])?;
    file.extend_from_slice(&length)?;
    file.extend_from_slice(&length)?;
    file.extend_from_slice(front)?;
    file.extend_from_slice(bytes)
}

/// A run of the scenario `f`, beside which a trace `t` lies: its status, and what was taken.
fn traced<R: AllocGlobal + Wait + Threads + Sync>(
    rt: &R,
    text: &str,
    trace: Vec<u8>,
) -> Result<(Status, Vec<u8>), AllocError> {
    let alloc = rt.alloc();
    let scenario = (FileName::new("f"), Vec::from_slice(alloc, text.as_bytes())?);
    let other = (FileName::new("t"), trace);
    let mut store = MemStore::with(alloc, vec![in alloc; scenario, other]?, Vec::new(alloc));
    let mut out = MemSink::with(alloc, Vec::new(alloc));
    let status = ran(rt, "replay f", &mut store, &mut out)?;
    Ok((status, Vec::from_slice(alloc, out.taken())?))
}

/// The history of one packet that came in a trace.
const ONE: &str = "\
history 1
1 call 1 init = ok
2 call 1 addvif 0 8 @1 = ok
3 call 1 addvif 1 8 @2 = ok
4 call 1 addmfc 10.0.0.9 239.1.1.1 0 1:1 = ok
5 phase
6 slow 1 1 5 fwd 4 0 1
7 phase
route 4 10.0.0.9 239.1.1.1 0 1 28 0
vif 0 eth0 1 0 28 0
vif 1 eth1 0 1 0 28
end
";

/// The fronts of the frames of each link, with the number of its type.
const LINKS: [(u16, &[u8]); 5] = [
    (1, &[1, 1, 1, 1, 1, 1, 2, 2, 2, 2, 2, 2, 8, 0]),
    (101, &[]),
    (113, &[0, 0, 0, 1, 0, 6, 2, 2, 2, 2, 2, 2, 0, 0, 8, 0]),
    (228, &[]),
    (
        276,
        &[8, 0, 0, 0, 0, 0, 0, 2, 0, 1, 0, 6, 2, 2, 2, 2, 2, 2, 0, 0],
    ),
];

/// Each magic number with each link.
#[test]
fn each_kind_of_trace(rt: HostRuntime) -> Result<(), Fail> {
    let alloc = rt.alloc();
    let text = format!(in alloc; "{SETUP}phase\nlane 1 trace eth0 t\n")?;
    for magic in [MICROS, NANOS, BIG_MICROS, BIG_NANOS] {
        for (link, front) in LINKS {
            let mut file = header(alloc, magic, link)?;
            record(&mut file, magic[0], front, &PACKET)?;
            let (status, taken) = traced(&rt, text.as_str(), file)?;
            assert_eq!(rt; told(&status), (0, 0, 0), "at {link}");
            assert_eq!(rt; taken.as_slice(), ONE.as_bytes(), "at {link}");
        }
    }
    Ok(())
}

/// A request of ARP, a packet with six bytes of padding, and a head that is cut, named by two
/// lines.
const TWICE: &str = "\
history 1
skip 1 1 0
skip 1 3 1
skip 1 4 0
skip 1 6 1
1 call 1 init = ok
2 call 1 addvif 0 8 @1 = ok
3 call 1 addvif 1 8 @2 = ok
4 call 1 addmfc 10.0.0.9 239.1.1.1 0 1:1 = ok
5 phase
6 slow 1 2 5 fwd 4 0 1
7 slow 1 5 6 fwd 4 0 1
8 phase
route 4 10.0.0.9 239.1.1.1 0 2 56 0
vif 0 eth0 2 0 56 0
vif 1 eth1 0 2 0 56
end
";

#[test]
fn frames_of_every_sort(rt: HostRuntime) -> Result<(), Fail> {
    let alloc = rt.alloc();
    let text = format!(in alloc; "{SETUP}phase\nlane 1 trace eth0 t\nlane 1 trace eth0 t\n")?;
    let (_, front) = LINKS[0];
    let mut padded = Vec::from_slice(alloc, &PACKET)?;
    padded.extend_from_slice(&[0; 6])?;
    let mut file = header(alloc, MICROS, 1)?;
    record(
        &mut file,
        MICROS[0],
        &[1, 1, 1, 1, 1, 1, 2, 2, 2, 2, 2, 2, 8, 6],
        &[0; 28],
    )?;
    record(&mut file, MICROS[0], front, padded.as_slice())?;
    record(&mut file, MICROS[0], front, &PACKET[..19])?;
    let (status, taken) = traced(&rt, text.as_str(), file)?;
    assert_eq!(rt; told(&status), (0, 0, 0));
    assert_eq!(rt; taken.as_slice(), TWICE.as_bytes());
    Ok(())
}

/// Why a file was refused as a trace, as two numbers: which cause, from 1 in the order of
/// `TraceCause`, and of which record; zeros for another status.
fn cause_told(status: &Status) -> (u32, u32) {
    match status {
        Status::Trace { cause, .. } => match cause {
            TraceCause::Magic => (1, 0),
            TraceCause::LinkType => (2, 0),
            TraceCause::CutHeader => (3, 0),
            TraceCause::CutRecord(number) => (4, *number),
            TraceCause::TooMany => (5, 0),
        },
        _ => (0, 0),
    }
}

/// That a file is refused as a trace, for this cause.
fn check_cause<R: AllocGlobal + Abort + Wait + Threads + Sync>(
    rt: &R,
    text: &str,
    file: Vec<u8>,
    want: (u32, u32),
) -> Result<(), Fail> {
    let (status, taken) = traced(rt, text, file)?;
    assert_eq!(rt; told(&status), (3, 0, 0));
    assert_eq!(rt; cause_told(&status), want);
    assert_eq!(rt; taken.as_slice().len(), 0);
    Ok(())
}

#[test]
fn files_that_are_no_traces(rt: HostRuntime) -> Result<(), Fail> {
    let alloc = rt.alloc();
    let text = format!(in alloc; "{SETUP}lane 1 trace eth0 t\n")?;
    check_cause(
        &rt,
        text.as_str(),
        Vec::from_slice(alloc, &[0xa1; 23])?,
        (3, 0),
    )?;
    let mut next = Vec::from_slice(alloc, &[0x0a, 0x0d, 0x0d, 0x0a])?;
    next.extend_from_slice(&[0; 20])?;
    check_cause(&rt, text.as_str(), next, (1, 0))?;
    check_cause(&rt, text.as_str(), header(alloc, MICROS, 105)?, (2, 0))?;
    let mut cut = header(alloc, MICROS, 1)?;
    record(&mut cut, MICROS[0], &[], &[0; 41])?;
    record(&mut cut, MICROS[0], &[], &[0; 41])?;
    cut.extend_from_slice(&[0, 0, 0, 0, 0, 0, 0, 0, 42, 0, 0, 0, 42, 0, 0, 0])?;
    cut.extend_from_slice(&[0; 41])?;
    check_cause(&rt, text.as_str(), cut, (4, 3))
}

/// 1,025 records, which 1,024 lines name: 1,049,600 items, and 1,048,576 are allowed.
#[test]
fn too_many_items(rt: HostRuntime) -> Result<(), Fail> {
    let alloc = rt.alloc();
    let mut text = String::from_str(alloc, SETUP)?;
    for _ in 0..1024u32 {
        text.push_str("lane 1 trace eth0 t\n")?;
    }
    let mut file = header(alloc, MICROS, 228)?;
    for _ in 0..1025u32 {
        record(&mut file, MICROS[0], &[], &[])?;
    }
    check_cause(&rt, text.as_str(), file, (5, 0))
}

/// A scenario that names itself is not read again, and is no trace.
#[test]
fn its_own_trace(rt: HostRuntime) -> Result<(), Fail> {
    let alloc = rt.alloc();
    let text = format!(in alloc; "{SETUP}lane 1 trace eth0 f\n")?;
    let (status, _) = traced(&rt, text.as_str(), Vec::new(alloc))?;
    assert_eq!(rt; told(&status), (3, 0, 0));
    assert_eq!(rt; cause_told(&status), (1, 0));
    Ok(())
}

/// A trace that is not there.
#[test]
fn no_such_trace(rt: HostRuntime) -> Result<(), Fail> {
    let alloc = rt.alloc();
    let text = format!(in alloc; "{SETUP}lane 1 trace eth0 u\n")?;
    let (status, _) = traced(&rt, text.as_str(), Vec::new(alloc))?;
    assert_eq!(rt; told(&status), (4, 0, 0));
    Ok(())
}
