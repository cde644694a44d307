use crate::*;
use std::test::Fail;

/// The header of an egress trace: little-endian, microseconds, raw IPv4.
const EGRESS: [u8; 24] = *b"\xd4\xc3\xb2\xa1\x02\0\x04\0\0\0\0\0\0\0\0\0\xff\xff\0\0\xe4\0\0\0";

/// The head of a record of 28 bytes, at second 0.
const HEAD: [u8; 16] = *b"\0\0\0\0\0\0\0\0\x1c\0\0\0\x1c\0\0\0";

/// Takes what threads may share and hand over.
fn crosses<T: Send + Sync>(_value: &T) {}

/// A UDP packet from 10.0.0.9 to 239.1.1.1 with ident 1 and TTL 1.
const PACKET: [u8; 28] = [
    0x45, 0, 0, 0x1C, 0, 1, 0, 0, 1, 17, 0xBF, 0xC5, 10, 0, 0, 9, 239, 1, 1, 1, 3, 0xE8, 3, 0xE9,
    0, 8, 0, 0,
];

#[test]
fn an_egress_trace(rt: HostRuntime) -> Result<(), Fail> {
    let mut out = Vec::new(rt.alloc());
    write_header(&mut out, LinkType::RawIpv4, false)
        .ok()
        .ok_or("memory")?;
    assert_eq!(rt; out.as_slice(), EGRESS.as_slice());
    let sent = Record {
        sec: 0,
        frac: 0,
        orig: 28,
        bytes: &PACKET[..20],
    };
    write_record(&mut out, &sent, &PACKET[20..])
        .ok()
        .ok_or("memory")?;
    assert_eq!(rt; &out.as_slice()[..24], EGRESS.as_slice());
    assert_eq!(rt; &out.as_slice()[24..40], HEAD.as_slice());
    assert_eq!(rt; &out.as_slice()[40..], PACKET.as_slice());
    let file = Vec::from_slice(rt.alloc(), out.as_slice())?;
    let trace = read(rt.alloc(), file).ok().ok_or("a trace")?;
    assert_eq!(rt;
        (trace.link(), trace.nanos(), trace.len()),
        (LinkType::RawIpv4, false, 1)
    );
    let again = trace.record(0).ok_or("a record")?;
    assert_eq!(rt; (again.sec, again.frac, again.orig), (0, 0, 28));
    assert_eq!(rt; ip_part(trace.link(), again.bytes), Some(PACKET.as_slice()));
    assert!(rt; trace.record(1).is_none());
    crosses(&trace);
    let written = write(rt.alloc(), &trace).ok().ok_or("memory")?;
    assert_eq!(rt; written.as_slice(), out.as_slice());
    Ok(())
}

#[test]
fn a_big_endian_trace(rt: HostRuntime) -> Result<(), Fail> {
    let bytes = b"\xa1\xb2\x3c\x4d\0\x02\0\x04\0\0\0\0\0\0\0\0\0\0\xff\xff\xf0\0\0\x01\
        \0\0\x01\x02\0\0\0\x03\0\0\0\x02\0\0\0\x3c\xaa\xbb";
    let file = Vec::from_slice(rt.alloc(), bytes.as_slice())?;
    let trace = read(rt.alloc(), file).ok().ok_or("a trace")?;
    assert_eq!(rt;
        (trace.link(), trace.nanos(), trace.len()),
        (LinkType::Ethernet, true, 1)
    );
    let record = trace.record(0).ok_or("a record")?;
    assert_eq!(rt; (record.sec, record.frac, record.orig), (258, 3, 60));
    assert_eq!(rt; record.bytes, b"\xaa\xbb".as_slice());
    assert!(rt; ip_part(trace.link(), record.bytes).is_none());
    Ok(())
}

#[test]
fn refused(rt: HostRuntime) -> Result<(), Fail> {
    let rows: [(&[u8], PcapError); 4] = [
        (&EGRESS[..23], PcapError::CutHeader),
        (&PACKET, PcapError::Magic),
        (
            b"\xd4\xc3\xb2\xa1\x02\0\x04\0\0\0\0\0\0\0\0\0\xff\xff\0\0\x69\0\0\0",
            PcapError::LinkType,
        ),
        (
            b"\xd4\xc3\xb2\xa1\x02\0\x04\0\0\0\0\0\0\0\0\0\xff\xff\0\0\x01\0\0\0\0",
            PcapError::CutRecord(1),
        ),
    ];
    for (bytes, error) in rows {
        let file = Vec::from_slice(rt.alloc(), bytes)?;
        assert_eq!(rt; read(rt.alloc(), file).err(), Some(error));
    }
    Ok(())
}
