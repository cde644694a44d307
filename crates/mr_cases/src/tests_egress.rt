use crate::tests::{CALLS, OTHER, PACKET, SETUP, ran, store_of, told};
use mr_base::{FileName, MemSink, MemStore};
use std::process::Abort;
use std::test::Fail;

/// The header of an egress file: little-endian, microseconds, version 2.4, link type 228.
const HEADER: [u8; 24] = [
    0xd4, 0xc3, 0xb2, 0xa1, 2, 0, 4, 0, 0, 0, 0, 0, 0, 0, 0, 0, 0xff, 0xff, 0, 0, 0xe4, 0, 0, 0,
];

/// The head of a record of 28 bytes.
const RECORD: [u8; 16] = [0, 0, 0, 0, 0, 0, 0, 0, 0x1c, 0, 0, 0, 0x1c, 0, 0, 0];

/// The packet from 10.0.0.9 as it is sent on, with TTL 1.
const SENT: [u8; 28] = [
    0x45, 0, 0, 0x1c, 0, 1, 0, 0, 1, 0x11, 0xbf, 0xc5, 10, 0, 0, 9, 239, 1, 1, 1, 3, 0xe8, 3, 0xe9,
    0, 8, 0, 0,
];

/// The same of the one from 10.0.0.8.
const SENT_OTHER: [u8; 28] = [
    0x45, 0, 0, 0x1c, 0, 1, 0, 0, 1, 0x11, 0xbf, 0xc6, 10, 0, 0, 8, 239, 1, 1, 1, 3, 0xe8, 3, 0xe9,
    0, 8, 0, 0,
];

/// Checks that a file of a store is the header and these records.
fn check_file<R: AllocGlobal + Abort>(
    rt: &R,
    store: &MemStore,
    name: &str,
    copies: &[&[u8; 28]],
) -> Result<(), Fail> {
    let mut want = Vec::from_slice(rt.alloc(), &HEADER)?;
    for copy in copies {
        want.extend_from_slice(&RECORD)?;
        want.extend_from_slice(copy.as_slice())?;
    }
    let found = store.bytes(name).unwrap_or(&[]);
    assert_eq!(rt; found, want.as_slice(), "at {name}");
    Ok(())
}

/// A packet that is forwarded leaves on its output's device alone.
#[test]
fn one_copy(rt: HostRuntime) -> Result<(), Fail> {
    let alloc = rt.alloc();
    let text = format!(in alloc; "{SETUP}phase\nlane 1 pkt eth0 {PACKET}\n")?;
    let mut store = store_of(alloc, text.as_str())?;
    let mut out = MemSink::with(alloc, Vec::new(alloc));
    let status = ran(&rt, "replay f", &mut store, &mut out)?;
    assert_eq!(rt; told(&status), (0, 0, 0));
    check_file(&rt, &store, "out-eth0.pcap", &[])?;
    check_file(&rt, &store, "out-eth1.pcap", &[&SENT])
}

/// A packet that waited leaves where it is released, behind those before; two vifs on one device
/// give two copies, and the register vif gives none.
#[test]
fn copies_in_order(rt: HostRuntime) -> Result<(), Fail> {
    let alloc = rt.alloc();
    let text = format!(in alloc;
        "{SETUP}daemon 1 addvif 2 8 @2\ndaemon 1 addvif 3 4 0.0.0.0\nphase\nlane 1 pkt eth0 {OTHER}\nlane 1 pkt eth0 {PACKET}\nphase\ndaemon 1 addmfc 10.0.0.8 239.1.1.1 0 1:1 2:1 3:1\n"
    )?;
    let mut store = store_of(alloc, text.as_str())?;
    let mut out = MemSink::with(alloc, Vec::new(alloc));
    let status = ran(&rt, "replay f", &mut store, &mut out)?;
    assert_eq!(rt; told(&status), (0, 0, 0));
    check_file(&rt, &store, "out-eth0.pcap", &[])?;
    check_file(
        &rt,
        &store,
        "out-eth1.pcap",
        &[&SENT, &SENT_OTHER, &SENT_OTHER],
    )
}

/// Where the write of a file fails, the history is written whole, and the files before it.
#[test]
fn failed_writes(rt: HostRuntime) -> Result<(), Fail> {
    let alloc = rt.alloc();
    let text = format!(in alloc; "{SETUP}phase\nlane 1 pkt eth0 {PACKET}\n")?;
    for call in [2, 3] {
        let file = (FileName::new("f"), Vec::from_slice(alloc, text.as_bytes())?);
        let mut store = MemStore::with(alloc, vec![in alloc; file]?, vec![in alloc; call]?);
        let mut out = MemSink::with(alloc, Vec::new(alloc));
        let status = ran(&rt, "replay f", &mut store, &mut out)?;
        assert_eq!(rt; told(&status), (4, 0, 0));
        assert!(rt; out.taken().starts_with(CALLS.as_bytes()));
        assert!(rt; out.taken().ends_with(b"end\n"));
        assert!(rt; store.bytes("out-eth1.pcap").is_none());
        assert!(rt; store.bytes("out-eth0.pcap").is_some() == (call == 3));
    }
    Ok(())
}
