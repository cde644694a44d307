use crate::tests::{ran, told};
use mr_base::{FileName, MemSink, MemStore};
use mr_load::Status;
use std::alloc::{AllocError, Global};
use std::process::Abort;
use std::sync::Wait;
use std::test::Fail;
use std::thread::Threads;

/// The configuration of an office.
const OFFICE: &str = "\
# office
phyint eth0 enable ttl-threshold 1
phyint eth1 enable
phyint eth2 enable
mroute from eth0 source 10.0.0.9 group 239.1.1.1 to eth1 eth2
mroute from eth2 group 239.2.0.0/16 to eth1
";

/// Three devices.
const DEVICES: &str = "\
scenario 1
device eth0 10.0.0.1
device eth1 10.0.1.1
device eth2 10.0.2.1
";

/// A packet of 28 bytes from 10.0.0.9 to 239.1.1.1 with TTL 2.
const PACKET: [u8; 28] = [
    0x45, 0, 0, 0x1c, 0, 1, 0, 0, 2, 0x11, 0xbe, 0xc5, 10, 0, 0, 9, 239, 1, 1, 1, 3, 0xe8, 3, 0xe9,
    0, 8, 0, 0,
];

/// One record of 60 bytes more: a frame of this type that begins with these bytes.
fn frame(file: &mut Vec<u8>, kind: [u8; 2], bytes: &[u8]) -> Result<(), AllocError> {
    file.extend_from_slice(&[0; 8])?;
    file.extend_from_slice(&[60, 0, 0, 0, 60, 0, 0, 0])?;
    file.extend_from_slice(&[1, 1, 1, 1, 1, 1, 2, 2, 2, 2, 2, 2])?;
    file.extend_from_slice(&kind)?;
    file.extend_from_slice(bytes)?;
    for _ in bytes.len()..46 {
        file.push(0)?;
    }
    Ok(())
}

/// An Ethernet trace: a frame of ARP, and one that holds the packet and 18 bytes of padding.
fn trace(alloc: Global) -> Result<Vec<u8>, AllocError> {
    let mut file = Vec::from_slice(alloc, &[0xd4, 0xc3, 0xb2, 0xa1, 2, 0, 4, 0])?;
    file.extend_from_slice(&[0; 8])?;
    file.extend_from_slice(&[0xff, 0xff, 0, 0, 1, 0, 0, 0])?;
    frame(&mut file, [8, 6], &[])?;
    frame(&mut file, [8, 0], &PACKET)?;
    Ok(file)
}

/// A run of the scenario `f`, beside which a configuration and a trace lie: its status, and what
/// was taken.
fn driven<R: AllocGlobal + Wait + Threads + Sync>(
    rt: &R,
    text: &str,
    conf: &str,
) -> Result<(Status, Vec<u8>), AllocError> {
    let alloc = rt.alloc();
    let scenario = (FileName::new("f"), Vec::from_slice(alloc, text.as_bytes())?);
    let routes = (
        FileName::new("smcroute.conf"),
        Vec::from_slice(alloc, conf.as_bytes())?,
    );
    let packets = (FileName::new("in.pcap"), trace(alloc)?);
    let files = vec![in alloc; scenario, routes, packets]?;
    let mut store = MemStore::with(alloc, files, Vec::new(alloc));
    let mut out = MemSink::with(alloc, Vec::new(alloc));
    let status = ran(rt, "replay f", &mut store, &mut out)?;
    Ok((status, Vec::from_slice(alloc, out.taken())?))
}

/// The text of a history that an office comes to.
fn office_history(alloc: Global, first: &str, second: &str) -> Result<String, AllocError> {
    format!(in alloc;
        "\
history 1
skip 1 1 0
1 call 1 init = ok
2 call 1 addvif 0 8 @1 = ok
3 call 1 addvif 1 8 @2 = ok
4 call 1 addvif 2 8 @3 = ok
5 call 1 addmfc 10.0.0.9 239.1.1.1 0 1:1 2:1 = ok
6 phase
7 {first}
8 {second}
9 phase
10 recv 1 nocache 2 2 1
11 call 1 addmfc 10.0.2.7 239.2.3.4 2 1:1 = ok
- 2 1 fwd 11 2 1
12 recv 1 none
13 phase
route 5 10.0.0.9 239.1.1.1 0 1 28 0
route 11 10.0.2.7 239.2.3.4 2 1 28 0
vif 0 eth0 1 0 28 0
vif 1 eth1 0 2 0 56
vif 2 eth2 1 1 28 28
fate 2 1 released 11
end
"
    )
}

/// Two lanes send in one phase, so there are two histories.
#[test]
fn an_office(rt: HostRuntime) -> Result<(), Fail> {
    let alloc = rt.alloc();
    let text = format!(in alloc;
        "{DEVICES}\
lanes 2
smc smcroute.conf
phase
daemon 1 start
phase
lane 1 trace eth0 in.pcap
lane 2 pkt eth2 4500001c000100000911b3c30a000207ef02030403e803e900080000
phase
daemon 1 poll 4
"
    )?;
    let (status, taken) = driven(&rt, text.as_str(), OFFICE)?;
    assert_eq!(rt; told(&status), (0, 0, 0));
    let one = office_history(alloc, "slow 1 2 6 fwd 5 0 1,2", "slow 2 1 7 parked")?;
    let other = office_history(alloc, "slow 2 1 6 parked", "slow 1 2 7 fwd 5 0 1,2")?;
    let is_one = taken.as_slice() == one.as_bytes();
    assert!(rt; is_one || taken.as_slice() == other.as_bytes());
    Ok(())
}

/// Every request is made, whatever the replies: another daemon is the owner, so `init` is refused.
const REFUSED: &str = "\
history 1
1 call 1 init = ok
2 phase
3 call 2 init = err 98
4 call 2 addvif 0 8 @1 = ok
5 call 2 addvif 1 8 @2 = ok
6 call 2 addvif 2 8 @3 = ok
7 call 2 addmfc 10.0.0.9 239.1.1.1 0 1:1 2:1 = ok
8 recv 2 none
9 tick 2 5
10 phase
route 7 10.0.0.9 239.1.1.1 0 0 0 0
vif 0 eth0 0 0 0 0
vif 1 eth1 0 0 0 0
vif 2 eth2 0 0 0 0
end
";

#[test]
fn refused_requests(rt: HostRuntime) -> Result<(), Fail> {
    let alloc = rt.alloc();
    let text = format!(in alloc;
        "{DEVICES}\
daemon plain
smc smcroute.conf
phase
daemon 1 init
phase
daemon 2 start
daemon 2 poll 9
daemon 2 tick 5
daemon 2 smc show
"
    )?;
    let (status, taken) = driven(&rt, text.as_str(), OFFICE)?;
    assert_eq!(rt; told(&status), (0, 0, 0));
    assert_eq!(rt; taken.as_slice(), REFUSED.as_bytes());
    Ok(())
}

/// Each configuration is refused by its first bad line, and behind the scenario's own.
#[test]
fn refused_configurations(rt: HostRuntime) -> Result<(), Fail> {
    let smc = "scenario 1\nsmc smcroute.conf\n";
    let cases = [
        (smc, "", (0, 0, 0)),
        (smc, "phyint eth0 enable ttl-threshold 0\n", (11, 1, 5)),
        (smc, "# a\n\nphyint eth0 on\n", (11, 3, 1)),
        (smc, "mroute from eth0 group 10.1.1.1 to eth1\n", (11, 1, 2)),
        (smc, "phyint eth0 enable\nphyint eth0 disable\n", (11, 2, 3)),
        (smc, "mgroup from eth0 group 239.1.1.1/33\n", (11, 1, 4)),
        (
            "scenario 1\nsmc smcroute.conf\nlanes 17\n",
            "x\n",
            (2, 3, 3),
        ),
        ("scenario 1\nsmc a.conf smcroute.conf\n", "x\n", (4, 0, 0)),
        ("scenario 1\nsmc smcroute.conf a.conf\n", "x\n", (11, 1, 1)),
        ("scenario 1\nsmc smcroute.conf f\n", "", (11, 1, 1)),
    ];
    for (text, conf, wanted) in cases {
        let (status, taken) = driven(&rt, text, conf)?;
        assert_eq!(rt; told(&status), wanted, "at {text} and {conf}");
        assert_eq!(rt; taken.is_empty(), wanted.0 != 0, "at {text} and {conf}");
    }
    Ok(())
}

/// What a limit on control entries allows to two daemons.
fn limited<R: AllocGlobal + Abort + Wait + Threads + Sync>(
    rt: &R,
    most: u32,
) -> Result<(u8, u32, u8), AllocError> {
    let text = format!(in rt.alloc();
        "{DEVICES}\
limit control {most}
smc smcroute.conf
daemon plain
phase
daemon 1 start
daemon 2 recv
phase
daemon 1 poll 3
daemon 1 smc kill
"
    )?;
    let (status, taken) = driven(rt, text.as_str(), OFFICE)?;
    let written = status.number() == 0;
    assert_eq!(rt; taken.is_empty(), !written, "at {most}");
    Ok(told(&status))
}

/// Five requests of `start`, a report that is not there, the end, and one line of the other daemon.
#[test]
fn room(rt: HostRuntime) -> Result<(), Fail> {
    for most in 1..8 {
        assert_eq!(rt; limited(&rt, most)?, (8, 0, 0), "at {most}");
    }
    assert_eq!(rt; limited(&rt, 8)?, (0, 0, 0));
    Ok(())
}
