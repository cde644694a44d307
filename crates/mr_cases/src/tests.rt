ghost use Rattle.std.specs.Prelude.{◌≡◌, ◌≤◌, ◌∷◌, ◌++◌, [], false, length};

use crate::forwarded::FORWARDED;
use crate::waiting::WAITING;
use mr_base::{
    Failed, FileName, ListClock, Log, MemDoor, MemSink, MemStore, OpenGate, ReadError, Sink, Store,
    StoreCall,
};
use mr_load::Status;
use mr_replay::run;
use std::alloc::{AllocError, Global};
use std::process::Abort;
use std::sync::Wait;
use std::test::Fail;
use std::thread::Threads;

/// A store that has one file, `f`.
pub fn store_of(alloc: Global, text: &str) -> Result<MemStore, AllocError> {
    let file = (FileName::new("f"), Vec::from_slice(alloc, text.as_bytes())?);
    Ok(MemStore::with(alloc, vec![in alloc; file]?, Vec::new(alloc)))
}

/// A run of words over a store and a sink, with a door that has no links and a clock that stands
/// still.
pub fn ran<R: AllocGlobal + Wait + Threads + Sync, S: Store, K: Sink>(
    rt: &R,
    words: &str,
    store: &mut S,
    out: &mut K,
) -> Result<Status, AllocError> {
    let alloc = rt.alloc();
    let mut given = Vec::new(alloc);
    for word in words.split_whitespace() {
        given.push(String::from_str(alloc, word)?)?;
    }
    let Ok(mut door) = MemDoor::with(alloc, Vec::new(alloc), Vec::new(alloc)) else {
        return Err(AllocError);
    };
    let mut clock = ListClock::with(vec![in alloc; 0u64]?);
    Ok(run(
        rt,
        alloc,
        given.as_slice(),
        store,
        out,
        &mut door,
        &mut clock,
        &OpenGate,
    ))
}

/// A run of words over a store that has one file, `f`: its status, and the bytes that were taken.
pub fn replayed<R: AllocGlobal + Wait + Threads + Sync>(
    rt: &R,
    words: &str,
    text: &str,
) -> Result<(Status, Vec<u8>), AllocError> {
    let alloc = rt.alloc();
    let mut store = store_of(alloc, text)?;
    let mut out = MemSink::with(alloc, Vec::new(alloc));
    let status = ran(rt, words, &mut store, &mut out)?;
    Ok((status, Vec::from_slice(alloc, out.taken())?))
}

/// A status: its number, its line, and the number of its kind; 0 where it has none.
pub fn told(status: &Status) -> (u8, u32, u8) {
    match status {
        Status::Scenario { line, kind, .. } => (2, *line, kind.number()),
        Status::Conf { line, kind, .. } => (11, *line, kind.number()),
        other => (other.number(), 0, 0),
    }
}

/// What a scenario is refused with: its status, and how many bytes were taken.
pub fn refused<R: AllocGlobal + Wait + Threads + Sync>(
    rt: &R,
    text: &str,
) -> Result<((u8, u32, u8), usize), AllocError> {
    let (status, taken) = replayed(rt, "replay f", text)?;
    Ok((told(&status), taken.len()))
}

/// Two devices, the daemon, both vifs and one entry: lines 1 to 9.
pub const SETUP: &str = "\
scenario 1
device eth0 10.0.0.1
device eth1 10.0.1.1
daemon admin
phase
daemon 1 init
daemon 1 addvif 0 8 @1
daemon 1 addvif 1 8 @2
daemon 1 addmfc 10.0.0.9 239.1.1.1 0 1:1
";

/// The first lines of its history.
pub const CALLS: &str = "\
history 1
1 call 1 init = ok
2 call 1 addvif 0 8 @1 = ok
3 call 1 addvif 1 8 @2 = ok
4 call 1 addmfc 10.0.0.9 239.1.1.1 0 1:1 = ok
";

/// A packet of 28 bytes from 10.0.0.9 to 239.1.1.1 with TTL 2.
pub const PACKET: &str = "4500001c000100000211bec50a000009ef01010103e803e900080000";

/// The same with TTL 1.
const LAST_HOP: &str = "4500001c000100000111bfc50a000009ef01010103e803e900080000";

/// The same from 10.0.0.8.
pub const OTHER: &str = "4500001c000100000211bec60a000008ef01010103e803e900080000";

/// From 10.0.0.9 and from 10.0.0.8 to 239.1.1.1 with TTL 9.
const TO_ENTRY: &str = "4500001c000000000911b7c60a000009ef0101010000000000000000";

const TO_NONE: &str = "4500001c000000000911b7c70a000008ef0101010000000000000000";

/// Checks the histories of scenarios that begin with the setup.
fn check_after_setup<R: AllocGlobal + Abort + Wait + Threads + Sync>(
    rt: &R,
    more: &str,
    want: &str,
) -> Result<(), Fail> {
    let text = format!(in rt.alloc(); "{SETUP}{more}")?;
    let want = format!(in rt.alloc(); "{CALLS}{want}")?;
    check_history(rt, text.as_str(), want.as_str())
}

/// Checks that a scenario gives a history.
pub fn check_history<R: AllocGlobal + Abort + Wait + Threads + Sync>(
    rt: &R,
    text: &str,
    want: &str,
) -> Result<(), Fail> {
    let (status, taken) = replayed(rt, "replay f", text)?;
    assert_eq!(rt; told(&status), (0, 0, 0), "at {text}");
    assert_eq!(rt; taken.as_slice(), want.as_bytes(), "at {text}");
    Ok(())
}

#[test]
fn packets_forwarded(rt: HostRuntime) -> Result<(), Fail> {
    for (text, want) in FORWARDED {
        check_history(&rt, text, want)?;
    }
    Ok(())
}

#[test]
fn packets_that_wait(rt: HostRuntime) -> Result<(), Fail> {
    for (text, want) in WAITING {
        check_history(&rt, text, want)?;
    }
    Ok(())
}

/// A register vif whose daemon never asks: 64 reports are kept, and what comes then is lost.
#[test]
fn reports_lost(rt: HostRuntime) -> Result<(), Fail> {
    let alloc = rt.alloc();
    let mut text = format!(in alloc;
        "scenario 1\ndevice eth0 10.0.0.1\ndaemon admin\nphase\ndaemon 1 init\ndaemon 1 addvif 0 8 @1\ndaemon 1 addvif 1 4 0.0.0.0\ndaemon 1 addmfc 10.0.0.9 239.1.1.1 0 1:1\nphase\n"
    )?;
    let mut want = format!(in alloc;
        "history 1\n1 call 1 init = ok\n2 call 1 addvif 0 8 @1 = ok\n3 call 1 addvif 1 4 0.0.0.0 = ok\n4 call 1 addmfc 10.0.0.9 239.1.1.1 0 1:1 = ok\n5 phase\n"
    )?;
    for i in 0..64u32 {
        text = format!(in alloc; "{text}lane 1 pkt eth0 {TO_ENTRY}\n")?;
        want = format!(in alloc;
            "{want}{} slow 1 {} {} reg 4 0 1 told\n",
            6 + i,
            1 + i,
            5 + i
        )?;
    }
    text = format!(in alloc;
        "{text}lane 1 pkt eth0 {TO_ENTRY}\nlane 1 pkt eth0 {TO_NONE}\nlane 1 pkt eth0 {TO_NONE}\n"
    )?;
    want = format!(in alloc;
        "{want}70 slow 1 65 69 reg 4 0 1 lost\n71 slow 1 66 70 drop upcall\n72 slow 1 67 71 drop upcall\n73 phase\nroute 4 10.0.0.9 239.1.1.1 0 65 1820 0\nvif 0 eth0 65 0 1820 0\nvif 1 pimreg 0 65 0 1820\nend\n"
    )?;
    check_history(&rt, text.as_str(), want.as_str())
}

#[test]
fn histories(rt: HostRuntime) -> Result<(), Fail> {
    let cases = [
        ("scenario 1\nphase", "history 1\n1 phase\nend\n"),
        ("scenario 1", "history 1\nend\n"),
        (
            "scenario 1\nlanes 0\nlimit control 1\nphase\n",
            "history 1\n1 phase\nend\n",
        ),
        (
            "scenario 1\r\n\r\n\tdevice  eth0 10.0.0.1 # the office\ndaemon admin\nphase\ndaemon 1 init\nphase\nphase",
            "history 1\n1 call 1 init = ok\n2 phase\n3 phase\n4 phase\nend\n",
        ),
        (
            "scenario 1\ndaemon admin\ndevice eth0 10.0.0.1\nphase\ndaemon 1 addvif 0 8 @1\ndaemon 1 addmfc 10.0.0.9 239.1.1.1 0\n",
            "history 1\n1 call 1 addvif 0 8 @1 = ok\n2 call 1 addmfc 10.0.0.9 239.1.1.1 0 = ok\n3 phase\nroute 2 10.0.0.9 239.1.1.1 0 0 0 0\nvif 0 eth0 0 0 0 0\nend\n",
        ),
    ];
    for (text, want) in cases {
        check_history(&rt, text, want)?;
    }
    Ok(())
}

#[test]
fn entries_and_vifs(rt: HostRuntime) -> Result<(), Fail> {
    let cases = [
        (
            "",
            "5 phase\nroute 4 10.0.0.9 239.1.1.1 0 0 0 0\nvif 0 eth0 0 0 0 0\nvif 1 eth1 0 0 0 0\nend\n",
        ),
        (
            "daemon 1 addmfc 10.0.0.9 239.1.1.1 1 1:2 31:9 0:255\ndaemon 1 addmfc 10.0.0.8 0.0.0.0 31\n",
            "5 call 1 addmfc 10.0.0.9 239.1.1.1 1 0:255 1:2 31:9 = ok\n6 call 1 addmfc 10.0.0.8 0.0.0.0 31 = ok\n7 phase\nroute 4 10.0.0.9 239.1.1.1 1 0 0 0\nroute 6 10.0.0.8 0.0.0.0 31 0 0 0\nvif 0 eth0 0 0 0 0\nvif 1 eth1 0 0 0 0\nend\n",
        ),
        (
            "phase\ndaemon 1 addvif 31 8 @1\n",
            "5 phase\n6 call 1 addvif 31 8 @1 = ok\n7 phase\nroute 4 10.0.0.9 239.1.1.1 0 0 0 0\nvif 0 eth0 0 0 0 0\nvif 1 eth1 0 0 0 0\nvif 31 eth0 0 0 0 0\nend\n",
        ),
        // By address, by an address that is a number, by a number that is an address, and the
        // register vif.
        (
            "daemon 1 addvif 9 0 10.0.1.1\ndaemon 1 addvif 8 8 0.0.0.2\ndaemon 1 addvif 7 0 @167772161\ndaemon 1 addvif 5 4 0.0.0.0\n",
            "5 call 1 addvif 9 0 10.0.1.1 = ok\n6 call 1 addvif 8 8 @2 = ok\n7 call 1 addvif 7 0 10.0.0.1 = ok\n8 call 1 addvif 5 4 0.0.0.0 = ok\n9 phase\nroute 4 10.0.0.9 239.1.1.1 0 0 0 0\nvif 0 eth0 0 0 0 0\nvif 1 eth1 0 0 0 0\nvif 5 pimreg 0 0 0 0\nvif 7 eth0 0 0 0 0\nvif 8 eth1 0 0 0 0\nvif 9 eth1 0 0 0 0\nend\n",
        ),
    ];
    for (more, want) in cases {
        check_after_setup(&rt, more, want)?;
    }
    Ok(())
}

#[test]
fn packets(rt: HostRuntime) -> Result<(), Fail> {
    let cases = [
        (
            PACKET,
            "6 slow 1 1 5 fwd 4 0 1\n7 slow 1 2 6 fwd 4 0 1\n8 phase\nroute 4 10.0.0.9 239.1.1.1 0 2 56 0\nvif 0 eth0 2 0 56 0\nvif 1 eth1 0 2 0 56\nend\n",
        ),
        (
            LAST_HOP,
            "6 slow 1 1 5 fwd 4 0 -\n7 slow 1 2 6 fwd 4 0 -\n8 phase\nroute 4 10.0.0.9 239.1.1.1 0 2 56 0\nvif 0 eth0 2 0 56 0\nvif 1 eth1 0 0 0 0\nend\n",
        ),
    ];
    for (packet, want) in cases {
        // What stands behind the packet's own length does not count.
        let more = format!(in rt.alloc();
            "phase\nlane 1 pkt eth0 {packet}\nlane 1 pkt eth0 {packet}00\n"
        )?;
        let want = format!(in rt.alloc(); "5 phase\n{want}")?;
        check_after_setup(&rt, more.as_str(), want.as_str())?;
    }
    Ok(())
}

#[test]
fn one_packet(rt: HostRuntime) -> Result<(), Fail> {
    let phase = format!(in rt.alloc(); "phase\nlane 1 pkt eth0 {PACKET}\n")?;
    check_after_setup(
        &rt,
        phase.as_str(),
        "5 phase\n6 slow 1 1 5 fwd 4 0 1\n7 phase\nroute 4 10.0.0.9 239.1.1.1 0 1 28 0\nvif 0 eth0 1 0 28 0\nvif 1 eth1 0 1 0 28\nend\n",
    )?;
    // A register vif whose threshold the packet does not exceed takes nothing.
    let beside = format!(in rt.alloc();
        "daemon 1 addvif 2 4 0.0.0.0\ndaemon 1 addmfc 10.0.0.9 239.1.1.1 0 1:1 2:2\n{phase}"
    )?;
    check_after_setup(
        &rt,
        beside.as_str(),
        "5 call 1 addvif 2 4 0.0.0.0 = ok\n6 call 1 addmfc 10.0.0.9 239.1.1.1 0 1:1 2:2 = ok\n7 phase\n8 slow 1 1 7 fwd 4 0 1\n9 phase\nroute 4 10.0.0.9 239.1.1.1 0 1 28 0\nvif 0 eth0 1 0 28 0\nvif 1 eth1 0 1 0 28\nvif 2 pimreg 0 0 0 0\nend\n",
    )
}

#[test]
fn words(rt: HostRuntime) -> Result<(), Fail> {
    for words in [
        "",
        "replay",
        "replay out-x",
        "replay f f",
        "check f",
        "Replay f",
    ] {
        let (status, taken) = replayed(&rt, words, "scenario 1\n")?;
        assert_eq!(rt; told(&status), (1, 0, 0), "at {words}");
        assert_eq!(rt; taken.len(), 0);
    }
    Ok(())
}

#[test]
fn store_without_the_file(rt: HostRuntime) -> Result<(), Fail> {
    let (status, taken) = replayed(&rt, "replay g", "scenario 1\n")?;
    assert_eq!(rt; told(&status), (4, 0, 0));
    assert_eq!(rt; taken.len(), 0);
    Ok(())
}

/// A sink that takes nothing.
#[derive(Drop)]
struct Full {
    /// How often it was asked.
    asked: u64,
}

impl Sink for Full {
    ghost use Rattle.std.specs.Prelude.{None};

    ghost taken = { λ s. None };

    ghost faults = { λ s. s.asked };

    fn put(&mut self, bytes: &[u8]) -> Result<(), Failed> {
        self.asked = self.asked.saturating_add(1);
        Err(Failed)
    }
}

#[test]
fn sink_asked(rt: HostRuntime) -> Result<(), Fail> {
    let cases = [
        ("replay f", "scenario 1\nphase\n", 5, 1),
        ("replay f", "scenario 2\n", 2, 0),
        ("replay f", "scenario 1\nsmc a.conf\n", 4, 0),
        (
            "replay f",
            "scenario 1\nlimit control 1\ndaemon plain\nphase\ndaemon 1 init\ndaemon 1 init\n",
            8,
            0,
        ),
        ("replay g", "scenario 1\n", 4, 0),
        ("replay", "scenario 1\n", 1, 0),
    ];
    for (words, text, number, asked) in cases {
        let mut store = store_of(rt.alloc(), text)?;
        let mut out = Full { asked: 0 };
        let status = ran(&rt, words, &mut store, &mut out)?;
        assert_eq!(rt; (status.number(), out.asked), (number, asked), "at {text}");
    }
    Ok(())
}

/// A store each of whose files holds a scenario without phases.
#[derive(Drop)]
struct Same {
    /// How often it was read.
    asked: u64,
    last: StoreCall,
    calls: Log<StoreCall>,
}

impl Same {
    /// Keeps a call, which did not fail.
    fn keep(&mut self, is_read: bool, name: &str)
        requires { length name.now ≤ 255 }
        ensures last { self.new.last
            ≡ record { is_read = is_read; name = name.now; failed = false } }
        ensures calls { self.new.calls.items ≡ self.old.calls.items
            ++ record { is_read = is_read; name = name.now; failed = false } ∷ [] }
    {
        self.last = StoreCall {
            is_read,
            name: FileName::new(name),
            failed: false,
        };
        self.calls = self.calls.with(&self.last);
    }
}

impl Store for Same {
    ghost use Rattle.std.specs.Prelude.{None, false};

    ghost told = { λ s. None };

    ghost faults = { λ s. 0 };

    ghost last = { λ s. s.last };

    ghost calls = { λ s. s.calls.items };

    fn read(&mut self, alloc: Global, name: &str) -> Result<Vec<u8>, ReadError> {
        self.asked = self.asked.saturating_add(1);
        self.keep(true, name);
        match Vec::from_slice(alloc, b"scenario 1\n") {
            Ok(bytes) => Ok(bytes),
            Err(_) => Err(ReadError::Memory),
        }
    }

    fn write(&mut self, name: &str, bytes: &[u8]) -> Result<(), Failed> {
        self.keep(false, name);
        Ok(())
    }
}

#[test]
fn file_read_once(rt: HostRuntime) -> Result<(), Fail> {
    for (words, number, asked) in [("replay g", 0, 1), ("replay", 1, 0)] {
        let mut store = Same {
            asked: 0,
            last: StoreCall {
                is_read: true,
                name: FileName::new(""),
                failed: false,
            },
            calls: Log::new(),
        };
        let mut out = MemSink::with(rt.alloc(), Vec::new(rt.alloc()));
        let status = ran(&rt, words, &mut store, &mut out)?;
        assert_eq!(rt;
            (status.number(), store.asked),
            (number, asked),
            "at {words}"
        );
        // The last call is a read of the file, or none was made.
        assert!(rt; store.last.is_read);
        assert_eq!(rt; store.last.name.as_str(), if asked == 0 { "" } else { "g" });
    }
    Ok(())
}
