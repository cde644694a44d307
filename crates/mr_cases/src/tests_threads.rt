use crate::tests::{replayed, store_of, told};
use mr_base::{Gate, LaneNo, ListClock, MemDoor, MemSink};
use mr_load::Status;
use mr_model::{Entry, Request};
use mr_replay::run;
use mr_text::read_history;
use std::alloc::AllocError;
use std::process::Abort;
use std::sync::Wait;
use std::sync::atomic::{AtomicBool, Ordering};
use std::test::Fail;
use std::thread;
use std::thread::Threads;

/// How often a lane that is held looks for the other.
const MOST_TURNS: u32 = 10_000_000;

/// A gate that holds each of two lanes until the other has come to it. It is marked where a lane
/// has waited for too long.
#[derive(Drop)]
struct Meeting {
    first: AtomicBool,
    second: AtomicBool,
    marked: AtomicBool,
}

impl Meeting {
    fn new() -> Meeting {
        Meeting {
            first: AtomicBool::new(false),
            second: AtomicBool::new(false),
            marked: AtomicBool::new(false),
        }
    }
}

impl Gate for Meeting {
    fn pass(&self, lane: LaneNo, _index: u32) {
        let (own, other) = if lane.0 == 1 {
            (&self.first, &self.second)
        } else {
            (&self.second, &self.first)
        };
        own.store(true, Ordering::SeqCst);
        for _ in 0..MOST_TURNS {
            if other.load(Ordering::SeqCst) {
                return;
            }
            thread::yield_now();
        }
        self.marked.store(true, Ordering::SeqCst);
    }
}

/// A run of a scenario that a gate holds up: its status.
fn run_at<R: AllocGlobal + Wait + Threads + Sync, G: Gate + Sync>(
    rt: &R,
    text: &str,
    gate: &G,
) -> Result<Status, AllocError> {
    let alloc = rt.alloc();
    let mut store = store_of(alloc, text)?;
    let mut out = MemSink::with(alloc, Vec::new(alloc));
    let Ok(mut door) = MemDoor::with(alloc, Vec::new(alloc), Vec::new(alloc)) else {
        return Err(AllocError);
    };
    let mut clock = ListClock::with(vec![in alloc; 0u64]?);
    let words = vec![in alloc;
        String::from_str(alloc, "replay")?,
        String::from_str(alloc, "f")?,
    ]?;
    Ok(run(
        rt,
        alloc,
        words.as_slice(),
        &mut store,
        &mut out,
        &mut door,
        &mut clock,
        gate,
    ))
}

/// Two lanes with a packet each.
const TWO_LANES: &str = "\
scenario 1
lanes 2
device eth0 10.0.0.1
phase
lane 1 pkt eth0 4500001c000100000211bec50a000009ef01010103e803e900080000
lane 2 pkt eth0 4500001c000100000211bec50a000009ef01010103e803e900080000
";

#[test]
fn lanes_meet_at_the_gate(rt: HostRuntime) -> Result<(), Fail> {
    let gate = Meeting::new();
    let status = run_at(&rt, TWO_LANES, &gate)?;
    assert_eq!(rt; status.number(), 0);
    assert!(rt; !gate.marked.load(Ordering::SeqCst));
    Ok(())
}

/// Four lanes and three daemons beside each other, in two phases.
const BESIDE: &str = "\
scenario 1
lanes 4
device eth0 10.0.0.1
device eth1 10.0.1.1
daemon admin
daemon admin
daemon admin
phase
lane 1 pkt eth0 4500001c000100000211bec50a000009ef01010103e803e900080000
lane 2 pkt eth0 4500001c000100000211bec50a000009ef01010103e803e900080000
lane 3 pkt eth1 4500001c000100000211bec50a000009ef01010103e803e900080000
lane 4 pkt eth0 45
lane 4 pkt eth1 4500001c000100000211bec50a000009ef01010103e803e900080000
lane 1 pkt eth1 4500001c000100000211bec50a000009ef01010103e803e900080000
daemon 1 addvif 0 8 @1
daemon 1 addvif 1 8 @2
daemon 2 tick 1
daemon 2 tick 2
daemon 3 assert 1
daemon 3 assert 0
daemon 2 tick 3
daemon 1 delvif 0
phase
lane 4 pkt eth0 4500001c000100000211bec50a000009ef01010103e803e900080000
lane 2 pkt eth0 4500001c000100000211bec50a000009ef01010103e803e900080000
lane 2 pkt eth0 4500001c000100000211bec50a000009ef01010103e803e900080000
daemon 2 tick 4
daemon 3 assert 1
daemon 1 delvif 1
";

/// What each of its callers did, by their numbers (lanes from 1, daemons from 17, 0 for the ends of
/// the phases), in its order: numbers as those of [`deed`].
const EACH: [(u32, &[u32]); 8] = [
    (0, &[0, 0]),
    (1, &[1, 2]),
    (2, &[1, 2, 3]),
    (3, &[1]),
    (4, &[2, 3]),
    (17, &[0, 1, 10, 11]),
    (18, &[1, 2, 3, 4]),
    (19, &[1, 0, 1]),
];

/// Who made an entry, and a number of what it did: the packet's, the milliseconds', the vif's, or
/// that of the switch.
fn deed(entry: &Entry) -> (u32, u32) {
    match entry {
        Entry::Slow { lane, index, .. } => (lane.0, *index),
        Entry::Tick { daemon, ms } => (daemon.0.saturating_add(16), *ms),
        Entry::Call {
            daemon,
            request,
            ..
        } => (daemon.0.saturating_add(16), asked(request)),
        _ => (0, 0),
    }
}

fn asked(request: &Request) -> u32 {
    match request {
        Request::AddVif(vif) => u32::from(vif.vif),
        Request::DelVif(vif) => 10 + u32::from(*vif),
        Request::Assert(on) => *on,
        Request::Init => 20,
        Request::AddMfc(entry) => 30 + u32::from(entry.ttls[1]),
        _ => 99,
    }
}

/// Checks that a scenario gives a history in which each caller's part is in order, whatever the
/// order of the callers.
pub fn check_parts<R: AllocGlobal + Abort + Wait + Threads + Sync>(
    rt: &R,
    text: &str,
    parts: &[(u32, &[u32])],
) -> Result<(), Fail> {
    let (status, taken) = replayed(rt, "replay f", text)?;
    assert_eq!(rt; told(&status), (0, 0, 0));
    let Ok(history) = read_history(rt.alloc(), taken.as_slice()) else {
        return Err("no history".into());
    };
    let entries = history.entries.0.as_slice();
    let mut count = 0usize;
    for (caller, want) in parts {
        check_part(rt, entries, *caller, want);
        count = count.saturating_add(want.len());
    }
    assert_eq!(rt; entries.len(), count);
    Ok(())
}

/// Checks what one caller did.
fn check_part<R: Abort>(rt: &R, entries: &[Entry], caller: u32, want: &[u32]) {
    let mut place = 0;
    for entry in entries {
        let (its, number) = deed(entry);
        if its == caller {
            assert_eq!(rt; Some(&number), want.get(place), "at {caller}");
            place += 1;
        }
    }
    assert_eq!(rt; place, want.len(), "at {caller}");
}

#[test]
fn each_caller_in_order(rt: HostRuntime) -> Result<(), Fail> {
    for _ in 0..20 {
        check_parts(&rt, BESIDE, &EACH)?;
    }
    Ok(())
}
