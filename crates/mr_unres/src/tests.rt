//! Worked lists of calls, at moments in milliseconds.

ghost use Rattle.std.specs.Prelude.{◌≡◌, ◌+◌, ◌<◌, ◌≤◌, false};
ghost use Rattle.mr_unres.specs.Entries.{NoneAfter, awaiting};

use crate::{ParkError, Room, Waiting};
use mr_base::{Addr, LaneNo};
use mr_ip::make_head;
use mr_model::Packet;
use std::test::Fail;

/// 239.1.1.1
const GROUP: Addr = Addr(0xEF01_0101);

/// The address 10.0.0.HOST.
fn source(host: u8) -> Addr
    ensures { result.0 ≡ 167772160 + host }
{
    Addr(0x0A00_0000 + host as u32)
}

/// A packet of lane 1 from 10.0.0.HOST to 239.1.1.1.
fn packet(index: u32, host: u8) -> Packet {
    Packet {
        lane: LaneNo(1),
        index,
        dev: 1,
        head: make_head(0, 9, source(host), GROUP, 28),
    }
}

/// Parks a packet and tells how that went, by its index where it comes back. The next call may be
/// made at `later`.
fn park(
    waiting: &mut Waiting,
    index: u32,
    host: u8,
    now: u64,
    later: u64,
) -> Result<bool, (u32, ParkError)>
    requires order { now ≤ later }
    requires none_after { NoneAfter now (awaiting waiting.old.entries) }
    ensures { NoneAfter later (awaiting waiting.new.entries) }
{
    match waiting.park(packet(index, host), now) {
        Ok(new) => Ok(new),
        Err((packet, error)) => Err((packet.index, error)),
    }
}

#[test]
fn four_packets_and_no_fifth(rt: HostRuntime) -> Result<(), Fail> {
    let rows = [
        (1, Ok(true)),
        (2, Ok(false)),
        (3, Ok(false)),
        (4, Ok(false)),
        (5, Err((5, ParkError::PacketsFull))),
    ];
    let Ok(mut waiting) = Waiting::with(rt.alloc(), 10) else {
        return Err(Fail::from("memory"));
    };
    for (index, answer) in rows {
        assert_eq!(rt; park(&mut waiting, index, 9, 0, 0), answer);
    }
    assert_eq!(rt; waiting.room(source(9), GROUP), Room::PacketsFull);
    assert_eq!(rt; waiting.release(source(8), GROUP).len(), 0);
    let released = waiting.release(source(9), GROUP);
    let mut next = 1;
    for packet in released.as_slice() {
        assert_eq!(rt; packet.index, next);
        next = packet.index.wrapping_add(1);
    }
    assert_eq!(rt; next, 5);
    assert_eq!(rt; waiting.room(source(9), GROUP), Room::New);
    assert!(rt; waiting.is_empty());
    assert_eq!(rt; waiting.flush(), 0);
    Ok(())
}

#[test]
fn ten_entries_and_no_eleventh(rt: HostRuntime) -> Result<(), Fail> {
    let rows = [
        (1, 11, Ok(true)),
        (2, 12, Ok(true)),
        (3, 13, Ok(true)),
        (4, 14, Ok(true)),
        (5, 15, Ok(true)),
        (6, 16, Ok(true)),
        (7, 17, Ok(true)),
        (8, 18, Ok(true)),
        (9, 19, Ok(true)),
        (10, 20, Ok(true)),
        (11, 21, Err((11, ParkError::EntriesFull))),
    ];
    let Ok(mut waiting) = Waiting::with(rt.alloc(), 10) else {
        return Err(Fail::from("memory"));
    };
    for (index, host, answer) in rows {
        assert_eq!(rt; park(&mut waiting, index, host, 0, 0), answer);
    }
    assert_eq!(rt; (waiting.len(), waiting.limit()), (10, 10));
    assert_eq!(rt; waiting.room(source(21), GROUP), Room::EntriesFull);
    assert_eq!(rt; waiting.room(source(20), GROUP), Room::Join);
    assert_eq!(rt; waiting.flush(), 10);
    assert_eq!(rt; waiting.room(source(20), GROUP), Room::New);
    Ok(())
}

#[test]
fn ten_seconds(rt: HostRuntime) -> Result<(), Fail> {
    let Ok(mut waiting) = Waiting::with(rt.alloc(), 2) else {
        return Err(Fail::from("memory"));
    };
    assert_eq!(rt; park(&mut waiting, 1, 9, 0, 0), Ok(true));
    assert_eq!(rt; waiting.expire(9_999), 0);
    assert_eq!(rt; waiting.len(), 1);
    assert_eq!(rt; waiting.expire(10_000), 1);
    assert!(rt; waiting.is_empty());
    Ok(())
}

#[test]
fn from_the_oldest(rt: HostRuntime) -> Result<(), Fail> {
    let Ok(mut waiting) = Waiting::with(rt.alloc(), 4) else {
        return Err(Fail::from("memory"));
    };
    assert_eq!(rt; park(&mut waiting, 1, 9, 0, 0), Ok(true));
    assert_eq!(rt; park(&mut waiting, 2, 8, 0, 0), Ok(true));
    assert_eq!(rt; park(&mut waiting, 3, 8, 0, 1), Ok(false));
    assert_eq!(rt; park(&mut waiting, 4, 7, 1, 2), Ok(true));
    assert_eq!(rt; park(&mut waiting, 5, 6, 2, 2), Ok(true));
    assert_eq!(rt; waiting.release(source(9), GROUP).len(), 1);
    assert_eq!(rt; waiting.expire(10_001), 3);
    assert_eq!(rt; waiting.room(source(6), GROUP), Room::Join);
    assert_eq!(rt; waiting.len(), 1);
    Ok(())
}

#[test]
fn gaps_are_closed(rt: HostRuntime) -> Result<(), Fail> {
    let Ok(mut waiting) = Waiting::with(rt.alloc(), 2) else {
        return Err(Fail::from("memory"));
    };
    assert_eq!(rt; park(&mut waiting, 1, 9, 0, 0), Ok(true));
    for host in 10..30 {
        assert_eq!(rt; park(&mut waiting, 1, host, 0, 0), Ok(true));
        assert_eq!(rt; waiting.release(source(host), GROUP).len(), 1);
    }
    assert_eq!(rt; waiting.len(), 1);
    assert_eq!(rt; waiting.expire(10_000), 1);
    Ok(())
}

#[test]
fn one_by_one(rt: HostRuntime) -> Result<(), Fail> {
    let Ok(mut waiting) = Waiting::with(rt.alloc(), 4) else {
        return Err(Fail::from("memory"));
    };
    assert_eq!(rt; park(&mut waiting, 1, 9, 0, 0), Ok(true));
    assert_eq!(rt; park(&mut waiting, 2, 9, 0, 1), Ok(false));
    assert_eq!(rt; park(&mut waiting, 3, 8, 1, 1), Ok(true));
    let Some(first) = waiting.pop_expired(10_000) else {
        return Err(Fail::from("none has expired"));
    };
    assert_eq!(rt; (first.src, first.dst, first.since), (source(9), GROUP, 0));
    assert_eq!(rt; first.into_packets().len(), 2);
    assert!(rt; waiting.pop_expired(10_000).is_none());
    let Some(last) = waiting.pop() else {
        return Err(Fail::from("none waits"));
    };
    assert_eq!(rt; (last.src, last.since), (source(8), 1));
    assert!(rt; waiting.pop().is_none());
    Ok(())
}
