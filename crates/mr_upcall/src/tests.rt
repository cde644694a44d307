use crate::*;
use mr_base::{Addr, Few, Head, LaneNo};
use mr_model::{Kind, MessageId};
use std::test::Fail;

/// The head of a UDP packet of 28 bytes from 10.0.0.9 to 239.1.1.1 with ident 1 and TTL 2.
const HEAD: [u8; 20] = [
    0x45, 0, 0, 0x1C, 0, 1, 0, 0, 2, 17, 0xBE, 0xC5, 10, 0, 0, 9, 239, 1, 1, 1,
];

/// What follows it in the packet.
const BODY: [u8; 8] = [3, 0xE8, 3, 0xE9, 0, 8, 0, 0];

#[tactic(auto, unfolding(mr_base::specs::Heads::is_head, mr_base::specs::Heads::cause_in))]
fn head() -> Head {
    Head {
        bytes: Few::from_slice(&HEAD),
        length: 28,
        ttl: 2,
        src: Addr(0x0A00_0009),
        dst: Addr(0xEF01_0101),
    }
}

fn upcall(kind: Kind, vif: u8, index: u32) -> Upcall {
    let lane = LaneNo(1);
    Upcall {
        id: MessageId {
            kind,
            vif,
            lane,
            index,
        },
        head: head(),
    }
}

#[test]
fn bytes_of_reports(rt: HostRuntime) -> Result<(), Fail> {
    let rows: [(Kind, u8, &[u8]); 3] = [
        (
            Kind::NoCache,
            0,
            b"\x45\0\0\x1C\0\x01\0\0\x01\0\0\0\x0A\0\0\x09\xEF\x01\x01\x01\x01\0\0\0\0\0\0\0",
        ),
        (
            Kind::WrongVif,
            31,
            b"\x45\0\0\x1C\0\x01\0\0\x02\0\x1F\0\x0A\0\0\x09\xEF\x01\x01\x01\x02\0\0\0\0\0\0\0",
        ),
        (
            Kind::WholePkt,
            2,
            b"\x45\0\0\x30\0\x01\0\0\x03\0\x02\0\x0A\0\0\x09\xEF\x01\x01\x01\
              \x45\0\0\x1C\0\x01\0\0\x02\x11\xBE\xC5\x0A\0\0\x09\xEF\x01\x01\x01\
              \x03\xE8\x03\xE9\0\x08\0\0",
        ),
    ];
    for (kind, vif, bytes) in rows {
        let message = upcall(kind, vif, 1);
        let made = bytes_of(rt.alloc(), &message, &BODY).ok().ok_or("memory")?;
        assert_eq!(rt; made.as_slice(), bytes);
    }
    Ok(())
}

#[test]
fn sixty_four_reports(rt: HostRuntime) -> Result<(), Fail> {
    let mut queue = Queue::new();
    assert_eq!(rt; queue.len(), 0);
    assert!(rt; queue.pop().is_none());
    // The ring goes round its end: 40 are taken in between.
    for index in 1..=40 {
        assert!(rt; queue.push(upcall(Kind::NoCache, 0, index)).is_ok());
    }
    for index in 1..=40 {
        let oldest = queue.pop().ok_or("the oldest")?;
        assert_eq!(rt; oldest.id.index, index);
    }
    for index in 41..=104 {
        assert!(rt; queue.push(upcall(Kind::WrongVif, 1, index)).is_ok());
    }
    assert_eq!(rt; queue.len(), 64);
    let back = queue
        .push(upcall(Kind::WholePkt, 2, 105))
        .err()
        .ok_or("the 65th")?;
    assert_eq!(rt; (back.id.index, back.id.vif), (105, 2));
    for index in 41..=104 {
        let oldest = queue.pop().ok_or("the oldest")?;
        assert_eq!(rt; (oldest.id.index, oldest.head.length), (index, 28));
    }
    assert_eq!(rt; queue.len(), 0);
    assert!(rt; queue.push(upcall(Kind::NoCache, 0, 106)).is_ok());
    queue.clear();
    assert_eq!(rt; queue.len(), 0);
    assert!(rt; queue.pop().is_none());
    Ok(())
}
