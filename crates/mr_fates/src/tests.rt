//! A worked row: two lanes, three packets parked, one ended.

use crate::Fates;
use mr_base::LaneNo;
use mr_model::{Fate, FateLine};
use std::test::Fail;

/// The line of a packet.
fn line(lane: u32, index: u32, fate: Fate) -> FateLine {
    FateLine {
        lane: LaneNo(lane),
        index,
        fate,
    }
}

#[test]
fn two_lanes(rt: HostRuntime) -> Result<(), Fail> {
    let Ok(mut fates) = Fates::with(rt.alloc(), &[2, 1]) else {
        return Err(Fail::from("memory"));
    };
    fates.park(LaneNo(1), 3);
    fates.park(LaneNo(2), 5);
    fates.park(LaneNo(1), 8);
    fates.end(LaneNo(1), 8, Fate::Released(4));
    fates.end(LaneNo(2), 8, Fate::Flushed(5));
    let lines = [
        line(1, 3, Fate::Waiting),
        line(2, 5, Fate::Waiting),
        line(1, 8, Fate::Released(4)),
    ];
    assert_eq!(rt; fates.lines(), lines.as_slice());
    assert_eq!(rt; fates.fate_of(LaneNo(1), 8), Some(Fate::Released(4)));
    assert_eq!(rt; fates.fate_of(LaneNo(2), 5), Some(Fate::Waiting));
    assert_eq!(rt; fates.fate_of(LaneNo(2), 8), None);
    Ok(())
}
