use crate::outcome::Outcome;
use mr_base::{Head, LaneNo};

/// A packet of a lane. It cannot be cloned: who holds it hands it over by moving it.
#[derive(Debug, Default, Drop)]
pub struct Packet {
    pub lane: LaneNo,
    /// Its item number in the lane, from 1.
    pub index: u32,
    /// The number of the device on which it came, from 1.
    pub dev: u32,
    pub head: Head,
}

/// A waiting packet that a new entry released, and what became of it.
#[derive(Debug, Default, Drop)]
pub struct Freed {
    pub packet: Packet,
    pub outcome: Outcome,
}
