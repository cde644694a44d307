use mr_base::{Addr, LaneNo};

/// The kinds of report to the owner (IGMPMSG of mroute.h, 1 to 3).
#[derive(Clone, Copy, Debug, PartialEq, Eq)]
pub enum Kind {
    NoCache,
    WrongVif,
    WholePkt,
}

/// A report, named by the packet that caused it.
#[derive(Clone, Copy, Debug, PartialEq, Eq)]
pub struct MessageId {
    pub kind: Kind,
    pub vif: u8,
    pub lane: LaneNo,
    pub index: u32,
}

/// A report as a daemon gets it.
#[derive(Clone, Copy, Debug, PartialEq, Eq)]
pub struct Told {
    pub kind: Kind,
    pub vif: u8,
    pub src: Addr,
    pub dst: Addr,
}
