use crate::reply::{RouteTotals, VifTotals};
use mr_base::{LaneNo, List, Route, VifRecord};

/// What became of a packet that had to wait, with the number of the entry at which it did.
#[derive(Clone, Copy, Debug, PartialEq, Eq)]
pub enum Fate {
    /// A new entry released it.
    Released(u32),
    /// It waited too long.
    Expired(u32),
    /// The owner left, or the entries were flushed.
    Flushed(u32),
    /// It waits still.
    Waiting,
}

/// The fate of one packet.
#[derive(Clone, Copy, Debug, PartialEq, Eq)]
pub struct FateLine {
    pub lane: LaneNo,
    pub index: u32,
    pub fate: Fate,
}

/// What a history ends with.
#[derive(Debug, Drop)]
pub struct Ending {
    /// The live routes by rising number, with their totals.
    pub routes: List<(Route, RouteTotals)>,
    /// The live vifs by rising index, with their totals.
    pub vifs: List<(VifRecord, VifTotals)>,
    /// The fate of each packet that waited, in the order in which they began to.
    pub fates: List<FateLine>,
}
