use crate::numbers::LaneNo;

/// A place where a lane may be held up before its packets, so that a test can choose an order.
pub trait Gate {
    /// A lane is about to take its packet of this index. A call that returns lets it go on.
    fn pass(&self, lane: LaneNo, index: u32);
}
