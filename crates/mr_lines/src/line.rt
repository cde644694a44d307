use crate::skip::Skip;
use crate::tail::{RouteLine, VifLine};
use mr_base::{DaemonNo, LaneNo};
use mr_model::{FastRecord, FateLine, MessageId, Outcome, ReleasedId, Reply, Request};

/// One line of a history's text, by itself. The number of an entry is that which its line begins
/// with.
#[derive(Debug, Drop)]
pub enum Line {
    /// `history 1`
    History,
    Skip(Skip),
    /// The first line of a call; its released packets follow, a line each.
    Call {
        number: u64,
        daemon: DaemonNo,
        request: Request,
        reply: Reply,
    },
    Released(ReleasedId),
    Slow {
        number: u64,
        lane: LaneNo,
        index: u32,
        look: u32,
        outcome: Outcome,
    },
    /// The first line of a settle; so many records follow, a line each.
    Settle {
        number: u64,
        lane: LaneNo,
        count: u64,
    },
    Record(FastRecord),
    Tick {
        number: u64,
        daemon: DaemonNo,
        ms: u32,
    },
    Recv {
        number: u64,
        daemon: DaemonNo,
        message: Option<MessageId>,
    },
    Phase {
        number: u64,
    },
    Route(RouteLine),
    Vif(VifLine),
    Fate(FateLine),
    /// `end`
    End,
}
