use mr_base::{DaemonNo, Few, LaneNo, List};
use mr_lines::{RouteLine, Skip, VifLine};
use mr_model::{Entry, FastRecord, FateLine, ReleasedId, Reply, Request};

/// The entry whose lines are read now.
#[derive(Debug, Drop)]
pub enum Current {
    /// None, or one whose lines have all come.
    Nothing,
    /// A call, with the packets that it has released so far.
    Call {
        daemon: DaemonNo,
        request: Request,
        reply: Reply,
        released: Few<ReleasedId, 4>,
    },
    /// A settle with its records so far, and how many lines are still due.
    Settle {
        lane: LaneNo,
        records: List<FastRecord>,
        left: u64,
    },
}

/// What the lines of a text have given so far.
#[derive(Debug, Drop)]
pub struct State {
    /// Whether the line `history 1` was read.
    pub begun: bool,
    pub skips: List<Skip>,
    /// The entries whose lines have all come.
    pub entries: List<Entry>,
    /// The first line of each entry, that of the current one among them.
    pub lines: List<u32>,
    pub current: Current,
    pub routes: List<RouteLine>,
    pub vifs: List<VifLine>,
    pub fates: List<FateLine>,
    /// Whether the line `end` was read.
    pub ended: bool,
}
