//! An entry seen in place.

use crate::small::Records;
use mr_base::{DaemonNo, LaneNo};
use mr_model::{Flow, MessageId, Outcome, ReleasedId, Reply, Request};

/// One entry of the history, as it lies in the journal.
#[derive(Debug, Drop)]
pub enum EntryView<'a> {
    /// A control call, its answer, and the packets that it released.
    Call {
        daemon: DaemonNo,
        request: &'a Request,
        reply: Reply,
        released: &'a [ReleasedId],
    },
    /// A packet that was decided under the lock.
    Slow {
        lane: LaneNo,
        index: u32,
        look: u32,
        flow: Flow,
        outcome: Outcome,
    },
    /// Packets of a lane that were forwarded without the lock.
    Settle {
        lane: LaneNo,
        records: Records<'a>,
    },
    Tick {
        daemon: DaemonNo,
        ms: u32,
    },
    Recv {
        daemon: DaemonNo,
        message: Option<MessageId>,
    },
    EndPhase,
}
