use crate::flow::Flow;
use crate::message::MessageId;
use crate::outcome::Outcome;
use crate::reply::Reply;
use crate::request::Request;
use mr_base::{DaemonNo, Few, LaneNo, List, Mask};

/// A packet that a lane forwarded plainly, by a published copy of the tables.
#[derive(Clone, Copy, Debug, PartialEq, Eq)]
pub struct FastRecord {
    pub index: u32,
    /// How many history entries the tables had seen by which it was decided.
    pub look: u32,
    pub entry: u32,
    pub input: Option<u8>,
    pub outs: Mask,
    pub flow: Flow,
}

/// A waiting packet that a new entry released, and what became of it.
#[derive(Clone, Copy, Debug, Default, PartialEq, Eq)]
pub struct ReleasedId {
    pub lane: LaneNo,
    pub index: u32,
    pub outcome: Outcome,
}

/// One entry of the history. Entries are numbered from 1.
#[derive(Clone, Debug, Drop)]
pub enum Entry {
    /// A control call, its answer, and the packets that it released.
    Call {
        daemon: DaemonNo,
        request: Request,
        reply: Reply,
        released: Few<ReleasedId, 4>,
    },
    /// A packet that was decided under the lock.
    Slow {
        lane: LaneNo,
        index: u32,
        /// How many history entries the tables had seen by which it was first looked up.
        look: u32,
        flow: Flow,
        outcome: Outcome,
    },
    /// Packets of a lane that were forwarded without the lock, counted here.
    Settle {
        lane: LaneNo,
        records: List<FastRecord>,
    },
    /// The clock goes on by so many milliseconds.
    Tick {
        daemon: DaemonNo,
        ms: u32,
    },
    /// A daemon asks for the oldest unread report.
    Recv {
        daemon: DaemonNo,
        message: Option<MessageId>,
    },
    /// A phase of the scenario ends.
    EndPhase,
}
