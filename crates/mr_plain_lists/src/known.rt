//! What is known after a history, in plain lists.

ghost use Rattle.std.specs.Prelude.{◌≡◌};

use crate::routes::Routes;
use mr_base::{Addr, DaemonNo, LaneNo, Mask, VifRecord};
use mr_model::{Flow, MessageId};
use std::alloc::Global;

/// How many packets may wait for one entry.
pub const MOST_HELD: usize = mr_base::MOST_PACKETS;

/// A packet that waits.
#[derive(Clone, Copy, Debug)]
pub struct Held {
    pub lane: LaneNo,
    pub index: u32,
    pub flow: Flow,
}

/// The packets of one source and group that wait.
#[derive(Clone, Copy, Debug)]
pub struct Group {
    pub src: Addr,
    pub dst: Addr,
    /// The moment at which the first one missed, in milliseconds.
    pub since: u64,
    /// The first `count` are those that wait, oldest first.
    pub packets: [Held; MOST_HELD],
    pub count: usize,
}

/// An attempt to report a wrong interface.
#[derive(Clone, Copy, Debug)]
pub struct Tried {
    /// The number of the entry that was met.
    pub entry: u32,
    /// In milliseconds.
    pub moment: u64,
}

/// A packet that met an entry.
#[derive(Clone, Copy, Debug)]
pub struct Meeting {
    /// How many history entries there were where it was decided.
    pub place: u32,
    pub entry: u32,
    /// The vif on which it counts in.
    pub input: Option<u8>,
    pub outs: Mask,
    pub wrong: bool,
    /// Its total length, in bytes.
    pub length: u16,
}

/// What the state is after a history.
#[derive(Debug, Drop)]
pub struct Known {
    /// How many entries there are.
    pub count: u32,
    /// The daemon whose MRT_INIT holds.
    pub owner: Option<DaemonNo>,
    /// In the order in which they were added.
    pub vifs: Vec<VifRecord>,
    pub routes: Routes,
    pub pim: bool,
    pub asserts: bool,
    /// Milliseconds since the beginning.
    pub moment: u64,
    pub waiting: Vec<Group>,
    /// Oldest first.
    pub unread: Vec<MessageId>,
    /// Newest first.
    pub attempts: Vec<Tried>,
}

impl Known {
    ghost use Rattle.mr_model.specs.State.{first_state};
    ghost use Rattle.mr_plain_lists.specs.Knowing.{state_of};

    /// What is known before the first entry.
    pub fn new(alloc: Global) -> Known
        ensures { state_of result ≡ first_state }
    {
        let owner: Option<DaemonNo> = None;
        Known {
            count: 0,
            owner,
            vifs: Vec::new(alloc),
            routes: Routes::new(alloc),
            pim: false,
            asserts: false,
            moment: 0,
            waiting: Vec::new(alloc),
            unread: Vec::new(alloc),
            attempts: Vec::new(alloc),
        }
    }
}
