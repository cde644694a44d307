//! The history, each entry in little room: what is large lies in lists beside it.

use crate::seeing::{forward_of, part, slow_of};
use crate::small::{KeptRecord, Records};
use crate::view::EntryView;
use mr_base::{DaemonNo, LaneNo, Memory};
use mr_model::{Flow, MessageId, Outcome, ReleasedId, Reply, Request};
use std::alloc::{AllocError, Global};
use std::marker::Model;

/// An entry; what is large it names by its place in the lists beside it.
#[derive(Clone, Copy, Debug)]
pub(crate) enum Kept {
    /// A call, and where the packets lie that it released.
    Call {
        call: u32,
        first: u32,
        count: u32,
    },
    /// A packet that was forwarded plainly under the lock, by its record.
    Forward {
        lane: LaneNo,
        at: u32,
    },
    /// A packet with another outcome.
    Slow {
        slow: u32,
    },
    /// Where the records lie.
    Settle {
        lane: LaneNo,
        first: u32,
        count: u32,
    },
    Tick {
        daemon: DaemonNo,
        ms: u32,
    },
    Recv {
        daemon: DaemonNo,
        message: Option<MessageId>,
    },
    EndPhase,
}

/// A packet that was decided under the lock.
#[derive(Clone, Copy, Debug)]
pub(crate) struct KeptSlow {
    pub lane: LaneNo,
    pub index: u32,
    pub look: u32,
    pub flow: Flow,
    pub outcome: Outcome,
}

/// A control call and its answer.
#[derive(Clone, Copy, Debug)]
pub(crate) struct KeptCall {
    pub daemon: DaemonNo,
    pub request: Request,
    pub reply: Reply,
}

const _: () = prove!(size_of::<Kept>() <= 32);

/// How much there is room for.
#[derive(Clone, Copy, Debug)]
pub(crate) struct Spare {
    pub entries: usize,
    pub packets: usize,
    pub calls: usize,
    pub released: usize,
}

/// Contracts see the entries, and how much there is still room for.
#[derive(Debug, Drop)]
pub(crate) struct Store {
    pub kept: Vec<Kept>,
    pub records: Vec<KeptRecord>,
    pub slows: Vec<KeptSlow>,
    pub calls: Vec<KeptCall>,
    pub released: Vec<ReleasedId>,
}

impl Model for Store {
    ghost use Rattle.mr_history.specs.StoreValues.{StoreValue};

    ghost Value = { StoreValue };

    ghost use Rattle.mr_history.specs.Stores.{store_value, IsStore};

    ghost view = { store_value };

    ghost invariant = { IsStore };
}

impl Store {
    ghost use Rattle.std.specs.Prelude.{◌≡◌, ◌<◌, ◌^◌, [], length, IfOk, slice_get, Some};
    ghost use Rattle.mr_history.specs.Seen.{entry_seen, HasFew};
    ghost use Rattle.mr_history.specs.StoreValues.{LeavesRoom};

    /// No entry, and this much room.
    pub(crate) fn with(alloc: Global, room: Spare) -> Result<Store, Memory>
        requires entries { room.entries < 2 ^ 32 }
        requires packets { room.packets < 2 ^ 32 }
        requires calls { room.calls < 2 ^ 32 }
        requires released { room.released < 2 ^ 32 }
        ensures entries { IfOk result (λ s. s.entries ≡ []) }
        ensures room { IfOk result (λ s. LeavesRoom room s.spare 0 0 0 0) }
    {
        match Store::try_with(alloc, room) {
            Ok(store) => Ok(store),
            Err(_) => Err(Memory),
        }
    }

    fn try_with(alloc: Global, room: Spare) -> Result<Store, AllocError>
        requires entries { room.entries < 2 ^ 32 }
        requires packets { room.packets < 2 ^ 32 }
        requires calls { room.calls < 2 ^ 32 }
        requires released { room.released < 2 ^ 32 }
        ensures entries { IfOk result (λ s. s.entries ≡ []) }
        ensures room { IfOk result (λ s. LeavesRoom room s.spare 0 0 0 0) }
    {
        Ok(Store {
            kept: Vec::with_capacity(alloc, room.entries)?,
            records: Vec::with_capacity(alloc, room.packets)?,
            slows: Vec::with_capacity(alloc, room.packets)?,
            calls: Vec::with_capacity(alloc, room.calls)?,
            released: Vec::with_capacity(alloc, room.released)?,
        })
    }

    /// How many entries there are.
    pub(crate) fn len(&self) -> u32
        ensures { result ≡ length self.now.entries }
    {
        self.kept.as_slice().len() as u32
    }

    /// The entry at a place, counted from 0.
    pub(crate) fn entry(&self, place: u32) -> EntryView<'_>
        requires { place < length self.now.entries }
        ensures seen { slice_get self.now.entries place ≡ Some (entry_seen result) }
        ensures few { HasFew result }
    {
        match self.kept[place as usize] {
            Kept::Call { call, first, count } => {
                let call = &self.calls[call as usize];
                EntryView::Call {
                    daemon: call.daemon,
                    request: &call.request,
                    reply: call.reply,
                    released: part(self.released.as_slice(), first, count),
                }
            }
            Kept::Forward { lane, at } => forward_of(lane, &self.records[at as usize]),
            Kept::Slow { slow } => slow_of(&self.slows[slow as usize]),
            Kept::Settle { lane, first, count } => EntryView::Settle {
                lane,
                records: Records::new(part(self.records.as_slice(), first, count)),
            },
            Kept::Tick { daemon, ms } => EntryView::Tick { daemon, ms },
            Kept::Recv { daemon, message } => EntryView::Recv { daemon, message },
            Kept::EndPhase => EntryView::EndPhase,
        }
    }
}
