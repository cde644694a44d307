//! The history as a list, and one entry of it in place.

ghost use Rattle.std.specs.Prelude.{◌≡◌, ◌<◌, length, slice_get, Some, map, IfOk};
ghost use Rattle.mr_history.specs.Seen.{entry_seen, HasFew};

use crate::journal::Journal;
use crate::store::Store;
use crate::view::EntryView;
use mr_base::{Few, List, Memory};
use mr_model::Entry;
use std::alloc::{AllocError, Global};

impl Journal {
    /// The entry at a place, counted from 0, in constant time.
    pub fn entry(&self, place: u32) -> EntryView<'_>
        requires { place < length self.now.entries }
        ensures { slice_get self.now.entries place ≡ Some (entry_seen result) }
    {
        self.store.entry(place)
    }

    /// The entries in order.
    ///
    /// # Errors
    ///
    /// [`Memory`] where memory runs out.
    pub fn entries(&self, alloc: Global) -> Result<Vec<Entry>, Memory>
        ensures { IfOk result (λ entries. entries.items ≡ self.now.entries) }
    {
        match all_entries(alloc, &self.store) {
            Ok(entries) => Ok(entries),
            Err(_) => Err(Memory),
        }
    }
}

/// All entries that are kept.
fn all_entries(alloc: Global, store: &Store) -> Result<Vec<Entry>, AllocError>
    ensures { IfOk result (λ entries. entries.items ≡ store.now.entries) }
{
    let mut entries = Vec::with_capacity(alloc, store.len() as usize)?;
    for place in 0..store.len() {
        let entry = copy_of(alloc, &store.entry(place))?;
        entries.push(entry)?;
    }
    Ok(entries)
}

/// An entry that is seen in place, with memory of its own.
pub(crate) fn copy_of(alloc: Global, seen: &EntryView<'_>) -> Result<Entry, AllocError>
    requires { HasFew seen.now }
    ensures { IfOk result (λ entry. entry ≡ entry_seen seen.now) }
{
    Ok(match seen {
        EntryView::Call {
            daemon,
            request,
            reply,
            released,
        } => Entry::Call {
            daemon: *daemon,
            request: **request,
            reply: *reply,
            released: Few::from_slice(released),
        },
        EntryView::Slow {
            lane,
            index,
            look,
            flow,
            outcome,
        } => Entry::Slow {
            lane: *lane,
            index: *index,
            look: *look,
            flow: *flow,
            outcome: *outcome,
        },
        EntryView::Settle { lane, records } => Entry::Settle {
            lane: *lane,
            records: List(records.to_vec(alloc)?),
        },
        EntryView::Tick { daemon, ms } => Entry::Tick {
            daemon: *daemon,
            ms: *ms,
        },
        EntryView::Recv { daemon, message } => Entry::Recv {
            daemon: *daemon,
            message: *message,
        },
        EntryView::EndPhase => Entry::EndPhase,
    })
}
