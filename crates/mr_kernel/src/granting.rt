//! What a good call does beside the tables: the owner, the packets that wait, and what is
//! released.

ghost use Rattle.std.specs.Prelude.{◌≡◌, ◌≤◌, List, Some, length, map};
ghost use Rattle.mr_model.specs.declared.entry.Entry.{Entry};
ghost use Rattle.mr_model.specs.declared.limits.Limits.{Limits};
ghost use Rattle.mr_model.specs.declared.reply.Reply.{Reply};
ghost use Rattle.mr_model.specs.declared.reply.Reply.TheVariants.{Good};
ghost use Rattle.mr_model.specs.declared.request.Request.{Request};
ghost use Rattle.mr_model.specs.declared.request.Request.TheVariants.{Init};
ghost use Rattle.mr_model.specs.State.{State, owner_by, unread_by};
ghost use Rattle.mr_fates.specs.After.{released_each};
ghost use Rattle.mr_unres.specs.Entries.{awaiting, waiter_of};
ghost use Rattle.mr_kernel.specs.Changing.{waiting_after, lines_after, freed_by};
ghost use Rattle.mr_kernel.specs.Flows.{AreHeads, id_of};
ghost use Rattle.mr_kernel.specs.Standing.{StandsFor};

use crate::expiring::flush;
use crate::live::Live;
use crate::releasing::{Packets, release};
use arrayvec::ArrayVec;
use mr_base::{DaemonNo, Route};
use mr_fates::Fates;
use mr_model::{Change, Fate, Freed, ReleasedId, Request, What};
use mr_tables::{MRT_FLUSH_MFC, has_flag};
use mr_unres::{MOST_PACKETS, Waiting};

/// The owner that a good call leaves; MRT_DONE empties the unread reports.
pub fn set_owner(live: &mut Live, daemon: DaemonNo, request: &Request)
    ensures owner { live.new.owner ≡ owner_by live.old.owner daemon request.now }
    ensures unread { map (λ u. u.id) live.new.unread
        ≡ unread_by (map (λ u. u.id) live.old.unread) request.now }
    ensures heads { (h : List Entry) → AreHeads h live.old.unread → AreHeads h live.new.unread }
    ensures tables { live.new.tables ≡ live.old.tables }
    ensures moment { live.new.moment ≡ live.old.moment }
    ensures waiting { live.new.waiting ≡ live.old.waiting }
    ensures attempts { live.new.attempts ≡ live.old.attempts }
{
    match *request {
        Request::Init => live.owner = Some(daemon),
        Request::Finish => {
            live.owner = None;
            live.unread.clear();
        }
        _ => {}
    }
}

/// What a change does to the packets that wait: a new entry takes those of its source and group,
/// which come out, and a flush of the entries drops all.
pub fn settle_waiting(waiting: &mut Waiting, fates: &mut Fates, change: &Change) -> Packets
    ensures waiting { awaiting waiting.new.entries
        ≡ waiting_after change.now.what (awaiting waiting.old.entries) }
    ensures limit { waiting.new.limit ≡ waiting.old.limit }
    ensures packets { map waiter_of result.items
        ≡ freed_by change.now.what (awaiting waiting.old.entries) }
    ensures few { length result.items ≤ MOST_PACKETS }
    ensures lines { fates.new.lines ≡ lines_after change.now.number change.now.what
        (awaiting waiting.old.entries) fates.old.lines }
    ensures lanes { fates.new.packets ≡ fates.old.packets }
{
    match change.what {
        What::NewRoute { src, dst, .. } => waiting.release(src, dst),
        What::Flush(flags) => {
            if has_flag(flags, MRT_FLUSH_MFC) {
                flush(waiting, fates, change.number);
            }
            ArrayVec::new()
        }
        _ => ArrayVec::new(),
    }
}

/// Gives the packets that call `number` released their fate.
pub fn end_released(fates: &mut Fates, freed: &[Freed], number: u32)
    ensures lines { fates.new.lines ≡ released_each number (map id_of freed.now) fates.old.lines }
    ensures lanes { fates.new.packets ≡ fates.old.packets }
{
    for one in freed {
        fates.end(one.packet.lane, one.packet.index, Fate::Released(number));
    }
}

/// The names of released packets and what became of them.
pub fn ids_of(freed: &[Freed]) -> ArrayVec<ReleasedId, MOST_PACKETS>
    requires { length freed.now ≤ MOST_PACKETS }
    ensures { result.items ≡ map id_of freed.now }
{
    let mut ids = ArrayVec::new();
    for one in freed {
        ids.push(ReleasedId {
            lane: one.packet.lane,
            index: one.packet.index,
            outcome: one.outcome,
        });
    }
    ids
}

/// The lengths of released packets, in bytes.
pub fn lengths_of(freed: &[Freed]) -> ArrayVec<u16, MOST_PACKETS>
    requires { length freed.now ≤ MOST_PACKETS }
    ensures { result.items ≡ map (λ f. f.packet.head.length) freed.now }
{
    let mut lengths = ArrayVec::new();
    for one in freed {
        lengths.push(one.packet.head.length);
    }
    lengths
}
