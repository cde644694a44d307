//! A control call that is made.

ghost use Rattle.std.specs.Prelude.{◌≡◌, ◌+◌, ◌<◌, ◌≤◌, ◌∷◌, ◌++◌, [], List, true, fold, length};
ghost use Rattle.std.specs.Prelude.{map};
ghost use Rattle.std.specs.List.{AllByRecursion};
ghost use Rattle.mr_model.specs.declared.entry.Entry.{Entry};
ghost use Rattle.mr_model.specs.declared.entry.Entry.TheVariants.{Call};
ghost use Rattle.mr_model.specs.declared.limits.Limits.{Limits};
ghost use Rattle.mr_model.specs.declared.reply.Reply.TheVariants.{Good};
ghost use Rattle.mr_model.specs.Answer.{answer};
ghost use Rattle.mr_model.specs.Counts.{length_of};
ghost use Rattle.mr_model.specs.Legal.{IsDaemon};
ghost use Rattle.mr_model.specs.Past.{controls};
ghost use Rattle.mr_model.specs.State.{State, after_released};
ghost use Rattle.mr_fates.specs.Lines.{FateList};
ghost use Rattle.mr_history.specs.Journals.{NamesUpTo, with_entry};
ghost use Rattle.mr_kernel.specs.declared.plan.Plan.TheVariants.{Answer, Tables};
ghost use Rattle.mr_unres.specs.Entries.{waiter_of};
ghost use Rattle.mr_kernel.specs.Changing.{is_made, released_by};
ghost use Rattle.mr_kernel.specs.Flows.{AreHeads, AreKnown, AreOwnHeads, IsKnown, id_of};
ghost use Rattle.mr_kernel.specs.Holding.{Holds};
ghost use Rattle.mr_kernel.specs.Plans.{plan};
ghost use Rattle.mr_kernel.specs.Standing.{StandsFor};

use crate::changing::apply;
use crate::granting::{end_released, ids_of, lengths_of, set_owner, settle_waiting};
use crate::live::Live;
use crate::releasing::{Packets, release};
use arrayvec::ArrayVec;
use mr_base::{DaemonNo, Route};
use mr_fates::Fates;
use mr_history::Journal;
use mr_model::{Change, Freed, Reply, Request, What};
use mr_unres::MOST_PACKETS;

/// The packets that wait for a new entry meet it.
fn free(live: &mut Live, change: &Change, packets: Packets) -> ArrayVec<Freed, MOST_PACKETS>
    requires { length packets.items ≤ MOST_PACKETS }
    ensures outcomes { (limits : Limits) (s : State) → StandsFor limits s live.old →
        is_made change.now.number change.now.what s.tables.routes ≡ true →
        map id_of result.items
        ≡ released_by s change.now.number change.now.what (map waiter_of packets.items) }
    ensures stands { (limits : Limits) (s : State) → StandsFor limits s live.old →
        is_made change.now.number change.now.what s.tables.routes ≡ true →
        StandsFor limits (fold after_released s (map id_of result.items)) live.new }
    ensures few { length result.items ≤ MOST_PACKETS }
    ensures known { (h : List Entry) → AreKnown h packets.items →
        AllByRecursion (λ f. IsKnown h f.packet) result.items }
    ensures heads { (h : List Entry) → AreHeads h live.old.unread → AreOwnHeads h packets.items →
        AreHeads h live.new.unread }
    ensures tables { live.new.tables ≡ live.old.tables }
    ensures moment { live.new.moment ≡ live.old.moment }
{
    match change.what {
        What::NewRoute {
            src,
            dst,
            parent,
            ttls,
            fixed,
        } => {
            let route = Route {
                number: change.number,
                src,
                dst,
                parent,
                ttls,
                fixed,
            };
            release(live, &route, packets)
        }
        _ => ArrayVec::new(),
    }
}

/// What a call does that changes the tables, up to its entry in the journal.
fn make(
    live: &mut Live,
    journal: &mut Journal,
    fates: &mut Fates,
    daemon: DaemonNo,
    request: &Request,
    change: &Change,
) -> ArrayVec<Freed, MOST_PACKETS>
    requires daemon { IsDaemon journal.old.limits daemon }
    requires room { controls journal.old.entries < journal.old.limits.controls }
    requires plan { plan (record { limits = journal.old.limits; history = journal.old.entries })
        daemon request.now ≡ Tables change.now }
    requires holds { Holds journal.old live.old fates.old }
    ensures entries { journal.new.entries ≡ journal.old.entries }
    ensures limits { journal.new.limits ≡ journal.old.limits }
    ensures few { length result.items ≤ MOST_PACKETS }
    ensures lengths { map (λ f. f.packet.head.length) result.items
        ≡ map (λ r. length_of journal.new.entries r.lane r.index) (map id_of result.items) }
    ensures named { AllByRecursion (λ r. NamesUpTo (length journal.new.entries + 1) r.outcome)
        (map id_of result.items) }
    ensures released { map id_of result.items
        ≡ (answer journal.old.limits journal.old.entries daemon request.now).released }
    ensures reply { (answer journal.old.limits journal.old.entries daemon request.now).reply
        ≡ Good }
    ensures known { AllByRecursion (λ f. IsKnown journal.old.entries f.packet) result.items }
    ensures holds { Holds (with_entry journal.new
        (Call daemon request.now Good (map id_of result.items))) live.new fates.new }
{
    apply(live, journal, change);
    set_owner(live, daemon, request);
    let packets = settle_waiting(&mut live.waiting, fates, change);
    let freed = free(live, change, packets);
    end_released(fates, freed.as_slice(), change.number);
    freed
}

/// A call that changes the tables, and is answered `Good`.
pub fn change(
    live: &mut Live,
    journal: &mut Journal,
    fates: &mut Fates,
    daemon: DaemonNo,
    request: &Request,
    change: &Change,
) -> ArrayVec<Freed, MOST_PACKETS>
    requires daemon { IsDaemon journal.old.limits daemon }
    requires room { controls journal.old.entries < journal.old.limits.controls }
    requires plan { plan (record { limits = journal.old.limits; history = journal.old.entries })
        daemon request.now ≡ Tables change.now }
    requires holds { Holds journal.old live.old fates.old }
    ensures entries { journal.new.entries ≡ journal.old.entries
        ++ Call daemon request.now Good (map id_of result.items) ∷ [] }
    ensures limits { journal.new.limits ≡ journal.old.limits }
    ensures released { map id_of result.items
        ≡ (answer journal.old.limits journal.old.entries daemon request.now).released }
    ensures reply { (answer journal.old.limits journal.old.entries daemon request.now).reply
        ≡ Good }
    ensures known { AllByRecursion (λ f. IsKnown journal.old.entries f.packet) result.items }
    ensures holds { Holds journal.new live.new fates.new }
{
    let freed = make(live, journal, fates, daemon, request, change);
    let ids = ids_of(freed.as_slice());
    let lengths = lengths_of(freed.as_slice());
    journal.push_call(
        daemon,
        request,
        &Reply::Good,
        ids.as_slice(),
        lengths.as_slice(),
    );
    freed
}
