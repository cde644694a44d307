//! Packets that a new entry releases (ipmr.c, `ipmr_cache_resolve`).

ghost use Rattle.std.specs.Prelude.{◌≡◌, ◌≤◌, ◌∷◌, [], List, true, length, map, fold, IfNone};
ghost use Rattle.std.specs.Prelude.{IfSome};
ghost use Rattle.std.specs.List.{list_any};
ghost use Rattle.mr_model.specs.declared.entry.Entry.{Entry};
ghost use Rattle.mr_model.specs.declared.limits.Limits.{Limits};
ghost use Rattle.mr_model.specs.Answer.{release};
ghost use Rattle.mr_model.specs.Outcome.{judged};
ghost use Rattle.mr_model.specs.RouteList.{has_number};
ghost use Rattle.mr_model.specs.State.{State, reported, after_released};
ghost use Rattle.mr_unres.specs.Entries.{waiter_of};
ghost use Rattle.mr_kernel.specs.Flows.{AreHeads, AreOwnHeads, IsHeadOf, id_of};
ghost use Rattle.mr_kernel.specs.Standing.{StandsFor};

use crate::deciding::judge;
use crate::live::Live;
use crate::reporting::report;
use arrayvec::ArrayVec;
use mr_base::Route;
use mr_model::{Freed, Packet};
use mr_unres::MOST_PACKETS;

/// The packets that were taken out of the waiting entry of one source and group, oldest first.
pub type Packets = ArrayVec<Packet, MOST_PACKETS>;

/// A packet that waited meets the new entry.
fn free(live: &mut Live, route: &Route, packet: Packet) -> Freed
    ensures outcome { (limits : Limits) (s : State) → StandsFor limits s live.old →
        list_any (has_number route.now.number) s.tables.routes ≡ true →
        result.outcome ≡ judged s route.now packet.dev packet.head.ttl }
    ensures stands { (limits : Limits) (s : State) → StandsFor limits s live.old →
        list_any (has_number route.now.number) s.tables.routes ≡ true →
        StandsFor limits (reported s packet.lane packet.index result.outcome) live.new }
    ensures packet { result.packet ≡ packet }
    ensures heads { (h : List Entry) → AreHeads h live.old.unread →
        IsHeadOf h packet.lane packet.index packet.head → AreHeads h live.new.unread }
    ensures tables { live.new.tables ≡ live.old.tables }
    ensures moment { live.new.moment ≡ live.old.moment }
{
    let outcome = judge(live, route, packet.dev, packet.head.ttl);
    report(live, packet.lane, packet.index, &packet.head, &outcome);
    Freed { packet, outcome }
}

/// Takes the oldest of some packets.
fn pop_oldest(packets: &mut Packets) -> Option<Packet>
    ensures some { IfSome result (λ p. packets.old.items ≡ p ∷ packets.new.items) }
    ensures none { IfNone result (packets.old.items ≡ []) }
    ensures stays { IfNone result (packets.new.items ≡ []) }
{
    packets.pop_at(0)
}

/// The packets that waited meet the new entry, which is there, oldest first; what each tells and
/// attempts stands before the next.
pub fn release(live: &mut Live, route: &Route, packets: Packets) -> ArrayVec<Freed, MOST_PACKETS>
    requires { length packets.items ≤ MOST_PACKETS }
    ensures outcomes { (limits : Limits) (s : State) → StandsFor limits s live.old →
        list_any (has_number route.now.number) s.tables.routes ≡ true →
        map id_of result.items ≡ release s route.now (map waiter_of packets.items) }
    ensures stands { (limits : Limits) (s : State) → StandsFor limits s live.old →
        list_any (has_number route.now.number) s.tables.routes ≡ true →
        StandsFor limits (fold after_released s (map id_of result.items)) live.new }
    ensures packets { map (λ f. f.packet) result.items ≡ packets.items }
    ensures heads { (h : List Entry) → AreHeads h live.old.unread → AreOwnHeads h packets.items →
        AreHeads h live.new.unread }
    ensures tables { live.new.tables ≡ live.old.tables }
    ensures moment { live.new.moment ≡ live.old.moment }
{
    let mut waiting = packets;
    let mut freed = ArrayVec::new();
    while let Some(packet) = pop_oldest(&mut waiting) {
        freed.push(free(live, route, packet));
    }
    freed
}
