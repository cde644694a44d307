//! Packets that arrive, and those that wait (ipmr.c, `ip_mr_input` and `ipmr_cache_unresolved`).

ghost use Rattle.std.specs.Prelude.{◌≡◌, List, unwrap_or};
ghost use Rattle.mr_model.specs.declared.entry.Entry.{Entry};
ghost use Rattle.mr_model.specs.declared.limits.Limits.{Limits};
ghost use Rattle.mr_model.specs.declared.outcome.Outcome.TheVariants.{Parked};
ghost use Rattle.mr_model.specs.Outcome.{outcome_in};
ghost use Rattle.mr_model.specs.Messages.{no_cache};
ghost use Rattle.mr_model.specs.State.{State, arrived};
ghost use Rattle.mr_model.specs.VifList.{vif_on};
ghost use Rattle.mr_unres.specs.Entries.{NoneAfter, awaiting};
ghost use Rattle.mr_kernel.specs.Flows.{AreHeads, IsHeadOf, flow_of, back_by};
ghost use Rattle.mr_kernel.specs.Standing.{StandsFor};

use crate::live::Live;
use crate::reporting::{head_like, report};
use mr_model::{Flow, Kind, MessageId, Outcome, Packet};
use mr_upcall::Upcall;

/// The flow of a packet.
pub fn flow_of(packet: &Packet) -> Flow
    ensures { result ≡ flow_of packet.now }
{
    Flow {
        dev: packet.dev,
        src: packet.head.src,
        dst: packet.head.dst,
        ttl: packet.head.ttl,
        length: packet.head.length,
    }
}

/// The report of a packet that makes a waiting entry, with its head.
fn no_cache(live: &Live, packet: &Packet) -> Upcall
    ensures id { result.id ≡ no_cache
        (unwrap_or (vif_on live.now.tables.tables.vifs packet.now.dev) 0) packet.now.lane
        packet.now.index }
    ensures head { result.head ≡ packet.now.head }
{
    let vif = live.tables.vifs().of_device(packet.dev).unwrap_or(0);
    Upcall {
        id: MessageId {
            kind: Kind::NoCache,
            vif,
            lane: packet.lane,
            index: packet.index,
        },
        head: head_like(&packet.head),
    }
}

/// A packet that is to wait joins the entry of its source and group, or makes one, which is
/// reported.
fn park(live: &mut Live, packet: Packet)
    requires { NoneAfter live.old.moment (awaiting live.old.waiting.entries) }
    ensures stands { (limits : Limits) (s : State) → StandsFor limits s live.old →
        Parked ≡ outcome_in limits s (flow_of packet) →
        StandsFor limits (arrived s packet.lane packet.index (flow_of packet) Parked) live.new }
    ensures heads { (h : List Entry) → AreHeads h live.old.unread →
        IsHeadOf h packet.lane packet.index packet.head → AreHeads h live.new.unread }
    ensures tables { live.new.tables ≡ live.old.tables }
    ensures moment { live.new.moment ≡ live.old.moment }
{
    let upcall = no_cache(live, &packet);
    let moment = live.moment;
    if let Ok(true) = live.waiting.park(packet, moment) {
        let _ = live.unread.push(upcall);
    }
}

/// A packet arrives, of which this becomes. It comes back but where it waits.
pub fn arrive(live: &mut Live, packet: Packet, outcome: &Outcome) -> Option<Packet>
    requires { NoneAfter live.old.moment (awaiting live.old.waiting.entries) }
    ensures stands { (limits : Limits) (s : State) → StandsFor limits s live.old →
        outcome.now ≡ outcome_in limits s (flow_of packet) →
        StandsFor limits (arrived s packet.lane packet.index (flow_of packet) outcome.now)
        live.new }
    ensures heads { (h : List Entry) → AreHeads h live.old.unread →
        IsHeadOf h packet.lane packet.index packet.head → AreHeads h live.new.unread }
    ensures back { result ≡ back_by outcome.now packet }
    ensures tables { live.new.tables ≡ live.old.tables }
    ensures moment { live.new.moment ≡ live.old.moment }
{
    if let Outcome::Parked = outcome {
        park(live, packet);
        return None;
    }
    report(live, packet.lane, packet.index, &packet.head, outcome);
    Some(packet)
}
