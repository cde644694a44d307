//! The packets of one lane in a phase.

ghost use Rattle.std.specs.Prelude.{◌≡◌, ◌<◌, ◌+◌, length, map};
ghost use Rattle.mr_load.specs.Dues.{sent_of};
ghost use Rattle.mr_replay.specs.Lanes.{HasSent, Hands, IsReady, LaneFits, due_in, next_due};
ghost use Rattle.mr_replay.specs.Lanes.{own_of};

use mr_base::Gate;
use mr_book::BookName;
use mr_load::LanePackets;
use mr_router::{Lane, Router, RunName};
use std::sync::Wait;

/// The lane's packet at a place, its next one, is decided once the gate has let it pass.
fn send<B: BookName, C: RunName, R: Wait, G: Gate>(
    rt: &R,
    router: &Router<B, C>,
    gate: &G,
    lane: &mut Lane<B, C>,
    packets: &LanePackets,
    place: usize,
)
    requires lane { lane.old.lane ≡ packets.now.lane }
    requires fits { LaneFits C.limits packets.now }
    requires sent { HasSent packets.now place (own_of lane.old) }
    requires within { place < length packets.now.packets }
    ensures sends { Hands (map sent_of (next_due place packets.now.packets)) lane.old lane.new }
    ensures sent { HasSent packets.now (place + 1) (own_of lane.new) }
{
    packets.facts();
    let packet = packets.packet(place);
    gate.pass(packet.lane, packet.index);
    lane.packet(rt, router, gate, packet);
}

/// The packets of a lane that are due in a phase, one after another, from its next one on.
pub fn send_due<B: BookName, C: RunName, R: Wait, G: Gate>(
    rt: &R,
    router: &Router<B, C>,
    gate: &G,
    lane: &mut Lane<B, C>,
    packets: &LanePackets,
    phase: u32,
)
    requires lane { lane.old.lane ≡ packets.now.lane }
    requires fits { LaneFits C.limits packets.now }
    requires ready { IsReady phase packets.now (own_of lane.old) }
    ensures sends { Hands (map sent_of (due_in phase packets.now.packets)) lane.old lane.new }
    ensures ready { IsReady (phase + 1) packets.now (own_of lane.new) }
{
    packets.facts();
    let first = packets.len() - lane.left() as usize;
    for place in first..packets.len() {
        if packets.phase(place) != phase {
            return;
        }
        send(rt, router, gate, lane, packets, place);
    }
}
