//! Packets that have waited too long, and those that are flushed (ipmr.c, `ipmr_expire_process`
//! and `mroute_clean_tables`).

ghost use Rattle.std.specs.Prelude.{◌≡◌, ◌+◌, ◌-◌, ◌^◌, ◌<◌, ◌≤◌, ◌++◌, [], length, map};
ghost use Rattle.std.specs.Prelude.{slice_index};
ghost use Rattle.mr_model.specs.declared.ending.Fate.TheVariants.{Expired, Flushed};
ghost use Rattle.mr_model.specs.declared.limits.Limits.{Limits};
ghost use Rattle.mr_model.specs.State.{State, ticked};
ghost use Rattle.mr_model.specs.WaitingList.{unexpired};
ghost use Rattle.mr_fates.specs.After.{ended_all, ended_each, expired};
ghost use Rattle.mr_fates.specs.Lines.{IsNext, lane_count};
ghost use Rattle.mr_unres.specs.Entries.{awaiting, waiter_of};
ghost use Rattle.mr_kernel.specs.Flows.{begun};
ghost use Rattle.mr_kernel.specs.Standing.{StandsFor};

use crate::live::Live;
use mr_base::LaneNo;
use mr_fates::Fates;
use mr_model::{Fate, Outcome, Packet};
use mr_unres::Waiting;

/// Gives the packets of an entry that is gone their fate.
fn end_packets(fates: &mut Fates, packets: &[Packet], fate: Fate)
    ensures lines { fates.new.lines ≡ ended_each fate (map waiter_of packets.now) fates.old.lines }
    ensures packets { fates.new.packets ≡ fates.old.packets }
{
    for packet in packets {
        fates.end(packet.lane, packet.index, fate);
    }
}

/// Drops the packets of the entries that have waited for ten seconds or more at this moment, by
/// the tick of this number.
pub fn expire(waiting: &mut Waiting, fates: &mut Fates, moment: u64, number: u32)
    ensures waiting { awaiting waiting.new.entries
        ≡ unexpired moment (awaiting waiting.old.entries) }
    ensures limit { waiting.new.limit ≡ waiting.old.limit }
    ensures lines { fates.new.lines
        ≡ ended_all (Expired number) (expired moment (awaiting waiting.old.entries))
        fates.old.lines }
    ensures packets { fates.new.packets ≡ fates.old.packets }
{
    while let Some(entry) = waiting.pop_expired(moment) {
        end_packets(fates, entry.packets.0.as_slice(), Fate::Expired(number));
    }
}

/// Drops all packets that wait, by the call of this number.
pub fn flush(waiting: &mut Waiting, fates: &mut Fates, number: u32)
    ensures waiting { waiting.new.entries ≡ [] }
    ensures limit { waiting.new.limit ≡ waiting.old.limit }
    ensures lines { fates.new.lines
        ≡ ended_all (Flushed number) (awaiting waiting.old.entries) fates.old.lines }
    ensures packets { fates.new.packets ≡ fates.old.packets }
{
    while let Some(entry) = waiting.pop() {
        end_packets(fates, entry.packets.0.as_slice(), Fate::Flushed(number));
    }
}

/// Time goes on by so many milliseconds, in the tick of this number.
pub fn tick(live: &mut Live, fates: &mut Fates, ms: u32, number: u32)
    requires { live.old.moment < 2 ^ 63 }
    ensures stands { (limits : Limits) (s : State) → StandsFor limits s live.old →
        StandsFor limits (ticked s ms) live.new }
    ensures lines { fates.new.lines ≡ ended_all (Expired number)
        (expired (live.old.moment + ms) (awaiting live.old.waiting.entries)) fates.old.lines }
    ensures packets { fates.new.packets ≡ fates.old.packets }
    ensures tables { live.new.tables ≡ live.old.tables }
    ensures unread { live.new.unread ≡ live.old.unread }
    ensures moment { live.new.moment ≡ live.old.moment + ms }
{
    let moment = live.moment + u64::from(ms);
    live.moment = moment;
    expire(&mut live.waiting, fates, moment, number);
}

/// A packet that is to wait gets its line of fates.
pub fn begin_fate(fates: &mut Fates, lane: LaneNo, index: u32, outcome: &Outcome)
    requires first { 1 ≤ lane.0 }
    requires last { lane.0 ≤ length fates.old.packets }
    requires next { IsNext lane index fates.old.lines }
    requires room { lane_count lane fates.old.lines < slice_index fates.old.packets (lane.0 - 1) }
    ensures lines { fates.new.lines ≡ fates.old.lines ++ begun lane index outcome.now }
    ensures packets { fates.new.packets ≡ fates.old.packets }
{
    match *outcome {
        Outcome::Parked => fates.park(lane, index),
        _ => {}
    }
}
