ghost use Rattle.std.specs.Prelude.{◌≡◌, ◌<◌, length};

use arrayvec::ArrayVec;
use mr_base::{Addr, Few};
use mr_model::Packet;

/// How many packets may wait for one entry (ipmr.c, ipmr_cache_unresolved).
pub const MOST_PACKETS: usize = 4;

/// The greatest limit on waiting entries.
pub const MOST_ENTRIES: u32 = 64;

/// How long packets wait, in milliseconds (ipmr.c, ipmr_cache_unresolved: 10 seconds).
pub const EXPIRY_MS: u64 = 10_000;

/// The packets of one source and group that wait for an (S,G) entry.
#[derive(Debug, Drop)]
pub struct Unresolved {
    pub src: Addr,
    /// The group.
    pub dst: Addr,
    /// The moment at which the first packet missed, in milliseconds.
    pub since: u64,
    /// The packets, oldest first.
    pub packets: Few<Packet, MOST_PACKETS>,
}

impl Unresolved {
    ghost use Rattle.mr_unres.specs.Entries.{entry_at, is_young, with_packet};

    /// The entry that a packet makes at this moment.
    pub(crate) fn new(packet: Packet, now: u64) -> Self
        ensures { result ≡ entry_at now packet }
    {
        let (src, dst) = (packet.head.src, packet.head.dst);
        let mut packets = ArrayVec::new();
        packets.push(packet);
        Unresolved {
            src,
            dst,
            since: now,
            packets: Few(packets),
        }
    }

    /// Whether it is younger than ten seconds at this moment.
    pub(crate) fn is_young(&self, now: u64) -> bool
        ensures { result ≡ is_young now self.now }
    {
        now.saturating_sub(self.since) < EXPIRY_MS
    }

    /// Adds a packet as the newest.
    pub(crate) fn push(&mut self, packet: Packet)
        requires { length self.old.packets < MOST_PACKETS }
        ensures { self.new ≡ with_packet packet self.old }
    {
        self.packets.0.push(packet);
    }

    /// How many packets it has.
    pub(crate) fn packet_count(&self) -> u32
        ensures { result ≡ length self.now.packets }
    {
        self.packets.0.len() as u32
    }

    /// Its packets, oldest first.
    pub fn into_packets(self) -> ArrayVec<Packet, MOST_PACKETS>
        ensures { result.items ≡ self.packets }
    {
        self.packets.0
    }
}
