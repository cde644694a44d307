/// What becomes of a packet that misses, as far as the waiting list decides it.
#[derive(Clone, Copy, Debug, PartialEq, Eq)]
pub enum Room {
    /// The entry of its source and group has four packets.
    PacketsFull,
    /// It joins the entry of its source and group.
    Join,
    /// It would need an entry, and they are at their limit.
    EntriesFull,
    /// It makes an entry.
    New,
}

/// Why a packet was not parked.
#[derive(Clone, Copy, Debug, PartialEq, Eq)]
pub enum ParkError {
    /// It would need an entry, and they are at their limit.
    EntriesFull = 1,
    /// The entry of its source and group has four packets.
    PacketsFull = 2,
}
