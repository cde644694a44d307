use crate::numbers::Addr;

/// A multicast forwarding entry (an (S,G) entry, or one with 0.0.0.0 in place of S, or of both).
#[derive(Clone, Copy, Debug, PartialEq, Eq)]
pub struct Route {
    /// The number of the history entry that made it.
    pub number: u32,
    /// The origin, 0.0.0.0 for any.
    pub src: Addr,
    /// The group, 0.0.0.0 for any.
    pub dst: Addr,
    /// The vif on which its packets have to come in, 0 to 31.
    pub parent: u8,
    /// For each vif the threshold that a packet's TTL has to exceed; 255 for none.
    pub ttls: [u8; 32],
    /// Whether it is static: kept when the owner leaves.
    pub fixed: bool,
}
