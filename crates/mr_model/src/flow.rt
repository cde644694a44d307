use mr_base::Addr;

/// What the rules of forwarding need of a packet.
#[derive(Clone, Copy, Debug, Default, PartialEq, Eq)]
pub struct Flow {
    /// The number of the device on which it came, from 1.
    pub dev: u32,
    pub src: Addr,
    /// The group.
    pub dst: Addr,
    /// The time to live with which it came.
    pub ttl: u8,
    /// The total length, in bytes.
    pub length: u16,
}
