/// A record of a trace: a packet as it was captured, with its bytes where they lie in the file.
#[derive(Clone, Copy, Debug)]
pub struct Record<'a> {
    /// When, in seconds.
    pub sec: u32,
    /// When within the second: microseconds, or nanoseconds where the trace says so. Any number.
    pub frac: u32,
    /// How long the packet was before it was cut for the trace, in bytes. Any number.
    pub orig: u32,
    /// The bytes that were captured, from the link's head on.
    pub bytes: &'a [u8],
}
