/// Why bytes do not begin with an accepted IPv4 head: the first cause that holds, in this order.
#[derive(Clone, Copy, Debug, PartialEq, Eq)]
pub enum HeadError {
    /// Fewer than 20 bytes.
    Short = 1,
    /// The version is not 4.
    Version = 2,
    /// The head's length is below 20, or above the number of bytes.
    HeaderLength = 3,
    /// The ones' complement sum of the head is not 0xFFFF.
    Checksum = 4,
    /// The total length is below the head's length, or above the number of bytes.
    TotalLength = 5,
    /// The destination is not in 224.0.0.0/4.
    NotMulticast = 6,
    /// The destination is in 224.0.0.0/24.
    LinkLocal = 7,
    /// The source is in 0.0.0.0/8, 127.0.0.0/8 or 224.0.0.0/4, or is 255.255.255.255.
    BadSource = 8,
}
