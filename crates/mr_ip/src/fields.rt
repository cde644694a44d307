//! Numbers that stand in the bytes of a head, big-endian.
ghost use Rattle.std.specs.Prelude.{◌≡◌, ◌+◌, ◌<◌, length};
ghost use Rattle.mr_base.specs.Heads as heads;

/// The number of 16 bits that stands at a place.
pub fn two_at(bytes: &[u8], at: usize) -> u16
    requires { at + 1 < length bytes.now }
    ensures { result ≡ heads.two_at bytes.now at }
{
    u16::from_be_bytes([bytes[at], bytes[at + 1]])
}

/// The number of 32 bits that stands at a place.
pub fn four_at(bytes: &[u8], at: usize) -> u32
    requires { at + 3 < length bytes.now }
    ensures { result ≡ heads.four_at bytes.now at }
{
    u32::from_be_bytes([bytes[at], bytes[at + 1], bytes[at + 2], bytes[at + 3]])
}

/// How many bytes the head has by its first byte: 0 to 60.
pub fn head_length(bytes: &[u8]) -> usize
    requires { 0 < length bytes.now }
    ensures { result ≡ heads.head_length bytes.now }
{
    4 * usize::from(bytes[0] % 16)
}
