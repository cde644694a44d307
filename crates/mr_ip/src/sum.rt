//! The checksum's sum (RFC 1071).
ghost use Rattle.std.specs.Prelude.{◌≡◌, ◌+◌, ◌*◌, ◌≤◌, ◌%◌, length};
ghost use Rattle.mr_base.specs.Heads as heads;
ghost use Rattle.mr_ip.specs.Sums as sums;

/// The big-endian number of four bytes.
fn four_of(a: u8, b: u8, c: u8, d: u8) -> u32
    ensures { result ≡ (a * 256 + b) * 65536 + (c * 256 + d) }
{
    u32::from_be_bytes([a, b, c, d])
}

/// A sum with all its carries added at the low end: 1 to 65,535, and 0 for 0.
fn carried(sum: u64) -> u16
    ensures { result ≡ sums.carried sum }
{
    if sum == 0 {
        0
    } else {
        ((sum - 1) % 65535 + 1) as u16
    }
}

/// The ones' complement sum of the big-endian numbers of 16 bits of a head. It adds 32 bits at a
/// time, and the carries at the end, which gives the same.
pub fn ones_sum(bytes: &[u8]) -> u16
    requires whole { length bytes.now % 4 ≡ 0 }
    requires few { length bytes.now ≤ 60 }
    ensures { result ≡ heads.ones_sum 0 bytes.now }
{
    let mut sum = 0_u64;
    let mut rest = bytes;
    while let [a, b, c, d, after @ ..] = rest {
        sum += u64::from(four_of(*a, *b, *c, *d));
        rest = after;
    }
    carried(sum)
}
